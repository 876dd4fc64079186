//! What is logged for an invalid command line. No clause covers it.
use crate::version::say_version;
use decimal_scale::plain_decimal;
use log::{Log, error};
use std::fmt::Display;

// The name of a command, the words after it with a blank before each, and what these may be.
static COMMANDS: [(&str, &str, &str); 9] = [
    (
        "serve",
        " ADDRESS CONNECTIONS PLACES",
        "an IP address or a host's name with a port, or the path of a Unix socket, with a /; 1 to 65536 connections at each place, 1 to 64 places",
    ),
    ("session", "", "no other word"),
    ("export", "", "no other word"),
    ("verify", "", "no other word"),
    (
        "make",
        " NUMBER EDITS",
        "a number below 2^64, 1 to 4096 edits",
    ),
    ("past", " CACHE", "1 to 8 generations are held"),
    (
        "catalog",
        " K N",
        "K 0 to 11, 1 to 4096 rows a tile above order K",
    ),
    (
        "mirror",
        " ADDRESS",
        "an IP address or a host's name with a port, or the path of a Unix socket, with a /",
    ),
    (
        "probe",
        " K N k p",
        "K 3 to 11, N 1 to 9, k 0 to K, p below 2^64",
    ),
];

// The numbers among the words after a command's name: of which command, which word, counted from 0, the least and the greatest.
static NUMBERS: [(&str, usize, u64, u64); 11] = [
    ("serve", 1, 1, 65_536),
    ("serve", 2, 1, 64),
    ("make", 0, 0, u64::MAX),
    ("make", 1, 1, 4096),
    ("past", 0, 1, 8),
    ("catalog", 0, 0, 11),
    ("catalog", 1, 1, 4096),
    ("probe", 0, 3, 11),
    ("probe", 1, 1, 9),
    ("probe", 2, 0, 11),
    ("probe", 3, 0, u64::MAX),
];

/// Logs what is wrong with the words of a command, and which words it takes; of a name that is no command's, which commands
/// there are, and which program this is.
pub(crate) fn say_commands<R: Log>(rt: &R, words: &[String]) {
    match words.split_first() {
        Some((name, given)) => say_command(rt, name.as_str(), given),
        None => {
            say(rt, &"no command is named, or a word is not UTF-8");
            say_all(rt);
        }
    }
}

// Logs it of the words after this name.
fn say_command<R: Log>(rt: &R, name: &str, given: &[String]) {
    for (command, wanted, bounds) in COMMANDS.iter() {
        if *command == name {
            say_wrong(rt, name, wanted, given);
            say(
                rt,
                &format_args!("the words are: hipsd {name}{wanted} ({bounds})"),
            );
            return;
        }
    }
    say(rt, &format_args!("there is no command {name:?}"));
    say_all(rt);
}

// Logs a line.
fn say<R: Log, T: Display>(rt: &R, line: &T) {
    error!(rt; "{line}");
}

// Logs which commands there are, and which program this is.
fn say_all<R: Log>(rt: &R) {
    say(rt, &"the commands are:");
    for (name, words, _) in COMMANDS.iter() {
        say(rt, &format_args!("  hipsd {name}{words}"));
    }
    say_version(rt);
}

// Logs what is wrong with the words after the name of a command: how many they are, or each number that isn't in its bounds.
fn say_wrong<R: Log>(rt: &R, name: &str, wanted: &str, given: &[String]) {
    let count = wanted.split_whitespace().count();
    let found = given.len();
    if found != count {
        say(
            rt,
            &format_args!("{name} takes {count} words after its name, and here are {found}"),
        );
        return;
    }
    for (command, at, least, greatest) in NUMBERS.iter() {
        if *command == name {
            say_bound(rt, wanted, given, *at, *least, *greatest);
        }
    }
    if name == "probe" {
        say_depth(rt, given);
    }
}

// Logs if a word is no number from `least` to `greatest`.
fn say_bound<R: Log>(rt: &R, wanted: &str, given: &[String], at: usize, least: u64, greatest: u64) {
    let shown = wanted.split_whitespace().nth(at).unwrap_or("");
    match number_at(given, at) {
        Some(number) if least <= number && number <= greatest => {}
        Some(number) => say(
            rt,
            &format_args!("{shown} = {number}: {least} to {greatest}"),
        ),
        None => {
            let word = word_at(given, at).as_bytes().escape_ascii();
            say(
                rt,
                &format_args!(
                    "{shown} = {word}: a number from {least} to {greatest}, in plain decimals"
                ),
            );
        }
    }
}

// Logs if the order that a probe asks for is deeper than that of its leaves.
fn say_depth<R: Log>(rt: &R, given: &[String]) {
    match (number_at(given, 0), number_at(given, 2)) {
        (Some(top), Some(order)) if top < order => {
            say(rt, &format_args!("k = {order}: 0 to K, which is {top}"));
        }
        _ => {}
    }
}

// The number that a word spells.
fn number_at(given: &[String], at: usize) -> Option<u64> {
    plain_decimal(word_at(given, at).as_bytes())
}

// A word, and the empty text where there is none.
fn word_at(given: &[String], at: usize) -> &str {
    match given.get(at) {
        Some(word) => word.as_str(),
        None => "",
    }
}

//! Faults of descriptions in words.
use crate::descriptions::with_line;
use std::alloc::Global;
use std::test::Fail;
use survey_conf::{Conf, ConfRefusal, FaultWords, likely_key};

// Another line in place of one of eight, from 0, or after them, and the fault of the description in words.
static WORDS: [(usize, &str, &str); 12] = [
    (8, "no sign", "line 9, no sign: there is no ="),
    (
        8,
        "\u{feff}key = 1",
        "line 9, \\xef\\xbb\\xbfkey = 1: a key is at most 64 of a to z, 0 to 9 and _, a letter first",
    ),
    (
        8,
        "key = \u{7f}",
        "line 9, key = \\x7f: a value is 1 to 1024 bytes, none of them a control character",
    ),
    (
        8,
        "0123456789012345678901234567890123456789012345678901234567890123456789012345678901234",
        "line 9, 01234567890123456789012345678901234567890123456789012345678901234567890123456789..: there is no =",
    ),
    (
        8,
        "survey_versions = 1",
        "line 9, survey_versions = 1: this version has no such key; survey_version is one",
    ),
    (
        8,
        "survey_colour = caf\u{e9}",
        "line 9, survey_colour = caf\\xc3\\xa9: this version has no such key, and survey_ is for its own",
    ),
    (
        8,
        "survey_rule = median",
        "line 9, survey_rule = median: only survey_version = 2 has this key",
    ),
    (
        8,
        "hips_order = 5",
        "line 9, hips_order = 5: the key stands in an earlier line",
    ),
    (
        4,
        "hips_order = 12\r",
        "line 5, hips_order = 12: an order is 3 to 11",
    ),
    (
        6,
        "survey_bitpix = 8",
        "line 8, survey_blank = -32768: it is a whole number that survey_bitpix can hold",
    ),
    (4, "# hips_order = 4", "missing: hips_order"),
    (7, "", "missing: survey_blank"),
];

// The first fault of a text in words; nothing where it has none.
fn words_of(alloc: Global, text: &[u8]) -> Result<String, ConfRefusal> {
    match Conf::read(alloc, text) {
        Err(ConfRefusal::Fault(fault)) => FaultWords::new(text, fault)
            .to_string(alloc)
            .map_err(|_| ConfRefusal::OutOfMemory),
        Err(refusal) => Err(refusal),
        Ok(_conf) => Ok(String::new(alloc)),
    }
}

#[test]
fn says_faults_in_words(rt: HostRuntime) -> Result<(), Fail> {
    let alloc = rt.alloc();
    for (at, line, words) in &WORDS {
        let said = words_of(alloc, &with_line(alloc, *at, line)?)?;
        assert!(rt; said.as_str() == *words, "{line}: {said}");
    }
    Ok(())
}

// A key, and the known one that it may be meant for.
static LIKELY: [(&str, Option<&str>); 7] = [
    ("hips_ordr", Some("hips_order")),
    ("hips_orders", Some("hips_order")),
    ("hips_0rder", Some("hips_order")),
    ("ips_order", Some("hips_order")),
    ("hips_order", None),
    ("hips_ordre", None),
    ("zeta", None),
];

#[test]
fn finds_the_likely_key(rt: HostRuntime) -> Result<(), Fail> {
    for (key, known) in &LIKELY {
        let found = likely_key(key.as_bytes());
        assert!(rt; found == known.map(|known| known.as_bytes()), "{key}");
    }
    Ok(())
}

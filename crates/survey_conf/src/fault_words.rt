//! What is wrong with a description, in words for whoever wrote it. What is shown stands in no clause; tests show it.
use crate::fault::{ConfFault, ConfKind};
use crate::key::{KNOWN, Key};
use crate::line::{content, is_key, is_skipped, pair, parts};
use std::fmt;

// The greatest number of bytes that are shown of a line that is no pair.
const MOST_SHOWN: usize = 80;

// What is said of pixels that are real numbers.
const FLOATING_POINT: &str =
    "it is 8, 16, 32 or 64; floating-point tiles have to be made again, by HipsGen with hips_pixel_bitpix=16 or 32";

/// A fault of a description in words: its line, the key, the value, and what is allowed, as in
/// `line 5, hips_order = 12: an order is 3 to 11`; or all keys that are missing. Of a line that is no key with a value its first 80
/// bytes are shown. All but printable ASCII is shown as `\xff` and the like.
#[derive(Clone, Copy)]
pub struct FaultWords<'a> {
    text: &'a [u8],
    fault: ConfFault,
}

impl<'a> FaultWords<'a> {
    /// The words for the fault of this text.
    pub fn new(text: &'a [u8], fault: ConfFault) -> FaultWords<'a> {
        FaultWords { text, fault }
    }
}

impl<'a> fmt::Display for FaultWords<'a> {
    fn fmt<W: fmt::Write>(&self, f: &mut fmt::Formatter<W>) -> fmt::Result {
        let line = self.fault.line;
        let Some(written) = written_at(self.text, line) else {
            return fmt_missing(self.text, f);
        };
        let Some((key, value)) = pair(written) else {
            return fmt_syntax(line, written, f);
        };
        write!(
            f,
            "line {line}, {} = {}: ",
            key.escape_ascii(),
            value.escape_ascii()
        )?;
        match self.fault.kind {
            ConfKind::Twice => f.write_str("the key stands in an earlier line"),
            ConfKind::Unknown => fmt_unknown(key, f),
            _ => fmt_allowed(key, value, f),
        }
    }
}

// Which values the key of a line takes, where it doesn't take this one.
fn fmt_allowed<W: fmt::Write>(key: &[u8], value: &[u8], f: &mut fmt::Formatter<W>) -> fmt::Result {
    match Key::of(key) {
        Some(Key::SurveyBitpix) if value.starts_with(b"-") => f.write_str(FLOATING_POINT),
        Some(key) => f.write_str(allowed(key)),
        None => f.write_str("not allowed"),
    }
}

// Which required keys are missing, and which keys may be meant for them.
fn fmt_missing<W: fmt::Write>(text: &[u8], f: &mut fmt::Formatter<W>) -> fmt::Result {
    let mut is_first = true;
    for key in KNOWN.iter().copied() {
        if key.is_required() && !has_line_for(text, key) {
            f.write_str(if is_first { "missing: " } else { ", " })?;
            write!(f, "{}", key.name().escape_ascii())?;
            fmt_meant(text, key, f)?;
            is_first = false;
        }
    }
    Ok(())
}

// Which key of the text may be meant for this one.
fn fmt_meant<W: fmt::Write>(text: &[u8], key: Key, f: &mut fmt::Formatter<W>) -> fmt::Result {
    for line in text.split(|byte| *byte == b'\n') {
        if let Some(meant) = key_for(content(line), key) {
            return write!(f, " (did you mean it by {}?)", meant.escape_ascii());
        }
    }
    Ok(())
}

// The key that is written in a line, where it may be meant for this one.
fn key_for(written: &[u8], key: Key) -> Option<&[u8]> {
    let (meant, _) = pair(written)?;
    match likely_key(meant) {
        Some(known) if known == key.name() && !is_skipped(written) => Some(meant),
        _ => None,
    }
}

// Why a line is no key with its value.
fn fmt_syntax<W: fmt::Write>(line: u64, written: &[u8], f: &mut fmt::Formatter<W>) -> fmt::Result {
    write!(f, "line {line}, ")?;
    match written.get(..MOST_SHOWN) {
        Some(front) => write!(f, "{}..: ", front.escape_ascii())?,
        None => write!(f, "{}: ", written.escape_ascii())?,
    }
    f.write_str(not_a_pair(written))
}

// What is missing in what is written to be a key with its value.
fn not_a_pair(written: &[u8]) -> &'static str {
    match parts(written) {
        None => "there is no =",
        Some((key, _)) if !is_key(key) => {
            "a key is at most 64 of a to z, 0 to 9 and _, a letter first"
        }
        Some(_) => "a value is 1 to 1024 bytes, none of them a control character",
    }
}

// Why a key is unknown.
fn fmt_unknown<W: fmt::Write>(key: &[u8], f: &mut fmt::Formatter<W>) -> fmt::Result {
    if Key::of(key).is_some() {
        return f.write_str("only survey_version = 2 has this key");
    }
    match likely_key(key) {
        Some(known) => write!(
            f,
            "this version has no such key; {} is one",
            known.escape_ascii()
        ),
        None => f.write_str("this version has no such key, and survey_ is for its own"),
    }
}

/// The known key that this unknown one may be meant for: one that differs by a single letter, put, left out or another.
pub fn likely_key(key: &[u8]) -> Option<&'static [u8]> {
    if Key::of(key).is_some() {
        return None;
    }
    for known in KNOWN.iter() {
        if is_one_letter_apart(key, known.name()) {
            return Some(known.name());
        }
    }
    None
}

// Whether a letter put, left out or changed makes one text of the other.
fn is_one_letter_apart(one: &[u8], other: &[u8]) -> bool {
    let same = one
        .iter()
        .zip(other.iter())
        .take_while(|(a, b)| a == b)
        .count();
    match (one.get(same..), other.get(same..)) {
        (Some(one), Some(other)) => is_one_letter(one, other),
        _ => false,
    }
}

// Whether one letter put, left out or changed at the front makes one text of the other.
fn is_one_letter(one: &[u8], other: &[u8]) -> bool {
    match (one, other) {
        ([_, behind @ ..], [_, beyond @ ..]) => {
            behind == beyond || one == beyond || behind == other
        }
        ([_], []) | ([], [_]) => true,
        _ => false,
    }
}

// What is written in a line, counted from 1.
fn written_at(text: &[u8], line: u64) -> Option<&[u8]> {
    let at = usize::try_from(line.checked_sub(1)?).ok()?;
    text.split(|byte| *byte == b'\n').nth(at).map(content)
}

// Whether a line has the key.
fn has_line_for(text: &[u8], key: Key) -> bool {
    text.split(|byte| *byte == b'\n')
        .any(|line| has_key(content(line), key))
}

// Whether what is written in a line has the key.
fn has_key(written: &[u8], key: Key) -> bool {
    !is_skipped(written) && pair(written).is_some_and(|pair| pair.0 == key.name())
}

// Which values a key takes.
fn allowed(key: Key) -> &'static str {
    match key {
        Key::CreatorDid | Key::ObsTitle | Key::HipsReleaseDate | Key::HipsStatus => "any value",
        Key::HipsOrder => "an order is 3 to 11",
        Key::HipsOrderMin => "the lowest order is 0 to 3",
        Key::HipsTileWidth => "a width is 2, 4, 8, 16, 32, 64, 128, 256 or 512",
        Key::SurveyBitpix => "it is 8, 16, 32 or 64",
        Key::SurveyBscale => "it is a real number that isn't 0, of at most 18 digits",
        Key::SurveyBzero => "it is a real number of at most 18 digits",
        Key::SurveyBlank => "it is a whole number that survey_bitpix can hold",
        Key::SurveyVersion => "a version is 1 or 2",
        Key::SurveyRule => "a rule is mean or median",
        Key::DataproductType => "it is image",
        Key::HipsVersion => "it is 1.4",
        Key::HipsFrame => "it is equatorial",
        Key::HipsTileFormat => "it is fits",
    }
}

//! What descriptions answer, and the faults of wrong ones.
use itoa::Buffer;
use parent_rule::Combine;
use std::alloc::{AllocError, Global};
use std::process::Abort;
use std::test::Fail;
use survey_conf::{Conf, ConfFault, ConfKind, ConfRefusal};

// A description of eight lines.
const LINES: [&str; 8] = [
    "creator_did = ivo://example/P/one",
    "obs_title = Survey one",
    "hips_release_date = 2024-05-01T00:00Z",
    "hips_status = public master clonable",
    "hips_order = 4",
    "hips_tile_width = 2",
    "survey_bitpix = 16",
    "survey_blank = -32768",
];

// Another line in place of the one of `LINES` at a place from 0, or after them, and the line and the kind of the fault, or
// `None` where the description is accepted.
static OUTCOMES: [(usize, &str, Option<(u64, u8)>); 51] = [
    (8, "no sign", Some((9, 1))),
    (8, "survey_odd", Some((9, 1))),
    (8, "Key = 1", Some((9, 1))),
    (8, "1st = 1", Some((9, 1))),
    (8, "a.b = 1", Some((9, 1))),
    (8, " = 1", Some((9, 1))),
    (8, "key = ", Some((9, 1))),
    (8, "key = a\tb", Some((9, 1))),
    (8, "key = a\x7fb", Some((9, 1))),
    (8, "survey_versions = 1", Some((9, 2))),
    (8, "survey_rule = median", Some((9, 2))),
    (8, "hips_order = 12", Some((9, 3))),
    (8, "creator_did = a", Some((9, 3))),
    (8, "key = a\nkey = a", Some((10, 3))),
    (4, "hips_order = 12", Some((5, 4))),
    (4, "hips_order = 2", Some((5, 4))),
    (5, "hips_tile_width = 3", Some((6, 4))),
    (5, "hips_tile_width = 1024", Some((6, 4))),
    (5, "hips_tile_width = 1", Some((6, 4))),
    (6, "survey_bitpix = -32", Some((7, 4))),
    (6, "survey_bitpix = 8", Some((8, 4))),
    (7, "survey_blank = -32769", Some((8, 4))),
    (7, "survey_blank = 9223372036854775808", Some((8, 4))),
    (8, "hips_order_min = 4", Some((9, 4))),
    (8, "hips_order_min = 00000000000000000003", Some((9, 4))),
    (8, "survey_bscale = 0.0E9", Some((9, 4))),
    (8, "survey_bzero = .", Some((9, 4))),
    (8, "survey_version = 3", Some((9, 4))),
    (8, "survey_rule = mode", Some((9, 4))),
    (8, "dataproduct_type = cube", Some((9, 4))),
    (8, "hips_version = 1.40", Some((9, 4))),
    (8, "hips_frame = galactic", Some((9, 4))),
    (8, "hips_tile_format = png", Some((9, 4))),
    (0, "#", Some((0, 5))),
    (1, "", Some((0, 5))),
    (2, "", Some((0, 5))),
    (3, "", Some((0, 5))),
    (4, "", Some((0, 5))),
    (6, "", Some((0, 5))),
    (7, "", Some((0, 5))),
    (4, "hips_order = 12\nhips_order_min = 9", Some((5, 4))),
    (0, "# one\n\n\t# three\nhips_order = 12", Some((4, 4))),
    (4, "hips_order = 04\r", None),
    (5, "# the default width", None),
    (8, "survey_version = +1", None),
    (8, "hips_order_min = -0", None),
    (8, "hips_order_min = 0000000000000000003", None),
    (8, " \t# a comment", None),
    (8, "\t \r", None),
    (8, "\t key_1 \t=\t caf\u{e9}\t", None),
    (8, "survey_version = 2\nsurvey_rule = mean", None),
];

// `LINES` with another one at place `at`, or after them.
pub(crate) fn with_line(alloc: Global, at: usize, other: &str) -> Result<Vec<u8>, AllocError> {
    let mut text = Vec::new(alloc);
    for (i, line) in LINES.iter().enumerate() {
        let line = if i == at { other } else { *line };
        text.extend_from_slice(line.as_bytes())?;
        text.push(b'\n')?;
    }
    if at == LINES.len() {
        text.extend_from_slice(other.as_bytes())?;
    }
    Ok(text)
}

// The fault of a text, as a line and the number of a kind.
fn fault(alloc: Global, text: &[u8]) -> Result<Option<(u64, u8)>, ConfRefusal> {
    match Conf::read(alloc, text) {
        Ok(_conf) => Ok(None),
        Err(ConfRefusal::Fault(fault)) => Ok(Some((fault.line, fault.kind.number()))),
        Err(refusal) => Err(refusal),
    }
}

// The fault of `LINES` with another one at place `at`, or after them.
fn fault_with_line(alloc: Global, at: usize, other: &str) -> Result<Option<(u64, u8)>, Fail> {
    let text = with_line(alloc, at, other)?;
    Ok(fault(alloc, &text)?)
}

#[test]
fn reports_the_first_fault(rt: HostRuntime) -> Result<(), Fail> {
    let alloc = rt.alloc();
    for (at, other, found) in &OUTCOMES {
        assert!(rt; fault_with_line(alloc, *at, other)? == *found, "{other}");
    }
    Ok(())
}

// How long a key and its value are, and the line and the kind of the fault.
static BOUNDS: [(usize, usize, Option<(u64, u8)>); 3] = [
    (64, 1024, None),
    (65, 1, Some((9, 1))),
    (1, 1025, Some((9, 1))),
];

// `LINES`, and after them a key and a value that are so long.
fn with_key(alloc: Global, key: usize, value: usize) -> Result<Vec<u8>, AllocError> {
    let mut text = with_line(alloc, 8, "")?;
    for _ in 0..key {
        text.push(b'k')?;
    }
    text.push(b'=')?;
    for _ in 0..value {
        text.push(0xff)?;
    }
    Ok(text)
}

// The fault of such a description.
fn fault_with_key(alloc: Global, key: usize, value: usize) -> Result<Option<(u64, u8)>, Fail> {
    let text = with_key(alloc, key, value)?;
    Ok(fault(alloc, &text)?)
}

#[test]
fn bounds_keys_and_values(rt: HostRuntime) -> Result<(), Fail> {
    for (key, value, found) in &BOUNDS {
        assert!(rt;
            fault_with_key(rt.alloc(), *key, *value)? == *found,
            "{key} {value}"
        );
    }
    Ok(())
}

#[test]
fn a_refusal_is_shown_as_two_numbers(rt: HostRuntime) -> Result<(), Fail> {
    let refusal = ConfRefusal::Fault(ConfFault {
        line: 5,
        kind: ConfKind::Range,
    });
    assert!(rt; refusal.to_string(rt.alloc())?.as_str() == "5 4");
    Ok(())
}

// Two keys of HiPS, two extra keys, one key whose value is a number, and one that is not there.
static ANSWERS: [(&str, Option<&str>); 6] = [
    ("creator_did", Some("ivo://example/P/one")),
    ("obs_title", Some("Survey one")),
    ("zeta", Some("26 = z")),
    ("alpha", Some("1")),
    ("hips_order", None),
    ("beta", None),
];

// Whether the description has that text at the key, or none.
fn has_text(conf: &Conf, key: &str, value: Option<&str>) -> bool {
    match (conf.value(key.as_bytes()), value) {
        (Some(found), Some(value)) => found == value.as_bytes(),
        (None, None) => true,
        _ => false,
    }
}

fn check_texts(rt: &impl Abort, conf: &Conf) {
    for (key, value) in &ANSWERS {
        assert!(rt; has_text(conf, key, *value), "{key}");
    }
    assert!(rt; conf.extra(0) == Some((b"zeta".as_slice(), b"26 = z".as_slice())));
    assert!(rt; conf.extra(1) == Some((b"alpha".as_slice(), b"1".as_slice())));
    assert!(rt; conf.extra(2).is_none());
}

fn check_numbers(rt: &impl Abort, conf: &Conf) {
    let shape = conf.shape();
    let depth = shape.depth;
    assert!(rt; shape.top == 4 && shape.low == 3 && shape.n == 1);
    assert!(rt;
        depth.bitpix() == 16 && depth.blank() == -32768 && depth.combine() == Combine::Median
    );
    assert!(rt; conf.bscale().mantissa() == 1 && conf.bscale().exp() == 0);
    assert!(rt; conf.bzero().mantissa() == 0 && conf.bzero().exp() == 0);
}

#[test]
fn answers_what_the_lines_say(rt: HostRuntime) -> Result<(), Fail> {
    let more = "survey_version = 2\r\nsurvey_rule = median\nzeta = 26 = z \nalpha=1";
    let conf = Conf::read(rt.alloc(), &with_line(rt.alloc(), 8, more)?)?;
    check_texts(&rt, &conf);
    check_numbers(&rt, &conf);
    Ok(())
}

// How many extra keys a long description has.
const MANY: u32 = 20_000;

// `LINES`, and after them `MANY` extra keys, each with the greatest value.
fn long_text(alloc: Global) -> Result<Vec<u8>, AllocError> {
    let mut text = with_line(alloc, 8, "")?;
    for i in 0..MANY {
        text.extend_from_slice(b"key_")?;
        text.extend_from_slice(Buffer::new().format(i).as_bytes())?;
        text.push(b'=')?;
        text.resize(text.len() + 1024, b'v')?;
        text.push(b'\n')?;
    }
    Ok(text)
}

static KEYS: [(&str, Option<usize>); 3] = [
    ("key_0", Some(1024)),
    ("key_19999", Some(1024)),
    ("key_20000", None),
];

fn check_long(rt: &impl Abort, conf: &Conf) {
    for (key, length) in &KEYS {
        let value = conf.value(key.as_bytes());
        assert!(rt; value.map(|value| value.len()) == *length, "{key}");
    }
    assert!(rt; conf.extra(19_999).is_some() && conf.extra(20_000).is_none());
}

#[test]
fn reads_a_long_description(rt: HostRuntime) -> Result<(), Fail> {
    let text = long_text(rt.alloc())?;
    let conf = Conf::read(rt.alloc(), &text)?;
    check_long(&rt, &conf);
    Ok(())
}

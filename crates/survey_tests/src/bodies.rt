//! Worked batches.
use edit_journal::Edit;
use parent_rule::Steps;
use small_files::{SURVEY, TILE_HEADER, tile_file};
use std::alloc::{AllocError, Global};
use std::process::Abort;
use std::test::Fail;
use survey_conf::Conf;
use survey_core::{batch_room, read_batch};

// Appends 1,023 removals to a body.
fn push_removals(body: &mut Vec<u8>) -> Result<(), AllocError> {
    for _ in 0..1_023 {
        body.extend_from_slice(b"remove 0\n")?;
    }
    Ok(())
}

// Appends a text to a body: `;` stands for a line feed, `@` for the file, and `#` for 1,023 removals.
fn push_text(body: &mut Vec<u8>, text: &str, file: &[u8]) -> Result<(), AllocError> {
    for byte in text.as_bytes() {
        match *byte {
            b';' => body.push(b'\n')?,
            b'@' => body.extend_from_slice(file)?,
            b'#' => push_removals(body)?,
            other => body.push(other)?,
        }
    }
    Ok(())
}

// The body of a text, whose file is that of a tile, 2,888 bytes.
pub(crate) fn body(alloc: Global, text: &str) -> Result<Vec<u8>, Fail> {
    let file = tile_file(alloc, TILE_HEADER, [1, 2, 3, 5])?;
    let mut body = Vec::new(alloc);
    push_text(&mut body, text, &file)?;
    Ok(body)
}

// The word of an edit.
fn word(edit: &Edit) -> &'static str {
    match edit {
        Edit::Put { .. } => "put",
        Edit::Add { .. } => "add",
        Edit::Replace { .. } => "replace",
        Edit::Remove { .. } => "remove",
    }
}

// Appends each edit as its word and its leaf.
fn push_edits(alloc: Global, text: &mut String, edits: &[Edit]) -> Result<(), AllocError> {
    for edit in edits {
        text.push_str(&format!(in alloc; " {} {}", word(edit), edit.leaf())?)?;
    }
    Ok(())
}

// How many steps it took to read edits, and these; where there are more than eight, how many there are.
fn shown(alloc: Global, steps: u64, edits: &[Edit]) -> Result<String, AllocError> {
    if edits.len() > 8 {
        return format!(in alloc; "{steps} {}", edits.len());
    }
    let mut text = format!(in alloc; "{steps}")?;
    push_edits(alloc, &mut text, edits)?;
    Ok(text)
}

// What is read of a body: how many steps that took, and the edits or the refusal.
fn answer(alloc: Global, conf: &Conf, body: &[u8]) -> Result<String, AllocError> {
    let mut steps = Steps::new();
    match read_batch(alloc, body, conf, &mut steps) {
        Ok(edits) => shown(alloc, steps.count(), &edits),
        Err(refusal) => format!(in alloc; "{} {refusal}", steps.count()),
    }
}

// Whether that is read of a body.
fn reads(alloc: Global, conf: &Conf, body: &[u8], expected: &str) -> Result<bool, AllocError> {
    let found = answer(alloc, conf, body)?;
    Ok(found.as_str() == expected)
}

// A body, and what is read of it.
static BODIES: &str = "put 0 2888;@remove 0;|1 put 0 remove 0
add 0 2888;@add 0 2888;@|2 add 0 add 0
replace 3071 2888;@|1 replace 3071
remove 3071;|0 remove 3071
|0 0 line
;|0 0 line
put 3072 2888;@|0 0 line
remove 3072;|0 0 line
put 0 2889;@|0 0 short
put 0 2887;@|0 0 9 truncated 1
put 0 0;|0 0 1 header 1
put 0 4294967295;|0 0 short
put 0 4294967296;|0 0 line
put 0 18446744073709551616;|0 0 line
put 18446744073709551616 2888;@|0 0 line
put 0 02888;@|0 0 line
put 00 2888;@|0 0 line
put +0 2888;@|0 0 line
put 0 2888 ;@|0 0 line
put  0 2888;@|0 0 line
put 0  2888;@|0 0 line
 put 0 2888;@|0 0 line
Put 0 2888;@|0 0 line
put 0;|0 0 line
remove 0 0;|0 0 line
remove 01;|0 0 line
remove -0;|0 0 line
remove ;|0 0 line
remove;|0 0 line
remove 0|0 0 line
remove 0;;|0 1 line
remove 0;remove 1;removes 2;|0 2 line
put 0 2888;@add 1 2888;@put 2 1;x|2 2 1 header 1
put 0 2888;@remove 5;put 2 2889;@|1 2 short
put 0 2888;@@|1 1 line
#remove 0;|0 1024
#remove 0;remove 0;|0 1024 many
#remove 0;x|0 1024 many
#x|0 1023 line";

// Whether that is read of the body of a row.
fn is_read(alloc: Global, conf: &Conf, row: &str) -> Result<bool, Fail> {
    let (text, expected) = row.split_once('|').ok_or("no answer")?;
    let body = body(alloc, text)?;
    Ok(reads(alloc, conf, &body, expected)?)
}

// What is read of the first `len` bytes of a body of two entries.
fn expected_of_cut(len: usize) -> &'static str {
    match len {
        0..11 => "0 0 line",
        11..2_899 => "0 0 short",
        2_899 => "1 put 0",
        2_900..2_908 => "1 1 line",
        _ => "1 put 0 remove 0",
    }
}

// A body that is cut at each byte.
fn all_are_cut<R: Abort>(rt: &R, alloc: Global, conf: &Conf, body: &[u8]) -> Result<(), Fail> {
    assert!(rt; body.len() == 2_908);
    for len in 0..body.len() {
        assert!(rt;
            reads(alloc, conf, &body[..len], expected_of_cut(len))?,
            "{len}"
        );
    }
    Ok(())
}

fn all_are_read<R: Abort>(rt: &R, alloc: Global, conf: &Conf) -> Result<(), Fail> {
    for row in BODIES.lines() {
        assert!(rt; is_read(alloc, conf, row)?, "{row}");
    }
    assert!(rt; batch_room(conf) == 437_760);
    let body = body(alloc, "put 0 2888;@remove 0;")?;
    all_are_cut(rt, alloc, conf, &body)
}

#[test]
fn bodies_are_read_entry_by_entry(rt: HostRuntime) -> Result<(), Fail> {
    let alloc = rt.alloc();
    let conf = Conf::read(alloc, SURVEY.as_bytes())?;
    all_are_read(&rt, alloc, &conf)
}

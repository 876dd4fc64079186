//! The bytes that the rows of the tables stand for.
//!
//! A row is the lines of a head with `;` between them, and behind a `|` the parts of a body with `&` between them. Each part
//! is a word and what it takes.

use small_files::{
    COVERAGE_COLUMN, COVERAGE_HEADER, COVERAGE_TABLE, MOSAIC_HEADER, cell_header, fill_block,
    header, properties_with,
};
use std::alloc::Global;
use std::test::Fail;

// The cards of a tile as an outside tool writes them, in two blocks.
static OUTSIDE: &str = "SIMPLE  =                    T / conforms to FITS
BITPIX  = 16
NAXIS   = 2
NAXIS1  = 2
NAXIS2  = 2
DATE    = '2024-05-01T00:00:00'
BSCALE  = 1.0 / scale
COMMENT   BLANK = 7
COMMENT   BZERO = 1
COMMENT 1\nCOMMENT 2\nCOMMENT 3\nCOMMENT 4\nCOMMENT 5\nCOMMENT 6\nCOMMENT 7\nCOMMENT 8\nCOMMENT 9
COMMENT 1\nCOMMENT 2\nCOMMENT 3\nCOMMENT 4\nCOMMENT 5\nCOMMENT 6\nCOMMENT 7\nCOMMENT 8\nCOMMENT 9
COMMENT 1\nCOMMENT 2\nCOMMENT 3\nCOMMENT 4\nCOMMENT 5\nCOMMENT 6\nCOMMENT 7\nCOMMENT 8\nCOMMENT 9
END";

// The properties of the survey, but for their last lines.
static PROPERTIES: &str = properties_with!("");

// Appends a header with a card of each line.
fn push_header(alloc: Global, file: &mut Vec<u8>, cards: &str) -> Result<(), Fail> {
    file.extend_from_slice(&header(alloc, cards)?)?;
    Ok(())
}

// Appends so many times the same bytes.
fn push_times(file: &mut Vec<u8>, count: &str, bytes: &[u8]) -> Result<(), Fail> {
    for _ in 0..count.parse::<u32>()? {
        file.extend_from_slice(bytes)?;
    }
    Ok(())
}

// Appends numbers of so many bytes, the greatest byte first.
fn push_numbers(file: &mut Vec<u8>, words: &str, width: usize) -> Result<(), Fail> {
    let skipped = 8_usize.saturating_sub(width);
    for word in words.split(' ') {
        file.extend_from_slice(&word.parse::<i64>()?.to_be_bytes()[skipped..])?;
    }
    Ok(())
}

// Puts a card into a header of one block: its number, counted from 1, and its text. Where that is `behind`, it goes behind the
// card with that number, and the last card of the block goes.
fn put_card(file: &mut Vec<u8>, card: &str, behind: bool) -> Result<(), Fail> {
    let (number, text) = card.split_once(' ').ok_or("no card")?;
    let at = usize::from(number.parse::<u8>()?.saturating_sub(1)) * 80;
    if file.len() < 2_880 || at > 2_720 || text.len() > 80 {
        return Err("no such card".into());
    }
    if behind {
        file.copy_within(at..2_800, at + 80);
    }
    file[at..at + 80].fill(b' ');
    file[at..at + text.len()].copy_from_slice(text.as_bytes());
    Ok(())
}

// Appends some bytes.
fn push_bytes(body: &mut Vec<u8>, bytes: &[u8]) -> Result<(), Fail> {
    body.extend_from_slice(bytes)?;
    Ok(())
}

// Appends a line.
fn push_line(body: &mut Vec<u8>, line: &str) -> Result<(), Fail> {
    body.extend_from_slice(line.as_bytes())?;
    body.push(b'\n')?;
    Ok(())
}

// Appends the header of a tile: `cell` is its order and its number.
fn push_tile(alloc: Global, body: &mut Vec<u8>, cell: &str) -> Result<(), Fail> {
    let (order, npix) = cell.split_once(' ').unwrap_or((cell, ""));
    push_bytes(body, &cell_header(alloc, order, npix)?)
}

// Appends the headers of the coverage: `counts` is its order and how many rows it has.
fn push_coverage(alloc: Global, body: &mut Vec<u8>, counts: &str) -> Result<(), Fail> {
    let (order, rows) = counts.split_once(' ').unwrap_or((counts, ""));
    push_header(alloc, body, COVERAGE_HEADER)?;
    let cards = format!(in alloc;
        "{COVERAGE_TABLE}NAXIS2  = {rows:>20}\n{COVERAGE_COLUMN}MOCORDER= {order:>20}\nEND"
    )?;
    push_header(alloc, body, &cards)
}

// Appends a part of a body, or changes what is there.
fn push_part(alloc: Global, body: &mut Vec<u8>, part: &str) -> Result<(), Fail> {
    let (word, rest) = part.split_once(' ').unwrap_or((part, ""));
    match word {
        "line" => push_line(body, rest),
        "text" => push_bytes(body, rest.as_bytes()),
        "properties" => push_bytes(body, PROPERTIES.as_bytes()),
        "tile" => push_tile(alloc, body, rest),
        "outside" => push_header(alloc, body, OUTSIDE),
        "mosaic" => push_header(alloc, body, MOSAIC_HEADER),
        "coverage" => push_coverage(alloc, body, rest),
        "card" => put_card(body, rest, false),
        "behind" => put_card(body, rest, true),
        // Numbers of 16 bits and of 64, and zero bytes until the block is full.
        "short" => push_numbers(body, rest, 2),
        "long" => push_numbers(body, rest, 8),
        "pad" => Ok(fill_block(body, 0)?),
        "spaces" => push_times(body, rest, b" "),
        "blanks" => push_times(body, rest, &[0x80, 0]),
        "removals" => push_times(body, rest, b"remove 0\n"),
        // Without the last byte.
        "cut" => Ok(body.truncate(body.len().saturating_sub(1))),
        "" => Ok(()),
        _ => Err("no such part".into()),
    }
}

// Appends the bytes that the parts of a body stand for.
fn push_body(alloc: Global, bytes: &mut Vec<u8>, parts: &str) -> Result<(), Fail> {
    let mut body = Vec::new(alloc);
    for part in parts.split('&') {
        push_part(alloc, &mut body, part)?;
    }
    push_bytes(bytes, &body)
}

// Appends a line of a head.
fn push_field(bytes: &mut Vec<u8>, field: &str) -> Result<(), Fail> {
    bytes.extend_from_slice(field.as_bytes())?;
    bytes.extend_from_slice(b"\r\n")?;
    Ok(())
}

// Appends a head: its first line is between `before` and `behind`.
fn push_head(bytes: &mut Vec<u8>, before: &str, head: &str, behind: &str) -> Result<(), Fail> {
    let (first, fields) = head.split_once(';').unwrap_or((head, ""));
    bytes.extend_from_slice(before.as_bytes())?;
    bytes.extend_from_slice(first.as_bytes())?;
    push_field(bytes, behind)?;
    for field in fields.split_terminator(';') {
        push_field(bytes, field)?;
    }
    push_field(bytes, "")
}

// Appends the bytes of a message, whose head may be left out.
fn push_message(
    alloc: Global,
    bytes: &mut Vec<u8>,
    before: &str,
    row: &str,
    behind: &str,
) -> Result<(), Fail> {
    let (head, parts) = row.split_once('|').unwrap_or((row, ""));
    if !head.is_empty() {
        push_head(bytes, before, head, behind)?;
    }
    push_body(alloc, bytes, parts)
}

// Appends the bytes of a request. A row that begins with a space stays as it is; to another the version and Host are added.
fn push_request(alloc: Global, bytes: &mut Vec<u8>, row: &str) -> Result<(), Fail> {
    match row.strip_prefix(' ') {
        Some(row) => push_message(alloc, bytes, "", row, ""),
        None => push_message(alloc, bytes, "", row, " HTTP/1.1\r\nHost: a"),
    }
}

// The bytes of the requests in these rows, one a line.
pub(crate) fn requests(alloc: Global, rows: &str) -> Result<Vec<u8>, Fail> {
    let mut bytes = Vec::new(alloc);
    for row in rows.lines() {
        push_request(alloc, &mut bytes, row)?;
    }
    Ok(bytes)
}

// The bytes of the replies in these rows, one a line.
pub(crate) fn replies(alloc: Global, rows: &str) -> Result<Vec<u8>, Fail> {
    let mut bytes = Vec::new(alloc);
    for row in rows.lines() {
        push_message(alloc, &mut bytes, "HTTP/1.1 ", row, "")?;
    }
    Ok(bytes)
}

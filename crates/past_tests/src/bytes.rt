//! The bytes that a text stands for.
//!
//! A `;` is a line feed. Between two `%` are words: `leaf`, an order, a number and four stored numbers are the file of a tile
//! as an editor sends it, without what fills its last block, 2,888 bytes; `whole` and the same words are the file as it is
//! served, 5,760 bytes; `properties` are those of the survey, up to the number of its leaves; `times`, a number and a text
//! are that text so many times.
use small_files::{PROPERTIES, cell_header};
use std::alloc::Global;
use std::test::Fail;

// Appends the file of a tile by its order, its number and its stored numbers; then zero bytes until it has so many bytes.
fn push_tile(alloc: Global, bytes: &mut Vec<u8>, words: &str, size: usize) -> Result<(), Fail> {
    let end = bytes.len().saturating_add(size);
    let (order, rest) = words.split_once(' ').ok_or("no order")?;
    let (npix, numbers) = rest.split_once(' ').ok_or("no number")?;
    bytes.extend_from_slice(&cell_header(alloc, order, npix)?)?;
    for number in numbers.split(' ') {
        bytes.extend_from_slice(&number.parse::<i16>()?.to_be_bytes())?;
    }
    bytes.resize(end, 0)?;
    Ok(())
}

// Appends a text, with its line feeds.
fn push_text(bytes: &mut Vec<u8>, text: &str) -> Result<(), Fail> {
    for byte in text.as_bytes() {
        bytes.push(if *byte == b';' { b'\n' } else { *byte })?;
    }
    Ok(())
}

// Appends a text so many times.
fn push_times(bytes: &mut Vec<u8>, words: &str) -> Result<(), Fail> {
    let (count, text) = words.split_once(' ').ok_or("no count")?;
    for _ in 0..count.parse::<u32>()? {
        push_text(bytes, text)?;
    }
    Ok(())
}

// Appends what is between two `%`.
fn push_part(alloc: Global, bytes: &mut Vec<u8>, part: &str) -> Result<(), Fail> {
    let (kind, words) = part.split_once(' ').unwrap_or((part, ""));
    match kind {
        "leaf" => push_tile(alloc, bytes, words, 2_888),
        "whole" => push_tile(alloc, bytes, words, 5_760),
        "times" => push_times(bytes, words),
        "properties" => push_text(bytes, PROPERTIES),
        _ => push_text(bytes, part),
    }
}

/// The bytes that a text stands for.
pub(crate) fn bytes_of(alloc: Global, text: &str) -> Result<Vec<u8>, Fail> {
    let mut bytes = Vec::new(alloc);
    for part in text.split('%') {
        push_part(alloc, &mut bytes, part)?;
    }
    Ok(bytes)
}

//! The bytes and the files that the texts of the tables stand for.
//!
//! In a text `~` is CR LF and `^` is LF, and between two `%` is one of these:
//!
//! - `long N ..`, `short N ..`, `byte N ..`: numbers of 8, of 2 and of 1 bytes, the greatest byte first
//! - `tile ORDER NUMBER N ..`: the file of a tile with these stored numbers, as it is sent; `file ..`: as it is served
//! - `conf`: the first lines of a description
//! - `properties`: those of the small survey, up to the number of its leaves

use memory_link::MemShelf;
use small_files::{PROPERTIES, cell_header, description_with};
use std::alloc::Global;
use std::test::Fail;
use survey_link::Shelf;

static CONF: &str = description_with!("");

/// The description of the small survey, as a file of a shelf.
pub(crate) static SMALL: &str =
    "survey.conf %conf%hips_order = 4^hips_tile_width = 2^survey_bitpix = 16^survey_blank = -32768^";

/// The field of a row with this number; a `|` separates two.
pub(crate) fn field(row: &str, at: usize) -> &str {
    row.split('|').nth(at).unwrap_or("")
}

// Appends the text itself, with its line ends.
fn push_text(bytes: &mut Vec<u8>, text: &str) -> Result<(), Fail> {
    for byte in text.as_bytes() {
        match byte {
            b'~' => bytes.extend_from_slice(b"\r\n")?,
            b'^' => bytes.push(b'\n')?,
            _ => bytes.push(*byte)?,
        }
    }
    Ok(())
}

// Appends numbers of so many bytes.
fn push_numbers(bytes: &mut Vec<u8>, words: &str, width: usize) -> Result<(), Fail> {
    let skipped = 8_usize.saturating_sub(width);
    for word in words.split(' ') {
        bytes.extend_from_slice(&word.parse::<i64>()?.to_be_bytes()[skipped..])?;
    }
    Ok(())
}

// Appends the file of a tile: `words` are its order, its number and its stored numbers; then zero bytes until it has so many
// bytes.
fn push_tile(alloc: Global, bytes: &mut Vec<u8>, words: &str, size: usize) -> Result<(), Fail> {
    let end = bytes.len().saturating_add(size);
    let (order, rest) = words.split_once(' ').unwrap_or((words, ""));
    let (npix, numbers) = rest.split_once(' ').unwrap_or((rest, ""));
    bytes.extend_from_slice(&cell_header(alloc, order, npix)?)?;
    push_numbers(bytes, numbers, 2)?;
    bytes.resize(end, 0)?;
    Ok(())
}

// Appends what is between two `%`.
fn push_named(alloc: Global, bytes: &mut Vec<u8>, part: &str) -> Result<(), Fail> {
    let (word, rest) = part.split_once(' ').unwrap_or((part, ""));
    match word {
        "long" => push_numbers(bytes, rest, 8),
        "short" => push_numbers(bytes, rest, 2),
        "byte" => push_numbers(bytes, rest, 1),
        "tile" => push_tile(alloc, bytes, rest, 2_888),
        "file" => push_tile(alloc, bytes, rest, 5_760),
        "conf" => push_text(bytes, CONF),
        "properties" => push_text(bytes, PROPERTIES),
        _ => Err("no such bytes".into()),
    }
}

/// The bytes that a text stands for.
pub(crate) fn bytes_of(alloc: Global, text: &str) -> Result<Vec<u8>, Fail> {
    let mut bytes = Vec::new(alloc);
    let mut is_named = false;
    for part in text.split('%') {
        if is_named {
            push_named(alloc, &mut bytes, part)?;
        } else {
            push_text(&mut bytes, part)?;
        }
        is_named = !is_named;
    }
    Ok(bytes)
}

// Puts files of 10 bytes where the first leaves have theirs: `words` are their order and how many.
fn put_leaves(alloc: Global, shelf: &mut MemShelf, words: &str) -> Result<(), Fail> {
    let (order, count) = words.split_once(' ').unwrap_or((words, ""));
    for leaf in 0..count.parse::<u64>()? {
        let path = format!(in alloc; "Norder{order}/Dir0/Npix{leaf}.fits")?;
        shelf.put(path.as_str(), b"SIMPLE  = ")?;
    }
    Ok(())
}

// Puts a file on the shelf: its path, a space and its text. `leaves ORDER COUNT` puts some that aren't whole, and `none`
// puts nothing there.
fn put(alloc: Global, shelf: &mut MemShelf, file: &str) -> Result<(), Fail> {
    match file.split_once(' ') {
        Some(("leaves", words)) => put_leaves(alloc, shelf, words),
        Some((path, text)) => Ok(shelf.put(path, &bytes_of(alloc, text)?)?),
        None => Ok(()),
    }
}

/// A shelf with these files; a `&` separates two.
pub(crate) fn shelf_of(alloc: Global, files: &str) -> Result<MemShelf, Fail> {
    let mut shelf = MemShelf::new(alloc, Vec::new(alloc));
    for file in files.split('&') {
        put(alloc, &mut shelf, file)?;
    }
    Ok(shelf)
}

/// The paths of a shelf, with a space between two.
pub(crate) fn paths(alloc: Global, shelf: &mut MemShelf) -> Result<String, Fail> {
    Ok(shelf.list(alloc)?.join(alloc, " ")?)
}

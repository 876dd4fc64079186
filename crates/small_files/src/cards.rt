//! Files of cards (FITS 4.0, sections 3.1 and 3.3).
use std::alloc::{AllocError, Global};

/// Appends a card: its text, filled with spaces to 80 bytes.
///
/// # Errors
///
/// `AllocError` where there is no memory for it.
pub fn push_card(file: &mut Vec<u8>, card: &str) -> Result<(), AllocError> {
    let start = file.len();
    file.extend_from_slice(card.as_bytes())?;
    file.resize(start.saturating_add(80), b' ')
}

/// Fills the last block of 2,880 bytes with the byte.
///
/// # Errors
///
/// `AllocError` where there is no memory for it.
pub fn fill_block(file: &mut Vec<u8>, byte: u8) -> Result<(), AllocError> {
    let missing = (2_880 - file.len() % 2_880) % 2_880;
    file.resize(file.len().saturating_add(missing), byte)
}

/// A header with a card of each line, in whole blocks.
///
/// # Errors
///
/// `AllocError` where there is no memory for it.
pub fn header(alloc: Global, cards: &str) -> Result<Vec<u8>, AllocError> {
    let mut header = Vec::new(alloc);
    for card in cards.lines() {
        push_card(&mut header, card)?;
    }
    fill_block(&mut header, b' ')?;
    Ok(header)
}

/// The file of a tile: a header of these cards, and the stored numbers without what fills their block, 2,888 bytes where the
/// header has one block.
///
/// # Errors
///
/// `AllocError` where there is no memory for it.
pub fn tile_file(alloc: Global, cards: &str, numbers: [i16; 4]) -> Result<Vec<u8>, AllocError> {
    let mut file = header(alloc, cards)?;
    for number in numbers {
        file.extend_from_slice(&number.to_be_bytes())?;
    }
    Ok(file)
}

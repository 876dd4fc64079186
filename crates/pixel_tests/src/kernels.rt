//! The kernels of each width beside the plain program, on rows of many kinds.

use parent_rule::{Combine, Depth, mean_rows};
use std::alloc::{AllocError, Global};
use std::process::Abort;
use std::test::Fail;
use tile_pixels::{combine_rows, read_row, store_plain, store_row_above};

// The kinds of rows, from 0: none blank, blank at both ends, in runs, at random, everywhere, numbers at the ends of their
// type, and numbers beside the blank one, whose mean it is.
const KINDS: usize = 7;

// A number of 64 bits, made of one of 32.
fn spread(random: u32) -> i64 {
    i64::from(random).wrapping_mul(-7046029254386353131)
}

// Whether the number at a place of a row of a kind is blank.
fn is_blank(kind: usize, place: usize, places: usize, random: u32) -> bool {
    match kind {
        1 => place < 2 || places <= place.saturating_add(2),
        2 => place % 16 < 6,
        3 => random % 3 == 0,
        4 => true,
        _ => false,
    }
}

// The least number of the type, and the greatest, by turns.
fn end_of_type(place: usize, depth: Depth) -> i64 {
    let end = if place % 2 == 0 { i64::MIN } else { i64::MAX };
    end >> (64 - depth.bitpix())
}

// The number before the blank one, and the one after it, by turns.
fn beside_blank(place: usize, depth: Depth) -> i64 {
    let blank = depth.blank();
    if place % 2 == 0 {
        blank.wrapping_sub(1)
    } else {
        blank.wrapping_add(1)
    }
}

// The number at a place of a row of a kind, of which only the low bytes are stored.
fn number(kind: usize, place: usize, places: usize, depth: Depth, random: u32) -> i64 {
    match kind {
        5 => end_of_type(place, depth),
        6 => beside_blank(place, depth),
        _ if is_blank(kind, place, places, random) => depth.blank(),
        _ => spread(random),
    }
}

// The last bytes of some, as many as a number has.
fn low_bytes(bytes: &[u8], width: usize) -> &[u8] {
    &bytes[bytes.len().saturating_sub(width)..]
}

// A row of a kind, as bytes.
fn row(
    alloc: Global,
    kind: usize,
    places: usize,
    depth: Depth,
    seed: u32,
) -> Result<Vec<u8>, AllocError> {
    let mut row = Vec::new(alloc);
    let mut random = seed;
    for place in 0..places {
        random = random.wrapping_mul(1664525).wrapping_add(1013904223);
        let bytes = number(kind, place, places, depth, random >> 3).to_be_bytes();
        row.extend_from_slice(low_bytes(&bytes, depth.bytes()))?;
    }
    Ok(row)
}

// Stores the row above two rows both ways, and compares.
fn agrees(depth: Depth, top: &[u8], bottom: &[u8], count: usize) -> bool {
    let width = depth.bytes();
    let _bitpix = depth.bitpix();
    if count > 256 || width > 8 {
        return false;
    }
    if top.len() != 2 * count * width || bottom.len() != 2 * count * width {
        return false;
    }
    let mut numbers = [0; 1280];
    let numbers = &mut numbers[..5 * count];
    let mut fast = [1; 2048];
    let fast = &mut fast[..count * width];
    let mut plain = [2; 2048];
    let plain = &mut plain[..count * width];
    store_row_above(depth, top, bottom, count, numbers, fast);
    store_plain(depth, top, bottom, count, numbers, plain);
    &*fast == &*plain
}

// Combines two rows of numbers both ways, and compares.
fn halves_agree(depth: Depth, top: &[u8], bottom: &[u8], count: usize) -> bool {
    let width = depth.bytes();
    let _bitpix = depth.bitpix();
    if count > 256 || width > 8 {
        return false;
    }
    if top.len() != 2 * count * width || bottom.len() != 2 * count * width {
        return false;
    }
    let mut upper = [0; 512];
    let upper = &mut upper[..2 * count];
    let mut lower = [0; 512];
    let lower = &mut lower[..2 * count];
    read_row(depth, top, upper);
    read_row(depth, bottom, lower);
    let mut fast = [1; 256];
    let fast = &mut fast[..count];
    let mut plain = [2; 256];
    let plain = &mut plain[..count];
    combine_rows(upper, lower, depth, fast);
    mean_rows(upper, lower, depth, plain);
    &*fast == &*plain
}

// Whether the kernels agree with the plain program on two rows, by both rules.
fn rows_agree(mean: Depth, top: &[u8], bottom: &[u8], count: usize) -> bool {
    let median = mean.with(Combine::Median);
    agrees(mean, top, bottom, count)
        && halves_agree(mean, top, bottom, count)
        && agrees(median, top, bottom, count)
        && halves_agree(median, top, bottom, count)
}

// Whether they agree on rows of two kinds.
fn kinds_agree(
    alloc: Global,
    depth: Depth,
    count: usize,
    of_top: usize,
    of_bottom: usize,
) -> Result<bool, AllocError> {
    let places = count.saturating_mul(2);
    let top = row(alloc, of_top, places, depth, 1)?;
    let bottom = row(alloc, of_bottom, places, depth, 2)?;
    Ok(rows_agree(depth, &top, &bottom, count))
}

static COUNTS: [usize; 7] = [0, 1, 7, 8, 9, 65, 256];

// Each row: the bits of a number, and the blank one.
static DEPTHS: [(u8, i64); 8] = [
    (8, 255),
    (8, 7),
    (16, -32768),
    (16, 0),
    (32, -2147483648),
    (32, -5),
    (64, i64::MIN),
    (64, 3),
];

// They agree on rows of all kinds.
fn check_kinds(rt: &impl Abort, alloc: Global, depth: Depth, count: usize) -> Result<(), Fail> {
    for of_top in 0..KINDS {
        for of_bottom in 0..KINDS {
            assert!(rt;
                kinds_agree(alloc, depth, count, of_top, of_bottom)?,
                "{count} numbers, kind {of_top} above {of_bottom}"
            );
        }
    }
    Ok(())
}

#[test]
fn kernels_agree_with_the_plain_program(rt: HostRuntime) -> Result<(), Fail> {
    for (bitpix, blank) in &DEPTHS {
        let depth = Depth::new(*bitpix, *blank).ok_or("no depth")?;
        for count in &COUNTS {
            check_kinds(&rt, rt.alloc(), depth, *count)?;
        }
    }
    Ok(())
}

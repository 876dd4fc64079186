//! The cover of 65,000 leaves, its file, and the list of them.
ghost use Rattle.std.specs.Prelude.{◌≡◌};

use crate::tiles::{leaves, shape_of};
use coverage_moc::Cover;
use std::alloc::Global;
use std::test::Fail;

const TOP: u8 = 11;

// As many leaves as are listed at most, no four of which have one parent.
const LEAVES: u64 = 65_000;

const APART: u64 = 3;

/// The rows of a cover and their sum, the bytes of its file, and the leaves that are listed and their sum.
#[derive(Clone, Copy)]
pub struct CoverSizes {
    pub rows: usize,
    pub sum: u64,
    pub bytes: usize,
    pub leaves: usize,
    pub numbers: u64,
}

/// Those of 65,000 leaves of order 11. They are listed by the cover that is read from the file.
///
/// # Errors
///
/// Where there is no memory, or the file is refused.
pub fn sizes(alloc: Global) -> Result<CoverSizes, Fail> {
    let shape = shape_of(TOP)?;
    let store = leaves(alloc, shape, LEAVES, APART)?;
    let cover = Cover::of(alloc, TOP, &store)?;
    sizes_of(alloc, &cover)
}

fn sizes_of(alloc: Global, cover: &Cover) -> Result<CoverSizes, Fail>
    requires { cover.now.top ≡ 11 }
{
    let file = cover.encode(alloc, TOP)?;
    let read = Cover::decode(alloc, TOP, &file)?;
    let listed = listed(alloc, &read)?;
    Ok(CoverSizes {
        rows: cover.len(),
        sum: sum_of_rows(cover),
        bytes: file.len(),
        leaves: listed.len(),
        numbers: sum_of(&listed),
    })
}

// The leaves of the cover, where they are not too many.
fn listed(alloc: Global, cover: &Cover) -> Result<Vec<u64>, Fail>
    requires { cover.now.top ≡ 11 }
{
    if cover.leaves(TOP) > LEAVES {
        return Err("more leaves than are listed".into());
    }
    Ok(cover.leaf_list(alloc, TOP)?)
}

fn sum_of_rows(cover: &Cover) -> u64 {
    let mut sum = 0_u64;
    for i in 0..cover.len() {
        sum = sum.wrapping_add(cover.at(i).unwrap_or(0));
    }
    sum
}

fn sum_of(numbers: &[u64]) -> u64 {
    let mut sum = 0_u64;
    for number in numbers {
        sum = sum.wrapping_add(*number);
    }
    sum
}

//! What an edit of the script is made of: its number says which leaf it is of, and what the leaf's tile shows.
ghost use Rattle.std.specs.Prelude.{◌≡◌, ◌+◌, ◌*◌, ◌/◌, ◌%◌, ◌^◌, IfOk};
ghost use Rattle.survey_make.specs.Conf.{made};
ghost use Rattle.tile_pixels.specs.Stored.{stored_bytes};
ghost use Rattle.survey_make.specs.Script.{next_number, leaf_of, numbers_of};

use healpix_nested::Cell;
use parent_rule::Steps;
use std::alloc::{AllocError, Global};
use survey_conf::Conf;
use tile_pixels::Tile;

/// The order of the leaves.
const LEAF_ORDER: u8 = 5;

/// How many leaves there can be.
const LEAVES: u64 = 12_288;

/// How many numbers a tile has.
const NUMBERS: u64 = 1024;

/// The number of the next edit: a linear congruence modulo 2^64.
pub(crate) fn next_number(x: u64) -> u64
    ensures { result ≡ next_number x }
{
    x.wrapping_mul(6_364_136_223_846_793_005)
        .wrapping_add(1_442_695_040_888_963_407)
}

/// The cell of the edit's leaf.
pub(crate) fn leaf(x: u64) -> Cell
    ensures order { result.order ≡ 5 }
    ensures npix { result.npix ≡ leaf_of x }
{
    match Cell::new(LEAF_ORDER, x / (1 << 33) % LEAVES) {
        Some(cell) => cell,
        None => unreachable!(),
    }
}

/// The tile of the edit.
pub(crate) fn tile(alloc: Global, conf: &Conf, x: u64) -> Result<Tile, AllocError>
    requires { conf.now ≡ made }
    ensures depth { IfOk result (λ tile. tile.depth ≡ made.shape.depth) }
    ensures n { IfOk result (λ tile. tile.n ≡ made.shape.n) }
    ensures numbers { IfOk result (λ tile. tile.numbers ≡ numbers_of x) }
{
    let shape = conf.shape();
    let raw = stored_numbers(alloc, x)?;
    Tile::from_bytes(alloc, &raw, shape.depth, shape.n, &mut Steps::new())
}

// The stored bytes of its numbers.
fn stored_numbers(alloc: Global, x: u64) -> Result<Vec<u8>, AllocError>
    ensures { IfOk result (λ raw. raw.items ≡ stored_bytes 16 (numbers_of x)) }
{
    let mut raw = Vec::with_capacity(alloc, 2 * NUMBERS as usize)?;
    for s in 0..NUMBERS {
        let number = (x / (1 << 40) + s) % 4096;
        raw.extend_from_slice(&(number as u16).to_be_bytes())?;
    }
    Ok(raw)
}

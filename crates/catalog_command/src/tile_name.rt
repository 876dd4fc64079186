//! The paths of catalogue tiles, as a shelf knows them.
ghost use Rattle.std.specs.Prelude.{◌≡◌, ◌≤◌, string_bytes, IfOk};
ghost use Rattle.tile_path.specs.Spelling.{catalogue_spelling};

use healpix_nested::Cell;
use std::alloc::{AllocError, Global};
use tile_path::tsv_into;

// The length of the longest path.
const LONGEST: usize = 37;

/// The path of the cell's tile.
pub(crate) fn tile_name(alloc: Global, cell: Cell) -> Result<String, AllocError>
    requires { cell.order ≤ 11 }
    ensures { IfOk result (λ name. string_bytes name ≡ catalogue_spelling cell.order cell.npix) }
{
    let mut room = [0; LONGEST];
    let length = tsv_into(cell, &mut room);
    match std::str::from_utf8(&room[..length]) {
        Ok(name) => String::from_str(alloc, name),
        Err(_) => unreachable!(),
    }
}

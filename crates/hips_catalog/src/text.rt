//! The text of a tile.
ghost use Rattle.std.specs.Prelude.{◌≡◌, ◌++◌, IfOk, OnOk, option_map, decimal};
ghost use Rattle.std.specs.Arc.{arc_value};
ghost use Rattle.std.specs.List.{flat_map};
ghost use Rattle.hips_catalog.specs.Tiles.{sources};
ghost use Rattle.hips_catalog.specs.TileText.{source_line, text_of};

use crate::ranked::Ranked;
use crate::row::Row;
use crate::tile_rows::TileRows;
use itoa::Buffer;
use std::alloc::{AllocError, Global};

// Appends a number in plain decimals.
fn push_number(text: &mut Vec<u8>, number: u64) -> Result<(), AllocError>
    ensures { OnOk result (text.new.items ≡ text.old.items ++ decimal number) }
{
    let mut buffer = Buffer::new();
    text.extend_from_slice(buffer.format(number).as_bytes())?;
    Ok(())
}

// Appends the line of a row.
fn push_line(text: &mut Vec<u8>, row: &Row) -> Result<(), AllocError>
    ensures { OnOk result (text.new.items ≡ text.old.items ++ source_line row.now) }
{
    push_number(text, row.rank())?;
    text.push(b'\t')?;
    push_number(text, row.npix())?;
    text.push(b'\t')?;
    text.extend_from_slice(row.id())?;
    text.push(b'\t')?;
    text.extend_from_slice(row.rest())?;
    text.push(b'\n')?;
    Ok(())
}

// Appends the lines of rows.
fn push_lines(text: &mut Vec<u8>, rows: &[&Ranked]) -> Result<(), AllocError>
    ensures { OnOk result (text.new.items ≡ text.old.items ++ flat_map (λ row. source_line (arc_value row.now)) rows.now) }
{
    for row in rows {
        push_line(text, row.row())?;
    }
    Ok(())
}

/// The text of a tile with these rows; `None` if and only if there are none.
pub(crate) fn text_of(alloc: Global, rows: &TileRows) -> Result<Option<Vec<u8>>, AllocError>
    ensures { IfOk result (λ text. option_map (λ bytes. bytes.items) text ≡ text_of (sources rows.now)) }
{
    if rows.len() == 0 {
        return Ok(None);
    }
    let mut text = Vec::new(alloc);
    text.extend_from_slice(b"rank\tnpix\tid\trest\n")?;
    let rows = rows.to_vec(alloc)?;
    push_lines(&mut text, &rows)?;
    Ok(Some(text))
}

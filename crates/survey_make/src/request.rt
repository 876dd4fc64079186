//! The requests of the script.
ghost use Rattle.std.specs.Prelude.{◌≡◌, ◌+◌, ◌≤◌, ◌++◌, length, take, OnOk};
ghost use Rattle.tile_path.specs.Spelling.{spelling};
ghost use Rattle.survey_make.specs.Conf.{made};
ghost use Rattle.survey_make.specs.Script.{head_of, put_request, delete_request, publish_request};
ghost use Rattle.fits_tile.specs.TileFile.{tile_file};

use crate::edit::{leaf, tile};
use fits_tile::encode_into;
use healpix_nested::Cell;
use std::alloc::{AllocError, Global};
use survey_conf::Conf;
use tile_path::Path;
use tile_pixels::Tile;

/// The length of a tile file of the survey: a block of cards and a block of data.
const FILE_LEN: usize = 5_760;

/// The length of the longest path of a tile.
const PATH_ROOM: usize = 38;

/// Appends the request that puts the edit's tile.
pub(crate) fn push_put(
    alloc: Global,
    script: &mut Vec<u8>,
    conf: &Conf,
    x: u64,
) -> Result<(), AllocError>
    requires { conf.now ≡ made }
    ensures { OnOk result (script.new.items ≡ script.old.items ++ put_request x) }
{
    let leaf = leaf(x);
    let tile = tile(alloc, conf, x)?;
    push_tile_head(script, b"PUT", leaf, b"Content-Length: 5760\r\n")?;
    push_file(script, conf, leaf, &tile)
}

/// Appends the request that takes the edit's leaf away.
pub(crate) fn push_delete(script: &mut Vec<u8>, x: u64) -> Result<(), AllocError>
    ensures { OnOk result (script.new.items ≡ script.old.items ++ delete_request x) }
{
    push_tile_head(script, b"DELETE", leaf(x), b"")
}

/// Appends the request that publishes all edits so far.
pub(crate) fn push_publish(script: &mut Vec<u8>) -> Result<(), AllocError>
    ensures { OnOk result (script.new.items ≡ script.old.items ++ publish_request) }
{
    push_head(script, b"POST", b"publish", b"")
}

// Appends the head of a request for a leaf's tile.
fn push_tile_head(
    script: &mut Vec<u8>,
    method: &[u8],
    leaf: Cell,
    fields: &[u8],
) -> Result<(), AllocError>
    requires { leaf.order ≤ 11 }
    ensures { OnOk result (script.new.items ≡ script.old.items ++ head_of method.now (spelling (Path.Tile leaf)) fields.now) }
{
    let mut path = [0; PATH_ROOM];
    let len = Path::Tile(leaf).write_into(&mut path);
    push_head(script, method, &path[..len], fields)
}

// Appends the head of a request.
#[tactic(auto, unfolding(crate::specs::Script::head_of))]
fn push_head(
    script: &mut Vec<u8>,
    method: &[u8],
    path: &[u8],
    fields: &[u8],
) -> Result<(), AllocError>
    ensures { OnOk result (script.new.items ≡ script.old.items ++ head_of method.now path.now fields.now) }
{
    script.extend_from_slice(method)?;
    script.extend_from_slice(b" /")?;
    script.extend_from_slice(path)?;
    script.extend_from_slice(b" HTTP/1.1\r\nHost: make\r\n")?;
    script.extend_from_slice(fields)?;
    script.extend_from_slice(b"\r\n")?;
    Ok(())
}

// Appends the file of a leaf's tile, which is written in its place.
fn push_file(script: &mut Vec<u8>, conf: &Conf, leaf: Cell, tile: &Tile) -> Result<(), AllocError>
    requires conf { conf.now ≡ made }
    requires depth { tile.now.depth ≡ made.shape.depth }
    requires n { tile.now.n ≡ made.shape.n }
    ensures { OnOk result (script.new.items ≡ script.old.items ++ tile_file made leaf.order leaf.npix tile.now.numbers) }
{
    let start = script.len();
    script.resize(start + FILE_LEN, 0)?;
    write_behind(script, start, conf, leaf, tile);
    Ok(())
}

// Writes the file of a leaf's tile behind the first bytes.
fn write_behind(out: &mut [u8], start: usize, conf: &Conf, leaf: Cell, tile: &Tile)
    requires conf { conf.now ≡ made }
    requires depth { tile.now.depth ≡ made.shape.depth }
    requires n { tile.now.n ≡ made.shape.n }
    requires room { length out.old ≡ start + 5760 }
    ensures { out.new ≡ take start out.old ++ tile_file made leaf.order leaf.npix tile.now.numbers }
{
    write_file(&mut out[start..], conf, leaf, tile);
}

// Writes the file of a leaf's tile.
fn write_file(out: &mut [u8], conf: &Conf, leaf: Cell, tile: &Tile)
    requires conf { conf.now ≡ made }
    requires depth { tile.now.depth ≡ made.shape.depth }
    requires n { tile.now.n ≡ made.shape.n }
    requires room { length out.old ≡ 5760 }
    ensures { out.new ≡ tile_file made leaf.order leaf.npix tile.now.numbers }
{
    encode_into(tile, leaf, conf, out);
}

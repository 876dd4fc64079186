//! Files as they are served.
ghost use Rattle.std.specs.Prelude.{◌≡◌, ◌+◌, ◌^◌, ◌<◌, ◌≤◌, [], ◌++◌, length, replicate, option_map, IfSome, MatchOption};
ghost use Rattle.std.specs.FinMap.{get};
ghost use Rattle.fits_header.specs.Cards.{whole_blocks};
ghost use Rattle.fits_tile.specs.TileFile.{data_len, tile_file};
ghost use Rattle.tile_path.specs.declared.path.Path.TheVariants.{Tile as TilePath};
ghost use Rattle.tile_path.specs.Spelling.{spelling};
ghost use Rattle.generation.specs.Files.{files_in};
ghost use Rattle.generation.specs.Served.{body_bytes, body_len, parts_bytes, HoldsBehind, IsKeptWhole};

use crate::generation::Generation;
use fits_header::BLOCK_LEN;
use fits_tile::{encode_cards, encode_into, file_len};
use healpix_nested::Cell;
use survey_conf::Conf;
use tile_path::Path;
use tile_path::laws::{deep_tiles_are_no_paths, spellings_differ};
use tile_pixels::Tile;

// What the last block of a tile file is filled with.
static ZEROS: [u8; BLOCK_LEN] = [0; BLOCK_LEN];

/// A file that is served.
#[derive(Drop)]
pub enum Body<'a> {
    /// It was written at the front of the caller's buffer, and has so many bytes.
    Written(usize),
    /// It is kept whole.
    Kept(&'a [u8]),
}

/// A file in three parts, which one after another are its bytes.
#[derive(Drop)]
pub struct Parts<'a> {
    /// How many bytes were written at the front of the caller's buffer.
    pub front: usize,
    /// Bytes that are kept.
    pub kept: &'a [u8],
    /// Zero bytes up to the end of the last block.
    pub zeros: &'static [u8],
}

impl Generation {
    /// The file at a path: written at the front of `out`, or kept; `None` if and only if there is no such file. `out` has
    /// room for `room` bytes, and holds behind those that are written what it held. It takes no memory.
    pub fn file(&self, path: &Path, out: &mut [u8]) -> Option<Body<'_>>
        requires room { 2880 + whole_blocks (data_len self.now.conf.shape) ≤ length out.old }
        ensures file { option_map (λ body. body_bytes body out.new) result ≡ get (files_in self.now) (spelling path.now) }
        ensures written { IfSome result (λ body. body_len body ≤ length out.new) }
        ensures rest { MatchOption result (out.new ≡ out.old) (λ body. HoldsBehind (body_len body) out.old out.new) }
    {
        match path {
            Path::Tile(cell) => self.tile_body(*cell, out),
            _ => match self.kept(path) {
                Some(bytes) => Some(Body::Kept(bytes)),
                None => None,
            },
        }
    }

    /// The file at a path in three parts, of which the first is written at the front of `out`; `None` if and only if there
    /// is no such file. `out` has room for 2,880 bytes, and holds behind those that are written what it held. The pixels of a
    /// tile stay where they lie. It takes no memory.
    pub fn file_parts<'a>(&'a self, path: &Path, out: &mut [u8]) -> Option<Parts<'a>>
        requires room { 2880 ≤ length out.old }
        ensures file { option_map (λ parts. parts_bytes parts out.new) result ≡ get (files_in self.now) (spelling path.now) }
        ensures front { IfSome result (λ parts. parts.front ≤ 2880) }
        ensures length { IfSome result (λ parts. parts.front + length parts.kept.now + length parts.zeros.now < 2 ^ 64) }
        ensures rest { MatchOption result (out.new ≡ out.old) (λ parts. HoldsBehind parts.front out.old out.new) }
    {
        match path {
            Path::Tile(cell) => self.tile_parts(*cell, out),
            _ => match self.kept(path) {
                Some(kept) => Some(Parts {
                    front: 0,
                    kept,
                    zeros: &[],
                }),
                None => None,
            },
        }
    }

    // The file at a path that is no tile's.
    fn kept(&self, path: &Path) -> Option<&[u8]>
        requires { IsKeptWhole path.now }
        ensures { option_map (λ bytes. bytes.now) result ≡ get (files_in self.now) (spelling path.now) }
    {
        spellings_differ();
        match path {
            Path::Properties => Some(&self.properties),
            Path::Moc => Some(self.coverage.file()),
            Path::Allsky => match &self.mosaic {
                Some(file) => Some(file),
                None => None,
            },
            Path::Tile(_) => None,
        }
    }

    // The file of a tile, written at the front of `out`.
    fn tile_body(&self, cell: Cell, out: &mut [u8]) -> Option<Body<'_>>
        requires room { 2880 + whole_blocks (data_len self.now.conf.shape) ≤ length out.old }
        ensures file { option_map (λ body. body_bytes body out.new) result ≡ get (files_in self.now) (spelling (TilePath cell)) }
        ensures written { IfSome result (λ body. body_len body ≤ length out.new) }
        ensures rest { MatchOption result (out.new ≡ out.old) (λ body. HoldsBehind (body_len body) out.old out.new) }
    {
        spellings_differ();
        deep_tiles_are_no_paths();
        // For the prover: what a cell is.
        let _order = cell.order();
        match self.pyramid.tile(cell) {
            Some(tile) => Some(Body::Written(encode_into(tile, cell, &self.conf, out))),
            None => None,
        }
    }

    // The file of a tile in three parts.
    fn tile_parts<'a>(&'a self, cell: Cell, out: &mut [u8]) -> Option<Parts<'a>>
        requires room { 2880 ≤ length out.old }
        ensures file { option_map (λ parts. parts_bytes parts out.new) result ≡ get (files_in self.now) (spelling (TilePath cell)) }
        ensures front { IfSome result (λ parts. parts.front ≤ 2880) }
        ensures length { IfSome result (λ parts. parts.front + length parts.kept.now + length parts.zeros.now < 2 ^ 64) }
        ensures rest { MatchOption result (out.new ≡ out.old) (λ parts. HoldsBehind parts.front out.old out.new) }
    {
        spellings_differ();
        deep_tiles_are_no_paths();
        // For the prover: what a cell is.
        let _order = cell.order();
        match self.pyramid.tile(cell) {
            Some(tile) => Some(parts_of(tile, cell, &self.conf, out)),
            None => None,
        }
    }
}

// The file of this tile in three parts.
fn parts_of<'a>(tile: &'a Tile, cell: Cell, conf: &Conf, out: &mut [u8]) -> Parts<'a>
    requires depth { tile.now.depth ≡ conf.now.shape.depth }
    requires n { tile.now.n ≡ conf.now.shape.n }
    requires room { 2880 ≤ length out.old }
    ensures file { parts_bytes result out.new ≡ tile_file conf.now cell.order cell.npix tile.now.numbers }
    ensures front { result.front ≤ 2880 }
    ensures length { result.front + length result.kept.now + length result.zeros.now < 2 ^ 64 }
    ensures rest { HoldsBehind result.front out.old out.new }
{
    let front = encode_cards(cell, conf, out);
    let kept = tile.raw();
    let zeros = file_len(conf) - BLOCK_LEN - kept.len();
    Parts {
        front,
        kept,
        zeros: zero_bytes(zeros),
    }
}

// So many zero bytes.
fn zero_bytes(count: usize) -> &'static [u8]
    requires { count ≤ 2880 }
    ensures { result.now ≡ replicate count 0 }
{
    &ZEROS[..count]
}

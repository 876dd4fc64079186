//! Reading a tile file.
ghost use Rattle.std.specs.Prelude.{◌≡◌, ◌+◌, ◌≤◌, ◌^◌, Ok, Err, IfOk, IfErr, OnOk, length};
ghost use Rattle.parent_rule.specs.Permit.{one_more};
ghost use Rattle.tile_pixels.specs.Stored.{numbers_from};
ghost use Rattle.fits_tile.specs.TileFile.{data_len};
ghost use Rattle.fits_tile.specs.Reading.{reads, reads_after, data_fault};
ghost use Rattle.fits_tile.specs.Refused.{IsRefusedBy, KeepsSteps};

use crate::fault::{TileFault, TileRefusal};
use crate::header::header_fault;
use crate::size::data_len;
use fits_header::{Header, whole_blocks};
use parent_rule::Steps;
use pyramid_model::Shape;
use std::alloc::Global;
use survey_conf::Conf;
use tile_pixels::Tile;

/// Reads a tile file: the tile of the stored numbers that follow its header. What stands after these is not looked at, up
/// to the end of their last block. The steps rise by one where a tile is read, and stay where the file has a fault.
///
/// # Errors
///
/// `Fault` with the first fault of the file, in the order of `TileFault`. `OutOfMemory` where the file is a tile and there
/// is no memory for its numbers.
pub fn decode(
    alloc: Global,
    bytes: &[u8],
    conf: &Conf,
    steps: &mut Steps,
) -> Result<Tile, TileRefusal>
    ensures numbers { IfOk result (λ tile. reads conf.now bytes.now ≡ Ok tile.numbers) }
    ensures depth { IfOk result (λ tile. tile.depth ≡ conf.now.shape.depth) }
    ensures n { IfOk result (λ tile. tile.n ≡ conf.now.shape.n) }
    ensures refused { IfErr result (IsRefusedBy (reads conf.now bytes.now)) }
    ensures counted { OnOk result (steps.new ≡ one_more steps.old) }
    ensures kept { IfErr result (KeepsSteps steps.old steps.new) }
    ensures at_most { steps.new ≤ steps.old + 1 }
    ensures never_falls { steps.old ≤ steps.new }
{
    let raw = match stored_bytes(bytes, conf) {
        Ok(raw) => raw,
        Err(fault) => return Err(TileRefusal::Fault(fault)),
    };
    let shape = conf.shape();
    match Tile::from_bytes(alloc, raw, shape.depth, shape.n, steps) {
        Ok(tile) => Ok(tile),
        Err(_) => Err(TileRefusal::OutOfMemory),
    }
}

// The bytes of the stored numbers, or the first fault of the file.
fn stored_bytes<'a>(bytes: &'a [u8], conf: &Conf) -> Result<&'a [u8], TileFault>
    ensures numbers { IfOk result (λ raw. reads conf.now bytes.now ≡ Ok (numbers_from conf.now.shape.depth.bitpix (4 ^ conf.now.shape.n) raw.now)) }
    ensures len { IfOk result (λ raw. length raw.now ≡ data_len conf.now.shape) }
    ensures fault { IfErr result (λ fault. reads conf.now bytes.now ≡ Err fault) }
{
    match Header::read(bytes) {
        Ok((header, len)) => stored_bytes_after(&header, &bytes[len..], conf),
        Err(fault) => Err(TileFault::Header(fault)),
    }
}

// The bytes of the stored numbers in what follows the header, or the first fault of the file.
fn stored_bytes_after<'a>(
    header: &Header,
    rest: &'a [u8],
    conf: &Conf,
) -> Result<&'a [u8], TileFault>
    ensures numbers { IfOk result (λ raw. reads_after conf.now header.now rest.now ≡ Ok (numbers_from conf.now.shape.depth.bitpix (4 ^ conf.now.shape.n) raw.now)) }
    ensures len { IfOk result (λ raw. length raw.now ≡ data_len conf.now.shape) }
    ensures fault { IfErr result (λ fault. reads_after conf.now header.now rest.now ≡ Err fault) }
{
    if let Some(fault) = header_fault(header, conf) {
        return Err(fault);
    }
    let shape = conf.shape();
    match data_fault(shape, rest.len()) {
        Some(fault) => Err(fault),
        None => Ok(&rest[..data_len(shape)]),
    }
}

// The fault of the data, where so many bytes follow the header.
#[tactic(auto, unfolding(crate::specs::Reading::data_fault))]
fn data_fault(shape: Shape, count: usize) -> Option<TileFault>
    ensures { result ≡ data_fault shape count }
{
    let len = data_len(shape);
    let filled = whole_blocks(len);
    if count < len {
        return Some(TileFault::Truncated {
            missing: (len - count) as u64,
        });
    }
    if count > filled {
        return Some(TileFault::Trailing {
            extra: (count - filled) as u64,
        });
    }
    None
}

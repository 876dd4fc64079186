//! Reading of one record.
ghost use Rattle.std.specs.Prelude.{◌≡◌, ◌<◌, ◌≤◌, ◌+◌, ◌^◌, List, ℕ, length, take, map, IfOk, IfErr, IfSome, IfNone, Some, false, true, slice_range};
ghost use Rattle.std.specs.Int.{w64, from_be_bytes};
ghost use Rattle.std.specs.Arc.{arc_value};
ghost use Rattle.edit_journal.specs.Edit.{edit_of};
ghost use Rattle.wal_frame.specs.Payload.{Gives, number_at, tile_at, edit_by, edit_at, edits_at, batch_of, publication_of, payload_of};
ghost use Rattle.wal_frame.specs.Payload.{whole_record};
ghost use Rattle.wal_frame.specs.Reading.{head_length, first_length, second_length, ends_here, wal_end, record_then, StandsFirst};
ghost use Rattle.wal_frame.specs.Told.{record_of, malformed_at, most_payload, Stops, Spans};

use crate::record::Record;
use crate::refusal::{ReadStop, Reason, WalRefusal};
use crate::survey::tile_length;
use crate::writing::{RECORD_HEAD_LEN, record_length};
use edit_journal::Edit;
use healpix_nested::cells;
use parent_rule::Steps;
use pyramid_model::Shape;
use std::alloc::{AllocError, AllocFailed, Global};
use std::sync::Arc;
use tile_pixels::Tile;

/// The most edits of a batch.
const MOST_EDITS: u32 = 1024;

/// Why a part of a record wasn't read.
#[derive(Clone, Copy, Debug, PartialEq, Eq)]
pub(crate) enum Unread {
    Malformed,
    OutOfMemory,
}

impl From<AllocError> for Unread {
    ghost use Rattle.std.specs.Prelude.{◌≡◌};
    ghost use Rattle.wal_frame.specs.declared.reading.Unread.TheVariants.{OutOfMemory};

    ghost from_gives = { λ _ unread. unread ≡ OutOfMemory };

    fn from(_error: AllocError) -> Unread {
        Unread::OutOfMemory
    }
}

impl<T: Drop> From<AllocFailed<T>> for Unread {
    ghost use Rattle.std.specs.Prelude.{◌≡◌};
    ghost use Rattle.wal_frame.specs.declared.reading.Unread.TheVariants.{OutOfMemory};

    ghost from_gives = { λ _ unread. unread ≡ OutOfMemory };

    fn from(_error: AllocFailed<T>) -> Unread {
        Unread::OutOfMemory
    }
}

/// Reads the record whose gate is the first of the bytes, which stands at that offset of the WAL of a survey of that shape, and
/// answers it with the bytes behind it; `None` if and only if the WAL ends there.
///
/// # Errors
///
/// `Refused` at that offset if and only if a record that is there whole is `Malformed`; `OutOfMemory`.
pub fn read_record(
    alloc: Global,
    shape: Shape,
    offset: u64,
    bytes: &[u8],
) -> Result<Option<(Record, &[u8])>, ReadStop>
    ensures record { IfOk result (λ next. IfSome next (λ both. StandsFirst shape bytes.now (record_then (record_of both.0) both.1.now))) }
    ensures end { IfOk result (λ next. IfNone next (StandsFirst shape bytes.now wal_end)) }
    ensures stop { IfErr result (Stops shape offset bytes.now) }
{
    if ends_here(bytes, bytes.len()) {
        return Ok(None);
    }
    // For the prover: what a shape is.
    let _bitpix = shape.depth.bitpix();
    match whole_record(alloc, shape, bytes) {
        Ok((record, rest)) => Ok(Some((record, rest))),
        Err(Unread::Malformed) => Err(ReadStop::Refused(malformed_at(offset))),
        Err(Unread::OutOfMemory) => Err(ReadStop::OutOfMemory),
    }
}

/// How many bytes from a record's gate on tell what stands there, of the `left` bytes that there are, by the first 18 of them or by
/// all of fewer; `None` if and only if the WAL ends there.
///
/// # Errors
///
/// `Malformed` at that offset, only where an open record that is there whole is longer than any.
pub fn record_span(
    shape: Shape,
    offset: u64,
    head: &[u8],
    left: usize,
) -> Result<Option<usize>, WalRefusal>
    requires { length head.now ≤ left }
    ensures span { (bytes : List ℕ) → take head_length bytes ≡ head.now → length bytes ≡ left → Spans shape offset bytes result }
    ensures within { IfOk result (λ span. IfSome span (λ count. count ≤ left)) }
    ensures at_most { IfOk result (λ span. IfSome span (λ count. count ≤ head_length + most_payload shape)) }
{
    if ends_here(head, left) {
        return Ok(None);
    }
    // For the prover: what a shape is.
    let _bitpix = shape.depth.bitpix();
    let length = length_at(head, 2);
    if length != length_at(head, 10) {
        return Ok(Some(RECORD_HEAD_LEN));
    }
    if length > most_payload(shape) as u64 {
        return Err(malformed_at(offset));
    }
    Ok(Some(record_length(length as usize)))
}

// The longest payload of a record.
fn most_payload(shape: Shape) -> usize
    ensures length { result ≡ most_payload shape }
    ensures at_most { result ≤ 2 ^ 32 }
{
    4 + MOST_EDITS as usize * (5 + tile_length(shape))
}

// That the record there is malformed.
fn malformed_at(offset: u64) -> WalRefusal
    ensures { result ≡ malformed_at offset }
{
    WalRefusal {
        reason: Reason::Malformed,
        offset,
    }
}

// Whether the WAL ends where so many bytes are left, which begin as these do.
fn ends_here(head: &[u8], left: usize) -> bool
    requires { length head.now ≤ left }
    ensures end { (bytes : List ℕ) → take head_length bytes ≡ take head_length head.now → length bytes ≡ left → result ≡ ends_here bytes }
    ensures long { result ≡ false → head_length ≤ length head.now }
    ensures whole { result ≡ false → first_length head.now ≡ second_length head.now → head_length + first_length head.now ≤ left }
{
    if head.len() < RECORD_HEAD_LEN || head[0] != 1 {
        return true;
    }
    let length = length_at(head, 2);
    length == length_at(head, 10) && length > (left - RECORD_HEAD_LEN) as u64
}

// The number of 8 bytes at that place.
fn length_at(bytes: &[u8], at: usize) -> u64
    requires { at + 8 ≤ length bytes.now }
    ensures { result ≡ from_be_bytes w64 (slice_range bytes.now at (at + 8)) }
{
    let b = &bytes[at..at + 8];
    u64::from_be_bytes([b[0], b[1], b[2], b[3], b[4], b[5], b[6], b[7]])
}

// The record that stands there whole, if it is one, and the bytes behind it.
#[tactic(auto, using(crate::proofs::Records::whole_head, crate::proofs::Records::whole_payload), unfolding(crate::specs::Payload::whole_record))]
fn whole_record(alloc: Global, shape: Shape, bytes: &[u8]) -> Result<(Record, &[u8]), Unread>
    requires { ends_here bytes.now ≡ false }
    ensures { Gives (λ both. (record_of both.0, both.1.now)) result (whole_record shape bytes.now) }
{
    let length = length_at(bytes, 2);
    if length != length_at(bytes, 10) {
        return Err(Unread::Malformed);
    }
    let (payload, rest) = bytes[RECORD_HEAD_LEN..].split_at(length as usize);
    let record = payload_of(alloc, shape, bytes[1], payload)?;
    Ok((record, rest))
}

// The record of that kind with that payload.
#[tactic(auto, unfolding(crate::specs::Payload::payload_of))]
fn payload_of(alloc: Global, shape: Shape, kind: u8, payload: &[u8]) -> Result<Record, Unread>
    ensures { Gives record_of result (payload_of shape kind payload.now) }
{
    match kind {
        1 => batch_of(alloc, shape, payload),
        2 => publication_of(payload),
        _ => Err(Unread::Malformed),
    }
}

#[tactic(auto, unfolding(crate::specs::Payload::batch_of))]
fn batch_of(alloc: Global, shape: Shape, payload: &[u8]) -> Result<Record, Unread>
    ensures { Gives record_of result (batch_of shape payload.now) }
{
    let (count, rest) = number_at(payload)?;
    if count == 0 || count > MOST_EDITS {
        return Err(Unread::Malformed);
    }
    let (edits, rest) = edits_at(alloc, shape, count, rest)?;
    if !rest.is_empty() {
        return Err(Unread::Malformed);
    }
    Ok(Record::Batch(edits))
}

#[tactic(auto, unfolding(crate::specs::Payload::publication_of))]
fn publication_of(payload: &[u8]) -> Result<Record, Unread>
    ensures { Gives record_of result (publication_of payload.now) }
{
    let (tip, rest) = number_at(payload)?;
    if !rest.is_empty() {
        return Err(Unread::Malformed);
    }
    Ok(Record::Publication { tip })
}

// So many edits, and the bytes behind them.
fn edits_at(
    alloc: Global,
    shape: Shape,
    count: u32,
    bytes: &[u8],
) -> Result<(Vec<Edit>, &[u8]), Unread>
    ensures { Gives (λ both. (map edit_of both.0.items, both.1.now)) result (edits_at shape count bytes.now) }
{
    let mut edits = Vec::new(alloc);
    let mut rest = bytes;
    for _ in 0..count {
        let (edit, after) = edit_at(alloc, shape, rest)?;
        edits.push(edit)?;
        rest = after;
    }
    Ok((edits, rest))
}

// An edit of one of the survey's leaves.
#[tactic(auto, unfolding(crate::specs::Payload::edit_at))]
fn edit_at(alloc: Global, shape: Shape, bytes: &[u8]) -> Result<(Edit, &[u8]), Unread>
    ensures { Gives (λ both. (edit_of both.0, both.1.now)) result (edit_at shape bytes.now) }
{
    match bytes {
        [] => Err(Unread::Malformed),
        [form, rest @ ..] => {
            let (leaf, rest) = number_at(rest)?;
            if u64::from(leaf) >= cells(shape.top) {
                return Err(Unread::Malformed);
            }
            edit_by(alloc, shape, *form, u64::from(leaf), rest)
        }
    }
}

// The edit of that form and leaf.
#[tactic(auto, unfolding(crate::specs::Payload::edit_by))]
fn edit_by(
    alloc: Global,
    shape: Shape,
    form: u8,
    leaf: u64,
    bytes: &[u8],
) -> Result<(Edit, &[u8]), Unread>
    ensures { Gives (λ both. (edit_of both.0, both.1.now)) result (edit_by shape form leaf bytes.now) }
{
    match form {
        1 => {
            let (tile, rest) = tile_at(alloc, shape, bytes)?;
            Ok((Edit::Put { leaf, tile }, rest))
        }
        2 => {
            let (tile, rest) = tile_at(alloc, shape, bytes)?;
            Ok((Edit::Add { leaf, tile }, rest))
        }
        3 => {
            let (tile, rest) = tile_at(alloc, shape, bytes)?;
            Ok((Edit::Replace { leaf, tile }, rest))
        }
        4 => Ok((Edit::Remove { leaf }, bytes)),
        _ => Err(Unread::Malformed),
    }
}

// A tile of the survey's shape.
#[tactic(auto, unfolding(crate::specs::Payload::tile_at))]
fn tile_at(alloc: Global, shape: Shape, bytes: &[u8]) -> Result<(Arc<Tile>, &[u8]), Unread>
    ensures { Gives (λ both. (arc_value both.0, both.1.now)) result (tile_at shape bytes.now) }
{
    let length = tile_length(shape);
    if bytes.len() < length {
        return Err(Unread::Malformed);
    }
    let (raw, rest) = bytes.split_at(length);
    let tile = Tile::from_bytes(alloc, raw, shape.depth, shape.n, &mut Steps::new())?;
    Ok((Arc::new(alloc, tile)?, rest))
}

// A number of 4 bytes.
#[tactic(auto, unfolding(crate::specs::Payload::number_at))]
fn number_at(bytes: &[u8]) -> Result<(u32, &[u8]), Unread>
    ensures { Gives (λ both. (both.0, both.1.now)) result (number_at bytes.now) }
{
    if bytes.len() < 4 {
        return Err(Unread::Malformed);
    }
    let (front, rest) = bytes.split_at(4);
    let number = u32::from_be_bytes([front[0], front[1], front[2], front[3]]);
    Ok((number, rest))
}

//! Rows that are read, each of a line.
ghost use Rattle.std.specs.Prelude.{◌≡◌, ◌≢◌, ◌≤◌, ◌==◌, ◌&&◌, not, nat_le, [], ◌∷◌, length, position, Ok, Err, MatchResult, MatchOption, IfOk, IfErr};
ghost use Rattle.std.specs.List.{list_all};
ghost use Rattle.hips_catalog.specs.Reading.{tab, fields as spec_fields, is_id as spec_is_id, is_rest as spec_is_rest, rank_in, npix_in, id_in, rest_in, row_by, read_row, IsRefusedBy};

use crate::fault::{RowFault, RowRefusal};
use crate::row::Row;
use decimal_scale::plain_decimal;
use healpix_nested::cells;
use std::alloc::Global;

// What separates two fields.
const TAB: u8 = b'\t';

// The longest id and the longest rest, in bytes.
const MOST_ID: usize = 64;

const MOST_REST: usize = 256;

// The fields of a line.
#[derive(Clone, Copy)]
struct Fields<'a> {
    rank: &'a [u8],
    npix: &'a [u8],
    id: &'a [u8],
    rest: &'a [u8],
}

// What the fields of a line say.
#[derive(Clone, Copy)]
struct Parts<'a> {
    rank: u64,
    npix: u64,
    id: &'a [u8],
    rest: &'a [u8],
}

impl Row {
    /// The row of a line `RANK TAB NPIX TAB ID TAB REST`, without its line feed, in a catalogue whose cells are of order
    /// `top`: RANK below 2^64 and NPIX below 12 · 4^top in plain decimals, ID 1 to 64 bytes 0x21 to 0x7E, REST at most 256
    /// bytes, none below 0x20 and none 0x7F.
    ///
    /// # Errors
    ///
    /// `Fault` with the first fault of the line, in the order of `RowFault`; `OutOfMemory`.
    pub fn read(alloc: Global, line: &[u8], top: u8) -> Result<Row, RowRefusal>
        requires { top ≤ 11 }
        ensures read { IfOk result (λ row. read_row top line.now ≡ Ok row) }
        ensures refused { IfErr result (IsRefusedBy (read_row top line.now)) }
    {
        let parts = parts_of(line, top)?;
        let id = Vec::from_slice(alloc, parts.id)?;
        let rest = Vec::from_slice(alloc, parts.rest)?;
        Ok(Row::of(parts.rank, parts.npix, id, rest))
    }
}

// What the line of a row says.
#[tactic(auto, unfolding(crate::specs::Reading::read_row))]
fn parts_of(line: &[u8], top: u8) -> Result<Parts, RowFault>
    requires { top ≤ 11 }
    ensures { MatchResult result
        (λ parts. read_row top line.now ≡ Ok (record { rank = parts.rank; npix = parts.npix; id = parts.id.now; rest = parts.rest.now }))
        (λ fault. read_row top line.now ≡ Err fault) }
{
    match fields_of(line) {
        Some(fields) => judge(&fields, top),
        None => Err(RowFault::Fields),
    }
}

// What the fields say.
#[tactic(auto, unfolding(crate::specs::Reading::row_by))]
fn judge<'a>(fields: &Fields<'a>, top: u8) -> Result<Parts<'a>, RowFault>
    requires { top ≤ 11 }
    ensures { MatchResult result
        (λ parts. row_by top fields.now.rank.now fields.now.npix.now fields.now.id.now fields.now.rest.now
        ≡ Ok (record { rank = parts.rank; npix = parts.npix; id = parts.id.now; rest = parts.rest.now }))
        (λ fault. row_by top fields.now.rank.now fields.now.npix.now fields.now.id.now fields.now.rest.now ≡ Err fault) }
{
    let rank = rank_in(fields.rank)?;
    let npix = npix_in(fields.npix, top)?;
    let id = id_in(fields.id)?;
    let rest = rest_in(fields.rest)?;
    Ok(Parts {
        rank,
        npix,
        id,
        rest,
    })
}

// The fields of a line; `None` if and only if they aren't four.
fn fields_of(line: &[u8]) -> Option<Fields>
    ensures { MatchOption result (length (spec_fields line.now) ≢ 4)
        (λ fields. spec_fields line.now ≡ fields.rank.now ∷ fields.npix.now ∷ fields.id.now ∷ fields.rest.now ∷ []) }
{
    let (rank, more) = cut(line)?;
    let (npix, more) = cut(more)?;
    let (id, rest) = cut(more)?;
    match cut(rest) {
        Some(_) => None,
        None => Some(Fields {
            rank,
            npix,
            id,
            rest,
        }),
    }
}

// The first field, and what follows its TAB; `None` if and only if there is no TAB.
fn cut(text: &[u8]) -> Option<(&[u8], &[u8])>
    ensures { MatchOption result (spec_fields text.now ≡ text.now ∷ []) (λ parts. spec_fields text.now ≡ parts.0.now ∷ spec_fields parts.1.now) }
{
    let at = place_of_tab(text)?;
    Some((&text[..at], &text[at + 1..]))
}

// Where the first TAB is.
fn place_of_tab(text: &[u8]) -> Option<usize>
    ensures { result ≡ position (λ byte. byte == tab) text.now }
{
    text.iter().position(|byte| *byte == TAB)
}

// The rank that the field says.
#[tactic(auto, unfolding(crate::specs::Reading::rank_in))]
fn rank_in(field: &[u8]) -> Result<u64, RowFault>
    ensures { result ≡ rank_in field.now }
{
    plain_decimal(field).ok_or(RowFault::Rank)
}

// The number of a cell of order `top` that the field says.
#[tactic(auto, unfolding(crate::specs::Reading::npix_in))]
fn npix_in(field: &[u8], top: u8) -> Result<u64, RowFault>
    requires { top ≤ 11 }
    ensures { result ≡ npix_in top field.now }
{
    plain_decimal(field)
        .filter(|npix| *npix < cells(top))
        .ok_or(RowFault::Npix)
}

// The id that the field is.
#[tactic(auto, unfolding(crate::specs::Reading::id_in))]
fn id_in(field: &[u8]) -> Result<&[u8], RowFault>
    ensures { MatchResult result (λ id. id_in field.now ≡ Ok id.now) (λ fault. id_in field.now ≡ Err fault) }
{
    if is_id(field) {
        Ok(field)
    } else {
        Err(RowFault::Id)
    }
}

// The rest that the field is.
#[tactic(auto, unfolding(crate::specs::Reading::rest_in))]
fn rest_in(field: &[u8]) -> Result<&[u8], RowFault>
    ensures { MatchResult result (λ rest. rest_in field.now ≡ Ok rest.now) (λ fault. rest_in field.now ≡ Err fault) }
{
    if is_rest(field) {
        Ok(field)
    } else {
        Err(RowFault::Rest)
    }
}

/// Whether the text is an id: 1 to 64 bytes, each 0x21 to 0x7E.
#[tactic(auto, unfolding(crate::specs::Reading::is_id))]
pub fn is_id(text: &[u8]) -> bool
    ensures { result ≡ spec_is_id text.now }
{
    1 <= text.len() && text.len() <= MOST_ID && is_visible(text)
}

// Whether each byte is that of a visible character of ASCII.
fn is_visible(text: &[u8]) -> bool
    ensures { result ≡ list_all (λ byte. nat_le 33 byte && nat_le byte 126) text.now }
{
    text.iter().all(|byte| 33 <= *byte && *byte <= 126)
}

// Whether the text is a rest.
#[tactic(auto, unfolding(crate::specs::Reading::is_rest))]
fn is_rest(text: &[u8]) -> bool
    ensures { result ≡ spec_is_rest text.now }
{
    text.len() <= MOST_REST && lacks_controls(text)
}

// Whether no byte is that of a control character of ASCII.
fn lacks_controls(text: &[u8]) -> bool
    ensures { result ≡ list_all (λ byte. nat_le 32 byte && not (byte == 127)) text.now }
{
    text.iter().all(|byte| 32 <= *byte && *byte != 127)
}

//! The coverage file.
ghost use Rattle.std.specs.Prelude.{ℕ, List, IsTrue, ◌↔◌, ◌≡◌, ◌+◌, ◌*◌, ◌<◌, ◌≤◌, ◌^◌, ◌++◌, IfOk, ◌==◌, length, drop};
ghost use Rattle.std.specs.List.{list_all};
ghost use Rattle.fits_header.specs.Cards.{whole_blocks as spec_whole_blocks};
ghost use Rattle.fits_header.specs.FitsFile.{header_text, in_blocks, fits_file};
ghost use Rattle.coverage_moc.specs.Cover.{cover, leaves_under};
ghost use Rattle.coverage_moc.specs.CoverFile.{IsCoverFile, primary_cards as spec_primary_cards, table_cards as spec_table_cards, row_bytes, moc_file};

use crate::tree::is_canonical;
use crate::written::{HEADERS_LEN, ROW_LEN, WrittenRows};
use byteorder::{BigEndian, ByteOrder};
use fits_header::laws::made_cards_are_cards;
use fits_header::{Card, whole_blocks, write_cards};
use std::alloc::{AllocError, Global};

/// The coverage file of the rows of a cover.
pub(crate) fn encode_cover(alloc: Global, top: u8, rows: &[u64]) -> Result<Vec<u8>, AllocError>
    requires top { top ≤ 11 }
    requires rows { rows.now ≡ cover top (leaves_under top rows.now) }
    ensures { IfOk result (λ file. file.items ≡ moc_file top rows.now) }
{
    encode_rows(alloc, top, rows)
}

// The coverage file of these rows.
fn encode_rows(alloc: Global, top: u8, rows: &[u64]) -> Result<Vec<u8>, AllocError>
    requires { length rows.now < 2 ^ 32 }
    ensures { IfOk result (λ file. file.items ≡ moc_file top rows.now) }
{
    let mut file = vec![in alloc; 0; HEADERS_LEN + whole_blocks(ROW_LEN * rows.len())]?;
    write_file(top, rows, &mut file);
    Ok(file)
}

// Writes the primary header and the table.
#[tactic(auto, unfolding(crate::specs::CoverFile::moc_file))]
fn write_file(top: u8, rows: &[u64], out: &mut [u8])
    requires rows { length rows.now < 2 ^ 32 }
    requires room { length out.old ≡ 5760 + spec_whole_blocks (8 * length rows.now) }
    ensures { out.new ≡ moc_file top rows.now }
{
    let start = write_cards(&primary_cards(), out);
    write_table(top, rows, &mut out[start..]);
}

// Writes the table's header and its rows.
fn write_table(top: u8, rows: &[u64], out: &mut [u8])
    requires rows { length rows.now < 2 ^ 32 }
    requires room { length out.old ≡ 2880 + spec_whole_blocks (8 * length rows.now) }
    ensures { out.new ≡ fits_file (spec_table_cards top (length rows.now)) (row_bytes rows.now) }
{
    let start = write_cards(&table_cards(top, rows.len()), out);
    write_rows(rows, &mut out[start..]);
}

// Writes the rows and zero bytes up to the end of their last block.
fn write_rows(rows: &[u64], out: &mut [u8])
    requires rows { length rows.now < 2 ^ 32 }
    requires room { length out.old ≡ spec_whole_blocks (8 * length rows.now) }
    ensures { out.new ≡ in_blocks 0 (row_bytes rows.now) }
{
    let len = ROW_LEN * rows.len();
    BigEndian::write_u64_into(rows, &mut out[..len]);
    out[len..].fill(0);
}

/// Whether the bytes are the coverage file of some leaves. It takes no memory.
pub(crate) fn is_cover_file(top: u8, bytes: &[u8]) -> bool
    requires { top ≤ 11 }
    ensures { IsTrue result ↔ IsCoverFile top bytes.now }
{
    made_cards_are_cards();
    let rows = WrittenRows::of(bytes);
    is_canonical(top, &rows) && is_file_of(top, &rows, bytes)
}

/// The rows of a coverage file.
pub(crate) fn read_rows(alloc: Global, top: u8, bytes: &[u8]) -> Result<Vec<u64>, AllocError>
    requires { top ≤ 11 }
    ensures { IfOk result (λ rows. (leaves : List ℕ) → moc_file top (cover top leaves) ≡ bytes.now → rows.items ≡ cover top leaves) }
{
    made_cards_are_cards();
    WrittenRows::of(bytes).to_vec(alloc)
}

// Whether the bytes, in which these rows stand behind the headers, are the coverage file of the rows.
fn is_file_of(top: u8, rows: &WrittenRows<'_>, bytes: &[u8]) -> bool
    requires few { length rows.now < 2 ^ 32 }
    requires written { row_bytes rows.now ++ drop (5760 + 8 * length rows.now) bytes.now ≡ drop 5760 bytes.now }
    ensures { IsTrue result ↔ (moc_file top rows.now ≡ bytes.now) }
{
    made_cards_are_cards();
    let len = ROW_LEN * rows.len();
    if bytes.len() != HEADERS_LEN + whole_blocks(len) {
        return false;
    }
    let headers = headers(top, rows.len());
    bytes[..HEADERS_LEN] == headers[..] && are_zero(&bytes[HEADERS_LEN + len..])
}

// Whether all bytes are 0.
fn are_zero(bytes: &[u8]) -> bool
    ensures { result ≡ list_all (λ byte. byte == 0) bytes.now }
{
    bytes.iter().all(|byte| *byte == 0)
}

// The two headers of a file of so many rows.
fn headers(top: u8, count: usize) -> [u8; HEADERS_LEN]
    requires { count < 2 ^ 32 }
    ensures { result ≡ header_text spec_primary_cards ++ header_text (spec_table_cards top count) }
{
    let mut headers = [0; HEADERS_LEN];
    let start = write_cards(&primary_cards(), &mut headers);
    write_cards(&table_cards(top, count), &mut headers[start..]);
    headers
}

#[tactic(auto, unfolding(crate::specs::CoverFile::primary_cards))]
fn primary_cards() -> [Card; 5]
    ensures cards { result ≡ spec_primary_cards }
    ensures number { length spec_primary_cards ≡ 5 }
{
    [
        Card::logical(b"SIMPLE", true),
        Card::integer(b"BITPIX", 8),
        Card::integer(b"NAXIS", 0),
        Card::logical(b"EXTEND", true),
        Card::end(),
    ]
}

#[tactic(auto, unfolding(crate::specs::CoverFile::table_cards))]
fn table_cards(top: u8, count: usize) -> [Card; 15]
    requires { count < 2 ^ 32 }
    ensures cards { result ≡ spec_table_cards top count }
    ensures number { length (spec_table_cards top count) ≡ 15 }
{
    [
        Card::text(b"XTENSION", b"BINTABLE"),
        Card::integer(b"BITPIX", 8),
        Card::integer(b"NAXIS", 2),
        Card::integer(b"NAXIS1", 8),
        Card::integer(b"NAXIS2", count as i64),
        Card::integer(b"PCOUNT", 0),
        Card::integer(b"GCOUNT", 1),
        Card::integer(b"TFIELDS", 1),
        Card::text(b"TTYPE1", b"UNIQ"),
        Card::text(b"TFORM1", b"1K"),
        Card::text(b"PIXTYPE", b"HEALPIX"),
        Card::text(b"ORDERING", b"NUNIQ"),
        Card::text(b"COORDSYS", b"C"),
        Card::integer(b"MOCORDER", i64::from(top)),
        Card::end(),
    ]
}

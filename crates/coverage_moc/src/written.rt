//! The rows of a coverage file where they stand in its bytes.
ghost use Rattle.std.specs.Prelude.{ℕ, List, All, ◌≡◌, ◌≢◌, ◌+◌, ◌*◌, ◌<◌, ◌≤◌, ◌^◌, ◌++◌, IfOk, length, drop, slice_index};
ghost use Rattle.byteorder.specs.Endian.{big_number};
ghost use Rattle.healpix_nested.specs.Cells.{cell_count};
ghost use Rattle.coverage_moc.specs.Cover.{has, IsAscending, is_under};
ghost use Rattle.coverage_moc.specs.CoverFile.{IsRow, HoldsRows, row_bytes};

use crate::tree::uniq;
use byteorder::{BigEndian, ByteOrder};
use fits_header::BLOCK_LEN;
use std::alloc::{AllocError, Global};
use std::marker::Model;

/// The length of a row in bytes.
pub(crate) const ROW_LEN: usize = 8;

/// The length of the two headers.
pub(crate) const HEADERS_LEN: usize = 2 * BLOCK_LEN;

/// The rows of what may be a coverage file: the numbers behind the two headers, up to the first that is 0, since no cell has
/// the number 0. They take no memory of their own.
#[derive(Drop)]
pub(crate) struct WrittenRows<'a> {
    bytes: &'a [u8],
}

impl<'a> Model for WrittenRows<'a> {
    ghost use Rattle.std.specs.Prelude.{ℕ, List};
    ghost use Rattle.coverage_moc.specs.WrittenRows.{numbers_in};

    ghost Value = { List ℕ };

    ghost view = { λ rows. numbers_in rows.bytes.now };
}

impl<'a> WrittenRows<'a> {
    /// The rows of the coverage file that these bytes may be.
    pub fn of(file: &'a [u8]) -> WrittenRows<'a>
        ensures rows { (rows : List ℕ) → All IsRow rows → HoldsRows file.now rows → result ≡ rows }
        ensures written { row_bytes result ++ drop (5760 + 8 * length result) file.now ≡ drop 5760 file.now }
    {
        let numbers = behind_headers(file);
        let len = rows_before_zero(numbers);
        WrittenRows {
            bytes: &numbers[..ROW_LEN * len],
        }
    }

    /// How many rows there are.
    pub fn len(&self) -> usize
        ensures { result ≡ length self.now }
    {
        self.bytes.len() / ROW_LEN
    }

    /// Row `i`, from 0.
    pub fn at(&self, i: usize) -> u64
        requires { i < length self.now }
        ensures { result ≡ slice_index self.now i }
    {
        BigEndian::read_u64(&self.bytes[ROW_LEN * i..])
    }

    /// Whether the row is there.
    pub fn has(&self, row: u64) -> bool
        requires { IsAscending self.now }
        ensures { result ≡ has self.now row }
    {
        let mut low = 0;
        let mut high = self.len();
        while low < high {
            let middle = low + (high - low) / 2;
            if self.at(middle) < row {
                low = middle + 1;
            } else {
                high = middle;
            }
        }
        low < self.len() && self.at(low) == row
    }

    /// Whether a cell lies under some row.
    pub fn covers(&self, order: u8, npix: u64) -> bool
        requires order { order ≤ 11 }
        requires cell { npix < cell_count order }
        requires ascending { IsAscending self.now }
        ensures { result ≡ is_under order self.now npix }
    {
        self.has(uniq(order, npix)) || order > 0 && self.covers(order - 1, npix / 4)
    }

    /// The rows in memory.
    pub fn to_vec(&self, alloc: Global) -> Result<Vec<u64>, AllocError>
        ensures { IfOk result (λ rows. rows.items ≡ self.now) }
    {
        let mut rows = Vec::with_capacity(alloc, self.len())?;
        for i in 0..self.len() {
            rows.push(self.at(i))?;
        }
        Ok(rows)
    }
}

// The bytes behind the two headers.
fn behind_headers(file: &[u8]) -> &[u8]
    ensures { result.now ≡ drop 5760 file.now }
{
    &file[HEADERS_LEN.min(file.len())..]
}

// How many numbers stand in some bytes before the first that is 0.
fn rows_before_zero(bytes: &[u8]) -> usize
    ensures within { 8 * result ≤ length bytes.now }
    ensures before { (i : ℕ) → i < result → big_number 8 (drop (8 * i) bytes.now) ≢ 0 }
    ensures zero { 8 * result + 8 ≤ length bytes.now → big_number 8 (drop (8 * result) bytes.now) ≡ 0 }
{
    let most = bytes.len() / ROW_LEN;
    for i in 0..most {
        if BigEndian::read_u64(&bytes[ROW_LEN * i..]) == 0 {
            return i;
        }
    }
    most
}

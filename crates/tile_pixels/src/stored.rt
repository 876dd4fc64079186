//! A number as a tile stores it, at the width of its type.
ghost use Rattle.std.specs.Prelude.{◌≡◌, ◌+◌, ◌*◌, ◌/◌, ◌≤◌, ◌++◌, length, take, IsTrue};
ghost use Rattle.parent_rule.specs.Depth.{is_bitpix, IsNumber};
ghost use Rattle.tile_pixels.specs.Stored.{stored_at, number_bytes};
ghost use Rattle.std.proofs.Common.{rules};

use byteorder::{BigEndian, ByteOrder, LittleEndian};
use parent_rule::PixelNumber;

/// A stored number of 8, 16 or 32 bits.
pub trait Stored: PixelNumber {
    /// The number at a place of a row of stored numbers.
    fn read(row: &[u8], place: usize) -> Self
        requires { (place + 1) * (Self.bits / 8) ≤ length row.now }
        ensures { Self.value result ≡ stored_at Self.bits row.now place };

    /// The numbers at places 2i and 2i + 1 of a row.
    fn read_pair(row: &[u8], i: usize) -> (Self, Self)
        requires { (2 * i + 2) * (Self.bits / 8) ≤ length row.now }
        ensures first { Self.value result.0 ≡ stored_at Self.bits row.now (2 * i) }
        ensures second { Self.value result.1 ≡ stored_at Self.bits row.now (2 * i + 1) };

    /// Stores the number at a place of a row; what stands before it stays.
    fn write(self, row: &mut [u8], place: usize)
        requires { (place + 1) * (Self.bits / 8) ≤ length row.old }
        ensures { take ((place + 1) * (Self.bits / 8)) row.new ≡ take (place * (Self.bits / 8)) row.old ++ number_bytes Self.bits (Self.value self) };

    /// A number of that width.
    fn of(number: i64) -> Self
        requires { IsNumber Self.bits number }
        ensures { Self.value result ≡ number };

    ghost known: { IsTrue (is_bitpix Self.bits) };
}

impl Stored for u8 {
    ghost known = { Prim.search rules };

    #[inline(always)]
    fn read(row: &[u8], place: usize) -> u8 {
        row[place]
    }

    // Both bytes are read as one number of 16 bits.
    #[inline(always)]
    fn read_pair(row: &[u8], i: usize) -> (u8, u8) {
        let pair = LittleEndian::read_u16(&row[2 * i..]);
        ((pair % 256) as u8, (pair / 256) as u8)
    }

    #[inline(always)]
    fn write(self, row: &mut [u8], place: usize) {
        row[place] = self;
    }

    #[inline(always)]
    fn of(number: i64) -> u8 {
        number as u8
    }
}

impl Stored for i16 {
    ghost known = { Prim.search rules };

    #[inline(always)]
    fn read(row: &[u8], place: usize) -> i16 {
        BigEndian::read_i16(&row[2 * place..])
    }

    #[inline(always)]
    fn read_pair(row: &[u8], i: usize) -> (i16, i16) {
        (
            BigEndian::read_i16(&row[4 * i..]),
            BigEndian::read_i16(&row[4 * i + 2..]),
        )
    }

    #[inline(always)]
    fn write(self, row: &mut [u8], place: usize) {
        BigEndian::write_i16(&mut row[2 * place..], self);
    }

    #[inline(always)]
    fn of(number: i64) -> i16 {
        number as i16
    }
}

impl Stored for i32 {
    ghost known = { Prim.search rules };

    #[inline(always)]
    fn read(row: &[u8], place: usize) -> i32 {
        BigEndian::read_i32(&row[4 * place..])
    }

    #[inline(always)]
    fn read_pair(row: &[u8], i: usize) -> (i32, i32) {
        (
            BigEndian::read_i32(&row[8 * i..]),
            BigEndian::read_i32(&row[8 * i + 4..]),
        )
    }

    #[inline(always)]
    fn write(self, row: &mut [u8], place: usize) {
        BigEndian::write_i32(&mut row[4 * place..], self);
    }

    #[inline(always)]
    fn of(number: i64) -> i32 {
        number as i32
    }
}

//! Rows of stored numbers, as bytes and back.
ghost use Rattle.std.specs.Prelude.{◌≡◌, ◌*◌, ◌/◌, length, All};
ghost use Rattle.parent_rule.specs.Depth.{IsNumber};
ghost use Rattle.tile_pixels.specs.Stored.{numbers_from, stored_bytes};

use crate::stored::Stored;
use byteorder::{BigEndian, ByteOrder};
use parent_rule::Depth;

/// Reads as many stored numbers as there is room for.
pub fn read_row(depth: Depth, bytes: &[u8], numbers: &mut [i64])
    requires { length bytes.now ≡ length numbers.old * (depth.bitpix / 8) }
    ensures numbers { numbers.new ≡ numbers_from depth.bitpix (length numbers.old) bytes.now }
    ensures range { All (IsNumber depth.bitpix) numbers.new }
{
    match depth.bitpix() {
        8 => read_each::<u8>(bytes, numbers),
        16 => read_each::<i16>(bytes, numbers),
        32 => read_each::<i32>(bytes, numbers),
        _ => read_64(bytes, numbers),
    }
}

/// Writes numbers as they are stored.
pub fn write_row(depth: Depth, numbers: &[i64], bytes: &mut [u8])
    requires room { length bytes.old ≡ length numbers.now * (depth.bitpix / 8) }
    requires range { All (IsNumber depth.bitpix) numbers.now }
    ensures bytes { bytes.new ≡ stored_bytes depth.bitpix numbers.now }
    ensures numbers { numbers_from depth.bitpix (length numbers.now) bytes.new ≡ numbers.now }
{
    match depth.bitpix() {
        8 => write_each::<u8>(numbers, bytes),
        16 => write_each::<i16>(numbers, bytes),
        32 => write_each::<i32>(numbers, bytes),
        _ => write_64(numbers, bytes),
    }
}

// The numbers of a width of at most 32 bits.
fn read_each<N: Stored>(bytes: &[u8], numbers: &mut [i64])
    requires { length bytes.now ≡ length numbers.old * (N.bits / 8) }
    ensures numbers { numbers.new ≡ numbers_from N.bits (length numbers.old) bytes.now }
    ensures range { All (IsNumber N.bits) numbers.new }
{
    for i in 0..numbers.len() {
        numbers[i] = N::read(bytes, i).wide();
    }
}

fn read_64(bytes: &[u8], numbers: &mut [i64])
    requires { length bytes.now ≡ length numbers.old * 8 }
    ensures numbers { numbers.new ≡ numbers_from 64 (length numbers.old) bytes.now }
    ensures range { All (IsNumber 64) numbers.new }
{
    BigEndian::read_i64_into(bytes, numbers);
}

fn write_each<N: Stored>(numbers: &[i64], bytes: &mut [u8])
    requires room { length bytes.old ≡ length numbers.now * (N.bits / 8) }
    requires range { All (IsNumber N.bits) numbers.now }
    ensures { bytes.new ≡ stored_bytes N.bits numbers.now }
{
    for i in 0..numbers.len() {
        N::of(numbers[i]).write(bytes, i);
    }
}

fn write_64(numbers: &[i64], bytes: &mut [u8])
    requires { length bytes.old ≡ length numbers.now * 8 }
    ensures { bytes.new ≡ stored_bytes 64 numbers.now }
{
    BigEndian::write_i64_into(numbers, bytes);
}

//! Writing a text into a buffer piece by piece.
ghost use Rattle.std.specs.Prelude.{◌≡◌, ◌+◌, ◌≤◌, length, decimal};
ghost use Rattle.tile_path.specs.Numbers.{Writes};

use itoa::Buffer;

/// Writes the bytes from a place of the buffer on; where they end.
pub(crate) fn write(out: &mut [u8], start: usize, bytes: &[u8]) -> usize
    requires { start + length bytes.now ≤ length out.old }
    ensures { Writes out.old out.new start result bytes.now }
{
    let end = start + bytes.len();
    out[start..end].copy_from_slice(bytes);
    end
}

/// Writes the number in plain decimals from a place of the buffer on; where it ends.
pub(crate) fn write_number(out: &mut [u8], start: usize, number: u64) -> usize
    requires { start + length (decimal number) ≤ length out.old }
    ensures { Writes out.old out.new start result (decimal number) }
{
    let mut buffer = Buffer::new();
    write(out, start, buffer.format(number).as_bytes())
}

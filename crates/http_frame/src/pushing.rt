//! Texts that are made without memory.
ghost use Rattle.std.specs.Prelude.{◌≡◌, ◌+◌, ◌≤◌, ◌++◌, length, decimal};
ghost use Rattle.arrayvec.specs.ArrayVec.{array_vec_len};

use arrayvec::ArrayVec;
use itoa::Buffer;

/// Appends bytes for which there is room.
pub fn push<const N: usize>(text: &mut ArrayVec<u8, N>, bytes: &[u8])
    requires { array_vec_len text.old + length bytes.now ≤ N }
    ensures bytes { text.new.items ≡ text.old.items ++ bytes.now }
    ensures len { array_vec_len text.new ≡ array_vec_len text.old + length bytes.now }
{
    let _fits = text.try_extend_from_slice(bytes);
}

/// Appends a number in plain decimals, which have at most 20 digits.
pub fn push_number<const N: usize>(text: &mut ArrayVec<u8, N>, number: u64)
    requires { array_vec_len text.old + 20 ≤ N }
    ensures number { text.new.items ≡ text.old.items ++ decimal number }
    ensures len { array_vec_len text.new ≡ array_vec_len text.old + length (decimal number) }
    ensures short { length (decimal number) ≤ 20 }
{
    let mut buffer = Buffer::new();
    push(text, buffer.format(number).as_bytes());
}

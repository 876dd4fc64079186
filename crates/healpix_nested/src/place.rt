//! The place of a pixel in its tile: from its column and line to its number, and back.
ghost use Rattle.std.specs.Prelude.{◌≡◌, ◌*◌, ◌^◌, ◌<◌, ◌/◌};
ghost use Rattle.healpix_nested.specs.Place.{Interleaves, spread, gathered, z_order, column_of, line_of};

// The low nine bits of `x`, with a 0 after each.
fn spread(x: u32) -> u32
    requires { x < 512 }
    ensures { result ≡ spread 9 x }
{
    let x = (x | x << 8) & 0x00ff_00ff;
    let x = (x | x << 4) & 0x0f0f_0f0f;
    let x = (x | x << 2) & 0x3333_3333;
    (x | x << 1) & 0x5555_5555
}

// The bits of `z` at places 0, 2, 4 and so on.
fn gather(z: u32) -> u32
    requires { z < 4 ^ 9 }
    ensures { result ≡ gathered 9 z }
{
    let x = z & 0x5555_5555;
    let x = (x | x >> 1) & 0x3333_3333;
    let x = (x | x >> 2) & 0x0f0f_0f0f;
    let x = (x | x >> 4) & 0x00ff_00ff;
    (x | x >> 8) & 0x0000_ffff
}

/// The number within its tile of the pixel in that column and line: `z(col, row)`.
pub fn interleave(col: u32, row: u32) -> u64
    requires col { col < 512 }
    requires row { row < 512 }
    ensures number { result ≡ z_order col row }
    ensures bits { Interleaves result col row }
    ensures below { result < 4 ^ 9 }
    ensures column { column_of result ≡ col }
    ensures line { line_of result ≡ row }
{
    u64::from(spread(row) | spread(col) << 1)
}

/// The column and the line of the pixel with that number within its tile.
pub fn split(z: u64) -> (u32, u32)
    requires { z < 4 ^ 9 }
    ensures column { result.0 ≡ column_of z }
    ensures line { result.1 ≡ line_of z }
    ensures bits { Interleaves z result.0 result.1 }
    ensures below { (result.0 < 512) × (result.1 < 512) }
    ensures number { z_order result.0 result.1 ≡ z }
{
    let z = z as u32;
    (gather(z >> 1), gather(z))
}

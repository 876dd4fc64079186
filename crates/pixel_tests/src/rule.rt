//! Four numbers and rows of numbers combined, as tables; depths, permits and steps.
ghost use Rattle.std.specs.Prelude.{◌≡◌, ◌*◌, All, IsTrue, length};
ghost use Rattle.parent_rule.specs.Depth.{IsNumber};

use parent_rule::Combine::{self, Mean, Median};
use parent_rule::{
    Depth, Permit, PixelNumber, Steps, mean_of_four, mean_of_full, mean_rows, mean4, median_of_four,
};

// Whether each is a number of the depth.
fn are_numbers(depth: Depth, numbers: &[i64]) -> bool
    ensures { IsTrue result → All (IsNumber depth.bitpix) numbers.now }
{
    numbers.iter().all(|number| depth.holds(*number))
}

// Whether the four are numbers of the depth, and give that one.
fn give(depth: Depth, four: &[i64; 4], wanted: i64) -> bool {
    are_numbers(depth, four) && mean4(*four, depth) == wanted
}

// The blank numbers of the tables of 16 and of 32 bits.
const B: i64 = -32768;

const B16: i16 = -32768;

const B32: i32 = -2147483648;

// How four numbers are combined, the bits of each, the blank one, the four, and what they give.
type FourRow = (Combine, u8, i64, [i64; 4], i64);

static FOURS: [FourRow; 19] = [
    (Mean, 16, B, [1, 2, B, B], 2),
    (Mean, 16, B, [-1, -2, B, B], -1),
    (Mean, 16, B, [1, 2, 3, 5], 3),
    (Mean, 16, B, [B, B, B, B], B),
    (Mean, 16, 0, [-1, 1, 0, 0], 1),
    (Mean, 16, B, [B, B, -7, B], -7),
    (Mean, 16, B, [1, B, 1, 2], 1),
    (Mean, 16, B, [B, 1, 2, 2], 2),
    (Mean, 16, B, [-1, -1, B, -2], -1),
    (Mean, 16, B, [-1, -2, -2, B], -2),
    (Mean, 16, B, [-1, -2, -3, -4], -2),
    (
        Mean,
        64,
        i64::MIN,
        [i64::MAX, i64::MAX, i64::MAX, i64::MAX],
        i64::MAX,
    ),
    (Median, 16, B, [1, 2, 3, 5], 2),
    (Median, 16, B, [-1, -2, B, B], -2),
    (Median, 16, B, [7, B, B, B], 7),
    (Median, 16, B, [B, B, B, B], B),
    (Median, 16, B, [3, 1, 2, B], 2),
    (Median, 16, B, [B, 5, 1, 5], 5),
    (Median, 16, B, [9, -4, B, 0], 0),
];

// Whether the four of a row give what it says.
fn four_give((combine, bitpix, blank, four, wanted): &FourRow) -> bool {
    match Depth::new(*bitpix, *blank) {
        Some(depth) => give(depth.with(*combine), four, *wanted),
        None => false,
    }
}

#[test]
fn combines_four(rt: HostRuntime) {
    for row in &FOURS {
        assert!(rt; four_give(row), "{row:?}");
    }
}

// Each row: the bits of a number, the blank one, and whether there is such a depth.
static DEPTHS: [(u8, i64, bool); 10] = [
    (8, 255, true),
    (8, 256, false),
    (8, -1, false),
    (16, -32768, true),
    (16, 32768, false),
    (32, -2147483648, true),
    (32, 2147483648, false),
    (64, i64::MIN, true),
    (12, 0, false),
    (0, 0, false),
];

// Each row: the bits of a number, and its bytes.
static WIDTHS: [(u8, usize); 4] = [(8, 1), (16, 2), (32, 4), (64, 8)];

// Whether there is a depth of these bits and bytes with 3 as the blank number, which takes either way to combine.
fn has_width(bitpix: u8, bytes: usize) -> bool {
    let Some(depth) = Depth::new(bitpix, 3) else {
        return false;
    };
    let median = depth.with(Median);
    depth.bitpix() == bitpix
        && depth.bytes() == bytes
        && depth.blank() == 3
        && depth.combine() == Mean
        && median.combine() == Median
        && median.with(Mean) == depth
}

#[test]
fn knows_the_depths(rt: HostRuntime) {
    for (bitpix, blank, known) in &DEPTHS {
        let is_known = Depth::new(*bitpix, *blank).is_some();
        assert!(rt; is_known == *known, "{bitpix} bits, blank {blank}");
    }
    for (bitpix, bytes) in &WIDTHS {
        assert!(rt; has_width(*bitpix, *bytes), "{bitpix} bits");
    }
}

// Issues a permit, consumes it, and answers whether it is that cell's, and the steps are then so many.
fn issues(npix: u64, steps: &mut Steps, count: u64) -> bool {
    let permit = Permit::issue(29, npix, steps);
    let is_its = permit.order() == 29 && permit.npix() == npix;
    permit.spend();
    is_its && steps.count() == count
}

#[test]
fn counts_permits(rt: HostRuntime) {
    let mut steps = Steps::new();
    assert!(rt; steps.count() == 0);
    assert!(rt; issues(0, &mut steps, 1));
    assert!(rt; issues(u64::MAX, &mut steps, 2));
    assert!(rt; issues(7, &mut steps, 3));
    steps.tick();
    assert!(rt; steps.count() == 4);
}

// Combines two rows, and answers whether each place has what the four numbers under it give.
fn agrees(depth: Depth, top: &[i64], bottom: &[i64], out: &mut [i64]) -> bool
    requires top_length { length top.now ≡ 2 * length out.old }
    requires bottom_length { length bottom.now ≡ 2 * length out.old }
    requires top { All (IsNumber depth.bitpix) top.now }
    requires bottom { All (IsNumber depth.bitpix) bottom.now }
{
    mean_rows(top, bottom, depth, out);
    for (i, number) in out.iter().enumerate() {
        let square = [top[2 * i], bottom[2 * i], top[2 * i + 1], bottom[2 * i + 1]];
        if !give(depth, &square, *number) {
            return false;
        }
    }
    true
}

const BLANK: i64 = 255;

// The two rows that are combined: blank at their first two places, and then here and there.
fn fill_rows(top: &mut [i64; 130], bottom: &mut [i64; 130]) {
    for i in 0..126 {
        if i % 5 > 0 {
            top[i + 2] = (i * 37 % 251) as i64;
        }
        if i % 7 > 1 {
            bottom[i + 2] = (i * 91 % 255) as i64;
        }
    }
}

// Whether the last places of the two rows are combined rightly, by both rules.
fn length_agrees(bitpix: u8, top: &[i64; 130], bottom: &[i64; 130], length: usize) -> bool {
    let Some(depth) = Depth::new(bitpix, BLANK) else {
        return false;
    };
    if length > 65 {
        return false;
    }
    let mut out = [0; 65];
    let top = &top[130 - 2 * length..];
    let bottom = &bottom[130 - 2 * length..];
    let out = &mut out[..length];
    are_numbers(depth, top)
        && are_numbers(depth, bottom)
        && agrees(depth, top, bottom, out)
        && agrees(depth.with(Median), top, bottom, out)
}

static LENGTHS: [usize; 6] = [0, 1, 7, 8, 9, 65];

#[test]
fn combines_rows_place_by_place(rt: HostRuntime) {
    let mut top = [BLANK; 130];
    let mut bottom = [BLANK; 130];
    fill_rows(&mut top, &mut bottom);
    for (bitpix, _) in &WIDTHS {
        for length in &LENGTHS {
            assert!(rt;
                length_agrees(*bitpix, &top, &bottom, *length),
                "{length} places of {bitpix} bits"
            );
        }
    }
}

// How four numbers of 8 bits are combined, the blank number, the four, and what they give.
static FOURS_OF_8: [(Combine, u8, [u8; 4], u8); 13] = [
    (Mean, 255, [1, 2, 255, 255], 2),
    (Mean, 0, [254, 255, 255, 0], 255),
    (Mean, 0, [255, 255, 255, 255], 255),
    (Mean, 255, [0, 0, 0, 1], 0),
    (Mean, 0, [0, 0, 0, 0], 0),
    (Mean, 2, [1, 1, 3, 3], 3),
    (Mean, 128, [127, 129, 128, 128], 129),
    (Mean, 255, [255, 3, 255, 255], 3),
    (Median, 255, [1, 2, 3, 5], 2),
    (Median, 255, [255, 5, 1, 5], 5),
    (Median, 0, [255, 0, 0, 255], 255),
    (Median, 7, [7, 7, 7, 7], 7),
    (Median, 7, [9, 8, 200, 7], 9),
];

// Whether the four give that one, without a blank also by the form of the mean for such.
fn give_at<N: PixelNumber>(combine: Combine, blank: N, four: &[N; 4], wanted: N) -> bool {
    let [a, b, c, d] = *four;
    if combine == Median {
        return median_of_four(a, b, c, d, blank) == wanted;
    }
    let no = blank.wide();
    if a.wide() != no && b.wide() != no && c.wide() != no && d.wide() != no {
        if mean_of_full(a, b, c, d, blank) != wanted {
            return false;
        }
    }
    mean_of_four(a, b, c, d, blank) == wanted
}

// The same of numbers of 16 bits.
static FOURS_OF_16: [(Combine, i16, [i16; 4], i16); 13] = [
    (Mean, B16, [32767, 32767, 32767, 32767], 32767),
    (Mean, B16, [-32767, -32767, -32767, -32767], -32767),
    (Mean, 0, [B16, B16, B16, B16], B16),
    (Mean, B16, [B16, -32767, 32767, B16], 0),
    (Mean, -1, [-3, 1, -2, 0], 0),
    (Mean, -1, [-3, 1, -1, -1], 0),
    (Mean, B16, [-1, -2, -3, -4], -2),
    (Mean, B16, [1, B16, 1, 2], 1),
    (Median, B16, [5, 3, 2, 1], 2),
    (Median, B16, [-1, -2, B16, B16], -2),
    (Median, 0, [B16, 32767, 32767, 0], 32767),
    (Median, B16, [32767, B16, B16, B16], 32767),
    (Median, B16, [9, -4, B16, 0], 0),
];

const MOST: i32 = 2147483647;

// The same of numbers of 32 bits.
static FOURS_OF_32: [(Combine, i32, [i32; 4], i32); 12] = [
    (Mean, B32, [MOST, MOST, MOST, MOST], MOST),
    (Mean, 0, [B32, B32, B32, B32], B32),
    (Mean, 0, [B32, MOST, B32, MOST], 1),
    (Mean, B32, [B32, -2147483647, MOST, B32], 0),
    (Mean, 7, [7, 6, 8, 7], 8),
    (Mean, B32, [B32, B32, B32, B32], B32),
    (Mean, B32, [-1, -2, -3, -4], -2),
    (Mean, B32, [1, B32, 2, 2], 2),
    (Median, B32, [5, 3, 2, 1], 2),
    (Median, B32, [B32, B32, B32, B32], B32),
    (Median, 1, [B32, 1, MOST, 1], B32),
    (Median, B32, [4, 4, 4, B32], 4),
];

#[test]
fn combines_four_of_each_width(rt: HostRuntime) {
    for (combine, blank, four, wanted) in &FOURS_OF_8 {
        assert!(rt;
            give_at(*combine, *blank, four, *wanted),
            "{four:?}, blank {blank}"
        );
    }
    for (combine, blank, four, wanted) in &FOURS_OF_16 {
        assert!(rt;
            give_at(*combine, *blank, four, *wanted),
            "{four:?}, blank {blank}"
        );
    }
    for (combine, blank, four, wanted) in &FOURS_OF_32 {
        assert!(rt;
            give_at(*combine, *blank, four, *wanted),
            "{four:?}, blank {blank}"
        );
    }
}

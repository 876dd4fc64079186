//! Cells by number, as tables.
use healpix_nested::{Cell, MAX_ORDER, cells, interleave, split};
use std::test::Fail;

// A column, a line and the number of their pixel.
static PLACES: [(u32, u32, u64); 9] = [
    (0, 0, 0),
    (0, 1, 1),
    (1, 0, 2),
    (1, 1, 3),
    (3, 0, 10),
    (0, 3, 5),
    (511, 511, 262_143),
    (511, 0, 174_762),
    (0, 511, 87_381),
];

// Whether the pixel at a column and a line has that number.
fn is_pixel(col: u32, row: u32, z: u64) -> bool {
    col < 512 && row < 512 && z < 262_144 && interleave(col, row) == z && split(z) == (col, row)
}

#[test]
fn columns_and_lines_interleave(rt: HostRuntime) {
    for (col, row, z) in &PLACES {
        assert!(rt; is_pixel(*col, *row, *z), "{z}");
    }
}

const LAST: u64 = 13_194_139_533_311;

// Whether there is such a cell.
static KNOWN: [(u8, u64, bool); 5] = [
    (20, LAST, true),
    (20, LAST + 1, false),
    (21, 0, false),
    (0, 12, false),
    (0, 11, true),
];

#[test]
fn cells_have_numbers(rt: HostRuntime) {
    assert!(rt; cells(0) == 12 && cells(MAX_ORDER) == LAST + 1);
    for (order, npix, known) in &KNOWN {
        assert!(rt; Cell::new(*order, *npix).is_some() == *known, "{npix}");
    }
}

// Whether 3/767 is the last child of 2/191, 11/50331647 lies under it, and 0/5 under none.
fn are_kin() -> Option<bool> {
    let root = Cell::new(0, 5)?;
    let above = Cell::new(2, 191)?;
    let cell = Cell::new(3, 767)?;
    let deep = Cell::new(11, 50_331_647)?;
    let is_child = cell.parent() == Some(above) && above.order() < 20 && above.child(3) == cell;
    let lies_under = deep.order() == 11 && deep.ancestor(3).npix() == 767;
    Some(is_child && lies_under && cell.order() == 3 && cell.npix() == 767 && root.parent() == None)
}

#[test]
fn cells_lie_under_cells(rt: HostRuntime) {
    assert!(rt; are_kin() == Some(true));
}

// Whether 2/191, 3/0 and 3/1 ascend.
fn ascend() -> Option<bool> {
    let above = Cell::new(2, 191)?;
    let first = Cell::new(3, 0)?;
    Some(above < first && first < Cell::new(3, 1)?)
}

#[test]
fn cells_are_in_order_and_have_a_text(rt: HostRuntime) -> Result<(), Fail> {
    assert!(rt; ascend() == Some(true));
    let cell = Cell::new(3, 1).ok_or("no cell 3/1")?;
    assert!(rt; cell.to_string(rt.alloc())?.as_str() == "3/1");
    Ok(())
}

// A number, and the order and the number of the cell whose one number of both it is, where it is one's.
static UNIQ: [(u64, Option<(u8, u64)>); 12] = [
    (4, Some((0, 0))),
    (16, Some((1, 0))),
    (256, Some((3, 0))),
    (1024, Some((4, 0))),
    (67_108_863, Some((11, 50_331_647))),
    (17_592_186_044_415, Some((20, LAST))),
    (0, None),
    (1, None),
    (2, None),
    (3, None),
    (17_592_186_044_416, None),
    (u64::MAX, None),
];

// Whether the number is that of the cell of this order and number, or of none.
fn is_uniq(uniq: u64, known: Option<(u8, u64)>) -> bool {
    match (Cell::from_uniq(uniq), known) {
        (Some(cell), Some((order, npix))) => {
            Cell::new(order, npix) == Some(cell) && cell.uniq() == uniq
        }
        (None, None) => true,
        _ => false,
    }
}

#[test]
fn order_and_number_are_one_number(rt: HostRuntime) {
    for (uniq, known) in &UNIQ {
        assert!(rt; is_uniq(*uniq, *known), "{uniq}");
    }
}

// The order and the number of a cell; the cell of order 0 over it; its column and line there; an order above, and the cell
// of that order over it.
type HealpyRow = (u8, u64, u64, u32, u32, u8, u64);

// healpy made them: scripts/healpix-values.py.
static HEALPY: [HealpyRow; 20] = [
    (1, 26, 6, 1, 0, 0, 6),
    (1, 47, 11, 1, 1, 0, 11),
    (2, 81, 5, 0, 1, 1, 20),
    (2, 191, 11, 3, 3, 1, 47),
    (3, 716, 11, 2, 2, 1, 44),
    (3, 767, 11, 7, 7, 1, 47),
    (5, 7211, 7, 7, 1, 2, 112),
    (5, 12_287, 11, 31, 31, 2, 191),
    (7, 47_582, 2, 107, 94, 3, 185),
    (7, 196_607, 11, 127, 127, 3, 767),
    (8, 347_989, 5, 48, 191, 4, 1359),
    (8, 786_431, 11, 255, 255, 4, 3071),
    (9, 1_220_160, 4, 432, 104, 4, 1191),
    (9, 3_145_727, 11, 511, 511, 4, 3071),
    (12, 105_845_391, 6, 795, 2883, 6, 25_841),
    (12, 201_326_591, 11, 4095, 4095, 6, 49_151),
    (16, 9_910_990_194, 2, 16_069, 42_876, 8, 151_229),
    (16, 51_539_607_551, 11, 65_535, 65_535, 8, 786_431),
    (20, 1_019_503_047_769, 0, 930_498, 784_365, 10, 972_273),
    (
        20,
        13_194_139_533_311,
        11,
        1_048_575,
        1_048_575,
        10,
        12_582_911,
    ),
];

// Whether the cell of a row has the number of its place, that cell of order 0 over it, and that one of a higher order.
fn stands((order, npix, base, column, line, higher, above): &HealpyRow) -> bool {
    let Some(cell) = Cell::new(*order, *npix) else {
        return false;
    };
    let z = *npix % (1 << (2 * (*order).min(9)));
    *higher <= cell.order()
        && interleave(*column % 512, *line % 512) == z
        && cell.ancestor(0).npix() == *base
        && cell.ancestor(*higher).npix() == *above
}

#[test]
fn cells_stand_where_healpy_has_them(rt: HostRuntime) {
    for row in &HEALPY {
        assert!(rt; stands(row), "{row:?}");
    }
}

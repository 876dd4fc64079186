//! Worked examples: covers changed leaf by leaf, their files, and files that are refused.
ghost use Rattle.std.specs.Prelude.{◌≡◌, ◌<◌, ◌≤◌, IfOk, All};
ghost use Rattle.std.specs.Map.{keys_of};
ghost use Rattle.healpix_nested.specs.Cells.{cell_count};

use coverage_moc::{Cover, CoverRefusal, plain};
use healpix_nested::cells;
use leaf_store::Store;
use parent_rule::{Depth, Steps};
use small_files::{COVERAGE_COLUMN, COVERAGE_HEADER, COVERAGE_TABLE, fill_block, header};
use std::alloc::{AllocError, Global};
use std::sync::Arc;
use std::test::Fail;
use tile_pixels::Tile;

// A tile of two columns and two lines.
fn tile(alloc: Global) -> Result<Arc<Tile>, Fail> {
    let Some(depth) = Depth::new(8, 0) else {
        return Err("no depth".into());
    };
    if depth.bytes() != 1 {
        return Err("not 8 bits".into());
    }
    let tile = Tile::from_bytes(alloc, &[1, 2, 3, 4], depth, 1, &mut Steps::new())?;
    Ok(Arc::new(alloc, tile)?)
}

// A store of these leaves.
fn store_of(alloc: Global, top: u8, leaves: &[u64]) -> Result<Store<Tile>, Fail>
    requires { top ≤ 11 }
    ensures { IfOk result (λ store. All (λ leaf. leaf < cell_count top) (keys_of store)) }
{
    let mut store = Store::new(alloc);
    for leaf in leaves {
        if *leaf >= cells(top) {
            return Err("no such leaf".into());
        }
        store.put(*leaf, tile(alloc)?)?;
    }
    Ok(store)
}

// The cover of these leaves.
pub(crate) fn cover_of(alloc: Global, top: u8, leaves: &[u64]) -> Result<Cover, Fail>
    requires { top ≤ 11 }
    ensures { IfOk result (λ made. made.top ≡ top) }
{
    let store = store_of(alloc, top, leaves)?;
    Ok(Cover::of(alloc, top, &store)?)
}

// The cover of these leaves, by one change after another from the cover of none.
fn cover_by_steps(alloc: Global, top: u8, leaves: &[u64]) -> Result<Cover, Fail>
    requires { top ≤ 11 }
    ensures { IfOk result (λ made. made.top ≡ top) }
{
    let mut cover = cover_of(alloc, top, &[])?;
    for leaf in leaves {
        cover = changed(alloc, &cover, top, true, *leaf)?;
    }
    Ok(cover)
}

// The cover with one leaf more, or one less.
fn changed(alloc: Global, cover: &Cover, top: u8, more: bool, leaf: u64) -> Result<Cover, Fail>
    requires top { top ≤ 11 }
    requires same { top ≡ cover.now.top }
    ensures { IfOk result (λ made. made.top ≡ top) }
{
    if leaf >= cells(top) {
        return Err("no such leaf".into());
    }
    if more {
        Ok(cover.add(alloc, top, leaf)?)
    } else {
        Ok(cover.remove(alloc, top, leaf)?)
    }
}

// The numbers from `start` to below `end`.
pub(crate) fn numbers(alloc: Global, start: u64, end: u64) -> Result<Vec<u64>, AllocError> {
    let mut all = Vec::new(alloc);
    for number in start..end {
        all.push(number)?;
    }
    Ok(all)
}

// Whether the cover has exactly these rows.
fn has_rows(cover: &Cover, rows: &[u64]) -> bool {
    for (i, row) in rows.iter().enumerate() {
        if cover.at(i) != Some(*row) {
            return false;
        }
    }
    cover.len() == rows.len() && cover.at(rows.len()).is_none()
}

const NINE: [u64; 9] = [16, 17, 18, 76, 77, 78, 316, 317, 318];

// One leaf more, or one less, and the rows of the cover then.
type Step = (bool, u64, &'static [u64]);

// The order of the leaves, how many there are from 0, the rows of their cover, and changes to it, one after the other.
type StepsRow = (u8, u64, &'static [u64], &'static [Step]);

// A leaf that is there is added, one that isn't is taken away, four siblings at each order become one row and part again.
static STEPS: [StepsRow; 2] = [
    (
        3,
        63,
        &NINE,
        &[
            (true, 0, &NINE),
            (false, 63, &NINE),
            (true, 63, &[4]),
            (true, 63, &[4]),
            (false, 63, &NINE),
        ],
    ),
    (4, 4, &[256], &[(false, 3, &[1024, 1025, 1026])]),
];

// Whether the cover has the rows of each step.
fn follows(alloc: Global, top: u8, mut cover: Cover, steps: &[Step]) -> Result<bool, Fail>
    requires top { top ≤ 11 }
    requires same { top ≡ cover.top }
{
    for (more, leaf, rows) in steps {
        cover = changed(alloc, &cover, top, *more, *leaf)?;
        if !has_rows(&cover, rows) {
            return Ok(false);
        }
    }
    Ok(true)
}

// Whether the cover of a row has its rows, and those of each step.
fn changes_by_steps(alloc: Global, (top, end, rows, steps): &StepsRow) -> Result<bool, Fail> {
    if *top > 11 {
        return Err("no such order".into());
    }
    let leaves = numbers(alloc, 0, *end)?;
    let cover = cover_of(alloc, *top, &leaves)?;
    if !has_rows(&cover, rows) {
        return Ok(false);
    }
    follows(alloc, *top, cover, steps)
}

#[test]
fn covers_change_by_steps(rt: HostRuntime) -> Result<(), Fail> {
    for row in &STEPS {
        assert!(rt; changes_by_steps(rt.alloc(), row)?, "{row:?}");
    }
    Ok(())
}

// The order of the leaves, their numbers, and the rows of their cover.
type CoverRow = (u8, &'static [u64], &'static [u64]);

static COVERS: [CoverRow; 6] = [
    (4, &[], &[]),
    (4, &[0, 1, 2, 3], &[256]),
    (4, &[3, 1, 0], &[1024, 1025, 1027]),
    (11, &[0, 50_331_647], &[16_777_216, 67_108_863]),
    (0, &[0, 1, 2, 3, 11], &[4, 5, 6, 7, 15]),
    (1, &[47, 4, 5, 6, 7], &[5, 63]),
];

// Whether the cover that was made has these rows.
fn is_made_of(made: Result<Cover, Fail>, rows: &[u64]) -> Result<bool, Fail> {
    Ok(has_rows(&made?, rows))
}

// Whether the cover of a row has its rows, made at once and by steps.
fn is_cover(alloc: Global, (top, leaves, rows): &CoverRow) -> Result<bool, Fail> {
    if *top > 11 {
        return Err("no such order".into());
    }
    let at_once = is_made_of(cover_of(alloc, *top, leaves), rows)?;
    let by_steps = is_made_of(cover_by_steps(alloc, *top, leaves), rows)?;
    Ok(at_once && by_steps)
}

#[test]
fn covers_have_rows(rt: HostRuntime) -> Result<(), Fail> {
    for row in &COVERS {
        assert!(rt; is_cover(rt.alloc(), row)?, "{row:?}");
    }
    Ok(())
}

// Leaves of an order that a linear congruence takes, one of so many.
fn some_leaves(alloc: Global, top: u8, one_of: u32, seed: u32) -> Result<Vec<u64>, AllocError>
    requires { top ≤ 11 }
{
    let mut state = seed;
    let mut leaves = Vec::new(alloc);
    for leaf in 0..cells(top) {
        state = state.wrapping_mul(1664525).wrapping_add(1013904223);
        if (state >> 16).is_multiple_of(one_of) {
            leaves.push(leaf)?;
        }
    }
    Ok(leaves)
}

// Whether the cover is that of these leaves by the plain program.
fn is_plain(alloc: Global, cover: &Cover, top: u8, leaves: &[u64]) -> Result<bool, AllocError>
    requires { top ≤ 11 }
{
    let rows = plain::cover(alloc, top, leaves)?;
    Ok(has_rows(cover, &rows))
}

// The cover after a change of one leaf, which is taken away where it is there.
fn turned(
    alloc: Global,
    cover: &Cover,
    top: u8,
    leaves: &mut Vec<u64>,
    leaf: u64,
) -> Result<Cover, Fail>
    requires top { top ≤ 11 }
    requires same { top ≡ cover.now.top }
    ensures { IfOk result (λ made. made.top ≡ top) }
{
    if leaves.contains(&leaf) {
        leaves.retain(|other| *other != leaf);
        changed(alloc, cover, top, false, leaf)
    } else {
        leaves.push(leaf)?;
        changed(alloc, cover, top, true, leaf)
    }
}

// Whether a cover that is changed leaf by leaf is that of the plain program each time.
fn stays_plain(alloc: Global, top: u8, leaves: &mut Vec<u64>, changes: &[u64]) -> Result<bool, Fail>
    requires { top ≤ 11 }
{
    let mut cover = cover_of(alloc, top, leaves)?;
    for leaf in changes {
        if !is_plain(alloc, &cover, top, leaves)? {
            return Ok(false);
        }
        cover = turned(alloc, &cover, top, leaves, *leaf)?;
    }
    Ok(is_plain(alloc, &cover, top, leaves)?)
}

// An order, one leaf of how many is there, one of how many is changed, and a seed.
type DrawRow = (u8, u32, u32, u32);

static DRAWS: [DrawRow; 6] = [
    (0, 2, 2, 1),
    (1, 1, 4, 2),
    (1, 2, 4, 3),
    (2, 1, 16, 4),
    (2, 5, 16, 5),
    (3, 1, 256, 6),
];

// Whether the covers of drawn leaves, and of drawn changes to them, are those of the plain program.
fn are_plain(alloc: Global, (top, one_of, of_changes, seed): &DrawRow) -> Result<bool, Fail> {
    if *top > 11 {
        return Err("no such order".into());
    }
    let changes = some_leaves(alloc, *top, *of_changes, seed.saturating_add(100))?;
    let mut leaves = some_leaves(alloc, *top, *one_of, *seed)?;
    stays_plain(alloc, *top, &mut leaves, &changes)
}

#[test]
fn covers_are_those_of_the_plain_program(rt: HostRuntime) -> Result<(), Fail> {
    for row in &DRAWS {
        assert!(rt; are_plain(rt.alloc(), row)?, "{row:?}");
    }
    Ok(())
}

// Adds the rows, as the data of the table.
fn push_rows(text: &mut Vec<u8>, rows: &[u64]) -> Result<(), AllocError> {
    for row in rows {
        text.extend_from_slice(&row.to_be_bytes())?;
    }
    fill_block(text, 0)
}

// The coverage file of order 4 with these rows.
fn file(alloc: Global, rows: &[u64]) -> Result<Vec<u8>, AllocError> {
    let count = rows.len();
    let table = format!(in alloc;
        "{COVERAGE_TABLE}NAXIS2  = {count:>20}\n{COVERAGE_COLUMN}MOCORDER=                    4\nEND"
    )?;
    let mut text = header(alloc, COVERAGE_HEADER)?;
    text.extend_from_slice(&header(alloc, &table)?)?;
    push_rows(&mut text, rows)?;
    Ok(text)
}

// Leaves, the rows of their cover, and how long its file is.
type FileRow = (&'static [u64], &'static [u64], usize);

static FILES: [FileRow; 3] = [
    (&[], &[], 5_760),
    (&[0, 1, 2, 3], &[256], 8_640),
    (&[0, 1, 2, 3071], &[1024, 1025, 1026, 4095], 8_640),
];

// Whether the cover has this file.
fn has_file(alloc: Global, cover: &Cover, file: &[u8]) -> Result<bool, AllocError>
    requires { cover.now.top ≡ 4 }
{
    let written = cover.encode(alloc, 4)?;
    Ok(written.as_slice() == file)
}

// Whether the cover has these leaves.
fn has_leaves(alloc: Global, cover: &Cover, leaves: &[u64]) -> Result<bool, AllocError>
    requires { cover.now.top ≡ 4 }
{
    if cover.leaves(4) != leaves.len() as u64 || cover.leaves(4) > 65_000 {
        return Ok(false);
    }
    let list = cover.leaf_list(alloc, 4)?;
    Ok(list.as_slice() == leaves)
}

// Whether the cover of these leaves has them, and this file.
fn is_written(alloc: Global, leaves: &[u64], file: &[u8]) -> Result<bool, Fail> {
    let cover = cover_of(alloc, 4, leaves)?;
    Ok(has_leaves(alloc, &cover, leaves)? && has_file(alloc, &cover, file)?)
}

// Whether the file is read as the cover of these rows.
fn is_read(alloc: Global, file: &[u8], rows: &[u64]) -> Result<bool, Fail> {
    let cover = Cover::decode(alloc, 4, file)?;
    Ok(has_rows(&cover, rows))
}

// Whether the file of a row is so long, is that of the cover of its leaves, and is read as the cover of its rows.
fn is_file(alloc: Global, (leaves, rows, len): &FileRow) -> Result<bool, Fail> {
    let file = file(alloc, rows)?;
    if file.len() != *len {
        return Ok(false);
    }
    Ok(is_written(alloc, leaves, &file)? && is_read(alloc, &file, rows)?)
}

#[test]
fn files_are_written_and_read(rt: HostRuntime) -> Result<(), Fail> {
    for row in &FILES {
        assert!(rt; is_file(rt.alloc(), row)?, "{row:?}");
    }
    Ok(())
}

// What a file is, its rows, how many bytes of it there are, a place and the byte that is there in its place.
type OtherRow = (&'static str, &'static [u64], usize, usize, u8);

static OTHERS: [OtherRow; 15] = [
    ("out of order", &[1025, 1024], 8_640, 0, b'S'),
    ("one row twice", &[1024, 1024], 8_640, 0, b'S'),
    ("four siblings", &[1024, 1025, 1026, 1027], 8_640, 0, b'S'),
    ("one under another", &[256, 1024], 8_640, 0, b'S'),
    ("of a further order", &[4096], 8_640, 0, b'S'),
    ("of no cell", &[3], 8_640, 0, b'S'),
    ("another keyword", &[256], 8_640, 0, b'T'),
    ("not big-endian", &[256], 8_640, 5_760, 1),
    ("another count of rows", &[256], 8_640, 3_229, b'2'),
    ("galactic coordinates", &[256], 8_640, 3_851, b'G'),
    ("of another order", &[256], 8_640, 3_949, b'3'),
    ("padded otherwise", &[256], 8_640, 8_639, 1),
    ("one byte more", &[256], 8_641, 8_640, 0),
    ("one byte less", &[], 5_759, 0, b'S'),
    ("empty", &[], 0, 0, 0),
];

// The file of a row, changed as it says.
fn other_file(alloc: Global, (_, rows, len, at, byte): &OtherRow) -> Result<Vec<u8>, AllocError> {
    let mut text = file(alloc, rows)?;
    text.resize(*len, 0)?;
    if *at < text.len() {
        text[*at] = *byte;
    }
    Ok(text)
}

// Whether a file is refused as one of order 4.
fn is_refused(alloc: Global, row: &OtherRow) -> Result<bool, Fail> {
    let text = other_file(alloc, row)?;
    match Cover::decode(alloc, 4, &text) {
        Ok(_cover) => Ok(false),
        Err(CoverRefusal::NotCover) => Ok(true),
        Err(refusal) => Err(refusal)?,
    }
}

#[test]
fn other_files_are_refused(rt: HostRuntime) -> Result<(), Fail> {
    for row in &OTHERS {
        assert!(rt; is_refused(rt.alloc(), row)?, "{}", row.0);
    }
    let unchanged: OtherRow = ("unchanged", &[256], 8_640, 0, b'S');
    assert!(rt; !is_refused(rt.alloc(), &unchanged)?);
    Ok(())
}

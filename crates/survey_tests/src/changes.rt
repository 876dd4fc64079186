//! Generations that are made by changes, beside those that are made at once.
ghost use Rattle.std.specs.Prelude.{◌<◌};

use edit_journal::Edit;
use generation::{Body, Generation, Parts};
use parent_rule::{Depth, Steps};
use reader_pin::{Board, BoardRefusal, ChangedWith, Solo};
use small_files::{SURVEY, description_with};
use small_survey::{first_state, fits};
use std::alloc::{AllocError, Global};
use std::process::Abort;
use std::sync::Arc;
use std::sync::atomic::{AtomicU64, Ordering};
use std::test::Fail;
use std::thread::Threads;
use survey_link::{Gate, OpenGate};
use tile_path::Path;
use tile_pixels::Tile;

// The board of the survey with that description, without leaves.
fn opened<R: Threads + Sync>(rt: &R, alloc: Global, conf: &str) -> Result<Solo, Fail> {
    Ok(Solo::new(alloc, first_state(rt, alloc, conf)?)?)
}

// Asks the board for the edit, and says whether it answered. It may refuse to remove a leaf that isn't there.
fn edits<R>(rt: &R, board: &mut Solo, edit: Edit) -> bool {
    if !fits(board.last(), &edit) {
        return false;
    }
    match board.edit(rt, edit) {
        Ok(_) => true,
        Err(BoardRefusal::Fault { .. }) => true,
        Err(BoardRefusal::OutOfMemory) => false,
    }
}

// A tile of two columns and two lines of 16 bits, by its bytes.
fn tile(alloc: Global, depth: Depth, bytes: &[u8; 8]) -> Result<Arc<Tile>, Fail> {
    if depth.bytes() != 2 {
        return Err("other tiles".into());
    }
    let tile = Tile::from_bytes(alloc, bytes, depth, 1, &mut Steps::new())?;
    Ok(Arc::new(alloc, tile)?)
}

// Puts a leaf, by the bytes of its tile.
fn puts<R>(
    rt: &R,
    alloc: Global,
    board: &mut Solo,
    leaf: u32,
    bytes: &[u8; 8],
) -> Result<bool, Fail> {
    let tile = tile(alloc, board.last().conf().shape().depth, bytes)?;
    let leaf = u64::from(leaf);
    Ok(edits(rt, board, Edit::Put { leaf, tile }))
}

// Puts the leaf whose tile begins with that number, and goes on with -32768, 5 and 7.
fn puts_number<R>(
    rt: &R,
    alloc: Global,
    board: &mut Solo,
    leaf: u32,
    first: u32,
) -> Result<bool, Fail> {
    let [_, _, high, low] = first.to_be_bytes();
    puts(rt, alloc, board, leaf, &[high, low, 0x80, 0, 0, 5, 0, 7])
}

fn removes<R>(rt: &R, board: &mut Solo, leaf: u32) -> bool {
    let leaf = u64::from(leaf);
    edits(rt, board, Edit::Remove { leaf })
}

// Publishes all edits, each tile of which passes the gate.
fn publishes<R: Threads + Sync, G: Gate + Sync>(rt: &R, board: &mut Solo, gate: &G) -> bool {
    board.publish(rt, gate, &mut Steps::new()).is_ok()
}

// A gate that counts who passes.
#[derive(Drop)]
struct Counting {
    passed: AtomicU64,
}

impl Gate for Counting {
    fn pass(&self, _order: u8, _npix: u64) {
        self.passed.fetch_add(1, Ordering::SeqCst);
    }
}

// A leaf, the number that its tile has four times, and how many have passed the gate after a publication; 0 where there is
// none. Three leaves under three cells, then one of them again: one tile is merged for it.
static PUTS: [(u32, u8, u64); 4] = [(0, 1, 0), (4, 2, 0), (8, 3, 3), (0, 4, 4)];

fn merges_one<R: Threads + Abort + Sync>(
    rt: &R,
    alloc: Global,
    board: &mut Solo,
) -> Result<(), Fail> {
    let gate = Counting {
        passed: AtomicU64::new(0),
    };
    for (leaf, number, passed) in &PUTS {
        let n = *number;
        assert!(rt;
            puts(rt, alloc, board, *leaf, &[0, n, 0, n, 0, n, 0, n])?,
            "{leaf} {n}"
        );
        if *passed > 0 {
            assert!(rt; publishes(rt, board, &gate), "{leaf} {n}");
            assert!(rt; gate.passed.load(Ordering::SeqCst) == *passed, "{leaf} {n}");
        }
    }
    Ok(())
}

#[test]
fn one_merge_for_one_leaf(rt: HostRuntime) -> Result<(), Fail> {
    let mut board = opened(&rt, rt.alloc(), SURVEY)?;
    merges_one(&rt, rt.alloc(), &mut board)
}

// A number below the end that looks random.
fn number(i: u32, end: u32) -> u32
    requires { 0 < end }
{
    (i.wrapping_mul(1_664_525).wrapping_add(1_013_904_223) >> 8) % end
}

// The leaf of order `top` that the edit with that number is of: half of them are among the first 16, the others far apart.
fn leaf(i: u32, top: u8) -> u32 {
    if number(i, 2) == 0 {
        return number(i, 16);
    }
    match top {
        3 => number(i, 768),
        4 => number(i, 768).saturating_mul(4),
        _ => number(i, 768).saturating_mul(16),
    }
}

// Makes the edit with that number, of those that look random: a third removes a leaf, which may not be there.
fn edits_at<R>(rt: &R, alloc: Global, board: &mut Solo, top: u8, i: u32) -> Result<bool, Fail> {
    let leaf = leaf(i, top);
    if number(i, 3) == 0 {
        return Ok(removes(rt, board, leaf));
    }
    puts_number(rt, alloc, board, leaf, number(i, 1_000))
}

// Makes the edit that a word names: to put a leaf, or behind a `-` to remove it.
fn edits_by<R>(rt: &R, alloc: Global, board: &mut Solo, word: &str) -> Result<bool, Fail> {
    match word.strip_prefix('-') {
        Some(leaf) => Ok(removes(rt, board, leaf.parse::<u32>()?)),
        None => puts_number(rt, alloc, board, word.parse::<u32>()?, 3),
    }
}

// The edits before a publication: those that look random from a number up to another, and words; from one publication to the
// next few and many. Of four siblings one goes and comes again.
static STEPS: [(u32, u32, &str); 6] = [
    (0, 1, ""),
    (1, 9, ""),
    (9, 81, "20 21 22 23"),
    (0, 0, "-23"),
    (81, 100, ""),
    (0, 0, "23"),
];

// Makes the edits of a step, and publishes them.
fn goes_on<R: Threads + Sync>(
    rt: &R,
    alloc: Global,
    board: &mut Solo,
    top: u8,
    step: &(u32, u32, &str),
) -> Result<bool, Fail> {
    let (first, end, words) = *step;
    for i in first..end {
        if !edits_at(rt, alloc, board, top, i)? {
            return Ok(false);
        }
    }
    for word in words.split_terminator(' ') {
        if !edits_by(rt, alloc, board, word)? {
            return Ok(false);
        }
    }
    Ok(publishes(rt, board, &OpenGate::new()))
}

// The bytes at a path, by `file`; none where there is no file.
fn file(alloc: Global, generation: &Generation, path: Path) -> Result<Vec<u8>, AllocError> {
    let mut out = Vec::new(alloc);
    out.resize(generation.room(), 0)?;
    match generation.file(&path, &mut out) {
        Some(Body::Written(count)) => {
            out.truncate(count);
            Ok(out)
        }
        Some(Body::Kept(bytes)) => Ok(bytes.to_vec(alloc)?),
        None => Ok(Vec::new(alloc)),
    }
}

// The same, by `file_parts`.
fn parts(alloc: Global, generation: &Generation, path: Path) -> Result<Vec<u8>, Fail> {
    let mut out = Vec::new(alloc);
    out.resize(2880, 1)?;
    match generation.file_parts(&path, &mut out) {
        Some(parts) => joined(out, &parts),
        None => Ok(Vec::new(alloc)),
    }
}

fn joined(mut out: Vec<u8>, parts: &Parts<'_>) -> Result<Vec<u8>, Fail> {
    out.truncate(parts.front);
    out.extend_from_slice(parts.kept)?;
    out.extend_from_slice(parts.zeros)?;
    Ok(out)
}

// Whether both generations have the same bytes at a path.
fn is_same_file(
    alloc: Global,
    one: &Generation,
    other: &Generation,
    path: Path,
) -> Result<bool, Fail> {
    let bytes = file(alloc, one, path)?;
    let parts = parts(alloc, other, path)?;
    Ok(!bytes.is_empty() && bytes.as_slice() == parts.as_slice())
}

// Whether both have the same file with that number.
fn is_same_place(
    alloc: Global,
    one: &Generation,
    other: &Generation,
    i: u64,
) -> Result<bool, Fail> {
    match one.path(i) {
        Some(path) => { Ok(other.path(i) == Some(path) && is_same_file(alloc, one, other, path)?) }
        None => Ok(false),
    }
}

// Whether both generations have the same files.
fn are_same(alloc: Global, one: &Generation, other: &Generation) -> Result<bool, Fail> {
    for i in 0..one.file_count() {
        if !is_same_place(alloc, one, other, i)? {
            return Ok(false);
        }
    }
    Ok(one.file_count() == other.file_count())
}

// The generation of the same leaves, made at once.
fn at_once<R: Threads + Sync>(
    rt: &R,
    alloc: Global,
    generation: &Generation,
) -> Result<Generation, Fail> {
    let conf = generation.conf().clone()?;
    let leaves = generation.leaves().share()?;
    let made = Generation::start(rt, alloc, conf, leaves, &OpenGate::new(), &mut Steps::new())?;
    Ok(made)
}

// Whether the board's generation is that of all its edits, and has the files that its leaves make.
fn is_made<R: Threads + Sync>(rt: &R, alloc: Global, board: &Solo) -> Result<bool, Fail> {
    let state = board.last();
    if state.tip() != state.edits() {
        return Ok(false);
    }
    let whole = at_once(rt, alloc, state.generation())?;
    are_same(alloc, &whole, state.generation())
}

// The names that every description here has: tiles of two columns, numbers of 16 bits.
static NAMES: &str = description_with!(
    "hips_tile_width = 2\nsurvey_bitpix = 16\nsurvey_blank = -32768\n"
);

// Whether each step makes what the leaves make, of order `top`.
fn all_go<R: Threads + Sync>(
    rt: &R,
    alloc: Global,
    board: &mut Solo,
    top: u8,
) -> Result<bool, Fail> {
    for step in &STEPS {
        if !goes_on(rt, alloc, board, top, step)? || !is_made(rt, alloc, board)? {
            return Ok(false);
        }
    }
    Ok(true)
}

// The same over a survey with that description.
fn goes_by<R: Threads + Sync>(rt: &R, alloc: Global, top: u8, conf: &str) -> Result<bool, Fail> {
    let mut board = opened(rt, alloc, conf)?;
    all_go(rt, alloc, &mut board, top)
}

// The same where the description ends by these lines.
fn goes<R: Threads + Sync>(rt: &R, alloc: Global, top: u8, lines: &str) -> Result<bool, Fail> {
    let conf = format!(in alloc; "{NAMES}hips_order = {top}\n{lines}")?;
    goes_by(rt, alloc, top, &conf)
}

// Lowest orders and ways to combine.
static LINES: [&str; 2] = [
    "survey_version = 2\nsurvey_rule = median\n",
    "hips_order_min = 0\n",
];

#[test]
fn changes_make_what_the_leaves_make(rt: HostRuntime) -> Result<(), Fail> {
    for top in 3..6 {
        for lines in &LINES {
            assert!(rt; goes(&rt, rt.alloc(), top, lines)?, "{top} {lines}");
        }
    }
    Ok(())
}

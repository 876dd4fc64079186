//! Shelves in memory: what is refused, and what is written, compared and read again.
use generation::Generation;
use log::Log;
use memory_link::MemShelf;
use parent_rule::Steps;
use shelf_io::{LoadRefusal, Verdict, export, load, verify};
use small_files::{SURVEY, description_with, tile_file};
use std::alloc::Global;
use std::process::Abort;
use std::test::Fail;
use std::thread::Threads;
use std::time::Clock;
use survey_link::{LinkFault, OpenGate, Shelf};

// The small survey with an order out of range.
const TOO_DEEP: &str = description_with!(
    "hips_order = 12\nhips_tile_width = 2\nsurvey_bitpix = 16\nsurvey_blank = -32768\n"
);

// The same without the blank number.
const NO_BLANK: &str = description_with!(
    "hips_order = 4\nhips_tile_width = 2\nsurvey_bitpix = 16\n"
);

// A survey of order 3 whose tiles have 512 columns and lines of 64 bits: a tile has 2,097,152 bytes.
const WIDE: &str = description_with!("hips_order = 3\nsurvey_bitpix = 64\nsurvey_blank = 0\n");

// The header of a tile of the first survey, one card a line.
const HEADER: &str = "SIMPLE  =                    T
BITPIX  =                   16
NAXIS   =                    2
NAXIS1  =                    2
NAXIS2  =                    2
BLANK   =               -32768
END";

// Puts a description and a note.
fn put_own(shelf: &mut MemShelf, conf: &str) -> Result<(), LinkFault> {
    shelf.put("survey.conf", conf.as_bytes())?;
    shelf.put("note.txt", b"keep")
}

// A shelf with a description and a note; without a description it is empty.
fn shelf_of(alloc: Global, conf: &str, fails: Vec<u64>) -> Result<MemShelf, LinkFault> {
    let mut shelf = MemShelf::new(alloc, fails);
    if !conf.is_empty() {
        put_own(&mut shelf, conf)?;
    }
    Ok(shelf)
}

// A shelf of the first survey with leaf 0, and a file of a survey that has no such leaf. Four calls have made it.
fn shelf_with_leaf(alloc: Global, fails: Vec<u64>) -> Result<MemShelf, Fail> {
    let file = tile_file(alloc, HEADER, [1, 2, 3, 5])?;
    let mut shelf = shelf_of(alloc, SURVEY, fails)?;
    shelf.put("Norder4/Dir0/Npix0.fits", &file)?;
    shelf.put("Norder5/Dir0/Npix7.fits", b"stray")?;
    Ok(shelf)
}

fn opened<R: Threads + Sync + Clock + Log>(
    rt: &R,
    alloc: Global,
    shelf: &mut MemShelf,
) -> Result<Generation, LoadRefusal> {
    load(rt, alloc, shelf, &OpenGate::new(), &mut Steps::new())
}

// The paths of the shelf, in order, each with a space behind it.
fn listed(alloc: Global, shelf: &mut MemShelf) -> Result<String, Fail> {
    let mut paths = shelf.list(alloc)?;
    paths.sort()?;
    let mut text = String::new(alloc);
    for path in &paths {
        text.push_str(path)?;
        text.push(' ')?;
    }
    Ok(text)
}

// A description, if there is one, the paths of files of ten bytes with a space between, or how many leaves have an empty file,
// and how loading is refused.
static REFUSED: [(&str, &str, &str); 8] = [
    ("", "0", "conf absent"),
    (TOO_DEEP, "", "conf 5 4"),
    (NO_BLANK, "", "conf 0 5"),
    (NO_BLANK, "Norder4/Dir0/Npix0.fits", "conf 0 5"),
    (
        SURVEY,
        "Norder4/Dir0/Npix0.fits",
        "tile Norder4/Dir0/Npix0.fits 1 header 1",
    ),
    (
        SURVEY,
        "Norder4/Dir0/Npix12.fits Norder3/Dir0/Npix1.fits Norder4/Dir0/Npix3.fits Norder4/Dir0/Npix03.fits",
        "tile Norder4/Dir0/Npix3.fits 1 header 1",
    ),
    (WIDE, "257", "leaves 257"),
    (WIDE, "256", "tile Norder3/Dir0/Npix0.fits 1 header 1"),
];

// Puts files at these paths.
fn put_files(shelf: &mut MemShelf, paths: &str) -> Result<(), LinkFault> {
    for path in paths.split(' ') {
        shelf.put(path, b"0123456789")?;
    }
    Ok(())
}

// Puts so many empty files of leaves.
fn put_leaves(alloc: Global, shelf: &mut MemShelf, count: u64) -> Result<(), Fail> {
    for leaf in 0..count {
        let path = format!(in alloc; "Norder3/Dir0/Npix{leaf}.fits")?;
        shelf.put(&path, b"")?;
    }
    Ok(())
}

// Puts what a row asks for, and answers how loading is refused.
fn refusal<R: Threads + Sync + Clock + Log>(
    rt: &R,
    alloc: Global,
    shelf: &mut MemShelf,
    files: &str,
) -> Result<String, Fail> {
    match files.parse::<u64>() {
        Ok(count) => put_leaves(alloc, shelf, count)?,
        Err(_) => put_files(shelf, files)?,
    }
    if let Err(refusal) = opened(rt, alloc, shelf) {
        return Ok(refusal.to_string(alloc)?);
    }
    Ok(String::from_str(alloc, "loaded")?)
}

// Whether a shelf with these files is refused so.
fn refuses<R: Threads + Sync + Clock + Log>(
    rt: &R,
    alloc: Global,
    conf: &str,
    files: &str,
    wanted: &str,
) -> Result<bool, Fail> {
    let mut shelf = shelf_of(alloc, conf, Vec::new(alloc))?;
    let told = refusal(rt, alloc, &mut shelf, files)?;
    Ok(told.as_str() == wanted)
}

#[test]
fn what_is_no_survey_is_refused(rt: HostRuntime) -> Result<(), Fail> {
    for (conf, files, wanted) in &REFUSED {
        assert!(rt;
            refuses(&rt, rt.alloc(), conf, files, wanted)?,
            "{files}: not {wanted}"
        );
    }
    Ok(())
}

// What a word asks of a shelf, and what is answered: how many files an export writes, which paths there are, nothing where a
// stray is put, and how the shelf compares with the generation.
fn told<R: Clock + Log>(
    rt: &R,
    alloc: Global,
    shelf: &mut MemShelf,
    generation: &Generation,
    word: &str,
) -> Result<String, Fail> {
    match word {
        "export" => Ok(export(rt, alloc, shelf, generation)?.to_string(alloc)?),
        "list" => listed(alloc, shelf),
        "stray" => {
            shelf.put("Norder3/Allsky.fits", b"stray")?;
            Ok(String::new(alloc))
        }
        _ => Ok(verify(rt, alloc, shelf, generation)?.to_string(alloc)?),
    }
}

// Whether the word of a row is answered so.
fn is_told<R: Clock + Log>(
    rt: &R,
    alloc: Global,
    shelf: &mut MemShelf,
    generation: &Generation,
    row: &str,
) -> Result<bool, Fail> {
    let (word, wanted) = row.split_once('|').ok_or("no answer")?;
    let found = told(rt, alloc, shelf, generation, word)?;
    Ok(found.as_str() == wanted)
}

fn all_are_told<R: Clock + Log + Abort>(
    rt: &R,
    alloc: Global,
    shelf: &mut MemShelf,
    generation: &Generation,
    rows: &str,
) -> Result<(), Fail> {
    for row in rows.lines() {
        assert!(rt; is_told(rt, alloc, shelf, generation, row)?, "{row}");
    }
    Ok(())
}

// Loads a shelf, and asks these rows of it and of what was loaded.
fn is_loaded<R: Threads + Sync + Clock + Log + Abort>(
    rt: &R,
    alloc: Global,
    shelf: &mut MemShelf,
    rows: &str,
) -> Result<(), Fail> {
    let generation = opened(rt, alloc, shelf)?;
    all_are_told(rt, alloc, shelf, &generation, rows)
}

// A survey without leaves: two files are written, and put again where a third one strays.
static EMPTY: &str = "export|2
list|Moc.fits note.txt properties survey.conf \nstray|
verify|differs Norder3/Allsky.fits
export|2
verify|verified 2";

#[test]
fn an_empty_survey_has_two_files(rt: HostRuntime) -> Result<(), Fail> {
    let alloc = rt.alloc();
    let mut shelf = shelf_of(alloc, SURVEY, Vec::new(alloc))?;
    is_loaded(&rt, alloc, &mut shelf, EMPTY)
}

// Whether the file at the path has so many bytes, and these follow its header.
fn holds(
    alloc: Global,
    shelf: &mut MemShelf,
    path: &str,
    len: usize,
    numbers: &[u8],
) -> Result<bool, Fail> {
    let file = shelf.get(alloc, path)?.ok_or("no file")?;
    Ok(file.len() == len && file.get(2_880..2_888) == Some(numbers))
}

// A survey is exported, and loaded again.
fn keeps_leaf<R: Threads + Sync + Clock + Log + Abort>(
    rt: &R,
    alloc: Global,
    shelf: &mut MemShelf,
) -> Result<(), Fail> {
    is_loaded(rt, alloc, shelf, "verify|differs Moc.fits\nexport|5")?;
    let numbers = [0x80, 0, 0x80, 0, 0, 3, 0x80, 0];
    assert!(rt; holds(alloc, shelf, "Norder3/Dir0/Npix0.fits", 5_760, &numbers)?);
    is_loaded(rt, alloc, shelf, "verify|verified 5")
}

#[test]
fn a_survey_is_exported_and_loaded_again(rt: HostRuntime) -> Result<(), Fail> {
    let alloc = rt.alloc();
    let mut shelf = shelf_with_leaf(alloc, Vec::new(alloc))?;
    keeps_leaf(&rt, alloc, &mut shelf)
}

// Loads, exports twice and verifies while one call fails, counted from the first after the shelf was filled. How far it came:
// the length of the verdict, or 100, 200, 250 or 300 for the one of the four that failed.
fn with_one_failing_call<R: Threads + Sync + Clock + Log>(
    rt: &R,
    alloc: Global,
    call: u64,
) -> Result<u64, Fail> {
    let fails = Vec::from_slice(alloc, &[4 + call % 64])?;
    let mut shelf = shelf_with_leaf(alloc, fails)?;
    how_far_with_its_own(rt, alloc, &mut shelf)
}

// How far it came, where the description and the note are as they were.
fn how_far_with_its_own<R: Threads + Sync + Clock + Log>(
    rt: &R,
    alloc: Global,
    shelf: &mut MemShelf,
) -> Result<u64, Fail> {
    let told = how_far(rt, alloc, shelf)?;
    if !keeps_its_own(alloc, shelf)? {
        return Err(Fail::from("a file of another kind was touched"));
    }
    Ok(told)
}

fn how_far<R: Threads + Sync + Clock + Log>(
    rt: &R,
    alloc: Global,
    shelf: &mut MemShelf,
) -> Result<u64, Fail> {
    match opened(rt, alloc, shelf) {
        Ok(generation) => how_far_with(rt, alloc, shelf, &generation),
        Err(LoadRefusal::ShelfFault) => Ok(100),
        Err(refusal) => Err(Fail::from(refusal)),
    }
}

// How far it came with what was loaded.
fn how_far_with<R: Clock + Log>(
    rt: &R,
    alloc: Global,
    shelf: &mut MemShelf,
    generation: &Generation,
) -> Result<u64, Fail> {
    let mut stage = 200;
    match goes_on(rt, alloc, shelf, generation, &mut stage) {
        Ok(verdict) => Ok(verdict.to_string(alloc)?.len() as u64),
        Err(LinkFault::Failed) => Ok(stage),
        Err(fault) => Err(Fail::from(fault)),
    }
}

// Exports twice and verifies; the stage is that of the call that comes next.
fn goes_on<R: Clock + Log>(
    rt: &R,
    alloc: Global,
    shelf: &mut MemShelf,
    generation: &Generation,
    stage: &mut u64,
) -> Result<Verdict, LinkFault> {
    export(rt, alloc, shelf, generation)?;
    *stage = 250;
    export(rt, alloc, shelf, generation)?;
    *stage = 300;
    verify(rt, alloc, shelf, generation)
}

// Whether the file at the path has this text.
fn has_text(
    alloc: Global,
    shelf: &mut MemShelf,
    path: &str,
    text: &[u8],
) -> Result<bool, LinkFault> {
    match shelf.get(alloc, path)? {
        Some(file) => Ok(file.as_slice() == text),
        None => Ok(false),
    }
}

// Whether the description and the note are as they were.
fn keeps_its_own(alloc: Global, shelf: &mut MemShelf) -> Result<bool, LinkFault> {
    Ok(
        has_text(alloc, shelf, "survey.conf", SURVEY.as_bytes())?
            && has_text(alloc, shelf, "note.txt", b"keep")?,
    )
}

// Loading takes three calls: the description, the list, the leaf. Exporting takes twelve: the list, a stray to remove, and for
// each of five files one that asks for it and one that puts it. Exporting again takes six, since nothing is put: the list and
// five files. Verifying takes as many.
#[test]
fn one_failing_call_is_told(rt: HostRuntime) -> Result<(), Fail> {
    let alloc = rt.alloc();
    for call in 0..27 {
        let wanted = match call {
            0..3 => 100,
            3..15 => 200,
            15..21 => 250,
            _ => 300,
        };
        assert!(rt;
            with_one_failing_call(&rt, alloc, call)? == wanted,
            "{call}"
        );
    }
    let all = "verified 5".len() as u64;
    assert!(rt; with_one_failing_call(&rt, alloc, 63)? == all);
    Ok(())
}

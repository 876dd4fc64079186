//! Peers whose replies are refused.
use crate::copies::copied;
use crate::peers::replies;
use hips_mirror::MirrorRefusal;
use log::sink::{Discard, Locked};
use log::{Level, LevelFilter, Log, Logged};
use memory_link::{MemShelf, MemSink};
use std::alloc::Global;
use std::test::Fail;
use std::thread::Threads;
use std::time::Clock;
use survey_link::Shelf;
use tile_path::Path;

// What is changed in the replies of a peer with so many leaves: the first place of a text becomes another. The refusal is
// shown by its number, with the request, the number of leaves, the leaf, or 1 for the mosaic; and how its line in the log
// begins.
struct Lie {
    leaves: u64,
    changes: [&'static str; 6],
    told: (u8, u64),
    said: &'static str,
}

static LIES: [Lie; 14] = [
    // Another state than the one that was pinned.
    Lie {
        leaves: 4,
        changes: ["pinned 7", "pinned 8", "", "", "", ""],
        told: (1, 0),
        said: "POST /pin (request 0): the body must be `pinned`",
    },
    // A length of nine digits.
    Lie {
        leaves: 0,
        changes: ["Length: 9\r\n", "Length: 000000009\r\n", "", "", "", ""],
        told: (1, 0),
        said: "POST /pin (request 0): the reply must have one Content-Length",
    },
    // The cover of another state.
    Lie {
        leaves: 4,
        changes: ["7\r\n\r\nSIMPLE", "8\r\n\r\nSIMPLE", "", "", "", ""],
        told: (1, 2),
        said: "GET /Moc.fits (request 2): the reply has Survey-Prefix 8",
    },
    // The first leaf of another state.
    Lie {
        leaves: 4,
        changes: [
            "Length: 5760\r\nSurvey-Prefix: 7",
            "Length: 5760\r\nSurvey-Prefix: 8",
            "",
            "",
            "",
            "",
        ],
        told: (1, 3),
        said: "GET /Norder4/Dir0/Npix0.fits (request 3): the reply has Survey-Prefix 8",
    },
    // The last reply without success.
    Lie {
        leaves: 4,
        changes: [
            "200 OK\r\nContent-Type: text/plain\r\nContent-Length: 9\r\nConnection",
            "204 OK\r\nContent-Type: text/plain\r\nContent-Length: 9\r\nConnection",
            "",
            "",
            "",
            "",
        ],
        told: (1, 8),
        said: "POST /unpin (request 8) was answered 204 OK, and not 200",
    },
    // A sign before the number of leaves.
    Lie {
        leaves: 0,
        changes: ["survey_leaves = 0", "survey_leaves =+0", "", "", "", ""],
        told: (2, 0),
        said: "GET /properties (request 1): the last line must be `survey_leaves = N`",
    },
    // A key that there isn't.
    Lie {
        leaves: 0,
        changes: ["hips_order = 4", "hips_ardor = 4", "", "", "", ""],
        told: (2, 0),
        said: "GET /properties (request 1): missing: hips_order",
    },
    // Another card.
    Lie {
        leaves: 4,
        changes: ["GCOUNT  ", "XCOUNT  ", "", "", "", ""],
        told: (3, 0),
        said: "GET /Moc.fits (request 2): the body isn't the coverage file",
    },
    // A whole base cell of order 9: 262,144 leaves.
    Lie {
        leaves: 4,
        changes: [
            "hips_order = 4",
            "hips_order = 9",
            "MOCORDER=                    4",
            "MOCORDER=                    9",
            "\0\0\0\0\0\0\x01\0",
            "\0\0\0\0\0\0\0\x04",
        ],
        told: (4, 262_144),
        said: "GET /Moc.fits (request 2): 262144 leaves are too many",
    },
    // A tile of three columns; that of leaf 0 comes first.
    Lie {
        leaves: 4,
        changes: [
            "NAXIS1  =                    2",
            "NAXIS1  =                    3",
            "",
            "",
            "",
            "",
        ],
        told: (5, 0),
        said: "GET /Norder4/Dir0/Npix0.fits (request 3): the body is no tile of the survey: 5 width 1 3",
    },
    // One leaf more than there are.
    Lie {
        leaves: 0,
        changes: ["survey_leaves = 0", "survey_leaves = 1", "", "", "", ""],
        told: (6, 0),
        said: "GET /properties (request 1): the body isn't the file that the leaves make",
    },
    // Another number in the mosaic's header.
    Lie {
        leaves: 4,
        changes: [
            "NAXIS1  =                   54",
            "NAXIS1  =                   55",
            "",
            "",
            "",
            "",
        ],
        told: (6, 1),
        said: "GET /Norder3/Allsky.fits (request 7): the body isn't the file that the leaves make",
    },
    // The tile of leaf 0 after another edit, under the number of the state that was pinned.
    Lie {
        leaves: 4,
        changes: [
            "\0\x01\0\x02\0\x03\0\x05",
            "\0\x01\0\x02\0\x03\0\x19",
            "",
            "",
            "",
            "",
        ],
        told: (6, 1),
        said: "GET /Norder3/Allsky.fits (request 7): the body isn't the file that the leaves make",
    },
    // A body that is longer than all that follows.
    Lie {
        leaves: 0,
        changes: [
            "Length: 9\r\nConnection",
            "Length: 10\r\nConnection",
            "",
            "",
            "",
            "",
        ],
        told: (7, 0),
        said: "POST /unpin (request 3): the connection ended within the reply",
    },
];

// The number of a refusal, and what it says.
fn told(refusal: MirrorRefusal) -> (u8, u64) {
    match refusal {
        MirrorRefusal::Reply { request } => (1, u64::from(request)),
        MirrorRefusal::Properties => (2, 0),
        MirrorRefusal::Cover => (3, 0),
        MirrorRefusal::TooLarge { leaves } => (4, leaves),
        MirrorRefusal::Leaf { cell, .. } => (5, cell.npix()),
        MirrorRefusal::Differs { path } => (6, u64::from(path == Path::Allsky)),
        MirrorRefusal::Cut => (7, 0),
        MirrorRefusal::ReadFault => (8, 0),
        MirrorRefusal::WriteFault => (9, 0),
        MirrorRefusal::ShelfFault => (10, 0),
        MirrorRefusal::OutOfMemory => (11, 0),
    }
}

// The bytes with the other text at the first place of the old one. An empty text is nowhere.
fn changed(alloc: Global, bytes: &[u8], old: &str, new: &str) -> Result<Vec<u8>, Fail> {
    let mut changed = Vec::new(alloc);
    for at in 0..bytes.len() {
        let rest = &bytes[at..];
        if !old.is_empty() && rest.starts_with(old.as_bytes()) {
            changed.extend_from_slice(new.as_bytes())?;
            changed.extend_from_slice(rest.get(old.len()..).unwrap_or(&[]))?;
            return Ok(changed);
        }
        changed.push(bytes[at])?;
    }
    Ok(changed)
}

// The paths of the shelf in order, each with its bytes.
fn files(alloc: Global, shelf: &mut MemShelf) -> Result<Vec<u8>, Fail> {
    let mut paths = shelf.list(alloc)?;
    paths.sort()?;
    let mut files = Vec::new(alloc);
    for path in &paths {
        files.extend_from_slice(path.as_bytes())?;
        files.push(0)?;
        let bytes = shelf.get(alloc, path)?.ok_or("no file")?;
        files.extend_from_slice(&bytes)?;
    }
    Ok(files)
}

// A shelf with a note and two files of an older survey: three calls have made it. The calls with these numbers fail.
fn shelf_before(alloc: Global, fails: Vec<u64>) -> Result<MemShelf, Fail> {
    let mut shelf = MemShelf::new(alloc, fails);
    shelf.put("note.txt", b"keep")?;
    shelf.put("properties", b"old")?;
    shelf.put("Norder3/Dir0/Npix0.fits", b"stray")?;
    Ok(shelf)
}

// Whether a copy of these bytes is refused so, and the shelf is as it was.
fn refuses<R: Threads + Sync + Clock + Log>(
    rt: &R,
    alloc: Global,
    bytes: Vec<u8>,
    wanted: (u8, u64),
) -> Result<bool, Fail> {
    let mut sink = MemSink::new(alloc, 10_000, Vec::new(alloc))?;
    let mut shelf = shelf_before(alloc, Vec::new(alloc))?;
    let before = files(alloc, &mut shelf)?;
    let refused = match copied(rt, alloc, bytes, &mut sink, &mut shelf) {
        Ok(_) => false,
        Err(refusal) => told(refusal) == wanted,
    };
    Ok(refused && files(alloc, &mut shelf)?.as_slice() == before.as_slice())
}

// Whether the lie is refused as it must be.
fn refuses_lie<R: Threads + Sync + Clock + Log>(
    rt: &R,
    alloc: Global,
    lie: &Lie,
) -> Result<bool, Fail> {
    let mut bytes = replies(rt, alloc, lie.leaves)?;
    for at in 0..3 {
        bytes = changed(alloc, &bytes, lie.changes[2 * at], lie.changes[2 * at + 1])?;
    }
    refuses(rt, alloc, bytes, lie.told)
}

// Whether the log is one line, of the level `error`, that begins so.
fn is_line(log: &[u8], said: &str) -> bool {
    match log.strip_prefix(b"[ERROR hips_mirror::logging] ") {
        Some(text) => text.starts_with(said.as_bytes())
            && text.iter().filter(|b| **b == b'\n').count() == 1,
        None => false,
    }
}

#[test]
fn a_peer_that_lies_is_refused(rt: HostRuntime) -> Result<(), Fail> {
    for at in 0..LIES.len() {
        let log = Locked::new(rt, Vec::new(rt.alloc()));
        let refused = refuses_lie(&Logged::new(rt, Level::Error, &log), rt.alloc(), &LIES[at])?;
        let lines = log.into_inner();
        assert!(rt; refused, "lie {at}");
        assert!(rt;
            is_line(&lines, LIES[at].said),
            "lie {at}: {}",
            lines.escape_ascii()
        );
    }
    Ok(())
}

// Whether the copy of the first bytes is cut.
fn cuts_at<R: Threads + Sync + Clock + Log>(
    rt: &R,
    alloc: Global,
    bytes: &[u8],
    at: usize,
) -> Result<bool, Fail> {
    let mut first = Vec::new(alloc);
    first.extend_from_slice(bytes.get(..at).unwrap_or(bytes))?;
    refuses(rt, alloc, first, (7, 0))
}

// Whether the copy from a peer with so many leaves is cut at each 509th place, and at all in heads where these are looked at.
fn cuts<R: Threads + Sync + Clock + Log>(
    rt: &R,
    alloc: Global,
    leaves: u64,
    heads: bool,
) -> Result<bool, Fail> {
    let bytes = replies(rt, alloc, leaves)?;
    let mut in_head = false;
    for at in 0..bytes.len() {
        if bytes.get(at..).unwrap_or(&[]).starts_with(b"HTTP/1.1 ") {
            in_head = heads;
        }
        if (in_head || at % 509 == 0) && !cuts_at(rt, alloc, &bytes, at)? {
            return Ok(false);
        }
        if bytes.get(..at).unwrap_or(&[]).ends_with(b"\r\n\r\n") {
            in_head = false;
        }
    }
    Ok(true)
}

#[test]
fn a_copy_that_is_cut_changes_nothing(rt: HostRuntime) -> Result<(), Fail> {
    let quiet = Logged::new(rt, LevelFilter::Off, Discard);
    assert!(rt; cuts(&quiet, rt.alloc(), 0, true)?, "no leaves");
    assert!(rt; cuts(&quiet, rt.alloc(), 4, false)?, "four leaves");
    Ok(())
}

// Whether a copy onto a shelf whose call with this number fails is refused for it, and the note stays; not where it is done.
fn fails_at<R: Threads + Sync + Clock + Log>(
    rt: &R,
    alloc: Global,
    number: u64,
) -> Result<bool, Fail> {
    let mut sink = MemSink::new(alloc, 10_000, Vec::new(alloc))?;
    let mut fails = Vec::new(alloc);
    fails.push(number)?;
    let mut shelf = shelf_before(alloc, fails)?;
    let bytes = replies(rt, alloc, 4)?;
    match copied(rt, alloc, bytes, &mut sink, &mut shelf) {
        Ok(_) => Ok(false),
        Err(refusal) => {
            let note = shelf.get(alloc, "note.txt")?.ok_or("no note")?;
            if told(refusal) == (10, 0) && note.as_slice() == b"keep".as_slice() {
                Ok(true)
            } else {
                Err(Fail::from("another refusal, or no note"))
            }
        }
    }
}

// The number of the first call whose failing leaves the copy done.
fn first_unused<R: Threads + Sync + Clock + Log>(rt: &R, alloc: Global) -> Result<u64, Fail> {
    for number in 3..100 {
        if !fails_at(rt, alloc, number)? {
            return Ok(number);
        }
    }
    Ok(100)
}

#[test]
fn a_shelf_that_fails_at_any_call_is_told_of(rt: HostRuntime) -> Result<(), Fail> {
    let number = first_unused(&rt, rt.alloc())?;
    // The files are listed, a stray one is removed, and eight are put.
    assert!(rt; 13 <= number && number < 100, "{number}");
    Ok(())
}

//! Records, of a survey of tiles of 2 by 2 pixels of 16 bits, whose leaves are of order 3.
use edit_journal::Edit;
use parent_rule::{Depth, Steps};
use pyramid_model::Shape;
use std::alloc::{AllocError, Global};
use std::process::Abort;
use std::sync::Arc;
use std::test::Fail;
use tile_pixels::Tile;
use wal_frame::*;

// struct.pack('>BBQQ', 1, 1, 48, 48) + struct.pack('>I', 4), and then four edits, each by struct.pack('>BI', form, leaf) and
// struct.pack('>4h', *numbers): put 5, add 767, replace 6 and remove 5.
const BATCH: &[u8; 66] =
    b"\x01\x01\x00\x00\x00\x00\x00\x00\x00\x30\x00\x00\x00\x00\x00\x00\x00\x30\x00\x00\x00\x04\x01\x00\x00\x00\x05\x00\x01\xff\xfe\x00\x03\x80\x00\x02\x00\x00\x02\xff\x00\x05\x00\x06\x00\x07\x00\x08\x03\x00\x00\x00\x06\x00\x09\x00\x0a\x00\x0b\x00\x0c\x04\x00\x00\x00\x05";

// struct.pack('>BBQQ', 1, 2, 4, 4) + struct.pack('>I', 65536).
const PUBLICATION: &[u8; 22] =
    b"\x01\x02\x00\x00\x00\x00\x00\x00\x00\x04\x00\x00\x00\x00\x00\x00\x00\x04\x00\x01\x00\x00";

// What stands first, by a reader in Python, where the last bit of each byte is another: `r` a record, `e` the WAL's end, `m` a
// record that is malformed.
const CHANGED_BATCH: &[u8; 66] =
    b"emmmmmmmmmmmmmmmmmmmmmmmmrrrrrrrrrrrmmmrrrrrrrrrrmmrrrrrrrrrrmmmrr";

const CHANGED_PUBLICATION: &[u8; 22] = b"emmmmmmmmmmmmmmmmmrrrr";

// The same of bytes that were made up.
static MADE_UP: [(&[u8], u8); 16] = [
    (b"", b'e'),
    // no edits, none and no number of them, leaf 768 of 768, form 5, a byte more, an edit fewer
    (
        b"\x01\x01\x00\x00\x00\x00\x00\x00\x00\x04\x00\x00\x00\x00\x00\x00\x00\x04\x00\x00\x00\x00",
        b'm',
    ),
    (
        b"\x01\x01\x00\x00\x00\x00\x00\x00\x00\x00\x00\x00\x00\x00\x00\x00\x00\x00",
        b'm',
    ),
    (
        b"\x01\x01\x00\x00\x00\x00\x00\x00\x00\x09\x00\x00\x00\x00\x00\x00\x00\x09\x00\x00\x00\x01\x04\x00\x00\x03\x00",
        b'm',
    ),
    (
        b"\x01\x01\x00\x00\x00\x00\x00\x00\x00\x09\x00\x00\x00\x00\x00\x00\x00\x09\x00\x00\x00\x01\x05\x00\x00\x00\x01",
        b'm',
    ),
    (
        b"\x01\x01\x00\x00\x00\x00\x00\x00\x00\x0a\x00\x00\x00\x00\x00\x00\x00\x0a\x00\x00\x00\x01\x04\x00\x00\x00\x01\x00",
        b'm',
    ),
    (
        b"\x01\x01\x00\x00\x00\x00\x00\x00\x00\x09\x00\x00\x00\x00\x00\x00\x00\x09\x00\x00\x00\x02\x04\x00\x00\x00\x01",
        b'm',
    ),
    // tips of three and of five bytes, a kind that there isn't
    (
        b"\x01\x02\x00\x00\x00\x00\x00\x00\x00\x03\x00\x00\x00\x00\x00\x00\x00\x03\x00\x00\x00",
        b'm',
    ),
    (
        b"\x01\x02\x00\x00\x00\x00\x00\x00\x00\x05\x00\x00\x00\x00\x00\x00\x00\x05\x00\x00\x00\x01\x00",
        b'm',
    ),
    (
        b"\x01\x03\x00\x00\x00\x00\x00\x00\x00\x04\x00\x00\x00\x00\x00\x00\x00\x04\x00\x00\x00\x01",
        b'm',
    ),
    // gates 0 and 2
    (
        b"\x00\x02\x00\x00\x00\x00\x00\x00\x00\x04\x00\x00\x00\x00\x00\x00\x00\x04\x00\x01\x00\x00",
        b'e',
    ),
    (
        b"\x02\x02\x00\x00\x00\x00\x00\x00\x00\x04\x00\x00\x00\x00\x00\x00\x00\x04\x00\x01\x00\x00",
        b'e',
    ),
    // lengths of 0 and of 2^63, and two that differ
    (
        b"\x01\x02\x00\x00\x00\x00\x00\x00\x00\x00\x00\x00\x00\x00\x00\x00\x00\x00",
        b'm',
    ),
    (
        b"\x01\x02\x80\x00\x00\x00\x00\x00\x00\x00\x80\x00\x00\x00\x00\x00\x00\x00",
        b'e',
    ),
    (
        b"\x01\x03\x80\x00\x00\x00\x00\x00\x00\x00\x80\x00\x00\x00\x00\x00\x00\x00",
        b'e',
    ),
    (
        b"\x01\x02\x80\x00\x00\x00\x00\x00\x00\x00\x00\x00\x00\x00\x00\x00\x00\x04\x31\x32\x33\x34",
        b'm',
    ),
];

fn shape() -> Option<Shape> {
    let depth = Depth::new(16, 0)?;
    Some(Shape {
        top: 3,
        low: 3,
        n: 1,
        depth,
    })
}

fn tile(alloc: Global, raw: &[u8; 8]) -> Result<Option<Arc<Tile>>, AllocError> {
    match Depth::new(16, 0) {
        None => Ok(None),
        Some(depth) => {
            let tile = Tile::from_bytes(alloc, raw, depth, 1, &mut Steps::new())?;
            Ok(Some(Arc::new(alloc, tile)?))
        }
    }
}

// The bytes of a batch.
fn batch_bytes(alloc: Global, edits: &[Edit]) -> Result<Vec<u8>, AllocError> {
    let mut total: usize = 0;
    for edit in edits {
        total = total.saturating_add(edit_length(edit));
    }
    let mut bytes = vec![in alloc; 1]?;
    bytes.extend_from_slice(&batch_head(edits.len().min(1024) as u32, total.min(1 << 32)))?;
    for edit in edits {
        bytes.extend_from_slice(&edit_head(edit))?;
        if let Some(tile) = edit.tile() {
            bytes.extend_from_slice(tile.raw())?;
        }
    }
    Ok(bytes)
}

#[test]
fn records_are_written(rt: HostRuntime) -> Result<(), Fail> {
    let alloc = rt.alloc();
    let first = tile(alloc, b"\x00\x01\xff\xfe\x00\x03\x80\x00")?.ok_or("no tile")?;
    let second = tile(alloc, b"\x00\x05\x00\x06\x00\x07\x00\x08")?.ok_or("no tile")?;
    let third = tile(alloc, b"\x00\x09\x00\x0a\x00\x0b\x00\x0c")?.ok_or("no tile")?;
    let edits = [
        Edit::Put {
            leaf: 5,
            tile: first,
        },
        Edit::Add {
            leaf: 767,
            tile: second,
        },
        Edit::Replace {
            leaf: 6,
            tile: third,
        },
        Edit::Remove { leaf: 5 },
    ];
    let bytes = batch_bytes(alloc, &edits)?;
    assert_eq!(rt; bytes.as_slice(), BATCH.as_slice());
    // A record's gate is written apart.
    let record = PUBLICATION.as_slice();
    assert_eq!(rt; publication(65_536).as_slice(), &record[1..]);
    Ok(())
}

// The bytes of a record.
fn record_bytes(alloc: Global, record: &Record) -> Result<Vec<u8>, AllocError> {
    match record {
        Record::Batch(edits) => batch_bytes(alloc, edits),
        Record::Publication { tip } => {
            let mut bytes = vec![in alloc; 1]?;
            bytes.extend_from_slice(&publication(*tip))?;
            Ok(bytes)
        }
    }
}

// The bytes of the record that stands first, and how many follow it.
fn read_again(alloc: Global, bytes: &[u8]) -> Result<Option<(Vec<u8>, usize)>, AllocError> {
    let shape = match shape() {
        None => return Ok(None),
        Some(shape) => shape,
    };
    match read_record(alloc, shape, 0, bytes) {
        Ok(Some((record, rest))) => Ok(Some((record_bytes(alloc, &record)?, rest.len()))),
        _ => Ok(None),
    }
}

fn check_read_again(rt: &impl Abort, alloc: Global, record: &[u8]) -> Result<(), Fail> {
    let mut bytes = record.to_vec(alloc)?;
    bytes.extend_from_slice(b"\x00and more")?;
    let (again, rest) = read_again(alloc, &bytes)?.ok_or("no record")?;
    assert_eq!(rt; again.as_slice(), record);
    assert_eq!(rt; rest, 9);
    Ok(())
}

#[test]
fn records_are_read(rt: HostRuntime) -> Result<(), Fail> {
    check_read_again(&rt, rt.alloc(), BATCH)?;
    check_read_again(&rt, rt.alloc(), PUBLICATION)
}

// What stands first.
fn told(alloc: Global, bytes: &[u8]) -> u8 {
    let shape = match shape() {
        None => return b'-',
        Some(shape) => shape,
    };
    match read_record(alloc, shape, 64, bytes) {
        Ok(Some(_)) => b'r',
        Ok(None) => b'e',
        Err(ReadStop::Refused(refusal)) => {
            if refusal.reason == Reason::Malformed && refusal.offset == 64 {
                b'm'
            } else {
                b'-'
            }
        }
        Err(ReadStop::OutOfMemory) => b'-',
    }
}

// What stands first where the last bit of byte `at` is another.
fn told_changed(alloc: Global, record: &[u8], at: usize) -> Result<u8, AllocError> {
    let mut bytes = record.to_vec(alloc)?;
    match bytes.get_mut(at) {
        None => return Ok(b'-'),
        Some(byte) => *byte ^= 1,
    }
    Ok(told(alloc, &bytes))
}

fn check_changed(
    rt: &impl Abort,
    alloc: Global,
    record: &[u8],
    letters: &[u8],
) -> Result<(), Fail> {
    for (at, letter) in letters.iter().enumerate() {
        assert!(rt; told_changed(alloc, record, at)? == *letter, "byte {at}");
    }
    Ok(())
}

fn check_cut(rt: &impl Abort, alloc: Global, record: &[u8]) {
    for end in 0..record.len() {
        assert!(rt; told(alloc, &record[..end]) == b'e', "{end} bytes");
    }
}

#[test]
fn changed_records_are_refused_or_the_end(rt: HostRuntime) -> Result<(), Fail> {
    check_changed(&rt, rt.alloc(), BATCH, CHANGED_BATCH)?;
    check_changed(&rt, rt.alloc(), PUBLICATION, CHANGED_PUBLICATION)?;
    for (bytes, letter) in &MADE_UP {
        assert!(rt; told(rt.alloc(), *bytes) == *letter, "{bytes:?}");
    }
    Ok(())
}

#[test]
fn cut_records_are_the_end(rt: HostRuntime) {
    check_cut(&rt, rt.alloc(), BATCH);
    check_cut(&rt, rt.alloc(), PUBLICATION);
}

// What stands first where a batch of so many Removes does.
fn told_removes(alloc: Global, count: u32) -> Result<u8, AllocError> {
    let length = 4 + 5 * u64::from(count);
    let mut bytes = Vec::new(alloc);
    bytes.extend_from_slice(b"\x01\x01")?;
    bytes.extend_from_slice(&length.to_be_bytes())?;
    bytes.extend_from_slice(&length.to_be_bytes())?;
    bytes.extend_from_slice(&count.to_be_bytes())?;
    for _ in 0..count {
        bytes.extend_from_slice(b"\x04\x00\x00\x00\x01")?;
    }
    Ok(told(alloc, &bytes))
}

#[test]
fn a_batch_has_at_most_1024_edits(rt: HostRuntime) -> Result<(), Fail> {
    assert!(rt; told_removes(rt.alloc(), 1024)? == b'r');
    assert!(rt; told_removes(rt.alloc(), 1025)? == b'm');
    Ok(())
}

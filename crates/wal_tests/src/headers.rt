//! Headers.
use leaf_store::Store;
use parent_rule::{Depth, Steps};
use pyramid_model::Shape;
use std::alloc::{AllocError, Global};
use std::sync::Arc;
use std::test::Fail;
use tile_pixels::Tile;
use wal_frame::{HEADER_LEN, SurveyMark, check_header, header_of};

const TEXT: &[u8] = b"hips_order = 3\n";

const FIRST_LEAF: &[u8; 8] = b"\x00\x01\xff\xfe\x00\x03\x80\x00";

const SECOND_LEAF: &[u8; 8] = b"\x00\x05\x00\x06\x00\x07\x00\x08";

// struct.pack('>8sII', b'HIPSDWAL', 1, 8) + digest + bytes(16), where digest is that of hashlib.new('sha512_256', message) for
// message = TEXT + struct.pack('>I', 2) + FIRST_LEAF + struct.pack('>I', 700) + SECOND_LEAF.
const HEADER: &[u8; 64] =
    b"HIPSDWAL\x00\x00\x00\x01\x00\x00\x00\x08\xd9\x0f\x80\xe5\xec\xc2\x5f\x31\x23\xfa\x50\x51\x19\xa6\xd3\xaa\x0e\x51\x70\xe2\xc0\x4e\xdb\xe1\x1a\x7b\x4e\x69\x5b\x0d\x1f\xfa\x00\x00\x00\x00\x00\x00\x00\x00\x00\x00\x00\x00\x00\x00\x00\x00";

// Up to which byte a header that is changed there is refused for that reason, at that offset.
static FIELDS: [(usize, u8, u64); 5] = [
    (8, 1, 0),
    (12, 2, 8),
    (16, 3, 12),
    (48, 3, 16),
    (64, 1, 48),
];

// The mark of a survey of tiles of 2 by 2 pixels of 16 bits, with two leaves.
fn mark(alloc: Global) -> Result<Option<SurveyMark>, AllocError> {
    let depth = match Depth::new(16, 0) {
        None => return Ok(None),
        Some(depth) => depth,
    };
    if depth.bitpix() != 16 {
        return Ok(None);
    }
    let shape = Shape {
        top: 3,
        low: 3,
        n: 1,
        depth,
    };
    let mut leaves = Store::new(alloc);
    let second = Tile::from_bytes(alloc, SECOND_LEAF, depth, 1, &mut Steps::new())?;
    leaves.put(700, Arc::new(alloc, second)?)?;
    let first = Tile::from_bytes(alloc, FIRST_LEAF, depth, 1, &mut Steps::new())?;
    leaves.put(2, Arc::new(alloc, first)?)?;
    Ok(Some(SurveyMark::of(TEXT, shape, &leaves)))
}

#[test]
fn a_header_says_what_survey_it_is_of(rt: HostRuntime) -> Result<(), Fail> {
    let mark = mark(rt.alloc())?.ok_or("no mark")?;
    assert_eq!(rt; header_of(&mark).as_slice(), HEADER.as_slice());
    assert!(rt; check_header(HEADER, &mark).is_ok());
    Ok(())
}

// Whether a header whose byte `at` is another is refused for that reason, at that offset.
fn is_refused(mark: &SurveyMark, at: usize, reason: u8, offset: u64) -> bool {
    if at >= HEADER_LEN {
        return false;
    }
    let mut header = *HEADER;
    header[at] ^= 1;
    match check_header(&header, mark) {
        Ok(()) => false,
        Err(refusal) => refusal.reason.number() == reason && refusal.offset == offset,
    }
}

#[test]
fn a_changed_header_is_refused(rt: HostRuntime) -> Result<(), Fail> {
    let mark = mark(rt.alloc())?.ok_or("no mark")?;
    let mut start = 0;
    for (end, reason, offset) in &FIELDS {
        for at in start..*end {
            assert!(rt; is_refused(&mark, at, *reason, *offset), "byte {at}");
        }
        start = *end;
    }
    Ok(())
}

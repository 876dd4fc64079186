//! The most that a connection or a survey takes.
use crate::rows::{replies, requests};
use crate::surveys::{asks, goes, opened};
use edit_journal::Edit;
use hips_http::SessionEnd;
use log::Log;
use parent_rule::{Depth, Steps};
use reader_pin::{Board, ChangedWith, Solo};
use small_files::{SURVEY, description_with};
use small_survey::fits;
use std::alloc::Global;
use std::sync::Arc;
use std::test::Fail;
use std::thread::Threads;
use std::time::Clock;
use tile_pixels::Tile;

// A survey of order 11, and one that goes down to order 0.
static DEEP: &str = description_with!(
    "hips_order = 11\nhips_tile_width = 2\nsurvey_bitpix = 16\nsurvey_blank = -32768\n"
);

static WHOLE: &str = description_with!(
    "hips_order = 11\nhips_order_min = 0\nhips_tile_width = 2\nsurvey_bitpix = 16\nsurvey_blank = -32768\n"
);

// The first leaf of all and the last, and what covers them.
static FAR: &str = "PUT /Norder11/Dir0/Npix0.fits;Content-Length: 2888|tile 11 0&short 1 2 3 5
PUT /Norder11/Dir50330000/Npix50331647.fits;Content-Length: 2888|tile 11 50331647&short 1 2 3 5
POST /publish
GET /Moc.fits
HEAD /Norder3/Dir0/Npix767.fits";

static FAR_ANSWERED: &str = "201 Created;Content-Length: 0;Survey-Edits: 1
201 Created;Content-Length: 0;Survey-Edits: 2
200 OK;Content-Type: text/plain;Content-Length: 12;Survey-Prefix: 2|line published 2
200 OK;Content-Type: application/fits;Content-Length: 8640;Survey-Prefix: 2|coverage 11 2&long 16777216 67108863&pad
200 OK;Content-Type: application/fits;Content-Length: 5760;Survey-Prefix: 2";

// Whether the two leaves are published, the survey has so many files then, and at most so many tiles were read or merged.
fn publishes<R: Threads + Sync + Clock + Log>(
    rt: &R,
    alloc: Global,
    board: &mut Solo,
    files: u64,
    most: u64,
) -> Result<bool, Fail> {
    let mut steps = Steps::new();
    let is_answered = asks(rt, alloc, board, FAR, FAR_ANSWERED, &mut steps)?;
    let found = board.last().generation().file_count();
    Ok(is_answered && found == files && steps.count() <= most)
}

// The same over the survey with that description.
fn is_published<R: Threads + Sync + Clock + Log>(
    rt: &R,
    alloc: Global,
    conf: &str,
    files: u64,
    most: u64,
) -> Result<bool, Fail> {
    let mut board = opened(rt, alloc, conf)?;
    publishes(rt, alloc, &mut board, files, most)
}

// The files are the two leaves, the tiles above each, the mosaic, the coverage and the properties.
#[test]
fn two_far_leaves_are_published(rt: HostRuntime) -> Result<(), Fail> {
    assert!(rt; is_published(&rt, rt.alloc(), DEEP, 21, 18)?, "order 3");
    assert!(rt; is_published(&rt, rt.alloc(), WHOLE, 27, 24)?, "order 0");
    Ok(())
}

// The tile of the first survey whose bytes are all 1.
fn tile(alloc: Global, depth: Depth) -> Result<Arc<Tile>, Fail> {
    if depth.bytes() != 2 {
        return Err("other tiles".into());
    }
    let tile = Tile::from_bytes(alloc, &[1; 8], depth, 1, &mut Steps::new())?;
    Ok(Arc::new(alloc, tile)?)
}

// Whether the board accepts that edit.
fn accepts_one<R>(rt: &R, board: &mut Solo, edit: Edit) -> bool {
    fits(board.last(), &edit) && board.edit(rt, edit).is_ok()
}

// Whether the board accepts so many edits, one by one, each of which puts the same tile on leaf 0.
fn accepts<R>(rt: &R, board: &mut Solo, tile: &Arc<Tile>, count: u32) -> Result<bool, Fail> {
    for _ in 0..count {
        let tile = tile.clone()?;
        if !accepts_one(rt, board, Edit::Put { leaf: 0, tile }) {
            return Ok(false);
        }
    }
    Ok(true)
}

static ONE_MORE: &str = "PUT /Norder4/Dir0/Npix0.fits;Content-Length: 2888|tile 4 0&short 1 2 3 5
DELETE /Norder4/Dir0/Npix1.fits
PUT /Norder4/Dir0/Npix0.fits;If-None-Match: *;Content-Length: 2888|tile 4 0&short 1 2 3 5";

static REFUSED: &str =
    "507 Insufficient Storage;Content-Type: text/plain;Content-Length: 8;Survey-Edits: 65536|line limit 3
404 Not Found;Content-Type: text/plain;Content-Length: 7;Survey-Edits: 65536|line absent
412 Precondition Failed;Content-Type: text/plain;Content-Length: 20;Survey-Edits: 65536|line precondition failed";

// Whether the board accepts 65,536 edits and refuses one more.
fn is_filled<R: Threads + Sync + Clock + Log>(
    rt: &R,
    alloc: Global,
    board: &mut Solo,
) -> Result<bool, Fail> {
    let tile = tile(alloc, board.last().conf().shape().depth)?;
    if !accepts(rt, board, &tile, 65_536)? {
        return Ok(false);
    }
    asks(rt, alloc, board, ONE_MORE, REFUSED, &mut Steps::new())
}

fn takes_no_more<R: Threads + Sync + Clock + Log>(rt: &R, alloc: Global) -> Result<bool, Fail> {
    let mut board = opened(rt, alloc, SURVEY)?;
    is_filled(rt, alloc, &mut board)
}

#[test]
fn a_survey_takes_no_more_edits(rt: HostRuntime) -> Result<(), Fail> {
    assert!(rt; takes_no_more(&rt, rt.alloc())?);
    Ok(())
}

static HEADED: &str = "200 OK;Content-Type: application/fits;Content-Length: 5760;Survey-Prefix: 0";

static HEADED_LAST: &str =
    "200 OK;Content-Type: application/fits;Content-Length: 5760;Survey-Prefix: 0;Connection: close";

// The same bytes, so many times.
fn repeated(alloc: Global, bytes: &[u8], count: u32) -> Result<Vec<u8>, Fail> {
    let mut all = Vec::new(alloc);
    for _ in 0..count {
        all.extend_from_slice(bytes)?;
    }
    Ok(all)
}

// The bytes of so many replies, and of the last one.
fn headed(alloc: Global, count: u32) -> Result<Vec<u8>, Fail> {
    let mut output = repeated(alloc, &replies(alloc, HEADED)?, count)?;
    output.extend_from_slice(&replies(alloc, HEADED_LAST)?)?;
    Ok(output)
}

// The last reply is the one with all lines; the 65,537th request isn't answered.
#[test]
fn a_connection_has_so_many_requests(rt: HostRuntime) -> Result<(), Fail> {
    let alloc = rt.alloc();
    let output = headed(alloc, 65_535)?;
    let input = repeated(alloc, &requests(alloc, "HEAD /Moc.fits")?, 65_537)?;
    assert!(rt; goes(&rt, alloc, SURVEY, input, &output, SessionEnd::Spent)?);
    Ok(())
}

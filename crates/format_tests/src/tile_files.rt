//! Tile files as outside tools write them, and worked examples.
ghost use Rattle.std.specs.Prelude.{◌≡◌, IfOk, length};

use fits_tile::{body_room, decode, encode_image, encode_into, file_len};
use healpix_nested::Cell;
use parent_rule::Steps;
use small_files::{
    MOSAIC_HEADER, SURVEY, TILE_HEADER, description_with, fill_block, header, push_card,
};
use std::alloc::{AllocError, Global};
use std::process::Abort;
use std::test::Fail;
use survey_conf::Conf;

// A survey of the width that HiPS recommends, whose numbers have no sign.
const WIDE_SURVEY: &str = description_with!(
    "hips_order = 3\nsurvey_bitpix = 16\nsurvey_bzero = 32768\nsurvey_blank = -32768\n"
);

// So many bytes, all the same.
fn repeated(alloc: Global, byte: u8, len: usize) -> Result<Vec<u8>, AllocError>
    ensures { IfOk result (λ bytes. length bytes.items ≡ len) }
{
    let mut bytes = Vec::new(alloc);
    bytes.resize(len, byte)?;
    Ok(bytes)
}

// A file of a header of these cards, and so many bytes that differ, filled with zeros up to a whole block.
fn file(alloc: Global, cards: &str, len: usize) -> Result<Vec<u8>, AllocError> {
    let mut file = header(alloc, cards)?;
    for i in 0..len {
        file.push((i % 251) as u8)?;
    }
    fill_block(&mut file, 0)?;
    Ok(file)
}

// The header of a tile with other cards at place `at`, a `;` between them.
fn changed_header(alloc: Global, at: usize, other: &str) -> Result<Vec<u8>, AllocError> {
    let mut text = Vec::new(alloc);
    for (i, line) in TILE_HEADER.lines().enumerate() {
        let cards = if i == at { other } else { line };
        for card in cards.split(';') {
            push_card(&mut text, card)?;
        }
    }
    fill_block(&mut text, b' ')?;
    Ok(text)
}

// What `decode` says of a file, and how many steps that took.
fn answer(alloc: Global, bytes: &[u8], conf: &Conf) -> Result<String, Fail> {
    let mut steps = Steps::new();
    match decode(alloc, bytes, conf, &mut steps) {
        Ok(_tile) => Ok(format!(in alloc; "{} a tile", steps.count())?),
        Err(refusal) => Ok(format!(in alloc; "{} {refusal}", steps.count())?),
    }
}

// A place in the header, the cards that are there in its place, how many spaces follow the header, and what is said.
const FILES: &str = "10|END|8|1 a tile
10|END|2880|1 a tile
7|COMMENT|8|1 a tile
5|COMMENT|8|1 a tile
6|COMMENT|8|1 a tile
10|COMMENT|8|0 1 header 1
0|\u{7}|8|0 1 header 2 0
10|COMMENT|100800|0 1 header 3
1|BITPIX  = 16.0|8|0 1 header 4 2
1|BITPIX  = 16;BITPIX  = 16|8|0 1 header 5 3
0|SIMPLE  = F|8|0 2 simple
0|COMMENT|8|0 2 simple
0|COMMENT;SIMPLE  = T|8|0 2 simple
1|BITPIX  = 8|8|0 3 bitpix 8
1|BITPIX  = -32|8|0 3 bitpix -32
1|COMMENT|8|0 3 bitpix none
2|NAXIS   = 3|8|0 4 naxis 3
2|COMMENT|8|0 4 naxis none
3|NAXIS1  = 4|8|0 5 width 1 4
3|COMMENT|8|0 5 width 1 none
4|NAXIS2  = 4|8|0 5 width 2 4
4|COMMENT|8|0 5 width 2 none
5|BSCALE  = 2.0|8|0 6 scale
6|BZERO   = 1.0|8|0 7 zero
7|BLANK   = 0|8|0 8 blank 0
10|END|7|0 9 truncated 1
10|END|0|0 9 truncated 8
10|END|2881|0 10 trailing 1";

// Whether that is said of the file of a row.
fn is_said(alloc: Global, row: &str, conf: &Conf) -> Result<bool, Fail> {
    let text = file_of(alloc, row)?;
    let found = answer(alloc, &text, conf)?;
    Ok(found.as_str() == field(row, 3))
}

// The field of a row at a place.
fn field(row: &str, at: usize) -> &str {
    row.split('|').nth(at).unwrap_or("")
}

// The file of a row.
fn file_of(alloc: Global, row: &str) -> Result<Vec<u8>, Fail> {
    let at = field(row, 0).parse::<usize>()?;
    let count = field(row, 2).parse::<usize>()?;
    let mut text = changed_header(alloc, at, field(row, 1))?;
    for _ in 0..count {
        text.push(b' ')?;
    }
    Ok(text)
}

fn check_files(rt: &impl Abort, alloc: Global, conf: &Conf) -> Result<(), Fail> {
    for row in FILES.lines() {
        assert!(rt; is_said(alloc, row, conf)?, "{row}");
    }
    Ok(())
}

#[test]
fn reads_a_tile_or_says_the_first_fault(rt: HostRuntime) -> Result<(), Fail> {
    let conf = Conf::read(rt.alloc(), SURVEY.as_bytes())?;
    check_files(&rt, rt.alloc(), &conf)
}

// As outside tools write a tile: a header of two blocks, and no BZERO, BLANK, ORDER or NPIX.
const OUTSIDE: &str = "SIMPLE  =                    T / conforms to FITS standard
BITPIX  =                   16 / array data type
NAXIS   =                    2 / number of array dimensions
NAXIS1  =                    2
NAXIS2  =                    2
EXTEND  =                    T
COMMENT   FITS (Flexible Image Transport System) format is defined in 'Astronomy
COMMENT   and Astrophysics', volume 376, page 359; bibcode: 2001A&A...376..359H
DATE    = '2024-05-01T00:00:00' / date of creation
BSCALE  =                  1.0 / scale
COMMENT
COMMENT
COMMENT
COMMENT
COMMENT
COMMENT
COMMENT
COMMENT
COMMENT
COMMENT
COMMENT
COMMENT
COMMENT
COMMENT
COMMENT
COMMENT
COMMENT
COMMENT
COMMENT
COMMENT
COMMENT
COMMENT
COMMENT
COMMENT
COMMENT
COMMENT
END";

// What `encode_into` writes of a tile file that was read, over bytes `#`, and one byte more.
pub(crate) fn written_again(
    alloc: Global,
    bytes: &[u8],
    conf: &Conf,
    cell: Cell,
) -> Result<Vec<u8>, Fail> {
    let tile = match decode(alloc, bytes, conf, &mut Steps::new()) {
        Ok(tile) => tile,
        Err(refusal) => return Err(refusal)?,
    };
    let mut out = repeated(alloc, b'#', file_len(conf) + 2)?;
    let used = encode_into(&tile, cell, conf, &mut out);
    out.truncate(used + 1);
    Ok(out)
}

// Whether the bytes are the file of these cards and so many bytes, and then `#`.
fn is_file(alloc: Global, bytes: &[u8], cards: &str, len: usize) -> Result<bool, Fail> {
    let mut wanted = file(alloc, cards, len)?;
    wanted.push(b'#')?;
    Ok(bytes == wanted.as_slice())
}

// Whether the file of the first cards is read, and written with the other ones.
fn is_written(
    alloc: Global,
    conf: &Conf,
    cell: Cell,
    read: &str,
    written: &str,
    len: usize,
) -> Result<bool, Fail> {
    let bytes = file(alloc, read, len)?;
    let out = written_again(alloc, &bytes, conf, cell)?;
    is_file(alloc, &out, written, len)
}

#[test]
fn writes_what_tools_wrote(rt: HostRuntime) -> Result<(), Fail> {
    let cell = Cell::new(4, 0).ok_or("no cell")?;
    let conf = Conf::read(rt.alloc(), SURVEY.as_bytes())?;
    assert!(rt; is_written(rt.alloc(), &conf, cell, OUTSIDE, TILE_HEADER, 8)?);
    Ok(())
}

// Its zero is written otherwise than this crate writes it.
const WIDE_READ: &str = "SIMPLE  = T
BITPIX  = 16
NAXIS   = 2
NAXIS1  = 512
NAXIS2  = 512
BZERO   = 3.2768E4
END";

const WIDE_WRITTEN: &str = "SIMPLE  =                    T
BITPIX  =                   16
NAXIS   =                    2
NAXIS1  =                  512
NAXIS2  =                  512
BSCALE  =                1.0E0
BZERO   =            32768.0E0
BLANK   =               -32768
ORDER   =                    3
NPIX    =                  767
END";

#[test]
fn reads_and_writes_a_wide_tile(rt: HostRuntime) -> Result<(), Fail> {
    let cell = Cell::new(3, 767).ok_or("no cell")?;
    let conf = Conf::read(rt.alloc(), WIDE_SURVEY.as_bytes())?;
    assert!(rt; file_len(&conf) == 529_920 && body_room(&conf) == 633_600);
    assert!(rt; is_written(rt.alloc(), &conf, cell, WIDE_READ, WIDE_WRITTEN, 524_288)?);
    Ok(())
}

// The file of an image of 54 columns and 58 lines of the numbers that come after the first block.
fn image(alloc: Global, conf: &Conf, file: &[u8]) -> Result<Vec<u8>, Fail> {
    let raw = file.get(2_880..9_144).ok_or("a short file")?;
    if conf.shape().depth.bytes() != 2 {
        return Err("not 16 bits".into());
    }
    Ok(encode_image(alloc, conf, 54, 58, raw)?)
}

// Whether such an image is written as its file.
fn is_image(alloc: Global, conf: &Conf) -> Result<bool, Fail> {
    let wanted = file(alloc, MOSAIC_HEADER, 6_264)?;
    let found = image(alloc, conf, &wanted)?;
    Ok(found.len() == 11_520 && found.as_slice() == wanted.as_slice())
}

#[test]
fn writes_an_image(rt: HostRuntime) -> Result<(), Fail> {
    let conf = Conf::read(rt.alloc(), SURVEY.as_bytes())?;
    assert!(rt; is_image(rt.alloc(), &conf)?);
    Ok(())
}

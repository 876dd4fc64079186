//! Records of sessions about past states, in whatever pieces their bytes come.
ghost use Rattle.std.specs.Prelude.{◌<◌};

use memory_link::MemSource;
use past_frame::{MAX_LINE, Record, RecordStop, has_more, read_record};
use std::alloc::{AllocError, Global};
use std::test::Fail;
use survey_link::Inbox;

// The most bytes that the body of a batch has here.
const ROOM: usize = 9;

// An input, its first record and the text of it, and whether bytes follow.
static RECORDS: [(&[u8], Record, &[u8], bool); 5] = [
    (
        b"read 0 properties\n",
        Record::Read { k: 0 },
        b"properties",
        false,
    ),
    (
        b"read 4294967295 Norder3/Allsky.fits\nread",
        Record::Read { k: 4_294_967_295 },
        b"Norder3/Allsky.fits",
        true,
    ),
    (b"batch 9\nremove 0\n", Record::Batch, b"remove 0\n", false),
    (b"batch 9\nremove 0\nx", Record::Batch, b"remove 0\n", true),
    (b"batch 0\n", Record::Batch, b"", false),
];

// An input, and why no record comes of it.
static STOPS: [(&[u8], RecordStop); 9] = [
    (b"", RecordStop::End),
    (b"read 1 properties", RecordStop::Cut),
    (b"batch 9\n", RecordStop::Cut),
    (b"batch 9\nremove 0", RecordStop::Cut),
    (b"batch 10\nremove 10\n", RecordStop::BadLine),
    (b"batch 09\nremove 0\n", RecordStop::BadLine),
    (b"read 4294967296 properties\n", RecordStop::BadLine),
    (b"reads 1 properties\n", RecordStop::BadLine),
    (b"\n", RecordStop::BadLine),
];

fn source(alloc: Global, bytes: &[u8], piece: usize) -> Result<MemSource, AllocError>
    requires { 0 < piece }
{
    let bytes = Vec::from_slice(alloc, bytes)?;
    Ok(MemSource::new(bytes, piece, Vec::new(alloc)))
}

// Whether the first record is that, with that text, and whether bytes follow as they should.
fn is_read(
    alloc: Global,
    row: &(&[u8], Record, &[u8], bool),
    piece: usize,
) -> Result<bool, AllocError>
    requires { 0 < piece }
{
    let (input, record, wanted, follow) = *row;
    let mut src = source(alloc, input, piece)?;
    let mut inbox = Inbox::new(alloc, MAX_LINE)?;
    let mut text = Vec::new(alloc);
    let is_record = match read_record(&mut inbox, &mut src, &mut text, ROOM) {
        Ok(found) => found == record,
        Err(_) => false,
    };
    let more = has_more(&mut inbox, &mut src);
    Ok(is_record && text.as_slice() == wanted && more == Ok(follow))
}

// Whether no record comes, for that reason.
fn stops(alloc: Global, input: &[u8], stop: RecordStop, piece: usize) -> Result<bool, AllocError>
    requires { 0 < piece }
{
    let mut src = source(alloc, input, piece)?;
    let mut inbox = Inbox::new(alloc, MAX_LINE)?;
    let mut text = Vec::new(alloc);
    match read_record(&mut inbox, &mut src, &mut text, ROOM) {
        Ok(_) => Ok(false),
        Err(found) => Ok(found == stop),
    }
}

#[test]
fn records_are_read(rt: HostRuntime) -> Result<(), Fail> {
    for row in &RECORDS {
        assert!(rt;
            is_read(rt.alloc(), row, 1)? && is_read(rt.alloc(), row, 128)?,
            "{:?}",
            row.1
        );
    }
    Ok(())
}

#[test]
fn what_is_no_record_is_refused(rt: HostRuntime) -> Result<(), Fail> {
    for (input, stop) in &STOPS {
        let alloc = rt.alloc();
        assert!(rt;
            stops(alloc, input, *stop, 1)? && stops(alloc, input, *stop, 128)?,
            "{stop:?}"
        );
    }
    Ok(())
}

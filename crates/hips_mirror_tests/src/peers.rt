//! What a peer sends that serves a survey in order.
use generation::{Body, Generation};
use healpix_nested::Cell;
use http_frame::{Allow, Kind, Number, Reply, write_reply};
use log::Log;
use memory_link::{MemShelf, MemSink};
use parent_rule::Steps;
use shelf_io::load;
use small_files::{SURVEY, tile_file};
use std::alloc::Global;
use std::test::Fail;
use std::thread::Threads;
use std::time::Clock;
use survey_link::{OpenGate, Shelf};
use tile_path::Path;

// The header of a tile of the survey, one card a line.
const HEADER: &str = "SIMPLE  =                    T
BITPIX  =                   16
NAXIS   =                    2
NAXIS1  =                    2
NAXIS2  =                    2
END";

// Writes a reply with a body of that kind, of the state with seven edits or of none.
fn write(
    sent: &mut MemSink,
    kind: Kind,
    number: Number,
    body: &[u8],
    close: bool,
) -> Result<(), Fail> {
    let reply = Reply {
        code: 200,
        allow: Allow::Absent,
        kind,
        number,
        length: body.len() as u64,
        close,
    };
    Ok(write_reply(sent, &reply, body)?)
}

// Writes the reply with the file at a path.
fn write_file(
    alloc: Global,
    sent: &mut MemSink,
    survey: &Generation,
    path: &Path,
    kind: Kind,
) -> Result<(), Fail> {
    let mut room = Vec::new(alloc);
    room.resize(survey.room(), 0)?;
    match survey.file(path, &mut room).ok_or("no file")? {
        Body::Written(count) => write(sent, kind, Number::Prefix(7), &room[..count], false),
        Body::Kept(bytes) => write(sent, kind, Number::Prefix(7), bytes, false),
    }
}

// Writes the replies to the requests of a whole copy, as a server does.
fn write_replies(alloc: Global, sent: &mut MemSink, survey: &Generation) -> Result<(), Fail> {
    write(sent, Kind::Text, Number::Prefix(7), b"pinned 7\n", false)?;
    write_file(alloc, sent, survey, &Path::Properties, Kind::Text)?;
    write_file(alloc, sent, survey, &Path::Moc, Kind::Fits)?;
    for leaf in 0..12 {
        if survey.leaves().get(leaf).is_some() {
            let cell = Cell::new(4, leaf).ok_or("no cell")?;
            write_file(alloc, sent, survey, &Path::Tile(cell), Kind::Fits)?;
        }
    }
    if survey.leaves().len() > 0 {
        write_file(alloc, sent, survey, &Path::Allsky, Kind::Fits)?;
    }
    write(sent, Kind::Text, Number::Absent, b"released\n", true)
}

// The generation of the survey with leaves 0 to `count` - 1.
pub(crate) fn opened<R: Threads + Sync + Clock + Log>(
    rt: &R,
    alloc: Global,
    count: u64,
) -> Result<Generation, Fail> {
    let mut shelf = MemShelf::new(alloc, Vec::new(alloc));
    shelf.put("survey.conf", SURVEY.as_bytes())?;
    let file = tile_file(alloc, HEADER, [1, 2, 3, 5])?;
    for leaf in 0..count {
        let path = format!(in alloc; "Norder4/Dir0/Npix{leaf}.fits")?;
        shelf.put(&path, &file)?;
    }
    Ok(load(rt, alloc, &mut shelf, &OpenGate::new(), &mut Steps::new())?)
}

// What a peer sends whose survey has leaves 0 to `count` - 1.
pub(crate) fn replies<R: Threads + Sync + Clock + Log>(
    rt: &R,
    alloc: Global,
    count: u64,
) -> Result<Vec<u8>, Fail> {
    let survey = opened(rt, alloc, count)?;
    let mut sent = MemSink::new(alloc, 100_000, Vec::new(alloc))?;
    write_replies(alloc, &mut sent, &survey)?;
    let mut bytes = Vec::new(alloc);
    bytes.extend_from_slice(sent.bytes())?;
    Ok(bytes)
}

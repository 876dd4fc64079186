//! What is logged.
use crate::refusal::{BadLine, CatalogRefusal, LineFault};
use log::{Log, error, info};

/// Logs why no catalogue was put on the shelf, if the reason lies in the input.
pub(crate) fn say_stop<R: Log>(rt: &R, stop: CatalogRefusal) {
    match stop {
        CatalogRefusal::Cut =>
            error!(rt; "the last line has no line feed: the input may be cut off"),
        CatalogRefusal::Line(bad) => say_bad_line(rt, bad),
        CatalogRefusal::ReadFault | CatalogRefusal::ShelfFault | CatalogRefusal::OutOfMemory => {}
    }
}

// Logs what is wrong with a line, and what is allowed.
fn say_bad_line<R: Log>(rt: &R, bad: BadLine) {
    let (line, kind) = (bad.line, bad.fault.kind());
    match bad.fault {
        LineFault::Row(fault) => error!(rt; "line {line} (kind {kind}): {fault}"),
        LineFault::Long =>
            error!(rt; "line {line} (kind {kind}): a line has at most 512 bytes with its line feed"),
        LineFault::Twice =>
            error!(rt; "line {line} (kind {kind}): a row has this id already; a line `-` TAB ID takes it out"),
        LineFault::Full =>
            error!(rt; "line {line} (kind {kind}): a catalogue has at most 1000000 rows"),
        LineFault::Absent =>
            error!(rt; "line {line} (kind {kind}): no row has the id that is to be taken out"),
        LineFault::Many =>
            error!(rt; "line {line} (kind {kind}): an input has at most 2000000 lines"),
    }
}

/// Logs how many rows and tiles are on the shelf.
pub(crate) fn say_written<R: Log>(rt: &R, rows: u64, tiles: u64) {
    info!(rt; "{rows} rows in {tiles} tiles");
}

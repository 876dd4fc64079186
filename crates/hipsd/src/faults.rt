//! What is logged if an end of the program failed.
use command_output::Status;
use log::{Log, error};
use std_link::{FolderShelf, StreamSink, StreamSource};

/// Logs which call failed if a run ended with this status, and what the system answered.
pub(crate) fn say_fault<R: Log, S, K, F>(
    rt: &R,
    status: u8,
    source: &StreamSource<S>,
    sink: &StreamSink<K>,
    shelf: &FolderShelf<F>,
) {
    if status == Status::ReadFault.number() {
        if let Some(error) = source.last_error() {
            error!(rt; "can't read the standard input: {error}");
        }
    } else if status == Status::WriteFault.number() {
        if let Some(error) = sink.last_error() {
            error!(rt; "can't write to the standard output: {error}");
        }
    } else {
        say_shelf_fault(rt, status, shelf);
    }
}

/// Logs which end failed if a copy of the survey at this address ended with this status. Why connecting failed was logged
/// before.
pub(crate) fn say_peer_fault<R: Log, F>(rt: &R, status: u8, address: &str, shelf: &FolderShelf<F>) {
    if status == Status::ReadFault.number() {
        error!(rt; "can't read what {address} sends: the connection broke off, or it was silent for too long");
    } else if status == Status::WriteFault.number() {
        error!(rt; "can't send requests to {address}");
    } else {
        say_shelf_fault(rt, status, shelf);
    }
}

// Logs which call on the folder failed if a run ended with this status.
fn say_shelf_fault<R: Log, F>(rt: &R, status: u8, shelf: &FolderShelf<F>) {
    if status == Status::ShelfFault.number() {
        if let Some(fault) = shelf.last_fault() {
            error!(rt; "{fault}");
        }
    }
}

//! The ends of `survey_link` over std: its readers and writers, and a folder of the system.
//!
//! What a stream or a folder holds is opaque to the proof. Each counts its faults and keeps the last one.
#![tactic(auto)]

mod failed_call;
mod file_fault;
mod folder;
mod folder_shelf;
mod here;
mod listing;
mod shelf_path;
mod stream;

pub use failed_call::FailedCall;
pub use folder_shelf::FolderShelf;
pub use stream::{StdStream, StreamSink, StreamSource};

//! The records of a survey's write-ahead log (WAL), as bytes.
//!
//! A WAL is a header, which says what survey it belongs to, and records behind it: each is a batch of edits that was accepted,
//! or a publication. A record counts once the byte in front, its gate, is 1, so the bytes behind the last one mean nothing.
//! What a record says of the survey's history is judged by those who replay it.
#![tactic(auto)]

mod header;
pub mod laws;
mod reading;
mod record;
mod refusal;
mod survey;
mod writing;

pub use header::{HEADER_LEN, check_header, header_of};
pub use reading::{read_record, record_span};
pub use record::Record;
pub use refusal::{ReadStop, Reason, WalRefusal};
pub use survey::SurveyMark;
pub use writing::{
    RECORD_HEAD_LEN, batch_head, edit_head, edit_length, publication, record_length,
};

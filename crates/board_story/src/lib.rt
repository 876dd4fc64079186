//! Boards that record what they were answered, whether one history explains it, and scenario tests of several boards.
//!
//! The program `board_tests` plays one, and its tests the others. They are here so that each is proved once, and so that what
//! they drop is.
#![tactic(auto)]

mod calling;
mod gates;
mod replay;
mod rows;
mod storm;
mod story;
mod survey;
mod tales;
mod teller;
mod tiles;

pub use calling::{ADD, Answer, Asked, Call, PUT, REMOVE, REPLACE};
pub use rows::{Asking, Row, Shown, told_alone};
pub use survey::with_boards;
pub use tales::Tale;

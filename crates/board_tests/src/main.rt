//! Tests of the boards of `reader_pin`, over the finished crate: in it they would have it proved a second time.
//!
//! What they do is in `board_story`. The program runs a scenario test of it, as `scripts/check-memory.sh` runs it with memory
//! refused at one request after another. It prints `begun` once the survey is open, and in the end how many edits there are,
//! how many of them are published, and how many calls were refused and made again.
#![tactic(auto)]

#[cfg(test)]
mod alone;
#[cfg(test)]
mod shared;

use board_story::{Tale, with_boards};
use std::test::Fail;

fn main(rt: HostRuntime) -> Result<(), Fail> {
    with_boards(&rt, rt.alloc(), 3, Tale::Story)
}

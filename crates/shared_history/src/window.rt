//! What a reader looks through.
ghost use Rattle.std.specs.Prelude.{◌<◌, IfSome};
ghost use Rattle.shared_history.specs.Histories.{GoesOn};

use crate::book::{Law, Naming};
use crate::page::Page;
use crate::showing::{Finds, OfBook};
use crate::shown::Shown;
use core::mem::replace_with;
use left_right::reader::Reader;

/// A place from which what is shown of a history is seen, without waiting. It has its reader for as long as it lives.
#[derive(Drop)]
pub struct Window<S: Drop, L: Law<S>, J: Naming> {
    reader: Reader<Page<S, L>, (), OfBook<J>>,
}

impl<S: Drop, L: Law<S>, J: Naming> Window<S, L, J> {
    /// The place of a reader.
    pub(crate) fn of(reader: Reader<Page<S, L>, (), OfBook<J>>) -> Window<S, L, J> {
        Window { reader }
    }

    /// A copy of what is shown, where that goes on from what was seen before with none of that seat's. `None` where what is shown
    /// is no more, or has more of that seat's, where a count of its owners is full, and once the history is closed.
    pub fn look(&mut self, seen: &Shown<S, L, J>, seat: usize) -> Option<Shown<S, L, J>>
        requires { seat < seen.now.seats }
        ensures { IfSome result (GoesOn seat seen.now) }
    {
        replace_with(&mut self.reader, (seen, seat), |reader, (seen, seat)| {
            looked(reader, seen, seat)
        })
    }
}

// The reader, and what it finds.
fn looked<S: Drop, L: Law<S>, J: Naming>(
    reader: Reader<Page<S, L>, (), OfBook<J>>,
    seen: &Shown<S, L, J>,
    seat: usize,
) -> (Reader<Page<S, L>, (), OfBook<J>>, Option<Shown<S, L, J>>)
    requires { seat < seen.now.seats }
    ensures { IfSome result.1 (GoesOn seat seen.now) }
{
    match reader.enter_as::<Finds<J>>() {
        Ok(reading) => {
            let more = seen.newer_page(reading.get(), seat);
            let reader = reading.leave();
            match more {
                Ok(more) => (reader, more),
                Err(_) => (reader, None),
            }
        }
        Err(reader) => (reader, None),
    }
}

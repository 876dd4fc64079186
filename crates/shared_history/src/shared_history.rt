//! A history that threads share.
ghost use Rattle.std.specs.Prelude.{◌≡◌, ◌<◌, ◌≤◌, ◌^◌, ◌∷◌, [], map, length, All, IfOk};
ghost use Rattle.std.specs.List.{range_with_len};
ghost use Rattle.shared_history.specs.Histories.{one_state};

use crate::book::{Blank, Law, Naming};
use crate::desk::Desk;
use crate::page::{Page, Showable};
use crate::seat::Seat;
use crate::shown::Shown;
use std::alloc::{AllocError, Global};
use std::mem::ManuallyDrop;
use std::sync::{Arc, Mutex, MutexGuard, Wait};

/// A history under its lock. It can't be dropped: end it by `close`.
pub struct SharedHistory<S: Drop, L: Law<S>, J: Naming>
where
    Page<S, L>: Showable,
{
    // The writer within can't be dropped, and a guard's drop would be asked to.
    desk: Mutex<ManuallyDrop<Desk<S, L, J>>>,
}

impl<S: Drop, L: Law<S>, J: Naming> SharedHistory<S, L, J>
where
    Page<S, L>: Showable,
{
    /// The desk, which nobody else has then. It waits until the desk is free.
    pub fn lock<R: Wait>(&self, rt: &R) -> MutexGuard<'_, ManuallyDrop<Desk<S, L, J>>> {
        self.desk.lock(rt)
    }

    /// Ends it.
    pub fn close<R: Wait>(self, rt: &R) {
        let SharedHistory { desk } = self;
        ManuallyDrop::into_inner(desk.into_inner()).close(rt);
    }
}

impl<S: Drop, L: Law<S>> Blank<S, L> {
    /// Opens the history of one state, with so many seats, each of which has seen it. Their numbers are 0, 1 and so on.
    ///
    /// # Errors
    ///
    /// `AllocError` where there is no memory for it.
    pub fn open<J: Naming, R: Wait>(
        self,
        rt: &R,
        alloc: Global,
        first: S,
        seats: usize,
    ) -> Result<(SharedHistory<S, L, J>, Vec<Seat<S, L, J>>), AllocError>
    where
        Page<S, L>: Showable,
        requires book { self ≡ J.book }
        requires legal { L.legal (first ∷ []) }
        requires some { 0 < seats }
        requires most { seats < 2 ^ 32 }
        ensures seats { IfOk result (λ opened. length opened.1.items ≡ seats) }
        ensures numbers { IfOk result (λ opened. map (λ seat. seat.number) opened.1.items ≡ range_with_len 0 seats) }
        ensures seen { IfOk result (λ opened. All (λ seat. seat.seen ≡ one_state seats first) opened.1.items) }
    {
        let (head, seen) = self.into_parts();
        let newest = Shown::begin(alloc, &head, seen, seats, Arc::new(alloc, first)?)?;
        let desk = Desk::new(alloc, head, newest, seats)?;
        match desk.seats(seats) {
            Ok(taken) => Ok((
                SharedHistory {
                    desk: Mutex::new(unsafe { ManuallyDrop::new_unchecked(desk) }),
                },
                taken,
            )),
            Err(error) => {
                desk.close(rt);
                Err(error)
            }
        }
    }
}

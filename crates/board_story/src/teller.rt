//! Boards that record what they were answered, and whether one history explains it.
use crate::calling::{Answer, Call, Seen, Told, made};
use crate::replay::Replay;
use reader_pin::{Board, Shared, Survey, SurveySeat};
use shared_history::Naming;
use std::alloc::{AllocError, Global};
use std::sync::{Arc, Wait};
use std::thread::Threads;
use survey_core::State;
use survey_link::Gate;
use tile_pixels::Tile;

/// A board with what it recorded.
#[derive(Drop)]
pub struct Teller<'a, J: Naming> {
    /// The board.
    pub board: Shared<'a, J>,
    /// What it recorded.
    pub told: Vec<Told>,
}

impl<'a, J: Naming> Teller<'a, J> {
    /// Asks the board, whose publication passes the gate, and notes what it answers; `None` where there is no memory.
    pub fn tell<G: Gate + Sync, R: Threads + Wait + Sync>(
        &mut self,
        rt: &R,
        alloc: Global,
        gate: &G,
        tile: &Arc<Tile>,
        call: Call,
    ) -> Option<()> {
        let answer = made(rt, alloc, gate, &mut self.board, tile, call)?;
        self.note(call, answer)
    }

    /// Notes what the board was answered, and what it sees then; `None` where there is no memory.
    pub fn note(&mut self, call: Call, answer: Answer) -> Option<()> {
        let told = Told {
            call,
            answer,
            last: self.seen(),
            held: self.board.held().map(Seen::of),
        };
        self.told.push(told).ok()
    }

    /// What it was answered at that place.
    pub fn answer(&self, at: usize) -> Option<Answer> {
        match self.told.get(at) {
            Some(told) => Some(told.answer),
            None => None,
        }
    }

    // What the board sees.
    fn seen(&self) -> Seen {
        Seen::of(self.board.last())
    }
}

/// A board at each place.
///
/// # Errors
///
/// Where there is no memory.
pub fn tellers<'a, J: Naming>(
    alloc: Global,
    survey: &'a Survey<J>,
    seats: Vec<SurveySeat<J>>,
) -> Result<Vec<Teller<'a, J>>, AllocError> {
    let mut tellers = Vec::new(alloc);
    for seat in seats {
        tellers.push(Teller {
            board: Shared::new(alloc, survey, seat),
            told: Vec::new(alloc),
        })?;
    }
    Ok(tellers)
}

/// The first board meets each other one, twice: all have seen the same then.
///
/// # Errors
///
/// Where there is no board, or two that met have seen different states.
pub fn meet<'a, J: Naming>(tellers: &mut [Teller<'a, J>]) -> Result<(), &'static str> {
    let (first, others) = tellers.split_first_mut().ok_or("no board")?;
    for _ in 0..2 {
        meet_each(first, others)?;
    }
    Ok(())
}

fn meet_each<'a, J: Naming>(
    first: &mut Teller<'a, J>,
    others: &mut [Teller<'a, J>],
) -> Result<(), &'static str> {
    for other in others {
        if first.board.meet(&mut other.board).is_err() || first.seen() != other.seen() {
            return Err("boards that met have seen different states");
        }
    }
    Ok(())
}

/// The last state, if the history that all boards have seen explains what each was answered.
///
/// # Errors
///
/// Where it doesn't, or the boards have seen different states.
pub fn explained<'a, J: Naming>(
    alloc: Global,
    tellers: &[Teller<'a, J>],
) -> Result<Seen, &'static str> {
    let first = tellers.first().ok_or("no board")?.board.last();
    let mut replay = replay_of(alloc, first).ok_or("no memory")?;
    explain_each(&mut replay, tellers, Seen::of(first))
}

// The history that leads to a state, begun again where memory is refused.
fn replay_of(alloc: Global, state: &State) -> Option<Replay> {
    match Replay::of(alloc, state) {
        Ok(replay) => Some(replay),
        Err(_) => Replay::of(alloc, state).ok(),
    }
}

// The last state, where each board has seen it and the history explains what each was answered.
fn explain_each<'a, J: Naming>(
    replay: &mut Replay,
    tellers: &[Teller<'a, J>],
    last: Seen,
) -> Result<Seen, &'static str> {
    for teller in tellers {
        if teller.seen() != last {
            return Err("boards that met have seen different states");
        }
        replay.explain_all(&teller.told)?;
    }
    replay.end()?;
    Ok(last)
}

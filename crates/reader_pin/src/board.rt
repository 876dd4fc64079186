//! What a connection sees of a survey.
ghost use Rattle.std.specs.Prelude.{◌≡◌, ℕ, option_map};
ghost use Rattle.survey_core.specs.History.{IsHistory};
ghost use Rattle.reader_pin.specs.Board.{BoardContent, IsOwned, Stays, last_seen, state_in, holding_last, holding_none};

use survey_core::State;

/// A survey as one connection sees it: a history of states that only grows. Edits and publications are its own events, each
/// one step of that history; other boards of the same survey may make steps between them. Each step is the event of one
/// board, known by the number of its seat.
///
/// The calls here make no event. They take no runtime and no memory, and never wait. Those that make events are `ChangedWith`'s.
pub trait Board {
    ghost use Rattle.reader_pin.specs.declared.answer.Published.{Published};

    /// What the board has seen and holds.
    ghost content: { Self → BoardContent };

    /// What is known of the steps, so many before a publication and so many after it, beyond the bounds below. Of a board
    /// that other boards share nothing more is known: it builds outside the lock, and what it built may be published by
    /// others by then.
    ghost counts: { BoardContent → BoardContent → ℕ → ℕ → Published → Type 0 };

    /// Looks for newer states. It makes no event.
    fn pin(&mut self)
        ensures { Stays (content self.old) (content self.new) };

    /// The last state seen.
    fn last(&self) -> &State
        ensures last { result.now ≡ state_in (content self.now) (last_seen (content self.now)) }
        ensures legal { IsHistory (content self.now).opening (content self.now).history }
        ensures owned { IsOwned (content self.now) };

    /// Holds the last state seen, in place of any held one. All else stays.
    fn hold(&mut self)
        ensures { content self.new ≡ holding_last (content self.old) };

    /// The state that is held; `None` if and only if none is.
    fn held(&self) -> Option<&State>
        ensures { option_map (λ state. state.now) result ≡ option_map (state_in (content self.now)) (content self.now).held };

    /// Holds no state. All else stays.
    fn release(&mut self)
        ensures { content self.new ≡ holding_none (content self.old) };
}

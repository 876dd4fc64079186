//! The calls on a form in memory, counted.
ghost use Rattle.std.specs.Prelude.{◌≡◌, ◌↔◌, ◌⊎◌, Contains, IsTrue, IfOk, OnOk, OnErr, IsErr, false};
ghost use Rattle.survey_link.specs.Link.{next_count};

use std::alloc::{AllocError, Global};
use survey_link::Failed;

/// Which calls are to fail, by their numbers from 0, and how many came and failed.
#[derive(Drop)]
pub(crate) struct Calls {
    pub(crate) fails: Vec<u64>,
    pub(crate) made: u64,
    pub(crate) faults: u64,
}

impl Calls {
    pub(crate) fn new(fails: Vec<u64>) -> Calls
        ensures fails { result.fails ≡ fails }
        ensures made { result.made ≡ 0 }
        ensures faults { result.faults ≡ 0 }
    {
        Calls {
            fails,
            made: 0,
            faults: 0,
        }
    }

    /// The same calls.
    pub(crate) fn copy(&self, alloc: Global) -> Result<Calls, AllocError>
        ensures fails { IfOk result (λ copy. copy.fails.items ≡ self.now.fails.items) }
        ensures made { IfOk result (λ copy. copy.made ≡ self.now.made) }
        ensures faults { IfOk result (λ copy. copy.faults ≡ self.now.faults) }
    {
        let fails = Vec::from_slice(alloc, self.fails.as_slice())?;
        Ok(Calls {
            fails,
            made: self.made,
            faults: self.faults,
        })
    }

    /// Makes the next call, which fails if and only if its number is listed.
    pub(crate) fn make(&mut self) -> Result<(), Failed>
        ensures fails { IsErr result ↔ Contains self.old.fails.items self.old.made }
        ensures counted { OnOk result (self.new ≡ record self.old { made = next_count self.old.made }) }
        ensures failed { OnErr result (self.new ≡ record self.old { made = next_count self.old.made; faults = next_count self.old.faults }) }
    {
        self.make_if(true)
    }

    /// Makes the next call, which fails if and only if its number is listed or it isn't possible.
    pub(crate) fn make_if(&mut self, possible: bool) -> Result<(), Failed>
        ensures fails { IsErr result ↔ (Contains self.old.fails.items self.old.made ⊎ (possible ≡ false)) }
        ensures counted { OnOk result (self.new ≡ record self.old { made = next_count self.old.made }) }
        ensures failed { OnErr result (self.new ≡ record self.old { made = next_count self.old.made; faults = next_count self.old.faults }) }
    {
        if !possible || self.fails_next() {
            self.fail();
            return Err(Failed);
        }
        self.count();
        Ok(())
    }

    /// Whether the next call is to fail.
    pub(crate) fn fails_next(&self) -> bool
        ensures { IsTrue result ↔ Contains self.now.fails.items self.now.made }
    {
        self.fails.contains(&self.made)
    }

    /// Counts a call.
    pub(crate) fn count(&mut self)
        ensures { self.new ≡ record self.old { made = next_count self.old.made } }
    {
        self.made = self.made.saturating_add(1);
    }

    /// Counts a call that fails.
    pub(crate) fn fail(&mut self)
        ensures { self.new ≡ record self.old { made = next_count self.old.made; faults = next_count self.old.faults } }
    {
        self.made = self.made.saturating_add(1);
        self.faults = self.faults.saturating_add(1);
    }
}

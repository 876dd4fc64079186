//! Permits that are consumed in order.
ghost use Rattle.std.specs.Prelude.{◌≡◌, ◌+◌, ◌≤◌, ◌<◌, ◌∷◌, [], length, take, drop, OnOk, IfOk, MatchOption};

use parent_rule::Permit;
use std::alloc::AllocError;
use std::collections::VecDeque;
use std::marker::Model;

/// Permits in order. Dropping it consumes those that are left.
pub struct Permits {
    left: VecDeque<Permit>,
}

impl Model for Permits {
    ghost use Rattle.std.specs.Prelude.{List};
    ghost use Rattle.parent_rule.specs.Permit.{PermittedCell};

    ghost Value = { List PermittedCell };

    ghost view = { λ p. p.left.items };
}

impl Permits {
    /// All of a list.
    pub fn new(permits: Vec<Permit>) -> Permits
        ensures { result ≡ permits.items }
    {
        Permits {
            left: VecDeque::from(permits),
        }
    }

    /// How many are left.
    pub fn len(&self) -> usize
        ensures { result ≡ length self.now }
    {
        self.left.len()
    }

    /// Takes the first one.
    pub fn take_first(&mut self) -> Option<Permit>
        ensures { MatchOption result ((self.old ≡ []) × (self.new ≡ [])) (λ permit. self.old ≡ permit ∷ self.new) }
    {
        self.left.pop_front()
    }

    /// Takes all but the first `at`.
    ///
    /// # Errors
    ///
    /// `AllocError` where there is no memory for those that are taken.
    pub fn split_off(&mut self, at: usize) -> Result<Permits, AllocError>
        requires { at ≤ length self.old }
        ensures front { OnOk result (self.new ≡ take at self.old) }
        ensures back { IfOk result (λ back. back ≡ drop at self.old) }
    {
        let left = self.left.split_off(at)?;
        Ok(Permits { left })
    }
}

impl Drop for Permits {
    fn drop(self) {
        let Permits { left } = self;
        spend(left);
    }
}

fn spend(mut left: VecDeque<Permit>) {
    while let Some(permit) = left.pop_front() {
        permit.spend();
    }
    left.destroy_empty();
}

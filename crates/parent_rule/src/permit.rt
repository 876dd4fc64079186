//! Steps and permits: how many tiles were read and merged.
ghost use Rattle.std.specs.Prelude.{◌≡◌, ◌≤◌, ℕ};
ghost use Rattle.parent_rule.specs.Permit.{one_more};

use std::marker::Model;

/// How many tiles were read, and how many permits issued. The count stands still at `2^64 - 1`.
#[derive(Debug, Drop)]
pub struct Steps {
    count: u64,
}

impl Model for Steps {
    ghost Value = { ℕ };

    ghost view = { λ s. s.count };
}

impl Steps {
    /// A counter at 0.
    pub fn new() -> Steps
        ensures { result ≡ 0 }
    {
        Steps { count: 0 }
    }

    /// The count.
    pub fn count(&self) -> u64
        ensures { result ≡ self.now }
    {
        self.count
    }

    /// Counts one step: the reading or the merging of a tile.
    pub fn tick(&mut self)
        ensures counted { self.new ≡ one_more self.old }
        ensures never_falls { self.old ≤ self.new }
    {
        self.count = self.count.saturating_add(1);
    }
}

/// One merge of tiles that was counted, made out for a cell. It can neither be copied nor dropped: `spend` uses it up.
/// Nothing ties the cell to the tile that is merged.
#[derive(Debug)]
pub struct Permit {
    order: u8,
    npix: u64,
}

impl Model for Permit {
    ghost use Rattle.parent_rule.specs.Permit.{PermittedCell};

    ghost Value = { PermittedCell };

    ghost view = { λ p. record { order = p.order; npix = p.npix } };
}

impl Permit {
    /// A permit for that cell. The counter rises by one, or stands at `2^64 - 1`.
    pub fn issue(order: u8, npix: u64, steps: &mut Steps) -> Permit
        ensures order { result.order ≡ order }
        ensures npix { result.npix ≡ npix }
        ensures counted { steps.new ≡ one_more steps.old }
        ensures never_falls { steps.old ≤ steps.new }
    {
        steps.tick();
        Permit { order, npix }
    }

    /// The order of the cell.
    pub fn order(&self) -> u8
        ensures { result ≡ self.now.order }
    {
        self.order
    }

    /// The number of the cell.
    pub fn npix(&self) -> u64
        ensures { result ≡ self.now.npix }
    {
        self.npix
    }

    /// Uses the permit up, as each merge does.
    pub fn spend(self) {
        let Permit { order: _, npix: _ } = self;
    }
}

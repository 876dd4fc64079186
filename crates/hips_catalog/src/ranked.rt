//! A row that several lists share, with its rank beside it.
ghost use Rattle.std.specs.Prelude.{◌≡◌, ◌&&◌, not};
ghost use Rattle.std.specs.Arc.{arc_value};
ghost use Rattle.hips_catalog.specs.Rows.{is_better};

use crate::row::Row;
use std::marker::Model;
use std::sync::Arc;

/// A shared row whose rank is compared without a look at the row, which is elsewhere in memory. Contracts see the shared row.
#[derive(Drop)]
pub(crate) struct Ranked {
    rank: u64,
    row: Arc<Row>,
}

impl Model for Ranked {
    ghost use Rattle.std.specs.Prelude.{◌≡◌};
    ghost use Rattle.std.specs.Arc.{arc_value};
    ghost use Rattle.std.specs.declared.sync.Arc.{Arc};
    ghost use Rattle.std.specs.declared.alloc.Global.{Global};
    ghost use Rattle.hips_catalog.specs.Rows.{Source};

    ghost Value = { Arc Source Global };

    ghost view = { λ a. a.row };

    ghost invariant = { λ a. a.rank ≡ (arc_value a.row).rank };
}

impl Ranked {
    /// The row with its rank.
    pub(crate) fn new(row: Arc<Row>) -> Ranked
        ensures { result ≡ row }
    {
        Ranked {
            rank: row.rank(),
            row,
        }
    }

    /// The rank of the row.
    pub(crate) fn rank(&self) -> u64
        ensures { result ≡ (arc_value self.now).rank }
    {
        self.rank
    }

    /// The row.
    pub(crate) fn row(&self) -> &Row
        ensures { result.now ≡ arc_value self.now }
    {
        &self.row
    }

    /// Whether the row is shown before the other.
    #[tactic(auto, using(crate::proofs::Order::better_by_rank))]
    pub(crate) fn is_better(&self, other: &Row) -> bool
        ensures { result ≡ is_better (arc_value self.now) other.now }
    {
        if self.rank == other.rank() {
            self.row.is_better(other)
        } else {
            self.rank < other.rank()
        }
    }

    /// Whether neither the row nor the other is better.
    pub(crate) fn is_level(&self, other: &Row) -> bool
        ensures { result ≡ (not (is_better (arc_value self.now) other.now) && not (is_better other.now (arc_value self.now))) }
    {
        !self.is_better(other) && !other.is_better(self.row())
    }
}

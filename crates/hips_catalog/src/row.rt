//! A row of a catalogue.
ghost use Rattle.std.specs.Prelude.{◌≡◌};
ghost use Rattle.hips_catalog.specs.Rows.{is_better, has_id_below};

use std::marker::Model;

/// A source: its rank, of which a smaller one is better, the number of its cell, its id, and the rest of its line.
#[derive(Debug, Drop)]
pub struct Row {
    rank: u64,
    npix: u64,
    id: Vec<u8>,
    rest: Vec<u8>,
}

impl Model for Row {
    ghost use Rattle.hips_catalog.specs.Rows.{Source};

    ghost Value = { Source };

    ghost view = { λ a. record { rank = a.rank; npix = a.npix; id = a.id.items; rest = a.rest.items } };
}

impl Row {
    /// The row of these parts.
    pub(crate) fn of(rank: u64, npix: u64, id: Vec<u8>, rest: Vec<u8>) -> Row
        ensures { result ≡ record {
          rank = rank;
          npix = npix;
          id = id.items;
          rest = rest.items;
        } }
    {
        Row {
            rank,
            npix,
            id,
            rest,
        }
    }

    /// The rank.
    pub fn rank(&self) -> u64
        ensures { result ≡ self.now.rank }
    {
        self.rank
    }

    /// The number of the cell.
    pub fn npix(&self) -> u64
        ensures { result ≡ self.now.npix }
    {
        self.npix
    }

    /// The id.
    pub fn id(&self) -> &[u8]
        ensures { result.now ≡ self.now.id }
    {
        &self.id
    }

    /// The rest of the line, after the id.
    pub fn rest(&self) -> &[u8]
        ensures { result.now ≡ self.now.rest }
    {
        &self.rest
    }

    /// Whether this row is shown before the other.
    #[tactic(auto, using(crate::proofs::Order::better_tied, crate::proofs::Order::better_by_rank))]
    pub(crate) fn is_better(&self, other: &Row) -> bool
        ensures { result ≡ is_better self.now other.now }
    {
        if self.rank == other.rank {
            self.is_before(other.id())
        } else {
            self.rank < other.rank
        }
    }

    /// Whether this row's id is below the id.
    pub(crate) fn is_before(&self, id: &[u8]) -> bool
        ensures { result ≡ has_id_below self.now id.now }
    {
        self.id().cmp(id).is_lt()
    }
}

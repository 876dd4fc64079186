//! A row that several lists share, with the beginning of its id beside it.
ghost use Rattle.std.specs.Prelude.{◌≡◌, ◌<◌, ◌≤◌, ◌+◌, ◌*◌, ◌^◌, ◌-◌};
ghost use Rattle.std.specs.Arc.{arc_value};
ghost use Rattle.hips_catalog.specs.Rows.{has_id_below};
ghost use Rattle.hips_catalog.specs.Heads.{head_on, IsHead};

use crate::row::Row;
use balanced_list::Probe;
use std::marker::Model;
use std::sync::Arc;

// How many bytes of an id its head has.
const BYTES: u32 = 8;

/// A shared row whose id is compared without a look at the row, which is elsewhere in memory. Contracts see the shared row.
#[derive(Drop)]
pub(crate) struct HeadedRow {
    head: u64,
    row: Arc<Row>,
}

impl Model for HeadedRow {
    ghost use Rattle.std.specs.Arc.{arc_value};
    ghost use Rattle.std.specs.declared.sync.Arc.{Arc};
    ghost use Rattle.std.specs.declared.alloc.Global.{Global};
    ghost use Rattle.hips_catalog.specs.Rows.{Source};
    ghost use Rattle.hips_catalog.specs.Heads.{IsHead};

    ghost Value = { Arc Source Global };

    ghost view = { λ a. a.row };

    ghost invariant = { λ a. IsHead a.head (arc_value a.row).id };
}

impl HeadedRow {
    /// The row with the head of its id.
    pub(crate) fn new(row: Arc<Row>) -> HeadedRow
        ensures { result ≡ row }
    {
        HeadedRow {
            head: id_head(row.id()),
            row,
        }
    }

    /// The row.
    pub(crate) fn row(&self) -> &Row
        ensures { result.now ≡ arc_value self.now }
    {
        &self.row
    }
}

/// Whether the place of an id lies after a row.
#[derive(Drop)]
pub(crate) struct After<'a> {
    head: u64,
    id: &'a [u8],
    ghost known: { IsHead head id.now },
}

impl<'a> After<'a> {
    /// The place of the id.
    pub(crate) fn new(id: &'a [u8]) -> After<'a>
        ensures { result.id.now ≡ id.now }
    {
        After {
            head: id_head(id),
            id,
        }
    }
}

impl<'a> Probe<HeadedRow> for After<'a> {
    ghost use Rattle.std.specs.Arc.{arc_value};
    ghost use Rattle.hips_catalog.specs.Rows.{has_id_below};

    ghost past = { λ s row. has_id_below (arc_value row) s.id.now };

    fn is_past(&self, row: &HeadedRow) -> bool {
        if row.head == self.head {
            return row.row.is_before(self.id);
        }
        row.head < self.head
    }
}

// The first bytes of an id as one number, as though zeros followed them.
fn id_head(id: &[u8]) -> u64
    ensures { IsHead result id.now }
{
    head_on(BYTES, 0, id)
}

// So many further bytes behind a number that begins with those before them.
fn head_on(count: u32, before: u64, bytes: &[u8]) -> u64
    requires few { count ≤ 8 }
    requires fits { (before + 1) * 256 ^ count ≤ 2 ^ 64 }
    ensures { result ≡ head_on count before bytes.now }
{
    if count == 0 {
        return before;
    }
    match bytes.split_first() {
        Some((first, rest)) => head_on(count - 1, before * 256 + u64::from(*first), rest),
        None => head_on(count - 1, before * 256, bytes),
    }
}

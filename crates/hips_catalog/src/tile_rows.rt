//! The rows of a tile.
ghost use Rattle.std.specs.Prelude.{◌≡◌, true, false, List, ◌+◌, ◌<◌, ◌≤◌, ◌^◌, ◌-◌, [], length, map, Some, IfOk, IfSome, slice_get, slice_set, slice_index_or, option_copied};
ghost use Rattle.std.specs.Arc.{arc_value};
ghost use Rattle.std.specs.List.{insert, remove};
ghost use Rattle.std.specs.declared.sync.Arc.{Arc};
ghost use Rattle.std.specs.declared.alloc.Global.{Global};
ghost use Rattle.balanced_list.specs.Search.{leading, HoldsAtFirst};
ghost use Rattle.hips_catalog.specs.Rows.{Source, is_better};
ghost use Rattle.hips_catalog.specs.Ends.{HasRank, begins_better};
ghost use Rattle.hips_catalog.specs.Tiles.{sources};

use crate::ranked::Ranked;
use crate::row::Row;
use balanced_list::{FrontedList, Item, Probe};
use std::alloc::{AllocError, Global};
use std::marker::Model;

// Whether the place of a row lies after a better one.
#[derive(Drop)]
struct Worse<'a>(&'a Row);

impl<'a> Probe<Ranked> for Worse<'a> {
    ghost use Rattle.std.specs.Arc.{arc_value};
    ghost use Rattle.hips_catalog.specs.Rows.{is_better};

    ghost past = { λ s row. is_better (arc_value row) s.0.now };

    fn is_past(&self, row: &Ranked) -> bool {
        row.is_better(self.0)
    }
}

/// Rows that several lists share, in some order. The ranks at both ends are kept beside them, so that most rows are placed
/// without a look at any of these, which are elsewhere in memory. Contracts see the shared rows.
#[derive(Drop)]
pub(crate) struct TileRows {
    list: FrontedList<Ranked>,
    // Of the first row and of the last one; they mean nothing where there are no rows.
    first: u64,
    last: u64,
}

impl Model for TileRows {
    ghost use Rattle.std.specs.Prelude.{List, length, ◌-◌};
    ghost use Rattle.std.specs.declared.sync.Arc.{Arc};
    ghost use Rattle.std.specs.declared.alloc.Global.{Global};
    ghost use Rattle.hips_catalog.specs.Rows.{Source};
    ghost use Rattle.hips_catalog.specs.Ends.{HasEnds};

    ghost Value = { List (Arc Source Global) };

    ghost view = { λ a. a.list };

    ghost invariant = { λ a. HasEnds a.list a.first a.last };
}

// The rank of row `i`; any number past the last.
fn rank_at(list: &FrontedList<Ranked>, i: usize) -> u64
    ensures { HasRank list.now i result }
{
    match list.get(i) {
        Some(row) => row.rank(),
        None => 0,
    }
}

// The rank of the first row, where it was another one before the row at place `i` was taken out.
fn first_without(list: &FrontedList<Ranked>, i: usize, before: u64) -> u64
    ensures { (rows : List (Arc Source Global)) → i < length rows → list.now ≡ remove rows i → HasRank rows 0 before → HasRank list.now 0 result }
{
    if i == 0 { rank_at(list, 0) } else { before }
}

// The rank of the last row, where it was another one before the row at place `i` was taken out.
fn last_without(list: &FrontedList<Ranked>, i: usize, before: u64) -> u64
    ensures { (rows : List (Arc Source Global)) → i < length rows → list.now ≡ remove rows i → HasRank rows (length rows - 1) before → HasRank list.now (length list.now - 1) result }
{
    if i == list.len() {
        rank_at(list, i.saturating_sub(1))
    } else {
        before
    }
}

// The place of a row among rows in order, and whether a row with its rank and id is there.
fn search(rows: &FrontedList<Ranked>, row: &Row) -> (usize, bool)
    ensures place { HoldsAtFirst (λ s. is_better s row.now) (sources rows.now) → result.0 ≡ leading (λ s. is_better s row.now) (sources rows.now) }
    ensures yes { result.1 ≡ true → (s : Source) × (slice_get (sources rows.now) result.0 ≡ Some s) × (is_better s row.now ≡ false) × (is_better row.now s ≡ false) }
    ensures no { result.1 ≡ false → ¬ (slice_get (sources rows.now) result.0 ≡ Some row.now) }
{
    let (i, there) = rows.search(&Worse(row));
    match there {
        Some(found) => (i, found.is_level(row)),
        None => (i, false),
    }
}

// Whether there is a first row, and it is better than the first of the others, which have one.
fn first_is_better(rows: &FrontedList<Ranked>, others: &FrontedList<Ranked>) -> bool
    ensures { (z : Source) → slice_get (sources others.now) 0 ≡ Some z → result ≡ begins_better (sources rows.now) z }
{
    match rows.get(0) {
        None => false,
        Some(row) => match others.get(0) {
            None => true,
            Some(other) => row.is_better(other.row()),
        },
    }
}

impl TileRows {
    /// No rows.
    pub(crate) fn new() -> TileRows
        ensures { result ≡ [] }
    {
        TileRows {
            list: FrontedList::new(),
            first: 0,
            last: 0,
        }
    }

    /// How many rows there are.
    pub(crate) fn len(&self) -> usize
        ensures { result ≡ length self.now }
    {
        self.list.len()
    }

    /// Row `i`, from 0; `None` if and only if `i` is past the last.
    pub(crate) fn get(&self, i: usize) -> Option<&Ranked>
        ensures { option_copied result ≡ slice_get self.now i }
    {
        self.list.get(i)
    }

    /// The rows in order.
    ///
    /// # Errors
    ///
    /// `AllocError` where there is no memory for them.
    pub(crate) fn to_vec(&self, alloc: Global) -> Result<Vec<&Ranked>, AllocError>
        ensures { IfOk result (λ rows. map (λ row. row.now) rows.items ≡ self.now) }
    {
        self.list.to_vec(alloc)
    }

    /// Puts the row in at place `i`; those from there on move one place back.
    pub(crate) fn insert(&mut self, i: usize, row: Item<Ranked>)
        requires place { i ≤ length self.old }
        requires fits { length self.old + 1 < 2 ^ 64 }
        ensures { self.new ≡ insert self.old i row }
    {
        let rank = row.item().rank();
        if i == 0 {
            self.first = rank;
        }
        if i == self.list.len() {
            self.last = rank;
        }
        self.list.insert(i, row);
    }

    /// Takes out row `i`; those after it move one place forward.
    pub(crate) fn remove(&mut self, i: usize) -> Item<Ranked>
        requires { i < length self.old }
        ensures items { self.new ≡ remove self.old i }
        ensures item { result ≡ slice_index_or self.old i result }
    {
        let row = self.list.remove(i);
        self.first = first_without(&self.list, i, self.first);
        self.last = last_without(&self.list, i, self.last);
        row
    }

    /// Puts the row in the place of row `i`, which comes out.
    pub(crate) fn exchange(&mut self, i: usize, row: Item<Ranked>) -> Item<Ranked>
        requires { i < length self.old }
        ensures items { self.new ≡ slice_set self.old i row }
        ensures item { result ≡ slice_index_or self.old i result }
    {
        let rank = row.item().rank();
        if i == 0 {
            self.first = rank;
        }
        if i == self.list.len() - 1 {
            self.last = rank;
        }
        self.list.exchange(i, row)
    }

    /// The place of the row among these, if they are in order.
    pub(crate) fn place_of(&self, row: &Row) -> usize
        ensures place { HoldsAtFirst (λ s. is_better s row.now) (sources self.now) → result ≡ leading (λ s. is_better s row.now) (sources self.now) }
        ensures within { result ≤ length self.now }
    {
        match self.place_by_ends(row) {
            Some(at) => at,
            None => self.list.place(&Worse(row)),
        }
    }

    /// The place of the row among these, if they are in order, and whether a row with its rank and id is there.
    pub(crate) fn seek(&self, row: &Row) -> (usize, bool)
        ensures place { HoldsAtFirst (λ s. is_better s row.now) (sources self.now) → result.0 ≡ leading (λ s. is_better s row.now) (sources self.now) }
        ensures yes { result.1 ≡ true → (s : Source) × (slice_get (sources self.now) result.0 ≡ Some s) × (is_better s row.now ≡ false) × (is_better row.now s ≡ false) }
        ensures no { result.1 ≡ false → ¬ (slice_get (sources self.now) result.0 ≡ Some row.now) }
    {
        match self.place_by_ends(row) {
            Some(at) => (at, false),
            None => search(&self.list, row),
        }
    }

    // The place of a row that isn't among these, where its rank and those at the ends decide it.
    fn place_by_ends(&self, row: &Row) -> Option<usize>
        ensures place { IfSome result (λ at. HoldsAtFirst (λ s. is_better s row.now) (sources self.now) → at ≡ leading (λ s. is_better s row.now) (sources self.now)) }
        ensures within { IfSome result (λ at. at ≤ length self.now) }
        ensures other { IfSome result (λ at. ¬ (slice_get (sources self.now) at ≡ Some row.now)) }
    {
        if self.last < row.rank() {
            return Some(self.list.len());
        }
        if row.rank() < self.first {
            return Some(0);
        }
        None
    }

    /// Whether there is a first row, and it is better than the first of the others, which have one.
    pub(crate) fn begins_better(&self, others: &TileRows) -> bool
        ensures { (z : Source) → slice_get (sources others.now) 0 ≡ Some z → result ≡ begins_better (sources self.now) z }
    {
        if self.list.len() == 0 {
            return false;
        }
        if self.first < others.first {
            return true;
        }
        if others.first < self.first {
            return false;
        }
        first_is_better(&self.list, &others.list)
    }
}

//! The cover itself, which is made of all leaves and changed by one at a time.
ghost use Rattle.std.specs.Prelude.{◌≡◌, ◌≢◌, ◌<◌, ◌≤◌, ◌∷◌, ℕ, List, length, slice_get, All, IfOk, Err};
ghost use Rattle.std.specs.Map.{keys_of};
ghost use Rattle.healpix_nested.specs.Cells.{cell_count};
ghost use Rattle.coverage_moc.specs.Cover.{IsAscending, cover, leaves_under, without};
ghost use Rattle.coverage_moc.specs.CoverFile.{IsCoverFile, moc_file};

use crate::edit::{rows_with, rows_without};
use crate::file::{encode_cover, is_cover_file, read_rows};
use crate::leaves::{covered_leaves, leaf_count};
use crate::merge::push_cover;
use crate::refusal::CoverRefusal;
use leaf_store::Store;
use std::alloc::{AllocError, Global};
use std::marker::Model;
use tile_pixels::Tile;

/// The cover of a set of leaves: the ascending numbers of its cells. Contracts see it with the order of the leaves that it
/// was made with.
#[derive(Drop)]
pub struct Cover {
    top: u8,
    rows: Vec<u64>,
}

impl Model for Cover {
    ghost use Rattle.std.specs.Prelude.{◌≡◌, ◌≤◌};
    ghost use Rattle.coverage_moc.specs.Cover.{MocCover, cover, leaves_under};

    ghost Value = { MocCover };

    ghost view = { λ c. record { top = c.top; rows = c.rows.items } };

    ghost invariant = { λ c. (c.top ≤ 11) × (c.rows.items ≡ cover c.top (leaves_under c.top c.rows.items)) };
}

impl Cover {
    /// The cover of the leaves of a store.
    ///
    /// # Errors
    ///
    /// `AllocError` where there is no memory for it.
    pub fn of(alloc: Global, top: u8, leaves: &Store<Tile>) -> Result<Cover, AllocError>
        requires top { top ≤ 11 }
        requires leaves { All (λ leaf. leaf < cell_count top) (keys_of leaves.now) }
        ensures { IfOk result (λ made. made ≡ record { top = top; rows = cover top (keys_of leaves.now) }) }
    {
        let full = keys(alloc, leaves)?;
        let mut rows = Vec::new(alloc);
        push_cover(alloc, top, &full, &mut rows)?;
        Ok(Cover::of_rows(top, rows))
    }

    /// How many rows there are.
    pub fn len(&self) -> usize
        ensures { result ≡ length self.now.rows }
    {
        self.rows.len()
    }

    /// Row `i` in ascending order, from 0; `None` exactly past the last.
    pub fn at(&self, i: usize) -> Option<u64>
        ensures { result ≡ slice_get self.now.rows i }
    {
        self.rows.get(i).copied()
    }

    /// The cover of the leaves under this one's rows and of one leaf more, which may be among them.
    ///
    /// # Errors
    ///
    /// `AllocError` where there is no memory for it.
    pub fn add(&self, alloc: Global, top: u8, leaf: u64) -> Result<Cover, AllocError>
        requires top { top ≡ self.now.top }
        requires leaf { leaf < cell_count top }
        ensures { IfOk result (λ made. made ≡ record { top = top; rows = cover top (leaf ∷ leaves_under top self.now.rows) }) }
    {
        let rows = rows_with(alloc, top, &self.rows, leaf)?;
        Ok(Cover::of_rows(top, rows))
    }

    /// The cover of the leaves under this one's rows without one leaf, which need not be among them.
    ///
    /// # Errors
    ///
    /// `AllocError` where there is no memory for it.
    pub fn remove(&self, alloc: Global, top: u8, leaf: u64) -> Result<Cover, AllocError>
        requires top { top ≡ self.now.top }
        requires leaf { leaf < cell_count top }
        ensures { IfOk result (λ made. made ≡ record { top = top; rows = cover top (without leaf (leaves_under top self.now.rows)) }) }
    {
        let rows = rows_without(alloc, top, &self.rows, leaf)?;
        Ok(Cover::of_rows(top, rows))
    }

    /// The coverage file (FITS 4.0, MOC 1.1).
    ///
    /// # Errors
    ///
    /// `AllocError` where there is no memory for it.
    pub fn encode(&self, alloc: Global, top: u8) -> Result<Vec<u8>, AllocError>
        requires { top ≡ self.now.top }
        ensures { IfOk result (λ file. file.items ≡ moc_file top self.now.rows) }
    {
        encode_cover(alloc, top, &self.rows)
    }

    /// The cover whose coverage file these bytes are.
    ///
    /// # Errors
    ///
    /// `NotCover` if and only if the bytes are not the coverage file of any leaves of that order; `OutOfMemory` where they
    /// are one, and there is no memory for its rows.
    pub fn decode(alloc: Global, top: u8, bytes: &[u8]) -> Result<Cover, CoverRefusal>
        requires least { 3 ≤ top }
        requires greatest { top ≤ 11 }
        ensures top { IfOk result (λ read. read.top ≡ top) }
        ensures file { IfOk result (λ read. moc_file top read.rows ≡ bytes.now) }
        ensures cover { IfOk result (λ read. read.rows ≡ cover top (leaves_under top read.rows)) }
        ensures exact { (leaves : List ℕ) → moc_file top (cover top leaves) ≡ bytes.now → IfOk result (λ read. read.rows ≡ cover top leaves) }
        ensures refused { result ≡ Err CoverRefusal.NotCover → (leaves : List ℕ) → moc_file top (cover top leaves) ≢ bytes.now }
        ensures memory { result ≡ Err CoverRefusal.OutOfMemory → IsCoverFile top bytes.now }
    {
        let is_cover = is_cover_file(top, bytes);
        if !is_cover {
            return Err(CoverRefusal::NotCover);
        }
        let rows = read_rows(alloc, top, bytes)?;
        Ok(Cover::of_rows(top, rows))
    }

    /// How many leaves there are under the rows.
    pub fn leaves(&self, top: u8) -> u64
        requires { top ≡ self.now.top }
        ensures { result ≡ length (leaves_under top self.now.rows) }
    {
        leaf_count(top, &self.rows)
    }

    /// The numbers of the leaves under the rows, ascending.
    ///
    /// # Errors
    ///
    /// `AllocError` where there is no memory for them.
    pub fn leaf_list(&self, alloc: Global, top: u8) -> Result<Vec<u64>, AllocError>
        requires top { top ≡ self.now.top }
        requires few { length (leaves_under top self.now.rows) ≤ 65000 }
        ensures { IfOk result (λ leaves. leaves.items ≡ leaves_under top self.now.rows) }
    {
        covered_leaves(alloc, top, &self.rows)
    }

    // The cover that has these rows.
    fn of_rows(top: u8, rows: Vec<u64>) -> Cover
        requires top { top ≤ 11 }
        requires rows { rows.items ≡ cover top (leaves_under top rows.items) }
        ensures { result ≡ record { top = top; rows = rows.items } }
    {
        Cover { top, rows }
    }
}

// The leaf numbers of a store, ascending.
pub(crate) fn keys(alloc: Global, leaves: &Store<Tile>) -> Result<Vec<u64>, AllocError>
    ensures keys { IfOk result (λ numbers. numbers.items ≡ keys_of leaves.now) }
    ensures ascending { IsAscending (keys_of leaves.now) }
{
    let mut numbers = Vec::with_capacity(alloc, leaves.len())?;
    for (leaf, _) in leaves.iter() {
        numbers.push(leaf)?;
    }
    Ok(numbers)
}

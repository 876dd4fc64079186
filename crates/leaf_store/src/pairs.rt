//! The pairs of a store, one after another.
ghost use Rattle.std.specs.Prelude.{◌≡◌, ◌<◌, [], ◌++◌, length, IfSome, Some, MatchOption};
ghost use Rattle.std.specs.Iterator.{YieldsFirstBy, item_count, at_most, UpTo};
ghost use Rattle.std.specs.Iterator.SizeHint.{IsWithinCount};
ghost use Rattle.std.specs.Arc.{arc_value};
ghost use Rattle.leaf_store.specs.Chunks.{slots_pairs};
ghost use Rattle.leaf_store.specs.Tree.{page_pairs, group_pairs, AllPages, AllGroups};

use crate::page::Page;
use crate::slot::Slot;
use crate::store::Group;
use std::marker::Model;
use std::sync::Arc;

/// The pairs of a store by ascending key. Contracts see the list of those that are left.
#[derive(Drop)]
pub struct Pairs<'a, T> {
    groups: &'a [Slot<Group<T>>],
    pages: &'a [Slot<Page<T>>],
    pairs: &'a [(u64, Arc<T>)],
    left: usize,
}

impl<'a, T> Model for Pairs<'a, T> {
    ghost use Rattle.std.specs.Prelude.{◌≡◌, ℕ, List, ◌++◌, length};
    ghost use Rattle.leaf_store.specs.Entries.{pairs_of};
    ghost use Rattle.leaf_store.specs.Chunks.{slots_pairs};
    ghost use Rattle.leaf_store.specs.Tree.{page_pairs, group_pairs, AllPages, AllGroups};

    ghost Value = { List (ℕ × T) };

    ghost view = { λ p. pairs_of p.pairs.now ++ (slots_pairs page_pairs p.pages.now ++ slots_pairs group_pairs p.groups.now) };

    ghost invariant = { λ p. (p.left ≡ length (pairs_of p.pairs.now ++ (slots_pairs page_pairs p.pages.now ++ slots_pairs group_pairs p.groups.now))) × AllPages p.pages.now × AllGroups p.groups.now };
}

impl<'a, T> Pairs<'a, T> {
    /// The pairs of these groups, of which there are so many.
    pub(crate) fn new(groups: &'a [Slot<Group<T>>], count: usize) -> Pairs<'a, T>
        requires right { AllGroups groups.now }
        requires count { count ≡ length (slots_pairs group_pairs groups.now) }
        ensures { result ≡ slots_pairs group_pairs groups.now }
    {
        Pairs {
            groups,
            pages: &[],
            pairs: &[],
            left: count,
        }
    }
}

// A page, and what follows it.
#[derive(Drop)]
struct Turn<'a, T> {
    groups: &'a [Slot<Group<T>>],
    pages: &'a [Slot<Page<T>>],
    page: &'a Page<T>,
}

// The next page of these pages, and else of the groups.
fn next_page<'a, T>(groups: &'a [Slot<Group<T>>], pages: &'a [Slot<Page<T>>]) -> Option<Turn<'a, T>>
    requires groups { AllGroups groups.now }
    requires pages { AllPages pages.now }
    ensures pairs { MatchOption result (slots_pairs page_pairs pages.now ++ slots_pairs group_pairs groups.now ≡ []) (λ turn. slots_pairs page_pairs pages.now ++ slots_pairs group_pairs groups.now ≡ page_pairs turn.page.now ++ (slots_pairs page_pairs turn.pages.now ++ slots_pairs group_pairs turn.groups.now)) }
    ensures some { IfSome result (λ turn. 0 < length (page_pairs turn.page.now)) }
    ensures groups { IfSome result (λ turn. AllGroups turn.groups.now) }
    ensures pages { IfSome result (λ turn. AllPages turn.pages.now) }
{
    match pages.split_first() {
        Some((slot, rest)) => Some(Turn {
            groups,
            pages: rest,
            page: &slot.chunk,
        }),
        None => match groups.split_first() {
            Some((group, later)) => match group.chunk.slots.split_first() {
                Some((slot, rest)) => Some(Turn {
                    groups: later,
                    pages: rest,
                    page: &slot.chunk,
                }),
                None => None,
            },
            None => None,
        },
    }
}

impl<'a, T> Iterator for Pairs<'a, T> {
    type Item = (u64, &'a Arc<T>);

    ghost next_gives = { YieldsFirstBy (λ pair. (pair.0, arc_value pair.1.now)) (λ left. left) };

    ghost remaining = { item_count (λ left. left) };

    fn next(&mut self) -> Option<(u64, &'a Arc<T>)> {
        match self.pairs.split_first() {
            Some((pair, rest)) => {
                self.pairs = rest;
                self.left -= 1;
                Some((pair.0, &pair.1))
            }
            None => {
                let turn = next_page(self.groups, self.pages)?;
                let (pair, rest) = turn.page.pairs.split_first()?;
                self.groups = turn.groups;
                self.pages = turn.pages;
                self.pairs = rest;
                self.left -= 1;
                Some((pair.0, &pair.1))
            }
        }
    }

    fn size_hint(&self) -> (usize, Option<usize>)
        ensures lower { IsWithinCount result.0 (at_most (length self.now)) }
        ensures upper { IfSome result.1 (UpTo (at_most (length self.now))) }
        ensures exact { result ≡ (length self.now, Some (length self.now)) }
    {
        (self.left, Some(self.left))
    }
}

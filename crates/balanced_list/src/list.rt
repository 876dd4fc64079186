//! The list, as a tree each of whose nodes knows how many items its two sides have.
ghost use Rattle.std.specs.Prelude.{◌≡◌, ℕ, ◌+◌, ◌<◌, ◌≤◌, ◌^◌, [], ◌∷◌, ◌++◌, length, option_copied, option_to_list, slice_get, slice_set, slice_index_or, map, IfNone, OnOk};
ghost use Rattle.std.specs.List.{insert, remove};
ghost use Rattle.balanced_list.specs.Search.{leading, HoldsAtFirst};
ghost use Rattle.balanced_list.specs.Tree.{node_items, tree_items};

use crate::balance::{Fork, Tree, balanced};
use crate::item::Item;
use std::alloc::AllocError;
use std::marker::Model;
use std::mem;

/// A test that the first items of a list meet, and no others.
pub trait Probe<T> {
    ghost use Rattle.std.specs.Prelude.{Bool};

    ghost past: { Self → T → Bool };

    /// Whether the place that is sought lies after this item.
    fn is_past(&self, item: &T) -> bool
        ensures { result ≡ past self.now item.now };
}

/// A list in balance. Contracts see its items.
#[cycle(list)]
#[derive(Drop)]
pub struct BalancedList<T> {
    tree: Tree<T>,
    // Beside the tree, so that the sides of a node are counted without a look at their nodes, which are elsewhere in memory.
    len: usize,
}

impl<T> Model for BalancedList<T> {
    ghost use Rattle.std.specs.Prelude.{List, length};
    ghost use Rattle.std.proofs.Common.{arith, length-append};

    ghost Value = { List T };

    ghost use Rattle.balanced_list.specs.Tree.{tree_items, IsCounted};

    ghost view = { λ a. tree_items a.tree };

    ghost invariant = { λ a. IsCounted a.tree a.len };

    ghost size = { length };

    ghost size_decreases = { λ a h. Prim.grind (arith, length-append) };
}

#[tactic(auto, using(crate::proofs::Parts::parts))]
impl<T: Drop> BalancedList<T> {
    /// The empty list.
    pub fn new() -> BalancedList<T>
        ensures { result ≡ [] }
    {
        BalancedList {
            tree: Tree::Empty,
            len: 0,
        }
    }

    /// How many items there are.
    pub fn len(&self) -> usize
        ensures { result ≡ length self.now }
    {
        self.len
    }

    /// Item `i`, from 0; `None` exactly past the last.
    pub fn get(&self, i: usize) -> Option<&T>
        ensures { option_copied result ≡ slice_get self.now i }
    {
        match &self.tree {
            Tree::Empty => None,
            Tree::Fork(node) => {
                let middle = node.left.len();
                if i < middle {
                    node.left.get(i)
                } else if i == middle {
                    Some(&node.item)
                } else {
                    node.right.get(i - middle - 1)
                }
            }
        }
    }

    /// How many items at the beginning meet the test, where no item meets it after one that doesn't.
    pub fn place<P: Probe<T>>(&self, probe: &P) -> usize
        ensures leading { HoldsAtFirst (P.past probe.now) self.now → result ≡ leading (P.past probe.now) self.now }
        ensures within { result ≤ length self.now }
    {
        let (place, _there) = self.search(probe);
        place
    }

    /// What `place` answers, and the item that stands there, if one does.
    pub fn search<P: Probe<T>>(&self, probe: &P) -> (usize, Option<&T>)
        ensures leading { HoldsAtFirst (P.past probe.now) self.now → result.0 ≡ leading (P.past probe.now) self.now }
        ensures within { result.0 ≤ length self.now }
        ensures item { option_copied result.1 ≡ slice_get self.now result.0 }
    {
        // For the prover: a length fits 64 bits.
        let _len = self.len();
        let mut part = self;
        let mut before = 0;
        let mut there = None;
        'down: while let Tree::Fork(node) = &part.tree {
            if probe.is_past(&node.item) {
                before += node.left.len() + 1;
                part = &node.right;
            } else {
                there = Some(&node.item);
                part = &node.left;
            }
        }
        (before, there)
    }

    /// Appends the items in order.
    pub(crate) fn push_all<'a>(&'a self, items: &mut Vec<&'a T>) -> Result<(), AllocError>
        ensures { OnOk result (map (λ item. item.now) items.new.items ≡ map (λ item. item.now) items.old.items ++ self.now) }
    {
        match &self.tree {
            Tree::Empty => Ok(()),
            Tree::Fork(node) => {
                node.left.push_all(items)?;
                items.push(&node.item)?;
                node.right.push_all(items)
            }
        }
    }

    /// Exchanges item `i` for the one that is passed.
    pub fn swap(&mut self, i: usize, item: &mut T)
        requires { i < length self.old }
        ensures items { self.new ≡ slice_set self.old i item.old }
        ensures item { item.new ≡ slice_index_or self.old i item.new }
    {
        match &mut self.tree {
            Tree::Empty => unreachable!(),
            Tree::Fork(node) => {
                let middle = node.left.len();
                if i < middle {
                    node.left.swap(i, item);
                    return;
                }
                if i == middle {
                    mem::swap(&mut node.item, item);
                    return;
                }
                node.right.swap(i - middle - 1, item);
            }
        }
    }

    /// Puts the item in the place of item `i`, which comes out.
    pub fn exchange(&mut self, i: usize, item: Item<T>) -> Item<T>
        requires { i < length self.old }
        ensures items { self.new ≡ slice_set self.old i item }
        ensures item { result ≡ slice_index_or self.old i result }
    {
        let mut node = item.into_node();
        self.swap(i, &mut node.item);
        Item::alone(node)
    }

    /// Puts the item in at place `i`; those from there on stand one place later.
    pub fn insert(&mut self, i: usize, item: Item<T>)
        requires place { i ≤ length self.old }
        requires fits { length self.old + 1 < 2 ^ 64 }
        ensures { self.new ≡ insert self.old i item }
    {
        match mem::replace(self, BalancedList::new()).opened() {
            Tree::Empty => *self = BalancedList::closed(item.into_node()),
            Tree::Fork(mut node) => {
                let middle = node.left.len();
                if i <= middle {
                    node.left.insert(i, item);
                    *self = BalancedList::rebuilt(node);
                    return;
                }
                node.right.insert(i - middle - 1, item);
                *self = BalancedList::rebuilt(node);
            }
        }
    }

    /// Puts the item in before all others, and leaves the list out of balance.
    pub(crate) fn push_first(&mut self, item: Item<T>)
        requires fits { length self.old + 1 < 2 ^ 64 }
        ensures { self.new ≡ item ∷ self.old }
    {
        let mut node = item.into_node();
        node.right = mem::replace(self, BalancedList::new());
        *self = BalancedList::closed(node);
    }

    /// Takes out item `i`; those after it stand one place sooner.
    pub fn remove(&mut self, i: usize) -> Item<T>
        requires { i < length self.old }
        ensures items { self.new ≡ remove self.old i }
        ensures item { result ≡ slice_index_or self.old i result }
    {
        match mem::replace(self, BalancedList::new()).opened() {
            Tree::Empty => unreachable!(),
            Tree::Fork(mut node) => {
                let middle = node.left.len();
                if i < middle {
                    let item = node.left.remove(i);
                    *self = BalancedList::rebuilt(node);
                    return item;
                }
                if i > middle {
                    let item = node.right.remove(i - middle - 1);
                    *self = BalancedList::rebuilt(node);
                    return item;
                }
                let left = mem::replace(&mut node.left, BalancedList::new());
                let right = mem::replace(&mut node.right, BalancedList::new());
                *self = joined(left, right);
                Item::alone(node)
            }
        }
    }

    // Takes out the first item, if there is one.
    fn take_first(&mut self) -> Option<Item<T>>
        ensures items { self.old ≡ option_to_list result ++ self.new }
        ensures none { IfNone result (self.old ≡ []) }
    {
        match mem::replace(self, BalancedList::new()).opened() {
            Tree::Empty => None,
            Tree::Fork(mut node) => match node.left.take_first() {
                Some(first) => {
                    *self = BalancedList::rebuilt(node);
                    Some(first)
                }
                None => {
                    *self = mem::replace(&mut node.right, BalancedList::new());
                    Some(Item::alone(node))
                }
            },
        }
    }

    /// The nodes, for the work on them.
    pub(crate) fn opened(self) -> Tree<T>
        ensures items { tree_items result ≡ self }
        ensures fits { length (tree_items result) < 2 ^ 64 }
    {
        self.tree
    }

    /// A list of the node and all below it.
    pub(crate) fn closed(node: Box<Fork<T>>) -> BalancedList<T>
        requires fits { length (node_items node.value) < 2 ^ 64 }
        ensures { result ≡ node_items node.value }
    {
        let len = node.left.len() + 1 + node.right.len();
        BalancedList {
            tree: Tree::Fork(node),
            len,
        }
    }

    // A list of the node and all below it, in balance.
    fn rebuilt(node: Box<Fork<T>>) -> BalancedList<T>
        requires fits { length (node_items node.value) < 2 ^ 64 }
        ensures { result ≡ node_items node.value }
    {
        BalancedList::closed(balanced(node))
    }
}

// One list after the other, in balance, where one item between them was taken out.
fn joined<T: Drop>(left: BalancedList<T>, mut right: BalancedList<T>) -> BalancedList<T>
    requires { length left + length right < 2 ^ 64 }
    ensures { result ≡ left ++ right }
{
    match right.take_first() {
        None => left,
        Some(first) => {
            let mut node = first.into_node();
            node.left = left;
            node.right = right;
            BalancedList::rebuilt(node)
        }
    }
}

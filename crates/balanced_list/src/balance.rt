//! The nodes of the tree, and how they are kept in balance: the weight of a side, one more than its items, is at most three
//! times that of the other side.
ghost use Rattle.std.specs.Prelude.{◌≡◌, ℕ, ◌+◌, ◌<◌, ◌≤◌, ◌^◌, [], ◌∷◌, ◌++◌, length};
ghost use Rattle.balanced_list.specs.Tree.{node_items, tree_items};

use crate::list::BalancedList;
use std::mem;

/// A node with all below it, or none.
#[cycle(list)]
#[derive(Drop)]
pub(crate) enum Tree<T> {
    Empty,
    Fork(Box<Fork<T>>),
}

/// An item with those before it and those after it.
#[cycle(list)]
#[derive(Drop)]
pub(crate) struct Fork<T> {
    pub(crate) left: BalancedList<T>,
    pub(crate) item: T,
    pub(crate) right: BalancedList<T>,
}

// Puts the top of the left side above the node.
fn raise_left<T: Drop>(mut node: Box<Fork<T>>) -> Box<Fork<T>>
    requires fits { length (node_items node.value) < 2 ^ 64 }
    ensures items { node_items result.value ≡ node_items node.value }
{
    match mem::replace(&mut node.left, BalancedList::new()).opened() {
        Tree::Empty => node,
        Tree::Fork(mut top) => {
            node.left = mem::replace(&mut top.right, BalancedList::new());
            top.right = BalancedList::closed(node);
            top
        }
    }
}

// Puts the top of the right side above the node.
fn raise_right<T: Drop>(mut node: Box<Fork<T>>) -> Box<Fork<T>>
    requires fits { length (node_items node.value) < 2 ^ 64 }
    ensures items { node_items result.value ≡ node_items node.value }
{
    match mem::replace(&mut node.right, BalancedList::new()).opened() {
        Tree::Empty => node,
        Tree::Fork(mut top) => {
            node.right = mem::replace(&mut top.left, BalancedList::new());
            top.left = BalancedList::closed(node);
            top
        }
    }
}

// Whether a side is so much heavier than the other that the node is out of balance.
fn outweighs(heavy: usize, light: usize) -> bool {
    heavy / 3 > light
}

// Whether the inner part of a heavy side is too heavy to change sides whole.
fn is_cut(inner: usize, outer: usize) -> bool {
    inner - inner / 2 > outer
}

// A heavy left side, with its inner part cut in two where that is too heavy.
fn ready_left<T: Drop>(side: BalancedList<T>) -> BalancedList<T>
    ensures { result ≡ side }
{
    match side.opened() {
        Tree::Empty => BalancedList::new(),
        Tree::Fork(node) => {
            if is_cut(node.right.len(), node.left.len()) {
                BalancedList::closed(raise_right(node))
            } else {
                BalancedList::closed(node)
            }
        }
    }
}

// A heavy right side, with its inner part cut in two where that is too heavy.
fn ready_right<T: Drop>(side: BalancedList<T>) -> BalancedList<T>
    ensures { result ≡ side }
{
    match side.opened() {
        Tree::Empty => BalancedList::new(),
        Tree::Fork(node) => {
            if is_cut(node.left.len(), node.right.len()) {
                BalancedList::closed(raise_left(node))
            } else {
                BalancedList::closed(node)
            }
        }
    }
}

/// The node in balance, of sides that were in balance before one item was put in or taken out.
pub(crate) fn balanced<T: Drop>(mut node: Box<Fork<T>>) -> Box<Fork<T>>
    requires fits { length (node_items node.value) < 2 ^ 64 }
    ensures items { node_items result.value ≡ node_items node.value }
{
    let left = node.left.len();
    let right = node.right.len();
    if outweighs(left, right) {
        node.left = ready_left(mem::replace(&mut node.left, BalancedList::new()));
        raise_left(node)
    } else if outweighs(right, left) {
        node.right = ready_right(mem::replace(&mut node.right, BalancedList::new()));
        raise_right(node)
    } else {
        node
    }
}

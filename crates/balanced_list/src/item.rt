//! An item with the memory of its place.
ghost use Rattle.std.specs.Prelude.{◌≡◌, ◌∷◌, [], IfOk};
ghost use Rattle.balanced_list.specs.Tree.{IsSingle};

use crate::balance::Fork;
use crate::list::BalancedList;
use std::alloc::{AllocError, Global};
use std::marker::Model;

/// An item that can be put into a list. Contracts see the item alone.
#[derive(Drop)]
pub struct Item<T> {
    pub(crate) node: Box<Fork<T>>,
}

impl<T> Model for Item<T> {
    ghost use Rattle.balanced_list.specs.Tree.{IsSingle};

    ghost Value = { T };

    ghost view = { λ a. a.node.value.item };

    ghost invariant = { λ a. IsSingle a.node.value };
}

impl<T> Item<T> {
    /// The item itself.
    pub fn item(&self) -> &T
        ensures { result.now ≡ self.now }
    {
        &self.node.item
    }

    /// The item of a node whose sides were taken out.
    pub(crate) fn alone(node: Box<Fork<T>>) -> Item<T>
        requires before { node.value.left ≡ [] }
        requires after { node.value.right ≡ [] }
        ensures { result ≡ node.value.item }
    {
        Item { node }
    }

    /// The node of the item alone.
    pub(crate) fn into_node(self) -> Box<Fork<T>>
        ensures single { IsSingle result.value }
        ensures item { result.value.item ≡ self }
    {
        self.node
    }
}

impl<T: Drop> Item<T> {
    /// An item with its memory.
    ///
    /// # Errors
    ///
    /// `AllocError` where there is no memory for it; it is then let go.
    pub fn new(alloc: Global, item: T) -> Result<Item<T>, AllocError>
        ensures { IfOk result (λ made. made ≡ item) }
    {
        let node = Box::new(
            alloc,
            Fork {
                left: BalancedList::new(),
                item,
                right: BalancedList::new(),
            },
        )?;
        Ok(Item { node })
    }

    /// Another item in the same memory.
    pub fn set(&mut self, item: T)
        ensures { self.new ≡ item }
    {
        self.node.item = item;
    }
}

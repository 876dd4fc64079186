//! A cell of the sphere: its order and its number, its kin above and below, and its number among those of all orders.
ghost use Rattle.std.specs.Prelude.{ℕ, ◌≡◌, ◌≢◌, ◌+◌, ◌-◌, ◌*◌, ◌/◌, ◌^◌, ◌<◌, ◌≤◌, ◌↔◌, IsSome, IfSome, IsNone};
ghost use Rattle.healpix_nested.specs.Cells.{IsCell, cell_count, uniq_number};

use std::fmt;
use std::marker::Model;

/// The greatest order of a cell.
pub const MAX_ORDER: u8 = 20;

/// A cell of the sphere: an order from 0 to 20, and a number below `12·4^order` in the nested scheme.
/// Cells are ordered by order and then by number.
#[derive(Clone, Copy, Debug, PartialEq, Eq, PartialOrd, Ord, Hash)]
pub struct Cell {
    order: u8,
    npix: u64,
}

impl Model for Cell {
    ghost use Rattle.healpix_nested.specs.Cells.{NestedCell, IsCell};

    ghost Value = { NestedCell };

    ghost view = { λ c. record { order = c.order; npix = c.npix } };

    ghost invariant = { λ c. IsCell c.order c.npix };

    ghost inverse = { λ v. record { order = v.order; npix = v.npix } };
}

/// How many cells an order has: `12·4^order`.
pub fn cells(order: u8) -> u64
    requires { order ≤ 20 }
    ensures { result ≡ cell_count order }
{
    12 << (2 * order)
}

impl Cell {
    /// The cell of that order and number; `None` if and only if there is none.
    pub fn new(order: u8, npix: u64) -> Option<Cell>
        ensures known { IsSome result ↔ IsCell order npix }
        ensures cell { IfSome result (λ cell. (cell.order ≡ order) × (cell.npix ≡ npix)) }
    {
        if order <= MAX_ORDER && npix < cells(order) {
            Some(Cell { order, npix })
        } else {
            None
        }
    }

    /// The order, from 0 to 20.
    pub fn order(self) -> u8
        ensures order { result ≡ self.order }
        ensures known { IsCell self.order self.npix }
    {
        self.order
    }

    /// The number within the order.
    pub fn npix(self) -> u64
        ensures npix { result ≡ self.npix }
        ensures known { IsCell self.order self.npix }
    {
        self.npix
    }

    /// The cell of the order above that this one lies under; `None` exactly at order 0.
    pub fn parent(self) -> Option<Cell>
        ensures top { IsNone result ↔ (self.order ≡ 0) }
        ensures order { IfSome result (λ cell. cell.order + 1 ≡ self.order) }
        ensures npix { IfSome result (λ cell. cell.npix ≡ self.npix / 4) }
    {
        if self.order == 0 {
            None
        } else {
            Some(Cell {
                order: self.order - 1,
                npix: self.npix / 4,
            })
        }
    }

    /// Child `i` of the four: number `4·npix + i` of the next order.
    pub fn child(self, i: u8) -> Cell
        requires order { self.order < 20 }
        requires i { i < 4 }
        ensures order { result.order ≡ self.order + 1 }
        ensures npix { result.npix ≡ 4 * self.npix + i }
    {
        Cell {
            order: self.order + 1,
            npix: 4 * self.npix + u64::from(i),
        }
    }

    /// The cell of an order at most this one's that this cell lies under.
    pub fn ancestor(self, order: u8) -> Cell
        requires { order ≤ self.order }
        ensures order { result.order ≡ order }
        ensures npix { result.npix ≡ self.npix / 4 ^ (self.order - order) }
    {
        Cell {
            order,
            npix: self.npix >> (2 * (self.order - order)),
        }
    }

    /// The number of the cell among those of all orders: `4·4^order + npix` (MOC 1.1, NUNIQ).
    pub fn uniq(self) -> u64
        ensures { result ≡ uniq_number self.order self.npix }
    {
        (4 << (2 * self.order)) + self.npix
    }

    /// The cell with that `uniq`; `None` if and only if no cell has it.
    pub fn from_uniq(uniq: u64) -> Option<Cell>
        ensures cell { IfSome result (λ cell. uniq_number cell.order cell.npix ≡ uniq) }
        ensures none { IsNone result → (order npix : ℕ) → IsCell order npix → uniq_number order npix ≢ uniq }
        ensures inverse { (order npix : ℕ) → IsCell order npix → uniq_number order npix ≡ uniq → result ≡ Some (record { order = order; npix = npix }) }
    {
        if uniq < 4 {
            return None;
        }
        let order = ((uniq.ilog2() - 2) / 2) as u8;
        Cell::new(order, uniq - (4 << (2 * order)))
    }
}

impl fmt::Display for Cell {
    ghost use Rattle.std.specs.Prelude.{Some, decimal, codes, ◌++◌};

    ghost output = { λ c. Some (decimal c.order ++ codes "/" ++ decimal c.npix) };

    fn fmt<W: fmt::Write>(&self, f: &mut fmt::Formatter<W>) -> fmt::Result {
        let order = self.order;
        let npix = self.npix;
        write!(f, "{order}/{npix}")
    }
}

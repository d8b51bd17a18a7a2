//! The four orders, and what is compared.

ghost use Rattle.std.specs.Prelude.{◌≡◌, IsTrue};
ghost use Rattle.isl_orders.specs.Comparison.{direction_of, has_same};

use isl_blocks::Direction;

/// How elements are ordered.
#[derive(Clone, Copy)]
pub(crate) enum Order {
    /// The first is less.
    Less,
    /// The first is not greater.
    UpTo,
    /// The first is greater.
    Greater,
    /// The first is not less.
    DownTo,
}

/// What is compared.
#[derive(Clone, Copy)]
pub(crate) enum Operands {
    /// Elements of sets.
    Sets,
    /// Images of maps.
    Maps,
}

/// An order, and what is compared by it.
#[derive(Clone, Copy)]
pub(crate) struct Comparison {
    pub operands: Operands,
    pub order: Order,
}

impl Order {
    /// How those are ordered that differ.
    pub(crate) fn direction(self) -> Direction
        ensures { result ≡ direction_of self }
    {
        match self {
            Order::Less | Order::UpTo => Direction::Before,
            Order::Greater | Order::DownTo => Direction::After,
        }
    }

    /// Whether those are so ordered that are the same.
    pub(crate) fn has_same(self) -> bool
        ensures { result ≡ has_same self }
    {
        matches!(self, Order::UpTo | Order::DownTo)
    }
}

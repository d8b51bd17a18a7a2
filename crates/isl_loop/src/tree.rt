//! Trees of loops.

use isl_piece::Rows;
use isl_space::Name;
use sqlite_items::{Boxed, Items};

/// A sum of whole numbers times atoms, and a constant.
#[cycle(expr)]
#[derive(Drop)]
pub struct Expr {
    pub items: Items<Item>,
    pub constant: i128,
}

/// A whole number times an atom.
#[cycle(expr)]
#[derive(Drop)]
pub struct Item {
    pub coef: i128,
    pub atom: Atom,
}

/// What numbers are multiplied by.
#[cycle(expr)]
#[derive(Drop)]
pub enum Atom {
    /// The number at a place: those of the declared parameters come first, then those of the variables of the enclosing loops.
    Column(usize),
    /// An expression divided by a number that is at least 1, and rounded down.
    Floor(Boxed<Expr>, i128),
    /// The same rounded up.
    Ceil(Boxed<Expr>, i128),
    /// The least of two or more.
    Min(Items<Expr>),
    /// The greatest of two or more.
    Max(Items<Expr>),
}

/// What is executed.
#[derive(Drop)]
pub enum Loop {
    /// One after another.
    Block(Items<Loop>),
    /// The body for `low`, `low + step`, .. while not above `high`.
    For(Expr, Expr, i128, Boxed<Loop>),
    /// The body where all rows hold.
    If(Rows, Boxed<Loop>),
    /// A call of what has this name, with these arguments.
    Call(Option<Name>, Items<Expr>),
}

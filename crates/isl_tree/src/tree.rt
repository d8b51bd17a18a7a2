//! Trees of literals, as their notation spells them.

use isl_space::Name;
use sqlite_items::{Boxed, Items};

/// A sum of products with their signs.
pub type Term = Items<Signed>;

/// One side of a comparison: a list of terms.
pub type Side = Items<Term>;

/// How a side of a chain stands to the one before it, and that side.
pub type Link = (Compare, Side);

/// A product with its sign.
#[cycle(term)]
#[derive(Drop)]
pub struct Signed {
    pub negative: bool,
    pub product: Product,
}

/// Numbers, and at most one factor that is no number.
#[cycle(term)]
#[derive(Drop)]
pub struct Product {
    pub numbers: Items<i128>,
    pub inner: Option<Modded>,
}

/// A factor, and the divisors whose remainders are taken of it, one after the other.
#[cycle(term)]
#[derive(Drop)]
pub struct Modded {
    pub factor: Factor,
    pub moduli: Items<i128>,
}

/// What numbers are multiplied by: a name, a term in brackets, or a term divided by a number and rounded down or up.
#[cycle(term)]
#[derive(Drop)]
pub enum Factor {
    Name(Name),
    Inner(Term),
    Floor(Term, i128),
    Ceil(Term, i128),
}

/// The signs of comparison.
#[derive(Clone, Copy, PartialEq, Eq)]
pub enum Compare {
    Equal,
    Less,
    LessEqual,
    Greater,
    GreaterEqual,
    Differs,
}

/// A name that `exists` binds, and the term that it equals where one is given.
#[derive(Drop)]
pub struct Binder {
    pub name: Name,
    pub value: Option<Term>,
}

/// Chains of comparisons, and what joins them.
#[derive(Drop)]
pub enum Formula {
    Implies(Items<Formula>),
    Or(Items<Formula>),
    And(Items<Formula>),
    Not(Boxed<Formula>),
    True,
    False,
    Exists(Items<Binder>, Boxed<Formula>),
    Chain(Side, Items<Link>),
}

/// What stands at one place of a tuple.
#[derive(Drop)]
pub enum Entry {
    Plain(Term),
    Named(Name, Term),
}

/// Entries under a name that may be missing, or a pair of tuples.
#[derive(Drop)]
pub enum Tuple {
    Leaf {
        name: Option<Name>,
        entries: Items<Entry>,
    },
    Pair(Boxed<Tuple>, Boxed<Tuple>),
}

/// A piece: the tuple of a set, or both tuples of a map, and a formula.
#[derive(Drop)]
pub struct PieceTree {
    pub first: Tuple,
    pub second: Option<Tuple>,
    pub body: Option<Formula>,
}

/// Declared parameters, and pieces.
#[derive(Drop)]
pub struct Literal {
    pub params: Items<Name>,
    pub pieces: Items<PieceTree>,
}

//! Trees of statements, as their notation spells them.

use crate::tree::Literal;
use isl_space::Name;
use sqlite_items::{Boxed, Items};

/// What a statement does.
#[derive(Drop)]
pub enum Stmt {
    /// Nothing: blanks and comments.
    Empty,
    /// The name stands for the value from now on.
    Bind(Name, Expr),
    /// The value is shown.
    Show(Expr),
    /// From now on the valuations in this set alone are assumed. It is a literal that has `[]` at each of them.
    Assume(Literal),
}

/// What has a value.
#[cycle(expr)]
#[derive(Drop)]
pub enum Expr {
    Name(Name),
    Literal(Literal),
    /// Operands that operators of one precedence join, from the left.
    Row(Boxed<Expr>, Items<Link>),
    Prefix(Prefix, Boxed<Expr>),
    /// `any` source `before` sink `under` schedule: which sinks depend on which sources.
    Any(Boxed<Expr>, Boxed<Expr>, Boxed<Expr>),
    /// `last` source `before` sink `under` schedule: the latest sources alone, and the sinks that have none.
    Last(Boxed<Expr>, Boxed<Expr>, Boxed<Expr>),
    /// What follows an operand, from the left.
    Post(Boxed<Expr>, Items<Postfix>),
}

/// An operator and the operand on its right.
#[cycle(expr)]
#[derive(Drop)]
pub struct Link {
    pub operator: Binary,
    pub operand: Expr,
}

/// What follows an operand.
#[cycle(expr)]
#[derive(Drop)]
pub enum Postfix {
    /// `^-1`: the inverse of a map.
    Inverse,
    /// A map applied to this.
    Apply(Expr),
    /// The element of a list with this number.
    Item(i128),
}

/// What joins two operands.
#[derive(Clone, Copy, PartialEq, Eq)]
pub enum Binary {
    /// `=`
    Equal,
    /// `<`
    ProperSubset,
    /// `<=`
    Subset,
    /// `>`
    ProperSuperset,
    /// `>=`
    Superset,
    /// `<<`
    LexLess,
    /// `<<=`
    LexLessEqual,
    /// `>>`
    LexGreater,
    /// `>>=`
    LexGreaterEqual,
    /// `->`: each element of the left to each of the right.
    Universal,
    /// `+`
    Union,
    /// `-`
    Difference,
    /// `->-`: a difference of ranges.
    RangeDifference,
    /// `*`
    Intersection,
    /// `->*`: an intersection of ranges.
    RangeIntersection,
    /// `%`: the left, where the right is known to hold.
    Gist,
    /// `cross`
    Cross,
    /// `.`: the left, then the right.
    Join,
}

/// A word before an operand.
#[derive(Clone, Copy, PartialEq, Eq)]
pub enum Prefix {
    Domain,
    Range,
    Deltas,
    Identity,
    Wrap,
    Unwrap,
    Zip,
    DomainMap,
    RangeMap,
    LexMin,
    LexMax,
    AffineHull,
    Coalesce,
    Sample,
    Scan,
    Codegen,
    Pip,
}

/// What kind of value an expression has.
#[derive(Clone, Copy, PartialEq, Eq)]
pub enum ValueKind {
    Set,
    Map,
    /// Two maps, as `last` answers them.
    List,
    /// No element, of a set or of a map.
    Empty,
    Truth,
    /// The elements, one by one.
    Listing,
    /// Loops.
    Code,
    /// Trees of tests.
    Tree,
}

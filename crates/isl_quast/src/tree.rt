//! Trees of tests, with numbers at their leaves.

use crate::QExpr;
use sqlite_items::{Boxed, Items};

/// A tree of tests. (Feautrier, quasi-affine selection trees)
#[derive(Drop)]
pub enum Quast {
    /// There is nothing.
    Missing,
    /// These numbers.
    Leaf(Items<QExpr>),
    /// The one tree where the test is at least 0, else the other one.
    If {
        test: QExpr,
        yes: Boxed<Quast>,
        no: Boxed<Quast>,
    },
}

//! Trees of proofs.

use sqlite_items::{Boxed, Items};

/// A linear form: a coefficient for each column, and a constant.
#[derive(Drop)]
pub struct Form {
    pub coefs: Items<i128>,
    pub constant: i128,
}

/// A proof that no whole point makes all rows of a system hold and none of its outs. Rows are numbered from 0; a row that is added
/// goes last.
#[derive(Drop)]
pub enum Cert {
    /// The row is constant and false.
    False(usize),
    /// A number times a row and a number times another one are added up.
    Add(usize, i128, usize, i128, Boxed<Cert>),
    /// Two bounds with opposite forms: the form of the first is 0.
    Tie(usize, usize, Boxed<Cert>),
    /// The form of an equality is divisible by the number.
    Mod(usize, i128, Boxed<Cert>),
    /// What a number divides is divisible by each divisor of the number.
    Weaken(usize, i128, Boxed<Cert>),
    /// The form of a congruence is the modulus times a new column, the last one.
    Fresh(usize, Boxed<Cert>),
    /// The form is at least 0, or at most -1.
    Split(Form, Boxed<Cert>, Boxed<Cert>),
    /// The form leaves one of the numbers from 0 below the given one.
    Residue(Form, i128, Items<Cert>),
    /// Some row of the out fails: a part for each row of the negation of each of its rows.
    Outside(usize, Items<Cert>),
}

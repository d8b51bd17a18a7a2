//! Rows: linear forms and what is asked of them.

ghost use Rattle.std.specs.Prelude.{◌≡◌, ◌↔◌, ◌<ℤ◌, pos, length, IsTrue, IfOk, MatchResult};
ghost use Rattle.isl_math.specs.Divide.{Divides};
ghost use Rattle.isl_meter.specs.Gauge.{overflown, IsWithin};

use crate::Coefs;
use crate::form::form_at;
use isl_meter::{Int, Meter, Overflow};
use std::alloc::{AllocError, Global};

/// What a row asks of its form: to be 0, to be at least 0, to be divisible by `k`, or not to be.
#[derive(Clone, Copy, PartialEq, Eq)]
pub enum RowKind {
    Zero,
    AtLeast,
    Divides,
    NotDivides,
}

/// A constraint on the form `coefs[0] x0 + coefs[1] x1 + .. + constant`.
/// `k` is at least 1, and 1 for `Zero` and `AtLeast`.
#[derive(PartialEq, Eq, Drop)]
pub struct Row {
    pub kind: RowKind,
    pub coefs: Coefs,
    pub constant: i128,
    pub k: i128,
}

impl Row {
    pub fn new(kind: RowKind, coefs: Coefs, constant: Int, k: Int) -> Self
        ensures { result ≡ record { kind = kind; coefs = coefs; constant = constant; k = k } }
    {
        Row {
            kind,
            coefs,
            constant: constant.get(),
            k: k.get(),
        }
    }

    /// The constant of the form.
    pub fn constant(&self) -> Int
        ensures { result ≡ self.now.constant }
    {
        Int::new(self.constant)
    }

    /// What a congruence divides by; 1 for the other kinds.
    pub fn modulus(&self) -> Int
        ensures { result ≡ self.now.k }
    {
        Int::new(self.k)
    }

    pub fn set_constant(&mut self, constant: Int)
        ensures { self.new ≡ record self.old { constant = constant } }
    {
        self.constant = constant.get();
    }

    pub fn set_modulus(&mut self, k: Int)
        ensures { self.new ≡ record self.old { k = k } }
    {
        self.k = k.get();
    }

    pub fn copy(&self, alloc: Global) -> Result<Self, AllocError>
        ensures { IfOk result (λ row. row ≡ self.now) }
    {
        Ok(Row {
            kind: self.kind,
            coefs: self.coefs.copy(alloc)?,
            constant: self.constant,
            k: self.k,
        })
    }
}

impl Row {
    ghost use Rattle.isl_piece.specs.Row.{HoldsRow, IsWellFormed, IsRowWithin, FormPassesLimit};

    /// Whether the row holds at the point. Takes no memory and uses no unit.
    pub fn holds_at(&self, point: &[i128], meter: &mut Meter) -> Result<bool, Overflow>
        requires row { IsWellFormed (length point.now) self.now }
        requires within { IsRowWithin meter.old self.now }
        ensures { MatchResult result
            (λ holds. (IsTrue holds ↔ HoldsRow self.now point.now) × (meter.new ≡ meter.old))
            (λ _. FormPassesLimit meter.old self.now.coefs self.now.constant point.now × (meter.new ≡ overflown meter.old)) }
    {
        let value = form_at(self.coefs.as_slice(), self.constant(), point, meter)?;
        Ok(match self.kind {
            RowKind::Zero => value.is_zero(),
            RowKind::AtLeast => !value.is_negative(),
            RowKind::Divides => is_multiple(value, self.modulus(), meter),
            RowKind::NotDivides => !is_multiple(value, self.modulus(), meter),
        })
    }
}

/// Whether `k` divides the number.
pub(crate) fn is_multiple(number: Int, k: Int, meter: &Meter) -> bool
    requires within { IsWithin meter.now k }
    requires modulus { pos 0 <ℤ k }
    ensures { IsTrue result ↔ Divides k number }
{
    if k == Int::ONE {
        return true;
    }
    number.modulo(k, meter).is_zero()
}

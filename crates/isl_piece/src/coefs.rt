//! The coefficients of a row.

ghost use Rattle.std.specs.Prelude.{◌≡◌, ◌<◌, ◌<ℤ◌, All, pos, negsuc, [], ◌∷◌, ◌++◌, length, replicate, IsTrue, ◌↔◌, IfOk, OnOk, OnErr, slice_index_or, slice_set};
ghost use Rattle.std.specs.List.{remove};
ghost use Rattle.isl_math.specs.Dot.{scaled};
ghost use Rattle.isl_meter.specs.Gauge.{IsWithin};
ghost use Rattle.isl_piece.specs.Numbers.{divided, reduced, opposite};

use crate::numbers;
use isl_meter::{Int, Meter};
use smallvec::SmallVec;
use std::alloc::{AllocError, AllocFailed, Global};
use std::marker::Model;

/// The coefficients of a row, one for each column. Up to 8 lie in the row itself.
#[derive(Drop)]
pub struct Coefs {
    items: SmallVec<Int, 8>,
}

impl Model for Coefs {
    ghost use Rattle.std.specs.Prelude.{List, ℤ};

    ghost Value = { List ℤ };

    ghost view = { λ c. c.items.items };
}

impl PartialEq for Coefs {
    ghost use Rattle.std.specs.Cmp.{int_eq_equiv, partial_equiv_from_equiv};
    ghost use Rattle.std.specs.Cmp.Lexicographic.{pointwise, lists_per};
    ghost use Rattle.std.specs.Ordering.{int_eq};

    ghost eq = { pointwise int_eq };

    ghost laws = { lists_per (partial_equiv_from_equiv int_eq_equiv) };

    fn eq(&self, other: &Coefs) -> bool {
        self.as_slice() == other.as_slice()
    }
}

impl Eq for Coefs {
    ghost use Rattle.std.specs.Cmp.{int_eq_equiv};
    ghost use Rattle.std.specs.Cmp.Lexicographic.{lists_equiv};

    ghost laws = { lists_equiv int_eq_equiv };
}

impl Coefs {
    pub fn new(alloc: Global) -> Self
        ensures { result ≡ [] }
    {
        Coefs {
            items: SmallVec::new(alloc),
        }
    }

    /// `columns` times 0.
    pub fn zeros(alloc: Global, columns: usize) -> Result<Self, AllocError>
        ensures { IfOk result (λ coefs. coefs ≡ replicate columns (pos 0)) }
    {
        let items = SmallVec::from_elem(alloc, Int::ZERO, columns)?;
        Ok(Coefs { items })
    }

    pub fn from_slice(alloc: Global, numbers: &[Int]) -> Result<Self, AllocError>
        ensures { IfOk result (λ coefs. coefs ≡ numbers.now) }
    {
        let items = SmallVec::from_slice(alloc, numbers)?;
        Ok(Coefs { items })
    }

    pub(crate) fn from_numbers(alloc: Global, numbers: &[i128]) -> Result<Self, AllocError>
        ensures { IfOk result (λ coefs. coefs ≡ numbers.now) }
    {
        let mut coefs = Coefs::new(alloc);
        for number in numbers {
            coefs.push(Int::new(*number))?;
        }
        Ok(coefs)
    }

    pub fn copy(&self, alloc: Global) -> Result<Self, AllocError>
        ensures { IfOk result (λ coefs. coefs ≡ self.now) }
    {
        Coefs::from_slice(alloc, self.as_slice())
    }

    // The coefficients, with 0 at one more column.
    pub(crate) fn widened(&self, alloc: Global) -> Result<Self, AllocError>
        ensures { IfOk result (λ coefs. coefs ≡ self.now ++ pos 0 ∷ []) }
    {
        let mut coefs = self.copy(alloc)?;
        coefs.push(Int::ZERO)?;
        Ok(coefs)
    }

    pub fn len(&self) -> usize
        ensures { result ≡ length self.now }
    {
        self.items.len()
    }

    pub fn is_empty(&self) -> bool
        ensures { IsTrue result ↔ (self.now ≡ []) }
    {
        self.items.is_empty()
    }

    pub fn as_slice(&self) -> &[Int]
        ensures { result.now ≡ self.now }
    {
        self.items.as_slice()
    }

    pub fn get(&self, column: usize) -> Int
        requires { column < length self.now }
        ensures { result ≡ slice_index_or self.now column (pos 0) }
    {
        self.items.as_slice()[column]
    }

    pub fn set(&mut self, column: usize, number: Int)
        requires { column < length self.old }
        ensures { self.new ≡ slice_set self.old column number }
    {
        self.items.as_mut_slice()[column] = number;
    }

    pub fn push(&mut self, number: Int) -> Result<(), AllocFailed<Int>>
        ensures ok { OnOk result (self.new ≡ self.old ++ number ∷ []) }
        ensures err { OnErr result (self.new ≡ self.old) }
    {
        self.items.push(number)
    }

    /// Takes the coefficient of a column out.
    pub fn remove(&mut self, column: usize) -> Int
        requires { column < length self.old }
        ensures value { result ≡ slice_index_or self.old column (pos 0) }
        ensures rest { self.new ≡ remove self.old column }
    {
        self.items.remove(column)
    }

    pub(crate) fn divide(&mut self, g: Int, meter: &Meter)
        requires within { All (IsWithin meter.now) self.old }
        requires divisor { pos 0 <ℤ g }
        ensures { self.new ≡ divided g self.old }
    {
        numbers::divide(self.items.as_mut_slice(), g, meter);
    }

    pub(crate) fn reduce(&mut self, k: Int, meter: &Meter)
        requires within { IsWithin meter.now k }
        requires modulus { pos 0 <ℤ k }
        ensures { self.new ≡ reduced k self.old }
    {
        numbers::reduce(self.items.as_mut_slice(), k, meter);
    }

    pub(crate) fn oppose(&mut self, k: Int, meter: &Meter)
        requires numbers_within { All (IsWithin meter.now) self.old }
        requires within { IsWithin meter.now k }
        requires modulus { pos 0 <ℤ k }
        ensures { self.new ≡ opposite k self.old }
    {
        numbers::oppose(self.items.as_mut_slice(), k, meter);
    }

    pub(crate) fn negate(&mut self, meter: &Meter)
        requires { All (IsWithin meter.now) self.old }
        ensures { self.new ≡ scaled (negsuc 0) self.old }
    {
        numbers::negate(self.items.as_mut_slice(), meter);
    }
}

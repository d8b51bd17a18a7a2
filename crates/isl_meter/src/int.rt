//! Integers that clauses see as themselves, with arithmetic under a meter.

ghost use Rattle.std.specs.Prelude.{◌≡◌, ◌↔◌, pos, neg_ℤ, ◌+ℤ◌, ◌-ℤ◌, ◌*ℤ◌, ◌<ℤ◌, ◌≤ℤ◌, IsTrue};
ghost use Rattle.isl_meter.specs.Gauge.{IsWithin, IsMeasured};
ghost use Rattle.isl_math.specs.Order.{abs_of, sign_of};
ghost use Rattle.isl_math.specs.Divide.{floor_div, floor_mod, IsFloor, IsGcdOf, IsInverse};

use crate::{Meter, Overflow};
use std::marker::Model;

/// An integer of 128 bits, which clauses see as a mathematical one.
#[derive(Clone, Copy, PartialEq, Eq, PartialOrd, Ord, Hash, Default)]
pub struct Int {
    value: i128,
}

impl Model for Int {
    ghost use Rattle.std.specs.Prelude.{ℤ};

    ghost Value = { ℤ };

    ghost view = { λ s. s.value };

    ghost inverse = { λ z. record { value = z } };
}

impl Int {
    /// The number 0.
    pub const ZERO: Int = Int { value: 0 };

    /// The number 1.
    pub const ONE: Int = Int { value: 1 };

    /// The integer with this value.
    #[inline]
    pub fn new(value: i128) -> Self
        ensures { result ≡ value }
    {
        Int { value }
    }

    /// The value.
    #[inline]
    pub fn get(self) -> i128
        ensures { result ≡ self }
    {
        self.value
    }

    /// Whether it is 0.
    #[inline]
    pub fn is_zero(self) -> bool
        ensures { IsTrue result ↔ (self ≡ pos 0) }
    {
        self.value == 0
    }

    /// Whether it is below 0.
    #[inline]
    pub fn is_negative(self) -> bool
        ensures { IsTrue result ↔ (self <ℤ pos 0) }
    {
        self.value < 0
    }

    /// Whether it is above 0.
    #[inline]
    pub fn is_positive(self) -> bool
        ensures { IsTrue result ↔ (pos 0 <ℤ self) }
    {
        self.value > 0
    }

    /// `self + other`.
    ///
    /// # Errors
    ///
    /// `Overflow` where the magnitude of the result is above the limit of the meter.
    #[inline]
    pub fn add(self, other: Int, meter: &mut Meter) -> Result<Int, Overflow>
        ensures { IsMeasured meter.old meter.new (self +ℤ other) result }
    {
        let value = meter.add(self.value, other.value)?;
        Ok(Int { value })
    }

    /// `self - other`.
    ///
    /// # Errors
    ///
    /// `Overflow` where the magnitude of the result is above the limit of the meter.
    #[inline]
    pub fn sub(self, other: Int, meter: &mut Meter) -> Result<Int, Overflow>
        ensures { IsMeasured meter.old meter.new (self -ℤ other) result }
    {
        let value = meter.sub(self.value, other.value)?;
        Ok(Int { value })
    }

    /// `self` times `other`.
    ///
    /// # Errors
    ///
    /// `Overflow` where the magnitude of the result is above the limit of the meter.
    #[inline]
    pub fn mul(self, other: Int, meter: &mut Meter) -> Result<Int, Overflow>
        ensures { IsMeasured meter.old meter.new (self *ℤ other) result }
    {
        let value = meter.mul(self.value, other.value)?;
        Ok(Int { value })
    }

    /// `-self`.
    #[inline]
    pub fn neg(self, meter: &Meter) -> Int
        requires { IsWithin meter.now self }
        ensures value { result ≡ neg_ℤ self }
        ensures within { IsWithin meter.now result }
    {
        Int {
            value: meter.neg(self.value),
        }
    }

    /// The magnitude.
    #[inline]
    pub fn abs(self, meter: &Meter) -> Int
        requires { IsWithin meter.now self }
        ensures value { result ≡ abs_of self }
        ensures within { IsWithin meter.now result }
    {
        if self.value < 0 {
            self.neg(meter)
        } else {
            self
        }
    }

    /// `self` times -1, 0 or 1, the sign of `other`.
    pub fn times_sign_of(self, other: Int, meter: &Meter) -> Int
        requires { IsWithin meter.now self }
        ensures value { result ≡ sign_of other *ℤ self }
        ensures within { IsWithin meter.now result }
    {
        if other.value < 0 {
            self.neg(meter)
        } else if other.value == 0 {
            Int::ZERO
        } else {
            self
        }
    }

    /// The greatest common divisor, which is not negative.
    pub fn gcd(self, other: Int, meter: &Meter) -> Int
        requires left { IsWithin meter.now self }
        requires right { IsWithin meter.now other }
        ensures value { IsGcdOf self other result }
        ensures within { IsWithin meter.now result }
    {
        Int {
            value: meter.gcd(self.value, other.value),
        }
    }

    /// `self / k`, rounded down.
    pub fn floor_div(self, k: Int, meter: &Meter) -> Int
        requires within { IsWithin meter.now self }
        requires divisor { pos 0 <ℤ k }
        ensures floor { IsFloor self k result }
        ensures value { result ≡ floor_div self k }
        ensures within { IsWithin meter.now result }
    {
        Int {
            value: meter.floor_div(self.value, k.value),
        }
    }

    /// What `self` leaves above the greatest multiple of `k` that is not above it.
    pub fn modulo(self, k: Int, meter: &Meter) -> Int
        requires within { IsWithin meter.now k }
        requires divisor { pos 0 <ℤ k }
        ensures rest { result ≡ self -ℤ k *ℤ floor_div self k }
        ensures not_negative { pos 0 ≤ℤ result }
        ensures small { result <ℤ k }
        ensures value { result ≡ floor_mod self k }
        ensures within { IsWithin meter.now result }
    {
        Int {
            value: meter.modulo(self.value, k.value),
        }
    }

    /// The number from 0 to `k - 1` whose product with `self` leaves 1 modulo `k`; 0 for a `k` of 1.
    pub fn inverse(self, k: Int, meter: &Meter) -> Int
        requires divisor_within { IsWithin meter.now k }
        requires divisor { pos 0 <ℤ k }
        requires coprime { IsGcdOf self k (pos 1) }
        ensures value { IsInverse self k result }
        ensures within { IsWithin meter.now result }
    {
        Int {
            value: meter.inverse(self.value, k.value),
        }
    }
}

//! Linear forms over the columns of a system.

ghost use Rattle.std.specs.Prelude.{◌≡◌, ◌+◌, ◌<◌, [], pos, ◌*ℤ◌, All, length, true, IfOk, OnOk, MatchResult, slice_index_or};
ghost use Rattle.std.specs.List.{list_all};
ghost use Rattle.isl_meter.specs.Gauge.{IsWithin, IsCutBy};
ghost use Rattle.isl_affine.specs.Form.{padded, is_nil, AreSame, IsColumn, IsFormWithin, IsSumOf};

use isl_meter::{Cut, Int, Meter};
use isl_piece::{Coefs, sum_of, weighted_sum};
use std::alloc::{AllocError, Global};

/// The form `coefs[0] x0 + coefs[1] x1 + .. + constant`. A column behind the last coefficient has the coefficient 0.
#[derive(Drop)]
pub(crate) struct Form {
    pub(crate) coefs: Coefs,
    pub(crate) constant: Int,
}

/// The number 1, which is within each limit.
#[tactic(auto, using(std::proofs::lemmas::Grind::common_steps, crate::proofs::FormLaws::ones))]
pub(crate) fn one(meter: &Meter) -> Int
    ensures value { result ≡ pos 1 }
    ensures within { IsWithin meter.now result }
{
    let _limit = meter.limit();
    Int::ONE
}

/// Puts zeros behind the coefficients, up to so many.
#[tactic(auto, using(std::proofs::lemmas::Grind::common_steps, crate::proofs::FormLaws::pads))]
pub(crate) fn pad(coefs: &mut Coefs, columns: usize) -> Result<(), AllocError>
    ensures { OnOk result (coefs.new ≡ padded columns coefs.old) }
{
    for _column in 0..columns.saturating_sub(coefs.len()) {
        coefs.push(Int::ZERO)?;
    }
    Ok(())
}

fn is_nil(coef: &Int) -> bool
    ensures { result ≡ is_nil coef.now }
{
    coef.get() == 0
}

impl Form {
    /// A number.
    pub(crate) fn number(alloc: Global, constant: Int) -> Form
        ensures { result ≡ record { coefs = []; constant = constant } }
    {
        Form {
            coefs: Coefs::new(alloc),
            constant,
        }
    }

    /// A column.
    #[tactic(auto, using(std::proofs::lemmas::Grind::common_steps, crate::proofs::FormLaws::column_form))]
    pub(crate) fn column(alloc: Global, column: usize, meter: &Meter) -> Result<Form, AllocError>
        ensures { IfOk result (IsColumn meter.now column) }
    {
        let mut coefs = Coefs::zeros(alloc, column)?;
        coefs.push(one(meter))?;
        Ok(Form {
            coefs,
            constant: Int::ZERO,
        })
    }

    /// Whether it is a number.
    pub(crate) fn is_constant(&self) -> bool
        ensures { result ≡ list_all is_nil self.now.coefs }
    {
        self.coefs.as_slice().iter().all(|coef| is_nil(coef))
    }

    /// The form and `m` times another one.
    #[tactic(auto, using(std::proofs::lemmas::Grind::common_steps, isl_meter::proofs::CutLemmas::charges, crate::proofs::FormLaws::sums))]
    pub(crate) fn plus(
        self,
        alloc: Global,
        m: Int,
        other: Form,
        meter: &mut Meter,
    ) -> Result<Form, Cut>
        requires within { IsFormWithin meter.old self }
        requires other_within { IsFormWithin meter.old other }
        ensures { MatchResult result (IsSumOf meter.old meter.new self m other) (IsCutBy meter.old meter.new) }
    {
        let mut left = self.coefs;
        let mut right = other.coefs;
        pad(&mut left, right.len())?;
        pad(&mut right, left.len())?;
        let coefs = weighted_sum(alloc, Int::ONE, left.as_slice(), m, right.as_slice(), meter)?;
        let constant = sum_of(Int::ONE, self.constant, m, other.constant, meter)?;
        Ok(Form { coefs, constant })
    }
}

fn coef_at(coefs: &[Int], column: usize) -> Int
    ensures { result ≡ slice_index_or coefs.now column (pos 0) }
{
    if column < coefs.len() {
        coefs[column]
    } else {
        Int::ZERO
    }
}

/// Whether both are the same but for zeros behind them.
#[tactic(auto, using(std::proofs::lemmas::Grind::common_steps, crate::proofs::FormLaws::sames))]
pub(crate) fn are_same(left: &[Int], right: &[Int]) -> bool
    ensures { result ≡ true → AreSame left.now right.now }
{
    let columns = left.len().max(right.len());
    for i in 0..columns {
        if coef_at(left, i).get() != coef_at(right, i).get() {
            return false;
        }
    }
    true
}

/// The numbers of the coefficients.
pub(crate) fn numbers(alloc: Global, coefs: &[Int]) -> Result<Vec<i128>, AllocError>
    ensures { IfOk result (λ numbers. numbers.items ≡ coefs.now) }
{
    let mut numbers = Vec::with_capacity(alloc, coefs.len())?;
    for coef in coefs {
        numbers.push(coef.get())?;
    }
    Ok(numbers)
}

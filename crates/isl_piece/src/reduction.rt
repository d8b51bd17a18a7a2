//! The normal form of a row, made in its place.

ghost use Rattle.std.specs.Prelude.{◌≡◌, ◌≢◌, ◌++◌, ◌∷◌, [], pos, negsuc, neg_ℤ, ◌*ℤ◌, ◌<ℤ◌, All};
ghost use Rattle.std.specs.Cmp.Lexicographic.{slice_cmp};
ghost use Rattle.std.specs.Ordering.{int_cmp, is_lt};
ghost use Rattle.isl_math.specs.Divide.{floor_div, floor_mod};
ghost use Rattle.isl_math.specs.Dot.{scaled};
ghost use Rattle.isl_meter.specs.Gauge.{IsWithin};
ghost use Rattle.isl_piece.specs.Numbers.{divided, reduced, opposite, lead};
ghost use Rattle.isl_piece.specs.Row.{IsRowWithin, HasModulus};
ghost use Rattle.isl_piece.specs.Normal.{normal_zero, normal_at_least, normal_divides, normal_row, upright, opposite_row, lesser, numbers_of};
ghost use Rattle.isl_piece.specs.Outcome.{Settles};

use crate::row::is_multiple;
use crate::{Row, RowKind, numbers};
use isl_meter::{Int, Meter};

/// What is left of a row: it holds at every point, at none, or it stays as it was made.
#[derive(Clone, Copy)]
pub enum Outcome {
    Holds,
    Fails,
    Stays,
}

// The form divided by `g`, the constant rounded down.
#[tactic(auto, using(std::proofs::lemmas::Grind::common_steps, crate::proofs::NormalSteps::row_steps))]
fn divide(row: &mut Row, g: Int, meter: &Meter)
    requires within { IsRowWithin meter.now row.old }
    requires divisor { pos 0 <ℤ g }
    ensures value { row.new ≡ record row.old { coefs = divided g row.old.coefs; constant = floor_div row.old.constant g } }
    ensures within { IsRowWithin meter.now row.new }
{
    row.coefs.divide(g, meter);
    row.set_constant(row.constant().floor_div(g, meter));
}

// The first number of the form that is not 0 made positive.
#[tactic(auto, using(std::proofs::lemmas::Grind::common_steps, crate::proofs::NormalSteps::upright_steps))]
fn make_upright(row: &mut Row, meter: &Meter)
    requires kind { row.old.kind ≡ RowKind.Zero }
    requires plain { row.old.k ≡ pos 1 }
    requires within { IsRowWithin meter.now row.old }
    requires some { lead row.old.coefs ≢ pos 0 }
    ensures { row.new ≡ upright row.old.coefs row.old.constant }
{
    if numbers::lead(row.coefs.as_slice()).is_negative() {
        row.coefs.negate(meter);
        row.set_constant(row.constant().neg(meter));
    }
}

// A form that is 0.
#[tactic(auto, using(std::proofs::lemmas::Grind::common_steps, crate::proofs::NormalSteps::zero_steps))]
fn settle_zero(row: &mut Row, meter: &Meter) -> Outcome
    requires kind { row.old.kind ≡ RowKind.Zero }
    requires plain { row.old.k ≡ pos 1 }
    requires within { IsRowWithin meter.now row.old }
    ensures { Settles result row.new (normal_zero row.old.coefs row.old.constant) }
{
    let g = numbers::content(row.coefs.as_slice(), meter);
    let constant = row.constant();
    if g.is_zero() {
        return if constant.is_zero() {
            Outcome::Holds
        } else {
            Outcome::Fails
        };
    }
    if !is_multiple(constant, g, meter) {
        return Outcome::Fails;
    }
    divide(row, g, meter);
    make_upright(row, meter);
    Outcome::Stays
}

// A form that is at least 0.
#[tactic(auto, using(std::proofs::lemmas::Grind::common_steps, crate::proofs::NormalSteps::bound_steps))]
fn settle_at_least(row: &mut Row, meter: &Meter) -> Outcome
    requires kind { row.old.kind ≡ RowKind.AtLeast }
    requires plain { row.old.k ≡ pos 1 }
    requires within { IsRowWithin meter.now row.old }
    ensures { Settles result row.new (normal_at_least row.old.coefs row.old.constant) }
{
    let common = numbers::content(row.coefs.as_slice(), meter);
    if common.is_zero() {
        return if row.constant().is_negative() {
            Outcome::Fails
        } else {
            Outcome::Holds
        };
    }
    divide(row, common, meter);
    Outcome::Stays
}

// The numbers of a congruence reduced to 0 .. k - 1.
#[tactic(auto, using(std::proofs::lemmas::Grind::common_steps, crate::proofs::NormalSteps::row_steps))]
fn reduce(row: &mut Row, meter: &Meter)
    requires within { IsRowWithin meter.now row.old }
    requires modulus { pos 0 <ℤ row.old.k }
    ensures value { row.new ≡ record row.old { coefs = reduced row.old.k row.old.coefs; constant = floor_mod row.old.constant row.old.k } }
    ensures within { IsRowWithin meter.now row.new }
{
    let k = row.modulus();
    row.coefs.reduce(k, meter);
    row.set_constant(row.constant().modulo(k, meter));
}

// A form that `k` divides, or does not: the outcome is that of the first.
#[tactic(auto, using(std::proofs::lemmas::Grind::common_steps, crate::proofs::NormalSteps::congruence_steps))]
fn settle_divides(row: &mut Row, meter: &Meter) -> Outcome
    requires within { IsRowWithin meter.now row.old }
    requires modulus { pos 0 <ℤ row.old.k }
    ensures divides { Settles result (record row.new { kind = RowKind.Divides }) (normal_divides row.old.coefs row.old.constant row.old.k) }
    ensures kind { row.new.kind ≡ row.old.kind }
{
    reduce(row, meter);
    let k = row.modulus();
    let g = numbers::content_with(k, row.coefs.as_slice(), meter);
    if !is_multiple(row.constant(), g, meter) {
        return Outcome::Fails;
    }
    let quotient = k.floor_div(g, meter);
    if quotient == Int::ONE {
        return Outcome::Holds;
    }
    divide(row, g, meter);
    row.set_modulus(quotient);
    take_lesser(row, meter);
    Outcome::Stays
}

// Of a congruence and its opposite the one whose list of numbers is the lesser.
fn take_lesser(row: &mut Row, meter: &Meter)
    requires within { IsRowWithin meter.now row.old }
    requires modulus { pos 0 <ℤ row.old.k }
    ensures { row.new ≡ lesser row.old }
{
    if is_opposite_less(row, meter) {
        let k = row.modulus();
        row.coefs.oppose(k, meter);
        row.set_constant(row.constant().neg(meter).modulo(k, meter));
    }
}

// Whether the opposite of the congruence has the lesser list of numbers.
#[tactic(auto, using(std::proofs::lemmas::Grind::common_steps, crate::proofs::NormalSteps::orders))]
fn is_opposite_less(row: &Row, meter: &Meter) -> bool
    requires within { IsRowWithin meter.now row.now }
    requires modulus { pos 0 <ℤ row.now.k }
    ensures { result ≡ is_lt (slice_cmp int_cmp (numbers_of (opposite_row row.now)) (numbers_of row.now)) }
{
    let k = row.modulus();
    for number in row.coefs.as_slice() {
        let opposite = number.neg(meter).modulo(k, meter);
        if opposite != *number {
            return opposite < *number;
        }
    }
    let constant = row.constant();
    constant.neg(meter).modulo(k, meter) < constant
}

impl Outcome {
    ghost use Rattle.isl_piece.specs.declared.row.Row.{Row};
    ghost use Rattle.isl_piece.specs.Normal.{Verdict, negated};

    // The outcome of the row that holds where this one does not.
    fn negated(self) -> Outcome
        ensures { (r : Row) (v : Verdict) → r.kind ≡ RowKind.NotDivides → Settles self (record r { kind = RowKind.Divides }) v → Settles result r (negated v) }
    {
        match self {
            Outcome::Holds => Outcome::Fails,
            Outcome::Fails => Outcome::Holds,
            Outcome::Stays => Outcome::Stays,
        }
    }
}

/// Makes the row normal.
pub fn settle(row: &mut Row, meter: &Meter) -> Outcome
    requires modulus { HasModulus row.old.kind row.old.k }
    requires within { IsRowWithin meter.now row.old }
    ensures { Settles result row.new (normal_row row.old) }
{
    match row.kind {
        RowKind::Zero => settle_zero(row, meter),
        RowKind::AtLeast => settle_at_least(row, meter),
        RowKind::Divides => settle_divides(row, meter),
        RowKind::NotDivides => settle_divides(row, meter).negated(),
    }
}

//! Divisions of forms: columns that are found or defined.

ghost use Rattle.std.specs.Prelude.{◌≡◌, ◌≤◌, ◌+ℤ◌, ◌*ℤ◌, ◌<ℤ◌, pos, neg_ℤ, All, Some, length, true, IfOk, IfSome, MatchResult};
ghost use Rattle.isl_math.specs.Divide.{floor_div, floor_mod};
ghost use Rattle.isl_meter.specs.Gauge.{IsMeasured, IsCutBy, IsWithin};
ghost use Rattle.isl_piece.specs.System.{IsSystemWithin};
ghost use Rattle.isl_tree.specs.Term.{remainder_of};
ghost use Rattle.isl_affine.specs.Form.{IsDivisible, IsDivision, IsDivisionAt, IsDivisionOf, IsOver, IsSameDivision, IsStep};
ghost use Rattle.isl_affine.specs.Form.{IsLone, IsNested};

use crate::form::{Form, are_same, numbers, pad};
use isl_meter::{Cut, Int, Meter, Overflow};
use isl_piece::{Definition, System};
use std::alloc::{AllocError, Global};

// Whether a definition is that of the form divided by `k`.
#[tactic(auto, using(std::proofs::lemmas::Grind::common_steps, crate::proofs::DivisionLaws::division_of))]
fn is_division(definition: &Definition, form: &Form, k: Int) -> bool
    ensures { result ≡ true → IsDivisionOf form.now k definition.now }
{
    if definition.k != k.get() {
        return false;
    }
    if definition.constant != form.constant.get() {
        return false;
    }
    are_same(definition.coefs.as_slice(), form.coefs.as_slice())
}

// The defined column of the form divided by `k`, where there is one.
#[tactic(auto, using(std::proofs::lemmas::Grind::common_steps, crate::proofs::DivisionLaws::division_at))]
fn find(system: &System, form: &Form, k: Int) -> Option<usize>
    requires { length system.now.definitions ≤ system.now.columns }
    ensures { IfSome result (IsDivisionAt system.now form.now k) }
{
    let columns = system.columns;
    let definitions = system.definitions.as_slice();
    for i in 0..definitions.len() {
        if is_division(&definitions[i], form, k) {
            return Some(columns - definitions.len() + i);
        }
    }
    None
}

// A new column of the form divided by `k`.
#[tactic(auto, using(std::proofs::lemmas::Grind::common_steps, crate::proofs::DivisionLaws::definitions))]
fn define(
    alloc: Global,
    system: &mut System,
    form: &Form,
    k: Int,
    meter: &Meter,
) -> Result<usize, AllocError>
    requires { IsDivisible meter.now system.old form.now k }
    ensures { IfOk result (IsDivision meter.now system.old system.new form.now k) }
{
    let mut coefs = form.coefs.copy(alloc)?;
    pad(&mut coefs, system.columns)?;
    let numbers = numbers(alloc, coefs.as_slice())?;
    let column = system.define(numbers.as_slice(), form.constant.get(), k.get())?;
    Ok(column)
}

// The column of the form divided by `k`: one that is there, or a new one.
#[tactic(auto, using(std::proofs::lemmas::Grind::common_steps, crate::proofs::DivisionLaws::founds))]
fn found_or_defined(
    alloc: Global,
    system: &mut System,
    form: &Form,
    k: Int,
    meter: &Meter,
) -> Result<usize, AllocError>
    requires { IsDivisible meter.now system.old form.now k }
    ensures { IfOk result (IsDivision meter.now system.old system.new form.now k) }
{
    match find(system, form, k) {
        Some(column) => Ok(column),
        None => define(alloc, system, form, k, meter),
    }
}

// The column that has the coefficient 1, where each other one has 0.
#[tactic(auto, using(std::proofs::lemmas::Grind::common_steps, crate::proofs::NestedLaws::lones))]
fn lone_column(coefs: &[Int]) -> Option<usize>
    ensures { IfSome result (IsLone coefs.now) }
{
    let column = coefs.iter().position(|coef| coef.get() == 1)?;
    for i in 0..coefs.len() {
        if i != column && coefs[i].get() != 0 {
            return None;
        }
    }
    Some(column)
}

// The place among the definitions of the one whose column the form is, but for a number beside it.
#[tactic(auto, using(std::proofs::lemmas::Grind::common_steps, crate::proofs::NestedLaws::places))]
fn inner_definition(system: &System, form: &Form) -> Option<usize>
    ensures { IfSome result (IsNested system.now form.now) }
{
    let column = lone_column(form.coefs.as_slice())?;
    let index = column.checked_sub(system.free())?;
    (index < system.defined()).then_some(index)
}

// The number, where it is within the limit.
fn within(number: Option<i128>, meter: &Meter) -> Option<Int>
    ensures { IfSome result (λ v. (number ≡ Some v) × IsWithin meter.now v) }
{
    let number = number?;
    (number.unsigned_abs() <= meter.limit().unsigned_abs()).then_some(Int::new(number))
}

// The sum, where it is within the limit.
fn sum_within(a: Int, b: Int, meter: &Meter) -> Option<Int>
    ensures { IfSome result (λ v. (v ≡ a +ℤ b) × IsWithin meter.now v) }
{
    within(a.get().checked_add(b.get()), meter)
}

// The product, where it is within the limit.
fn product_within(a: Int, b: Int, meter: &Meter) -> Option<Int>
    ensures { IfSome result (λ v. (v ≡ a *ℤ b) × IsWithin meter.now v) }
{
    within(a.get().checked_mul(b.get()), meter)
}

// A form, and what it is divided by.
#[derive(Drop)]
struct Division {
    form: Form,
    divisor: Int,
}

// One division in place of two, where the form is `F / a + c` with a defined column for `F / a`: that of `F + a c` by `a k`.
// None for any other form, and where a number would pass the limit.
fn unnested(
    alloc: Global,
    system: &System,
    form: &Form,
    k: Int,
    meter: &Meter,
) -> Result<Option<Division>, AllocError>
    requires { IsDivisible meter.now system.now form.now k }
    ensures { IfOk result (λ found. IfSome found (λ one. IsSameDivision meter.now system.now form.now k one.form one.divisor)) }
{
    let Some(index) = inner_definition(system, form) else {
        return Ok(None);
    };
    let definition = &system.definitions.as_slice()[index];
    let a = Int::new(definition.k);
    let Some(divisor) = product_within(a, k, meter) else {
        return Ok(None);
    };
    let Some(raised) = product_within(a, form.constant, meter) else {
        return Ok(None);
    };
    let Some(constant) = sum_within(Int::new(definition.constant), raised, meter) else {
        return Ok(None);
    };
    let coefs = definition.coefs.copy(alloc)?;
    let form = Form { coefs, constant };
    Ok(Some(Division { form, divisor }))
}

// The column of the form divided by `k`, in which nested divisions are one.
#[tactic(auto, using(std::proofs::lemmas::Grind::common_steps, crate::proofs::NestedLaws::columns))]
fn column_of(
    alloc: Global,
    system: &mut System,
    form: &Form,
    k: Int,
    meter: &Meter,
) -> Result<usize, AllocError>
    requires { IsDivisible meter.now system.old form.now k }
    ensures { IfOk result (IsDivision meter.now system.old system.new form.now k) }
{
    match unnested(alloc, system, form, k, meter)? {
        Some(one) => found_or_defined(alloc, system, &one.form, one.divisor, meter),
        None => found_or_defined(alloc, system, form, k, meter),
    }
}

// The form of a form divided by `k` and rounded down.
#[tactic(auto, using(std::proofs::lemmas::Grind::common_steps, crate::proofs::DivisionLaws::quotients))]
fn quotient(
    alloc: Global,
    system: &mut System,
    form: &Form,
    k: Int,
    meter: &Meter,
) -> Result<Form, AllocError>
    requires { IsDivisible meter.now system.old form.now k }
    ensures { IfOk result (IsStep meter.now system.old system.new form.now (λ z. floor_div z k)) }
{
    if form.is_constant() {
        return Ok(Form::number(alloc, form.constant.floor_div(k, meter)));
    }
    let column = column_of(alloc, system, form, k, meter)?;
    let made = Form::column(alloc, column, meter)?;
    Ok(made)
}

/// The number, where it is within the limit.
#[tactic(auto, using(std::proofs::lemmas::Grind::common_steps, crate::proofs::DivisionLaws::measured_plus))]
pub(crate) fn measured(number: i128, meter: &mut Meter) -> Result<Int, Overflow>
    ensures { IsMeasured meter.old meter.new number result }
{
    Int::new(number).add(Int::ZERO, meter)
}

/// The form of a form divided by `k` and rounded down.
///
/// # Errors
///
/// `Overflow` where `k` is above the limit of the meter, and `NoMemory`.
#[tactic(auto, using(std::proofs::lemmas::Grind::common_steps, isl_meter::proofs::CutLemmas::charges, crate::proofs::DivisionLaws::floors))]
pub(crate) fn floor(
    alloc: Global,
    system: &mut System,
    form: &Form,
    k: i128,
    meter: &mut Meter,
) -> Result<Form, Cut>
    requires over { IsOver meter.old system.old form.now }
    requires divisor { pos 0 <ℤ k }
    ensures { MatchResult result
        (λ made. IsStep meter.old system.old system.new form.now (λ z. floor_div z k) made × (meter.new ≡ meter.old))
        (IsCutBy meter.old meter.new) }
{
    let k = measured(k, meter)?;
    let made = quotient(alloc, system, form, k, meter)?;
    Ok(made)
}

/// The form of a form divided by `k` and rounded up.
///
/// # Errors
///
/// `Overflow` where a number passes the limit of the meter, and `NoMemory`.
#[tactic(auto, using(std::proofs::lemmas::Grind::common_steps, isl_meter::proofs::CutLemmas::charges, crate::proofs::DivisionLaws::ceils))]
pub(crate) fn ceiling(
    alloc: Global,
    system: &mut System,
    form: Form,
    k: i128,
    meter: &mut Meter,
) -> Result<Form, Cut>
    requires over { IsOver meter.old system.old form }
    requires divisor { pos 0 <ℤ k }
    ensures { MatchResult result
        (λ made. IsStep meter.old system.old system.new form (λ z. neg_ℤ (floor_div (neg_ℤ z) k)) made × (meter.new ≡ meter.old))
        (IsCutBy meter.old meter.new) }
{
    let opposite = Form::number(alloc, Int::ZERO).plus(alloc, Int::new(-1), form, meter)?;
    let below = floor(alloc, system, &opposite, k, meter)?;
    let made = Form::number(alloc, Int::ZERO).plus(alloc, Int::new(-1), below, meter)?;
    Ok(made)
}

// The form of the remainder of a form by `k`.
#[tactic(auto, using(std::proofs::lemmas::Grind::common_steps, isl_meter::proofs::CutLemmas::charges, crate::proofs::DivisionLaws::rests))]
fn remainder(
    alloc: Global,
    system: &mut System,
    form: Form,
    k: i128,
    meter: &mut Meter,
) -> Result<Form, Cut>
    requires over { IsOver meter.old system.old form }
    requires divisor { pos 0 <ℤ k }
    ensures { MatchResult result
        (λ made. IsStep meter.old system.old system.new form (λ z. floor_mod z k) made × (meter.new ≡ meter.old))
        (IsCutBy meter.old meter.new) }
{
    let quotient = floor(alloc, system, &form, k, meter)?;
    let opposite = Int::ZERO.sub(Int::new(k), meter)?;
    let made = form.plus(alloc, opposite, quotient, meter)?;
    Ok(made)
}

/// The form of the remainders of a form by the moduli, one after the other.
///
/// # Errors
///
/// `Overflow` where a number passes the limit of the meter, and `NoMemory`.
#[tactic(auto, using(std::proofs::lemmas::Grind::common_steps, isl_meter::proofs::CutLemmas::charges, crate::proofs::DivisionLaws::turns))]
pub(crate) fn remainders(
    alloc: Global,
    system: &mut System,
    form: Form,
    moduli: &[i128],
    meter: &mut Meter,
) -> Result<Form, Cut>
    requires over { IsOver meter.old system.old form }
    requires divisors { All (λ k. pos 0 <ℤ k) moduli.now }
    ensures { MatchResult result
        (λ made. IsStep meter.old system.old system.new form (λ z. remainder_of z moduli.now) made × (meter.new ≡ meter.old))
        (IsCutBy meter.old meter.new) }
{
    let mut made = form;
    for i in 0..moduli.len() {
        match remainder(alloc, system, made, moduli[i], meter) {
            Ok(rest) => made = rest,
            Err(cut) => return Err(cut),
        }
    }
    Ok(made)
}

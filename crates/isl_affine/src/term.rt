//! The forms of terms.

ghost use Rattle.std.specs.Prelude.{◌≡◌, ◌*ℤ◌, true, IfOk, MatchResult};
ghost use Rattle.isl_meter.specs.Gauge.{overflown, IsCutBy};
ghost use Rattle.isl_tree.specs.Environment.{value_in};
ghost use Rattle.isl_tree.specs.Term.{factor_value, inner_value, product_of, term_value};
ghost use Rattle.isl_affine.specs.Form.{GivesForm, IsFormOf, IsReady};
ghost use Rattle.isl_affine.specs.Parts.{amount_of, inner_of, is_in, sign_of, numbers_of, IsFactorIn, IsPartIn, IsTermIn};

use crate::Scope;
use crate::division::{ceiling, floor, remainders};
use crate::form::{Form, one};
use isl_meter::{Cut, Int, Meter, Overflow};
use isl_piece::System;
use isl_space::Name;
use isl_tree::tree::{Factor, Signed};
use std::alloc::{AllocError, Global};

// A number times others.
#[tactic(auto, using(std::proofs::lemmas::Grind::common_steps, crate::proofs::TermLaws::products))]
fn times(first: Int, numbers: &[i128], meter: &mut Meter) -> Result<Int, Overflow>
    ensures { MatchResult result
        (λ v. (v ≡ first *ℤ product_of numbers.now) × (meter.new ≡ meter.old))
        (λ _. meter.new ≡ overflown meter.old) }
{
    let mut product = first;
    for i in 0..numbers.len() {
        product = product.mul(Int::new(numbers[i]), meter)?;
    }
    Ok(product)
}

fn sign(part: &Signed) -> Int
    ensures { result ≡ sign_of part.now }
{
    if part.negative {
        Int::new(-1)
    } else {
        Int::ONE
    }
}

fn numbers(part: &Signed) -> &[i128]
    ensures { result.now ≡ numbers_of part.now }
{
    part.product.numbers.as_slice()
}

// What the number of a part's factor is multiplied by.
fn amount(part: &Signed, meter: &mut Meter) -> Result<Int, Overflow>
    ensures { MatchResult result
        (λ v. (v ≡ amount_of part.now) × (meter.new ≡ meter.old))
        (λ _. meter.new ≡ overflown meter.old) }
{
    times(sign(part), numbers(part), meter)
}

// The form of a name.
#[tactic(auto, using(std::proofs::lemmas::Grind::common_steps, crate::proofs::TermLaws::names))]
fn name_form(
    alloc: Global,
    system: &System,
    name: &Name,
    scope: &Scope,
    meter: &Meter,
) -> Result<Form, AllocError>
    requires ready { IsReady meter.now scope.now system.now }
    requires known { is_in scope.now name.now ≡ true }
    ensures { IfOk result (IsFormOf meter.now scope.now system.now (λ env. value_in env name.now)) }
{
    match scope.column(name) {
        Some(column) => {
            let form = Form::column(alloc, column, meter)?;
            Ok(form)
        }
        None => unreachable!(),
    }
}

/// The form of a factor.
#[cycle(term)]
#[tactic(auto, using(std::proofs::lemmas::Grind::common_steps, isl_meter::proofs::CutLemmas::charges, crate::proofs::TermLaws::factors))]
pub(crate) fn factor_form(
    alloc: Global,
    system: &mut System,
    factor: &Factor,
    scope: &Scope,
    meter: &mut Meter,
) -> Result<Form, Cut>
    requires ready { IsReady meter.old scope.now system.old }
    requires known { IsFactorIn scope.now factor.now }
    ensures { MatchResult result
        (λ form. GivesForm meter.old scope.now system.old system.new (factor_value factor.now) form × (meter.new ≡ meter.old))
        (IsCutBy meter.old meter.new) }
{
    match factor {
        Factor::Name(name) => {
            let form = name_form(alloc, system, name, scope, meter)?;
            Ok(form)
        }
        Factor::Inner(term) => {
            let form = term_form(alloc, system, term.as_slice(), scope, meter)?;
            Ok(form)
        }
        Factor::Floor(term, k) => {
            let form = term_form(alloc, system, term.as_slice(), scope, meter)?;
            let made = floor(alloc, system, &form, *k, meter)?;
            Ok(made)
        }
        Factor::Ceil(term, k) => {
            let form = term_form(alloc, system, term.as_slice(), scope, meter)?;
            let made = ceiling(alloc, system, form, *k, meter)?;
            Ok(made)
        }
    }
}

#[cycle(term)]
#[tactic(auto, using(std::proofs::lemmas::Grind::common_steps, isl_meter::proofs::CutLemmas::charges, crate::proofs::TermLaws::parts))]
fn inner_form(
    alloc: Global,
    system: &mut System,
    part: &Signed,
    scope: &Scope,
    meter: &mut Meter,
) -> Result<Form, Cut>
    requires ready { IsReady meter.old scope.now system.old }
    requires known { IsPartIn scope.now part.now }
    ensures { MatchResult result
        (λ form. GivesForm meter.old scope.now system.old system.new (inner_value (inner_of part.now)) form × (meter.new ≡ meter.old))
        (IsCutBy meter.old meter.new) }
{
    match &part.product.inner {
        Some(modded) => {
            let form = factor_form(alloc, system, &modded.factor, scope, meter)?;
            let made = remainders(alloc, system, form, modded.moduli.as_slice(), meter)?;
            Ok(made)
        }
        None => Ok(Form::number(alloc, one(meter))),
    }
}

/// The form of a term over the columns of the system, which gets a defined column for each floor, ceiling or remainder that has
/// none.
///
/// # Errors
///
/// `Overflow` where a number passes the limit of the meter, and `NoMemory`.
#[cycle(term)]
#[tactic(auto, using(std::proofs::lemmas::Grind::common_steps, isl_meter::proofs::CutLemmas::charges, crate::proofs::TermLaws::terms))]
pub(crate) fn term_form(
    alloc: Global,
    system: &mut System,
    term: &[Signed],
    scope: &Scope,
    meter: &mut Meter,
) -> Result<Form, Cut>
    requires ready { IsReady meter.old scope.now system.old }
    requires known { IsTermIn scope.now term.now }
    ensures { MatchResult result
        (λ form. GivesForm meter.old scope.now system.old system.new (term_value term.now) form × (meter.new ≡ meter.old))
        (IsCutBy meter.old meter.new) }
{
    let mut form = Form::number(alloc, Int::ZERO);
    for part in term {
        let amount = amount(part, meter)?;
        let inner = inner_form(alloc, system, part, scope, meter)?;
        let sum = form.plus(alloc, amount, inner, meter)?;
        form = sum;
    }
    Ok(form)
}

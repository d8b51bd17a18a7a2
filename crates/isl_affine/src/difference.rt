//! Rows of forms: differences that are 0 or at least so much, and congruences.

ghost use Rattle.std.specs.Prelude.{◌≡◌, ◌<ℤ◌, ◌-ℤ◌, pos, MatchResult};
ghost use Rattle.isl_meter.specs.Gauge.{IsCutBy};
ghost use Rattle.isl_piece.specs.Row.{HasModulus, HoldsValue};
ghost use Rattle.isl_tree.specs.Term.{factor_value, term_value};
ghost use Rattle.isl_affine.specs.Form.{GivesForm, IsOver, IsReady};
ghost use Rattle.isl_affine.specs.Parts.{IsFactorIn, IsTermIn};
ghost use Rattle.isl_affine.specs.Rows.{BoundHolds, IsWithRow, Narrows};

use crate::Scope;
use crate::division::measured;
use crate::form::{Form, one, pad};
use crate::term::{factor_form, term_form};
use isl_meter::{Cut, Int, Meter};
use isl_piece::{Row, RowKind, System};
use isl_tree::tree::{Factor, Signed};
use std::alloc::Global;

/// What is asked of a difference: to be 0, to be at least 0, or to be above 0.
#[derive(Clone, Copy)]
pub(crate) enum Bound {
    Zero,
    AtLeast,
    Above,
}

/// A term less another one, and what is asked of it.
#[derive(Clone, Copy)]
pub(crate) struct Difference<'a> {
    pub(crate) greater: &'a [Signed],
    pub(crate) less: &'a [Signed],
    pub(crate) bound: Bound,
}

/// A factor, what it is divided by, and whether it has to be a multiple of that or none.
#[derive(Clone, Copy)]
pub(crate) struct Congruence<'a> {
    pub(crate) kind: RowKind,
    pub(crate) factor: &'a Factor,
    pub(crate) modulus: i128,
}

/// The system with the row of a form behind the others.
///
/// # Errors
///
/// `Overflow` where `k` is above the limit of the meter, and `NoMemory`.
#[tactic(auto, using(std::proofs::lemmas::Grind::common_steps, isl_meter::proofs::CutLemmas::charges, crate::proofs::RowLaws::pushes))]
pub(crate) fn with_row(
    alloc: Global,
    system: System,
    kind: RowKind,
    form: Form,
    k: i128,
    meter: &mut Meter,
) -> Result<System, Cut>
    requires over { IsOver meter.old system form }
    requires modulus { HasModulus kind k }
    ensures { MatchResult result
        (λ new. IsWithRow meter.old system kind k form new × (meter.new ≡ meter.old))
        (IsCutBy meter.old meter.new) }
{
    let k = measured(k, meter)?;
    let mut system = system;
    let mut coefs = form.coefs;
    pad(&mut coefs, system.columns)?;
    system.rows.push(Row::new(kind, coefs, form.constant, k))?;
    Ok(system)
}

// The form of a term less another one.
#[tactic(auto, using(std::proofs::lemmas::Grind::common_steps, isl_meter::proofs::CutLemmas::charges, crate::proofs::RowLaws::differences))]
fn difference_form(
    alloc: Global,
    system: &mut System,
    greater: &[Signed],
    less: &[Signed],
    scope: &Scope,
    meter: &mut Meter,
) -> Result<Form, Cut>
    requires ready { IsReady meter.old scope.now system.old }
    requires greater_known { IsTermIn scope.now greater.now }
    requires less_known { IsTermIn scope.now less.now }
    ensures { MatchResult result
        (λ form. GivesForm meter.old scope.now system.old system.new (λ env. term_value greater.now env -ℤ term_value less.now env) form
        × (meter.new ≡ meter.old))
        (IsCutBy meter.old meter.new) }
{
    let left = term_form(alloc, system, greater, scope, meter)?;
    let right = term_form(alloc, system, less, scope, meter)?;
    let form = left.plus(alloc, Int::new(-1), right, meter)?;
    Ok(form)
}

/// The system with the row of a difference behind the others.
///
/// # Errors
///
/// `Overflow` where a number passes the limit of the meter, and `NoMemory`.
#[tactic(auto, using(std::proofs::lemmas::Grind::common_steps, isl_meter::proofs::CutLemmas::charges, crate::proofs::RowLaws::bounds))]
pub(crate) fn with_difference(
    alloc: Global,
    system: System,
    difference: &Difference<'_>,
    scope: &Scope,
    meter: &mut Meter,
) -> Result<System, Cut>
    requires ready { IsReady meter.old scope.now system }
    requires greater_known { IsTermIn scope.now difference.now.greater.now }
    requires less_known { IsTermIn scope.now difference.now.less.now }
    ensures { MatchResult result
        (λ new. Narrows meter.old scope.now system new (λ _. λ env. BoundHolds difference.now.bound
        (term_value difference.now.greater.now env -ℤ term_value difference.now.less.now env)) × (meter.new ≡ meter.old))
        (IsCutBy meter.old meter.new) }
{
    let mut system = system;
    let form = difference_form(
        alloc,
        &mut system,
        difference.greater,
        difference.less,
        scope,
        meter,
    )?;
    match difference.bound {
        Bound::Zero => {
            let new = with_row(alloc, system, RowKind::Zero, form, 1, meter)?;
            Ok(new)
        }
        Bound::AtLeast => {
            let new = with_row(alloc, system, RowKind::AtLeast, form, 1, meter)?;
            Ok(new)
        }
        Bound::Above => {
            let unit = Form::number(alloc, one(meter));
            let less = form.plus(alloc, Int::new(-1), unit, meter)?;
            let new = with_row(alloc, system, RowKind::AtLeast, less, 1, meter)?;
            Ok(new)
        }
    }
}

/// The system with the row of a congruence behind the others.
///
/// # Errors
///
/// `Overflow` where a number passes the limit of the meter, and `NoMemory`.
#[tactic(auto, using(std::proofs::lemmas::Grind::common_steps, isl_meter::proofs::CutLemmas::charges, crate::proofs::RowLaws::congruences))]
pub(crate) fn with_congruence(
    alloc: Global,
    system: System,
    congruence: &Congruence<'_>,
    scope: &Scope,
    meter: &mut Meter,
) -> Result<System, Cut>
    requires ready { IsReady meter.old scope.now system }
    requires known { IsFactorIn scope.now congruence.now.factor.now }
    requires modulus { pos 0 <ℤ congruence.now.modulus }
    requires kind { HasModulus congruence.now.kind congruence.now.modulus }
    ensures { MatchResult result
        (λ new. Narrows meter.old scope.now system new (λ _. λ env. HoldsValue congruence.now.kind congruence.now.modulus
        (factor_value congruence.now.factor.now env)) × (meter.new ≡ meter.old))
        (IsCutBy meter.old meter.new) }
{
    let mut system = system;
    let form = factor_form(alloc, &mut system, congruence.factor, scope, meter)?;
    let new = with_row(
        alloc,
        system,
        congruence.kind,
        form,
        congruence.modulus,
        meter,
    )?;
    Ok(new)
}

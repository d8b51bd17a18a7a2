//! Comparisons as rows.

ghost use Rattle.std.specs.Prelude.{◌≡◌, ◌↔◌, ◌≤◌, ◌<◌, false, pos, length, Some, None, IfOk, MatchOption, MatchResult};
ghost use Rattle.std.specs.Prelude.{slice_index_or, ℤ, List};
ghost use Rattle.isl_meter.specs.Gauge.{IsCutBy};
ghost use Rattle.isl_piece.specs.System.{HoldsSystem, IsSystemWithin, free_columns};
ghost use Rattle.isl_tree.specs.Environment.{Environment};
ghost use Rattle.isl_tree.specs.Formula.{Compares};
ghost use Rattle.isl_tree.specs.Term.{term_value};
ghost use Rattle.isl_affine.specs.Comparison as spec;
ghost use Rattle.isl_tree.specs.Divisors.{HasDivisors};
ghost use Rattle.isl_affine.specs.Form.{IsReady};
ghost use Rattle.isl_affine.specs.Parts.{IsTermIn};
ghost use Rattle.isl_affine.specs.Rows.{congruence_kind, difference_of, Narrows};
ghost use Rattle.isl_affine.specs.Scope.{IsNumbered, IsTermKnown};

use crate::Scope;
use crate::difference::{
    Bound, Congruence, Difference, with_congruence, with_difference, with_row,
};
use crate::form::Form;
use crate::term::term_form;
use isl_meter::{Cut, Int, Meter};
use isl_piece::{RowKind, System};
use isl_tree::tree::{Compare, Factor, Signed};
use std::alloc::Global;

/// Two terms, and the sign between them.
#[derive(Clone, Copy)]
pub struct Comparison<'a> {
    pub left: &'a [Signed],
    pub compare: Compare,
    pub right: &'a [Signed],
}

fn is_equation(compare: Compare) -> bool
    ensures { result ≡ spec.is_equation compare }
{
    matches!(compare, Compare::Equal | Compare::Differs)
}

// Whether the term is the number 0.
fn is_zero(term: &[Signed]) -> bool
    ensures { result ≡ spec.is_zero term.now }
{
    match term {
        [part] if part.product.inner.is_none() => match part.product.numbers.as_slice() {
            [number] => *number == 0,
            _ => false,
        },
        _ => false,
    }
}

// The factor and the divisor of a term that is one remainder.
fn lone_remainder(term: &[Signed]) -> Option<(&Factor, i128)>
    ensures { MatchOption result (spec.lone_remainder term.now ≡ None)
        (λ found. spec.lone_remainder term.now ≡ Some (found.0.now, found.1)) }
{
    match term {
        [part] if !part.negative && part.product.numbers.is_empty() => match &part.product.inner {
            Some(modded) => match modded.moduli.as_slice() {
                [modulus] => Some((&modded.factor, *modulus)),
                _ => None,
            },
            None => None,
        },
        _ => None,
    }
}

impl Comparison<'_> {
    // The factor and the divisor of a remainder that is compared with 0 by `=` or `!=`.
    fn zero_remainder(&self) -> Option<(&Factor, i128)>
        ensures { MatchOption result (spec.zero_remainder self.now.compare self.now.left.now self.now.right.now ≡ None)
            (λ found. spec.zero_remainder self.now.compare self.now.left.now self.now.right.now ≡ Some (found.0.now, found.1)) }
    {
        if is_equation(self.compare) && is_zero(self.right) {
            return lone_remainder(self.left);
        }
        None
    }

    // The side that is to be greater, the other, and what is asked of their difference.
    fn difference(&self) -> Difference<'_>
        ensures { (result.greater.now, result.less.now, result.bound)
            ≡ difference_of self.now.compare self.now.left.now self.now.right.now }
    {
        let (greater, less, bound) = match self.compare {
            Compare::Equal | Compare::Differs => (self.left, self.right, Bound::Zero),
            Compare::Less => (self.right, self.left, Bound::Above),
            Compare::LessEqual => (self.right, self.left, Bound::AtLeast),
            Compare::Greater => (self.left, self.right, Bound::Above),
            Compare::GreaterEqual => (self.left, self.right, Bound::AtLeast),
        };
        Difference {
            greater,
            less,
            bound,
        }
    }

    /// Whether no single row tells it: it is a `!=`, and not of a remainder and 0.
    pub fn splits(&self) -> bool
        ensures { result ≡ spec.splits self.now.compare self.now.left.now self.now.right.now }
    {
        match self.compare {
            Compare::Differs => self.zero_remainder().is_none(),
            _ => false,
        }
    }
}

fn congruence_kind(compare: Compare) -> RowKind
    ensures { result ≡ congruence_kind compare }
{
    match compare {
        Compare::Differs => RowKind::NotDivides,
        _ => RowKind::Divides,
    }
}

// The system with the row of a comparison behind the others.
#[tactic(auto, using(std::proofs::lemmas::Grind::common_steps, isl_meter::proofs::CutLemmas::charges, crate::proofs::RowLaws::comparisons))]
fn compared(
    alloc: Global,
    system: System,
    comparison: &Comparison<'_>,
    scope: &Scope,
    meter: &mut Meter,
) -> Result<System, Cut>
    requires ready { IsReady meter.old scope.now system }
    requires left_known { IsTermIn scope.now comparison.now.left.now }
    requires right_known { IsTermIn scope.now comparison.now.right.now }
    requires single { spec.splits comparison.now.compare comparison.now.left.now comparison.now.right.now ≡ false }
    ensures { MatchResult result
        (λ new. Narrows meter.old scope.now system new (λ _. λ env. Compares comparison.now.compare
        (term_value comparison.now.left.now env) (term_value comparison.now.right.now env)) × (meter.new ≡ meter.old))
        (IsCutBy meter.old meter.new) }
{
    match comparison.zero_remainder() {
        Some((factor, modulus)) => {
            let congruence = Congruence {
                kind: congruence_kind(comparison.compare),
                factor,
                modulus,
            };
            let new = with_congruence(alloc, system, &congruence, scope, meter)?;
            Ok(new)
        }
        None => {
            let difference = comparison.difference();
            let new = with_difference(alloc, system, &difference, scope, meter)?;
            Ok(new)
        }
    }
}

// The system with a row that says that a column equals a term.
#[tactic(auto, using(std::proofs::lemmas::Grind::common_steps, isl_meter::proofs::CutLemmas::charges, crate::proofs::RowLaws::entries))]
fn entered(
    alloc: Global,
    system: System,
    term: &[Signed],
    column: usize,
    scope: &Scope,
    meter: &mut Meter,
) -> Result<System, Cut>
    requires ready { IsReady meter.old scope.now system }
    requires known { IsTermIn scope.now term.now }
    requires column { column < free_columns system }
    ensures { MatchResult result
        (λ new. Narrows meter.old scope.now system new (λ point. λ env. term_value term.now env ≡ slice_index_or point column (pos 0))
        × (meter.new ≡ meter.old))
        (IsCutBy meter.old meter.new) }
{
    let mut system = system;
    let form = term_form(alloc, &mut system, term, scope, meter)?;
    let other = Form::column(alloc, column, meter)?;
    let difference = form.plus(alloc, Int::new(-1), other, meter)?;
    let new = with_row(alloc, system, RowKind::Zero, difference, 1, meter)?;
    Ok(new)
}

/// The system with the row of a comparison behind the others, and with a defined column for each floor, ceiling or remainder that
/// had none.
///
/// # Errors
///
/// `Overflow` where a number passes the limit of the meter, and `NoMemory`.
#[tactic(auto, using(std::proofs::lemmas::Grind::common_steps, isl_meter::proofs::CutLemmas::charges, crate::proofs::RowLaws::outer))]
pub fn with_comparison(
    alloc: Global,
    system: System,
    comparison: &Comparison<'_>,
    scope: &Scope,
    meter: &mut Meter,
) -> Result<System, Cut>
    requires within { IsSystemWithin meter.old system }
    requires columns { length scope.now ≤ free_columns system }
    requires left_known { IsTermKnown scope.now comparison.now.left.now }
    requires right_known { IsTermKnown scope.now comparison.now.right.now }
    requires left_divisors { HasDivisors comparison.now.left.now }
    requires right_divisors { HasDivisors comparison.now.right.now }
    requires single { spec.splits comparison.now.compare comparison.now.left.now comparison.now.right.now ≡ false }
    ensures within { IfOk result (λ new. IsSystemWithin meter.old new × (free_columns new ≡ free_columns system)) }
    ensures points { IfOk result (λ new. (point : List ℤ) (env : Environment) → length point ≡ free_columns system
        → IsNumbered scope.now point env → HoldsSystem new point ↔ (HoldsSystem system point
        × Compares comparison.now.compare (term_value comparison.now.left.now env) (term_value comparison.now.right.now env))) }
    ensures meter { MatchResult result (λ _. meter.new ≡ meter.old) (IsCutBy meter.old meter.new) }
{
    let new = compared(alloc, system, comparison, scope, meter)?;
    Ok(new)
}

/// The system with a row that says that a column equals a term.
///
/// # Errors
///
/// `Overflow` where a number passes the limit of the meter, and `NoMemory`.
#[tactic(auto, using(std::proofs::lemmas::Grind::common_steps, isl_meter::proofs::CutLemmas::charges, crate::proofs::RowLaws::outer))]
pub fn with_entry(
    alloc: Global,
    system: System,
    term: &[Signed],
    column: usize,
    scope: &Scope,
    meter: &mut Meter,
) -> Result<System, Cut>
    requires within { IsSystemWithin meter.old system }
    requires columns { length scope.now ≤ free_columns system }
    requires known { IsTermKnown scope.now term.now }
    requires divisors { HasDivisors term.now }
    requires column { column < free_columns system }
    ensures within { IfOk result (λ new. IsSystemWithin meter.old new × (free_columns new ≡ free_columns system)) }
    ensures points { IfOk result (λ new. (point : List ℤ) (env : Environment) → length point ≡ free_columns system
        → IsNumbered scope.now point env → HoldsSystem new point ↔ (HoldsSystem system point
        × (term_value term.now env ≡ slice_index_or point column (pos 0)))) }
    ensures meter { MatchResult result (λ _. meter.new ≡ meter.old) (IsCutBy meter.old meter.new) }
{
    let new = entered(alloc, system, term, column, scope, meter)?;
    Ok(new)
}

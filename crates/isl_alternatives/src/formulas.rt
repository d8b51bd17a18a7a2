//! Formulas on lists of systems.

ghost use Rattle.std.specs.Prelude.{◌≡◌, ◌↔◌, ◌+◌, ◌≤◌, ◌∷◌, [], ℤ, List, All, MatchResult, IfOk, length};
ghost use Rattle.isl_meter.specs.Gauge.{IsCutBy, IsMetered};
ghost use Rattle.isl_piece.specs.System.{HoldsSystem, IsSystemWithin, free_columns};
ghost use Rattle.isl_elim.specs.Elimination.{HoldsAtAny};
ghost use Rattle.isl_affine.specs.Scope.{IsNumbered};
ghost use Rattle.isl_tree.specs.Environment.{Environment};
ghost use Rattle.isl_tree.specs.Formula.{FormulaHolds};
ghost use Rattle.isl_alternatives.specs.Known.{IsFormulaKnown, AreBindersKnown};
ghost use Rattle.isl_alternatives.specs.Restricted.{AreRestricted, AreWhere, HoldsAs, AllAs, AnyAs, Imply, BoundHolds, IsOver, scope_below};

use crate::bound::{bound, projected};
use crate::chains::{Chain, with_chain};
use crate::lists::{append, begun, live, normal_forms, selected};
use isl_affine::Scope;
use isl_meter::{Cut, Meter};
use isl_piece::System;
use isl_tree::tree::{Binder, Formula};
use std::alloc::Global;

// How a formula is meant: whether it must hold or must not, and whether nothing but `and` stands outside it.
#[derive(Clone, Copy)]
struct Polarity {
    holds: bool,
    outermost: bool,
}

impl Polarity {
    ghost use Rattle.std.specs.Prelude.{not};

    // How a formula is meant that is denied.
    fn denied(self) -> Self
        ensures { result ≡ record { holds = not self.holds; outermost = self.outermost } }
    {
        Polarity {
            holds: !self.holds,
            outermost: self.outermost,
        }
    }
}

// The systems where the formula holds, or where it does not.
#[cycle(formula)]
#[tactic(auto, using(std::proofs::lemmas::Grind::common_steps, isl_meter::proofs::CutLemmas::charges))]
fn restricted(
    alloc: Global,
    systems: Vec<System>,
    formula: &Formula,
    polarity: Polarity,
    scope: &Scope,
    meter: &mut Meter,
) -> Result<Vec<System>, Cut>
    requires over { All (IsOver meter.old scope.now) systems.items }
    requires known { IsFormulaKnown scope.now formula.now }
    ensures { MatchResult result
        (λ new. AreRestricted meter.old meter.new scope.now systems.items (HoldsAs polarity.holds (FormulaHolds formula.now)) new.items)
        (IsCutBy meter.old meter.new) }
{
    match formula {
        Formula::And(parts) if polarity.holds => {
            each_of(alloc, systems, parts.as_slice(), polarity, scope, meter)
        }
        Formula::And(parts) => any_of(alloc, systems, parts.as_slice(), false, scope, meter),
        Formula::Or(parts) if polarity.holds => {
            any_of(alloc, systems, parts.as_slice(), true, scope, meter)
        }
        Formula::Or(parts) => each_of(alloc, systems, parts.as_slice(), polarity, scope, meter),
        Formula::Not(inner) => {
            restricted(alloc, systems, inner.get(), polarity.denied(), scope, meter)
        }
        Formula::Implies(parts) => {
            let holds = polarity.holds;
            implied(alloc, systems, parts.as_slice(), holds, scope, meter)
        }
        Formula::True if polarity.holds => Ok(systems),
        Formula::False if !polarity.holds => Ok(systems),
        Formula::True | Formula::False => Ok(Vec::new(alloc)),
        Formula::Exists(binders, body) => {
            let found = exists(alloc, binders.as_slice(), body.get(), scope, meter)?;
            let all = systems.as_slice();
            let new = selected(alloc, all, found, polarity.holds, scope, meter)?;
            Ok(new)
        }
        Formula::Chain(first, links) => {
            let chain = Chain {
                first: first.as_slice(),
                links: links.as_slice(),
                holds: polarity.holds,
            };
            with_chain(alloc, systems, &chain, scope, meter)
        }
    }
}

// The same. At the outermost those that hold nowhere are left out, once there are more.
#[cycle(formula)]
#[tactic(auto, using(std::proofs::lemmas::Grind::common_steps, isl_meter::proofs::CutLemmas::charges))]
fn narrowed(
    alloc: Global,
    systems: Vec<System>,
    formula: &Formula,
    polarity: Polarity,
    scope: &Scope,
    meter: &mut Meter,
) -> Result<Vec<System>, Cut>
    requires over { All (IsOver meter.old scope.now) systems.items }
    requires known { IsFormulaKnown scope.now formula.now }
    ensures { MatchResult result
        (λ new. AreRestricted meter.old meter.new scope.now systems.items (HoldsAs polarity.holds (FormulaHolds formula.now)) new.items)
        (IsCutBy meter.old meter.new) }
{
    let before = systems.len();
    let new = restricted(alloc, systems, formula, polarity, scope, meter)?;
    if polarity.outermost && before < new.len() {
        let kept = live(alloc, new, scope, meter)?;
        return Ok(kept);
    }
    Ok(new)
}

// The systems where each of the formulas holds, or each does not.
#[cycle(formula)]
#[tactic(auto, using(std::proofs::lemmas::Grind::common_steps, isl_meter::proofs::CutLemmas::charges))]
fn each_of(
    alloc: Global,
    mut systems: Vec<System>,
    formulas: &[Formula],
    polarity: Polarity,
    scope: &Scope,
    meter: &mut Meter,
) -> Result<Vec<System>, Cut>
    requires over { All (IsOver meter.old scope.now) systems.items }
    requires known { All (IsFormulaKnown scope.now) formulas.now }
    ensures { MatchResult result
        (λ new. AreRestricted meter.old meter.new scope.now systems.items (AllAs polarity.holds formulas.now) new.items)
        (IsCutBy meter.old meter.new) }
{
    for formula in formulas {
        systems = narrowed(alloc, systems, formula, polarity, scope, meter)?;
    }
    Ok(systems)
}

// The systems where some of the formulas holds, or some does not.
#[cycle(formula)]
#[tactic(auto, using(std::proofs::lemmas::Grind::common_steps, isl_meter::proofs::CutLemmas::charges))]
fn any_of(
    alloc: Global,
    systems: Vec<System>,
    formulas: &[Formula],
    holds: bool,
    scope: &Scope,
    meter: &mut Meter,
) -> Result<Vec<System>, Cut>
    requires over { All (IsOver meter.old scope.now) systems.items }
    requires known { All (IsFormulaKnown scope.now) formulas.now }
    ensures { MatchResult result
        (λ new. AreRestricted meter.old meter.new scope.now systems.items (AnyAs holds formulas.now) new.items)
        (IsCutBy meter.old meter.new) }
{
    let polarity = Polarity {
        holds,
        outermost: false,
    };
    let mut found = Vec::new(alloc);
    for formula in formulas {
        let base = begun(alloc, systems.as_slice(), found.as_slice(), meter)?;
        let mut more = restricted(alloc, base, formula, polarity, scope, meter)?;
        append(&mut found, &mut more)?;
    }
    Ok(found)
}

// The systems where a row of implications holds, or where it does not, from its last formula to its first.
#[cycle(formula)]
#[tactic(auto, using(std::proofs::lemmas::Grind::common_steps, isl_meter::proofs::CutLemmas::charges))]
fn implied(
    alloc: Global,
    mut systems: Vec<System>,
    formulas: &[Formula],
    mut holds: bool,
    scope: &Scope,
    meter: &mut Meter,
) -> Result<Vec<System>, Cut>
    requires over { All (IsOver meter.old scope.now) systems.items }
    requires known { All (IsFormulaKnown scope.now) formulas.now }
    ensures { MatchResult result
        (λ new. AreRestricted meter.old meter.new scope.now systems.items (HoldsAs holds (Imply formulas.now)) new.items)
        (IsCutBy meter.old meter.new) }
{
    if formulas.is_empty() {
        return Ok(if holds { systems } else { Vec::new(alloc) });
    }
    let mut found = Vec::new(alloc);
    let mut count = formulas.len() - 1;
    while count > 0 {
        let polarity = Polarity {
            holds,
            outermost: false,
        };
        if holds {
            let base = begun(alloc, systems.as_slice(), systems.as_slice(), meter)?;
            let mut more = restricted(alloc, base, &formulas[count], polarity, scope, meter)?;
            append(&mut found, &mut more)?;
        } else {
            systems = restricted(alloc, systems, &formulas[count], polarity, scope, meter)?;
        }
        holds = !holds;
        count -= 1;
    }
    let polarity = Polarity {
        holds,
        outermost: false,
    };
    let mut first = restricted(alloc, systems, &formulas[0], polarity, scope, meter)?;
    append(&mut found, &mut first)?;
    Ok(found)
}

// Systems of which some holds exactly where the formula does for some numbers of the binders.
#[cycle(formula)]
#[tactic(auto, using(std::proofs::lemmas::Grind::common_steps, isl_meter::proofs::CutLemmas::charges))]
fn exists(
    alloc: Global,
    binders: &[Binder],
    body: &Formula,
    scope: &Scope,
    meter: &mut Meter,
) -> Result<Vec<System>, Cut>
    requires binders { AreBindersKnown scope.now binders.now }
    requires known { IsFormulaKnown (scope_below binders.now scope.now) body.now }
    ensures { MatchResult result
        (λ found. AreWhere meter.old meter.new scope.now (λ point env. BoundHolds binders.now body.now env) found.items)
        (IsCutBy meter.old meter.new) }
{
    let inner = bound(alloc, binders, scope, meter)?;
    let mut whole = Vec::new(alloc);
    whole.push(inner.system)?;
    let polarity = Polarity {
        holds: true,
        outermost: true,
    };
    let bodies = restricted(alloc, whole, body, polarity, &inner.scope, meter)?;
    let forms = normal_forms(alloc, bodies, &inner.scope, meter)?;
    let found = projected(alloc, forms.as_slice(), scope, &inner.scope, meter)?;
    Ok(found)
}

/// The systems of which some holds exactly where the system and the formula do. A unit is used for each of them but the first.
/// A later name of the scope hides an earlier one of the same text.
///
/// # Errors
///
/// `Overflow` where a number passes the limit of the meter, `Budget` where its units are used up, and `NoMemory`.
#[tactic(auto, using(std::proofs::lemmas::Grind::common_steps, isl_meter::proofs::CutLemmas::charges))]
pub fn alternatives(
    alloc: Global,
    system: System,
    formula: &Formula,
    scope: &Scope,
    meter: &mut Meter,
) -> Result<Vec<System>, Cut>
    requires within { IsSystemWithin meter.old system }
    requires columns { length scope.now ≡ free_columns system }
    requires known { IsFormulaKnown scope.now formula.now }
    ensures points { IfOk result (λ found. (point : List ℤ) (env : Environment) → length point ≡ free_columns system
        → IsNumbered scope.now point env → HoldsAtAny found.items point ↔ (HoldsSystem system point × FormulaHolds formula.now env)) }
    ensures within { IfOk result (λ found. All (λ s. IsSystemWithin meter.old s × (free_columns s ≡ free_columns system)) found.items) }
    ensures counted { IfOk result (λ found. length found.items + meter.old.units ≤ meter.new.units + 1) }
    ensures meter { IsMetered meter.old meter.new result }
{
    let mut systems = Vec::new(alloc);
    systems.push(system)?;
    let polarity = Polarity {
        holds: true,
        outermost: true,
    };
    let found = restricted(alloc, systems, formula, polarity, scope, meter)?;
    Ok(found)
}

//! What `exists` binds: columns behind those of the scope, and systems without them again.

ghost use Rattle.std.specs.Prelude.{◌≡◌, ◌↔◌, ◌<◌, ◌≤◌, ℤ, pos, List, All, IfOk, IfSome, MatchResult, length, slice_index_or};
ghost use Rattle.isl_meter.specs.Gauge.{IsCharged, IsCutBy};
ghost use Rattle.isl_piece.specs.Normal.{IsNormal};
ghost use Rattle.isl_piece.specs.System.{HoldsSystem, IsSystemWithin, free_columns};
ghost use Rattle.isl_tree.specs.Divisors.{HasDivisors};
ghost use Rattle.isl_affine.specs.Scope.{IsNumbered, IsTermKnown};
ghost use Rattle.isl_tree.specs.Environment.{Environment};
ghost use Rattle.isl_alternatives.specs.Known.{AreBindersKnown};
ghost use Rattle.isl_alternatives.specs.Restricted.{IsOver, IsBodyOf, AreProjected, MatchesValue};

use crate::lists::append;
use isl_affine::{Scope, with_entry};
use isl_elim::{columns_between, with_fewer_rows};
use isl_meter::{Cut, Meter};
use isl_piece::System;
use isl_quotient::project;
use isl_tree::tree::Binder;
use std::alloc::Global;

/// The names below binders, and the system over their columns in which each that has a term is its number.
#[derive(Drop)]
pub(crate) struct Inner {
    pub(crate) scope: Scope,
    pub(crate) system: System,
}

// The system in which the column behind those of the names is the number of the binder's term, where it has one.
#[tactic(auto, using(std::proofs::lemmas::Grind::common_steps, isl_meter::proofs::CutLemmas::charges))]
fn with_value(
    alloc: Global,
    system: System,
    binder: &Binder,
    names: &Scope,
    meter: &mut Meter,
) -> Result<System, Cut>
    requires within { IsSystemWithin meter.old system }
    requires column { length names.now < free_columns system }
    requires known { IfSome binder.now.value (λ term. IsTermKnown names.now term × HasDivisors term) }
    ensures within { IfOk result (λ new. IsSystemWithin meter.old new × (free_columns new ≡ free_columns system)) }
    ensures points { IfOk result (λ new. (point : List ℤ) (env : Environment) → length point ≡ free_columns system
        → IsNumbered names.now point env → HoldsSystem new point ↔ (HoldsSystem system point
        × MatchesValue binder.now.value (slice_index_or point (length names.now) (pos 0)) env)) }
    ensures meter { MatchResult result (λ _. meter.new ≡ meter.old) (IsCutBy meter.old meter.new) }
{
    match &binder.value {
        Some(term) => with_entry(alloc, system, term.as_slice(), names.len(), names, meter),
        None => Ok(system),
    }
}

/// A column for each of the binders behind those of the scope.
#[tactic(auto, using(std::proofs::lemmas::Grind::common_steps, isl_meter::proofs::CutLemmas::charges))]
pub(crate) fn bound(
    alloc: Global,
    binders: &[Binder],
    scope: &Scope,
    meter: &mut Meter,
) -> Result<Inner, Cut>
    requires { AreBindersKnown scope.now binders.now }
    ensures { MatchResult result
        (λ inner. IsBodyOf meter.old scope.now binders.now inner.scope inner.system × IsCharged meter.old meter.new)
        (IsCutBy meter.old meter.new) }
{
    let Some(columns) = scope.len().checked_add(binders.len()) else {
        return Err(Cut::NoMemory);
    };
    let mut names = scope.copy(alloc)?;
    let mut system = System::new(alloc, columns);
    for binder in binders {
        system = with_value(alloc, system, binder, &names, meter)?;
        names.push(Some(binder.name.copy()?))?;
    }
    Ok(Inner {
        scope: names,
        system,
    })
}

/// The systems, which are normal, without the columns behind those of the outer scope.
#[tactic(auto, using(std::proofs::lemmas::Grind::common_steps, isl_meter::proofs::CutLemmas::charges))]
pub(crate) fn projected(
    alloc: Global,
    systems: &[System],
    outer: &Scope,
    inner: &Scope,
    meter: &mut Meter,
) -> Result<Vec<System>, Cut>
    requires over { All (IsOver meter.old inner.now) systems.now }
    requires normal { All (λ s. IsNormal s.rows) systems.now }
    requires columns { length outer.now ≤ length inner.now }
    ensures { MatchResult result
        (λ found. AreProjected meter.old meter.new outer.now inner.now systems.now found.items)
        (IsCutBy meter.old meter.new) }
{
    let columns = columns_between(alloc, outer.len(), inner.len())?;
    let mut found = Vec::new(alloc);
    for system in systems {
        let Some(few) = with_fewer_rows(alloc, system, columns.as_slice(), meter)? else {
            continue;
        };
        let mut more = project(alloc, &few, columns.as_slice(), meter)?;
        append(&mut found, &mut more)?;
    }
    Ok(found)
}

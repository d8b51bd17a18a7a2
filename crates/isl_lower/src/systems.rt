//! The systems that a piece of a literal writes.

ghost use Rattle.std.specs.Prelude.{◌≡◌, ◌∷◌, ◌+◌, ◌≤◌, [], IfOk, length, true};
ghost use Rattle.isl_meter.specs.Gauge.{IsMetered};
ghost use Rattle.isl_space.specs.Names.{IsParameterList};
ghost use Rattle.isl_space.specs.SpaceForm.{IsWellFormedSpace};
ghost use Rattle.isl_tree.specs.Divisors.{ArePositive, piece_divisors};
ghost use Rattle.isl_tree.specs.Known.{piece_is_known};
ghost use Rattle.isl_tree.specs.Literal.{space_of_piece};
ghost use Rattle.isl_lower.specs.Made.{AreSystemsOf};

use crate::names::scope_of;
use crate::system::tuples_system;
use isl_alternatives::alternatives;
use isl_meter::{Cut, Meter};
use isl_piece::System;
use isl_space::Name;
use isl_tree::tree::PieceTree;
use std::alloc::{AllocError, Global};

fn alone(alloc: Global, system: System) -> Result<Vec<System>, AllocError>
    ensures { IfOk result (λ systems. systems.items ≡ system ∷ []) }
{
    let mut systems = Vec::new(alloc);
    systems.push(system)?;
    Ok(systems)
}

/// The systems of which some holds exactly where the piece has an element: those of the alternatives of its formula, each with the
/// equations of its entries.
///
/// # Errors
///
/// `Overflow` where a number passes the limit of the meter, `Budget` where its units are used up, and `NoMemory`.
#[tactic(auto, using(std::proofs::lemmas::Grind::common_steps, isl_meter::proofs::CutLemmas::charges))]
pub(crate) fn systems_of(
    alloc: Global,
    params: &[Name],
    piece: &PieceTree,
    meter: &mut Meter,
) -> Result<Vec<System>, Cut>
    requires parameters { IsParameterList params.now }
    requires well_formed { IsWellFormedSpace (space_of_piece piece.now) }
    requires known { piece_is_known params.now piece.now ≡ true }
    requires divisors { ArePositive (piece_divisors piece.now) }
    ensures systems { IfOk result (λ systems. AreSystemsOf meter.old params.now piece.now systems.items) }
    ensures counted { IfOk result (λ systems. length systems.items + meter.old.units ≤ meter.new.units + 1) }
    ensures meter { IsMetered meter.old meter.new result }
{
    let scope = scope_of(alloc, params, piece)?;
    let system = tuples_system(alloc, params, piece, &scope, meter)?;
    match &piece.body {
        None => Ok(alone(alloc, system)?),
        Some(formula) => alternatives(alloc, system, formula, &scope, meter),
    }
}

//! The system of the tuples of a piece.

ghost use Rattle.std.specs.Prelude.{◌≡◌, IfOk, MatchResult};
ghost use Rattle.isl_meter.specs.Gauge.{IsCutBy};
ghost use Rattle.isl_tree.specs.Literal.{piece_entries, second_entries};
ghost use Rattle.isl_lower.specs.Entries.{AreReady, EntriesAt, HoldsWith};
ghost use Rattle.isl_lower.specs.Names.{piece_names};
ghost use Rattle.isl_lower.specs.Tuples.{AreFormed, IsTuplesSystem};

use crate::entries::{width, with_tuple};
use isl_affine::Scope;
use isl_meter::{Cut, Meter};
use isl_piece::System;
use isl_space::Name;
use isl_tree::tree::{PieceTree, Tuple};
use std::alloc::Global;

// The system with the equations of the entries of a second tuple, the first of which stands at a column.
fn with_second(
    alloc: Global,
    system: System,
    second: &Option<Tuple>,
    first: usize,
    scope: &Scope,
    meter: &mut Meter,
) -> Result<System, Cut>
    requires { AreReady meter.old scope.now system first (second_entries second.now) }
    ensures system { IfOk result (λ new. HoldsWith meter.old scope.now system new (EntriesAt (second_entries second.now) first)) }
    ensures meter { MatchResult result (λ _. meter.new ≡ meter.old) (IsCutBy meter.old meter.new) }
{
    match second {
        None => Ok(system),
        Some(tuple) => with_tuple(alloc, system, tuple, first, scope, meter),
    }
}

// The system with the equations of the entries of both tuples, the first of which stands at a column.
fn with_tuples(
    alloc: Global,
    system: System,
    piece: &PieceTree,
    first: usize,
    scope: &Scope,
    meter: &mut Meter,
) -> Result<System, Cut>
    requires { AreReady meter.old scope.now system first (piece_entries piece.now) }
    ensures system { IfOk result (λ new. HoldsWith meter.old scope.now system new (EntriesAt (piece_entries piece.now) first)) }
    ensures meter { MatchResult result (λ _. meter.new ≡ meter.old) (IsCutBy meter.old meter.new) }
{
    let behind = first + width(&piece.first);
    let system = with_tuple(alloc, system, &piece.first, first, scope, meter)?;
    with_second(alloc, system, &piece.second, behind, scope, meter)
}

/// The system of the equations of a piece's entries, over the parameters and the coordinates. An entry that is the name of its own
/// column has none.
///
/// # Errors
///
/// `Overflow` where a number passes the limit of the meter, and `NoMemory`.
pub fn tuples_system(
    alloc: Global,
    params: &[Name],
    piece: &PieceTree,
    scope: &Scope,
    meter: &mut Meter,
) -> Result<System, Cut>
    requires scope { scope.now ≡ piece_names params.now piece.now }
    requires formed { AreFormed params.now piece.now }
    ensures system { IfOk result (IsTuplesSystem meter.old params.now piece.now) }
    ensures meter { MatchResult result (λ _. meter.new ≡ meter.old) (IsCutBy meter.old meter.new) }
{
    let system = System::new(alloc, scope.len());
    with_tuples(alloc, system, piece, params.len(), scope, meter)
}

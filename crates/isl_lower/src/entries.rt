//! Entries of tuples as equations.

ghost use Rattle.std.specs.Prelude.{◌≡◌, ◌+◌, ◌<◌, ◌^◌, [], ◌∷◌, IfOk, MatchResult, length};
ghost use Rattle.isl_meter.specs.Gauge.{IsCutBy};
ghost use Rattle.isl_tree.specs.Literal.{entries_of, entry_term};
ghost use Rattle.isl_lower.specs.Entries.{AreReady, EntriesAt, EntryAt, HoldsWith};

use crate::names::is_name_of;
use isl_affine::{Scope, with_entry};
use isl_meter::{Cut, Meter};
use isl_piece::System;
use isl_tree::tree::{Entry, Signed, Tuple};
use std::alloc::Global;

fn entry_term(entry: &Entry) -> &[Signed]
    ensures { result.now ≡ entry_term entry.now }
{
    match entry {
        Entry::Plain(term) => term.as_slice(),
        Entry::Named(_, term) => term.as_slice(),
    }
}

// The system with the equation of an entry, unless the entry is the name of its column.
fn with_equation(
    alloc: Global,
    system: System,
    entry: &Entry,
    column: usize,
    scope: &Scope,
    meter: &mut Meter,
) -> Result<System, Cut>
    requires { AreReady meter.old scope.now system column (entry.now ∷ []) }
    ensures system { IfOk result (λ new. HoldsWith meter.old scope.now system new (EntryAt entry.now column)) }
    ensures meter { MatchResult result (λ _. meter.new ≡ meter.old) (IsCutBy meter.old meter.new) }
{
    let term = entry_term(entry);
    if is_name_of(scope, term, column) {
        return Ok(system);
    }
    with_entry(alloc, system, term, column, scope, meter)
}

// The system with the equations of entries, the first of which stands at a column.
fn with_entries(
    alloc: Global,
    system: System,
    entries: &[Entry],
    first: usize,
    scope: &Scope,
    meter: &mut Meter,
) -> Result<System, Cut>
    requires { AreReady meter.old scope.now system first entries.now }
    ensures system { IfOk result (λ new. HoldsWith meter.old scope.now system new (EntriesAt entries.now first)) }
    ensures meter { MatchResult result (λ _. meter.new ≡ meter.old) (IsCutBy meter.old meter.new) }
{
    let mut made = system;
    for at in 0..entries.len() {
        made = with_equation(alloc, made, &entries[at], first + at, scope, meter)?;
    }
    Ok(made)
}

// How many entries a tuple has.
#[tactic(auto, using(crate::proofs::EntryLaws::widths))]
pub(crate) fn width(tuple: &Tuple) -> usize
    requires { length (entries_of tuple.now) < 2 ^ 64 }
    ensures { result ≡ length (entries_of tuple.now) }
{
    match tuple {
        Tuple::Leaf { entries, .. } => entries.len(),
        Tuple::Pair(left, right) => {
            let left = left.get();
            let right = right.get();
            width(left) + width(right)
        }
    }
}

/// The system with the equations of the entries of a tuple, the first of which stands at a column.
pub(crate) fn with_tuple(
    alloc: Global,
    system: System,
    tuple: &Tuple,
    first: usize,
    scope: &Scope,
    meter: &mut Meter,
) -> Result<System, Cut>
    requires { AreReady meter.old scope.now system first (entries_of tuple.now) }
    ensures system { IfOk result (λ new. HoldsWith meter.old scope.now system new (EntriesAt (entries_of tuple.now) first)) }
    ensures meter { MatchResult result (λ _. meter.new ≡ meter.old) (IsCutBy meter.old meter.new) }
{
    match tuple {
        Tuple::Leaf { entries, .. } => {
            with_entries(alloc, system, entries.as_slice(), first, scope, meter)
        }
        Tuple::Pair(left, right) => {
            let left = left.get();
            let right = right.get();
            let behind = first + width(left);
            let system = with_tuple(alloc, system, left, first, scope, meter)?;
            with_tuple(alloc, system, right, behind, scope, meter)
        }
    }
}

//! The rows of plain pieces.

ghost use Rattle.std.specs.Prelude.{◌≡◌, All, Any, IfOk, MatchResult, map, true};
ghost use Rattle.isl_piece.specs.Row.{IsRowWithin};
ghost use Rattle.isl_tree.specs.Plain.{is_plain_piece};
ghost use Rattle.isl_plain.specs.Width.{added_in, placed_rows, PassesIn};
ghost use Rattle.isl_plain.specs.Passes.{FailsBy};
ghost use Rattle.isl_plain.specs.Outcome.{PutsRows, WritesPiece};
ghost use Rattle.isl_plain.specs.Points.{HasPoints};
ghost use Rattle.isl_tree.specs.Known.{piece_is_known};
ghost use Rattle.isl_tree.specs.Literal.{piece_entries};

use crate::chains::push_body;
use crate::entries::push_entries;
use crate::places::{Places, entry_name};
use crate::tuples::piece_entries;
use isl_meter::{Cut, Meter};
use isl_piece::Rows;
use isl_space::Name;
use isl_tree::tree::{Entry, Formula, PieceTree};
use std::alloc::Global;

// The rows that a piece with these names writes: those of the entries of its tuples, and those of its body.
#[tactic(auto, using(std::proofs::lemmas::Grind::common_steps, crate::proofs::JoinLaws::joins))]
fn push_rows(
    alloc: Global,
    rows: &mut Rows,
    piece: &PieceTree,
    places: &Places<'_>,
    meter: &mut Meter,
) -> Result<(), Cut>
    requires within { All (IsRowWithin meter.old) rows.old }
    ensures { PutsRows meter.old meter.new rows.old rows.new places.now (placed_rows places.now piece.now.body) result }
{
    if let Err(cut) = push_entries(alloc, rows, places, meter) {
        return Err(cut);
    }
    push_body(alloc, rows, &piece.body, places, meter)
}

// How many rows a chain writes.
fn chain_count(formula: &Formula) -> usize {
    match formula {
        Formula::Chain(_, links) => links.len(),
        _ => 0,
    }
}

// How many rows a body writes.
fn body_count(body: &Option<Formula>) -> usize {
    match body {
        Some(Formula::And(parts)) => {
            let mut count: usize = 0;
            for part in parts.as_slice() {
                count = count.saturating_add(chain_count(part));
            }
            count
        }
        Some(formula) => chain_count(formula),
        None => 0,
    }
}

// How many rows are made room for: one for each entry that is no name alone, and one for each comparison.
fn row_count(places: &Places<'_>, body: &Option<Formula>) -> usize {
    let terms = places
        .entries
        .iter()
        .filter(|entry| entry_name(entry).is_none())
        .count();
    terms.saturating_add(body_count(body))
}

// The same rows, in a list of their own.
fn rows_in(
    alloc: Global,
    piece: &PieceTree,
    places: &Places<'_>,
    meter: &mut Meter,
) -> Result<Rows, Cut>
    ensures { MatchResult result
        (λ rows. (rows ≡ map (added_in places.now) (placed_rows places.now piece.now.body))
        × All (IsRowWithin meter.old) rows × (meter.new ≡ meter.old))
        (FailsBy (Any (PassesIn meter.old places.now) (placed_rows places.now piece.now.body)) meter.old meter.new) }
{
    let mut rows = match Rows::with_capacity(alloc, row_count(places, &piece.body)) {
        Ok(rows) => rows,
        Err(_) => return Err(Cut::NoMemory),
    };
    match push_rows(alloc, &mut rows, piece, places, meter) {
        Ok(()) => Ok(rows),
        Err(cut) => Err(cut),
    }
}

// The rows of a piece with these entries.
fn entry_rows(
    alloc: Global,
    params: &[Name],
    entries: &[&Entry],
    piece: &PieceTree,
    meter: &mut Meter,
) -> Result<Rows, Cut>
    requires plain { is_plain_piece piece.now ≡ true }
    requires entries { map (λ entry. entry.now) entries.now ≡ piece_entries piece.now }
    ensures { WritesPiece meter.old meter.new params.now piece.now result }
{
    let places = Places { params, entries };
    rows_in(alloc, piece, &places, meter)
}

// The rows of a piece, with its names in place.
fn made_rows(
    alloc: Global,
    params: &[Name],
    piece: &PieceTree,
    meter: &mut Meter,
) -> Result<Rows, Cut>
    requires plain { is_plain_piece piece.now ≡ true }
    ensures { WritesPiece meter.old meter.new params.now piece.now result }
{
    let entries = match piece_entries(alloc, piece) {
        Ok(entries) => entries,
        Err(_) => return Err(Cut::NoMemory),
    };
    entry_rows(alloc, params, entries.as_slice(), piece, meter)
}

/// The rows that a plain piece writes, over the parameters and then the coordinates: one for each entry that is a
/// term, and one for each comparison.
///
/// # Errors
///
/// `Overflow` only where a product or a sum of a row passes the limit, and `NoMemory`.
pub fn rows_written(
    alloc: Global,
    params: &[Name],
    piece: &PieceTree,
    meter: &mut Meter,
) -> Result<Rows, Cut>
    requires plain { is_plain_piece piece.now ≡ true }
    ensures rows { WritesPiece meter.old meter.new params.now piece.now result }
    ensures points { piece_is_known params.now piece.now ≡ true → IfOk result (HasPoints params.now piece.now) }
{
    made_rows(alloc, params, piece, meter)
}

//! The rows of entries.

ghost use Rattle.std.specs.Prelude.{◌≡◌, ◌<◌, ◌≤◌, All, length};
ghost use Rattle.isl_piece.specs.Row.{IsRowWithin};
ghost use Rattle.isl_tree.specs.Literal.{entry_term};
ghost use Rattle.isl_plain.specs.Rows.{placed_entry, placed_entries};
ghost use Rattle.isl_plain.specs.Width.{width_of, entries_in, brings_in};
ghost use Rattle.isl_plain.specs.Outcome.{PutsRows};

use crate::places::Places;
use crate::rows::push_row;
use crate::written::coordinate;
use isl_meter::{Cut, Meter};
use isl_piece::Rows;
use isl_tree::tree::{Entry, Signed};
use std::alloc::Global;

fn entry_term(entry: &Entry) -> &[Signed]
    ensures { result.now ≡ entry_term entry.now }
{
    match entry {
        Entry::Plain(term) => term.as_slice(),
        Entry::Named(_, term) => term.as_slice(),
    }
}

// Puts the row of an entry at a column behind the others: it equals its coordinate, where it brings in no name.
fn push_entry(
    alloc: Global,
    rows: &mut Rows,
    entry: &Entry,
    at: usize,
    places: &Places<'_>,
    meter: &mut Meter,
) -> Result<(), Cut>
    requires within { All (IsRowWithin meter.old) rows.old }
    requires inside { at < width_of places.now }
    ensures { PutsRows meter.old meter.new rows.old rows.new places.now (placed_entry (brings_in places.now) entry.now at) result }
{
    if places.brings(entry, at) {
        return Ok(());
    }
    push_row(
        alloc,
        rows,
        coordinate(entry_term(entry), at),
        places,
        meter,
    )
}

/// Puts the rows of the entries of a piece behind the others: the entry at a column equals its coordinate, where it
/// brings in no name.
#[tactic(auto, using(std::proofs::lemmas::Grind::common_steps, crate::proofs::JoinLaws::joins, crate::proofs::JoinLaws::entries_next))]
pub(crate) fn push_entries(
    alloc: Global,
    rows: &mut Rows,
    places: &Places<'_>,
    meter: &mut Meter,
) -> Result<(), Cut>
    requires within { All (IsRowWithin meter.old) rows.old }
    ensures { PutsRows meter.old meter.new rows.old rows.new places.now
        (placed_entries (brings_in places.now) (entries_in places.now) (length places.now.params.now)) result }
{
    let params = places.params.len();
    for i in 0..places.entries.len() {
        if let Err(cut) = push_entry(alloc, rows, places.entries[i], params + i, places, meter) {
            return Err(cut);
        }
    }
    Ok(())
}

//! The rows of chains of comparisons.

ghost use Rattle.std.specs.Prelude.{◌≤◌, All};
ghost use Rattle.isl_piece.specs.Row.{IsRowWithin};
ghost use Rattle.isl_tree.specs.Plain.{lone_remainder};
ghost use Rattle.isl_plain.specs.Rows.{written_links, written_remainder, written_from, written_sides, written_chain, written_list};
ghost use Rattle.isl_plain.specs.Rows.{written_formula, written_body};
ghost use Rattle.isl_plain.specs.Code.{remainder_of};
ghost use Rattle.isl_plain.specs.Width.{width_of};
ghost use Rattle.isl_plain.specs.Outcome.{PutsRows};

use crate::places::Places;
use crate::remainder::{Remainder, lone_remainder};
use crate::rows::push_row;
use crate::written::{compared, divided};
use isl_meter::{Cut, Meter};
use isl_piece::Rows;
use isl_tree::tree::{Formula, Link, Signed, Term};
use std::alloc::Global;

// Puts the row of each neighbouring pair of a chain of single terms behind the others.
#[tactic(auto, using(std::proofs::lemmas::Grind::common_steps, crate::proofs::JoinLaws::joins))]
fn push_links(
    alloc: Global,
    rows: &mut Rows,
    first: &[Signed],
    links: &[Link],
    places: &Places<'_>,
    meter: &mut Meter,
) -> Result<(), Cut>
    requires within { All (IsRowWithin meter.old) rows.old }
    ensures { PutsRows meter.old meter.new rows.old rows.new places.now (written_links (width_of places.now) first.now links.now) result }
{
    let mut left = first;
    for i in 0..links.len() {
        let [right] = links[i].1.as_slice() else {
            return Ok(());
        };
        let right = right.as_slice();
        let row = compared(places.width(), links[i].0, left, right);
        if let Err(cut) = push_row(alloc, rows, row, places, meter) {
            return Err(cut);
        }
        left = right;
    }
    Ok(())
}

// Puts the row of a remainder that is compared with 0 behind the others.
fn push_remainder(
    alloc: Global,
    rows: &mut Rows,
    remainder: Remainder<'_>,
    links: &[Link],
    places: &Places<'_>,
    meter: &mut Meter,
) -> Result<(), Cut>
    requires within { All (IsRowWithin meter.old) rows.old }
    ensures { PutsRows meter.old meter.new rows.old rows.new places.now
        (written_remainder (remainder_of remainder.entry) links.now) result }
{
    match links {
        [link, ..] => push_row(alloc, rows, divided(remainder, link.0), places, meter),
        [] => Ok(()),
    }
}

// The same of a chain that begins with one term, a remainder or another one.
fn push_from(
    alloc: Global,
    rows: &mut Rows,
    left: &[Signed],
    links: &[Link],
    places: &Places<'_>,
    meter: &mut Meter,
) -> Result<(), Cut>
    requires within { All (IsRowWithin meter.old) rows.old }
    ensures { PutsRows meter.old meter.new rows.old rows.new places.now
        (written_from (width_of places.now) (lone_remainder left.now) left.now links.now) result }
{
    match lone_remainder(left) {
        Some(remainder) => push_remainder(alloc, rows, remainder, links, places, meter),
        None => push_links(alloc, rows, left, links, places, meter),
    }
}

// The same of a chain that may begin with several terms, and then writes no row.
fn push_sides(
    alloc: Global,
    rows: &mut Rows,
    first: &[Term],
    links: &[Link],
    places: &Places<'_>,
    meter: &mut Meter,
) -> Result<(), Cut>
    requires within { All (IsRowWithin meter.old) rows.old }
    ensures { PutsRows meter.old meter.new rows.old rows.new places.now
        (written_sides (width_of places.now) first.now links.now) result }
{
    match first {
        [left] => push_from(alloc, rows, left.as_slice(), links, places, meter),
        _ => Ok(()),
    }
}

// The same of a formula that is a chain.
fn push_chain(
    alloc: Global,
    rows: &mut Rows,
    formula: &Formula,
    places: &Places<'_>,
    meter: &mut Meter,
) -> Result<(), Cut>
    requires within { All (IsRowWithin meter.old) rows.old }
    ensures { PutsRows meter.old meter.new rows.old rows.new places.now (written_chain (width_of places.now) formula.now) result }
{
    match formula {
        Formula::Chain(first, links) => push_sides(
            alloc,
            rows,
            first.as_slice(),
            links.as_slice(),
            places,
            meter,
        ),
        _ => Ok(()),
    }
}

// The same of a list of chains.
#[tactic(auto, using(std::proofs::lemmas::Grind::common_steps, crate::proofs::JoinLaws::joins))]
fn push_chains(
    alloc: Global,
    rows: &mut Rows,
    formulas: &[Formula],
    places: &Places<'_>,
    meter: &mut Meter,
) -> Result<(), Cut>
    requires within { All (IsRowWithin meter.old) rows.old }
    ensures { PutsRows meter.old meter.new rows.old rows.new places.now (written_list (width_of places.now) formulas.now) result }
{
    for i in 0..formulas.len() {
        if let Err(cut) = push_chain(alloc, rows, &formulas[i], places, meter) {
            return Err(cut);
        }
    }
    Ok(())
}

// The rows of a plain formula: a chain, or chains that are joined by `and`.
#[tactic(auto, using(std::proofs::lemmas::Grind::common_steps, crate::proofs::ChainLaws::formula_steps))]
fn push_formula(
    alloc: Global,
    rows: &mut Rows,
    formula: &Formula,
    places: &Places<'_>,
    meter: &mut Meter,
) -> Result<(), Cut>
    requires within { All (IsRowWithin meter.old) rows.old }
    ensures { PutsRows meter.old meter.new rows.old rows.new places.now (written_formula (width_of places.now) formula.now) result }
{
    match formula {
        Formula::And(parts) => push_chains(alloc, rows, parts.as_slice(), places, meter),
        Formula::Chain(first, links) => push_sides(
            alloc,
            rows,
            first.as_slice(),
            links.as_slice(),
            places,
            meter,
        ),
        _ => Ok(()),
    }
}

/// The rows of the body of a plain piece.
pub(crate) fn push_body(
    alloc: Global,
    rows: &mut Rows,
    body: &Option<Formula>,
    places: &Places<'_>,
    meter: &mut Meter,
) -> Result<(), Cut>
    requires within { All (IsRowWithin meter.old) rows.old }
    ensures { PutsRows meter.old meter.new rows.old rows.new places.now (written_body (width_of places.now) body.now) result }
{
    match body {
        Some(formula) => push_formula(alloc, rows, formula, places, meter),
        None => Ok(()),
    }
}

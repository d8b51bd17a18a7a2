//! The checker.

ghost use Rattle.std.specs.Prelude.{◌≡◌, ◌≤◌, ◌<◌, ◌&&◌, ◌⊎◌, ◌+◌, ◌-◌, if◌then◌else◌, [], true, length, map, pos, int_lt};
ghost use Rattle.std.specs.Prelude.{All, IfErr, IfOk, IfSome, IsTrue, OnOk, MatchOption, MatchResult, option_map, slice_get};
ghost use Rattle.isl_meter.specs.Gauge.{IsMetered};
ghost use Rattle.isl_meter.specs.declared.Cut.TheVariants.{Overflow, Budget};
ghost use Rattle.isl_piece.specs.System.{widened, IsSystemWithin};
ghost use Rattle.isl_refute.specs.Checked.{IsChecked, IsFact, IsOut};
ghost use Rattle.isl_refute.specs.Parts.{refute_all, residues_refute, sides_refute, visit_all, visit_outside, visit_residues, visit_sides};
ghost use Rattle.isl_refute.specs.Parts.{OutsidePass, ResiduesPass, SidesPass, SomePass};
ghost use Rattle.isl_refute.specs.Passes.{nodes, Passes};
ghost use Rattle.isl_refute.specs.Refutes.{and_row, negations, refutes, rows_of, where_some, HasNoneOutside};
ghost use Rattle.isl_refute.specs.Visited.{visited, where_count};

use crate::added::{below, bound, has_negations, negations, residue_rows};
use crate::facts::Facts;
use crate::{Cert, Form};
use isl_meter::{Cut, Meter};
use isl_piece::{Row, System};
use std::alloc::Global;

// The part, with one row more.
#[cycle(check)]
fn with_row(
    alloc: Global,
    row: &Row,
    part: &Cert,
    facts: &mut Facts,
    outs: &[System],
    meter: &mut Meter,
) -> Result<bool, Cut>
    requires facts { All (IsFact meter.old facts.old.columns) facts.old.rows }
    requires outs { All (IsOut meter.old facts.old.columns) outs.now }
    requires row { IsFact meter.old facts.old.columns row.now }
    ensures checked { IsChecked meter.old meter.new
        (refutes (map rows_of outs.now) facts.old.columns (and_row facts.old.rows row.now) part.now)
        (visited (map rows_of outs.now) facts.old.columns (and_row facts.old.rows row.now) part.now)
        (Passes meter.old.bits (map rows_of outs.now) facts.old.columns (and_row facts.old.rows row.now) part.now) result }
    ensures facts { OnOk result (facts.new ≡ facts.old) }
{
    facts.push(alloc, row, meter)?;
    let yes = refute(alloc, part, facts, outs, meter)?;
    facts.pop();
    Ok(yes)
}

// The part, with one row more, where there is such a row.
#[cycle(check)]
fn with_some(
    alloc: Global,
    row: Option<Row>,
    part: &Cert,
    facts: &mut Facts,
    outs: &[System],
    meter: &mut Meter,
) -> Result<bool, Cut>
    requires facts { All (IsFact meter.old facts.old.columns) facts.old.rows }
    requires outs { All (IsOut meter.old facts.old.columns) outs.now }
    requires row { IfSome row (IsFact meter.old facts.old.columns) }
    ensures checked { IsChecked meter.old meter.new
        (where_some row (λ r. refutes (map rows_of outs.now) facts.old.columns (and_row facts.old.rows r) part.now))
        (where_count row (λ r. visited (map rows_of outs.now) facts.old.columns (and_row facts.old.rows r) part.now))
        (λ m. MatchOption row ⊥ (λ r. Passes meter.old.bits (map rows_of outs.now) facts.old.columns (and_row facts.old.rows r) part.now m))
        result }
    ensures facts { OnOk result (facts.new ≡ facts.old) }
{
    match row {
        Some(row) => with_row(alloc, &row, part, facts, outs, meter),
        None => Ok(false),
    }
}

// The part, over one column more, with such a row.
#[cycle(check)]
fn with_column(
    alloc: Global,
    row: &Row,
    part: &Cert,
    facts: &Facts,
    outs: &[System],
    meter: &mut Meter,
) -> Result<bool, Cut>
    requires facts { All (IsFact meter.old facts.now.columns) facts.now.rows }
    requires outs { All (IsOut meter.old facts.now.columns) outs.now }
    requires row { IsFact meter.old (facts.now.columns + 1) row.now }
    ensures { IsChecked meter.old meter.new
        (refutes (map rows_of outs.now) (facts.now.columns + 1) (and_row (map widened facts.now.rows) row.now) part.now)
        (visited (map rows_of outs.now) (facts.now.columns + 1) (and_row (map widened facts.now.rows) row.now) part.now)
        (Passes meter.old.bits (map rows_of outs.now) (facts.now.columns + 1) (and_row (map widened facts.now.rows) row.now) part.now)
        result }
{
    let Some(columns) = facts.columns.checked_add(1) else {
        return Err(Cut::NoMemory);
    };
    let mut wider = facts.widened(alloc, columns)?;
    with_row(alloc, row, part, &mut wider, outs, meter)
}

// One part for each of these rows, with that row.
#[cycle(check)]
fn with_each(
    alloc: Global,
    rows: &[Row],
    parts: &[Cert],
    facts: &mut Facts,
    outs: &[System],
    meter: &mut Meter,
) -> Result<bool, Cut>
    requires facts { All (IsFact meter.old facts.old.columns) facts.old.rows }
    requires outs { All (IsOut meter.old facts.old.columns) outs.now }
    requires rows { All (IsFact meter.old facts.old.columns) rows.now }
    requires length { length rows.now ≡ length parts.now }
    ensures checked { IsChecked meter.old meter.new
        (refute_all (map rows_of outs.now) facts.old.columns facts.old.rows rows.now parts.now)
        (visit_all (map rows_of outs.now) facts.old.columns facts.old.rows rows.now parts.now)
        (SomePass meter.old.bits (map rows_of outs.now) facts.old.columns facts.old.rows rows.now parts.now) result }
    ensures facts { OnOk result (facts.new ≡ facts.old) }
{
    for i in 0..rows.len() {
        let yes = with_row(alloc, &rows[i], &parts[i], facts, outs, meter)?;
        if !yes {
            return Ok(false);
        }
    }
    Ok(true)
}

// The parts where the form is at least 0, and where it is below.
#[cycle(check)]
fn sides(
    alloc: Global,
    form: &Form,
    up: &Cert,
    down: &Cert,
    facts: &mut Facts,
    outs: &[System],
    meter: &mut Meter,
) -> Result<bool, Cut>
    requires facts { All (IsFact meter.old facts.old.columns) facts.old.rows }
    requires outs { All (IsOut meter.old facts.old.columns) outs.now }
    requires over { length form.now.coefs ≡ facts.old.columns }
    ensures checked { IsChecked meter.old meter.new
        (sides_refute (map rows_of outs.now) facts.old.columns facts.old.rows form.now up.now down.now)
        (visit_sides (map rows_of outs.now) facts.old.columns facts.old.rows form.now up.now down.now)
        (SidesPass meter.old.bits (map rows_of outs.now) facts.old.columns facts.old.rows form.now up.now down.now) result }
    ensures facts { OnOk result (facts.new ≡ facts.old) }
{
    let row = bound(alloc, form, meter)?;
    let opposite = below(alloc, &row, meter)?;
    let yes = with_row(alloc, &row, up, facts, outs, meter)?;
    if !yes {
        return Ok(false);
    }
    with_row(alloc, &opposite, down, facts, outs, meter)
}

// A part for each number that the form may leave.
#[cycle(check)]
fn residues(
    alloc: Global,
    form: &Form,
    k: i128,
    parts: &[Cert],
    facts: &mut Facts,
    outs: &[System],
    meter: &mut Meter,
) -> Result<bool, Cut>
    requires facts { All (IsFact meter.old facts.old.columns) facts.old.rows }
    requires outs { All (IsOut meter.old facts.old.columns) outs.now }
    ensures checked { IsChecked meter.old meter.new
        (residues_refute (map rows_of outs.now) facts.old.columns facts.old.rows form.now k parts.now)
        (visit_residues (map rows_of outs.now) facts.old.columns facts.old.rows form.now k parts.now)
        (ResiduesPass meter.old.bits (map rows_of outs.now) facts.old.columns facts.old.rows form.now k parts.now) result }
    ensures facts { OnOk result (facts.new ≡ facts.old) }
{
    let count = parts.len();
    if form.coefs.len() != facts.columns || k <= 1 || k != count as i128 {
        return Ok(false);
    }
    let rows = residue_rows(alloc, form, k, count, meter)?;
    with_each(alloc, rows.as_slice(), parts, facts, outs, meter)
}

// A part for each row of the negation of each row of the out.
#[cycle(check)]
fn outside(
    alloc: Global,
    out: &System,
    parts: &[Cert],
    facts: &mut Facts,
    outs: &[System],
    meter: &mut Meter,
) -> Result<bool, Cut>
    requires facts { All (IsFact meter.old facts.old.columns) facts.old.rows }
    requires outs { All (IsOut meter.old facts.old.columns) outs.now }
    requires out { IsOut meter.old facts.old.columns out.now }
    ensures checked { IsChecked meter.old meter.new
        (refute_all (map rows_of outs.now) facts.old.columns facts.old.rows (negations facts.old.columns out.now.rows) parts.now)
        (visit_outside (map rows_of outs.now) facts.old.columns facts.old.rows out.now.rows parts.now)
        (OutsidePass meter.old.bits (map rows_of outs.now) facts.old.columns facts.old.rows out.now.rows parts.now) result }
    ensures facts { OnOk result (facts.new ≡ facts.old) }
{
    if !has_negations(facts.columns, out.rows.as_slice(), parts.len()) {
        return Ok(false);
    }
    let rows = negations(alloc, facts.columns, out.rows.as_slice(), meter)?;
    with_each(alloc, rows.as_slice(), parts, facts, outs, meter)
}

// The out at a place.
fn out_at(outs: &[System], q: usize) -> Option<&System>
    ensures { option_map (λ out. out.now) result ≡ slice_get outs.now q }
{
    outs.get(q)
}

// What the node adds, and its parts.
#[cycle(check)]
fn node(
    alloc: Global,
    cert: &Cert,
    facts: &mut Facts,
    outs: &[System],
    meter: &mut Meter,
) -> Result<bool, Cut>
    requires facts { All (IsFact meter.old facts.old.columns) facts.old.rows }
    requires outs { All (IsOut meter.old facts.old.columns) outs.now }
    ensures checked { IsChecked meter.old meter.new (refutes (map rows_of outs.now) facts.old.columns facts.old.rows cert.now)
        (visited (map rows_of outs.now) facts.old.columns facts.old.rows cert.now - 1)
        (λ m. Passes meter.old.bits (map rows_of outs.now) facts.old.columns facts.old.rows cert.now (1 + m)) result }
    ensures facts { OnOk result (facts.new ≡ facts.old) }
{
    match cert {
        Cert::False(i) => Ok(facts.false_at(*i, meter)),
        Cert::Add(i, a, j, b, part) => {
            let row = facts.sum_at(alloc, *i, *a, *j, *b, meter)?;
            with_some(alloc, row, part.get(), facts, outs, meter)
        }
        Cert::Tie(i, j, part) => {
            let row = facts.tie_at(alloc, *i, *j, meter)?;
            with_some(alloc, row, part.get(), facts, outs, meter)
        }
        Cert::Mod(i, k, part) => {
            let row = facts.mod_at(alloc, *i, *k, meter)?;
            with_some(alloc, row, part.get(), facts, outs, meter)
        }
        Cert::Weaken(i, k, part) => {
            let row = facts.weaken_at(alloc, *i, *k, meter)?;
            with_some(alloc, row, part.get(), facts, outs, meter)
        }
        Cert::Fresh(i, part) => match facts.fresh_at(alloc, *i, meter)? {
            Some(row) => with_column(alloc, &row, part.get(), facts, outs, meter),
            None => Ok(false),
        },
        Cert::Split(form, up, down) => {
            if form.coefs.len() != facts.columns {
                return Ok(false);
            }
            sides(alloc, form, up.get(), down.get(), facts, outs, meter)
        }
        Cert::Residue(form, k, parts) => {
            residues(alloc, form, *k, parts.as_slice(), facts, outs, meter)
        }
        Cert::Outside(q, parts) => match out_at(outs, *q) {
            Some(out) => outside(alloc, out, parts.as_slice(), facts, outs, meter),
            None => Ok(false),
        },
    }
}

// Whether the proof refutes the rows outside the outs. A unit is used for each node that is looked at.
#[cycle(check)]
fn refute(
    alloc: Global,
    cert: &Cert,
    facts: &mut Facts,
    outs: &[System],
    meter: &mut Meter,
) -> Result<bool, Cut>
    requires facts { All (IsFact meter.old facts.old.columns) facts.old.rows }
    requires outs { All (IsOut meter.old facts.old.columns) outs.now }
    ensures checked { IsChecked meter.old meter.new (refutes (map rows_of outs.now) facts.old.columns facts.old.rows cert.now)
        (visited (map rows_of outs.now) facts.old.columns facts.old.rows cert.now)
        (Passes meter.old.bits (map rows_of outs.now) facts.old.columns facts.old.rows cert.now) result }
    ensures facts { OnOk result (facts.new ≡ facts.old) }
{
    meter.unit()?;
    node(alloc, cert, facts, outs, meter)
}

/// Whether the proof shows that no whole point makes the system hold and none of the outs. Exactly one unit is used for each node that is
/// looked at: depth first, up to the first one that shows nothing.
///
/// # Errors
///
/// `Overflow` where a product or a sum that a node asks for, or a number of a row that it adds, passes the limit of the meter: that node
/// is the last one looked at. `Budget` where its units are used up before all nodes are looked at, and `NoMemory`.
pub fn check(
    alloc: Global,
    system: &System,
    outs: &[System],
    cert: &Cert,
    meter: &mut Meter,
) -> Result<bool, Cut>
    requires within { IsSystemWithin meter.old system.now }
    requires outs_within { All (IsSystemWithin meter.old) outs.now }
    requires columns { All (λ out. out.columns ≡ system.now.columns) outs.now }
    requires plain { system.now.definitions ≡ [] }
    requires plain_outs { All (λ out. out.definitions ≡ []) outs.now }
    ensures exact { IfOk result (λ says. says ≡ refutes (map rows_of outs.now) system.now.columns system.now.rows cert.now) }
    ensures sound { IfOk result (λ says. IsTrue says → HasNoneOutside system.now outs.now) }
    ensures meter { IsMetered meter.old meter.new result }

    // A unit for each node that is looked at: where the proof refutes, for each of its nodes.
    ensures units { MatchResult result
        (λ _. meter.new.units ≡ meter.old.units + visited (map rows_of outs.now) system.now.columns system.now.rows cert.now)
        (λ _. meter.new.units ≤ meter.old.units + visited (map rows_of outs.now) system.now.columns system.now.rows cert.now) }
    ensures most { visited (map rows_of outs.now) system.now.columns system.now.rows cert.now ≤ nodes cert.now }
    ensures whole { IfOk result (λ says. IsTrue says
        → visited (map rows_of outs.now) system.now.columns system.now.rows cert.now ≡ nodes cert.now) }

    // Units end before all these nodes are looked at; a number passes the limit at the last node that was.
    ensures budget { IfErr result (λ cut. cut ≡ Budget
        → meter.new.units < meter.old.units + visited (map rows_of outs.now) system.now.columns system.now.rows cert.now) }
    ensures overflow { IfErr result (λ cut. cut ≡ Overflow
        → Passes meter.old.bits (map rows_of outs.now) system.now.columns system.now.rows cert.now
        (meter.new.units - meter.old.units)) }
{
    let rows = system.rows.copy(alloc)?;
    let mut facts = Facts {
        columns: system.columns,
        rows,
    };
    refute(alloc, cert, &mut facts, outs, meter)
}

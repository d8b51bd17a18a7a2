//! Systems that may be of difference constraints, and how long their proofs may be.

ghost use Rattle.std.specs.Prelude.{◌↔◌, ◌+◌, ◌*◌, ◌^◌, ◌≤◌, ℕ, All, IsTrue, unsigned_abs};
ghost use Rattle.isl_piece.specs.declared.system.System.{System};
ghost use Rattle.isl_ledger.specs.Difference.{AreUnitsAtMostOnce, AtMostOnce};
ghost use Rattle.isl_cert.specs.Bound.{node_limit, IsComparing};

use isl_meter::Int;
use isl_piece::{Row, RowKind, System};

// The most nodes of a proof that are looked at.
const MOST_NODES: u64 = 1_000_000_000_000;

// Whether the number is 1, -1 or 0.
fn is_short(number: i128) -> bool
    ensures { IsTrue result ↔ (unsigned_abs number ≤ 1) }
{
    number.unsigned_abs() <= 1
}

// Whether all numbers are such.
fn are_short(numbers: &[Int]) -> bool
    ensures { IsTrue result ↔ All (λ c. unsigned_abs c ≤ 1) numbers.now }
{
    numbers.iter().all(|number| is_short(number.get()))
}

// Whether the number stands at one place at most.
fn is_at_most_once(sought: Int, numbers: &[Int]) -> bool
    ensures { IsTrue result ↔ AtMostOnce sought numbers.now }
{
    let mut seen = false;
    for number in numbers {
        let here = number.get() == sought.get();
        if here && seen {
            return false;
        }
        seen = seen || here;
    }
    true
}

// Whether one number at most is 1, one at most -1, and all others are 0.
fn are_units_at_most_once(numbers: &[Int]) -> bool
    ensures { IsTrue result ↔ AreUnitsAtMostOnce numbers.now }
{
    are_short(numbers)
        && is_at_most_once(Int::ONE, numbers)
        && is_at_most_once(Int::new(-1), numbers)
}

// Whether the row is an equation or a bound that compares two columns, or one with a number.
fn is_comparing(row: &Row) -> bool
    ensures { IsTrue result ↔ IsComparing row.now }
{
    match row.kind {
        RowKind::Zero | RowKind::AtLeast => are_units_at_most_once(row.coefs.as_slice()),
        RowKind::Divides | RowKind::NotDivides => false,
    }
}

// Whether all of the rows are such.
fn have_comparing(rows: &[Row]) -> bool
    ensures { IsTrue result ↔ All IsComparing rows.now }
{
    rows.iter().all(|row| is_comparing(row))
}

/// Whether each row of the systems is an equation or a bound that compares two columns, or one with a number.
pub(crate) fn are_comparing(system: &System, outs: &[System]) -> bool
    ensures { IsTrue result ↔ (All IsComparing system.now.rows × All (λ out. All IsComparing out.rows) outs.now) }
{
    have_comparing(system.rows.as_slice())
        && outs.iter().all(|out| have_comparing(out.rows.as_slice()))
}

// The product, or the most nodes where these are fewer.
fn times(a: u64, b: u64) -> u64
    ensures some { 1 ≤ a → 1 ≤ b → 1 ≤ result }
    ensures few { result ≤ 10 ^ 12 }
    ensures product { result ≤ a * b }
{
    let product = a.saturating_mul(b);
    if product < MOST_NODES {
        product
    } else {
        MOST_NODES
    }
}

// The number after it, or the most nodes where these are fewer.
fn next(a: u64) -> u64
    ensures some { 1 ≤ result }
    ensures few { result ≤ 10 ^ 12 }
    ensures sum { result ≤ a + 1 }
{
    if a < MOST_NODES { a + 1 } else { MOST_NODES }
}

/// How many nodes a proof may have where no more units are to be used than difference constraints over so many columns may cost, without
/// so many others; some number below where these are very many.
pub(crate) fn most_nodes(columns: usize, outs: usize) -> u64
    ensures some { 1 ≤ result }
    ensures few { result ≤ 10 ^ 12 }
    ensures limit { result ≤ node_limit columns outs }
{
    let count = columns as u64;
    let more = next(count);
    let forms = times(count, more);
    let both = times(2, forms);
    let rows = next(both);
    let pairs = times(rows, rows);
    let all = times(count, pairs);
    let each = next(all);
    let step = times(2, rows);
    let mut parts = 1;
    for _out in 0..outs {
        parts = times(parts, step);
    }
    times(parts, each)
}

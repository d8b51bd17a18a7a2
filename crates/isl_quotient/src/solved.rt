//! One column out of a system, by an equation that has it with 1 or -1.

ghost use Rattle.std.specs.Prelude.{◌≡◌, ◌<◌, [], All, IfOk, IfSome, IsNone, IsTrue, ◌↔◌, MatchOption, length, slice_index_or};
ghost use Rattle.isl_meter.specs.Gauge.{IsMetered};
ghost use Rattle.isl_piece.specs.System.{IsSystemWithin, free_columns};
ghost use Rattle.isl_elim.specs.Elimination.{IsProjection};
ghost use Rattle.isl_elim.specs.Solved.{IsUnitEquality};
ghost use Rattle.isl_quotient.specs.Given.{IsGivenBy};
ghost use Rattle.isl_quotient.specs.Quotient.{IsUndefining};
ghost use Rattle.isl_quotient.specs.Turned.{IsTurned};

use isl_elim::eliminate;
use isl_meter::{Cut, Int, Meter};
use isl_piece::{Row, RowKind, System};
use std::alloc::Global;

/// A column, and the place of an equation that has it with 1 or -1.
#[derive(Clone, Copy)]
pub(crate) struct Given {
    pub col: usize,
    pub at: usize,
}

/// Whether the row is an equation that has the column with 1 or -1.
pub(crate) fn is_unit_equality(row: &Row, col: usize) -> bool
    ensures { IsTrue result ↔ IsUnitEquality col row.now }
{
    if row.kind != RowKind::Zero || col >= row.coefs.len() {
        return false;
    }
    let own = row.coefs.get(col);
    own == Int::ONE || own == Int::new(-1)
}

// The place of an equation that has the column with 1 or -1.
fn unit_at(rows: &[Row], col: usize) -> Option<usize>
    ensures some { IfSome result (λ at. (at < length rows.now) × ((d : Row) → IsUnitEquality col (slice_index_or rows.now at d))) }
    ensures none { IsNone result → All (λ r. ¬ IsUnitEquality col r) rows.now }
{
    for i in 0..rows.len() {
        if is_unit_equality(&rows[i], col) {
            return Some(i);
        }
    }
    None
}

/// The first of the columns that an equation has with 1 or -1.
pub(crate) fn given_column(rows: &[Row], cols: &[usize]) -> Option<Given>
    ensures some { IfSome result (IsGivenBy rows.now cols.now) }
    ensures none { IsNone result → All (λ col. All (λ r. ¬ IsUnitEquality col r) rows.now) cols.now }
{
    for &col in cols {
        if let Some(at) = unit_at(rows, col) {
            return Some(Given { col, at });
        }
    }
    None
}

/// What is left of the system without the column that an equation gives: one system, or none.
#[tactic(auto, using(std::proofs::lemmas::Grind::common_steps, crate::proofs::SolvedLaws::solved_steps))]
pub(crate) fn solved(
    alloc: Global,
    system: &System,
    cols: &[usize],
    given: Given,
    meter: &mut Meter,
) -> Result<Option<System>, Cut>
    requires well_formed { IsSystemWithin meter.old system.now }
    requires cols_in { All (λ col. col < free_columns system.now) cols.now }
    requires undefining { All (λ col. IsUndefining col system.now.definitions) cols.now }
    requires given { IsGivenBy system.now.rows cols.now given }
    ensures left { IfOk result (λ found. MatchOption found (IsProjection system.now given.col [])
        (IsTurned meter.old system.now cols.now given.col)) }
    ensures plain { system.now.definitions ≡ [] → IfOk result (λ found. IfSome found (λ short. short.definitions ≡ [])) }
    ensures meter { IsMetered meter.old meter.new result }
{
    let mut systems = eliminate(alloc, system, given.col, meter)?;
    Ok(systems.pop())
}

//! One column replaced by a quotient.

ghost use Rattle.std.specs.Prelude.{◌≡◌, ◌↔◌, ◌<◌, ◌≤◌, ◌-◌, ◌+◌, ◌<ℤ◌, ◌+ℤ◌, pos, negsuc, [], All, map, length};
ghost use Rattle.std.specs.Prelude.{IfOk, IfSome, IsTrue, slice_index_or};
ghost use Rattle.std.specs.List.{remove};
ghost use Rattle.isl_math.specs.Dot.{scaled};
ghost use Rattle.isl_meter.specs.Gauge.{IsWithin};
ghost use Rattle.isl_piece.specs.Row.{IsWellFormed, IsRowWithin, coef_at};
ghost use Rattle.isl_piece.specs.System.{IsSystemWithin, free_columns};
ghost use Rattle.isl_quotient.specs.Quotient.{IsPinning, IsQuotient, turned_row, short_definition, with_quotient};

use isl_meter::Meter;
use isl_piece::{Coefs, Row, RowKind, Rows, System};
use std::alloc::{AllocError, Global};

// The row over the other columns and, behind them, this one.
fn turned_row(alloc: Global, row: &Row, col: usize) -> Result<Row, AllocError>
    requires { col < length row.now.coefs }
    ensures { IfOk result (λ made. made ≡ turned_row col row.now) }
{
    let mut coefs = row.coefs.copy(alloc)?;
    let number = coefs.remove(col);
    coefs.push(number)?;
    Ok(Row::new(row.kind, coefs, row.constant(), row.modulus()))
}

// The rows over the other columns and, behind them, this one.
#[tactic(auto, using(std::proofs::lemmas::Grind::common_steps, crate::proofs::CodeLaws::quotient_steps))]
fn turned_rows(alloc: Global, rows: &[Row], col: usize) -> Result<Rows, AllocError>
    requires { All (λ r. col < length r.coefs) rows.now }
    ensures { IfOk result (λ made. made ≡ map (turned_row col) rows.now) }
{
    let mut made = Rows::with_capacity(alloc, rows.len())?;
    for row in rows {
        made.push(turned_row(alloc, row, col)?)?;
    }
    Ok(made)
}

// The numbers at the other columns.
#[tactic(auto, using(std::proofs::lemmas::Grind::common_steps, crate::proofs::CodeLaws::quotient_steps))]
fn numbers_without(alloc: Global, coefs: &Coefs, col: usize) -> Result<Vec<i128>, AllocError>
    requires { col < length coefs.now }
    ensures { IfOk result (λ left. left.items ≡ remove coefs.now col) }
{
    let mut short = coefs.copy(alloc)?;
    let _gone = short.remove(col);
    let mut numbers = Vec::with_capacity(alloc, short.len())?;
    for number in short.as_slice() {
        numbers.push(number.get())?;
    }
    Ok(numbers)
}

/// The system in which the free column has gone, and a last column is defined by the quotient in its place.
#[tactic(auto, using(std::proofs::lemmas::Grind::common_steps, crate::proofs::CodeLaws::quotient_steps))]
pub(crate) fn with_quotient(
    alloc: Global,
    system: &System,
    col: usize,
    upper: &Row,
    lower: &Row,
    _meter: &Meter,
) -> Result<System, AllocError>
    requires well_formed { IsSystemWithin _meter.now system.now }
    requires col_in { col < free_columns system.now }
    requires upper { IsWellFormed system.now.columns upper.now }
    requires lower { IsWellFormed system.now.columns lower.now }
    requires positive { pos 0 <ℤ coef_at lower.now col }
    ensures { IfOk result (λ made. made ≡ with_quotient col upper.now lower.now system.now) }
{
    let mut made = System::new(alloc, system.free().saturating_sub(1));
    for definition in system.definitions.as_slice() {
        let coefs = numbers_without(alloc, &definition.coefs, col)?;
        made.define(coefs.as_slice(), definition.constant, definition.k)?;
    }
    let coefs = numbers_without(alloc, &upper.coefs, col)?;
    made.define(coefs.as_slice(), upper.constant, lower.coefs.get(col).get())?;
    made.rows = turned_rows(alloc, system.rows.as_slice(), col)?;
    Ok(made)
}

/// Whether each number of the one is that of the other, with the other sign.
#[tactic(auto, using(std::proofs::lemmas::Grind::common_steps, crate::proofs::CodeLaws::quotient_steps))]
pub(crate) fn are_opposite(upper: &Coefs, lower: &Coefs, meter: &Meter) -> bool
    requires within { All (IsWithin meter.now) lower.now }
    ensures { IsTrue result ↔ (upper.now ≡ scaled (negsuc 0) lower.now) }
{
    if upper.len() != lower.len() {
        return false;
    }
    for i in 0..upper.len() {
        if upper.get(i) != lower.get(i).neg(meter) {
            return false;
        }
    }
    true
}

/// Whether the bounds leave the column no number but a quotient.
pub(crate) fn are_quotient(upper: &Row, lower: &Row, col: usize, meter: &Meter) -> bool
    requires inside { col < length lower.now.coefs }
    requires within { IsRowWithin meter.now lower.now }
    ensures quotient { IsTrue result → IsQuotient col upper.now lower.now }
    ensures found { IsPinning col upper.now lower.now → IsTrue result }
{
    if upper.kind != RowKind::AtLeast || lower.kind != RowKind::AtLeast {
        return false;
    }
    let k = lower.coefs.get(col).get();
    if k < 2 {
        return false;
    }
    let Some(slack) = upper.constant.checked_add(lower.constant) else {
        return false;
    };
    slack < k && are_opposite(&upper.coefs, &lower.coefs, meter)
}

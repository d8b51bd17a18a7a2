//! Forms as expressions.

ghost use Rattle.std.specs.Prelude.{◌≡◌, ◌≤◌, ◌+ℤ◌, ◌<ℤ◌, pos, ℕ, ℤ, List, length, All, IfOk};
ghost use Rattle.isl_math.specs.Dot.{dot};
ghost use Rattle.isl_meter.specs.Gauge.{Gauge, IsWithin};
ghost use Rattle.isl_piece.specs.Row.{value_at, IsRowWithin};
ghost use Rattle.isl_loop.specs.Expr.{atom_value, expr_value};
ghost use Rattle.isl_loop.specs.Formed.{IsAtomOver, IsExprOver};
ghost use Rattle.isl_loop.specs.Lists.{sum_of, IsItemOver};
ghost use Rattle.isl_bounds.specs.Side.{rounded};

use crate::Side;
use isl_loop::{Atom, Expr, Item};
use isl_meter::Int;
use isl_piece::Row;
use sqlite_items::{Boxed, Items};
use std::alloc::{AllocError, Global};

// One summand for each coefficient that is not 0.
pub(crate) fn summands(alloc: Global, coefs: &[Int]) -> Result<Items<Item>, AllocError>
    ensures over { (g : Gauge) (n : ℕ) → All (IsWithin g) coefs.now → length coefs.now ≡ n → IfOk result (All (IsItemOver g n)) }
    ensures value { (point : List ℤ) → length coefs.now ≡ length point → IfOk result (λ items. sum_of items point ≡ dot coefs.now point) }
{
    let mut items = Items::new(alloc);
    for i in 0..coefs.len() {
        if coefs[i].is_zero() {
            continue;
        }
        items.push(Item {
            coef: coefs[i].get(),
            atom: Atom::Column(i),
        })?;
    }
    Ok(items)
}

// The form of the row.
pub(crate) fn form(alloc: Global, row: &Row) -> Result<Expr, AllocError>
    ensures over { (g : Gauge) (n : ℕ) → IsRowWithin g row.now → length row.now.coefs ≡ n → IfOk result (IsExprOver g n) }
    ensures value { (point : List ℤ) → length row.now.coefs ≡ length point
        → IfOk result (λ e. expr_value e point ≡ value_at row.now point) }
{
    Ok(Expr {
        items: summands(alloc, row.coefs.as_slice())?,
        constant: row.constant,
    })
}

// The expression of one atom.
pub(crate) fn of_atom(alloc: Global, atom: Atom) -> Result<Expr, AllocError>
    ensures over { (g : Gauge) (n : ℕ) → 8 ≤ g.bits → IsAtomOver g n atom → IfOk result (IsExprOver g n) }
    ensures value { (point : List ℤ) → IfOk result (λ e. expr_value e point ≡ atom_value atom point) }
{
    let mut items = Items::new(alloc);
    items.push(Item { coef: 1, atom })?;
    Ok(Expr { items, constant: 0 })
}

// The expression divided by `k`, and rounded to a side.
pub(crate) fn quotient(
    alloc: Global,
    dividend: Expr,
    k: Int,
    side: Side,
) -> Result<Expr, AllocError>
    requires { pos 0 <ℤ k }
    ensures over { (g : Gauge) (n : ℕ) → 8 ≤ g.bits → IsExprOver g n dividend → IsWithin g k → IfOk result (IsExprOver g n) }
    ensures value { (point : List ℤ) → IfOk result (λ e. expr_value e point ≡ rounded side (expr_value dividend point) k) }
{
    if k == Int::ONE {
        return Ok(dividend);
    }
    let dividend = Boxed::new(alloc, dividend)?;
    match side {
        Side::Low => of_atom(alloc, Atom::Ceil(dividend, k.get())),
        Side::High => of_atom(alloc, Atom::Floor(dividend, k.get())),
    }
}

/// The form of a congruence divided by its modulus, and rounded up for a bound from below, down for one from above.
///
/// # Errors
///
/// `AllocError` where memory ends.
pub fn divided(alloc: Global, entry: &Row, side: Side) -> Result<Expr, AllocError>
    requires { pos 0 <ℤ entry.now.k }
    ensures over { (g : Gauge) (n : ℕ) → 8 ≤ g.bits → IsRowWithin g entry.now → length entry.now.coefs ≡ n → IfOk result (IsExprOver g n) }
    ensures value { (point : List ℤ) → length entry.now.coefs ≡ length point
        → IfOk result (λ e. expr_value e point ≡ rounded side (value_at entry.now point) entry.now.k) }
{
    quotient(alloc, form(alloc, entry)?, entry.modulus(), side)
}

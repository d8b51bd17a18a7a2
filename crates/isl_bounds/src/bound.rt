//! Inequalities as bounds.

ghost use Rattle.std.specs.Prelude.{◌≡◌, ◌≤◌, ℕ, ℤ, List, All, IfOk};
ghost use Rattle.isl_meter.specs.Gauge.{Gauge};
ghost use Rattle.isl_piece.specs.Row.{HoldsRow};
ghost use Rattle.isl_piece.specs.System.{HoldRows};
ghost use Rattle.isl_loop.specs.Expr.{expr_value};
ghost use Rattle.isl_loop.specs.Formed.{IsExprOver};
ghost use Rattle.isl_loop.specs.Lists.{extreme_in};
ghost use Rattle.isl_bounds.specs.Bound.{AreEndGroups, AreEnds, HoldSome, IsBoundOf, IsEnd};
ghost use Rattle.isl_bounds.specs.Side.{tighter};

use crate::Side;
use crate::form::{divided, of_atom};
use isl_frame::isolated;
use isl_loop::{Atom, Expr};
use isl_meter::Meter;
use isl_piece::{Row, Rows};
use sqlite_items::Items;
use std::alloc::{AllocError, Global};

// Of bounds the tightest: the greatest from below, the least from above; 0 where there are none.
fn tightest(alloc: Global, bounds: Items<Expr>, side: Side) -> Result<Expr, AllocError>
    ensures over { (g : Gauge) (n : ℕ) → 8 ≤ g.bits → All (IsExprOver g n) bounds → IfOk result (IsExprOver g n) }
    ensures value { (point : List ℤ) → IfOk result (λ e. expr_value e point ≡ extreme_in (tighter side) bounds point) }
{
    let mut bounds = bounds;
    let Some(last) = bounds.pop() else {
        return Ok(Expr {
            items: Items::new(alloc),
            constant: 0,
        });
    };
    if bounds.is_empty() {
        return Ok(last);
    }
    bounds.push(last)?;
    match side {
        Side::Low => of_atom(alloc, Atom::Max(bounds)),
        Side::High => of_atom(alloc, Atom::Min(bounds)),
    }
}

// The bound that an inequality is.
fn end_bound(
    alloc: Global,
    row: &Row,
    variables: usize,
    side: Side,
    meter: &Meter,
) -> Result<Expr, AllocError>
    requires { IsEnd meter.now variables side row.now }
    ensures { IfOk result (IsBoundOf meter.now variables side (HoldsRow row.now)) }
{
    // For what a meter keeps: it has at least 8 bits.
    let _limit = meter.limit();
    let entry = isolated(alloc, row, variables, meter)?;
    divided(alloc, &entry, side)
}

// The bound that inequalities are together.
fn group_bound(
    alloc: Global,
    rows: &Rows,
    variables: usize,
    side: Side,
    meter: &Meter,
) -> Result<Expr, AllocError>
    requires { AreEnds meter.now variables side rows.now }
    ensures { IfOk result (IsBoundOf meter.now variables side (HoldRows rows.now)) }
{
    // For what a meter keeps: it has at least 8 bits.
    let _limit = meter.limit();
    let mut bounds = Items::new(alloc);
    for row in rows.as_slice() {
        bounds.push(end_bound(alloc, row, variables, side, meter)?)?;
    }
    tightest(alloc, bounds, side)
}

/// What bounds a column where all rows of some group hold: from below the least of groups, each the greatest of its rows' bounds; from
/// above the other way round.
///
/// # Errors
///
/// `AllocError` where memory ends.
pub fn bound_of(
    alloc: Global,
    groups: &[Rows],
    variables: usize,
    side: Side,
    meter: &Meter,
) -> Result<Expr, AllocError>
    requires { AreEndGroups meter.now variables side groups.now }
    ensures { IfOk result (IsBoundOf meter.now variables side (HoldSome groups.now)) }
{
    // For what a meter keeps: it has at least 8 bits.
    let _limit = meter.limit();
    let mut bounds = Items::new(alloc);
    for rows in groups {
        bounds.push(group_bound(alloc, rows, variables, side, meter)?)?;
    }
    tightest(alloc, bounds, side.opposite())
}

//! Where a loop with a step begins.

ghost use Rattle.std.specs.Prelude.{◌≡◌, ◌<◌, ◌+ℤ◌, ◌*ℤ◌, ◌<ℤ◌, pos, ℕ, ℤ, List, [], ◌∷◌, length, All, IfOk, IfSome, IsTrue};
ghost use Rattle.isl_math.specs.Divide.{Divides};
ghost use Rattle.isl_math.specs.Dot.{dot};
ghost use Rattle.isl_meter.specs.Gauge.{Gauge, IsDone, IsWithin};
ghost use Rattle.isl_piece.specs.Row.{coef_at, value_at, IsRowWithin};
ghost use Rattle.isl_frame.specs.Frame.{isolated};
ghost use Rattle.isl_loop.specs.Expr.{ceil_div, expr_value};
ghost use Rattle.isl_loop.specs.Formed.{IsExprOver};
ghost use Rattle.isl_bounds.specs.Aligned.{first_turn, IsAlignedTo, IsFirstTurn};
ghost use Rattle.isl_bounds.specs.Bound.{AreEndGroups};
ghost use Rattle.isl_bounds.specs.Step.{IsStep};
ghost use Rattle.isl_bounds.specs.declared.side.Side.TheVariants.{Low};

use crate::Side;
use crate::bound::bound_of;
use crate::form::{form, summands};
use isl_frame::isolated;
use isl_loop::{Atom, Expr, Item};
use isl_meter::{Cut, Int, Meter};
use isl_piece::{Row, Rows, combination};
use sqlite_items::Boxed;
use std::alloc::{AllocError, Global};

// The sum of an expression and a form. Uses no unit.
fn plus(
    alloc: Global,
    expr: Expr,
    coefs: &[Int],
    constant: Int,
    meter: &mut Meter,
) -> Result<Expr, Cut>
    requires over { IsExprOver meter.old (length coefs.now) expr }
    requires coefs { All (IsWithin meter.old) coefs.now }
    ensures { IsDone meter.old meter.new
        (λ sum. IsExprOver meter.old (length coefs.now) sum × ((point : List ℤ) → length coefs.now ≡ length point
        → expr_value sum point ≡ expr_value expr point +ℤ (dot coefs.now point +ℤ constant)))
        result }
{
    let Expr {
        mut items,
        constant: own,
    } = expr;
    let constant = Int::new(own).add(constant, meter)?;
    items.append(summands(alloc, coefs)?)?;
    Ok(Expr {
        items,
        constant: constant.get(),
    })
}

// The form, and as many times `k` as `k` goes into the expression, rounded up.
fn plus_multiple(alloc: Global, own: &Row, beyond: Expr, k: i128) -> Result<Expr, AllocError>
    requires { pos 0 <ℤ k }
    ensures over { (g : Gauge) (n : ℕ) → IsRowWithin g own.now → length own.now.coefs ≡ n → IsExprOver g n beyond → IsWithin g k
        → IfOk result (IsExprOver g n) }
    ensures value { (point : List ℤ) → length own.now.coefs ≡ length point
        → IfOk result (λ e. expr_value e point ≡ value_at own.now point +ℤ k *ℤ ceil_div (expr_value beyond point) k) }
{
    let mut items = summands(alloc, own.coefs.as_slice())?;
    let atom = Atom::Ceil(Boxed::new(alloc, beyond)?, k);
    items.push(Item { coef: k, atom })?;
    Ok(Expr {
        items,
        constant: own.constant,
    })
}

// The first number from the bound on that leaves modulo `k` what the step tells of the column. Uses no unit.
fn aligned(
    alloc: Global,
    low: Expr,
    step: &Row,
    variables: usize,
    meter: &mut Meter,
) -> Result<Expr, Cut>
    requires low { IsExprOver meter.old variables low }
    requires step { IsStep meter.old variables step.now }
    ensures { IsDone meter.old meter.new (IsAlignedTo meter.old variables step.now (expr_value low)) result }
{
    let own = isolated(alloc, step, variables, meter)?;
    let mut coefs = step.coefs.copy(alloc)?;
    coefs.remove(variables);
    let beyond = plus(alloc, low, coefs.as_slice(), step.constant(), meter)?;
    Ok(plus_multiple(alloc, &own, beyond, step.k)?)
}

// Whether `k` divides all of them.
fn are_multiples(numbers: &[Int], k: Int, meter: &Meter) -> bool
    requires within { IsWithin meter.now k }
    requires divisor { pos 0 <ℤ k }
    ensures { IsTrue result → All (Divides k) numbers.now }
{
    numbers
        .iter()
        .all(|number| number.modulo(k, meter).is_zero())
}

// The first number from one form on that leaves modulo `k` what another one leaves. Uses no unit.
fn aligned_form(alloc: Global, low: &Row, own: &Row, k: Int, meter: &mut Meter) -> Result<Expr, Cut>
    requires low { IsRowWithin meter.old low.now }
    requires own { IsRowWithin meter.old own.now }
    requires width { length low.now.coefs ≡ length own.now.coefs }
    requires within { IsWithin meter.old k }
    requires divisor { pos 0 <ℤ k }
    ensures { IsDone meter.old meter.new
        (λ first. IsExprOver meter.old (length own.now.coefs) first × ((point : List ℤ) → length own.now.coefs ≡ length point
        → expr_value first point ≡ first_turn (value_at own.now point) k (value_at low.now point)))
        result }
{
    // For what a meter keeps: it has at least 8 bits.
    let _limit = meter.limit();
    let beyond = combination(alloc, Int::ONE, low, Int::ONE.neg(meter), own, meter)?;
    if are_multiples(beyond.coefs.as_slice(), k, meter) {
        let missing = beyond.constant().neg(meter).modulo(k, meter);
        let constant = low.constant().add(missing, meter)?;
        return Ok(Expr {
            items: summands(alloc, low.coefs.as_slice())?,
            constant: constant.get(),
        });
    }
    Ok(plus_multiple(alloc, own, form(alloc, &beyond)?, k.get())?)
}

// The bound that all groups are, where there is one group of one bound, in which the column has the coefficient 1.
fn unit_bound(groups: &[Rows], variables: usize) -> Option<&Row>
    requires { All (All (λ r. variables < length r.coefs)) groups.now }
    ensures { IfSome result (λ end. (groups.now ≡ (end.now ∷ []) ∷ []) × (coef_at end.now variables ≡ pos 1)) }
{
    match groups {
        [rows] => match rows.as_slice() {
            [end] if end.coefs.get(variables) == Int::ONE => Some(end),
            _ => None,
        },
        _ => None,
    }
}

// The first number at which some group of bounds from below holds, and the step. Uses no unit.
pub(crate) fn first_turn(
    alloc: Global,
    lows: &[Rows],
    step: &Row,
    variables: usize,
    meter: &mut Meter,
) -> Result<Expr, Cut>
    requires lows { AreEndGroups meter.old variables Low lows.now }
    requires step { IsStep meter.old variables step.now }
    ensures { IsDone meter.old meter.new (IsFirstTurn meter.old variables lows.now step.now) result }
{
    match unit_bound(lows, variables) {
        Some(end) => {
            let low = isolated(alloc, end, variables, meter)?;
            let own = isolated(alloc, step, variables, meter)?;
            aligned_form(alloc, &low, &own, step.modulus(), meter)
        }
        None => {
            let low = bound_of(alloc, lows, variables, Side::Low, meter)?;
            aligned(alloc, low, step, variables, meter)
        }
    }
}

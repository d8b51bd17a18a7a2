//! Sums with quotients, from forms.

ghost use Rattle.std.specs.Prelude.{◌≡◌, ◌≤◌, ◌+ℤ◌, ◌*ℤ◌, ◌<ℤ◌, pos, ℕ, ℤ, List, length, All, IfOk};
ghost use Rattle.isl_math.specs.Divide.{floor_div};
ghost use Rattle.isl_math.specs.Dot.{dot};
ghost use Rattle.isl_meter.specs.Gauge.{Gauge, IsWithin};
ghost use Rattle.isl_loop.specs.Expr.{expr_value};
ghost use Rattle.isl_loop.specs.Formed.{IsExprOver};
ghost use Rattle.isl_greatest.specs.Summands.{AreSummands};

use isl_loop::{Atom, Expr, Item};
use isl_meter::Int;
use isl_quast::QExpr;
use sqlite_items::{Boxed, Items};
use std::alloc::{AllocError, Global};

// One summand for each coefficient that is not 0.
fn summands(alloc: Global, coefs: &[Int]) -> Result<Items<Item>, AllocError>
    ensures { IfOk result (AreSummands coefs.now (length coefs.now)) }
{
    let mut items = Items::new(alloc);
    for i in 0..coefs.len() {
        if coefs[i].is_zero() {
            continue;
        }
        items.push(Item {
            coef: coefs[i].get(),
            atom: Atom::Column(i),
        })?;
    }
    Ok(items)
}

/// The form with these coefficients, one for each of the first columns, and the constant.
///
/// # Errors
///
/// Where memory ends.
pub(crate) fn form_sum(alloc: Global, coefs: &[Int], constant: Int) -> Result<QExpr, AllocError>
    ensures over { (g : Gauge) (n : ℕ) → All (IsWithin g) coefs.now → IsWithin g constant → length coefs.now ≤ n → IfOk result (IsExprOver g n) }
    ensures value { (point : List ℤ) → length coefs.now ≡ length point
        → IfOk result (λ e. expr_value e point ≡ dot coefs.now point +ℤ constant) }
{
    let items = summands(alloc, coefs)?;
    let expr = Expr {
        items,
        constant: constant.get(),
    };
    Ok(QExpr::new(expr))
}

/// The sum with one summand more: so many times another sum, divided by `k` and rounded down.
///
/// # Errors
///
/// Where memory ends.
pub(crate) fn with_quotient(
    alloc: Global,
    sum: QExpr,
    coef: Int,
    dividend: QExpr,
    k: Int,
) -> Result<QExpr, AllocError>
    requires { pos 0 <ℤ k }
    ensures over { (g : Gauge) (n : ℕ) → IsExprOver g n sum → IsWithin g coef → IsExprOver g n dividend → IsWithin g k
        → IfOk result (IsExprOver g n) }
    ensures value { (point : List ℤ)
        → IfOk result (λ e. expr_value e point ≡ expr_value sum point +ℤ coef *ℤ floor_div (expr_value dividend point) k) }
{
    let dividend = Boxed::new(alloc, dividend.into_expr())?;
    let mut expr = sum.into_expr();
    expr.items.push(Item {
        coef: coef.get(),
        atom: Atom::Floor(dividend, k.get()),
    })?;
    Ok(QExpr::new(expr))
}

//! The values of expressions.

ghost use Rattle.std.specs.Prelude.{◌≡◌, ◌<ℤ◌, pos, length, All, Any, IfOk, MatchOption};
ghost use Rattle.isl_meter.specs.Gauge.{IsWithin};
ghost use Rattle.isl_loop.specs.Expr.{atom_value, ceil_div, expr_value};
ghost use Rattle.isl_loop.specs.Formed.{AtomPasses, ExprPasses, IsAtomOver, IsExprOver};
ghost use Rattle.isl_loop.specs.Lists.{extreme_in, sum_of, IsItemOver, ItemsPass};
ghost use Rattle.isl_ast.specs.Value.{IsValued};
ghost use Rattle.isl_quast.specs.Value.{better};

use isl_loop::{Atom, Expr, Item};
use isl_meter::{Int, Meter, Overflow};

#[derive(Clone, Copy)]
enum Extreme {
    Least,
    Greatest,
}

impl Extreme {
    // The lesser of two numbers, or the greater.
    fn of(self, a: Int, b: Int) -> Int
        ensures { result ≡ better self a b }
    {
        match self {
            Extreme::Least => a.min(b),
            Extreme::Greatest => a.max(b),
        }
    }

    // The best of those before, and one more.
    fn with(self, best: Option<Int>, number: Int) -> Int
        ensures { MatchOption best (result ≡ number) (λ old. result ≡ better self old number) }
    {
        match best {
            Some(old) => self.of(old, number),
            None => number,
        }
    }
}

// The quotient, rounded up.
fn ceiling(number: Int, k: Int, meter: &Meter) -> Int
    requires within { IsWithin meter.now number }
    requires divisor { pos 0 <ℤ k }
    ensures { result ≡ ceil_div number k }
{
    number.neg(meter).floor_div(k, meter).neg(meter)
}

/// The value of an expression at a point.
///
/// # Errors
///
/// `Overflow` where a product or a sum passes the limit of the meter.
#[cycle(value)]
pub(crate) fn value(expr: &Expr, point: &[i128], meter: &mut Meter) -> Result<Int, Overflow>
    requires { IsExprOver meter.old (length point.now) expr.now }
    ensures value { IsValued meter.old meter.new (expr_value expr.now point.now) (ExprPasses meter.old point.now expr.now) result }
    ensures within { IfOk result (IsWithin meter.old) }
{
    let sum = total(expr.items.as_slice(), point, meter)?;
    sum.add(Int::new(expr.constant), meter)
}

// The sum of the products.
#[cycle(value)]
fn total(items: &[Item], point: &[i128], meter: &mut Meter) -> Result<Int, Overflow>
    requires { All (IsItemOver meter.old (length point.now)) items.now }
    ensures { IsValued meter.old meter.new (sum_of items.now point.now) (ItemsPass meter.old point.now (pos 0) items.now) result }
{
    let mut sum = Int::ZERO;
    for item in items {
        let number = atom_value(&item.atom, point, meter)?;
        let product = Int::new(item.coef).mul(number, meter)?;
        let next = sum.add(product, meter)?;
        sum = next;
    }
    Ok(sum)
}

#[cycle(value)]
fn atom_value(atom: &Atom, point: &[i128], meter: &mut Meter) -> Result<Int, Overflow>
    requires { IsAtomOver meter.old (length point.now) atom.now }
    ensures { IsValued meter.old meter.new (atom_value atom.now point.now) (AtomPasses meter.old point.now atom.now) result }
{
    match atom {
        Atom::Column(place) => Ok(Int::new(point[*place])),
        Atom::Floor(dividend, k) => {
            let number = value(dividend.get(), point, meter)?;
            Ok(number.floor_div(Int::new(*k), meter))
        }
        Atom::Ceil(dividend, k) => {
            let number = value(dividend.get(), point, meter)?;
            Ok(ceiling(number, Int::new(*k), meter))
        }
        Atom::Min(parts) => best_of(Extreme::Least, parts.as_slice(), point, meter),
        Atom::Max(parts) => best_of(Extreme::Greatest, parts.as_slice(), point, meter),
    }
}

// The least of the values, or the greatest; 0 where there is none.
#[cycle(value)]
fn best_of(
    which: Extreme,
    parts: &[Expr],
    point: &[i128],
    meter: &mut Meter,
) -> Result<Int, Overflow>
    requires { All (IsExprOver meter.old (length point.now)) parts.now }
    ensures { IsValued meter.old meter.new (extreme_in (better which) parts.now point.now)
        (Any (ExprPasses meter.old point.now) parts.now) result }
{
    let mut best = None;
    for part in parts {
        let number = value(part, point, meter)?;
        best = Some(which.with(best, number));
    }
    Ok(best.unwrap_or(Int::ZERO))
}

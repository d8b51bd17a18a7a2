//! The arguments of calls.

ghost use Rattle.std.specs.Prelude.{◌≡◌, length, map, All, Any, MatchResult};
ghost use Rattle.isl_loop.specs.Expr.{expr_value};
ghost use Rattle.isl_loop.specs.Formed.{ExprPasses, IsExprOver};
ghost use Rattle.isl_ast.specs.Run.{IsEnded};

use crate::value::value;
use isl_loop::Expr;
use isl_meter::{Cut, Meter};

/// Puts the values of the arguments at a point in the place of other numbers.
///
/// # Errors
///
/// As every call under a meter.
pub(crate) fn set_values(
    numbers: &mut Vec<i128>,
    args: &[Expr],
    point: &[i128],
    meter: &mut Meter,
) -> Result<(), Cut>
    requires { All (IsExprOver meter.old (length point.now)) args.now }
    ensures { MatchResult result
        (λ _. (numbers.new.items ≡ map (λ e. expr_value e point.now) args.now) × (meter.new ≡ meter.old))
        (IsEnded meter.old meter.new 0 (Any (ExprPasses meter.old point.now) args.now)) }
{
    numbers.clear();
    for arg in args {
        numbers.push(value(arg, point, meter)?.get())?;
    }
    Ok(())
}

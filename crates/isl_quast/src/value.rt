//! The numbers at the leaves of trees.

ghost use Rattle.std.specs.Prelude.{◌≡◌, None, Some, length, map, All, Any, MatchOption, MatchResult};
ghost use Rattle.isl_loop.specs.Expr.{expr_value};
ghost use Rattle.isl_loop.specs.Formed.{ExprPasses, IsExprOver};
ghost use Rattle.isl_piece.specs.Cut.{IsCutFor};
ghost use Rattle.isl_quast.specs.Tree.{quast_at, IsQuastOver, WayPasses};

use crate::number::value;
use crate::{QExpr, Quast};
use isl_meter::{Cut, Meter};
use std::alloc::Global;

// The numbers of a leaf.
fn leaf_at(alloc: Global, exprs: &[QExpr], at: &[i128], meter: &mut Meter) -> Result<Vec<i128>, Cut>
    requires { All (IsExprOver meter.old (length at.now)) exprs.now }
    ensures { MatchResult result
        (λ numbers. (numbers.items ≡ map (λ e. expr_value e at.now) exprs.now) × (meter.new ≡ meter.old))
        (λ cut. IsCutFor (Any (ExprPasses meter.old at.now) exprs.now) meter.old meter.new cut) }
{
    let mut numbers = Vec::new(alloc);
    for expr in exprs {
        numbers.push(value(expr.as_expr(), at, meter)?.get())?;
    }
    Ok(numbers)
}

/// The numbers of a tree, where its columns have these numbers; `None` where it comes to nothing. Uses no unit.
///
/// # Errors
///
/// `Overflow` where a product or a sum of an expression on the way passes the limit of the meter, and `NoMemory`.
pub fn value_at(
    alloc: Global,
    tree: &Quast,
    at: &[i128],
    meter: &mut Meter,
) -> Result<Option<Vec<i128>>, Cut>
    requires { IsQuastOver meter.old (length at.now) tree.now }
    ensures { MatchResult result
        (λ found. MatchOption found (quast_at tree.now at.now ≡ None) (λ numbers. quast_at tree.now at.now ≡ Some numbers.items)
        × (meter.new ≡ meter.old))
        (λ cut. IsCutFor (WayPasses meter.old at.now tree.now) meter.old meter.new cut) }
{
    match tree {
        Quast::Missing => Ok(None),
        Quast::Leaf(exprs) => Ok(Some(leaf_at(alloc, exprs.as_slice(), at, meter)?)),
        Quast::If { test, yes, no } => {
            let number = value(test.as_expr(), at, meter)?;
            if number.is_negative() {
                value_at(alloc, no.get(), at, meter)
            } else {
                value_at(alloc, yes.get(), at, meter)
            }
        }
    }
}

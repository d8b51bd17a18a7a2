//! Trees without one of the numbers of their leaves.

ghost use Rattle.std.specs.Prelude.{◌≡◌, ◌+◌, ◌<◌, ℕ, ℤ, List, IfOk, option_map};
ghost use Rattle.std.specs.List.{remove};
ghost use Rattle.isl_meter.specs.Gauge.{Gauge};
ghost use Rattle.isl_quast.specs.Tree.{quast_at, HasWidth, IsQuastOver};

use isl_quast::Quast;
use sqlite_items::Boxed;
use std::alloc::{AllocError, Global};

/// The tree without the numbers at the place of its leaves.
///
/// # Errors
///
/// Where memory ends.
pub(crate) fn without(
    alloc: Global,
    tree: Quast,
    width: usize,
    place: usize,
) -> Result<Quast, AllocError>
    requires inside { place < width + 1 }
    requires leaves { HasWidth (width + 1) tree }
    ensures gives { (numbers : List ℤ) → IfOk result (λ made. quast_at made numbers ≡ option_map (λ ys. remove ys place) (quast_at tree numbers)) }
    ensures over { (g : Gauge) (n : ℕ) → IsQuastOver g n tree → IfOk result (IsQuastOver g n) }
    ensures leaves { IfOk result (HasWidth width) }
{
    match tree {
        Quast::Missing => Ok(Quast::Missing),
        Quast::Leaf(exprs) => {
            let mut exprs = exprs;
            let _gone = exprs.remove(place);
            Ok(Quast::Leaf(exprs))
        }
        Quast::If { test, yes, no } => {
            let above = yes.into_inner();
            let below = no.into_inner();
            let up = without(alloc, above, width, place)?;
            let down = without(alloc, below, width, place)?;
            let first = Boxed::new(alloc, up)?;
            let second = Boxed::new(alloc, down)?;
            Ok(Quast::If {
                test,
                yes: first,
                no: second,
            })
        }
    }
}

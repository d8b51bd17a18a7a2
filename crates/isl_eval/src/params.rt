//! From parameter sets to what is assumed.

ghost use Rattle.std.specs.Prelude.{◌≡◌, ◌↔◌, All, IfOk, true};
ghost use Rattle.isl_meter.specs.Gauge.{IsMetered};
ghost use Rattle.isl_space.specs.Valuation.{Valuation};
ghost use Rattle.isl_tree.specs.Known.{literal_is_known};
ghost use Rattle.isl_lower.specs.Value.{IsWellFormedLiteral};
ghost use Rattle.isl_assumed.specs.Assumed.{names_of, Assumes, IsPlain, IsSound};
ghost use Rattle.isl_eval.specs.Params.{HasNoCoordinates, HoldsSome};

use isl_assumed::Assumed;
use isl_lower::lower;
use isl_meter::{Cut, Meter};
use isl_tree::tree::Literal;
use std::alloc::Global;

/// The valuations at which one formula of the parameter set holds. Each identifier of it is known. (isl manual, on parameter domains)
///
/// # Errors
///
/// As every call under a meter.
pub(crate) fn lower_params(alloc: Global, tree: &Literal, meter: &mut Meter) -> Result<Assumed, Cut>
    requires known { literal_is_known tree.now ≡ true }
    requires well_formed { IsWellFormedLiteral tree.now }
    requires shape { All HasNoCoordinates tree.now.pieces }
    ensures names { IfOk result (λ assumed. names_of assumed ≡ tree.now.params) }
    ensures valuations { (valuation : Valuation) → IfOk result (λ assumed. Assumes assumed valuation ↔ HoldsSome tree.now valuation) }
    ensures sound { IfOk result (IsSound meter.old) }
    ensures plain { IfOk result IsPlain }
    ensures meter { IsMetered meter.old meter.new result }
{
    let value = lower(alloc, tree, meter)?;
    let flat = value.flat(alloc, meter)?;
    Assumed::of(alloc, &flat, meter)
}

//! Which accesses come before others.

ghost use Rattle.std.specs.Prelude.{◌≡◌, ◌↔◌, All, Any, IfOk};
ghost use Rattle.isl_meter.specs.Gauge.{IsMetered};
ghost use Rattle.isl_space.specs.Element.{Element};
ghost use Rattle.isl_space.specs.Names.{joined};
ghost use Rattle.isl_space.specs.Valuation.{Valuation};
ghost use Rattle.isl_union.specs.KeptValue.{Has, HasNoDefinitions, IsKeptValue};
ghost use Rattle.isl_union.specs.Numbers.{IsWithinLimit};
ghost use Rattle.isl_relation.specs.Flow.{AnyHas};
ghost use Rattle.isl_relation.specs.Formed.{FormsAccess};
ghost use Rattle.isl_relation.specs.Wide.{PairsTooWide};
ghost use Rattle.isl_images.specs.Made.{IsPlain};
ghost use Rattle.isl_remainder.specs.Made.{AreMade};
ghost use Rattle.isl_precedence.specs.Precedence.{HasAt, IsPlainPrecedence, IsPrecedence, IsSound, Shows};
ghost use Rattle.isl_precedence.specs.WideAccess.{IsFormed};

use crate::operands::aligned;
use crate::precedence::{Precedence, precedences};
use crate::wide::have_wide_access;
use isl_meter::{Cut, Meter};
use isl_piece::Piece;
use isl_remainder::left_without;
use isl_space::{Params, Space};
use isl_union::{OpFault, Value, append, pieces_in};
use std::alloc::Global;

// The pieces from source to sink of a precedence.
#[tactic(auto, using(std::proofs::lemmas::Grind::common_steps, isl_meter::proofs::CutLemmas::charges))]
fn pieces_of(
    alloc: Global,
    params: &Params,
    precedence: &Precedence,
    meter: &mut Meter,
) -> Result<Vec<Piece>, Cut>
    requires precedence { IsPrecedence meter.old params.now precedence.now }
    ensures made { IfOk result (λ made. AreMade (HasAt params.now) (IsSound meter.old params.now) IsPlain (IsPlainPrecedence precedence.now)
        (λ at. Shows params.now at.0 at.1 precedence.now) made.items) }
    ensures meter { IsMetered meter.old meter.new result }
{
    let forms = &precedence.forms;
    let kept = params.len() + forms.source.width() as usize + forms.sink.width() as usize;
    let rest = forms.access.width() as usize + 2 * forms.time.width() as usize;
    let systems = left_without(alloc, &precedence.system, kept, rest, meter)?;
    let space = Space::Map(forms.source.clone()?, forms.sink.clone()?);
    Ok(pieces_in(alloc, &space, systems)?)
}

/// The pieces from source to sink of each of the precedences.
#[tactic(auto, using(std::proofs::lemmas::Grind::common_steps, isl_meter::proofs::CutLemmas::charges))]
pub fn all_pieces_of(
    alloc: Global,
    params: &Params,
    precedences: &[Precedence],
    meter: &mut Meter,
) -> Result<Vec<Piece>, Cut>
    requires precedences { All (IsPrecedence meter.old params.now) precedences.now }
    ensures made { IfOk result (λ made. AreMade (HasAt params.now) (IsSound meter.old params.now) IsPlain
        (All IsPlainPrecedence precedences.now)
        (λ at. Any (Shows params.now at.0 at.1) precedences.now) made.items) }
    ensures meter { IsMetered meter.old meter.new result }
{
    let mut made = Vec::new(alloc);
    for precedence in precedences {
        let more = pieces_of(alloc, params, precedence, meter)?;
        append(&mut made, more)?;
    }
    Ok(made)
}

/// From x to y, where for some a, p and q the source `m` maps x to a, the sink `n` maps y to a, and the schedule `t` maps x to p and y
/// to q, and p is lexicographically less than q, in the same shape; over the joined parameters of the three. (isl manual, dependence
/// analysis; the iscc chapter of the barvinok manual)
///
/// # Errors
///
/// As every call under a meter; and `TooWide` exactly where the three together declare more than 16 parameters, or a map of `m` and one
/// of `n` have ranges of one shape, and that from the domain of the one to the domain of the other has more coordinates or leaves than a
/// space may have, unless memory ends: no unit is used then.
pub fn any(
    alloc: Global,
    m: &Value,
    n: &Value,
    t: &Value,
    meter: &mut Meter,
) -> Result<Value, OpFault>
    requires sources { IsWithinLimit meter.old m.now }
    requires sinks { IsWithinLimit meter.old n.now }
    requires times { IsWithinLimit meter.old t.now }

    // The value, and what it has.
    ensures kept { IfOk result IsKeptValue }
    ensures params { IfOk result (λ value. value.params ≡ joined (joined m.now.params n.now.params) t.now.params) }
    ensures elements { (valuation : Valuation) (element : Element)
        → IfOk result (λ value. Has value valuation element
        ↔ AnyHas (Has m.now valuation) (Has n.now valuation) (Has t.now valuation) element) }

    // How it is written, and what that cost.
    ensures definitions { HasNoDefinitions m.now → HasNoDefinitions n.now → HasNoDefinitions t.now → IfOk result HasNoDefinitions }
    ensures numbers { IfOk result (IsWithinLimit meter.old) }
    ensures units { IsFormed (joined (joined m.now.params n.now.params) t.now.params) (PairsTooWide FormsAccess m.now n.now)
        meter.old meter.new result }
{
    let operands = aligned(alloc, m, n, t, meter)?;
    if have_wide_access(m.pieces(), n.pieces())? {
        return Err(OpFault::TooWide);
    }
    let params = &operands.params;
    let sources = operands.sources.as_slice();
    let sinks = operands.sinks.as_slice();
    let times = operands.times.as_slice();
    let found = precedences(alloc, params, sources, sinks, times, false, meter)?;
    let made = all_pieces_of(alloc, params, found.as_slice(), meter)?;
    Ok(Value::from_normal(operands.params, made))
}

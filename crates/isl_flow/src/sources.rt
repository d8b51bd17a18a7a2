//! Which accesses are the last before others.

ghost use Rattle.std.specs.Prelude.{◌≡◌, ◌↔◌, All, IfOk};
ghost use Rattle.isl_meter.specs.Gauge.{IsMetered};
ghost use Rattle.isl_space.specs.Element.{Element};
ghost use Rattle.isl_space.specs.Names.{joined};
ghost use Rattle.isl_space.specs.Valuation.{Valuation};
ghost use Rattle.isl_union.specs.Fault.{IsMeteredAnswer};
ghost use Rattle.isl_union.specs.KeptValue.{KeptValue, Has, HasNoDefinitions, IsKeptValue};
ghost use Rattle.isl_union.specs.Numbers.{IsWithinLimit};
ghost use Rattle.isl_relation.specs.Flow.{LastHas, UnsourcedHas};
ghost use Rattle.isl_relation.specs.Formed.{FormsAccess};
ghost use Rattle.isl_relation.specs.Wide.{PairsTooWide};
ghost use Rattle.isl_images.specs.Made.{IsPlain};
ghost use Rattle.isl_flow.specs.Last.{AreFound, AreNarrow, IsFlowOf, ShowsLast, ShowsSink};
ghost use Rattle.isl_remainder.specs.Made.{AreMade};
ghost use Rattle.isl_precedence.specs.Operands.{AreAligned};
ghost use Rattle.isl_precedence.specs.Precedence.{HasAt, IsAccessed, IsPlainPrecedence, IsSound};
ghost use Rattle.isl_precedence.specs.WideAccess.{IsFormed};

use crate::sinks::{maps_in, pieces_without};
use crate::turned::all_turned;
use isl_meter::{Cut, Meter};
use isl_piece::Piece;
use isl_precedence::{
    Operands, Precedence, aligned, all_lasts, all_laters, all_pieces_of, have_wide_access,
    precedences,
};
use isl_space::Params;
use isl_union::{OpFault, Value};
use std::alloc::Global;

/// The last sources of sinks, and the sinks without one.
#[derive(Drop)]
pub struct Flow {
    /// From a source to a sink of the same place that it comes before, where no other source of that place comes between.
    pub last: Value,
    /// From a sink to the place that it accesses, where no source of that place comes before it.
    pub unsourced: Value,
}

// The precedences that have a point.
#[tactic(auto, using(std::proofs::lemmas::Grind::common_steps, isl_meter::proofs::CutLemmas::charges))]
fn live_precedences(
    alloc: Global,
    operands: &Operands,
    meter: &mut Meter,
) -> Result<Vec<Precedence>, Cut>
    requires sources { All (IsSound meter.old operands.now.params) operands.now.sources.items }
    requires sinks { All (IsSound meter.old operands.now.params) operands.now.sinks.items }
    requires times { All (IsSound meter.old operands.now.params) operands.now.times.items }
    requires narrow { AreNarrow operands.now.sources.items operands.now.sinks.items }
    ensures made { IfOk result (λ made. AreFound meter.old operands.now made.items) }
    ensures meter { IsMetered meter.old meter.new result }
{
    let params = &operands.params;
    let sources = operands.sources.as_slice();
    let sinks = operands.sinks.as_slice();
    let times = operands.times.as_slice();
    precedences(alloc, params, sources, sinks, times, true, meter)
}

// The pieces from the last sources to their sinks.
#[tactic(auto, using(std::proofs::lemmas::Grind::common_steps, isl_meter::proofs::CutLemmas::charges))]
fn last_pieces(
    alloc: Global,
    params: &Params,
    found: &[Precedence],
    meter: &mut Meter,
) -> Result<Vec<Piece>, Cut>
    requires found { All (IsAccessed meter.old params.now) found.now }
    ensures made { IfOk result (λ made. AreMade (HasAt params.now) (IsSound meter.old params.now) IsPlain (All IsPlainPrecedence found.now)
        (λ at. ShowsLast params.now at.0 at.1 found.now) made.items) }
    ensures meter { IsMetered meter.old meter.new result }
{
    let laters = all_laters(alloc, params, found, meter)?;
    let lasts = all_lasts(alloc, params, found, laters.as_slice(), meter)?;
    Ok(lasts)
}

// The pieces from the sinks to their places.
#[tactic(auto, using(std::proofs::lemmas::Grind::common_steps, isl_meter::proofs::CutLemmas::charges))]
fn sink_pieces(
    alloc: Global,
    params: &Params,
    found: &[Precedence],
    meter: &mut Meter,
) -> Result<Vec<Piece>, Cut>
    requires found { All (IsAccessed meter.old params.now) found.now }
    ensures made { IfOk result (λ made. AreMade (HasAt params.now) (IsSound meter.old params.now) IsPlain (All IsPlainPrecedence found.now)
        (λ at. ShowsSink params.now at.0 at.1 found.now) made.items) }
    ensures meter { IsMetered meter.old meter.new result }
{
    let turned = all_turned(alloc, params, found, meter)?;
    all_pieces_of(alloc, params, turned.as_slice(), meter)
}

// The flow of three values over their joined parameters.
fn flow_of(alloc: Global, operands: Operands, meter: &mut Meter) -> Result<Flow, OpFault>
    requires aligned { (m : KeptValue) × (n : KeptValue) × (t : KeptValue) × AreAligned meter.old m n t operands }
    requires narrow { AreNarrow operands.sources.items operands.sinks.items }
    ensures made { (m n t : KeptValue) → AreAligned meter.old m n t operands → IfOk result (IsFlowOf meter.old operands.params m n t) }
    ensures meter { IsMeteredAnswer meter.old meter.new result }
{
    let found = live_precedences(alloc, &operands, meter)?;
    let last = last_pieces(alloc, &operands.params, found.as_slice(), meter)?;
    let seen = sink_pieces(alloc, &operands.params, found.as_slice(), meter)?;
    let last = Value::from_normal(operands.params.copy(alloc)?, last);
    let sinks = maps_in(alloc, operands.sinks.as_slice())?;
    let unsourced = pieces_without(alloc, &operands.params, sinks, seen, meter)?;
    Ok(Flow { last, unsourced })
}

/// The sources of `m` that are the last before the sinks of `n` at the times of the schedule `t`: from x to y, where for some a, p and q
/// `m` maps x to a, `n` maps y to a, `t` maps x to p and y to q, p is lexicographically less than q, in the same shape, and no x' of any
/// shape that `m` maps to a has a time of that shape between. Where several come last at one time, each is one. And from y to a those of
/// `n` that no source comes before. Both are over the joined parameters of the three. (isl manual, dependence analysis; the iscc chapter
/// of the barvinok manual)
///
/// # Errors
///
/// As `any`.
pub fn last(
    alloc: Global,
    m: &Value,
    n: &Value,
    t: &Value,
    meter: &mut Meter,
) -> Result<Flow, OpFault>
    requires sources { IsWithinLimit meter.old m.now }
    requires sinks { IsWithinLimit meter.old n.now }
    requires times { IsWithinLimit meter.old t.now }

    // The values, and what they have.
    ensures last_kept { IfOk result (λ flow. IsKeptValue flow.last) }
    ensures unsourced_kept { IfOk result (λ flow. IsKeptValue flow.unsourced) }
    ensures last_params { IfOk result (λ flow. flow.last.params ≡ joined (joined m.now.params n.now.params) t.now.params) }
    ensures unsourced_params { IfOk result (λ flow. flow.unsourced.params ≡ joined (joined m.now.params n.now.params) t.now.params) }
    ensures last { (valuation : Valuation) (element : Element)
        → IfOk result (λ flow. Has flow.last valuation element
        ↔ LastHas (Has m.now valuation) (Has n.now valuation) (Has t.now valuation) element) }
    ensures unsourced { (valuation : Valuation) (element : Element)
        → IfOk result (λ flow. Has flow.unsourced valuation element
        ↔ UnsourcedHas (Has m.now valuation) (Has n.now valuation) (Has t.now valuation) element) }

    // How they are written, and what that cost.
    ensures definitions { HasNoDefinitions m.now → HasNoDefinitions n.now → HasNoDefinitions t.now
        → IfOk result (λ flow. HasNoDefinitions flow.last × HasNoDefinitions flow.unsourced) }
    ensures numbers { IfOk result (λ flow. IsWithinLimit meter.old flow.last × IsWithinLimit meter.old flow.unsourced) }
    ensures units { IsFormed (joined (joined m.now.params n.now.params) t.now.params) (PairsTooWide FormsAccess m.now n.now)
        meter.old meter.new result }
{
    let operands = aligned(alloc, m, n, t, meter)?;
    if have_wide_access(m.pieces(), n.pieces())? {
        return Err(OpFault::TooWide);
    }
    flow_of(alloc, operands, meter)
}

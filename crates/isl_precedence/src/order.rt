//! Times in lexicographic order.

ghost use Rattle.std.specs.Prelude.{◌≡◌, [], IfOk};
ghost use Rattle.isl_math.specs.Order.{IsBefore};
ghost use Rattle.isl_meter.specs.Gauge.{IsMetered};
ghost use Rattle.isl_space.specs.Shape.{form_of};
ghost use Rattle.isl_space.specs.SpaceForm.{map_of, IsWellFormedSpace};
ghost use Rattle.isl_piece.specs.System.{IsSystemWithin, free_columns};
ghost use Rattle.isl_blocks.specs.Blocks.{total};
ghost use Rattle.isl_precedence.specs.Forms.{AreNarrowForms, widths_for};
ghost use Rattle.isl_remainder.specs.Made.{AreMade};
ghost use Rattle.isl_precedence.specs.Precedence.{HasOccurrence, HoldsFor, IsPlainPrecedence, IsAccessed};

use crate::forms::{Forms, widths_for};
use crate::gathered::append;
use crate::live::kept;
use crate::precedence::Precedence;
use isl_blocks::{Direction, order_case};
use isl_meter::{Cut, Meter};
use isl_piece::{System, meet};
use isl_space::Params;
use std::alloc::Global;

/// The precedences of the shapes where the system holds, and the first time comes before the other: one for each place at which they
/// may differ first, for a unit. Where live ones alone are kept, those that have a point.
#[tactic(auto, using(std::proofs::lemmas::Grind::common_steps, isl_meter::proofs::CutLemmas::charges))]
pub(crate) fn ordered(
    alloc: Global,
    params: &Params,
    forms: &Forms,
    system: &System,
    live: bool,
    meter: &mut Meter,
) -> Result<Vec<Precedence>, Cut>
    requires narrow { AreNarrowForms forms.now }
    requires space { IsWellFormedSpace (map_of (form_of forms.now.source.value) (form_of forms.now.sink.value)) }
    requires place { IsWellFormedSpace (map_of (form_of forms.now.sink.value) (form_of forms.now.access.value)) }
    requires within { IsSystemWithin meter.old system.now }
    requires columns { free_columns system.now ≡ total (widths_for params.now forms.now) }
    ensures made { IfOk result (λ made. AreMade (HasOccurrence params.now) (IsAccessed meter.old params.now) IsPlainPrecedence
        (system.now.definitions ≡ [])
        (λ o. HoldsFor params.now forms.now system.now o × IsBefore o.time.numbers o.sink_time.numbers) made.items) }
    ensures meter { IsMetered meter.old meter.new result }
{
    // For what a meter keeps: it has at least 8 bits.
    let _limit = meter.limit();
    let widths = widths_for(alloc, params, forms)?;
    let mut made = Vec::new(alloc);
    for at in 0..forms.time.width() as usize {
        meter.unit()?;
        let case = order_case(alloc, widths.as_slice(), 4, 5, at, Direction::Before)?;
        let precedence = Precedence {
            forms: forms.copy()?,
            system: meet(alloc, system, &case)?,
        };
        let mut more = kept(alloc, params, precedence, live, meter)?;
        append(&mut made, &mut more)?;
    }
    Ok(made)
}

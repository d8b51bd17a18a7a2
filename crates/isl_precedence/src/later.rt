//! Sources that come later than a time.

ghost use Rattle.std.specs.Prelude.{◌≡◌, ◌<◌, ◌^◌, ◌∷◌, [], All, Any, IfOk};
ghost use Rattle.isl_meter.specs.Gauge.{IsMetered};
ghost use Rattle.isl_space.specs.Form.{width_of};
ghost use Rattle.isl_space.specs.Shape.{form_of};
ghost use Rattle.isl_piece.specs.System.{IsSystemWithin, free_columns};
ghost use Rattle.isl_blocks.specs.Blocks.{total};
ghost use Rattle.isl_precedence.specs.Forms.{AreNarrowForms};
ghost use Rattle.isl_precedence.specs.Later.{wide_widths, ComesLater, ComesLaterAt, HasLater, IsLater, IsPlainLater};
ghost use Rattle.isl_remainder.specs.Made.{AreMade};
ghost use Rattle.isl_precedence.specs.Precedence.{IsPlainPrecedence, IsPrecedence};

use crate::forms::Forms;
use crate::gathered::append_laters;
use crate::precedence::Precedence;
use isl_blocks::{Direction, live_without, order_case, spread};
use isl_meter::{Cut, Meter};
use isl_piece::{System, meet};
use isl_space::Params;
use std::alloc::{AllocError, Global};

/// Where a source of a place comes later than a time, and before a sink of the place: systems over the parameters, the sink, the
/// place, the time and that of the sink.
#[derive(Drop)]
pub struct Later {
    pub forms: Forms,
    pub systems: Vec<System>,
}

// How many columns each block has: parameters, sink, access, two times, and behind them another source and its time.
fn wide_widths(alloc: Global, params: &Params, forms: &Forms) -> Result<Vec<usize>, AllocError>
    requires { AreNarrowForms forms.now }
    ensures exact { IfOk result (λ widths. widths.items ≡ wide_widths params.now forms.now) }
    ensures fits { IfOk result (λ _. total (wide_widths params.now forms.now) < 2 ^ 64) }
{
    let time = forms.time.width() as usize;
    let mut widths = Vec::with_capacity(alloc, 7)?;
    widths.push(params.len())?;
    widths.push(forms.sink.width() as usize)?;
    widths.push(forms.access.width() as usize)?;
    widths.push(time)?;
    widths.push(time)?;
    widths.push(forms.source.width() as usize)?;
    widths.push(time)?;
    Ok(widths)
}

// Where the other source's time first differs at the place from the given one, which is less.
#[tactic(auto, using(std::proofs::lemmas::Grind::common_steps, isl_meter::proofs::CutLemmas::charges))]
fn later_at(
    alloc: Global,
    params: &Params,
    forms: &Forms,
    system: &System,
    at: usize,
    meter: &mut Meter,
) -> Result<Later, Cut>
    requires narrow { AreNarrowForms forms.now }
    requires at { at < width_of (form_of forms.now.time.value) }
    requires within { IsSystemWithin meter.old system.now }
    requires free { free_columns system.now ≡ total (wide_widths params.now forms.now) }
    ensures made { IfOk result (λ later. AreMade (HasLater params.now) (IsLater meter.old params.now) IsPlainLater
        (system.now.definitions ≡ []) (ComesLaterAt params.now forms.now system.now at) (later ∷ [])) }
    ensures meter { IsMetered meter.old meter.new result }
{
    // For what a meter keeps: it has at least 8 bits.
    let _limit = meter.limit();
    meter.unit()?;
    let widths = wide_widths(alloc, params, forms)?;
    let case = order_case(alloc, widths.as_slice(), 3, 6, at, Direction::Before)?;
    let both = meet(alloc, system, &case)?;
    let time = forms.time.width() as usize;
    let sides = forms.sink.width() as usize + forms.access.width() as usize;
    let kept = params.len() + sides + 2 * time;
    let rest = forms.source.width() as usize + time;
    Ok(Later {
        forms: forms.copy()?,
        systems: live_without(alloc, &both, kept, rest, meter)?,
    })
}

// Where the precedence has another source, later.
#[tactic(auto, using(std::proofs::lemmas::Grind::common_steps, isl_meter::proofs::CutLemmas::charges))]
fn laters_of(
    alloc: Global,
    params: &Params,
    precedence: &Precedence,
    meter: &mut Meter,
) -> Result<Vec<Later>, Cut>
    requires precedence { IsPrecedence meter.old params.now precedence.now }
    ensures made { IfOk result (λ made. AreMade (HasLater params.now) (IsLater meter.old params.now) IsPlainLater
        (IsPlainPrecedence precedence.now) (λ o. ComesLater params.now o precedence.now) made.items) }
    ensures meter { IsMetered meter.old meter.new result }
{
    let forms = &precedence.forms;
    let widths = wide_widths(alloc, params, forms)?;
    let system = spread(
        alloc,
        &precedence.system,
        widths.as_slice(),
        &[0, 5, 1, 2, 6, 4],
    )?;
    let mut made = Vec::new(alloc);
    for at in 0..forms.time.width() as usize {
        made.push(later_at(alloc, params, forms, &system, at, meter)?)?;
    }
    Ok(made)
}

/// Where some of the precedences has another source, later: systems for each place at which the times may first differ, for a unit.
#[tactic(auto, using(std::proofs::lemmas::Grind::common_steps, isl_meter::proofs::CutLemmas::charges))]
pub fn all_laters(
    alloc: Global,
    params: &Params,
    precedences: &[Precedence],
    meter: &mut Meter,
) -> Result<Vec<Later>, Cut>
    requires precedences { All (IsPrecedence meter.old params.now) precedences.now }
    ensures made { IfOk result (λ made. AreMade (HasLater params.now) (IsLater meter.old params.now) IsPlainLater
        (All IsPlainPrecedence precedences.now) (λ o. Any (ComesLater params.now o) precedences.now) made.items) }
    ensures meter { IsMetered meter.old meter.new result }
{
    let mut made = Vec::new(alloc);
    for precedence in precedences {
        let mut more = laters_of(alloc, params, precedence, meter)?;
        append_laters(&mut made, &mut more)?;
    }
    Ok(made)
}

//! The last of the precedences.

ghost use Rattle.std.specs.Prelude.{◌≡◌, ◌↔◌, ◌≢◌, ◌<◌, ◌^◌, [], All, AllPairs, Any, IfOk, IsTrue};
ghost use Rattle.isl_meter.specs.Gauge.{Gauge, IsMetered};
ghost use Rattle.isl_piece.specs.System.{IsSystemWithin, free_columns};
ghost use Rattle.isl_blocks.specs.Blocks.{picked_width, total};
ghost use Rattle.isl_images.specs.Made.{IsPlain};
ghost use Rattle.isl_precedence.specs.Forms.{widths_for, AreNarrowForms};
ghost use Rattle.isl_precedence.specs.Later.{ShowsLeft};
ghost use Rattle.isl_precedence.specs.Later.{later_widths, AreAlikeForms, HasLater, HoldsOver, HoldsPicked, IsLater, IsOver};
ghost use Rattle.isl_precedence.specs.Later.{IsPlainLater};
ghost use Rattle.isl_remainder.specs.Made.{AreMade};
ghost use Rattle.isl_precedence.specs.Precedence.{HasAt, HoldsFor, IsPlainPrecedence, IsPrecedence, IsSound, LiesIn};

use crate::forms::{Forms, widths_for};
use crate::later::Later;
use crate::precedence::Precedence;
use isl_blocks::spread;
use isl_difference::append;
use isl_meter::{Cut, Meter};
use isl_piece::{Piece, System};
use isl_remainder::{Remainder, left_over};
use isl_space::{Params, Space};
use isl_union::pieces_in;
use std::alloc::{AllocError, Global};

// Whether sinks, places and times are of the same shapes.
fn are_alike(one: &Forms, other: &Forms) -> bool
    ensures { IsTrue result ↔ AreAlikeForms one.now other.now }
{
    one.sink.same(&other.sink) && one.access.same(&other.access) && one.time.same(&other.time)
}

// The systems over blocks of columns of these widths that hold where the others do at the picked blocks.
fn all_spread(
    alloc: Global,
    systems: &[System],
    widths: &[usize],
    picks: &[usize],
) -> Result<Vec<System>, AllocError>
    requires fits { total widths.now < 2 ^ 64 }
    requires apart { AllPairs (λ i j. i ≢ j) picks.now }
    requires columns { All (λ s. free_columns s ≡ picked_width widths.now picks.now) systems.now }
    ensures { (g : Gauge) → All (IsSystemWithin g) systems.now
        → IfOk result (λ made. AreMade (HoldsOver widths.now) (IsOver g widths.now) (λ s. s.definitions ≡ [])
        (All (λ s. s.definitions ≡ []) systems.now) (λ blocks. Any (HoldsPicked widths.now picks.now blocks) systems.now) made.items) }
{
    let mut made = Vec::with_capacity(alloc, systems.len())?;
    for system in systems {
        made.push(spread(alloc, system, widths, picks)?)?;
    }
    Ok(made)
}

// The systems over the blocks of a precedence of these shapes that hold where the later source comes; none where that has others.
fn later_systems(
    alloc: Global,
    params: &Params,
    forms: &Forms,
    later: &Later,
) -> Result<Vec<System>, AllocError>
    requires narrow { AreNarrowForms forms.now }
    requires columns { All (λ s. free_columns s ≡ total (later_widths params.now later.now.forms)) later.now.systems.items }
    ensures { (g : Gauge) → IsLater g params.now later.now
        → IfOk result (λ made. AreMade (λ o s. HoldsFor params.now forms.now s o) (IsOver g (widths_for params.now forms.now))
        (λ s. s.definitions ≡ []) (IsPlainLater later.now) (λ o. LiesIn forms.now o × HasLater params.now o later.now) made.items) }
{
    if are_alike(&later.forms, forms) {
        let widths = widths_for(alloc, params, forms)?;
        let systems = later.systems.as_slice();
        return all_spread(alloc, systems, widths.as_slice(), &[0, 2, 3, 4, 5]);
    }
    Ok(Vec::new(alloc))
}

// Those of all of them.
fn all_later_systems(
    alloc: Global,
    params: &Params,
    forms: &Forms,
    laters: &[Later],
) -> Result<Vec<System>, AllocError>
    requires narrow { AreNarrowForms forms.now }
    requires columns { All (λ k. All (λ s. free_columns s ≡ total (later_widths params.now k.forms)) k.systems.items) laters.now }
    ensures { (g : Gauge) → All (IsLater g params.now) laters.now
        → IfOk result (λ made. AreMade (λ o s. HoldsFor params.now forms.now s o) (IsOver g (widths_for params.now forms.now))
        (λ s. s.definitions ≡ []) (All IsPlainLater laters.now) (λ o. Any (λ k. LiesIn forms.now o × HasLater params.now o k) laters.now)
        made.items) }
{
    let mut made = Vec::new(alloc);
    for later in laters {
        let mut more = later_systems(alloc, params, forms, later)?;
        append(&mut made, &mut more)?;
    }
    Ok(made)
}

// The pieces from source to sink of the precedence where no source comes later.
#[tactic(auto, using(std::proofs::lemmas::Grind::common_steps, isl_meter::proofs::CutLemmas::charges))]
fn lasts_of(
    alloc: Global,
    params: &Params,
    precedence: &Precedence,
    laters: &[Later],
    meter: &mut Meter,
) -> Result<Vec<Piece>, Cut>
    requires precedence { IsPrecedence meter.old params.now precedence.now }
    requires laters { All (IsLater meter.old params.now) laters.now }
    ensures made { IfOk result (λ made. AreMade (HasAt params.now) (IsSound meter.old params.now) IsPlain
        (IsPlainPrecedence precedence.now × All IsPlainLater laters.now)
        (λ at. ShowsLeft params.now laters.now at.0 at.1 precedence.now) made.items) }
    ensures meter { IsMetered meter.old meter.new result }
{
    let forms = &precedence.forms;
    let others = all_later_systems(alloc, params, forms, laters)?;
    let kept = params.len() + forms.source.width() as usize + forms.sink.width() as usize;
    let count = forms.access.width() as usize + 2 * forms.time.width() as usize;
    let system = precedence.system.copy(alloc)?;
    let asked = Remainder {
        system,
        others,
        count,
    };
    let systems = left_over(alloc, asked, kept, meter)?;
    let space = Space::Map(forms.source.clone()?, forms.sink.clone()?);
    Ok(pieces_in(alloc, &space, systems)?)
}

/// The pieces from source to sink of each of the precedences where no source comes later.
#[tactic(auto, using(std::proofs::lemmas::Grind::common_steps, isl_meter::proofs::CutLemmas::charges))]
pub fn all_lasts(
    alloc: Global,
    params: &Params,
    precedences: &[Precedence],
    laters: &[Later],
    meter: &mut Meter,
) -> Result<Vec<Piece>, Cut>
    requires precedences { All (IsPrecedence meter.old params.now) precedences.now }
    requires laters { All (IsLater meter.old params.now) laters.now }
    ensures made { IfOk result (λ made. AreMade (HasAt params.now) (IsSound meter.old params.now) IsPlain
        (All IsPlainPrecedence precedences.now × All IsPlainLater laters.now)
        (λ at. Any (ShowsLeft params.now laters.now at.0 at.1) precedences.now) made.items) }
    ensures meter { IsMetered meter.old meter.new result }
{
    let mut made = Vec::new(alloc);
    for precedence in precedences {
        let more = lasts_of(alloc, params, precedence, laters, meter)?;
        isl_union::append(&mut made, more)?;
    }
    Ok(made)
}

//! Precedences by their sinks.

ghost use Rattle.std.specs.Prelude.{◌≡◌, ◌∷◌, [], All, Any, IfOk};
ghost use Rattle.isl_remainder.specs.Made.{AreMade};
ghost use Rattle.isl_precedence.specs.Precedence.{HasOccurrence, IsAccessed, IsPlainPrecedence, IsPrecedence};
ghost use Rattle.isl_flow.specs.Turned.{turned_back};

use isl_blocks::spread;
use isl_meter::Meter;
use isl_precedence::{Forms, Precedence, widths_for};
use isl_space::Params;
use std::alloc::{AllocError, Global};

// The precedence with the sink, the place and the source in the places of source, sink and place.
fn turned(
    alloc: Global,
    params: &Params,
    precedence: &Precedence,
    meter: &Meter,
) -> Result<Precedence, AllocError>
    requires { IsAccessed meter.now params.now precedence.now }
    ensures { IfOk result (λ made. AreMade (HasOccurrence params.now) (IsPrecedence meter.now params.now) IsPlainPrecedence
        (IsPlainPrecedence precedence.now) (λ o. HasOccurrence params.now (turned_back o) precedence.now) (made ∷ [])) }
{
    let forms = Forms {
        source: precedence.forms.sink.clone()?,
        sink: precedence.forms.access.clone()?,
        access: precedence.forms.source.clone()?,
        time: precedence.forms.time.clone()?,
    };
    let widths = widths_for(alloc, params, &forms)?;
    let system = spread(
        alloc,
        &precedence.system,
        widths.as_slice(),
        &[0, 3, 1, 2, 4, 5],
    )?;
    Ok(Precedence { forms, system })
}

/// The precedences from a sink to its place, with the source behind them.
pub(crate) fn all_turned(
    alloc: Global,
    params: &Params,
    precedences: &[Precedence],
    meter: &Meter,
) -> Result<Vec<Precedence>, AllocError>
    requires { All (IsAccessed meter.now params.now) precedences.now }
    ensures { IfOk result (λ made. AreMade (HasOccurrence params.now) (IsPrecedence meter.now params.now) IsPlainPrecedence
        (All IsPlainPrecedence precedences.now) (λ o. Any (HasOccurrence params.now (turned_back o)) precedences.now) made.items) }
{
    let mut made = Vec::with_capacity(alloc, precedences.len())?;
    for precedence in precedences {
        made.push(turned(alloc, params, precedence, meter)?)?;
    }
    Ok(made)
}

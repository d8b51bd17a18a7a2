//! Accesses of one place, one before the other.

ghost use Rattle.std.specs.Prelude.{All, IfOk};
ghost use Rattle.isl_meter.specs.Gauge.{IsMetered};
ghost use Rattle.isl_piece.specs.System.{IsSystemWithin};
ghost use Rattle.isl_union.specs.Numbers.{AreWithinLimit};
ghost use Rattle.isl_union.specs.Piece.{IsPieceOf};
ghost use Rattle.isl_images.specs.Made.{IsPlain};
ghost use Rattle.isl_remainder.specs.Made.{AreMade};
ghost use Rattle.isl_precedence.specs.Precedence.{AreOrdered, HasOccurrence, IsPlainPrecedence, IsAccessed, SinksIn, SourcesIn, StartsAt};
ghost use Rattle.isl_precedence.specs.Precedence.{StopsAt};
ghost use Rattle.isl_precedence.specs.WideAccess.{IsWideAccess};

use crate::forms::{Forms, forms_of, widths_for};
use crate::gathered::append;
use crate::order::ordered;
use crate::spreads::{Accesses, timed_accesses};
use isl_meter::{Cut, Meter};
use isl_piece::{Piece, System};
use isl_space::Params;
use std::alloc::Global;

/// A source and a sink that access one place, at times of one shape of which the first comes before the other: a system over the
/// parameters, the source, the sink, the place and the two times.
#[derive(Drop)]
pub struct Precedence {
    pub forms: Forms,
    pub system: System,
}

// The precedences of two accesses at times of two pieces.
#[tactic(auto, using(std::proofs::lemmas::Grind::common_steps, isl_meter::proofs::CutLemmas::charges))]
fn between(
    alloc: Global,
    params: &Params,
    accesses: &Accesses<'_>,
    start: &Piece,
    stop: &Piece,
    live: bool,
    meter: &mut Meter,
) -> Result<Vec<Precedence>, Cut>
    requires source { IsPieceOf params.now accesses.now.source.now }
    requires sink { IsPieceOf params.now accesses.now.sink.now }
    requires start { IsPieceOf params.now start.now }
    requires stop { IsPieceOf params.now stop.now }
    requires source_within { IsSystemWithin meter.old accesses.now.source.now.system }
    requires sink_within { IsSystemWithin meter.old accesses.now.sink.now.system }
    requires start_within { IsSystemWithin meter.old start.now.system }
    requires stop_within { IsSystemWithin meter.old stop.now.system }
    requires narrow { ¬ IsWideAccess accesses.now.source.now.space accesses.now.sink.now.space }
    ensures made { IfOk result (λ made. AreMade (HasOccurrence params.now) (IsAccessed meter.old params.now) IsPlainPrecedence
        ((IsPlain accesses.now.source.now × IsPlain accesses.now.sink.now) × (IsPlain start.now × IsPlain stop.now))
        (AreOrdered params.now accesses.now.source.now accesses.now.sink.now start.now stop.now) made.items) }
    ensures meter { IsMetered meter.old meter.new result }
{
    let source = accesses.source.space();
    let sink = accesses.sink.space();
    let Some(forms) = forms_of(source, sink, start.space(), stop.space())? else {
        return Ok(Vec::new(alloc));
    };
    let widths = widths_for(alloc, params, &forms)?;
    let system = timed_accesses(alloc, widths.as_slice(), accesses, start, stop)?;
    ordered(alloc, params, &forms, &system, live, meter)
}

// Those at times of one piece and of each of the others.
#[tactic(auto, using(std::proofs::lemmas::Grind::common_steps, isl_meter::proofs::CutLemmas::charges))]
fn from_start(
    alloc: Global,
    params: &Params,
    accesses: &Accesses<'_>,
    start: &Piece,
    times: &[Piece],
    live: bool,
    meter: &mut Meter,
) -> Result<Vec<Precedence>, Cut>
    requires source { IsPieceOf params.now accesses.now.source.now }
    requires sink { IsPieceOf params.now accesses.now.sink.now }
    requires start { IsPieceOf params.now start.now }
    requires times { All (IsPieceOf params.now) times.now }
    requires source_within { IsSystemWithin meter.old accesses.now.source.now.system }
    requires sink_within { IsSystemWithin meter.old accesses.now.sink.now.system }
    requires start_within { IsSystemWithin meter.old start.now.system }
    requires times_within { AreWithinLimit meter.old times.now }
    requires narrow { ¬ IsWideAccess accesses.now.source.now.space accesses.now.sink.now.space }
    ensures made { IfOk result (λ made. AreMade (HasOccurrence params.now) (IsAccessed meter.old params.now) IsPlainPrecedence
        ((IsPlain accesses.now.source.now × IsPlain accesses.now.sink.now) × (IsPlain start.now × All IsPlain times.now))
        (StopsAt params.now accesses.now.source.now accesses.now.sink.now start.now times.now) made.items) }
    ensures meter { IsMetered meter.old meter.new result }
{
    let mut made = Vec::new(alloc);
    for stop in times {
        let mut more = between(alloc, params, accesses, start, stop, live, meter)?;
        append(&mut made, &mut more)?;
    }
    Ok(made)
}

// Those of two accesses.
#[tactic(auto, using(std::proofs::lemmas::Grind::common_steps, isl_meter::proofs::CutLemmas::charges))]
fn of_accesses(
    alloc: Global,
    params: &Params,
    accesses: &Accesses<'_>,
    times: &[Piece],
    live: bool,
    meter: &mut Meter,
) -> Result<Vec<Precedence>, Cut>
    requires source { IsPieceOf params.now accesses.now.source.now }
    requires sink { IsPieceOf params.now accesses.now.sink.now }
    requires times { All (IsPieceOf params.now) times.now }
    requires source_within { IsSystemWithin meter.old accesses.now.source.now.system }
    requires sink_within { IsSystemWithin meter.old accesses.now.sink.now.system }
    requires times_within { AreWithinLimit meter.old times.now }
    requires narrow { ¬ IsWideAccess accesses.now.source.now.space accesses.now.sink.now.space }
    ensures made { IfOk result (λ made. AreMade (HasOccurrence params.now) (IsAccessed meter.old params.now) IsPlainPrecedence
        ((IsPlain accesses.now.source.now × IsPlain accesses.now.sink.now) × All IsPlain times.now)
        (StartsAt params.now accesses.now.source.now accesses.now.sink.now times.now) made.items) }
    ensures meter { IsMetered meter.old meter.new result }
{
    let mut made = Vec::new(alloc);
    for start in times {
        let mut more = from_start(alloc, params, accesses, start, times, live, meter)?;
        append(&mut made, &mut more)?;
    }
    Ok(made)
}

// Those of one source and each of the sinks.
#[tactic(auto, using(std::proofs::lemmas::Grind::common_steps, isl_meter::proofs::CutLemmas::charges))]
fn of_source(
    alloc: Global,
    params: &Params,
    source: &Piece,
    sinks: &[Piece],
    times: &[Piece],
    live: bool,
    meter: &mut Meter,
) -> Result<Vec<Precedence>, Cut>
    requires source { IsPieceOf params.now source.now }
    requires sinks { All (IsPieceOf params.now) sinks.now }
    requires times { All (IsPieceOf params.now) times.now }
    requires source_within { IsSystemWithin meter.old source.now.system }
    requires sinks_within { AreWithinLimit meter.old sinks.now }
    requires times_within { AreWithinLimit meter.old times.now }
    requires narrow { All (λ sink. ¬ IsWideAccess source.now.space sink.space) sinks.now }
    ensures made { IfOk result (λ made. AreMade (HasOccurrence params.now) (IsAccessed meter.old params.now) IsPlainPrecedence
        ((IsPlain source.now × All IsPlain sinks.now) × All IsPlain times.now)
        (SinksIn params.now source.now sinks.now times.now) made.items) }
    ensures meter { IsMetered meter.old meter.new result }
{
    let mut made = Vec::new(alloc);
    for sink in sinks {
        let accesses = Accesses { source, sink };
        let mut more = of_accesses(alloc, params, &accesses, times, live, meter)?;
        append(&mut made, &mut more)?;
    }
    Ok(made)
}

/// The precedences of the sources and the sinks, at these times. Where live ones alone are kept, each is asked as it is made: those that
/// have a point, in their normal form.
#[tactic(auto, using(std::proofs::lemmas::Grind::common_steps, isl_meter::proofs::CutLemmas::charges))]
pub fn precedences(
    alloc: Global,
    params: &Params,
    sources: &[Piece],
    sinks: &[Piece],
    times: &[Piece],
    live: bool,
    meter: &mut Meter,
) -> Result<Vec<Precedence>, Cut>
    requires sources { All (IsPieceOf params.now) sources.now }
    requires sinks { All (IsPieceOf params.now) sinks.now }
    requires times { All (IsPieceOf params.now) times.now }
    requires sources_within { AreWithinLimit meter.old sources.now }
    requires sinks_within { AreWithinLimit meter.old sinks.now }
    requires times_within { AreWithinLimit meter.old times.now }
    requires narrow { All (λ source. All (λ sink. ¬ IsWideAccess source.space sink.space) sinks.now) sources.now }
    ensures made { IfOk result (λ made. AreMade (HasOccurrence params.now) (IsAccessed meter.old params.now) IsPlainPrecedence
        ((All IsPlain sources.now × All IsPlain sinks.now) × All IsPlain times.now)
        (SourcesIn params.now sources.now sinks.now times.now) made.items) }
    ensures meter { IsMetered meter.old meter.new result }
{
    let mut made = Vec::new(alloc);
    for source in sources {
        let mut more = of_source(alloc, params, source, sinks, times, live, meter)?;
        append(&mut made, &mut more)?;
    }
    Ok(made)
}

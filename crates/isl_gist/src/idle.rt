//! Rows that say nothing new at the points of other systems.

ghost use Rattle.std.specs.Prelude.{◌≡◌, ◌↔◌, [], ◌∷◌, ◌++◌, All, IfOk, IsTrue, map};
ghost use Rattle.isl_meter.specs.Gauge.{IsMetered};
ghost use Rattle.isl_gist.specs.Thinned.{IsAmong, IsIdleAt, IsPlain, IsRowOver};

use isl_difference::hold_throughout;
use isl_meter::{Cut, Meter};
use isl_piece::{Row, Rows, System, meet};
use std::alloc::{AllocError, Global};

/// A list of this row.
///
/// # Errors
///
/// Where memory ends.
pub(crate) fn only(alloc: Global, row: Row) -> Result<Rows, AllocError>
    ensures { IfOk result (λ rows. rows ≡ row ∷ []) }
{
    let mut rows = Rows::new(alloc);
    rows.push(row)?;
    Ok(rows)
}

// Whether the rows hold at each point of the context at which the others do.
#[tactic(auto, using(std::proofs::lemmas::Grind::common_steps, crate::proofs::IdleLaws::idle_steps))]
fn hold_in(
    alloc: Global,
    others: &System,
    row: &Rows,
    context: &System,
    meter: &mut Meter,
) -> Result<bool, Cut>
    requires others { IsPlain meter.old others.now.columns others.now }
    requires row { All (IsRowOver meter.old others.now.columns) row.now }
    requires context { IsPlain meter.old others.now.columns context.now }
    ensures exact { IfOk result (λ idle. IsTrue idle
        ↔ All (IsIdleAt (IsAmong others.now.columns (context.now ∷ [])) others.now.rows) row.now) }
    ensures meter { IsMetered meter.old meter.new result }
{
    let both = meet(alloc, others, context)?;
    hold_throughout(alloc, &both, row, meter)
}

/// Whether the row holds at each point of the contexts at which the others do. Nothing is asked behind the first context in which it
/// fails somewhere.
///
/// # Errors
///
/// As every call under a meter.
#[tactic(auto, using(std::proofs::lemmas::Grind::common_steps, crate::proofs::IdleLaws::idle_steps))]
pub(crate) fn is_idle(
    alloc: Global,
    others: &System,
    row: &Row,
    contexts: &[&System],
    meter: &mut Meter,
) -> Result<bool, Cut>
    requires others { IsPlain meter.old others.now.columns others.now }
    requires row { IsRowOver meter.old others.now.columns row.now }
    requires contexts { All (IsPlain meter.old others.now.columns) (map (λ context. context.now) contexts.now) }
    ensures exact { IfOk result (λ idle. IsTrue idle
        ↔ IsIdleAt (IsAmong others.now.columns (map (λ context. context.now) contexts.now)) others.now.rows row.now) }
    ensures meter { IsMetered meter.old meter.new result }
{
    let rows = only(alloc, row.copy(alloc)?)?;
    for context in contexts {
        if !hold_in(alloc, others, &rows, context, meter)? {
            return Ok(false);
        }
    }
    Ok(true)
}

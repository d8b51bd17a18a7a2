//! Normal systems that have a point.

ghost use Rattle.std.specs.Prelude.{◌≡◌, ◌↔◌, ◌+◌, ◌*◌, ◌≤◌, ℕ, ⊤, [], All, IfOk, IfSome, IsTrue, MatchOption, MatchResult, Some};
ghost use Rattle.isl_meter.specs.Gauge.{IsCharged, IsCutBy};
ghost use Rattle.isl_piece.specs.declared.system.System.{System};
ghost use Rattle.isl_piece.specs.Normal.{IsNormal, normal_system};
ghost use Rattle.isl_piece.specs.System.{HoldsSystem, IsSystemWithin, free_columns};
ghost use Rattle.isl_ledger.specs.Answered.{IsTame};
ghost use Rattle.isl_ledger.specs.Difference.{HasDifferenceRows, IsDifferenceSystem};
ghost use Rattle.isl_elim.specs.Sample.{IsNowhere};
ghost use Rattle.isl_elim.specs.Spent.{IsSpentOn};
ghost use Rattle.isl_difference.specs.Split.{IsLiveFormOf, IsPushed};
ghost use Rattle.isl_difference.specs.Tame.{HasNormalDifferences};

use isl_elim::is_normal_empty;
use isl_meter::{Cut, Meter};
use isl_piece::{System, normalise};
use std::alloc::Global;

// Whether the system, whose rows are normal, holds at no point.
fn is_void(alloc: Global, system: &System, meter: &mut Meter) -> Result<bool, Cut>
    requires well_formed { IsSystemWithin meter.old system.now }
    requires normal { IsNormal system.now.rows }
    ensures exact { MatchResult result
        (λ empty. (IsTrue empty ↔ IsNowhere (free_columns system.now) (HoldsSystem system.now)) × IsCharged meter.old meter.new)
        (IsCutBy meter.old meter.new) }
    ensures one { system.now.definitions ≡ [] → system.now.columns ≡ 1 → IsSpentOn system.now.rows 0 meter.old meter.new result }
    ensures tame { (columns bits : ℕ) → meter.old.bits ≡ 127 → bits + columns ≤ 120 → IsDifferenceSystem columns bits system.now
        → IsTame (columns * (columns * columns)) meter.old meter.new (λ _. ⊤) result }
{
    is_normal_empty(alloc, system, meter)
}

/// The system in its normal form; none where it holds at no point. Of one column its normal rows cost what elimination of it does.
///
/// # Errors
///
/// `Overflow` where a number passes the limit of the meter, `Budget` where its units are used up, and `NoMemory`.
pub fn live_form(alloc: Global, system: System, meter: &mut Meter) -> Result<Option<System>, Cut>
    requires { IsSystemWithin meter.old system }
    ensures exact { MatchResult result
        (λ found. MatchOption found (IsNowhere (free_columns system) (HoldsSystem system)) (IsLiveFormOf meter.old system)
        × IsCharged meter.old meter.new)
        (IsCutBy meter.old meter.new) }
    ensures one { (normal : System) → normal_system system ≡ Some normal → system.definitions ≡ [] → system.columns ≡ 1
        → IsSpentOn normal.rows 0 meter.old meter.new result }
    ensures tame { (columns bits : ℕ) → meter.old.bits ≡ 127 → bits + columns ≤ 120 → HasNormalDifferences columns bits system
        → IsTame (columns * (columns * columns)) meter.old meter.new (λ found. IfSome found (IsDifferenceSystem columns bits)) result }
{
    let Some(normal) = normalise(alloc, system, meter)? else {
        return Ok(None);
    };
    if is_void(alloc, &normal, meter)? {
        return Ok(None);
    }
    Ok(Some(normal))
}

/// The same, once the system is made normal, which uses no unit and leaves each bound once.
pub(crate) fn is_nowhere(alloc: Global, system: System, meter: &mut Meter) -> Result<bool, Cut>
    requires { IsSystemWithin meter.old system }
    ensures exact { MatchResult result
        (λ empty. (IsTrue empty ↔ IsNowhere (free_columns system) (HoldsSystem system)) × IsCharged meter.old meter.new)
        (IsCutBy meter.old meter.new) }
    ensures tame { (columns bits : ℕ) → meter.old.bits ≡ 127 → bits + columns ≤ 120 → HasDifferenceRows columns bits system
        → IsTame (columns * (columns * columns)) meter.old meter.new (λ _. ⊤) result }
{
    Ok(live_form(alloc, system, meter)?.is_none())
}

/// Puts the system in its normal form to the others, where it has a point.
#[tactic(auto, using(std::proofs::lemmas::Grind::common_steps, crate::proofs::LiveLaws::live_steps))]
pub(crate) fn push_live(
    alloc: Global,
    system: System,
    systems: &mut Vec<System>,
    meter: &mut Meter,
) -> Result<(), Cut>
    requires { IsSystemWithin meter.old system }
    ensures exact { MatchResult result
        (λ _. IsPushed meter.old system systems.old.items systems.new.items × IsCharged meter.old meter.new)
        (IsCutBy meter.old meter.new) }
    ensures tame { (columns bits : ℕ) → meter.old.bits ≡ 127 → bits + columns ≤ 120 → HasDifferenceRows columns bits system
        → IsTame (columns * (columns * columns)) meter.old meter.new
        (λ _. All (IsDifferenceSystem columns bits) systems.old.items → All (IsDifferenceSystem columns bits) systems.new.items) result }
{
    match live_form(alloc, system, meter)? {
        None => Ok(()),
        Some(part) => {
            systems.push(part)?;
            Ok(())
        }
    }
}

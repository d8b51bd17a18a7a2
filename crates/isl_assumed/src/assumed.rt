//! What is assumed of parameters.

ghost use Rattle.std.specs.Prelude.{◌≡◌, ◌↔◌, ◌⊎◌, ◌≤◌, IfOk, IsTrue, MatchResult, Ok, length};
ghost use Rattle.isl_meter.specs.Gauge.{IsCharged, IsMetered};
ghost use Rattle.isl_space.specs.Limits.{most_parameters};
ghost use Rattle.isl_space.specs.Element.{Element};
ghost use Rattle.isl_space.specs.Names.{joined};
ghost use Rattle.isl_space.specs.Valuation.{Valuation};
ghost use Rattle.isl_piece.specs.Cut.{IsCutFor};
ghost use Rattle.isl_union.specs.Fault.{IsFaultBy};
ghost use Rattle.isl_union.specs.KeptValue.{Has, HasNoDefinitions};
ghost use Rattle.isl_union.specs.Numbers.{IsWithinLimit};

use crate::Region;
use crate::onto::systems_onto;
use isl_meter::{Cut, Meter};
use isl_space::{Name, Params};
use isl_union::{OpFault, Value};
use std::alloc::Global;

/// A set of valuations that depends on some names alone: what is assumed of parameters. (isl manual, on parameter domains)
///
/// Where nothing is assumed no call takes memory for it, or uses a unit.
#[derive(Drop)]
pub enum Assumed {
    /// Each valuation is assumed.
    Nothing,
    /// Those of the region.
    Where(Region),
}

impl Assumed {
    ghost use Rattle.isl_assumed.specs.declared.assumed.Assumed.TheVariants.{Nothing};
    ghost use Rattle.isl_assumed.specs.Assumed.{names_of, Assumes, AssumesSome, IsOver, IsPlain, IsSound, PassesLimitAt, PaysPairs};

    /// All valuations. It takes no memory.
    pub fn all() -> Assumed
        ensures { result ≡ Nothing }
    {
        Assumed::Nothing
    }

    /// The valuations at which the value has an element. (isl manual, on parameter domains)
    ///
    /// # Errors
    ///
    /// As every call under a meter.
    pub fn of(alloc: Global, value: &Value, meter: &mut Meter) -> Result<Assumed, Cut>
        requires { IsWithinLimit meter.old value.now }
        ensures names { IfOk result (λ assumed. names_of assumed ≡ value.now.params) }
        ensures valuations { (valuation : Valuation)
            → IfOk result (λ assumed. Assumes assumed valuation ↔ ((element : Element) × Has value.now valuation element)) }
        ensures sound { IfOk result (IsSound meter.old) }
        ensures plain { HasNoDefinitions value.now → IfOk result IsPlain }
        ensures meter { IsMetered meter.old meter.new result }
    {
        Ok(Assumed::Where(Region::of(alloc, value, meter)?))
    }

    /// The valuations of both, over the joined names. A unit at least is used for each system of the one with each of the other.
    ///
    /// # Errors
    ///
    /// `TooWide` exactly where these are more than 16, unless memory ends: no unit is used then. Else as every call under a meter.
    pub fn meet(
        &self,
        alloc: Global,
        other: &Assumed,
        meter: &mut Meter,
    ) -> Result<Assumed, OpFault>
        requires own { IsSound meter.old self.now }
        requires other { IsSound meter.old other.now }
        ensures names { IfOk result (λ met. names_of met ≡ joined (names_of self.now) (names_of other.now)) }
        ensures valuations { (valuation : Valuation)
            → IfOk result (λ met. Assumes met valuation ↔ (Assumes self.now valuation × Assumes other.now valuation)) }
        ensures sound { IfOk result (IsSound meter.old) }
        ensures plain { IsPlain self.now → IsPlain other.now → IfOk result IsPlain }
        ensures units { MatchResult result
            (λ _. (length (joined (names_of self.now) (names_of other.now)) ≤ most_parameters) × IsCharged meter.old meter.new)
            (IsFaultBy (joined (names_of self.now) (names_of other.now)) meter.old meter.new) }
        ensures work { IfOk result (λ _. PaysPairs self.now other.now meter.old meter.new) }
        ensures nothing { self.now ≡ Nothing → other.now ≡ Nothing → (result ≡ Ok Nothing) × (meter.new ≡ meter.old) }
        ensures free { (self.now ≡ Nothing) ⊎ (other.now ≡ Nothing) → meter.new ≡ meter.old }
    {
        match (self, other) {
            (Assumed::Nothing, Assumed::Nothing) => Ok(Assumed::Nothing),
            (Assumed::Nothing, Assumed::Where(region)) => Ok(Assumed::Where(region.copy(alloc)?)),
            (Assumed::Where(region), Assumed::Nothing) => Ok(Assumed::Where(region.copy(alloc)?)),
            (Assumed::Where(own), Assumed::Where(other)) => {
                Ok(Assumed::Where(own.meet(alloc, other, meter)?))
            }
        }
    }

    /// Whether there is no valuation.
    ///
    /// # Errors
    ///
    /// None: each system has a point, so this uses no unit.
    pub fn is_empty(&self, meter: &mut Meter) -> Result<bool, Cut>
        requires { IsSound meter.old self.now }
        ensures exact { MatchResult result (λ empty. IsTrue empty ↔ ((valuation : Valuation) → ¬ Assumes self.now valuation)) (λ _. ⊥) }
        ensures meter { meter.new ≡ meter.old }
    {
        match self {
            Assumed::Nothing => Ok(false),
            Assumed::Where(region) => Ok(region.systems.as_slice().is_empty()),
        }
    }

    /// Whether the valuation that gives these numbers, and 0 to each other name, is assumed.
    ///
    /// # Errors
    ///
    /// `Overflow` where a product or a partial sum of a form passes the limit at this valuation, and `NoMemory`; never `Budget`.
    pub fn holds(&self, alloc: Global, at: &[(Name, i128)], meter: &mut Meter) -> Result<bool, Cut>
        requires { IsSound meter.old self.now }
        ensures { MatchResult result
            (λ holds. (IsTrue holds ↔ Assumes self.now at.now) × (meter.new ≡ meter.old))
            (IsCutFor (PassesLimitAt meter.old self.now at.now) meter.old meter.new) }
    {
        match self {
            Assumed::Nothing => Ok(true),
            Assumed::Where(region) => region.holds(alloc, at, meter),
        }
    }

    /// The valuations that have the same numbers of these names as some assumed one.
    ///
    /// # Errors
    ///
    /// As every call under a meter.
    pub fn onto(&self, alloc: Global, params: &Params, meter: &mut Meter) -> Result<Assumed, Cut>
        requires { IsSound meter.old self.now }
        ensures names { IfOk result (IsOver params.now) }
        ensures valuations { (valuation : Valuation)
            → IfOk result (λ onto. Assumes onto valuation ↔ AssumesSome self.now params.now valuation) }
        ensures sound { IfOk result (IsSound meter.old) }
        ensures plain { IsPlain self.now → IfOk result IsPlain }
        ensures meter { IsMetered meter.old meter.new result }
        ensures nothing { self.now ≡ Nothing → (result ≡ Ok Nothing) × (meter.new ≡ meter.old) }
    {
        match self {
            Assumed::Nothing => Ok(Assumed::Nothing),
            Assumed::Where(region) => {
                let systems = systems_onto(alloc, region, params, meter)?;
                let params = params.copy(alloc)?;
                Ok(Assumed::Where(Region { params, systems }))
            }
        }
    }
}

//! Values without some of their coordinates.

ghost use Rattle.std.specs.Prelude.{◌≡◌, ◌↔◌, ◌<◌, ◌≤◌, ◌+◌, ◌*◌, ◌^◌, ℕ, [], All, IfOk, MatchResult, length};
ghost use Rattle.std.specs.List.{range_with_len};
ghost use Rattle.isl_meter.specs.Gauge.{IsCharged, IsMetered};
ghost use Rattle.isl_space.specs.Element.{Element};
ghost use Rattle.isl_space.specs.Space.{space_form_of};
ghost use Rattle.isl_space.specs.SpaceForm.{IsWellFormedSpace};
ghost use Rattle.isl_space.specs.Valuation.{Valuation};
ghost use Rattle.isl_piece.specs.System.{IsSystemWithin, free_columns};
ghost use Rattle.isl_ledger.specs.Answered.{IsTame};
ghost use Rattle.isl_ledger.specs.Difference.{IsDifferenceSystem};
ghost use Rattle.isl_ledger.specs.Work.{Size, AreOfSize, drop_size};
ghost use Rattle.isl_elim.specs.Elimination.{IsProjectionAlong};
ghost use Rattle.isl_union.specs.Fault.{IsCutFault};
ghost use Rattle.isl_union.specs.KeptValue.{Has, HasNoDefinitions, IsKeptValue};
ghost use Rattle.isl_union.specs.Numbers.{IsWithinLimit};
ghost use Rattle.isl_union.specs.Project.{IsNarrower, IsProjected};
ghost use Rattle.isl_union.specs.Tame.{size_of, IsOfSize, IsTameAnswer};

use crate::pieces::{append, live_pieces_in};
use crate::{OpFault, Value};
use isl_elim::{columns_between, eliminate_all};
use isl_meter::{Cut, Meter};
use isl_piece::System;
use isl_space::Space;
use std::alloc::Global;

// The systems that are left of this one without so many columns from one on.
fn without_columns(
    alloc: Global,
    system: &System,
    first: usize,
    count: usize,
    meter: &mut Meter,
) -> Result<Vec<System>, Cut>
    requires within { IsSystemWithin meter.old system.now }
    requires inside { first + count ≤ free_columns system.now }
    requires fits { first + count < 2 ^ 64 }
    ensures projection { IfOk result (λ systems. IsProjectionAlong system.now (range_with_len first count) systems.items) }
    ensures definitions { system.now.definitions ≡ [] → IfOk result (λ systems. All (λ s. s.definitions ≡ []) systems.items) }
    ensures within { IfOk result (λ systems. All (IsSystemWithin meter.old) systems.items) }
    ensures counted { IfOk result (λ systems. length systems.items + meter.old.units ≤ meter.new.units + 1) }
    ensures meter { IsMetered meter.old meter.new result }
    ensures tame { (columns bits : ℕ) → meter.old.bits ≡ 127 → bits + columns ≤ 120 → IsDifferenceSystem columns bits system.now
        → IsTame (count * (columns * columns)) meter.old meter.new
        (λ systems. AreOfSize (drop_size count (size_of 1 columns bits)) systems.items) result }
{
    let cols = columns_between(alloc, first, first + count)?;
    eliminate_all(alloc, system, cols.as_slice(), meter)
}

impl Value {
    /// The elements of `space` without the `count` coordinates from `from` on, in the space `to`, over the same parameters: those
    /// that some whole numbers at these coordinates make elements of the value. Pieces of other spaces are left out. There are no
    /// more pieces than in this value, but for one for each unit that was used. (isl manual, on projecting out)
    ///
    /// # Errors
    ///
    /// `Overflow` where a number passes the limit of the meter, `Budget` where its units are used up, and `NoMemory`; never
    /// `TooWide`.
    pub fn project(
        &self,
        alloc: Global,
        space: &Space,
        from: usize,
        count: usize,
        to: &Space,
        meter: &mut Meter,
    ) -> Result<Value, OpFault>
        requires within { IsWithinLimit meter.old self.now }
        requires narrower { IsNarrower (space_form_of space.now) from count (space_form_of to.now) }
        requires formed { IsWellFormedSpace (space_form_of to.now) }
        ensures kept { IfOk result IsKeptValue }
        ensures params { IfOk result (λ value. value.params ≡ self.now.params) }
        ensures elements { (valuation : Valuation) (element : Element)
            → IfOk result (λ value. Has value valuation element
            ↔ IsProjected self.now (space_form_of space.now) from count (space_form_of to.now) valuation element) }
        ensures definitions { HasNoDefinitions self.now → IfOk result HasNoDefinitions }
        ensures numbers { IfOk result (IsWithinLimit meter.old) }
        ensures counted { IfOk result (λ value. length value.pieces + meter.old.units ≤ meter.new.units + length self.now.pieces) }
        ensures meter { MatchResult result (λ _. IsCharged meter.old meter.new) (IsCutFault meter.old meter.new) }
        ensures tame { (size : Size) → meter.old.bits ≡ 127 → size.bits + size.columns ≤ 120 → IsOfSize self.now.params size self.now
            → IsTameAnswer (size.pieces * ((count + size.columns) * (size.columns * size.columns))) meter.old meter.new
            (λ value. IsOfSize value.params (drop_size count size) value) result }
    {
        let params = self.params();
        let first = params.len() + from;
        let pieces = self.pieces();
        let mut kept = Vec::new(alloc);
        for piece in pieces {
            if !piece.space().same(space) {
                continue;
            }
            let systems = without_columns(alloc, piece.system(), first, count, meter)?;
            let more = live_pieces_in(alloc, params, to, systems, meter)?;
            append(&mut kept, more)?;
        }
        Ok(Value::from_normal(params.copy(alloc)?, kept))
    }
}

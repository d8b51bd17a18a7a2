//! Values without definitions.

ghost use Rattle.std.specs.Prelude.{◌≡◌, ◌↔◌, ◌+◌, ◌≤◌, IfOk, MatchResult, length};
ghost use Rattle.isl_meter.specs.Gauge.{IsMetered};
ghost use Rattle.isl_meter.specs.declared.Cut.TheVariants.{NoMemory};
ghost use Rattle.isl_space.specs.Element.{Element};
ghost use Rattle.isl_space.specs.Valuation.{Valuation};
ghost use Rattle.isl_union.specs.Flat.{IsFlatOf};
ghost use Rattle.isl_union.specs.KeptValue.{Has, HasNoDefinitions, IsKeptValue};
ghost use Rattle.isl_union.specs.Numbers.{IsWithinLimit};

use crate::Value;
use crate::pieces::{append, live_pieces_in};
use isl_elim::flatten;
use isl_meter::{Cut, Meter};
use std::alloc::Global;

impl Value {
    /// The same elements at every valuation, in pieces that define no column: in the place of each piece of this value those that have
    /// its elements. A piece that defines none stays as it is, and a value with no others is answered itself; no unit is used then.
    /// There are no more pieces than in this value, but for one for each unit that was used. (isl manual, on integer divisions)
    ///
    /// # Errors
    ///
    /// `Overflow` where a number passes the limit of the meter, `Budget` where its units are used up, and `NoMemory`.
    pub fn flat(&self, alloc: Global, meter: &mut Meter) -> Result<Value, Cut>
        requires { IsWithinLimit meter.old self.now }
        ensures kept { IfOk result IsKeptValue }
        ensures params { IfOk result (λ value. value.params ≡ self.now.params) }
        ensures pieces { IfOk result (IsFlatOf self.now) }
        ensures elements { (valuation : Valuation) (element : Element)
            → IfOk result (λ value. Has value valuation element ↔ Has self.now valuation element) }
        ensures definitions { IfOk result HasNoDefinitions }
        ensures numbers { IfOk result (IsWithinLimit meter.old) }
        ensures counted { IfOk result (λ value. length value.pieces + meter.old.units ≤ meter.new.units + length self.now.pieces) }
        ensures same { HasNoDefinitions self.now
            → MatchResult result (λ value. value ≡ self.now) (λ cut. cut ≡ NoMemory) × (meter.new ≡ meter.old) }
        ensures meter { IsMetered meter.old meter.new result }
    {
        let params = self.params();
        let pieces = self.pieces();
        let mut kept = Vec::with_capacity(alloc, pieces.len())?;
        for piece in pieces {
            let system = piece.system();
            if system.definitions.is_empty() {
                kept.push(piece.copy()?)?;
                continue;
            }
            let systems = flatten(alloc, system, meter)?;
            let more = live_pieces_in(alloc, params, piece.space(), systems, meter)?;
            append(&mut kept, more)?;
        }
        Ok(Value::from_normal(params.copy(alloc)?, kept))
    }
}

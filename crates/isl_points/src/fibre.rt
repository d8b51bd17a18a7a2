//! The points of a system that begin with given numbers.

ghost use Rattle.std.specs.Prelude.{◌≡◌, ◌↔◌, ◌+◌, ◌≤◌, ℤ, List, [], length, min, All, IfOk, IfSome, IsNone};
ghost use Rattle.isl_meter.specs.Gauge.{IsMetered, IsWithin};
ghost use Rattle.isl_piece.specs.declared.system.System.{System};
ghost use Rattle.isl_piece.specs.System.{IsSystemWithin, free_columns};
ghost use Rattle.isl_tower.specs.Bounded.{IsBoundedAt};
ghost use Rattle.isl_tower.specs.Weight.{tower_weight};
ghost use Rattle.isl_points.specs.Fibre.{IsFibre, IsFibreOf};
ghost use Rattle.isl_points.specs.Points.{ArePointsAt};

use crate::Points;
use crate::walk::points_of;
use isl_meter::{Cut, Meter};
use isl_piece::System;
use isl_tower::{Tower, system_at};
use std::alloc::Global;
use std::marker::Model;

/// The fibre of a system over numbers for its first columns: the points that begin with these, of which there are finitely many. They are
/// not listed yet; the tower of what is left of the system is kept, from which they can be.
#[derive(Drop)]
pub struct Fibre {
    tower: Tower,
}

impl Model for Fibre {
    ghost use Rattle.std.specs.Prelude.{List};
    ghost use Rattle.isl_piece.specs.declared.system.System.{System};

    ghost Value = { List (List System) };

    ghost view = { λ f. f.tower };
}

impl Fibre {
    /// The fibre of the system, in which no column is defined, over these numbers; `None` exactly where its points are without bound.
    ///
    /// # Errors
    ///
    /// `Overflow` where a number passes the limit of the meter, `Budget` where its units are used up, and `NoMemory`.
    pub fn over(
        alloc: Global,
        system: &System,
        numbers: &[i128],
        meter: &mut Meter,
    ) -> Result<Option<Fibre>, Cut>
        requires well_formed { IsSystemWithin meter.old system.now }
        requires plain { system.now.definitions ≡ [] }
        requires numbers_in { length numbers.now ≤ free_columns system.now }
        ensures found { IfOk result (λ found. IfSome found (IsFibreOf meter.old system.now numbers.now)) }
        ensures infinite { IfOk result (λ found. IsNone found ↔ (¬ IsBoundedAt system.now numbers.now)) }
        ensures meter { IsMetered meter.old meter.new result }
    {
        let left = system_at(alloc, system, numbers, meter)?;
        let tower = Tower::of(alloc, &left, 0, meter)?;
        if !tower.is_bounded(alloc, meter)? {
            return Ok(None);
        }
        Ok(Some(Fibre { tower }))
    }

    /// How many rows are kept of it, and one more for each of the systems that have them.
    pub fn weight(&self) -> usize
        ensures { result ≡ min (tower_weight self.now) usize.MAX }
    {
        self.tower.weight()
    }

    /// The points of the fibre, without the numbers that they begin with: in lexicographic order, each once. A unit is used for each of
    /// them, and one for each number that is tried.
    ///
    /// # Errors
    ///
    /// `Overflow` where a number passes the limit of the meter, `Budget` where its units are used up, and `NoMemory`.
    pub fn points(&self, alloc: Global, meter: &mut Meter) -> Result<Points, Cut>
        requires { IsFibre meter.old self.now }
        ensures listed { (system : System) (numbers : List ℤ) → IsFibreOf meter.old system numbers self.now
            → IfOk result (ArePointsAt system numbers) }
        ensures within { IfOk result (All (All (IsWithin meter.old))) }
        ensures counted { IfOk result (λ points. meter.old.units + length points ≤ meter.new.units) }
        ensures meter { IsMetered meter.old meter.new result }
    {
        points_of(alloc, &self.tower, meter)
    }
}

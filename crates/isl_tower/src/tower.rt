//! Towers of projections.

ghost use Rattle.std.specs.Prelude.{◌≡◌, ◌<◌, ◌≤◌, [], length, slice_index_or, min, All, IfOk};
ghost use Rattle.isl_meter.specs.Gauge.{IsMetered};
ghost use Rattle.isl_piece.specs.Normal.{IsNormal};
ghost use Rattle.isl_piece.specs.System.{IsSystemWithin, free_columns};
ghost use Rattle.isl_tower.specs.Tower.{IsTowerOf};
ghost use Rattle.isl_tower.specs.Weight.{tower_weight};

use crate::level::Level;
use isl_column::are_too_many;
use isl_meter::{Cut, Meter};
use isl_piece::System;
use std::alloc::Global;
use std::marker::Model;

/// The projections of a system onto its first columns, onto these and one more, and so on up to all its free columns. Level 0 is
/// the lowest. At each level there are systems, of which some holds at a point exactly where some whole numbers for the other
/// columns make the system hold.
#[derive(Drop)]
pub struct Tower {
    levels: Vec<Level>,
}

impl Model for Tower {
    ghost use Rattle.std.specs.Prelude.{List};
    ghost use Rattle.isl_piece.specs.declared.system.System.{System};

    ghost Value = { List (List System) };

    ghost view = { λ t. t.levels.items };
}

// How many rows the systems of the levels have, and one more for each system.
fn weight_of(levels: &[Level]) -> usize
    ensures { result ≡ min (tower_weight levels.now) usize.MAX }
{
    let mut weight = 0usize;
    for level in levels {
        weight = weight.saturating_add(level.weight());
    }
    weight
}

impl Tower {
    /// The tower of the system, in which no column is defined, over its first `outer` columns. Each system is in normal form.
    ///
    /// # Errors
    ///
    /// `Overflow` where a number passes the limit of the meter, `Budget` where its units are used up, and `NoMemory`.
    #[tactic(auto, using(crate::proofs::TowerLaws::level_steps))]
    pub fn of(alloc: Global, system: &System, outer: usize, meter: &mut Meter) -> Result<Self, Cut>
        requires well_formed { IsSystemWithin meter.old system.now }
        requires plain { system.now.definitions ≡ [] }
        requires outer_in { outer ≤ free_columns system.now }
        ensures tower { IfOk result (IsTowerOf system.now outer) }
        ensures within { IfOk result (All (All (IsSystemWithin meter.old))) }
        ensures plain { IfOk result (All (All (λ s. s.definitions ≡ []))) }
        ensures normal { IfOk result (All (All (λ s. IsNormal s.rows))) }
        ensures meter { IsMetered meter.old meter.new result }
    {
        let top = Level::top(alloc, system, meter)?;
        let mut levels = Vec::new(alloc);
        levels.push(top)?;
        let mut width = system.free();
        while outer < width {
            width -= 1;
            let lower = levels[0].below(alloc, width, meter)?;
            levels.insert(0, lower)?;
            if are_too_many(weight_of(levels.as_slice()), &[], system.columns) {
                return Err(Cut::NoMemory);
            }
        }
        Ok(Tower { levels })
    }

    /// How many rows its systems have, and one more for each system.
    pub fn weight(&self) -> usize
        ensures { result ≡ min (tower_weight self.now) usize.MAX }
    {
        weight_of(self.levels.as_slice())
    }

    /// The number of levels: one more than the columns behind the outer ones.
    pub fn levels(&self) -> usize
        ensures { result ≡ length self.now }
    {
        self.levels.len()
    }

    /// The systems at a height: over the outer columns and so many more.
    pub fn level(&self, height: usize) -> &[System]
        requires { height < length self.now }
        ensures { result.now ≡ slice_index_or self.now height [] }
    {
        self.levels[height].as_slice()
    }
}

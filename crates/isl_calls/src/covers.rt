//! Covers of all levels.

ghost use Rattle.std.specs.Prelude.{◌≡◌, ◌+◌, ◌<◌, ◌≤◌, ◌∷◌, [], length, slice_index_or, All, IfOk, IsTrue, MatchResult};
ghost use Rattle.isl_meter.specs.Gauge.{Gauge, IsCharged, IsCutBy, IsMetered};
ghost use Rattle.isl_piece.specs.Normal.{IsNormal};
ghost use Rattle.isl_piece.specs.System.{IsSystemWithin, free_columns};
ghost use Rattle.isl_tower.specs.Bounded.{IsBounded};
ghost use Rattle.isl_tower.specs.Tower.{IsTowerOf};
ghost use Rattle.isl_calls.specs.Covers.{AreCoversOf, AreEnded, AreLone, AreTight};
ghost use Rattle.isl_calls.specs.Level.{AreUpper};

use crate::ended::are_ended;
use crate::level::Level;
use isl_meter::{Cut, Meter};
use isl_piece::System;
use isl_tower::Tower;
use std::alloc::{AllocError, Global};
use std::marker::Model;

/// For the first columns of a system, for these and one more, and so on up to all its free columns: systems of which some holds
/// wherever numbers begin a point of the system, and perhaps elsewhere. Level 0 is the lowest. Above it the last column of each
/// system has an end on each side.
#[derive(Drop)]
pub struct Covers {
    levels: Vec<Level>,
}

impl Model for Covers {
    ghost use Rattle.std.specs.Prelude.{List};
    ghost use Rattle.isl_piece.specs.declared.system.System.{System};

    ghost Value = { List (List System) };

    ghost view = { λ c. c.levels.items };
}

// The system, and one shadow below another, over the first `outer` columns at last.
fn shadows(
    alloc: Global,
    system: &System,
    outer: usize,
    meter: &mut Meter,
) -> Result<Vec<Level>, Cut>
    requires within { IsSystemWithin meter.old system.now }
    requires plain { system.now.definitions ≡ [] }
    requires outer_in { outer ≤ free_columns system.now }
    ensures { MatchResult result
        (λ levels. AreUpper meter.old system.now outer levels.items × AreLone system.now levels.items × IsCharged meter.old meter.new)
        (IsCutBy meter.old meter.new) }
{
    let top = Level::top(alloc, system, meter)?;
    let mut levels = Vec::new(alloc);
    levels.push(top)?;
    let mut width = system.free();
    while outer < width {
        width -= 1;
        let lower = levels[0].below(alloc, width, meter)?;
        levels.insert(0, lower)?;
    }
    Ok(levels)
}

// Whether above the lowest level the last column of each system has an end on each side.
fn are_levels_ended(levels: &[Level], outer: usize) -> bool
    requires { (g : Gauge) × (s : System) × AreUpper g s outer levels.now }
    ensures { IsTrue result → AreEnded levels.now }
{
    for height in 1..levels.len() {
        if !are_ended(levels[height].as_slice()) {
            return false;
        }
    }
    true
}

// The levels of the tower, without the systems above the lowest level whose last column lacks an end: they hold nowhere.
fn ended_levels(
    alloc: Global,
    system: &System,
    outer: usize,
    tower: &Tower,
    meter: &Meter,
) -> Result<Vec<Level>, AllocError>
    requires bounded { IsBounded system.now outer }
    requires tower { IsTowerOf system.now outer tower.now }
    requires within { All (All (IsSystemWithin meter.now)) tower.now }
    requires plain { All (All (λ s. s.definitions ≡ [])) tower.now }
    requires normal { All (All (λ s. IsNormal s.rows)) tower.now }
    ensures { IfOk result (λ levels. AreUpper meter.now system.now outer levels.items × AreEnded levels.items
        × IsTowerOf system.now outer levels.items) }
{
    let mut levels = Vec::new(alloc);
    levels.push(Level::copied(alloc, tower.level(0))?)?;
    for height in 1..tower.levels() {
        levels.push(Level::ended(alloc, tower.level(height))?)?;
    }
    Ok(levels)
}

impl Covers {
    /// The covers of the system, in which no column is defined, over its first `outer` columns; behind these it is bounded. At each
    /// level there is at most one system, a shadow of the next level, where such systems end their last columns; else those of the
    /// tower that do, which hold exactly where numbers begin a point.
    ///
    /// # Errors
    ///
    /// `Overflow` where a number passes the limit of the meter, `Budget` where its units are used up, and `NoMemory`.
    pub fn of(alloc: Global, system: &System, outer: usize, meter: &mut Meter) -> Result<Self, Cut>
        requires within { IsSystemWithin meter.old system.now }
        requires plain { system.now.definitions ≡ [] }
        requires outer_in { outer ≤ free_columns system.now }
        requires bounded { IsBounded system.now outer }
        ensures covers { IfOk result (AreCoversOf system.now outer) }
        ensures ended { IfOk result AreEnded }
        ensures tight { IfOk result (AreTight system.now outer) }
        ensures within { IfOk result (All (All (IsSystemWithin meter.old))) }
        ensures plain { IfOk result (All (All (λ s. s.definitions ≡ []))) }
        ensures normal { IfOk result (All (All (λ s. IsNormal s.rows))) }
        ensures meter { IsMetered meter.old meter.new result }
    {
        let levels = shadows(alloc, system, outer, meter)?;
        if are_levels_ended(levels.as_slice(), outer) {
            return Ok(Covers { levels });
        }
        let tower = Tower::of(alloc, system, outer, meter)?;
        let levels = ended_levels(alloc, system, outer, &tower, meter)?;
        Ok(Covers { levels })
    }

    /// The number of levels: one more than the columns behind the outer ones.
    pub fn levels(&self) -> usize
        ensures { result ≡ length self.now }
    {
        self.levels.len()
    }

    /// The systems at a height: over the outer columns and so many more.
    pub fn level(&self, height: usize) -> &[System]
        requires { height < length self.now }
        ensures { result.now ≡ slice_index_or self.now height [] }
    {
        self.levels[height].as_slice()
    }
}

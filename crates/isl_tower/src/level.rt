//! One level of a tower.

ghost use Rattle.std.specs.Prelude.{◌≡◌, ◌+◌, [], ◌∷◌, ◌++◌, OnOk, MatchResult, min};
ghost use Rattle.isl_meter.specs.Gauge.{IsCharged, IsCutBy};
ghost use Rattle.isl_piece.specs.System.{IsSystemWithin, free_columns};
ghost use Rattle.isl_tower.specs.Level.{AreOver, AreBelow};
ghost use Rattle.isl_tower.specs.Tower.{IsProjectionOnto};
ghost use Rattle.isl_tower.specs.Weight.{level_weight};

use isl_column::are_too_many;
use isl_elim::eliminate;
use isl_meter::{Cut, Meter};
use isl_piece::{System, normalise};
use std::alloc::{AllocError, AllocFailed, Global};
use std::marker::Model;

/// Systems over the same columns, which together hold where some of them does.
#[derive(Drop)]
pub(crate) struct Level {
    systems: Vec<System>,
}

impl Model for Level {
    ghost use Rattle.std.specs.Prelude.{List};
    ghost use Rattle.isl_piece.specs.declared.system.System.{System};

    ghost Value = { List System };

    ghost view = { λ l. l.systems.items };
}

impl Level {
    fn new(alloc: Global) -> Self
        ensures { result ≡ [] }
    {
        Level {
            systems: Vec::new(alloc),
        }
    }

    pub(crate) fn as_slice(&self) -> &[System]
        ensures { result.now ≡ self.now }
    {
        self.systems.as_slice()
    }

    // How many rows the systems have, and one more for each.
    pub(crate) fn weight(&self) -> usize
        ensures { result ≡ min (level_weight self.now) usize.MAX }
    {
        let mut weight = 0usize;
        for system in self.systems.as_slice() {
            weight = weight.saturating_add(system.rows.len().saturating_add(1));
        }
        weight
    }

    fn push(&mut self, system: System) -> Result<(), AllocFailed<System>>
        ensures { OnOk result (self.new ≡ self.old ++ system ∷ []) }
    {
        self.systems.push(system)
    }

    // Puts the systems behind these. They are as many together as are kept.
    fn append(&mut self, systems: Vec<System>) -> Result<(), AllocError>
        ensures { OnOk result (self.new ≡ self.old ++ systems.items) }
    {
        let mut systems = systems;
        let count = self.systems.len().saturating_add(systems.len());
        if systems.last().is_some_and(|system| are_too_many(
            count,
            system.rows.as_slice(),
            system.columns,
        )) {
            return Err(AllocError);
        }
        self.systems.append(&mut systems)
    }

    /// The system with its normal rows; nothing where one of its rows holds nowhere.
    #[tactic(auto, using(crate::proofs::TowerLaws::level_steps))]
    pub(crate) fn top(alloc: Global, system: &System, meter: &mut Meter) -> Result<Self, Cut>
        requires well_formed { IsSystemWithin meter.old system.now }
        requires plain { system.now.definitions ≡ [] }
        ensures exact { MatchResult result
            (λ level. AreOver meter.old (free_columns system.now) level × IsProjectionOnto system.now (free_columns system.now) level
            × IsCharged meter.old meter.new)
            (IsCutBy meter.old meter.new) }
    {
        let copied = system.copy(alloc)?;
        match normalise(alloc, copied, meter)? {
            None => Ok(Level::new(alloc)),
            Some(normal) => {
                let mut level = Level::new(alloc);
                level.push(normal)?;
                Ok(level)
            }
        }
    }

    /// What is left of the systems without their last column.
    #[tactic(auto, using(crate::proofs::TowerLaws::level_steps))]
    pub(crate) fn below(&self, alloc: Global, width: usize, meter: &mut Meter) -> Result<Self, Cut>
        requires over { AreOver meter.old (width + 1) self.now }
        ensures exact { MatchResult result
            (λ lower. AreBelow meter.old self.now width lower × IsCharged meter.old meter.new)
            (IsCutBy meter.old meter.new) }
    {
        let mut lower = Level::new(alloc);
        for system in self.as_slice() {
            let projected = eliminate(alloc, system, width, meter)?;
            lower.append(projected)?;
        }
        Ok(lower)
    }
}

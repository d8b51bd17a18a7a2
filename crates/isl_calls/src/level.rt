//! One level of covers.

ghost use Rattle.std.specs.Prelude.{◌≡◌, ◌+◌, ◌<◌, ◌≤◌, [], ◌∷◌, ◌++◌, All, IfOk, MatchResult, OnOk, length};
ghost use Rattle.isl_meter.specs.Gauge.{Gauge, IsCharged, IsCutBy};
ghost use Rattle.isl_piece.specs.System.{IsSystemWithin, free_columns};
ghost use Rattle.isl_tower.specs.Level.{AreOver};
ghost use Rattle.isl_tower.specs.Tower.{IsProjectionOnto};
ghost use Rattle.isl_calls.specs.Level.{AreEndedOf, AreShadows};

use crate::ended::is_ended;
use crate::shadow::shadow;
use isl_meter::{Cut, Meter};
use isl_piece::{System, normalise};
use std::alloc::{AllocError, AllocFailed, Global};
use std::marker::Model;

/// Systems over the same columns, which together hold where some of them does.
#[derive(Drop)]
pub(crate) struct Level {
    systems: Vec<System>,
}

impl Model for Level {
    ghost use Rattle.std.specs.Prelude.{List};
    ghost use Rattle.isl_piece.specs.declared.system.System.{System};

    ghost Value = { List System };

    ghost view = { λ l. l.systems.items };
}

impl Level {
    fn new(alloc: Global) -> Self
        ensures { result ≡ [] }
    {
        Level {
            systems: Vec::new(alloc),
        }
    }

    pub(crate) fn as_slice(&self) -> &[System]
        ensures { result.now ≡ self.now }
    {
        self.systems.as_slice()
    }

    fn push(&mut self, system: System) -> Result<(), AllocFailed<System>>
        ensures { OnOk result (self.new ≡ self.old ++ system ∷ []) }
    {
        self.systems.push(system)
    }

    /// The system with its normal rows; nothing where one of its rows holds nowhere.
    pub(crate) fn top(alloc: Global, system: &System, meter: &mut Meter) -> Result<Self, Cut>
        requires within { IsSystemWithin meter.old system.now }
        requires plain { system.now.definitions ≡ [] }
        ensures { MatchResult result
            (λ level. AreOver meter.old (free_columns system.now) level × IsProjectionOnto system.now (free_columns system.now) level
            × (length level ≤ 1) × IsCharged meter.old meter.new)
            (IsCutBy meter.old meter.new) }
    {
        let copied = system.copy(alloc)?;
        match normalise(alloc, copied, meter)? {
            None => Ok(Level::new(alloc)),
            Some(normal) => {
                let mut level = Level::new(alloc);
                level.push(normal)?;
                Ok(level)
            }
        }
    }

    /// The shadows of the systems, without their last column.
    pub(crate) fn below(&self, alloc: Global, width: usize, meter: &mut Meter) -> Result<Self, Cut>
        requires { AreOver meter.old (width + 1) self.now }
        ensures { MatchResult result
            (λ lower. AreShadows meter.old self.now width lower × IsCharged meter.old meter.new)
            (IsCutBy meter.old meter.new) }
    {
        let mut lower = Level::new(alloc);
        for system in self.as_slice() {
            if let Some(found) = shadow(alloc, system, width, meter)? {
                lower.push(found)?;
            }
        }
        Ok(lower)
    }

    /// Those of the systems whose last column has an end on each side.
    pub(crate) fn ended(alloc: Global, systems: &[System]) -> Result<Self, AllocError>
        requires within { (g : Gauge) × All (IsSystemWithin g) systems.now }
        requires plain { All (λ s. s.definitions ≡ []) systems.now }
        requires some_column { All (λ s. 0 < free_columns s) systems.now }
        ensures { IfOk result (AreEndedOf systems.now) }
    {
        let mut kept = Level::new(alloc);
        for system in systems {
            if is_ended(system) {
                kept.push(system.copy(alloc)?)?;
            }
        }
        Ok(kept)
    }

    /// A copy of the systems.
    pub(crate) fn copied(alloc: Global, systems: &[System]) -> Result<Self, AllocError>
        ensures { IfOk result (λ level. level ≡ systems.now) }
    {
        let mut level = Level::new(alloc);
        for system in systems {
            level.push(system.copy(alloc)?)?;
        }
        Ok(level)
    }
}

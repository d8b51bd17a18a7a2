//! Heads of loops.

ghost use Rattle.std.specs.Prelude.{[], ◌∷◌, IfOk};
ghost use Rattle.isl_meter.specs.Gauge.{IsDone};
ghost use Rattle.isl_bounds.specs.Bound.{AreEndGroups};
ghost use Rattle.isl_bounds.specs.Step.{IsStep};
ghost use Rattle.isl_bounds.specs.declared.side.Side.TheVariants.{Low, High};

use crate::Side;
use crate::bound::bound_of;
use crate::first::first_turn;
use isl_loop::Expr;
use isl_meter::{Cut, Meter};
use isl_piece::{Row, Rows};
use std::alloc::{AllocError, Global};

/// What a loop goes through: `low`, `low + step`, .. while not above `high`.
#[derive(Drop)]
pub struct Head {
    pub low: Expr,
    pub high: Expr,
    pub step: i128,
}

impl Head {
    ghost use Rattle.isl_bounds.specs.Head.{IsHeadOf};

    /// The head that goes through all numbers between the bounds that groups of inequalities are.
    ///
    /// # Errors
    ///
    /// `AllocError` where memory ends.
    pub fn plain(
        alloc: Global,
        lows: &[Rows],
        highs: &[Rows],
        variables: usize,
        meter: &Meter,
    ) -> Result<Head, AllocError>
        requires lows { AreEndGroups meter.now variables Low lows.now }
        requires highs { AreEndGroups meter.now variables High highs.now }
        ensures { IfOk result (IsHeadOf meter.now variables lows.now highs.now []) }
    {
        // For what a meter keeps: it has at least 8 bits.
        let _limit = meter.limit();
        let low = bound_of(alloc, lows, variables, Side::Low, meter)?;
        let high = bound_of(alloc, highs, variables, Side::High, meter)?;
        Ok(Head { low, high, step: 1 })
    }

    /// The head that goes through the numbers between the bounds at which the step holds. Uses no unit.
    ///
    /// # Errors
    ///
    /// `Overflow` where a sum passes the limit of the meter, and `NoMemory`.
    pub fn stepping(
        alloc: Global,
        lows: &[Rows],
        highs: &[Rows],
        step: &Row,
        variables: usize,
        meter: &mut Meter,
    ) -> Result<Head, Cut>
        requires lows { AreEndGroups meter.old variables Low lows.now }
        requires highs { AreEndGroups meter.old variables High highs.now }
        requires step { IsStep meter.old variables step.now }
        ensures { IsDone meter.old meter.new (IsHeadOf meter.old variables lows.now highs.now (step.now ∷ [])) result }
    {
        let high = bound_of(alloc, highs, variables, Side::High, meter)?;
        let low = first_turn(alloc, lows, step, variables, meter)?;
        Ok(Head {
            low,
            high,
            step: step.k,
        })
    }
}

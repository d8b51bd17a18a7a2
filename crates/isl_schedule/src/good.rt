//! What is due for a value, and which trees of loops are good for it. The function does nothing: its contract is the law.

ghost use Rattle.isl_loop.specs.declared.tree.Loop.{Loop};
ghost use Rattle.isl_schedule.specs.Schedule.{IsSchedule};
ghost use Rattle.isl_union.specs.KeptValue.{KeptValue};
ghost use Rattle.isl_schedule.specs.Good.{IsGoodTree, ListsCalls};

/// A tree is good for a value that tells when each point is visited, if at every valuation it lists the calls that are due, in the order
/// of their times.
pub fn listed_is_good()
    ensures { (value : KeptValue) (tree : Loop) → IsSchedule value → ListsCalls value tree → IsGoodTree value tree }
{}

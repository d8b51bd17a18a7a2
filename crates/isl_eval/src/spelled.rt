//! The statement that bytes spell.

ghost use Rattle.std.specs.Prelude.{◌≡◌, ℕ, List, MatchResult};
ghost use Rattle.isl_values.specs.State.{Moment};
ghost use Rattle.isl_eval.specs.Spelled.{SpellOne};
ghost use Rattle.isl_eval.specs.Evaluation.{IsRead, IsWhyNot};

use isl_meter::Meter;
use isl_refusal::Refusal;
use isl_stmt::read_statement;
use isl_tree::statement::Stmt;
use std::alloc::Global;

/// The statement that the bytes spell.
pub(crate) fn read(alloc: Global, bytes: &[u8], meter: &Meter) -> Result<Stmt, Refusal>
    ensures { (before : Moment) → before.meter ≡ meter.now
        → MatchResult result (IsRead before bytes.now) (IsWhyNot before bytes.now) }
{
    read_statement(alloc, bytes, meter.limit())
}

/// The bytes spell at most one statement.
pub fn one_statement()
    ensures { (bytes : List ℕ) → SpellOne bytes }
{}

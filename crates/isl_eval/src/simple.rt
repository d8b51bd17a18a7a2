//! One simple statement: one step of the machine.

ghost use Rattle.std.specs.Prelude.{◌≡◌, All, true, false, Some, Ok, IfErr, IfOk, MatchResult, OnErr, OnOk};
ghost use Rattle.isl_meter.specs.Gauge.{IsKept, limit_of};
ghost use Rattle.isl_space.specs.Name.{Name as NameView};
ghost use Rattle.isl_tree.specs.declared.statement.Expr as trees;
ghost use Rattle.isl_tree.specs.declared.statement.Stmt.TheVariants as s;
ghost use Rattle.isl_kinds.specs.Typed.{is_dollar, type_of_statement};
ghost use Rattle.isl_stmt.specs.Names.{binds_dollar};
ghost use Rattle.isl_values.specs.State.{Binds, Kept as KeptView, Moment, Narrows, forgotten, scope_of, Fits, IsSettled};
ghost use Rattle.isl_values.specs.Made.{IsPaid};
ghost use Rattle.isl_values.specs.Ends.{Ends};
ghost use Rattle.isl_values.specs.Selection.{Keeps};
ghost use Rattle.isl_lower.specs.Value.{IsWellFormedLiteral};
ghost use Rattle.isl_eval.specs.Params.{HasNoCoordinates, HoldsSome};
ghost use Rattle.isl_tree.specs.Known.{literal_is_known};
ghost use Rattle.isl_eval.specs.Ended.{IsAssumedWhereNeeded, NarrowedEnds};
ghost use Rattle.isl_eval.specs.Evaluation.{IsOutcome};
ghost use Rattle.isl_eval.specs.Machine.{Step};
ghost use Rattle.isl_eval.specs.Evaluated.{IsEvaluable, IsTyped, IsWhyEnded, works};

use crate::answers::Answer;
use crate::kept::content;
use crate::params::lower_params;
use crate::shown::shown;
use isl_flat::SimpleStmt;
use isl_kinds::{Typed, typed_statement};
use isl_meter::Meter;
use isl_refusal::Refusal;
use isl_space::Name;
use isl_tree::statement::{Expr, Stmt};
use isl_tree::tree::Literal;
use isl_values::{State, refusal_of};
use isl_words::Options;
use std::alloc::Global;

// The type of a statement that may have one.
fn type_of(alloc: Global, stmt: &Stmt, state: &State) -> Result<Option<Typed>, Refusal>
    requires { IsTyped (scope_of state.now) stmt.now }
    ensures { MatchResult result (λ typed. type_of_statement (scope_of state.now) stmt.now ≡ Ok typed)
        (λ refusal. refusal ≡ Refusal.NoMemory) }
{
    typed_statement(alloc, stmt, state.scope())
}

// Binds the name to what is kept of the expression.
fn bound(
    alloc: Global,
    stmt: &Stmt,
    name: &Name,
    expr: &Expr,
    typed: Typed,
    state: &mut State,
    meter: &mut Meter,
) -> Result<(), Refusal>
    requires typed { type_of_statement (scope_of state.old) stmt.now ≡ Ok (Some typed) }
    requires stmt { stmt.now ≡ s.Bind name.now expr.now }
    requires evaluable { IsEvaluable (scope_of state.old) stmt.now }
    requires fits { Fits (limit_of meter.old) state.old }
    ensures made { IsOutcome (works state.old.assumed stmt.now) (Ends state.old expr.now) meter.old meter.new
        (λ _. (before : Moment) → before.state ≡ state.old → limit_of before.meter ≡ limit_of meter.old
        → (kept : KeptView) × Keeps before expr.now kept × Binds state.old name.now kept state.new) result }
    ensures err { OnErr result (state.new ≡ state.old) }
    ensures dollar { OnOk result (is_dollar name.now ≡ true → forgotten state.new ≡ forgotten state.old) }
    ensures settled { OnOk result (is_dollar name.now ≡ false → IsSettled state.old → IsSettled state.new) }
    ensures fits { OnOk result (Fits (limit_of meter.old) state.new) }
{
    let name = name.copy()?;
    let kept = content(alloc, expr, typed.kind(), state, meter)?;
    state.bind(name, kept, typed)?;
    Ok(())
}

// Leaves those assumed valuations at which one formula of the set holds.
fn narrowed(
    alloc: Global,
    set: &Literal,
    state: &mut State,
    meter: &mut Meter,
) -> Result<(), Refusal>
    requires known { literal_is_known set.now ≡ true }
    requires well_formed { IsWellFormedLiteral set.now }
    requires formulas { All HasNoCoordinates set.now.pieces }
    requires fits { Fits (limit_of meter.old) state.old }
    ensures made { IsOutcome true (NarrowedEnds state.old set.now) meter.old meter.new
        (λ _. Narrows state.old set.now.params (HoldsSome set.now) state.new) result }
    ensures err { OnErr result (state.new ≡ state.old) }
    ensures settled { OnOk result (IsSettled state.old → IsSettled state.new) }
    ensures fits { OnOk result (Fits (limit_of meter.old) state.new) }
{
    let set = match lower_params(alloc, set, meter) {
        Ok(set) => set,
        Err(cut) => return Err(refusal_of(cut)),
    };
    state.narrow(alloc, &set, meter)
}

/// Evaluates a simple statement of this type, as `eval` does.
pub(crate) fn eval_typed(
    alloc: Global,
    state: &mut State,
    stmt: &SimpleStmt,
    typed: Option<Typed>,
    options: &Options,
    meter: &mut Meter,
) -> Result<Answer, Refusal>
    requires typed { type_of_statement (scope_of state.old) stmt.now ≡ Ok typed }
    requires evaluable { IsEvaluable (scope_of state.old) stmt.now }
    requires asked { IsAssumedWhereNeeded (record { state = state.old; meter = meter.old; options = options.now }) stmt.now }
    requires fits { Fits (limit_of meter.old) state.old }
    ensures ok { IfOk result (Step (record { state = state.old; meter = meter.old; options = options.now }) stmt.now
        (record { state = state.new; meter = meter.new; options = options.now })) }
    ensures err { OnErr result (state.new ≡ state.old) }
    ensures cause { IfErr result (IsWhyEnded (record { state = state.old; meter = meter.old; options = options.now }) stmt.now meter.new) }
    ensures meter { MatchResult result (λ _. IsPaid (works state.old.assumed stmt.now) meter.old meter.new) (λ _. IsKept meter.old meter.new) }
    ensures dollar { (name : NameView) (expr : trees.Expr) → stmt.now ≡ s.Bind name expr → is_dollar name ≡ true
        → forgotten state.new ≡ forgotten state.old }
    ensures settled { binds_dollar stmt.now ≡ false → IsSettled state.old → IsSettled state.new }
    ensures fits { OnOk result (Fits (limit_of meter.old) state.new) }
{
    match stmt {
        Stmt::Empty => Ok(Answer::nothing(alloc)),
        Stmt::Bind(name, expr) => {
            let typed = typed.unwrap();
            bound(alloc, stmt, name, expr, typed, state, meter)?;
            Ok(Answer::nothing(alloc))
        }
        Stmt::Show(expr) => {
            let typed = typed.unwrap();
            shown(alloc, expr, typed.kind(), state, options, meter)
        }
        Stmt::Assume(set) => {
            narrowed(alloc, set, state, meter)?;
            Ok(Answer::nothing(alloc))
        }
    }
}

/// Evaluates a simple statement. A parameter that is given no number counts as 0 where elements are listed or loops are run; these numbers
/// are assumed.
///
/// `Ok` gives one whole answer, which may be of no bytes, and changes what is bound and assumed. A refusal leaves both. (isl manual, on
/// parameter domains; the iscc chapter of the barvinok manual)
///
/// # Errors
/// What ends the evaluation first, operands from the left and inner ones first: `TooWide` where an operation has more than 16 parameters,
/// or forms a space that is too wide, or more than 16 names are assumed together; `NoMinimum` where there is no least or greatest element;
/// `Unbounded` where infinitely many elements are to be listed; `NoValuation` where no assumed valuation is left; and for loops `Nested`,
/// `TimeShape`, `Unbounded` and `SeveralTimes`, in this order, as `answer` tells. `Overflow` and `Budget` where the meter counted them, at
/// work that nothing ends before; and `NoMemory`.
pub fn eval(
    alloc: Global,
    state: &mut State,
    stmt: &SimpleStmt,
    options: &Options,
    meter: &mut Meter,
) -> Result<Answer, Refusal>
    requires evaluable { IsEvaluable (scope_of state.old) stmt.now }
    requires asked { IsAssumedWhereNeeded (record { state = state.old; meter = meter.old; options = options.now }) stmt.now }
    requires fits { Fits (limit_of meter.old) state.old }
    ensures ok { IfOk result (Step (record { state = state.old; meter = meter.old; options = options.now }) stmt.now
        (record { state = state.new; meter = meter.new; options = options.now })) }
    ensures err { OnErr result (state.new ≡ state.old) }
    ensures cause { IfErr result (IsWhyEnded (record { state = state.old; meter = meter.old; options = options.now }) stmt.now meter.new) }
    ensures meter { MatchResult result (λ _. IsPaid (works state.old.assumed stmt.now) meter.old meter.new) (λ _. IsKept meter.old meter.new) }
    ensures dollar { (name : NameView) (expr : trees.Expr) → stmt.now ≡ s.Bind name expr → is_dollar name ≡ true
        → forgotten state.new ≡ forgotten state.old }
    ensures settled { binds_dollar stmt.now ≡ false → IsSettled state.old → IsSettled state.new }
    ensures fits { OnOk result (Fits (limit_of meter.old) state.new) }
{
    let typed = type_of(alloc, stmt, state)?;
    eval_typed(alloc, state, stmt, typed, options, meter)
}

//! One statement of a script.

ghost use Rattle.std.specs.Prelude.{◌≡◌, ◌≢◌, ◌∷◌, [], All, false, IfOk, OnErr, OnOk, IfErr, MatchResult};
ghost use Rattle.std.specs.List.{list_any};
ghost use Rattle.isl_meter.specs.Gauge.{limit_of, IsCharged, IsKept};
ghost use Rattle.isl_tree.specs.declared.statement.Stmt as trees;
ghost use Rattle.isl_stmt.specs.Names.{binds_dollar};
ghost use Rattle.isl_values.specs.State.{Fits, IsSettled, Moment, forgotten, scope_of};
ghost use Rattle.isl_values.specs.Made.{IsPaid};
ghost use Rattle.isl_eval.specs.Causes.{Refuses};
ghost use Rattle.isl_eval.specs.Machine.{Steps};
ghost use Rattle.isl_eval.specs.Run.{Answers};
ghost use Rattle.isl_eval.specs.Asked as asked;
ghost use Rattle.isl_eval.specs.Ended.{IsAssumedWhereNeeded};
ghost use Rattle.isl_eval.specs.Evaluated.{works};
ghost use Rattle.isl_eval.specs.Evaluation.{AreEvaluable, IsClearStatement, IsTaken, IsWhyStopped, IsWhyUnasked};

use crate::answers::Answer;
use crate::simple::{eval, eval_typed};
use crate::spelled::read;
use crate::workable::{check, shows_at_numbers};
use isl_flat::{SimpleStmt, flatten};
use isl_kinds::Typed;
use isl_meter::Meter;
use isl_refusal::Refusal;
use isl_tree::statement::Stmt;
use isl_values::{State, refusal_of};
use isl_words::Options;
use std::alloc::Global;

// Whether elements are to be listed, or loops to be run.
fn needs_numbers(stmt: &Stmt, run: bool) -> bool
    ensures { result ≡ asked.needs_numbers run stmt.now }
{
    match stmt {
        Stmt::Show(expr) => shows_at_numbers(expr, run),
        Stmt::Empty | Stmt::Bind(..) | Stmt::Assume(_) => false,
    }
}

// Asks whether the numbers that parameters are given are assumed, where elements are to be listed or loops to be run.
fn ask(
    alloc: Global,
    stmt: &Stmt,
    state: &State,
    options: &Options,
    meter: &mut Meter,
) -> Result<(), Refusal>
    requires fits { Fits (limit_of meter.old) state.now }
    ensures { MatchResult result
        (λ _. IsAssumedWhereNeeded (record { state = state.now; meter = meter.old; options = options.now }) stmt.now × (meter.new ≡ meter.old))
        (IsWhyUnasked (record { state = state.now; meter = meter.old; options = options.now }) stmt.now meter.new) }
{
    if !needs_numbers(stmt, options.run()) {
        return Ok(());
    }
    match state.assumed().holds(alloc, options.at(), meter) {
        Ok(true) => Ok(()),
        Ok(false) => Err(Refusal::NotAssumed),
        Err(cut) => Err(refusal_of(cut)),
    }
}

// A statement with its type, if it has one.
#[derive(Drop)]
struct TypedStatement {
    stmt: Stmt,
    typed: Option<Typed>,
}

// The simple statements of a statement, and the type of the last of them, which is the statement's.
#[derive(Drop)]
struct Taken {
    statements: Vec<SimpleStmt>,
    typed: Option<Typed>,
}

// The statement that the bytes spell, where nothing that they say is a cause to refuse it.
fn clear_statement(
    alloc: Global,
    bytes: &[u8],
    state: &State,
    options: &Options,
    meter: &Meter,
) -> Result<TypedStatement, Refusal>
    ensures { (before : Moment) → before ≡ record { state = state.now; meter = meter.now; options = options.now }
        → MatchResult result (λ found. IsClearStatement before bytes.now found.stmt found.typed) (Refuses before bytes.now meter.now) }
{
    let stmt = match read(alloc, bytes, meter) {
        Ok(stmt) => stmt,
        Err(refusal) => return Err(refusal),
    };
    match check(alloc, &stmt, state.scope(), options) {
        Ok(typed) => Ok(TypedStatement { stmt, typed }),
        Err(refusal) => Err(refusal),
    }
}

// The simple statements of the statement that the bytes spell, where it is to be evaluated.
fn statements_of(
    alloc: Global,
    bytes: &[u8],
    state: &State,
    options: &Options,
    meter: &mut Meter,
) -> Result<Taken, Refusal>
    requires fits { Fits (limit_of meter.old) state.now }
    ensures taken { (before : Moment) → before ≡ record { state = state.now; meter = meter.old; options = options.now }
        → MatchResult result (λ taken. IsTaken before bytes.now taken.statements.items taken.typed) (Refuses before bytes.now meter.new) }
    ensures meter { MatchResult result (λ _. meter.new ≡ meter.old) (λ _. IsKept meter.old meter.new) }
{
    let TypedStatement { stmt, typed } = match clear_statement(
        alloc, bytes, state, options, meter,
    ) {
        Ok(found) => found,
        Err(refusal) => return Err(refusal),
    };
    match ask(alloc, &stmt, state, options, meter) {
        Ok(()) => Ok(Taken {
            statements: flatten(alloc, stmt)?,
            typed,
        }),
        Err(refusal) => Err(refusal),
    }
}

// Evaluates simple statements, one after another. A refusal leaves the names that those before it bound.
fn evaluate(
    alloc: Global,
    state: &mut State,
    statements: &[SimpleStmt],
    typed: Option<Typed>,
    options: &Options,
    meter: &mut Meter,
) -> Result<Answer, Refusal>
    requires evaluable { AreEvaluable (scope_of state.old) statements.now typed }
    requires asked { All (IsAssumedWhereNeeded (record { state = state.old; meter = meter.old; options = options.now })) statements.now }
    requires fits { Fits (limit_of meter.old) state.old }
    ensures ok { IfOk result (Steps (record { state = state.old; meter = meter.old; options = options.now }) statements.now
        (record { state = state.new; meter = meter.new; options = options.now })) }
    ensures err { OnErr result (forgotten state.new ≡ forgotten state.old) }
    ensures shown { IfOk result (λ answer. answer.bytes ≢ [] → forgotten state.new ≡ forgotten state.old) }
    ensures cause { IfErr result (IsWhyStopped (record { state = state.old; meter = meter.old; options = options.now }) statements.now meter.new) }
    ensures meter { MatchResult result (λ _. IsPaid (list_any (works state.old.assumed) statements.now) meter.old meter.new) (λ _. IsKept meter.old meter.new) }
    ensures settled { (only : trees.Stmt) → statements.now ≡ only ∷ [] → binds_dollar only ≡ false → IsSettled state.old
        → IsSettled state.new }
    ensures fits { OnOk result (Fits (limit_of meter.old) state.new) }
{
    let Some((last, others)) = statements.split_last() else {
        unreachable!()
    };
    for stmt in others {
        eval(alloc, state, stmt, options, meter)?;
    }
    eval_typed(alloc, state, last, typed, options, meter)
}

// Forgets the names that the simple statements of a statement bound, where there are several.
fn forget_after(state: &mut State, statements: &[SimpleStmt])
    requires { (only : trees.Stmt) → statements.now ≡ only ∷ [] → IsSettled state.old }
    ensures { state.new ≡ forgotten state.old }
{
    if statements.len() != 1 {
        state.forget();
    }
}

/// Answers the statement that the bytes spell. It begins with the meter as it is: the caller gives the budget back.
///
/// `Ok` gives one whole answer, which may be of no bytes, and changes what is bound and assumed. A refusal leaves both, and so does an answer
/// that has bytes. (isl manual, on parameter domains; the iscc chapter of the barvinok manual)
///
/// # Errors
/// The refusal of the first cause that the bytes have, as the table of causes lists them; where they have none, `NotAssumed` where elements
/// are to be listed or loops to be run and the numbers that parameters are given, 0 for the others, are not assumed; and then what ends the
/// evaluation first: `TooWide` where an operation has more than 16 parameters or forms a space that is too wide, or more than 16 names are
/// assumed together, `NoMinimum` where there is no least or greatest element, `Unbounded` where infinitely many elements are to be listed,
/// and `NoValuation` where no assumed valuation is left; for loops, the first that is so at some assumed valuation: `Nested` where a pair is
/// to be visited, `TimeShape` where two times differ in shape, `Unbounded` where infinitely many points are to be visited, and
/// `SeveralTimes` where a point has two times; `Overflow` and `Budget` only where the meter counted them, at work that nothing ends before,
/// and `Overflow` also where it is asked whether numbers are assumed; and `NoMemory`.
pub fn answer(
    alloc: Global,
    bytes: &[u8],
    state: &mut State,
    options: &Options,
    meter: &mut Meter,
) -> Result<Answer, Refusal>
    requires fits { Fits (limit_of meter.old) state.old }
    requires settled { IsSettled state.old }
    ensures fits { Fits (limit_of meter.new) state.new }
    ensures settled { IsSettled state.new }
    ensures ok { IfOk result (Answers (record { state = state.old; meter = meter.old; options = options.now }) bytes.now
        (record { state = state.new; meter = meter.new; options = options.now })) }
    ensures err { OnErr result (state.new ≡ state.old) }
    ensures shown { IfOk result (λ answer. answer.bytes ≢ [] → state.new ≡ state.old) }
    ensures cause { IfErr result (Refuses (record { state = state.old; meter = meter.old; options = options.now }) bytes.now meter.new) }
    ensures meter { MatchResult result (λ _. IsCharged meter.old meter.new) (λ _. IsKept meter.old meter.new) }
{
    let Taken { statements, typed } = match statements_of(alloc, bytes, state, options, meter) {
        Ok(taken) => taken,
        Err(refusal) => return Err(refusal),
    };
    let answered = evaluate(alloc, state, statements.as_slice(), typed, options, meter);
    forget_after(state, statements.as_slice());
    answered
}

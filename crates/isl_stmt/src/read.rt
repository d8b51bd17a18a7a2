//! Reading statements with refusals.

ghost use Rattle.std.specs.Prelude.{◌≡◌, ◌⊎◌, ◌≤ℤ◌, Result, Err, pos};
ghost use Rattle.isl_token.specs.Spelling.{SpellsOne};
ghost use Rattle.isl_refusal.specs.declared.refusal.Refusal.TheVariants.{NoMemory};
ghost use Rattle.isl_refusal.specs.declared.refusal.Refusal as refusals;
ghost use Rattle.isl_tree.specs.declared.statement.Stmt as trees;
ghost use Rattle.isl_stmt.specs.StatementGrammar.{statement_grammar};
ghost use Rattle.isl_stmt.specs.Read as spec;

use crate::limits::statement_is_within;
use crate::statement::statement;
use isl_refusal::Refusal;
use isl_text::read::tokens;
use isl_text::wide::has_wide_number;
use isl_token::{Cursor, Fault, Tokens, is_too_deep};
use isl_tree::statement::Stmt;
use std::alloc::Global;

/// The statement that all the tokens spell, whatever its size.
#[tactic(auto, using(crate::proofs::ReadLaws::wholes))]
fn whole(alloc: Global, tokens: &Tokens<'_>) -> Result<Stmt, Fault>
    ensures { spec.IsWhole tokens.now result }
{
    let rest = tokens.rest();
    let depth = rest.left();
    let mut cursor = Cursor::new(alloc, rest);
    let found = statement(alloc, &mut cursor, depth + 1)?;
    if cursor.left() > 0 {
        return Err(Fault::Syntax);
    }
    Ok(found)
}

/// A statement that was read from the tokens, where it keeps its limits.
fn judged(stmt: Stmt, tokens: &Tokens<'_>, limit: i128) -> Result<Stmt, Refusal>
    requires { pos 0 ≤ℤ limit }
    ensures { result ≡ spec.judged limit tokens.now stmt }
{
    if !statement_is_within(&stmt) {
        Err(Refusal::TooWide)
    } else if has_wide_number(tokens.rest(), limit) {
        Err(Refusal::WideNumber)
    } else {
        Ok(stmt)
    }
}

/// The statement that the tokens spell.
#[tactic(auto, using(crate::proofs::ReadLaws::dues))]
fn from_tokens(alloc: Global, tokens: &Tokens<'_>, limit: i128) -> Result<Stmt, Refusal>
    requires { pos 0 ≤ℤ limit }
    ensures { (result ≡ Err NoMemory) ⊎ spec.IsDueTo tokens.now limit result }
{
    if is_too_deep(tokens) {
        return Err(Refusal::TooDeep);
    }
    match whole(alloc, tokens) {
        Ok(found) => judged(found, tokens, limit),
        Err(fault) => Err(Refusal::from(fault)),
    }
}

/// The statement that a text spells. The limit is the greatest number that it may write.
///
/// # Errors
/// In this order: `Syntax` where some byte begins no token; `TooDeep` where the depth is above 200 at some token; `Syntax`
/// where the tokens spell no statement; `TooWide` where a literal has too many parameters, coordinates, leaves or bound
/// variables; `WideNumber` where a number is above the limit. And `NoMemory`.
pub fn read_statement(alloc: Global, bytes: &[u8], limit: i128) -> Result<Stmt, Refusal>
    requires { pos 0 ≤ℤ limit }
    // Each answer is due.
    ensures only { (result ≡ Err NoMemory) ⊎ spec.IsDue bytes.now limit result }
    // What is due is answered, unless memory runs out.
    ensures exactly { (answer : Result trees.Stmt refusals.Refusal) → spec.IsDue bytes.now limit answer → spec.Answers result answer }
{
    match tokens(alloc, bytes) {
        Ok(found) => from_tokens(alloc, &found, limit),
        Err(refusal) => Err(refusal),
    }
}

/// Tokens spell at most one statement.
pub fn one_statement()
    ensures { SpellsOne statement_grammar }
{}

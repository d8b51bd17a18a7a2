//! The reader of statements.

ghost use Rattle.std.specs.Prelude.{◌≡◌};
ghost use Rattle.isl_token.specs.Reading.{Reads};
ghost use Rattle.isl_text.specs.Pset as sets;
ghost use Rattle.isl_stmt.specs.Expression as expressions;
ghost use Rattle.isl_stmt.specs.Statement as spec;

use crate::expression::expression;
use crate::word::{Role, next_role, variable};
use isl_text::pset::pset;
use isl_token::{Cursor, Fault, Kind};
use isl_tree::statement::Stmt;
use std::alloc::Global;

// Whether a name and `:=` come next.
fn sees_binding(tokens: &Cursor<'_>) -> bool
    ensures { result ≡ spec.sees_binding tokens.now }
{
    next_role(tokens) == Role::Name && tokens.second() == Kind::Assign
}

// A name, `:=` and an expression.
#[tactic(auto, unfolding(crate::specs::Statement::bound))]
fn bound(alloc: Global, tokens: &mut Cursor<'_>, depth: usize) -> Result<Stmt, Fault>
    ensures { Reads (spec.bound (expressions.expression depth) tokens.old) result tokens.new }
{
    let name = variable(alloc, tokens)?;
    tokens.expect(Kind::Assign)?;
    let value = expression(alloc, tokens, depth)?;
    Ok(Stmt::Bind(name, value))
}

#[tactic(auto, unfolding(crate::specs::Statement::shown))]
fn shown(alloc: Global, tokens: &mut Cursor<'_>, depth: usize) -> Result<Stmt, Fault>
    ensures { Reads (spec.shown (expressions.expression depth) tokens.old) result tokens.new }
{
    Ok(Stmt::Show(expression(alloc, tokens, depth)?))
}

// A parameter set, after `assume`.
#[tactic(auto, unfolding(crate::specs::Statement::assumed))]
fn assumed(alloc: Global, tokens: &mut Cursor<'_>, depth: usize) -> Result<Stmt, Fault>
    ensures { Reads (spec.assumed (sets.pset depth) tokens.old) result tokens.new }
{
    Ok(Stmt::Assume(pset(alloc, tokens, depth)?))
}

// `assume` and a parameter set, or an expression, with `print` before it or without.
fn unbound(alloc: Global, tokens: &mut Cursor<'_>, depth: usize) -> Result<Stmt, Fault>
    ensures { Reads (spec.unbound (sets.pset depth) (expressions.expression depth) tokens.old) result tokens.new }
{
    match next_role(tokens) {
        Role::Print => {
            tokens.skip();
            shown(alloc, tokens, depth)
        }
        Role::Assume => {
            tokens.skip();
            assumed(alloc, tokens, depth)
        }
        _ => shown(alloc, tokens, depth),
    }
}

/// A statement whose brackets are nested less than `depth` deep, which is empty where no token is left.
///
/// # Errors
/// `Syntax` where other tokens come next than those of a statement.
#[tactic(auto, unfolding(crate::specs::Statement::statement_with))]
pub fn statement(alloc: Global, tokens: &mut Cursor<'_>, depth: usize) -> Result<Stmt, Fault>
    ensures { Reads (spec.statement depth tokens.old) result tokens.new }
{
    if tokens.left() == 0 {
        Ok(Stmt::Empty)
    } else if sees_binding(tokens) {
        bound(alloc, tokens, depth)
    } else {
        unbound(alloc, tokens, depth)
    }
}

//! The kind of an expression, and what an expression is refused for.

ghost use Rattle.std.specs.Prelude.{◌≡◌};
ghost use Rattle.std.specs.Option.{option_and_then};
ghost use Rattle.isl_kinds.specs.Lines as lines;
ghost use Rattle.isl_kinds.specs.Typed as spec;
ghost use Rattle.isl_kinds.specs.Typed.{Answers};

use crate::known::known_params;
use crate::lines::{applied, dependence, inverse, item, joined, prefixed};
use crate::params::declared;
use crate::sought::{has_no_item, has_unknown};
use crate::{Scope, Typed};
use isl_refusal::Refusal;
use isl_tree::statement::{Binary, Expr, Link, Postfix, Prefix, Stmt, ValueKind};
use isl_tree::tree::PieceTree;
use std::alloc::Global;

/// What the value of an expression is for.
#[derive(Clone, Copy)]
pub enum Purpose {
    Shown,
    Bound,
}

// The kind of a literal with these pieces.
fn kind_of_pieces(pieces: &[PieceTree]) -> ValueKind
    ensures { result ≡ spec.kind_of_pieces pieces.now }
{
    match pieces {
        [] => ValueKind::Empty,
        [piece, ..] if piece.second.is_some() => ValueKind::Map,
        [_, ..] => ValueKind::Set,
    }
}

// What a word makes of an operand that may have no kind.
fn of_one(word: Prefix, operand: Option<ValueKind>) -> Option<ValueKind>
    ensures { result ≡ option_and_then (lines.prefixed word) operand }
{
    prefixed(word, operand?)
}

// What an operator makes of two operands that may have no kind.
fn of_two(operator: Binary, left: Option<ValueKind>, right: Option<ValueKind>) -> Option<ValueKind>
    ensures { result ≡ spec.by_two (lines.joined operator) left right }
{
    joined(operator, left?, right?)
}

// What is made of three operands that may have no kind.
fn of_three(
    made: ValueKind,
    source: Option<ValueKind>,
    sink: Option<ValueKind>,
    schedule: Option<ValueKind>,
) -> Option<ValueKind>
    ensures { result ≡ spec.by_three made source sink schedule }
{
    dependence(made, source?, sink?, schedule?)
}

// The kind of an expression, where for each operation some line of the table fits.
#[cycle(kind)]
fn kind(expr: &Expr, scope: &Scope) -> Option<ValueKind>
    ensures { result ≡ spec.kind_of scope.now expr.now }
{
    match expr {
        Expr::Name(name) => Some(scope.get(name)?.kind()),
        Expr::Literal(literal) => Some(kind_of_pieces(literal.pieces.as_slice())),
        Expr::Row(first, links) => kind_of_row(kind(first.get(), scope), links.as_slice(), scope),
        Expr::Prefix(word, operand) => of_one(*word, kind(operand.get(), scope)),
        Expr::Any(source, sink, schedule) => of_three(
            ValueKind::Map,
            kind(source.get(), scope),
            kind(sink.get(), scope),
            kind(schedule.get(), scope),
        ),
        Expr::Last(source, sink, schedule) => of_three(
            ValueKind::List,
            kind(source.get(), scope),
            kind(sink.get(), scope),
            kind(schedule.get(), scope),
        ),
        Expr::Post(operand, postfixes) => {
            kind_of_post(kind(operand.get(), scope), postfixes.as_slice(), scope)
        }
    }
}

#[cycle(kind)]
fn kind_of_row(first: Option<ValueKind>, links: &[Link], scope: &Scope) -> Option<ValueKind>
    ensures { result ≡ spec.kind_of_row scope.now first links.now }
{
    let mut left = first;
    for link in links {
        left = of_two(link.operator, left, kind(&link.operand, scope));
    }
    left
}

#[cycle(kind)]
fn kind_of_post(
    operand: Option<ValueKind>,
    postfixes: &[Postfix],
    scope: &Scope,
) -> Option<ValueKind>
    ensures { result ≡ spec.kind_of_post scope.now operand postfixes.now }
{
    let mut left = operand;
    for postfix in postfixes {
        left = kind_past(left, postfix, scope);
    }
    left
}

#[cycle(kind)]
fn kind_past(left: Option<ValueKind>, postfix: &Postfix, scope: &Scope) -> Option<ValueKind>
    ensures { result ≡ spec.kind_past scope.now left postfix.now }
{
    match postfix {
        Postfix::Inverse => inverse(left?),
        Postfix::Apply(argument) => applied(left?, kind(argument, scope)?),
        Postfix::Item(_) => item(left?),
    }
}

impl Purpose {
    fn takes(self, kind: ValueKind) -> bool
        ensures { result ≡ spec.takes self kind }
    {
        match self {
            Purpose::Shown => true,
            Purpose::Bound => match kind {
                ValueKind::Set | ValueKind::Map | ValueKind::List | ValueKind::Empty => true,
                ValueKind::Truth | ValueKind::Listing | ValueKind::Code | ValueKind::Tree => false,
            },
        }
    }
}

fn kind_for(purpose: Purpose, expr: &Expr, scope: &Scope) -> Result<ValueKind, Refusal>
    ensures { result ≡ spec.kind_for purpose expr.now (spec.kind_of scope.now expr.now) }
{
    match kind(expr, scope) {
        Some(kind) if !purpose.takes(kind) => Err(Refusal::WrongKind),
        Some(_) if has_no_item(expr) => Err(Refusal::NoElement),
        Some(kind) => Ok(kind),
        None => Err(Refusal::WrongKind),
    }
}

// The kind of an expression and its declared parameters, where its value is for this purpose.
fn type_for(alloc: Global, purpose: Purpose, expr: &Expr, scope: &Scope) -> Result<Typed, Refusal>
    ensures { Answers result (spec.type_for purpose scope.now expr.now) }
{
    if has_unknown(expr, scope) {
        return Err(Refusal::UnknownName);
    }
    let kind = kind_for(purpose, expr, scope)?;
    let params = declared(alloc, expr, scope)?;
    Ok(Typed::new(kind, params))
}

/// The type of what a statement binds or shows, if it does so: the kind of the expression and its declared parameters, those of the first
/// operand and then the new ones of the second.
///
/// # Errors
/// In this order: `UnknownName` where a name is unbound, or an identifier of a literal unknown; `WrongKind` where an operation takes no
/// operands of such kinds, or a value of this kind may not be bound; `NoElement` where an element of a list is asked for that no list
/// has. Of an assumption `UnknownName` alone. And `NoMemory`.
pub fn typed_statement(alloc: Global, stmt: &Stmt, scope: &Scope) -> Result<Option<Typed>, Refusal>
    ensures { Answers result (spec.type_of_statement scope.now stmt.now) }
{
    match stmt {
        Stmt::Empty => Ok(None),
        Stmt::Bind(_, expr) => Ok(Some(type_for(alloc, Purpose::Bound, expr, scope)?)),
        Stmt::Show(expr) => Ok(Some(type_for(alloc, Purpose::Shown, expr, scope)?)),
        Stmt::Assume(set) => {
            known_params(set)?;
            Ok(None)
        }
    }
}

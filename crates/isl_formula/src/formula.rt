//! The reader of formulas.

ghost use Rattle.std.specs.Prelude.{◌≡◌, ◌-◌, ◌<◌, [], ◌∷◌};
ghost use Rattle.isl_token.specs.Reading as reading;
ghost use Rattle.isl_token.specs.Reading.{Reads};
ghost use Rattle.isl_formula.specs.Term as terms;
ghost use Rattle.isl_formula.specs.Formula as spec;

use crate::ahead::{Mark, begins};
use crate::chain::{binders, chain};
use isl_token::{Cursor, Fault, Kind};
use isl_tree::tree::Formula;
use sqlite_items::{Boxed, Items};
use std::alloc::Global;

/// What joins formulas in a row.
#[derive(Clone, Copy)]
enum Operator {
    Implies,
    Or,
    And,
}

fn sign_of(operator: Operator) -> Kind
    ensures { result ≡ spec.sign_of operator }
{
    match operator {
        Operator::Implies => Kind::Implies,
        Operator::Or => Kind::Or,
        Operator::And => Kind::And,
    }
}

fn joined(operator: Operator, parts: Items<Formula>) -> Formula
    ensures { result ≡ spec.joined operator parts }
{
    match operator {
        Operator::Implies => Formula::Implies(parts),
        Operator::Or => Formula::Or(parts),
        Operator::And => Formula::And(parts),
    }
}

/// Whether the operator comes next.
fn goes_on(tokens: &Cursor<'_>, operator: Operator) -> bool
    ensures { result ≡ reading.sees (spec.sign_of operator) tokens.now }
{
    tokens.sees(sign_of(operator))
}

/// A formula nested less than `depth` deep.
#[cycle(formula)]
pub fn formula(alloc: Global, tokens: &mut Cursor<'_>, depth: usize) -> Result<Formula, Fault>
    ensures { Reads (spec.formula depth tokens.old) result tokens.new }
{
    row(alloc, tokens, depth, Operator::Implies)
}

/// An operand of the operator, which is itself, or a row of several.
#[cycle(formula)]
#[tactic(auto, using(crate::proofs::Operands::whole_rows))]
fn row(
    alloc: Global,
    tokens: &mut Cursor<'_>,
    depth: usize,
    operator: Operator,
) -> Result<Formula, Fault>
    ensures { Reads (spec.row_of (spec.unary depth) operator tokens.old) result tokens.new }
{
    let first = operand(alloc, tokens, depth, operator)?;
    if !goes_on(tokens, operator) {
        return Ok(first);
    }
    let second = next_operand(alloc, tokens, depth, operator)?;
    let parts = others(alloc, tokens, depth, operator, first, second)?;
    Ok(joined(operator, parts))
}

/// The parts of a row whose first two are read.
#[cycle(formula)]
#[tactic(auto, using(isl_token::proofs::Turns::turns), unfolding(isl_token::specs::Reading::row))]
fn others(
    alloc: Global,
    tokens: &mut Cursor<'_>,
    depth: usize,
    operator: Operator,
    first: Formula,
    second: Formula,
) -> Result<Items<Formula>, Fault>
    ensures { Reads (reading.row (reading.sees (spec.sign_of operator)) (spec.next_of (spec.unary depth) operator)
        (first ∷ second ∷ []) tokens.old) result tokens.new }
{
    let mut found = Items::from_vec(Vec::with_capacity(alloc, 2)?);
    found.push(first)?;
    found.push(second)?;
    for _turn in 0..tokens.left() {
        if !goes_on(tokens, operator) {
            return Ok(found);
        }
        found.push(next_operand(alloc, tokens, depth, operator)?)?;
    }
    Ok(found)
}

/// An operand, after the operator.
#[cycle(formula)]
#[tactic(auto, unfolding(crate::specs::Formula::next_item))]
fn next_operand(
    alloc: Global,
    tokens: &mut Cursor<'_>,
    depth: usize,
    operator: Operator,
) -> Result<Formula, Fault>
    ensures { Reads (spec.next_of (spec.unary depth) operator tokens.old) result tokens.new }
{
    tokens.skip();
    operand(alloc, tokens, depth, operator)
}

/// What an operator joins: rows of the operators that bind more tightly.
#[cycle(formula)]
#[tactic(auto, using(crate::proofs::Operands::operands))]
fn operand(
    alloc: Global,
    tokens: &mut Cursor<'_>,
    depth: usize,
    operator: Operator,
) -> Result<Formula, Fault>
    ensures { Reads (spec.operand (spec.unary depth) operator tokens.old) result tokens.new }
{
    match operator {
        Operator::Implies => row(alloc, tokens, depth, Operator::Or),
        Operator::Or => row(alloc, tokens, depth, Operator::And),
        Operator::And => unary(alloc, tokens, depth),
    }
}

#[cycle(formula)]
#[tactic(auto, using(crate::proofs::FormulaDepth::deeper), unfolding(crate::specs::Formula::unary))]
fn unary(alloc: Global, tokens: &mut Cursor<'_>, depth: usize) -> Result<Formula, Fault>
    ensures { Reads (spec.unary depth tokens.old) result tokens.new }
{
    if depth == 0 {
        return Err(Fault::Syntax);
    }
    unary_level(alloc, tokens, depth)
}

#[cycle(formula)]
#[tactic(auto, unfolding(crate::specs::Formula::unary_level))]
fn unary_level(alloc: Global, tokens: &mut Cursor<'_>, depth: usize) -> Result<Formula, Fault>
    requires { 0 < depth }
    ensures { Reads (spec.unary_level (terms.term depth) (spec.unary (depth - 1)) tokens.old) result tokens.new }
{
    match tokens.peek() {
        Kind::Not => {
            tokens.skip();
            negated(alloc, tokens, depth)
        }
        Kind::Exists => {
            tokens.skip();
            exists(alloc, tokens, depth)
        }
        Kind::True => {
            tokens.skip();
            Ok(Formula::True)
        }
        Kind::False => {
            tokens.skip();
            Ok(Formula::False)
        }
        _ => other(alloc, tokens, depth),
    }
}

/// A formula in brackets, or a chain of comparisons.
#[cycle(formula)]
fn other(alloc: Global, tokens: &mut Cursor<'_>, depth: usize) -> Result<Formula, Fault>
    requires { 0 < depth }
    ensures { Reads (spec.other (terms.term depth) (spec.unary (depth - 1)) tokens.old) result tokens.new }
{
    if begins(tokens, Kind::Open, Mark::Formula) {
        tokens.skip();
        group(alloc, tokens, depth)
    } else {
        chain(alloc, tokens, depth)
    }
}

/// A formula and `)`, after the bracket.
#[cycle(formula)]
#[tactic(auto, unfolding(crate::specs::Formula::group))]
fn group(alloc: Global, tokens: &mut Cursor<'_>, depth: usize) -> Result<Formula, Fault>
    requires { 0 < depth }
    ensures { Reads (spec.group (terms.term depth) (spec.unary (depth - 1)) tokens.old) result tokens.new }
{
    let inner = formula(alloc, tokens, depth - 1)?;
    tokens.expect(Kind::Close)?;
    Ok(inner)
}

/// A unary, after `not`.
#[cycle(formula)]
#[tactic(auto, unfolding(crate::specs::Formula::negated))]
fn negated(alloc: Global, tokens: &mut Cursor<'_>, depth: usize) -> Result<Formula, Fault>
    requires { 0 < depth }
    ensures { Reads (spec.negated (terms.term depth) (spec.unary (depth - 1)) tokens.old) result tokens.new }
{
    let inner = unary(alloc, tokens, depth - 1)?;
    Ok(Formula::Not(Boxed::new(alloc, inner)?))
}

/// What `exists` binds and the formula of it, after the word.
#[cycle(formula)]
#[tactic(auto, unfolding(crate::specs::Formula::exists))]
fn exists(alloc: Global, tokens: &mut Cursor<'_>, depth: usize) -> Result<Formula, Fault>
    requires { 0 < depth }
    ensures { Reads (spec.exists (terms.term depth) (spec.unary (depth - 1)) tokens.old) result tokens.new }
{
    if tokens.sees(Kind::Open) {
        tokens.skip();
        bound_in_brackets(alloc, tokens, depth)
    } else {
        bound(alloc, tokens, depth)
    }
}

/// Binders, `:` and a formula.
#[cycle(formula)]
#[tactic(auto, unfolding(crate::specs::Formula::bound))]
fn bound(alloc: Global, tokens: &mut Cursor<'_>, depth: usize) -> Result<Formula, Fault>
    requires { 0 < depth }
    ensures { Reads (spec.bound (terms.term depth) (spec.unary (depth - 1)) tokens.old) result tokens.new }
{
    let names = binders(alloc, tokens, depth)?;
    tokens.expect(Kind::Colon)?;
    let inner = formula(alloc, tokens, depth - 1)?;
    Ok(Formula::Exists(names, Boxed::new(alloc, inner)?))
}

/// The same and `)`, after the bracket.
#[cycle(formula)]
#[tactic(auto, unfolding(crate::specs::Formula::bound_in_brackets))]
fn bound_in_brackets(alloc: Global, tokens: &mut Cursor<'_>, depth: usize) -> Result<Formula, Fault>
    requires { 0 < depth }
    ensures { Reads (spec.bound_in_brackets (terms.term depth) (spec.unary (depth - 1)) tokens.old) result tokens.new }
{
    let whole = bound(alloc, tokens, depth)?;
    tokens.expect(Kind::Close)?;
    Ok(whole)
}

//! The reader of expressions.

ghost use Rattle.std.specs.Prelude.{◌≡◌, ◌-◌, ◌<◌};
ghost use Rattle.isl_token.specs.Reading.{Reads};
ghost use Rattle.isl_text.specs.Literal.{literal as the_literal};
ghost use Rattle.isl_text.specs.Tuple.{IsMade};
ghost use Rattle.isl_stmt.specs.Expression as spec;

use crate::operator::{Precedence, operator, sees_operator};
use crate::word::{Role, expect_word, next_role, prefix, variable};
use isl_text::literal::literal;
use isl_token::{Cursor, Fault, Kind};
use isl_tree::statement::{Expr, Link, Postfix};
use sqlite_items::{Boxed, Items};
use std::alloc::Global;

/// Which dependences are asked for.
#[derive(Clone, Copy)]
pub enum Flow {
    Any,
    Last,
}

/// The row, which is its operand where nothing is joined to it.
fn row_of(alloc: Global, first: Expr, links: Items<Link>) -> Result<Expr, Fault>
    ensures { IsMade result (spec.row_of first links) }
{
    if links.is_empty() {
        Ok(first)
    } else {
        Ok(Expr::Row(Boxed::new(alloc, first)?, links))
    }
}

/// The operand with what follows it, which may be nothing.
fn post_of(alloc: Global, operand: Expr, postfixes: Items<Postfix>) -> Result<Expr, Fault>
    ensures { IsMade result (spec.post_of operand postfixes) }
{
    if postfixes.is_empty() {
        Ok(operand)
    } else {
        Ok(Expr::Post(Boxed::new(alloc, operand)?, postfixes))
    }
}

fn dependence(
    alloc: Global,
    flow: Flow,
    source: Expr,
    sink: Expr,
    schedule: Expr,
) -> Result<Expr, Fault>
    ensures { IsMade result (spec.dependence flow source sink schedule) }
{
    let source = Boxed::new(alloc, source)?;
    let sink = Boxed::new(alloc, sink)?;
    let schedule = Boxed::new(alloc, schedule)?;
    match flow {
        Flow::Any => Ok(Expr::Any(source, sink, schedule)),
        Flow::Last => Ok(Expr::Last(source, sink, schedule)),
    }
}

/// An expression nested less than `depth` deep.
///
/// # Errors
/// `Syntax` where none comes next.
#[cycle(expression)]
pub fn expression(alloc: Global, tokens: &mut Cursor<'_>, depth: usize) -> Result<Expr, Fault>
    ensures { Reads (spec.expression depth tokens.old) result tokens.new }
{
    row(alloc, tokens, depth, Precedence::Test)
}

/// Operands that operators of the precedence join.
#[cycle(expression)]
#[tactic(auto, unfolding(crate::specs::Expression::rows))]
fn row(
    alloc: Global,
    tokens: &mut Cursor<'_>,
    depth: usize,
    precedence: Precedence,
) -> Result<Expr, Fault>
    ensures { Reads (spec.row_at (spec.pre depth) precedence tokens.old) result tokens.new }
{
    let first = operand(alloc, tokens, depth, precedence)?;
    let links = links(alloc, tokens, depth, precedence)?;
    row_of(alloc, first, links)
}

#[cycle(expression)]
#[tactic(auto, using(isl_token::proofs::Turns::turns), unfolding(isl_token::specs::Reading::row))]
fn links(
    alloc: Global,
    tokens: &mut Cursor<'_>,
    depth: usize,
    precedence: Precedence,
) -> Result<Items<Link>, Fault>
    ensures { Reads (spec.links precedence (spec.operand (spec.pre depth) precedence) tokens.old) result tokens.new }
{
    let mut found = Items::new(alloc);
    for _turn in 0..tokens.left() {
        if !sees_operator(tokens, precedence) {
            return Ok(found);
        }
        found.push(link(alloc, tokens, depth, precedence)?)?;
    }
    Ok(found)
}

#[cycle(expression)]
#[tactic(auto, unfolding(crate::specs::Expression::link))]
fn link(
    alloc: Global,
    tokens: &mut Cursor<'_>,
    depth: usize,
    precedence: Precedence,
) -> Result<Link, Fault>
    ensures { Reads (spec.link precedence (spec.operand (spec.pre depth) precedence) tokens.old) result tokens.new }
{
    let operator = operator(tokens, precedence)?;
    let operand = operand(alloc, tokens, depth, precedence)?;
    Ok(Link { operator, operand })
}

/// What an operator joins: rows of the operators that bind more tightly.
#[cycle(expression)]
#[tactic(auto, using(crate::proofs::Operands::operands))]
fn operand(
    alloc: Global,
    tokens: &mut Cursor<'_>,
    depth: usize,
    precedence: Precedence,
) -> Result<Expr, Fault>
    ensures { Reads (spec.operand (spec.pre depth) precedence tokens.old) result tokens.new }
{
    match precedence {
        Precedence::Test => row(alloc, tokens, depth, Precedence::Universal),
        Precedence::Universal => row(alloc, tokens, depth, Precedence::Sum),
        Precedence::Sum => row(alloc, tokens, depth, Precedence::Product),
        Precedence::Product => row(alloc, tokens, depth, Precedence::Join),
        Precedence::Join => pre(alloc, tokens, depth),
    }
}

#[cycle(expression)]
#[tactic(auto, using(crate::proofs::Depth::deeper), unfolding(crate::specs::Expression::pre))]
fn pre(alloc: Global, tokens: &mut Cursor<'_>, depth: usize) -> Result<Expr, Fault>
    ensures { Reads (spec.pre depth tokens.old) result tokens.new }
{
    if depth == 0 {
        return Err(Fault::Syntax);
    }
    pre_level(alloc, tokens, depth)
}

#[cycle(expression)]
#[tactic(auto, unfolding(crate::specs::Expression::pre_level))]
fn pre_level(alloc: Global, tokens: &mut Cursor<'_>, depth: usize) -> Result<Expr, Fault>
    requires { 0 < depth }
    ensures { Reads (spec.pre_level (the_literal depth) (spec.pre (depth - 1)) tokens.old) result tokens.new }
{
    match next_role(tokens) {
        Role::Prefix => prefixed(alloc, tokens, depth),
        Role::Any => {
            tokens.skip();
            flows(alloc, tokens, depth, Flow::Any)
        }
        Role::Last => {
            tokens.skip();
            flows(alloc, tokens, depth, Flow::Last)
        }
        _ => post(alloc, tokens, depth),
    }
}

/// A word and the operand behind it.
#[cycle(expression)]
#[tactic(auto, unfolding(crate::specs::Expression::prefixed))]
fn prefixed(alloc: Global, tokens: &mut Cursor<'_>, depth: usize) -> Result<Expr, Fault>
    requires { 0 < depth }
    ensures { Reads (spec.prefixed (spec.pre (depth - 1)) tokens.old) result tokens.new }
{
    let word = prefix(tokens)?;
    let operand = pre(alloc, tokens, depth - 1)?;
    Ok(Expr::Prefix(word, Boxed::new(alloc, operand)?))
}

/// A source, `before` a sink, `under` a schedule, after the word.
#[cycle(expression)]
#[tactic(auto, unfolding(crate::specs::Expression::flows))]
fn flows(alloc: Global, tokens: &mut Cursor<'_>, depth: usize, flow: Flow) -> Result<Expr, Fault>
    requires { 0 < depth }
    ensures { Reads (spec.flows (the_literal depth) (spec.pre (depth - 1)) flow tokens.old) result tokens.new }
{
    let source = post(alloc, tokens, depth)?;
    expect_word(tokens, Role::Before)?;
    let sink = post(alloc, tokens, depth)?;
    expect_word(tokens, Role::Under)?;
    let schedule = post(alloc, tokens, depth)?;
    dependence(alloc, flow, source, sink, schedule)
}

/// An operand, and what follows it.
#[cycle(expression)]
#[tactic(auto, unfolding(crate::specs::Expression::post))]
fn post(alloc: Global, tokens: &mut Cursor<'_>, depth: usize) -> Result<Expr, Fault>
    requires { 0 < depth }
    ensures { Reads (spec.post (the_literal depth) (spec.pre (depth - 1)) tokens.old) result tokens.new }
{
    let operand = atom(alloc, tokens, depth)?;
    let postfixes = postfixes(alloc, tokens, depth)?;
    post_of(alloc, operand, postfixes)
}

fn begins_postfix(kind: Kind) -> bool
    ensures { result ≡ spec.begins_postfix kind }
{
    matches!(kind, Kind::Inverse | Kind::Open | Kind::OpenSquare)
}

#[cycle(expression)]
#[tactic(auto, using(isl_token::proofs::Turns::turns), unfolding(isl_token::specs::Reading::row))]
fn postfixes(alloc: Global, tokens: &mut Cursor<'_>, depth: usize) -> Result<Items<Postfix>, Fault>
    requires { 0 < depth }
    ensures { Reads (spec.postfixes (spec.pre (depth - 1)) tokens.old) result tokens.new }
{
    let mut found = Items::new(alloc);
    for _turn in 0..tokens.left() {
        if !begins_postfix(tokens.peek()) {
            return Ok(found);
        }
        found.push(postfix(alloc, tokens, depth)?)?;
    }
    Ok(found)
}

#[cycle(expression)]
#[tactic(auto, unfolding(crate::specs::Expression::postfix))]
fn postfix(alloc: Global, tokens: &mut Cursor<'_>, depth: usize) -> Result<Postfix, Fault>
    requires { 0 < depth }
    ensures { Reads (spec.postfix (spec.pre (depth - 1)) tokens.old) result tokens.new }
{
    match tokens.peek() {
        Kind::Inverse => {
            tokens.skip();
            Ok(Postfix::Inverse)
        }
        Kind::Open => {
            tokens.skip();
            applied(alloc, tokens, depth)
        }
        Kind::OpenSquare => {
            tokens.skip();
            item(tokens)
        }
        _ => Err(Fault::Syntax),
    }
}

/// What a map is applied to and `)`, after the bracket.
#[cycle(expression)]
#[tactic(auto, unfolding(crate::specs::Expression::applied))]
fn applied(alloc: Global, tokens: &mut Cursor<'_>, depth: usize) -> Result<Postfix, Fault>
    requires { 0 < depth }
    ensures { Reads (spec.applied (spec.pre (depth - 1)) tokens.old) result tokens.new }
{
    Ok(Postfix::Apply(enclosed(alloc, tokens, depth)?))
}

/// A number and `]`, after the bracket.
#[tactic(auto, unfolding(crate::specs::Expression::item))]
fn item(tokens: &mut Cursor<'_>) -> Result<Postfix, Fault>
    ensures { Reads (spec.item tokens.old) result tokens.new }
{
    let at = tokens.number()?;
    tokens.expect(Kind::CloseSquare)?;
    Ok(Postfix::Item(at))
}

/// A name, a literal, or an expression in brackets.
#[cycle(expression)]
#[tactic(auto, unfolding(crate::specs::Expression::atom))]
fn atom(alloc: Global, tokens: &mut Cursor<'_>, depth: usize) -> Result<Expr, Fault>
    requires { 0 < depth }
    ensures { Reads (spec.atom (the_literal depth) (spec.pre (depth - 1)) tokens.old) result tokens.new }
{
    match tokens.peek() {
        Kind::Open => {
            tokens.skip();
            enclosed(alloc, tokens, depth)
        }
        Kind::OpenSquare | Kind::OpenBrace => whole_literal(alloc, tokens, depth),
        _ => lone(alloc, tokens),
    }
}

#[tactic(auto, unfolding(crate::specs::Expression::lone))]
fn lone(alloc: Global, tokens: &mut Cursor<'_>) -> Result<Expr, Fault>
    ensures { Reads (spec.lone tokens.old) result tokens.new }
{
    Ok(Expr::Name(variable(alloc, tokens)?))
}

#[tactic(auto, unfolding(crate::specs::Expression::whole_literal))]
fn whole_literal(alloc: Global, tokens: &mut Cursor<'_>, depth: usize) -> Result<Expr, Fault>
    ensures { Reads (spec.whole_literal (the_literal depth) tokens.old) result tokens.new }
{
    Ok(Expr::Literal(literal(alloc, tokens, depth)?))
}

/// An expression and `)`, after the bracket.
#[cycle(expression)]
#[tactic(auto, unfolding(crate::specs::Expression::enclosed))]
fn enclosed(alloc: Global, tokens: &mut Cursor<'_>, depth: usize) -> Result<Expr, Fault>
    requires { 0 < depth }
    ensures { Reads (spec.enclosed (spec.pre (depth - 1)) tokens.old) result tokens.new }
{
    let inner = expression(alloc, tokens, depth - 1)?;
    tokens.expect(Kind::Close)?;
    Ok(inner)
}

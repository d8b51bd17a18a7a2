//! Reading with refusals.

ghost use Rattle.std.specs.Prelude.{◌≡◌, ◌≤◌, ◌≤ℤ◌, All, IfOk, pos, length, slice_range};
ghost use Rattle.isl_token.specs.Token.{IsToken};
ghost use Rattle.isl_token.specs.Lex as lex;
ghost use Rattle.isl_token.specs.Reading.{Reads};
ghost use Rattle.isl_token.specs.Spelling.{SpellsOne};
ghost use Rattle.isl_text.specs.Forms.{grammar_of, parser_of};
ghost use Rattle.isl_text.specs.Literal.{literal_grammar};
ghost use Rattle.isl_text.specs.PsetGrammar.{pset_grammar};
ghost use Rattle.isl_text.specs.Read as spec;

use crate::limits::is_within;
use crate::literal::literal;
use crate::pset::pset;
use crate::wide::has_wide_number;
use isl_refusal::Refusal;
use isl_token::{Cursor, Fault, Rest, Tokens, is_too_deep};
use isl_tree::tree::Literal;
use std::alloc::Global;

/// The tokens of a text, each the longest that fits.
///
/// It is refused by `Syntax` exactly where some byte begins no token.
pub fn tokens(alloc: Global, bytes: &[u8]) -> Result<Tokens<'_>, Refusal>
    ensures lexes { spec.Lexes (lex.tokens bytes.now) result }
    ensures formed { IfOk result (λ ts. All IsToken ts) }
{
    match isl_token::tokens(alloc, bytes) {
        Ok(found) => Ok(found),
        Err(fault) => Err(Refusal::from(fault)),
    }
}

// What is read.
#[derive(Clone, Copy)]
enum Form {
    Literal,
    // A parameter set.
    Pset,
}

fn tree(alloc: Global, tokens: &mut Cursor<'_>, depth: usize, form: Form) -> Result<Literal, Fault>
    ensures { Reads (parser_of form depth tokens.old) result tokens.new }
{
    match form {
        Form::Literal => literal(alloc, tokens, depth),
        Form::Pset => pset(alloc, tokens, depth),
    }
}

// What was read from the tokens, where it keeps its limits.
fn judged(
    tree: Literal,
    tokens: Rest<'_>,
    next: usize,
    limit: i128,
) -> Result<(Literal, usize), Refusal>
    requires { pos 0 ≤ℤ limit }
    ensures { result ≡ spec.judged limit tokens.entry tree next }
{
    if !is_within(&tree) {
        Err(Refusal::TooWide)
    } else if has_wide_number(tokens, limit) {
        Err(Refusal::WideNumber)
    } else {
        Ok((tree, next))
    }
}

// What begins at a token, whatever its size, and the place behind it.
#[tactic(auto, using(crate::proofs::ReadLaws::places))]
fn found_at(
    alloc: Global,
    tokens: &Tokens<'_>,
    at: usize,
    form: Form,
) -> Result<(Literal, usize), Fault>
    requires { at ≤ length tokens.now }
    ensures { spec.TreeStands (grammar_of form) tokens.now at result }
{
    let all = tokens.rest();
    let rest = all.from(at);
    let depth = rest.left();
    let mut cursor = Cursor::new(alloc, rest);
    match tree(alloc, &mut cursor, depth + 1, form) {
        Ok(found) => Ok((found, all.left() - cursor.left())),
        Err(fault) => Err(fault),
    }
}

// What begins at a token, and the place behind it.
fn read_tree(
    alloc: Global,
    tokens: &Tokens<'_>,
    at: usize,
    limit: i128,
    form: Form,
) -> Result<(Literal, usize), Refusal>
    requires begins { at ≤ length tokens.now }
    requires limited { pos 0 ≤ℤ limit }
    ensures only { spec.TreeOnlyWhere (grammar_of form) tokens.now at limit result }
    ensures exactly { spec.TreeExactlyWhere (grammar_of form) tokens.now at limit result }
{
    if is_too_deep(tokens) {
        return Err(Refusal::TooDeep);
    }
    match found_at(alloc, tokens, at, form) {
        Ok((found, next)) => {
            let spelled = tokens.rest().from(at).first(next - at);
            judged(found, spelled, next, limit)
        }
        Err(fault) => Err(Refusal::from(fault)),
    }
}

/// The literal that begins at a token, whatever its size, and the place behind it.
pub fn literal_at(alloc: Global, tokens: &Tokens<'_>, at: usize) -> Result<(Literal, usize), Fault>
    requires { at ≤ length tokens.now }
    ensures { spec.Stands tokens.now at result }
{
    found_at(alloc, tokens, at, Form::Literal)
}

/// The literal that begins at a token, and the place behind it.
///
/// `TooDeep` looks at all the tokens. A literal that is refused by `TooWide` or `WideNumber` ends where it would if it were
/// not. The limit is the greatest number that a literal may write.
pub fn read_literal(
    alloc: Global,
    tokens: &Tokens<'_>,
    at: usize,
    limit: i128,
) -> Result<(Literal, usize), Refusal>
    requires begins { at ≤ length tokens.now }
    requires limited { pos 0 ≤ℤ limit }
    // Each answer has its cause.
    ensures only { spec.OnlyWhere tokens.now at limit result }
    // Each cause has its answer, unless memory runs out.
    ensures exactly { spec.ExactlyWhere tokens.now at limit result }
{
    read_tree(alloc, tokens, at, limit, Form::Literal)
}

/// The parameter set that begins at a token, whatever its size, and the place behind it.
///
/// # Errors
///
/// `Syntax` where none does, and `NoMemory`.
pub fn pset_at(alloc: Global, tokens: &Tokens<'_>, at: usize) -> Result<(Literal, usize), Fault>
    requires { at ≤ length tokens.now }
    ensures { spec.PsetStands tokens.now at result }
{
    found_at(alloc, tokens, at, Form::Pset)
}

/// The parameter set that begins at a token, and the place behind it: a tree of a literal that has the element `[]` at its
/// valuations. (isl manual, on parameter domains)
///
/// # Errors
///
/// As `read_literal`: `TooDeep`, for which all tokens are looked at, `Syntax`, `TooWide`, `WideNumber` and `NoMemory`. One that is
/// refused by `TooWide` or `WideNumber` ends where it would if it were not. The limit is the greatest number that it may write.
pub fn read_params(
    alloc: Global,
    tokens: &Tokens<'_>,
    at: usize,
    limit: i128,
) -> Result<(Literal, usize), Refusal>
    requires begins { at ≤ length tokens.now }
    requires limited { pos 0 ≤ℤ limit }
    // Each answer has its cause.
    ensures only { spec.PsetOnlyWhere tokens.now at limit result }
    // Each cause has its answer, unless memory runs out.
    ensures exactly { spec.PsetExactlyWhere tokens.now at limit result }
{
    read_tree(alloc, tokens, at, limit, Form::Pset)
}

/// Tokens spell at most one literal.
pub fn one_literal()
    ensures { SpellsOne literal_grammar }
{}

/// Tokens spell at most one parameter set.
pub fn one_pset()
    ensures { SpellsOne pset_grammar }
{}

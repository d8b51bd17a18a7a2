//! Whether a literal is plain: linear terms, compared in chains, and their remainders, compared with 0, that are joined by `and`.

ghost use Rattle.std.specs.Prelude.{◌≡◌};
ghost use Rattle.std.specs.List.{list_all};
ghost use Rattle.isl_tree.specs.Plain.{is_linear_part, is_linear_factor, is_linear, is_plain_entry, is_plain_side, is_plain_compare};
ghost use Rattle.isl_tree.specs.Plain.{are_plain_links};
ghost use Rattle.isl_tree.specs.Plain.{is_zero, tells_equality, is_plain_remainder, are_plain_sides};
ghost use Rattle.isl_tree.specs.Plain.{is_plain_chain, is_plain_formula, is_plain_tuple, body_is_plain, is_plain_piece, is_plain};
ghost use Rattle.isl_plain.specs.Code.{remainder_of};

use crate::remainder::{Remainder, lone_remainder};
use isl_tree::tree::{
    Compare, Entry, Factor, Formula, Link, Literal, PieceTree, Signed, Term, Tuple,
};

#[cycle(linear)]
#[tactic(auto, using(crate::proofs::BracketLaws::linears))]
fn is_linear_factor(factor: &Factor) -> bool
    ensures { result ≡ is_linear_factor factor.now }
{
    match factor {
        Factor::Name(_) => true,
        Factor::Inner(term) => is_linear(term.as_slice()),
        _ => false,
    }
}

#[cycle(linear)]
fn is_linear_part(part: &Signed) -> bool
    ensures { result ≡ is_linear_part part.now }
{
    match &part.product.inner {
        Some(modded) if modded.moduli.is_empty() => is_linear_factor(&modded.factor),
        Some(_) => false,
        None => true,
    }
}

#[cycle(linear)]
fn is_linear(term: &[Signed]) -> bool
    ensures { result ≡ is_linear term.now }
{
    for part in term {
        if !is_linear_part(part) {
            return false;
        }
    }
    true
}

fn is_plain_entry(entry: &Entry) -> bool
    ensures { result ≡ is_plain_entry entry.now }
{
    match entry {
        Entry::Plain(term) => is_linear(term.as_slice()),
        Entry::Named(..) => false,
    }
}

fn are_plain_entries(entries: &[Entry]) -> bool
    ensures { result ≡ list_all is_plain_entry entries.now }
{
    entries.iter().all(|entry| is_plain_entry(entry))
}

fn is_plain_side(side: &[Term]) -> bool
    ensures { result ≡ is_plain_side side.now }
{
    match side {
        [term] => is_linear(term.as_slice()),
        _ => false,
    }
}

fn is_plain_compare(compare: Compare) -> bool
    ensures { result ≡ is_plain_compare compare }
{
    !matches!(compare, Compare::Differs)
}

fn are_plain_links(links: &[Link]) -> bool
    ensures { result ≡ are_plain_links links.now }
{
    links.iter().all(|link| is_plain_compare(link.0) && is_plain_side(link.1.as_slice()))
}

fn is_zero(term: &[Signed]) -> bool
    ensures { result ≡ is_zero term.now }
{
    match term {
        [part] if !part.negative && part.product.inner.is_none() => {
            match part.product.numbers.as_slice() {
                [number] => *number == 0,
                _ => false,
            }
        }
        _ => false,
    }
}

fn tells_equality(compare: Compare) -> bool
    ensures { result ≡ tells_equality compare }
{
    matches!(compare, Compare::Equal | Compare::Differs)
}

fn is_plain_remainder(remainder: Remainder<'_>, links: &[Link]) -> bool
    ensures { result ≡ is_plain_remainder (remainder_of remainder.entry) links.now }
{
    match links {
        [link] => match link.1.as_slice() {
            [right] => {
                is_linear(remainder.term)
                    && remainder.modulus > 0
                    && tells_equality(link.0)
                    && is_zero(right.as_slice())
            }
            _ => false,
        },
        _ => false,
    }
}

fn are_plain_sides(first: &[Term], links: &[Link]) -> bool
    ensures { result ≡ are_plain_sides first.now links.now }
{
    match first {
        [left] => match lone_remainder(left.as_slice()) {
            Some(remainder) => is_plain_remainder(remainder, links),
            None => is_linear(left.as_slice()) && are_plain_links(links),
        },
        _ => false,
    }
}

fn is_plain_chain(formula: &Formula) -> bool
    ensures { result ≡ is_plain_chain formula.now }
{
    match formula {
        Formula::Chain(first, links) => are_plain_sides(first.as_slice(), links.as_slice()),
        _ => false,
    }
}

fn are_plain_chains(formulas: &[Formula]) -> bool
    ensures { result ≡ list_all is_plain_chain formulas.now }
{
    formulas.iter().all(|formula| is_plain_chain(formula))
}

#[tactic(auto, using(crate::proofs::PlainLaws::plain_and))]
fn is_plain_formula(formula: &Formula) -> bool
    ensures { result ≡ is_plain_formula formula.now }
{
    match formula {
        Formula::And(parts) => are_plain_chains(parts.as_slice()),
        Formula::Chain(first, links) => are_plain_sides(first.as_slice(), links.as_slice()),
        _ => false,
    }
}

#[tactic(auto, using(crate::proofs::PlainLaws::plain_pair))]
fn is_plain_tuple(tuple: &Tuple) -> bool
    ensures { result ≡ is_plain_tuple tuple.now }
{
    match tuple {
        Tuple::Leaf { entries, .. } => are_plain_entries(entries.as_slice()),
        Tuple::Pair(left, right) => is_plain_tuple(left.get()) & is_plain_tuple(right.get()),
    }
}

fn is_plain_body(body: &Option<Formula>) -> bool
    ensures { result ≡ body_is_plain body.now }
{
    match body {
        Some(formula) => is_plain_formula(formula),
        None => true,
    }
}

/// Whether a piece of a literal is plain.
#[tactic(auto, using(crate::proofs::PlainLaws::plain_pieces))]
pub fn is_plain_piece(piece: &PieceTree) -> bool
    ensures { result ≡ is_plain_piece piece.now }
{
    match &piece.second {
        Some(second) => {
            is_plain_tuple(&piece.first) & is_plain_tuple(second) & is_plain_body(&piece.body)
        }
        None => is_plain_tuple(&piece.first) & is_plain_body(&piece.body),
    }
}

/// Whether a literal is plain: linear terms, compared in chains, and remainders of such terms, compared with 0, joined by `and`.
pub fn is_plain(literal: &Literal) -> bool
    ensures { result ≡ is_plain literal.now }
{
    literal
        .pieces
        .as_slice()
        .iter()
        .all(|piece| is_plain_piece(piece))
}

//! Whether each identifier of a literal is known.

ghost use Rattle.std.specs.Prelude.{◌≡◌};
ghost use Rattle.std.specs.List.{list_all};
ghost use Rattle.isl_tree.specs.Literal.{is_among, entries_of};
ghost use Rattle.isl_tree.specs.Known as spec;
ghost use Rattle.isl_tree.specs.Known.{formula_is_known};
ghost use Rattle.isl_kinds.specs.Place.{names_at, value_is_known};
ghost use Rattle.isl_kinds.specs.Typed as types;

use crate::place::{Place, lone};
use isl_refusal::Refusal;
use isl_space::Name;
use isl_tree::tree::{
    Binder, Entry, Factor, Formula, Link, Literal, PieceTree, Signed, Term, Tuple,
};

#[cycle(term)]
#[tactic(auto, using(crate::proofs::KnownLaws::terms))]
fn term_is_known(term: &[Signed], place: &Place<'_>) -> bool
    ensures { result ≡ spec.term_is_known (names_at place.now) term.now }
{
    for part in term {
        if !part_is_known(part, place) {
            return false;
        }
    }
    true
}

#[cycle(term)]
fn part_is_known(part: &Signed, place: &Place<'_>) -> bool
    ensures { result ≡ list_all (is_among (names_at place.now)) (spec.signed_names part.now) }
{
    match &part.product.inner {
        Some(modded) => factor_is_known(&modded.factor, place),
        None => true,
    }
}

#[cycle(term)]
#[tactic(auto, using(crate::proofs::KnownLaws::factors))]
fn factor_is_known(factor: &Factor, place: &Place<'_>) -> bool
    ensures { result ≡ list_all (is_among (names_at place.now)) (spec.factor_names factor.now) }
{
    match factor {
        Factor::Name(name) => place.knows(name),
        Factor::Inner(term) => term_is_known(term.as_slice(), place),
        Factor::Floor(term, _) => term_is_known(term.as_slice(), place),
        Factor::Ceil(term, _) => term_is_known(term.as_slice(), place),
    }
}

fn side_is_known(side: &[Term], place: &Place<'_>) -> bool
    ensures { result ≡ spec.side_is_known (names_at place.now) side.now }
{
    side.iter()
        .all(|term| term_is_known(term.as_slice(), place))
}

fn links_are_known(links: &[Link], place: &Place<'_>) -> bool
    ensures { result ≡ spec.links_are_known (names_at place.now) links.now }
{
    links
        .iter()
        .all(|link| side_is_known(link.1.as_slice(), place))
}

fn value_is_known(value: &Option<Term>, place: &Place<'_>) -> bool
    ensures { result ≡ value_is_known (names_at place.now) value.now }
{
    match value {
        Some(term) => term_is_known(term.as_slice(), place),
        None => true,
    }
}

// Whether each binder's term knows the binders before it.
#[tactic(auto, using(crate::proofs::KnownLaws::binders_next))]
fn binders_are_known<'a>(binders: &'a [Binder], place: &'a Place<'a>) -> bool
    ensures { result ≡ spec.binders_are_known (names_at place.now) binders.now }
{
    for at in 0..binders.len() {
        let before = Place::Below(&binders[..at], &*place);
        if !value_is_known(&binders[at].value, &before) {
            return false;
        }
    }
    true
}

#[cycle(formula)]
#[tactic(auto, using(crate::proofs::KnownLaws::formulas))]
fn is_formula_known<'a>(formula: &'a Formula, place: &'a Place<'a>) -> bool
    ensures { result ≡ formula_is_known (names_at place.now) formula.now }
{
    match formula {
        Formula::Implies(parts) => are_formulas_known(parts.as_slice(), place),
        Formula::Or(parts) => are_formulas_known(parts.as_slice(), place),
        Formula::And(parts) => are_formulas_known(parts.as_slice(), place),
        Formula::Not(inner) => is_formula_known(inner.get(), place),
        Formula::True | Formula::False => true,
        Formula::Exists(binders, inner) => {
            binders_are_known(binders.as_slice(), place)
                & is_formula_known(inner.get(), &Place::Below(binders.as_slice(), &*place))
        }
        Formula::Chain(first, links) => {
            side_is_known(first.as_slice(), place) & links_are_known(links.as_slice(), place)
        }
    }
}

#[cycle(formula)]
fn are_formulas_known<'a>(formulas: &'a [Formula], place: &'a Place<'a>) -> bool
    ensures { result ≡ list_all (formula_is_known (names_at place.now)) formulas.now }
{
    for formula in formulas {
        if !is_formula_known(formula, place) {
            return false;
        }
    }
    true
}

// Whether an entry is a new name, or knows the names of its term.
fn entry_is_known(entry: &Entry, place: &Place<'_>) -> bool
    ensures { result ≡ spec.entry_is_known (names_at place.now) entry.now }
{
    match entry {
        Entry::Plain(term) => match lone(term.as_slice()) {
            Some(name) if !place.knows(name) => true,
            _ => term_is_known(term.as_slice(), place),
        },
        Entry::Named(_, term) => term_is_known(term.as_slice(), place),
    }
}

#[tactic(auto, using(crate::proofs::KnownLaws::entries_next))]
fn entries_are_known<'a>(entries: &'a [Entry], place: &'a Place<'a>) -> bool
    ensures { result ≡ spec.entries_are_known (names_at place.now) entries.now }
{
    for at in 0..entries.len() {
        let before = Place::Behind(&entries[..at], &*place);
        if !entry_is_known(&entries[at], &before) {
            return false;
        }
    }
    true
}

#[tactic(auto, using(crate::proofs::KnownLaws::tuples))]
fn tuple_is_known<'a>(tuple: &'a Tuple, place: &'a Place<'a>) -> bool
    ensures { result ≡ spec.entries_are_known (names_at place.now) (entries_of tuple.now) }
{
    match tuple {
        Tuple::Leaf { entries, .. } => entries_are_known(entries.as_slice(), place),
        Tuple::Pair(first, second) => {
            tuple_is_known(first.get(), place)
                & tuple_is_known(second.get(), &Place::After(first.get(), &*place))
        }
    }
}

fn body_is_known(body: &Option<Formula>, place: &Place<'_>) -> bool
    ensures { result ≡ spec.body_is_known (names_at place.now) body.now }
{
    match body {
        Some(formula) => is_formula_known(formula, place),
        None => true,
    }
}

#[tactic(auto, using(crate::proofs::KnownLaws::pieces))]
fn piece_is_known(params: &[Name], piece: &PieceTree) -> bool
    ensures { result ≡ spec.piece_is_known params.now piece.now }
{
    let before = Place::Params(params);
    let first = Place::After(&piece.first, &before);
    match &piece.second {
        Some(second) => {
            tuple_is_known(&piece.first, &before)
                & tuple_is_known(second, &first)
                & body_is_known(&piece.body, &Place::After(second, &first))
        }
        None => tuple_is_known(&piece.first, &before) & body_is_known(&piece.body, &first),
    }
}

/// Whether each identifier of a literal is known: a parameter, the variable of an earlier place, or bound by an enclosing `exists`.
pub(crate) fn is_known(literal: &Literal) -> bool
    ensures { result ≡ spec.literal_is_known literal.now }
{
    let params = literal.params.as_slice();
    literal
        .pieces
        .as_slice()
        .iter()
        .all(|piece| piece_is_known(params, piece))
}

/// Whether each identifier of a parameter set is known: declared, or bound by an enclosing `exists`.
///
/// # Errors
/// `UnknownName` where one is not.
pub fn known_params(set: &Literal) -> Result<(), Refusal>
    ensures { result ≡ types.known_params set.now }
{
    if is_known(set) {
        Ok(())
    } else {
        Err(Refusal::UnknownName)
    }
}

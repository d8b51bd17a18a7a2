//! How many variables a piece of a literal binds. Counts go up to `CAP` and stand there.

ghost use Rattle.std.specs.Prelude.{◌≡◌, ◌+◌};
ghost use Rattle.isl_text.specs.Bound as spec;
ghost use Rattle.isl_text.specs.Bound.{capped};

use isl_tree::tree::{Binder, Entry, Factor, Formula, Link, PieceTree, Signed, Term, Tuple};

/// One more than every limit.
pub const CAP: usize = 65;

/// The sum, or `CAP` where it is greater.
pub fn added(a: usize, b: usize) -> usize
    ensures { result ≡ capped (a + b) }
{
    a.saturating_add(b).min(CAP)
}

#[cycle(bound)]
#[tactic(auto, using(crate::proofs::Counting::counts))]
fn in_term(term: &[Signed]) -> usize
    ensures { result ≡ capped (spec.in_term term.now) }
{
    let mut total = 0;
    for part in term {
        total = added(total, in_part(part));
    }
    total
}

#[cycle(bound)]
#[tactic(auto, using(crate::proofs::BoundLaws::parts))]
fn in_part(part: &Signed) -> usize
    ensures { result ≡ capped (spec.in_part part.now) }
{
    match &part.product.inner {
        Some(inner) => added(inner.moduli.len(), in_factor(&inner.factor)),
        None => 0,
    }
}

#[cycle(bound)]
#[tactic(auto, using(crate::proofs::BoundLaws::factors))]
fn in_factor(factor: &Factor) -> usize
    ensures { result ≡ capped (spec.in_factor factor.now) }
{
    match factor {
        Factor::Name(_) => 0,
        Factor::Inner(term) => in_term(term.as_slice()),
        Factor::Floor(term, _) | Factor::Ceil(term, _) => added(1, in_term(term.as_slice())),
    }
}

#[tactic(auto, using(crate::proofs::Counting::counts))]
fn in_side(side: &[Term]) -> usize
    ensures { result ≡ capped (spec.in_side side.now) }
{
    let mut total = 0;
    for term in side {
        total = added(total, in_term(term.as_slice()));
    }
    total
}

#[tactic(auto, using(crate::proofs::Counting::counts))]
fn in_links(links: &[Link]) -> usize
    ensures { result ≡ capped (spec.in_links links.now) }
{
    let mut total = 0;
    for (_, side) in links {
        total = added(total, in_side(side.as_slice()));
    }
    total
}

fn in_value(value: &Option<Term>) -> usize
    ensures { result ≡ capped (spec.in_value value.now) }
{
    match value {
        Some(term) => in_term(term.as_slice()),
        None => 0,
    }
}

/// A name that is bound, and what its value binds.
#[tactic(auto, using(crate::proofs::Counting::sums))]
fn by_binder(binder: &Binder) -> usize
    ensures { result ≡ capped (spec.by_binder binder.now) }
{
    added(1, in_value(&binder.value))
}

#[tactic(auto, using(crate::proofs::Counting::counts))]
fn by_binders(binders: &[Binder]) -> usize
    ensures { result ≡ capped (spec.by_binders binders.now) }
{
    let mut total = 0;
    for binder in binders {
        total = added(total, by_binder(binder));
    }
    total
}

#[cycle(formula)]
#[tactic(auto, using(crate::proofs::Counting::counts))]
fn in_formulas(formulas: &[Formula]) -> usize
    ensures { result ≡ capped (spec.in_formulas formulas.now) }
{
    let mut total = 0;
    for formula in formulas {
        total = added(total, in_formula(formula));
    }
    total
}

#[cycle(formula)]
#[tactic(auto, using(crate::proofs::BoundLaws::formulas))]
fn in_formula(formula: &Formula) -> usize
    ensures { result ≡ capped (spec.in_formula formula.now) }
{
    match formula {
        Formula::Implies(parts) => in_formulas(parts.as_slice()),
        Formula::Or(parts) => in_formulas(parts.as_slice()),
        Formula::And(parts) => in_formulas(parts.as_slice()),
        Formula::Not(inner) => in_formula(inner.get()),
        Formula::True | Formula::False => 0,
        Formula::Exists(binders, inner) => {
            added(by_binders(binders.as_slice()), in_formula(inner.get()))
        }
        Formula::Chain(first, links) => {
            added(in_side(first.as_slice()), in_links(links.as_slice()))
        }
    }
}

fn in_entry(entry: &Entry) -> usize
    ensures { result ≡ capped (spec.in_entry entry.now) }
{
    match entry {
        Entry::Plain(term) | Entry::Named(_, term) => in_term(term.as_slice()),
    }
}

#[tactic(auto, using(crate::proofs::Counting::counts))]
fn in_entries(entries: &[Entry]) -> usize
    ensures { result ≡ capped (spec.in_entries entries.now) }
{
    let mut total = 0;
    for entry in entries {
        total = added(total, in_entry(entry));
    }
    total
}

#[tactic(auto, using(crate::proofs::BoundLaws::tuples))]
fn in_tuple(tuple: &Tuple) -> usize
    ensures { result ≡ capped (spec.in_tuple tuple.now) }
{
    match tuple {
        Tuple::Leaf { entries, .. } => in_entries(entries.as_slice()),
        Tuple::Pair(first, second) => added(in_tuple(first.get()), in_tuple(second.get())),
    }
}

fn in_image(image: &Option<Tuple>) -> usize
    ensures { result ≡ capped (spec.in_image image.now) }
{
    match image {
        Some(tuple) => in_tuple(tuple),
        None => 0,
    }
}

fn in_body(body: &Option<Formula>) -> usize
    ensures { result ≡ capped (spec.in_body body.now) }
{
    match body {
        Some(formula) => in_formula(formula),
        None => 0,
    }
}

/// The names that `exists` binds in a piece, and its floors, ceilings and remainders.
#[tactic(auto, using(crate::proofs::Counting::sums))]
pub fn bound_in(piece: &PieceTree) -> usize
    ensures { result ≡ capped (spec.bound_in piece.now) }
{
    let tuples = added(in_tuple(&piece.first), in_image(&piece.second));
    added(tuples, in_body(&piece.body))
}

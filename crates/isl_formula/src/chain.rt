//! The reader of comparisons, and of the names that `exists` binds.

ghost use Rattle.std.specs.Prelude.{◌≡◌, [], ◌∷◌};
ghost use Rattle.isl_token.specs.Reading.{Reads};
ghost use Rattle.isl_token.specs.Reading as reading;
ghost use Rattle.isl_formula.specs.Term as terms;
ghost use Rattle.isl_formula.specs.Chain as spec;

use crate::list::{ItemReader, after_sign, separated};
use crate::term::term;
use isl_token::{Cursor, Fault, Kind};
use isl_tree::tree::{Binder, Compare, Formula, Signed};
use sqlite_items::Items;
use std::alloc::Global;

fn compare_of(kind: Kind) -> Option<Compare>
    ensures { result ≡ spec.compare_of kind }
{
    match kind {
        Kind::Equal => Some(Compare::Equal),
        Kind::Less => Some(Compare::Less),
        Kind::LessEqual => Some(Compare::LessEqual),
        Kind::Greater => Some(Compare::Greater),
        Kind::GreaterEqual => Some(Compare::GreaterEqual),
        Kind::Differs => Some(Compare::Differs),
        _ => None,
    }
}

fn sees_compare(tokens: &Cursor<'_>) -> bool
    ensures { result ≡ spec.sees_compare tokens.now }
{
    compare_of(tokens.peek()).is_some()
}

#[tactic(auto, unfolding(crate::specs::Chain::comparison))]
fn comparison(tokens: &mut Cursor<'_>) -> Result<Compare, Fault>
    ensures { Reads (spec.comparison tokens.old) result tokens.new }
{
    match compare_of(tokens.peek()) {
        Some(compare) => {
            tokens.skip();
            Ok(compare)
        }
        None => Err(Fault::Syntax),
    }
}

/// Reads terms whose brackets are nested less than `depth` deep.
#[derive(Clone, Copy)]
struct TermReader {
    depth: usize,
}

impl ItemReader for TermReader {
    type Item = Items<Signed>;

    const ROOM: usize = 1;

    ghost reads = { λ r. terms.term r.depth };

    fn read(&self, alloc: Global, tokens: &mut Cursor<'_>) -> Result<Items<Signed>, Fault> {
        term(alloc, tokens, self.depth)
    }
}

/// One side of a comparison: terms with `,` between them.
fn side(alloc: Global, tokens: &mut Cursor<'_>, depth: usize) -> Result<Items<Items<Signed>>, Fault>
    ensures { Reads (spec.side (terms.term depth) tokens.old) result tokens.new }
{
    separated(alloc, tokens, Kind::Comma, &TermReader { depth })
}

/// A compare sign and the side after it.
#[tactic(auto, unfolding(crate::specs::Chain::link))]
fn link(
    alloc: Global,
    tokens: &mut Cursor<'_>,
    depth: usize,
) -> Result<(Compare, Items<Items<Signed>>), Fault>
    ensures { Reads (spec.link (terms.term depth) tokens.old) result tokens.new }
{
    let compare = comparison(tokens)?;
    let right = side(alloc, tokens, depth)?;
    Ok((compare, right))
}

#[tactic(auto, using(isl_token::proofs::Turns::turns), unfolding(isl_token::specs::Reading::row))]
fn links(
    alloc: Global,
    tokens: &mut Cursor<'_>,
    depth: usize,
    first: (Compare, Items<Items<Signed>>),
) -> Result<Items<(Compare, Items<Items<Signed>>)>, Fault>
    ensures { Reads (reading.row spec.sees_compare (spec.link (terms.term depth)) (first ∷ []) tokens.old) result tokens.new }
{
    let mut found = Items::from_vec(Vec::with_capacity(alloc, 1)?);
    found.push(first)?;
    for _turn in 0..tokens.left() {
        if !sees_compare(tokens) {
            return Ok(found);
        }
        found.push(link(alloc, tokens, depth)?)?;
    }
    Ok(found)
}

/// A chain of comparisons, whose terms have brackets nested less than `depth` deep.
#[tactic(auto, unfolding(crate::specs::Chain::chain))]
pub fn chain(alloc: Global, tokens: &mut Cursor<'_>, depth: usize) -> Result<Formula, Fault>
    ensures { Reads (spec.chain (terms.term depth) tokens.old) result tokens.new }
{
    let first = side(alloc, tokens, depth)?;
    let second = link(alloc, tokens, depth)?;
    let links = links(alloc, tokens, depth, second)?;
    Ok(Formula::Chain(first, links))
}

/// The term that a name is bound to, after the name, if there is one.
fn value(
    alloc: Global,
    tokens: &mut Cursor<'_>,
    depth: usize,
) -> Result<Option<Items<Signed>>, Fault>
    ensures { Reads (spec.value (terms.term depth) tokens.old) result tokens.new }
{
    if tokens.sees(Kind::Equal) {
        Ok(Some(after_sign(alloc, tokens, &TermReader { depth })?))
    } else {
        Ok(None)
    }
}

#[tactic(auto, unfolding(crate::specs::Chain::binder))]
fn binder(alloc: Global, tokens: &mut Cursor<'_>, depth: usize) -> Result<Binder, Fault>
    ensures { Reads (spec.binder (terms.term depth) tokens.old) result tokens.new }
{
    let name = tokens.name()?;
    let value = value(alloc, tokens, depth)?;
    Ok(Binder { name, value })
}

#[derive(Clone, Copy)]
struct BinderReader {
    depth: usize,
}

impl ItemReader for BinderReader {
    type Item = Binder;

    const ROOM: usize = 1;

    ghost reads = { λ r. spec.binder (terms.term r.depth) };

    fn read(&self, alloc: Global, tokens: &mut Cursor<'_>) -> Result<Binder, Fault> {
        binder(alloc, tokens, self.depth)
    }
}

/// The names that `exists` binds.
pub fn binders(alloc: Global, tokens: &mut Cursor<'_>, depth: usize) -> Result<Items<Binder>, Fault>
    ensures { Reads (spec.binders (terms.term depth) tokens.old) result tokens.new }
{
    separated(alloc, tokens, Kind::Comma, &BinderReader { depth })
}

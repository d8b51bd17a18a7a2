//! The reader of tuples.

ghost use Rattle.std.specs.Prelude.{◌≡◌, ◌-◌, ◌<◌};
ghost use Rattle.isl_token.specs.Reading.{Reads};
ghost use Rattle.isl_formula.specs.Term as terms;
ghost use Rattle.isl_text.specs.Tuple as spec;

use isl_formula::ahead::{Mark, begins};
use isl_formula::list::{ItemReader, separated};
use isl_formula::term::term;
use isl_space::Name;
use isl_token::{Cursor, Fault, Kind};
use isl_tree::tree::{Entry, Tuple};
use sqlite_items::{Boxed, Items};
use std::alloc::Global;

/// Whether a name and `=` come next.
fn sees_named(tokens: &Cursor<'_>) -> bool
    ensures { result ≡ spec.sees_named tokens.now }
{
    tokens.sees(Kind::Name) && tokens.second() == Kind::Equal
}

/// A name, `=` and a term.
#[tactic(auto, unfolding(crate::specs::Tuple::named_entry))]
fn named_entry(alloc: Global, tokens: &mut Cursor<'_>, depth: usize) -> Result<Entry, Fault>
    ensures { Reads (spec.named_entry (terms.term depth) tokens.old) result tokens.new }
{
    let name = tokens.name()?;
    tokens.expect(Kind::Equal)?;
    let term = term(alloc, tokens, depth)?;
    Ok(Entry::Named(name, term))
}

#[tactic(auto, unfolding(crate::specs::Tuple::plain_entry))]
fn plain_entry(alloc: Global, tokens: &mut Cursor<'_>, depth: usize) -> Result<Entry, Fault>
    ensures { Reads (spec.plain_entry (terms.term depth) tokens.old) result tokens.new }
{
    Ok(Entry::Plain(term(alloc, tokens, depth)?))
}

fn entry(alloc: Global, tokens: &mut Cursor<'_>, depth: usize) -> Result<Entry, Fault>
    ensures { Reads (spec.entry (terms.term depth) tokens.old) result tokens.new }
{
    if sees_named(tokens) {
        named_entry(alloc, tokens, depth)
    } else {
        plain_entry(alloc, tokens, depth)
    }
}

/// Reads entries whose brackets are nested less than `depth` deep.
#[derive(Clone, Copy)]
struct EntryReader {
    depth: usize,
}

impl ItemReader for EntryReader {
    type Item = Entry;

    const ROOM: usize = 2;

    ghost reads = { λ r. spec.entry (terms.term r.depth) };

    fn read(&self, alloc: Global, tokens: &mut Cursor<'_>) -> Result<Entry, Fault> {
        entry(alloc, tokens, self.depth)
    }
}

/// One entry or more, with `,` between them.
fn entry_row(alloc: Global, tokens: &mut Cursor<'_>, depth: usize) -> Result<Items<Entry>, Fault>
    ensures { Reads (spec.entry_row (terms.term depth) tokens.old) result tokens.new }
{
    separated(alloc, tokens, Kind::Comma, &EntryReader { depth })
}

/// The entries of a tuple, which may be none.
fn entries(alloc: Global, tokens: &mut Cursor<'_>, depth: usize) -> Result<Items<Entry>, Fault>
    ensures { Reads (spec.entries (terms.term depth) tokens.old) result tokens.new }
{
    if tokens.sees(Kind::CloseSquare) {
        Ok(Items::new(alloc))
    } else {
        entry_row(alloc, tokens, depth)
    }
}

/// `[`, entries and `]`.
#[tactic(auto, unfolding(crate::specs::Tuple::leaf))]
fn leaf(
    alloc: Global,
    tokens: &mut Cursor<'_>,
    depth: usize,
    name: Option<Name>,
) -> Result<Tuple, Fault>
    ensures { Reads (spec.leaf (terms.term depth) name tokens.old) result tokens.new }
{
    tokens.expect(Kind::OpenSquare)?;
    let entries = entries(alloc, tokens, depth)?;
    tokens.expect(Kind::CloseSquare)?;
    Ok(Tuple::Leaf { name, entries })
}

/// A name, `[`, entries and `]`.
#[tactic(auto, unfolding(crate::specs::Tuple::named_leaf))]
fn named_leaf(alloc: Global, tokens: &mut Cursor<'_>, depth: usize) -> Result<Tuple, Fault>
    ensures { Reads (spec.named_leaf (terms.term depth) tokens.old) result tokens.new }
{
    let name = tokens.name()?;
    leaf(alloc, tokens, depth, Some(name))
}

/// A tuple whose brackets are nested less than `depth` deep.
#[cycle(tuple)]
#[tactic(auto, using(crate::proofs::TupleDepth::deeper), unfolding(crate::specs::Tuple::tuple))]
pub fn tuple(alloc: Global, tokens: &mut Cursor<'_>, depth: usize) -> Result<Tuple, Fault>
    ensures { Reads (spec.tuple depth tokens.old) result tokens.new }
{
    if depth == 0 {
        return Err(Fault::Syntax);
    }
    tuple_level(alloc, tokens, depth)
}

#[cycle(tuple)]
#[tactic(auto, unfolding(crate::specs::Tuple::tuple_level))]
fn tuple_level(alloc: Global, tokens: &mut Cursor<'_>, depth: usize) -> Result<Tuple, Fault>
    requires { 0 < depth }
    ensures { Reads (spec.tuple_level (terms.term depth) (spec.tuple (depth - 1)) tokens.old) result tokens.new }
{
    if tokens.peek() == Kind::Name {
        named_leaf(alloc, tokens, depth)
    } else {
        unnamed(alloc, tokens, depth)
    }
}

/// A tuple that begins with a bracket.
#[cycle(tuple)]
fn unnamed(alloc: Global, tokens: &mut Cursor<'_>, depth: usize) -> Result<Tuple, Fault>
    requires { 0 < depth }
    ensures { Reads (spec.unnamed (terms.term depth) (spec.tuple (depth - 1)) tokens.old) result tokens.new }
{
    if begins(tokens, Kind::OpenSquare, Mark::Arrow) {
        tokens.skip();
        pair(alloc, tokens, depth)
    } else {
        leaf(alloc, tokens, depth, None)
    }
}

/// A tuple, `->`, a tuple and `]`, after the bracket.
#[cycle(tuple)]
#[tactic(auto, unfolding(crate::specs::Tuple::pair))]
fn pair(alloc: Global, tokens: &mut Cursor<'_>, depth: usize) -> Result<Tuple, Fault>
    requires { 0 < depth }
    ensures { Reads (spec.pair (terms.term depth) (spec.tuple (depth - 1)) tokens.old) result tokens.new }
{
    let first = tuple(alloc, tokens, depth - 1)?;
    tokens.expect(Kind::Arrow)?;
    let second = tuple(alloc, tokens, depth - 1)?;
    tokens.expect(Kind::CloseSquare)?;
    paired(alloc, first, second)
}

fn paired(alloc: Global, first: Tuple, second: Tuple) -> Result<Tuple, Fault>
    ensures { spec.IsMade result (Tuple.Pair first second) }
{
    let first = Boxed::new(alloc, first)?;
    let second = Boxed::new(alloc, second)?;
    Ok(Tuple::Pair(first, second))
}

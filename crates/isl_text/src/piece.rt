//! The reader of pieces of literals.

ghost use Rattle.std.specs.Prelude.{◌≡◌};
ghost use Rattle.isl_token.specs.Reading as reading;
ghost use Rattle.isl_token.specs.Reading.{Reads};
ghost use Rattle.isl_formula.specs.Formula as formulas;
ghost use Rattle.isl_text.specs.Tuple as tuples;
ghost use Rattle.isl_text.specs.Piece as spec;

use crate::tuple::tuple;
use isl_formula::formula::formula;
use isl_formula::list::{ItemReader, separated};
use isl_space::Name;
use isl_token::{Cursor, Fault, Kind};
use isl_tree::tree::{Formula, Literal, PieceTree, Tuple};
use sqlite_items::Items;
use std::alloc::Global;

/// A tuple, after `->`.
#[tactic(auto, unfolding(crate::specs::Piece::next_tuple))]
fn next_tuple(alloc: Global, tokens: &mut Cursor<'_>, depth: usize) -> Result<Tuple, Fault>
    ensures { Reads (spec.next_tuple (tuples.tuple depth) tokens.old) result tokens.new }
{
    tokens.skip();
    tuple(alloc, tokens, depth)
}

/// The second tuple of a map, which a set has not.
fn image(alloc: Global, tokens: &mut Cursor<'_>, depth: usize) -> Result<Option<Tuple>, Fault>
    ensures { Reads (spec.image (tuples.tuple depth) tokens.old) result tokens.new }
{
    if tokens.sees(Kind::Arrow) {
        Ok(Some(next_tuple(alloc, tokens, depth)?))
    } else {
        Ok(None)
    }
}

fn ends_piece(kind: Kind) -> bool
    ensures { result ≡ spec.ends_piece kind }
{
    matches!(kind, Kind::Semicolon | Kind::CloseBrace)
}

/// The formula after `:`, which may be missing.
pub(crate) fn body(
    alloc: Global,
    tokens: &mut Cursor<'_>,
    depth: usize,
) -> Result<Option<Formula>, Fault>
    ensures { Reads (spec.body (formulas.formula depth) tokens.old) result tokens.new }
{
    if ends_piece(tokens.peek()) {
        Ok(None)
    } else {
        Ok(Some(formula(alloc, tokens, depth)?))
    }
}

/// The formula of a piece, which may be missing.
fn condition(alloc: Global, tokens: &mut Cursor<'_>, depth: usize) -> Result<Option<Formula>, Fault>
    ensures { Reads (spec.condition (formulas.formula depth) tokens.old) result tokens.new }
{
    if tokens.sees(Kind::Colon) {
        tokens.skip();
        body(alloc, tokens, depth)
    } else {
        Ok(None)
    }
}

/// Tuples and their formula.
#[tactic(auto, unfolding(crate::specs::Piece::piece))]
fn piece(alloc: Global, tokens: &mut Cursor<'_>, depth: usize) -> Result<PieceTree, Fault>
    ensures { Reads (spec.piece (tuples.tuple depth) (formulas.formula depth) tokens.old) result tokens.new }
{
    let first = tuple(alloc, tokens, depth)?;
    let second = image(alloc, tokens, depth)?;
    let body = condition(alloc, tokens, depth)?;
    Ok(PieceTree {
        first,
        second,
        body,
    })
}

/// Reads pieces whose brackets are nested less than `depth` deep.
#[derive(Clone, Copy)]
struct PieceReader {
    depth: usize,
}

impl ItemReader for PieceReader {
    type Item = PieceTree;

    const ROOM: usize = 1;

    ghost reads = { λ r. spec.piece (tuples.tuple r.depth) (formulas.formula r.depth) };

    fn read(&self, alloc: Global, tokens: &mut Cursor<'_>) -> Result<PieceTree, Fault> {
        piece(alloc, tokens, self.depth)
    }
}

/// One piece or more, with `;` between them.
fn piece_row(
    alloc: Global,
    tokens: &mut Cursor<'_>,
    depth: usize,
) -> Result<Items<PieceTree>, Fault>
    ensures { Reads (spec.piece_row (tuples.tuple depth) (formulas.formula depth) tokens.old) result tokens.new }
{
    separated(alloc, tokens, Kind::Semicolon, &PieceReader { depth })
}

/// The pieces of a literal, which may be none.
fn pieces(alloc: Global, tokens: &mut Cursor<'_>, depth: usize) -> Result<Items<PieceTree>, Fault>
    ensures { Reads (spec.pieces (tuples.tuple depth) (formulas.formula depth) tokens.old) result tokens.new }
{
    if tokens.sees(Kind::CloseBrace) {
        Ok(Items::new(alloc))
    } else {
        piece_row(alloc, tokens, depth)
    }
}

/// Reads names.
#[derive(Clone, Copy)]
struct NameReader;

impl ItemReader for NameReader {
    type Item = Name;

    const ROOM: usize = 2;

    ghost reads = { λ _. reading.name };

    fn read(&self, _alloc: Global, tokens: &mut Cursor<'_>) -> Result<Name, Fault> {
        tokens.name()
    }
}

/// One name or more, with `,` between them.
fn name_row(alloc: Global, tokens: &mut Cursor<'_>) -> Result<Items<Name>, Fault>
    ensures { Reads (spec.name_row tokens.old) result tokens.new }
{
    separated(alloc, tokens, Kind::Comma, &NameReader)
}

fn names(alloc: Global, tokens: &mut Cursor<'_>) -> Result<Items<Name>, Fault>
    ensures { Reads (spec.names tokens.old) result tokens.new }
{
    if tokens.sees(Kind::CloseSquare) {
        Ok(Items::new(alloc))
    } else {
        name_row(alloc, tokens)
    }
}

/// Names, `]` and `->`, after the bracket.
#[tactic(auto, unfolding(crate::specs::Piece::declared))]
fn declared(alloc: Global, tokens: &mut Cursor<'_>) -> Result<Items<Name>, Fault>
    ensures { Reads (spec.declared tokens.old) result tokens.new }
{
    let found = names(alloc, tokens)?;
    tokens.expect(Kind::CloseSquare)?;
    tokens.expect(Kind::Arrow)?;
    Ok(found)
}

/// The parameters of a literal, whose list may be missing.
pub(crate) fn parameters(alloc: Global, tokens: &mut Cursor<'_>) -> Result<Items<Name>, Fault>
    ensures { Reads (spec.parameters tokens.old) result tokens.new }
{
    if tokens.sees(Kind::OpenSquare) {
        tokens.skip();
        declared(alloc, tokens)
    } else {
        Ok(Items::new(alloc))
    }
}

/// Pieces in braces.
#[tactic(auto, unfolding(crate::specs::Piece::braces))]
fn braces(alloc: Global, tokens: &mut Cursor<'_>, depth: usize) -> Result<Items<PieceTree>, Fault>
    ensures { Reads (spec.braces (tuples.tuple depth) (formulas.formula depth) tokens.old) result tokens.new }
{
    tokens.expect(Kind::OpenBrace)?;
    let found = pieces(alloc, tokens, depth)?;
    tokens.expect(Kind::CloseBrace)?;
    Ok(found)
}

/// Parameters and pieces, of which no rule on names is asked yet.
#[tactic(auto, unfolding(crate::specs::Piece::outline))]
pub fn outline(alloc: Global, tokens: &mut Cursor<'_>, depth: usize) -> Result<Literal, Fault>
    ensures { Reads (spec.outline (tuples.tuple depth) (formulas.formula depth) tokens.old) result tokens.new }
{
    let params = parameters(alloc, tokens)?;
    let pieces = braces(alloc, tokens, depth)?;
    Ok(Literal { params, pieces })
}

//! The reader of parameter sets.

ghost use Rattle.isl_token.specs.Reading.{Reads};
ghost use Rattle.isl_formula.specs.Formula as formulas;
ghost use Rattle.isl_text.specs.Pset as spec;

use crate::formed::is_formed;
use crate::piece::{body, parameters};
use isl_formula::list::{ItemReader, separated};
use isl_token::{Cursor, Fault, Kind};
use isl_tree::tree::{Literal, PieceTree, Tuple};
use sqlite_items::Items;
use std::alloc::Global;

// `:` and a formula, as a piece without coordinates.
#[tactic(auto, unfolding(crate::specs::Pset::condition))]
fn condition(alloc: Global, tokens: &mut Cursor<'_>, depth: usize) -> Result<PieceTree, Fault>
    ensures { Reads (spec.condition (formulas.formula depth) tokens.old) result tokens.new }
{
    tokens.expect(Kind::Colon)?;
    let body = body(alloc, tokens, depth)?;
    let first = Tuple::Leaf {
        name: None,
        entries: Items::new(alloc),
    };
    Ok(PieceTree {
        first,
        second: None,
        body,
    })
}

// Reads formulas whose brackets are nested less than `depth` deep.
#[derive(Clone, Copy)]
struct ConditionReader {
    depth: usize,
}

impl ItemReader for ConditionReader {
    type Item = PieceTree;

    const ROOM: usize = 1;

    ghost reads = { λ r. spec.condition (formulas.formula r.depth) };

    fn read(&self, alloc: Global, tokens: &mut Cursor<'_>) -> Result<PieceTree, Fault> {
        condition(alloc, tokens, self.depth)
    }
}

// One formula or more, with `;` between them.
fn conditions(
    alloc: Global,
    tokens: &mut Cursor<'_>,
    depth: usize,
) -> Result<Items<PieceTree>, Fault>
    ensures { Reads (spec.conditions (formulas.formula depth) tokens.old) result tokens.new }
{
    separated(alloc, tokens, Kind::Semicolon, &ConditionReader { depth })
}

// Formulas in braces.
#[tactic(auto, unfolding(crate::specs::Pset::braces))]
fn braces(alloc: Global, tokens: &mut Cursor<'_>, depth: usize) -> Result<Items<PieceTree>, Fault>
    ensures { Reads (spec.braces (formulas.formula depth) tokens.old) result tokens.new }
{
    tokens.expect(Kind::OpenBrace)?;
    let found = conditions(alloc, tokens, depth)?;
    tokens.expect(Kind::CloseBrace)?;
    Ok(found)
}

// Names and formulas, of which no rule on names is asked yet.
#[tactic(auto, unfolding(crate::specs::Pset::outline))]
fn outline(alloc: Global, tokens: &mut Cursor<'_>, depth: usize) -> Result<Literal, Fault>
    ensures { Reads (spec.outline (formulas.formula depth) tokens.old) result tokens.new }
{
    let params = parameters(alloc, tokens)?;
    let pieces = braces(alloc, tokens, depth)?;
    Ok(Literal { params, pieces })
}

/// A parameter set whose brackets are nested less than `depth` deep.
#[tactic(auto, unfolding(crate::specs::Pset::pset))]
pub fn pset(alloc: Global, tokens: &mut Cursor<'_>, depth: usize) -> Result<Literal, Fault>
    ensures { Reads (spec.pset depth tokens.old) result tokens.new }
{
    let found = outline(alloc, tokens, depth)?;
    if is_formed(alloc, &found)? {
        Ok(found)
    } else {
        Err(Fault::Syntax)
    }
}

//! The reader of literals.

ghost use Rattle.std.specs.Prelude.{◌≡◌};
ghost use Rattle.isl_token.specs.Reading.{Reads};
ghost use Rattle.isl_text.specs.Literal as spec;

use crate::formed::is_formed;
use crate::piece::outline;
use isl_token::{Cursor, Fault};
use isl_tree::tree::Literal;
use std::alloc::Global;

/// A literal whose brackets are nested less than `depth` deep.
#[tactic(auto, unfolding(crate::specs::Literal::literal))]
pub fn literal(alloc: Global, tokens: &mut Cursor<'_>, depth: usize) -> Result<Literal, Fault>
    ensures { Reads (spec.literal depth tokens.old) result tokens.new }
{
    let found = outline(alloc, tokens, depth)?;
    if is_formed(alloc, &found)? {
        Ok(found)
    } else {
        Err(Fault::Syntax)
    }
}

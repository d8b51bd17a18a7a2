//! The reader of lists: items with a sign between each two.

ghost use Rattle.isl_token.specs.Reading.{Parser, Reads};
ghost use Rattle.isl_token.specs.Reading as reading;

use isl_token::{Cursor, Fault, Kind};
use sqlite_items::Items;
use std::alloc::Global;

/// Reads one item of a list.
pub trait ItemReader {
    /// What an item is.
    type Item: Drop;

    /// For how many items room is made at first.
    const ROOM: usize;

    /// The reader that a call meets.
    ghost reads: { Self → Parser Self.Item };

    fn read(&self, alloc: Global, tokens: &mut Cursor<'_>) -> Result<Self::Item, Fault>
        ensures { Reads (reads self.now tokens.old) result tokens.new };
}

/// An item, after a sign.
#[tactic(auto, unfolding(isl_token::specs::Reading::after_sign))]
pub(crate) fn after_sign<R: ItemReader>(
    alloc: Global,
    tokens: &mut Cursor<'_>,
    item: &R,
) -> Result<R::Item, Fault>
    ensures { Reads (reading.after_sign (R.reads item.now) tokens.old) result tokens.new }
{
    tokens.skip();
    item.read(alloc, tokens)
}

/// One item or more, with a sign between each two.
#[tactic(auto, using(isl_token::proofs::Turns::turns), unfolding(isl_token::specs::Reading::separated, isl_token::specs::Reading::row))]
pub fn separated<R: ItemReader>(
    alloc: Global,
    tokens: &mut Cursor<'_>,
    sign: Kind,
    item: &R,
) -> Result<Items<R::Item>, Fault>
    ensures { Reads (reading.separated sign (R.reads item.now) tokens.old) result tokens.new }
{
    let mut found = Items::from_vec(Vec::with_capacity(alloc, R::ROOM)?);
    found.push(item.read(alloc, tokens)?)?;
    for _turn in 0..tokens.left() {
        if !tokens.sees(sign) {
            return Ok(found);
        }
        found.push(after_sign(alloc, tokens, item)?)?;
    }
    Ok(found)
}

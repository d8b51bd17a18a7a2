//! The entries of tuples.

ghost use Rattle.std.specs.Prelude.{◌≡◌, ◌++◌, IfOk, map};
ghost use Rattle.isl_tree.specs.Literal.{entries_of, piece_entries};

use isl_tree::tree::{Entry, PieceTree, Tuple};
use std::alloc::{AllocError, Global};

// Puts entries behind the others.
fn push_leaf<'a>(entries: &mut Vec<&'a Entry>, leaf: &'a [Entry]) -> Result<(), AllocError>
    ensures { IfOk result (λ _. map (λ entry. entry.now) entries.new.items ≡ map (λ entry. entry.now) entries.old.items ++ leaf.now) }
{
    for entry in leaf {
        entries.push(entry)?;
    }
    Ok(())
}

// Puts the entries of a tuple behind the others, from the left.
#[tactic(auto, using(std::proofs::lemmas::Grind::common_steps, crate::proofs::TupleLaws::tuples))]
fn push_tuple<'a>(entries: &mut Vec<&'a Entry>, tuple: &'a Tuple) -> Result<(), AllocError>
    ensures { IfOk result
        (λ _. map (λ entry. entry.now) entries.new.items ≡ map (λ entry. entry.now) entries.old.items ++ entries_of tuple.now) }
{
    match tuple {
        Tuple::Leaf { entries: leaf, .. } => push_leaf(entries, leaf.as_slice()),
        Tuple::Pair(left, right) => {
            if let Err(e) = push_tuple(entries, left.get()) {
                return Err(e);
            }
            push_tuple(entries, right.get())
        }
    }
}

/// The entries of the tuples of a piece, from the left.
#[tactic(auto, using(std::proofs::lemmas::Grind::common_steps, crate::proofs::TupleLaws::pieces))]
pub fn piece_entries<'a>(alloc: Global, piece: &'a PieceTree) -> Result<Vec<&'a Entry>, AllocError>
    ensures { IfOk result (λ entries. map (λ entry. entry.now) entries.items ≡ piece_entries piece.now) }
{
    let mut entries = Vec::new(alloc);
    push_tuple(&mut entries, &piece.first)?;
    if let Some(second) = &piece.second {
        push_tuple(&mut entries, second)?;
    }
    Ok(entries)
}

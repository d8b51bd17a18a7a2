//! The rules on names and on the number of tuples, which no grammar says.

ghost use Rattle.std.specs.Prelude.{◌≡◌, ◌++◌, ◌∷◌, [], true, IfOk, OnOk};
ghost use Rattle.std.specs.List.{list_all, list_any};
ghost use Rattle.std.specs.Option.{option_copied};
ghost use Rattle.isl_tree.specs.Literal.{is_among, lone_name, entries_of, piece_entries};
ghost use Rattle.isl_text.specs.Formed as spec;

use indexmap::IndexSet;
use isl_space::Name;
use isl_tree::tree::{Entry, Factor, Literal, Modded, PieceTree, Product, Signed, Tuple};
use std::alloc::{AllocError, Global};

/// More names than these are told apart by a set, which takes memory.
const FEW_NAMES: usize = 16;

fn is_known(names: &[Name], name: &Name) -> bool
    ensures { result ≡ is_among names.now name.now }
{
    names.iter().any(|known| known == name)
}

/// Whether no name stands twice: each is compared with those behind it.
fn few_are_distinct(mut names: &[Name]) -> bool
    ensures { result ≡ spec.are_distinct names.entry.now }
{
    while let [name, others @ ..] = names {
        if is_known(others, name) {
            return false;
        }
        names = others;
    }
    true
}

/// Whether no name stands twice: each is looked for in a set of those before it.
fn many_are_distinct(alloc: Global, names: &[Name]) -> Result<bool, AllocError>
    ensures { IfOk result (λ distinct. distinct ≡ spec.are_distinct names.now) }
{
    let mut before = IndexSet::new(alloc);
    for name in names {
        let (_, is_new) = before.insert_full(name.copy()?)?;
        if !is_new {
            return Ok(false);
        }
    }
    Ok(true)
}

/// Whether no name stands twice, in a time that grows as the list does.
fn are_distinct(alloc: Global, names: &[Name]) -> Result<bool, AllocError>
    ensures { IfOk result (λ distinct. distinct ≡ spec.are_distinct names.now) }
{
    if names.len() <= FEW_NAMES {
        Ok(few_are_distinct(names))
    } else {
        many_are_distinct(alloc, names)
    }
}

fn are_maps(pieces: &[PieceTree]) -> bool
    ensures { result ≡ spec.are_maps pieces.now }
{
    pieces.iter().all(|piece| piece.second.is_some())
}

fn are_sets(pieces: &[PieceTree]) -> bool
    ensures { result ≡ spec.are_sets pieces.now }
{
    pieces.iter().all(|piece| piece.second.is_none())
}

/// Whether all pieces have one tuple, or all have two.
fn are_alike(pieces: &[PieceTree]) -> bool
    ensures { result ≡ spec.are_alike pieces.now }
{
    are_sets(pieces) || are_maps(pieces)
}

/// The name that the term consists of, where it is a name alone.
fn lone(term: &[Signed]) -> Option<&Name>
    ensures { option_copied result ≡ lone_name term.now }
{
    match term {
        [part] if !part.negative && part.product.numbers.is_empty() => alone(&part.product),
        _ => None,
    }
}

fn alone(product: &Product) -> Option<&Name>
    ensures { option_copied result ≡ spec.sole_name product.now }
{
    match &product.inner {
        Some(
            Modded {
                factor: Factor::Name(name),
                moduli,
            },
        ) if moduli.is_empty() => Some(name),
        _ => None,
    }
}

/// The name that stands alone at an entry, or before `=`.
fn standing(entry: &Entry) -> Option<&Name>
    ensures { option_copied result ≡ spec.standing_name entry.now }
{
    match entry {
        Entry::Plain(term) => lone(term.as_slice()),
        Entry::Named(name, _) => Some(name),
    }
}

fn is_new(entry: &Entry, params: &IndexSet<Name>, own: &IndexSet<Name>) -> bool
    ensures { result ≡ spec.is_new (params.now.keys ++ own.now.keys) entry.now }
{
    match entry {
        Entry::Plain(_) => true,
        Entry::Named(name, _) => !(params.contains(name) || own.contains(name)),
    }
}

/// Adds the name that stands at the entry.
#[tactic(auto, using(crate::proofs::SameNames::learning))]
fn learn(entry: &Entry, own: &mut IndexSet<Name>) -> Result<(), AllocError>
    ensures { OnOk result (spec.HaveSameNames own.new.keys (spec.with_name own.old.keys (spec.standing_name entry.now))) }
{
    if let Some(name) = standing(entry) {
        own.insert_full(name.copy()?)?;
    }
    Ok(())
}

/// Whether each name before `=` is new: no parameter, and none of its own piece so far. Where it is, the names of the
/// entries become known.
fn are_new(
    entries: &[Entry],
    params: &IndexSet<Name>,
    own: &mut IndexSet<Name>,
) -> Result<bool, AllocError>
    ensures { IfOk result (λ new.
        spec.GoesAlong new (params.now.keys ++ own.old.keys) (params.now.keys ++ own.new.keys) entries.now) }
{
    for entry in entries {
        if !is_new(entry, params, own) {
            return Ok(false);
        }
        learn(entry, own)?;
    }
    Ok(true)
}

/// The same along a tuple.
#[tactic(auto, using(crate::proofs::Along::along))]
fn tuple_is_new(
    tuple: &Tuple,
    params: &IndexSet<Name>,
    own: &mut IndexSet<Name>,
) -> Result<bool, AllocError>
    ensures { IfOk result (λ new.
        spec.GoesAlong new (params.now.keys ++ own.old.keys) (params.now.keys ++ own.new.keys) (entries_of tuple.now)) }
{
    match tuple {
        Tuple::Leaf { entries, .. } => are_new(entries.as_slice(), params, own),
        Tuple::Pair(first, second) => {
            if !tuple_is_new(first.get(), params, own)? {
                return Ok(false);
            }
            tuple_is_new(second.get(), params, own)
        }
    }
}

/// The same along a piece.
#[tactic(auto, using(crate::proofs::Along::along))]
fn piece_is_new(
    piece: &PieceTree,
    params: &IndexSet<Name>,
    own: &mut IndexSet<Name>,
) -> Result<bool, AllocError>
    ensures { IfOk result (λ new.
        spec.GoesAlong new (params.now.keys ++ own.old.keys) (params.now.keys ++ own.new.keys) (piece_entries piece.now)) }
{
    if !tuple_is_new(&piece.first, params, own)? {
        return Ok(false);
    }
    match &piece.second {
        Some(second) => tuple_is_new(second, params, own),
        None => Ok(true),
    }
}

fn is_named(entry: &Entry) -> bool
    ensures { result ≡ spec.is_named entry.now }
{
    matches!(entry, Entry::Named(..))
}

fn have_named(entries: &[Entry]) -> bool
    ensures { result ≡ list_any spec.is_named entries.now }
{
    entries.iter().any(|entry| is_named(entry))
}

#[tactic(auto, using(crate::proofs::Along::named))]
fn tuple_has_named(tuple: &Tuple) -> bool
    ensures { result ≡ list_any spec.is_named (entries_of tuple.now) }
{
    match tuple {
        Tuple::Leaf { entries, .. } => have_named(entries.as_slice()),
        Tuple::Pair(first, second) => tuple_has_named(first.get()) | tuple_has_named(second.get()),
    }
}

/// Whether a name stands before `=` in the piece.
#[tactic(auto, using(crate::proofs::Along::named))]
fn has_named(piece: &PieceTree) -> bool
    ensures { result ≡ spec.has_named piece.now }
{
    match &piece.second {
        Some(second) => tuple_has_named(&piece.first) | tuple_has_named(second),
        None => tuple_has_named(&piece.first),
    }
}

fn some_have_named(pieces: &[PieceTree]) -> bool
    ensures { result ≡ list_any spec.has_named pieces.now }
{
    pieces.iter().any(|piece| has_named(piece))
}

fn set_of(alloc: Global, names: &[Name]) -> Result<IndexSet<Name>, AllocError>
    ensures { IfOk result (λ set. spec.HaveSameNames set.keys names.now) }
{
    let mut set = IndexSet::new(alloc);
    for name in names {
        set.insert_full(name.copy()?)?;
    }
    Ok(set)
}

/// Whether each name before `=` is new in its piece.
fn each_is_new(alloc: Global, params: &[Name], pieces: &[PieceTree]) -> Result<bool, AllocError>
    ensures { IfOk result (λ new. new ≡ list_all (spec.piece_is_formed params.now) pieces.now) }
{
    let params = set_of(alloc, params)?;
    for piece in pieces {
        let mut own = IndexSet::new(alloc);
        if !piece_is_new(piece, &params, &mut own)? {
            return Ok(false);
        }
    }
    Ok(true)
}

/// The same. Where no name stands before `=`, no set is made.
#[tactic(auto, using(crate::proofs::SameNames::none_named))]
fn are_formed(alloc: Global, params: &[Name], pieces: &[PieceTree]) -> Result<bool, AllocError>
    ensures { IfOk result (λ formed. formed ≡ list_all (spec.piece_is_formed params.now) pieces.now) }
{
    if some_have_named(pieces) {
        each_is_new(alloc, params, pieces)
    } else {
        Ok(true)
    }
}

/// Whether the parameters are distinct, all pieces are sets or all are maps, and each name before `=` is new.
///
/// # Errors
///
/// Where memory ends.
pub fn is_formed(alloc: Global, literal: &Literal) -> Result<bool, AllocError>
    ensures { IfOk result (λ formed. formed ≡ spec.is_formed literal.now) }
{
    let params = literal.params.as_slice();
    let pieces = literal.pieces.as_slice();
    if !(are_distinct(alloc, params)? && are_alike(pieces)) {
        return Ok(false);
    }
    are_formed(alloc, params, pieces)
}

//! Places of a literal, and which names are known there.

ghost use Rattle.std.specs.Prelude.{◌≡◌};
ghost use Rattle.std.specs.List.{list_any};
ghost use Rattle.std.specs.Option.{option_copied};
ghost use Rattle.std.specs.Str.{bytes_eq};
ghost use Rattle.isl_tree.specs.Literal.{is_among, lone_name, entries_of};
ghost use Rattle.isl_kinds.specs.Place.{names_at, stands_at};

use isl_space::Name;
use isl_tree::tree::{Binder, Entry, Factor, Signed, Tuple};

/// A place of a literal.
#[derive(Clone, Copy)]
pub(crate) enum Place<'a> {
    /// Before the first tuple of a piece: the parameters are known.
    Params(&'a [Name]),
    /// Behind these entries.
    Behind(&'a [Entry], &'a Place<'a>),
    /// Behind this tuple.
    After(&'a Tuple, &'a Place<'a>),
    /// Below these binders.
    Below(&'a [Binder], &'a Place<'a>),
}

/// The name that the term consists of, where it is a name alone.
pub(crate) fn lone(term: &[Signed]) -> Option<&Name>
    ensures { option_copied result ≡ lone_name term.now }
{
    let [part] = term else {
        return None;
    };
    if part.negative || !part.product.numbers.is_empty() {
        return None;
    }
    match &part.product.inner {
        Some(modded) if modded.moduli.is_empty() => match &modded.factor {
            Factor::Name(name) => Some(name),
            _ => None,
        },
        _ => None,
    }
}

// Whether the name stands alone at the entry, or before `=`.
fn stands_at(name: &Name, entry: &Entry) -> bool
    ensures { result ≡ stands_at name.now entry.now }
{
    match entry {
        Entry::Plain(term) => match lone(term.as_slice()) {
            Some(other) => other == name,
            None => false,
        },
        Entry::Named(other, _) => other == name,
    }
}

fn stands_among(name: &Name, entries: &[Entry]) -> bool
    ensures { result ≡ list_any (stands_at name.now) entries.now }
{
    entries.iter().any(|entry| stands_at(name, entry))
}

#[tactic(auto, using(crate::proofs::PlaceLaws::tuples))]
fn stands_in(name: &Name, tuple: &Tuple) -> bool
    ensures { result ≡ list_any (stands_at name.now) (entries_of tuple.now) }
{
    match tuple {
        Tuple::Leaf { entries, .. } => stands_among(name, entries.as_slice()),
        Tuple::Pair(first, second) => stands_in(name, first.get()) | stands_in(name, second.get()),
    }
}

fn is_among(names: &[Name], name: &Name) -> bool
    ensures { result ≡ is_among names.now name.now }
{
    names.iter().any(|known| known == name)
}

fn is_bound(binders: &[Binder], name: &Name) -> bool
    ensures { result ≡ list_any (λ binder. bytes_eq binder.name name.now) binders.now }
{
    binders.iter().any(|binder| binder.name == *name)
}

impl Place<'_> {
    /// Whether a name is known here.
    #[tactic(auto, using(crate::proofs::PlaceLaws::places))]
    pub(crate) fn knows(&self, name: &Name) -> bool
        ensures { result ≡ is_among (names_at self.now) name.now }
    {
        match self {
            Place::Params(params) => is_among(params, name),
            Place::Behind(entries, before) => stands_among(name, entries) | before.knows(name),
            Place::After(tuple, before) => stands_in(name, tuple) | before.knows(name),
            Place::Below(binders, before) => is_bound(binders, name) | before.knows(name),
        }
    }
}

//! Where the names of a piece stand among its columns.

ghost use Rattle.std.specs.Prelude.{◌≡◌, ◌<◌, IfSome, length, map};
ghost use Rattle.std.specs.List.{position_from};
ghost use Rattle.std.specs.Option.{option_copied};
ghost use Rattle.isl_tree.specs.Literal.{lone_name};
ghost use Rattle.isl_plain.specs.Linear.{part_name};
ghost use Rattle.isl_plain.specs.Places.{entry_name, entry_from, param_from, is_name, place_of, brings};

use isl_space::Name;
use isl_tree::tree::{Entry, Factor, Signed};

// The name that a term consists of, where it is a name alone.
fn lone_name(term: &[Signed]) -> Option<&Name>
    ensures { option_copied result ≡ lone_name term.now }
{
    match term {
        [part] if !part.negative && part.product.numbers.is_empty() => match &part.product.inner {
            Some(modded) if modded.moduli.is_empty() => match &modded.factor {
                Factor::Name(name) => Some(name),
                _ => None,
            },
            _ => None,
        },
        _ => None,
    }
}

// The name that an entry consists of.
pub(crate) fn entry_name(entry: &Entry) -> Option<&Name>
    ensures { option_copied result ≡ entry_name entry.now }
{
    match entry {
        Entry::Plain(term) => lone_name(term.as_slice()),
        Entry::Named(name, _) => Some(name),
    }
}

fn is_entry_of(entry: &Entry, name: &Name) -> bool
    ensures { result ≡ is_name (entry_name entry.now) name.now }
{
    match entry_name(entry) {
        Some(found) => found == name,
        None => false,
    }
}

fn entry_position(entries: &[&Entry], name: &Name) -> Option<usize>
    ensures place { result ≡ position_from (λ entry. is_name (entry_name entry.now) name.now) 0 entries.now }
    ensures inside { IfSome result (λ at. at < length entries.now) }
{
    entries.iter().position(|entry| is_entry_of(entry, name))
}

// The place of the first entry that consists of this name alone.
fn first_entry(entries: &[&Entry], name: &Name) -> Option<usize>
    ensures place { result ≡ entry_from 0 (map (λ entry. entry.now) entries.now) name.now }
    ensures inside { IfSome result (λ at. at < length entries.now) }
{
    entry_position(entries, name)
}

fn first_param(params: &[Name], name: &Name) -> Option<usize>
    ensures place { result ≡ param_from 0 params.now name.now }
    ensures inside { IfSome result (λ at. at < length params.now) }
{
    params.iter().position(|param| param == name)
}

/// The name of a linear part, where it has one.
pub(crate) fn part_name(part: &Signed) -> Option<&Name>
    ensures { option_copied result ≡ part_name part.now }
{
    match &part.product.inner {
        Some(modded) => match &modded.factor {
            Factor::Name(name) => Some(name),
            _ => None,
        },
        None => None,
    }
}

/// The names of a piece: the parameters, and the entries of its tuples from the left.
#[derive(Clone, Copy)]
pub struct Places<'a> {
    pub params: &'a [Name],
    pub entries: &'a [&'a Entry],
}

impl Places<'_> {
    ghost use Rattle.isl_plain.specs.Width.{entries_in, width_of};

    /// How many columns a piece with these names has.
    #[tactic(auto, using(std::proofs::lemmas::Grind::common_steps, crate::proofs::PlaceLaws::widths))]
    pub fn width(&self) -> usize
        ensures { result ≡ width_of self.now }
    {
        self.params.len() + self.entries.len()
    }

    /// The column of a name, or `None` where the name is unknown.
    #[tactic(auto, using(std::proofs::lemmas::Grind::common_steps, crate::proofs::PlaceLaws::places))]
    pub fn column(&self, name: &Name) -> Option<usize>
        ensures place { result ≡ place_of self.now.params.now (entries_in self.now) name.now }
        ensures inside { IfSome result (λ at. at < width_of self.now) }
    {
        if let Some(at) = first_param(self.params, name) {
            return Some(at);
        }
        if let Some(at) = first_entry(self.entries, name) {
            return Some(at + self.params.len());
        }
        None
    }

    /// Whether an entry at a column brings in its name.
    pub(crate) fn brings(&self, entry: &Entry, at: usize) -> bool
        ensures { result ≡ brings self.now.params.now (entries_in self.now) entry.now at }
    {
        match entry_name(entry) {
            Some(name) => match self.column(name) {
                Some(place) => place == at,
                None => false,
            },
            None => false,
        }
    }
}

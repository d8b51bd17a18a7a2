//! What names are bound to: kinds and declared parameters.

ghost use Rattle.std.specs.Prelude.{◌≡◌, IfOk, OnOk, OnErr, [], All, false, filter, not, take};
ghost use Rattle.std.specs.Option.{option_copied};
ghost use Rattle.std.specs.Str.{bytes_eq};
ghost use Rattle.indexmap.specs.IndexMap.{insert_entry};
ghost use Rattle.isl_kinds.specs.Typed.{bound_to, is_dollar};

use indexmap::{IndexMap, IndexSet};
use isl_space::Name;
use isl_tree::statement::ValueKind;
use std::alloc::{AllocFailed, Global};
use std::marker::Model;

/// A kind, and declared parameters, which may be more than a value can have.
#[derive(Drop)]
pub struct Typed {
    kind: ValueKind,
    params: IndexSet<Name>,
}

impl Model for Typed {
    ghost use Rattle.isl_kinds.specs.Typed.{TypeView};

    ghost Value = { TypeView };

    ghost view = { λ t. record { kind = t.kind; params = t.params.keys } };
}

impl Typed {
    pub(crate) fn new(kind: ValueKind, params: IndexSet<Name>) -> Typed
        ensures { result ≡ record { kind = kind; params = params.keys } }
    {
        Typed { kind, params }
    }

    /// The kind.
    pub fn kind(&self) -> ValueKind
        ensures { result ≡ self.now.kind }
    {
        self.kind
    }

    /// The declared parameters, in order.
    pub fn params(&self) -> &[Name]
        ensures { result.now ≡ self.now.params }
    {
        self.params.as_slice()
    }
}

/// Whether no script has the name, since it begins with `$`.
pub fn is_dollar(name: &Name) -> bool
    ensures { result ≡ is_dollar name.now }
{
    name.as_str().as_bytes().first() == Some(&b'$')
}

/// Takes the entries out whose names begin with `$`, of which none stands among the first ones. It takes no memory, and looks at no more than
/// the others.
pub fn forget_behind<V: Drop>(bound: &mut IndexMap<Name, V>, settled: usize)
    requires { All (λ entry. is_dollar entry.0 ≡ false) (take settled bound.old.entries) }
    ensures { bound.new.entries ≡ filter (λ entry. not (is_dollar entry.0)) bound.old.entries }
{
    let mut at = bound.len();
    while at > settled {
        at -= 1;
        let is_gone = match bound.get_index(at) {
            Some((name, _)) => is_dollar(name),
            None => false,
        };
        if is_gone {
            bound.shift_remove_index(at);
        }
    }
}

/// The bound names, each with its kind and its declared parameters.
#[derive(Drop)]
pub struct Scope {
    bound: IndexMap<Name, Typed>,
    // So many names, the first ones, do not begin with `$`.
    settled: usize,
}

impl Model for Scope {
    ghost use Rattle.isl_kinds.specs.Typed.{ScopeView};

    ghost Value = { ScopeView };

    ghost view = { λ s. s.bound.entries };

    ghost use Rattle.std.specs.Prelude.{◌≡◌, ◌≤◌, false, All, length, take};
    ghost use Rattle.isl_kinds.specs.Typed.{is_dollar};

    ghost invariant = { λ s. (s.settled ≤ length s.bound.entries) × All (λ entry. is_dollar entry.0 ≡ false) (take s.settled s.bound.entries) };
}

impl Scope {
    /// No name is bound.
    pub fn new(alloc: Global) -> Scope
        ensures { result ≡ [] }
    {
        Scope {
            bound: IndexMap::new(alloc),
            settled: 0,
        }
    }

    /// What a name is bound to.
    pub fn get(&self, name: &Name) -> Option<&Typed>
        ensures { option_copied result ≡ bound_to self.now name.now }
    {
        self.bound.get(name)
    }

    /// Binds a name, in the place of what it was bound to.
    pub fn bind(&mut self, name: Name, typed: Typed) -> Result<(), AllocFailed<(Name, Typed)>>
        ensures ok { OnOk result (self.new ≡ insert_entry bytes_eq self.old name typed) }
        ensures err { OnErr result (self.new ≡ self.old) }
    {
        self.bound.insert(name, typed)?;
        Ok(())
    }

    /// Forgets the names that begin with `$`. It takes no memory, and looks at no more than was bound since it was asked before.
    pub fn forget(&mut self)
        ensures { self.new ≡ filter (λ entry. not (is_dollar entry.0)) self.old }
    {
        forget_behind(&mut self.bound, self.settled);
        self.settled = self.bound.len();
    }
}

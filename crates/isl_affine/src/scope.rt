//! The names of columns.

ghost use Rattle.std.specs.Prelude.{◌≡◌, ◌↔◌, ◌<◌, [], ◌∷◌, ◌++◌, take, length, IfOk, IfSome, IsTrue, OnOk, OnErr};
ghost use Rattle.isl_affine.specs.Scope.{column_of, is_named};

use isl_space::Name;
use std::alloc::{AllocError, Global};
use std::marker::Model;

/// The names of the first columns of a system, where they have one. A later name hides an earlier.
#[derive(Drop)]
pub struct Scope {
    names: Vec<Option<Name>>,
}

impl Model for Scope {
    ghost use Rattle.std.specs.Prelude.{List, Option, ℕ};

    ghost Value = { List (Option (List ℕ)) };

    ghost view = { λ s. s.names.items };
}

// Whether a column has this name.
fn is_named(name: &Name, entry: &Option<Name>) -> bool
    ensures { result ≡ is_named name.now entry.now }
{
    match entry {
        Some(other) => other == name,
        None => false,
    }
}

fn copied(entry: &Option<Name>) -> Result<Option<Name>, AllocError>
    ensures { IfOk result (λ copy. copy ≡ entry.now) }
{
    match entry {
        Some(name) => Ok(Some(name.copy()?)),
        None => Ok(None),
    }
}

impl Scope {
    /// No names.
    pub fn new(alloc: Global) -> Self
        ensures { result ≡ [] }
    {
        Scope {
            names: Vec::new(alloc),
        }
    }

    /// For how many columns it stands.
    pub fn len(&self) -> usize
        ensures { result ≡ length self.now }
    {
        self.names.len()
    }

    /// Whether it stands for no column.
    pub fn is_empty(&self) -> bool
        ensures { IsTrue result ↔ (self.now ≡ []) }
    {
        self.names.is_empty()
    }

    /// Puts a column with this name, or without one, behind the others.
    ///
    /// # Errors
    ///
    /// `AllocError` where memory ends; the scope is as it was then.
    pub fn push(&mut self, name: Option<Name>) -> Result<(), AllocError>
        ensures exact { OnOk result (self.new ≡ self.old ++ name ∷ []) }
        ensures unchanged { OnErr result (self.new ≡ self.old) }
    {
        self.names.push(name)?;
        Ok(())
    }

    /// Leaves the first columns.
    pub fn truncate(&mut self, columns: usize)
        ensures { self.new ≡ take columns self.old }
    {
        self.names.truncate(columns);
    }

    /// The same names, which share their texts.
    ///
    /// # Errors
    ///
    /// `AllocError` where memory ends.
    pub fn copy(&self, alloc: Global) -> Result<Self, AllocError>
        ensures { IfOk result (λ scope. scope ≡ self.now) }
    {
        let mut names = Vec::with_capacity(alloc, self.names.len())?;
        for entry in &self.names {
            names.push(copied(entry)?)?;
        }
        Ok(Scope { names })
    }

    /// The last column that has this name.
    #[tactic(auto, using(std::proofs::lemmas::Grind::common_steps, crate::proofs::ScopeLaws::columns))]
    pub fn column(&self, name: &Name) -> Option<usize>
        ensures column { result ≡ column_of self.now name.now }
        ensures inside { IfSome result (λ at. at < length self.now) }
    {
        let mut found = None;
        for at in 0..self.names.len() {
            if is_named(name, &self.names[at]) {
                found = Some(at);
            }
        }
        found
    }
}

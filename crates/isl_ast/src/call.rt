//! Calls.

ghost use Rattle.std.specs.Prelude.{◌≡◌, [], IfOk};

use crate::Callee;
use isl_space::Name;
use std::alloc::{AllocError, Global};
use std::marker::Model;

/// What is called, and the numbers that it gets.
#[derive(Drop)]
pub struct Call {
    name: Option<Name>,
    args: Vec<i128>,
}

impl Model for Call {
    ghost use Rattle.isl_loop.specs.Run.{Event};

    ghost Value = { Event };

    ghost view = { λ c. record { name = c.name; args = c.args.items } };
}

impl Call {
    /// The name of what is called, where it has one.
    pub fn name(&self) -> &Option<Name>
        ensures { result.now ≡ self.now.name }
    {
        &self.name
    }

    pub fn args(&self) -> &[i128]
        ensures { result.now ≡ self.now.args }
    {
        self.args.as_slice()
    }
}

fn copied(name: &Option<Name>) -> Result<Option<Name>, AllocError>
    ensures { IfOk result (λ copy. copy ≡ name.now) }
{
    match name {
        Some(name) => Ok(Some(name.copy()?)),
        None => Ok(None),
    }
}

fn call_of(alloc: Global, name: &Option<Name>, args: &[i128]) -> Result<Call, AllocError>
    ensures { IfOk result (λ call. call ≡ record { name = name.now; args = args.now }) }
{
    Ok(Call {
        name: copied(name)?,
        args: Vec::from_slice(alloc, args)?,
    })
}

// Calls that are kept.
#[derive(Drop)]
pub(crate) struct Calls {
    alloc: Global,
    calls: Vec<Call>,
}

impl Model for Calls {
    ghost use Rattle.std.specs.Prelude.{List};
    ghost use Rattle.isl_loop.specs.Run.{Event};

    ghost Value = { List Event };

    ghost view = { λ c. c.calls.items };
}

impl Callee for Calls {
    ghost use Rattle.std.specs.Prelude.{◌∷◌, ◌++◌};

    ghost called = { λ before event after. after ≡ before ++ event ∷ [] };

    fn call(&mut self, name: &Option<Name>, args: &[i128]) -> Result<(), AllocError> {
        let call = call_of(self.alloc, name, args)?;
        self.calls.push(call)?;
        Ok(())
    }
}

impl Calls {
    pub(crate) fn new(alloc: Global) -> Calls
        ensures { result ≡ [] }
    {
        Calls {
            alloc,
            calls: Vec::new(alloc),
        }
    }

    pub(crate) fn into_vec(self) -> Vec<Call>
        ensures { result.items ≡ self }
    {
        self.calls
    }
}

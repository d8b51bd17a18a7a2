//! A cursor over tokens.

ghost use Rattle.std.specs.Prelude.{◌≡◌, length, IfOk};
ghost use Rattle.isl_token.specs.Reading as spec;
ghost use Rattle.isl_token.specs.Reading.{Reads};

use crate::fault::Fault;
use crate::marks::Rest;
use crate::number::number_of;
use crate::token::Kind;
use isl_space::Name;
use std::alloc::{AllocError, Global};
use std::marker::Model;

/// How many names are kept to be shared.
const KEPT: usize = 32;

/// For how many of them room is made at first.
const ROOM: usize = 8;

/// A name that was read before, or a new one, which is kept while there are few.
fn shared(alloc: Global, names: &mut Vec<Name>, text: &str) -> Result<Name, AllocError>
    ensures { IfOk result (λ name. name ≡ text.now) }
{
    for name in names.iter() {
        if name.as_str() == text {
            return name.copy();
        }
    }
    let name = Name::new(alloc, text)?;
    if names.is_empty() {
        names.reserve(ROOM)?;
    }
    if names.len() < KEPT {
        names.push(name.copy()?)?;
    }
    Ok(name)
}

/// The tokens that are still to be read.
#[derive(Drop)]
pub struct Cursor<'a> {
    alloc: Global,
    rest: Rest<'a>,
    /// Names that were read, to be shared.
    names: Vec<Name>,
}

impl<'a> Model for Cursor<'a> {
    ghost use Rattle.std.specs.Prelude.{List};
    ghost use Rattle.isl_token.specs.TokenView.{Token};

    ghost Value = { List Token };

    ghost view = { λ c. c.rest };
}

impl<'a> Cursor<'a> {
    pub fn new(alloc: Global, rest: Rest<'a>) -> Cursor<'a>
        ensures { result ≡ rest.entry }
    {
        Cursor {
            alloc,
            rest,
            names: Vec::new(alloc),
        }
    }

    /// The tokens that are left.
    pub fn rest(&self) -> Rest<'a>
        ensures { result ≡ self.now }
    {
        self.rest.copy()
    }

    /// How many tokens are left.
    pub fn left(&self) -> usize
        ensures { result ≡ length self.now }
    {
        self.rest.left()
    }

    /// The kind of the next token.
    pub fn peek(&self) -> Kind
        ensures { result ≡ spec.head_kind self.now }
    {
        self.rest.peek()
    }

    /// The kind of the token after the next.
    pub fn second(&self) -> Kind
        ensures { result ≡ spec.second_kind self.now }
    {
        self.rest.second()
    }

    /// Whether the next token is of the kind.
    pub fn sees(&self, kind: Kind) -> bool
        ensures { result ≡ spec.sees kind self.now }
    {
        self.peek() == kind
    }

    /// Goes past the next token.
    pub fn skip(&mut self)
        ensures { self.new ≡ spec.tail self.old }
    {
        self.rest.skip();
    }

    /// Goes past the next token, which has to be of the kind.
    ///
    /// # Errors
    /// `Syntax` where it is of another kind.
    #[tactic(auto, unfolding(crate::specs::Reading::expect))]
    pub fn expect(&mut self, kind: Kind) -> Result<(), Fault>
        ensures { Reads (spec.expect kind self.old) result self.new }
    {
        if self.peek() == kind {
            self.skip();
            Ok(())
        } else {
            Err(Fault::Syntax)
        }
    }

    /// Reads an identifier.
    ///
    /// # Errors
    /// `Syntax` where another token comes next.
    pub fn name(&mut self) -> Result<Name, Fault>
        ensures { Reads (spec.name self.old) result self.new }
    {
        match self.rest.word() {
            Some(word) => {
                let name = shared(self.alloc, &mut self.names, word)?;
                self.rest.skip();
                Ok(name)
            }
            None => Err(Fault::Syntax),
        }
    }

    /// Reads a number.
    ///
    /// # Errors
    /// `Syntax` where another token comes next.
    #[tactic(auto, using(crate::proofs::MarkLaws::read))]
    pub fn number(&mut self) -> Result<i128, Fault>
        ensures { Reads (spec.number self.old) result self.new }
    {
        match self.rest.digits() {
            Some(digits) => {
                let value = number_of(digits);
                self.rest.skip();
                Ok(value)
            }
            None => Err(Fault::Syntax),
        }
    }

    /// Reads a number that is not 0.
    ///
    /// # Errors
    /// `Syntax` where another token comes next.
    #[tactic(auto, unfolding(crate::specs::Reading::positive))]
    pub fn positive(&mut self) -> Result<i128, Fault>
        ensures { Reads (spec.positive self.old) result self.new }
    {
        let number = self.number()?;
        if number == 0 {
            return Err(Fault::Syntax);
        }
        Ok(number)
    }
}

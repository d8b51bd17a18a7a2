//! Defined columns.

ghost use Rattle.std.specs.Prelude.{◌≡◌, ◌↔◌, ◌⊎◌, [], ◌∷◌, ◌++◌, length, IsTrue, IfOk, OnOk, OnErr, MatchResult};
ghost use Rattle.isl_meter.specs.Gauge.{overflown, IsWithin};
ghost use Rattle.isl_piece.specs.Definition.{defined_value, with_defined, IsDefinition, AreDefinitions, DefinitionPassesLimit};
ghost use Rattle.isl_piece.specs.Cut.{IsCutFor};
ghost use Rattle.isl_piece.specs.Row.{FormPassesLimit};

use crate::Coefs;
use crate::form::form_at;
use isl_meter::{Cut, Int, Meter, Overflow};
use std::alloc::{AllocError, AllocFailed, Global};
use std::marker::Model;

/// What a defined column stands for: the form `coefs[0] x0 + coefs[1] x1 + .. + constant` over the columns before it, divided by
/// `k` and rounded down. `k` is at least 1.
#[derive(PartialEq, Eq, Drop)]
pub struct Definition {
    pub coefs: Coefs,
    pub constant: i128,
    pub k: i128,
}

impl Definition {
    pub fn copy(&self, alloc: Global) -> Result<Self, AllocError>
        ensures { IfOk result (λ definition. definition ≡ self.now) }
    {
        Ok(Definition {
            coefs: self.coefs.copy(alloc)?,
            constant: self.constant,
            k: self.k,
        })
    }

    fn same(&self, other: &Definition) -> bool
        ensures { IsTrue result ↔ (self.now ≡ other.now) }
    {
        self.constant == other.constant && self.k == other.k && self.coefs == other.coefs
    }

    /// The number of the column, where those before it have the numbers of the point.
    pub(crate) fn value_at(&self, point: &[i128], meter: &mut Meter) -> Result<Int, Overflow>
        requires { IsDefinition meter.old (length point.now) self.now }
        ensures { MatchResult result
            (λ value. (value ≡ defined_value self.now point.now) × (meter.new ≡ meter.old))
            (λ _. FormPassesLimit meter.old self.now.coefs self.now.constant point.now × (meter.new ≡ overflown meter.old)) }
    {
        let value = form_at(self.coefs.as_slice(), Int::new(self.constant), point, meter)?;
        Ok(value.floor_div(Int::new(self.k), meter))
    }
}

/// The definitions of a system's last columns, in order.
#[derive(Drop)]
pub struct Definitions {
    items: Vec<Definition>,
}

impl Model for Definitions {
    ghost use Rattle.std.specs.Prelude.{List};
    ghost use Rattle.isl_piece.specs.declared.definition.Definition.{Definition};

    ghost Value = { List Definition };

    ghost view = { λ d. d.items.items };
}

impl Definitions {
    pub fn new(alloc: Global) -> Self
        ensures { result ≡ [] }
    {
        Definitions {
            items: Vec::new(alloc),
        }
    }

    pub fn len(&self) -> usize
        ensures { result ≡ length self.now }
    {
        self.items.len()
    }

    pub fn is_empty(&self) -> bool
        ensures { IsTrue result ↔ (self.now ≡ []) }
    {
        self.items.is_empty()
    }

    /// Whether the two are the same, one by one.
    pub fn same(&self, other: &Definitions) -> bool
        ensures { IsTrue result ↔ (self.now ≡ other.now) }
    {
        if self.len() != other.len() {
            return false;
        }
        for i in 0..self.len() {
            if !self.items[i].same(&other.items[i]) {
                return false;
            }
        }
        true
    }

    pub fn as_slice(&self) -> &[Definition]
        ensures { result.now ≡ self.now }
    {
        self.items.as_slice()
    }

    pub(crate) fn push(&mut self, definition: Definition) -> Result<(), AllocFailed<Definition>>
        ensures ok { OnOk result (self.new ≡ self.old ++ definition ∷ []) }
        ensures err { OnErr result (self.new ≡ self.old) }
    {
        self.items.push(definition)
    }

    pub fn copy(&self, alloc: Global) -> Result<Self, AllocError>
        ensures { IfOk result (λ definitions. definitions ≡ self.now) }
    {
        let mut items = Vec::with_capacity(alloc, self.len())?;
        for definition in self.as_slice() {
            items.push(definition.copy(alloc)?)?;
        }
        Ok(Definitions { items })
    }

    /// The full point: the numbers of the free columns, and behind them those that the definitions give.
    ///
    /// # Errors
    ///
    /// `Overflow` where the form of a definition passes the limit, and `NoMemory`.
    #[tactic(auto, using(std::proofs::lemmas::Grind::common_steps, crate::proofs::DefinedLaws::defined_steps))]
    pub(crate) fn full_point(
        &self,
        alloc: Global,
        point: &[i128],
        meter: &mut Meter,
    ) -> Result<Vec<i128>, Cut>
        requires { AreDefinitions meter.old (length point.now) self.now }
        ensures { MatchResult result
            (λ full. (full.items ≡ with_defined self.now point.now) × (meter.new ≡ meter.old))
            (λ cut. IsCutFor (DefinitionPassesLimit meter.old self.now point.now) meter.old meter.new cut) }
    {
        let mut full = Vec::from_slice(alloc, point)?;
        for definition in self.as_slice() {
            let value = definition.value_at(full.as_slice(), meter)?;
            full.push(value.get())?;
        }
        Ok(full)
    }
}

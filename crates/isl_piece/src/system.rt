//! Systems: the points at which each row of a list holds.

ghost use Rattle.std.specs.Prelude.{◌≡◌, ◌↔◌, ◌+◌, ◌≤◌, ◌<ℤ◌, pos, ℕ, ℤ, List, [], ◌++◌, All, Any, length, IsTrue, IfOk, IfSome, IsNone, OnOk, OnErr, MatchOption, MatchResult};
ghost use Rattle.isl_meter.specs.Gauge.{Gauge, IsWithin};
ghost use Rattle.isl_piece.specs.Cut.{IsCutFor};
ghost use Rattle.isl_piece.specs.Definition.{with_defined, DefinitionPassesLimit};
ghost use Rattle.isl_piece.specs.Normal.{normal_system, IsNormal};
ghost use Rattle.isl_piece.specs.Row.{HoldsRow, IsRowUpTo, IsWellFormed};
ghost use Rattle.isl_piece.specs.System.{HoldsSystem, IsSystemWithin, SystemPassesLimit, free_columns, with_definition};

use crate::{Coefs, Definition, Definitions, Rows};
use isl_meter::{Cut, Meter};
use std::alloc::{AllocError, Global};

/// The points at which each row holds. The last of the columns, one for each definition, stand for the numbers that their
/// definitions give; a point has a number for each of the others, which are free.
#[derive(Drop)]
pub struct System {
    pub columns: usize,
    pub definitions: Definitions,
    pub rows: Rows,
}

impl System {
    /// The system that holds at every point.
    pub fn new(alloc: Global, columns: usize) -> Self
        ensures { result ≡ record { columns = columns; definitions = []; rows = [] } }
    {
        System::from_rows(alloc, columns, Rows::new(alloc))
    }

    /// The system of the rows over so many columns, of which the last have the definitions.
    pub fn over(columns: usize, definitions: Definitions, rows: Rows) -> Self
        ensures { result ≡ record { columns = columns; definitions = definitions; rows = rows } }
    {
        System {
            columns,
            definitions,
            rows,
        }
    }

    /// The system of the rows, in which each column is free. It takes no memory: the allocator is kept by the definitions.
    pub fn from_rows(alloc: Global, columns: usize, rows: Rows) -> Self
        ensures { result ≡ record { columns = columns; definitions = []; rows = rows } }
    {
        System::over(columns, Definitions::new(alloc), rows)
    }

    pub fn copy(&self, alloc: Global) -> Result<Self, AllocError>
        ensures { IfOk result (λ system. system ≡ self.now) }
    {
        Ok(System::over(
            self.columns,
            self.definitions.copy(alloc)?,
            self.rows.copy(alloc)?,
        ))
    }

    /// The number of columns with a definition.
    pub fn defined(&self) -> usize
        ensures { result ≡ length self.now.definitions }
    {
        self.definitions.len()
    }

    /// The number of columns without one, which come first.
    pub fn free(&self) -> usize
        ensures { result ≡ free_columns self.now }
    {
        self.columns.saturating_sub(self.definitions.len())
    }
}

impl Clone for System {
    ghost use Rattle.std.specs.Prelude.{◌≡◌};

    ghost is_clone = { λ s copy. copy ≡ s };

    fn clone(&self) -> Result<System, AllocError> {
        self.copy(self.rows.allocator())
    }
}

impl System {
    ghost use Rattle.isl_piece.specs.declared.definition.Definition.{Definition};

    /// Adds a column, behind the others, which stands for `coefs[0] x0 + coefs[1] x1 + .. + constant` over these, divided by `k`
    /// and rounded down. Each row gets the coefficient 0 there. Answers the column.
    ///
    /// # Errors
    ///
    /// `AllocError` where memory ends; the system is as it was then.
    pub fn define(&mut self, coefs: &[i128], constant: i128, k: i128) -> Result<usize, AllocError>
        requires columns { length coefs.now ≡ self.old.columns }
        requires modulus { pos 0 <ℤ k }
        ensures place { IfOk result (λ column. column ≡ self.old.columns) }
        ensures exact { OnOk result (self.new ≡ with_definition self.old (record { coefs = coefs.now; constant = constant; k = k })) }
        ensures points { (point : List ℤ) → All (IsWellFormed self.old.columns) self.old.rows → length point + length self.old.definitions ≡ self.old.columns
            → OnOk result (HoldsSystem self.new point ↔ HoldsSystem self.old point) }
        ensures within { (g : Gauge) → IsSystemWithin g self.old → All (IsWithin g) coefs.now → IsWithin g constant → IsWithin g k
            → OnOk result (IsSystemWithin g self.new) }
        ensures unchanged { OnErr result (self.new ≡ self.old) }
    {
        let alloc = self.rows.allocator();
        self.push_column(
            alloc,
            Definition {
                coefs: Coefs::from_numbers(alloc, coefs)?,
                constant,
                k,
            },
        )?;
        Ok(coefs.len())
    }

    // Adds a column with the definition.
    fn push_column(&mut self, alloc: Global, definition: Definition) -> Result<(), AllocError>
        requires { length definition.coefs ≡ self.old.columns }
        ensures exact { OnOk result (self.new ≡ with_definition self.old definition) }
        ensures unchanged { OnErr result (self.new ≡ self.old) }
    {
        let rows = self.rows.widened(alloc)?;
        let columns = definition.coefs.len() + 1;
        self.definitions.push(definition)?;
        self.rows = rows;
        self.columns = columns;
        Ok(())
    }

    /// Whether the system holds at the point, which has a number for each free column. Uses no unit.
    ///
    /// # Errors
    ///
    /// `Overflow` where the form of a definition or of a row passes the limit at the point, and `NoMemory`.
    #[tactic(auto, using(std::proofs::lemmas::Grind::common_steps, crate::proofs::DefinedLaws::defined_steps))]
    pub fn holds_at(&self, alloc: Global, point: &[i128], meter: &mut Meter) -> Result<bool, Cut>
        requires within { IsSystemWithin meter.old self.now }
        requires columns { length point.now ≡ free_columns self.now }
        ensures { MatchResult result
            (λ holds. (IsTrue holds ↔ HoldsSystem self.now point.now) × (meter.new ≡ meter.old))
            (λ cut. IsCutFor (SystemPassesLimit meter.old self.now point.now) meter.old meter.new cut) }
    {
        if self.definitions.is_empty() {
            return Ok(self.rows.hold_at(point, meter)?);
        }
        let full = self.definitions.full_point(alloc, point, meter)?;
        Ok(self.rows.hold_at(full.as_slice(), meter)?)
    }
}

/// The system with its normal rows: each row divided as far as it goes, rows that hold everywhere left out, and each bound
/// once, with the least constant, in the place of the first. `None` where one of the rows holds nowhere. The rows are made
/// normal where they lie; an index finds equal bounds among many rows, and few rows take no memory. Definitions are kept.
///
/// # Errors
///
/// `AllocError` where memory ends.
pub fn normalise(
    alloc: Global,
    system: System,
    meter: &mut Meter,
) -> Result<Option<System>, AllocError>
    requires { IsSystemWithin meter.old system }
    ensures exact { IfOk result (λ normal. normal ≡ normal_system system) }
    ensures none { IfOk result (λ normal. IsNone normal ↔ Any (λ r. (point : List ℤ) → ¬ HoldsRow r point) system.rows) }
    ensures points { IfOk result (λ normal. (point : List ℤ) → MatchOption normal
        (¬ HoldsSystem system point) (λ kept. HoldsSystem kept point ↔ HoldsSystem system point)) }
    ensures normal { IfOk result (λ normal. IfSome normal (λ kept. IsNormal kept.rows)) }
    ensures within { IfOk result (λ normal. IfSome normal (IsSystemWithin meter.old)) }
    ensures magnitudes { (b : ℕ) → All (IsRowUpTo b) system.rows
        → IfOk result (λ normal. IfSome normal (λ kept. All (IsRowUpTo b) kept.rows)) }
    ensures meter { meter.new ≡ meter.old }
{
    match system.rows.normalise(alloc, meter)? {
        Some(rows) => Ok(Some(System::over(system.columns, system.definitions, rows))),
        None => Ok(None),
    }
}

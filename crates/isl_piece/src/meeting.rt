//! The system that holds where two systems do.

ghost use Rattle.std.specs.Prelude.{◌≡◌, ◌≢◌, ◌↔◌, ◌+◌, ◌<◌, ◌≤◌, ◌^◌, ℕ, ℤ, pos, List, [], ◌∷◌, ◌++◌, All, None, fold, length, map, replicate, IsTrue, IfOk, OnOk};
ghost use Rattle.std.specs.List.{list_all, list_any, range_with_len};
ghost use Rattle.std.specs.Bool.{nat_eq};
ghost use Rattle.std.specs.Ordering.{int_eq};
ghost use Rattle.isl_meter.specs.Gauge.{Gauge};
ghost use Rattle.isl_piece.specs.Meet.{placed, placed_row, placed_definition, is_padded, is_same_definition, column_with, joined_at, with_column, first_columns, meeting_of, over_columns, over_same_columns, met, numbers_at, IsPlaced};
ghost use Rattle.isl_piece.specs.Formed.{IsSystemUpTo};
ghost use Rattle.isl_piece.specs.Placed.{placing_of, placed_system, both_systems, ArePlacesAmong};
ghost use Rattle.isl_piece.specs.System.{HoldsSystem, IsSystemWithin, free_columns};

use crate::{Coefs, Definition, Definitions, Row, Rows, System};
use isl_meter::Int;
use std::alloc::{AllocError, AllocFailed, Global};
use std::marker::Model;

// Where the columns of one system stand among those of another.
#[derive(Drop)]
struct Places {
    items: Vec<usize>,
}

impl Model for Places {
    ghost use Rattle.std.specs.Prelude.{List, ℕ};

    ghost Value = { List ℕ };

    ghost view = { λ p. p.items.items };
}

impl Places {
    // So many columns, each at its own place.
    #[tactic(auto, using(std::proofs::lemmas::Grind::common_steps, crate::proofs::PlacedLaws::place_steps))]
    fn first(alloc: Global, count: usize) -> Result<Self, AllocError>
        ensures { IfOk result (λ places. places ≡ range_with_len 0 count) }
    {
        let mut items = Vec::with_capacity(alloc, count)?;
        for place in 0..count {
            items.push(place)?;
        }
        Ok(Places { items })
    }

    fn from_slice(alloc: Global, places: &[usize]) -> Result<Self, AllocError>
        ensures { IfOk result (λ made. made ≡ places.now) }
    {
        Ok(Places {
            items: Vec::from_slice(alloc, places)?,
        })
    }

    fn contains(&self, column: usize) -> bool
        ensures { result ≡ list_any (λ place. nat_eq place column) self.now }
    {
        self.items.iter().any(|&place| place == column)
    }

    fn push(&mut self, place: usize) -> Result<(), AllocFailed<usize>>
        ensures { OnOk result (self.new ≡ self.old ++ place ∷ []) }
    {
        self.items.push(place)
    }

    // The coefficients at their places among so many columns, and 0 at the others.
    #[tactic(auto, using(std::proofs::lemmas::Grind::common_steps, crate::proofs::PlacedLaws::place_steps))]
    fn placed(&self, alloc: Global, columns: usize, coefs: &[Int]) -> Result<Coefs, AllocError>
        requires { All (λ place. place < columns) self.now }
        ensures { IfOk result (λ made. made ≡ placed columns self.now coefs.now) }
    {
        let places = self.items.as_slice();
        let mut made = Coefs::zeros(alloc, columns)?;
        for i in 0..coefs.len() {
            if i == places.len() {
                return Ok(made);
            }
            made.set(places[i], coefs[i]);
        }
        Ok(made)
    }

    // The definition, its columns at their places.
    fn placed_definition(
        &self,
        alloc: Global,
        columns: usize,
        definition: &Definition,
    ) -> Result<Definition, AllocError>
        requires { All (λ place. place < columns) self.now }
        ensures { IfOk result (λ made. made ≡ placed_definition columns self.now definition.now) }
    {
        Ok(Definition {
            coefs: self.placed(alloc, columns, definition.coefs.as_slice())?,
            constant: definition.constant,
            k: definition.k,
        })
    }

    // Puts the other rows, their columns at their places, behind these.
    fn append_placed(
        &self,
        alloc: Global,
        columns: usize,
        rows: &mut Rows,
        other: &Rows,
    ) -> Result<(), AllocError>
        requires { All (λ place. place < columns) self.now }
        ensures { OnOk result (rows.new ≡ rows.old ++ map (placed_row columns self.now) other.now) }
    {
        for row in other.as_slice() {
            let coefs = self.placed(alloc, columns, row.coefs.as_slice())?;
            rows.push(Row::new(row.kind, coefs, row.constant(), row.modulus()))?;
        }
        Ok(())
    }
}

fn are_zero(numbers: &[Int]) -> bool
    ensures { result ≡ list_all (λ z. int_eq z (pos 0)) numbers.now }
{
    numbers.iter().all(|&number| number == Int::ZERO)
}

// Whether the second list is the first with zeros behind it.
fn is_padded(few: &[Int], more: &[Int]) -> bool
    ensures { result ≡ is_padded few.now more.now }
{
    few.len() <= more.len() && few == &more[..few.len()] && are_zero(&more[few.len()..])
}

// Whether both are the same definition, the second over more columns.
fn is_same_definition(definition: &Definition, moved: &Definition) -> bool
    ensures { result ≡ is_same_definition definition.now moved.now }
{
    definition.constant == moved.constant
        && definition.k == moved.k
        && is_padded(definition.coefs.as_slice(), moved.coefs.as_slice())
}

// The first of the defined columns that has the definition and is not taken, where the first of them all is `free`.
fn column_with(
    definitions: &[Definition],
    free: usize,
    definition: &Definition,
    taken: &Places,
) -> Option<usize>
    requires { free + length definitions.now < 2 ^ 64 }
    ensures { result ≡ column_with definition.now taken.now free definitions.now }
{
    for i in 0..definitions.len() {
        if is_same_definition(&definitions[i], definition) && !taken.contains(free + i) {
            return Some(free + i);
        }
    }
    None
}

// The columns of one system, and behind them defined columns of another; and where the columns of that one stand among them.
#[derive(Drop)]
struct Meeting {
    columns: usize,
    definitions: Definitions,
    places: Places,
}

impl Meeting {
    // The columns of the first system, and the free columns of the second, which are the same.
    fn first(alloc: Global, a: &System) -> Result<Self, AllocError>
        ensures { IfOk result (λ meeting. meeting ≡ first_columns (free_columns a.now) a.now) }
    {
        Ok(Meeting {
            columns: a.free() + a.defined(),
            definitions: a.definitions.copy(alloc)?,
            places: Places::first(alloc, a.free())?,
        })
    }

    // One more defined column of the second: at a column with its definition, or behind the others.
    #[tactic(auto, using(std::proofs::lemmas::Grind::common_steps, crate::proofs::PlacedLaws::place_steps))]
    fn add(&mut self, alloc: Global, free: usize, definition: &Definition) -> Result<(), AllocError>
        requires { IsPlaced free self.old }
        ensures { OnOk result (self.new ≡ with_column free self.old definition.now) }
    {
        let moved = self
            .places
            .placed_definition(alloc, self.columns, definition)?;
        match column_with(self.definitions.as_slice(), free, &moved, &self.places) {
            Some(column) => self.places.push(column)?,
            None => self.push(moved)?,
        }
        Ok(())
    }

    // A column with the definition, behind the others.
    fn push(&mut self, moved: Definition) -> Result<(), AllocError>
        requires { length moved.coefs ≡ self.old.columns }
        ensures { OnOk result (self.new ≡ joined_at self.old moved None) }
    {
        self.places.push(self.columns)?;
        self.columns = moved.coefs.len() + 1;
        self.definitions.push(moved)?;
        Ok(())
    }

    // The free columns at their places among so many, and behind these the defined ones.
    fn placing(
        alloc: Global,
        columns: usize,
        places: &[usize],
        definitions: &Definitions,
    ) -> Result<Self, AllocError>
        requires { All (λ place. place < columns) places.now }
        ensures exact { IfOk result (λ meeting. meeting ≡ placing_of columns places.now definitions.now) }
        ensures placed { IfOk result (IsPlaced columns) }
    {
        let mut meeting = Meeting {
            columns,
            definitions: Definitions::new(alloc),
            places: Places::from_slice(alloc, places)?,
        };
        for definition in definitions.as_slice() {
            let columns = meeting.columns;
            let moved = meeting
                .places
                .placed_definition(alloc, columns, definition)?;
            meeting.push(moved)?;
        }
        Ok(meeting)
    }

    // The columns of both.
    fn of(alloc: Global, a: &System, definitions: &Definitions) -> Result<Self, AllocError>
        ensures exact { IfOk result (λ meeting. meeting ≡ meeting_of a.now definitions.now) }
        ensures placed { IfOk result (λ meeting. IsPlaced (free_columns a.now) meeting) }
        ensures own { IfOk result (λ meeting. a.now.columns ≤ meeting.columns) }
    {
        let mut meeting = Meeting::first(alloc, a)?;
        for definition in definitions.as_slice() {
            meeting.add(alloc, a.free(), definition)?;
        }
        Ok(meeting)
    }
}

// The system of both over their columns.
fn over_columns(
    alloc: Global,
    meeting: Meeting,
    a: &System,
    b: &System,
) -> Result<System, AllocError>
    requires own { a.now.columns ≤ meeting.columns }
    requires placed { All (λ place. place < meeting.columns) meeting.places }
    ensures { IfOk result (λ system. system ≡ over_columns meeting a.now b.now) }
{
    let own = Places::first(alloc, a.columns)?;
    let mut rows = Rows::with_capacity(alloc, a.rows.len().saturating_add(b.rows.len()))?;
    own.append_placed(alloc, meeting.columns, &mut rows, &a.rows)?;
    meeting
        .places
        .append_placed(alloc, meeting.columns, &mut rows, &b.rows)?;
    Ok(System::over(meeting.columns, meeting.definitions, rows))
}

// The system of both where they have the same columns.
fn same_columns(alloc: Global, a: &System, b: &System) -> Result<System, AllocError>
    ensures { IfOk result (λ system. system ≡ over_same_columns a.now b.now) }
{
    let count = a.rows.len().saturating_add(b.rows.len());
    let mut rows = Rows::with_capacity(alloc, count)?;
    rows.append(alloc, &a.rows)?;
    rows.append(alloc, &b.rows)?;
    Ok(System::over(a.columns, a.definitions.copy(alloc)?, rows))
}

impl System {
    /// The system with its free columns at other places, among so many, and its defined columns behind these.
    ///
    /// # Errors
    ///
    /// `AllocError` where memory ends.
    pub fn placed(
        &self,
        alloc: Global,
        columns: usize,
        places: &[usize],
    ) -> Result<System, AllocError>
        requires { All (λ place. place < columns) places.now }
        ensures exact { IfOk result (λ system. system ≡ placed_system columns places.now self.now) }
        ensures points { (g : Gauge) (point : List ℤ) → IsSystemWithin g self.now → ArePlacesAmong columns places.now
            → length places.now ≡ free_columns self.now → length point ≡ columns
            → IfOk result (λ system. HoldsSystem system point ↔ HoldsSystem self.now (numbers_at places.now point)) }
        ensures within { (g : Gauge) → IsSystemWithin g self.now → ArePlacesAmong columns places.now → length places.now ≡ free_columns self.now
            → IfOk result (λ system. IsSystemWithin g system × (free_columns system ≡ columns)) }
        ensures magnitudes { (most : ℕ) → IsSystemUpTo most self.now → IfOk result (IsSystemUpTo most) }
    {
        let placing = Meeting::placing(alloc, columns, places, &self.definitions)?;
        let mut rows = Rows::with_capacity(alloc, self.rows.len())?;
        placing
            .places
            .append_placed(alloc, placing.columns, &mut rows, &self.rows)?;
        Ok(System::over(placing.columns, placing.definitions, rows))
    }
}

/// The system that holds where both do: the rows of `a`, then those of `b`. Both have the same free columns. Where they have
/// the same definitions the columns stay as they are; else each defined column of `b` is found among the columns of `a` by its
/// definition, or stands behind them, so that no column is there twice.
///
/// # Errors
///
/// `AllocError` where memory ends.
pub fn meet(alloc: Global, a: &System, b: &System) -> Result<System, AllocError>
    requires { free_columns a.now ≡ free_columns b.now }
    ensures exact { IfOk result (λ system. system ≡ both_systems a.now b.now) }
    ensures same { a.now.definitions ≡ b.now.definitions → IfOk result (λ system. system ≡ over_same_columns a.now b.now) }
    ensures apart { a.now.definitions ≢ b.now.definitions → IfOk result (λ system. system ≡ met a.now b.now) }
    ensures points { (g : Gauge) (point : List ℤ) → IsSystemWithin g a.now → IsSystemWithin g b.now → length point ≡ free_columns a.now
        → IfOk result (λ system. HoldsSystem system point ↔ (HoldsSystem a.now point × HoldsSystem b.now point)) }
    ensures within { (g : Gauge) → IsSystemWithin g a.now → IsSystemWithin g b.now → IfOk result (IsSystemWithin g) }
    ensures free { (g : Gauge) → IsSystemWithin g a.now → IsSystemWithin g b.now
        → IfOk result (λ system. free_columns system ≡ free_columns a.now) }
    ensures magnitudes { (most : ℕ) → IsSystemUpTo most a.now → IsSystemUpTo most b.now → IfOk result (IsSystemUpTo most) }
{
    if a.definitions.same(&b.definitions) {
        return same_columns(alloc, a, b);
    }
    over_columns(alloc, Meeting::of(alloc, a, &b.definitions)?, a, b)
}

//! Which column is taken out first. Each choice is right: this one is cheap.

ghost use Rattle.std.specs.Prelude.{◌≡◌, ◌<◌, ◌≤◌, All, false, length, pos, slice_index_or};
ghost use Rattle.isl_presolve.specs.Unit.{IsUnitRow};

use isl_piece::{Row, RowKind};

// How many splinters of any column are too many.
const MANY_SPLINTERS: u128 = 6;

/// What taking a column out is likely to cost, from the least.
#[derive(Clone, Copy, PartialEq, Eq, PartialOrd, Ord)]
enum Cost {
    /// An equality has the column with the coefficient 1 or -1.
    Unit,
    /// An equality has the column.
    Equality,
    /// No bound on one side, and no congruence: rows vanish.
    Open,
    /// So many rows of pairs, and splinters.
    Bounds(u128),
    /// The same, where a congruence has the column.
    Congruences(u128),
}

/// How bounds on one side have a column.
#[derive(Clone, Copy)]
struct Bounds {
    count: u128,
    greatest: u128,
}

impl Bounds {
    fn with(self, magnitude: u128) -> Bounds {
        Bounds {
            count: self.count.saturating_add(1),
            greatest: self.greatest.max(magnitude),
        }
    }
}

/// How rows have a column.
#[derive(Clone, Copy)]
struct ColumnUse {
    at: usize,
    equality: Option<u128>,
    has_congruence: bool,
    lowers: Bounds,
    uppers: Bounds,
}

// The number that the row has at the column.
pub(crate) fn number_at(row: &Row, col: usize) -> i128
    ensures { result ≡ slice_index_or row.now.coefs col (pos 0) }
{
    if col < row.coefs.len() {
        return row.coefs.get(col).get();
    }
    0
}

impl ColumnUse {
    fn of(rows: &[Row], at: usize) -> ColumnUse {
        let none = Bounds {
            count: 0,
            greatest: 0,
        };
        let mut column = ColumnUse {
            at,
            equality: None,
            has_congruence: false,
            lowers: none,
            uppers: none,
        };
        for row in rows {
            column = column.with(row);
        }
        column
    }

    fn with(self, row: &Row) -> ColumnUse {
        let number = number_at(row, self.at);
        let magnitude = number.unsigned_abs();
        if number == 0 {
            return self;
        }
        match row.kind {
            RowKind::Zero => ColumnUse {
                equality: Some(
                    self.equality
                        .map_or(magnitude, |least| least.min(magnitude)),
                ),
                ..self
            },
            RowKind::AtLeast if number > 0 => ColumnUse {
                lowers: self.lowers.with(magnitude),
                ..self
            },
            RowKind::AtLeast => ColumnUse {
                uppers: self.uppers.with(magnitude),
                ..self
            },
            RowKind::Divides | RowKind::NotDivides => ColumnUse {
                has_congruence: true,
                ..self
            },
        }
    }

    // How many splinters the bounds on one side leave against the greatest number on the other.
    fn splinters(self, rows: &[Row], lower: bool) -> u128
        ensures { All IsUnitRow rows.now → result ≡ 0 }
    {
        let greatest = if lower {
            self.uppers.greatest
        } else {
            self.lowers.greatest
        };
        let mut sum: u128 = 0;
        for row in rows {
            let number = number_at(row, self.at);
            if row.kind == RowKind::AtLeast && number != 0 && (number > 0) == lower {
                sum = sum.saturating_add(splinters_of(number.unsigned_abs(), greatest));
            }
        }
        sum
    }

    // How many splinters are left at least; none where a side is open, or has no coefficient but 1 or -1.
    fn least_splinters(self, rows: &[Row]) -> u128
        ensures { All IsUnitRow rows.now → result ≡ 0 }
    {
        let has_unit_side = self.lowers.greatest <= 1 || self.uppers.greatest <= 1;
        if self.equality.is_some() || has_unit_side {
            return 0;
        }
        self.splinters(rows, true).min(self.splinters(rows, false))
    }

    // Whether no row has the column.
    fn is_unused(self) -> bool {
        let is_unbounded = self.lowers.count == 0 && self.uppers.count == 0;
        is_unbounded && !self.has_congruence && self.equality.is_none()
    }

    fn cost(self, rows: &[Row]) -> Cost {
        if let Some(magnitude) = self.equality {
            return if magnitude == 1 {
                Cost::Unit
            } else {
                Cost::Equality
            };
        }
        if !self.has_congruence && (self.lowers.count == 0 || self.uppers.count == 0) {
            return Cost::Open;
        }
        let pairs = self.lowers.count.saturating_mul(self.uppers.count);
        let splinters = self.least_splinters(rows);
        let estimate = pairs.saturating_add(splinters);
        if self.has_congruence {
            Cost::Congruences(estimate)
        } else {
            Cost::Bounds(estimate)
        }
    }
}

// How many splinters a bound with this number leaves.
fn splinters_of(number: u128, greatest: u128) -> u128
    ensures { number ≤ 1 → result ≡ 0 }
{
    let less = number.saturating_sub(1);
    less - less / greatest.max(1)
}

/// Whether many splinters are left whichever of the columns is taken out.
pub(crate) fn leaves_many_splinters(rows: &[Row], columns: usize) -> bool
    ensures { 0 < columns → All IsUnitRow rows.now → result ≡ false }
{
    for col in 0..columns {
        if ColumnUse::of(rows, col).least_splinters(rows) < MANY_SPLINTERS {
            return false;
        }
    }
    true
}

/// A place in the list of columns, whose column is likely to cost the least.
pub fn cheapest(rows: &[Row], cols: &[usize]) -> usize
    requires { 0 < length cols.now }
    ensures { result < length cols.now }
{
    let mut best = 0;
    let mut least = None;
    for i in 0..cols.len() {
        let cost = ColumnUse::of(rows, cols[i]).cost(rows);
        if matches!(cost, Cost::Unit) {
            return i;
        }
        if least.is_none_or(|old| cost < old) {
            best = i;
            least = Some(cost);
        }
    }
    best
}

/// A column of so many, which is likely to cost the least of those that some row has: once all of these are gone, no row is left.
pub fn any_column(rows: &[Row], columns: usize) -> usize
    requires { 0 < columns }
    ensures { result < columns }
{
    let mut best = 0;
    let mut least = None;
    for col in 0..columns {
        let column = ColumnUse::of(rows, col);
        if column.is_unused() {
            continue;
        }
        let cost = column.cost(rows);
        if matches!(cost, Cost::Unit) {
            return col;
        }
        if least.is_none_or(|old| cost < old) {
            best = col;
            least = Some(cost);
        }
    }
    best
}

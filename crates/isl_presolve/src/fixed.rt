//! Columns at which a congruence and two bounds leave one number: their numbers are found before any column is taken out.

ghost use Rattle.std.specs.Prelude.{◌≡◌, ◌≢◌, ◌↔◌, ◌<◌, ◌+ℤ◌, ◌*ℤ◌, ◌≤ℤ◌, ◌<ℤ◌, ℤ, List, pos, All, IfOk, IfSome, IsTrue, MatchOption, Ok, Some, length};
ghost use Rattle.std.specs.Prelude.{slice_index_or};
ghost use Rattle.isl_math.specs.Divide.{Divides, IsGcdOf};
ghost use Rattle.isl_meter.specs.Gauge.{IsDone, IsWithin};
ghost use Rattle.isl_piece.specs.declared.row.RowKind.TheVariants as kinds;
ghost use Rattle.isl_piece.specs.Normal.{IsNormal};
ghost use Rattle.isl_piece.specs.Row.{HoldsRow, IsRowWithin};
ghost use Rattle.isl_piece.specs.System.{HoldRows};
ghost use Rattle.isl_omega.specs.Column.{IsProper};
ghost use Rattle.isl_presolve.specs.Emptiness.{HoldNowhere};
ghost use Rattle.isl_presolve.specs.Fixed.{AreFixed, AreRanges, DividesOthers, HoldAlike, IsAlone, IsInRange};

use isl_meter::{Cut, Int, Meter};
use isl_piece::{Coefs, Row, RowKind, Rows};
use std::alloc::{AllocError, Global};

/// The numbers that bounds of one column alone leave it.
#[derive(Clone, Copy)]
pub(crate) struct Range {
    pub least: Option<Int>,
    pub greatest: Option<Int>,
}

// The greater one of a bound from below, if there is one, and another.
fn greater(old: Option<Int>, new: Int) -> Int
    ensures { (x : ℤ) → IfSome old (λ bound. bound ≤ℤ x) → new ≤ℤ x → result ≤ℤ x }
{
    match old {
        Some(bound) if bound > new => bound,
        _ => new,
    }
}

// The lesser one of a bound from above, if there is one, and another.
fn lesser(old: Option<Int>, new: Int) -> Int
    ensures { (x : ℤ) → IfSome old (λ bound. x ≤ℤ bound) → x ≤ℤ new → x ≤ℤ result }
{
    match old {
        Some(bound) if bound < new => bound,
        _ => new,
    }
}

impl Range {
    const WHOLE: Range = Range {
        least: None,
        greatest: None,
    };

    // What is left of the range where so many times the number and the constant are at least 0. In normal rows a number that stands
    // alone is 1 or -1.
    fn narrowed(self, number: Int, constant: Int, meter: &Meter) -> Range
        requires within { IsWithin meter.now constant }
        ensures { (x : ℤ) → IsInRange self x → pos 0 ≤ℤ (number *ℤ x +ℤ constant) → IsInRange result x }
    {
        if number == Int::ONE {
            return Range {
                least: Some(greater(self.least, constant.neg(meter))),
                ..self
            };
        }
        if number == Int::new(-1) {
            return Range {
                greatest: Some(lesser(self.greatest, constant)),
                ..self
            };
        }
        self
    }

    // Whether the range ends before the number.
    fn ends_before(self, number: Int) -> bool
        ensures { IsTrue result → (x : ℤ) → IsInRange self x → x <ℤ number }
    {
        match self.greatest {
            Some(greatest) => greatest < number,
            None => false,
        }
    }
}

// The one column at which a number is not 0.
#[tactic(auto, using(std::proofs::lemmas::Grind::common_steps, crate::proofs::FixedLaws::seen_steps))]
fn only_column(coefs: &[Int]) -> Option<usize>
    ensures { IfSome result (λ col. (col < length coefs.now) × IsAlone col coefs.now) }
{
    let mut found = None;
    for i in 0..coefs.len() {
        if coefs[i].is_zero() {
            continue;
        }
        if found.is_some() {
            return None;
        }
        found = Some(i);
    }
    found
}

// The range that the bounds of each column alone leave it.
fn ranges_of(
    alloc: Global,
    rows: &[Row],
    columns: usize,
    meter: &Meter,
) -> Result<Vec<Range>, AllocError>
    requires rows { All (IsProper meter.now columns) rows.now }
    ensures { IfOk result (λ ranges. AreRanges columns rows.now ranges.items) }
{
    let mut ranges = Vec::from_elem(alloc, Range::WHOLE, columns)?;
    for row in rows {
        if row.kind != RowKind::AtLeast {
            continue;
        }
        let Some(col) = only_column(row.coefs.as_slice()) else {
            continue;
        };
        ranges[col] = ranges[col].narrowed(row.coefs.get(col), row.constant(), meter);
    }
    Ok(ranges)
}

// A divisor of the modulus and of the numbers at all columns but one: their greatest.
#[tactic(auto, using(std::proofs::lemmas::Grind::common_steps, crate::proofs::FixedLaws::divisor_steps))]
fn divisor_but(row: &Row, but: usize, meter: &Meter) -> Int
    requires within { IsRowWithin meter.now row.now }
    requires modulus { pos 0 <ℤ row.now.k }
    ensures positive { pos 0 <ℤ result }
    ensures within { IsWithin meter.now result }
    ensures modulus { Divides result row.now.k }
    ensures others { DividesOthers result but row.now.coefs }
{
    let mut common = row.modulus();
    for i in 0..row.coefs.len() {
        if i == but {
            continue;
        }
        common = common.gcd(row.coefs.get(i), meter);
    }
    common
}

// The least number from `least` on, at which the divisor divides so many times it and the constant; none where a number is too large.
fn first_from(least: Int, number: Int, constant: Int, divisor: Int, meter: &Meter) -> Option<Int>
    requires within { IsWithin meter.now divisor }
    requires positive { pos 0 <ℤ divisor }
    requires coprime { IsGcdOf number divisor (pos 1) }
    ensures least { IfSome result (λ first. least ≤ℤ first) }
    ensures next { IfSome result (λ first. first <ℤ (least +ℤ divisor)) }
    ensures divided { IfSome result (λ first. Divides divisor (number *ℤ first +ℤ constant)) }
{
    let mut calculator = Meter::new(127, 1);
    let inverse = number.inverse(divisor, meter);
    let rest = constant.modulo(divisor, meter);
    let product = rest.mul(inverse, &mut calculator).ok()?;
    let beyond = product.add(least, &mut calculator).ok()?;
    let back = Int::ZERO.sub(beyond, &mut calculator).ok()?;
    let offset = back.modulo(divisor, meter);
    least.add(offset, &mut calculator).ok()
}

// The number that the congruence leaves of the range, where it leaves at most one: the only one that may stand at the column.
fn number_left(row: &Row, col: usize, range: Range, meter: &Meter) -> Option<Int>
    requires within { IsRowWithin meter.now row.now }
    requires kind { row.now.kind ≡ kinds.Divides }
    requires modulus { pos 0 <ℤ row.now.k }
    requires inside { col < length row.now.coefs }
    ensures { IfSome result (λ number. (point : List ℤ) → length point ≡ length row.now.coefs → HoldsRow row.now point
        → IsInRange range (slice_index_or point col (pos 0)) → slice_index_or point col (pos 0) ≡ number) }
{
    let number = row.coefs.get(col);
    let least = range.least?;
    let greatest = range.greatest?;
    let width = greatest.sub(least, &mut Meter::new(127, 1)).ok()?;
    if number.is_zero() || width >= row.modulus() {
        return None;
    }
    let divisor = divisor_but(row, col, meter);
    if width >= divisor {
        return None;
    }
    if number.gcd(divisor, meter) != Int::ONE {
        return None;
    }
    first_from(least, number, row.constant(), divisor, meter)
}

// The row that says that the number stands at the column.
fn number_row(
    alloc: Global,
    columns: usize,
    col: usize,
    number: Int,
    meter: &mut Meter,
) -> Result<Row, Cut>
    requires inside { col < columns }
    requires one { IsWithin meter.old (pos 1) }
    ensures { IsDone meter.old meter.new (λ row. IsProper meter.old columns row
        × ((point : List ℤ) → length point ≡ columns → slice_index_or point col (pos 0) ≡ number → HoldsRow row point)) result }
{
    let mut coefs = Coefs::zeros(alloc, columns)?;
    coefs.set(col, Int::ONE);
    let constant = Int::ZERO.sub(number, meter)?;
    Ok(Row::new(RowKind::Zero, coefs, constant, Int::ONE))
}

// Pushes a row for each column at which the congruence at `at` leaves one number; answers whether it leaves none at a column.
#[tactic(auto, using(std::proofs::lemmas::Grind::common_steps, crate::proofs::FixedLaws::fixed_steps))]
fn push_fixed(
    alloc: Global,
    rows: &[Row],
    at: usize,
    ranges: &[Range],
    found: &mut Rows,
    meter: &mut Meter,
) -> Result<bool, Cut>
    requires rows { All (IsProper meter.old (length ranges.now)) rows.now }
    requires inside { at < length rows.now }
    requires kind { (r : Row) → (slice_index_or rows.now at r).kind ≡ kinds.Divides }
    requires ranges { AreRanges (length ranges.now) rows.now ranges.now }
    requires found { AreFixed meter.old (length ranges.now) rows.now found.old }
    ensures { IsDone meter.old meter.new (λ nowhere. AreFixed meter.old (length ranges.now) rows.now found.new
        × (IsTrue nowhere → HoldNowhere (length ranges.now) rows.now)) result }
{
    let columns = ranges.len();
    for col in 0..columns {
        let Some(number) = number_left(&rows[at], col, ranges[col], meter) else {
            continue;
        };
        if ranges[col].ends_before(number) {
            return Ok(true);
        }
        found.push(number_row(alloc, columns, col, number, meter)?)?;
    }
    Ok(false)
}

// A row for each column at which a congruence and bounds leave one number; none where the rows are seen to hold nowhere.
#[tactic(auto, using(std::proofs::lemmas::Grind::common_steps, crate::proofs::FixedLaws::fixed_steps))]
fn fixed_rows(
    alloc: Global,
    rows: &[Row],
    columns: usize,
    meter: &mut Meter,
) -> Result<Option<Rows>, Cut>
    requires rows { All (IsProper meter.old columns) rows.now }
    ensures { IsDone meter.old meter.new
        (λ found. MatchOption found (HoldNowhere columns rows.now) (AreFixed meter.old columns rows.now)) result }
{
    let ranges = ranges_of(alloc, rows, columns, meter)?;
    let mut found = Rows::new(alloc);
    for at in 0..rows.len() {
        if rows[at].kind != RowKind::Divides {
            continue;
        }
        if push_fixed(alloc, rows, at, ranges.as_slice(), &mut found, meter)? {
            return Ok(None);
        }
    }
    Ok(Some(found))
}

// Whether no congruence is among the rows.
fn lack_congruences(rows: &[Row]) -> bool
    ensures { IsTrue result ↔ All (λ r. r.kind ≢ kinds.Divides) rows.now }
{
    rows.iter().all(|row| row.kind != RowKind::Divides)
}

/// The rows, and for each column at which a congruence and bounds leave one number a row that says so: they hold at the same points;
/// none where they are seen to hold nowhere. Without a congruence these are the rows themselves.
///
/// # Errors
///
/// `Overflow` where a number passes the limit of the meter, and `NoMemory`.
#[tactic(auto, using(std::proofs::lemmas::Grind::common_steps, crate::proofs::FixedLaws::alike_itself))]
pub fn with_fixed(
    alloc: Global,
    rows: Rows,
    columns: usize,
    meter: &mut Meter,
) -> Result<Option<Rows>, Cut>
    requires rows { All (IsProper meter.old columns) rows }
    requires normal { IsNormal rows }
    ensures exact { IsDone meter.old meter.new
        (λ found. MatchOption found (HoldNowhere columns rows) (HoldAlike meter.old columns rows)) result }
    ensures itself { All (λ r. r.kind ≢ kinds.Divides) rows → (result ≡ Ok (Some rows)) × (meter.new ≡ meter.old) }
{
    if lack_congruences(rows.as_slice()) {
        return Ok(Some(rows));
    }
    let Some(found) = fixed_rows(alloc, rows.as_slice(), columns, meter)? else {
        return Ok(None);
    };
    if found.is_empty() {
        return Ok(Some(rows));
    }
    let mut all = rows;
    all.append(alloc, &found)?;
    Ok(all.normalise(alloc, meter)?)
}

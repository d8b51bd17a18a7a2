//! What the last column of a system adds to the affine hull of its points.

ghost use Rattle.std.specs.Prelude.{◌≡◌, ◌≢◌, ◌⊎◌, ◌↔◌, ◌+◌, ◌*◌, ◌≤◌, ◌≤ℤ◌, ℕ, ℤ, ⊤, List, pos, [], ◌∷◌, All, IfOk, IsTrue, MatchOption};
ghost use Rattle.std.specs.Prelude.{length, unsigned_abs};
ghost use Rattle.isl_meter.specs.Gauge.{IsMetered};
ghost use Rattle.isl_piece.specs.declared.system.System.{System};
ghost use Rattle.isl_piece.specs.Row.{HoldsRow, IsRowWithin, IsWellFormed, coef_at, value_at};
ghost use Rattle.isl_piece.specs.System.{HoldsSystem, IsSystemWithin, free_columns};
ghost use Rattle.isl_ledger.specs.Answered.{IsTame};
ghost use Rattle.isl_ledger.specs.Difference.{HasDifferenceRows, IsDifferenceRow};
ghost use Rattle.isl_elim.specs.Sample.{IsNowhere};
ghost use Rattle.isl_span.specs.Chain.{IsFreeAtLast, IsLastEquation, IsLinkOf, IsNoEquation, IsPlainChain, IsSmall, IsUnit};
ghost use Rattle.isl_span.specs.Chain.{IsUnitForm, IsZeroOn};
ghost use Rattle.isl_span.specs.Points.{IsOver, IsPoint};
ghost use Rattle.isl_span.specs.Work.{link_units, test_units};

use crate::link::Link;
use crate::moved::moved;
use crate::points::only;
use isl_difference::live_form;
use isl_meter::{Cut, Int, Meter};
use isl_piece::{Row, RowKind, System, meet, settle};
use std::alloc::{AllocError, Global};

// Whether the number is 1 or -1.
fn is_unit(number: Int) -> bool
    ensures { IsTrue result ↔ IsUnit number }
{
    number.get().unsigned_abs() == 1
}

// The row, which has a unit at the last column, as an equation.
fn as_equation(alloc: Global, row: &Row, last: usize, meter: &Meter) -> Result<Row, AllocError>
    requires kind { (row.now.kind ≡ RowKind.Zero) ⊎ (row.now.kind ≡ RowKind.AtLeast) }
    requires formed { IsWellFormed (last + 1) row.now }
    requires within { IsRowWithin meter.now row.now }
    requires unit { IsUnit (coef_at row.now last) }
    ensures { IfOk result (IsUnitForm meter.now last row.now) }
{
    let mut form = row.copy(alloc)?;
    form.kind = RowKind::Zero;
    settle(&mut form, meter);
    Ok(form)
}

// Whether the system holds at no point.
#[tactic(auto, using(std::proofs::lemmas::Grind::common_steps, isl_meter::proofs::CutLemmas::charges))]
fn is_nowhere(alloc: Global, system: System, meter: &mut Meter) -> Result<bool, Cut>
    requires { IsSystemWithin meter.old system }
    ensures exact { IfOk result (λ empty. IsTrue empty ↔ IsNowhere (free_columns system) (HoldsSystem system)) }
    ensures meter { IsMetered meter.old meter.new result }
    ensures tame { (columns bits : ℕ) → meter.old.bits ≡ 127 → bits + columns ≤ 120 → HasDifferenceRows columns bits system
        → IsTame (test_units columns) meter.old meter.new (λ _. ⊤) result }
{
    Ok(live_form(alloc, system, meter)?.is_none())
}

// Whether the form of the row is below 1 at all points of the system.
#[tactic(auto, using(std::proofs::lemmas::Grind::common_steps, isl_meter::proofs::CutLemmas::charges))]
fn is_below_one(
    alloc: Global,
    system: &System,
    columns: usize,
    row: &Row,
    meter: &mut Meter,
) -> Result<bool, Cut>
    requires over { IsOver meter.old columns system.now }
    requires formed { IsWellFormed columns row.now }
    requires modulus { row.now.k ≡ pos 1 }
    requires within { IsRowWithin meter.old row.now }
    ensures exact { IfOk result (λ below. IsTrue below
        ↔ IsNowhere columns (λ point. HoldsSystem system.now point × (pos 1 ≤ℤ value_at row.now point))) }
    ensures meter { IsMetered meter.old meter.new result }
    ensures tame { (bits : ℕ) → meter.old.bits ≡ 127 → bits + 1 + columns ≤ 120 → HasDifferenceRows columns bits system.now
        → IsDifferenceRow bits row.now → IsTame (test_units columns) meter.old meter.new (λ _. ⊤) result }
{
    let constant = row.constant().sub(Int::ONE, meter)?;
    let above = Row::new(RowKind::AtLeast, row.coefs.copy(alloc)?, constant, Int::ONE);
    let both = meet(alloc, system, &only(alloc, columns, &above)?)?;
    is_nowhere(alloc, both, meter)
}

// Whether the form of the row, which holds at all points of the system, is 0 at all of these.
#[tactic(auto, using(std::proofs::lemmas::Grind::common_steps, isl_meter::proofs::CutLemmas::charges))]
fn is_zero_on(
    alloc: Global,
    system: &System,
    columns: usize,
    row: &Row,
    meter: &mut Meter,
) -> Result<bool, Cut>
    requires over { IsOver meter.old columns system.now }
    requires kind { (row.now.kind ≡ RowKind.Zero) ⊎ (row.now.kind ≡ RowKind.AtLeast) }
    requires formed { IsWellFormed columns row.now }
    requires within { IsRowWithin meter.old row.now }
    requires holds { (point : List ℤ) → HoldsSystem system.now point → HoldsRow row.now point }
    ensures exact { IfOk result (λ zero. IsTrue zero ↔ IsZeroOn (IsPoint columns (system.now ∷ [])) row.now) }
    ensures meter { IsMetered meter.old meter.new result }
    ensures tame { (bits : ℕ) → meter.old.bits ≡ 127 → bits + 1 + columns ≤ 120 → HasDifferenceRows columns bits system.now
        → IsDifferenceRow bits row.now → IsTame (test_units columns) meter.old meter.new (λ _. ⊤) result }
{
    if row.kind == RowKind::Zero {
        return Ok(true);
    }
    is_below_one(alloc, system, columns, row, meter)
}

// The equation that the row gives: one with a unit at the last column, which is 0 at all points of the system.
#[tactic(auto, using(std::proofs::lemmas::Grind::common_steps, isl_meter::proofs::CutLemmas::charges))]
fn equation_by(
    alloc: Global,
    system: &System,
    last: usize,
    row: &Row,
    meter: &mut Meter,
) -> Result<Option<Row>, Cut>
    requires over { IsOver meter.old (last + 1) system.now }
    requires kind { (row.now.kind ≡ RowKind.Zero) ⊎ (row.now.kind ≡ RowKind.AtLeast) }
    requires formed { IsWellFormed (last + 1) row.now }
    requires within { IsRowWithin meter.old row.now }
    requires holds { (point : List ℤ) → HoldsSystem system.now point → HoldsRow row.now point }
    ensures exact { IfOk result (λ found. MatchOption found
        (IsNoEquation last (IsPoint (last + 1) (system.now ∷ [])) row.now)
        (IsLastEquation meter.old last (IsPoint (last + 1) (system.now ∷ [])))) }
    ensures meter { IsMetered meter.old meter.new result }
    ensures tame { (bits : ℕ) → meter.old.bits ≡ 127 → bits + 1 + (last + 1) ≤ 120 → HasDifferenceRows (last + 1) bits system.now
        → IsDifferenceRow bits row.now → IsTame (test_units (last + 1)) meter.old meter.new (λ _. ⊤) result }
{
    if !is_unit(row.coefs.get(last)) {
        return Ok(None);
    }
    if !is_zero_on(alloc, system, row.coefs.len(), row, meter)? {
        return Ok(None);
    }
    let form = as_equation(alloc, row, last, meter)?;
    Ok(Some(form))
}

// An equation that a row of this kind gives.
#[tactic(auto, using(std::proofs::lemmas::Grind::common_steps, isl_meter::proofs::CutLemmas::charges))]
fn equation_among(
    alloc: Global,
    system: &System,
    last: usize,
    kind: RowKind,
    meter: &mut Meter,
) -> Result<Option<Row>, Cut>
    requires over { IsOver meter.old (last + 1) system.now }
    requires plain { system.now.definitions ≡ [] }
    requires kind { (kind ≡ RowKind.Zero) ⊎ (kind ≡ RowKind.AtLeast) }
    ensures exact { IfOk result (λ found. MatchOption found
        (All (λ r. r.kind ≡ kind → IsNoEquation last (IsPoint (last + 1) (system.now ∷ [])) r) system.now.rows)
        (IsLastEquation meter.old last (IsPoint (last + 1) (system.now ∷ [])))) }
    ensures meter { IsMetered meter.old meter.new result }
    ensures tame { (bits : ℕ) → meter.old.bits ≡ 127 → bits + 1 + (last + 1) ≤ 120 → HasDifferenceRows (last + 1) bits system.now
        → IsTame (length system.now.rows * test_units (last + 1)) meter.old meter.new (λ _. ⊤) result }
{
    for row in system.rows.as_slice() {
        if row.kind != kind {
            continue;
        }
        if let Some(form) = equation_by(alloc, system, last, row, meter)? {
            return Ok(Some(form));
        }
    }
    Ok(None)
}

// Whether two points of the system differ by 1 at the last column, and nowhere else.
#[tactic(auto, using(std::proofs::lemmas::Grind::common_steps, isl_meter::proofs::CutLemmas::charges))]
fn is_free(alloc: Global, system: &System, last: usize, meter: &mut Meter) -> Result<bool, Cut>
    requires over { IsOver meter.old (last + 1) system.now }
    requires plain { system.now.definitions ≡ [] }
    ensures exact { IfOk result (λ free. IsTrue free ↔ IsFreeAtLast last (IsPoint (last + 1) (system.now ∷ []))) }
    ensures meter { IsMetered meter.old meter.new result }
    ensures tame { (bits : ℕ) → meter.old.bits ≡ 127 → bits + 1 + (last + 1) ≤ 120 → HasDifferenceRows (last + 1) bits system.now
        → IsTame (test_units (last + 1)) meter.old meter.new (λ _. ⊤) result }
{
    let both = meet(alloc, system, &moved(alloc, system, last, meter)?)?;
    let empty = is_nowhere(alloc, both, meter)?;
    Ok(!empty)
}

// What the last column of the system adds.
#[tactic(auto, using(std::proofs::lemmas::Grind::common_steps, isl_meter::proofs::CutLemmas::charges))]
fn link_in(alloc: Global, system: &System, last: usize, meter: &mut Meter) -> Result<Link, Cut>
    requires over { IsOver meter.old (last + 1) system.now }
    requires plain { system.now.definitions ≡ [] }
    ensures exact { IfOk result (IsLinkOf meter.old last (system.now ∷ [])) }
    ensures seen { (bits : ℕ) → IsPlainChain (last + 1) bits system.now → IfOk result (λ link. link ≢ Link.Unknown) }
    ensures meter { IsMetered meter.old meter.new result }
    ensures tame { (bits : ℕ) → meter.old.bits ≡ 127 → bits + 1 + (last + 1) ≤ 120 → IsPlainChain (last + 1) bits system.now
        → IsTame (link_units (last + 1)) meter.old meter.new (λ _. ⊤) result }
{
    if let Some(row) = equation_among(alloc, system, last, RowKind::Zero, meter)? {
        return Ok(Link::Equation(row));
    }
    if is_free(alloc, system, last, meter)? {
        return Ok(Link::Free);
    }
    match equation_among(alloc, system, last, RowKind::AtLeast, meter)? {
        Some(row) => Ok(Link::Equation(row)),
        None => Ok(Link::Unknown),
    }
}

// Whether the number is 1, -1 or 0.
fn is_short(number: i128) -> bool
    ensures { IsTrue result ↔ (unsigned_abs number ≤ 1) }
{
    number.unsigned_abs() <= 1
}

// Whether all numbers are such.
fn are_short(numbers: &[Int]) -> bool
    ensures { IsTrue result ↔ All (λ c. unsigned_abs c ≤ 1) numbers.now }
{
    for number in numbers {
        if !is_short(number.get()) {
            return false;
        }
    }
    true
}

// Whether the row is an equation or a bound with coefficients 1, -1 and 0 alone.
fn is_small(row: &Row) -> bool
    ensures { IsTrue result ↔ IsSmall row.now }
{
    match row.kind {
        RowKind::Zero | RowKind::AtLeast => are_short(row.coefs.as_slice()),
        RowKind::Divides | RowKind::NotDivides => false,
    }
}

// Whether all of the rows are such.
fn are_small(rows: &[Row]) -> bool
    ensures { IsTrue result ↔ All IsSmall rows.now }
{
    for row in rows {
        if !is_small(row) {
            return false;
        }
    }
    true
}

/// What the last of the columns adds, where one system is given, in which no column is defined, of equations and bounds with coefficients
/// 1, -1 and 0 alone.
///
/// # Errors
///
/// `Overflow` where a number passes the limit of the meter, `Budget` where its units are used up, and `NoMemory`.
#[tactic(auto, using(std::proofs::lemmas::Grind::common_steps, isl_meter::proofs::CutLemmas::charges))]
pub(crate) fn link_of(
    alloc: Global,
    systems: &[System],
    last: usize,
    meter: &mut Meter,
) -> Result<Link, Cut>
    requires { All (IsOver meter.old (last + 1)) systems.now }
    ensures exact { IfOk result (IsLinkOf meter.old last systems.now) }
    ensures seen { (bits : ℕ) (s : System) → systems.now ≡ s ∷ [] → IsPlainChain (last + 1) bits s
        → IfOk result (λ link. link ≢ Link.Unknown) }
    ensures meter { IsMetered meter.old meter.new result }
    ensures tame { (bits : ℕ) (s : System) → meter.old.bits ≡ 127 → bits + 1 + (last + 1) ≤ 120 → systems.now ≡ s ∷ []
        → IsPlainChain (last + 1) bits s → IsTame (link_units (last + 1)) meter.old meter.new (λ _. ⊤) result }
{
    if systems.len() != 1 {
        return Ok(Link::Unknown);
    }
    let system = &systems[0];
    if system.defined() > 0 {
        return Ok(Link::Unknown);
    }
    if !are_small(system.rows.as_slice()) {
        return Ok(Link::Unknown);
    }
    link_in(alloc, system, last, meter)
}

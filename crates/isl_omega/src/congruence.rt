//! Congruences on one column: several are made one, and that one is a substitution.

ghost use Rattle.std.specs.Prelude.{◌≡◌, ◌<◌, ◌*ℤ◌, ◌<ℤ◌, ℤ, pos, All, IfOk, length, []};
ghost use Rattle.isl_meter.specs.Gauge.{IsWithin, IsDone};
ghost use Rattle.isl_piece.specs.Numbers.{reduced};
ghost use Rattle.isl_piece.specs.Row.{IsWellFormed, IsRowWithin, coef_at};
ghost use Rattle.isl_piece.specs.declared.row.RowKind.TheVariants.{Divides};
ghost use Rattle.isl_omega.specs.Congruence.{reduced_row, IsReducedCongruence, SayTheSame, AreMerged, IsScaledTo, AreJoined, AreMergedTo};
ghost use Rattle.isl_omega.specs.Magnitude.{IsNoOverflowWith};

use crate::column::Column;
use isl_meter::{Cut, Int, Meter};
use isl_piece::{Coefs, Row, Rows, combination};
use std::alloc::{AllocFailed, Global};

// The remainders of the numbers by `k`.
#[tactic(auto, using(std::proofs::lemmas::Grind::common_steps, crate::proofs::ReduceLemmas::reduce_steps))]
pub(crate) fn remainders(
    alloc: Global,
    numbers: &[Int],
    k: Int,
    meter: &Meter,
) -> Result<Coefs, AllocFailed<Int>>
    requires within { IsWithin meter.now k }
    requires modulus { pos 0 <ℤ k }
    ensures { IfOk result (λ coefs. (coefs ≡ reduced k numbers.now) × All (IsWithin meter.now) coefs) }
{
    let mut coefs = Coefs::new(alloc);
    for number in numbers {
        coefs.push(number.modulo(k, meter))?;
    }
    Ok(coefs)
}

// The congruence with its numbers reduced by its modulus.
fn reduced_copy(alloc: Global, row: &Row, meter: &Meter) -> Result<Row, AllocFailed<Int>>
    requires within { IsWithin meter.now row.now.k }
    requires modulus { pos 0 <ℤ row.now.k }
    ensures { IfOk result (λ small. (small ≡ reduced_row row.now) × IsRowWithin meter.now small) }
{
    let k = row.modulus();
    let coefs = remainders(alloc, row.coefs.as_slice(), k, meter)?;
    Ok(Row::new(row.kind, coefs, row.constant().modulo(k, meter), k))
}

// The remainder of one congruence by another, of the same modulus, at the column.
fn remainder(alloc: Global, p: &Row, q: &Row, column: Column, meter: &mut Meter) -> Result<Row, Cut>
    requires p_reduced { IsReducedCongruence column.columns p.now.k p.now }
    requires q_reduced { IsReducedCongruence column.columns p.now.k q.now }
    requires within { IsWithin meter.old p.now.k }
    requires positive { pos 0 <ℤ p.now.k }
    requires occurs { pos 0 <ℤ coef_at q.now column.at }
    ensures { IsDone meter.old meter.new
        (λ rest. IsReducedCongruence column.columns p.now.k rest × SayTheSame p.now q.now q.now rest
        × (coef_at rest column.at <ℤ coef_at q.now column.at)) result }
{
    let times = p
        .coefs
        .get(column.at)
        .floor_div(q.coefs.get(column.at), meter);
    let rest = combination(alloc, Int::ONE, p, times.neg(meter), q, meter)?;
    Ok(reduced_copy(alloc, &rest, meter)?)
}

// Two congruences of one modulus, so that only the first depends on the column: Euclid's algorithm on their
// coefficients.
fn merged_pair(
    alloc: Global,
    p: Row,
    q: Row,
    column: Column,
    meter: &mut Meter,
) -> Result<(Row, Row), Cut>
    requires p_reduced { IsReducedCongruence column.columns p.k p }
    requires q_reduced { IsReducedCongruence column.columns p.k q }
    requires within { IsWithin meter.old p.k }
    requires positive { pos 0 <ℤ p.k }
    ensures { IsDone meter.old meter.new (λ pair. AreMerged column.columns column.at p.k p q pair.0 pair.1) result }
{
    let mut first = p;
    let mut second = q;
    'steps: while !second.coefs.get(column.at).is_zero() {
        let rest = remainder(alloc, &first, &second, column, meter)?;
        first = second;
        second = rest;
    }
    Ok((first, second))
}

// `m` times a congruence, with its numbers reduced.
fn scaled_copy(
    alloc: Global,
    m: Int,
    row: &Row,
    columns: usize,
    meter: &mut Meter,
) -> Result<Row, Cut>
    requires m_within { IsWithin meter.old m }
    requires m_positive { pos 0 <ℤ m }
    requires kind { row.now.kind ≡ Divides }
    requires well_formed { IsWellFormed columns row.now }
    requires within { IsRowWithin meter.old row.now }
    ensures { IsDone meter.old meter.new
        (λ scaled. IsScaledTo columns (m *ℤ row.now.k) row.now scaled × IsRowWithin meter.old scaled) result }
{
    let scaled = combination(alloc, m, row, Int::ZERO, row, meter)?;
    Ok(reduced_copy(alloc, &scaled, meter)?)
}

// Two congruences as one, and what they say of the other columns.
fn joined(
    alloc: Global,
    p: &Row,
    q: &Row,
    column: Column,
    meter: &mut Meter,
) -> Result<(Row, Row), Cut>
    requires p_kind { p.now.kind ≡ Divides }
    requires q_kind { q.now.kind ≡ Divides }
    requires p_formed { IsWellFormed column.columns p.now }
    requires q_formed { IsWellFormed column.columns q.now }
    requires p_within { IsRowWithin meter.old p.now }
    requires q_within { IsRowWithin meter.old q.now }
    ensures { IsDone meter.old meter.new
        (λ pair. AreJoined column.columns column.at p.now q.now pair.0 pair.1 × IsRowWithin meter.old pair.0
        × IsRowWithin meter.old pair.1) result }
{
    let common = p.modulus().gcd(q.modulus(), meter);
    let m = q.modulus().floor_div(common, meter);
    let n = p.modulus().floor_div(common, meter);
    let first = scaled_copy(alloc, m, p, column.columns, meter)?;
    let second = scaled_copy(alloc, n, q, column.columns, meter)?;
    let pair = merged_pair(alloc, first, second, column, meter)?;
    Ok(pair)
}

/// Congruences that depend on the column as one, and what they say of the other columns.
pub(crate) fn merged(
    alloc: Global,
    rows: &[Row],
    column: Column,
    meter: &mut Meter,
) -> Result<(Row, Rows), Cut>
    requires some { 0 < length rows.now }
    requires kinds { All (λ r. r.kind ≡ Divides) rows.now }
    requires well_formed { All (IsWellFormed column.columns) rows.now }
    requires within { All (IsRowWithin meter.old) rows.now }
    ensures exact { IsDone meter.old meter.new (λ pair. AreMergedTo meter.old column.columns column.at rows.now pair.0 pair.1) result }
    ensures no_overflow { length rows.now < 2 → IsNoOverflowWith (λ pair. pair.1 ≡ []) result }
{
    let mut one = reduced_copy(alloc, &rows[0], meter)?;
    let mut others = Rows::with_capacity(alloc, rows.len() - 1)?;
    for i in 1..rows.len() {
        let (next, other) = joined(alloc, &one, &rows[i], column, meter)?;
        others.push(other)?;
        one = next;
    }
    Ok((one, others))
}

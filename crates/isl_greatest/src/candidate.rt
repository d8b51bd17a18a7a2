//! Numbers as defined columns.

ghost use Rattle.std.specs.Prelude.{◌≡◌, ◌+◌, ◌-ℤ◌, ◌+ℤ◌, ◌<ℤ◌, ◌<◌, pos, ℕ, ℤ, List, [], All, IfOk, length, MatchResult};
ghost use Rattle.isl_math.specs.Divide.{floor_div};
ghost use Rattle.isl_math.specs.Dot.{dot};
ghost use Rattle.isl_meter.specs.Gauge.{Gauge, IsCutBy, IsWithin};
ghost use Rattle.isl_piece.specs.Row.{IsRowWithin};
ghost use Rattle.isl_piece.specs.System.{free_columns};
ghost use Rattle.isl_greatest_law.specs.Case.{IsTop};
ghost use Rattle.isl_greatest.specs.Numbers.{top_number};
ghost use Rattle.isl_greatest.specs.State.{full, number, IsCandidate, IsFrame};

use isl_meter::{Cut, Int, Meter};
use isl_piece::{Coefs, Row, System};
use std::alloc::{AllocError, Global};

/// The numbers of coefficients.
pub(crate) fn numbers_of(alloc: Global, coefs: &[Int]) -> Result<Vec<i128>, AllocError>
    ensures { IfOk result (λ numbers. numbers.items ≡ coefs.now) }
{
    let mut numbers = Vec::with_capacity(alloc, coefs.len())?;
    for coef in coefs {
        numbers.push(coef.get())?;
    }
    Ok(numbers)
}

/// The columns, and one more: the form divided by `k` and rounded down.
pub(crate) fn candidate(
    alloc: Global,
    chosen: &System,
    coefs: &[i128],
    constant: i128,
    k: i128,
) -> Result<System, AllocError>
    requires columns { length coefs.now ≡ chosen.now.columns }
    requires modulus { pos 0 <ℤ k }
    ensures made { (g : Gauge) (n : ℕ) → IsFrame g n chosen.now → All (IsWithin g) coefs.now → IsWithin g constant → IsWithin g k
        → IfOk result (IsCandidate g n chosen.now) }
    ensures number { (v : List ℤ)
        → IfOk result (λ cur. number cur v ≡ floor_div (dot coefs.now (full chosen.now v) +ℤ constant) k) }
{
    let mut cur = chosen.copy(alloc)?;
    cur.define(coefs, constant, k)?;
    Ok(cur)
}

/// The columns, and any number.
pub(crate) fn any_candidate(
    alloc: Global,
    chosen: &System,
    meter: &Meter,
) -> Result<System, AllocError>
    ensures { (n : ℕ) → IsFrame meter.now n chosen.now → IfOk result (IsCandidate meter.now n chosen.now) }
{
    // For what a meter keeps: it has at least 8 bits.
    let _limit = meter.limit();
    let zeros = Coefs::zeros(alloc, chosen.columns)?;
    let coefs = numbers_of(alloc, zeros.as_slice())?;
    candidate(alloc, chosen, coefs.as_slice(), 0, 1)
}

/// The columns, and the greatest number at which a bound from above holds.
pub(crate) fn top_candidate(
    alloc: Global,
    chosen: &System,
    row: &Row,
    meter: &Meter,
) -> Result<System, AllocError>
    requires top { IsTop chosen.now.columns row.now }
    requires within { IsRowWithin meter.now row.now }
    ensures made { (n : ℕ) → IsFrame meter.now n chosen.now → IfOk result (IsCandidate meter.now n chosen.now) }
    ensures number { (v : List ℤ) → IfOk result (λ cur. number cur v ≡ top_number chosen.now.columns row.now (full chosen.now v)) }
{
    let columns = chosen.columns;
    let coefs = numbers_of(alloc, &row.coefs.as_slice()[..columns])?;
    let k = row.coefs.get(columns).neg(meter);
    candidate(alloc, chosen, coefs.as_slice(), row.constant, k.get())
}

/// The columns, and the number below that of the candidate.
pub(crate) fn below(
    alloc: Global,
    chosen: &System,
    cur: &System,
    meter: &mut Meter,
) -> Result<System, Cut>
    requires candidate { IsCandidate meter.old (free_columns chosen.now) chosen.now cur.now }
    requires chosen { IsFrame meter.old (free_columns chosen.now) chosen.now }
    ensures { MatchResult result
        (λ lower. IsCandidate meter.old (free_columns chosen.now) chosen.now lower × ((v : List ℤ) → number lower v ≡ number cur.now v -ℤ pos 1)
        × (meter.new ≡ meter.old))
        (IsCutBy meter.old meter.new) }
{
    let definition = &cur.definitions.as_slice()[chosen.defined()];
    let coefs = numbers_of(alloc, definition.coefs.as_slice())?;
    let constant = Int::new(definition.constant).sub(Int::new(definition.k), meter)?;
    let lower = candidate(
        alloc,
        chosen,
        coefs.as_slice(),
        constant.get(),
        definition.k,
    )?;
    Ok(lower)
}

//! Columns of systems one after another, from the last, as far as it is seen what each adds to the affine hull.

ghost use Rattle.std.specs.Prelude.{◌≡◌, ◌+◌, ◌-◌, ◌≤◌, ◌++◌, ◌∷◌, [], pos, ℕ, All, IfOk, OnOk, length, map, replicate};
ghost use Rattle.isl_meter.specs.Gauge.{IsMetered};
ghost use Rattle.isl_span.specs.Chain.{IsChainOf, IsPlainChain, IsPushed, padded};
ghost use Rattle.isl_piece.specs.declared.system.System.{System};
ghost use Rattle.isl_ledger.specs.Answered.{IsTame};
ghost use Rattle.isl_span.specs.Points.{IsOver};
ghost use Rattle.isl_span.specs.Work.{IsEnded, hull_units};

use crate::last::link_of;
use crate::link::Link;
use isl_elim::eliminate;
use isl_meter::{Cut, Int, Meter};
use isl_piece::{Row, Rows, System};
use std::alloc::{AllocError, Global};

/// Equations over all columns, and systems over the first columns, from whose affine hulls comes that of others.
#[derive(Drop)]
pub(crate) struct Chain {
    pub rows: Rows,
    pub first: usize,
    pub left: Vec<System>,
}

// The row over so many columns.
fn padded(alloc: Global, row: &Row, columns: usize) -> Result<Row, AllocError>
    ensures { IfOk result (λ wide. wide ≡ padded columns row.now) }
{
    let mut coefs = row.coefs.copy(alloc)?;
    let missing = columns.saturating_sub(coefs.len());
    for _column in 0..missing {
        coefs.push(Int::ZERO)?;
    }
    Ok(Row::new(row.kind, coefs, row.constant(), row.modulus()))
}

// Puts what is seen of a column behind the rows, over so many columns. Whether anything is.
fn push_link(alloc: Global, rows: &mut Rows, link: Link, columns: usize) -> Result<bool, AllocError>
    ensures { IfOk result (IsPushed columns link rows.old rows.new) }
{
    match link {
        Link::Equation(row) => {
            rows.push(padded(alloc, &row, columns)?)?;
            Ok(true)
        }
        Link::Free => Ok(true),
        Link::Unknown => Ok(false),
    }
}

/// Puts the other rows behind the rows, over so many columns.
///
/// # Errors
///
/// Where memory ends.
pub(crate) fn push_padded(
    alloc: Global,
    rows: &mut Rows,
    others: &[Row],
    columns: usize,
) -> Result<(), AllocError>
    ensures { OnOk result (rows.new ≡ rows.old ++ map (padded columns) others.now) }
{
    for other in others {
        rows.push(padded(alloc, other, columns)?)?;
    }
    Ok(())
}

/// The systems without their last columns, as far as it is seen what each of these adds to the affine hull, and the equations that they
/// add.
///
/// # Errors
///
/// `Overflow` where a number passes the limit of the meter, `Budget` where its units are used up, and `NoMemory`.
#[tactic(auto, using(std::proofs::lemmas::Grind::common_steps, isl_meter::proofs::CutLemmas::charges))]
pub(crate) fn chain_of(
    alloc: Global,
    systems: Vec<System>,
    columns: usize,
    meter: &mut Meter,
) -> Result<Chain, Cut>
    requires { All (IsOver meter.old columns) systems.items }
    ensures exact { IfOk result (λ chain. IsChainOf meter.old columns systems.items chain.rows chain.first chain.left.items) }
    ensures far { IfOk result (λ chain. (bits : ℕ) (s : System) → chain.left.items ≡ s ∷ []
        → IsPlainChain chain.first bits s → chain.first ≡ 0) }
    ensures meter { IsMetered meter.old meter.new result }
    ensures tame { (bits : ℕ) (s : System) → meter.old.bits ≡ 127 → bits + 1 + columns ≤ 120 → systems.items ≡ s ∷ []
        → IsPlainChain columns bits s
        → IsTame (hull_units columns) meter.old meter.new (λ chain. IsEnded (bits + columns) chain.first chain.left.items) result }
{
    let mut rows = Rows::new(alloc);
    let mut first = columns;
    let mut left = systems;
    while first > 0 {
        let link = link_of(alloc, left.as_slice(), first - 1, meter)?;
        let seen = push_link(alloc, &mut rows, link, columns)?;
        if !seen {
            return Ok(Chain { rows, first, left });
        }
        first -= 1;
        left = eliminate(alloc, &left[0], first, meter)?;
    }
    Ok(Chain { rows, first, left })
}

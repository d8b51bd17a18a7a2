//! The systems of a case, and the calls on them.

ghost use Rattle.std.specs.Prelude.{All, IfOk, IfSome};
ghost use Rattle.tests_proofs.specs.Question.{ArePlain, IsPlain};

use isl_cert::{Cert, cert_text, certify, check};
use isl_meter::{Cut, Meter};
use isl_piece::{Row, RowKind, Rows, System};
use std::alloc::{AllocError, Global};
use tests_made::{are_proper, number, rows_of};

// The system of the rows, if they are over so many columns.
fn plain(alloc: Global, rows: Rows, columns: usize, meter: &Meter) -> Option<System>
    ensures { IfSome result (IsPlain meter.now columns) }
{
    if !are_proper(rows.as_slice(), columns, meter) {
        return None;
    }
    Some(System::from_rows(alloc, columns, rows))
}

/// How many parts each out of a case asks for.
pub(crate) fn counts_of(alloc: Global, case: &str) -> Result<Vec<usize>, AllocError> {
    let mut counts = Vec::new(alloc);
    for key in ["out0 ", "out1 "] {
        let rows = rows_of(alloc, case, key)?;
        let twice = |row: &&Row| row.kind == RowKind::Zero;
        let zeros = rows.as_slice().iter().filter(twice).count();
        counts.push(rows.len().saturating_add(zeros))?;
    }
    Ok(counts)
}

// The outs of a case.
fn outs_of(
    alloc: Global,
    case: &str,
    columns: usize,
    meter: &Meter,
) -> Result<Option<Vec<System>>, AllocError>
    ensures { IfOk result (λ found. IfSome found (λ outs. All (IsPlain meter.now columns) outs.items)) }
{
    let mut outs = Vec::new(alloc);
    for at in 0..number(case, "outs ", 0) {
        let key = if at == 0 { "out0 " } else { "out1 " };
        let Some(out) = plain(alloc, rows_of(alloc, case, key)?, columns, meter) else {
            return Ok(None);
        };
        outs.push(out)?;
    }
    Ok(Some(outs))
}

// The system of a case, and its outs.
fn systems_of(
    alloc: Global,
    case: &str,
    meter: &Meter,
) -> Result<Option<(System, Vec<System>)>, AllocError>
    ensures { IfOk result (λ found. IfSome found (λ both. ArePlain meter.now both.0 both.1.items)) }
{
    let columns = number(case, "columns ", 1);
    let Some(system) = plain(alloc, rows_of(alloc, case, "row ")?, columns, meter) else {
        return Ok(None);
    };
    let Some(outs) = outs_of(alloc, case, system.columns, meter)? else {
        return Ok(None);
    };
    Ok(Some((system, outs)))
}

/// Whether the proof is one of the case.
pub(crate) fn checked(alloc: Global, case: &str, cert: &Cert) -> Result<Option<bool>, Cut> {
    let mut meter = Meter::new(127, 10_000_000);
    match systems_of(alloc, case, &meter)? {
        Some((system, outs)) => Ok(Some(check(alloc, &system, outs.as_slice(), cert, &mut meter)?)),
        None => Ok(None),
    }
}

/// The text of a proof of the case, where no point is left.
pub(crate) fn told(alloc: Global, case: &str) -> Result<Option<String>, Cut> {
    let mut meter = Meter::new(127, 10_000_000);
    let Some((system, outs)) = systems_of(alloc, case, &meter)? else {
        return Err(Cut::Budget);
    };
    match certify(alloc, &system, outs.as_slice(), &mut meter)? {
        Some(cert) => Ok(Some(cert_text(alloc, &cert)?)),
        None => Ok(None),
    }
}

//! Groups of bounds without those that say nothing more.

ghost use Rattle.std.specs.Prelude.{◌≡◌, ◌↔◌, ◌<◌, ◌++◌, All, Any, IfOk, IsTrue, List, length, slice_index_or};
ghost use Rattle.std.specs.List.{remove};
ghost use Rattle.isl_meter.specs.Gauge.{IsMetered};
ghost use Rattle.isl_piece.specs.declared.row.Row.{Row};
ghost use Rattle.isl_frame.specs.Needed.{AreKnown, AreRowsOver};
ghost use Rattle.isl_bounds.specs.Pruned.{AreFewer, IsBareGroup, IsBeaten, NoneIsBeaten};

use isl_frame::{are_known, needed};
use isl_meter::{Cut, Meter};
use isl_piece::Rows;
use std::alloc::{AllocError, Global};

// The rows of both.
fn joined(alloc: Global, rows: &Rows, others: &Rows) -> Result<Rows, AllocError>
    ensures { IfOk result (λ made. made ≡ rows.now ++ others.now) }
{
    let mut made = rows.copy(alloc)?;
    made.append(alloc, others)?;
    Ok(made)
}

// Whether some other group holds wherever the context and the group at `at` do.
fn is_beaten(
    alloc: Global,
    context: &Rows,
    groups: &[Rows],
    at: usize,
    columns: usize,
    meter: &mut Meter,
) -> Result<bool, Cut>
    requires context { AreRowsOver meter.old columns context.now }
    requires groups { All (AreRowsOver meter.old columns) groups.now }
    requires inside { at < length groups.now }
    ensures beaten { IfOk result (λ beaten. IsTrue beaten ↔ IsBeaten columns context.now groups.now at) }
    ensures meter { IsMetered meter.old meter.new result }
{
    let here = joined(alloc, context, &groups[at])?;
    for i in 0..groups.len() {
        if i == at {
            continue;
        }
        if are_known(alloc, &here, &groups[i], columns, meter)? {
            return Ok(true);
        }
    }
    Ok(false)
}

// Leaves the group at `at` out.
fn drop_group(groups: &mut Vec<Rows>, at: usize)
    requires { at < length groups.old.items }
    ensures { groups.new.items ≡ remove groups.old.items at }
{
    groups.remove(at);
}

// Of each group what says something where the context holds, one row at least of a group that has one.
fn pruned_each(
    alloc: Global,
    context: &Rows,
    groups: &[Rows],
    columns: usize,
    meter: &mut Meter,
) -> Result<Vec<Rows>, Cut>
    requires context { AreRowsOver meter.old columns context.now }
    requires groups { All (AreRowsOver meter.old columns) groups.now }
    ensures exact { IfOk result (λ kept. AreFewer columns context.now groups.now kept.items) }
    ensures bare { IfOk result (λ kept. All (IsBareGroup columns context.now) kept.items) }
    ensures meter { IsMetered meter.old meter.new result }
{
    let mut kept = Vec::with_capacity(alloc, groups.len())?;
    for rows in groups {
        let own = rows.copy(alloc)?;
        kept.push(needed(alloc, context, own, 1, columns, meter)?)?;
    }
    Ok(kept)
}

/// The groups without rows, and without groups, that say nothing more where the context holds. Of groups that have rows one at least is
/// left, with one row at least. No group that is left holds wherever the context and another one do, and of several rows in it none holds
/// wherever the context and the others do.
///
/// # Errors
///
/// `Overflow` where a number passes the limit of the meter, `Budget` where its units are used up, and `NoMemory`.
pub fn pruned(
    alloc: Global,
    context: &Rows,
    groups: &[Rows],
    columns: usize,
    meter: &mut Meter,
) -> Result<Vec<Rows>, Cut>
    requires context { AreRowsOver meter.old columns context.now }
    requires groups { All (AreRowsOver meter.old columns) groups.now }
    ensures exact { IfOk result (λ kept. AreFewer columns context.now groups.now kept.items) }
    ensures none_beaten { IfOk result (λ kept. NoneIsBeaten columns context.now kept.items) }
    ensures bare { IfOk result (λ kept. All (IsBareGroup columns context.now) kept.items) }
    ensures meter { IsMetered meter.old meter.new result }
{
    let mut kept = pruned_each(alloc, context, groups, columns, meter)?;
    let mut at = kept.len();
    while at > 0 && kept.len() > 1 {
        at -= 1;
        if is_beaten(alloc, context, kept.as_slice(), at, columns, meter)? {
            drop_group(&mut kept, at);
        }
    }
    Ok(kept)
}

//! Nests of loops.

ghost use Rattle.std.specs.Prelude.{◌≡◌, ◌≢◌, ◌<◌, ◌≤◌, ◌+◌, ◌^◌, ◌∷◌, ◌++◌, ◌<ℤ◌, pos, ℕ, suc, ℤ, List, [], All, IfOk, length};
ghost use Rattle.std.specs.List.{sum_by};
ghost use Rattle.isl_meter.specs.Gauge.{Gauge, IsWithin};
ghost use Rattle.isl_piece.specs.Row.{coef_at};
ghost use Rattle.isl_loop.specs.Formed.{IsExprOver, IsLoopOver};
ghost use Rattle.isl_loop.specs.Printable.{IsPrintable};
ghost use Rattle.isl_loop.specs.Run.{each_in, idle_of, idle_turn, trace, turns_of};
ghost use Rattle.isl_nest.specs.Around.{turns_at};
ghost use Rattle.isl_nest.specs.Changing.{asked_first, AsksWhatChanges};
ghost use Rattle.isl_loop.specs.Depth.{depth_of};

use crate::around::Around;
use crate::guards::{Opened, Parted, under};
use crate::sides::joined;
use isl_bounds::Head;
use isl_loop::Loop;
use isl_piece::Rows;
use sqlite_items::Boxed;
use std::alloc::{AllocError, Global};

/// A tree under rows, and rows that the variable of its loop meets at each turn, where it is one.
#[derive(Drop)]
pub struct Nested {
    pub rows: Rows,
    pub tree: Loop,
    pub inside: Rows,
}

// The loop over the head, whatever its body asks.
fn looped(alloc: Global, head: Head, body: Loop) -> Result<Loop, AllocError>
    ensures trace { (point : List ℤ) → IfOk result (λ made. trace made point ≡ each_in (λ x. trace body (point ++ x ∷ []))
        (turns_at head point)) }
    ensures over { (g : Gauge) (n : ℕ) → IsExprOver g n head.low → IsExprOver g n head.high → pos 0 <ℤ head.step → IsWithin g head.step
        → IsLoopOver g (n + 1) body → IfOk result (IsLoopOver g n) }
    ensures turned { (point : List ℤ) → IfOk result (λ made. turns_of made point
        ≡ sum_by (λ x. 1 + turns_of body (point ++ x ∷ [])) (turns_at head point)) }
    ensures idle { (point : List ℤ) → IfOk result (λ made. idle_of made point
        ≡ sum_by (λ x. idle_turn (trace body (point ++ x ∷ [])) + idle_of body (point ++ x ∷ [])) (turns_at head point)) }
    ensures depth { IfOk result (λ made. depth_of made ≡ suc (depth_of body)) }
    ensures changing { (n : ℕ) → All (λ r. coef_at r n ≢ pos 0) (asked_first body) → AsksWhatChanges (n + 1) body
        → IfOk result (AsksWhatChanges n) }
    ensures printable { (n : ℕ) → n + 1 < 2 ^ 64 → IsPrintable (n + 1) body → IfOk result (IsPrintable n) }
{
    let Head { low, high, step } = head;
    Ok(Loop::For(low, high, step, Boxed::new(alloc, body)?))
}

/// The loop over the head, where so many variables are in scope; what the body asks first and its variable has no part in, is asked in
/// front of the loop.
///
/// # Errors
///
/// Where memory ends.
pub fn for_loop(alloc: Global, variables: usize, head: Head, body: Loop) -> Result<Loop, AllocError>
    ensures trace { (point : List ℤ) → length point ≡ variables → IfOk result (λ made. trace made point
        ≡ each_in (λ x. trace body (point ++ x ∷ [])) (turns_at head point)) }
    ensures none { (point : List ℤ) → turns_at head point ≡ [] → IfOk result (λ made. trace made point ≡ []) }
    ensures over { (g : Gauge) → IsExprOver g variables head.low → IsExprOver g variables head.high → pos 0 <ℤ head.step
        → IsWithin g head.step → IsLoopOver g (variables + 1) body → IfOk result (IsLoopOver g variables) }
    ensures turned { (point : List ℤ) → length point ≡ variables → IfOk result (λ made. turns_of made point
        ≤ sum_by (λ x. 1 + turns_of body (point ++ x ∷ [])) (turns_at head point)) }
    ensures idle { (point : List ℤ) → length point ≡ variables → IfOk result (λ made. idle_of made point
        ≤ sum_by (λ x. idle_turn (trace body (point ++ x ∷ [])) + idle_of body (point ++ x ∷ [])) (turns_at head point)) }
    ensures depth { IfOk result (λ made. depth_of made ≡ suc (depth_of body)) }
    ensures changing { AsksWhatChanges (variables + 1) body → IfOk result (AsksWhatChanges variables) }
    ensures printable { variables + 1 < 2 ^ 64 → IsPrintable (variables + 1) body → IfOk result (IsPrintable variables) }
{
    let opened = Opened::of(alloc, body);
    let parted = Parted::of(alloc, &opened.rows, variables)?;
    let inner = under(alloc, parted.inside, opened.tree)?;
    let made = looped(alloc, head, inner)?;
    under(alloc, parted.outside, made)
}

impl Nested {
    ghost use Rattle.isl_nest.specs.Around.{IsAroundOver};
    ghost use Rattle.isl_nest.specs.LoopedNest.{IsLoopedNest};
    ghost use Rattle.isl_nest.specs.Nest.{IsNestOver};

    // A call alone.
    pub(crate) fn of_call(alloc: Global, call: Loop) -> Nested
        ensures { result ≡ record { rows = []; tree = call; inside = [] } }
    {
        Nested {
            rows: Rows::new(alloc),
            tree: call,
            inside: Rows::new(alloc),
        }
    }

    // The nest with more rows in front of its own.
    pub(crate) fn behind(self, alloc: Global, rows: &Rows) -> Result<Nested, AllocError>
        ensures { IfOk result (λ nested. nested ≡ record { rows = rows.now ++ self.rows; tree = self.tree; inside = self.inside }) }
    {
        Ok(Nested {
            rows: joined(alloc, rows, &self.rows)?,
            tree: self.tree,
            inside: self.inside,
        })
    }

    // The loop in which the body runs where the guards and its rows hold, where so many variables are in scope.
    pub(crate) fn of_loop(
        alloc: Global,
        variables: usize,
        around: Around,
        body: Nested,
    ) -> Result<Nested, AllocError>
        ensures nested { IfOk result (IsLoopedNest variables around body) }
        ensures over { (g : Gauge) → IsAroundOver g variables around → IsNestOver g (variables + 1) body
            → IfOk result (IsNestOver g variables) }
        ensures changing { AsksWhatChanges (variables + 1) body.tree → IfOk result (λ nested. AsksWhatChanges variables nested.tree) }
        ensures printable { variables + 1 < 2 ^ 64 → IsPrintable (variables + 1) body.tree
            → IfOk result (λ nested. IsPrintable variables nested.tree) }
    {
        let Around {
            head,
            inside,
            guards,
        } = around;
        let rows = joined(alloc, &guards, &body.rows)?;
        let tree = under(alloc, rows, body.tree)?;
        Ok(Nested {
            rows: Rows::new(alloc),
            tree: for_loop(alloc, variables, head, tree)?,
            inside,
        })
    }
}

//! Sorted lists of points put together.

ghost use Rattle.std.specs.Prelude.{◌≡◌, ◌+◌, ◌-◌, ◌<◌, ◌^◌, ◌⊎◌, All, IfOk, length};
ghost use Rattle.isl_scan.specs.Merged.{merged_points, IsMerging, IsNextOf};

use isl_points::Points;
use std::alloc::{AllocError, Global};
use std::cmp::Ordering;

// The numbers of merged points, and the places at which what is left of both lists begins.
#[derive(Drop)]
struct Merging {
    numbers: Vec<i128>,
    count: usize,
    first: usize,
    second: usize,
}

// Whether the point at the first place comes next, that at the second, or that at both.
fn order_at(firsts: &Points, first: usize, seconds: &Points, second: usize) -> Ordering
    requires { (first < length firsts.now) ⊎ (second < length seconds.now) }
    ensures { IsNextOf result firsts.now first seconds.now second }
{
    if first >= firsts.len() {
        return Ordering::Greater;
    }
    if second >= seconds.len() {
        return Ordering::Less;
    }
    firsts.get(first).cmp(seconds.get(second))
}

// Puts the next point behind the others.
fn push_next(firsts: &Points, seconds: &Points, merging: Merging) -> Result<Merging, AllocError>
    requires few { length firsts.now + length seconds.now < 2 ^ 64 }
    requires left { (merging.first < length firsts.now) ⊎ (merging.second < length seconds.now) }
    requires merging { IsMerging firsts.now seconds.now merging.numbers.items merging.count merging.first merging.second }
    ensures merging { IfOk result (λ next. IsMerging firsts.now seconds.now next.numbers.items next.count next.first next.second) }
    ensures fewer { IfOk result (λ next. (length firsts.now - next.first) + (length seconds.now - next.second)
        < (length firsts.now - merging.first) + (length seconds.now - merging.second)) }
{
    let Merging {
        mut numbers,
        count,
        first,
        second,
    } = merging;
    match order_at(firsts, first, seconds, second) {
        Ordering::Less => {
            numbers.extend_from_slice(firsts.get(first))?;
            Ok(Merging {
                numbers,
                count: count + 1,
                first: first + 1,
                second,
            })
        }
        Ordering::Equal => {
            numbers.extend_from_slice(firsts.get(first))?;
            Ok(Merging {
                numbers,
                count: count + 1,
                first: first + 1,
                second: second + 1,
            })
        }
        Ordering::Greater => {
            numbers.extend_from_slice(seconds.get(second))?;
            Ok(Merging {
                numbers,
                count: count + 1,
                first,
                second: second + 1,
            })
        }
    }
}

/// The points of both lists in order, each once, where each list is in order. All have this width.
///
/// # Errors
///
/// Where memory ends.
pub(crate) fn merged(
    alloc: Global,
    firsts: &Points,
    seconds: &Points,
    width: usize,
) -> Result<Points, AllocError>
    requires few { length firsts.now + length seconds.now < 2 ^ 64 }
    requires firsts { All (λ point. length point ≡ width) firsts.now }
    requires seconds { All (λ point. length point ≡ width) seconds.now }
    ensures { IfOk result (λ points. points ≡ merged_points firsts.now seconds.now) }
{
    let mut merging = Merging {
        numbers: Vec::new(alloc),
        count: 0,
        first: 0,
        second: 0,
    };
    while merging.first < firsts.len() || merging.second < seconds.len() {
        merging = push_next(firsts, seconds, merging)?;
    }
    Ok(Points::of(width, merging.count, merging.numbers))
}

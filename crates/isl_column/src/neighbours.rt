//! How many whole numbers in a row are surely enough, so that all rows that moduli must not divide are met at one of them. (Jacobsthal's
//! function, for any periods)

ghost use Rattle.std.specs.Prelude.{◌≡◌, ◌≢◌, ◌<◌, ◌≤◌, ◌≤ℤ◌, ◌<ℤ◌, pos, [], All, Any, filter, length, map, IfOk, IfSome, IsTrue, MatchOption, unsigned_abs};
ghost use Rattle.std.specs.Ordering.{int_eq};
ghost use Rattle.isl_math.specs.Divide.{floor_mod};
ghost use Rattle.isl_meter.specs.Gauge.{IsWithin};
ghost use Rattle.isl_omega.specs.Congruence.{product_of_periods};
ghost use Rattle.isl_omega.specs.Sides.{IsNotDivides};
ghost use Rattle.isl_shadows.specs.Neighbours.{IsMetWithin, AreMetAmong, Has, others_than};
ghost use Rattle.isl_column.specs.Neighbours.{ArePushed};

use crate::residue::period_of;
use isl_meter::{Int, Meter};
use isl_omega::column::Column;
use isl_piece::Row;
use std::alloc::{AllocError, Global};

// The longest row of numbers that is looked at.
const LONGEST: usize = 64;

// How many choices of residues are looked at, for all rows of numbers together.
const CHOICES: usize = 1000;

// The numbers that the residues chosen for the periods of the first `level` rows leave.
#[derive(Drop)]
struct Choice {
    numbers: Vec<Int>,
    level: usize,
}

// The numbers that do not leave what another one does when divided by the period.
#[tactic(auto, using(std::proofs::lemmas::Grind::common_steps, std::proofs::lemmas::List::Elements::filter_more))]
fn others_than(
    alloc: Global,
    numbers: &[Int],
    number: Int,
    period: Int,
    meter: &Meter,
) -> Result<Vec<Int>, AllocError>
    requires period { pos 0 <ℤ period }
    requires within { IsWithin meter.now period }
    ensures { IfOk result (λ others. others.items ≡ others_than period number numbers.now) }
{
    let rest = number.modulo(period, meter);
    let mut others = Vec::with_capacity(alloc, numbers.len())?;
    for other in numbers {
        if other.modulo(period, meter) != rest {
            others.push(*other)?;
        }
    }
    Ok(others)
}

// Whether one of the numbers leaves what this one does when divided by the period.
fn is_alike(numbers: &[Int], number: Int, period: Int, meter: &Meter) -> bool
    requires period { pos 0 <ℤ period }
    requires within { IsWithin meter.now period }
    ensures { IsTrue result → Any (λ n. floor_mod n period ≡ floor_mod number period) numbers.now }
{
    let rest = number.modulo(period, meter);
    for other in numbers {
        if other.modulo(period, meter) == rest {
            return true;
        }
    }
    false
}

// Pushes what each residue that some number has leaves of the numbers.
fn push_choices(
    alloc: Global,
    numbers: &[Int],
    level: usize,
    period: Int,
    choices: &mut Vec<Choice>,
    meter: &Meter,
) -> Result<(), AllocError>
    requires period { pos 0 <ℤ period }
    requires within { IsWithin meter.now period }
    ensures { IfOk result (λ _. ArePushed period level numbers.now choices.old.items choices.new.items) }
{
    for i in 0..numbers.len() {
        let number = numbers[i];
        if is_alike(&numbers[..i], number, period, meter) {
            continue;
        }
        let others = others_than(alloc, numbers, number, period, meter)?;
        choices.push(Choice {
            numbers: others,
            level,
        })?;
    }
    Ok(())
}

// What each of the numbers leaves when divided by the period.
#[tactic(auto, using(std::proofs::lemmas::Grind::common_steps, std::proofs::lemmas::List::map_more))]
fn rests_of(
    alloc: Global,
    numbers: &[Int],
    period: Int,
    meter: &Meter,
) -> Result<Vec<Int>, AllocError>
    requires period { pos 0 <ℤ period }
    requires within { IsWithin meter.now period }
    ensures { IfOk result (λ rests. rests.items ≡ map (λ n. floor_mod n period) numbers.now) }
{
    let mut rests = Vec::with_capacity(alloc, numbers.len())?;
    for number in numbers {
        rests.push(number.modulo(period, meter))?;
    }
    Ok(rests)
}

// How often the number stands there.
#[tactic(auto, using(std::proofs::lemmas::Grind::common_steps, std::proofs::lemmas::List::Elements::filter_more))]
fn count_of(numbers: &[Int], number: Int) -> usize
    ensures { result ≡ length (filter (λ n. int_eq n number) numbers.now) }
{
    let mut count = 0;
    for other in numbers {
        if *other == number {
            count += 1;
        }
    }
    count
}

// So often that no number stands there more often.
fn most_alike(numbers: &[Int]) -> usize
    ensures { All (λ m. length (filter (λ n. int_eq n m) numbers.now) ≤ result) numbers.now }
{
    let mut most = 0;
    for number in numbers {
        most = most.max(count_of(numbers, *number));
    }
    most
}

// Whether more numbers are there than all the rows can take, each one class for its period.
fn leaves_one(
    alloc: Global,
    numbers: &[Int],
    rows: &[Row],
    column: Column,
    meter: &Meter,
) -> Result<bool, AllocError>
    requires not_divides { All (IsNotDivides meter.now column.columns column.at) rows.now }
    ensures { IfOk result (λ leaves. IsTrue leaves → AreMetAmong column.columns column.at rows.now numbers.now) }
{
    let mut left = numbers.len();
    for row in rows {
        let period = period_of(row, column, meter);
        let rests = rests_of(alloc, numbers, period, meter)?;
        let most = most_alike(rests.as_slice());
        if left <= most {
            return Ok(false);
        }
        left -= most;
    }
    Ok(left > 0)
}

// What a search for a number that is left tells.
#[derive(Drop)]
enum Search {
    Met,
    Missed { room: usize },
    Stopped,
}

// Whether of the numbers, counted from any whole number at the column, one meets the rows: some number is left whichever residue is taken
// away for the period of each row. At most `room` choices are looked at; where one leaves none, the room that is left is told.
fn are_met(
    alloc: Global,
    numbers: Vec<Int>,
    rows: &[Row],
    room: usize,
    column: Column,
    meter: &Meter,
) -> Result<Search, AllocError>
    requires not_divides { All (IsNotDivides meter.now column.columns column.at) rows.now }
    ensures { IfOk result (λ search. search ≡ Search.Met → AreMetAmong column.columns column.at rows.now numbers.items) }
{
    let mut choices = Vec::new(alloc);
    choices.push(Choice { numbers, level: 0 })?;
    for used in 0..room {
        let Some(choice) = choices.pop() else {
            return Ok(Search::Met);
        };
        if choice.numbers.is_empty() {
            return Ok(Search::Missed { room: room - used });
        }
        let left = choice.numbers.as_slice();
        if choice.level < rows.len() {
            let leaves = leaves_one(alloc, left, &rows[choice.level..], column, meter)?;
            if !leaves {
                let period = period_of(&rows[choice.level], column, meter);
                push_choices(alloc, left, choice.level + 1, period, &mut choices, meter)?;
            }
        }
    }
    Ok(Search::Stopped)
}

// The first whole numbers from 0 on.
fn first_numbers(alloc: Global, count: usize) -> Result<Vec<Int>, AllocError>
    ensures { IfOk result (λ numbers. All (λ n. (pos 0 ≤ℤ n) × (n <ℤ pos count)) numbers.items) }
{
    let mut numbers = Vec::new(alloc);
    for number in 0..count {
        numbers.push(Int::new(number as i128))?;
    }
    Ok(numbers)
}

// Whether the product of the periods of the rows is above the number.
fn is_below_periods(number: Int, rows: &[Row], column: Column, meter: &Meter) -> bool
    requires not_divides { All (IsNotDivides meter.now column.columns column.at) rows.now }
    ensures { IsTrue result → number <ℤ product_of_periods column.at rows.now }
{
    let mut left = number;
    for row in rows {
        let period = period_of(row, column, meter);
        left = Int::new(left.get().div_euclid(period.get()));
    }
    left.is_zero()
}

// Before which row, of those in the order of their periods, one of the period stands.
fn place_of(rows: &[Row], period: Int, column: Column, meter: &Meter) -> usize
    requires not_divides { All (IsNotDivides meter.now column.columns column.at) rows.now }
    ensures { result ≤ length rows.now }
{
    for i in 0..rows.len() {
        if period < period_of(&rows[i], column, meter) {
            return i;
        }
    }
    rows.len()
}

// The rows, those of the least period first, which leave the fewest choices.
fn by_period(
    alloc: Global,
    rows: &[Row],
    column: Column,
    meter: &Meter,
) -> Result<Vec<Row>, AllocError>
    requires not_divides { All (IsNotDivides meter.now column.columns column.at) rows.now }
    ensures not_divides { IfOk result (λ ordered. All (IsNotDivides meter.now column.columns column.at) ordered.items) }
    ensures all { IfOk result (λ ordered. All (Has ordered.items) rows.now) }
{
    let mut ordered = Vec::with_capacity(alloc, rows.len())?;
    for row in rows {
        let period = period_of(row, column, meter);
        let place = place_of(ordered.as_slice(), period, column, meter);
        ordered.insert(place, row.copy(alloc)?)?;
    }
    Ok(ordered)
}

// How many behind one are enough for several rows. As many numbers as rows, or fewer, are taken by one row each.
fn neighbours_for(
    alloc: Global,
    rows: &[Row],
    column: Column,
    meter: &Meter,
) -> Result<Option<Int>, AllocError>
    requires not_divides { All (IsNotDivides meter.now column.columns column.at) rows.now }
    ensures met { IfOk result (λ found. IfSome found (IsMetWithin column.columns column.at rows.now)) }
    ensures few { IfOk result (λ found. IfSome found (λ neighbours. neighbours <ℤ product_of_periods column.at rows.now)) }
{
    let ordered = by_period(alloc, rows, column, meter)?;
    let mut room = CHOICES;
    for last in rows.len()..LONGEST {
        let neighbours = Int::new(last as i128);
        if !is_below_periods(neighbours, rows, column, meter) {
            return Ok(None);
        }
        let numbers = first_numbers(alloc, last + 1)?;
        match are_met(alloc, numbers, ordered.as_slice(), room, column, meter)? {
            Search::Met => return Ok(Some(neighbours)),
            Search::Missed { room: left } => room = left,
            Search::Stopped => return Ok(None),
        }
    }
    Ok(None)
}

/// So many that of a whole number at the column and so many behind it at least one meets the rows, whatever the numbers at the other
/// columns are; none where that is not seen. It is below the product of the rows' periods, and at most 1 for a row alone.
///
/// # Errors
///
/// `AllocError` where memory ends.
pub(crate) fn neighbours_of(
    alloc: Global,
    rows: &[Row],
    column: Column,
    meter: &Meter,
) -> Result<Option<Int>, AllocError>
    requires not_divides { All (IsNotDivides meter.now column.columns column.at) rows.now }
    ensures met { IfOk result (λ found. IfSome found (IsMetWithin column.columns column.at rows.now)) }
    ensures few { IfOk result (λ found. IfSome found (λ neighbours. neighbours <ℤ product_of_periods column.at rows.now)) }
    ensures one { length rows.now < 2 → IfOk result (λ found. MatchOption found ⊥ (λ neighbours. unsigned_abs neighbours ≤ 1)) }
{
    if rows.is_empty() {
        return Ok(Some(Int::ZERO));
    }
    if rows.len() == 1 {
        return Ok(Some(Int::ONE));
    }
    neighbours_for(alloc, rows, column, meter)
}

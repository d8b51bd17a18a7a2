//! Rows as they are added up.

ghost use Rattle.std.specs.Prelude.{◌≡◌, All, IfSome, Some, [], ◌∷◌, ◌⊎◌, ◌<◌, ◌≤◌, ◌+◌, ◌+ℤ◌, ◌++◌, ℕ, pos, length, map, take, replicate};
ghost use Rattle.std.specs.Prelude.{slice_index_or, MatchResult};
ghost use Rattle.isl_meter.specs.Gauge.{IsWithin, overflown};
ghost use Rattle.isl_piece.specs.Row.{IsRowWithin};
ghost use Rattle.isl_tree.specs.Term.{product_of};
ghost use Rattle.isl_plain.specs.Linear.{amount_of, amounts_of, signed_product, turned};
ghost use Rattle.isl_plain.specs.Linear.{with_amount, with_amounts, numbers_of, is_negative};
ghost use Rattle.isl_plain.specs.Linear.{part_name, named_place, one_less, multiplied_out, difference};
ghost use Rattle.isl_plain.specs.Rows.{amounts_in};
ghost use Rattle.isl_plain.specs.Passes.{ProductPasses, PartsPass, SumPasses, DifferencePasses, FailsBy};
ghost use Rattle.isl_plain.specs.Code.{written_of};
ghost use Rattle.isl_plain.specs.Width.{width_of, place_in, PassesIn};
ghost use Rattle.isl_plain.specs.Outcome.{SumsUp, MakesRow, PutsRows};

use crate::brackets::{is_taken, multiplied_out};
use crate::places::{Places, part_name};
use crate::written::Written;
use isl_meter::{Cut, Int, Meter, Overflow};
use isl_piece::{Coefs, Row, RowKind, Rows};
use isl_tree::tree::Signed;
use std::alloc::Global;

// The product of numbers, from the left.
#[tactic(auto, using(std::proofs::lemmas::Grind::common_steps, crate::proofs::PassLaws::products))]
fn product(numbers: &[i128], meter: &mut Meter) -> Result<Int, Overflow>
    ensures { MatchResult result
        (λ v. (v ≡ product_of numbers.now) × (meter.new ≡ meter.old))
        (λ _. ProductPasses meter.old numbers.now × (meter.new ≡ overflown meter.old)) }
{
    let mut product = Int::ONE;
    for i in 0..numbers.len() {
        product = product.mul(Int::new(numbers[i]), meter)?;
    }
    Ok(product)
}

// Adds an amount at a place, or takes it away.
#[tactic(auto, using(std::proofs::lemmas::Grind::common_steps, crate::proofs::PassLaws::within_set))]
fn add_amount(
    row: &mut Coefs,
    at: usize,
    amount: Int,
    takes: bool,
    meter: &mut Meter,
) -> Result<(), Overflow>
    requires inside { at < length row.old }
    requires within { All (IsWithin meter.old) row.old }
    ensures { SumsUp meter.old meter.new row.new (with_amount row.old (turned takes (at, amount)))
        (SumPasses meter.old row.old (turned takes (at, amount) ∷ [])) result }
{
    let had = row.get(at);
    let sum = if takes {
        had.sub(amount, meter)?
    } else {
        had.add(amount, meter)?
    };
    row.set(at, sum);
    Ok(())
}

fn numbers(part: &Signed) -> &[i128]
    ensures { result.now ≡ numbers_of part.now }
{
    part.product.numbers.as_slice()
}

fn is_negative(part: &Signed) -> bool
    ensures { result ≡ is_negative part.now }
{
    part.negative
}

// The column of a part of a term: that of its name, or the last place for a number.
fn part_place(part: &Signed, places: &Places<'_>) -> usize
    ensures place { result ≡ named_place (place_in places.now) (width_of places.now) (part_name part.now) }
    ensures inside { result ≤ width_of places.now }
{
    let constant = places.width();
    match part_name(part) {
        Some(name) => match places.column(name) {
            Some(at) => at,
            None => constant,
        },
        None => constant,
    }
}

// Adds a part of a term, or takes it away.
#[tactic(auto, using(std::proofs::lemmas::Grind::common_steps, crate::proofs::PassLaws::one_part))]
fn add_part(
    row: &mut Coefs,
    part: &Signed,
    places: &Places<'_>,
    takes: bool,
    meter: &mut Meter,
) -> Result<(), Overflow>
    requires width { length row.old ≡ width_of places.now + 1 }
    requires within { All (IsWithin meter.old) row.old }
    ensures { let amount = turned takes (amount_of (width_of places.now) (place_in places.now) part.now) in
        SumsUp meter.old meter.new row.new (with_amount row.old amount)
        (ProductPasses meter.old (numbers_of part.now) ⊎ SumPasses meter.old row.old (amount ∷ [])) result }
{
    let amount = product(numbers(part), meter)?;
    let at = part_place(part, places);
    add_amount(row, at, amount, is_taken(takes, is_negative(part)), meter)
}

// Adds the parts of a term from the left, or takes them away.
fn add_term(
    row: &mut Coefs,
    term: &[Signed],
    places: &Places<'_>,
    takes: bool,
    meter: &mut Meter,
) -> Result<(), Overflow>
    requires width { length row.old ≡ width_of places.now + 1 }
    requires within { All (IsWithin meter.old) row.old }
    ensures { let amounts = map (turned takes) (amounts_of (width_of places.now) (place_in places.now) term.now) in
        SumsUp meter.old meter.new row.new (with_amounts row.old amounts)
        (PartsPass meter.old term.now ⊎ SumPasses meter.old row.old amounts) result }
{
    for i in 0..term.len() {
        if let Err(overflow) = add_part(row, &term[i], places, takes, meter) {
            return Err(overflow);
        }
    }
    Ok(())
}

// Takes one away at a place where that is asked for.
#[tactic(auto, using(std::proofs::lemmas::Grind::common_steps))]
fn take_one(row: &mut Coefs, place: Option<usize>, meter: &mut Meter) -> Result<(), Overflow>
    requires inside { IfSome place (λ at. at < length row.old) }
    requires within { All (IsWithin meter.old) row.old }
    ensures { SumsUp meter.old meter.new row.new (with_amounts row.old (one_less place))
        (SumPasses meter.old row.old (one_less place)) result }
{
    match place {
        Some(at) => add_amount(row, at, Int::ONE, true, meter),
        None => Ok(()),
    }
}

// Adds up a term less another one, and less a one at a place where that is asked for.
fn add_difference(
    row: &mut Coefs,
    greater: &[Signed],
    less: &[Signed],
    last: Option<usize>,
    places: &Places<'_>,
    meter: &mut Meter,
) -> Result<(), Overflow>
    requires width { length row.old ≡ width_of places.now + 1 }
    requires within { All (IsWithin meter.old) row.old }
    requires inside { IfSome last (λ at. at ≤ width_of places.now) }
    ensures { SumsUp meter.old meter.new row.new
        (with_amounts row.old (difference (width_of places.now) (place_in places.now) greater.now less.now last))
        (DifferencePasses meter.old (width_of places.now) (place_in places.now) row.old greater.now less.now last) result }
{
    if let Err(overflow) = add_term(row, greater, places, false, meter) {
        return Err(overflow);
    }
    if let Err(overflow) = add_term(row, less, places, true, meter) {
        return Err(overflow);
    }
    take_one(row, last, meter)
}

// A number that is no sum or product, within the limit.
#[tactic(auto, using(std::proofs::lemmas::Grind::common_steps, crate::proofs::PassLaws::measured))]
fn within(number: i128, meter: &mut Meter) -> Result<Int, Overflow>
    ensures { MatchResult result
        (λ v. (v ≡ number) × IsWithin meter.old number × (meter.new ≡ meter.old))
        (λ _. (¬ IsWithin meter.old number) × (meter.new ≡ overflown meter.old)) }
{
    Int::new(number).add(Int::ZERO, meter)
}

// The row of a kind whose numbers these are, the constant last.
#[tactic(auto, using(std::proofs::lemmas::Grind::common_steps, crate::proofs::PassLaws::remove_last))]
fn finished(kind: RowKind, modulus: Int, row: Coefs, columns: usize) -> Row
    requires { length row ≡ columns + 1 }
    ensures { result ≡ record { kind = kind; coefs = take columns row; constant = slice_index_or row columns (pos 0); k = modulus } }
{
    let mut coefs = row;
    let constant = coefs.remove(columns);
    Row::new(kind, coefs, constant, modulus)
}

// Adds up the terms of a written row, multiplied out.
fn add_written(
    alloc: Global,
    row: &mut Coefs,
    written: Written<'_>,
    places: &Places<'_>,
    meter: &mut Meter,
) -> Result<(), Cut>
    requires width { length row.old ≡ width_of places.now + 1 }
    requires within { All (IsWithin meter.old) row.old }
    requires inside { IfSome written.last (λ at. at ≤ width_of places.now) }
    ensures { let w = written_of written.entry in let n = width_of places.now in let place = place_in places.now in
        MatchResult result
        (λ _. (row.new ≡ with_amounts row.old (amounts_in n place w)) × All (IsWithin meter.old) row.new × (meter.new ≡ meter.old))
        (FailsBy (DifferencePasses meter.old n place row.old (multiplied_out w.greater) (multiplied_out w.less) w.last)
        meter.old meter.new) }
{
    let greater = match multiplied_out(alloc, written.greater) {
        Ok(greater) => greater,
        Err(_) => return Err(Cut::NoMemory),
    };
    let less = match multiplied_out(alloc, written.less) {
        Ok(less) => less,
        Err(_) => return Err(Cut::NoMemory),
    };
    match add_difference(
        row,
        greater.as_slice(),
        less.as_slice(),
        written.last,
        places,
        meter,
    ) {
        Ok(()) => Ok(()),
        Err(Overflow) => Err(Cut::Overflow),
    }
}

// The row that a written one with this modulus is, added up.
fn difference_row(
    alloc: Global,
    written: Written<'_>,
    modulus: Int,
    places: &Places<'_>,
    meter: &mut Meter,
) -> Result<Row, Cut>
    requires modulus { modulus ≡ written.modulus }
    requires small { IsWithin meter.old modulus }
    requires inside { IfSome written.last (λ at. at ≤ width_of places.now) }
    ensures { let w = written_of written.entry in let n = width_of places.now in
        MakesRow meter.old meter.new places.now w
        (DifferencePasses meter.old n (place_in places.now) (replicate (n + 1) (pos 0)) (multiplied_out w.greater) (multiplied_out w.less)
        w.last) result }
{
    let columns = places.width();
    let mut row = match Coefs::zeros(alloc, columns + 1) {
        Ok(row) => row,
        Err(_) => return Err(Cut::NoMemory),
    };
    match add_written(alloc, &mut row, written, places, meter) {
        Ok(()) => Ok(finished(written.kind, modulus, row, columns)),
        Err(cut) => Err(cut),
    }
}

// The row that a written one is, added up.
fn made_row(
    alloc: Global,
    written: Written<'_>,
    places: &Places<'_>,
    meter: &mut Meter,
) -> Result<Row, Cut>
    requires inside { IfSome written.last (λ at. at ≤ width_of places.now) }
    ensures { MakesRow meter.old meter.new places.now (written_of written.entry)
        (PassesIn meter.old places.now (written_of written.entry)) result }
{
    let modulus = match within(written.modulus, meter) {
        Ok(modulus) => modulus,
        Err(Overflow) => return Err(Cut::Overflow),
    };
    difference_row(alloc, written, modulus, places, meter)
}

/// Puts the row that a written one is behind the others.
pub(crate) fn push_row(
    alloc: Global,
    rows: &mut Rows,
    written: Written<'_>,
    places: &Places<'_>,
    meter: &mut Meter,
) -> Result<(), Cut>
    requires within { All (IsRowWithin meter.old) rows.old }
    requires inside { IfSome written.last (λ at. at ≤ width_of places.now) }
    ensures { PutsRows meter.old meter.new rows.old rows.new places.now (written_of written.entry ∷ []) result }
{
    let row = match made_row(alloc, written, places, meter) {
        Ok(row) => row,
        Err(cut) => return Err(cut),
    };
    match rows.push(row) {
        Ok(()) => Ok(()),
        Err(_) => Err(Cut::NoMemory),
    }
}

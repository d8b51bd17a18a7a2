//! Where the row with a bound stands among rows of which each bound stands once.

ghost use Rattle.std.specs.Prelude.{◌≡◌, ◌++◌, ◌∷◌, [], ◌<◌, false, All, IfOk, OnOk};
ghost use Rattle.isl_piece.specs.Normal.{same_bound};
ghost use Rattle.isl_piece.specs.Index.{IsPlaceOf, IsPlaceAmong, mixed, bound_constant, bound_hash, slot_of};

use crate::{Row, RowKind};
use isl_meter::Int;
use std::alloc::{AllocError, AllocFailed, Global};
use std::marker::Model;

// Up to so many rows are looked through one by one, which is no slower than slots then.
const FEW: usize = 64;

// By what each number is spread over the bits of a hash: odd, and with no pattern.
const MULTIPLIER: i128 = 0x2360_ED05_1FC6_5DA4_4385_DF64_9FCC_F645;

// Whether two rows are equal, or both `AtLeast` and different in the constant alone.
#[inline]
fn is_same_bound(a: &Row, b: &Row) -> bool
    ensures { result ≡ same_bound a.now b.now }
{
    a.kind == b.kind
        && a.coefs.as_slice() == b.coefs.as_slice()
        && a.k == b.k
        && (a.kind == RowKind::AtLeast || a.constant == b.constant)
}

// The place of the first row with the bound of `row`; `None` where no row has it.
fn place_among(rows: &[Row], row: &Row) -> Option<usize>
    ensures { IsPlaceOf rows.now row.now result }
{
    for place in 0..rows.len() {
        if is_same_bound(&rows[place], row) {
            return Some(place);
        }
    }
    None
}

// A hash, with one number more.
fn mixed(hash: i128, number: Int) -> i128
    ensures { result ≡ mixed hash number }
{
    hash.wrapping_add(number.get()).wrapping_mul(MULTIPLIER)
}

// The constant, where it is part of the bound.
fn bound_constant(row: &Row) -> Int
    ensures { result ≡ bound_constant row.now }
{
    if row.kind == RowKind::AtLeast {
        Int::ZERO
    } else {
        row.constant()
    }
}

// A number that rows with the same bound share.
fn bound_hash(row: &Row) -> i128
    ensures { result ≡ bound_hash row.now }
{
    let mut hash = row.k;
    for number in row.coefs.as_slice() {
        hash = mixed(hash, *number);
    }
    mixed(hash, bound_constant(row))
}

// Which of `count` slots is the row's.
fn slot_of(count: usize, row: &Row) -> usize
    requires { 0 < count }
    ensures exact { result ≡ slot_of count row.now }
    ensures inside { result < count }
{
    bound_hash(row).rem_euclid(count as i128) as usize
}

// Places of rows, in the order in which they came.
#[derive(Drop)]
struct Slot {
    places: Vec<usize>,
}

impl Model for Slot {
    ghost use Rattle.std.specs.Prelude.{List, ℕ};

    ghost Value = { List ℕ };

    ghost view = { λ s. s.places.items };
}

impl Slot {
    fn new(alloc: Global) -> Self
        ensures { result ≡ [] }
    {
        Slot {
            places: Vec::new(alloc),
        }
    }

    fn push(&mut self, place: usize) -> Result<(), AllocFailed<usize>>
        ensures { OnOk result (self.new ≡ self.old ++ place ∷ []) }
    {
        self.places.push(place)
    }

    // The first of the places at which a row with the bound of `row` stands; `None` where it stands at none of them.
    fn place_of(&self, rows: &[Row], row: &Row) -> Option<usize>
        ensures { IsPlaceAmong rows.now row.now self.now result }
    {
        for place in self.places.as_slice() {
            if *place < rows.len() && is_same_bound(&rows[*place], row) {
                return Some(*place);
            }
        }
        None
    }
}

/// Finds the place of the row with a bound among rows of which each bound stands once. The places lie in slots, by a hash of
/// the row's bound. Where few rows are to come there are no slots: the rows are looked through one by one, and no memory is taken.
#[derive(Drop)]
pub(crate) struct BoundIndex {
    slots: Vec<Slot>,
}

impl Model for BoundIndex {
    ghost use Rattle.std.specs.Prelude.{List, ℕ};

    ghost Value = { List (List ℕ) };

    ghost view = { λ i. i.slots.items };
}

impl BoundIndex {
    ghost use Rattle.isl_piece.specs.Index.{IsIndexOf};

    /// The index of no rows, where about `count` are to come.
    ///
    /// # Errors
    ///
    /// `AllocError` where memory ends.
    pub(crate) fn for_rows(alloc: Global, count: usize) -> Result<Self, AllocError>
        ensures { IfOk result (λ index. IsIndexOf index []) }
    {
        let count = if count > FEW { count | 1 } else { 0 };
        let mut slots = Vec::with_capacity(alloc, count)?;
        for _slot in 0..count {
            slots.push(Slot::new(alloc))?;
        }
        Ok(BoundIndex { slots })
    }

    /// The place of the row with the bound of `row` among the rows; `None` where no row has it.
    pub(crate) fn place_of(&self, rows: &[Row], row: &Row) -> Option<usize>
        requires { IsIndexOf self.now rows.now }
        ensures { IsPlaceOf rows.now row.now result }
    {
        if self.slots.is_empty() {
            return place_among(rows, row);
        }
        self.slots[slot_of(self.slots.len(), row)].place_of(rows, row)
    }

    /// Takes in a row with a bound of its own, which is to stand behind the rows.
    ///
    /// # Errors
    ///
    /// `AllocError` where memory ends.
    pub(crate) fn push(&mut self, rows: &[Row], row: &Row) -> Result<(), AllocError>
        requires index { IsIndexOf self.old rows.now }
        requires unlike { All (λ a. same_bound a row.now ≡ false) rows.now }
        ensures { OnOk result (IsIndexOf self.new (rows.now ++ row.now ∷ [])) }
    {
        if !self.slots.is_empty() {
            let slot = slot_of(self.slots.len(), row);
            self.slots[slot].push(rows.len())?;
        }
        Ok(())
    }
}

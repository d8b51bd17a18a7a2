//! Lists of points.

ghost use Rattle.std.specs.Prelude.{◌≡◌, ◌<◌, ◌≤◌, ◌*◌, OnErr, OnOk, [], length, slice_index_or, IsTrue, ◌↔◌};
ghost use Rattle.isl_points.specs.Flat.{laid_out, points_in};

use std::alloc::{AllocError, Global};
use std::marker::Model;

// How many numbers have others put behind them: so many take 96 MiB. More count as want of memory, so that memory is bounded as time is.
const MOST_NUMBERS: usize = 6_291_456;

/// Whether more numbers may be put behind so many.
///
/// # Errors
///
/// `AllocError` exactly where they are more than are kept.
pub fn check_count(numbers: usize) -> Result<(), AllocError>
    ensures within { OnOk result (numbers ≤ 6291456) }
    ensures fault { OnErr result (6291456 < numbers) }
{
    if numbers > MOST_NUMBERS {
        return Err(AllocError);
    }
    Ok(())
}

/// Points of one width, in order. Their numbers lie behind one another in one list.
#[derive(Drop)]
pub struct Points {
    width: usize,
    count: usize,
    numbers: Vec<i128>,
}

impl Model for Points {
    ghost use Rattle.std.specs.Prelude.{List, ℤ, ◌≡◌, ◌*◌, length};
    ghost use Rattle.isl_points.specs.Flat.{points_in};

    ghost Value = { List (List ℤ) };

    ghost view = { λ p. points_in p.width p.count p.numbers.items };

    ghost invariant = { λ p. length p.numbers.items ≡ p.count * p.width };
}

impl Points {
    /// No point.
    pub fn new(alloc: Global) -> Self
        ensures { result ≡ [] }
    {
        Points {
            width: 0,
            count: 0,
            numbers: Vec::new(alloc),
        }
    }

    /// So many points of so many numbers, which stand behind one another in the list.
    pub fn of(width: usize, count: usize, numbers: Vec<i128>) -> Self
        requires { length numbers.items ≡ count * width }
        ensures { result ≡ points_in width count numbers.items }
    {
        Points {
            width,
            count,
            numbers,
        }
    }

    /// The number of points.
    pub fn len(&self) -> usize
        ensures { result ≡ length self.now }
    {
        self.count
    }

    /// How many numbers they have together.
    pub fn size(&self) -> usize
        ensures { result ≡ length (laid_out self.now) }
    {
        self.numbers.len()
    }

    pub fn is_empty(&self) -> bool
        ensures { IsTrue result ↔ (self.now ≡ []) }
    {
        self.count == 0
    }

    /// The numbers of the point at a place.
    pub fn get(&self, place: usize) -> &[i128]
        requires { place < length self.now }
        ensures { result.now ≡ slice_index_or self.now place [] }
    {
        let from = place * self.width;
        &self.numbers[from..from + self.width]
    }
}

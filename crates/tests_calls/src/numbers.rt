//! Numbers, limits and budgets.

use isl_meter::{Int, Meter, Overflow, Spent};

const MAX: i128 = i128::MAX;

pub(crate) fn division_is_right() -> bool {
    let meter = Meter::new(127, 1);
    let three = Int::new(-3);
    let seven = Int::new(7);
    let opposite = Int::new(-MAX).neg(&meter).get();
    let quotient = three.floor_div(seven, &meter).get();
    let rest = three.modulo(seven, &meter).get();
    let none = Int::ZERO.gcd(Int::ZERO, &meter).get();
    let one = Int::ZERO.gcd(three, &meter).get();
    let wide = Int::new(-3 << 70).gcd(Int::new(9 << 65), &meter).get();
    (meter.limit(), opposite) == (MAX, MAX)
        && (quotient, rest) == (-1, 4)
        && (none, one, wide) == (0, 3, 3 << 65)
}

pub(crate) fn inverses_are_right() -> bool {
    let meter = Meter::new(127, 1);
    let three = Int::new(-3);
    let seven = Int::new(7);
    let two = three.inverse(seven, &meter).get();
    let zero = three.inverse(Int::ONE, &meter).get();
    (two, zero) == (2, 0)
}

// Sums, differences and products.
pub(crate) fn widest_limit_is_right() -> bool {
    let mut wide = Meter::new(127, 1);
    let mut right = true;
    for (a, b, sum, difference, product) in [
        (MAX, 0, Ok(MAX), Ok(MAX), Ok(0)),
        (MAX, 1, Err(Overflow), Ok(MAX - 1), Ok(MAX)),
        (-MAX, 1, Ok(1 - MAX), Err(Overflow), Ok(-MAX)),
        (1 << 64, 1 << 63, Ok(3 << 63), Ok(1 << 63), Err(Overflow)),
    ] {
        let sum_is = wide.add(a, b) == sum;
        let difference_is = wide.sub(a, b) == difference;
        let product_is = wide.mul(a, b) == product;
        right = right && sum_is && difference_is && product_is;
    }
    right && wide.overflows() == 3
}

pub(crate) fn least_limit_is_right() -> bool {
    let mut small = Meter::new(8, 2);
    let mut right = true;
    for (a, b, sum, difference, product) in [
        (200, 55, Ok(255), Ok(145), Err(Overflow)),
        (15, 17, Ok(32), Ok(-2), Ok(255)),
        (-255, 1, Ok(-254), Err(Overflow), Ok(-255)),
        (-128, -128, Err(Overflow), Ok(0), Err(Overflow)),
    ] {
        let sum_is = small.add(a, b) == sum;
        let difference_is = small.sub(a, b) == difference;
        let product_is = small.mul(a, b) == product;
        right = right && sum_is && difference_is && product_is;
    }
    right && (small.overflows(), small.units(), small.spents()) == (4, 0, 0)
}

pub(crate) fn budget_is_right() -> bool {
    let mut small = Meter::new(8, 2);
    let mut right = true;
    for (answer, units, spents) in [(Ok(()), 1, 0), (Ok(()), 2, 0), (Err(Spent), 2, 1)] {
        let answer_is = small.unit() == answer;
        right = right && answer_is && (small.units(), small.spents()) == (units, spents);
    }
    small.start();
    right && (small.units(), small.spents()) == (0, 1)
}

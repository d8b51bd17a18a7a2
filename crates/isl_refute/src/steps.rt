//! What a step asks of rows, and the row that it adds.

ghost use Rattle.std.specs.Prelude.{◌≡◌, ◌⊎◌, ◌&&◌, ◌+ℤ◌, ◌*ℤ◌, ◌<ℤ◌, int_lt, true, ◌++◌, ◌∷◌, [], length, pos, negsuc, neg_ℤ, All, IfOk};
ghost use Rattle.std.specs.Prelude.{IfSome, MatchOption, MatchResult, Some, None};
ghost use Rattle.std.specs.List.{list_all};
ghost use Rattle.std.specs.Ordering.{int_eq};
ghost use Rattle.isl_math.specs.Divide.{floor_mod};
ghost use Rattle.isl_math.specs.Dot.{scaled, weighted_sum};
ghost use Rattle.isl_meter.specs.Gauge.{Gauge, IsWithin, overflown};
ghost use Rattle.isl_piece.specs.Cut.{IsCutFor};
ghost use Rattle.isl_piece.specs.Row.{HasModulus, IsRowWithin};
ghost use Rattle.isl_refute.specs.Passes.{RowPasses, RowSumPasses, SumPasses, SumsPass};
ghost use Rattle.isl_refute.specs.Refutes.{fresh_row, is_bound, is_congruence, is_equality, is_factor, is_false, holds_number, kind_of_sum};
ghost use Rattle.isl_refute.specs.Refutes.{mod_row, sum_row, tie_row, weaken_row};

use isl_meter::{Cut, Int, Meter, Overflow};
use isl_piece::{Coefs, Row, RowKind};
use std::alloc::{AllocError, Global};

// Whether the kind takes the factor.
fn is_factor(kind: RowKind, factor: i128) -> bool
    ensures { result ≡ is_factor kind factor }
{
    match kind {
        RowKind::Zero | RowKind::Divides => true,
        RowKind::AtLeast => factor >= 0,
        RowKind::NotDivides => factor == 1,
    }
}

// The kind and the modulus of a sum.
fn kind_of_sum(row: &Row, other: &Row) -> Option<(RowKind, i128)>
    ensures value { result ≡ kind_of_sum row.now.kind row.now.k other.now.kind other.now.k }
    ensures within { (g : Gauge) → IsWithin g row.now.k → IsWithin g other.now.k → IfSome result (λ both. IsWithin g both.1) }
{
    match (row.kind, other.kind) {
        (RowKind::Zero, kind) => Some((kind, other.k)),
        (RowKind::AtLeast, RowKind::Zero | RowKind::AtLeast) => Some((RowKind::AtLeast, row.k)),
        (RowKind::Divides, RowKind::Zero) => Some((RowKind::Divides, row.k)),
        (RowKind::NotDivides, RowKind::Zero) => Some((RowKind::NotDivides, row.k)),
        (RowKind::Divides, RowKind::Divides) if row.k == other.k => {
            Some((RowKind::Divides, row.k))
        }
        (RowKind::Divides, RowKind::NotDivides) if row.k == other.k => {
            Some((RowKind::NotDivides, row.k))
        }
        (RowKind::NotDivides, RowKind::Divides) if row.k == other.k => {
            Some((RowKind::NotDivides, row.k))
        }
        _ => None,
    }
}

// `a` times a number plus `b` times another one.
fn sum(a: Int, x: Int, b: Int, y: Int, meter: &mut Meter) -> Result<Int, Overflow>
    ensures { MatchResult result
        (λ z. (z ≡ a *ℤ x +ℤ b *ℤ y) × IsWithin meter.old z × (meter.new ≡ meter.old))
        (λ _. SumPasses meter.old.bits a x b y × (meter.new ≡ overflown meter.old)) }
{
    let first = a.mul(x, meter)?;
    let second = b.mul(y, meter)?;
    first.add(second, meter)
}

// `a` times each number plus `b` times that of the other list.
fn sums(
    alloc: Global,
    a: Int,
    left: &[Int],
    b: Int,
    right: &[Int],
    meter: &mut Meter,
) -> Result<Coefs, Cut>
    requires { length left.now ≡ length right.now }
    ensures { MatchResult result
        (λ coefs. (coefs ≡ weighted_sum a left.now b right.now) × All (IsWithin meter.old) coefs × (meter.new ≡ meter.old))
        (IsCutFor (SumsPass meter.old.bits a left.now b right.now) meter.old meter.new) }
{
    let mut coefs = Coefs::new(alloc);
    for i in 0..left.len() {
        let next = sum(a, left[i], b, right[i], meter)?;
        coefs.push(next)?;
    }
    Ok(coefs)
}

// `a` times the form of the row plus `b` times that of the other, in a row of this kind and modulus.
fn sum_of_kind(
    alloc: Global,
    kind: RowKind,
    k: Int,
    a: Int,
    b: Int,
    row: &Row,
    other: &Row,
    meter: &mut Meter,
) -> Result<Row, Cut>
    requires modulus { IsWithin meter.old k }
    requires width { length row.now.coefs ≡ length other.now.coefs }
    ensures { MatchResult result
        (λ made. (made ≡ record {
          kind = kind;
          coefs = weighted_sum a row.now.coefs b other.now.coefs;
          constant = a *ℤ row.now.constant +ℤ b *ℤ other.now.constant;
          k = k;
        }) × IsRowWithin meter.old made × (meter.new ≡ meter.old))
        (IsCutFor (SumsPass meter.old.bits a row.now.coefs b other.now.coefs
        ⊎ SumPasses meter.old.bits a row.now.constant b other.now.constant) meter.old meter.new) }
{
    let coefs = sums(
        alloc,
        a,
        row.coefs.as_slice(),
        b,
        other.coefs.as_slice(),
        meter,
    )?;
    let constant = sum(a, row.constant(), b, other.constant(), meter)?;
    Ok(Row::new(kind, coefs, constant, k))
}

/// `a` times the row plus `b` times the other; nothing where they can't be so added up.
///
/// # Errors
///
/// `Overflow` where a product or a sum passes the limit of the meter, and `NoMemory`.
pub(crate) fn sum_row(
    alloc: Global,
    a: i128,
    b: i128,
    row: &Row,
    other: &Row,
    meter: &mut Meter,
) -> Result<Option<Row>, Cut>
    requires row { IsRowWithin meter.old row.now }
    requires other { IsRowWithin meter.old other.now }
    requires width { length row.now.coefs ≡ length other.now.coefs }
    ensures { MatchResult result
        (λ made. (made ≡ sum_row a b row.now other.now) × IfSome made (IsRowWithin meter.old) × (meter.new ≡ meter.old))
        (IsCutFor (RowSumPasses meter.old.bits a b row.now other.now) meter.old meter.new) }
{
    if !(is_factor(row.kind, a) & is_factor(other.kind, b)) {
        return Ok(None);
    }
    let Some((kind, k)) = kind_of_sum(row, other) else {
        return Ok(None);
    };
    let made = sum_of_kind(
        alloc,
        kind,
        Int::new(k),
        Int::new(a),
        Int::new(b),
        row,
        other,
        meter,
    )?;
    Ok(Some(made))
}

// The negative of each number.
pub(crate) fn negative(alloc: Global, coefs: &Coefs, meter: &Meter) -> Result<Coefs, AllocError>
    requires { All (IsWithin meter.now) coefs.now }
    ensures { IfOk result (λ made. (made ≡ scaled (negsuc 0) coefs.now) × All (IsWithin meter.now) made) }
{
    let mut made = Coefs::new(alloc);
    for coef in coefs.as_slice() {
        made.push(coef.neg(meter))?;
    }
    Ok(made)
}

// The number 1, which is within each limit.
#[tactic(auto, using(std::proofs::lemmas::Grind::common_steps, crate::proofs::WithinLaws::ones))]
pub(crate) fn one(meter: &Meter) -> Int
    ensures value { result ≡ pos 1 }
    ensures within { IsWithin meter.now result }
{
    let _limit = meter.limit();
    Int::ONE
}

// A form that is 0.
fn equality(coefs: Coefs, constant: Int, meter: &Meter) -> Row
    requires coefs { All (IsWithin meter.now) coefs }
    requires constant { IsWithin meter.now constant }
    ensures value { result ≡ record { kind = RowKind.Zero; coefs = coefs; constant = constant; k = pos 1 } }
    ensures within { IsRowWithin meter.now result }
{
    Row::new(RowKind::Zero, coefs, constant, one(meter))
}

// A form that `k` divides.
fn congruence(alloc: Global, row: &Row, k: i128) -> Result<Row, AllocError>
    ensures { IfOk result (λ made. made ≡ record { kind = RowKind.Divides; coefs = row.now.coefs; constant = row.now.constant; k = k }) }
{
    let coefs = row.coefs.copy(alloc)?;
    Ok(Row::new(RowKind::Divides, coefs, row.constant(), Int::new(k)))
}

/// What two opposite bounds say together.
pub(crate) fn tie_row(
    alloc: Global,
    row: &Row,
    other: &Row,
    meter: &Meter,
) -> Result<Option<Row>, AllocError>
    requires row { IsRowWithin meter.now row.now }
    requires other { IsRowWithin meter.now other.now }
    ensures value { IfOk result (λ made. made ≡ tie_row row.now other.now) }
    ensures within { IfOk result (λ made. IfSome made (IsRowWithin meter.now)) }
{
    if row.kind != RowKind::AtLeast || other.kind != RowKind::AtLeast {
        return Ok(None);
    }
    let coefs = negative(alloc, &row.coefs, meter)?;
    if other.coefs != coefs || other.constant() != row.constant().neg(meter) {
        return Ok(None);
    }
    let coefs = row.coefs.copy(alloc)?;
    Ok(Some(equality(coefs, row.constant(), meter)))
}

// The number, if it is within the limit.
pub(crate) fn measured(number: i128, meter: &mut Meter) -> Result<Int, Overflow>
    ensures { MatchResult result
        (λ z. (z ≡ number) × IsWithin meter.old number × (meter.new ≡ meter.old))
        (λ _. (¬ IsWithin meter.old number) × (meter.new ≡ overflown meter.old)) }
{
    Int::new(number).add(Int::ZERO, meter)
}

/// What divides the form of an equality.
///
/// # Errors
///
/// `Overflow` where the divisor passes the limit of the meter, and `NoMemory`.
pub(crate) fn mod_row(
    alloc: Global,
    k: i128,
    row: &Row,
    meter: &mut Meter,
) -> Result<Option<Row>, Cut>
    requires row { IsRowWithin meter.old row.now }
    ensures { MatchResult result
        (λ made. (made ≡ mod_row k row.now) × IfSome made (IsRowWithin meter.old) × (meter.new ≡ meter.old))
        (IsCutFor (MatchOption (mod_row k row.now) ⊥ (RowPasses meter.old.bits)) meter.old meter.new) }
{
    if row.kind != RowKind::Zero || k <= 1 {
        return Ok(None);
    }
    let _within = measured(k, meter)?;
    Ok(Some(congruence(alloc, row, k)?))
}

// Whether the number is above 1 and divides the modulus.
#[tactic(auto, using(std::proofs::lemmas::Grind::common_steps, crate::proofs::WithinLaws::multiples))]
fn divides(k: i128, modulus: Int, meter: &Meter) -> bool
    requires modulus { pos 0 <ℤ modulus }
    requires within { IsWithin meter.now modulus }
    ensures value { result ≡ (int_lt (pos 1) k && int_eq (floor_mod modulus k) (pos 0)) }
    ensures within { result ≡ true → IsWithin meter.now k }
{
    let divisor = Int::new(k);
    if divisor <= Int::ONE {
        return false;
    }
    if divisor > modulus {
        return false;
    }
    modulus.modulo(divisor, meter).is_zero()
}

/// What divides the form of a congruence by one of its multiples.
pub(crate) fn weaken_row(
    alloc: Global,
    k: i128,
    row: &Row,
    meter: &Meter,
) -> Result<Option<Row>, AllocError>
    requires modulus { HasModulus row.now.kind row.now.k }
    requires row { IsRowWithin meter.now row.now }
    ensures value { IfOk result (λ made. made ≡ weaken_row k row.now) }
    ensures within { IfOk result (λ made. IfSome made (IsRowWithin meter.now)) }
{
    if row.kind != RowKind::Divides {
        return Ok(None);
    }
    if !divides(k, row.modulus(), meter) {
        return Ok(None);
    }
    Ok(Some(congruence(alloc, row, k)?))
}

// The coefficients of a congruence, and its modulus, negative, at a new column.
#[tactic(auto, using(std::proofs::lemmas::Grind::common_steps, crate::proofs::WithinLaws::pushes))]
fn opened(alloc: Global, row: &Row, meter: &Meter) -> Result<Coefs, AllocError>
    requires { IsRowWithin meter.now row.now }
    ensures { IfOk result (λ made. (made ≡ row.now.coefs ++ neg_ℤ row.now.k ∷ []) × All (IsWithin meter.now) made) }
{
    let mut coefs = row.coefs.copy(alloc)?;
    coefs.push(row.modulus().neg(meter))?;
    Ok(coefs)
}

/// The equality of a congruence with a new column.
pub(crate) fn fresh_row(alloc: Global, row: &Row, meter: &Meter) -> Result<Option<Row>, AllocError>
    requires row { IsRowWithin meter.now row.now }
    ensures value { IfOk result (λ made. made ≡ fresh_row row.now) }
    ensures within { IfOk result (λ made. IfSome made (IsRowWithin meter.now)) }
{
    if row.kind != RowKind::Divides {
        return Ok(None);
    }
    let coefs = opened(alloc, row, meter)?;
    Ok(Some(equality(coefs, row.constant(), meter)))
}

// Whether each number is 0.
fn are_zero(coefs: &[Int]) -> bool
    ensures { result ≡ list_all (λ c. int_eq c (pos 0)) coefs.now }
{
    coefs.iter().all(|number| *number == Int::ZERO)
}

/// Whether the row is constant and false.
pub(crate) fn is_false(row: &Row, meter: &Meter) -> bool
    requires modulus { HasModulus row.now.kind row.now.k }
    requires within { IsRowWithin meter.now row.now }
    ensures { result ≡ is_false row.now }
{
    are_zero(row.coefs.as_slice()) & !holds(row, meter)
}

// Whether the constant is what the row asks for.
fn holds(row: &Row, meter: &Meter) -> bool
    requires modulus { HasModulus row.now.kind row.now.k }
    requires within { IsRowWithin meter.now row.now }
    ensures { result ≡ holds_number row.now.kind row.now.k row.now.constant }
{
    let constant = row.constant();
    match row.kind {
        RowKind::Zero => constant.is_zero(),
        RowKind::AtLeast => !constant.is_negative(),
        RowKind::Divides => constant.modulo(row.modulus(), meter).is_zero(),
        RowKind::NotDivides => !constant.modulo(row.modulus(), meter).is_zero(),
    }
}

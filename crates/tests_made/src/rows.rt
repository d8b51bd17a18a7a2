//! Rows and definitions, as they are written, and whether they may be handed to what works on systems.

ghost use Rattle.std.specs.Prelude.{◌≡◌, All, IfOk, IfSome, true};
ghost use Rattle.isl_meter.specs.Gauge.{IsWithin};
ghost use Rattle.isl_piece.specs.Row.{HasModulus, IsWellFormed, IsRowWithin};
ghost use Rattle.isl_piece.specs.System.{IsSystemWithin};

use isl_meter::{Int, Meter};
use isl_piece::{Coefs, Definition, Row, RowKind, Rows, System};
use std::alloc::{AllocError, Global};

fn kind_of(word: &str) -> Option<RowKind> {
    match word {
        "=" => Some(RowKind::Zero),
        ">=" => Some(RowKind::AtLeast),
        "mod" => Some(RowKind::Divides),
        "not-mod" => Some(RowKind::NotDivides),
        _ => None,
    }
}

/// Whether the text is a row: a kind, and numbers behind it.
pub(crate) fn is_row(text: &str) -> bool {
    let (word, rest) = text.split_once(' ').unwrap_or((text, ""));
    kind_of(word).is_some() && !rest.is_empty() && are_numbers(rest)
}

fn are_numbers(text: &str) -> bool {
    text.split(' ').all(|word| word.parse::<i128>().is_ok())
}

/// Whether the text is a definition: numbers, of which the last one is positive.
pub(crate) fn is_definition(text: &str) -> bool {
    let last = text
        .split(' ')
        .last()
        .and_then(|word| word.parse::<i128>().ok());
    are_numbers(text) && last.is_some_and(|divisor| divisor > 0)
}

fn numbers_of(alloc: Global, text: &str) -> Result<Vec<Int>, AllocError> {
    let mut numbers = Vec::new(alloc);
    for word in text.split_whitespace() {
        if let Ok(number) = word.parse::<i128>() {
            numbers.push(Int::new(number))?;
        }
    }
    Ok(numbers)
}

// A row: its kind, the coefficients, the constant, and the divisor of a congruence.
fn row_of(alloc: Global, text: &str) -> Result<Option<Row>, AllocError> {
    let (word, rest) = text.split_once(' ').unwrap_or((text, ""));
    let Some(kind) = kind_of(word) else {
        return Ok(None);
    };
    let mut numbers = numbers_of(alloc, rest)?;
    let divisor = match kind {
        RowKind::Zero | RowKind::AtLeast => Int::ONE,
        RowKind::Divides | RowKind::NotDivides => numbers.pop().unwrap_or(Int::ZERO),
    };
    let constant = numbers.pop().unwrap_or(Int::ZERO);
    let coefs = Coefs::from_slice(alloc, &numbers)?;
    Ok(Some(Row::new(kind, coefs, constant, divisor)))
}

/// The rows of all lines that have this key.
pub fn rows_of(alloc: Global, case: &str, key: &str) -> Result<Rows, AllocError> {
    let mut rows = Rows::new(alloc);
    for line in case.lines() {
        if let Some(text) = line.strip_prefix(key) {
            if let Some(row) = row_of(alloc, text)? {
                rows.push(row)?;
            }
        }
    }
    Ok(rows)
}

fn is_within(number: Int, meter: &Meter) -> bool
    ensures { result ≡ true → IsWithin meter.now number }
{
    let limit = meter.limit();
    -limit <= number.get() && number.get() <= limit
}

fn are_within(numbers: &[Int], meter: &Meter) -> bool
    ensures { result ≡ true → All (IsWithin meter.now) numbers.now }
{
    numbers.iter().all(|number| is_within(*number, meter))
}

fn has_divisor(kind: RowKind, divisor: Int) -> bool
    ensures { result ≡ true → HasModulus kind divisor }
{
    match kind {
        RowKind::Zero | RowKind::AtLeast => divisor == Int::ONE,
        RowKind::Divides | RowKind::NotDivides => divisor.is_positive(),
    }
}

/// Whether the row is one over so many columns, with numbers within the limit.
pub fn is_proper_row(row: &Row, columns: usize, meter: &Meter) -> bool
    ensures formed { result ≡ true → IsWellFormed columns row.now }
    ensures modulus { result ≡ true → HasModulus row.now.kind row.now.k }
    ensures within { result ≡ true → IsRowWithin meter.now row.now }
{
    row.coefs.len() == columns
        && has_divisor(row.kind, row.modulus())
        && is_within(row.modulus(), meter)
        && is_within(row.constant(), meter)
        && are_within(row.coefs.as_slice(), meter)
}

/// Whether the rows are such rows over so many columns.
pub fn are_proper(rows: &[Row], columns: usize, meter: &Meter) -> bool
    ensures formed { result ≡ true → All (IsWellFormed columns) rows.now }
    ensures moduli { result ≡ true → All (λ r. HasModulus r.kind r.k) rows.now }
    ensures within { result ≡ true → All (IsRowWithin meter.now) rows.now }
{
    rows.iter().all(|row| is_proper_row(row, columns, meter))
}

fn is_definition_within(definition: &Definition, meter: &Meter) -> bool
    ensures coefs { result ≡ true → All (IsWithin meter.now) definition.now.coefs }
    ensures constant { result ≡ true → IsWithin meter.now definition.now.constant }
    ensures modulus { result ≡ true → IsWithin meter.now definition.now.k }
{
    is_within(Int::new(definition.constant), meter)
        && is_within(Int::new(definition.k), meter)
        && are_within(definition.coefs.as_slice(), meter)
}

/// Whether the numbers of the definitions are within the limit.
pub fn are_definitions_within(definitions: &[Definition], meter: &Meter) -> bool
    ensures coefs { result ≡ true → All (λ d. All (IsWithin meter.now) d.coefs) definitions.now }
    ensures constants { result ≡ true → All (λ d. IsWithin meter.now d.constant) definitions.now }
    ensures moduli { result ≡ true → All (λ d. IsWithin meter.now d.k) definitions.now }
{
    definitions
        .iter()
        .all(|definition| is_definition_within(definition, meter))
}

// What a definition says: its coefficients, the constant, and what is divided by.
#[derive(Drop)]
struct Division {
    coefs: Vec<i128>,
    constant: i128,
    divisor: i128,
}

fn read_definition(alloc: Global, text: &str) -> Result<Division, AllocError> {
    let mut coefs = Vec::new(alloc);
    for number in numbers_of(alloc, text)? {
        coefs.push(number.get())?;
    }
    let divisor = coefs.pop().unwrap_or(0);
    let constant = coefs.pop().unwrap_or(0);
    Ok(Division {
        coefs,
        constant,
        divisor,
    })
}

fn all_within(numbers: &[i128], meter: &Meter) -> bool
    ensures { result ≡ true → All (IsWithin meter.now) numbers.now }
{
    numbers
        .iter()
        .all(|number| is_within(Int::new(*number), meter))
}

// Adds a column with the definition, where it is one over the system's columns, and answers whether it is.
fn define(system: &mut System, definition: &Division, meter: &Meter) -> Result<bool, AllocError>
    requires { IsSystemWithin meter.now system.old }
    ensures { IfOk result (λ _. IsSystemWithin meter.now system.new) }
{
    let coefs = definition.coefs.as_slice();
    if coefs.len() != system.columns || definition.divisor <= 0 {
        return Ok(false);
    }
    if !is_within(Int::new(definition.divisor), meter)
        || !is_within(Int::new(definition.constant), meter)
        || !all_within(coefs, meter)
    {
        return Ok(false);
    }
    system.define(coefs, definition.constant, definition.divisor)?;
    Ok(true)
}

/// The system over so many free columns that has the definitions and the rows of the lines with these two keys. None where one of
/// them does not fit, or has a number beyond the limit.
pub fn system_of(
    alloc: Global,
    case: &str,
    free: usize,
    keys: (&str, &str),
    meter: &Meter,
) -> Result<Option<System>, AllocError>
    ensures { IfOk result (λ system. IfSome system (IsSystemWithin meter.now)) }
{
    let (defined, row) = keys;
    let mut system = System::new(alloc, free);
    for line in case.lines() {
        if let Some(text) = line.strip_prefix(defined) {
            if !define(&mut system, &read_definition(alloc, text)?, meter)? {
                return Ok(None);
            }
        }
    }
    let rows = rows_of(alloc, case, row)?;
    if !are_proper(rows.as_slice(), system.columns, meter) {
        return Ok(None);
    }
    system.rows = rows;
    Ok(Some(system))
}

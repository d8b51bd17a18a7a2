//! The reader of terms.

ghost use Rattle.std.specs.Prelude.{◌≡◌, Some};
ghost use Rattle.isl_token.specs.Reading.{Reads};
ghost use Rattle.isl_formula.specs.Term as spec;

use isl_token::{Cursor, Fault, Kind};
use isl_tree::tree::{Factor, Modded, Product, Signed};
use sqlite_items::Items;
use std::alloc::Global;

/// Which whole number stands for a quotient.
#[derive(Clone, Copy)]
enum Rounding {
    Down,
    Up,
}

fn is_additive(kind: Kind) -> bool
    ensures { result ≡ spec.is_additive kind }
{
    matches!(kind, Kind::Plus | Kind::Minus)
}

fn begins_factor(kind: Kind) -> bool
    ensures { result ≡ spec.begins_factor kind }
{
    matches!(
        kind,
        Kind::Name
            | Kind::Open
            | Kind::Floor
            | Kind::Ceil
            | Kind::OpenSquare
            | Kind::FloorDiv
            | Kind::CeilDiv
    )
}

/// Whether `*` and a number come next.
fn sees_times(tokens: &Cursor<'_>) -> bool
    ensures { result ≡ spec.sees_times tokens.now }
{
    tokens.sees(Kind::Star) && tokens.second() == Kind::Number
}

/// A sign that may be missing.
#[tactic(auto, unfolding(crate::specs::Term::sign))]
fn sign(tokens: &mut Cursor<'_>) -> Result<bool, Fault>
    ensures { Reads (spec.sign tokens.old) result tokens.new }
{
    match tokens.peek() {
        Kind::Minus => {
            tokens.skip();
            Ok(true)
        }
        Kind::Plus => {
            tokens.skip();
            Ok(false)
        }
        _ => Ok(false),
    }
}

/// A `-` that may be missing.
#[tactic(auto, unfolding(crate::specs::Term::minus))]
fn minus(tokens: &mut Cursor<'_>) -> bool
    ensures { spec.minus tokens.old ≡ Some (result, tokens.new) }
{
    let found = tokens.sees(Kind::Minus);
    if found {
        tokens.skip();
    }
    found
}

/// A number, after a sign.
#[tactic(auto, unfolding(crate::specs::Term::next_number))]
fn next_number(tokens: &mut Cursor<'_>) -> Result<i128, Fault>
    ensures { Reads (spec.next_number tokens.old) result tokens.new }
{
    tokens.skip();
    tokens.number()
}

/// A divisor, after `mod`.
#[tactic(auto, unfolding(crate::specs::Term::modulus))]
fn modulus(tokens: &mut Cursor<'_>) -> Result<i128, Fault>
    ensures { Reads (spec.modulus tokens.old) result tokens.new }
{
    tokens.skip();
    tokens.positive()
}

fn rounded(rounding: Rounding, term: Items<Signed>, divisor: i128) -> Factor
    ensures { result ≡ spec.rounded rounding term divisor }
{
    match rounding {
        Rounding::Down => Factor::Floor(term, divisor),
        Rounding::Up => Factor::Ceil(term, divisor),
    }
}

/// A term whose brackets are nested less than `depth` deep.
#[cycle(term)]
#[tactic(auto, using(isl_token::proofs::Turns::turns), unfolding(crate::specs::Term::terms, isl_token::specs::Reading::row))]
pub fn term(alloc: Global, tokens: &mut Cursor<'_>, depth: usize) -> Result<Items<Signed>, Fault>
    ensures { Reads (spec.term depth tokens.old) result tokens.new }
{
    let mut found = Items::from_vec(Vec::with_capacity(alloc, 1)?);
    found.push(signed(alloc, tokens, depth)?)?;
    for _turn in 0..tokens.left() {
        if !is_additive(tokens.peek()) {
            return Ok(found);
        }
        found.push(signed(alloc, tokens, depth)?)?;
    }
    Ok(found)
}

#[cycle(term)]
#[tactic(auto, unfolding(crate::specs::Term::signed))]
fn signed(alloc: Global, tokens: &mut Cursor<'_>, depth: usize) -> Result<Signed, Fault>
    ensures { Reads (spec.signed (spec.product depth) tokens.old) result tokens.new }
{
    let negative = sign(tokens)?;
    let product = product(alloc, tokens, depth)?;
    Ok(Signed { negative, product })
}

#[cycle(term)]
#[tactic(auto, using(crate::proofs::TermDepth::deeper), unfolding(crate::specs::Term::product))]
fn product(alloc: Global, tokens: &mut Cursor<'_>, depth: usize) -> Result<Product, Fault>
    ensures { Reads (spec.product depth tokens.old) result tokens.new }
{
    if depth == 0 {
        return Err(Fault::Syntax);
    }
    product_level(alloc, tokens, depth - 1)
}

#[cycle(term)]
#[tactic(auto, unfolding(crate::specs::Term::product_level))]
fn product_level(alloc: Global, tokens: &mut Cursor<'_>, depth: usize) -> Result<Product, Fault>
    ensures { Reads (spec.product_level (spec.product depth) tokens.old) result tokens.new }
{
    if tokens.peek() == Kind::Number {
        numbered(alloc, tokens, depth)
    } else {
        named(alloc, tokens, depth)
    }
}

/// Goes on with `*` and a number, as often as these come.
#[tactic(auto, using(isl_token::proofs::Turns::turns), unfolding(isl_token::specs::Reading::row))]
fn times(tokens: &mut Cursor<'_>, mut numbers: Items<i128>) -> Result<Items<i128>, Fault>
    ensures { Reads (spec.times numbers tokens.old) result tokens.new }
{
    for _turn in 0..tokens.left() {
        if !sees_times(tokens) {
            return Ok(numbers);
        }
        numbers.push(next_number(tokens)?)?;
    }
    Ok(numbers)
}

/// A product that begins with a number.
#[cycle(term)]
#[tactic(auto, unfolding(crate::specs::Term::numbered))]
fn numbered(alloc: Global, tokens: &mut Cursor<'_>, depth: usize) -> Result<Product, Fault>
    ensures { Reads (spec.numbered (spec.product depth) tokens.old) result tokens.new }
{
    let mut numbers = Items::from_vec(Vec::with_capacity(alloc, 1)?);
    numbers.push(tokens.number()?)?;
    let numbers = times(tokens, numbers)?;
    let inner = inner(alloc, tokens, depth)?;
    Ok(Product { numbers, inner })
}

#[cycle(term)]
#[tactic(auto, unfolding(crate::specs::Term::inner))]
fn inner(alloc: Global, tokens: &mut Cursor<'_>, depth: usize) -> Result<Option<Modded>, Fault>
    ensures { Reads (spec.inner (spec.product depth) tokens.old) result tokens.new }
{
    let kind = tokens.peek();
    if kind == Kind::Star {
        tokens.skip();
        held(alloc, tokens, depth)
    } else if begins_factor(kind) {
        held(alloc, tokens, depth)
    } else {
        Ok(None)
    }
}

#[cycle(term)]
#[tactic(auto, unfolding(crate::specs::Term::held))]
fn held(alloc: Global, tokens: &mut Cursor<'_>, depth: usize) -> Result<Option<Modded>, Fault>
    ensures { Reads (spec.held (spec.product depth) tokens.old) result tokens.new }
{
    Ok(Some(modded(alloc, tokens, depth)?))
}

/// A product that begins with its factor.
#[cycle(term)]
#[tactic(auto, unfolding(crate::specs::Term::named))]
fn named(alloc: Global, tokens: &mut Cursor<'_>, depth: usize) -> Result<Product, Fault>
    ensures { Reads (spec.named (spec.product depth) tokens.old) result tokens.new }
{
    let held = modded(alloc, tokens, depth)?;
    let numbers = times(tokens, Items::new(alloc))?;
    Ok(Product {
        numbers,
        inner: Some(held),
    })
}

/// Goes on with `mod` and a divisor, as often as these come.
#[tactic(auto, using(isl_token::proofs::Turns::turns), unfolding(isl_token::specs::Reading::row))]
fn moduli(alloc: Global, tokens: &mut Cursor<'_>) -> Result<Items<i128>, Fault>
    ensures { Reads (spec.moduli tokens.old) result tokens.new }
{
    let mut found = Items::new(alloc);
    for _turn in 0..tokens.left() {
        if !tokens.sees(Kind::Mod) {
            return Ok(found);
        }
        found.push(modulus(tokens)?)?;
    }
    Ok(found)
}

#[cycle(term)]
#[tactic(auto, unfolding(crate::specs::Term::modded))]
fn modded(alloc: Global, tokens: &mut Cursor<'_>, depth: usize) -> Result<Modded, Fault>
    ensures { Reads (spec.modded (spec.product depth) tokens.old) result tokens.new }
{
    let factor = factor(alloc, tokens, depth)?;
    let moduli = moduli(alloc, tokens)?;
    Ok(Modded { factor, moduli })
}

#[cycle(term)]
#[tactic(auto, unfolding(crate::specs::Term::factor))]
fn factor(alloc: Global, tokens: &mut Cursor<'_>, depth: usize) -> Result<Factor, Fault>
    ensures { Reads (spec.factor (spec.product depth) tokens.old) result tokens.new }
{
    match tokens.peek() {
        Kind::Name => Ok(Factor::Name(tokens.name()?)),
        Kind::Open => {
            tokens.skip();
            enclosed(alloc, tokens, depth)
        }
        kind => quotient(alloc, tokens, depth, kind),
    }
}

/// A quotient, from its first token on, which is of the kind.
#[cycle(term)]
fn quotient(
    alloc: Global,
    tokens: &mut Cursor<'_>,
    depth: usize,
    kind: Kind,
) -> Result<Factor, Fault>
    ensures { Reads (spec.quotient_by (spec.product depth) kind tokens.old) result tokens.new }
{
    match kind {
        Kind::OpenSquare => {
            tokens.skip();
            in_squares(alloc, tokens, depth)
        }
        Kind::Floor => {
            tokens.skip();
            in_brackets(alloc, tokens, depth, Rounding::Down)
        }
        Kind::Ceil => {
            tokens.skip();
            in_brackets(alloc, tokens, depth, Rounding::Up)
        }
        Kind::FloorDiv => {
            tokens.skip();
            divided(alloc, tokens, depth, Rounding::Down)
        }
        Kind::CeilDiv => {
            tokens.skip();
            divided(alloc, tokens, depth, Rounding::Up)
        }
        _ => Err(Fault::Syntax),
    }
}

/// A term and `)`, after the bracket.
#[cycle(term)]
#[tactic(auto, unfolding(crate::specs::Term::enclosed))]
fn enclosed(alloc: Global, tokens: &mut Cursor<'_>, depth: usize) -> Result<Factor, Fault>
    ensures { Reads (spec.enclosed (spec.product depth) tokens.old) result tokens.new }
{
    let inner = term(alloc, tokens, depth)?;
    tokens.expect(Kind::Close)?;
    Ok(Factor::Inner(inner))
}

/// A product that may have a `-`, as a term.
#[cycle(term)]
#[tactic(auto, unfolding(crate::specs::Term::over))]
fn over(alloc: Global, tokens: &mut Cursor<'_>, depth: usize) -> Result<Items<Signed>, Fault>
    ensures { Reads (spec.over (spec.product depth) tokens.old) result tokens.new }
{
    let negative = minus(tokens);
    let product = product(alloc, tokens, depth)?;
    let mut term = Items::new(alloc);
    term.push(Signed { negative, product })?;
    Ok(term)
}

/// Such a product, `/` and a divisor.
#[cycle(term)]
#[tactic(auto, unfolding(crate::specs::Term::ratio))]
fn ratio(
    alloc: Global,
    tokens: &mut Cursor<'_>,
    depth: usize,
    rounding: Rounding,
) -> Result<Factor, Fault>
    ensures { Reads (spec.ratio (spec.product depth) rounding tokens.old) result tokens.new }
{
    let term = over(alloc, tokens, depth)?;
    tokens.expect(Kind::Slash)?;
    let divisor = tokens.positive()?;
    Ok(rounded(rounding, term, divisor))
}

/// `(` ratio `)`.
#[cycle(term)]
#[tactic(auto, unfolding(crate::specs::Term::in_brackets))]
fn in_brackets(
    alloc: Global,
    tokens: &mut Cursor<'_>,
    depth: usize,
    rounding: Rounding,
) -> Result<Factor, Fault>
    ensures { Reads (spec.in_brackets (spec.product depth) rounding tokens.old) result tokens.new }
{
    tokens.expect(Kind::Open)?;
    let quotient = ratio(alloc, tokens, depth, rounding)?;
    tokens.expect(Kind::Close)?;
    Ok(quotient)
}

/// A ratio and `]`, after the bracket.
#[cycle(term)]
#[tactic(auto, unfolding(crate::specs::Term::in_squares))]
fn in_squares(alloc: Global, tokens: &mut Cursor<'_>, depth: usize) -> Result<Factor, Fault>
    ensures { Reads (spec.in_squares (spec.product depth) tokens.old) result tokens.new }
{
    let quotient = ratio(alloc, tokens, depth, Rounding::Down)?;
    tokens.expect(Kind::CloseSquare)?;
    Ok(quotient)
}

/// `(` term `,` divisor `)`.
#[cycle(term)]
#[tactic(auto, unfolding(crate::specs::Term::divided))]
fn divided(
    alloc: Global,
    tokens: &mut Cursor<'_>,
    depth: usize,
    rounding: Rounding,
) -> Result<Factor, Fault>
    ensures { Reads (spec.divided (spec.product depth) rounding tokens.old) result tokens.new }
{
    tokens.expect(Kind::Open)?;
    let term = term(alloc, tokens, depth)?;
    tokens.expect(Kind::Comma)?;
    let divisor = tokens.positive()?;
    tokens.expect(Kind::Close)?;
    Ok(rounded(rounding, term, divisor))
}

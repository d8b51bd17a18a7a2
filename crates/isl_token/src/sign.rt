//! Signs by their first bytes.

ghost use Rattle.std.specs.Prelude.{◌≡◌, ◌≤◌, length, slice_index, IsTrue};
ghost use Rattle.std.specs.List.{list_any};
ghost use Rattle.std.specs.Str.{bytes_eq};
ghost use Rattle.isl_token.specs.Token.{signs, sign_kind};
ghost use Rattle.isl_token.specs.Lex.{sign_len};
ghost use Rattle.isl_token.specs.Signs as spec;

use crate::token::Kind;

/// The signs with which no other begins.
fn alone(first: u8) -> (Kind, usize)
    ensures { result ≡ spec.alone first }
{
    match first {
        b',' => (Kind::Comma, 1),
        b';' => (Kind::Semicolon, 1),
        b'(' => (Kind::Open, 1),
        b')' => (Kind::Close, 1),
        b'[' => (Kind::OpenSquare, 1),
        b']' => (Kind::CloseSquare, 1),
        b'{' => (Kind::OpenBrace, 1),
        b'}' => (Kind::CloseBrace, 1),
        b'+' => (Kind::Plus, 1),
        b'*' => (Kind::Star, 1),
        b'.' => (Kind::Dot, 1),
        b'/' => (Kind::Slash, 1),
        b'%' => (Kind::Mod, 1),
        _ => (Kind::End, 0),
    }
}

/// `-` and the arrows.
fn dashes(second: u8, third: u8) -> (Kind, usize)
    ensures { result ≡ spec.dashes second third }
{
    match (second, third) {
        (b'>', b'-') => (Kind::ArrowMinus, 3),
        (b'>', b'*') => (Kind::ArrowStar, 3),
        (b'>', _) => (Kind::Arrow, 2),
        _ => (Kind::Minus, 1),
    }
}

fn less(second: u8, third: u8) -> (Kind, usize)
    ensures { result ≡ spec.less second third }
{
    match (second, third) {
        (b'<', b'=') => (Kind::LexLessEqual, 3),
        (b'<', _) => (Kind::LexLess, 2),
        (b'=', _) => (Kind::LessEqual, 2),
        _ => (Kind::Less, 1),
    }
}

fn greater(second: u8, third: u8) -> (Kind, usize)
    ensures { result ≡ spec.greater second third }
{
    match (second, third) {
        (b'>', b'=') => (Kind::LexGreaterEqual, 3),
        (b'>', _) => (Kind::LexGreater, 2),
        (b'=', _) => (Kind::GreaterEqual, 2),
        _ => (Kind::Greater, 1),
    }
}

/// Signs of two bytes of which the second is `=` or the first again, the inverse, and signs that stand alone.
fn doubled(first: u8, second: u8, third: u8) -> (Kind, usize)
    ensures { result ≡ spec.doubled first second third }
{
    match (first, second, third) {
        (b':', b'=', _) => (Kind::Assign, 2),
        (b':', _, _) => (Kind::Colon, 1),
        (b'=', b'=', _) => (Kind::Equal, 2),
        (b'=', _, _) => (Kind::Equal, 1),
        (b'!', b'=', _) => (Kind::Differs, 2),
        (b'!', _, _) => (Kind::Not, 1),
        (b'&', b'&', _) => (Kind::And, 2),
        (b'|', b'|', _) => (Kind::Or, 2),
        (b'^', b'-', b'1') => (Kind::Inverse, 3),
        (b'&' | b'|' | b'^', _, _) => (Kind::End, 0),
        _ => alone(first),
    }
}

/// The kind of the longest sign with these first bytes, and its length, 0 where none begins so.
fn sign_by(first: u8, second: u8, third: u8) -> (Kind, usize)
    ensures { result ≡ spec.sign_by first second third }
{
    match first {
        b'-' => dashes(second, third),
        b'<' => less(second, third),
        b'>' => greater(second, third),
        _ => doubled(first, second, third),
    }
}

/// The byte at a place, 0 where none is there.
fn byte_at(z: &[u8], at: usize) -> u8
    ensures { result ≡ slice_index z.now at }
{
    if at < z.len() { z[at] } else { 0 }
}

/// The kind of the longest sign at the front, and its length, 0 where none stands there.
#[tactic(auto, using(crate::proofs::SignLaws::first_bytes, crate::proofs::SignLaws::sign_within))]
pub(crate) fn sign(z: &[u8]) -> (Kind, usize)
    ensures first { result ≡ spec.sign_by (slice_index z.now 0) (slice_index z.now 1) (slice_index z.now 2) }
    ensures longest { result.1 ≡ sign_len z.now }
    ensures within { result.1 ≤ length z.now }
{
    sign_by(byte_at(z, 0), byte_at(z, 1), byte_at(z, 2))
}

/// The kind of a sign.
#[tactic(auto, using(crate::proofs::SignLaws::kind_told))]
pub(crate) fn sign_kind(text: &[u8]) -> Kind
    requires { IsTrue (list_any (bytes_eq text.now) signs) }
    ensures { result ≡ sign_kind text.now }
{
    sign(text).0
}

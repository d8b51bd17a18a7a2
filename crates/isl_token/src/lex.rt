//! Tokens from bytes.

ghost use Rattle.std.specs.Prelude.{◌≡◌, ◌≢◌, ◌<◌, ◌≤◌, All, length, slice_index, map, true, nat_eq, IfOk};
ghost use Rattle.std.specs.List.{starts_with};
ghost use Rattle.isl_token.specs.Lex as spec;
ghost use Rattle.isl_token.specs.Lex.{Lexes, IsPiece, IsKindOfPiece};
ghost use Rattle.isl_token.specs.Token.{IsToken};

use crate::fault::Fault;
use crate::marks::{Mark, Tokens};
use crate::sign::{sign, sign_kind};
use crate::token::{Kind, word_kind};
use std::alloc::Global;

/// Bytes that stand in rows.
#[derive(Clone, Copy)]
enum Class {
    Blank,
    Comment,
    Letter,
    Word,
    Prime,
    Digit,
}

/// What stands at the front of a text.
#[derive(Clone, Copy)]
pub(crate) enum Piece {
    /// A blank or a comment.
    Nothing,
    Word,
    Number,
    Sign,
    /// No token begins so.
    Wrong,
}

fn is_in(class: Class, byte: u8) -> bool
    ensures { result ≡ spec.is_in class byte }
{
    match class {
        Class::Blank => byte == b' ' || byte == b'\t' || byte == b'\r' || byte == b'\n',
        Class::Comment => byte != b'\n',
        Class::Letter => byte.is_ascii_alphabetic() || byte == b'_',
        Class::Word => byte.is_ascii_alphanumeric() || byte == b'_',
        Class::Prime => byte == b'\'',
        Class::Digit => byte.is_ascii_digit(),
    }
}

/// The first place from `at` on whose byte is not of the class.
fn past(class: Class, z: &[u8], at: usize) -> usize
    requires { at ≤ length z.now }
    ensures value { result ≡ spec.past class z.now at }
    ensures within { (at ≤ result) × (result ≤ length z.now) }
{
    let mut end = at;
    while end < z.len() && is_in(class, z[end]) {
        end += 1;
    }
    end
}

/// What stands at the front, and its length in bytes.
#[tactic(auto, unfolding(crate::specs::Lex::cut))]
pub(crate) fn cut(z: &[u8]) -> (Piece, usize)
    requires { 0 < length z.now }
    ensures value { result ≡ spec.cut z.now }
    ensures within { result.1 ≤ length z.now }
    ensures moves { 1 ≤ result.1 }
{
    let byte = z[0];
    if is_in(Class::Blank, byte) {
        (Piece::Nothing, 1)
    } else if byte == b'#' {
        (Piece::Nothing, past(Class::Comment, z, 1))
    } else if is_in(Class::Letter, byte) {
        (Piece::Word, past(Class::Prime, z, past(Class::Word, z, 1)))
    } else if is_in(Class::Digit, byte) {
        (Piece::Number, past(Class::Digit, z, 1))
    } else {
        match sign(z) {
            (_, 0) => (Piece::Wrong, 1),
            (_, len) => (Piece::Sign, len),
        }
    }
}

/// The kind of the piece's token, if it has one.
fn kind_of_piece(piece: Piece, text: &[u8]) -> Result<Option<Kind>, Fault>
    requires { IsPiece piece text.now }
    ensures { IsKindOfPiece piece text.now result }
{
    match piece {
        Piece::Nothing => Ok(None),
        Piece::Word => Ok(Some(word_kind(text))),
        Piece::Number => Ok(Some(Kind::Number)),
        Piece::Sign => Ok(Some(sign_kind(text))),
        Piece::Wrong => Err(Fault::Syntax),
    }
}

/// The tokens of a text, each the longest that fits.
///
/// # Errors
/// `Syntax` exactly where some byte begins no token, and `NoMemory` where memory runs out or the text has 4 GiB or more.
#[tactic(auto, using(crate::proofs::Pieces::pieces))]
pub fn tokens(alloc: Global, text: &[u8]) -> Result<Tokens<'_>, Fault>
    ensures lexes { Lexes (spec.tokens text.now) result }
    ensures formed { IfOk result (λ ts. All IsToken ts) }
{
    if text.len() > u32::MAX as usize {
        return Err(Fault::NoMemory);
    }
    let mut marks = Vec::with_capacity(alloc, text.len())?;
    let mut at: usize = 0;
    while at < text.len() {
        let (_, rest) = text.split_at(at);
        let (piece, len) = cut(rest);
        let (front, _) = rest.split_at(len);
        let next = at + len;
        if let Some(kind) = kind_of_piece(piece, front)? {
            marks.push(Mark {
                place: at as u32,
                kind,
            })?;
        }
        at = next;
    }
    Ok(Tokens { text, marks })
}

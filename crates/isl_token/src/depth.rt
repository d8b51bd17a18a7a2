//! How deep the tokens of a text are nested.

ghost use Rattle.std.specs.Prelude.{◌≡◌, ◌+◌, ◌≤◌, map};
ghost use Rattle.std.specs.List.{list_any};
ghost use Rattle.std.specs.Str.{bytes_eq};
ghost use Rattle.isl_token.specs.Depth as spec;
ghost use Rattle.isl_token.specs.Reading as reading;

use crate::marks::{Rest, Tokens};
use crate::token::Kind;
use isl_space::limits::MAX_DEPTH;
use isl_tree::words::prefix_of;

// The stacking words that stand before no operand of a statement, or before three.
const OTHERS: [&[u8]; 4] = [b"not", b"exists", b"any", b"last"];

/// A place in a text: the brackets that are open, and the stacking words since the last brace or `;`.
#[derive(Clone, Copy)]
struct Place {
    brackets: usize,
    words: usize,
}

fn is_among(mut texts: &[&[u8]], text: &[u8]) -> bool
    ensures { result ≡ list_any (bytes_eq text.now) (map (λ t. t.now) texts.entry.now) }
{
    while let [first, rest @ ..] = texts {
        if text == *first {
            return true;
        }
        texts = rest;
    }
    false
}

// Whether the word stands before an operand, so that such words can stand in a row.
#[tactic(auto, using(crate::proofs::WordLaws::listed))]
fn is_listed(word: &[u8]) -> bool
    ensures { result ≡ spec.is_stacking_word word.now }
{
    match prefix_of(word) {
        Some(_) => true,
        None => is_among(&OTHERS, word),
    }
}

/// Whether the word stacks. None of those that do has less than three letters.
#[tactic(auto, using(crate::proofs::WordLaws::two_letters))]
fn is_stacking_word(word: &[u8]) -> bool
    ensures { result ≡ spec.is_stacking_word word.now }
{
    word.len() > 2 && is_listed(word)
}

fn is_stacking(rest: &Rest<'_>) -> bool
    ensures { result ≡ spec.head_is_stacking rest.now }
{
    match rest.peek() {
        Kind::Not | Kind::Exists => true,
        Kind::Name => match rest.word() {
            Some(word) => is_stacking_word(word.as_bytes()),
            None => false,
        },
        _ => false,
    }
}

/// The place behind the next token.
fn step(place: Place, rest: &Rest<'_>) -> Place
    requires { place.brackets + place.words ≤ MAX_DEPTH }
    ensures { result ≡ spec.step_by place (spec.head_is_stacking rest.now) (reading.head_kind rest.now) }
{
    let Place { brackets, words } = place;
    match rest.peek() {
        Kind::Open | Kind::OpenSquare => Place {
            brackets: brackets + 1,
            words,
        },
        Kind::OpenBrace => Place {
            brackets: brackets + 1,
            words: 0,
        },
        Kind::Close | Kind::CloseSquare => Place {
            brackets: brackets.saturating_sub(1),
            words,
        },
        Kind::CloseBrace => Place {
            brackets: brackets.saturating_sub(1),
            words: 0,
        },
        Kind::Semicolon => Place { brackets, words: 0 },
        _ => Place {
            brackets,
            words: words + usize::from(is_stacking(rest)),
        },
    }
}

/// Whether the depth is above 200 at some token.
///
/// The depth at a token is the number of brackets that are open there and of the stacking words since the last brace or
/// `;`, the token counted.
#[tactic(auto, using(crate::proofs::DepthLaws::depth_step, crate::proofs::FewTokens::few_tokens))]
pub fn is_too_deep(tokens: &Tokens<'_>) -> bool
    ensures { result ≡ spec.is_too_deep tokens.now }
{
    let mut rest = tokens.rest();
    if rest.left() <= MAX_DEPTH {
        // Each token adds at most one.
        return false;
    }
    let mut place = Place {
        brackets: 0,
        words: 0,
    };
    while rest.left() > 0 {
        place = step(place, &rest);
        if place.brackets + place.words > MAX_DEPTH {
            return true;
        }
        rest.skip();
    }
    false
}

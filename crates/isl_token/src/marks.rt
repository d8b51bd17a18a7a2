//! The tokens of a text, kept as marks at its bytes.

ghost use Rattle.std.specs.Prelude.{◌≡◌, ◌≤◌, List, ◌∷◌, length, take, drop, MatchOption};
ghost use Rattle.isl_token.specs.TokenView.{Token};
ghost use Rattle.isl_token.specs.Lex.{token_at, IsKindAt};
ghost use Rattle.isl_token.specs.AnyWord.{any_word};
ghost use Rattle.isl_token.specs.Reading as spec;

use crate::lex::{Piece, cut};
use crate::token::Kind;
use std::marker::Model;

/// Where a token begins, and its kind.
#[derive(Clone, Copy)]
pub(crate) struct Mark {
    pub(crate) place: u32,
    pub(crate) kind: Kind,
}

/// The tokens of a text, in its order. Contracts see their list.
#[derive(Drop)]
pub struct Tokens<'a> {
    pub(crate) text: &'a [u8],
    pub(crate) marks: Vec<Mark>,
}

impl<'a> Model for Tokens<'a> {
    ghost use Rattle.std.specs.Prelude.{List, All, map};
    ghost use Rattle.isl_token.specs.TokenView.{Token};
    ghost use Rattle.isl_token.specs.Lex.{token_at, IsKindAt};

    ghost Value = { List Token };

    ghost view = { λ t. map (λ m. token_at t.text.now m.place) t.marks.items };

    ghost invariant = { λ t. All (λ m. IsKindAt t.text.now m.place m.kind) t.marks.items };
}

impl<'a> Tokens<'a> {
    /// All of them, to be looked at in their order.
    pub fn rest(&self) -> Rest<'_>
        ensures { result ≡ self.now }
    {
        Rest {
            text: self.text,
            marks: &self.marks,
        }
    }
}

/// The tokens from some place of a text on, which are looked at one after the other.
#[derive(Drop)]
pub struct Rest<'a> {
    text: &'a [u8],
    marks: &'a [Mark],
}

impl<'a> Model for Rest<'a> {
    ghost use Rattle.std.specs.Prelude.{List, All, map};
    ghost use Rattle.isl_token.specs.TokenView.{Token};
    ghost use Rattle.isl_token.specs.Lex.{token_at, IsKindAt};

    ghost Value = { List Token };

    ghost view = { λ t. map (λ m. token_at t.text.now m.place) t.marks.now };

    ghost invariant = { λ t. All (λ m. IsKindAt t.text.now m.place m.kind) t.marks.now };
}

impl<'a> Rest<'a> {
    /// How many tokens are left.
    pub fn left(&self) -> usize
        ensures { result ≡ length self.now }
    {
        self.marks.len()
    }

    /// The same tokens.
    pub fn copy(&self) -> Rest<'a>
        ensures { result ≡ self.now }
    {
        Rest {
            text: self.text,
            marks: self.marks,
        }
    }

    /// The kind of the next token.
    pub fn peek(&self) -> Kind
        ensures { result ≡ spec.head_kind self.now }
    {
        match self.marks {
            [] => Kind::End,
            [mark, ..] => mark.kind,
        }
    }

    /// The kind of the token after the next.
    pub fn second(&self) -> Kind
        ensures { result ≡ spec.second_kind self.now }
    {
        match self.marks {
            [_, mark, ..] => mark.kind,
            _ => Kind::End,
        }
    }

    /// Goes past the next token.
    pub fn skip(&mut self)
        ensures { self.new ≡ spec.tail self.old }
    {
        if let [_, rest @ ..] = self.marks {
            self.marks = rest;
        }
    }

    /// The next token's kind, which goes past it.
    pub fn next(&mut self) -> Option<Kind>
        ensures { spec.IsNext self.old result self.new }
    {
        match self.marks {
            [] => None,
            [mark, rest @ ..] => {
                self.marks = rest;
                Some(mark.kind)
            }
        }
    }

    /// The text of the next token, where it is an identifier.
    pub fn word(&self) -> Option<&'a str>
        ensures { MatchOption result (spec.name self.now ≡ None) (λ word. spec.name self.now ≡ Some (word.now, spec.tail self.now)) }
    {
        match self.marks {
            [] => None,
            [mark, ..] => word_at(self.text, mark),
        }
    }

    /// The text of the next token, where it is a word, whatever it means inside a literal.
    pub fn any_word(&self) -> Option<&'a str>
        ensures { MatchOption result (any_word self.now ≡ None)
            (λ word. any_word self.now ≡ Some (word.now, spec.tail self.now)) }
    {
        match self.marks {
            [] => None,
            [mark, ..] => any_word_at(self.text, mark),
        }
    }

    /// The digits of the next token, where it is a number.
    pub fn digits(&self) -> Option<&'a [u8]>
        ensures { MatchOption result (spec.digits self.now ≡ None)
            (λ digits. spec.digits self.now ≡ Some (digits.now, spec.tail self.now)) }
    {
        match self.marks {
            [] => None,
            [mark, ..] => digits_at(self.text, mark),
        }
    }

    /// The tokens from the one with this number on.
    pub fn from(&self, at: usize) -> Rest<'a>
        requires { at ≤ length self.now }
        ensures { result ≡ drop at self.now }
    {
        let (_, marks) = self.marks.split_at(at);
        Rest {
            text: self.text,
            marks,
        }
    }

    /// So many of them.
    pub fn first(&self, count: usize) -> Rest<'a>
        requires { count ≤ length self.now }
        ensures { result ≡ take count self.now }
    {
        let (marks, _) = self.marks.split_at(count);
        Rest {
            text: self.text,
            marks,
        }
    }
}

/// The text of the token with the mark, where it is an identifier.
fn word_at<'a>(text: &'a [u8], mark: &Mark) -> Option<&'a str>
    requires { IsKindAt text.now mark.now.place mark.now.kind }
    ensures { (after : List Token) → MatchOption result (spec.name (token_at text.now mark.now.place ∷ after) ≡ None)
        (λ word. spec.name (token_at text.now mark.now.place ∷ after) ≡ Some (word.now, after)) }
{
    match mark.kind {
        Kind::Name => any_word_at(text, mark),
        _ => None,
    }
}

/// The text of the token with the mark, where it is a word.
fn any_word_at<'a>(text: &'a [u8], mark: &Mark) -> Option<&'a str>
    requires { IsKindAt text.now mark.now.place mark.now.kind }
    ensures { (after : List Token) → MatchOption result (any_word (token_at text.now mark.now.place ∷ after) ≡ None)
        (λ word. any_word (token_at text.now mark.now.place ∷ after) ≡ Some (word.now, after)) }
{
    let (_, rest) = text.split_at(mark.place as usize);
    match cut(rest) {
        (Piece::Word, len) => match std::str::from_utf8(rest.split_at(len).0) {
            Ok(word) => Some(word),
            Err(_) => None,
        },
        _ => None,
    }
}

/// The digits of the token with the mark, where it is a number.
fn digits_at<'a>(text: &'a [u8], mark: &Mark) -> Option<&'a [u8]>
    requires { IsKindAt text.now mark.now.place mark.now.kind }
    ensures { (after : List Token) → MatchOption result (spec.digits (token_at text.now mark.now.place ∷ after) ≡ None)
        (λ digits. spec.digits (token_at text.now mark.now.place ∷ after) ≡ Some (digits.now, after)) }
{
    match mark.kind {
        Kind::Number => {
            let (_, rest) = text.split_at(mark.place as usize);
            match cut(rest) {
                (Piece::Number, len) => Some(rest.split_at(len).0),
                _ => None,
            }
        }
        _ => None,
    }
}

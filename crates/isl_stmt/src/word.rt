//! What a word is outside literals.

ghost use Rattle.std.specs.Prelude.{◌≡◌};
ghost use Rattle.isl_token.specs.AnyWord.{any_word};
ghost use Rattle.isl_token.specs.Reading.{Reads};
ghost use Rattle.isl_stmt.specs.Word as spec;

use isl_space::Name;
use isl_token::{Cursor, Fault};
use isl_tree::statement::Prefix;
use isl_tree::words::{look_up, prefix_of};
use std::alloc::Global;

/// What a token is outside literals, where it is a word.
#[derive(Clone, Copy, PartialEq, Eq)]
pub enum Role {
    /// No word.
    NoWord,
    Name,
    /// A word that stands before an operand.
    Prefix,
    Print,
    Any,
    Last,
    Before,
    Under,
    Cross,
    Assume,
}

const KEYWORDS: [(&[u8], Role); 7] = [
    (b"print", Role::Print),
    (b"any", Role::Any),
    (b"last", Role::Last),
    (b"before", Role::Before),
    (b"under", Role::Under),
    (b"cross", Role::Cross),
    (b"assume", Role::Assume),
];

#[tactic(auto, unfolding(crate::specs::Word::keyword_of))]
fn keyword_of(word: &[u8]) -> Option<Role>
    ensures { result ≡ spec.keyword_of word.now }
{
    look_up(&KEYWORDS, word)
}

fn role_of(word: &[u8]) -> Role
    ensures { result ≡ spec.role_of word.now }
{
    match prefix_of(word) {
        Some(_) => Role::Prefix,
        None => keyword_of(word).unwrap_or(Role::Name),
    }
}

/// What the next token is, where it is a word.
#[tactic(auto, using(crate::proofs::WordReads::word_reads))]
pub fn next_role(tokens: &Cursor<'_>) -> Role
    ensures { result ≡ spec.head_role tokens.now }
{
    match tokens.rest().any_word() {
        Some(word) => role_of(word.as_bytes()),
        None => Role::NoWord,
    }
}

/// Goes past the next token, which has to be a word of the role.
///
/// # Errors
/// `Syntax` where another token comes next.
#[tactic(auto, unfolding(crate::specs::Word::expect_word))]
pub fn expect_word(tokens: &mut Cursor<'_>, wanted: Role) -> Result<(), Fault>
    ensures { Reads (spec.expect_word wanted tokens.old) result tokens.new }
{
    if next_role(tokens) == wanted {
        tokens.skip();
        Ok(())
    } else {
        Err(Fault::Syntax)
    }
}

/// Reads a word, whatever it means.
fn any_word(alloc: Global, tokens: &mut Cursor<'_>) -> Result<Name, Fault>
    ensures { Reads (any_word tokens.old) result tokens.new }
{
    match tokens.rest().any_word() {
        Some(word) => {
            let name = Name::new(alloc, word)?;
            tokens.skip();
            Ok(name)
        }
        None => Err(Fault::Syntax),
    }
}

/// Reads a name.
///
/// # Errors
/// `Syntax` where another token comes next.
#[tactic(auto, unfolding(crate::specs::Word::variable))]
pub fn variable(alloc: Global, tokens: &mut Cursor<'_>) -> Result<Name, Fault>
    ensures { Reads (spec.variable tokens.old) result tokens.new }
{
    if next_role(tokens) == Role::Name {
        any_word(alloc, tokens)
    } else {
        Err(Fault::Syntax)
    }
}

/// The next token, where it is a word before an operand.
#[tactic(auto, using(crate::proofs::WordReads::word_reads))]
fn head_prefix(tokens: &Cursor<'_>) -> Option<Prefix>
    ensures { result ≡ spec.head_prefix tokens.now }
{
    match tokens.rest().any_word() {
        Some(word) => prefix_of(word.as_bytes()),
        None => None,
    }
}

/// Reads a word that stands before an operand.
///
/// # Errors
/// `Syntax` where another token comes next.
#[tactic(auto, unfolding(crate::specs::Word::prefix))]
pub fn prefix(tokens: &mut Cursor<'_>) -> Result<Prefix, Fault>
    ensures { Reads (spec.prefix tokens.old) result tokens.new }
{
    match head_prefix(tokens) {
        Some(prefix) => {
            tokens.skip();
            Ok(prefix)
        }
        None => Err(Fault::Syntax),
    }
}

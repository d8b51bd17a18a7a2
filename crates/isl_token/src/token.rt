//! What a token is to the grammar of literals.

ghost use Rattle.std.specs.Prelude.{◌≡◌, map};
ghost use Rattle.isl_token.specs.Token as spec;

/// What a token is to the grammar of literals: words and signs of one meaning are one kind.
#[derive(Clone, Copy, PartialEq, Eq)]
pub enum Kind {
    /// No token.
    End,
    /// An identifier.
    Name,
    Number,
    And,
    Or,
    Not,
    Implies,
    Exists,
    True,
    False,
    Mod,
    Floor,
    Ceil,
    FloorDiv,
    CeilDiv,
    Open,
    Close,
    OpenSquare,
    CloseSquare,
    OpenBrace,
    CloseBrace,
    Comma,
    Semicolon,
    Colon,
    Arrow,
    Plus,
    Minus,
    Star,
    Slash,
    Equal,
    Less,
    LessEqual,
    Greater,
    GreaterEqual,
    Differs,
    // Signs that statements have, and literals have not.
    Assign,
    Inverse,
    Dot,
    ArrowMinus,
    ArrowStar,
    LexLess,
    LexLessEqual,
    LexGreater,
    LexGreaterEqual,
}

/// The words that are no identifiers inside a literal.
pub const WORDS: [(&[u8], Kind); 12] = [
    (b"and", Kind::And),
    (b"or", Kind::Or),
    (b"not", Kind::Not),
    (b"implies", Kind::Implies),
    (b"exists", Kind::Exists),
    (b"true", Kind::True),
    (b"false", Kind::False),
    (b"mod", Kind::Mod),
    (b"floor", Kind::Floor),
    (b"ceil", Kind::Ceil),
    (b"floord", Kind::FloorDiv),
    (b"ceild", Kind::CeilDiv),
];

/// The kind of the text in the table, or the other kind where it is not there.
fn kind_in(mut table: &[(&[u8], Kind)], text: &[u8], other: Kind) -> Kind
    ensures { result ≡ spec.kind_in (map (λ k. (k.0.now, k.1)) table.entry.now) text.now other }
{
    while let [entry, rest @ ..] = table {
        if entry.0 == text {
            return entry.1;
        }
        table = rest;
    }
    other
}

#[tactic(auto, unfolding(crate::specs::Token::word_kind))]
fn listed_kind(word: &[u8]) -> Kind
    ensures { result ≡ spec.word_kind word.now }
{
    kind_in(&WORDS, word, Kind::Name)
}

/// The kind of a word. None of the list has one letter.
#[tactic(auto, using(crate::proofs::WordLaws::one_letter))]
pub(crate) fn word_kind(word: &[u8]) -> Kind
    ensures { result ≡ spec.word_kind word.now }
{
    if word.len() < 2 {
        Kind::Name
    } else {
        listed_kind(word)
    }
}

//! The keywords and the symbols.

ghost use Rattle.std.specs.Prelude.{◌≡◌, map};
ghost use Rattle.cw_model.specs.Pieces as spec;
ghost use Rattle.cw_model.specs.Tokens.{lookup, word_kind};

use cw_model::token::Kind;

const KEYWORDS: [(&[u8], Kind); 22] = [
    (b"int", Kind::Int),
    (b"void", Kind::Void),
    (b"const", Kind::Const),
    (b"if", Kind::If),
    (b"else", Kind::Else),
    (b"while", Kind::While),
    (b"return", Kind::Return),
    (b"print", Kind::Print),
    (b"len", Kind::Len),
    (b"cut", Kind::Cut),
    (b"at", Kind::At),
    (b"as", Kind::As),
    (b"region", Kind::Region),
    (b"reducer", Kind::Reducer),
    (b"sum", Kind::Sum),
    (b"max", Kind::Max),
    (b"grain", Kind::Grain),
    (b"over", Kind::Over),
    (b"cilk_spawn", Kind::Spawn),
    (b"cilk_sync", Kind::Sync),
    (b"cilk_scope", Kind::Scope),
    (b"cilk_for", Kind::For),
];

// Returns the kind of a word in the table, or `Name` if the table does not have it.
#[inline(always)]
fn lookup(mut table: &[(&[u8], Kind)], word: &[u8]) -> Kind
    ensures { result ≡ lookup (map (λ k. (k.0.now, k.1)) table.entry.now) word.now }
{
    while let [entry, rest @ ..] = table {
        if entry.0 == word {
            return entry.1;
        }
        table = rest;
    }
    Kind::Name
}

/// Returns the keyword that the word spells, or `Name`.
#[inline(always)]
pub fn word_kind(word: &[u8]) -> Kind
    ensures { result ≡ word_kind word.now }
{
    lookup(&KEYWORDS, word)
}

/// Returns the symbol of one byte, if the byte is a symbol.
#[inline(always)]
pub fn one_byte(byte: u8) -> Option<Kind>
    ensures { result ≡ spec.one_byte byte }
{
    match byte {
        b'(' => Some(Kind::LeftParen),
        b')' => Some(Kind::RightParen),
        b'{' => Some(Kind::LeftBrace),
        b'}' => Some(Kind::RightBrace),
        b'[' => Some(Kind::LeftBracket),
        b']' => Some(Kind::RightBracket),
        b',' => Some(Kind::Comma),
        b';' => Some(Kind::Semicolon),
        b'=' => Some(Kind::Assign),
        b'+' => Some(Kind::Plus),
        b'-' => Some(Kind::Minus),
        b'*' => Some(Kind::Star),
        b'/' => Some(Kind::Slash),
        b'%' => Some(Kind::Percent),
        b'<' => Some(Kind::Less),
        b'>' => Some(Kind::Greater),
        b'!' => Some(Kind::Not),
        _ => None,
    }
}

/// Returns the symbol of two bytes, if they are a symbol.
pub fn two_bytes(first: u8, second: u8) -> Option<Kind>
    ensures { result ≡ spec.two_bytes first second }
{
    match (first, second) {
        (b'+', b'=') => Some(Kind::AddAssign),
        (b'+', b'+') => Some(Kind::Increment),
        (b'<', b'=') => Some(Kind::LessEqual),
        (b'>', b'=') => Some(Kind::GreaterEqual),
        (b'=', b'=') => Some(Kind::Equal),
        (b'!', b'=') => Some(Kind::NotEqual),
        _ => None,
    }
}

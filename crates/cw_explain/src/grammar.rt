//! The tokens that can follow, each as a word that spells it.

use cw_model::token::Kind;

/// All of them: names, numbers, keywords and symbols. `*` represents the operators between two operands; a `-` can be where
/// a `!` or one of them can.
pub static ALL: &[&str] = &[
    "x",
    "1",
    "int",
    "void",
    "const",
    "if",
    "else",
    "while",
    "return",
    "print",
    "len",
    "cut",
    "at",
    "as",
    "region",
    "reducer",
    "sum",
    "max",
    "grain",
    "over",
    "cilk_spawn",
    "cilk_sync",
    "cilk_scope",
    "cilk_for",
    "(",
    ")",
    "{",
    "}",
    "[",
    "]",
    ",",
    ";",
    "=",
    "+=",
    "++",
    "*",
    "!",
];

/// Returns the name of the tokens that one of these words spells.
pub fn shown(word: &'static str) -> &'static str {
    match word {
        "x" => "a name",
        "1" => "a number",
        "*" => "an operator",
        "!" => "a sign (- or !)",
        _ => word,
    }
}

/// Returns the keyword that a token of this kind is, if it is one.
pub fn keyword(kind: Kind) -> Option<&'static str> {
    let word = match kind {
        Kind::Int => "int",
        Kind::Void => "void",
        Kind::Const => "const",
        Kind::If => "if",
        Kind::Else => "else",
        Kind::While => "while",
        Kind::Return => "return",
        Kind::Print => "print",
        Kind::Len => "len",
        Kind::Cut => "cut",
        Kind::At => "at",
        Kind::As => "as",
        Kind::Region => "region",
        Kind::Reducer => "reducer",
        Kind::Sum => "sum",
        Kind::Max => "max",
        Kind::Grain => "grain",
        Kind::Over => "over",
        Kind::Spawn => "cilk_spawn",
        Kind::Sync => "cilk_sync",
        Kind::Scope => "cilk_scope",
        Kind::For => "cilk_for",
        _ => return None,
    };
    Some(word)
}

/// Returns a text of a token of this kind, one for all names and one for all numbers.
pub fn spelling(kind: Kind) -> &'static str {
    match kind {
        Kind::Name => "x",
        Kind::Number(_) => "1",
        _ => keyword(kind).unwrap_or(symbol(kind)),
    }
}

// The text of a symbol.
fn symbol(kind: Kind) -> &'static str {
    match kind {
        Kind::LeftParen => "(",
        Kind::RightParen => ")",
        Kind::LeftBrace => "{",
        Kind::RightBrace => "}",
        Kind::LeftBracket => "[",
        Kind::RightBracket => "]",
        Kind::Comma => ",",
        Kind::Semicolon => ";",
        Kind::Assign => "=",
        Kind::AddAssign => "+=",
        Kind::Increment => "++",
        Kind::Plus => "+",
        Kind::Minus => "-",
        Kind::Star => "*",
        Kind::Slash => "/",
        Kind::Percent => "%",
        Kind::Less => "<",
        Kind::LessEqual => "<=",
        Kind::Greater => ">",
        Kind::GreaterEqual => ">=",
        Kind::Equal => "==",
        Kind::NotEqual => "!=",
        _ => "!",
    }
}

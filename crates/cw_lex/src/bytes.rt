//! Classes of bytes, and runs of bytes of one class.

ghost use Rattle.std.specs.Prelude.{◌≡◌, ◌≤◌, length};
ghost use Rattle.std.specs.List.{prefix_len};
ghost use Rattle.cw_model.specs.Pieces as spec;
ghost use Rattle.cw_lex.specs.Front.{passes};

/// Represents a class of bytes.
#[derive(Clone, Copy, Debug)]
pub enum Class {
    /// The bytes of a number.
    Digit,
    /// The bytes of a keyword or a name: letters, `_` and digits.
    Word,
    /// The bytes of a comment: every byte but LF.
    Inner,
}

fn passes(class: Class, byte: u8) -> bool
    ensures { result ≡ passes class byte }
{
    match class {
        Class::Digit => is_digit(byte),
        Class::Word => is_letter(byte) || is_digit(byte),
        Class::Inner => byte != b'\n',
    }
}

/// Reports whether the byte is one of `0` to `9`.
pub fn is_digit(byte: u8) -> bool
    ensures { result ≡ spec.is_digit byte }
{
    byte >= b'0' && byte <= b'9'
}

/// Reports whether the byte is a letter or `_`.
pub fn is_letter(byte: u8) -> bool
    ensures { result ≡ spec.is_letter byte }
{
    (byte >= b'a' && byte <= b'z') || (byte >= b'A' && byte <= b'Z') || byte == b'_'
}

/// Reports whether the byte is a space, a tab, a CR or an LF.
pub fn is_separator(byte: u8) -> bool
    ensures { result ≡ spec.is_separator byte }
{
    byte == b' ' || byte == b'\t' || byte == b'\r' || byte == b'\n'
}

/// Returns the length of the longest prefix of `bytes` whose bytes all belong to the class.
pub fn run(class: Class, bytes: &[u8]) -> usize
    ensures value { result ≡ prefix_len (passes class) bytes.now }
    ensures within { result ≤ length bytes.now }
{
    let mut len = 0;
    while len < bytes.len() && passes(class, bytes[len]) {
        len += 1;
    }
    len
}

//! A law of pages. The contract of the function states the law; the function does nothing.

ghost use Rattle.cw_report.specs.Escaping.{EscapedIsText};

/// States that an escaped text has no `<`, `>` or quote, and `&` only in references to characters, and that it has one
/// character for each byte.
pub fn escaped_is_text()
    ensures { EscapedIsText }
{}

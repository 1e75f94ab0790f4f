//! Laws of every text. Each law is the contract of a function that does nothing.
//!
//! Together with these laws, the contract of `lex` determines its result: it returns the tokens exactly if the text
//! has a token cut, and it returns that cut; otherwise it returns the only fault of the text, at its only line.

ghost use Rattle.cw_lex.specs.Laws.{HasOneCut, FaultsExcludeCuts, FaultsExcludeOneAnother, LexicalFaultHasOneLine, NameFaultHasOneLine, HasOneReason, ReasonsAreFaults, CutsRise, CutsAreWithin};

/// States that a text has at most one token cut.
pub fn one_cut()
    ensures { HasOneCut }
{}

/// States that a text with a fault has no token cut.
pub fn no_cut_with_a_fault()
    ensures { FaultsExcludeCuts }
{}

/// States that the first fault of a text is not both a lexical fault and a name that is too long, and that each of
/// these faults has one line.
pub fn one_fault()
    ensures kind { FaultsExcludeOneAnother }
    ensures lexical_line { LexicalFaultHasOneLine }
    ensures name_line { NameFaultHasOneLine }
{}

/// States that at most one reason explains why bytes are not cut, with its count or its bytes, in one line.
pub fn one_reason()
    ensures { HasOneReason }
{}

/// States that a reason why bytes are not cut implies the fault of this reason, in its line: as a source or as a
/// text. So bytes that `lex` cuts have no reason.
pub fn reasons_are_faults()
    ensures { ReasonsAreFaults }
{}

/// States that the tokens of a cut follow each other, each within the text.
pub fn rising_spans()
    ensures rise { CutsRise }
    ensures within { CutsAreWithin }
{}

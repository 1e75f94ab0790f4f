//! The law of sorted lines.

ghost use Rattle.cw_text.specs.Laws.{LinesRise};

/// States that sorted lines increase strictly, and that they are the lines of the list and no others.
pub fn lines_rise()
    ensures { LinesRise }
{}

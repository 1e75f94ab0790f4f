//! The least line that exceeds a limit, with the limit.

ghost use Rattle.std.specs.Prelude.{◌≡◌, None, is_some, not};
ghost use Rattle.cw_model.specs.Lines.{unless};
ghost use Rattle.cw_types.specs.RecordingLines.{IsTheLeast, IsTheOne, AreRecorded, NotesLeast, AddsOnly};

use cw_text::{At, LeastLine};

/// Holds the least line so far that exceeds a limit, with the first limit found for it.
#[derive(Clone, Copy)]
pub struct LeastReason<R> {
    pub first: Option<At<R>>,
}

impl<R: Copy> LeastReason<R> {
    /// Returns a `LeastReason` that holds no line.
    pub fn new() -> LeastReason<R>
        ensures { result.first ≡ None }
    {
        LeastReason { first: None }
    }

    /// Records a line, if there is a reason against it.
    pub fn note(&mut self, found: Option<R>, line: u32)
        ensures lines { AreRecorded (unless (not (is_some found)) line) self.old self.new }
        ensures told { AddsOnly (IsTheOne line found) self.old self.new }
    {
        let Some(reason) = found else {
            return;
        };
        match self.first {
            None => self.first = Some(At { line, reason }),
            Some(first) => {
                if line < first.line {
                    self.first = Some(At { line, reason });
                }
            }
        }
    }

    /// Records the least of some lines, if there is one; `reason` applies to each of them.
    pub fn record_least(&mut self, least: LeastLine, reason: R)
        ensures lines { NotesLeast least.line self.old self.new }
        ensures told { AddsOnly (IsTheLeast least.line reason) self.old self.new }
    {
        if let Some(line) = least.line {
            self.note(Some(reason), line);
        }
    }
}

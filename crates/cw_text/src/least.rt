//! The least line that breaks a rule.

ghost use Rattle.std.specs.Prelude.{◌≡◌, ◌∷◌, [], None};
ghost use Rattle.cw_model.specs.Lines.{lowest, unless};
ghost use Rattle.cw_text.specs.AreRecorded.{TakesRoom};

/// Holds the least line recorded so far, if there is one.
#[derive(Clone, Copy, Debug, PartialEq, Eq)]
pub struct LeastLine {
    pub line: Option<u32>,
}

impl LeastLine {
    /// Returns a `LeastLine` that holds no line.
    pub fn new() -> LeastLine
        ensures { result.line ≡ None }
    {
        LeastLine { line: None }
    }

    /// Records `line`, unless `kept` says that the line keeps the rule.
    pub fn note(&mut self, kept: bool, line: u32)
        ensures { self.new.line ≡ lowest self.old.line (unless kept line) }
    {
        if kept {
            return;
        }
        match self.line {
            None => self.line = Some(line),
            Some(least) => {
                if line < least {
                    self.line = Some(line);
                }
            }
        }
    }
    /// Records one entry in `line` of what a limit counts; the limit leaves room for `room` more entries. Without
    /// room the entry exceeds the limit, and its line is recorded. Returns the room that is left after it.
    pub fn record_past(&mut self, room: usize, line: u32) -> usize
        ensures { TakesRoom room result (line ∷ []) self.old self.new }
    {
        if room == 0 {
            self.note(false, line);
            return 0;
        }
        room - 1
    }
}

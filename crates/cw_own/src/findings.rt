//! The lines that break a rule, with the rules.

ghost use Rattle.std.specs.Prelude.{◌≡◌, Some};
ghost use Rattle.cw_text.specs.RecordedReasons.{no_place};
ghost use Rattle.cw_own.specs.Reasons.{reasons_at};
ghost use Rattle.cw_own.specs.Views.{AreRecorded, recorded_reasons, reason_of, view_of_reason};

use crate::reason::{Disowned, Holder, Start};
use crate::row::Row;
use cw_text::Reasons;

/// Represents a local whose start of being held is asked for.
#[derive(Clone, Copy)]
pub enum Local {
    Int(u32),
    Array(u32),
}

/// Holds the watched local, if there is one, and the line of the current statement.
#[derive(Clone, Copy)]
pub struct Watch {
    pub local: Option<Local>,
    pub line: u32,
}

impl Watch {
    /// Returns a value that watches this local.
    pub fn new(local: Option<Local>) -> Watch {
        Watch { local, line: 0 }
    }

    /// Reports whether this integer is watched.
    pub fn is_int(&self, slot: u32) -> bool {
        match self.local {
            Some(Local::Int(watched)) => slot == watched,
            Some(Local::Array(_)) | None => false,
        }
    }

    /// Reports whether this array is watched.
    pub fn is_array(&self, slot: u32) -> bool {
        match self.local {
            Some(Local::Array(watched)) => slot == watched,
            Some(Local::Int(_)) | None => false,
        }
    }

    // Returns the start of holding the local with this slot, if the local is watched.
    fn since(&self, slot: u32, holder: Holder, since: Option<Start>) -> Option<Start> {
        let is_watched = match holder {
            Holder::Result => self.is_int(slot),
            Holder::Argument | Holder::Reader | Holder::Cut => self.is_array(slot),
        };
        if is_watched {
            return since;
        }
        None
    }

    // Returns the same reason, with a start only if it concerns the watched local.
    fn told<'a>(&self, reason: Disowned<'a>) -> Disowned<'a>
        ensures { reason_of result ≡ reason_of reason.entry }
    {
        match reason {
            Disowned::Restrictions(used, touch, holder, since) => Disowned::Restrictions(
                used,
                touch,
                holder,
                self.since(used.slot, holder, since),
            ),
            Disowned::EndsHeld(used, holder, since) => {
                Disowned::EndsHeld(used, holder, self.since(used.slot, holder, since))
            }
            _ => reason,
        }
    }

    /// Reports whether the watched local is one of these locals.
    pub fn is_in(&self, known: &Row) -> bool {
        match self.local {
            Some(Local::Int(slot)) => known.ints.has(slot),
            Some(Local::Array(slot)) => known.arrays.has(slot),
            None => false,
        }
    }
}

/// Holds the least lines so far that break a rule, each with the first rule that it breaks, and the watched local.
#[derive(Drop)]
pub struct Findings<'a> {
    pub reasons: Reasons<Disowned<'a>>,
    pub watch: Watch,
}

impl<'a> Findings<'a> {
    /// Returns a `Findings` that holds no line and watches this local.
    pub fn new(local: Option<Local>) -> Findings<'a>
        ensures { recorded_reasons result ≡ no_place }
    {
        Findings {
            reasons: Reasons::new(),
            watch: Watch::new(local),
        }
    }

    /// Records a line if it breaks a rule.
    #[inline(always)]
    pub fn note(&mut self, found: Option<Disowned<'a>>, line: u32)
        ensures { AreRecorded self.old self.new (reasons_at line (view_of_reason found.entry)) }
    {
        if let Some(reason) = found {
            self.keep(reason, line);
        }
    }

    // Records a line that breaks this rule.
    #[inline(never)]
    fn keep(&mut self, reason: Disowned<'a>, line: u32)
        ensures { AreRecorded self.old self.new (reasons_at line (Some (reason_of reason.entry))) }
    {
        self.reasons.note(Some(self.watch.told(reason)), line);
    }
}

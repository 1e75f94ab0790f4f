//! The lines that names and types reject, or ownership, with their reasons in words.

use crate::calling::{Call, Text};
use crate::phrase::Phrase;
use crate::typing::Context;
use crate::word::Word;
use crate::{owning, typing};
use cw_own::Disowned;
use cw_text::Reasons;
use cw_types::{IllTyped, Other};

/// A line that is rejected, with the rule that it breaks in words, and the other line that matters, if there is one.
#[derive(Clone, Copy)]
pub struct Rejection<'a> {
    pub line: u32,
    pub phrase: Phrase<'a>,
    pub other_line: Option<u32>,
}

/// The lines that a stage rejects, in order: the least of them.
pub trait Rejections {
    /// Returns the line at a place, from 0, if there is one.
    fn at(&self, place: usize) -> Option<Rejection<'_>>;
}

/// The lines of a text that names and types reject.
#[derive(Drop)]
pub struct OfTypes<'a> {
    pub told: Reasons<IllTyped<'a>>,
    /// The line of a return in a block that ends only at its end, if the first line is the head of a function that may end
    /// without a return.
    pub inside: Option<u32>,
    pub text: Text<'a>,
}

/// The lines of a text that ownership rejects.
#[derive(Drop)]
pub struct OfOwnership<'a> {
    pub told: Reasons<Disowned<'a>>,
    pub text: Text<'a>,
}

impl<'a> OfTypes<'a> {
    // Whether the first line's text also covers this one.
    fn is_told(&self, line: u32, reason: &IllTyped<'_>) -> bool {
        match (reason, self.inside) {
            (IllTyped::ReturnInside, Some(inside)) => inside == line,
            _ => false,
        }
    }

    // What a line does with the name that it is rejected for.
    fn call(&self, line: u32, reason: &IllTyped<'_>) -> Call<'a> {
        match reason {
            IllTyped::NotInteger(name, Other::Reducer, declared) => {
                self.text.use_of_reducer(line, Word::of(name), *declared)
            }
            IllTyped::NotInteger(name, _, _) => self.text.use_of(line, Word::of(name)),
            IllTyped::OnlyRead(name, _) => self.text.use_of_const(line, Word::of(name)),
            IllTyped::Known(name, _) => self.text.use_of_known(line, Word::of(name)),
            IllTyped::Unknown(name) => self.text.ended(line, Word::of(name)),
            IllTyped::NotReducer(name, _) => self.text.outer(line, Word::of(name)),
            IllTyped::ArgumentNotArray(place, name, _, _) => {
                self.text.argument(line, Word::of(name), *place)
            }
            _ => Call::Other,
        }
    }
}

impl Rejections for OfTypes<'_> {
    fn at(&self, place: usize) -> Option<Rejection<'_>> {
        let inside = if place == 0 { self.inside } else { None };
        match self.told.places.get(place) {
            Some(Some(at)) if !self.is_told(at.line, &at.reason) => {
                let call = self.call(at.line, &at.reason);
                let context = Context { inside, call };
                Some(Rejection {
                    line: at.line,
                    phrase: typing::phrase_of(&at.reason, &context),
                    other_line: typing::other_line(&at.reason)
                        .or(inside)
                        .or(call.other_line()),
                })
            }
            _ => None,
        }
    }
}

impl Rejections for OfOwnership<'_> {
    fn at(&self, place: usize) -> Option<Rejection<'_>> {
        match self.told.places.get(place) {
            Some(Some(at)) => Some(Rejection {
                line: at.line,
                phrase: owning::phrase_of(&self.text, at.line, &at.reason),
                other_line: owning::other_line(&at.reason),
            }),
            _ => None,
        }
    }
}

//! The operands of an instruction that trapped, in words.

use cw_code::code::{Code, Site, UnaryOperator};
use cw_explain::Word;
use cw_machine::trap_state::TrapOperands;
use cw_model::limits::{MOST_DEPTH, MOST_ELEMENTS, MOST_TURNS};
use cw_model::syntax::Operator;
use std::fmt;

/// Returns the call site with this number, if the code has one.
pub fn site_at(code: &Code, number: u32) -> Option<&Site> {
    let number = number as usize;
    if number == 0 || number > code.sites.len() {
        return None;
    }
    Some(&code.sites[number - 1])
}

// Returns the spelling of an operator.
fn sign(operator: Operator) -> &'static str {
    match operator {
        Operator::Equal => "==",
        Operator::Unequal => "!=",
        Operator::Less => "<",
        Operator::AtMost => "<=",
        Operator::Greater => ">",
        Operator::AtLeast => ">=",
        Operator::Plus => "+",
        Operator::Minus => "-",
        Operator::Times => "*",
        Operator::Divide => "/",
        Operator::Modulo => "%",
    }
}

// Returns the spelling of an operator with one operand.
fn unary_sign(operator: UnaryOperator) -> &'static str {
    match operator {
        UnaryOperator::Negative => "-",
        UnaryOperator::Not => "!",
    }
}

/// The operands of an instruction of code.
#[derive(Clone, Copy)]
pub struct Values<'a> {
    pub code: &'a Code,
    pub trap_operands: TrapOperands,
}

impl fmt::Display for Values<'_> {
    fn fmt<W: fmt::Write>(&self, f: &mut fmt::Formatter<W>) -> fmt::Result {
        match self.trap_operands {
            TrapOperands::Nothing => write!(f, "it has no operands"),
            TrapOperands::One(operator, x) => {
                let sign = unary_sign(operator);
                write!(f, "the operand of {sign} is {x}")
            }
            TrapOperands::Two(operator, x, y) => {
                let sign = sign(operator);
                write!(f, "the operands of {sign} are {x} and {y}")
            }
            TrapOperands::Index(i, len) => write!(
                f,
                "the index is {i}, and the array's length is {len}"
            ),
            TrapOperands::Cut(i, len) => {
                write!(f, "the array is cut at {i}, and its length is {len}")
            }
            TrapOperands::Length(n) => {
                write!(
                    f,
                    "the length that is asked for is {n}; it may be 0 to {MOST_ELEMENTS}"
                )
            }
            TrapOperands::Range(low, high, least) => write_range(f, low, high, least),
            TrapOperands::Call(depth, site) => write_call(f, depth, site_at(self.code, site)),
        }
    }
}

// Writes the range of a loop, and the length of the shortest of its arrays.
fn write_range<W: fmt::Write>(
    f: &mut fmt::Formatter<W>,
    low: i64,
    high: i64,
    least: Option<usize>,
) -> fmt::Result {
    write!(f, "the range is {low} to {high}")?;
    match least {
        None => write!(f, ", and a loop has at most {MOST_TURNS} iterations"),
        Some(len) => write!(f, ", and the length of its shortest array is {len}"),
    }
}

// Writes a call that exceeds the maximum depth.
fn write_call<W: fmt::Write>(
    f: &mut fmt::Formatter<W>,
    depth: usize,
    site: Option<&Site>,
) -> fmt::Result {
    match site {
        None => write!(f, "the call")?,
        Some(site) => {
            let name = Word::of(&site.callee);
            write!(f, "the call of {name}")?;
        }
    }
    write!(
        f,
        " is made at depth {depth}, and the maximum is {MOST_DEPTH}"
    )
}

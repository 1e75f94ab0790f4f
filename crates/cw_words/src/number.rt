//! Numbers among the words.

ghost use Rattle.std.specs.Prelude.{◌≡◌};
ghost use Rattle.std.specs.List.{list_all};
ghost use Rattle.std.specs.Option.{SomeIff};
ghost use Rattle.cw_model.specs.Pieces.{is_digit, decimal_value};
ghost use Rattle.cw_words.specs.Numbers.{IsNumber, IsNumberWithin};

use cw_model::limits::{MOST_BURDEN, MOST_LIMIT, MOST_PROCESSORS, MOST_TOP, MOST_WORKERS};

/// A number that a command takes.
#[derive(Clone, Copy)]
pub struct NumberOption {
    /// Its name, without the hyphens of an option.
    pub name: &'static str,
    /// The least number that it takes.
    pub least: u64,
    /// The greatest number that it takes.
    pub most: u64,
    /// The word for the number where it is not given.
    pub usual: &'static str,
    /// What the help says of it.
    pub help: &'static str,
}

/// The limit of a run.
pub const LIMIT: NumberOption = NumberOption {
    name: "limit",
    least: 1,
    most: MOST_LIMIT,
    usual: "1000000000",
    help: "The maximum number of instructions",
};

/// The burden of a charged edge.
pub const BURDEN: NumberOption = NumberOption {
    name: "burden",
    least: 0,
    most: MOST_BURDEN,
    usual: "15000",
    help: "The instructions of a charged edge",
};

/// The workers of a run.
pub const WORKERS: NumberOption = NumberOption {
    name: "workers",
    least: 1,
    most: MOST_WORKERS as u64,
    usual: "2",
    help: "The number of threads that execute the run",
};

/// The processors of a schedule, a word of its own and no option.
pub const PROCESSORS: NumberOption = NumberOption {
    name: "P",
    least: 1,
    most: MOST_PROCESSORS,
    usual: "1",
    help: "The number of processors of the schedule",
};

/// The processors up to which speedups are reported.
pub const UP_TO: NumberOption = NumberOption {
    name: "processors",
    least: 1,
    most: MOST_PROCESSORS,
    usual: "64",
    help: "The largest number of processors",
};

/// The maximum number of functions in a gain report.
pub const TOP: NumberOption = NumberOption {
    name: "top",
    least: 1,
    most: MOST_TOP,
    usual: "10",
    help: "The maximum number of functions to report",
};

/// Returns the number that the text writes, if the text has only digits, at least one, and the number is in range.
pub fn read_number(text: &str, least: u64, most: u64) -> Option<u64>
    ensures { SomeIff result (IsNumberWithin least most text.now) (decimal_value text.now) }
{
    match decimal(text) {
        Some(n) if least <= n && n <= most => Some(n),
        _ => None,
    }
}

fn decimal(text: &str) -> Option<u64>
    ensures { SomeIff result (IsNumber text.now) (decimal_value text.now) }
{
    if is_digits(text) {
        text.parse::<u64>().ok()
    } else {
        None
    }
}

fn is_digits(text: &str) -> bool
    ensures { result ≡ list_all is_digit text.now }
{
    text.bytes().all(|b| b'0' <= b && b <= b'9')
}

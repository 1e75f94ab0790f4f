//! What is asked for.

ghost use Rattle.std.specs.Prelude.{◌≡◌, [], false, string_bytes};
ghost use Rattle.cw_words.specs.declared.asked.Said.TheVariants.{Fault};

use cw_model::burden::{Burden, Edges};
use cw_model::limits::{USUAL_BURDEN, USUAL_LIMIT};
use cw_text::Fault;
use std::alloc::Global;

/// The processors up to which speedups are reported by default.
pub const USUAL_PROCESSORS: u64 = 64;

/// The default number of workers.
pub const USUAL_WORKERS: u64 = 2;

/// What the program is asked to write.
#[derive(Clone, Copy, Debug, PartialEq, Eq)]
pub enum Mode {
    /// Whether the source compiles. Nothing is run.
    Check,
    /// What the program prints, the totals of its reducers, and the value that its `main` gives.
    Run,
    /// Work and span, with and without the burden: of the whole run, and of each tag of the source.
    Scale,
    /// Calls, work and span of each call site.
    Sites,
    /// Work and span of the run, and its spans if a function cost nothing, for at most this number of functions (1 to 64).
    Gain(u64),
    /// Work, span, and the number of steps of the greedy schedule on this number of processors (1 to 1,000,000).
    Greedy(u64),
    /// Steps and speedups on 1, 2, 4, .. processors up to this number (1 to 1,000,000), with the bound that work and span
    /// set, and an estimate that charges the burden.
    Speedup(u64),
    /// A page that draws all reports of a run.
    Page {
        /// The maximum number of functions in its report of gains (1 to 64).
        top: u64,
        /// The processors up to which it reports speedups (1 to 1,000,000).
        processors: u64,
    },
}

/// How to analyse a program. A check uses neither the limit nor the burden; `Run`, `Sites` and `Greedy` take
/// the burden and do not use it.
#[derive(Clone, Copy, Debug, PartialEq, Eq)]
pub struct Options {
    /// What to write.
    pub mode: Mode,
    /// The greatest cost of the run in instructions, from 1 to 2^62.
    pub limit: u64,
    /// What each spawn is charged, from 0 to 1,000,000,000 instructions an edge.
    pub burden: Burden,
    /// Whether `Scale`, `Sites`, `Gain` and `Speedup` write aligned columns in place of CSV. The other modes ignore it.
    pub table: bool,
}

/// What the words ask for.
#[derive(Debug, Drop)]
pub struct Request {
    /// The path of the source.
    pub file: String,
    /// The arguments of `main`, each from 0 on; none of a check.
    pub args: Vec<i64>,
    pub options: Options,
    /// How many workers run the program, from 1 to 64; no report depends on it, and a check does not use it.
    pub workers: u64,
    /// Whether an explanation of a rejection or a trap follows its line on standard error.
    pub explain: bool,
}

/// The answer of the program if it runs nothing.
#[derive(Debug, Drop)]
pub enum Said {
    /// The help, for standard output.
    Help(String),
    /// What is wrong with the words, for standard error.
    Misuse(String),
    /// `Arguments` for a word that is no number, or a number that is out of range, and `Memory`.
    Fault(Fault),
}

impl From<Fault> for Said {
    ghost from_gives = { λ fault said. said ≡ Fault fault };

    fn from(fault: Fault) -> Said {
        Said::Fault(fault)
    }
}

impl Request {
    ghost use Rattle.cw_words.specs.Requests.{usual_options};

    /// Returns the request for a run of the source on standard input, which has no path, without arguments: the limit is
    /// `USUAL_LIMIT`, the burden `USUAL_BURDEN` on continuation edges only, the number of workers `USUAL_WORKERS`, and nothing
    /// is explained.
    pub fn of_standard_input(alloc: Global) -> Self
        ensures file { string_bytes result.file ≡ [] }
        ensures args { result.args.items ≡ [] }
        ensures options { result.options ≡ usual_options }
        ensures workers { result.workers ≡ USUAL_WORKERS }
        ensures explain { result.explain ≡ false }
    {
        Request {
            file: String::new(alloc),
            args: Vec::new(alloc),
            options: Options {
                mode: Mode::Run,
                limit: USUAL_LIMIT,
                burden: Burden {
                    charge: USUAL_BURDEN,
                    edges: Edges::Spawn,
                },
                table: false,
            },
            workers: USUAL_WORKERS,
            explain: false,
        }
    }
}

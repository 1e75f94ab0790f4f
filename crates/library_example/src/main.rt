//! How to call the library: prints the report of a program in memory to standard output.
#![tactic(auto)]

use cw_cli::{analyse_alone, refuse};
use cw_model::burden::{Burden, Edges};
use cw_report::Counted;
use cw_words::{Mode, Options};
use std::io;
use std::process::ExitCode;

// The program of examples/fib.cilk.
const SOURCE: &[u8] = b"\
int fib(int n) {
  if (n < 2) {
    return n;
  }
  int x = 0;
  int y = 0;
  x = cilk_spawn fib(n - 1);
  y = fib(n - 2);
  cilk_sync;
  return x + y;
}

int main(int n) {
  int r = 0;
  r = fib(n);
  return r;
}
";

fn main(rt: HostRuntime) -> ExitCode {
    let options = Options {
        mode: Mode::Scale,
        limit: 1_000_000,
        burden: Burden {
            charge: 15_000,
            edges: Edges::Spawn,
        },
        table: false,
    };
    // a sink counts failed writes; `Counted` makes one of any writer, also of a `Vec`
    let mut out = Counted::new(io::writer(&rt));
    let mut err = Counted::new(rt.stderr());
    let status = match analyse_alone(rt.alloc(), SOURCE, &[20], options, &mut out) {
        Ok(()) => 0,
        Err(fault) => refuse(&fault, &mut err),
    };
    ExitCode::from(status)
}

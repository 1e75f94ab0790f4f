//! Small programs, and their code.

use cw_compile::compile;
use cw_runnable::verified::Verified;
use cw_text::Fault;
use std::alloc::Global;
use std::sync::Arc;

/// Prints 1, 2 and 3, with two spawns: 15 instructions; the longest path has 10.
pub const PRINTS: &[u8] = b"
void p(int v) { print(v); }
int main() { cilk_spawn p(1); cilk_spawn p(2); print(3); cilk_sync; return 0; }
";

/// The n-th Fibonacci number, in a region: each call except the smallest ones spawns one call. It counts the smallest
/// calls, keeps the maximum of the results of the others, and prints each 5.
pub const FIB: &[u8] = b"
reducer sum leaves;
reducer max greatest;
int fib(int n) {
  if (n < 2) { leaves += 1; return n; }
  int x = 0;
  int y = 0;
  region inner {
    x = cilk_spawn fib(n - 1);
    y = fib(n - 2);
    cilk_sync;
  }
  if (x + y == 5) { print(5); }
  greatest max= x + y;
  return x + y;
}
int main(int n) { int r = 0; r = fib(n); return r; }
";

/// The Fibonacci numbers, each stored in an array that its call takes: the results of the two calls below it are in
/// the halves of another array.
pub const LENT: &[u8] = b"
int fib(int n, int out[]) {
  if (n < 2) { out[0] = n; return 0; }
  int v[2];
  int x = 0;
  int y = 0;
  region halves {
    cut v at 1 as l, r {
      x = cilk_spawn fib(n - 1, l);
      y = fib(n - 2, r);
    }
  }
  out[0] = v[0] + v[1];
  return 0;
}
int main(int n) { int a[1]; int r = 0; r = fib(n, a); return a[0]; }
";

/// Like the Fibonacci numbers, but each call prints, and the call of 5 divides by zero.
pub const TRAPS: &[u8] = b"
int fib(int n) {
  if (n < 2) { return n; }
  int x = 0;
  int y = 0;
  x = cilk_spawn fib(n - 1);
  y = fib(n - 2);
  cilk_sync;
  print(n);
  if (n > 4) { x = x / (n - 5); }
  return x + y;
}
int main(int n) { int r = 0; r = fib(n); return r; }
";

/// Returns the code of a program.
///
/// # Errors
///
/// The fault of the program, or `Fault::Memory` if there is not enough memory.
pub fn code_of(alloc: Global, bytes: &[u8]) -> Result<Arc<Verified>, Fault> {
    let verified = compile(alloc, bytes)?;
    Ok(Arc::new(alloc, verified)?)
}

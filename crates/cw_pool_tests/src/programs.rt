//! Small programs, and their code.

use cw_compile::compile;
use cw_runnable::verified::Verified;
use cw_text::Fault;
use std::alloc::Global;
use std::sync::Arc;

/// Spawns calls nested n deep, and returns n.
pub const STEPS: &[u8] = b"
int f(int n) {
  if (n < 1) { return 0; }
  int x = 0;
  x = cilk_spawn f(n - 1);
  cilk_sync;
  return x + 1;
}
int main(int n) { int r = 0; r = f(n); return r; }
";

/// The n-th Fibonacci number: each call except the smallest ones spawns one call. It counts the smallest calls, keeps
/// the maximum of the results of the others, and prints each 5.
pub const FIB: &[u8] = b"
reducer sum leaves;
reducer max greatest;
int fib(int n) {
  if (n < 2) { leaves += 1; return n; }
  int x = 0;
  int y = 0;
  region inner {
    x = cilk_spawn fib(n - 1);
    y = fib(n - 2);
    cilk_sync;
  }
  if (x + y == 5) { print(5); }
  greatest max= x + y;
  return x + y;
}
int main(int n) { int r = 0; r = fib(n); return r; }
";

/// The numbers below n are in an array, and are summed by halves; each half is lent to its own call.
pub const HALVES: &[u8] = b"
int total(int a[]) {
  int n = len(a);
  if (n < 2) { return a[0]; }
  int x = 0;
  int y = 0;
  cut a at n / 2 as l, r {
    x = cilk_spawn total(l);
    y = total(r);
  }
  return x + y;
}
int main(int n) {
  int a[n];
  int i = 0;
  while (i < n) { a[i] = i; i = i + 1; }
  int r = 0;
  r = total(a);
  return r;
}
";

/// The numbers below n are in an array, which is summed by halves in a spawned call and also in its continuation, and
/// then written again. All these calls, and the continuations of those that they spawn, read the whole array.
pub const READ: &[u8] = b"
int total(const int a[], int from, int to) {
  if (to - from < 2) { return a[from]; }
  int middle = (from + to) / 2;
  int x = 0;
  int y = 0;
  x = cilk_spawn total(a, from, middle);
  y = total(a, middle, to);
  cilk_sync;
  return x + y;
}
int main(int n) {
  int a[n];
  int i = 0;
  while (i < n) { a[i] = i; i = i + 1; }
  int x = 0;
  int y = 0;
  x = cilk_spawn total(a, 0, n);
  y = total(a, 0, n);
  y = y + a[n - 1];
  cilk_sync;
  a[0] = x;
  return a[0] + y;
}
";

/// Like the Fibonacci numbers, but each call prints, and the call of 5 divides by zero.
pub const TRAPS: &[u8] = b"
int fib(int n) {
  if (n < 2) { return n; }
  int x = 0;
  int y = 0;
  x = cilk_spawn fib(n - 1);
  y = fib(n - 2);
  cilk_sync;
  print(n);
  if (n > 4) { x = x / (n - 5); }
  return x + y;
}
int main(int n) { int r = 0; r = fib(n); return r; }
";

/// Like the Fibonacci numbers, but without the base case: calls nest ever deeper.
pub const NO_BASE: &[u8] = b"
int fib(int n) {
  int x = 0;
  int y = 0;
  x = cilk_spawn fib(n - 1);
  y = fib(n - 2);
  cilk_sync;
  return x + y;
}
int main(int n) { int r = 0; r = fib(n); return r; }
";

/// Each call spawns a call and makes another one.
pub const FORK: &[u8] = b"
void f() { cilk_spawn f(); f(); }
int main(int n) { f(); return n; }
";

/// A spawned call traps if n is 0, and its continuation, which may run in parallel, is endless.
pub const TRAP_BESIDE_ENDLESS: &[u8] = b"
int inverse(int n) { return 1 / n; }
void endless() { int k = 0; while (k >= 0) { k = 1 - k; } }
int main(int n) { int r = 0; r = cilk_spawn inverse(n); endless(); cilk_sync; return r; }
";

/// A spawned call fills an array by halves and prints; its continuation traps if n is 0, and otherwise is endless.
pub const LONG_BESIDE_TRAP: &[u8] = b"
void fill(int a[], int v) {
  int n = len(a);
  if (n < 2) { if (n > 0) { a[0] = v; } return; }
  cut a at n / 2 as l, r {
    cilk_spawn fill(l, v);
    fill(r, v + 1);
  }
}
void long(int n) {
  int a[512];
  fill(a, n);
  print(a[511]);
}
int main(int n) {
  int k = 0;
  cilk_spawn long(n);
  if (n == 0) { k = 1 / n; }
  while (n > k) { k = 1 - n; }
  cilk_sync;
  return k;
}
";

/// A loop of 100,000 iterations, each of which is a call of its own.
pub const TURNS: &[u8] = b"
reducer sum s;
int main(int n) {
  cilk_for (int i = 0; i < 100000; i++) grain 1 { s += i; }
  return n;
}
";

/// Spawns n nested calls, each with an array that its continuation reads, in its own region, and traps in the last
/// call.
pub const DEEP_TRAP: &[u8] = b"
int f(int n) {
  int a[3];
  int x = 0;
  int y = 0;
  if (n < 1) { return 1 / n; }
  a[1] = n;
  region inner {
    x = cilk_spawn f(n - 1);
    y = a[1];
    cilk_sync;
  }
  return x + y;
}
int main(int n) { int r = 0; r = f(n); return r; }
";

/// Returns the code of a program.
///
/// # Errors
///
/// The fault of the program, or `Fault::Memory` if there is not enough memory.
pub fn code_of(alloc: Global, bytes: &[u8]) -> Result<Arc<Verified>, Fault> {
    let verified = compile(alloc, bytes)?;
    Ok(Arc::new(alloc, verified)?)
}

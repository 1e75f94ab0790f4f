//! A program whose calls lend arrays, as the code of the source above it.

use crate::programs::{Part, Program};
use cw_code::code::{Callee, Instr, Loan};
use cw_model::syntax::{CallKind, Operator};

const END: Instr = Instr::ReturnValue;

const PLUS: Instr = Instr::Binary(Operator::Plus, 1);

const ONE_BESIDE: Callee = Callee {
    function: 0,
    site: 1,
    line: 1,
    target: Some(1),
    passed: 0,
    lent: 0,
};

const PAIR: Callee = Callee {
    function: 1,
    site: 2,
    line: 1,
    target: Some(3),
    passed: 0,
    lent: 0,
};

const SUM_BESIDE: Callee = Callee {
    function: 2,
    site: 3,
    line: 1,
    target: Some(3),
    passed: 0,
    lent: 2,
};

const SUM: Callee = Callee {
    function: 2,
    site: 4,
    line: 1,
    target: Some(4),
    passed: 0,
    lent: 2,
};

const SUM_OF_MAIN: Callee = Callee {
    function: 2,
    site: 5,
    line: 1,
    target: Some(0),
    passed: 0,
    lent: 1,
};

const ONE_OF_MAIN: Callee = Callee {
    function: 0,
    site: 6,
    line: 1,
    target: Some(1),
    passed: 0,
    lent: 0,
};

const ONE_BODY: [Instr; 2] = [Instr::Load(0), END];

const PAIR_BODY: [Instr; 11] = [
    Instr::Push(0),
    Instr::Store(1),
    Instr::Load(0),
    Instr::Call(CallKind::Spawned, ONE_BESIDE),
    Instr::Load(0),
    Instr::Print,
    Instr::Sync,
    Instr::Load(1),
    Instr::Load(0),
    PLUS,
    END,
];

const SUM_BODY: [Instr; 28] = [
    Instr::Load(1),
    Instr::Load(0),
    Instr::Binary(Operator::Minus, 1),
    Instr::Push(1),
    Instr::Binary(Operator::AtMost, 1),
    Instr::SkipIfZero(5),
    Instr::Load(0),
    Instr::ReadElement(0, 1),
    Instr::Call(CallKind::Plain, PAIR),
    Instr::Load(3),
    END,
    Instr::Load(0),
    Instr::Load(1),
    PLUS,
    Instr::Push(2),
    Instr::Binary(Operator::Divide, 1),
    Instr::Store(2),
    Instr::Load(0),
    Instr::Load(2),
    Instr::Call(CallKind::Spawned, SUM_BESIDE),
    Instr::Load(2),
    Instr::Load(1),
    Instr::Call(CallKind::Plain, SUM),
    Instr::Sync,
    Instr::Load(3),
    Instr::Load(4),
    PLUS,
    END,
];

const MAIN_BODY: [Instr; 32] = [
    Instr::Push(3),
    Instr::NewArray(0, 1),
    Instr::Push(0),
    Instr::Push(1),
    Instr::SetElement(0, 1),
    Instr::Push(1),
    Instr::Push(2),
    Instr::SetElement(0, 1),
    Instr::Push(2),
    Instr::Push(4),
    Instr::SetElement(0, 1),
    Instr::Push(0),
    Instr::Store(0),
    Instr::Push(0),
    Instr::Store(1),
    Instr::Push(0),
    Instr::Push(3),
    Instr::Call(CallKind::Spawned, SUM_OF_MAIN),
    Instr::Push(5),
    Instr::Call(CallKind::Spawned, ONE_OF_MAIN),
    Instr::Push(1),
    Instr::Element(0, 1),
    Instr::Print,
    Instr::Sync,
    Instr::Push(0),
    Instr::Load(0),
    Instr::SetElement(0, 1),
    Instr::Push(0),
    Instr::Element(0, 1),
    Instr::Load(1),
    PLUS,
    END,
];

/// int one(int n) { return n; }
/// int pair(int n) { int x = 0; x = cilk_spawn one(n); print(n); cilk_sync; return x + n; }
/// int sum(const int a[], int from, int to) {
///   if (to - from <= 1) { return pair(a[from]); }
///   int mid = (from + to) / 2;
///   int x = cilk_spawn sum(a, from, mid);
///   int y = sum(a, mid, to);
///   cilk_sync;
///   return x + y;
/// }
/// int main() {
///   int a[3]; a[0] = 1; a[1] = 2; a[2] = 4;
///   int x = 0; int y = 0;
///   x = cilk_spawn sum(a, 0, 3);
///   y = cilk_spawn one(5);
///   print(a[1]);
///   cilk_sync;
///   a[0] = x;
///   return a[0] + y;
/// }
/// The code has all of this in line 1.
pub const TOTAL: Program<'static> = Program {
    parts: &[
        Part {
            gives_int: true,
            params: 1,
            slots: 1,
            array_params: 0,
            arrays: 0,
            readers: 0,
            body: &ONE_BODY,
        },
        Part {
            gives_int: true,
            params: 1,
            slots: 2,
            array_params: 0,
            arrays: 0,
            readers: 0,
            body: &PAIR_BODY,
        },
        Part {
            gives_int: true,
            params: 2,
            slots: 5,
            array_params: 0,
            arrays: 0,
            readers: 1,
            body: &SUM_BODY,
        },
        Part {
            gives_int: true,
            params: 0,
            slots: 2,
            array_params: 0,
            arrays: 1,
            readers: 0,
            body: &MAIN_BODY,
        },
    ],
    sites: &[
        (CallKind::Spawned, 0),
        (CallKind::Plain, 1),
        (CallKind::Spawned, 2),
        (CallKind::Plain, 2),
        (CallKind::Spawned, 2),
        (CallKind::Spawned, 0),
    ],
    reducers: &[],
    tags: &[],
    passed: &[&[]],
    lent: &[&[], &[Loan::Array(0)], &[Loan::Reader(0)]],
};

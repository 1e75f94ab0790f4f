//! Programs with arrays, each as the code of the source above it. Traps report the lines of that source.

use crate::programs::{Part, Program};
use cw_code::code::{BlockKind, Callee, Halves, Inner, Instr};
use cw_model::syntax::{CallKind, Operator};

const END: Instr = Instr::ReturnValue;

const PLUS: Operator = Operator::Plus;

const MINUS: Operator = Operator::Minus;

const TIMES: Operator = Operator::Times;

const DIVIDE: Operator = Operator::Divide;

const SET_M: Callee = Callee {
    function: 0,
    site: 1,
    line: 6,
    target: None,
    passed: 1,
    lent: 0,
};

const SET_N: Callee = Callee {
    function: 0,
    site: 2,
    line: 7,
    target: None,
    passed: 2,
    lent: 0,
};

const OUTER: Halves = Halves {
    array: 0,
    left: 1,
    right: 2,
};

const INNER: Halves = Halves {
    array: 2,
    left: 3,
    right: 4,
};

const CUT_MAIN: [Instr; 45] = [
    Instr::Load(0),
    Instr::NewArray(0, 3),
    Instr::Push(1),
    Instr::Cut(OUTER, 4),
    Instr::Push(3),
    Instr::Cut(INNER, 5),
    Instr::Push(3),
    Instr::Call(CallKind::Spawned, SET_M),
    Instr::Push(4),
    Instr::Call(CallKind::Spawned, SET_N),
    Instr::Push(0),
    Instr::Push(1),
    Instr::SetElement(1, 8),
    Instr::EndCut,
    Instr::Push(0),
    Instr::Push(2),
    Instr::Element(2, 10),
    Instr::Push(3),
    Instr::Element(2, 10),
    Instr::Binary(PLUS, 10),
    Instr::SetElement(2, 10),
    Instr::EndCut,
    Instr::Push(0),
    Instr::Element(0, 12),
    Instr::Push(10000),
    Instr::Binary(TIMES, 12),
    Instr::Push(1),
    Instr::Element(0, 12),
    Instr::Push(1000),
    Instr::Binary(TIMES, 12),
    Instr::Binary(PLUS, 12),
    Instr::Push(2),
    Instr::Element(0, 12),
    Instr::Push(100),
    Instr::Binary(TIMES, 12),
    Instr::Binary(PLUS, 12),
    Instr::Push(3),
    Instr::Element(0, 12),
    Instr::Push(10),
    Instr::Binary(TIMES, 12),
    Instr::Binary(PLUS, 12),
    Instr::Push(4),
    Instr::Element(0, 12),
    Instr::Binary(PLUS, 12),
    END,
];

/// void set(int a[], int v) { a[len(a) - 1] = v; }
/// int main(int c) {
///   int a[c];
///   cut a at 1 as l, r {
///     cut r at 3 as m, n {
///       cilk_spawn set(m, 3);
///       cilk_spawn set(n, 4);
///       l[0] = 1;
///     }
///     r[0] = r[2] + r[3];
///   }
///   return a[0] * 10000 + a[1] * 1000 + a[2] * 100 + a[3] * 10 + a[4];
/// }
pub const CUT: Program<'static> = Program {
    parts: &[
        Part {
            gives_int: false,
            params: 1,
            slots: 1,
            array_params: 1,
            arrays: 1,
            readers: 0,
            body: &[
                Instr::Length(0),
                Instr::Push(1),
                Instr::Binary(MINUS, 1),
                Instr::Load(0),
                Instr::SetElement(0, 1),
                Instr::Return,
            ],
        },
        Part {
            gives_int: true,
            params: 1,
            slots: 1,
            array_params: 0,
            arrays: 5,
            readers: 0,
            body: &CUT_MAIN,
        },
    ],
    sites: &[(CallKind::Spawned, 0), (CallKind::Spawned, 0)],
    reducers: &[],
    tags: &[],
    passed: &[&[], &[3], &[4]],
    lent: &[],
};

const SET_A: Callee = Callee {
    function: 0,
    site: 1,
    line: 4,
    target: None,
    passed: 1,
    lent: 0,
};

const SET_B: Callee = Callee {
    function: 0,
    site: 2,
    line: 6,
    target: None,
    passed: 2,
    lent: 0,
};

/// void set(int a[], int v) { a[0] = v; }
/// int main(int c) {
///   int a[c];
///   cilk_spawn set(a, 5);
///   int b[3];
///   set(b, 7);
///   cilk_sync;
///   return a[0] * 10 + b[0];
/// }
pub const MADE: Program<'static> = Program {
    parts: &[
        Part {
            gives_int: false,
            params: 1,
            slots: 1,
            array_params: 1,
            arrays: 1,
            readers: 0,
            body: &[
                Instr::Push(0),
                Instr::Load(0),
                Instr::SetElement(0, 1),
                Instr::Return,
            ],
        },
        Part {
            gives_int: true,
            params: 1,
            slots: 1,
            array_params: 0,
            arrays: 2,
            readers: 0,
            body: &[
                Instr::Load(0),
                Instr::NewArray(0, 3),
                Instr::Push(5),
                Instr::Call(CallKind::Spawned, SET_A),
                Instr::Push(3),
                Instr::NewArray(1, 5),
                Instr::Push(7),
                Instr::Call(CallKind::Plain, SET_B),
                Instr::Sync,
                Instr::Push(0),
                Instr::Element(0, 8),
                Instr::Push(10),
                Instr::Binary(TIMES, 8),
                Instr::Push(0),
                Instr::Element(1, 8),
                Instr::Binary(PLUS, 8),
                END,
            ],
        },
    ],
    sites: &[(CallKind::Spawned, 0), (CallKind::Plain, 0)],
    reducers: &[],
    tags: &[],
    passed: &[&[], &[0], &[1]],
    lent: &[],
};

const WHOLE: Inner = Inner {
    function: 0,
    passed: 0,
};

const LEFT: Inner = Inner {
    function: 0,
    passed: 1,
};

const RIGHT: Inner = Inner {
    function: 0,
    passed: 2,
};

const HALVING: [Instr; 47] = [
    Instr::Load(1),
    Instr::Load(0),
    Instr::Binary(MINUS, 1),
    Instr::Push(2),
    Instr::Binary(Operator::AtMost, 1),
    Instr::SkipIfZero(21),
    Instr::Load(0),
    Instr::Store(2),
    Instr::Load(2),
    Instr::Load(1),
    Instr::Binary(Operator::Less, 1),
    Instr::SkipIfZero(14),
    Instr::Open(BlockKind::Scope),
    Instr::Load(2),
    Instr::Load(0),
    Instr::Binary(MINUS, 1),
    Instr::Load(2),
    Instr::Load(2),
    Instr::Binary(TIMES, 1),
    Instr::SetElement(0, 1),
    Instr::Close,
    Instr::Load(2),
    Instr::Push(1),
    Instr::Binary(PLUS, 1),
    Instr::Store(2),
    Instr::GoBack(17),
    Instr::Skip(19),
    Instr::Load(0),
    Instr::Load(1),
    Instr::Load(0),
    Instr::Binary(MINUS, 1),
    Instr::Push(2),
    Instr::Binary(DIVIDE, 1),
    Instr::Binary(PLUS, 1),
    Instr::Store(2),
    Instr::Load(2),
    Instr::Load(0),
    Instr::Binary(MINUS, 1),
    Instr::Cut(OUTER, 1),
    Instr::Load(0),
    Instr::Load(2),
    Instr::Recur(CallKind::Spawned, LEFT),
    Instr::Load(2),
    Instr::Load(1),
    Instr::Recur(CallKind::Plain, RIGHT),
    Instr::EndCut,
    Instr::Return,
];

/// int main() {
///   int a[5]; cilk_for (int i = 0; i < 5; i++) grain 2 over (a) { a[i] = i * i; } return a[4];
/// }
pub const SQUARES: Program<'static> = Program {
    parts: &[
        Part {
            gives_int: false,
            params: 2,
            slots: 3,
            array_params: 1,
            arrays: 3,
            readers: 0,
            body: &HALVING,
        },
        Part {
            gives_int: true,
            params: 0,
            slots: 0,
            array_params: 0,
            arrays: 1,
            readers: 0,
            body: &[
                Instr::Push(5),
                Instr::NewArray(0, 1),
                Instr::Push(0),
                Instr::Push(5),
                Instr::Start(WHOLE, 1),
                Instr::Push(4),
                Instr::Element(0, 1),
                END,
            ],
        },
    ],
    sites: &[],
    reducers: &[],
    tags: &[],
    passed: &[&[0], &[1], &[2]],
    lent: &[],
};

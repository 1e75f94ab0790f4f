//! Programs with calls, each as the code of the source above it. Traps report the lines of that source.

use crate::programs::{Part, Program};
use cw_code::code::{BlockKind, Callee, Instr};
use cw_model::syntax::{CallKind, Operator, Reduction};

const END: Instr = Instr::ReturnValue;

const PLUS: Operator = Operator::Plus;

const MINUS: Operator = Operator::Minus;

const DIVIDE: Operator = Operator::Divide;

const NO_ARRAYS: &[&[u32]] = &[&[]];

const FIB_SPAWN: Callee = Callee {
    function: 0,
    site: 1,
    line: 5,
    target: Some(1),
    passed: 0,
    lent: 0,
};

const FIB_CALL: Callee = Callee {
    function: 0,
    site: 2,
    line: 6,
    target: Some(2),
    passed: 0,
    lent: 0,
};

const FIB_BODY: [Instr; 23] = [
    Instr::Load(0),
    Instr::Push(2),
    Instr::Binary(Operator::Less, 2),
    Instr::SkipIfZero(2),
    Instr::Load(0),
    END,
    Instr::Push(0),
    Instr::Store(1),
    Instr::Push(0),
    Instr::Store(2),
    Instr::Load(0),
    Instr::Push(1),
    Instr::Binary(MINUS, 5),
    Instr::Call(CallKind::Spawned, FIB_SPAWN),
    Instr::Load(0),
    Instr::Push(2),
    Instr::Binary(MINUS, 6),
    Instr::Call(CallKind::Plain, FIB_CALL),
    Instr::Sync,
    Instr::Load(1),
    Instr::Load(2),
    Instr::Binary(PLUS, 8),
    END,
];

const FIB_FIRST: Callee = Callee {
    function: 0,
    site: 3,
    line: 12,
    target: Some(1),
    passed: 0,
    lent: 0,
};

const FIB_MAIN: [Instr; 6] = [
    Instr::Push(0),
    Instr::Store(1),
    Instr::Load(0),
    Instr::Call(CallKind::Plain, FIB_FIRST),
    Instr::Load(1),
    END,
];

/// int fib(int n) {
///   if (n < 2) { return n; }
///   int x = 0;
///   int y = 0;
///   x = cilk_spawn fib(n - 1);
///   y = fib(n - 2);
///   cilk_sync;
///   return x + y;
/// }
/// int main(int n) {
///   int r = 0;
///   r = fib(n);
///   return r;
/// }
pub const FIB: Program<'static> = Program {
    parts: &[
        Part {
            gives_int: true,
            params: 1,
            slots: 3,
            array_params: 0,
            arrays: 0,
            readers: 0,
            body: &FIB_BODY,
        },
        Part {
            gives_int: true,
            params: 1,
            slots: 2,
            array_params: 0,
            arrays: 0,
            readers: 0,
            body: &FIB_MAIN,
        },
    ],
    sites: &[
        (CallKind::Spawned, 0),
        (CallKind::Plain, 0),
        (CallKind::Plain, 0),
    ],
    reducers: &[],
    tags: &[],
    passed: NO_ARRAYS,
    lent: &[],
};

const BAD: Part<'static> = Part {
    gives_int: true,
    params: 1,
    slots: 2,
    array_params: 0,
    arrays: 0,
    readers: 0,
    body: &[
        Instr::Push(0),
        Instr::Store(1),
        Instr::Push(1),
        Instr::Load(0),
        Instr::Binary(DIVIDE, 1),
        Instr::Store(1),
        Instr::Load(1),
        END,
    ],
};

// A call of the first function without arrays and without a result, at site 1.
const FIRST: Callee = Callee {
    function: 0,
    site: 1,
    line: 2,
    target: None,
    passed: 0,
    lent: 0,
};

const SECOND: Callee = Callee {
    function: 0,
    site: 2,
    line: 3,
    target: None,
    passed: 0,
    lent: 0,
};

/// int bad(int z) { int q = 0; q = 1 / z; return q; }
/// int main(int z) { cilk_spawn bad(z); print(7); cilk_sync; return 0; }
pub const DIVIDED: Program<'static> = Program {
    parts: &[
        BAD,
        Part {
            gives_int: true,
            params: 1,
            slots: 1,
            array_params: 0,
            arrays: 0,
            readers: 0,
            body: &[
                Instr::Load(0),
                Instr::Call(CallKind::Spawned, FIRST),
                Instr::Push(7),
                Instr::Print,
                Instr::Sync,
                Instr::Push(0),
                END,
            ],
        },
    ],
    sites: &[(CallKind::Spawned, 0)],
    reducers: &[],
    tags: &[],
    passed: NO_ARRAYS,
    lent: &[],
};

/// int bad(int z) { int q = 0; q = 1 / z; return q; }
/// int main(int z) { cilk_spawn bad(z);
///   print(8 / z); cilk_sync; return 0; }
pub const DIVIDED_TWICE: Program<'static> = Program {
    parts: &[
        BAD,
        Part {
            gives_int: true,
            params: 1,
            slots: 1,
            array_params: 0,
            arrays: 0,
            readers: 0,
            body: &[
                Instr::Load(0),
                Instr::Call(CallKind::Spawned, FIRST),
                Instr::Push(8),
                Instr::Load(0),
                Instr::Binary(DIVIDE, 3),
                Instr::Print,
                Instr::Sync,
                Instr::Push(0),
                END,
            ],
        },
    ],
    sites: &[(CallKind::Spawned, 0)],
    reducers: &[],
    tags: &[],
    passed: NO_ARRAYS,
    lent: &[],
};

/// int bad(int z) { int q = 0; q = 1 / z; return q; }
/// int main(int z) { cilk_spawn bad(z); while (1) { } cilk_sync; return 0; }
pub const DIVIDED_BESIDE_FOREVER: Program<'static> = Program {
    parts: &[
        BAD,
        Part {
            gives_int: true,
            params: 1,
            slots: 1,
            array_params: 0,
            arrays: 0,
            readers: 0,
            body: &[
                Instr::Load(0),
                Instr::Call(CallKind::Spawned, FIRST),
                Instr::Push(1),
                Instr::SkipIfZero(1),
                Instr::GoBack(2),
                Instr::Sync,
                Instr::Push(0),
                END,
            ],
        },
    ],
    sites: &[(CallKind::Spawned, 0)],
    reducers: &[],
    tags: &[],
    passed: NO_ARRAYS,
    lent: &[],
};

const SHOW: Part<'static> = Part {
    gives_int: false,
    params: 1,
    slots: 1,
    array_params: 0,
    arrays: 0,
    readers: 0,
    body: &[Instr::Load(0), Instr::Print, Instr::Return],
};

/// void p(int v) { print(v); }
/// int main() { cilk_spawn p(1);
///   cilk_spawn p(2); print(3); cilk_sync; return 0; }
pub const PRINTED: Program<'static> = Program {
    parts: &[
        SHOW,
        Part {
            gives_int: true,
            params: 0,
            slots: 0,
            array_params: 0,
            arrays: 0,
            readers: 0,
            body: &[
                Instr::Push(1),
                Instr::Call(CallKind::Spawned, FIRST),
                Instr::Push(2),
                Instr::Call(CallKind::Spawned, SECOND),
                Instr::Push(3),
                Instr::Print,
                Instr::Sync,
                Instr::Push(0),
                END,
            ],
        },
    ],
    sites: &[(CallKind::Spawned, 0), (CallKind::Spawned, 0)],
    reducers: &[],
    tags: &[],
    passed: NO_ARRAYS,
    lent: &[],
};

/// reducer sum s; reducer max none; void add() { s += 9223372036854775807; }
/// int main() { cilk_spawn add();
///   cilk_spawn add(); cilk_sync; return 0; }
pub const SUMMED: Program<'static> = Program {
    parts: &[
        Part {
            gives_int: false,
            params: 0,
            slots: 0,
            array_params: 0,
            arrays: 0,
            readers: 0,
            body: &[Instr::Push(i64::MAX), Instr::Reduce(0), Instr::Return],
        },
        Part {
            gives_int: true,
            params: 0,
            slots: 0,
            array_params: 0,
            arrays: 0,
            readers: 0,
            body: &[
                Instr::Call(CallKind::Spawned, FIRST),
                Instr::Call(CallKind::Spawned, SECOND),
                Instr::Sync,
                Instr::Push(0),
                END,
            ],
        },
    ],
    sites: &[(CallKind::Spawned, 0), (CallKind::Spawned, 0)],
    reducers: &[("s", Reduction::Sum), ("none", Reduction::Max)],
    tags: &[],
    passed: NO_ARRAYS,
    lent: &[],
};

const TELL_BODY: [Instr; 11] = [
    Instr::Load(0),
    Instr::Reduce(0),
    Instr::Push(0),
    Instr::Load(0),
    Instr::Binary(MINUS, 2),
    Instr::Reduce(1),
    Instr::Load(0),
    Instr::Reduce(3),
    Instr::Load(0),
    Instr::Print,
    Instr::Return,
];

const TELL_MAIN: [Instr; 15] = [
    Instr::Push(0),
    Instr::Store(0),
    Instr::Load(0),
    Instr::Push(4),
    Instr::Binary(Operator::Less, 5),
    Instr::SkipIfZero(7),
    Instr::Load(0),
    Instr::Call(CallKind::Spawned, FIRST),
    Instr::Load(0),
    Instr::Push(1),
    Instr::Binary(PLUS, 5),
    Instr::Store(0),
    Instr::GoBack(10),
    Instr::Push(9),
    END,
];

/// reducer max up;
/// void tell(int v) { up max= v; down max= 0 - v; all += v; print(v); }
/// int main() {
///   int i = 0;
///   while (i < 4) { cilk_spawn tell(i); i = i + 1; }
///   return 9;
/// }
/// reducer max down;
/// reducer max none;
/// reducer sum all;
pub const GREATEST_IN_TURNS: Program<'static> = Program {
    parts: &[
        Part {
            gives_int: false,
            params: 1,
            slots: 1,
            array_params: 0,
            arrays: 0,
            readers: 0,
            body: &TELL_BODY,
        },
        Part {
            gives_int: true,
            params: 0,
            slots: 1,
            array_params: 0,
            arrays: 0,
            readers: 0,
            body: &TELL_MAIN,
        },
    ],
    sites: &[(CallKind::Spawned, 0)],
    reducers: &[
        ("up", Reduction::Max),
        ("down", Reduction::Max),
        ("none", Reduction::Max),
        ("all", Reduction::Sum),
    ],
    tags: &[],
    passed: NO_ARRAYS,
    lent: &[],
};

const NESTED_Q: Callee = Callee {
    function: 1,
    site: 3,
    line: 9,
    target: None,
    passed: 0,
    lent: 0,
};

const NESTED_BODY: [Instr; 15] = [
    Instr::Open(BlockKind::Region(0)),
    Instr::Push(1),
    Instr::Call(CallKind::Spawned, FIRST),
    Instr::Open(BlockKind::Region(0)),
    Instr::Push(2),
    Instr::Call(CallKind::Spawned, SECOND),
    Instr::Push(3),
    Instr::Print,
    Instr::Close,
    Instr::Push(6),
    Instr::Load(0),
    Instr::Binary(DIVIDE, 6),
    Instr::Print,
    Instr::Close,
    Instr::Return,
];

/// void p(int v) { region r { print(v); } }
/// void q(int z) {
///   region r {
///     cilk_spawn p(1);
///     region r { cilk_spawn p(2); print(3); }
///     print(6 / z);
///   }
/// }
/// int main(int z) { region s { cilk_spawn q(z); region r { print(4); } } return 0; }
pub const NESTED: Program<'static> = Program {
    parts: &[
        Part {
            gives_int: false,
            params: 1,
            slots: 1,
            array_params: 0,
            arrays: 0,
            readers: 0,
            body: &[
                Instr::Open(BlockKind::Region(0)),
                Instr::Load(0),
                Instr::Print,
                Instr::Close,
                Instr::Return,
            ],
        },
        Part {
            gives_int: false,
            params: 1,
            slots: 1,
            array_params: 0,
            arrays: 0,
            readers: 0,
            body: &NESTED_BODY,
        },
        Part {
            gives_int: true,
            params: 1,
            slots: 1,
            array_params: 0,
            arrays: 0,
            readers: 0,
            body: &[
                Instr::Open(BlockKind::Region(1)),
                Instr::Load(0),
                Instr::Call(CallKind::Spawned, NESTED_Q),
                Instr::Open(BlockKind::Region(0)),
                Instr::Push(4),
                Instr::Print,
                Instr::Close,
                Instr::Close,
                Instr::Push(0),
                END,
            ],
        },
    ],
    sites: &[
        (CallKind::Spawned, 0),
        (CallKind::Spawned, 0),
        (CallKind::Spawned, 1),
    ],
    reducers: &[],
    tags: &["r", "s"],
    passed: NO_ARRAYS,
    lent: &[],
};

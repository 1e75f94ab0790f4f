//! The code of whole sources, written by hand from the rules.

use cw_code::code::{BlockKind, Callee, Code, Func, Halves, Inner, Instr, UnaryOperator};
use cw_compile::compile;
use cw_model::syntax::{CallKind, Operator};
use std::alloc::Global;

// Returns whether a source has this code.
fn has_instrs(alloc: Global, source: &[u8], instrs: &[Instr]) -> bool {
    match compile(alloc, source) {
        Ok(verified) => verified.code.instrs.as_slice() == instrs,
        Err(_) => false,
    }
}

// Operands are evaluated from left to right.
const OPERANDS: &[u8] = b"int main(int x, int y) {
return -y - !7; }";

const OPERANDS_CODE: &[Instr] = &[
    Instr::Load(1),
    Instr::Unary(UnaryOperator::Negative, 2),
    Instr::Push(7),
    Instr::Unary(UnaryOperator::Not, 2),
    Instr::Binary(Operator::Minus, 2),
    Instr::ReturnValue,
];

#[test]
fn operands_stand_from_left_to_right(rt: HostRuntime) {
    assert!(rt; has_instrs(rt.alloc(), OPERANDS, OPERANDS_CODE));
}

// A branch that returns has a jump of distance 0.
const RETURNS: &[u8] = b"int main(int x, int y) {
if (x) {
return 1; } else {
y = 2; }
return y; }";

const RETURNS_CODE: &[Instr] = &[
    Instr::Load(0),
    Instr::SkipIfZero(3),
    Instr::Push(1),
    Instr::ReturnValue,
    Instr::Skip(0),
    Instr::Push(2),
    Instr::Store(1),
    Instr::Load(1),
    Instr::ReturnValue,
];

#[test]
fn a_branch_that_returns_has_a_jump_of_no_distance(rt: HostRuntime) {
    assert!(rt; has_instrs(rt.alloc(), RETURNS, RETURNS_CODE));
}

// A branch that does not return jumps over the other branch.
const BRANCHES: &[u8] = b"void f(int x) {
if (x) {
print(1); } else {
print(2); } }
int main() {
return 0; }";

const BRANCHES_CODE: &[Instr] = &[
    Instr::Load(0),
    Instr::SkipIfZero(3),
    Instr::Push(1),
    Instr::Print,
    Instr::Skip(2),
    Instr::Push(2),
    Instr::Print,
    Instr::Return,
    Instr::Push(0),
    Instr::ReturnValue,
];

#[test]
fn a_branch_that_goes_on_jumps_over_the_other(rt: HostRuntime) {
    assert!(rt; has_instrs(rt.alloc(), BRANCHES, BRANCHES_CODE));
}

// A `while` jumps back to its test.
const WHILE: &[u8] = b"int main(int x, int y) {
while (x) {
print(y); }
return 0; }";

const WHILE_CODE: &[Instr] = &[
    Instr::Load(0),
    Instr::SkipIfZero(3),
    Instr::Load(1),
    Instr::Print,
    Instr::GoBack(4),
    Instr::Push(0),
    Instr::ReturnValue,
];

#[test]
fn a_while_goes_back_to_its_test(rt: HostRuntime) {
    assert!(rt; has_instrs(rt.alloc(), WHILE, WHILE_CODE));
}

const CALLED: Callee = Callee {
    function: 0,
    site: 1,
    line: 4,
    target: Some(0),
    passed: 1,
    lent: 1,
};

// A sync block is opened and closed.
const BLOCKS: &[u8] = b"reducer sum s; reducer sum t;
int f(int v) { return v; } int main(int x) {
cilk_scope {
x = cilk_spawn f(5); }
region one {
t += 1; }
return x; }";

const BLOCKS_CODE: &[Instr] = &[
    Instr::Load(0),
    Instr::ReturnValue,
    Instr::Open(BlockKind::Scope),
    Instr::Push(5),
    Instr::Call(CallKind::Spawned, CALLED),
    Instr::Close,
    Instr::Open(BlockKind::Region(0)),
    Instr::Push(1),
    Instr::Reduce(1),
    Instr::Close,
    Instr::Load(0),
    Instr::ReturnValue,
];

#[test]
fn a_sync_block_is_opened_and_closed(rt: HostRuntime) {
    assert!(rt; has_instrs(rt.alloc(), BLOCKS, BLOCKS_CODE));
}

// A loop in line 2 that captures the integer in slot 0, over the array in slot 0.
const LOOP: &[u8] = b"int main(int n) { int a[8];
cilk_for (int i = 0; i < n; i++) grain 2 over (a) {
a[i] = n; }
return a[0]; }";

const WHOLE: Inner = Inner {
    function: 1,
    passed: 4,
};

const LEFT: Inner = Inner {
    function: 1,
    passed: 5,
};

const RIGHT: Inner = Inner {
    function: 1,
    passed: 6,
};

const HALVES: Halves = Halves {
    array: 0,
    left: 1,
    right: 2,
};

const LOOP_CODE: &[Instr] = &[
    Instr::Push(8),
    Instr::NewArray(0, 1),
    Instr::Push(0),
    Instr::Load(0),
    Instr::Load(0),
    Instr::Start(WHOLE, 2),
    Instr::Push(0),
    Instr::Element(0, 4),
    Instr::ReturnValue,
    // a range of at most two iterations is a leaf
    Instr::Load(1),
    Instr::Load(0),
    Instr::Binary(Operator::Minus, 2),
    Instr::Push(2),
    Instr::Binary(Operator::AtMost, 2),
    Instr::SkipIfZero(19),
    Instr::Load(0),
    Instr::Store(3),
    Instr::Load(3),
    Instr::Load(1),
    Instr::Binary(Operator::Less, 2),
    Instr::SkipIfZero(12),
    Instr::Open(BlockKind::Scope),
    Instr::Load(3),
    Instr::Load(0),
    Instr::Binary(Operator::Minus, 3),
    Instr::Load(2),
    Instr::SetElement(0, 3),
    Instr::Close,
    Instr::Load(3),
    Instr::Push(1),
    Instr::Binary(Operator::Plus, 2),
    Instr::Store(3),
    Instr::GoBack(15),
    Instr::Skip(21),
    // any other range is halved
    Instr::Load(0),
    Instr::Load(1),
    Instr::Load(0),
    Instr::Binary(Operator::Minus, 2),
    Instr::Push(2),
    Instr::Binary(Operator::Divide, 2),
    Instr::Binary(Operator::Plus, 2),
    Instr::Store(3),
    Instr::Load(3),
    Instr::Load(0),
    Instr::Binary(Operator::Minus, 2),
    Instr::Cut(HALVES, 2),
    Instr::Load(0),
    Instr::Load(3),
    Instr::Load(2),
    Instr::Recur(CallKind::Spawned, LEFT),
    Instr::Load(3),
    Instr::Load(1),
    Instr::Load(2),
    Instr::Recur(CallKind::Plain, RIGHT),
    Instr::EndCut,
    Instr::Return,
];

#[test]
fn a_loop_halves_its_range(rt: HostRuntime) {
    assert!(rt; has_instrs(rt.alloc(), LOOP, LOOP_CODE));
}

// The functions of `main` and of the loop.
const LOOP_FUNCS: &[Func] = &[
    Func {
        start: 0,
        end: 9,
        gives_int: true,
        params: 1,
        slots: 1,
        array_params: 0,
        arrays: 1,
        readers: 0,
    },
    Func {
        start: 9,
        end: 56,
        gives_int: false,
        params: 3,
        slots: 4,
        array_params: 1,
        arrays: 3,
        readers: 0,
    },
];

// The lists of array slots: the empty ones that no call names, one for `main`, and two for the loop's function.
const LOOP_LISTS: &[&[u32]] = &[&[], &[], &[], &[], &[0], &[1], &[2]];

// Returns whether these are the lists.
fn are(found: &[Vec<u32>], lists: &[&[u32]]) -> bool {
    found.len() == lists.len()
        && found
            .iter()
            .zip(lists)
            .all(|(one, other)| one.as_slice() == *other)
}

// Returns whether a code has these functions and these lists.
fn has_funcs(code: &Code, funcs: &[Func], lists: &[&[u32]]) -> bool {
    code.funcs.as_slice() == funcs && are(code.passed.as_slice(), lists)
}

#[test]
fn a_loop_has_slots_and_lists_of_its_own(rt: HostRuntime) {
    match compile(rt.alloc(), LOOP) {
        Ok(verified) => assert!(rt; has_funcs(&verified.code, LOOP_FUNCS, LOOP_LISTS)),
        Err(_) => assert!(rt; false),
    }
}

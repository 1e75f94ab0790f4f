//! Checks lowered loops: the slots and the arrays that their bodies capture are worked out by hand.

use crate::answers::lowered;
use cw_loops::Core;
use cw_loops::tree::{Argument, Begin, Expr, Line, Stmt};
use std::alloc::{AllocError, Global};

// Reports whether the statement begins function 1 and captures only slot 1, of the integers and of the arrays.
fn takes_the_slots_1(begin: &Begin) -> bool {
    let ints = begin.captured.as_slice() == [1].as_slice();
    begin.callee == 1 && ints && begin.over.as_slice() == [1].as_slice()
}

// Returns the number of statements that begin a loop, or 0 if one of them captures other slots than slot 1.
fn begins(lines: &[Line]) -> u32 {
    let mut count = 0u32;
    for line in lines {
        if let Stmt::Begin(begin) = &line.stmt {
            if !takes_the_slots_1(begin) {
                return 0;
            }
            count = count.saturating_add(1);
        }
    }
    count
}

// Reports whether a statement is one of the two statements of the loop, with its slots there.
fn is_moved(stmt: &Stmt) -> bool {
    matches!(
        stmt,
        Stmt::Declare(4, Expr::Variable(2))
            | Stmt::AssignElement(0, Expr::Binary(_, _, _), Expr::Variable(4))
    )
}

// Reports whether all statements are statements of the loop with their slots there.
fn are_moved(lines: &[Line]) -> bool {
    for line in lines {
        if !is_moved(&line.stmt) {
            return false;
        }
    }
    true
}

// Reports whether the only function, main, begins the only loop, and the loop has these two statements.
fn moves_slots(core: &Core) -> bool {
    let ([body], [l]) = (core.tree.bodies.as_slice(), core.tree.loops.as_slice()) else {
        return false;
    };
    begins(body.as_slice()) == 1 && l.body.len() == 2 && are_moved(l.body.as_slice())
}

// In main m has slot 1. It is the first captured integer of the loop: slot 2 of its function; i has slot 3, and t has
// slot 4.
const MOVED: &str = "int main() { int n = 3; int m = 4; int z[1]; int a[9];
cilk_for (int i = 0; i < n; i++) over (a) { int t = m; a[i] = t; }
return a[0]; }";

/// Reports whether the body of a lowered loop has the expected slots.
pub fn slots_move(alloc: Global) -> bool {
    match lowered(alloc, MOVED.as_bytes()) {
        Ok(core) => moves_slots(&core),
        Err(_) => false,
    }
}

// Returns the arrays that consecutive calls pass: whether each is only read, and its slot.
fn passed(alloc: Global, lines: &[Line]) -> Result<Vec<(bool, u32)>, AllocError> {
    let mut all = Vec::new(alloc);
    for line in lines {
        if let Stmt::Call(call) = &line.stmt {
            for e in &call.arguments {
                match e {
                    Argument::Int(_) => {}
                    Argument::Array(slot) => all.push((false, *slot))?,
                    Argument::Shared(slot) => all.push((true, *slot))?,
                }
            }
        }
    }
    Ok(all)
}

// Reports whether the arrays that consecutive calls pass are these.
fn passes(alloc: Global, lines: &[Line], wanted: &[(bool, u32)]) -> Result<bool, AllocError> {
    Ok(passed(alloc, lines)?.as_slice() == wanted)
}

// Compares the arrays that main and the only loop pass: in main z has slot 0 and a has slot 1; in an iteration a has
// slot 0, t has slot 1 and u has slot 2.
fn passes_both(alloc: Global, core: &Core) -> Result<bool, AllocError> {
    let outside = [(false, 1), (true, 0), (true, 0)];
    let inside = [(false, 2), (true, 1), (true, 2), (true, 1)];
    let ([_, _, main], [l]) = (core.tree.bodies.as_slice(), core.tree.loops.as_slice()) else {
        return Ok(false);
    };
    let main_passes = passes(alloc, main.as_slice(), &outside)?;
    Ok(main_passes && passes(alloc, l.body.as_slice(), &inside)?)
}

// Three functions; the last is main.
const GIVEN: &str =
    "void fill(int a[], const int b[]) { } int look(const int a[], int v) { return a[v]; }
int main() { int z[2]; int a[9];
fill(a, z); cilk_spawn look(z, 1);
cilk_for (int i = 0; i < 9; i++) over (a) { int t[2]; int u[3]; fill(u, t); cilk_spawn look(u, i); look(t, 1); }
cilk_sync; return a[0]; }";

/// Reports whether each array is given away or only read as the callee requires.
///
/// # Errors
///
/// Returns an `AllocError` if there is no memory to list the arrays.
pub fn arrays_are_passed(alloc: Global) -> Result<bool, AllocError> {
    match lowered(alloc, GIVEN.as_bytes()) {
        Ok(core) => passes_both(alloc, &core),
        Err(_) => Ok(false),
    }
}

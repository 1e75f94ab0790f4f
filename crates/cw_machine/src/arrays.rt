//! The execution of instructions on arrays.

ghost use Rattle.std.specs.Prelude.{◌≡◌, ◌+◌, ◌<◌, ◌^◌, ℤ, length, Some, slice_get, IfOk, OnOk};
ghost use Rattle.cw_runnable.specs.declared.op.Op.TheVariants as op;
ghost use Rattle.cw_machine.specs.Arrays as arrays;
ghost use Rattle.cw_machine.specs.RepresentsState.{CutsOr, HasRenewed, HasReviewed, StaysBut, IsAt, Simulates};

use crate::machine::{Machine, Moved, View};
use cw_code::code::Halves;
use cw_model::limits::MOST_ELEMENTS;
use cw_model::trap::Trap;
use cw_runnable::verified::Verified;
use std::alloc::AllocError;

// The maximum length of an array, as an operand.
const MAX_LENGTH: i64 = MOST_ELEMENTS as i64;

// Whether an index is within an array of length `len`.
#[inline(always)]
pub(crate) fn is_within(i: i64, len: usize) -> bool
    ensures { result ≡ arrays.is_index i len }
{
    i >= 0 && (i as usize) < len
}

// Returns the length of a new array, or the trap if the operand is no valid length.
#[inline(always)]
fn new_length(n: i64) -> Result<usize, Trap>
    ensures length { arrays.IsNewLength n result }
    ensures small { IfOk result (λ len. len < 2 ^ 60) }
{
    if n < 0 || n > MAX_LENGTH {
        return Err(Trap::BadLength);
    }
    Ok(n as usize)
}

// Returns the index at which an array of length `len` is cut, or the trap if the operand is out of range.
#[inline(always)]
fn cut_place(k: i64, len: usize) -> Result<usize, Trap>
    ensures { arrays.IsCutPlace k len result }
{
    if k < 0 || k as usize > len {
        return Err(Trap::OutOfBounds);
    }
    Ok(k as usize)
}

// Returns the index `k` positions after `from`.
#[inline(always)]
fn beyond(from: usize, k: usize) -> usize
    requires { 0 < k → from + k < 2 ^ 64 }
    ensures { result ≡ from + k }
{
    from + k
}

impl Machine {
    // Returns the view of the array in a slot.
    #[inline(always)]
    pub(crate) fn view(&self, a: u32) -> View
        requires { self.now.first_array + a < length self.now.views.items }
        ensures { result ≡ arrays.view self.now.views.items (self.now.first_array + a) }
    {
        self.views[self.first_array + a as usize]
    }

    // Returns the element of a block at an index.
    #[inline(always)]
    fn at(&self, block: usize, k: usize) -> i64
        requires { (x : ℤ) × arrays.found self.now.blocks.items block k ≡ Some x }
        ensures { arrays.found self.now.blocks.items block k ≡ Some result }
    {
        self.blocks.get(block, k)
    }

    // Writes an element of a block. The block must hold the element, with no share of it out.
    #[inline(always)]
    fn set_at(&mut self, block: usize, k: usize, x: i64)
        requires there { (y : ℤ) × arrays.found self.old.blocks.items block k ≡ Some y }
        requires own { slice_get (arrays.block self.old.blocks.items block).rights k ≡ Some 0 }
        ensures blocks { self.new.blocks.items ≡ arrays.put self.old.blocks.items block k x }
        ensures views { self.new.views.items ≡ self.old.views.items }
        ensures rest { StaysBut self.old self.new }
    {
        self.blocks.set(block, k, x);
    }

    // Replaces the view of a cell.
    #[inline(always)]
    fn set_view(&mut self, cell: usize, block: usize, from: usize, len: usize)
        requires { cell < length self.old.views.items }
        ensures views { HasReviewed self.old cell block from len self.new }
        ensures blocks { self.new.blocks.items ≡ self.old.blocks.items }
        ensures rest { StaysBut self.old self.new }
    {
        self.views[cell] = View { block, from, len };
    }

    // Replaces the block of a cell by `len` zeros. It frees the old block first, so that the two never exist at the
    // same time.
    fn renew(&mut self, cell: usize, len: usize) -> Result<(), AllocError>
        requires there { cell < length self.old.blocks.items }
        requires small { len < 2 ^ 60 }
        ensures { OnOk result (HasRenewed self.old cell len self.new) }
    {
        self.blocks.renew(cell, len)?;
        Ok(())
    }

    // Puts an array of zeros into a slot.
    #[inline(always)]
    pub(crate) fn new_array(&mut self, _code: &Verified, d: usize, a: u32, line: u32) -> Moved
        requires { ∥ IsAt _code.now self.old (op.NewArray d a line) ∥₁ }
        ensures { Simulates _code.now self.old (op.NewArray d a line) result self.new }
    {
        let len = match new_length(self.get(d)) {
            Ok(len) => len,
            Err(trap) => return Moved::Trapped(trap, line),
        };
        let at = self.first_array + a as usize;
        match self.renew(at, len) {
            Ok(()) => {
                self.set_view(at, at, 0, len);
                self.place += 1;
                Moved::On
            }
            Err(_) => Moved::NoMemory,
        }
    }

    // Puts the length of an array into a cell.
    #[inline(always)]
    pub(crate) fn length(&mut self, _code: &Verified, d: usize, a: u32) -> Moved
        requires { ∥ IsAt _code.now self.old (op.Length d a) ∥₁ }
        ensures { Simulates _code.now self.old (op.Length d a) result self.new }
    {
        let v = self.view(a);
        self.put(d, v.len as i64);
        Moved::On
    }

    // Replaces the index in a cell by that element of an array.
    #[inline(always)]
    pub(crate) fn element(&mut self, _code: &Verified, d: usize, a: u32, line: u32) -> Moved
        requires { ∥ IsAt _code.now self.old (op.Element d a line) ∥₁ }
        ensures { Simulates _code.now self.old (op.Element d a line) result self.new }
    {
        let i = self.get(d);
        let v = self.view(a);
        if !is_within(i, v.len) {
            return Moved::Trapped(Trap::OutOfBounds, line);
        }
        let x = self.at(v.block, v.from + i as usize);
        self.put(d, x);
        Moved::On
    }

    // Writes the value of the next cell into an array, at the index in a cell.
    #[inline(always)]
    pub(crate) fn set_element(&mut self, _code: &Verified, d: usize, a: u32, line: u32) -> Moved
        requires { ∥ IsAt _code.now self.old (op.SetElement d a line) ∥₁ }
        ensures { Simulates _code.now self.old (op.SetElement d a line) result self.new }
    {
        let i = self.get(d);
        let x = self.get(d + 1);
        let v = self.view(a);
        if !is_within(i, v.len) {
            return Moved::Trapped(Trap::OutOfBounds, line);
        }
        self.set_at(v.block, v.from + i as usize, x);
        self.place += 1;
        Moved::On
    }

    // Cuts an array: its two parts go into two slots. The error is a trap, or `None` if memory runs out. A separate
    // function, so that the loop of a run stays small.
    #[inline(never)]
    fn cut_apart(
        &mut self,
        _code: &Verified,
        d: usize,
        h: &Halves,
        _line: u32,
    ) -> Result<(), Option<Trap>>
        requires { ∥ IsAt _code.now self.old (op.Cut d h.now _line) ∥₁ }
        ensures { CutsOr _code.now self.old d h.now _line result self.new }
    {
        let v = self.view(h.array);
        let k = match cut_place(self.get(d), v.len) {
            Ok(k) => k,
            Err(trap) => return Err(Some(trap)),
        };
        let left = self.first_array + h.left as usize;
        let right = self.first_array + h.right as usize;
        let array = self.first_array + h.array as usize;
        match self.cuts.push(array) {
            Ok(()) => {}
            Err(_) => return Err(None),
        }
        self.set_view(left, v.block, v.from, k);
        let from = beyond(v.from, k);
        self.set_view(right, v.block, from, v.len - k);
        self.place += 1;
        Ok(())
    }

    // Executes a cut, as `cut_apart` does, and returns the outcome of the step.
    #[inline(always)]
    pub(crate) fn cut(&mut self, code: &Verified, d: usize, h: &Halves, line: u32) -> Moved
        requires { ∥ IsAt code.now self.old (op.Cut d h.now line) ∥₁ }
        ensures { Simulates code.now self.old (op.Cut d h.now line) result self.new }
    {
        match self.cut_apart(code, d, h, line) {
            Ok(()) => Moved::On,
            Err(Some(trap)) => Moved::Trapped(trap, line),
            Err(None) => Moved::NoMemory,
        }
    }

    // Ends a cut. The elements of the parts are in the array already, because the parts are views of its block.
    #[inline(always)]
    pub(crate) fn end_cut(&mut self, _code: &Verified, h: &Halves) -> Moved
        requires { ∥ IsAt _code.now self.old (op.EndCut h.now) ∥₁ }
        ensures { Simulates _code.now self.old (op.EndCut h.now) result self.new }
    {
        let left = self.first_array + h.left as usize;
        let right = self.first_array + h.right as usize;
        self.set_view(left, left, 0, 0);
        self.set_view(right, right, 0, 0);
        let _cut = self.cuts.pop();
        self.place += 1;
        Moved::On
    }
}

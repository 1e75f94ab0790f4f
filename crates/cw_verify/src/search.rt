//! The search for the table of a function. It begins at the first pc, visits each instruction that is reached, and
//! visits it again whenever more flows to its pc.

ghost use Rattle.std.specs.Prelude.{◌≡◌, ◌+◌, ◌<◌, ◌≤◌, true, length, [], ◌∷◌, IfOk};
ghost use Rattle.cw_code.specs.Code.{code_view};
ghost use Rattle.cw_code.specs.Fits as fits;
ghost use Rattle.cw_verify.specs.Numbers as numbers;
ghost use Rattle.cw_verify.specs.Table as table;
ghost use Rattle.cw_verify.specs.Steps as steps;
ghost use Rattle.cw_verify.specs.Steps.{OrMemory};

use crate::found::{self, Found};
use crate::meet::join;
use crate::named::past;
use crate::numbers::Numbers;
use crate::transfer::leave;
use crate::work::WorkList;
use cw_code::code::{Code, Func, Instr};
use cw_text::Fault;
use std::alloc::Global;
use std::mem;

/// The facts that are known of the pcs of a function so far.
#[derive(Drop)]
struct Search {
    /// The abstract state of each pc, by its distance from the first one; `None` if it was not reached yet.
    found: Vec<Option<Found>>,
    /// The pcs to visit, by their distance from the first one.
    work: WorkList,
    /// Numbers for the enclosing blocks of the pcs.
    numbers: Numbers,
}

impl Search {
    // Adds a pc to the work list, if more flowed to it.
    fn note(&mut self, k: usize, branch: bool, more: bool) -> Result<(), Fault>
        ensures found { self.new.found.items ≡ self.old.found.items }
        ensures numbers { self.new.numbers ≡ self.old.numbers }
        ensures work { steps.NotesIf more k self.old self.new result }
    {
        if more {
            self.work.push(k, branch)?;
        }
        Ok(())
    }

    // Merges a state into the state of a pc, if the pc exists; the enclosing blocks of the state have number
    // `number`. Returns whether this reached the pc for the first time. If more flowed to the pc, it is added to the
    // work list.
    fn come(
        &mut self,
        alloc: Global,
        k: usize,
        branch: bool,
        shape: Found,
        number: u32,
    ) -> Result<bool, Fault>
        requires { numbers.IsKnownWith number shape self.old }
        ensures comes { steps.Comes k shape self.old self.new result }
        ensures known { numbers.KeepsKnown number shape self.old self.new result }
    {
        if k >= self.found.len() {
            return Err(Fault::Code);
        }
        let there = mem::replace(&mut self.found[k], None);
        match there {
            None => {
                self.found[k] = Some(shape);
                self.numbers.set(k, number);
                self.note(k, branch, true)?;
                Ok(true)
            }
            Some(there) => {
                let meeting = self.numbers.meet(k, number, &there.outer, &shape.outer);
                let (joined, more) = join(alloc, there, &shape, meeting)?;
                self.found[k] = Some(joined);
                self.note(k, branch, more)?;
                Ok(false)
            }
        }
    }

    // Merges a state into the states of two pcs.
    fn come_both(
        &mut self,
        alloc: Global,
        k: usize,
        other: usize,
        shape: Found,
        number: u32,
    ) -> Result<bool, Fault>
        requires { numbers.IsKnownWith number shape self.old }
        ensures comes { steps.ComesToAll (k ∷ other ∷ []) shape self.old self.new result }
        ensures known { numbers.KeepsKnown number shape self.old self.new result }
    {
        let copy = found::copy(&shape)?;
        match self.come(alloc, k, true, shape, number) {
            Err(e) => Err(e),
            Ok(reached) => match self.come(alloc, other, true, copy, number) {
                Err(e) => Err(e),
                Ok(more) => Ok(reached | more),
            },
        }
    }

    // Merges the state after an instruction into the states of its successors.
    fn spread(
        &mut self,
        alloc: Global,
        code: &Code,
        f: &Func,
        place: usize,
        i: &Instr,
        left: Found,
        number: u32,
    ) -> Result<bool, Fault>
        requires known { numbers.IsKnownWith number left self.old }
        requires from { f.now.start ≤ place }
        requires there { place < length code.now.instrs.items }
        requires named { fits.names_well (code_view code.now) f.now place i.now ≡ true }
        ensures spreads { steps.Spreads f.now place i.now left self.old self.new result }
        ensures known { numbers.KeepsKnown number left self.old self.new result }
    {
        let _code = code;
        let start = f.start;
        let next = place + 1 - start;
        match i {
            Instr::Push(_) => self.come(alloc, next, false, left, number),
            Instr::Load(_) => self.come(alloc, next, false, left, number),
            Instr::Store(_) => self.come(alloc, next, false, left, number),
            Instr::Unary(_, _) => self.come(alloc, next, false, left, number),
            Instr::Binary(_, _) => self.come(alloc, next, false, left, number),
            Instr::Skip(n) => self.come(alloc, past(place, *n, f.end) - start, false, left, number),
            Instr::SkipIfZero(n) => self.come_both(
                alloc,
                next,
                past(place, *n, f.end) - start,
                left,
                number,
            ),
            Instr::GoBack(n) => self.come(alloc, place - *n as usize - start, false, left, number),
            Instr::Call(_, _) => self.come(alloc, next, false, left, number),
            Instr::Recur(_, _) => self.come(alloc, next, false, left, number),
            Instr::Start(_, _) => self.come(alloc, next, false, left, number),
            Instr::NewArray(_, _) => self.come(alloc, next, false, left, number),
            Instr::Length(_) => self.come(alloc, next, false, left, number),
            Instr::Element(_, _) => self.come(alloc, next, false, left, number),
            Instr::SetElement(_, _) => self.come(alloc, next, false, left, number),
            Instr::ReadLength(_) => self.come(alloc, next, false, left, number),
            Instr::ReadElement(_, _) => self.come(alloc, next, false, left, number),
            Instr::Cut(_, _) => self.come(alloc, next, false, left, number),
            Instr::EndCut => self.come(alloc, next, false, left, number),
            Instr::Sync => self.come(alloc, next, false, left, number),
            Instr::Open(_) => self.come(alloc, next, false, left, number),
            Instr::Close => self.come(alloc, next, false, left, number),
            Instr::Print => self.come(alloc, next, false, left, number),
            Instr::Reduce(_) => self.come(alloc, next, false, left, number),
            Instr::ReturnValue => Ok(false),
            Instr::Return => Ok(false),
        }
    }

    // Visits a pc: checks that its instruction has what it requires and changes nothing that is frozen, and merges
    // the state after the instruction into the states of its successors.
    fn visit(&mut self, alloc: Global, code: &Code, f: &Func, k: usize) -> Result<bool, Fault>
        requires row { k < length self.old.found.items }
        requires there { f.now.start + k < length code.now.instrs.items }
        requires named { table.IsNamed (code_view code.now) f.now (f.now.start + k) }
        requires known { numbers.IsKnown self.old }
        ensures visits { steps.Visits code.now f.now k self.old self.new result }
        ensures known { IfOk result (λ _. numbers.IsKnown self.new) }
    {
        let place = f.start + k;
        let i = code.instrs[place];
        let shape = match &self.found[k] {
            None => return Ok(false),
            Some(shape) => {
                if !found::is_ready(code, shape, &i) {
                    return Err(Fault::Code);
                }
                if !found::is_thawed(code, shape, &i) {
                    return Err(Fault::Code);
                }
                found::copy(shape)?
            }
        };
        let left = leave(alloc, code, shape, &i)?;
        let number = self.numbers.next(k, &i);
        self.spread(alloc, code, f, place, &i, left, number)
    }

    // Visits pcs of the work list until a visit reaches a new pc. Returns whether one did.
    fn settle(&mut self, alloc: Global, code: &Code, f: &Func) -> Result<bool, Fault>
        requires there { f.now.end ≤ length code.now.instrs.items }
        requires named { table.AllNamed (code_view code.now) f.now }
        requires search { table.Searches (code_view code.now) f.now self.old }
        requires known { numbers.IsKnown self.old }
        ensures settles { steps.Settles code.now f.now self.old self.new result }
        ensures known { IfOk result (λ _. numbers.IsKnown self.new) }
    {
        while let Some(k) = self.work.pop() {
            match self.visit(alloc, code, f, k) {
                Err(e) => return Err(e),
                Ok(reached) => {
                    if reached {
                        return Ok(true);
                    }
                }
            }
        }
        Ok(false)
    }
}

// Returns a search at its beginning: the first pc is reached, and is in the work list.
fn begin(alloc: Global, f: &Func) -> Result<Search, Fault>
    requires { f.now.start < f.now.end }
    ensures begins { OrMemory result (λ s. table.Begins f.now s) }
    ensures known { OrMemory result (λ s. numbers.IsKnown s) }
{
    let first = found::first(alloc, f)?;
    let mut found = Vec::new(alloc);
    found.push(Some(first))?;
    for _i in 0..f.end - f.start - 1 {
        found.push(None)?;
    }
    let mut work = WorkList::new(alloc, f.end - f.start)?;
    work.push(0, false)?;
    let numbers = Numbers::new(alloc, f.end - f.start)?;
    Ok(Search {
        found,
        work,
        numbers,
    })
}

/// Returns the table of a function. Everything that its instructions name must exist.
///
/// # Errors
///
/// `Fault::Code` exactly if the function has no table, `Fault::Memory` if there is not enough memory.
pub fn find(alloc: Global, code: &Code, f: &Func) -> Result<Vec<Option<Found>>, Fault>
    requires order { f.now.start < f.now.end }
    requires there { f.now.end ≤ length code.now.instrs.items }
    requires named { table.AllNamed (code_view code.now) f.now }
    ensures { steps.FindsTable code.now f.now result }
{
    let mut search = begin(alloc, f)?;
    loop {
        match search.settle(alloc, code, f) {
            Err(e) => return Err(e),
            Ok(reached) => {
                if !reached {
                    return Ok(search.found);
                }
            }
        }
    }
}

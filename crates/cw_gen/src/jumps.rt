//! Appends instructions and jumps. The distance of a forward jump is known only after the code that it skips is
//! complete.

ghost use Rattle.std.specs.Prelude.{◌≡◌, ◌<◌, [], ◌∷◌, length, IfOk};
ghost use Rattle.cw_code.specs.declared.code.Instr.TheVariants as instr;
ghost use Rattle.cw_gen.specs.Emit as spec;
ghost use Rattle.cw_gen.specs.Written.{Adds, landed, landed_past};

use cw_code::code::Instr;
use std::alloc::AllocError;

/// The maximum distance of a jump.
const MOST_JUMP: usize = 4_294_967_295;

/// Appends an instruction.
///
/// # Errors
///
/// Returns an error if memory runs out.
pub(crate) fn put(instrs: &mut Vec<Instr>, instr: Instr) -> Result<(), AllocError>
    ensures { Adds instrs.old instrs.new (instr ∷ []) result }
{
    instrs.push(instr)?;
    Ok(())
}

/// Appends instructions in order.
///
/// # Errors
///
/// Returns an error if memory runs out.
pub(crate) fn row(instrs: &mut Vec<Instr>, more: &[Instr]) -> Result<(), AllocError>
    ensures { Adds instrs.old instrs.new more.now result }
{
    instrs.extend_from_slice(more)?;
    Ok(())
}

/// Reserves an instruction for a jump, and returns its index.
///
/// # Errors
///
/// Returns an error if memory runs out.
pub(crate) fn hole(instrs: &mut Vec<Instr>) -> Result<usize, AllocError>
    ensures instrs { Adds instrs.old instrs.new (instr.Skip 0 ∷ []) result }
    ensures place { IfOk result (λ place. place ≡ length instrs.old.items) }
{
    let place = instrs.len();
    put(instrs, Instr::Skip(0))?;
    Ok(place)
}

/// Fills a reserved instruction with a test that jumps to the end of the code if the last operand is 0.
pub(crate) fn land(instrs: &mut Vec<Instr>, place: usize)
    requires { place < length instrs.old.items }
    ensures { instrs.new.items ≡ landed place instrs.old.items }
{
    let n = distance(instrs.len() - place - 1);
    instrs[place] = Instr::SkipIfZero(n);
}

/// Fills a reserved instruction with a jump to the end of the code; the distance is 0 if the code before it surely
/// returns.
pub(crate) fn land_past(instrs: &mut Vec<Instr>, place: usize, returns: bool)
    requires { place < length instrs.old.items }
    ensures { instrs.new.items ≡ landed_past returns place instrs.old.items }
{
    let n = distance(if returns { 0 } else { instrs.len() - place - 1 });
    instrs[place] = Instr::Skip(n);
}

/// Returns a distance as an instruction holds it: `n`, or `MOST_JUMP` if `n` is larger.
pub(crate) fn distance(n: usize) -> u32
    ensures { result ≡ spec.distance n }
{
    if n < MOST_JUMP {
        n as u32
    } else {
        MOST_JUMP as u32
    }
}

//! Computes the spans that a run would have if the instructions of some sites' invocations were zero-cost.

ghost use Rattle.std.specs.Prelude.{◌≡◌};
ghost use Rattle.cw_code.specs.Code.{code_view};
ghost use Rattle.cw_machine.specs.Freed.{is_freed, FreesAsCode};

use crate::listener::{Listener, listen};
use cw_freed::{Freed, FreedMeter};
use cw_model::burden::Burden;
use cw_model::syntax::CallKind;
use cw_runnable::op::Op;
use cw_runnable::verified::Verified;
use cw_text::Fault;
use std::alloc::{AllocError, Global};
use std::sync::Arc;

/// The meter of a run in which some sites are zero-cost, and the list of these sites.
#[derive(Drop, Debug)]
pub(crate) struct Freeing {
    pub(crate) meter: FreedMeter,
    /// For each site, by its number, whether it is zero-cost. No site past the end of the list is.
    pub(crate) frees: Vec<bool>,
}

// Whether a site is zero-cost.
#[inline(always)]
fn is_free(frees: &[bool], site: u32) -> bool
    ensures { result ≡ is_freed frees.now site }
{
    let site = site as usize;
    if site < frees.len() {
        frees[site]
    } else {
        false
    }
}

impl Listener for Freeing {
    ghost use Rattle.cw_machine.specs.Freed.{Asked, FreesRun};

    ghost Asked = { Asked };

    ghost keeps = { FreesRun };

    #[inline(always)]
    fn on_instruction(&mut self, count: u64, o: &Op) -> Result<(), AllocError> {
        cw_freed::laws::instructions_need_no_call();
        match o {
            Op::Call(_, kind, c) => {
                let free = is_free(self.frees.as_slice(), c.site);
                match kind {
                    CallKind::Plain => self.meter.call(count, free),
                    CallKind::Spawned => self.meter.spawn(count, free),
                }
            }
            Op::Recur(_, kind, _) => match kind {
                CallKind::Plain => self.meter.begin(count),
                CallKind::Spawned => self.meter.spawn_half(count),
            },
            Op::Start(..) | Op::Cut(..) | Op::Open(_) => self.meter.begin(count),
            Op::EndCut(_) | Op::Close => {
                self.meter.end(count);
                Ok(())
            }
            Op::Sync => {
                self.meter.sync(count);
                Ok(())
            }
            Op::ReturnValue(_) | Op::Return => {
                self.meter.give_back(count);
                Ok(())
            }
            _ => Ok(()),
        }
    }

    fn needs_no_call() {
        cw_freed::laws::instructions_need_no_call();
    }
}

/// Runs code on these arguments within `n` instructions, and returns the spans that the run would have if the
/// instructions of some call sites' invocations were zero-cost: the spans of its strand tree in which these
/// instructions weigh nothing.
///
/// `frees` says for each site, by its number, whether it is zero-cost. Site 0 is the call of `main` by the run
/// itself, and no site past the end of the list is zero-cost. `burden` is the charge for a spawn, in instructions. It
/// changes only the burdened span, and is also charged if a zero-cost invocation spawns.
///
/// # Errors
///
/// `Fault::Arguments` exactly if the number of arguments is not the number of `main`'s parameters, or `n` is not in
/// 1..=2^62, or more than 1,000,000,000 instructions are charged for an edge. Otherwise `Fault::OverLimit` exactly if
/// the run costs more than `n`, with the zero-cost instructions counted, `Fault::Trap` exactly if it traps, with the
/// line and the values printed before, and `Fault::Memory` if memory runs out.
pub fn freed_alone(
    alloc: Global,
    code: Arc<Verified>,
    args: &[i64],
    n: u64,
    burden: Burden,
    frees: Vec<bool>,
) -> Result<Freed, Fault>
    ensures { FreesAsCode (code_view code.value.code) args.now n burden frees.items result }
{
    let verified: &Verified = &code;
    let free = is_free(frees.as_slice(), 0);
    let listener = Freeing {
        meter: FreedMeter::new(alloc, burden, free),
        frees,
    };
    let (freeing, count) = listen(alloc, verified, args, n, burden, listener)?;
    Ok(freeing.meter.finish(count))
}

//! Which array slots of a function are readers in its code.

ghost use Rattle.std.specs.Prelude.{◌≡◌, ◌+◌, IfOk};
ghost use Rattle.cw_gen.specs.Marks as spec;
ghost use Rattle.cw_gen.specs.Written.{kinds_of};

use crate::array_places::Places;
use cw_code::code::Loan;
use cw_model::syntax::NameKind;
use cw_tree::resolved::Param;
use std::alloc::{AllocError, Global};

/// Returns the numbers of the array slots of a function with these parameters.
///
/// # Errors
///
/// Returns an error if memory runs out.
pub(crate) fn places_of(alloc: Global, params: &[Param]) -> Result<Places, AllocError>
    ensures { IfOk result (λ places. places ≡ spec.marks_of (kinds_of params.now)) }
{
    let mut table = Vec::new(alloc);
    let mut arrays = 0;
    let mut readers = 0;
    for p in params {
        match p.kind {
            NameKind::Integer => {}
            NameKind::Array => {
                table.push(Loan::Array(arrays))?;
                arrays = next(arrays)?;
            }
            NameKind::Const => {
                table.push(Loan::Reader(readers))?;
                readers = next(readers)?;
            }
        }
    }
    if readers == 0 {
        return Ok(Places::none(alloc));
    }
    Ok(Places { table, readers })
}

// Returns the next number; an error on overflow.
fn next(number: u32) -> Result<u32, AllocError>
    ensures { IfOk result (λ next. next ≡ number + 1) }
{
    match number.checked_add(1) {
        Some(next) => Ok(next),
        None => Err(AllocError),
    }
}

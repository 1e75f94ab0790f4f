//! The numbers of processors that speedups are reported for.

ghost use Rattle.std.specs.Prelude.{◌≡◌, ◌<◌, ◌^◌, IfOk};
ghost use Rattle.cw_greedy_schedule.specs.Counts.{processor_counts};

use std::alloc::{AllocError, Global};

// The number of powers of two that are tried: the next one is above the largest number of processors.
const POWERS: u32 = 20;

/// Returns the powers of two below `most`, and then `most`.
///
/// `most` is from 1 to 1,000,000. Fails if memory runs out.
pub fn counts_up_to(alloc: Global, most: u64) -> Result<Vec<u64>, AllocError>
    ensures { IfOk result (λ counts. counts.items ≡ processor_counts most) }
{
    let mut counts = Vec::new(alloc);
    for exponent in 0..POWERS {
        let power = power_of_two(exponent);
        if power < most {
            counts.push(power)?;
        }
    }
    counts.push(most)?;
    Ok(counts)
}

fn power_of_two(exponent: u32) -> u64
    requires { exponent < 64 }
    ensures { result ≡ 2 ^ exponent }
{
    1 << exponent
}

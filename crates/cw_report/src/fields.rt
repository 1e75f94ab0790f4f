//! The fields of ratios.

ghost use Rattle.std.specs.Prelude.{◌≡◌, ◌<◌, IfOk};
ghost use Rattle.cw_model.specs.Report.{parallelism, thousandths, three_digits};
ghost use Rattle.cw_report.specs.Speedups as speedups;

use itoa::Buffer;
use std::alloc::{AllocError, Global};

/// Returns the text of work divided by span, with three digits, rounded down; 0 if the span is 0.
///
/// # Errors
///
/// Returns an error if memory runs out.
pub fn parallelism_text(alloc: Global, work: u64, span: u128) -> Result<Vec<u8>, AllocError>
    ensures { IfOk result (λ text. text.items ≡ parallelism work span) }
{
    let ratio = ratio(work, span);
    let text = thousandths_text(alloc, ratio)?;
    Ok(text)
}

/// Returns the text of the minimum of the number of processors and work divided by span, with three digits, rounded down.
///
/// # Errors
///
/// Returns an error if memory runs out.
pub fn bound_text(
    alloc: Global,
    processors: u64,
    work: u64,
    span: u64,
) -> Result<Vec<u8>, AllocError>
    ensures { IfOk result (λ text. text.items ≡ speedups.bound_text processors work span) }
{
    let of_processors = 1000 * u128::from(processors);
    let of_span = ratio(work, u128::from(span));
    let text = thousandths_text(alloc, of_processors.min(of_span))?;
    Ok(text)
}

// So many thousandths, with three digits; an error where memory runs out.
fn thousandths_text(alloc: Global, number: u128) -> Result<Vec<u8>, AllocError>
    ensures { IfOk result (λ text. text.items ≡ thousandths number) }
{
    let mut buffer = Buffer::new();
    let mut text = Vec::from_slice(alloc, buffer.format(number / 1000).as_bytes())?;
    text.extend_from_slice(b".")?;
    text.extend_from_slice(&digits_of(number % 1000))?;
    Ok(text)
}

// Work by span in thousandths, rounded down, and 0 where there is no span.
pub(crate) fn ratio(work: u64, span: u128) -> u128
    ensures text { thousandths result ≡ parallelism work span }
    ensures value { result ≡ speedups.ratio work span }
{
    if span == 0 {
        0
    } else {
        1000 * u128::from(work) / span
    }
}

// A number in three digits.
fn digits_of(number: u128) -> [u8; 3]
    requires { number < 1000 }
    ensures { result ≡ three_digits number }
{
    let first = (number / 100) as u8;
    let second = (number / 10 % 10) as u8;
    let third = (number % 10) as u8;
    [b'0' + first, b'0' + second, b'0' + third]
}

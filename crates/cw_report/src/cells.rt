//! The cells of aligned tables.

ghost use Rattle.std.specs.Prelude.{◌≡◌, ◌==◌, ◌+◌, ◌<◌, ◌≤◌, IfOk, drop, length};
ghost use Rattle.std.specs.List.{position_or_len};
ghost use Rattle.cw_report.specs.Aligned as aligned;
ghost use Rattle.cw_report.specs.Texts.{Grows};

use crate::column::Column;
use crate::fields::ratio;
use cw_model::limits::MOST_LIMIT;
use itoa::Buffer;
use std::alloc::{AllocError, Global};

// Returns the place of the first byte `at`, or the length of the text if it has no such byte.
pub(crate) fn end_at(text: &[u8], at: u8) -> usize
    ensures value { result ≡ position_or_len (λ b. b == at) text.now }
    ensures bound { result ≤ length text.now }
{
    let mut end = 0;
    while end < text.len() && text[end] != at {
        end += 1;
    }
    end
}

// Returns what follows a place of a text.
pub(crate) fn after(text: &[u8], place: usize) -> &[u8]
    requires { place < length text.now }
    ensures { result.now ≡ drop (place + 1) text.now }
{
    &text[place + 1..]
}

// Returns a field of a CSV line without quotes, counted from 0, or nothing if the line has fewer fields.
fn field(line: &[u8], number: usize) -> &[u8]
    ensures { result.now ≡ aligned.field number line.now }
{
    let mut rest = line;
    for _ in 0..number {
        let end = end_at(rest, b',');
        if end >= rest.len() {
            return b"";
        }
        rest = after(rest, end);
    }
    let end = end_at(rest, b',');
    &rest[..end]
}

/// Returns the title of a column, if this line has the names of the fields.
pub(crate) fn title(column: Column, names: &[u8]) -> &[u8]
    ensures { result.now ≡ aligned.title column names.now }
{
    match column {
        Column::Word(number) | Column::Label(number) | Column::Number(number) => {
            field(names, number)
        },
        Column::OfWork(_, _) => b"% work",
        Column::OfSpan(_, _) => b"% span",
    }
}

/// Returns the cell of a column in the row of a line, if `first` is the line of the first row.
///
/// # Errors
///
/// `AllocError` if memory runs out.
pub(crate) fn cell(
    alloc: Global,
    first: &[u8],
    column: Column,
    line: &[u8],
) -> Result<Vec<u8>, AllocError>
    ensures { IfOk result (λ text. text.items ≡ aligned.cell first.now column line.now) }
{
    match column {
        Column::Word(number) => word(alloc, field(line, number)),
        Column::Label(number) => Vec::from_slice(alloc, field(line, number)),
        Column::Number(place) => number(alloc, field(line, place)),
        Column::OfWork(part, whole) => percent(alloc, field(line, part), field(first, whole)),
        Column::OfSpan(part, whole) => percent(alloc, field(line, part), field(first, whole)),
    }
}

// Returns a word, or `(program)` if it is empty.
fn word(alloc: Global, text: &[u8]) -> Result<Vec<u8>, AllocError>
    ensures { IfOk result (λ made. made.items ≡ aligned.word text.now) }
{
    if text.is_empty() {
        return Vec::from_slice(alloc, b"(program)");
    }
    Vec::from_slice(alloc, text)
}

// Returns a number with separators up to its decimal point, or `-` if it is empty.
fn number(alloc: Global, text: &[u8]) -> Result<Vec<u8>, AllocError>
    ensures { IfOk result (λ made. made.items ≡ aligned.number text.now) }
{
    if text.is_empty() {
        return Vec::from_slice(alloc, b"-");
    }
    let point = end_at(text, b'.');
    let mut made = Vec::new(alloc);
    push_separated(&mut made, &text[..point])?;
    made.extend_from_slice(&text[point..])?;
    Ok(made)
}

// Adds digits with separators.
fn push_separated(made: &mut Vec<u8>, digits: &[u8]) -> Result<(), AllocError>
    ensures { Grows made.old made.new (aligned.separated digits.now) result }
{
    let mut left = digits.len();
    for digit in digits {
        left -= 1;
        made.push(*digit)?;
        if left > 0 && left % 3 == 0 {
            made.push(b',')?;
        }
    }
    Ok(())
}

// Returns the share that a count has of another, in percent.
fn percent(alloc: Global, part: &[u8], whole: &[u8]) -> Result<Vec<u8>, AllocError>
    ensures { IfOk result (λ made. made.items ≡ aligned.share part.now whole.now) }
{
    let share = ratio(count(part), u128::from(count(whole)));
    let mut buffer = Buffer::new();
    let mut made = Vec::from_slice(alloc, buffer.format(share / 10).as_bytes())?;
    made.push(b'.')?;
    made.push(b'0' + (share % 10) as u8)?;
    Ok(made)
}

// Returns the value of the digits of a count, or 0 if it exceeds what a run can count.
fn count(digits: &[u8]) -> u64
    ensures { result ≡ aligned.count digits.now }
{
    let mut value = 0u64;
    for digit in digits {
        let unit = u64::from(digit.saturating_sub(b'0'));
        if value > (MOST_LIMIT - unit) / 10 {
            return 0;
        }
        value = 10 * value + unit;
    }
    value
}

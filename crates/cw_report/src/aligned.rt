//! Aligned tables, which are made from the CSV text of a report.

ghost use Rattle.std.specs.Prelude.{◌≡◌, IfOk, replicate};
ghost use Rattle.cw_report.specs.Aligned as aligned;
ghost use Rattle.cw_report.specs.Texts.{Grows};
ghost use Rattle.cw_report.specs.Sized.{fitted, further_cell, further_cells, lines_in, sized, sized_cell, sized_row};
ghost use Rattle.cw_report.specs.Sized.{AreSized, IsTable};

use crate::cells::{after, cell, end_at, title};
use crate::column::Column;
use std::alloc::{AllocError, Global};

// A column with its width.
#[derive(Clone, Copy)]
pub(crate) struct SizedColumn {
    pub column: Column,
    pub width: usize,
}

/// Returns the aligned text of a CSV text, with these columns.
///
/// # Errors
///
/// `AllocError` if memory runs out.
pub fn aligned(alloc: Global, columns: &[Column], csv: &[u8]) -> Result<Vec<u8>, AllocError>
    ensures { IfOk result (λ text. text.items ≡ aligned.aligned columns.now csv.now) }
{
    let lines = lines_of(alloc, csv)?;
    match lines.as_slice().split_first() {
        Some((names, rows)) => table(alloc, columns, names, rows),
        None => Ok(Vec::new(alloc)),
    }
}

// Returns the lines of a text.
fn lines_of(alloc: Global, text: &[u8]) -> Result<Vec<&[u8]>, AllocError>
    ensures { IfOk result (λ lines. lines_in lines.items ≡ aligned.lines_of text.now) }
{
    let mut lines = Vec::new(alloc);
    let mut rest = text;
    while !rest.is_empty() {
        let end = end_at(rest, b'\n');
        if end >= rest.len() {
            return Ok(lines);
        }
        lines.push(&rest[..end])?;
        rest = after(rest, end);
    }
    Ok(lines)
}

// Returns the table of these rows, with the names of their fields.
fn table(
    alloc: Global,
    columns: &[Column],
    names: &[u8],
    rows: &[&[u8]],
) -> Result<Vec<u8>, AllocError>
    ensures { IfOk result (IsTable columns.now names.now rows.now) }
{
    let first = first_of(rows);
    let wide = all_sized(alloc, columns, names, first, rows)?;
    let columns = wide.as_slice();
    let mut text = Vec::new(alloc);
    push_row(alloc, &mut text, columns, true, first, names)?;
    for row in rows {
        push_row(alloc, &mut text, columns, false, first, row)?;
    }
    Ok(text)
}

// Returns the line of the first row, if there are rows.
fn first_of<'a>(rows: &[&'a [u8]]) -> &'a [u8]
    ensures { result.now ≡ aligned.first_of (lines_in rows.now) }
{
    match rows.split_first() {
        Some((first, _)) => first,
        None => b"",
    }
}

// Returns the columns with their widths.
fn all_sized(
    alloc: Global,
    columns: &[Column],
    names: &[u8],
    first: &[u8],
    rows: &[&[u8]],
) -> Result<Vec<SizedColumn>, AllocError>
    ensures { IfOk result (AreSized names.now first.now rows.now columns.now) }
{
    let mut made = Vec::new(alloc);
    for column in columns {
        let sized = sized(alloc, *column, names, first, rows)?;
        made.push(sized)?;
    }
    Ok(made)
}

// Returns a column with its width.
fn sized(
    alloc: Global,
    column: Column,
    names: &[u8],
    first: &[u8],
    rows: &[&[u8]],
) -> Result<SizedColumn, AllocError>
    ensures { IfOk result (λ made. made ≡ sized names.now first.now (lines_in rows.now) column) }
{
    let cells = longest(alloc, first, column, rows)?;
    Ok(SizedColumn {
        column,
        width: title(column, names).len().max(cells),
    })
}

// Returns the length of the longest cell of a column.
fn longest(alloc: Global, first: &[u8], column: Column, rows: &[&[u8]]) -> Result<usize, AllocError>
    ensures { IfOk result (λ n. n ≡ aligned.longest first.now column (lines_in rows.now)) }
{
    let mut longest = 0;
    for row in rows {
        let text = cell(alloc, first, column, row)?;
        longest = text.len().max(longest);
    }
    Ok(longest)
}

// Adds the line of titles, or the line of a row if `first` is the line of the first row.
fn push_row(
    alloc: Global,
    text: &mut Vec<u8>,
    columns: &[SizedColumn],
    titled: bool,
    first: &[u8],
    line: &[u8],
) -> Result<(), AllocError>
    ensures { Grows text.old text.new (sized_row titled first.now line.now columns.now) result }
{
    match columns.split_first() {
        Some((leading, rest)) => {
            push_cell(alloc, text, leading, titled, first, line)?;
            push_cells(alloc, text, rest, titled, first, line)?;
            text.extend_from_slice(b"\n")
        }
        None => text.extend_from_slice(b"\n"),
    }
}

// Adds the cells of further columns, with two spaces before each.
fn push_cells(
    alloc: Global,
    text: &mut Vec<u8>,
    columns: &[SizedColumn],
    titled: bool,
    first: &[u8],
    line: &[u8],
) -> Result<(), AllocError>
    ensures { Grows text.old text.new (further_cells titled first.now line.now columns.now) result }
{
    for column in columns {
        push_further(alloc, text, column, titled, first, line)?;
    }
    Ok(())
}

// Adds two spaces and the cell of a column.
fn push_further(
    alloc: Global,
    text: &mut Vec<u8>,
    column: &SizedColumn,
    titled: bool,
    first: &[u8],
    line: &[u8],
) -> Result<(), AllocError>
    ensures { Grows text.old text.new (further_cell titled first.now line.now column.now) result }
{
    text.extend_from_slice(b"  ")?;
    push_cell(alloc, text, column, titled, first, line)
}

// Adds the cell of a column, or its title.
fn push_cell(
    alloc: Global,
    text: &mut Vec<u8>,
    column: &SizedColumn,
    titled: bool,
    first: &[u8],
    line: &[u8],
) -> Result<(), AllocError>
    ensures { Grows text.old text.new (sized_cell titled first.now line.now column.now) result }
{
    if titled {
        return push_padded(text, column, title(column.column, line));
    }
    let cell = cell(alloc, first, column.column, line)?;
    push_padded(text, column, &cell)
}

// Adds a text and the spaces that fill its column.
fn push_padded(text: &mut Vec<u8>, column: &SizedColumn, cell: &[u8]) -> Result<(), AllocError>
    ensures { Grows text.old text.new (fitted column.now cell.now) result }
{
    let spaces = column.width.saturating_sub(cell.len());
    if let Column::Word(_) = column.column {
        text.extend_from_slice(cell)?;
        push_spaces(text, spaces)
    } else {
        push_spaces(text, spaces)?;
        text.extend_from_slice(cell)
    }
}

// Adds `count` spaces.
fn push_spaces(text: &mut Vec<u8>, count: usize) -> Result<(), AllocError>
    ensures { Grows text.old text.new (replicate count 32) result }
{
    for _ in 0..count {
        text.push(b' ')?;
    }
    Ok(())
}

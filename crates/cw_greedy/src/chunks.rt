//! Lists of chunks of entries. A join moves chunks.

ghost use Rattle.std.specs.Prelude.{◌≡◌, ◌++◌, [], IfOk, OnOk};
ghost use Rattle.cw_greedy.specs.Entries.{codes_kept, codes_of_chunks};

use crate::entry::Entry;
use std::alloc::AllocError;
use std::collections::VecDeque;
use std::mem;

// The number of entries of a full chunk, which takes 65,536 bytes.
const CHUNK: usize = 4_096;

/// Makes room for one more entry: closes a full chunk, and allocates the next one in full.
///
/// # Errors
///
/// Returns an `AllocError` if memory runs out. The entries are then unchanged.
pub(crate) fn make_room(
    chunks: &mut VecDeque<Vec<Entry>>,
    last: &mut Vec<Entry>,
) -> Result<(), AllocError>
    ensures { codes_kept chunks.new.items last.new.items
        ≡ codes_kept chunks.old.items last.old.items }
{
    if last.len() >= CHUNK {
        let next = Vec::with_capacity(*last.allocator(), CHUNK)?;
        close(chunks, last, next)?;
    }
    Ok(())
}

// Appends the current chunk to the closed chunks, and replaces it by an empty one.
fn close(
    chunks: &mut VecDeque<Vec<Entry>>,
    last: &mut Vec<Entry>,
    next: Vec<Entry>,
) -> Result<(), AllocError>
    requires { next.items ≡ [] }
    ensures { codes_kept chunks.new.items last.new.items
        ≡ codes_kept chunks.old.items last.old.items }
{
    chunks.reserve(1)?;
    let full = mem::replace(last, next);
    chunks.push_back(full)?;
    Ok(())
}

/// Returns the closed chunks followed by the current one, unless that is empty.
///
/// # Errors
///
/// Returns an `AllocError` if memory runs out. No chunk is kept then.
pub(crate) fn all_closed(
    chunks: VecDeque<Vec<Entry>>,
    last: Vec<Entry>,
) -> Result<VecDeque<Vec<Entry>>, AllocError>
    ensures { IfOk result (λ all. codes_of_chunks all.items ≡ codes_kept chunks.items last.items) }
{
    if last.is_empty() {
        return Ok(chunks);
    }
    let mut chunks = chunks;
    chunks.push_back(last)?;
    Ok(chunks)
}

/// Returns the chunks of both lists, in order. The shorter list is moved into the longer one.
///
/// # Errors
///
/// Returns an `AllocError` if memory runs out. No chunk is kept then.
pub(crate) fn one_after(
    first: VecDeque<Vec<Entry>>,
    more: VecDeque<Vec<Entry>>,
) -> Result<VecDeque<Vec<Entry>>, AllocError>
    ensures { IfOk result (λ chunks. chunks.items ≡ first.items ++ more.items) }
{
    let mut first = first;
    let mut more = more;
    if more.len() <= first.len() {
        first.append(&mut more)?;
        return Ok(first);
    }
    put_before(&mut first, &mut more)?;
    Ok(more)
}

// Moves the chunks of the first list before the others.
fn put_before(
    first: &mut VecDeque<Vec<Entry>>,
    more: &mut VecDeque<Vec<Entry>>,
) -> Result<(), AllocError>
    ensures { OnOk result (more.new.items ≡ first.old.items ++ more.old.items) }
{
    while let Some(chunk) = first.pop_back() {
        more.push_front(chunk)?;
    }
    Ok(())
}

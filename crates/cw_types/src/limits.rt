//! The limits on the parts of a program.

ghost use Rattle.std.specs.Prelude.{◌≡◌, ◌∷◌, [], None, map, flat_map, is_some, length, nat_le, not, IfOk, IfSome};
ghost use Rattle.cw_model.specs.Lines.{lowest};
ghost use Rattle.cw_model.specs.Sizes.{limit_faults, function_limits as limits_of};
ghost use Rattle.cw_model.specs.Sizes.{declaring_lines, declaring_lines_in};
ghost use Rattle.cw_tree.specs.SyntaxView.{program_of, function_of, block_of, stmt_of};
ghost use Rattle.cw_text.specs.AreRecorded.{TakesRoom};
ghost use Rattle.cw_types.specs.Limits.{IsLongTag, IsPassedByFunction, IsPassedByOne, IsPassedByParts};
ghost use Rattle.cw_types.specs.Limits.{IsPassedByRegions, declared_past};
ghost use Rattle.cw_types.specs.AreRecorded.{TakesTag};
ghost use Rattle.cw_types.specs.AreRecorded.{functions_past, reducers_past, long_tag, tags_past};
ghost use Rattle.cw_types.specs.Regions.{regions_of};
ghost use Rattle.cw_types.specs.RecordingLines.{IsOf, AreRecorded, AddsOnly, recorded_line};

use crate::known::Known;
use crate::least_reason::LeastReason;
use crate::reason::TooLarge;
use crate::regions::{Marked, regions};
use cw_model::limits::{
    MOST_DECLARED, MOST_FUNCTIONS, MOST_PARAMETERS, MOST_REDUCERS, MOST_TAG_BYTES, MOST_TAGS,
};
use cw_model::syntax::NameKind;
use cw_text::LeastLine;
use cw_tree::syntax::{Ast, Function, Line, Param, Reducer, Stmt};
use std::alloc::{AllocError, Global};

/// Returns the least line that exceeds a limit, with the limit. These lines exceed one:
///
/// - the line of a function after the 1,024th, or of a reducer after the 32nd;
/// - the line of a function with more than 16 parameters;
/// - the line of the declaration of a name after the 256th of a function;
/// - the line of a tag with more than 32 bytes, or of the first region of a distinct tag after the 64th.
///
/// # Errors
///
/// Returns an error if memory runs out.
pub fn limits<'a>(alloc: Global, ast: &'a Ast) -> Result<LeastReason<TooLarge<'a>>, AllocError>
    ensures lines { IfOk result (λ told.
        recorded_line told ≡ lowest None (limit_faults (program_of ast.now))) }
    ensures holds { IfOk result (λ told. IsOf (IsPassedByParts (program_of ast.now)) told) }
{
    let mut told = LeastReason::new();
    told.record_least(functions_beyond(&ast.functions), TooLarge::Functions);
    told.record_least(reducers_beyond(&ast.reducers), TooLarge::Reducers);
    functions_limits(&ast.functions, &mut told);
    let regions = regions(alloc, &ast.functions)?;
    long_tags(&regions, &mut told);
    told.record_least(tags_beyond(alloc, &regions)?, TooLarge::Tags);
    Ok(told)
}

// Returns the least line of the functions past the limit.
fn functions_beyond(functions: &[Function]) -> LeastLine
    ensures { result.line ≡ lowest None (functions_past functions.now) }
{
    let mut least = LeastLine::new();
    let mut room = MOST_FUNCTIONS;
    for function in functions {
        room = least.record_past(room, function.line);
    }
    least
}

// Returns the least line of the reducers past the limit.
fn reducers_beyond(reducers: &[Reducer]) -> LeastLine
    ensures { result.line ≡ lowest None (reducers_past reducers.now) }
{
    let mut least = LeastLine::new();
    let mut room = MOST_REDUCERS;
    for reducer in reducers {
        room = least.record_past(room, reducer.line);
    }
    least
}

// Records the lines at which a function exceeds a limit.
fn functions_limits<'a>(functions: &'a [Function], told: &mut LeastReason<TooLarge<'a>>)
    ensures lines { AreRecorded (flat_map limits_of (map function_of functions.now)) told.old told.new }
    ensures told { AddsOnly (IsPassedByOne (map function_of functions.now)) told.old told.new }
{
    for function in functions {
        function_limits(function, told);
    }
}

// Records the lines at which this function exceeds a limit.
fn function_limits<'a>(function: &'a Function, told: &mut LeastReason<TooLarge<'a>>)
    ensures lines { AreRecorded (limits_of (function_of function.now)) told.old told.new }
    ensures told { AddsOnly (IsPassedByFunction (function_of function.now)) told.old told.new }
{
    told.note(many_params(function), function.line);
    told.record_least(
        declared_beyond(function),
        TooLarge::Declared(&function.name),
    );
}

// Returns a reason if a function has too many parameters.
fn many_params<'a>(function: &'a Function) -> Option<TooLarge<'a>>
    ensures decides { is_some result
        ≡ not (nat_le (length (function_of function.now).params) MOST_PARAMETERS) }
    ensures holds { IfSome result
        (IsPassedByFunction (function_of function.now) function.now.line) }
{
    let count = function.params.len();
    if count <= MOST_PARAMETERS {
        return None;
    }
    Some(TooLarge::Parameters(&function.name, count))
}

// Returns the least line of the names past the limit that a function declares, its parameters first.
fn declared_beyond(function: &Function) -> LeastLine
    ensures { result.line ≡ lowest None (declared_past (function_of function.now)) }
{
    let mut least = LeastLine::new();
    let room = params_beyond(MOST_DECLARED, function.line, &function.params, &mut least);
    block_beyond(room, &function.body, &mut least);
    least
}

// Returns the room that is left after the parameters.
fn params_beyond(room: usize, line: u32, params: &[Param], least: &mut LeastLine) -> usize
    ensures { TakesRoom room result (map (λ _. line) params.now) least.old least.new }
{
    let mut left = room;
    for _param in params {
        left = least.record_past(left, line);
    }
    left
}

// Records the lines of the declarations of a block that have no room, and returns the room that is left after them.
#[cycle(declaring)]
fn block_beyond(room: usize, lines: &[Line], least: &mut LeastLine) -> usize
    ensures { TakesRoom room result (declaring_lines_in (block_of lines.now)) least.old least.new }
{
    let mut left = room;
    for line in lines {
        left = statement_beyond(left, line.line, &line.stmt, least);
    }
    left
}

// Records the lines of the declarations of a statement that have no room, and returns the room that is left after
// them.
#[cycle(declaring)]
fn statement_beyond(room: usize, line: u32, stmt: &Stmt, least: &mut LeastLine) -> usize
    ensures { TakesRoom room result (declaring_lines line (stmt_of stmt.now)) least.old least.new }
{
    match stmt {
        Stmt::Declare(_, _) | Stmt::DeclareArray(_, _) => least.record_past(room, line),
        Stmt::If(_, b) | Stmt::While(_, b) | Stmt::Scope(b) | Stmt::Region(_, b) => {
            block_beyond(room, b, least)
        }
        Stmt::IfElse(_, b, c) => {
            let left = block_beyond(room, b, least);
            block_beyond(left, c, least)
        }
        Stmt::For(_, b) => {
            let left = least.record_past(room, line);
            block_beyond(left, b, least)
        }
        Stmt::Cut(_, b) => {
            let after_one = least.record_past(room, line);
            let after_both = least.record_past(after_one, line);
            block_beyond(after_both, b, least)
        }
        Stmt::Assign(_, _)
        | Stmt::AssignElement(_, _, _)
        | Stmt::Reduce(_, _, _)
        | Stmt::Call(_)
        | Stmt::Sync
        | Stmt::Print(_)
        | Stmt::Return(_) => room,
    }
}

// Records the lines of regions whose tags are too long.
fn long_tags<'a>(regions: &[Marked<'a>], told: &mut LeastReason<TooLarge<'a>>)
    ensures lines { AreRecorded (flat_map long_tag (regions_of regions.now)) told.old told.new }
    ensures told { AddsOnly (IsPassedByRegions (regions_of regions.now)) told.old told.new }
{
    for region in regions {
        told.note(long_tag(*region), region.line);
    }
}

// Returns a reason if the tag of a region is too long.
fn long_tag<'a>(region: Marked<'a>) -> Option<TooLarge<'a>>
    ensures decides { is_some result ≡ not (nat_le (length region.entry.tag.now) MOST_TAG_BYTES) }
    ensures holds { IfSome result (IsLongTag region.entry.tag.now) }
{
    if region.tag.len() <= MOST_TAG_BYTES {
        return None;
    }
    Some(TooLarge::TagBytes(region.tag))
}

// Returns the least line of the first regions of the tags past the limit.
fn tags_beyond(alloc: Global, regions: &[Marked]) -> Result<LeastLine, AllocError>
    ensures { IfOk result (λ least.
        least.line ≡ lowest None (tags_past (regions_of regions.now))) }
{
    let mut least = LeastLine::new();
    let mut seen = Known::new(alloc);
    let mut room = MOST_TAGS;
    for region in regions {
        room = tag_beyond(&mut seen, room, *region, &mut least)?;
    }
    Ok(least)
}

// Records one region, and returns the room for tags that is left after it.
fn tag_beyond<'a>(
    seen: &mut Known<'a>,
    room: usize,
    region: Marked<'a>,
    least: &mut LeastLine,
) -> Result<usize, AllocError>
    ensures { IfOk result (TakesTag room region.entry seen.old seen.new least.old least.new) }
{
    if seen.has(region.tag) {
        return Ok(room);
    }
    let left = least.record_past(room, region.line);
    seen.declare(region.tag, NameKind::Integer, region.line)?;
    Ok(left)
}

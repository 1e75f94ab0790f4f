//! Finds repeated names of functions and reducers.

ghost use Rattle.std.specs.Prelude.{ℕ, ◌≡◌, ◌++◌, [], Contains, IfSome, List, OnOk, is_some};
ghost use Rattle.cw_model.specs.Names.{is_among, same_name};
ghost use Rattle.cw_model.specs.Syntax.{Name};
ghost use Rattle.cw_model.specs.Typing.{repeated};
ghost use Rattle.cw_types.specs.Named.{listed_functions, listed_reducers, shared_lines, lines_shared_by};
ghost use Rattle.cw_types.specs.Names.{known_names};
ghost use Rattle.cw_types.specs.Scope.{kinds};
ghost use Rattle.cw_text.specs.RecordedReasons.{AreRecorded, RecordsOnOk, AddsOnly};
ghost use Rattle.cw_types.specs.ReasonMeaning.{IsRepeatedIn, IsRepeatedOf, IsRepeating};
ghost use Rattle.cw_types.specs.Typing.{earlier_line, later_line};

use crate::known::Known;
use crate::reason::IllTyped;
use cw_model::syntax::NameKind;
use cw_text::Reasons;
use cw_tree::syntax::{Function, Name, Reducer};
use std::alloc::{AllocError, Global};

/// Records the line of each function that has the name of an earlier function.
///
/// # Errors
///
/// Returns an error if memory runs out.
pub fn repeated_functions<'a>(
    alloc: Global,
    functions: &'a [Function],
    told: &mut Reasons<IllTyped<'a>>,
) -> Result<(), AllocError>
    ensures lines { RecordsOnOk (repeated (listed_functions functions.now) []) told.old told.new result }
    ensures told { OnOk result
        (AddsOnly (IsRepeatedIn (listed_functions functions.now)) told.old told.new) }
{
    let mut earlier = Known::new(alloc);
    for function in functions {
        told.note(repeated(&earlier, &function.name), function.line);
        earlier.declare(function.name.as_bytes(), NameKind::Integer, function.line)?;
    }
    Ok(())
}

/// Records the line of each reducer that has the name of an earlier reducer.
///
/// # Errors
///
/// Returns an error if memory runs out.
pub fn repeated_reducers<'a>(
    alloc: Global,
    reducers: &'a [Reducer],
    told: &mut Reasons<IllTyped<'a>>,
) -> Result<(), AllocError>
    ensures lines { RecordsOnOk (repeated (listed_reducers reducers.now) []) told.old told.new result }
    ensures told { OnOk result
        (AddsOnly (IsRepeatedIn (listed_reducers reducers.now)) told.old told.new) }
{
    let mut earlier = Known::new(alloc);
    for reducer in reducers {
        told.note(repeated(&earlier, &reducer.name), reducer.line);
        earlier.declare(reducer.name.as_bytes(), NameKind::Integer, reducer.line)?;
    }
    Ok(())
}

// Returns a reason if an earlier function or reducer has this name.
fn repeated<'a>(earlier: &Known<'a>, name: &'a Name) -> Option<IllTyped<'a>>
    ensures decides { is_some result ≡ is_among name.now (known_names (kinds earlier.now)) }
    ensures holds { IfSome result (IsRepeatedOf earlier.now name.now) }
{
    let first = earlier.newest(name.as_bytes())?;
    Some(IllTyped::Repeated(name, first.line))
}

/// Records, for each reducer and each function with the same name, the later line of the two.
pub fn shared_names<'a>(
    functions: &'a [Function],
    reducers: &'a [Reducer],
    told: &mut Reasons<IllTyped<'a>>,
)
    ensures lines { AreRecorded (shared_lines functions.now reducers.now) told.old told.new }
    ensures told { AddsOnly
        (IsRepeatedIn (listed_functions functions.now ++ listed_reducers reducers.now))
        told.old told.new }
{
    for reducer in reducers {
        shared_name(functions, reducer, told);
    }
}

// Records, for this reducer and each function with the same name, the later line of the two.
fn shared_name<'a>(
    functions: &'a [Function],
    reducer: &'a Reducer,
    told: &mut Reasons<IllTyped<'a>>,
)
    ensures lines { AreRecorded (lines_shared_by functions.now reducer.now) told.old told.new }
    ensures told { (reducers : List (Name × ℕ)) →
        Contains reducers (reducer.now.name, reducer.now.line) →
        AddsOnly (IsRepeatedIn (listed_functions functions.now ++ reducers)) told.old told.new }
{
    for function in functions {
        told.note(
            shared(function, reducer),
            later(reducer.line, function.line),
        );
    }
}

// Returns a reason if the function and the reducer have the same name.
fn shared<'a>(function: &Function, reducer: &'a Reducer) -> Option<IllTyped<'a>>
    ensures decides { is_some result ≡ same_name reducer.now.name function.now.name }
    ensures holds { IfSome result (IsRepeating reducer.now.name
        (earlier_line reducer.now.line function.now.line)) }
{
    if reducer.name.as_bytes() != function.name.as_bytes() {
        return None;
    }
    let first = earlier(reducer.line, function.line);
    Some(IllTyped::Repeated(&reducer.name, first))
}

// Returns the later of two lines.
fn later(line: u32, other: u32) -> u32
    ensures { result ≡ later_line line other }
{
    if line <= other { other } else { line }
}

// Returns the earlier of two lines.
fn earlier(line: u32, other: u32) -> u32
    ensures { result ≡ earlier_line line other }
{
    if line <= other { line } else { other }
}

//! The rules of names and types that a line can break, in words.

use crate::advice::advice_for;
use crate::calling::Call;
use crate::owning::halving;
use crate::phrase::{NO_NAME, Phrase};
use crate::word::Word;
use cw_model::limits::MOST_GRAIN;
use cw_model::syntax::Reduction;
use cw_tree::syntax::Name;
use cw_types::{IllTyped, Other};

/// What the tokens say about a line that breaks a rule.
#[derive(Clone, Copy)]
pub struct Context<'a> {
    /// The line of a return in a block that ends only at its end, if a function may end without a return because of it.
    pub inside: Option<u32>,
    /// The use of an array as an integer.
    pub call: Call<'a>,
}

/// Returns the other line that matters, if there is one.
pub fn other_line(reason: &IllTyped<'_>) -> Option<u32> {
    match reason {
        IllTyped::Repeated(_, line)
        | IllTyped::NotInteger(_, _, line)
        | IllTyped::NotArray(_, _, line)
        | IllTyped::OnlyRead(_, line)
        | IllTyped::Known(_, line)
        | IllTyped::Global(_, _, line)
        | IllTyped::Count(_, _, _, line)
        | IllTyped::ArgumentNotArray(_, _, _, line)
        | IllTyped::GivesNothing(_, line)
        | IllTyped::ReducesOtherwise(_, _, line)
        | IllTyped::NeverReached(line) => Some(*line),
        _ => None,
    }
}

/// Returns the rule that a line breaks, in words.
pub fn phrase_of<'a>(reason: &'a IllTyped<'_>, context: &Context<'a>) -> Phrase<'a> {
    match reason {
        IllTyped::MayNotReturn(name) => may_not_return(name, context.inside),
        IllTyped::ArgumentNotArray(place, name, param, _line) => {
            argument(*place as u64, name, param, context)
        }
        IllTyped::NotInteger(name, other, line) => {
            other_at(not_integer(*other, context.call), name, *other, *line)
        }
        IllTyped::NotReducer(name, how) => not_reducer(name, *how, context),
        IllTyped::Unknown(name) => not_declared(name, context.call),
        IllTyped::OnlyRead(name, line) => only_read(context.call, name, *line),
        IllTyped::Known(name, line) => named_at(known(context.call), name, *line),
        _ => of_head(reason),
    }
}

// What else a name is.
fn words_of(other: Other) -> Word<'static> {
    let text: &[u8] = match other {
        Other::Integer => b"an integer",
        Other::Array => b"an array",
        Other::Const => b"a const array",
        Other::Function => b"a function",
        Other::Reducer => b"a reducer",
    };
    Word { text }
}

// A text with neither name nor number.
fn plain<'a>(_reason: &'a IllTyped<'_>, says: &'static str) -> Phrase<'a> {
    Phrase::plain(says)
}

// A text with numbers only.
fn numbered<'a>(
    _reason: &'a IllTyped<'_>,
    says: &'static str,
    first: u64,
    second: u64,
) -> Phrase<'a> {
    Phrase::of(says, [NO_NAME; 2], [first, second, 0])
}

// A text with a name only.
fn named<'a>(says: &'static str, name: &'a Name) -> Phrase<'a> {
    Phrase::named(says, Word::of(name), 0)
}

// A text with a name and a line.
fn named_at<'a>(says: &'static str, name: &'a Name, line: u32) -> Phrase<'a> {
    Phrase::named(says, Word::of(name), u64::from(line))
}

// A text with a name, what else it is, and a line.
fn other_at<'a>(says: &'static str, name: &'a Name, other: Other, line: u32) -> Phrase<'a> {
    Phrase::of(
        says,
        [Word::of(name), words_of(other)],
        [u64::from(line), 0, 0],
    )
}

// An argument that must be an array.
fn argument<'a>(place: u64, name: &'a Name, param: &'a Name, context: &Context<'a>) -> Phrase<'a> {
    let (says, array) = match context.call {
        Call::Argument(array) => (
            "argument @1 of @a must be an array name on its own; to pass a part, write cut @b at k as @p, @q { .. } and pass @p or @q; if @a only reads @b, pass the whole @b to a const parameter, and the ends of the part as integers",
            array,
        ),
        _ => (
            "argument @1 of @a must be an array name on its own, for its parameter @b[]",
            Word::of(param),
        ),
    };
    Phrase::of(says, [Word::of(name), array], [place, 0, 0])
}

// A name that is not a reducer.
fn not_reducer<'a>(name: &'a Name, how: Reduction, context: &Context<'a>) -> Phrase<'a> {
    match context.call {
        Call::Outer => named(outer_reducer(how), name),
        _ => named(no_reducer(how), name),
    }
}

// Functions and reducers, and then what follows.
fn of_head<'a>(reason: &'a IllTyped<'_>) -> Phrase<'a> {
    match reason {
        IllTyped::NoMain => {
            plain(
                reason,
                "the source has no function main: write int main(int n) { .. }, with an integer parameter for each argument",
            )
        }
        IllTyped::MainGivesNothing => plain(reason, "main must return int, not void"),
        IllTyped::MainTakesArray(a) => {
            named(
                "main takes integers only: declare the array @a in main, as int @a[n];",
                a,
            )
        }
        IllTyped::Repeated(name, line) => named_at(
            "@a is already the name of a function or reducer (line @1): rename one of them",
            name,
            *line,
        ),
        IllTyped::ParameterTwice(name) => {
            named("two parameters have the name @a: rename one of them", name)
        }
        _ => of_name(reason),
    }
}

// A function that may end without a return.
fn may_not_return(name: &Name, inside: Option<u32>) -> Phrase<'_> {
    match inside {
        Some(line) => named_at(
            "@a must return an integer at its end, and the return in line @1 is in a cilk_scope, cut, region or cilk_for, where none is allowed: declare int @s = 0; before that block, assign to @s in it, and write return @s; after it",
            name,
            line,
        ),
        None => named(
            "@a may end without a return: make its last statement a return, or an if with else whose blocks both end with a return",
            name,
        ),
    }
}

// Names in statements, and then what follows.
fn of_name<'a>(reason: &'a IllTyped<'_>) -> Phrase<'a> {
    match reason {
        IllTyped::NotArray(name, other, line) => other_at(
            "@a is @b (line @1), but an array is required here: declare int @a[n]; or rename one of them",
            name,
            *other,
            *line,
        ),
        IllTyped::Global(name, other, line) => {
            other_at(
                "@a is the name of @b (line @1): use another name",
                name,
                *other,
                *line,
            )
        }
        IllTyped::ReducesOtherwise(name, how, line) => named_at(other_reducer(*how), name, *line),
        _ => of_call(reason),
    }
}

// A name that is not declared in a statement, or only in a block that ends before it.
fn not_declared<'a>(name: &'a Name, call: Call<'_>) -> Phrase<'a> {
    match call {
        Call::Ended(line) => named_at(
            "@a is declared in line @1, in a block that ends before this statement: declare it, and the other names of that block that this statement uses, before the block",
            name,
            line,
        ),
        _ => unknown(
            "@a is not declared here: ",
            "declare int @a = 0; before this statement, in this block or one around it",
            name,
        ),
    }
}

// A name that is declared again.
fn known(call: Call<'_>) -> &'static str {
    match call {
        Call::Declared =>
            "@a is already declared in line @1: delete int to assign to it, or use another name",
        _ => "@a is already declared in line @1: use another name here",
    }
}

// A const array that is written, cut, passed or listed in over.
fn only_read<'a>(call: Call<'a>, name: &'a Name, line: u32) -> Phrase<'a> {
    let says = match call {
        Call::Listed(_) =>
            "@a is const (line @1), and over lists arrays that iterations may write: delete const if each iteration uses only its own element of @a; to read other elements, ",
        Call::Passed(_) =>
            "@a is const (line @1): write const before this parameter of @b if @b only reads @a; otherwise delete const in line @1",
        Call::Cut =>
            "@a is const (line @1), and a const array is not cut: delete const, or pass the whole @a to const parameters, and the ends of a part as integers",
        _ => "@a is const (line @1): delete const to write it",
    };
    let (further, other, written) = match call {
        Call::Listed(written) => (halving(written), NO_NAME, written.unwrap_or(NO_NAME)),
        Call::Passed(callee) => ("", callee, NO_NAME),
        _ => ("", NO_NAME, NO_NAME),
    };
    Phrase {
        pieces: [says, further, "", "", "", ""],
        names: [Word::of(name), other, written],
        numbers: [u64::from(line), 0, 0],
    }
}

// A name that no declaration has.
fn unknown<'a>(front: &'static str, says: &'static str, name: &'a Name) -> Phrase<'a> {
    let name = Word::of(name);
    let (front, says) = match advice_for(name) {
        Some(advice) => ("there is no @a: ", advice),
        None => (front, says),
    };
    Phrase {
        pieces: [front, says, "", "", "", ""],
        names: [name, NO_NAME, NO_NAME],
        numbers: [0; 3],
    }
}

// A name that is not an integer's, by what the line does with it.
fn not_integer(other: Other, call: Call<'_>) -> &'static str {
    match (other, call) {
        (Other::Reducer, Call::Printed) =>
            "@a is @b (line @1), and no statement reads it: delete this statement; the run prints @a at its end",
        (Other::Reducer, Call::Returned) =>
            "@a is @b (line @1), and no statement reads it: write return 0; here, the run prints @a at its end. If the program needs the value, return it from functions or write it to arrays instead",
        (Other::Reducer, Call::Largest) =>
            "@a is @b (line @1), and no statement reads it: write @a max= e; for if (e > @a) { @a = e; }, and delete other uses; the run prints @a at its end",
        (Other::Reducer, Call::Target) =>
            "@a is @b (line @1): write @a += e; for @a = @a + e; no other statement uses it, and the run prints @a at its end",
        (Other::Reducer, _) =>
            "@a is @b (line @1), and no statement reads it: delete the use; the run prints @a at its end. If the program needs the value, return it from functions or write it to arrays instead",
        (Other::Array, Call::Returned) | (Other::Const, Call::Returned) =>
            "@a is @b (line @1), and a function returns an integer: make it void, and let the caller pass the array, as int @a[]",
        (Other::Array, Call::Copied) | (Other::Const, Call::Copied) =>
            "@a is @b (line @1), and = assigns integers: copy each element, as in int i = 0; while (i < len(@a)) { b[i] = @a[i]; i = i + 1; }",
        (Other::Array, Call::Target) | (Other::Const, Call::Target) =>
            "@a is @b (line @1), and = assigns integers: copy each element, as in int i = 0; while (i < len(@a)) { @a[i] = ..; i = i + 1; }",
        (Other::Array, _) | (Other::Const, _) =>
            "@a is @b (line @1), but an integer is required here: write @a[i] for an element",
        (Other::Function, _) =>
            "@a is @b (line @1), but an integer is required here: write int @r = 0; @r = @a(..); and then @r",
        _ => "@a is @b (line @1), but an integer is required here",
    }
}

// An integer that a loop updates like a reducer.
fn outer_reducer(how: Reduction) -> &'static str {
    match how {
        Reduction::Sum =>
            "@a is not a reducer: write reducer sum @r; outside of functions and @r += .. here, and delete the other uses of @a: the run prints @r at its end",
        Reduction::Max =>
            "@a is not a reducer: write reducer max @r; outside of functions and @r max= .. here, and delete the other uses of @a: the run prints @r at its end",
    }
}

// A name that is not a reducer.
fn no_reducer(how: Reduction) -> &'static str {
    match how {
        Reduction::Sum =>
            "@a is not a reducer: write @a = @a + ..; or, for a sum over strands, declare reducer sum s; outside of functions and write s += ..;",
        Reduction::Max =>
            "@a is not a reducer: write if (@a < x) { @a = x; } or, for a maximum over strands, declare reducer max m; outside of functions and write m max= x;",
    }
}

// A reducer that reduces otherwise.
fn other_reducer(how: Reduction) -> &'static str {
    match how {
        Reduction::Sum => "@a is declared by reducer max (line @1): write @a max= ..",
        Reduction::Max => "@a is declared by reducer sum (line @1): write @a += ..",
    }
}

// The number of arguments of a function.
fn count(wanted: usize, given: usize) -> &'static str {
    match (wanted, given) {
        (1, 1) => "@a (line @1) takes @2 argument, but @3 is given",
        (1, _) => "@a (line @1) takes @2 argument, but @3 are given",
        (_, 1) => "@a (line @1) takes @2 arguments, but @3 is given",
        _ => "@a (line @1) takes @2 arguments, but @3 are given",
    }
}

// Calls, and then what follows.
fn of_call<'a>(reason: &'a IllTyped<'_>) -> Phrase<'a> {
    match reason {
        IllTyped::NoFunction(name) => {
            unknown(
                "there is no function @a: ",
                "define it, as int @a(..) { .. }",
                name,
            )
        }
        IllTyped::CallsMain => plain(
            reason,
            "no statement calls main: move its body into another function, and call that",
        ),
        IllTyped::Count(name, given, wanted, line) => Phrase::of(
            count(*wanted, *given),
            [Word::of(name), NO_NAME],
            [u64::from(*line), *wanted as u64, *given as u64],
        ),
        IllTyped::GivesNothing(name, line) => named_at(
            "@a (line @1) is void and returns nothing: write @a(..); or make it int",
            name,
            *line,
        ),
        _ => of_statement(reason),
    }
}

// Other statements.
fn of_statement<'a>(reason: &'a IllTyped<'_>) -> Phrase<'a> {
    match reason {
        IllTyped::ReturnInside => plain(
            reason,
            "no return is allowed in cilk_scope, cut, region or cilk_for: declare int @s = 0; before the block, assign to @s in it, and write return @s; after it",
        ),
        IllTyped::ReturnsNothing => {
            plain(
                reason,
                "this function is int: write return with a value, as return 0;",
            )
        }
        IllTyped::ReturnsValue => {
            plain(
                reason,
                "this function is void: write return; or make the function int",
            )
        }
        IllTyped::NeverReached(line) => numbered(
            reason,
            "this statement returns, so line @1 is never reached: delete what follows",
            u64::from(*line),
            0,
        ),
        IllTyped::HeadNames(variable, other) => Phrase::of(
            "the head of a cilk_for names one variable three times: write @a for @b",
            [Word::of(variable), Word::of(other)],
            [0; 3],
        ),
        IllTyped::Grain(grain) => numbered(
            reason,
            "the grain is @1: write a number from 1 to @2",
            *grain,
            MOST_GRAIN,
        ),
        IllTyped::PartsAlike(name) => {
            named(
                "both parts of the cut have the name @a: rename one of them",
                name,
            )
        }
        _ => plain(reason, ""),
    }
}

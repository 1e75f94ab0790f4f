//! The rules of ownership that a line can break, in words.

use crate::calling::Text;
use crate::near::is_const;
use crate::phrase::{NO_NAME, Phrase};
use crate::word::Word;
use cw_own::{Disowned, Holder, Start, Touch};
use cw_tree::resolved::{Listed, Use};

// What to write if an iteration writes other elements.
const PARTS: &str =
    "; for other elements, write a function that cuts @a, spawns itself on one part and calls itself on the other, or add to a reducer; if iterations write the same element, write a while";

// What to write if an iteration reads other elements of the array that it writes.
const COPY: &str =
    "; to read an element as it was before the loop, declare int @r[len(@a)]; there, copy it by @r[k] = @a[k - 1]; in a while, list @r in over, and read @r[i]; to read what another iteration wrote, write a while for the cilk_for";

/// Returns what to write if iterations read other elements of the array `a` and write the array `c`, if they write one.
pub fn halving(written: Option<Word<'_>>) -> &'static str {
    match written {
        Some(_) =>
            "write void halve_@c(const int @a[], int @c[], int from) { int @s = len(@c); if (@s < 100) { int i = 0; while (i < @s) { .. i = i + 1; } return; } @s = @s / 2; cut @c at @s as @p, @q { cilk_spawn halve_@c(@a, @p, from); halve_@c(@a, @q, from + @s); } } with the body of the loop in the while, @c[i] for its element of @c and from + i for its variable, and halve_@c(@a, @c, 0); for the loop; add a parameter for each other name in the body, and test from + i if the loop leaves out elements",
        None =>
            "write void halve_@a(const int @a[], int from, int to) { if (to - from < 100) { int i = from; while (i < to) { .. i = i + 1; } return; } int @s = (from + to) / 2; cilk_spawn halve_@a(@a, from, @s); halve_@a(@a, @s, to); } with the body of the loop in the while, and halve_@a(@a, LOW, HIGH); for the loop; add a parameter for each other name in the body",
    }
}

/// Returns the other line that matters, if there is one.
pub fn other_line(reason: &Disowned<'_>) -> Option<u32> {
    match reason {
        Disowned::Restrictions(_, _, _, Some(start)) | Disowned::EndsHeld(_, _, Some(start)) => {
            Some(start.line)
        }
        Disowned::OuterWritten(_, head)
        | Disowned::OuterArray(_, _, head)
        | Disowned::OtherElement(_, _, _, head) => Some(*head),
        _ => None,
    }
}

/// Returns the rule that a line of a text breaks, in words.
pub fn phrase_of<'a>(text: &Text<'a>, line: u32, reason: &'a Disowned<'_>) -> Phrase<'a> {
    match reason {
        Disowned::Restrictions(used, touch, holder, since) => {
            let name = name_of(used);
            if matches!(touch, Touch::Read) && text.is_length(line, name, None) {
                return length(name, *holder, line, *since);
            }
            held(text, name, *touch, *holder, line, *since)
        }
        Disowned::EndsHeld(used, holder, since) => ends(name_of(used), *holder, *since),
        Disowned::GivenTwice(used, callee) => given_twice(name_of(used), callee_of(callee)),
        Disowned::GivenAndRead(used, callee) => given_and_read(name_of(used), callee_of(callee)),
        Disowned::OverTwice(used) => Phrase::named(
            "over lists @a twice: list it once",
            name_of(used),
            0,
        ),
        Disowned::OuterWritten(used, head) => {
            let name = name_of(used);
            outer_written(name, text.added(line, name), *head)
        }
        Disowned::OuterArray(used, touch, head) => {
            let name = name_of(used);
            let is_const = is_const(text.bytes, text.tokens, name, line);
            outer_array(name, *touch, *head, is_const, text.written_in(*head))
        }
        Disowned::OtherElement(used, touch, variable, head) => {
            let name = name_of(used);
            let variable = name_of(variable);
            if text.is_length(line, name, Some(variable)) {
                return length_in_loop(name, *head);
            }
            other_element(name, *touch, variable, *head, text.written_in(*head))
        }
    }
}

// The name of a use.
fn name_of(used: &Use) -> Word<'_> {
    Word::of(&used.name)
}

// The name of a function.
fn callee_of(callee: &Listed) -> Word<'_> {
    Word::of(&callee.name)
}

// What the statement does with a name.
fn done(touch: Touch) -> &'static str {
    match touch {
        Touch::Read => "this statement reads @a, but ",
        Touch::Written => "this statement writes @a, but ",
        Touch::Passed => "this statement passes @a, but ",
        Touch::Cut => "this statement cuts @a, but ",
        Touch::NamedInOver => "this loop lists @a in over, but ",
    }
}

// What holds a name, with its line if that is known.
fn taker(holder: Holder, since: Option<Start>) -> &'static str {
    match (holder, since) {
        (Holder::Cut, Some(_)) => "the cut in line @2 ",
        (Holder::Cut, None) => "a cut ",
        (_, Some(_)) => "the spawn in line @2 ",
        (_, None) => "a spawn ",
    }
}

// How and until when it holds the name.
fn until(holder: Holder) -> &'static str {
    match holder {
        Holder::Result => "assigns to @a at the next cilk_sync",
        Holder::Argument => "holds @a until the next cilk_sync",
        Holder::Reader => "reads @a until the next cilk_sync",
        Holder::Cut => "holds @a until its block ends",
    }
}

// Where that cilk_sync is, or which iteration spawned, relative to the line.
fn beyond(line: u32, since: Option<Start>) -> &'static str {
    let Some(start) = since else {
        return "";
    };
    match (start.is_around, start.line > line) {
        (true, true) => " outside of this block (in an earlier iteration of the while)",
        (true, false) => " outside of this block",
        (false, true) => " (in an earlier iteration of the while)",
        (false, false) => "",
    }
}

// What to write if a name is used while something holds it.
fn remedy(touch: Touch, holder: Holder, line: u32, since: Option<Start>) -> &'static str {
    match (holder, touch) {
        (Holder::Cut, _) if since.is_some() => ": use its parts @b there",
        (Holder::Cut, _) => ": use its parts there",
        (Holder::Argument, Touch::Passed) =>
            ": write const before the parameter of each called function if it only reads @a; otherwise write cut @a at k as @p, @q { .. } and pass @p and @q, give one call an array of its own, or write cilk_sync; between them",
        (Holder::Reader, Touch::Passed) =>
            ": write const before this parameter, too, if the function only reads @a; otherwise write cilk_sync; before this statement",
        _ => sync_for(line, since),
    }
}

// Where to write a cilk_sync, if it is known since which line something holds the name.
fn sync_for(line: u32, since: Option<Start>) -> &'static str {
    let Some(start) = since else {
        return ": write cilk_sync; between that spawn and this statement";
    };
    if start.line > line {
        return ": write cilk_sync; at the end of the body of the while";
    }
    if start.is_around {
        return ": write cilk_sync; before this block";
    }
    if start.line == line {
        return ": write cilk_sync; after the spawn, or at the end of the body of the while around it";
    }
    ": write cilk_sync; before this statement"
}

// The line and the one since which something is held; 0 if that is not known.
fn lines(line: u32, since: Option<Start>) -> [u64; 3] {
    let start = match since {
        Some(start) => start.line,
        None => 0,
    };
    [u64::from(line), u64::from(start), 0]
}

// A name that is used while something holds it.
fn held<'a>(
    text: &Text<'a>,
    name: Word<'a>,
    touch: Touch,
    holder: Holder,
    line: u32,
    since: Option<Start>,
) -> Phrase<'a> {
    let parts = match since {
        Some(start) => text.parts(start.line, name).unwrap_or(NO_NAME),
        None => NO_NAME,
    };
    Phrase {
        pieces: [
            done(touch),
            taker(holder, since),
            until(holder),
            beyond(line, since),
            remedy(touch, holder, line, since),
            "",
        ],
        names: [name, parts, NO_NAME],
        numbers: lines(line, since),
    }
}

// An array of which only the length is read while something holds it.
fn length<'a>(name: Word<'a>, holder: Holder, line: u32, since: Option<Start>) -> Phrase<'a> {
    let remedy = match (holder, since) {
        (Holder::Cut, Some(_)) => ": write int @r = len(@a); before line @2, and @r here",
        (Holder::Cut, None) => ": write int @r = len(@a); before the cut, and @r here",
        (_, Some(_)) =>
            ": write int @r = len(@a); before line @2, and @r here; cilk_sync; before this statement also works, but waits for the spawn",
        _ => ": write int @r = len(@a); before the spawn, and @r here",
    };
    Phrase {
        pieces: [
            "this statement reads len(@a), but ",
            taker(holder, since),
            until(holder),
            beyond(line, since),
            remedy,
            "",
        ],
        names: [name, NO_NAME, NO_NAME],
        numbers: lines(line, since),
    }
}

// A name that is still held as its block ends.
fn ends<'a>(name: Word<'a>, holder: Holder, since: Option<Start>) -> Phrase<'a> {
    Phrase {
        pieces: [
            "the block that declares @a ends while ",
            taker(holder, since),
            "still holds @a",
            ": write cilk_sync; at the end of this block; for calls of a loop that run in parallel write a cilk_for, or a function that halves the range and spawns itself",
            "",
            "",
        ],
        names: [name, NO_NAME, NO_NAME],
        numbers: lines(0, since),
    }
}

// A call that takes an array twice.
fn given_twice<'a>(name: Word<'a>, callee: Word<'a>) -> Phrase<'a> {
    Phrase::of(
        "this call passes @a to two parameters of @b: write const before both parameters if @b only reads them; otherwise write cut @a at k as @p, @q { .. } and pass @p and @q",
        [name, callee],
        [0; 3],
    )
}

// A call that passes an array to a const parameter and to one that is not.
fn given_and_read<'a>(name: Word<'a>, callee: Word<'a>) -> Phrase<'a> {
    Phrase::of(
        "this call passes @a to a parameter of @b that may be written and to a const one: copy @a into an array of its own, or write cut @a at k as @p, @q { .. } and pass @p and @q",
        [name, callee],
        [0; 3],
    )
}

// A loop's body that writes an integer from outside.
fn outer_written<'a>(name: Word<'a>, added: Word<'a>, head: u32) -> Phrase<'a> {
    Phrase::of(
        "the iterations of the cilk_for in line @1 run in parallel and may not write @a: declare @a in its body; for a sum write reducer sum @r; outside of functions and @r += @b; here (max: reducer max @r; and @r max= ..;), and delete the other uses of @a: the run prints @r at its end; if an iteration needs the one before it, write a while",
        [name, added],
        [u64::from(head), 0, 0],
    )
}

// A loop's body that uses an array from outside: over does not list a const one.
fn outer_array<'a>(
    name: Word<'a>,
    touch: Touch,
    head: u32,
    is_const: bool,
    written: Option<Word<'a>>,
) -> Phrase<'a> {
    let remedy = match touch {
        _ if is_const => "@a is const, and the cilk_for in line @1 may not use it: ",
        Touch::Read =>
            "the cilk_for in line @1 may not use @a: write over (@a) in its head to read the element of the loop variable",
        Touch::Written | Touch::Passed | Touch::Cut | Touch::NamedInOver =>
            "the cilk_for in line @1 may not use @a: write over (@a) in its head, and use only the element of the loop variable",
    };
    let (front, parts) = match (touch, written) {
        _ if is_const => ("", halving(written)),
        (Touch::Read, Some(other)) if other.is(name.text) => ("", COPY),
        (Touch::Read, _) => ("; to read other elements, ", halving(written)),
        _ => ("", PARTS),
    };
    Phrase {
        pieces: [remedy, front, parts, "", "", ""],
        names: [name, NO_NAME, written.unwrap_or(NO_NAME)],
        numbers: [u64::from(head), 0, 0],
    }
}

// A loop's body that uses the length of an array of the loop.
fn length_in_loop(name: Word<'_>, head: u32) -> Phrase<'_> {
    Phrase::named(
        "the cilk_for in line @1 has @a in over, so its body may not use len(@a): write int @r = len(@a); before the loop, and @r here",
        name,
        u64::from(head),
    )
}

// A loop's body that uses an array of the loop in another way than it may.
fn other_element<'a>(
    name: Word<'a>,
    touch: Touch,
    variable: Word<'a>,
    head: u32,
    written: Option<Word<'a>>,
) -> Phrase<'a> {
    let (front, remedy) = match (touch, written) {
        (Touch::Read, Some(other)) if other.is(name.text) => ("", COPY),
        (Touch::Read, _) => (": ", halving(written)),
        _ => ("", PARTS),
    };
    Phrase {
        pieces: [
            "the cilk_for in line @1 has @a in over, so its body may only use @a[@b]",
            front,
            remedy,
            "",
            "",
            "",
        ],
        names: [name, variable, written.unwrap_or(NO_NAME)],
        numbers: [u64::from(head), 0, 0],
    }
}

//! Finds the rule that a statement breaks by its reads, writes and passed arrays. Each function examines one part of
//! a statement, and records the first rule that this part breaks, unless an earlier part broke one. So a statement
//! that keeps the rules causes only reads.
#![tactic(auto, using(crate::proofs::Small::found_nothing, crate::proofs::Small::found_grouped))]

ghost use Rattle.std.specs.Prelude.{◌≡◌, Some, map, option_map, true};
ghost use Rattle.std.specs.List.{list_all};
ghost use Rattle.cw_tree.specs.ResolvedView.{use_of, listed_of, expr_of, argument_of, parts_of, head_of, stmt_of};
ghost use Rattle.cw_own.specs.Bounds.{is_small, small_argument, small_stmt};
ghost use Rattle.cw_own.specs.Sets.{no_slot};
ghost use Rattle.cw_own.specs.Taken.{taken_of};
ghost use Rattle.cw_own.specs.Rules.{is_variable, given_away};
ghost use Rattle.cw_own.specs.Reasons.{held_by, outside, why_index, why_outer_int, why_outer_array, why_int};
ghost use Rattle.cw_own.specs.Reasons.{why_taken, why_read, why_write, why_whole, why_lend, why_target, why_argument};
ghost use Rattle.cw_own.specs.Reasons.{why_arguments, why_return, why_twice, why_read_too, why_over_twice, why_over};
ghost use Rattle.cw_own.specs.Reasons.{why_head, why_cut, why_element, why};
ghost use Rattle.cw_own.specs.Views.{set_of, turn_of, around_of, used, returned, reason_of, view_of_reason, why_here, why_of_call};
ghost use Rattle.cw_own.specs.Views.{Finds};
ghost use Rattle.cw_own.specs.declared.reason.Touch.TheVariants as touch;

use crate::around::{Loop, for_head};
use crate::bits::Bits;
use crate::reason::{Disowned, Holder, Touch};
use crate::taken::Taken;
use cw_tree::resolved::{Argument, Call, Cut, Expr, Head, Listed, Stmt, Use};

// Records a broken rule, unless one was recorded before.
#[inline(never)]
fn keep<'a>(reason: Disowned<'a>, first: &mut Option<Disowned<'a>>)
    ensures { Finds first.old first.new (Some (reason_of reason.entry)) }
{
    match *first {
        None => *first = Some(reason),
        Some(_) => {}
    }
}

// Records the rule that was found broken, if there is one.
fn of_found<'a>(found: Option<Disowned<'a>>, first: &mut Option<Disowned<'a>>)
    ensures { Finds first.old first.new (view_of_reason found.entry) }
{
    if let Some(reason) = found {
        keep(reason, first);
    }
}

// Records that a name is touched while this holder holds it.
#[inline(never)]
fn of_held<'a>(
    taken: &Taken,
    used: &'a Use,
    touch: Touch,
    holder: Holder,
    first: &mut Option<Disowned<'a>>,
)
    ensures { Finds first.old first.new (held_by (use_of used.now) touch (Some holder)) }
{
    keep(
        Disowned::Restrictions(used, touch, holder, taken.since(holder)),
        first,
    );
}

// Records that a name is touched while it is held, if it is held.
fn of_holder<'a>(
    taken: &Taken,
    used: &'a Use,
    touch: Touch,
    holder: Option<Holder>,
    first: &mut Option<Disowned<'a>>,
)
    ensures { Finds first.old first.new (held_by (use_of used.now) touch holder) }
{
    if let Some(holder) = holder {
        of_held(taken, used, touch, holder, first);
    }
}

// Reports whether an expression is exactly this integer.
fn is_variable(slot: u32, e: &Expr) -> bool
    ensures { result ≡ is_variable slot (expr_of e.now) }
{
    match e {
        Expr::Variable(used) => slot == used.slot,
        _ => false,
    }
}

// Records that an outer array is used in a way that the loop forbids.
#[inline(never)]
fn of_outside<'a>(outer: &Loop<'a>, used: &'a Use, touch: Touch, first: &mut Option<Disowned<'a>>)
    ensures { Finds first.old first.new
        (Some (outside (turn_of outer.now) touch (use_of used.now))) }
{
    if outer.over.has(used.slot) {
        keep(
            Disowned::OtherElement(used, touch, outer.variable, outer.line),
            first,
        );
    } else {
        keep(Disowned::OuterArray(used, touch, outer.line), first);
    }
}

// Checks an access to an element: an outer array of the loop may be indexed only by the loop's variable, and only if
// the loop is over it.
fn of_index<'a>(
    around: &Option<Loop<'a>>,
    touch: Touch,
    used: &'a Use,
    e: &Expr,
    first: &mut Option<Disowned<'a>>,
)
    ensures { Finds first.old first.new
        (why_index (around_of around.now) touch (use_of used.now) (expr_of e.now)) }
{
    if let Some(outer) = around {
        let own = outer.may_name(used.slot) && is_variable(outer.variable.slot, e);
        if own || !outer.outer.arrays.has(used.slot) {
            return;
        }
        of_outside(outer, used, touch, first);
    }
}

// Checks the use of an outer array as a whole.
fn of_outer_array<'a>(
    around: &Option<Loop<'a>>,
    touch: Touch,
    used: &'a Use,
    first: &mut Option<Disowned<'a>>,
)
    ensures { Finds first.old first.new
        (why_outer_array (around_of around.now) touch (use_of used.now)) }
{
    if let Some(outer) = around {
        if outer.outer.arrays.has(used.slot) {
            of_outside(outer, used, touch, first);
        }
    }
}

// Checks a write to an integer: it must not be from outside the loop.
fn of_outer_int<'a>(around: &Option<Loop<'a>>, used: &'a Use, first: &mut Option<Disowned<'a>>)
    ensures { Finds first.old first.new (why_outer_int (around_of around.now) (use_of used.now)) }
{
    if let Some(outer) = around {
        if outer.outer.ints.has(used.slot) {
            keep(Disowned::OuterWritten(used, outer.line), first);
        }
    }
}

// Checks an expression: it must not name a taken local, and it must keep the rule of the loop around it.
fn of_expr<'a>(
    around: &Option<Loop<'a>>,
    taken: &Taken,
    e: &'a Expr,
    first: &mut Option<Disowned<'a>>,
)
    ensures { Finds first.old first.new (why_here why_read around.now taken.now (expr_of e.now)) }
{
    match e {
        Expr::Number(_) => {}
        Expr::Variable(used) => of_read(taken, used, first),
        Expr::Element(used, e) => {
            of_taken(taken, used, first);
            of_expr(around, taken, e, first);
            of_index(around, Touch::Read, used, e, first);
        }
        Expr::Length(used) => of_lent(around, taken, used, first),
        Expr::Negative(e) => of_expr(around, taken, e, first),
        Expr::Not(e) => of_expr(around, taken, e, first),
        Expr::Binary(_, d, e) => {
            of_expr(around, taken, d, first);
            of_expr(around, taken, e, first);
        }
    }
}

// Checks a read of an integer: it must not be taken.
fn of_read<'a>(taken: &Taken, used: &'a Use, first: &mut Option<Disowned<'a>>)
    ensures { Finds first.old first.new
        (why_int (taken_of taken.now) touch.Read (use_of used.now)) }
{
    of_holder(taken, used, Touch::Read, taken.int_holder(used.slot), first);
}

// Checks a read of an array: it must not be taken.
fn of_taken<'a>(taken: &Taken, used: &'a Use, first: &mut Option<Disowned<'a>>)
    ensures { Finds first.old first.new (why_taken (taken_of taken.now) (use_of used.now)) }
{
    of_holder(
        taken,
        used,
        Touch::Read,
        taken.array_taker(used.slot),
        first,
    );
}

// Checks a read of a whole array: it must be neither taken nor from outside the loop.
fn of_lent<'a>(
    around: &Option<Loop<'a>>,
    taken: &Taken,
    used: &'a Use,
    first: &mut Option<Disowned<'a>>,
)
    ensures { Finds first.old first.new (why_here why_lend around.now taken.now (use_of used.now)) }
{
    of_taken(taken, used, first);
    of_outer_array(around, Touch::Read, used, first);
}

// Checks a write to an integer: it must be neither taken nor from outside the loop.
fn of_write<'a>(
    around: &Option<Loop<'a>>,
    taken: &Taken,
    used: &'a Use,
    first: &mut Option<Disowned<'a>>,
)
    ensures { Finds first.old first.new
        (why_here why_write around.now taken.now (use_of used.now)) }
{
    of_holder(
        taken,
        used,
        Touch::Written,
        taken.int_holder(used.slot),
        first,
    );
    of_outer_int(around, used, first);
}

// Checks an array that is given away, cut or named in the head of a loop: it must be neither held nor from outside
// the loop.
fn of_whole<'a>(
    around: &Option<Loop<'a>>,
    taken: &Taken,
    touch: Touch,
    used: &'a Use,
    first: &mut Option<Disowned<'a>>,
)
    ensures { Finds first.old first.new
        (why_whole (around_of around.now) (taken_of taken.now) touch (use_of used.now)) }
{
    of_holder(taken, used, touch, taken.array_holder(used.slot), first);
    of_outer_array(around, touch, used, first);
}

// Checks the integer that receives a result, if there is one.
fn of_target<'a>(
    around: &Option<Loop<'a>>,
    taken: &Taken,
    target: &'a Option<Use>,
    first: &mut Option<Disowned<'a>>,
)
    ensures { Finds first.old first.new
        (why_here why_target around.now taken.now (used target.now)) }
{
    if let Some(used) = target {
        of_write(around, taken, used, first);
    }
}

// Checks an argument.
fn of_argument<'a>(
    around: &Option<Loop<'a>>,
    taken: &Taken,
    e: &'a Argument,
    first: &mut Option<Disowned<'a>>,
)
    ensures { Finds first.old first.new
        (why_here why_argument around.now taken.now (argument_of e.now)) }
{
    match e {
        Argument::Int(e) => of_expr(around, taken, e, first),
        Argument::Array(used) => of_whole(around, taken, Touch::Passed, used, first),
        Argument::Shared(used) => of_lent(around, taken, used, first),
    }
}

// Checks arguments in order.
fn of_arguments<'a>(
    around: &Option<Loop<'a>>,
    taken: &Taken,
    es: &'a [Argument],
    first: &mut Option<Disowned<'a>>,
)
    ensures { Finds first.old first.new
        (why_arguments (around_of around.now) (taken_of taken.now) (map argument_of es.now)) }
{
    for e in es {
        of_argument(around, taken, e, first);
    }
}

// Checks the expression of a return, if there is one.
fn of_return<'a>(
    around: &Option<Loop<'a>>,
    taken: &Taken,
    e: &'a Option<Expr>,
    first: &mut Option<Disowned<'a>>,
)
    ensures { Finds first.old first.new
        (why_here why_return around.now taken.now (returned e.now)) }
{
    if let Some(e) = e {
        of_expr(around, taken, e, first);
    }
}

// Returns a reason if an array is given away twice.
fn given_twice<'a>(callee: &'a Listed, es: &'a [Argument]) -> Option<Disowned<'a>>
    requires { list_all small_argument (map argument_of es.now) ≡ true }
    ensures { view_of_reason result ≡ why_twice (listed_of callee.now) no_slot (map argument_of es.now) }
{
    let mut seen = Bits::none();
    for e in es {
        if let Argument::Array(used) = e {
            if seen.has(used.slot) {
                return Some(Disowned::GivenTwice(used, callee));
            }
            seen.add(used.slot);
        }
    }
    None
}

// Returns the arrays that are given away.
fn given_away(es: &[Argument]) -> Bits
    requires { list_all small_argument (map argument_of es.now) ≡ true }
    ensures { set_of result ≡ given_away (map argument_of es.now) no_slot }
{
    let mut given = Bits::none();
    for e in es {
        if let Argument::Array(used) = e {
            given.add(used.slot);
        }
    }
    given
}

// Returns a reason if an array that is given away is also passed to be read.
fn read_too<'a>(callee: &'a Listed, given: &Bits, es: &'a [Argument]) -> Option<Disowned<'a>>
    ensures { view_of_reason result
        ≡ why_read_too (listed_of callee.now) (set_of given.now) (map argument_of es.now) }
{
    for e in es {
        if let Argument::Shared(used) = e {
            if given.has(used.slot) {
                return Some(Disowned::GivenAndRead(used, callee));
            }
        }
    }
    None
}

// Checks a call.
#[inline(never)]
fn of_call<'a>(
    around: &Option<Loop<'a>>,
    taken: &Taken,
    call: &'a Call,
    first: &mut Option<Disowned<'a>>,
)
    requires { list_all small_argument (map argument_of call.now.arguments.items) ≡ true }
    ensures { Finds first.old first.new (why_of_call around.now taken.now call.now) }
{
    of_arguments(around, taken, &call.arguments, first);
    of_target(around, taken, &call.target, first);
    of_found(given_twice(&call.callee, &call.arguments), first);
    let given = given_away(&call.arguments);
    of_found(read_too(&call.callee, &given, &call.arguments), first);
}

// Returns a reason if a loop is over an array twice.
fn over_twice<'a>(uses: &'a [Use]) -> Option<Disowned<'a>>
    requires { list_all is_small (map use_of uses.now) ≡ true }
    ensures { view_of_reason result ≡ why_over_twice no_slot (map use_of uses.now) }
{
    let mut seen = Bits::none();
    for used in uses {
        if seen.has(used.slot) {
            return Some(Disowned::OverTwice(used));
        }
        seen.add(used.slot);
    }
    None
}

// Checks the arrays of a loop in order.
fn of_over<'a>(
    around: &Option<Loop<'a>>,
    taken: &Taken,
    uses: &'a [Use],
    first: &mut Option<Disowned<'a>>,
)
    ensures { Finds first.old first.new
        (why_here why_over around.now taken.now (map use_of uses.now)) }
{
    for used in uses {
        of_whole(around, taken, Touch::NamedInOver, used, first);
    }
}

// Checks the head of a loop.
#[inline(never)]
fn of_head<'a>(
    around: &Option<Loop<'a>>,
    taken: &Taken,
    head: &'a Head,
    first: &mut Option<Disowned<'a>>,
)
    requires { list_all is_small (map use_of head.now.over.items) ≡ true }
    ensures { Finds first.old first.new
        (why_here why_head around.now taken.now (head_of head.now)) }
{
    let inner = for_head(around);
    of_expr(&inner, taken, &head.from, first);
    of_expr(&inner, taken, &head.to, first);
    of_over(&inner, taken, &head.over, first);
    of_found(over_twice(&head.over), first);
}

// Checks a cut.
fn of_cut<'a>(
    around: &Option<Loop<'a>>,
    taken: &Taken,
    cut: &'a Cut,
    first: &mut Option<Disowned<'a>>,
)
    ensures { Finds first.old first.new (why_here why_cut around.now taken.now (parts_of cut.now)) }
{
    of_expr(around, taken, &cut.at, first);
    of_whole(around, taken, Touch::Cut, &cut.array, first);
}

// Checks an assignment to an element: first the written array, then the expressions that are read.
fn of_element<'a>(
    around: &Option<Loop<'a>>,
    taken: &Taken,
    used: &'a Use,
    i: &'a Expr,
    e: &'a Expr,
    first: &mut Option<Disowned<'a>>,
)
    ensures { Finds first.old first.new
        (why_here why_element around.now taken.now
        (use_of used.now) (expr_of i.now) (expr_of e.now)) }
{
    of_holder(
        taken,
        used,
        Touch::Written,
        taken.array_holder(used.slot),
        first,
    );
    of_index(around, Touch::Written, used, i, first);
    of_expr(around, taken, i, first);
    of_expr(around, taken, e, first);
}

/// Records the first rule that a statement breaks, apart from its inner blocks, unless a rule was recorded before.
pub fn of_stmt<'a>(
    around: &Option<Loop<'a>>,
    taken: &Taken,
    stmt: &'a Stmt,
    first: &mut Option<Disowned<'a>>,
)
    requires { small_stmt (stmt_of stmt.now) ≡ true }
    ensures { Finds first.old first.new (why_here why around.now taken.now (stmt_of stmt.now)) }
{
    match stmt {
        Stmt::Declare(_, e) => of_expr(around, taken, e, first),
        Stmt::DeclareArray(_, e) => of_expr(around, taken, e, first),
        Stmt::Assign(used, e) => {
            of_expr(around, taken, e, first);
            of_write(around, taken, used, first);
        }
        Stmt::AssignElement(used, i, e) => of_element(around, taken, used, i, e, first),
        Stmt::Reduce(_, _, e) => of_expr(around, taken, e, first),
        Stmt::Call(call) => of_call(around, taken, call, first),
        Stmt::Sync => {}
        Stmt::If(e, _) => of_expr(around, taken, e, first),
        Stmt::IfElse(e, _, _) => of_expr(around, taken, e, first),
        Stmt::While(e, _) => of_expr(around, taken, e, first),
        Stmt::For(head, _) => of_head(around, taken, head, first),
        Stmt::Scope(_) => {}
        Stmt::Cut(cut, _) => of_cut(around, taken, cut, first),
        Stmt::Region(_, _) => {}
        Stmt::Print(e) => of_expr(around, taken, e, first),
        Stmt::Return(e) => of_return(around, taken, e, first),
    }
}

//! The operators on one and two values.

ghost use Rattle.std.specs.Prelude.{◌≡◌};
ghost use Rattle.cw_model.specs.Ints as ints;
ghost use Rattle.cw_model.specs.Expressions.{apply};
ghost use Rattle.cw_code.specs.Run.{apply_unary};
ghost use Rattle.cw_machine.specs.RepresentsState.{IsResult};

use cw_code::code::UnaryOperator;
use cw_model::syntax::Operator;
use cw_model::trap::Trap;

// Applies an operator to two values. Returns the result, or the trap if the operator traps.
#[inline(always)]
pub fn operate(operator: Operator, v: i64, w: i64) -> Result<i64, Trap>
    ensures { IsResult (apply operator v w) result }
{
    match operator {
        Operator::Equal => Ok((v == w) as i64),
        Operator::Unequal => Ok((v != w) as i64),
        Operator::Less => Ok((v < w) as i64),
        Operator::AtMost => Ok((v <= w) as i64),
        Operator::Greater => Ok((v > w) as i64),
        Operator::AtLeast => Ok((v >= w) as i64),
        Operator::Plus => v.checked_add(w).ok_or(Trap::Overflow),
        Operator::Minus => v.checked_sub(w).ok_or(Trap::Overflow),
        Operator::Times => v.checked_mul(w).ok_or(Trap::Overflow),
        Operator::Divide => {
            if w == 0 {
                Err(Trap::DivisionByZero)
            } else {
                v.checked_div(w).ok_or(Trap::Overflow)
            }
        }
        Operator::Modulo => {
            if w == 0 {
                Err(Trap::DivisionByZero)
            } else {
                v.checked_rem(w).ok_or(Trap::Overflow)
            }
        }
    }
}

// Applies an operator to a value. Returns the result, or the trap if the operator traps.
#[inline(always)]
pub fn operate_on(operator: UnaryOperator, v: i64) -> Result<i64, Trap>
    ensures { IsResult (apply_unary operator v) result }
{
    match operator {
        UnaryOperator::Negative => v.checked_neg().ok_or(Trap::Overflow),
        UnaryOperator::Not => Ok((v == 0) as i64),
    }
}

// Returns whether a value is 0.
#[inline(always)]
pub fn is_zero(v: i64) -> bool
    ensures { result ≡ ints.is_zero v }
{
    v == 0
}

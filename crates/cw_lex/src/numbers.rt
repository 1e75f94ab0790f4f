//! The value of a number.

ghost use Rattle.std.specs.Prelude.{◌≡◌, ◌<◌, ◌≤◌, ℕ, length, slice_index, true, IfSome, IfNone};
ghost use Rattle.cw_model.specs.Pieces.{is_digit, decimal_value};

use cw_model::limits::MOST_NUMBER;

/// Returns the number that decimal digits represent, or `None` if it exceeds `MOST_NUMBER`. An empty list of digits
/// represents 0.
pub fn value_of_digits(digits: &[u8]) -> Option<u64>
    requires { (k : ℕ) → k < length digits.now → is_digit (slice_index digits.now k) ≡ true }
    ensures some { IfSome result (λ n. (n ≡ decimal_value digits.now) × (n ≤ MOST_NUMBER)) }
    ensures none { IfNone result (MOST_NUMBER < decimal_value digits.now) }
{
    let mut value = 0u64;
    for digit in digits {
        let unit = u64::from(*digit - b'0');
        if value > (MOST_NUMBER - unit) / 10 {
            return None;
        }
        value = 10 * value + unit;
    }
    Some(value)
}

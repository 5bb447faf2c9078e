//! The bounds of `slice`.

use script_values::{Fault, Stop, Value};

// The place that a number names: from the front, or where it is negative from the end (ECMA-262,
// 14th edition, clause 7.1.5 and 23.1.3.28).
fn place(number: i64, length: u64) -> u64 {
    let far = number.unsigned_abs().min(length);
    if number < 0 { length - far } else { far }
}

/// From where to where `slice(a, b)` goes in so many items. Where both are left out it is all; else
/// `a` is a number, and `b` a number or left out.
pub(crate) fn bounds(a: Value, b: Value, length: u64) -> Result<(u64, u64), Stop> {
    if a == Value::Undefined && b == Value::Undefined {
        return Ok((0, length));
    }
    let Value::Whole(from) = a else {
        return Err(Stop::Fault(Fault::BadOperand));
    };
    let from = place(from, length);
    let to = match b {
        Value::Undefined => length,
        Value::Whole(to) => place(to, length),
        _ => return Err(Stop::Fault(Fault::BadOperand)),
    };
    Ok((from, to.max(from)))
}

//! Operators of expressions (ECMA-262, 14th edition, clauses 13.5 to 13.11), on whole numbers and
//! with faults in place of conversions.

ghost use Rattle.std.specs.Prelude.{◌≡◌};

use crate::spelling::spelled;
use script_values::{Fault, Heap, Spelling, Stop, TextId, Value};
use std::cmp::Ordering;

/// The greatest number of a script; the least is its negative.
pub const MAX_NUMBER: i64 = 9_007_199_254_740_991;

const BAD_OPERAND: Stop = Stop::Fault(Fault::BadOperand);

/// Whether a value counts as true: all but undefined, null, false, 0 and the empty text.
#[inline(always)]
pub fn is_true(heap: &Heap, value: Value) -> Result<bool, Stop> {
    match value {
        Value::Truth(truth) => Ok(truth),
        Value::Undefined => Ok(false),
        Value::Null => Ok(false),
        Value::Whole(number) => Ok(number != 0),
        Value::Text(text) => Ok(heap.length(text)? != 0),
        _ => Ok(true),
    }
}

// A number in the range, or Overflow.
#[inline(always)]
fn in_range(number: Option<i64>) -> Result<Value, Stop> {
    match number {
        Some(number) => {
            if number > MAX_NUMBER || number < -MAX_NUMBER {
                Err(Stop::Fault(Fault::Overflow))
            } else {
                Ok(Value::Whole(number))
            }
        }
        None => Err(Stop::Fault(Fault::Overflow)),
    }
}

/// `a + b`: the sum of two numbers, or two texts joined, where one may be spelled.
#[inline(always)]
pub fn add(heap: &mut Heap, a: Value, b: Value) -> Result<Value, Stop> {
    if let (Value::Whole(x), Value::Whole(y)) = (a, b) {
        return in_range(x.checked_add(y));
    }
    joined(heap, a, b)
}

#[inline(never)]
fn joined(heap: &mut Heap, a: Value, b: Value) -> Result<Value, Stop> {
    if !matches!(a, Value::Text(_)) && !matches!(b, Value::Text(_)) {
        return Err(BAD_OPERAND);
    }
    let front = spelled(heap, a)?;
    let back = spelled(heap, b)?;
    Ok(Value::Text(heap.join(front, back)?))
}

/// `a - b`.
#[inline(always)]
pub fn subtract(a: Value, b: Value) -> Result<Value, Stop> {
    match (a, b) {
        (Value::Whole(x), Value::Whole(y)) => in_range(x.checked_sub(y)),
        _ => Err(BAD_OPERAND),
    }
}

/// `a * b`.
#[inline(always)]
pub fn multiply(a: Value, b: Value) -> Result<Value, Stop> {
    match (a, b) {
        (Value::Whole(x), Value::Whole(y)) => in_range(x.checked_mul(y)),
        _ => Err(BAD_OPERAND),
    }
}

/// `a % b`, with the sign of `a`. A divisor of zero is `BadOperand`.
#[inline(always)]
pub fn remainder(a: Value, b: Value) -> Result<Value, Stop> {
    match (a, b) {
        (Value::Whole(x), Value::Whole(y)) => match x.checked_rem(y) {
            Some(rest) => Ok(Value::Whole(rest)),
            None => {
                if y == 0 {
                    Err(BAD_OPERAND)
                } else {
                    Ok(Value::Whole(0))
                }
            }
        },
        _ => Err(BAD_OPERAND),
    }
}

/// `-a`.
pub fn negate(a: Value) -> Result<Value, Stop> {
    subtract(Value::Whole(0), a)
}

/// The number that `++` makes of a value.
#[inline(always)]
pub fn increment(a: Value) -> Result<Value, Stop> {
    match a {
        Value::Whole(x) => in_range(x.checked_add(1)),
        _ => Err(BAD_OPERAND),
    }
}

/// The number that `--` makes of a value.
#[inline(always)]
pub fn decrement(a: Value) -> Result<Value, Stop> {
    match a {
        Value::Whole(x) => in_range(x.checked_sub(1)),
        _ => Err(BAD_OPERAND),
    }
}

fn same_as_text(heap: &mut Heap, a: TextId, b: Value) -> Result<bool, Stop> {
    match b {
        Value::Text(y) => heap.same_text(a, y),
        _ => Ok(false),
    }
}

/// `a === b`: numbers, texts, truths and the like by value; lists, objects, functions and
/// collections by identity.
#[inline(always)]
pub fn same(heap: &mut Heap, a: Value, b: Value) -> Result<bool, Stop> {
    match a {
        Value::Text(x) => same_as_text(heap, x, b),
        _ => Ok(a == b),
    }
}

/// The types between which `==` tells no difference but by a fault.
#[derive(Clone, Copy, PartialEq, Eq)]
enum Sort {
    Nothing,
    Truth,
    Whole,
    Text,
    List,
    Object,
    Function,
    Native,
    Type,
    Node,
    NodeList,
    Path,
    Collection,
    Scope,
    Printed,
}

fn sort_of(value: &Value) -> Sort {
    match *value {
        Value::Undefined => Sort::Nothing,
        Value::Null => Sort::Nothing,
        Value::Truth(_) => Sort::Truth,
        Value::Whole(_) => Sort::Whole,
        Value::Text(_) => Sort::Text,
        Value::List(_) => Sort::List,
        Value::Object(_) => Sort::Object,
        Value::Function(_) => Sort::Function,
        Value::Native(_) => Sort::Native,
        Value::Type(_) => Sort::Type,
        Value::Node(_) => Sort::Node,
        Value::NodeList(..) => Sort::NodeList,
        Value::Path(_) => Sort::Path,
        Value::Collection(_) => Sort::Collection,
        Value::Scope(_) => Sort::Scope,
        Value::Printed(_) => Sort::Printed,
    }
}

/// `a == b`: null and undefined are equal to each other and to nothing else; two values of another
/// type each are `BadOperand`; else as `===`.
#[inline(always)]
pub fn equal(heap: &mut Heap, a: Value, b: Value) -> Result<bool, Stop> {
    if let (Value::Whole(x), Value::Whole(y)) = (a, b) {
        return Ok(x == y);
    }
    loosely_equal(heap, a, b)
}

fn loosely_equal(heap: &mut Heap, a: Value, b: Value) -> Result<bool, Stop> {
    let (first, second) = (sort_of(&a), sort_of(&b));
    if first == Sort::Nothing || second == Sort::Nothing {
        return Ok(first == second);
    }
    if first != second {
        return Err(BAD_OPERAND);
    }
    same(heap, a, b)
}

#[inline(always)]
fn compare_whole(a: i64, b: Value) -> Result<Ordering, Stop> {
    match b {
        Value::Whole(y) => Ok(a.cmp(&y)),
        _ => Err(BAD_OPERAND),
    }
}

fn compare_text(heap: &mut Heap, a: TextId, b: Value) -> Result<Ordering, Stop> {
    match b {
        Value::Text(y) => heap.compare_texts(a, y),
        _ => Err(BAD_OPERAND),
    }
}

/// How two numbers, or two texts by their code units, stand to each other. Any other operands are
/// `BadOperand`.
#[inline(always)]
pub fn compare(heap: &mut Heap, a: Value, b: Value) -> Result<Ordering, Stop> {
    match a {
        Value::Whole(x) => compare_whole(x, b),
        Value::Text(x) => compare_text(heap, x, b),
        _ => Err(BAD_OPERAND),
    }
}

/// What `typeof` gives of a value.
pub fn type_of(value: Value) -> Spelling {
    match value {
        Value::Undefined => Spelling::Undefined,
        Value::Truth(_) => Spelling::Boolean,
        Value::Whole(_) => Spelling::Number,
        Value::Text(_) => Spelling::String,
        Value::Printed(_) => Spelling::String,
        Value::Function(_) => Spelling::Function,
        Value::Native(_) => Spelling::Function,
        Value::Null => Spelling::Object,
        Value::List(_) => Spelling::Object,
        Value::Object(_) => Spelling::Object,
        Value::Type(_) => Spelling::Object,
        Value::Node(_) => Spelling::Object,
        Value::NodeList(..) => Spelling::Object,
        Value::Path(_) => Spelling::Object,
        Value::Collection(_) => Spelling::Object,
        Value::Scope(_) => Spelling::Object,
    }
}

//! What each operator of the prepared script gives.

use script_code::{Operator, UnaryOperator, Update};
use script_values::{Heap, Stop, Value};
use std::cmp::Ordering;
use value_methods::{
    add, compare, decrement, equal, increment, is_true, multiply, negate, remainder, same,
    subtract, type_of,
};

/// What an operator gives of two values.
#[inline(always)]
pub fn apply(heap: &mut Heap, operator: Operator, a: Value, b: Value) -> Result<Value, Stop> {
    match operator {
        Operator::Add => add(heap, a, b),
        Operator::Subtract => subtract(a, b),
        Operator::Multiply => multiply(a, b),
        Operator::Remainder => remainder(a, b),
        Operator::Same => Ok(Value::Truth(same(heap, a, b)?)),
        Operator::NotSame => Ok(Value::Truth(!same(heap, a, b)?)),
        Operator::Equal => Ok(Value::Truth(equal(heap, a, b)?)),
        Operator::NotEqual => Ok(Value::Truth(!equal(heap, a, b)?)),
        Operator::Less => Ok(Value::Truth(compare(heap, a, b)? == Ordering::Less)),
        Operator::LessOrEqual => Ok(Value::Truth(compare(heap, a, b)? != Ordering::Greater)),
        Operator::Greater => Ok(Value::Truth(compare(heap, a, b)? == Ordering::Greater)),
        Operator::GreaterOrEqual => Ok(Value::Truth(compare(heap, a, b)? != Ordering::Less)),
    }
}

/// What an operator gives of one value.
pub fn apply_unary(heap: &Heap, operator: UnaryOperator, value: Value) -> Result<Value, Stop> {
    match operator {
        UnaryOperator::Not => Ok(Value::Truth(!is_true(heap, value)?)),
        UnaryOperator::Minus => negate(value),
        UnaryOperator::TypeOf => Ok(Value::Text(heap.spelling(type_of(value)))),
    }
}

/// What an update sets.
#[inline(always)]
pub fn updated(old: Value, update: Update) -> Result<Value, Stop> {
    if update.up {
        increment(old)
    } else {
        decrement(old)
    }
}

//! Arguments of calls: one that is missing is undefined, and one of another type is BadOperand.

use host_fields::copied_text;
use script_values::{Fault, Heap, Stop, Value};
use std::alloc::Global;
use tree_core::Units;
use type_defs::NodeType;

/// An operand or argument of another type than the call states.
pub const BAD_OPERAND: Stop = Stop::Fault(Fault::BadOperand);

/// The argument of this number.
pub fn argument(arguments: &[Value], number: usize) -> Value {
    if number < arguments.len() {
        return arguments[number];
    }
    Value::Undefined
}

/// The type of nodes that a value is.
pub fn type_of(value: Value) -> Result<NodeType, Stop> {
    match value {
        Value::Type(named) => Ok(named),
        _ => Err(BAD_OPERAND),
    }
}

/// The number that a value is.
pub fn number_of(value: Value) -> Result<i64, Stop> {
    match value {
        Value::Whole(number) => Ok(number),
        _ => Err(BAD_OPERAND),
    }
}

/// The text that a value is, as a text of a tree.
pub fn name_of(alloc: Global, heap: &mut Heap, value: Value) -> Result<Units, Stop> {
    match value {
        Value::Text(text) => copied_text(alloc, heap, text),
        _ => Err(BAD_OPERAND),
    }
}

/// Whether a value is a function.
pub fn is_function(value: &Value) -> bool {
    matches!(*value, Value::Function(_) | Value::Native(_))
}

/// The function that a value is.
pub fn function_of(value: Value) -> Result<Value, Stop> {
    if is_function(&value) {
        return Ok(value);
    }
    Err(BAD_OPERAND)
}

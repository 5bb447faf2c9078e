//! The arguments of a method.

use script_values::{Heap, Stop, Value};

/// The argument at an index; one that is missing is undefined.
pub(crate) fn argument(arguments: &[Value], index: usize) -> Value {
    if index < arguments.len() {
        arguments[index]
    } else {
        Value::Undefined
    }
}

/// How many items or code units an argument of a method has that are counted: those of a list or a
/// text. A node list's are counted by the host.
pub fn argument_size(heap: &Heap, value: Value) -> Result<u64, Stop> {
    match value {
        Value::Text(text) => Ok(u64::from(heap.length(text)?)),
        Value::List(list) => Ok(heap.items(list)?.len() as u64),
        _ => Ok(0),
    }
}

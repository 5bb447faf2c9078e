//! How a value is spelled: by `String`, by `+` with a text, and in a template.

use itoa::Buffer;
use script_values::{Fault, Heap, Spelling, Stop, TextId, Value};

/// The text of a value: a text itself, a number in decimal, and truths, null and undefined by their
/// words (ECMA-262, 14th edition, clause 7.1.17). Any other value is `BadOperand`.
pub fn spelled(heap: &mut Heap, value: Value) -> Result<TextId, Stop> {
    match value {
        Value::Text(text) => Ok(text),
        Value::Whole(number) => decimal(heap, number),
        Value::Truth(true) => Ok(heap.spelling(Spelling::True)),
        Value::Truth(false) => Ok(heap.spelling(Spelling::False)),
        Value::Null => Ok(heap.spelling(Spelling::Null)),
        Value::Undefined => Ok(heap.spelling(Spelling::Undefined)),
        _ => Err(Stop::Fault(Fault::BadOperand)),
    }
}

fn decimal(heap: &mut Heap, number: i64) -> Result<TextId, Stop> {
    let mut buffer = Buffer::new();
    heap.text_of_bytes(buffer.format(number).as_bytes())
}

/// How many units the spelling of a value has in `join`: null and undefined are spelled as nothing.
pub(crate) fn item_length(heap: &Heap, item: Value) -> Result<u64, Stop> {
    match item {
        Value::Text(text) => Ok(u64::from(heap.length(text)?)),
        Value::Whole(number) => {
            let mut buffer = Buffer::new();
            Ok(buffer.format(number).len() as u64)
        }
        Value::Truth(true) => Ok(4),
        Value::Truth(false) => Ok(5),
        Value::Null => Ok(0),
        Value::Undefined => Ok(0),
        _ => Err(Stop::Fault(Fault::BadOperand)),
    }
}

/// The text of an item in `join`.
pub(crate) fn item_text(heap: &mut Heap, item: Value) -> Result<TextId, Stop> {
    match item {
        Value::Null => Ok(heap.spelling(Spelling::Empty)),
        Value::Undefined => Ok(heap.spelling(Spelling::Empty)),
        _ => spelled(heap, item),
    }
}

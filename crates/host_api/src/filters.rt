//! Filters: an object whose fields a node is to have, or a function. An object is tested once a
//! call, in the order of its keys, and then matched as it stands in the heap.

ghost use Rattle.std.specs.Prelude.{◌≡◌, Ok};

use indexmap::IndexSet;
use script_values::{Fault, Heap, ObjectId, Stop, Value};
use std::alloc::Global;

/// The most levels of a filter: objects and lists count one each, the outer object is the first.
pub const MAX_FILTER_LEVELS: u8 = 64;

/// What is asked of a node.
#[derive(Clone, Copy, Debug, PartialEq, Eq)]
pub enum Filter {
    Any,
    Fields(ObjectId),
    Function(Value),
}

/// A part of a filter at a level, counted from the deepest lawful one.
#[derive(Clone, Copy, Debug, PartialEq, Eq, Hash)]
struct Part {
    number: u32,
    list: bool,
    left: u8,
}

// How many items a list or keys an object has.
fn count_of(heap: &Heap, value: Value) -> Result<usize, Stop> {
    match value {
        Value::Object(object) => heap.object_length(object),
        Value::List(list) => Ok(heap.items(list)?.len()),
        _ => Ok(0),
    }
}

// The item of a list or the value of an object's key of this number.
fn child_of(heap: &Heap, value: Value, number: usize) -> Result<Value, Stop> {
    match value {
        Value::Object(object) => match heap.entry(object, number)? {
            Some((_, child)) => Ok(child),
            None => Err(Stop::NoMemory),
        },
        Value::List(list) => {
            let items = heap.items(list)?;
            if number >= items.len() {
                return Err(Stop::NoMemory);
            }
            Ok(items[number])
        }
        _ => Err(Stop::NoMemory),
    }
}

fn part_at(number: u32, list: bool, left: u8) -> Part {
    Part { number, list, left }
}

// Whether a part was not tested at this level so far; it counts as tested then.
fn add_part(seen: &mut IndexSet<Part>, number: u32, list: bool, left: u8) -> Result<bool, Stop> {
    let (_, new) = seen.insert_full(part_at(number, list, left))?;
    Ok(new)
}

fn is_new(seen: &mut IndexSet<Part>, value: Value, left: u8) -> Result<bool, Stop> {
    match value {
        Value::Object(object) => add_part(seen, object.number(), false, left),
        Value::List(list) => add_part(seen, list.number(), true, left),
        _ => Err(Stop::NoMemory),
    }
}

// Whether the value is one that has parts.
fn has_parts(value: Value) -> bool {
    matches!(value, Value::Object(_) | Value::List(_))
}

// Whether the value is one that ends a filter: a text, a number, a truth or null.
fn is_plain(value: Value) -> bool {
    matches!(
        value,
        Value::Text(_) | Value::Whole(_) | Value::Truth(_) | Value::Null
    )
}

/// Refuses a part of a filter that has what no filter has, or too many levels. What was tested at
/// the same level is not tested again.
fn test_part(heap: &Heap, seen: &mut IndexSet<Part>, value: Value, left: u8) -> Result<(), Stop> {
    if is_plain(value) {
        return Ok(());
    }
    if !has_parts(value) {
        return Err(Stop::Fault(Fault::BadOperand));
    }
    if left == 0 {
        return Err(Stop::Fault(Fault::Deep));
    }
    if !is_new(seen, value, left)? {
        return Ok(());
    }
    for number in 0..count_of(heap, value)? {
        let child = child_of(heap, value, number)?;
        test_part(heap, seen, child, left - 1)?;
    }
    Ok(())
}

/// The filter that a value is. Undefined and null ask nothing. BadOperand: the value or a part of it
/// is no filter; Deep: it has more than 64 levels; whichever comes first in the order of the keys.
pub fn filter_of(alloc: Global, heap: &Heap, value: Value) -> Result<Filter, Stop>
    ensures undefined { value ≡ Value.Undefined → result ≡ Ok Filter.Any }
    ensures null { value ≡ Value.Null → result ≡ Ok Filter.Any }
{
    match value {
        Value::Undefined | Value::Null => Ok(Filter::Any),
        Value::Function(_) | Value::Native(_) => Ok(Filter::Function(value)),
        Value::Object(object) => {
            let mut seen = IndexSet::new(alloc);
            test_part(heap, &mut seen, value, MAX_FILTER_LEVELS)?;
            Ok(Filter::Fields(object))
        }
        _ => Err(Stop::Fault(Fault::BadOperand)),
    }
}

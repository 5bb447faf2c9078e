//! Objects that the host makes, with views as their keys.

use crate::names::{View, view_word};
use script_values::{Heap, ObjectId, Stop, TextId, Value};
use std::alloc::Global;
use tree_core::Units;

/// Sets the key of an object that has the view's name.
pub fn set_view(heap: &mut Heap, object: ObjectId, view: View, value: Value) -> Result<(), Stop> {
    heap.set_field(object, view_word(view), value)
}

/// The value of the key of an object that has the view's name; undefined where it has none.
pub fn view_field(heap: &Heap, object: ObjectId, view: View) -> Result<Value, Stop> {
    match heap.field(object, view_word(view))? {
        Some(value) => Ok(value),
        None => Ok(Value::Undefined),
    }
}

/// The text that is the view's name.
pub fn view_text(heap: &Heap, view: View) -> Result<Value, Stop> {
    Ok(Value::Text(heap.word_text(view_word(view))?))
}

/// A comment as an object: its type, its text, and whether it stands before or after its node.
pub fn comment_object(
    heap: &mut Heap,
    block: bool,
    text: TextId,
    leading: bool,
    trailing: bool,
) -> Result<Value, Stop> {
    let view = if block {
        View::BlockType
    } else {
        View::LineType
    };
    let name = view_text(heap, view)?;
    let object = heap.object()?;
    set_view(heap, object, View::Type, name)?;
    set_view(heap, object, View::Value, Value::Text(text))?;
    set_view(heap, object, View::Leading, Value::Truth(leading))?;
    set_view(heap, object, View::Trailing, Value::Truth(trailing))?;
    Ok(Value::Object(object))
}

/// A text of the heap as a text of a tree.
pub fn copied_text(alloc: Global, heap: &mut Heap, text: TextId) -> Result<Units, Stop> {
    heap.flatten(text)?;
    let units = heap.units(text)?;
    let mut copied = Units::with_room(alloc, units.len())?;
    for unit in units {
        copied.push(alloc, *unit)?;
    }
    Ok(copied)
}

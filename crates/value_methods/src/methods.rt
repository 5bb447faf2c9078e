//! The methods by their names, and their calls.

ghost use Rattle.std.specs.Prelude.{◌≤◌};

use crate::list_methods::{
    concat, includes, index_of, join, pop, push, reverse, shift, slice, unshift,
};
use crate::splitting::split;
use crate::text_methods::{
    char_at, concat_text, ends_with, includes_text, index_in_text, replace, slice_text,
    starts_with, trim,
};
use script_values::{Heap, ListId, Stop, TextId, Value};

/// The methods of a text.
#[derive(Clone, Copy, Debug, PartialEq, Eq)]
pub enum TextMethod {
    CharAt,
    IndexOf,
    Includes,
    StartsWith,
    EndsWith,
    Slice,
    Split,
    Trim,
    Replace,
    Concat,
}

/// The methods of a list that call no function.
#[derive(Clone, Copy, Debug, PartialEq, Eq)]
pub enum ListMethod {
    Push,
    Pop,
    Shift,
    Unshift,
    Slice,
    Concat,
    IndexOf,
    Includes,
    Join,
    Reverse,
}

/// Calls a method of a text, whose one unit is taken.
pub fn call_text_method(
    heap: &mut Heap,
    text: TextId,
    method: TextMethod,
    arguments: &[Value],
    fuel: &mut u64,
) -> Result<Value, Stop>
    ensures { fuel.new ≤ fuel.old }
{
    match method {
        TextMethod::CharAt => char_at(heap, fuel, text, arguments),
        TextMethod::IndexOf => index_in_text(heap, fuel, text, arguments),
        TextMethod::Includes => includes_text(heap, fuel, text, arguments),
        TextMethod::StartsWith => starts_with(heap, fuel, text, arguments),
        TextMethod::EndsWith => ends_with(heap, fuel, text, arguments),
        TextMethod::Slice => slice_text(heap, fuel, text, arguments),
        TextMethod::Split => split(heap, fuel, text, arguments),
        TextMethod::Trim => trim(heap, fuel, text),
        TextMethod::Replace => replace(heap, fuel, text, arguments),
        TextMethod::Concat => concat_text(heap, fuel, text, arguments),
    }
}

/// Calls a method of a list, whose one unit is taken. A node list that is read, or an argument of
/// `concat` that is one, is given as a list of its items.
pub fn call_list_method(
    heap: &mut Heap,
    list: ListId,
    method: ListMethod,
    arguments: &[Value],
    fuel: &mut u64,
) -> Result<Value, Stop>
    ensures { fuel.new ≤ fuel.old }
{
    match method {
        ListMethod::Push => push(heap, fuel, list, arguments),
        ListMethod::Pop => pop(heap, fuel, list),
        ListMethod::Shift => shift(heap, fuel, list),
        ListMethod::Unshift => unshift(heap, fuel, list, arguments),
        ListMethod::Slice => slice(heap, fuel, list, arguments),
        ListMethod::Concat => concat(heap, fuel, list, arguments),
        ListMethod::IndexOf => index_of(heap, fuel, list, arguments),
        ListMethod::Includes => includes(heap, fuel, list, arguments),
        ListMethod::Join => join(heap, fuel, list, arguments),
        ListMethod::Reverse => reverse(heap, fuel, list),
    }
}

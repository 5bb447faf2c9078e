//! The methods of lists that call no function (ECMA-262, 14th edition, clause 23.1.3). A node list is read as a
//! list of its items.

ghost use Rattle.std.specs.Prelude.{◌≤◌};

use crate::arguments::{argument, argument_size};
use crate::operators::same;
use crate::slicing::bounds;
use crate::spelling::{item_length, item_text};
use script_values::{
    Fault, Heap, ListId, MAX_LIST_ITEMS, MAX_TEXT_UNITS, Spelling, Stop, TextId, Value, take,
};

const BAD_OPERAND: Stop = Stop::Fault(Fault::BadOperand);

const LIST_LONG: Stop = Stop::Fault(Fault::ListLong);

fn whole(number: usize) -> Result<Value, Stop> {
    match i64::try_from(number) {
        Ok(number) => Ok(Value::Whole(number)),
        Err(_) => Err(Stop::NoMemory),
    }
}

// The item at an index; undefined where there is none.
fn item_at(heap: &Heap, list: ListId, index: usize) -> Result<Value, Stop> {
    Ok(argument(heap.items(list)?, index))
}

fn length(heap: &Heap, list: ListId) -> Result<Value, Stop> {
    whole(heap.items(list)?.len())
}

/// `push` of any values. It takes a unit for each, and answers the new length.
pub fn push(
    heap: &mut Heap,
    fuel: &mut u64,
    list: ListId,
    arguments: &[Value],
) -> Result<Value, Stop>
    ensures { fuel.new ≤ fuel.old }
{
    take(fuel, arguments.len() as u64)?;
    if heap.items(list)?.len().saturating_add(arguments.len()) > MAX_LIST_ITEMS {
        return Err(LIST_LONG);
    }
    for value in arguments {
        heap.push(list, *value)?;
    }
    length(heap, list)
}

/// `unshift` of any values. It takes a unit for each, and answers the new length.
pub fn unshift(
    heap: &mut Heap,
    fuel: &mut u64,
    list: ListId,
    arguments: &[Value],
) -> Result<Value, Stop>
    ensures { fuel.new ≤ fuel.old }
{
    take(fuel, arguments.len() as u64)?;
    heap.unshift(list, arguments)?;
    length(heap, list)
}

/// `pop()`. It takes a unit for the item that comes out.
pub fn pop(heap: &mut Heap, fuel: &mut u64, list: ListId) -> Result<Value, Stop>
    ensures { fuel.new ≤ fuel.old }
{
    if heap.items(list)?.is_empty() {
        return Ok(Value::Undefined);
    }
    take(fuel, 1)?;
    heap.pop(list)
}

/// `shift()`. It takes a unit for the item that comes out.
pub fn shift(heap: &mut Heap, fuel: &mut u64, list: ListId) -> Result<Value, Stop>
    ensures { fuel.new ≤ fuel.old }
{
    if heap.items(list)?.is_empty() {
        return Ok(Value::Undefined);
    }
    take(fuel, 1)?;
    heap.shift(list)
}

/// `reverse()` in place. It takes two units for each item.
pub fn reverse(heap: &mut Heap, fuel: &mut u64, list: ListId) -> Result<Value, Stop>
    ensures { fuel.new ≤ fuel.old }
{
    let items = heap.items(list)?.len() as u64;
    take(fuel, items)?;
    take(fuel, items)?;
    heap.reverse(list)?;
    Ok(Value::List(list))
}

/// `slice(a, b)`. It takes a unit for each item, and for each of the answer.
pub fn slice(
    heap: &mut Heap,
    fuel: &mut u64,
    list: ListId,
    arguments: &[Value],
) -> Result<Value, Stop>
    ensures { fuel.new ≤ fuel.old }
{
    let length = heap.items(list)?.len() as u64;
    let (from, to) = bounds(argument(arguments, 0), argument(arguments, 1), length)?;
    take(fuel, length)?;
    take(fuel, to.saturating_sub(from))?;
    let (from, to) = (from as usize, to as usize);
    Ok(Value::List(heap.part_of(list, from, to)?))
}

// The units that the arguments of `concat` count, and how many items they give.
fn added_sizes(heap: &Heap, arguments: &[Value]) -> Result<(u64, u64), Stop> {
    let mut counted: u64 = 0;
    let mut given: u64 = 0;
    for value in arguments {
        let size = argument_size(heap, *value)?;
        counted = counted.saturating_add(size);
        let items = match value {
            Value::List(_) => size,
            _ => 1,
        };
        given = given.saturating_add(items);
    }
    Ok((counted, given))
}

fn push_all(heap: &mut Heap, to: ListId, list: ListId) -> Result<(), Stop> {
    for index in 0..heap.items(list)?.len() {
        let item = item_at(heap, list, index)?;
        heap.push(to, item)?;
    }
    Ok(())
}

/// `concat` of lists and other values, where a node list is given as a list of its items. It
/// takes a unit for each item, for each item or code unit of the arguments, and for each item of the
/// answer.
pub fn concat(
    heap: &mut Heap,
    fuel: &mut u64,
    list: ListId,
    arguments: &[Value],
) -> Result<Value, Stop>
    ensures { fuel.new ≤ fuel.old }
{
    let length = heap.items(list)?.len() as u64;
    let (counted, given) = added_sizes(heap, arguments)?;
    take(fuel, length)?;
    take(fuel, counted)?;
    take(fuel, length)?;
    take(fuel, given)?;
    if length.saturating_add(given) > MAX_LIST_ITEMS as u64 {
        return Err(LIST_LONG);
    }
    let answer = heap.list(&[])?;
    push_all(heap, answer, list)?;
    for value in arguments {
        match value {
            Value::List(list) => push_all(heap, answer, *list)?,
            _ => heap.push(answer, *value)?,
        }
    }
    Ok(Value::List(answer))
}

// The index of the first item that is the value.
fn position(heap: &mut Heap, list: ListId, sought: Value) -> Result<Option<usize>, Stop> {
    for index in 0..heap.items(list)?.len() {
        let item = item_at(heap, list, index)?;
        if same(heap, item, sought)? {
            return Ok(Some(index));
        }
    }
    Ok(None)
}

// The units of `indexOf` and `includes`.
fn take_sought(heap: &Heap, fuel: &mut u64, list: ListId, sought: &Value) -> Result<(), Stop>
    ensures { fuel.new ≤ fuel.old }
{
    take(fuel, heap.items(list)?.len() as u64)?;
    take(fuel, argument_size(heap, *sought)?)
}

/// `indexOf(x)` by `===`. It takes a unit for each item, and for each item or code unit of `x`. Those
/// of a node list that is sought are taken by the caller.
pub fn index_of(
    heap: &mut Heap,
    fuel: &mut u64,
    list: ListId,
    arguments: &[Value],
) -> Result<Value, Stop>
    ensures { fuel.new ≤ fuel.old }
{
    let sought = argument(arguments, 0);
    take_sought(heap, fuel, list, &sought)?;
    match position(heap, list, sought)? {
        Some(index) => whole(index),
        None => Ok(Value::Whole(-1)),
    }
}

/// `includes(x)` by `===`, with the units of `index_of`.
pub fn includes(
    heap: &mut Heap,
    fuel: &mut u64,
    list: ListId,
    arguments: &[Value],
) -> Result<Value, Stop>
    ensures { fuel.new ≤ fuel.old }
{
    let sought = argument(arguments, 0);
    take_sought(heap, fuel, list, &sought)?;
    Ok(Value::Truth(position(heap, list, sought)?.is_some()))
}

// How many units the items have together, with a separator between them.
fn joined_length(heap: &Heap, list: ListId, by: TextId) -> Result<u64, Stop> {
    let count = heap.items(list)?.len();
    let gaps = count.saturating_sub(1) as u64;
    let mut length = gaps.saturating_mul(u64::from(heap.length(by)?));
    for index in 0..count {
        let item = item_at(heap, list, index)?;
        length = length.saturating_add(item_length(heap, item)?);
    }
    Ok(length)
}

fn append(heap: &mut Heap, units: &mut Vec<u16>, text: TextId) -> Result<(), Stop> {
    heap.flatten(text)?;
    units.extend_from_slice(heap.units(text)?)?;
    Ok(())
}

fn join_all(heap: &mut Heap, list: ListId, by: TextId) -> Result<TextId, Stop> {
    let mut units = Vec::new(heap.alloc());
    for index in 0..heap.items(list)?.len() {
        if index > 0 {
            append(heap, &mut units, by)?;
        }
        let item = item_at(heap, list, index)?;
        let text = item_text(heap, item)?;
        append(heap, &mut units, text)?;
    }
    heap.text(&units)
}

/// `join(x)`, with `,` where it is left out. It takes a unit for each item, for each code unit of
/// the separator that is given, and for each of the answer.
pub fn join(
    heap: &mut Heap,
    fuel: &mut u64,
    list: ListId,
    arguments: &[Value],
) -> Result<Value, Stop>
    ensures { fuel.new ≤ fuel.old }
{
    let separator = argument(arguments, 0);
    let by = match separator {
        Value::Undefined => heap.spelling(Spelling::Comma),
        Value::Text(text) => text,
        _ => return Err(BAD_OPERAND),
    };
    let length = joined_length(heap, list, by)?;
    take(fuel, heap.items(list)?.len() as u64)?;
    take(fuel, argument_size(heap, separator)?)?;
    take(fuel, length)?;
    if length > u64::from(MAX_TEXT_UNITS) {
        return Err(Stop::Fault(Fault::TextLong));
    }
    Ok(Value::Text(join_all(heap, list, by)?))
}

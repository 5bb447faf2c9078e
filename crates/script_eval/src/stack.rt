//! The stacks of frames and of values. A call's slots and what waits inside its expressions are
//! values one above the other.

ghost use Rattle.std.specs.Prelude.{◌≡◌, ◌+◌, OnOk, length};

use crate::frames::Frame;
use host_fields::Host;
use script_values::{Fault, Heap, MAX_LIST_ITEMS, Stop, Value};

/// What a place of the stack is answered that the machine's code never names: a prepared script has
/// none such, so this can't come about.
pub const UNKNOWN: Stop = Stop::NoMemory;

pub const DEEP: Stop = Stop::Fault(Fault::Deep);

pub const BAD_OPERAND: Stop = Stop::Fault(Fault::BadOperand);

pub const NO_FIELD: Stop = Stop::Fault(Fault::NoField);

/// Puts a frame on the frames.
#[inline(always)]
pub fn push<'a>(frames: &mut Vec<Frame<'a>>, frame: Frame<'a>) -> Result<(), Stop>
    ensures { OnOk result (length frames.new.items ≡ length frames.old.items + 1) }
{
    match frames.push(frame) {
        Ok(()) => Ok(()),
        Err(_) => Err(Stop::NoMemory),
    }
}

/// Puts a value on the values.
#[inline(always)]
pub fn keep(values: &mut Vec<Value>, value: Value) -> Result<(), Stop> {
    match values.push(value) {
        Ok(()) => Ok(()),
        Err(_) => Err(Stop::NoMemory),
    }
}

/// Takes the last value.
#[inline(always)]
pub fn taken(values: &mut Vec<Value>) -> Result<Value, Stop> {
    match values.pop() {
        Some(value) => Ok(value),
        None => Err(UNKNOWN),
    }
}

/// The value so many places below the end; the last one is 0 below it.
#[inline(always)]
pub fn seen(values: &[Value], below: usize) -> Result<Value, Stop> {
    let count = values.len();
    if below >= count {
        return Err(UNKNOWN);
    }
    Ok(values[count - 1 - below])
}

/// The value in a slot.
#[inline(always)]
pub fn slot_value(values: &[Value], base: usize, slot: u32) -> Result<Value, Stop> {
    let place = base.saturating_add(slot as usize);
    if place < values.len() {
        Ok(values[place])
    } else {
        Err(UNKNOWN)
    }
}

/// Gives a slot its first value. The slots behind it are free then.
#[inline(always)]
pub fn begin_slot(
    values: &mut Vec<Value>,
    base: usize,
    slot: u32,
    value: Value,
) -> Result<(), Stop> {
    let place = base.saturating_add(slot as usize);
    values.truncate(place);
    keep(values, value)
}

/// Sets a slot that has begun.
#[inline(always)]
pub fn set_slot(values: &mut [Value], base: usize, slot: u32, value: Value) -> Result<(), Stop> {
    let place = base.saturating_add(slot as usize);
    if place < values.len() {
        values[place] = value;
        Ok(())
    } else {
        Err(UNKNOWN)
    }
}

// The values from a place on become a list in that place, or undefined where they are too many: the
// function's entry comes to that when the parameters before are bound.
fn gather(heap: &mut Heap, values: &mut Vec<Value>, first: usize) -> Result<(), Stop> {
    if first > values.len() {
        return Err(UNKNOWN);
    }
    if values.len() - first > MAX_LIST_ITEMS {
        values.truncate(first);
        return keep(values, Value::Undefined);
    }
    let list = heap.list(&values[first..])?;
    values.truncate(first);
    keep(values, Value::List(list))
}

/// The arguments of a call become its first slots: as many as the function has parameters, of which
/// the last may take the rest.
pub fn fit(
    heap: &mut Heap,
    values: &mut Vec<Value>,
    base: usize,
    parameters: u32,
    has_rest: bool,
) -> Result<(), Stop> {
    let end = base.saturating_add(parameters as usize);
    if has_rest {
        let first = end.saturating_sub(1);
        for _missing in values.len()..first {
            keep(values, Value::Undefined)?;
        }
        return gather(heap, values, first);
    }
    if values.len() > end {
        values.truncate(end);
    }
    for _missing in values.len()..end {
        keep(values, Value::Undefined)?;
    }
    Ok(())
}

/// Puts the items of a list or a node list on the values.
pub fn spread(host: &mut Host, values: &mut Vec<Value>, value: Value) -> Result<(), Stop> {
    if let Value::List(list) = value {
        return match values.extend_from_slice(host.heap.items(list)?) {
            Ok(()) => Ok(()),
            Err(_) => Err(Stop::NoMemory),
        };
    }
    let Some(items) = host_fields::items_of(host, value)? else {
        return Err(BAD_OPERAND);
    };
    match values.extend_from_slice(&items) {
        Ok(()) => Ok(()),
        Err(_) => Err(Stop::NoMemory),
    }
}

//! Steps that bind names: of declarations, of heads of loops, and of a function's entry.

use crate::fields::read;
use crate::stack::{BAD_OPERAND, UNKNOWN, begin_slot, set_slot, slot_value};
use host_fields::{Host, items_of};
use script_code::{Bind, Entry, Expression, Hoisted};
use script_values::{EnvironmentId, Fault, Heap, Stop, Value};

/// Where names stand: the slots of the running call, and its environment.
#[derive(Clone, Copy)]
pub struct Around {
    pub base: usize,
    pub environment: EnvironmentId,
}

/// What steps came to: an end, or an expression with the number of the step behind its own.
#[derive(Clone, Copy)]
pub enum Bound<'a> {
    Done,
    Evaluate(&'a Expression, usize),
}

// The slots from one on begin with the first items of a list.
fn bind_items(
    host: &mut Host,
    values: &mut Vec<Value>,
    base: usize,
    first: u32,
    count: u32,
    list: Value,
) -> Result<(), Stop> {
    let Some(items) = items_of(host, list)? else {
        return Err(BAD_OPERAND);
    };
    for index in 0..count {
        let place = index as usize;
        let item = if place < items.len() {
            items[place]
        } else {
            Value::Undefined
        };
        begin_slot(values, base, first.saturating_add(index), item)?;
    }
    Ok(())
}

// A step without an expression: what is in hand behind it.
fn bind_one(
    host: &mut Host,
    hints: &mut Vec<u32>,
    values: &mut Vec<Value>,
    around: &Around,
    step: &Bind,
    in_hand: Value,
) -> Result<Value, Stop> {
    match step {
        Bind::Undefined => return Ok(Value::Undefined),
        Bind::Take(slot) => return slot_value(values, around.base, *slot),
        Bind::Begin(slot) => begin_slot(values, around.base, *slot, in_hand)?,
        Bind::Store(slot) => set_slot(values, around.base, *slot, in_hand)?,
        Bind::BeginCell(cell) => {
            host.heap.declare(around.environment, 0, *cell, in_hand)?;
        }
        Bind::Field(slot, word, hint) => {
            let object = slot_value(values, around.base, *slot)?;
            return read(host, hints, object, *word, *hint);
        }
        Bind::Items(first, count) => {
            bind_items(host, values, around.base, *first, *count, in_hand)?;
        }
        Bind::Rest(slot) => {
            if slot_value(values, around.base, *slot)? == Value::Undefined {
                return Err(Stop::Fault(Fault::ListLong));
            }
        }
        Bind::Evaluate(_) | Bind::Default(_) => return Err(UNKNOWN),
    }
    Ok(in_hand)
}

/// Goes on with steps, from this one on.
pub fn bind<'a>(
    host: &mut Host,
    hints: &mut Vec<u32>,
    values: &mut Vec<Value>,
    around: Around,
    steps: &'a [Bind],
    from: usize,
    value: Value,
) -> Result<Bound<'a>, Stop> {
    let mut in_hand = value;
    for i in from..steps.len() {
        match &steps[i] {
            Bind::Evaluate(expression) => {
                return Ok(Bound::Evaluate(expression, i.saturating_add(1)));
            }
            Bind::Default(expression) => {
                if in_hand == Value::Undefined {
                    return Ok(Bound::Evaluate(expression, i.saturating_add(1)));
                }
            }
            step => in_hand = bind_one(host, hints, values, &around, step, in_hand)?,
        }
    }
    Ok(Bound::Done)
}

/// Binds the functions of a block that starts (ECMA-262, 14th edition, clause 14.2.3).
pub fn hoist(
    heap: &mut Heap,
    values: &mut Vec<Value>,
    around: Around,
    hoisted: &[Hoisted],
) -> Result<(), Stop> {
    for one in hoisted {
        let function = heap.function(one.function, around.environment)?;
        let value = Value::Function(function);
        match one.place {
            Entry::Local(slot) => begin_slot(values, around.base, slot, value)?,
            Entry::Cell(cell) => heap.declare(around.environment, 0, cell, value)?,
        }
    }
    Ok(())
}

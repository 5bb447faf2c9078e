//! Expressions without parts, which are evaluated in place.

ghost use Rattle.std.specs.Prelude.{◌≡◌, ◌+◌, ◌≤◌, OnOk, IfOk, IfSome};

use crate::stack::{DEEP, UNKNOWN, keep};
use script_code::{Expression, Form, Part};
use script_values::{EnvironmentId, Heap, Stop, Value, take};

// What a cell holds. A fault lies at the expression, and an evaluation that is too deep comes
// first.
#[inline(always)]
fn cell_value(
    at: &mut u32,
    heap: &Heap,
    environment: EnvironmentId,
    room: u32,
    place: (u32, u32),
    expression: &Expression,
) -> Result<Value, Stop> {
    match heap.cell(environment, place.0, place.1) {
        Ok(value) => Ok(value),
        Err(stop) => {
            *at = expression.at;
            if expression.depth > room {
                return Err(DEEP);
            }
            Err(stop)
        }
    }
}

/// The value of an expression that has no parts, whose unit is taken then. Others are left alone.
#[inline(always)]
pub fn leaf(
    fuel: &mut u64,
    at: &mut u32,
    heap: &Heap,
    values: &[Value],
    base: usize,
    environment: EnvironmentId,
    room: u32,
    expression: &Expression,
) -> Result<Option<Value>, Stop>
    ensures kept { fuel.new ≤ fuel.old }
    ensures unit { IfOk result (λ o. IfSome o (λ v. fuel.new + 1 ≡ fuel.old)) }
    ensures nested { IfOk result (λ o. IfSome o (λ v. expression.now.depth ≤ room)) }
{
    let value = match &expression.form {
        Form::Local(slot) => {
            take(fuel, 1)?;
            let place = base.saturating_add(*slot as usize);
            if place >= values.len() {
                return Err(UNKNOWN);
            }
            values[place]
        }
        Form::Whole(number) => {
            take(fuel, 1)?;
            Value::Whole(*number)
        }
        Form::Cell(outwards, cell) => {
            take(fuel, 1)?;
            cell_value(at, heap, environment, room, (*outwards, *cell), expression)?
        }
        Form::Text(word) => {
            take(fuel, 1)?;
            Value::Text(heap.word_text(*word)?)
        }
        Form::Undefined => {
            take(fuel, 1)?;
            Value::Undefined
        }
        Form::Truth(truth) => {
            take(fuel, 1)?;
            Value::Truth(*truth)
        }
        Form::Null => {
            take(fuel, 1)?;
            Value::Null
        }
        _ => return Ok(None),
    };
    if expression.depth > room {
        *at = expression.at;
        return Err(DEEP);
    }
    Ok(Some(value))
}

/// Puts the values of leaves on the stack, from the part `from` on: the first part that is none.
pub fn leaves(
    fuel: &mut u64,
    at: &mut u32,
    heap: &Heap,
    values: &mut Vec<Value>,
    base: usize,
    environment: EnvironmentId,
    room: u32,
    parts: &[Part],
    from: usize,
) -> Result<usize, Stop>
    ensures { fuel.new ≤ fuel.old }
{
    for i in from..parts.len() {
        if parts[i].is_spread {
            return Ok(i);
        }
        match leaf(
            fuel,
            at,
            heap,
            values,
            base,
            environment,
            room,
            &parts[i].value,
        )? {
            Some(value) => keep(values, value)?,
            None => return Ok(i),
        }
    }
    Ok(parts.len())
}

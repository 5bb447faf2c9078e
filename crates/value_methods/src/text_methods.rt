//! The methods of texts (ECMA-262, 14th edition, clause 22.1.3), on code units.

ghost use Rattle.std.specs.Prelude.{◌≤◌};

use crate::arguments::argument;
use crate::searching::{Pattern, stands_at};
use crate::slicing::bounds;
use script_values::{Fault, Heap, MAX_TEXT_UNITS, Spelling, Stop, TextId, Value, take};

const BAD_OPERAND: Stop = Stop::Fault(Fault::BadOperand);

pub(crate) fn text_argument(arguments: &[Value], index: usize) -> Result<TextId, Stop> {
    match argument(arguments, index) {
        Value::Text(text) => Ok(text),
        _ => Err(BAD_OPERAND),
    }
}

// Takes a unit of fuel for each code unit of a text.
pub(crate) fn take_text(heap: &Heap, fuel: &mut u64, text: TextId) -> Result<(), Stop>
    ensures { fuel.new ≤ fuel.old }
{
    take(fuel, u64::from(heap.length(text)?))
}

/// `charAt(i)`. It takes a unit for the code unit that it gives.
pub fn char_at(
    heap: &mut Heap,
    fuel: &mut u64,
    text: TextId,
    arguments: &[Value],
) -> Result<Value, Stop>
    ensures { fuel.new ≤ fuel.old }
{
    let Value::Whole(index) = argument(arguments, 0) else {
        return Err(BAD_OPERAND);
    };
    let Ok(index) = u32::try_from(index) else {
        return Ok(Value::Text(heap.spelling(Spelling::Empty)));
    };
    match heap.unit_at(text, index)? {
        Some(unit) => {
            take(fuel, 1)?;
            Ok(Value::Text(heap.unit_text(unit)?))
        }
        None => Ok(Value::Text(heap.spelling(Spelling::Empty))),
    }
}

// The index at which a text first stands in another.
pub(crate) fn position(
    heap: &mut Heap,
    text: TextId,
    sought: TextId,
) -> Result<Option<usize>, Stop> {
    heap.flatten(text)?;
    heap.flatten(sought)?;
    let pattern = Pattern::new(heap.alloc(), heap.units(sought)?)?;
    Ok(pattern.find(heap.units(text)?, 0))
}

/// `indexOf(x)`. It takes a unit for each code unit of the text and of `x`.
pub fn index_in_text(
    heap: &mut Heap,
    fuel: &mut u64,
    text: TextId,
    arguments: &[Value],
) -> Result<Value, Stop>
    ensures { fuel.new ≤ fuel.old }
{
    let sought = text_argument(arguments, 0)?;
    take_text(heap, fuel, text)?;
    take_text(heap, fuel, sought)?;
    match position(heap, text, sought)? {
        Some(index) => match i64::try_from(index) {
            Ok(index) => Ok(Value::Whole(index)),
            Err(_) => Err(Stop::NoMemory),
        },
        None => Ok(Value::Whole(-1)),
    }
}

/// `includes(x)`, with the units of `indexOf`.
pub fn includes_text(
    heap: &mut Heap,
    fuel: &mut u64,
    text: TextId,
    arguments: &[Value],
) -> Result<Value, Stop>
    ensures { fuel.new ≤ fuel.old }
{
    let sought = text_argument(arguments, 0)?;
    take_text(heap, fuel, text)?;
    take_text(heap, fuel, sought)?;
    Ok(Value::Truth(position(heap, text, sought)?.is_some()))
}

/// `startsWith(x)`, with the units of `indexOf`.
pub fn starts_with(
    heap: &mut Heap,
    fuel: &mut u64,
    text: TextId,
    arguments: &[Value],
) -> Result<Value, Stop>
    ensures { fuel.new ≤ fuel.old }
{
    let sought = text_argument(arguments, 0)?;
    take_text(heap, fuel, text)?;
    take_text(heap, fuel, sought)?;
    heap.flatten(text)?;
    heap.flatten(sought)?;
    let stands = stands_at(heap.units(text)?, heap.units(sought)?, 0);
    Ok(Value::Truth(stands))
}

/// `endsWith(x)`, with the units of `indexOf`.
pub fn ends_with(
    heap: &mut Heap,
    fuel: &mut u64,
    text: TextId,
    arguments: &[Value],
) -> Result<Value, Stop>
    ensures { fuel.new ≤ fuel.old }
{
    let sought = text_argument(arguments, 0)?;
    take_text(heap, fuel, text)?;
    take_text(heap, fuel, sought)?;
    heap.flatten(text)?;
    heap.flatten(sought)?;
    let (units, end) = (heap.units(text)?, heap.units(sought)?);
    if end.len() > units.len() {
        return Ok(Value::Truth(false));
    }
    Ok(Value::Truth(stands_at(units, end, units.len() - end.len())))
}

/// `slice(a, b)`. It takes a unit for each code unit of the text and of the answer.
pub fn slice_text(
    heap: &mut Heap,
    fuel: &mut u64,
    text: TextId,
    arguments: &[Value],
) -> Result<Value, Stop>
    ensures { fuel.new ≤ fuel.old }
{
    let length = u64::from(heap.length(text)?);
    let (from, to) = bounds(argument(arguments, 0), argument(arguments, 1), length)?;
    take(fuel, length)?;
    take(fuel, to.saturating_sub(from))?;
    part(heap, text, from as usize, to as usize)
}

// The units of a text from a place to another.
pub(crate) fn part(heap: &mut Heap, text: TextId, from: usize, to: usize) -> Result<Value, Stop> {
    let (Ok(from), Ok(to)) = (u32::try_from(from), u32::try_from(to)) else {
        return Err(Stop::NoMemory);
    };
    Ok(Value::Text(heap.slice(text, from, to)?))
}

// White space and line ends (ECMA-262, 14th edition, clauses 12.2 and 12.3).
fn is_blank(unit: u16) -> bool {
    matches!(
        unit,
        0x0009..=0x000D
            | 0x0020
            | 0x00A0
            | 0x1680
            | 0x2000..=0x200A
            | 0x2028
            | 0x2029
            | 0x202F
            | 0x205F
            | 0x3000
            | 0xFEFF
    )
}

// How many units at the front are blank.
fn blank_front(units: &[u16]) -> usize {
    for index in 0..units.len() {
        if !is_blank(units[index]) {
            return index;
        }
    }
    units.len()
}

// Where the units end that are not blank, or `from`.
fn blank_back(units: &[u16], from: usize) -> usize {
    for left in 0..units.len() {
        let end = units.len() - left;
        if end <= from {
            return from;
        }
        if !is_blank(units[end - 1]) {
            return end;
        }
    }
    from
}

/// `trim()`. It takes a unit for each code unit of the text and of the answer.
pub fn trim(heap: &mut Heap, fuel: &mut u64, text: TextId) -> Result<Value, Stop>
    ensures { fuel.new ≤ fuel.old }
{
    heap.flatten(text)?;
    let units = heap.units(text)?;
    let from = blank_front(units);
    let to = blank_back(units, from);
    take_text(heap, fuel, text)?;
    take(fuel, to.saturating_sub(from) as u64)?;
    part(heap, text, from, to)
}

// The sum of what texts of such lengths have together, where a text may be so long.
fn test_length(length: u64) -> Result<(), Stop> {
    if length > u64::from(MAX_TEXT_UNITS) {
        return Err(Stop::Fault(Fault::TextLong));
    }
    Ok(())
}

/// `replace(x, y)`: the first `x` becomes `y` as it is. It takes a unit for each code unit of the
/// text, of `x`, of `y` and of the answer.
pub fn replace(
    heap: &mut Heap,
    fuel: &mut u64,
    text: TextId,
    arguments: &[Value],
) -> Result<Value, Stop>
    ensures { fuel.new ≤ fuel.old }
{
    let sought = text_argument(arguments, 0)?;
    let by = text_argument(arguments, 1)?;
    take_text(heap, fuel, text)?;
    take_text(heap, fuel, sought)?;
    take_text(heap, fuel, by)?;
    let length = heap.length(text)?;
    let Some(index) = position(heap, text, sought)? else {
        take(fuel, u64::from(length))?;
        return Ok(Value::Text(text));
    };
    let gone = heap.length(sought)?;
    let answer = u64::from(length.saturating_sub(gone)).saturating_add(u64::from(heap.length(by)?));
    take(fuel, answer)?;
    test_length(answer)?;
    let Ok(index) = u32::try_from(index) else {
        return Err(Stop::NoMemory);
    };
    let front = heap.slice(text, 0, index)?;
    let back = heap.slice(text, index.saturating_add(gone), length)?;
    let front = heap.join(front, by)?;
    Ok(Value::Text(heap.join(front, back)?))
}

/// `concat(x)`. It takes a unit for each code unit of the text, of `x` and of the answer.
pub fn concat_text(
    heap: &mut Heap,
    fuel: &mut u64,
    text: TextId,
    arguments: &[Value],
) -> Result<Value, Stop>
    ensures { fuel.new ≤ fuel.old }
{
    let other = text_argument(arguments, 0)?;
    take_text(heap, fuel, text)?;
    take_text(heap, fuel, other)?;
    take_text(heap, fuel, text)?;
    take_text(heap, fuel, other)?;
    Ok(Value::Text(heap.join(text, other)?))
}

//! Each method of texts and lists against ECMA-262, and each operator.
//!
//! In a row a value is written as the tests of `Given` spell it. `<` and `>` stand for the two
//! halves of a surrogate pair, so that a row can have one alone.

mod lists;
mod operators;
mod texts;

use script_values::{Fault, Heap, Stop, TextId, Value};
use std::alloc::Global;
use value_methods::spelled;

/// A value of a row.
#[derive(Clone, Copy)]
enum Given {
    Undefined,
    Null,
    Truth(bool),
    Whole(i64),
    Text(&'static str),
    List,
}

const HIGH_SURROGATE: u16 = 0xD83D;

const LOW_SURROGATE: u16 = 0xDE00;

fn unit_of(character: char) -> u16 {
    match character {
        '<' => HIGH_SURROGATE,
        '>' => LOW_SURROGATE,
        other => u16::try_from(u32::from(other)).unwrap_or(0),
    }
}

fn character_of(unit: u16) -> char {
    match unit {
        HIGH_SURROGATE => '<',
        LOW_SURROGATE => '>',
        other => char::from_u32(u32::from(other)).unwrap_or('?'),
    }
}

fn text_of(heap: &mut Heap, text: &str) -> Result<TextId, Stop> {
    let mut units = Vec::new(heap.alloc());
    for character in text.chars() {
        units.push(unit_of(character))?;
    }
    heap.text(&units)
}

fn value_of(heap: &mut Heap, given: Given) -> Result<Value, Stop> {
    match given {
        Given::Undefined => Ok(Value::Undefined),
        Given::Null => Ok(Value::Null),
        Given::Truth(truth) => Ok(Value::Truth(truth)),
        Given::Whole(number) => Ok(Value::Whole(number)),
        Given::Text(text) => Ok(Value::Text(text_of(heap, text)?)),
        Given::List => Ok(Value::List(heap.list(&[])?)),
    }
}

fn values_of(heap: &mut Heap, given: &[Given]) -> Result<Vec<Value>, Stop> {
    let mut values = Vec::new(heap.alloc());
    for value in given {
        values.push(value_of(heap, *value)?)?;
    }
    Ok(values)
}

fn write_text(heap: &mut Heap, text: TextId, out: &mut String) -> Result<(), Stop> {
    heap.flatten(text)?;
    for unit in heap.units(text)? {
        out.push(character_of(*unit))?;
    }
    Ok(())
}

// A value that is no list: a text in quotes, any other as it is spelled.
fn write_scalar(heap: &mut Heap, value: Value, out: &mut String) -> Result<(), Stop> {
    if let Value::Text(text) = value {
        out.push('\'')?;
        write_text(heap, text, out)?;
        out.push('\'')?;
        return Ok(());
    }
    let text = spelled(heap, value)?;
    write_text(heap, text, out)
}

// A value as rows write it; the items of a list stand in brackets.
fn written(heap: &mut Heap, value: Value) -> Result<String, Stop> {
    let mut out = String::new(heap.alloc());
    let Value::List(list) = value else {
        write_scalar(heap, value, &mut out)?;
        return Ok(out);
    };
    out.push('[')?;
    for index in 0..heap.items(list)?.len() {
        if index > 0 {
            out.push('|')?;
        }
        let items = heap.items(list)?;
        let item = if index < items.len() {
            items[index]
        } else {
            Value::Undefined
        };
        write_scalar(heap, item, &mut out)?;
    }
    out.push(']')?;
    Ok(out)
}

fn new_heap(alloc: Global) -> Result<Heap, Stop> {
    Heap::new(alloc, &[])
}

// A fault's name, or the cause that is none.
fn name_of(stop: Stop) -> &'static str {
    match stop {
        Stop::Fault(fault) => fault.name(),
        Stop::Spent => "Spent",
        Stop::NoMemory => "NoMemory",
    }
}

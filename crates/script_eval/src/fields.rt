//! Reads and writes of fields. Those of objects, lists and texts are done here, all others by the
//! host. A key's site remembers where its key was found last.

use crate::stack::UNKNOWN;
use host_fields::{Host, View, get, get_at, set, set_at, view_word};
use script_values::{Heap, ListId, ObjectId, Stop, TextId, Value, Word};

/// Where the keys of the sites were found last.
pub type Hints = Vec<u32>;

#[inline(always)]
fn near(hints: &[u32], hint: u32) -> u32 {
    let site = hint as usize;
    if site < hints.len() { hints[site] } else { 0 }
}

#[inline(always)]
fn remember(hints: &mut [u32], hint: u32, index: u32) {
    let site = hint as usize;
    if site < hints.len() {
        hints[site] = index;
    }
}

/// The value of a key of an object; undefined where it lacks the key.
#[inline(always)]
pub fn object_field(
    heap: &Heap,
    hints: &mut [u32],
    object: ObjectId,
    word: Word,
    hint: u32,
) -> Result<Value, Stop> {
    let last = near(hints, hint);
    match heap.field_near(object, word, last)? {
        Some((index, value)) => {
            if index != last {
                remember(hints, hint, index);
            }
            Ok(value)
        }
        None => Ok(Value::Undefined),
    }
}

/// Sets a key of an object.
#[inline(always)]
pub fn set_object_field(
    heap: &mut Heap,
    hints: &mut [u32],
    object: ObjectId,
    word: Word,
    hint: u32,
    value: Value,
) -> Result<(), Stop> {
    let last = near(hints, hint);
    let index = heap.set_field_near(object, word, last, value)?;
    if index != last {
        remember(hints, hint, index);
    }
    Ok(())
}

// What a value that is no object has under a word.
#[inline(never)]
fn other_field(host: &mut Host, value: Value, word: Word) -> Result<Value, Stop> {
    get(host, value, word)
}

fn length_value(length: usize) -> Result<Value, Stop> {
    match i64::try_from(length) {
        Ok(length) => Ok(Value::Whole(length)),
        Err(_) => Err(UNKNOWN),
    }
}

/// Reads a field.
#[inline(always)]
pub fn read(
    host: &mut Host,
    hints: &mut [u32],
    value: Value,
    word: Word,
    hint: u32,
) -> Result<Value, Stop> {
    match value {
        Value::Object(object) => object_field(&host.heap, hints, object, word, hint),
        Value::List(list) => {
            if word == view_word(View::Length) {
                return length_value(host.heap.items(list)?.len());
            }
            other_field(host, value, word)
        }
        Value::Text(text) => {
            if word == view_word(View::Length) {
                return Ok(Value::Whole(i64::from(host.heap.length(text)?)));
            }
            other_field(host, value, word)
        }
        _ => other_field(host, value, word),
    }
}

#[inline(always)]
fn item(heap: &Heap, list: ListId, index: i64) -> Result<Value, Stop> {
    let items = heap.items(list)?;
    match usize::try_from(index) {
        Ok(place) => {
            if place < items.len() {
                Ok(items[place])
            } else {
                Ok(Value::Undefined)
            }
        }
        Err(_) => Ok(Value::Undefined),
    }
}

fn unit(heap: &mut Heap, text: TextId, index: i64) -> Result<Value, Stop> {
    let Ok(place) = u32::try_from(index) else {
        return Ok(Value::Undefined);
    };
    match heap.unit_at(text, place)? {
        Some(unit) => Ok(Value::Text(heap.unit_text(unit)?)),
        None => Ok(Value::Undefined),
    }
}

// What any value has at a computed key.
#[inline(never)]
fn other_field_at(host: &mut Host, value: Value, key: Value) -> Result<Value, Stop> {
    get_at(host, value, key)
}

// What a value has at a key that is a text.
fn named_field(host: &mut Host, value: Value, text: TextId) -> Result<Value, Stop> {
    match value {
        Value::Object(object) => {
            let word = host.heap.word_of(text)?;
            match host.heap.field(object, word)? {
                Some(value) => Ok(value),
                None => Ok(Value::Undefined),
            }
        }
        _ => other_field_at(host, value, Value::Text(text)),
    }
}

/// Reads at a computed key.
#[inline(always)]
pub fn read_at(host: &mut Host, value: Value, key: Value) -> Result<Value, Stop> {
    match key {
        Value::Whole(index) => match value {
            Value::List(list) => item(&host.heap, list, index),
            Value::Text(text) => unit(&mut host.heap, text, index),
            _ => other_field_at(host, value, key),
        },
        Value::Text(text) => named_field(host, value, text),
        _ => other_field_at(host, value, key),
    }
}

// A write to a value that is no object.
#[inline(never)]
fn set_other(host: &mut Host, value: Value, word: Word, to: Value) -> Result<(), Stop> {
    set(host, value, word, to)
}

/// Writes a field.
#[inline(always)]
pub fn write(
    host: &mut Host,
    hints: &mut [u32],
    value: Value,
    word: Word,
    hint: u32,
    to: Value,
) -> Result<(), Stop> {
    match value {
        Value::Object(object) => { set_object_field(&mut host.heap, hints, object, word, hint, to) }
        _ => set_other(host, value, word, to),
    }
}

// A write to any value at a computed key.
#[inline(never)]
fn set_other_at(host: &mut Host, value: Value, key: Value, to: Value) -> Result<(), Stop> {
    set_at(host, value, key, to)
}

// A write to a list at an index.
#[inline(always)]
fn set_item(host: &mut Host, list: ListId, index: i64, to: Value) -> Result<(), Stop> {
    match usize::try_from(index) {
        Ok(place) => host.heap.set_item(list, place, to),
        Err(_) => set_other_at(host, Value::List(list), Value::Whole(index), to),
    }
}

/// Writes at a computed key.
#[inline(always)]
pub fn write_at(host: &mut Host, value: Value, key: Value, to: Value) -> Result<(), Stop> {
    match key {
        Value::Whole(index) => match value {
            Value::List(list) => set_item(host, list, index, to),
            _ => set_other_at(host, value, key, to),
        },
        Value::Text(text) => match value {
            Value::Object(object) => {
                let word = host.heap.word_of(text)?;
                host.heap.set_field(object, word, to)
            }
            _ => set_other_at(host, value, key, to),
        },
        _ => set_other_at(host, value, key, to),
    }
}

//! The fields of a kind by the words of their names, and the name of a kind as a text.

use crate::host::{FieldWords, push};
use script_values::{Heap, Stop, TextId, Word};
use std::alloc::Global;
use tree_core::Units;
use type_defs::{Kind, fields, scalar_count};

/// A field of a node: a scalar by its number among the scalars, or a slot by its number among the
/// slots.
#[derive(Clone, Copy, Debug, PartialEq, Eq)]
pub enum Field {
    Scalar(u8),
    Single(u8),
    List(u8),
}

/// The text of ASCII characters.
pub fn ascii(alloc: Global, heap: &mut Heap, text: &str) -> Result<TextId, Stop> {
    let units = Units::of_bytes(alloc, text.as_bytes())?;
    heap.text(units.get())
}

fn ensure_rows<T: Copy>(rows: &mut Vec<Option<T>>, count: usize) -> Result<(), Stop> {
    for _row in rows.len()..count {
        push(rows, None)?;
    }
    Ok(())
}

/// The name of a kind, which is made once.
pub fn kind_text(
    alloc: Global,
    heap: &mut Heap,
    known: &mut Vec<Option<TextId>>,
    kind: Kind,
) -> Result<TextId, Stop> {
    let row = kind as usize;
    ensure_rows(known, row + 1)?;
    if row < known.len() {
        if let Some(text) = known[row] {
            return Ok(text);
        }
    }
    let text = ascii(alloc, heap, kind.name())?;
    if row < known.len() {
        known[row] = Some(text);
    }
    Ok(text)
}

// The words of the fields of a kind go behind those that are there.
fn add_words(
    alloc: Global,
    heap: &mut Heap,
    words: &mut Vec<Word>,
    kind: Kind,
) -> Result<(), Stop> {
    for field in fields(kind) {
        let name = Units::of_bytes(alloc, field.0.as_bytes())?;
        let word = heap.word(name.get())?;
        push(words, word)?;
    }
    Ok(())
}

// Where the words of the fields of a kind begin.
fn start_of(
    alloc: Global,
    heap: &mut Heap,
    known: &mut FieldWords,
    kind: Kind,
) -> Result<usize, Stop> {
    let row = kind as usize;
    ensure_rows(&mut known.starts, row + 1)?;
    if row < known.starts.len() {
        if let Some(start) = known.starts[row] {
            return Ok(start);
        }
    }
    let start = known.words.len();
    add_words(alloc, heap, &mut known.words, kind)?;
    if row < known.starts.len() {
        known.starts[row] = Some(start);
    }
    Ok(start)
}

// The first of so many words, from `start` on, that is this one.
fn position(words: &[Word], start: usize, count: usize, word: Word) -> Option<usize> {
    for place in 0..count {
        let at = start.saturating_add(place);
        if at < words.len() && words[at] == word {
            return Some(place);
        }
    }
    None
}

fn field_at(kind: Kind, place: usize) -> Option<Field> {
    let all = fields(kind);
    if place >= all.len() {
        return None;
    }
    let shape = all[place].1;
    let scalars = scalar_count(kind);
    if place < scalars {
        return Some(Field::Scalar(u8::try_from(place).ok()?));
    }
    let slot = u8::try_from(place - scalars).ok()?;
    if shape.list {
        return Some(Field::List(slot));
    }
    Some(Field::Single(slot))
}

/// The field of the kind that has this word as its name.
pub fn field_named(
    alloc: Global,
    heap: &mut Heap,
    known: &mut FieldWords,
    kind: Kind,
    word: Word,
) -> Result<Option<Field>, Stop> {
    let start = start_of(alloc, heap, known, kind)?;
    match position(&known.words, start, fields(kind).len(), word) {
        None => Ok(None),
        Some(place) => Ok(field_at(kind, place)),
    }
}

//! What `j` has under a name: a kind or a group, a builder, `match`, and the makers of comments.

ghost use Rattle.std.specs.Prelude.{◌≡◌};

use crate::host::Host;
use crate::names::{View, view_at};
use script_values::{Heap, Native, Stop, Value, Word};
use std::alloc::Global;
use type_defs::{kind_of, type_of};

/// No name of a kind or a builder is longer.
const MAX_NAME: u32 = 64;

// The text of a word, where it is short and of ASCII characters alone.
fn short_name(alloc: Global, heap: &mut Heap, word: Word) -> Result<Option<String>, Stop> {
    let text = heap.word_text(word)?;
    if heap.length(text)? > MAX_NAME {
        return Ok(None);
    }
    heap.flatten(text)?;
    let mut name = String::new(alloc);
    for unit in heap.units(text)? {
        let Ok(byte) = u8::try_from(*unit) else {
            return Ok(None);
        };
        if byte >= 128 {
            return Ok(None);
        }
        name.push(byte as char)?;
    }
    Ok(Some(name))
}

// The name of a kind whose builder has this name: its first letter is small there.
fn kind_name(alloc: Global, name: &str) -> Result<Option<String>, Stop> {
    let mut made = String::new(alloc);
    for character in name.chars() {
        if made.len() > 0 {
            made.push(character)?;
        } else {
            if !character.is_ascii_lowercase() {
                return Ok(None);
            }
            made.push(character.to_ascii_uppercase())?;
        }
    }
    Ok(Some(made))
}

fn named(alloc: Global, name: &str) -> Result<Value, Stop> {
    if let Some(named) = type_of(name) {
        return Ok(Value::Type(named));
    }
    let Some(name) = kind_name(alloc, name)? else {
        return Ok(Value::Undefined);
    };
    match kind_of(name.as_str()) {
        None => Ok(Value::Undefined),
        Some(kind) => Ok(Value::Native(Native::Builder(kind))),
    }
}

fn sought(alloc: Global, heap: &mut Heap, word: Word) -> Result<Value, Stop> {
    match view_at(word) {
        Some(View::Match) => return Ok(Value::Native(Native::Match)),
        Some(View::CommentLine) => return Ok(Value::Native(Native::CommentLine)),
        Some(View::CommentBlock) => return Ok(Value::Native(Native::CommentBlock)),
        _ => {}
    }
    match short_name(alloc, heap, word)? {
        None => Ok(Value::Undefined),
        Some(name) => named(alloc, name.as_str()),
    }
}

fn known_native(host: &Host, word: Word) -> Option<Value> {
    host.known.natives.get(&word.number()).copied()
}

/// What `j` has under a word; undefined where it has nothing there. Each word is sought once.
pub fn native_field(host: &mut Host, word: Word) -> Result<Value, Stop>
    ensures forest { host.new.arena ≡ host.old.arena }
{
    if let Some(value) = known_native(host, word) {
        return Ok(value);
    }
    let value = sought(host.alloc, &mut host.heap, word)?;
    host.known.natives.insert(word.number(), value)?;
    match known_native(host, word) {
        Some(value) => Ok(value),
        None => Err(Stop::NoMemory),
    }
}

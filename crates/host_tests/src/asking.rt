//! Questions to a host in words, and its answers in words.

use arena_trees::load;
use cm_text::Source;
use host_api::{Called, Callee, Step, accept, call, call_native, method, step};
use host_fields::{Host, first_of, get, known_names, native_field, next_of, node_at, set};
use js_source::parse;
use node_arena::{Arena, NodeId, PlaceId};
use script_values::{Heap, ListId, Native, Stop, TextId, Value, Word};
use std::alloc::Global;
use tree_core::Units;
use type_defs::slot_count;

/// A host of a source.
pub fn host_of(alloc: Global, text: &str) -> Result<Host, Stop> {
    let mut bytes = Vec::new(alloc);
    bytes.extend_from_slice(text.as_bytes())?;
    let Ok(source) = Source::new(bytes) else {
        return Err(Stop::NoMemory);
    };
    let Ok(parsed) = parse(alloc, &source) else {
        return Err(Stop::NoMemory);
    };
    let Ok(mut arena) = Arena::new(alloc) else {
        return Err(Stop::NoMemory);
    };
    let Ok(root) = load(alloc, &mut arena, &parsed) else {
        return Err(Stop::NoMemory);
    };
    let names = known_names(alloc)?;
    let mut heap = Heap::new(alloc, &names)?;
    let units = Units::of_bytes(alloc, text.as_bytes())?;
    let file = heap.text(units.get())?;
    Ok(Host::new(alloc, arena, root, heap, file))
}

fn text_value(host: &mut Host, text: &str) -> Result<TextId, Stop> {
    let units = Units::of_bytes(host.alloc, text.as_bytes())?;
    host.heap.text(units.get())
}

/// The word that is a text.
pub fn word_of(host: &mut Host, text: &str) -> Result<Word, Stop> {
    let text = text_value(host, text)?;
    host.heap.word_of(text)
}

// The place of this number over all places of a node.
fn child(arena: &Arena, node: NodeId, number: u32) -> Result<PlaceId, Stop> {
    let mut left = number;
    for slot in 0..4 {
        let mut at = first_of(arena, node, slot)?;
        for _turn in 0..arena.places() {
            let Some(place) = at else {
                break;
            };
            if left == 0 {
                return Ok(place);
            }
            left -= 1;
            at = next_of(arena, place)?;
        }
    }
    Err(Stop::NoMemory)
}

// The place at an address, one digit for each level.
fn place_by(arena: &Arena, address: &str) -> Result<PlaceId, Stop> {
    let mut place = arena.root();
    for digit in address.bytes() {
        if digit < b'0' || digit > b'9' {
            continue;
        }
        let Some(node) = node_at(arena, place)? else {
            return Err(Stop::NoMemory);
        };
        place = child(arena, node, u32::from(digit - b'0'))?;
    }
    Ok(place)
}

// A node list in words: its slot, and the address of its node.
fn list_by(host: &Host, word: &str) -> Result<Value, Stop> {
    let Some((slot, address)) = word.split_once(':') else {
        return Err(Stop::NoMemory);
    };
    let Ok(slot) = slot.parse::<u8>() else {
        return Err(Stop::NoMemory);
    };
    match node_at(&host.arena, place_by(&host.arena, address)?)? {
        None => Err(Stop::NoMemory),
        Some(node) => Ok(Value::NodeList(node, slot)),
    }
}

fn node_by(host: &Host, address: &str) -> Result<Value, Stop> {
    match node_at(&host.arena, place_by(&host.arena, address)?)? {
        None => Ok(Value::Null),
        Some(node) => Ok(Value::Node(node)),
    }
}

// A comment object whose text is `note`, before its node.
fn comment(host: &mut Host, fuel: &mut u64) -> Result<Value, Stop> {
    let text = Value::Text(text_value(host, "note")?);
    let arguments = [text, Value::Truth(true), Value::Truth(false)];
    match call_native(host, Native::CommentLine, &arguments, fuel)? {
        Called::Value(value) => Ok(value),
        Called::Walk => Err(Stop::NoMemory),
    }
}

fn root_collection(host: &mut Host, fuel: &mut u64) -> Result<Value, Stop> {
    let file = Value::Text(host.text);
    native_value(host, Native::Jscodeshift, file, fuel)
}

fn native_value(
    host: &mut Host,
    native: Native,
    argument: Value,
    fuel: &mut u64,
) -> Result<Value, Stop> {
    match call_native(host, native, &[argument], fuel)? {
        Called::Value(value) => Ok(value),
        Called::Walk => Err(Stop::NoMemory),
    }
}

// The collection of no path.
fn no_paths(host: &mut Host, fuel: &mut u64) -> Result<Value, Stop> {
    let list = Value::List(host.heap.list(&[])?);
    native_value(host, Native::Jscodeshift, list, fuel)
}

// The collection of the path of the first statement.
fn inner_path(host: &mut Host, fuel: &mut u64) -> Result<Value, Stop> {
    let path = Value::Path(place_by(&host.arena, "0")?);
    native_value(host, Native::Jscodeshift, path, fuel)
}

// A filter of 65 levels.
fn deep_filter(host: &mut Host) -> Result<Value, Stop> {
    let key = word_of(host, "body")?;
    let mut filter = Value::Null;
    for _level in 0..65 {
        let object = host.heap.object()?;
        host.heap.set_field(object, key, filter)?;
        filter = Value::Object(object);
    }
    Ok(filter)
}

// A filter with a filter in it.
fn nested_filter(host: &mut Host) -> Result<Value, Stop> {
    let name = Value::Text(text_value(host, "f")?);
    let name_key = word_of(host, "name")?;
    let inner = host.heap.object()?;
    host.heap.set_field(inner, name_key, name)?;
    let key = word_of(host, "callee")?;
    let object = host.heap.object()?;
    host.heap.set_field(object, key, Value::Object(inner))?;
    Ok(Value::Object(object))
}

// An object with one key.
fn object_with(host: &mut Host, word: &str) -> Result<Value, Stop> {
    let object = host.heap.object()?;
    if let Some((key, value)) = word.split_once('=') {
        let key = word_of(host, key)?;
        let value = plain_value(host, value)?;
        host.heap.set_field(object, key, value)?;
    }
    Ok(Value::Object(object))
}

// A list of one item, or of none.
fn list_with(host: &mut Host, word: &str) -> Result<Value, Stop> {
    if word.is_empty() {
        return Ok(Value::List(host.heap.list(&[])?));
    }
    let item = plain_value(host, word)?;
    Ok(Value::List(host.heap.list(&[item])?))
}

fn named_value(host: &mut Host, word: &str) -> Result<Value, Stop> {
    let mut fuel = 1000;
    match word {
        "undefined" => Ok(Value::Undefined),
        "null" => Ok(Value::Null),
        "true" => Ok(Value::Truth(true)),
        "false" => Ok(Value::Truth(false)),
        "j" => Ok(Value::Native(Native::Jscodeshift)),
        "source" => Ok(Value::Text(host.text)),
        "root" => root_collection(host, &mut fuel),
        "comment" => comment(host, &mut fuel),
        "none" => no_paths(host, &mut fuel),
        "inner" => inner_path(host, &mut fuel),
        "deep" => deep_filter(host),
        "nested" => nested_filter(host),
        "scope" => {
            let key = word_of(host, "scope")?;
            let path = Value::Path(host.root);
            get(host, path, key)
        }
        _ => {
            let key = word_of(host, word)?;
            native_field(host, key)
        }
    }
}

// A value in words that is made of no other.
fn plain_value(host: &mut Host, word: &str) -> Result<Value, Stop> {
    if let Ok(number) = word.parse::<i64>() {
        return Ok(Value::Whole(number));
    }
    if let Some(text) = word.strip_prefix('\'') {
        return Ok(Value::Text(text_value(host, text)?));
    }
    if let Some(address) = word.strip_prefix('@') {
        return node_by(host, address);
    }
    if let Some(address) = word.strip_prefix('/') {
        return Ok(Value::Path(place_by(&host.arena, address)?));
    }
    named_value(host, word)
}

/// A value in words: a number, `'text`, `@` and a node's address, `/` and a path's, `*SLOT:ADDRESS` for
/// a node list, `[item` for a list of one item, `{key=value` for an object of one key, or a name.
pub fn value_of(host: &mut Host, word: &str) -> Result<Value, Stop> {
    if let Some(list) = word.strip_prefix('*') {
        return list_by(host, list);
    }
    if let Some(item) = word.strip_prefix('[') {
        return list_with(host, item);
    }
    if let Some(key) = word.strip_prefix('{') {
        return object_with(host, key);
    }
    plain_value(host, word)
}

fn values_of(host: &mut Host, words: &[&str]) -> Result<Vec<Value>, Stop> {
    let mut values = Vec::new(host.alloc);
    for word in words {
        values.push(value_of(host, word)?)?;
    }
    Ok(values)
}

// Goes on with a walk whose function answers these words in turn, and then undefined.
fn run_walk(host: &mut Host, answers: &[&str], fuel: &mut u64) -> Result<Value, Stop> {
    for turn in 0..1000usize {
        match step(host, fuel)? {
            Step::Done(value) => return Ok(value),
            Step::Call { .. } => {
                let answer = match answers.get(turn) {
                    Some(word) => value_of(host, word)?,
                    None => Value::Undefined,
                };
                accept(host, answer, fuel)?;
            }
        }
    }
    Err(Stop::Spent)
}

fn finished(
    host: &mut Host,
    called: Called,
    answers: &[&str],
    fuel: &mut u64,
) -> Result<Value, Stop> {
    match called {
        Called::Value(value) => Ok(value),
        Called::Walk => run_walk(host, answers, fuel),
    }
}

fn call_value(
    host: &mut Host,
    value: Value,
    arguments: &[Value],
    answers: &[&str],
    fuel: &mut u64,
) -> Result<Value, Stop> {
    let Value::Native(native) = value else {
        return Ok(value);
    };
    let called = call_native(host, native, arguments, fuel)?;
    finished(host, called, answers, fuel)
}

fn call_named(
    host: &mut Host,
    on: Value,
    key: Word,
    arguments: &[Value],
    answers: &[&str],
    fuel: &mut u64,
) -> Result<Value, Stop> {
    let receiver = on;
    match method(host, on, key)? {
        None => Err(Stop::Fault(script_values::Fault::NoMethod)),
        Some(Callee::Value(value)) => call_value(host, value, arguments, answers, fuel),
        Some(Callee::Method(method)) => {
            let called = call(host, receiver, method, arguments, fuel)?;
            finished(host, called, answers, fuel)
        }
    }
}

fn set_and_get(host: &mut Host, on: Value, key: Word, to: Value) -> Result<Value, Stop> {
    let again = on;
    let same_key = key;
    set(host, on, key, to)?;
    get(host, again, same_key)
}

// Does what a line says.
fn done(host: &mut Host, words: &[&str], answers: &[&str], fuel: &mut u64) -> Result<Value, Stop> {
    if words.len() < 3 {
        return Err(Stop::NoMemory);
    }
    let on = value_of(host, words[1])?;
    if words[0] == "invoke" {
        let arguments = values_of(host, &words[2..])?;
        return call_value(host, on, &arguments, answers, fuel);
    }
    let key = word_of(host, words[2])?;
    let arguments = values_of(host, &words[3..])?;
    match words[0] {
        "get" => get(host, on, key),
        "call" => call_named(host, on, key, &arguments, answers, fuel),
        "set" => {
            let to = match arguments.first() {
                Some(value) => *value,
                None => Value::Undefined,
            };
            set_and_get(host, on, key, to)
        }
        _ => Err(Stop::NoMemory),
    }
}

fn kind_at_place(host: &Host, place: PlaceId) -> &'static str {
    match node_at(&host.arena, place) {
        Ok(Some(node)) => kind_name(host, node),
        _ => "none",
    }
}

fn kind_name(host: &Host, node: NodeId) -> &'static str {
    match host_fields::kind_at(&host.arena, node) {
        Ok(kind) => kind.name(),
        Err(_) => "none",
    }
}

fn units_text(alloc: Global, units: &[u16]) -> Result<String, Stop> {
    let mut text = String::new(alloc);
    for unit in units {
        match u8::try_from(*unit) {
            Ok(byte) => text.push(byte as char)?,
            Err(_) => text.push('?')?,
        }
    }
    Ok(text)
}

fn items_text(host: &mut Host, list: ListId) -> Result<String, Stop> {
    let mut text = String::new(host.alloc);
    text.push('[')?;
    for index in 0..host.heap.items(list)?.len() {
        let items = host.heap.items(list)?;
        if index >= items.len() {
            return Err(Stop::NoMemory);
        }
        let item = items[index];
        let spelled = plain_text(host, item)?;
        text.push_str(spelled.as_str())?;
        text.push(' ')?;
    }
    text.push(']')?;
    Ok(text)
}

fn paths_text(host: &Host, paths: &[PlaceId]) -> Result<String, Stop> {
    let mut text = String::new(host.alloc);
    text.push('<')?;
    for place in paths.iter().copied() {
        text.push_str(kind_at_place(host, place))?;
        text.push(' ')?;
    }
    text.push('>')?;
    Ok(text)
}

// A value that is no list in words.
fn plain_text(host: &mut Host, value: Value) -> Result<String, Stop> {
    let alloc = host.alloc;
    match value {
        Value::Undefined => Ok(String::from_str(alloc, "undefined")?),
        Value::Null => Ok(String::from_str(alloc, "null")?),
        Value::Truth(truth) => Ok(format!(in alloc; "{truth}")?),
        Value::Whole(number) => Ok(format!(in alloc; "{number}")?),
        Value::Text(text) => {
            host.heap.flatten(text)?;
            units_text(alloc, host.heap.units(text)?)
        }
        Value::Node(node) => Ok(String::from_str(alloc, kind_name(host, node))?),
        Value::Path(place) => Ok(format!(in alloc; "/{}", kind_at_place(host, place))?),
        Value::Scope(scope) => Ok(format!(in alloc; "scope {}", kind_name(host, scope.owner))?),
        Value::NodeList(_, slot) => Ok(format!(in alloc; "*{slot}")?),
        Value::Printed(number) => Ok(format!(in alloc; "print {number}")?),
        Value::Object(_) => Ok(String::from_str(alloc, "object")?),
        Value::List(_) => Ok(String::from_str(alloc, "list")?),
        Value::Collection(collection) => paths_text(host, host.heap.paths(collection)?.as_slice()),
        Value::Function(_) | Value::Native(_) | Value::Type(_) => {
            Ok(String::from_str(alloc, "function")?)
        }
    }
}

fn value_text(host: &mut Host, value: Value) -> Result<String, Stop> {
    match value {
        Value::List(list) => items_text(host, list),
        _ => plain_text(host, value),
    }
}

/// What a line asks, answered in words: the units that were taken, and the value or the fault. The
/// words behind `|` are what the function of a walk answers.
pub fn answer(host: &mut Host, line: &str, most: u64) -> Result<String, Stop> {
    let alloc = host.alloc;
    let mut fuel = most;
    let (asked, answers) = match line.split_once('|') {
        Some((asked, answers)) => (asked, answers),
        None => (line, ""),
    };
    let asked: Vec<&str> = asked.split_whitespace().collect(alloc)?;
    let answers: Vec<&str> = answers.split_whitespace().collect(alloc)?;
    let text = match done(host, &asked, &answers, &mut fuel) {
        Ok(value) => value_text(host, value)?,
        Err(Stop::Fault(fault)) => String::from_str(alloc, fault.name())?,
        Err(Stop::Spent) => String::from_str(alloc, "Spent")?,
        Err(Stop::NoMemory) => String::from_str(alloc, "NoMemory")?,
    };
    let used = most.saturating_sub(fuel);
    Ok(format!(in alloc; "{used} {}", text.as_str())?)
}

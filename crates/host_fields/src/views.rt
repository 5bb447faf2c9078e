//! Reading: what each value has under a key.

ghost use Rattle.std.specs.Prelude.{◌≡◌, Err};

use crate::door::{known_node, known_place};
use crate::host::Host;
use crate::keys::{key_word, read_index};
use crate::lists::{list_item, list_length, place_value};
use crate::names::{View, view_at};
use crate::natives::native_field;
use crate::reading::node_field;
use node_arena::PlaceId;
use scope_lookup::{Scope, outer, scope_of};
use script_values::{Fault, ListId, Native, ObjectId, Stop, TextId, Value, Word};
use type_defs::Kind;

fn scope_value(scope: Option<Scope>) -> Value {
    match scope {
        None => Value::Null,
        Some(scope) => Value::Scope(scope),
    }
}

fn path_value(place: Option<PlaceId>) -> Value {
    match place {
        None => Value::Null,
        Some(place) => Value::Path(place),
    }
}

fn path_field(host: &Host, place: PlaceId, word: Word) -> Result<Value, Stop> {
    let place = known_place(&host.arena, place)?;
    match view_at(word) {
        Some(View::Node) | Some(View::Value) => place_value(&host.arena, place),
        Some(View::Parent) => Ok(path_value(ast_paths::parent(&host.arena, place))),
        Some(View::Scope) => Ok(scope_value(scope_of(&host.arena, place))),
        _ => Ok(Value::Undefined),
    }
}

fn scope_field(host: &Host, scope: Scope, word: Word) -> Result<Value, Stop> {
    let owner = known_node(&host.arena, scope.owner)?;
    let scope = Scope {
        owner,
        name: scope.name,
    };
    match view_at(word) {
        Some(View::IsGlobal) => Ok(Value::Truth(host.arena.kind(owner) == Kind::Program)),
        Some(View::Parent) => Ok(scope_value(outer(&host.arena, &scope))),
        Some(View::Path) => Ok(path_value(host.arena.place_of(owner))),
        Some(View::Node) => Ok(Value::Node(owner)),
        _ => Ok(Value::Undefined),
    }
}

fn count_value(count: usize) -> Result<Value, Stop> {
    match i64::try_from(count) {
        Ok(count) => Ok(Value::Whole(count)),
        Err(_) => Err(Stop::NoMemory),
    }
}

fn list_at(host: &Host, list: ListId, index: i64) -> Result<Value, Stop> {
    let items = host.heap.items(list)?;
    let Ok(index) = usize::try_from(index) else {
        return Ok(Value::Undefined);
    };
    if index < items.len() {
        return Ok(items[index]);
    }
    Ok(Value::Undefined)
}

fn text_at(host: &mut Host, text: TextId, index: i64) -> Result<Value, Stop>
    ensures forest { host.new.arena ≡ host.old.arena }
{
    let Ok(index) = u32::try_from(index) else {
        return Ok(Value::Undefined);
    };
    match host.heap.unit_at(text, index)? {
        None => Ok(Value::Undefined),
        Some(unit) => Ok(Value::Text(host.heap.unit_text(unit)?)),
    }
}

// What stands at an index of a list, a node list or a text.
fn item_at(host: &mut Host, value: Value, index: i64) -> Result<Value, Stop>
    ensures forest { host.new.arena ≡ host.old.arena }
{
    match value {
        Value::List(list) => list_at(host, list, index),
        Value::Text(text) => text_at(host, text, index),
        Value::NodeList(node, slot) => list_item(host, node, slot, index),
        _ => Ok(Value::Undefined),
    }
}

/// How many items a list, a node list or a collection has, or code units a text.
pub fn length_of(host: &mut Host, value: Value) -> Result<usize, Stop>
    ensures forest { host.new.arena ≡ host.old.arena }
{
    match value {
        Value::List(list) => Ok(host.heap.items(list)?.len()),
        Value::Text(text) => Ok(host.heap.length(text)? as usize),
        Value::NodeList(node, slot) => {
            Ok(list_length(&host.arena, &mut host.known.lists, node, slot)? as usize)
        }
        Value::Collection(collection) => Ok(host.heap.paths(collection)?.len()),
        _ => Ok(0),
    }
}

fn sized_field(host: &mut Host, value: Value, word: Word) -> Result<Value, Stop>
    ensures forest { host.new.arena ≡ host.old.arena }
{
    if view_at(word) == Some(View::Length) {
        let length = length_of(host, value)?;
        return count_value(length);
    }
    match read_index(&mut host.heap, word)? {
        None => Ok(Value::Undefined),
        Some(index) => item_at(host, value, index),
    }
}

fn collection_field(host: &mut Host, value: Value, word: Word) -> Result<Value, Stop>
    ensures forest { host.new.arena ≡ host.old.arena }
{
    if view_at(word) == Some(View::Length) {
        let length = length_of(host, value)?;
        return count_value(length);
    }
    Ok(Value::Undefined)
}

fn object_field(host: &Host, object: ObjectId, word: Word) -> Result<Value, Stop> {
    match host.heap.field(object, word)? {
        Some(value) => Ok(value),
        None => Ok(Value::Undefined),
    }
}

// Of the native functions `j` alone has fields.
fn function_field(host: &mut Host, native: Native, word: Word) -> Result<Value, Stop>
    ensures forest { host.new.arena ≡ host.old.arena }
{
    match native {
        Native::Jscodeshift => native_field(host, word),
        _ => Ok(Value::Undefined),
    }
}

/// What a value has under a word. An absent field is undefined; NoField comes exactly of undefined
/// and null.
pub fn get(host: &mut Host, value: Value, word: Word) -> Result<Value, Stop>
    ensures forest { host.new.arena ≡ host.old.arena }
    ensures undefined { value ≡ Value.Undefined → result ≡ Err (Stop.Fault Fault.NoField) }
    ensures null { value ≡ Value.Null → result ≡ Err (Stop.Fault Fault.NoField) }
{
    match value {
        Value::Undefined | Value::Null => Err(Stop::Fault(Fault::NoField)),
        Value::Object(object) => object_field(host, object, word),
        Value::List(_) | Value::Text(_) | Value::NodeList(..) => sized_field(host, value, word),
        Value::Collection(_) => collection_field(host, value, word),
        Value::Node(node) => node_field(host, node, word),
        Value::Path(place) => path_field(host, place, word),
        Value::Scope(scope) => scope_field(host, scope, word),
        Value::Native(native) => function_field(host, native, word),
        Value::Truth(_)
        | Value::Whole(_)
        | Value::Function(_)
        | Value::Type(_)
        | Value::Printed(_) => Ok(Value::Undefined),
    }
}

fn named_at(host: &mut Host, value: Value, key: Value) -> Result<Value, Stop>
    ensures forest { host.new.arena ≡ host.old.arena }
{
    let word = key_word(host, key)?;
    get(host, value, word)
}

// What a list, a node list or a text has under a key.
fn indexed_at(host: &mut Host, value: Value, key: Value) -> Result<Value, Stop>
    ensures forest { host.new.arena ≡ host.old.arena }
{
    match key {
        Value::Whole(index) => item_at(host, value, index),
        _ => named_at(host, value, key),
    }
}

/// What a value has under a key that was computed. A key that is neither a text nor a number is
/// BadOperand, after NoField of undefined and null.
pub fn get_at(host: &mut Host, value: Value, key: Value) -> Result<Value, Stop>
    ensures forest { host.new.arena ≡ host.old.arena }
    ensures undefined { value ≡ Value.Undefined → result ≡ Err (Stop.Fault Fault.NoField) }
    ensures null { value ≡ Value.Null → result ≡ Err (Stop.Fault Fault.NoField) }
{
    match value {
        Value::Null | Value::Undefined => Err(Stop::Fault(Fault::NoField)),
        Value::List(_) | Value::Text(_) | Value::NodeList(..) => indexed_at(host, value, key),
        _ => named_at(host, value, key),
    }
}

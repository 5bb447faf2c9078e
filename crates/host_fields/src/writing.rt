//! Setting: what a write does to each value.

ghost use Rattle.std.specs.Prelude.{◌≡◌, ◌≤◌, length, true, OnOk};

use crate::arguments::{Item, item_of, list_of_items};
use crate::comments::set_comments;
use crate::door::{first_of, kind_at, known_node, known_place, next_of};
use crate::host::{Host, push};
use crate::keys::{key_word, written_index};
use crate::kinds::{Field, field_named};
use crate::list_changes::{clear_place, unlink_place};
use crate::lists::{forget_list, list_length, list_place};
use crate::names::{View, view_at};
use crate::scalar_writes::set_scalar;
use crate::settling::{insert_item, remember_end};
use ast_paths::PathFault;
use node_arena::{NodeId, PlaceId};
use script_values::{Fault, ListId, Stop, Value, Word};

const NO_WRITE: Stop = Stop::Fault(Fault::NoField);

const NO_INDEX: Stop = Stop::Fault(Fault::BadIndex);

/// The stop of a change at a path that is refused.
pub fn path_stop(fault: PathFault) -> Stop {
    match fault {
        PathFault::Full => Stop::Fault(Fault::NodesFull),
        PathFault::NotInList => Stop::Fault(Fault::NotInList),
        PathFault::NoField => Stop::Fault(Fault::NoField),
        PathFault::NoMemory => Stop::NoMemory,
    }
}

// A node into a place, settled; nothing clears it.
fn put_item(host: &mut Host, place: PlaceId, item: Item) -> Result<(), Stop>
    ensures nodes { length host.old.arena.forest.nodes ≤ length host.new.arena.forest.nodes }
    ensures places { length host.old.arena.forest.places ≤ length host.new.arena.forest.places }
    ensures changed { OnOk result (host.new.changed ≡ true) }
{
    let place = known_place(&host.arena, place)?;
    match item {
        None => clear_place(&mut host.arena, place),
        Some(node) => {
            let node = known_node(&host.arena, node)?;
            match ast_paths::replace(host.alloc, &mut host.arena, place, &[node]) {
                Ok(()) => {}
                Err(fault) => return Err(path_stop(fault)),
            }
        }
    }
    host.changed = true;
    Ok(())
}

fn set_single(host: &mut Host, node: NodeId, slot: u8, to: Value) -> Result<(), Stop>
    ensures nodes { length host.old.arena.forest.nodes ≤ length host.new.arena.forest.nodes }
    ensures places { length host.old.arena.forest.places ≤ length host.new.arena.forest.places }
    ensures changed { OnOk result (host.new.changed ≡ true) }
{
    let item = item_of(to)?;
    match first_of(&host.arena, node, slot)? {
        None => Err(Stop::NoMemory),
        Some(place) => put_item(host, place, item),
    }
}

// The places of a list, in order.
fn places_of(host: &Host, node: NodeId, slot: u8) -> Result<Vec<PlaceId>, Stop> {
    let mut places = Vec::new(host.alloc);
    let mut at = first_of(&host.arena, node, slot)?;
    for _turn in 0..host.arena.places() {
        let Some(place) = at else {
            return Ok(places);
        };
        push(&mut places, place)?;
        at = next_of(&host.arena, place)?;
    }
    Ok(places)
}

// Takes all places out of a list.
fn empty_list(host: &mut Host, node: NodeId, slot: u8) -> Result<(), Stop>
    ensures nodes { length host.old.arena.forest.nodes ≤ length host.new.arena.forest.nodes }
    ensures places { length host.old.arena.forest.places ≤ length host.new.arena.forest.places }
{
    for place in places_of(host, node, slot)? {
        let place = known_place(&host.arena, place)?;
        unlink_place(&mut host.arena, place)?;
        host.changed = true;
    }
    forget_list(&mut host.known.lists, node, slot);
    Ok(())
}

// All old items go out, and then the new ones in, one by one.
fn set_list(host: &mut Host, node: NodeId, slot: u8, to: Value) -> Result<(), Stop>
    ensures nodes { length host.old.arena.forest.nodes ≤ length host.new.arena.forest.nodes }
    ensures places { length host.old.arena.forest.places ≤ length host.new.arena.forest.places }
{
    let items = list_of_items(host, to)?;
    empty_list(host, node, slot)?;
    let mut last = None;
    for item in items.iter().copied() {
        last = Some(insert_item(host, node, slot, last, item)?);
    }
    Ok(())
}

fn set_node_field(host: &mut Host, node: NodeId, word: Word, to: Value) -> Result<(), Stop>
    ensures nodes { length host.old.arena.forest.nodes ≤ length host.new.arena.forest.nodes }
    ensures places { length host.old.arena.forest.places ≤ length host.new.arena.forest.places }
{
    let kind = kind_at(&host.arena, node)?;
    if view_at(word) == Some(View::Comments) {
        return set_comments(host, node, to);
    }
    let alloc = host.alloc;
    match field_named(alloc, &mut host.heap, &mut host.known.fields, kind, word)? {
        None => Err(NO_WRITE),
        Some(Field::Scalar(index)) => set_scalar(host, node, kind, index, to),
        Some(Field::Single(slot)) => set_single(host, node, slot, to),
        Some(Field::List(slot)) => set_list(host, node, slot, to),
    }
}

fn set_list_item(host: &mut Host, list: ListId, index: i64, to: Value) -> Result<(), Stop>
    ensures forest { host.new.arena ≡ host.old.arena }
{
    let Ok(index) = usize::try_from(index) else {
        return Err(NO_INDEX);
    };
    host.heap.set_item(list, index, to)
}

// The index of a node list that is written: at most its length.
fn place_index(host: &mut Host, node: NodeId, slot: u8, index: i64) -> Result<u32, Stop>
    ensures forest { host.new.arena ≡ host.old.arena }
{
    let Ok(index) = u32::try_from(index) else {
        return Err(NO_INDEX);
    };
    if index > list_length(&host.arena, &mut host.known.lists, node, slot)? {
        return Err(NO_INDEX);
    }
    Ok(index)
}

// The place before an index of a list.
fn place_before(
    host: &mut Host,
    node: NodeId,
    slot: u8,
    index: u32,
) -> Result<Option<PlaceId>, Stop>
    ensures forest { host.new.arena ≡ host.old.arena }
{
    if index == 0 {
        return Ok(None);
    }
    list_place(&host.arena, &mut host.known.lists, node, slot, index - 1)
}

fn set_place(host: &mut Host, node: NodeId, slot: u8, index: i64, to: Value) -> Result<(), Stop>
    ensures nodes { length host.old.arena.forest.nodes ≤ length host.new.arena.forest.nodes }
    ensures places { length host.old.arena.forest.places ≤ length host.new.arena.forest.places }
{
    let index = place_index(host, node, slot, index)?;
    let item = item_of(to)?;
    match list_place(&host.arena, &mut host.known.lists, node, slot, index)? {
        Some(place) => put_item(host, place, item),
        None => {
            let behind = place_before(host, node, slot, index)?;
            let place = insert_item(host, node, slot, behind, item)?;
            let length = index.saturating_add(1);
            remember_end(host, node, slot, Some(place), index, length)
        }
    }
}

fn set_at_index(host: &mut Host, value: Value, index: i64, to: Value) -> Result<(), Stop>
    ensures nodes { length host.old.arena.forest.nodes ≤ length host.new.arena.forest.nodes }
    ensures places { length host.old.arena.forest.places ≤ length host.new.arena.forest.places }
{
    match value {
        Value::List(list) => set_list_item(host, list, index, to),
        Value::NodeList(node, slot) => set_place(host, node, slot, index, to),
        _ => Err(NO_WRITE),
    }
}

/// Sets what a value has under a word. NoField: the value takes no such write. BadIndex: a list or
/// a node list is written beyond its length. BadOperand and BuilderType: the place or the scalar
/// does not take what is given. NodesFull: settling would pass the arena's limits.
pub fn set(host: &mut Host, value: Value, word: Word, to: Value) -> Result<(), Stop>
    ensures nodes { length host.old.arena.forest.nodes ≤ length host.new.arena.forest.nodes }
    ensures places { length host.old.arena.forest.places ≤ length host.new.arena.forest.places }
{
    match value {
        Value::Object(object) => host.heap.set_field(object, word, to),
        Value::Node(node) => set_node_field(host, node, word, to),
        Value::List(_) | Value::NodeList(..) => match written_index(&mut host.heap, word)? {
            None => Err(NO_WRITE),
            Some(index) => set_at_index(host, value, index, to),
        },
        _ => Err(NO_WRITE),
    }
}

fn set_named(host: &mut Host, value: Value, key: Value, to: Value) -> Result<(), Stop>
    ensures nodes { length host.old.arena.forest.nodes ≤ length host.new.arena.forest.nodes }
    ensures places { length host.old.arena.forest.places ≤ length host.new.arena.forest.places }
{
    let word = key_word(host, key)?;
    set(host, value, word, to)
}

// Sets what a list or a node list has under a key.
fn set_indexed(host: &mut Host, value: Value, key: Value, to: Value) -> Result<(), Stop>
    ensures nodes { length host.old.arena.forest.nodes ≤ length host.new.arena.forest.nodes }
    ensures places { length host.old.arena.forest.places ≤ length host.new.arena.forest.places }
{
    match key {
        Value::Whole(index) => set_at_index(host, value, index, to),
        _ => set_named(host, value, key, to),
    }
}

/// Sets what a value has under a key that was computed. A key that is neither a text nor a number
/// is BadOperand, after NoField of undefined and null.
pub fn set_at(host: &mut Host, value: Value, key: Value, to: Value) -> Result<(), Stop>
    ensures nodes { length host.old.arena.forest.nodes ≤ length host.new.arena.forest.nodes }
    ensures places { length host.old.arena.forest.places ≤ length host.new.arena.forest.places }
{
    match value {
        Value::Undefined | Value::Null => Err(NO_WRITE),
        Value::List(_) | Value::NodeList(..) => set_indexed(host, value, key, to),
        _ => set_named(host, value, key, to),
    }
}

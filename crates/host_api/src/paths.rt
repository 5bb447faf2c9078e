//! Methods of paths, and `get` of a collection.

ghost use Rattle.std.specs.Prelude.{◌≤◌, ◌≡◌, length};

use crate::arguments::{BAD_OPERAND, argument};
use crate::changes::change_at;
use crate::collections::{path_at, path_count};
use host_fields::{
    Change, Field, Host, PathMethod, field_named, first_of, kind_at, list_place, node_at, nodes_of,
    push,
};
use node_arena::PlaceId;
use script_values::{CollectionId, Fault, Stop, Value, Word, take};

// The place of a field of the node that stands in a place; of a list, the one at the index.
fn field_place(
    host: &mut Host,
    place: PlaceId,
    word: Word,
    index: i64,
) -> Result<Option<PlaceId>, Stop>
    ensures forest { host.new.arena ≡ host.old.arena }
{
    let Some(node) = node_at(&host.arena, place)? else {
        return Ok(None);
    };
    let kind = kind_at(&host.arena, node)?;
    let alloc = host.alloc;
    match field_named(alloc, &mut host.heap, &mut host.known.fields, kind, word)? {
        None | Some(Field::Scalar(_)) => Err(Stop::Fault(Fault::NoField)),
        Some(Field::Single(slot)) => first_of(&host.arena, node, slot),
        Some(Field::List(slot)) => match u32::try_from(index) {
            Err(_) => Ok(None),
            Ok(index) => list_place(&host.arena, &mut host.known.lists, node, slot, index),
        },
    }
}

fn path_value(place: Option<PlaceId>) -> Value {
    match place {
        None => Value::Undefined,
        Some(place) => Value::Path(place),
    }
}

fn index_of(value: Value) -> Result<i64, Stop> {
    match value {
        Value::Undefined => Ok(0),
        Value::Whole(index) => Ok(index),
        _ => Err(BAD_OPERAND),
    }
}

fn get(host: &mut Host, on: PlaceId, arguments: &[Value]) -> Result<Value, Stop>
    ensures forest { host.new.arena ≡ host.old.arena }
{
    let Value::Text(name) = argument(arguments, 0) else {
        return Err(BAD_OPERAND);
    };
    let index = index_of(argument(arguments, 1))?;
    let word = host.heap.word_of(name)?;
    Ok(path_value(field_place(host, on, word, index)?))
}

fn change(
    host: &mut Host,
    on: PlaceId,
    arguments: &[Value],
    change: Change,
    fuel: &mut u64,
) -> Result<Value, Stop>
    ensures fuel { fuel.new ≤ fuel.old }
    ensures nodes { length host.old.arena.forest.nodes ≤ length host.new.arena.forest.nodes }
    ensures places { length host.old.arena.forest.places ≤ length host.new.arena.forest.places }
{
    let nodes = nodes_of(host, argument(arguments, 0))?;
    change_at(host, on, &nodes, change, fuel)?;
    Ok(Value::Undefined)
}

fn prune(host: &mut Host, on: PlaceId, fuel: &mut u64) -> Result<Value, Stop>
    ensures fuel { fuel.new ≤ fuel.old }
    ensures nodes { length host.old.arena.forest.nodes ≤ length host.new.arena.forest.nodes }
    ensures places { length host.old.arena.forest.places ≤ length host.new.arena.forest.places }
{
    change_at(host, on, &[], Change::Replace, fuel)?;
    Ok(Value::Undefined)
}

/// Calls a method of a path.
pub fn call_path(
    host: &mut Host,
    on: PlaceId,
    method: PathMethod,
    arguments: &[Value],
    fuel: &mut u64,
) -> Result<Value, Stop>
    ensures fuel { fuel.new ≤ fuel.old }
    ensures nodes { length host.old.arena.forest.nodes ≤ length host.new.arena.forest.nodes }
    ensures places { length host.old.arena.forest.places ≤ length host.new.arena.forest.places }
{
    match method {
        PathMethod::Get => get(host, on, arguments),
        PathMethod::Replace => change(host, on, arguments, Change::Replace, fuel),
        PathMethod::InsertBefore => change(host, on, arguments, Change::Before, fuel),
        PathMethod::InsertAfter => change(host, on, arguments, Change::After, fuel),
        PathMethod::Prune => prune(host, on, fuel),
    }
}

/// A step of `get`: a field, and the index in its list where one is told.
#[derive(Clone, Copy, Debug)]
struct Hop {
    field: Word,
    index: i64,
    open: bool,
}

fn add_hop(host: &mut Host, hops: &mut Vec<Hop>, value: Value) -> Result<(), Stop>
    ensures forest { host.new.arena ≡ host.old.arena }
{
    match value {
        Value::Text(name) => {
            let field = host.heap.word_of(name)?;
            push(
                hops,
                Hop {
                    field,
                    index: 0,
                    open: true,
                },
            )
        }
        Value::Whole(index) => close_hop(hops, index),
        _ => Err(BAD_OPERAND),
    }
}

// The index of the last field, which has none so far.
fn close_hop(hops: &mut Vec<Hop>, index: i64) -> Result<(), Stop> {
    let Some(last) = hops.pop() else {
        return Err(BAD_OPERAND);
    };
    if !last.open {
        return Err(BAD_OPERAND);
    }
    push(
        hops,
        Hop {
            field: last.field,
            index,
            open: false,
        },
    )
}

fn hops_of(host: &mut Host, arguments: &[Value]) -> Result<Vec<Hop>, Stop>
    ensures forest { host.new.arena ≡ host.old.arena }
{
    let mut hops = Vec::new(host.alloc);
    for value in arguments.iter().copied() {
        add_hop(host, &mut hops, value)?;
    }
    Ok(hops)
}

fn follow(host: &mut Host, from: PlaceId, hops: &[Hop]) -> Result<Value, Stop>
    ensures forest { host.new.arena ≡ host.old.arena }
{
    let mut at = from;
    for hop in hops.iter().copied() {
        match field_place(host, at, hop.field, hop.index)? {
            None => return Ok(Value::Undefined),
            Some(place) => at = place,
        }
    }
    Ok(Value::Path(at))
}

/// `get(field, index, ..)` of a collection: from its first path along the fields. BadIndex: the
/// collection is empty.
pub fn get_along(
    host: &mut Host,
    on: CollectionId,
    arguments: &[Value],
    fuel: &mut u64,
) -> Result<Value, Stop>
    ensures fuel { fuel.new ≤ fuel.old }
    ensures forest { host.new.arena ≡ host.old.arena }
{
    let count = path_count(host, on)?;
    if count == 0 {
        return Err(Stop::Fault(Fault::BadIndex));
    }
    let hops = hops_of(host, arguments)?;
    take(fuel, count as u64)?;
    let first = path_at(host, on, 0)?;
    follow(host, first, &hops)
}

//! Calls of the native functions: `j` itself, builders, `j.match` and the makers of comments.

ghost use Rattle.std.specs.Prelude.{◌≤◌, ◌≡◌, length, ◌≢◌, Err};

use crate::arguments::{BAD_OPERAND, argument};
use crate::collections::new_collection;
use crate::filters::{Filter, filter_of};
use crate::finding::passes;
use host_fields::{
    Host, Item, comment_object, copied_text, item_of, items_of, known_node, place_of, push,
};
use node_arena::{Arena, NodeId, PlaceId};
use node_builders::{BuildArg, BuildFault, build, needs};
use script_values::{Fault, ListId, Stop, TextId, Value, take};
use sqlite_items::Items;
use type_defs::Kind;

const FOREIGN: Stop = Stop::Fault(Fault::Foreign);

const NOT_BUILT: Stop = Stop::Fault(Fault::BuilderType);

// The paths of a list that has nothing else.
fn list_paths(host: &Host, list: ListId) -> Result<Vec<PlaceId>, Stop> {
    let mut paths = Vec::new(host.alloc);
    for value in host.heap.items(list)?.iter().copied() {
        match value {
            Value::Path(place) => push(&mut paths, place)?,
            _ => return Err(BAD_OPERAND),
        }
    }
    Ok(paths)
}

fn one_path(host: &Host, place: PlaceId) -> Result<Vec<PlaceId>, Stop> {
    let mut paths = Vec::new(host.alloc);
    push(&mut paths, place)?;
    Ok(paths)
}

fn text_paths(host: &mut Host, text: TextId) -> Result<Vec<PlaceId>, Stop>
    ensures forest { host.new.arena ≡ host.old.arena }
{
    if !host.heap.same_text(text, host.text)? {
        return Err(FOREIGN);
    }
    one_path(host, host.root)
}

fn node_paths(host: &Host, node: NodeId) -> Result<Vec<PlaceId>, Stop> {
    match place_of(&host.arena, node)? {
        None => Err(FOREIGN),
        Some(place) => one_path(host, place),
    }
}

/// `j(x)`: the collection of the root path of the file's text, of a path, of the path of a node, or
/// of a list of paths. Foreign: another text, or a node that stands in no place.
pub fn call_j(host: &mut Host, arguments: &[Value]) -> Result<Value, Stop>
    ensures forest { host.new.arena ≡ host.old.arena }
{
    let paths = match argument(arguments, 0) {
        Value::Text(text) => text_paths(host, text)?,
        Value::Path(place) => one_path(host, place)?,
        Value::Node(node) => node_paths(host, node)?,
        Value::List(list) => list_paths(host, list)?,
        _ => return Err(BAD_OPERAND),
    };
    new_collection(host, paths, None)
}

/// What `j.match` asks: a node and a filter.
pub fn match_parts(host: &Host, arguments: &[Value]) -> Result<(NodeId, Filter), Stop> {
    let Value::Node(node) = argument(arguments, 0) else {
        return Err(BAD_OPERAND);
    };
    let node = known_node(&host.arena, node)?;
    let filter = filter_of(host.alloc, &host.heap, argument(arguments, 1))?;
    Ok((node, filter))
}

/// `j.match(node, filter)` with a filter that is no function.
pub fn match_node(
    host: &mut Host,
    node: NodeId,
    filter: &Filter,
    fuel: &mut u64,
) -> Result<Value, Stop>
    ensures fuel { fuel.new ≤ fuel.old }
    ensures forest { host.new.arena ≡ host.old.arena }
{
    Ok(Value::Truth(passes(host, node, *filter, fuel)?))
}

/// `j.commentLine(text, leading, trailing)` and `j.commentBlock`, with exactly these arguments.
pub fn make_comment(host: &mut Host, block: bool, arguments: &[Value]) -> Result<Value, Stop>
    ensures forest { host.new.arena ≡ host.old.arena }
    ensures count { length arguments.now ≢ 3 → result ≡ Err (Stop.Fault Fault.BuilderType) }
{
    if arguments.len() != 3 {
        return Err(NOT_BUILT);
    }
    let Value::Text(text) = arguments[0] else {
        return Err(NOT_BUILT);
    };
    let Value::Truth(leading) = arguments[1] else {
        return Err(NOT_BUILT);
    };
    let Value::Truth(trailing) = arguments[2] else {
        return Err(NOT_BUILT);
    };
    comment_object(&mut host.heap, block, text, leading, trailing)
}

// The nodes and holes of a list that has nothing else; none for any other value.
fn list_argument(host: &Host, value: Value) -> Result<Items<Item>, Stop> {
    let Some(values) = items_of(host, value)? else {
        return Err(NOT_BUILT);
    };
    let mut items = Items::new(host.alloc);
    for value in values.iter().copied() {
        match item_of(value) {
            Ok(item) => items.push(item)?,
            Err(_) => return Err(NOT_BUILT),
        }
    }
    Ok(items)
}

fn build_argument(host: &mut Host, value: Value) -> Result<BuildArg, Stop>
    ensures forest { host.new.arena ≡ host.old.arena }
{
    match value {
        Value::Undefined => Ok(BuildArg::Absent),
        Value::Null => Ok(BuildArg::Null),
        Value::Truth(truth) => Ok(BuildArg::Truth(truth)),
        Value::Whole(number) => Ok(BuildArg::Whole(number)),
        Value::Text(text) => Ok(BuildArg::Text(copied_text(host.alloc, &mut host.heap, text)?)),
        Value::Node(node) => Ok(BuildArg::Node(known_node(&host.arena, node)?)),
        Value::List(_) | Value::NodeList(..) => Ok(BuildArg::Nodes(list_argument(host, value)?)),
        _ => Err(NOT_BUILT),
    }
}

fn build_arguments(host: &mut Host, arguments: &[Value]) -> Result<Vec<BuildArg>, Stop>
    ensures forest { host.new.arena ≡ host.old.arena }
{
    let mut built = Vec::new(host.alloc);
    for value in arguments.iter().copied() {
        push(&mut built, build_argument(host, value)?)?;
    }
    Ok(built)
}

fn build_stop(fault: BuildFault) -> Stop {
    match fault {
        BuildFault::BuilderType { .. } | BuildFault::TooFew | BuildFault::TooMany => NOT_BUILT,
        BuildFault::Full => Stop::Fault(Fault::NodesFull),
        BuildFault::NoMemory => Stop::NoMemory,
    }
}

fn is_placed(arena: &Arena, node: NodeId) -> Result<bool, Stop> {
    Ok(place_of(arena, node)?.is_some())
}

// Whether one of the items stands in a place.
fn has_placed(arena: &Arena, items: &[Item]) -> Result<bool, Stop> {
    for item in items.iter().copied() {
        if let Some(node) = item {
            if is_placed(arena, node)? {
                return Ok(true);
            }
        }
    }
    Ok(false)
}

// Whether a node of the arguments stands in a place, which a copy is left in.
fn moves_node(arena: &Arena, arguments: &[BuildArg]) -> Result<bool, Stop> {
    for argument in arguments {
        let moves = match argument {
            BuildArg::Node(node) => is_placed(arena, *node)?,
            BuildArg::Nodes(items) => has_placed(arena, items.as_slice())?,
            _ => false,
        };
        if moves {
            return Ok(true);
        }
    }
    Ok(false)
}

/// Calls the builder of a kind: a unit is taken for each node that it makes or copies, and then the
/// node is made. BuilderType: an argument that its field does not take, too few or too many.
/// `changed` is set only where a placed node moves.
pub fn call_builder(
    host: &mut Host,
    kind: Kind,
    arguments: &[Value],
    fuel: &mut u64,
) -> Result<Value, Stop>
    ensures fuel { fuel.new ≤ fuel.old }
    ensures nodes { length host.old.arena.forest.nodes ≤ length host.new.arena.forest.nodes }
    ensures places { length host.old.arena.forest.places ≤ length host.new.arena.forest.places }
{
    let arguments = build_arguments(host, arguments)?;
    let count = match needs(host.alloc, &host.arena, kind, &arguments) {
        Ok(count) => count,
        Err(fault) => return Err(build_stop(fault)),
    };
    take(fuel, u64::from(count))?;
    let moves = moves_node(&host.arena, &arguments)?;
    let node = match build(host.alloc, &mut host.arena, kind, &arguments) {
        Ok(node) => node,
        Err(fault) => return Err(build_stop(fault)),
    };
    if moves {
        host.changed = true;
    }
    Ok(Value::Node(node))
}

//! Methods of texts, lists and node lists that take no function. A node list is read as the list of
//! its items, and an argument that is a node list counts as one.

ghost use Rattle.std.specs.Prelude.{◌≡◌, ◌≤◌, length};

use crate::arguments::argument;
use host_fields::{
    End, Host, Item, ListMethod, TextMethod, add_items, item_of, list_items, list_length, push,
};
use node_arena::NodeId;
use script_values::{ListId, Stop, TextId, Value, take};
use value_methods::{call_list_method, call_text_method};

/// Calls a method of a text.
pub fn call_text(
    host: &mut Host,
    text: TextId,
    method: TextMethod,
    arguments: &[Value],
    fuel: &mut u64,
) -> Result<Value, Stop>
    ensures fuel { fuel.new ≤ fuel.old }
    ensures forest { host.new.arena ≡ host.old.arena }
{
    call_text_method(&mut host.heap, text, method, arguments, fuel)
}

// A node list as a list of its items; any other value as it is.
fn listed(host: &mut Host, value: Value) -> Result<Value, Stop>
    ensures forest { host.new.arena ≡ host.old.arena }
{
    let Value::NodeList(node, slot) = value else {
        return Ok(value);
    };
    let items = list_items(host, node, slot)?;
    Ok(Value::List(host.heap.list(&items)?))
}

fn all_listed(host: &mut Host, values: &[Value]) -> Result<Vec<Value>, Stop>
    ensures forest { host.new.arena ≡ host.old.arena }
{
    let mut all = Vec::new(host.alloc);
    for value in values.iter().copied() {
        push(&mut all, listed(host, value)?)?;
    }
    Ok(all)
}

// A unit for each item of a node list that is sought, which is no item itself.
fn take_sought(
    host: &mut Host,
    method: ListMethod,
    sought: Value,
    fuel: &mut u64,
) -> Result<(), Stop>
    ensures fuel { fuel.new ≤ fuel.old }
    ensures forest { host.new.arena ≡ host.old.arena }
{
    let Value::NodeList(node, slot) = sought else {
        return Ok(());
    };
    if !matches!(method, ListMethod::IndexOf | ListMethod::Includes) {
        return Ok(());
    }
    let length = list_length(&host.arena, &mut host.known.lists, node, slot)?;
    take(fuel, u64::from(length))
}

/// Calls a method of a list.
pub fn call_list(
    host: &mut Host,
    list: ListId,
    method: ListMethod,
    arguments: &[Value],
    fuel: &mut u64,
) -> Result<Value, Stop>
    ensures fuel { fuel.new ≤ fuel.old }
    ensures forest { host.new.arena ≡ host.old.arena }
{
    take_sought(host, method, argument(arguments, 0), fuel)?;
    if method == ListMethod::Concat {
        let arguments = all_listed(host, arguments)?;
        return call_list_method(&mut host.heap, list, method, &arguments, fuel);
    }
    call_list_method(&mut host.heap, list, method, arguments, fuel)
}

fn items_of_arguments(host: &Host, arguments: &[Value]) -> Result<Vec<Item>, Stop> {
    let mut items = Vec::new(host.alloc);
    for value in arguments.iter().copied() {
        push(&mut items, item_of(value)?)?;
    }
    Ok(items)
}

// `push` and `unshift` of nodes and null.
fn add(
    host: &mut Host,
    node: NodeId,
    slot: u8,
    arguments: &[Value],
    end: End,
    fuel: &mut u64,
) -> Result<Value, Stop>
    ensures fuel { fuel.new ≤ fuel.old }
    ensures nodes { length host.old.arena.forest.nodes ≤ length host.new.arena.forest.nodes }
    ensures places { length host.old.arena.forest.places ≤ length host.new.arena.forest.places }
{
    let items = items_of_arguments(host, arguments)?;
    let length = add_items(host, node, slot, &items, end, fuel)?;
    Ok(Value::Whole(i64::from(length)))
}

/// Calls a method of a node list.
pub fn call_node_list(
    host: &mut Host,
    node: NodeId,
    slot: u8,
    method: ListMethod,
    arguments: &[Value],
    fuel: &mut u64,
) -> Result<Value, Stop>
    ensures fuel { fuel.new ≤ fuel.old }
    ensures nodes { length host.old.arena.forest.nodes ≤ length host.new.arena.forest.nodes }
    ensures places { length host.old.arena.forest.places ≤ length host.new.arena.forest.places }
{
    match method {
        ListMethod::Push => add(host, node, slot, arguments, End::Back, fuel),
        ListMethod::Unshift => add(host, node, slot, arguments, End::Front, fuel),
        _ => {
            let items = list_items(host, node, slot)?;
            let list = host.heap.list(&items)?;
            call_list(host, list, method, arguments, fuel)
        }
    }
}

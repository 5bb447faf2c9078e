//! Nodes in arguments: a node, or a list of nodes and holes, as a script's list or a node list.

use crate::host::{Host, push};
use crate::lists::list_items;
use node_arena::NodeId;
use script_values::{Fault, Stop, Value};

/// A node or a hole.
pub type Item = Option<NodeId>;

const NO_NODE: Stop = Stop::Fault(Fault::BadOperand);

/// The items of a list or a node list; none for any other value.
pub fn items_of(host: &Host, value: Value) -> Result<Option<Vec<Value>>, Stop> {
    match value {
        Value::List(list) => {
            let mut items = Vec::new(host.alloc);
            items.extend_from_slice(host.heap.items(list)?)?;
            Ok(Some(items))
        }
        Value::NodeList(node, slot) => Ok(Some(list_items(host, node, slot)?)),
        _ => Ok(None),
    }
}

/// The node or the hole that a value is.
pub fn item_of(value: Value) -> Result<Item, Stop> {
    match value {
        Value::Null => Ok(None),
        Value::Node(node) => Ok(Some(node)),
        _ => Err(NO_NODE),
    }
}

/// The nodes and holes of a list; BadOperand where it is no list or has anything else.
pub fn list_of_items(host: &Host, value: Value) -> Result<Vec<Item>, Stop> {
    let Some(values) = items_of(host, value)? else {
        return Err(NO_NODE);
    };
    let mut items = Vec::new(host.alloc);
    for value in values.iter().copied() {
        push(&mut items, item_of(value)?)?;
    }
    Ok(items)
}

/// A node, or the nodes of a list without holes; BadOperand for anything else.
pub fn nodes_of(host: &Host, value: Value) -> Result<Vec<NodeId>, Stop> {
    let mut nodes = Vec::new(host.alloc);
    if let Value::Node(node) = value {
        push(&mut nodes, node)?;
        return Ok(nodes);
    }
    for item in list_of_items(host, value)?.iter().copied() {
        match item {
            Some(node) => push(&mut nodes, node)?,
            None => return Err(NO_NODE),
        }
    }
    Ok(nodes)
}

//! Changes at each path of a collection, which takes a unit for a path before its change there.

ghost use Rattle.std.specs.Prelude.{◌≤◌, ◌≡◌, length};

use crate::changes::change_at;
use crate::collections::{path_at, path_count};
use host_fields::{Change, Host, nodes_of};
use node_arena::NodeId;
use script_values::{CollectionId, Stop, Value, take};

fn change_all(
    host: &mut Host,
    on: CollectionId,
    nodes: &[NodeId],
    change: Change,
    fuel: &mut u64,
) -> Result<Value, Stop>
    ensures fuel { fuel.new ≤ fuel.old }
    ensures nodes { length host.old.arena.forest.nodes ≤ length host.new.arena.forest.nodes }
    ensures places { length host.old.arena.forest.places ≤ length host.new.arena.forest.places }
{
    for number in 0..path_count(host, on)? {
        take(fuel, 1)?;
        let path = path_at(host, on, number)?;
        change_at(host, path, nodes, change, fuel)?;
    }
    Ok(Value::Collection(on))
}

/// `replaceWith`, `insertBefore` and `insertAfter` with a node or a list of nodes, which are settled
/// at each path again.
pub fn change_paths(
    host: &mut Host,
    on: CollectionId,
    change: Change,
    nodes: Value,
    fuel: &mut u64,
) -> Result<Value, Stop>
    ensures fuel { fuel.new ≤ fuel.old }
    ensures nodes { length host.old.arena.forest.nodes ≤ length host.new.arena.forest.nodes }
    ensures places { length host.old.arena.forest.places ≤ length host.new.arena.forest.places }
{
    let nodes = nodes_of(host, nodes)?;
    change_all(host, on, &nodes, change, fuel)
}

/// `remove()`
pub fn remove_paths(host: &mut Host, on: CollectionId, fuel: &mut u64) -> Result<Value, Stop>
    ensures fuel { fuel.new ≤ fuel.old }
    ensures nodes { length host.old.arena.forest.nodes ≤ length host.new.arena.forest.nodes }
    ensures places { length host.old.arena.forest.places ≤ length host.new.arena.forest.places }
{
    change_all(host, on, &[], Change::Replace, fuel)
}

//! Walks begin: methods that take a function, and `find`, `closest` and `j.match` with one.

ghost use Rattle.std.specs.Prelude.{◌≤◌, ◌≡◌};

use crate::arguments::{argument, function_of};
use crate::below::Below;
use crate::collections::{path_at, path_count};
use host_fields::{Change, Host, ItemsMethod, Over, Task, Walk, list_items, push};
use indexmap::IndexSet;
use node_arena::{NodeId, PlaceId};
use script_values::{CollectionId, Fault, Stop, Value};
use type_defs::NodeType;

/// What a walk is begun with.
#[derive(Drop)]
pub struct Begun {
    pub task: Task,
    pub on: Value,
    pub function: Value,
    pub over: Over,
    pub length: usize,
    pub value: Value,
}

/// Begins a walk, which is the last one then.
pub fn begin(host: &mut Host, begun: Begun) -> Result<(), Stop>
    ensures forest { host.new.arena ≡ host.old.arena }
{
    let Begun {
        task,
        on,
        function,
        over,
        length,
        value,
    } = begun;
    let walk = Walk {
        task,
        on,
        function,
        over,
        next: 0,
        length,
        place: None,
        value,
        made: Vec::new(host.alloc),
        seen: IndexSet::new(host.alloc),
        paths: Vec::new(host.alloc),
        decided: false,
    };
    push(&mut host.walks, walk)
}

// What a method of a list or a node list goes over: the items of now.
fn items_over(host: &mut Host, on: &Value) -> Result<(Over, usize), Stop>
    ensures forest { host.new.arena ≡ host.old.arena }
{
    match *on {
        Value::List(list) => {
            let turns = host.heap.begin_loop(list)?;
            Ok((Over::List(turns), turns.length() as usize))
        }
        Value::NodeList(node, slot) => {
            let items = list_items(host, node, slot)?;
            let length = items.len();
            Ok((Over::Items(items), length))
        }
        _ => Err(Stop::Fault(Fault::NoMethod)),
    }
}

/// Begins a method of a list or a node list. BadOperand: its argument is no function.
pub fn begin_items(
    host: &mut Host,
    on: Value,
    method: ItemsMethod,
    arguments: &[Value],
) -> Result<(), Stop>
    ensures forest { host.new.arena ≡ host.old.arena }
{
    let function = function_of(argument(arguments, 0))?;
    let value = match method {
        ItemsMethod::Reduce => argument(arguments, 1),
        _ => Value::Undefined,
    };
    let (over, length) = items_over(host, &on)?;
    let begun = Begun {
        task: Task::Items(method),
        on,
        function,
        over,
        length,
        value,
    };
    begin(host, begun)
}

/// Begins a method of a collection that calls its function with each path.
pub fn begin_paths(
    host: &mut Host,
    on: CollectionId,
    task: Task,
    function: Value,
) -> Result<(), Stop>
    ensures forest { host.new.arena ≡ host.old.arena }
{
    let function = function_of(function)?;
    let length = path_count(host, on)?;
    let begun = Begun {
        task,
        on: Value::Collection(on),
        function,
        over: Over::Paths(on),
        length,
        value: Value::Undefined,
    };
    begin(host, begun)
}

// The places of the nodes below one path go behind the others. More than `most` are not needed: each
// costs a unit, and there are not so many.
fn add_below(host: &Host, path: PlaceId, places: &mut Vec<PlaceId>, most: u64) -> Result<(), Stop> {
    let mut below = Below::new(host.alloc, &host.arena, path)?;
    for _turn in 0..host.arena.places() {
        if places.len() as u64 > most {
            return Ok(());
        }
        let Some((place, node)) = below.next(&host.arena)? else {
            return Ok(());
        };
        if node.is_some() {
            push(places, place)?;
        }
    }
    Ok(())
}

/// Begins `find` with a function. Its places are those of now; more than there are units left for
/// are not sought.
pub fn begin_find(
    host: &mut Host,
    on: CollectionId,
    named: NodeType,
    function: Value,
    fuel: u64,
) -> Result<(), Stop>
    ensures forest { host.new.arena ≡ host.old.arena }
{
    let mut places = Vec::new(host.alloc);
    for number in 0..path_count(host, on)? {
        let path = path_at(host, on, number)?;
        add_below(host, path, &mut places, fuel)?;
    }
    let length = places.len();
    let begun = Begun {
        task: Task::Find(named),
        on: Value::Collection(on),
        function,
        over: Over::Places(places),
        length,
        value: Value::Undefined,
    };
    begin(host, begun)
}

/// Begins a change at each path with what a function answers.
pub fn begin_changes(
    host: &mut Host,
    on: CollectionId,
    change: Change,
    function: Value,
) -> Result<(), Stop>
    ensures forest { host.new.arena ≡ host.old.arena }
{
    begin_paths(host, on, Task::ChangePaths(change), function)
}

/// Begins `j.match` with a function.
pub fn begin_match(host: &mut Host, node: NodeId, function: Value) -> Result<(), Stop>
    ensures forest { host.new.arena ≡ host.old.arena }
{
    let begun = Begun {
        task: Task::Match,
        on: Value::Node(node),
        function,
        over: Over::One(Value::Node(node)),
        length: 1,
        value: Value::Undefined,
    };
    begin(host, begun)
}

//! What a walk does with what its function answers.

ghost use Rattle.std.specs.Prelude.{◌≤◌, ◌≡◌, length};

use crate::arguments::BAD_OPERAND;
use crate::changes::change_at;
use crate::steps::{go_to, top_walk, walk_item, walk_task};
use host_fields::{Change, Host, ItemsMethod, Task, nodes_of, push};
use node_arena::PlaceId;
use script_values::{Stop, Value, take};
use value_methods::is_true;

const NO_WALK: Stop = Stop::NoMemory;

// One item more of the list that is answered.
fn make_item(host: &mut Host, item: Value) -> Result<(), Stop>
    ensures forest { host.new.arena ≡ host.old.arena }
{
    let top = top_walk(host)?;
    if top >= host.walks.len() {
        return Err(NO_WALK);
    }
    push(&mut host.walks[top].made, item)
}

// One path more of the collection that is answered.
fn keep_path(host: &mut Host, place: PlaceId) -> Result<(), Stop>
    ensures forest { host.new.arena ≡ host.old.arena }
{
    let top = top_walk(host)?;
    if top >= host.walks.len() {
        return Err(NO_WALK);
    }
    push(&mut host.walks[top].paths, place)
}

// One path more, if it is not among those that are answered.
fn add_path(host: &mut Host, place: PlaceId) -> Result<(), Stop>
    ensures forest { host.new.arena ≡ host.old.arena }
{
    let top = top_walk(host)?;
    if top >= host.walks.len() {
        return Err(NO_WALK);
    }
    let (_, new) = host.walks[top].seen.insert_full(place.number())?;
    if !new {
        return Ok(());
    }
    keep_path(host, place)
}

// The walk is decided, with this value.
fn decide(host: &mut Host, value: Value) -> Result<(), Stop>
    ensures forest { host.new.arena ≡ host.old.arena }
{
    set_value(host, value)?;
    let top = top_walk(host)?;
    if top >= host.walks.len() {
        return Err(NO_WALK);
    }
    host.walks[top].decided = true;
    Ok(())
}

fn set_value(host: &mut Host, value: Value) -> Result<(), Stop>
    ensures forest { host.new.arena ≡ host.old.arena }
{
    let top = top_walk(host)?;
    if top >= host.walks.len() {
        return Err(NO_WALK);
    }
    host.walks[top].value = value;
    Ok(())
}

// The item with which the function was called.
fn last_item(host: &Host) -> Result<Value, Stop> {
    let top = top_walk(host)?;
    if top >= host.walks.len() {
        return Err(NO_WALK);
    }
    match host.walks[top].next.checked_sub(1) {
        None => Err(NO_WALK),
        Some(number) => walk_item(host, number),
    }
}

fn last_place(host: &Host) -> Result<PlaceId, Stop> {
    match last_item(host)? {
        Value::Path(place) => Ok(place),
        _ => Err(NO_WALK),
    }
}

// Units for an item of the answer as it goes in.
fn give_item(host: &mut Host, item: Value, fuel: &mut u64) -> Result<(), Stop>
    ensures fuel { fuel.new ≤ fuel.old }
    ensures forest { host.new.arena ≡ host.old.arena }
{
    take(fuel, 1)?;
    make_item(host, item)
}

// What a walk does with an answer of which only its truth counts.
fn judge_item(host: &mut Host, method: ItemsMethod, yes: bool, fuel: &mut u64) -> Result<(), Stop>
    ensures fuel { fuel.new ≤ fuel.old }
    ensures forest { host.new.arena ≡ host.old.arena }
{
    match method {
        ItemsMethod::Filter => {
            if !yes {
                return Ok(());
            }
            let item = last_item(host)?;
            give_item(host, item, fuel)
        }
        ItemsMethod::Some => decide_if(host, yes, Value::Undefined),
        ItemsMethod::Every => decide_if(host, !yes, Value::Undefined),
        ItemsMethod::Find => {
            let item = last_item(host)?;
            decide_if(host, yes, item)
        }
        ItemsMethod::Map | ItemsMethod::ForEach | ItemsMethod::Reduce => Ok(()),
    }
}

fn accept_item(
    host: &mut Host,
    method: ItemsMethod,
    answer: Value,
    fuel: &mut u64,
) -> Result<(), Stop>
    ensures fuel { fuel.new ≤ fuel.old }
    ensures forest { host.new.arena ≡ host.old.arena }
{
    match method {
        ItemsMethod::Map => give_item(host, answer, fuel),
        ItemsMethod::Reduce => set_value(host, answer),
        ItemsMethod::ForEach => Ok(()),
        ItemsMethod::Filter | ItemsMethod::Some | ItemsMethod::Every | ItemsMethod::Find => {
            let yes = is_true(&host.heap, answer)?;
            judge_item(host, method, yes, fuel)
        }
    }
}

fn decide_if(host: &mut Host, decided: bool, value: Value) -> Result<(), Stop>
    ensures forest { host.new.arena ≡ host.old.arena }
{
    if !decided {
        return Ok(());
    }
    decide(host, value)
}

// A path that a function answers; undefined and null are passed over.
fn map_path(host: &mut Host, answer: Value) -> Result<(), Stop>
    ensures forest { host.new.arena ≡ host.old.arena }
{
    match answer {
        Value::Undefined | Value::Null => Ok(()),
        Value::Path(place) => add_path(host, place),
        _ => Err(BAD_OPERAND),
    }
}

fn change_path(host: &mut Host, change: Change, answer: Value, fuel: &mut u64) -> Result<(), Stop>
    ensures fuel { fuel.new ≤ fuel.old }
    ensures nodes { length host.old.arena.forest.nodes ≤ length host.new.arena.forest.nodes }
    ensures places { length host.old.arena.forest.places ≤ length host.new.arena.forest.places }
{
    let place = last_place(host)?;
    let nodes = nodes_of(host, answer)?;
    change_at(host, place, &nodes, change, fuel)
}

// An ancestor that the function takes is found, and the next path's turn comes.
fn end_climb(host: &mut Host) -> Result<(), Stop>
    ensures forest { host.new.arena ≡ host.old.arena }
{
    let top = top_walk(host)?;
    if top >= host.walks.len() {
        return Err(NO_WALK);
    }
    let next = host.walks[top].next.saturating_add(1);
    let Some(place) = host.walks[top].place else {
        return Err(NO_WALK);
    };
    add_path(host, place)?;
    go_to(host, next, None)
}

// The path with which the function was called goes into the answer.
fn keep_last(host: &mut Host) -> Result<(), Stop>
    ensures forest { host.new.arena ≡ host.old.arena }
{
    let place = last_place(host)?;
    keep_path(host, place)
}

fn add_last(host: &mut Host) -> Result<(), Stop>
    ensures forest { host.new.arena ≡ host.old.arena }
{
    let place = last_place(host)?;
    add_path(host, place)
}

fn judge_path(host: &mut Host, task: Task, yes: bool) -> Result<(), Stop>
    ensures forest { host.new.arena ≡ host.old.arena }
{
    match task {
        Task::SomePath => decide_if(host, yes, Value::Undefined),
        Task::EveryPath => decide_if(host, !yes, Value::Undefined),
        Task::Match => set_value(host, Value::Truth(yes)),
        _ => {
            if !yes {
                return Ok(());
            }
            take_path(host, task)
        }
    }
}

// A path that the function takes.
fn take_path(host: &mut Host, task: Task) -> Result<(), Stop>
    ensures forest { host.new.arena ≡ host.old.arena }
{
    match task {
        Task::FilterPaths => keep_last(host),
        Task::Find(_) => add_last(host),
        Task::Closest(_) => end_climb(host),
        _ => Ok(()),
    }
}

/// Takes the answer of the function that the last step of the last walk called.
pub fn accept(host: &mut Host, answer: Value, fuel: &mut u64) -> Result<(), Stop>
    ensures fuel { fuel.new ≤ fuel.old }
    ensures nodes { length host.old.arena.forest.nodes ≤ length host.new.arena.forest.nodes }
    ensures places { length host.old.arena.forest.places ≤ length host.new.arena.forest.places }
{
    let task = walk_task(host)?;
    accept_for(host, task, answer, fuel)
}

fn accept_for(host: &mut Host, task: Task, answer: Value, fuel: &mut u64) -> Result<(), Stop>
    ensures fuel { fuel.new ≤ fuel.old }
    ensures nodes { length host.old.arena.forest.nodes ≤ length host.new.arena.forest.nodes }
    ensures places { length host.old.arena.forest.places ≤ length host.new.arena.forest.places }
{
    match task {
        Task::Items(method) => accept_item(host, method, answer, fuel),
        Task::ChangePaths(change) => change_path(host, change, answer, fuel),
        Task::MapPaths => map_path(host, answer),
        Task::EachPath => Ok(()),
        _ => {
            let yes = is_true(&host.heap, answer)?;
            judge_path(host, task, yes)
        }
    }
}

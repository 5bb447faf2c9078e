//! Walks go on: the next call of a walk's function, or its answer.

ghost use Rattle.std.specs.Prelude.{◌≡◌, ◌<◌, ◌≤◌, ◌+◌, IfOk, IfSome, OnOk};
ghost use Rattle.host_api.specs.Steps.{CallTakes};

use crate::calls::Step;
use crate::collections::path_at;
use crate::finding::{ancestor, found_collection};
use host_fields::{Host, ItemsMethod, Over, Task, Walk, kind_at, node_at};
use node_arena::{NodeId, PlaceId};
use script_values::{Stop, Value, take};
use type_defs::{NodeType, is_a};

// A walk that is not there: the host's own calls never come here.
const NO_WALK: Stop = Stop::NoMemory;

/// The number of the last walk.
pub fn top_walk(host: &Host) -> Result<usize, Stop> {
    match host.walks.len().checked_sub(1) {
        None => Err(NO_WALK),
        Some(top) => Ok(top),
    }
}

/// What the last walk is about to do, as far as it is plain.
#[derive(Clone, Copy, Debug)]
pub struct Now {
    pub task: Task,
    pub on: Value,
    pub function: Value,
    pub next: usize,
    pub length: usize,
    pub place: Option<PlaceId>,
    pub value: Value,
    pub decided: bool,
}

/// What the last walk does with answers.
pub fn walk_task(host: &Host) -> Result<Task, Stop> {
    let top = top_walk(host)?;
    if top >= host.walks.len() {
        return Err(NO_WALK);
    }
    let walk = &host.walks[top];
    Ok(walk.task)
}

/// What the last walk is about to do.
pub fn walk_now(host: &Host) -> Result<Now, Stop> {
    let top = top_walk(host)?;
    if top >= host.walks.len() {
        return Err(NO_WALK);
    }
    let walk = &host.walks[top];
    Ok(Now {
        task: walk.task,
        on: walk.on,
        function: walk.function,
        next: walk.next,
        length: walk.length,
        place: walk.place,
        value: walk.value,
        decided: walk.decided,
    })
}

/// The item of this number of what the last walk goes over.
pub fn walk_item(host: &Host, number: usize) -> Result<Value, Stop> {
    let top = top_walk(host)?;
    if top >= host.walks.len() {
        return Err(NO_WALK);
    }
    match &host.walks[top].over {
        Over::List(turns) => match u32::try_from(number) {
            Ok(number) => host.heap.loop_item(*turns, number),
            Err(_) => Err(NO_WALK),
        },
        Over::Items(items) => match items.get(number) {
            Some(item) => Ok(*item),
            None => Err(NO_WALK),
        },
        Over::Paths(collection) => Ok(Value::Path(path_at(host, *collection, number)?)),
        Over::Places(places) => match places.get(number) {
            Some(place) => Ok(Value::Path(*place)),
            None => Err(NO_WALK),
        },
        Over::One(value) => Ok(*value),
    }
}

/// The next item's turn comes.
pub fn go_to(host: &mut Host, next: usize, place: Option<PlaceId>) -> Result<(), Stop>
    ensures forest { host.new.arena ≡ host.old.arena }
{
    let top = top_walk(host)?;
    if top >= host.walks.len() {
        return Err(NO_WALK);
    }
    let walk = &mut host.walks[top];
    walk.next = next;
    walk.place = place;
    Ok(())
}

// A unit for an item, or for a node that is visited.
fn take_one(fuel: &mut u64) -> Result<(), Stop>
    ensures kept { fuel.new ≤ fuel.old }
    ensures unit { OnOk result (fuel.new + 1 ≡ fuel.old) }
{
    take(fuel, 1)
}

fn number_value(number: usize) -> Result<Value, Stop> {
    match i64::try_from(number) {
        Ok(number) => Ok(Value::Whole(number)),
        Err(_) => Err(NO_WALK),
    }
}

// What the items' walk answers at its end.
fn items_answer(
    host: &mut Host,
    method: ItemsMethod,
    made: &[Value],
    value: Value,
    decided: bool,
) -> Result<Value, Stop>
    ensures forest { host.new.arena ≡ host.old.arena }
{
    match method {
        ItemsMethod::Map | ItemsMethod::Filter => Ok(Value::List(host.heap.list(made)?)),
        ItemsMethod::ForEach => Ok(Value::Undefined),
        ItemsMethod::Some => Ok(Value::Truth(decided)),
        ItemsMethod::Every => Ok(Value::Truth(!decided)),
        ItemsMethod::Find | ItemsMethod::Reduce => Ok(value),
    }
}

fn paths_answer(host: &mut Host, on: Value, paths: Vec<PlaceId>) -> Result<Value, Stop>
    ensures forest { host.new.arena ≡ host.old.arena }
{
    match on {
        Value::Collection(on) => found_collection(host, paths, on),
        _ => Err(NO_WALK),
    }
}

// What a walk that is over answers; the loop over its list ends.
fn answer_of(host: &mut Host, walk: Walk) -> Result<Value, Stop>
    ensures forest { host.new.arena ≡ host.old.arena }
{
    let Walk {
        task,
        on,
        function: _,
        over,
        next: _,
        length: _,
        place: _,
        value,
        made,
        seen: _seen,
        paths,
        decided,
    } = walk;
    if let Over::List(turns) = &over {
        host.heap.end_loop(*turns);
    }
    match task {
        Task::Items(method) => items_answer(host, method, &made, value, decided),
        Task::FilterPaths | Task::MapPaths | Task::Find(_) | Task::Closest(_) => {
            paths_answer(host, on, paths)
        }
        Task::EachPath | Task::ChangePaths(_) => Ok(on),
        Task::SomePath => Ok(Value::Truth(decided)),
        Task::EveryPath => Ok(Value::Truth(!decided)),
        Task::Match => Ok(value),
    }
}

// The last walk is over, and is no longer there.
fn finish(host: &mut Host) -> Result<Value, Stop>
    ensures forest { host.new.arena ≡ host.old.arena }
{
    let Some(walk) = host.walks.pop() else {
        return Err(NO_WALK);
    };
    answer_of(host, walk)
}

// The function is called with an item and its number.
fn item_arguments(item: Value, number: usize) -> Result<[Value; 3], Stop> {
    Ok([item, number_value(number)?, Value::Undefined])
}

fn step_items(host: &mut Host, method: ItemsMethod, fuel: &mut u64) -> Result<Step, Stop>
    ensures fuel { fuel.new ≤ fuel.old }
    ensures forest { host.new.arena ≡ host.old.arena }
    ensures unit { IfOk result (CallTakes fuel.old fuel.new) }
{
    let now = walk_now(host)?;
    if now.decided || now.next >= now.length {
        return Ok(Step::Done(finish(host)?));
    }
    take_one(fuel)?;
    let item = walk_item(host, now.next)?;
    go_to(host, now.next.saturating_add(1), None)?;
    if method != ItemsMethod::Reduce {
        return Ok(Step::Call {
            function: now.function,
            arguments: item_arguments(item, now.next)?,
            count: 2,
        });
    }
    Ok(Step::Call {
        function: now.function,
        arguments: [now.value, item, number_value(now.next)?],
        count: 3,
    })
}

fn step_paths(host: &mut Host, fuel: &mut u64) -> Result<Step, Stop>
    ensures fuel { fuel.new ≤ fuel.old }
    ensures forest { host.new.arena ≡ host.old.arena }
    ensures unit { IfOk result (CallTakes fuel.old fuel.new) }
{
    let now = walk_now(host)?;
    if now.decided {
        take(fuel, now.length.saturating_sub(now.next) as u64)?;
        return Ok(Step::Done(finish(host)?));
    }
    if now.next >= now.length {
        return Ok(Step::Done(finish(host)?));
    }
    take_one(fuel)?;
    let item = walk_item(host, now.next)?;
    go_to(host, now.next.saturating_add(1), None)?;
    Ok(Step::Call {
        function: now.function,
        arguments: item_arguments(item, now.next)?,
        count: 2,
    })
}

// The function is called with a node alone.
fn node_arguments(node: NodeId) -> [Value; 3] {
    [Value::Node(node), Value::Undefined, Value::Undefined]
}

// The node of the type that stands now in the place of this number, which is visited.
fn visit(
    host: &Host,
    number: usize,
    named: &NodeType,
    fuel: &mut u64,
) -> Result<Option<NodeId>, Stop>
    ensures fuel { fuel.new ≤ fuel.old }
    ensures unit { OnOk result (fuel.new + 1 ≡ fuel.old) }
{
    take_one(fuel)?;
    let Value::Path(place) = walk_item(host, number)? else {
        return Err(NO_WALK);
    };
    let Some(node) = node_at(&host.arena, place)? else {
        return Ok(None);
    };
    if is_a(kind_at(&host.arena, node)?, *named) {
        return Ok(Some(node));
    }
    Ok(None)
}

fn step_find(host: &mut Host, named: &NodeType, fuel: &mut u64) -> Result<Step, Stop>
    ensures fuel { fuel.new ≤ fuel.old }
    ensures forest { host.new.arena ≡ host.old.arena }
    ensures unit { IfOk result (CallTakes fuel.old fuel.new) }
{
    let now = walk_now(host)?;
    for number in now.next..now.length {
        if let Some(node) = visit(host, number, named, fuel)? {
            go_to(host, number.saturating_add(1), None)?;
            return Ok(Step::Call {
                function: now.function,
                arguments: node_arguments(node),
                count: 1,
            });
        }
    }
    Ok(Step::Done(finish(host)?))
}

// Where a climb goes on: from the place to which it came, or from the next path.
fn climb_from(host: &Host, now: &Now) -> Result<Option<PlaceId>, Stop> {
    if now.place.is_some() {
        return Ok(now.place);
    }
    if now.next >= now.length {
        return Ok(None);
    }
    match walk_item(host, now.next)? {
        Value::Path(place) => Ok(Some(place)),
        _ => Err(NO_WALK),
    }
}

// Whether an ancestor, which is visited, is of the type.
fn is_of(host: &Host, node: NodeId, named: &NodeType, fuel: &mut u64) -> Result<bool, Stop>
    ensures fuel { fuel.new ≤ fuel.old }
    ensures unit { OnOk result (fuel.new + 1 ≡ fuel.old) }
{
    take_one(fuel)?;
    Ok(is_a(kind_at(&host.arena, node)?, *named))
}

// One ancestor more, or the next path where there is none; the node that the function is asked of.
fn climb_on(
    host: &mut Host,
    now: &Now,
    from: PlaceId,
    named: &NodeType,
    fuel: &mut u64,
) -> Result<Option<NodeId>, Stop>
    ensures fuel { fuel.new ≤ fuel.old }
    ensures forest { host.new.arena ≡ host.old.arena }
    ensures unit { IfOk result (λ asked. IfSome asked (λ node. fuel.new < fuel.old)) }
{
    let Some((above, owner)) = ancestor(&host.arena, from)? else {
        go_to(host, now.next.saturating_add(1), None)?;
        return Ok(None);
    };
    let asked = is_of(host, owner, named, fuel)?;
    go_to(host, now.next, Some(above))?;
    if asked {
        return Ok(Some(owner));
    }
    Ok(None)
}

fn step_closest(host: &mut Host, named: &NodeType, fuel: &mut u64) -> Result<Step, Stop>
    ensures fuel { fuel.new ≤ fuel.old }
    ensures forest { host.new.arena ≡ host.old.arena }
    ensures unit { IfOk result (CallTakes fuel.old fuel.new) }
{
    let first = walk_now(host)?;
    // each turn takes a unit or goes to the next path
    let turns = (first.length as u64).saturating_add(*fuel);
    for _turn in 0..turns {
        let now = walk_now(host)?;
        let Some(from) = climb_from(host, &now)? else {
            return Ok(Step::Done(finish(host)?));
        };
        if let Some(node) = climb_on(host, &now, from, named, fuel)? {
            return Ok(Step::Call {
                function: now.function,
                arguments: node_arguments(node),
                count: 1,
            });
        }
    }
    Ok(Step::Done(finish(host)?))
}

fn step_match(host: &mut Host) -> Result<Step, Stop>
    ensures forest { host.new.arena ≡ host.old.arena }
{
    let now = walk_now(host)?;
    if now.next >= now.length {
        return Ok(Step::Done(finish(host)?));
    }
    let Value::Node(node) = walk_item(host, now.next)? else {
        return Err(NO_WALK);
    };
    go_to(host, now.next.saturating_add(1), None)?;
    Ok(Step::Call {
        function: now.function,
        arguments: node_arguments(node),
        count: 1,
    })
}

/// The next step of the last walk: a call of its function, before which a unit is taken for the
/// item, or its answer; then the walk is no longer there.
pub fn step(host: &mut Host, fuel: &mut u64) -> Result<Step, Stop>
    ensures fuel { fuel.new ≤ fuel.old }
    ensures forest { host.new.arena ≡ host.old.arena }
{
    let task = walk_task(host)?;
    step_task(host, task, fuel)
}

fn step_task(host: &mut Host, task: Task, fuel: &mut u64) -> Result<Step, Stop>
    ensures fuel { fuel.new ≤ fuel.old }
    ensures forest { host.new.arena ≡ host.old.arena }
{
    match task {
        Task::Items(method) => step_items(host, method, fuel),
        Task::Find(named) => step_find(host, &named, fuel),
        Task::Closest(named) => step_closest(host, &named, fuel),
        Task::Match => step_match(host),
        Task::FilterPaths
        | Task::EachPath
        | Task::MapPaths
        | Task::SomePath
        | Task::EveryPath
        | Task::ChangePaths(_) => step_paths(host, fuel),
    }
}

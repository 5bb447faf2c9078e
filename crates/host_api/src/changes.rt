//! Changes at a path: NotInList and NodesFull are tested, units are taken for the nodes that are
//! copied, and then the change is made whole.

ghost use Rattle.std.specs.Prelude.{◌≤◌, ◌≡◌, length, ◌<◌, Err, true, false, OnOk};
ghost use Rattle.node_arena.specs.Reads.{state_at};
ghost use Rattle.node_arena.specs.declared.state.PlaceState.TheVariants.{Out};

use ast_paths::PathFault;
use host_fields::{
    Aim, Change, Host, Weight, forget_list, known_node, known_place, path_stop, test_room, weigh,
};
use node_arena::{Arena, NodeId, PlaceId, PlaceState};
use script_values::{Fault, Stop, take};
use std::alloc::Global;

// Whether a place of this state takes so many nodes.
fn is_open(state: PlaceState, change: Change, count: usize) -> bool
    ensures out { state ≡ PlaceState.Out → result ≡ false }
{
    match state {
        PlaceState::Listed => true,
        PlaceState::Out => false,
        PlaceState::Root | PlaceState::Single => change == Change::Replace && count < 2,
    }
}

// How many places in lists the change makes.
fn new_places(change: Change, count: usize) -> u64 {
    match change {
        Change::Replace => (count as u64).saturating_sub(1),
        Change::Before | Change::After => count as u64,
    }
}

// Forgets what is remembered of the list that has a place.
fn forget_at(host: &mut Host, place: PlaceId) -> Result<(), Stop>
    ensures forest { host.new.arena ≡ host.old.arena }
{
    let place = known_place(&host.arena, place)?;
    let Some(owner) = host.arena.owner(place) else {
        return Ok(());
    };
    if let Some(slot) = host.arena.slot_of(place) {
        forget_list(&mut host.known.lists, owner, slot);
    }
    Ok(())
}

// The place where the owner of a place stands.
fn above(arena: &Arena, place: PlaceId) -> Result<Option<PlaceId>, Stop> {
    let place = known_place(arena, place)?;
    Ok(ast_paths::parent(arena, place))
}

// Forgets what is remembered of the lists that a change at a place may change.
fn forget_lists(host: &mut Host, place: PlaceId) -> Result<(), Stop>
    ensures forest { host.new.arena ≡ host.old.arena }
{
    forget_at(host, place)?;
    match above(&host.arena, place)? {
        None => Ok(()),
        Some(above) => forget_at(host, above),
    }
}

fn known_nodes(arena: &Arena, nodes: &[NodeId]) -> Result<(), Stop> {
    for node in nodes.iter().copied() {
        let _node = known_node(arena, node)?;
    }
    Ok(())
}

fn told(made: Result<(), PathFault>) -> Result<(), Stop> {
    match made {
        Ok(()) => Ok(()),
        Err(fault) => Err(path_stop(fault)),
    }
}

fn make(
    alloc: Global,
    arena: &mut Arena,
    place: PlaceId,
    nodes: &[NodeId],
    change: Change,
) -> Result<(), Stop>
    ensures nodes { length arena.old.forest.nodes ≤ length arena.new.forest.nodes }
    ensures places { length arena.old.forest.places ≤ length arena.new.forest.places }
{
    known_nodes(arena, nodes)?;
    let place = known_place(arena, place)?;
    match change {
        Change::Replace => told(ast_paths::replace(alloc, arena, place, nodes)),
        Change::Before => told(ast_paths::insert_before(alloc, arena, place, nodes)),
        Change::After => told(ast_paths::insert_after(alloc, arena, place, nodes)),
    }
}

/// Makes a change at a path. Without nodes a replacement prunes, and an insert changes nothing.
pub fn change_at(
    host: &mut Host,
    place: PlaceId,
    nodes: &[NodeId],
    change: Change,
    fuel: &mut u64,
) -> Result<(), Stop>
    ensures fuel { fuel.new ≤ fuel.old }
    ensures nodes { length host.old.arena.forest.nodes ≤ length host.new.arena.forest.nodes }
    ensures places { length host.old.arena.forest.places ≤ length host.new.arena.forest.places }
    ensures out { place < length host.old.arena.forest.places → state_at host.old.arena.forest place ≡ Out → result ≡ Err (Stop.Fault Fault.NotInList) }
    ensures changed { OnOk result (0 < length nodes.now → host.new.changed ≡ true) }
{
    let place = known_place(&host.arena, place)?;
    if !is_open(host.arena.state(place), change, nodes.len()) {
        return Err(Stop::Fault(Fault::NotInList));
    }
    let weight = weigh(host.alloc, &host.arena, nodes, &Aim::Place(place))?;
    let places = weight
        .places
        .saturating_add(new_places(change, nodes.len()));
    let room = Weight {
        nodes: weight.nodes,
        places,
    };
    test_room(&host.arena, room)?;
    take(fuel, weight.nodes)?;
    forget_lists(host, place)?;
    make(host.alloc, &mut host.arena, place, nodes, change)?;
    if change != Change::Replace && nodes.is_empty() {
        return Ok(());
    }
    host.changed = true;
    Ok(())
}

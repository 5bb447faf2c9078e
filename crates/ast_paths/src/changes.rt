//! Nodes into a place and beside it.

ghost use Rattle.std.specs.Prelude.{◌≡◌, ◌≢◌, ◌<◌, ◌≤◌, ◌↔◌, Ok, Err, None, false, length, IfOk, OnOk, OnErr};
ghost use Rattle.node_arena.specs.Forest.{JoinsAt, list_at};
ghost use Rattle.node_arena.specs.Reads.{state_at};
ghost use Rattle.node_arena.specs.declared.state.PlaceState.TheVariants.{Listed, Out};
ghost use Rattle.node_arena.specs.Store.{reserved};
ghost use Rattle.ast_paths.specs.Paths.{KeepsFilled, KeepsIds, is_open, takes_nodes};

use crate::fault::{PathFault, path_fault};
use crate::plan::may_go;
use crate::pruning::prune;
use crate::settling::{Room, settle_all};
use node_arena::{Arena, ArenaFault, MAX_PLACES, NodeId, PlaceId, PlaceState, Steps};
use std::alloc::Global;
use std::marker::Brand;
use std::sync::ledger::{Blank, Ledger};

/// The node, where it may go in beside a place.
#[tactic(auto, using(crate::proofs::Joining::joins_beside, crate::proofs::Joining::joins_none))]
fn joining(arena: &Arena, place: PlaceId, node: NodeId) -> Option<NodeId>
    requires at { place < length arena.now.forest.places }
    ensures { JoinsAt arena.now.forest (list_at arena.now.forest place) result }
{
    if may_go(arena, node, place) {
        return Some(node);
    }
    None
}

/// A node into a new place after a place of a list. A node that may not go there does not; its place
/// is empty.
#[tactic(auto, using(crate::proofs::Filled::after_filled, crate::proofs::Joining::nodes_after, crate::proofs::Joining::places_after))]
fn join_after<L: Ledger>(
    arena: &mut Arena,
    place: PlaceId,
    node: NodeId,
    steps: &mut Steps<L>,
) -> Result<PlaceId, ArenaFault>
    requires at { place < length arena.old.forest.places }
    ensures within { IfOk result (λ p. p < length arena.new.forest.places) }
    ensures nodes { length arena.new.forest.nodes ≡ length arena.old.forest.nodes }
    ensures places { length arena.old.forest.places ≤ length arena.new.forest.places }
    ensures filled { KeepsFilled arena.old.forest arena.new.forest }
{
    let node = joining(arena, place, node);
    match arena.insert_after(place, node, steps) {
        Ok(new) => Ok(new),
        Err(fault) => Err(fault),
    }
}

/// A node into a new place before a place of a list. A node that may not go there does not; its
/// place is empty.
#[tactic(auto, using(crate::proofs::Filled::before_filled, crate::proofs::Joining::nodes_before, crate::proofs::Joining::places_before))]
fn join_before<L: Ledger>(
    arena: &mut Arena,
    place: PlaceId,
    node: NodeId,
    steps: &mut Steps<L>,
) -> Result<PlaceId, ArenaFault>
    requires at { place < length arena.old.forest.places }
    ensures within { IfOk result (λ p. p < length arena.new.forest.places) }
    ensures nodes { length arena.new.forest.nodes ≡ length arena.old.forest.nodes }
    ensures places { length arena.old.forest.places ≤ length arena.new.forest.places }
    ensures filled { KeepsFilled arena.old.forest arena.new.forest }
{
    let node = joining(arena, place, node);
    match arena.insert_before(place, node, steps) {
        Ok(new) => Ok(new),
        Err(fault) => Err(fault),
    }
}

/// The nodes into new places after a place of a list, in order.
fn join_all_after<L: Ledger>(
    arena: &mut Arena,
    place: PlaceId,
    items: &[NodeId],
    steps: &mut Steps<L>,
)
    requires at { place < length arena.old.forest.places }
    ensures nodes { length arena.new.forest.nodes ≡ length arena.old.forest.nodes }
    ensures places { length arena.old.forest.places ≤ length arena.new.forest.places }
    ensures filled { KeepsFilled arena.old.forest arena.new.forest }
{
    let mut last = place;
    for at in 0..items.len() {
        let Ok(new) = join_after(arena, last, items[at], steps) else {
            return;
        };
        last = new;
    }
}

/// The nodes into new places before a place of a list, in order.
fn join_all_before<L: Ledger>(
    arena: &mut Arena,
    place: PlaceId,
    items: &[NodeId],
    steps: &mut Steps<L>,
)
    requires at { place < length arena.old.forest.places }
    ensures nodes { length arena.new.forest.nodes ≡ length arena.old.forest.nodes }
    ensures places { length arena.old.forest.places ≤ length arena.new.forest.places }
    ensures filled { KeepsFilled arena.old.forest arena.new.forest }
{
    for at in 0..items.len() {
        let Ok(_) = join_before(arena, place, items[at], steps) else {
            return;
        };
    }
}

/// A root into a place where it may go. What stood there is a root.
#[tactic(auto, using(crate::proofs::Sizes::nodes_put, crate::proofs::Sizes::places_put, crate::proofs::Filled::put_filled))]
fn put_first<L: Ledger>(arena: &mut Arena, place: PlaceId, node: NodeId, steps: &mut Steps<L>)
    requires at { place < length arena.old.forest.places }
    ensures nodes { length arena.new.forest.nodes ≡ length arena.old.forest.nodes }
    ensures places { length arena.new.forest.places ≡ length arena.old.forest.places }
    ensures filled { KeepsFilled arena.old.forest arena.new.forest }
{
    if may_go(arena, node, place) {
        arena.put(place, node, steps);
    }
}

/// The first node into a place, and the others into new places after it, in order.
#[tactic(auto, using(crate::proofs::Sizes::nodes_put, crate::proofs::Sizes::places_put, crate::proofs::Filled::put_filled))]
fn put_all<L: Ledger>(arena: &mut Arena, place: PlaceId, items: &[NodeId], steps: &mut Steps<L>)
    requires at { place < length arena.old.forest.places }
    ensures nodes { length arena.new.forest.nodes ≡ length arena.old.forest.nodes }
    ensures places { length arena.old.forest.places ≤ length arena.new.forest.places }
    ensures filled { KeepsFilled arena.old.forest arena.new.forest }
{
    if items.is_empty() {
        return;
    }
    put_first(arena, place, items[0], steps);
    join_all_after(arena, place, &items[1..], steps);
}

/// Where the nodes of a change go.
#[derive(Clone, Copy, Debug, PartialEq, Eq)]
enum Side {
    Into,
    Before,
    After,
}

/// How many places in lists the change makes.
fn new_places(side: Side, count: usize) -> u32 {
    let most = count.min(MAX_PLACES) as u32;
    match side {
        Side::Into => most.saturating_sub(1),
        Side::Before | Side::After => most,
    }
}

/// Whether so many nodes may go into a place: two or more only where it is in a list.
fn takes_nodes(state: PlaceState, count: usize) -> bool
    ensures { result ≡ takes_nodes state count }
{
    match state {
        PlaceState::Listed => true,
        PlaceState::Out => false,
        PlaceState::Root | PlaceState::Single => count < 2,
    }
}

/// Whether the change may be made at a place of this state.
fn is_open(state: PlaceState, side: Side, count: usize) -> bool
    ensures { result ≡ is_open state side count }
{
    match side {
        Side::Into => takes_nodes(state, count),
        Side::Before | Side::After => matches!(state, PlaceState::Listed),
    }
}

/// The roots into a place or into new places beside it.
fn go_in<L: Ledger>(
    arena: &mut Arena,
    place: PlaceId,
    items: &[NodeId],
    side: Side,
    steps: &mut Steps<L>,
)
    requires at { place < length arena.old.forest.places }
    ensures nodes { length arena.new.forest.nodes ≡ length arena.old.forest.nodes }
    ensures places { length arena.old.forest.places ≤ length arena.new.forest.places }
    ensures filled { KeepsFilled arena.old.forest arena.new.forest }
{
    match side {
        Side::Into => put_all(arena, place, items, steps),
        Side::Before => join_all_before(arena, place, items, steps),
        Side::After => join_all_after(arena, place, items, steps),
    }
}

/// Makes a change with at least one node, or beside the place with none.
#[tactic(auto, using(crate::proofs::Filled::ids_kept, crate::proofs::Filled::spare_kept, crate::proofs::Filled::spare_only))]
fn change<L: Ledger>(
    alloc: Global,
    arena: &mut Arena,
    place: PlaceId,
    nodes: &[NodeId],
    side: Side,
    blank: Blank,
) -> Result<(), PathFault>
    requires name { blank.name ≡ L.name }
    requires parts { blank.parts ≡ L.parts }
    requires some { 0 < blank.parts }
    requires at { place < length arena.old.forest.places }
    ensures ids { KeepsIds arena.old.forest arena.new.forest }
    ensures filled { KeepsFilled arena.old.forest arena.new.forest }
    ensures err { OnErr result (arena.new ≡ reserved arena.old arena.new.spare) }
    ensures listed { result ≡ Err PathFault.NotInList ↔ is_open (state_at arena.old.forest place) side (length nodes.now) ≡ false }
    ensures field { result ≢ Err PathFault.NoField }
{
    if !is_open(arena.state(place), side, nodes.len()) {
        return Err(PathFault::NotInList);
    }
    let room = Room {
        nodes: 0,
        places: new_places(side, nodes.len()),
    };
    let mut steps = Steps::<L>::new(blank);
    let items = match settle_all(alloc, arena, place, nodes, room, &mut steps) {
        Ok(items) => items,
        Err(fault) => return Err(path_fault(fault)),
    };
    go_in(arena, place, &items, side, &mut steps);
    Ok(())
}

/// The nodes, settled in their order, into a place: the first into the place itself, the others into
/// new places after it. What stood there is a root. A node that the list names again gives a copy.
/// No node at all prunes the place. All memory is taken before the first change.
#[tactic(auto, using(crate::proofs::Filled::ids_kept, crate::proofs::Filled::spare_kept, crate::proofs::Sizes::nodes_pruned, crate::proofs::Sizes::places_pruned))]
pub fn replace(
    alloc: Global,
    arena: &mut Arena,
    place: PlaceId,
    nodes: &[NodeId],
) -> Result<(), PathFault>
    requires at { place < length arena.old.forest.places }
    ensures ids { KeepsIds arena.old.forest arena.new.forest }
    ensures filled { 0 < length nodes.now → KeepsFilled arena.old.forest arena.new.forest }
    ensures err { OnErr result (arena.new ≡ reserved arena.old arena.new.spare) }
    ensures listed { result ≡ Err PathFault.NotInList ↔ takes_nodes (state_at arena.old.forest place) (length nodes.now) ≡ false }
    ensures field { result ≢ Err PathFault.NoField }
{
    if nodes.is_empty() {
        return prune(arena, place);
    }
    change::<Brand>(alloc, arena, place, nodes, Side::Into, Blank::new(1))
}

/// The nodes, settled in their order, into new places before a place of a list, in order.
pub fn insert_before(
    alloc: Global,
    arena: &mut Arena,
    place: PlaceId,
    nodes: &[NodeId],
) -> Result<(), PathFault>
    requires at { place < length arena.old.forest.places }
    ensures ids { KeepsIds arena.old.forest arena.new.forest }
    ensures filled { KeepsFilled arena.old.forest arena.new.forest }
    ensures err { OnErr result (arena.new ≡ reserved arena.old arena.new.spare) }
    ensures listed { result ≡ Err PathFault.NotInList ↔ state_at arena.old.forest place ≢ Listed }
    ensures field { result ≢ Err PathFault.NoField }
{
    change::<Brand>(alloc, arena, place, nodes, Side::Before, Blank::new(1))
}

/// The nodes, settled in their order, into new places after a place of a list, in order.
pub fn insert_after(
    alloc: Global,
    arena: &mut Arena,
    place: PlaceId,
    nodes: &[NodeId],
) -> Result<(), PathFault>
    requires at { place < length arena.old.forest.places }
    ensures ids { KeepsIds arena.old.forest arena.new.forest }
    ensures filled { KeepsFilled arena.old.forest arena.new.forest }
    ensures err { OnErr result (arena.new ≡ reserved arena.old arena.new.spare) }
    ensures listed { result ≡ Err PathFault.NotInList ↔ state_at arena.old.forest place ≢ Listed }
    ensures field { result ≢ Err PathFault.NoField }
{
    change::<Brand>(alloc, arena, place, nodes, Side::After, Blank::new(1))
}

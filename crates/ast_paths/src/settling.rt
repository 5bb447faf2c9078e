//! Settling: a node becomes a root that may go into a place, and its old place holds a copy.

ghost use Rattle.std.specs.Prelude.{◌≡◌, ◌≢◌, ◌<◌, ◌≤◌, ◌+◌, Ok, Err, length, IfOk, OnErr};
ghost use Rattle.node_arena.specs.Store.{reserved};
ghost use Rattle.ast_paths.specs.Paths.{KeepsFilled, KeepsIds};

use crate::plan::{Way, fits, is_known, may_go, plan_for, way_at};
use node_arena::{Arena, ArenaFault, NodeId, PlaceId, Steps};
use std::alloc::Global;
use std::marker::Brand;
use std::sync::ledger::{Blank, Ledger};

/// A copy into the old place of a node, which is a root then. A copy that may not go there stays a
/// root, and the node where it is.
#[tactic(auto, using(crate::proofs::Sizes::nodes_put, crate::proofs::Sizes::places_put, crate::proofs::Filled::put_filled))]
fn leave_at<L: Ledger>(arena: &mut Arena, old: PlaceId, copy: NodeId, steps: &mut Steps<L>)
    requires at { old < length arena.old.forest.places }
    ensures nodes { length arena.new.forest.nodes ≡ length arena.old.forest.nodes }
    ensures places { length arena.new.forest.places ≡ length arena.old.forest.places }
    ensures filled { KeepsFilled arena.old.forest arena.new.forest }
    ensures steps { steps.new ≤ steps.old + 4 }
{
    if may_go(arena, copy, old) {
        arena.put(old, copy, steps);
    }
}

/// A placed node leaves its place, where the copy stands then.
fn leave<L: Ledger>(arena: &mut Arena, node: NodeId, copy: NodeId, steps: &mut Steps<L>)
    ensures nodes { length arena.new.forest.nodes ≡ length arena.old.forest.nodes }
    ensures places { length arena.new.forest.places ≡ length arena.old.forest.places }
    ensures filled { KeepsFilled arena.old.forest arena.new.forest }
    ensures steps { steps.new ≤ steps.old + 4 }
{
    if !is_known(arena, node) {
        return;
    }
    let Some(old) = arena.place_of(node) else {
        return;
    };
    leave_at(arena, old, copy, steps);
}

/// What goes in for a node: itself, or its copy. A node that leaves its place leaves the copy there.
fn settle_one<L: Ledger>(
    arena: &mut Arena,
    node: NodeId,
    way: Way,
    copy: NodeId,
    steps: &mut Steps<L>,
) -> NodeId
    ensures nodes { length arena.new.forest.nodes ≡ length arena.old.forest.nodes }
    ensures places { length arena.new.forest.places ≡ length arena.old.forest.places }
    ensures filled { KeepsFilled arena.old.forest arena.new.forest }
    ensures steps { steps.new ≤ steps.old + 4 }
{
    match way {
        Way::Itself => node,
        Way::Copied => copy,
        Way::Leaving => {
            leave(arena, node, copy, steps);
            node
        }
    }
}

/// The copy of this number, or the node where there are not so many.
fn copy_at(copies: &[NodeId], number: usize, node: NodeId) -> NodeId {
    if number < copies.len() {
        return copies[number];
    }
    node
}

/// The nodes that go in, in order: a node by itself, or the copy that goes in its place. A node that
/// leaves its place leaves a copy there.
fn settle_each<L: Ledger>(
    arena: &mut Arena,
    items: &mut Vec<NodeId>,
    ways: &[Way],
    copies: &[NodeId],
    steps: &mut Steps<L>,
)
    ensures count { length items.new.items ≡ length items.old.items }
    ensures nodes { length arena.new.forest.nodes ≡ length arena.old.forest.nodes }
    ensures places { length arena.new.forest.places ≡ length arena.old.forest.places }
    ensures filled { KeepsFilled arena.old.forest arena.new.forest }
{
    let mut next: usize = 0;
    for at in 0..items.len() {
        let node = items[at];
        let way = way_at(ways, at);
        let copy = copy_at(copies, next, node);
        items[at] = settle_one(arena, node, way, copy, steps);
        next = next.saturating_add(way.copies());
    }
}

/// How many nodes a change makes beside the copies, and how many places in lists and of those nodes.
#[derive(Clone, Copy, Debug)]
pub struct Room {
    pub nodes: u32,
    pub places: u32,
}

/// Settles nodes for a place, in their order: the roots that go in for them. A node that the list
/// names again gives a copy. All memory is taken first, also for what the change makes beside.
#[tactic(auto, using(crate::proofs::Filled::behind_filled, crate::proofs::Filled::ids_behind, crate::proofs::Filled::ids_kept, crate::proofs::Filled::spare_kept, crate::proofs::Filled::spare_only))]
pub fn settle_all<L: Ledger>(
    alloc: Global,
    arena: &mut Arena,
    place: PlaceId,
    nodes: &[NodeId],
    room: Room,
    steps: &mut Steps<L>,
) -> Result<Vec<NodeId>, ArenaFault>
    requires { place < length arena.old.forest.places }
    ensures ids { KeepsIds arena.old.forest arena.new.forest }
    ensures filled { KeepsFilled arena.old.forest arena.new.forest }
    ensures count { IfOk result (λ v. length v.items ≡ length nodes.now) }
    ensures err { OnErr result (arena.new ≡ reserved arena.old arena.new.spare) }
    ensures listed { result ≢ Err ArenaFault.NotInList }
{
    match arena.reserve(room.nodes.saturating_add(room.places)) {
        Ok(()) => {}
        Err(_) => return Err(ArenaFault::NoMemory),
    }
    let Ok(plan) = plan_for(alloc, arena, place, nodes) else {
        return Err(ArenaFault::NoMemory);
    };
    let Ok(mut items) = Vec::from_slice(alloc, nodes) else {
        return Err(ArenaFault::NoMemory);
    };
    if !fits(arena, &plan.copied, room) {
        return Err(ArenaFault::Full);
    }
    let copies = arena.copy_all(&plan.copied)?;
    settle_each(arena, &mut items, &plan.ways, copies.as_slice(), steps);
    Ok(items)
}

/// Settles a node, counting steps.
#[tactic(auto, using(crate::proofs::Filled::behind_filled, crate::proofs::Filled::ids_behind, crate::proofs::Filled::ids_kept))]
fn settle_counting<L: Ledger>(
    arena: &mut Arena,
    node: NodeId,
    place: PlaceId,
    blank: Blank,
) -> Result<NodeId, ArenaFault>
    requires name { blank.name ≡ L.name }
    requires parts { blank.parts ≡ L.parts }
    requires some { 0 < blank.parts }
    requires node { node < length arena.old.forest.nodes }
    requires at { place < length arena.old.forest.places }
    ensures ids { KeepsIds arena.old.forest arena.new.forest }
    ensures filled { KeepsFilled arena.old.forest arena.new.forest }
    ensures within { IfOk result (λ j. j < length arena.new.forest.nodes) }
    ensures err { OnErr result (arena.new ≡ arena.old) }
    ensures list { result ≢ Err ArenaFault.NotInList }
{
    if arena.may_go(node, place) {
        return Ok(node);
    }
    let copy = arena.copy(node)?;
    if arena.holds(node, place) {
        return Ok(copy);
    }
    let mut steps = Steps::<L>::new(blank);
    leave(arena, node, copy, &mut steps);
    Ok(node)
}

/// A root that may go into the place: a root that does not hold the place is it; a node that holds
/// the place gives a copy; any other node leaves a copy where it stands. The copy is as
/// `Arena::copy` makes it, and its causes are those of that call.
pub fn settle(arena: &mut Arena, node: NodeId, place: PlaceId) -> Result<NodeId, ArenaFault>
    requires node { node < length arena.old.forest.nodes }
    requires at { place < length arena.old.forest.places }
    ensures ids { KeepsIds arena.old.forest arena.new.forest }
    ensures filled { KeepsFilled arena.old.forest arena.new.forest }
    ensures within { IfOk result (λ j. j < length arena.new.forest.nodes) }
    ensures err { OnErr result (arena.new ≡ arena.old) }
    ensures list { result ≢ Err ArenaFault.NotInList }
{
    settle_counting::<Brand>(arena, node, place, Blank::new(1))
}

//! What becomes of the nodes of a change, and whether there is room, before anything is changed.

ghost use Rattle.std.specs.Prelude.{◌≡◌, ◌<◌, ◌≤◌, ◌^◌, ◌+◌, ◌↔◌, Contains, take, length, All, IfOk, IsTrue, slice_index};
ghost use Rattle.node_arena.specs.Forest.{MayGo};

use crate::settling::Room;
use node_arena::{Arena, MAX_NODES, MAX_PLACES, NodeId, PlaceId, Size};
use std::alloc::{AllocError, Global};

/// How a node goes into a place.
#[derive(Clone, Copy, Debug, PartialEq, Eq)]
pub(crate) enum Way {
    /// It is a root.
    Itself,
    /// A copy goes, since the node holds the place or goes in before.
    Copied,
    /// It leaves a copy where it stands.
    Leaving,
}

impl Way {
    /// How many copies of the node are made.
    pub(crate) fn copies(self) -> usize {
        match self {
            Way::Itself => 0,
            Way::Copied | Way::Leaving => 1,
        }
    }
}

/// The way of the node of this number.
pub(crate) fn way_at(ways: &[Way], at: usize) -> Way {
    if at < ways.len() {
        return ways[at];
    }
    Way::Itself
}

/// The nodes of a change with their ways, and those of which a copy is made, in order.
#[derive(Drop)]
pub(crate) struct Plan {
    pub ways: Vec<Way>,
    pub copied: Vec<NodeId>,
}

/// Whether the node of this number stands in the list before.
fn is_named(nodes: &[NodeId], at: usize) -> bool
    requires { at < length nodes.now }
    ensures { IsTrue result ↔ Contains (take at nodes.now) (slice_index nodes.now at) }
{
    let node = nodes[at];
    nodes[..at].contains(&node)
}

/// Whether the node is one of the arena.
pub(crate) fn is_known(arena: &Arena, node: NodeId) -> bool
    ensures { IsTrue result ↔ node < length arena.now.forest.nodes }
{
    node.number() < arena.nodes()
}

/// Whether the node may go into the place: a root of the arena that does not hold it.
pub(crate) fn may_go(arena: &Arena, node: NodeId, place: PlaceId) -> bool
    requires at { place < length arena.now.forest.places }
    ensures { IsTrue result → MayGo arena.now.forest place node }
{
    is_known(arena, node) && arena.may_go(node, place)
}

/// How the node of this number goes into the place.
fn way_of(arena: &Arena, place: PlaceId, nodes: &[NodeId], at: usize) -> Way
    requires place { place < length arena.now.forest.places }
    requires at { at < length nodes.now }
{
    let node = nodes[at];
    if !is_known(arena, node) {
        return Way::Itself;
    }
    if is_named(nodes, at) || arena.holds(node, place) {
        return Way::Copied;
    }
    if arena.is_root(node) {
        return Way::Itself;
    }
    Way::Leaving
}

/// How the nodes go into the place.
pub(crate) fn plan_for(
    alloc: Global,
    arena: &Arena,
    place: PlaceId,
    nodes: &[NodeId],
) -> Result<Plan, AllocError>
    requires place { place < length arena.now.forest.places }
    ensures copied { IfOk result (λ p. All (λ j. j < length arena.now.forest.nodes) p.copied.items) }
{
    let mut ways = Vec::new(alloc);
    let mut copied = Vec::new(alloc);
    for at in 0..nodes.len() {
        let way = way_of(arena, place, nodes, at);
        ways.push(way)?;
        let node = nodes[at];
        if way == Way::Itself || !is_known(arena, node) {
            continue;
        }
        copied.push(node)?;
    }
    Ok(Plan { ways, copied })
}

/// How much a node is with all that it holds.
fn size_of(arena: &Arena, node: NodeId) -> Size {
    if is_known(arena, node) {
        return arena.size(node);
    }
    Size {
        nodes: 0,
        places: 0,
        listed: 0,
    }
}

/// Whether copies of these nodes and what a change makes beside stay within the limits.
pub(crate) fn fits(arena: &Arena, copied: &[NodeId], room: Room) -> bool
    ensures { IsTrue result → (length arena.now.forest.nodes + room.nodes ≤ 2 ^ 22) × (length arena.now.forest.places + room.places ≤ 2 ^ 26) }
{
    let mut nodes = arena.nodes() as usize + room.nodes as usize;
    let mut places = arena.places() as usize + room.places as usize;
    for at in 0..copied.len() {
        if nodes > MAX_NODES || places > MAX_PLACES {
            return false;
        }
        let size = size_of(arena, copied[at]);
        nodes += size.nodes as usize;
        places += size.places as usize;
    }
    nodes <= MAX_NODES && places <= MAX_PLACES
}

//! The door to the arena: numbers of nodes and places are tested before they go in. A number that
//! the arena does not have is answered as want of memory; the host's own numbers never are.

ghost use Rattle.std.specs.Prelude.{◌≡◌, ◌<◌, ◌≤◌, ◌↔◌, IsTrue, length, IfOk, IfSome, OnErr};

use node_arena::{Arena, NodeId, PlaceId};
use script_values::Stop;
use tree_core::Scalar;
use type_defs::{Kind, scalar_count};

/// What a number that names nothing in the arena is answered with.
pub const UNKNOWN: Stop = Stop::NoMemory;

/// Whether the arena has the node.
pub fn has_node(arena: &Arena, node: NodeId) -> bool
    ensures { IsTrue result ↔ node < length arena.now.forest.nodes }
{
    node.number() < arena.nodes()
}

/// Whether the arena has the place.
pub fn has_place(arena: &Arena, place: PlaceId) -> bool
    ensures { IsTrue result ↔ place < length arena.now.forest.places }
{
    place.number() < arena.places()
}

/// The node, where the arena has it.
pub fn known_node(arena: &Arena, node: NodeId) -> Result<NodeId, Stop>
    ensures same { IfOk result (λ n. n ≡ node) }
    ensures known { IfOk result (λ n. n < length arena.now.forest.nodes) }
    ensures unknown { OnErr result (length arena.now.forest.nodes ≤ node) }
{
    if has_node(arena, node) {
        return Ok(node);
    }
    Err(UNKNOWN)
}

/// The place, where the arena has it.
pub fn known_place(arena: &Arena, place: PlaceId) -> Result<PlaceId, Stop>
    ensures same { IfOk result (λ p. p ≡ place) }
    ensures known { IfOk result (λ p. p < length arena.now.forest.places) }
    ensures unknown { OnErr result (length arena.now.forest.places ≤ place) }
{
    if has_place(arena, place) {
        return Ok(place);
    }
    Err(UNKNOWN)
}

/// A scalar of a node, where the node has one of this number.
pub fn scalar_of(arena: &Arena, node: NodeId, index: u8) -> Result<&Scalar, Stop> {
    if !has_node(arena, node) {
        return Err(UNKNOWN);
    }
    if usize::from(index) >= scalar_count(arena.kind(node)) {
        return Err(UNKNOWN);
    }
    Ok(arena.scalar(node, index))
}

/// The kind of a node.
pub fn kind_at(arena: &Arena, node: NodeId) -> Result<Kind, Stop> {
    let node = known_node(arena, node)?;
    Ok(arena.kind(node))
}

/// The node that stands in a place.
pub fn node_at(arena: &Arena, place: PlaceId) -> Result<Option<NodeId>, Stop>
    ensures within { IfOk result (λ o. IfSome o (λ n. n < length arena.now.forest.nodes)) }
{
    let place = known_place(arena, place)?;
    Ok(arena.node_at(place))
}

/// The place where a node stands.
pub fn place_of(arena: &Arena, node: NodeId) -> Result<Option<PlaceId>, Stop>
    ensures within { IfOk result (λ o. IfSome o (λ p. p < length arena.now.forest.places)) }
{
    let node = known_node(arena, node)?;
    Ok(arena.place_of(node))
}

/// The node that has a place.
pub fn owner_of(arena: &Arena, place: PlaceId) -> Result<Option<NodeId>, Stop>
    ensures within { IfOk result (λ o. IfSome o (λ n. n < length arena.now.forest.nodes)) }
{
    let place = known_place(arena, place)?;
    Ok(arena.owner(place))
}

/// The first place of a slot of a node.
pub fn first_of(arena: &Arena, node: NodeId, slot: u8) -> Result<Option<PlaceId>, Stop>
    ensures within { IfOk result (λ o. IfSome o (λ p. p < length arena.now.forest.places)) }
{
    let node = known_node(arena, node)?;
    Ok(arena.slot_first(node, slot))
}

/// The place after a place of a list.
pub fn next_of(arena: &Arena, place: PlaceId) -> Result<Option<PlaceId>, Stop>
    ensures within { IfOk result (λ o. IfSome o (λ p. p < length arena.now.forest.places)) }
{
    let place = known_place(arena, place)?;
    Ok(arena.next(place))
}

/// The place before a place of a list.
pub fn prev_of(arena: &Arena, place: PlaceId) -> Result<Option<PlaceId>, Stop>
    ensures within { IfOk result (λ o. IfSome o (λ p. p < length arena.now.forest.places)) }
{
    let place = known_place(arena, place)?;
    Ok(arena.prev(place))
}

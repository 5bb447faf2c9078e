//! How many nodes and places settling makes, before anything is changed: a node is copied where it
//! stands in a place, where it holds the place that it goes to, and where it was named before.

use crate::door::{known_node, known_place};
use indexmap::IndexSet;
use node_arena::{Arena, MAX_NODES, MAX_PLACES, NodeId, PlaceId};
use script_values::{Fault, Stop};
use std::alloc::Global;

/// Nodes and places that are made.
#[derive(Clone, Copy, Debug, PartialEq, Eq)]
pub struct Weight {
    pub nodes: u64,
    pub places: u64,
}

/// Where nodes go: into or beside a place, or into a new place of a list of this owner.
#[derive(Clone, Copy, Debug, PartialEq, Eq)]
pub enum Aim {
    Place(PlaceId),
    Owner(NodeId),
}

/// Whether a node holds where it is to go.
pub fn holds_aim(arena: &Arena, node: NodeId, aim: &Aim) -> Result<bool, Stop> {
    match *aim {
        Aim::Place(place) => {
            let place = known_place(arena, place)?;
            Ok(arena.holds(node, place))
        }
        Aim::Owner(owner) => {
            if owner == node {
                return Ok(true);
            }
            let owner = known_node(arena, owner)?;
            match arena.place_of(owner) {
                None => Ok(false),
                Some(place) => Ok(arena.holds(node, place)),
            }
        }
    }
}

/// Whether settling copies a node that was not named before.
pub fn is_copied(arena: &Arena, node: NodeId, aim: &Aim) -> Result<bool, Stop> {
    let node = known_node(arena, node)?;
    if !arena.is_root(node) {
        return Ok(true);
    }
    holds_aim(arena, node, aim)
}

// The same and a copy of a node.
fn with_copy(arena: &Arena, weight: Weight, node: NodeId) -> Result<Weight, Stop> {
    let node = known_node(arena, node)?;
    let size = arena.size(node);
    Ok(Weight {
        nodes: weight.nodes.saturating_add(u64::from(size.nodes)),
        places: weight.places.saturating_add(u64::from(size.places)),
    })
}

/// What settling these nodes makes.
pub fn weigh(alloc: Global, arena: &Arena, nodes: &[NodeId], aim: &Aim) -> Result<Weight, Stop> {
    let mut weight = Weight {
        nodes: 0,
        places: 0,
    };
    let mut seen: IndexSet<u32> = IndexSet::new(alloc);
    for node in nodes.iter().copied() {
        let (_, new) = seen.insert_full(node.number())?;
        if !new || is_copied(arena, node, aim)? {
            weight = with_copy(arena, weight, node)?;
        }
    }
    Ok(weight)
}

/// Refuses what would pass the limits of the arena.
pub fn test_room(arena: &Arena, weight: Weight) -> Result<(), Stop> {
    let nodes = weight.nodes.saturating_add(u64::from(arena.nodes()));
    let places = weight.places.saturating_add(u64::from(arena.places()));
    if nodes > MAX_NODES as u64 || places > MAX_PLACES as u64 {
        return Err(Stop::Fault(Fault::NodesFull));
    }
    Ok(())
}

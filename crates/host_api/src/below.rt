//! The places below a node in the order of the text, one by one: the parts of a template and its
//! expressions come in turn, and a name that another spells comes before it.

use host_fields::{first_of, kind_at, next_of, node_at, push, scalar_of};
use node_arena::{Arena, NodeId, PlaceId};
use script_values::Stop;
use std::alloc::Global;
use tree_core::Scalar;
use type_defs::Kind;

/// Places that wait: the rest of a list, or of two lists whose places come in turn.
#[derive(Clone, Copy, Debug)]
enum Waiting {
    List(PlaceId),
    Turns(PlaceId, PlaceId),
}

/// A walk below a node.
#[derive(Drop)]
pub struct Below {
    waiting: Vec<Waiting>,
}

fn only(list: Option<PlaceId>) -> Option<Waiting> {
    match list {
        None => None,
        Some(place) => Some(Waiting::List(place)),
    }
}

// Two lists whose places come in turn, the first one's first.
fn in_turn(first: Option<PlaceId>, second: Option<PlaceId>) -> Option<Waiting> {
    let Some(first) = first else {
        return only(second);
    };
    match second {
        None => Some(Waiting::List(first)),
        Some(second) => Some(Waiting::Turns(first, second)),
    }
}

fn push_slot(
    arena: &Arena,
    waiting: &mut Vec<Waiting>,
    node: NodeId,
    slot: u8,
) -> Result<(), Stop> {
    match first_of(arena, node, slot)? {
        None => Ok(()),
        Some(place) => push(waiting, Waiting::List(place)),
    }
}

// Whether one name of an export specifier spells both.
fn is_shorthand(arena: &Arena, node: NodeId) -> bool {
    matches!(scalar_of(arena, node, 0), Ok(Scalar::Truth(true)))
}

// The places of a node wait, the first of them on top.
fn push_children(arena: &Arena, waiting: &mut Vec<Waiting>, node: NodeId) -> Result<(), Stop> {
    let kind = kind_at(arena, node)?;
    if kind == Kind::TemplateLiteral {
        let quasis = first_of(arena, node, 0)?;
        let expressions = first_of(arena, node, 1)?;
        return match in_turn(quasis, expressions) {
            None => Ok(()),
            Some(turns) => push(waiting, turns),
        };
    }
    if kind == Kind::ExportSpecifier && is_shorthand(arena, node) {
        push_slot(arena, waiting, node, 0)?;
        return push_slot(arena, waiting, node, 1);
    }
    push_slot(arena, waiting, node, 3)?;
    push_slot(arena, waiting, node, 2)?;
    push_slot(arena, waiting, node, 1)?;
    push_slot(arena, waiting, node, 0)
}

// What waits behind the first place of these, and that place.
fn split(arena: &Arena, waiting: Waiting) -> Result<(PlaceId, Option<Waiting>), Stop> {
    match waiting {
        Waiting::List(place) => match next_of(arena, place)? {
            None => Ok((place, None)),
            Some(next) => Ok((place, Some(Waiting::List(next)))),
        },
        Waiting::Turns(place, other) => {
            let next = next_of(arena, place)?;
            Ok((place, in_turn(Some(other), next)))
        }
    }
}

impl Below {
    /// A walk over all places below the node that stands in a place.
    pub fn new(alloc: Global, arena: &Arena, place: PlaceId) -> Result<Below, Stop> {
        let mut waiting = Vec::new(alloc);
        if let Some(node) = node_at(arena, place)? {
            push_children(arena, &mut waiting, node)?;
        }
        Ok(Below { waiting })
    }

    /// The next place with the node in it, if any; None at the end.
    pub fn next(&mut self, arena: &Arena) -> Result<Option<(PlaceId, Option<NodeId>)>, Stop> {
        let Some(first) = self.waiting.pop() else {
            return Ok(None);
        };
        let (place, rest) = split(arena, first)?;
        if let Some(rest) = rest {
            push(&mut self.waiting, rest)?;
        }
        let node = node_at(arena, place)?;
        if let Some(node) = node {
            push_children(arena, &mut self.waiting, node)?;
        }
        Ok(Some((place, node)))
    }
}

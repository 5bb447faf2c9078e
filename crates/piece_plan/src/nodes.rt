//! The nodes of a source by their numbers, each with its place.

use std::alloc::{AllocError, Global};
use tree_core::{Place, Slot, Span, Tree};

/// A node of the source, the number of its parent (its own for the root's), the slot in which it
/// stands, and the number of its place among those of the parent.
#[derive(Clone, Copy)]
pub struct SourceNode<'a> {
    pub node: &'a Tree,
    pub parent: usize,
    pub slot: usize,
    pub ordinal: usize,
}

/// How many places the slot has.
pub fn width(slot: &Slot) -> usize {
    match slot {
        Slot::Single(_) => 1,
        Slot::List(places) => places.len(),
    }
}

/// How many places the node has.
pub fn place_count(node: &Tree) -> usize {
    let mut count = 0usize;
    for slot in node.slots.as_slice() {
        count = count.saturating_add(width(slot));
    }
    count
}

fn place_in(slot: &Slot, at: usize) -> Option<&Place> {
    match slot {
        Slot::Single(place) => {
            if at == 0 {
                return Some(place);
            }
            None
        }
        Slot::List(places) => places.get(at),
    }
}

/// The place of this number, and its slot.
pub fn place_at(node: &Tree, ordinal: usize) -> Option<(usize, &Place)> {
    let mut left = ordinal;
    let slots = node.slots.as_slice();
    for at in 0..slots.len() {
        let width = width(&slots[at]);
        if left < width {
            let place = place_in(&slots[at], left)?;
            return Some((at, place));
        }
        left -= width;
    }
    None
}

fn push_place<'a>(
    waiting: &mut Vec<SourceNode<'a>>,
    sample: SourceNode<'a>,
    place: &'a Place,
) -> Result<(), AllocError> {
    if let Some(node) = &place.node {
        waiting.push(SourceNode { node, ..sample })?;
    }
    Ok(())
}

// The children in the slot, the last first; `below` is the number of the place behind it.
fn push_slot<'a>(
    waiting: &mut Vec<SourceNode<'a>>,
    sample: SourceNode<'a>,
    below: usize,
    slot: &'a Slot,
) -> Result<(), AllocError> {
    match slot {
        Slot::Single(place) => {
            let ordinal = below.saturating_sub(1);
            push_place(waiting, SourceNode { ordinal, ..sample }, place)
        }
        Slot::List(places) => push_list(waiting, sample, below, places.as_slice()),
    }
}

fn push_list<'a>(
    waiting: &mut Vec<SourceNode<'a>>,
    sample: SourceNode<'a>,
    below: usize,
    places: &'a [Place],
) -> Result<(), AllocError> {
    for behind in 0..places.len() {
        let at = places.len() - 1 - behind;
        let ordinal = below.saturating_sub(behind).saturating_sub(1);
        push_place(waiting, SourceNode { ordinal, ..sample }, &places[at])?;
    }
    Ok(())
}

// The children of the node of this number, the last first.
fn push_children<'a>(
    waiting: &mut Vec<SourceNode<'a>>,
    node: &'a Tree,
    parent: usize,
) -> Result<(), AllocError> {
    let mut below = place_count(node);
    let slots = node.slots.as_slice();
    for behind in 0..slots.len() {
        let slot = slots.len() - 1 - behind;
        let sample = SourceNode {
            node,
            parent,
            slot,
            ordinal: 0,
        };
        push_slot(waiting, sample, below, &slots[slot])?;
        below = below.saturating_sub(width(&slots[slot]));
    }
    Ok(())
}

/// The nodes of the tree in preorder.
pub fn nodes_of<'a>(alloc: Global, tree: &'a Tree) -> Result<Vec<SourceNode<'a>>, AllocError> {
    let mut nodes = Vec::new(alloc);
    let mut waiting = Vec::new(alloc);
    waiting.push(SourceNode {
        node: tree,
        parent: 0,
        slot: 0,
        ordinal: 0,
    })?;
    for _turn in 0..usize::MAX {
        let Some(next) = waiting.pop() else {
            return Ok(nodes);
        };
        let number = nodes.len();
        nodes.push(next)?;
        push_children(&mut waiting, next.node, number)?;
    }
    Err(AllocError)
}

/// The span of this number, or none of a text.
pub fn span_at(spans: &[Span], number: usize) -> Span {
    match spans.get(number) {
        Some(span) => *span,
        None => Span { start: 0, end: 0 },
    }
}

/// The offset in a source, which is shorter than this type reaches.
pub fn offset(at: usize) -> u32 {
    at.min(u32::MAX as usize) as u32
}

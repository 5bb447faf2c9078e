//! Which nodes of the changed tree equal their source nodes, with the comments inside them.

use crate::nodes::{SourceNode, nodes_of};
use crate::source::SourceTree;
use std::alloc::{AllocError, Global};
use tree_core::{Comment, Place, Scalar, Scalars, Slot, Tree, same};

/// Of each node of a tree, by its number in preorder: how many nodes it holds, itself among them,
/// and whether it equals its source node.
#[derive(Drop)]
pub struct Marks {
    pub sizes: Vec<usize>,
    pub same: Vec<bool>,
    /// Of each node of the source, by its number, whether a node of the tree comes from it.
    pub present: Vec<bool>,
}

fn add_to(sizes: &mut Vec<usize>, at: usize, more: usize) {
    if at < sizes.len() {
        sizes[at] = sizes[at].saturating_add(more);
    }
}

fn size_at(sizes: &[usize], at: usize) -> usize {
    match sizes.get(at) {
        Some(size) => *size,
        None => 1,
    }
}

// How many nodes each node holds.
fn sizes_of(alloc: Global, nodes: &[SourceNode<'_>]) -> Result<Vec<usize>, AllocError> {
    let mut sizes = Vec::with_capacity(alloc, nodes.len())?;
    for _node in nodes {
        sizes.push(1)?;
    }
    for behind in 0..nodes.len() {
        let at = nodes.len() - 1 - behind;
        let size = size_at(sizes.as_slice(), at);
        if at > 0 {
            add_to(&mut sizes, nodes[at].parent, size);
        }
    }
    Ok(sizes)
}

fn same_scalar(one: &Scalar, other: &Scalar) -> bool {
    match one {
        Scalar::Text(text) => match other {
            Scalar::Text(other) => text.get() == other.get(),
            _ => false,
        },
        Scalar::Truth(truth) => other.is_truth(*truth),
        Scalar::Null => other.is_null(),
    }
}

/// Whether the scalars are the same.
pub fn same_scalars(one: &Scalars, other: &Scalars) -> bool {
    if one.len() != other.len() {
        return false;
    }
    for at in 0..one.len() {
        match (one.get(at), other.get(at)) {
            (Some(one), Some(other)) => {
                if !same_scalar(one, other) {
                    return false;
                }
            }
            _ => return false,
        }
    }
    true
}

/// Whether the comments are the same.
pub fn same_comment(one: &Comment, other: &Comment) -> bool {
    one.block == other.block && one.text.get() == other.text.get()
}

fn same_comments(one: &[Comment], other: &[Comment]) -> bool {
    if one.len() != other.len() {
        return false;
    }
    for at in 0..one.len() {
        if !same_comment(&one[at], &other[at]) {
            return false;
        }
    }
    true
}

// The tree whose marks are made, and how far they are.
#[derive(Clone, Copy)]
struct Marking<'a, 's> {
    source: &'a SourceTree<'s>,
    marks: &'a Marks,
}

// Whether the child, of this number, is what stands in the source, of that number.
fn same_child(marking: &Marking<'_, '_>, child: &Tree, at: usize, other: &Tree) -> bool {
    if child.from == other.from && child.from.is_some() {
        return marking.marks.is_same(at)
            && same_comments(child.notes.lead(), other.notes.lead())
            && same_comments(child.notes.trail(), other.notes.trail());
    }
    same(child, other)
}

// Whether the place holds what that of the source holds; `at` is the number of the next child.
fn same_place(marking: &Marking<'_, '_>, place: &Place, other: &Place, at: &mut usize) -> bool {
    match (&place.node, &other.node) {
        (None, None) => true,
        (Some(child), Some(other)) => {
            let here = *at;
            *at = here.saturating_add(marking.marks.size(here));
            same_child(marking, child, here, other)
        }
        _ => false,
    }
}

fn same_places(
    marking: &Marking<'_, '_>,
    places: &[Place],
    others: &[Place],
    at: &mut usize,
) -> bool {
    if places.len() != others.len() {
        return false;
    }
    for index in 0..places.len() {
        if !same_place(marking, &places[index], &others[index], at) {
            return false;
        }
    }
    true
}

fn same_slot(marking: &Marking<'_, '_>, slot: &Slot, other: &Slot, at: &mut usize) -> bool {
    match (slot, other) {
        (Slot::Single(place), Slot::Single(other)) => same_place(marking, place, other, at),
        (Slot::List(places), Slot::List(others)) => {
            same_places(marking, places.as_slice(), others.as_slice(), at)
        }
        _ => false,
    }
}

fn same_slots(marking: &Marking<'_, '_>, node: &Tree, other: &Tree, at: usize) -> bool {
    let mut at = at;
    let (slots, others) = (node.slots.as_slice(), other.slots.as_slice());
    if slots.len() != others.len() {
        return false;
    }
    for index in 0..slots.len() {
        if !same_slot(marking, &slots[index], &others[index], &mut at) {
            return false;
        }
    }
    true
}

// Whether the node of this number equals its source node.
fn equals_source(marking: &Marking<'_, '_>, node: &Tree, at: usize) -> bool {
    let Some(number) = marking.source.source_of(node) else {
        return false;
    };
    let Some(other) = marking.source.node(number) else {
        return false;
    };
    node.kind.is(other.node.kind)
        && same_scalars(&node.scalars, &other.node.scalars)
        && same_comments(node.notes.inner(), other.node.notes.inner())
        && same_slots(marking, node, other.node, at.saturating_add(1))
}

impl Marks {
    pub fn size(&self, at: usize) -> usize {
        size_at(self.sizes.as_slice(), at)
    }

    pub fn is_same(&self, at: usize) -> bool {
        match self.same.get(at) {
            Some(same) => *same,
            None => false,
        }
    }
}

fn set_present(present: &mut Vec<bool>, number: Option<usize>) {
    if let Some(number) = number {
        if number < present.len() {
            present[number] = true;
        }
    }
}

// From which nodes of the source the nodes come.
fn present_of(
    alloc: Global,
    source: &SourceTree<'_>,
    nodes: &[SourceNode<'_>],
) -> Result<Vec<bool>, AllocError> {
    let mut present = Vec::from_elem(alloc, false, source.nodes.len())?;
    for node in nodes {
        set_present(&mut present, source.source_of(node.node));
    }
    Ok(present)
}

fn mark(marks: &mut Marks, at: usize, same: bool) {
    if at < marks.same.len() {
        marks.same[at] = same;
    }
}

/// The marks of a tree over its source.
pub fn marks_of(alloc: Global, source: &SourceTree<'_>, tree: &Tree) -> Result<Marks, AllocError> {
    let nodes = nodes_of(alloc, tree)?;
    let mut same = Vec::with_capacity(alloc, nodes.len())?;
    for _node in nodes.as_slice() {
        same.push(false)?;
    }
    let mut marks = Marks {
        sizes: sizes_of(alloc, nodes.as_slice())?,
        same,
        present: present_of(alloc, source, nodes.as_slice())?,
    };
    for behind in 0..nodes.len() {
        let at = nodes.len() - 1 - behind;
        let equal = equals_source(
            &Marking {
                source,
                marks: &marks,
            },
            nodes[at].node,
            at,
        );
        mark(&mut marks, at, equal);
    }
    Ok(marks)
}

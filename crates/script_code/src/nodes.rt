//! Reads of a checked tree, by the names that ESTree gives the fields.

use sqlite_items::Items;
use std::alloc::AllocError;
use tree_core::{Place, Scalar, Slot, Tree, Units};
use type_defs::fields;

/// What a part is answered that no checked script has: the check refuses such a script before, so
/// this can't come about.
pub fn unchecked() -> AllocError {
    AllocError
}

// Which of the scalars, or of the slots, of the node's kind has the name.
fn index_of(tree: &Tree, name: &str, slot: bool) -> Option<usize> {
    let mut index = 0usize;
    for field in fields(tree.kind) {
        if field.1.slot == slot {
            if field.0 == name {
                return Some(index);
            }
            index = index.saturating_add(1);
        }
    }
    None
}

// The slot of this name.
fn slot<'t>(tree: &'t Tree, name: &str) -> Option<&'t Slot> {
    tree.slots.get(index_of(tree, name, true)?)
}

/// The node of a place.
pub fn node(place: &Place) -> Option<&Tree> {
    match &place.node {
        Some(node) => Some(node),
        None => None,
    }
}

/// The node of a single slot; none where it is empty.
pub fn child<'t>(tree: &'t Tree, name: &str) -> Option<&'t Tree> {
    match slot(tree, name)? {
        Slot::Single(place) => node(place),
        Slot::List(_) => None,
    }
}

/// The node of a single slot that is never empty.
pub fn needed<'t>(tree: &'t Tree, name: &str) -> Result<&'t Tree, AllocError> {
    match child(tree, name) {
        Some(node) => Ok(node),
        None => Err(unchecked()),
    }
}

/// The places of a list slot.
pub fn places<'t>(tree: &'t Tree, name: &str) -> Result<&'t [Place], AllocError> {
    match slot(tree, name) {
        Some(Slot::List(places)) => Ok(listed(places)),
        Some(Slot::Single(_)) | None => Err(unchecked()),
    }
}

fn listed(places: &Items<Place>) -> &[Place] {
    places.as_slice()
}

/// The node of a place that is never empty.
pub fn filled(place: &Place) -> Result<&Tree, AllocError> {
    match node(place) {
        Some(node) => Ok(node),
        None => Err(unchecked()),
    }
}

// The scalar of this name.
fn scalar<'t>(tree: &'t Tree, name: &str) -> Option<&'t Scalar> {
    tree.scalars.get(index_of(tree, name, false)?)
}

/// The text of a scalar that is one.
pub fn text<'t>(tree: &'t Tree, name: &str) -> Result<&'t Units, AllocError> {
    match scalar(tree, name) {
        Some(Scalar::Text(units)) => Ok(units),
        _ => Err(unchecked()),
    }
}

/// Whether the scalar is this text.
pub fn is_text(tree: &Tree, name: &str, text: &[u8]) -> bool {
    match scalar(tree, name) {
        Some(Scalar::Text(units)) => units.is(text),
        _ => false,
    }
}

/// Whether the scalar is true.
pub fn truth(tree: &Tree, name: &str) -> bool {
    match scalar(tree, name) {
        Some(Scalar::Truth(truth)) => *truth,
        _ => false,
    }
}

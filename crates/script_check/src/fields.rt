//! The fields of a node, by their numbers in the table of kinds.

use sqlite_items::at;
use tree_core::{Place, Scalar, Slot, Tree};

/// The node that stands in the place.
pub fn node_in(place: &Place) -> Option<&Tree> {
    match &place.node {
        Some(node) => Some(node),
        None => None,
    }
}

/// The node in the slot of this number; None where the slot is empty, or a list.
pub fn child(tree: &Tree, slot: usize) -> Option<&Tree> {
    match at(tree.slots.as_slice(), slot) {
        Some(Slot::Single(place)) => node_in(place),
        _ => None,
    }
}

/// The places of the slot of this number; none where it is no list.
pub fn places(tree: &Tree, slot: usize) -> &[Place] {
    match at(tree.slots.as_slice(), slot) {
        Some(Slot::List(places)) => places.as_slice(),
        _ => &[],
    }
}

/// The code units of the scalar of this number; none where it is no text.
pub fn text(tree: &Tree, scalar: usize) -> &[u16] {
    match tree.scalars.get(scalar) {
        Some(Scalar::Text(units)) => units.get(),
        _ => &[],
    }
}

/// Whether the scalar of this number is true.
pub fn truth(tree: &Tree, scalar: usize) -> bool {
    match tree.scalars.get(scalar) {
        Some(Scalar::Truth(truth)) => *truth,
        _ => false,
    }
}

/// Whether the scalar of this number is the text.
pub fn is_text(tree: &Tree, scalar: usize, word: &str) -> bool {
    match tree.scalars.get(scalar) {
        Some(Scalar::Text(units)) => units.is(word.as_bytes()),
        _ => false,
    }
}

//! The children of a node in the order of the text.
//!
//! The slots stand in that order, but for a template's characters and expressions, which take turns.
//! A name that is spelled once for two children has a mirror, which stands nowhere.

use std::slice;
use tree_core::{Place, Slot, Tree};
use type_defs::Kind;

fn places(slot: &Slot) -> &[Place] {
    match slot {
        Slot::Single(place) => slice::from_ref(place),
        Slot::List(places) => places.as_slice(),
    }
}

/// How many places the node has.
pub fn place_count(tree: &Tree) -> usize {
    let mut count = 0usize;
    for slot in tree.slots.as_slice() {
        count = count.saturating_add(places(slot).len());
    }
    count
}

// The number of the mirror's place.
fn mirror(tree: &Tree) -> Option<usize> {
    match tree.kind {
        Kind::Property if tree.scalars.is_truth_at(2, true) => Some(0),
        Kind::AssignmentProperty | Kind::ImportSpecifier if tree.scalars.is_truth_at(0, true) =>
            Some(0),
        Kind::ExportSpecifier if tree.scalars.is_truth_at(0, true) => Some(1),
        _ => None,
    }
}

// The number of the place that comes at this turn in the text.
fn number_at(tree: &Tree, turn: usize) -> usize {
    if !matches!(tree.kind, Kind::TemplateLiteral) {
        return turn;
    }
    if turn % 2 == 0 {
        return turn / 2;
    }
    match tree.slots.get(0) {
        Some(quasis) => places(quasis).len().saturating_add(turn / 2),
        None => turn,
    }
}

// The node at the place of this number.
fn standing(tree: &Tree, number: usize) -> Option<&Tree> {
    let mut left = number;
    for slot in tree.slots.as_slice() {
        let places = places(slot);
        if left < places.len() {
            return match &places[left].node {
                Some(node) => Some(node),
                None => None,
            };
        }
        left -= places.len();
    }
    None
}

/// The child that comes at this turn in the text, counted from 0 over all places; `None` where the
/// place is empty or a mirror's.
pub fn child_at(tree: &Tree, turn: usize) -> Option<&Tree> {
    let number = number_at(tree, turn);
    if mirror(tree) == Some(number) {
        return None;
    }
    standing(tree, number)
}

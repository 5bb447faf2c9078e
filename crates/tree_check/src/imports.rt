//! The specifiers of imports (ECMA-262, clause 16.2.2).

use crate::cursor::places_at;
use js_forms::Form;
use tree_core::{Place, Tree};
use type_defs::Kind;

fn is_default(place: &Place) -> bool {
    match &place.node {
        Some(node) => matches!(node.kind, Kind::ImportDefaultSpecifier),
        None => false,
    }
}

fn is_namespace(place: &Place) -> bool {
    match &place.node {
        Some(node) => matches!(node.kind, Kind::ImportNamespaceSpecifier),
        None => false,
    }
}

// Whether it is a named one. What is no specifier at all has rules of its own.
fn is_named(place: &Place) -> bool {
    !is_default(place) && !is_namespace(place)
}

// How many specifiers come first that are the default: one or none.
fn default_count(places: &[Place]) -> usize {
    match sqlite_items::at(places, 0) {
        Some(first) => {
            if is_default(first) {
                return 1;
            }
            0
        }
        None => 0,
    }
}

// Whether all specifiers from this number on are named ones.
fn are_named(places: &[Place], from: usize) -> bool {
    for at in from..places.len() {
        if !is_named(&places[at]) {
            return false;
        }
    }
    true
}

// Whether one specifier of this number is there, the last, and brings in a namespace.
fn is_one_namespace(places: &[Place], from: usize) -> bool {
    match sqlite_items::at(places, from) {
        Some(place) => places.len() == from.saturating_add(1) && is_namespace(place),
        None => false,
    }
}

// Perhaps a default, and then a namespace or named specifiers.
fn are_in_order(places: &[Place]) -> bool {
    let from = default_count(places);
    are_named(places, from) || is_one_namespace(places, from)
}

/// Whether the specifiers of the node, if it is an import, may follow each other so.
pub fn has_ordered_specifiers(node: &Tree, form: Form) -> bool {
    match form {
        Form::Import => are_in_order(places_at(node, 0)),
        _ => true,
    }
}

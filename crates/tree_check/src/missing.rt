//! Children that a node needs.

use crate::cursor::places_at;
use js_forms::Category;
use sqlite_items::at;
use tree_core::{Slot, Tree};
use tree_forms::child;
use type_defs::{FieldDef, Kind, slots};

fn is_empty_single(slot: Option<&Slot>) -> bool {
    match slot {
        Some(Slot::Single(place)) => place.node.is_none(),
        Some(Slot::List(_)) => false,
        None => true,
    }
}

// Whether a slot that the table of kinds says is needed has no child.
fn lacks_needed(fields: &[FieldDef], slots: &[Slot]) -> bool {
    for number in 0..fields.len() {
        if fields[number].1.needed && is_empty_single(at(slots, number)) {
            return true;
        }
    }
    false
}

fn lacks(node: &Tree, slot: usize) -> bool {
    child(node, slot).is_none()
}

fn count(node: &Tree, slot: usize) -> usize {
    places_at(node, slot).len()
}

fn may_lack_name(category: Category) -> bool {
    matches!(category, Category::DefaultDeclaration)
}

// What the table of kinds leaves open: how many a list has, and which of two may be absent.
fn lacks_of_kind(node: &Tree, category: Category) -> bool {
    match node.kind {
        Kind::SequenceExpression => count(node, 0) < 2,
        Kind::VariableDeclaration => count(node, 0) == 0,
        Kind::TemplateLiteral => count(node, 0) != count(node, 1).saturating_add(1),
        Kind::TryStatement => lacks(node, 1) && lacks(node, 2),
        Kind::YieldExpression => node.scalars.is_truth_at(0, true) && lacks(node, 0),
        Kind::FunctionDeclaration | Kind::ClassDeclaration => {
            lacks(node, 0) && !may_lack_name(category)
        }
        _ => false,
    }
}

/// Whether a slot of the node that needs a child has none, or a list of it is too short. The
/// category is that of its place.
pub fn is_missing(node: &Tree, category: Category) -> bool {
    lacks_needed(slots(node.kind), node.slots.as_slice()) || lacks_of_kind(node, category)
}

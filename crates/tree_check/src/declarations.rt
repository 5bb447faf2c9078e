//! Values of declarators, and rest elements.

ghost use Rattle.std.specs.Prelude.{◌≡◌};
ghost use Rattle.tree_core.specs.View.{syntax};
ghost use Rattle.tree_forms.specs.Reading.{child};
ghost use Rattle.tree_check.specs.Parts as spec;

use crate::cursor::places_at;
use crate::kinds::is_rest;
use crate::position::{Parent, Position};
use js_forms::{Category, Form, Spelling, Variable, variable_of};
use sqlite_items::at;
use tree_core::{Slot, Tree};
use tree_forms::{Variant, child};
use type_defs::Kind;

fn is_const(variant: Variant) -> bool {
    matches!(variable_of(variant.form), Variable::Const)
}

fn declares_const(position: &Position<'_>) -> bool {
    match &position.parent {
        Some(parent) => is_const(parent.variant),
        None => false,
    }
}

fn declares_name(declarator: &Tree) -> bool
    ensures { result ≡ spec.declares_name (child 0 (syntax declarator.now)) }
{
    match child(declarator, 0) {
        Some(id) => matches!(id.kind, Kind::Identifier),
        None => false,
    }
}

// Whether the declarator has a value exactly where it may or must. Before `in` and `of` the one
// declarator has none; elsewhere that of a constant or of a pattern has one.
fn has_right_value(declarator: &Tree, position: &Position<'_>) -> bool {
    let valued = child(declarator, 1).is_some();
    if matches!(position.place.category, Category::LoneDeclarator) {
        return !valued;
    }
    valued || (declares_name(declarator) && !declares_const(position))
}

fn has_one_declarator(node: &Tree, spelling: Spelling) -> bool {
    !matches!(spelling, Spelling::BeforeLoop) || places_at(node, 0).len() < 2
}

/// Whether the node, if it declares, has the values that it is to have (ECMA-262, clauses 14.3 and
/// 14.7.5).
pub fn has_initializers(node: &Tree, variant: Variant, position: &Position<'_>) -> bool {
    match variant.form {
        Form::Declarator => has_right_value(node, position),
        Form::HeadVariables(_) => has_one_declarator(node, variant.spelling),
        _ => true,
    }
}

// Whether it stands in no list, or last in one.
fn is_last(parent: &Parent<'_>) -> bool {
    match at(parent.node.slots.as_slice(), parent.slot) {
        Some(Slot::List(places)) => parent.index.saturating_add(1) >= places.len(),
        _ => true,
    }
}

/// Whether the node, if it is a rest element, is the last of its list.
pub fn is_rest_last(node: &Tree, position: &Position<'_>) -> bool {
    if !is_rest(node.kind) {
        return true;
    }
    match &position.parent {
        Some(parent) => is_last(parent),
        None => true,
    }
}

//! One name that is spelled for two children.

use crate::kinds::is_default;
use js_forms::Form;
use tree_core::{Scalar, Tree};
use tree_forms::child;
use type_defs::Kind;

fn same_units(one: &[u16], other: &[u16]) -> bool {
    if one.len() != other.len() {
        return false;
    }
    for at in 0..one.len() {
        if one[at] != other[at] {
            return false;
        }
    }
    true
}

// Whether the names are one. What is no text is left to the rule on scalars.
fn are_same(one: &Scalar, other: &Scalar) -> bool {
    match (one, other) {
        (Scalar::Text(one), Scalar::Text(other)) => same_units(one.get(), other.get()),
        (Scalar::Truth(one), Scalar::Truth(other)) => *one == *other,
        (Scalar::Null, Scalar::Null) => true,
        _ => false,
    }
}

fn have_one_name(one: &Tree, other: &Tree) -> bool {
    if !matches!(one.kind, Kind::Identifier) || !matches!(other.kind, Kind::Identifier) {
        return false;
    }
    match (one.scalars.get(0), other.scalars.get(0)) {
        (Some(one), Some(other)) => are_same(one, other),
        _ => false,
    }
}

fn are_one_name(one: Option<&Tree>, other: Option<&Tree>) -> bool {
    match (one, other) {
        (Some(one), Some(other)) => have_one_name(one, other),
        _ => false,
    }
}

// What is spelled by the value of a shorthand in a pattern: a name, perhaps before a default.
fn name_of(value: Option<&Tree>) -> Option<&Tree> {
    match value {
        Some(value) => {
            if is_default(value.kind) {
                return child(value, 0);
            }
            Some(value)
        }
        None => None,
    }
}

/// Whether the two names of the node are one, if it is a shorthand.
pub fn is_shorthand_of_one_name(node: &Tree, form: Form) -> bool {
    match form {
        Form::ShorthandProperty | Form::ImportShorthand | Form::ExportShorthand => {
            are_one_name(child(node, 0), child(node, 1))
        }
        Form::PatternShorthand => are_one_name(child(node, 0), name_of(child(node, 1))),
        _ => true,
    }
}

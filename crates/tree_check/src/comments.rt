//! Comments: where they stand, and their texts (ECMA-262, clause 12.4).

use crate::characters::{has_line_end, has_lone_surrogate};
use crate::cursor::places_at;
use crate::methods::has_async_key;
use crate::position::{Parent, Position};
use js_forms::{Form, pieces};
use tree_core::{Comment, Tree};
use tree_forms::{Variant, child, is_mirror, spells_at_most};
use type_defs::Kind;

fn has_any(node: &Tree) -> bool {
    !node.notes.lead().is_empty()
        || !node.notes.trail().is_empty()
        || !node.notes.inner().is_empty()
}

fn is_template(form: Form) -> bool {
    matches!(form, Form::Template)
}

// Whether of one name for two children the other is one token.
fn is_value_short(node: &Tree) -> bool {
    match child(node, 1) {
        Some(value) => !matches!(value.kind, Kind::AssignmentPattern),
        None => true,
    }
}

// Whether the node is spelled by one token or by none, each `;` that may be missing counted.
fn is_token(node: &Tree, variant: Variant) -> bool {
    let pieces = pieces(variant.form, variant.spelling);
    spells_at_most(is_value_short(node), variant.form, pieces, 1)
}

// Whether a comment may stand inside the node: not in a template, since the characters come last,
// nor in a node of one token.
fn takes_inner(node: &Tree, variant: Variant) -> bool {
    !is_template(variant.form) && !is_token(node, variant)
}

// Whether comments before the node and behind it have a place: not beside a program, nor before
// the first characters of a template or behind its last ones.
fn has_outer_places(node: &Tree, variant: Variant, position: &Position<'_>) -> bool {
    match variant.form {
        Form::Program => node.notes.lead().is_empty() && node.notes.trail().is_empty(),
        Form::TemplateElement => match &position.parent {
            Some(parent) => has_places_in_template(node, parent),
            None => true,
        },
        _ => true,
    }
}

fn has_places_in_template(node: &Tree, parent: &Parent<'_>) -> bool {
    let count = places_at(parent.node, parent.slot).len();
    let last = parent.index.saturating_add(1) >= count;
    (parent.index != 0 || node.notes.lead().is_empty()) && (!last || node.notes.trail().is_empty())
}

fn stands_nowhere(position: &Position<'_>) -> bool {
    match &position.parent {
        Some(parent) => is_mirror(parent.variant, parent.slot),
        None => false,
    }
}

/// Whether each comment of the node has a place.
pub fn has_comment_places(node: &Tree, variant: Variant, position: &Position<'_>) -> bool {
    if !has_any(node) {
        return true;
    }
    if stands_nowhere(position) || !has_outer_places(node, variant, position) {
        return false;
    }
    node.notes.inner().is_empty() || takes_inner(node, variant)
}

// Whether `*/` is among the code units.
fn has_end_mark(units: &[u16]) -> bool {
    let mut star = false;
    for unit in units {
        if star && *unit == 0x2F {
            return true;
        }
        star = *unit == 0x2A;
    }
    false
}

fn is_comment(comment: &Comment) -> bool {
    let units = comment.text.get();
    if has_lone_surrogate(units) {
        return false;
    }
    if comment.block {
        return !has_end_mark(units);
    }
    !has_line_end(units)
}

fn are_comments(comments: &[Comment]) -> bool {
    for comment in comments {
        if !is_comment(comment) {
            return false;
        }
    }
    true
}

/// Whether the text of each comment of the node is one.
pub fn has_comment_texts(node: &Tree) -> bool {
    are_comments(node.notes.lead())
        && are_comments(node.notes.trail())
        && are_comments(node.notes.inner())
}

fn ends_line(comments: &[Comment]) -> bool {
    for comment in comments {
        if !comment.block || has_line_end(comment.text.get()) {
            return true;
        }
    }
    false
}

// Whether no line may end before the first child of the form.
fn keeps_line(form: Form) -> bool {
    matches!(form, Form::Break | Form::Continue) || has_async_key(form)
}

/// Whether no comment before the node ends a line where none may end.
pub fn has_unbroken_line(node: &Tree, position: &Position<'_>) -> bool {
    match &position.parent {
        Some(parent) => {
            parent.slot != 0 || !keeps_line(parent.variant.form) || !ends_line(node.notes.lead())
        }
        None => true,
    }
}

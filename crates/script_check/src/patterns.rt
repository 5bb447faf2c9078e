//! The declarations of a script and the patterns that bind their names.

use crate::fields::{child, is_text, places, text, truth};
use crate::form::{FormKind, ScriptError};
use crate::shapes::is_string;
use crate::walk::{Role, Walk};
use tree_core::Tree;
use type_defs::Kind;

/// Visits a declaration by `const` or `let`.
pub fn declaration<'a>(walk: &mut Walk<'a>, tree: &'a Tree) -> Result<(), ScriptError> {
    if is_text(tree, 0, "var") {
        return walk.refuse(tree, FormKind::Subset);
    }
    walk.visit_all(Role::Declarator, places(tree, 0))
}

/// Visits a declarator: its pattern and then its initializer.
pub fn declarator<'a>(walk: &mut Walk<'a>, tree: &'a Tree) -> Result<(), ScriptError> {
    walk.visit(Role::Expression, child(tree, 1))?;
    walk.visit(Role::Pattern, child(tree, 0))
}

/// Visits a parameter: a pattern, or a rest with one.
pub fn parameter<'a>(walk: &mut Walk<'a>, tree: &'a Tree) -> Result<(), ScriptError> {
    if tree.kind == Kind::RestElement {
        return walk.visit(Role::Pattern, child(tree, 0));
    }
    pattern(walk, tree)
}

/// Visits a binding pattern.
pub fn pattern<'a>(walk: &mut Walk<'a>, tree: &'a Tree) -> Result<(), ScriptError> {
    match tree.kind {
        Kind::Identifier => {
            if walk.names.pass(text(tree, 0)) {
                return Ok(());
            }
            walk.refuse(tree, FormKind::Twice)
        }
        Kind::ObjectPattern => walk.visit_all(Role::PatternProperty, places(tree, 0)),
        Kind::ArrayPattern => walk.visit_all(Role::Pattern, places(tree, 0)),
        Kind::AssignmentPattern => {
            walk.visit(Role::Expression, child(tree, 1))?;
            walk.visit(Role::Pattern, child(tree, 0))
        }
        _ => walk.refuse(tree, FormKind::Subset),
    }
}

/// Whether the tree is a plain key: a name or a string.
pub fn is_plain_key(key: Option<&Tree>) -> bool {
    match key {
        Some(key) => key.kind == Kind::Identifier || is_string(key),
        None => false,
    }
}

/// Visits a property of an object pattern, which has a plain key.
pub fn pattern_property<'a>(walk: &mut Walk<'a>, tree: &'a Tree) -> Result<(), ScriptError> {
    let is_property = tree.kind == Kind::AssignmentProperty;
    if !is_property || truth(tree, 1) || !is_plain_key(child(tree, 0)) {
        return walk.refuse(tree, FormKind::Subset);
    }
    walk.visit(Role::Pattern, child(tree, 1))
}

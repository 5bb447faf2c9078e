//! The expressions of a script (ECMA-262, clause 13, as far as scripts have them).

use crate::fields::{child, is_text, node_in, places, text, truth};
use crate::form::{FormKind, ScriptError};
use crate::names::Class;
use crate::patterns::is_plain_key;
use crate::shapes::global_call;
use crate::statements::function_parts;
use crate::subset::{has_assignment, has_binary, has_unary, is_whole};
use crate::walk::{Role, Task, Walk};
use tree_core::{Place, Tree};
use type_defs::Kind;

/// Visits an expression.
pub fn expression<'a>(walk: &mut Walk<'a>, tree: &'a Tree) -> Result<(), ScriptError> {
    match tree.kind {
        Kind::Literal => literal(walk, tree),
        Kind::Identifier => name(walk, tree),
        Kind::TemplateLiteral => walk.visit_all(Role::Expression, places(tree, 1)),
        Kind::ArrayExpression => array(walk, tree),
        Kind::ObjectExpression => walk.visit_all(Role::Property, places(tree, 0)),
        Kind::FunctionExpression => function(walk, tree),
        Kind::ArrowFunctionExpression => arrow(walk, tree),
        Kind::UnaryExpression => operation(walk, tree, has_unary(tree)),
        Kind::BinaryExpression => operation(walk, tree, has_binary(tree)),
        Kind::LogicalExpression | Kind::ConditionalExpression => operation(walk, tree, true),
        Kind::AssignmentExpression => assignment(walk, tree),
        Kind::UpdateExpression => update(walk, tree),
        Kind::MemberExpression => member(walk, tree),
        Kind::CallExpression => call(walk, tree),
        Kind::ChainExpression => walk.visit(Role::Expression, child(tree, 0)),
        _ => walk.refuse(tree, FormKind::Subset),
    }
}

// Strings, whole decimal numbers, truths and null.
fn literal(walk: &mut Walk<'_>, tree: &Tree) -> Result<(), ScriptError> {
    let plain = is_text(tree, 0, "string")
        || is_text(tree, 0, "boolean")
        || is_text(tree, 0, "null");
    if plain || (is_text(tree, 0, "number") && is_whole(text(tree, 1))) {
        return Ok(());
    }
    walk.refuse(tree, FormKind::Subset)
}

// A name that an open block declares, or `undefined`.
fn name(walk: &mut Walk<'_>, tree: &Tree) -> Result<(), ScriptError> {
    if walk.names.class_of(text(tree, 0)).is_some() || is_text(tree, 0, "undefined") {
        return Ok(());
    }
    walk.refuse(tree, FormKind::NoName)
}

fn has_hole(places: &[Place]) -> bool {
    for place in places {
        if node_in(place).is_none() {
            return true;
        }
    }
    false
}

fn array<'a>(walk: &mut Walk<'a>, tree: &'a Tree) -> Result<(), ScriptError> {
    let elements = places(tree, 0);
    if has_hole(elements) {
        return walk.refuse(tree, FormKind::Subset);
    }
    walk.visit_all(Role::Element, elements)
}

/// Visits an item of a list or an argument.
pub fn element<'a>(walk: &mut Walk<'a>, tree: &'a Tree) -> Result<(), ScriptError> {
    if tree.kind == Kind::SpreadElement {
        return walk.visit(Role::Expression, child(tree, 0));
    }
    expression(walk, tree)
}

/// Visits a property of an object: a spread, or a plain or computed key with a value.
pub fn property<'a>(walk: &mut Walk<'a>, tree: &'a Tree) -> Result<(), ScriptError> {
    if tree.kind == Kind::SpreadElement {
        return walk.visit(Role::Expression, child(tree, 0));
    }
    let key = child(tree, 0);
    let is_computed = truth(tree, 3);
    let is_pair = is_text(tree, 0, "init") && !truth(tree, 1);
    if !is_pair || !(is_computed || is_plain_key(key)) {
        return walk.refuse(tree, FormKind::Subset);
    }
    walk.visit(Role::Expression, child(tree, 1))?;
    if is_computed {
        return walk.visit(Role::Expression, key);
    }
    Ok(())
}

// A function expression, neither async nor a generator. Its own name is known inside it.
fn function<'a>(walk: &mut Walk<'a>, tree: &'a Tree) -> Result<(), ScriptError> {
    if truth(tree, 0) || truth(tree, 1) {
        return walk.refuse(tree, FormKind::Subset);
    }
    if let Some(id) = child(tree, 0) {
        walk.names.enter()?;
        walk.names.declare(text(id, 0), Class::Function)?;
        walk.push(Task::Leave)?;
    }
    function_parts(walk, tree, 1)
}

fn arrow<'a>(walk: &mut Walk<'a>, tree: &'a Tree) -> Result<(), ScriptError> {
    if truth(tree, 0) {
        return walk.refuse(tree, FormKind::Subset);
    }
    function_parts(walk, tree, 0)
}

// An operation with up to three operands, if the subset has its operator.
fn operation<'a>(walk: &mut Walk<'a>, tree: &'a Tree, known: bool) -> Result<(), ScriptError> {
    if !known {
        return walk.refuse(tree, FormKind::Subset);
    }
    walk.visit(Role::Expression, child(tree, 2))?;
    walk.visit(Role::Expression, child(tree, 1))?;
    walk.visit(Role::Expression, child(tree, 0))
}

// Whether the tree is the name of a constant, of a function, or `undefined`.
fn is_constant(walk: &Walk<'_>, target: &Tree) -> bool {
    if target.kind != Kind::Identifier {
        return false;
    }
    match walk.names.class_of(text(target, 0)) {
        Some(class) => !class.may_write(),
        None => is_text(target, 0, "undefined"),
    }
}

fn assignment<'a>(walk: &mut Walk<'a>, tree: &'a Tree) -> Result<(), ScriptError> {
    let Some(left) = child(tree, 0) else {
        return walk.refuse(tree, FormKind::Subset);
    };
    let is_target = left.kind == Kind::Identifier || left.kind == Kind::MemberExpression;
    if !is_target || !has_assignment(tree) {
        return walk.refuse(tree, FormKind::Subset);
    }
    if is_constant(walk, left) {
        return walk.refuse(tree, FormKind::ConstWrite);
    }
    walk.visit(Role::Expression, child(tree, 1))?;
    walk.visit(Role::Expression, Some(left))
}

fn update<'a>(walk: &mut Walk<'a>, tree: &'a Tree) -> Result<(), ScriptError> {
    let Some(argument) = child(tree, 0) else {
        return walk.refuse(tree, FormKind::Subset);
    };
    if is_constant(walk, argument) {
        return walk.refuse(tree, FormKind::ConstWrite);
    }
    walk.visit(Role::Expression, Some(argument))
}

// A member: of a plain one the property is no expression. A private name is refused as one.
fn member<'a>(walk: &mut Walk<'a>, tree: &'a Tree) -> Result<(), ScriptError> {
    let Some(property) = child(tree, 1) else {
        return walk.refuse(tree, FormKind::Subset);
    };
    if truth(tree, 0) || property.kind != Kind::Identifier {
        walk.visit(Role::Expression, Some(property))?;
    }
    walk.visit(Role::Expression, child(tree, 0))
}

// A call. What a call of a global function names is no expression of its own.
fn call<'a>(walk: &mut Walk<'a>, tree: &'a Tree) -> Result<(), ScriptError> {
    walk.visit_all(Role::Element, places(tree, 1))?;
    if let Some((_, object)) = global_call(tree) {
        if walk.names.class_of(text(object, 0)).is_none() {
            return Ok(());
        }
    }
    walk.visit(Role::Expression, child(tree, 0))
}

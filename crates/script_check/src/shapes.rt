//! The shapes that the top level of a script takes, and the calls of global functions.

use crate::fields::{child, is_text, node_in, places, truth};
use tree_core::Tree;
use type_defs::Kind;

/// What an item of the top level is.
#[derive(Clone, Copy)]
pub enum TopLevel<'a> {
    Directive,
    /// A line that sets a parser, which says nothing here.
    Parser,
    Function,
    /// A declaration by `const` or `let`.
    Declaration,
    /// `module.exports = E`, with E.
    ModuleExports(&'a Tree),
    /// `export default E`, with E: an expression or a function declaration.
    ExportDefault(&'a Tree),
}

/// A function of a global object that a script may call.
#[derive(Clone, Copy, Debug, PartialEq, Eq)]
pub enum GlobalCall {
    ObjectKeys,
    ArrayIsArray,
    String,
}

fn is_name(tree: &Tree, name: &str) -> bool {
    tree.kind == Kind::Identifier && is_text(tree, 0, name)
}

// Whether the tree is a member of this plain name, neither computed nor optional.
fn is_member(tree: &Tree, name: &str) -> bool {
    if tree.kind != Kind::MemberExpression || truth(tree, 0) || truth(tree, 1) {
        return false;
    }
    match child(tree, 1) {
        Some(property) => is_name(property, name),
        None => false,
    }
}

// Whether the tree is `OBJECT.NAME`.
fn is_member_of(tree: &Tree, object: &str, name: &str) -> bool {
    if !is_member(tree, name) {
        return false;
    }
    match child(tree, 0) {
        Some(holder) => is_name(holder, object),
        None => false,
    }
}

// Whether the tree is `module.exports.parser`.
fn is_parser_member(tree: &Tree) -> bool {
    if !is_member(tree, "parser") {
        return false;
    }
    match child(tree, 0) {
        Some(holder) => is_member_of(holder, "module", "exports"),
        None => false,
    }
}

/// Whether the tree is a string.
pub fn is_string(tree: &Tree) -> bool {
    tree.kind == Kind::Literal && is_text(tree, 0, "string")
}

fn is_string_in(tree: &Tree, slot: usize) -> bool {
    match child(tree, slot) {
        Some(value) => is_string(value),
        None => false,
    }
}

// What an assignment at the top level is.
fn assigned(assignment: &Tree) -> Option<TopLevel<'_>> {
    if assignment.kind != Kind::AssignmentExpression || !is_text(assignment, 0, "=") {
        return None;
    }
    let left = child(assignment, 0)?;
    if is_member_of(left, "module", "exports") {
        let value = child(assignment, 1)?;
        return Some(TopLevel::ModuleExports(value));
    }
    if is_parser_member(left) && is_string_in(assignment, 1) {
        return Some(TopLevel::Parser);
    }
    None
}

// Whether the declarator is `parser = S` with a string.
fn is_parser_declarator(declarator: &Tree) -> bool {
    match child(declarator, 0) {
        Some(id) => is_name(id, "parser") && is_string_in(declarator, 1),
        None => false,
    }
}

// Whether the declaration is `const parser = S` alone.
fn is_parser_declaration(declaration: &Tree) -> bool {
    if declaration.kind != Kind::VariableDeclaration || !is_text(declaration, 0, "const") {
        return false;
    }
    let declarators = places(declaration, 0);
    if declarators.len() != 1 {
        return false;
    }
    match node_in(&declarators[0]) {
        Some(declarator) => is_parser_declarator(declarator),
        None => false,
    }
}

/// What this item of the top level is; None where the subset does not take it.
pub fn top_level(item: &Tree) -> Option<TopLevel<'_>> {
    match item.kind {
        Kind::Directive => Some(TopLevel::Directive),
        Kind::FunctionDeclaration => Some(TopLevel::Function),
        Kind::VariableDeclaration => {
            if is_text(item, 0, "var") {
                return None;
            }
            Some(TopLevel::Declaration)
        }
        Kind::ExportDefaultDeclaration => {
            let declaration = child(item, 0)?;
            Some(TopLevel::ExportDefault(declaration))
        }
        Kind::ExportNamedDeclaration => {
            let declaration = child(item, 0)?;
            if is_parser_declaration(declaration) {
                return Some(TopLevel::Parser);
            }
            None
        }
        Kind::ExpressionStatement => {
            let expression = child(item, 0)?;
            assigned(expression)
        }
        _ => None,
    }
}

/// The global function that a call names, where no scope declares the name of its object or its own.
pub fn global_call(call: &Tree) -> Option<(GlobalCall, &Tree)> {
    if truth(call, 0) {
        return None;
    }
    let callee = child(call, 0)?;
    if is_name(callee, "String") {
        return Some((GlobalCall::String, callee));
    }
    if is_member_of(callee, "Object", "keys") {
        let object = child(callee, 0)?;
        return Some((GlobalCall::ObjectKeys, object));
    }
    if is_member_of(callee, "Array", "isArray") {
        let object = child(callee, 0)?;
        return Some((GlobalCall::ArrayIsArray, object));
    }
    None
}

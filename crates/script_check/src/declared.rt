//! The names that a list of statements or of parameters declares.

use crate::fields::{child, is_text, node_in, places, text};
use crate::form::ScriptError;
use crate::names::{Class, Names};
use tree_core::{Place, Slot, Tree};
use type_defs::Kind;

/// Declares what the statements of a block declare directly.
pub fn declare_items(names: &mut Names, items: &[Place]) -> Result<(), ScriptError> {
    for place in items {
        if let Some(item) = node_in(place) {
            declare_item(names, item)?;
        }
    }
    Ok(())
}

/// Declares what the statement declares directly.
pub fn declare_item(names: &mut Names, item: &Tree) -> Result<(), ScriptError> {
    match item.kind {
        Kind::VariableDeclaration => {
            let class = if is_text(item, 0, "let") {
                Class::Let
            } else {
                Class::Const
            };
            declare_declarators(names, places(item, 0), class)
        }
        Kind::FunctionDeclaration => declare_function(names, item),
        Kind::ExportDefaultDeclaration => match child(item, 0) {
            Some(function) => declare_function(names, function),
            None => Ok(()),
        },
        _ => Ok(()),
    }
}

fn declare_function(names: &mut Names, function: &Tree) -> Result<(), ScriptError> {
    if function.kind != Kind::FunctionDeclaration {
        return Ok(());
    }
    match child(function, 0) {
        Some(id) => names.declare(text(id, 0), Class::Function),
        None => Ok(()),
    }
}

fn declare_declarators(
    names: &mut Names,
    declarators: &[Place],
    class: Class,
) -> Result<(), ScriptError> {
    for place in declarators {
        if let Some(declarator) = node_in(place) {
            declare_id(names, declarator, class)?;
        }
    }
    Ok(())
}

fn declare_id(names: &mut Names, declarator: &Tree, class: Class) -> Result<(), ScriptError> {
    match child(declarator, 0) {
        Some(id) => declare_pattern(names, id, class),
        None => Ok(()),
    }
}

/// Declares the names of the parameters.
pub fn declare_parameters(names: &mut Names, parameters: &[Place]) -> Result<(), ScriptError> {
    for place in parameters {
        declare_place(names, place, Class::Let)?;
    }
    Ok(())
}

/// Declares the names that the pattern binds.
#[cycle(declare_pattern)]
pub fn declare_pattern(names: &mut Names, pattern: &Tree, class: Class) -> Result<(), ScriptError> {
    if pattern.kind == Kind::Identifier {
        return names.declare(text(pattern, 0), class);
    }
    let slots = pattern.slots.as_slice();
    match pattern.kind {
        Kind::AssignmentProperty => declare_slot(names, slots, 1, class),
        Kind::ObjectPattern | Kind::ArrayPattern | Kind::AssignmentPattern | Kind::RestElement =>
            declare_slot(names, slots, 0, class),
        _ => Ok(()),
    }
}

// Declares the names that the patterns of a slot bind.
#[cycle(declare_pattern)]
fn declare_slot(
    names: &mut Names,
    slots: &[Slot],
    number: usize,
    class: Class,
) -> Result<(), ScriptError> {
    if number >= slots.len() {
        return Ok(());
    }
    match &slots[number] {
        Slot::Single(place) => declare_place(names, place, class),
        Slot::List(places) => {
            for place in places.as_slice() {
                declare_place(names, place, class)?;
            }
            Ok(())
        }
    }
}

#[cycle(declare_pattern)]
fn declare_place(names: &mut Names, place: &Place, class: Class) -> Result<(), ScriptError> {
    match &place.node {
        Some(node) => declare_pattern(names, node, class),
        None => Ok(()),
    }
}

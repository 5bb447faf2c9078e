//! Which names a list of statements, and a pattern, declare.

use crate::nodes::{child, filled, needed, node, places, unchecked};
use crate::state::State;
use std::alloc::AllocError;
use tree_core::{Place, Tree};
use type_defs::Kind;

/// How many levels of nodes a script nests.
pub const MAX_LEVELS: u32 = 1_000;

/// Declares the names that a pattern binds, in their order (ECMA-262, 14th edition, clause 8.2.1).
pub fn declare_pattern(state: &mut State<'_>, levels: u32, tree: &Tree) -> Result<(), AllocError> {
    if levels == 0 {
        return Err(unchecked());
    }
    let below = levels - 1;
    match tree.kind {
        Kind::Identifier => return state.declare(tree),
        Kind::AssignmentPattern => return declare_pattern(state, below, needed(tree, "left")?),
        Kind::AssignmentProperty => return declare_pattern(state, below, needed(tree, "value")?),
        Kind::RestElement => return declare_pattern(state, below, needed(tree, "argument")?),
        Kind::ObjectPattern | Kind::ArrayPattern => {}
        _ => return Err(unchecked()),
    }
    for part in parts_of(tree)? {
        if let Some(part) = node(part) {
            declare_pattern(state, below, part)?;
        }
    }
    Ok(())
}

/// The parts of an ObjectPattern or an ArrayPattern, of which the latter may have holes.
pub fn parts_of(tree: &Tree) -> Result<&[Place], AllocError> {
    if tree.kind == Kind::ObjectPattern {
        places(tree, "properties")
    } else {
        places(tree, "elements")
    }
}

/// Declares the names of a `let` or `const` declaration.
pub fn declare_declaration(state: &mut State<'_>, tree: &Tree) -> Result<(), AllocError> {
    for place in places(tree, "declarations")? {
        declare_pattern(state, MAX_LEVELS, needed(filled(place)?, "id")?)?;
    }
    Ok(())
}

/// The function declaration that a statement is or exports as the default.
pub fn function_of(statement: &Tree) -> Option<&Tree> {
    if statement.kind == Kind::FunctionDeclaration {
        return Some(statement);
    }
    if statement.kind != Kind::ExportDefaultDeclaration {
        return None;
    }
    let declared = needed(statement, "declaration").ok()?;
    if declared.kind == Kind::FunctionDeclaration {
        return Some(declared);
    }
    None
}

// Declares the names of a statement.
fn declare_statement(state: &mut State<'_>, statement: &Tree) -> Result<(), AllocError> {
    if statement.kind == Kind::VariableDeclaration {
        return declare_declaration(state, statement);
    }
    let Some(function) = function_of(statement) else {
        return Ok(());
    };
    match child(function, "id") {
        Some(id) => state.declare(id),
        None => Ok(()),
    }
}

/// Declares the names of the statements of a block (clause 14.2.2).
pub fn declare_statements(state: &mut State<'_>, list: &[Place]) -> Result<(), AllocError> {
    for place in list {
        declare_statement(state, filled(place)?)?;
    }
    Ok(())
}

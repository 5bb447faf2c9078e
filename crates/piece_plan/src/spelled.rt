//! Whether the source's text of a node still spells it at its place.

use crate::inside::has_bare_in;
use crate::source::SourceTree;
use crate::tokens::parens;
use generic_printer::Row;
use js_forms::Category;
use std::alloc::{AllocError, Global};
use tree_core::{Slot, Tree};
use tree_forms::child;
use type_defs::Kind;

// Whether the node's value is a method's function.
fn holds_method(owner: &Tree) -> bool {
    match owner.kind {
        Kind::MethodDefinition => true,
        Kind::Property => {
            owner.scalars.is_truth_at(1, true)
                || owner.scalars.is_text_at(0, "get")
                || owner.scalars.is_text_at(0, "set")
        }
        _ => false,
    }
}

fn parent_of<'a>(rows: &[Row<'a>], row: Row<'_>) -> Option<Row<'a>> {
    match rows.get(row.parent) {
        Some(parent) => Some(*parent),
        None => None,
    }
}

// Whether the row is the function of a method, as its source is, or neither is.
fn is_same_function(
    source: &SourceTree<'_>,
    number: usize,
    rows: &[Row<'_>],
    row: Row<'_>,
) -> bool {
    let now = match parent_of(rows, row) {
        Some(parent) => holds_method(parent.node) && row.slot == 1,
        None => false,
    };
    let then = match source.node(number) {
        Some(node) => match source.node(node.parent) {
            Some(parent) => holds_method(parent.node) && node.slot == 1,
            None => false,
        },
        None => false,
    };
    now == then
}

fn is_loop_head(owner: Kind, slot: usize) -> bool {
    slot == 0
        && matches!(
            owner,
            Kind::ForStatement | Kind::ForInStatement | Kind::ForOfStatement
        )
}

fn ends_with_semicolon(source: &SourceTree<'_>, number: usize) -> bool {
    let end = source.span(number).end as usize;
    let text = source.text.bytes();
    end > 0 && end <= text.len() && text[end - 1] == b';'
}

// Whether a declaration may stand in the head of a loop as it is spelled.
fn fits_head(
    alloc: Global,
    source: &SourceTree<'_>,
    number: usize,
    rows: &[Row<'_>],
    row: Row<'_>,
) -> Result<bool, AllocError> {
    let Some(parent) = parent_of(rows, row) else {
        return Ok(true);
    };
    if !is_loop_head(parent.node.kind, row.slot) {
        return Ok(true);
    }
    if ends_with_semicolon(source, number) {
        return Ok(false);
    }
    if !matches!(parent.node.kind, Kind::ForStatement) {
        return Ok(true);
    }
    Ok(!has_bare_in(alloc, source, number)?)
}

// The same of a declarator.
fn fits_declaration(
    alloc: Global,
    source: &SourceTree<'_>,
    number: usize,
    rows: &[Row<'_>],
    row: Row<'_>,
) -> Result<bool, AllocError> {
    let Some(parent) = parent_of(rows, row) else {
        return Ok(true);
    };
    let Some(above) = parent_of(rows, parent) else {
        return Ok(true);
    };
    if matches!(above.node.kind, Kind::ForStatement) && parent.slot == 0 {
        return Ok(!has_bare_in(alloc, source, number)?);
    }
    Ok(true)
}

// Whether the statement of this number is a string alone, without parentheses.
fn is_bare_string(alloc: Global, source: &SourceTree<'_>, node: &Tree) -> Result<bool, AllocError> {
    if !matches!(node.kind, Kind::ExpressionStatement) {
        return Ok(false);
    }
    let Some(string) = child(node, 0) else {
        return Ok(false);
    };
    if !matches!(string.kind, Kind::Literal) || !string.scalars.is_text_at(0, "string") {
        return Ok(false);
    }
    let mut found = Vec::new(alloc);
    match source.source_of(string) {
        Some(number) => Ok(parens(&mut found, source, number)? == 0),
        None => Ok(false),
    }
}

// Whether directives may stand in the list of the row.
fn takes_directives(row: Row<'_>) -> bool {
    match row.node.kind {
        Kind::Program => true,
        Kind::BlockStatement => is_function_body(row),
        _ => false,
    }
}

fn is_function_body(row: Row<'_>) -> bool {
    matches!(
        row.place.category,
        Category::FunctionBody | Category::ArrowBody
    )
}

// Whether the statement would not be read as a directive where it stands.
fn fits_list(
    alloc: Global,
    source: &SourceTree<'_>,
    there: &Tree,
    rows: &[Row<'_>],
    row: Row<'_>,
) -> Result<bool, AllocError> {
    let Some(parent) = parent_of(rows, row) else {
        return Ok(true);
    };
    if !row.opening || !takes_directives(parent) {
        return Ok(true);
    }
    Ok(!is_bare_string(alloc, source, there)?)
}

// The first statement of the block that is no directive.
fn first_statement(node: &Tree) -> Option<&Tree> {
    let Some(Slot::List(places)) = node.slots.get(0) else {
        return None;
    };
    for place in places.as_slice() {
        if let Some(statement) = &place.node {
            if !matches!(statement.kind, Kind::Directive) {
                return Some(statement);
            }
        }
    }
    None
}

// Whether no statement of the block would be read as a directive.
fn fits_body(
    alloc: Global,
    source: &SourceTree<'_>,
    there: &Tree,
    row: Row<'_>,
) -> Result<bool, AllocError> {
    if !is_function_body(row) {
        return Ok(true);
    }
    match first_statement(there) {
        Some(statement) => Ok(!is_bare_string(alloc, source, statement)?),
        None => Ok(true),
    }
}

/// Whether the text of the source node, of this number, that the row equals spells it where the row
/// stands; the rows are those above it and before it.
pub fn still_spells(
    alloc: Global,
    source: &SourceTree<'_>,
    number: usize,
    rows: &[Row<'_>],
    row: Row<'_>,
) -> Result<bool, AllocError> {
    let Some(found) = source.node(number) else {
        return Ok(false);
    };
    let there = found.node;
    match there.kind {
        Kind::FunctionExpression => Ok(is_same_function(source, number, rows, row)),
        Kind::VariableDeclaration => fits_head(alloc, source, number, rows, row),
        Kind::VariableDeclarator => fits_declaration(alloc, source, number, rows, row),
        Kind::ExpressionStatement => fits_list(alloc, source, there, rows, row),
        Kind::BlockStatement => fits_body(alloc, source, there, row),
        _ => Ok(true),
    }
}

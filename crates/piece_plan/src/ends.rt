//! How a statement or a field ends in the written text where it lacks its `;` (ECMA-262, clause 12.10).

use crate::inside::{is_bare_new, source_level};
use crate::kept::Kept;
use crate::source::SourceTree;
use crate::tokens::parens;
use asi_rules::{EndLevels, Ending};
use generic_printer::{OpenEnd, Row};
use js_tokens::Token;
use std::alloc::{AllocError, Global};
use tree_core::{Slot, Tree};
use tree_forms::{child, is_expression};
use type_defs::Kind;

const GROUPED: u8 = 19;

// Whether a `;` that may be missing ends the kind.
fn takes_semicolon(kind: Kind) -> bool {
    matches!(
        kind,
        Kind::Directive
            | Kind::ExpressionStatement
            | Kind::DebuggerStatement
            | Kind::ReturnStatement
            | Kind::BreakStatement
            | Kind::ContinueStatement
            | Kind::ThrowStatement
            | Kind::DoWhileStatement
            | Kind::VariableDeclaration
            | Kind::ImportDeclaration
            | Kind::ExportNamedDeclaration
            | Kind::ExportDefaultDeclaration
            | Kind::ExportAllDeclaration
            | Kind::PropertyDefinition
    )
}

fn last_in_list(node: &Tree, slot: usize) -> Option<&Tree> {
    let Some(Slot::List(places)) = node.slots.get(slot) else {
        return None;
    };
    let count = places.len();
    if count == 0 {
        return None;
    }
    match places.get(count - 1) {
        Some(place) => match &place.node {
            Some(node) => Some(node),
            None => None,
        },
        None => None,
    }
}

// The statement with which the statement ends, if it ends with one.
fn last_statement(node: &Tree) -> Option<&Tree> {
    match node.kind {
        Kind::WithStatement | Kind::LabeledStatement | Kind::WhileStatement => child(node, 1),
        Kind::ForStatement => child(node, 3),
        Kind::ForInStatement | Kind::ForOfStatement => child(node, 2),
        Kind::IfStatement => match child(node, 2) {
            Some(alternate) => Some(alternate),
            None => child(node, 1),
        },
        Kind::SwitchCase => last_in_list(node, 1),
        Kind::ExportNamedDeclaration => child(node, 0),
        _ => None,
    }
}

fn is_declaration(node: Option<&Tree>) -> bool {
    match node {
        Some(node) => matches!(
            node.kind,
            Kind::FunctionDeclaration | Kind::ClassDeclaration
        ),
        None => false,
    }
}

// The innermost statement that ends the node, where a `;` may be missing at its end.
fn ending(node: &Tree) -> Option<&Tree> {
    let mut here = node;
    for _level in 0..usize::MAX {
        match last_statement(here) {
            Some(last) => here = last,
            None => return closed(here),
        }
    }
    None
}

// Whether the export ends as the declaration does that it exports.
fn ends_as_declaration(node: &Tree) -> bool {
    match node.kind {
        Kind::ExportDefaultDeclaration => is_declaration(child(node, 0)),
        Kind::ExportNamedDeclaration => child(node, 0).is_some(),
        _ => false,
    }
}

fn closed(node: &Tree) -> Option<&Tree> {
    if !takes_semicolon(node.kind) || ends_as_declaration(node) {
        return None;
    }
    Some(node)
}

// The last expression of the statement or the field.
fn last_expression(node: &Tree) -> Option<&Tree> {
    match node.kind {
        Kind::ExpressionStatement | Kind::ReturnStatement | Kind::ThrowStatement => child(node, 0),
        Kind::ExportDefaultDeclaration => child(node, 0),
        Kind::VariableDeclaration => child(last_in_list(node, 0)?, 1),
        Kind::PropertyDefinition => child(node, 1),
        _ => None,
    }
}

// The child with which the expression ends, with no word behind it, where its form has one.
fn last_operand(node: &Tree) -> Option<&Tree> {
    match node.kind {
        Kind::ArrowFunctionExpression
        | Kind::TaggedTemplateExpression
        | Kind::BinaryExpression
        | Kind::LogicalExpression
        | Kind::AssignmentExpression => child(node, 1),
        Kind::ConditionalExpression => child(node, 2),
        Kind::ChainExpression | Kind::UnaryExpression | Kind::AwaitExpression => child(node, 0),
        Kind::YieldExpression => child(node, 0),
        Kind::SequenceExpression => last_in_list(node, 0),
        Kind::MemberExpression => {
            if node.scalars.is_truth_at(0, true) {
                return None;
            }
            child(node, 1)
        }
        Kind::UpdateExpression => {
            if node.scalars.is_truth_at(1, true) {
                return child(node, 0);
            }
            None
        }
        _ => None,
    }
}

// The greatest level of the ends of the source's expression of this number, which stands bare.
fn source_ends(
    alloc: Global,
    source: &SourceTree<'_>,
    number: usize,
    most: u8,
) -> Result<u8, AllocError> {
    let mut found = Vec::new(alloc);
    let mut most = most;
    let mut here = number;
    for _turn in 0..source.nodes.len() {
        let Some(node) = source.node(here) else {
            return Ok(most);
        };
        most = most.max(source_level(alloc, source, here)?);
        let Some(next) = end_below(alloc, source, here, node.node)? else {
            return Ok(most);
        };
        if parens(&mut found, source, next)? > 0 {
            return Ok(GROUPED);
        }
        here = next;
    }
    Ok(most)
}

// The expression with which the source's expression ends.
fn end_below(
    alloc: Global,
    source: &SourceTree<'_>,
    number: usize,
    node: &Tree,
) -> Result<Option<usize>, AllocError> {
    let last = if is_bare_new(alloc, source, number)? {
        child(node, 0)
    } else {
        last_operand(node)
    };
    match last {
        Some(last) => {
            if !is_expression(last.kind) {
                return Ok(None);
            }
            Ok(source.source_of(last))
        }
        None => Ok(None),
    }
}

// The same of an expression that has a row.
fn row_ends(
    alloc: Global,
    source: &SourceTree<'_>,
    rows: &[Row<'_>],
    at: usize,
) -> Result<u8, AllocError> {
    let mut most = 0;
    let mut here = at;
    for _turn in 0..rows.len() {
        let Some(row) = rows.get(here) else {
            return Ok(most);
        };
        if row.grouped {
            return Ok(GROUPED);
        }
        if row.kept {
            return match source.source_of(row.node) {
                Some(number) => source_ends(alloc, source, number, most),
                None => Ok(most.max(row.level)),
            };
        }
        most = most.max(row.level);
        let goes_on = last_operand(row.node).is_some() || row.level == BARE_NEW;
        if row.last == 0 || !goes_on || !ends_in_expression(rows, row.last) {
            return Ok(most);
        }
        here = row.last;
    }
    Ok(most)
}

// The level of a `new` without arguments, which ends with its callee.
const BARE_NEW: u8 = 16;

fn ends_in_expression(rows: &[Row<'_>], at: usize) -> bool {
    match rows.get(at) {
        Some(row) => is_expression(row.node.kind),
        None => false,
    }
}

fn is_escaped(text: &[u8]) -> bool {
    for byte in text {
        if *byte == b'\\' {
            return true;
        }
    }
    false
}

// How a field ends.
fn field_ending(node: &Tree, escaped: bool) -> Ending {
    if child(node, 1).is_some() {
        return Ending::FieldValue;
    }
    let Some(key) = child(node, 0) else {
        return Ending::Field;
    };
    if escaped || node.scalars.is_truth_at(0, true) || !matches!(key.kind, Kind::Identifier) {
        return Ending::Field;
    }
    if key.scalars.is_text_at(0, "get") || key.scalars.is_text_at(0, "set") {
        return Ending::AccessorName;
    }
    if key.scalars.is_text_at(0, "static") && !node.scalars.is_truth_at(1, true) {
        return Ending::StaticName;
    }
    Ending::Field
}

fn is_clause(node: &Tree) -> bool {
    matches!(node.kind, Kind::ExportNamedDeclaration)
        && child(node, 0).is_none()
        && child(node, 2).is_none()
}

fn ends_of(node: &Tree, most: u8, escaped: bool) -> OpenEnd {
    let word = if matches!(node.kind, Kind::PropertyDefinition) {
        field_ending(node, escaped)
    } else {
        Ending::Statement
    };
    OpenEnd {
        ends: EndLevels {
            least: most,
            most,
            clause: is_clause(node),
            word,
        },
        always: matches!(node.kind, Kind::DoWhileStatement),
    }
}

fn ends_with_semicolon(source: &SourceTree<'_>, end: u32) -> bool {
    let end = end as usize;
    let text = source.text.bytes();
    end > 0 && end <= text.len() && text[end - 1] == b';'
}

fn key_is_escaped(source: &SourceTree<'_>, node: &Tree) -> bool {
    let Some(key) = child(node, 0) else {
        return false;
    };
    let Some(number) = source.source_of(key) else {
        return false;
    };
    let span = source.span(number);
    let (start, end) = (span.start as usize, span.end as usize);
    let text = source.text.bytes();
    start <= end && end <= text.len() && is_escaped(&text[start..end])
}

// The source's tree for the node.
fn source_node<'s>(source: &SourceTree<'s>, node: &Tree) -> Option<&'s Tree> {
    Some(source.node(source.source_of(node)?)?.node)
}

// The end of a kept row's text.
fn kept_end(
    alloc: Global,
    source: &SourceTree<'_>,
    node: &Tree,
) -> Result<Option<OpenEnd>, AllocError> {
    let Some(there) = source_node(source, node) else {
        return Ok(None);
    };
    let Some(last) = ending(there) else {
        return Ok(None);
    };
    let Some(number) = source.source_of(last) else {
        return Ok(None);
    };
    if ends_with_semicolon(source, source.span(number).end) {
        return Ok(None);
    }
    let mut most = 0;
    if matches!(last.kind, Kind::Directive) {
        most = GROUPED;
    }
    if let Some(expression) = last_expression(last) {
        if let Some(end) = source.source_of(expression) {
            let mut found = Vec::new(alloc);
            most = if parens(&mut found, source, end)? > 0 {
                GROUPED
            } else {
                source_ends(alloc, source, end, 0)?
            };
        }
    }
    Ok(Some(ends_of(last, most, key_is_escaped(source, last))))
}

// The row of the last expression of the row's node.
fn last_expression_row(rows: &[Row<'_>], row: Row<'_>) -> usize {
    if last_expression(row.node).is_none() {
        return 0;
    }
    if !matches!(row.node.kind, Kind::VariableDeclaration) {
        return row.last;
    }
    match rows.get(row.last) {
        Some(declarator) => {
            if declarator.kept {
                return row.last;
            }
            declarator.last
        }
        None => 0,
    }
}

/// The end of a row whose last piece is kept, or is made without its `;`.
pub fn made_end(
    alloc: Global,
    source: &SourceTree<'_>,
    rows: &[Row<'_>],
    row: Row<'_>,
) -> Result<OpenEnd, AllocError> {
    let mut most = 0;
    if matches!(row.node.kind, Kind::Directive) {
        most = GROUPED;
    }
    let at = last_expression_row(rows, row);
    if at != 0 {
        most = if is_kept_declarator(rows, at) {
            declarator_ends(alloc, source, rows, at)?
        } else {
            row_ends(alloc, source, rows, at)?
        };
    }
    let escaped = matches!(row.node.kind, Kind::PropertyDefinition)
        && key_is_escaped(source, row.node);
    Ok(ends_of(row.node, most, escaped))
}

fn is_kept_declarator(rows: &[Row<'_>], at: usize) -> bool {
    match rows.get(at) {
        Some(row) => row.kept && matches!(row.node.kind, Kind::VariableDeclarator),
        None => false,
    }
}

fn declarator_ends(
    alloc: Global,
    source: &SourceTree<'_>,
    rows: &[Row<'_>],
    at: usize,
) -> Result<u8, AllocError> {
    let Some(row) = rows.get(at) else {
        return Ok(0);
    };
    let Some(there) = source_node(source, row.node) else {
        return Ok(0);
    };
    let Some(value) = child(there, 1) else {
        return Ok(0);
    };
    let Some(number) = source.source_of(value) else {
        return Ok(0);
    };
    let mut found: Vec<Token> = Vec::new(alloc);
    if parens(&mut found, source, number)? > 0 {
        return Ok(GROUPED);
    }
    source_ends(alloc, source, number, 0)
}

fn is_loop_head(rows: &[Row<'_>], row: Row<'_>) -> bool {
    if row.slot != 0 {
        return false;
    }
    match rows.get(row.parent) {
        Some(parent) => matches!(
            parent.node.kind,
            Kind::ForStatement | Kind::ForInStatement | Kind::ForOfStatement
        ),
        None => false,
    }
}

/// How the row's text ends, where it lacks a `;`: the row is kept, or its last piece is.
pub fn open_end(
    alloc: Global,
    source: &SourceTree<'_>,
    kept: &Kept,
    rows: &[Row<'_>],
    at: usize,
) -> Result<Option<OpenEnd>, AllocError> {
    let Some(found) = rows.get(at) else {
        return Ok(None);
    };
    let row = *found;
    if is_loop_head(rows, row) {
        return Ok(None);
    }
    if row.kept {
        return kept_end(alloc, source, row.node);
    }
    if closed(row.node).is_none() || has_semicolon(source, kept, rows, at) {
        return Ok(None);
    }
    Ok(Some(made_end(alloc, source, rows, row)?))
}

// How many children the row has.
fn child_count(rows: &[Row<'_>], at: usize) -> usize {
    let mut count = 0usize;
    let mut here = match rows.get(at) {
        Some(row) => row.first,
        None => 0,
    };
    for _turn in 0..rows.len() {
        if here == 0 {
            return count;
        }
        count = count.saturating_add(1);
        here = match rows.get(here) {
            Some(row) => row.next,
            None => 0,
        };
    }
    count
}

// Whether the row's last piece is not kept, or has a `;`.
fn has_semicolon(source: &SourceTree<'_>, kept: &Kept, rows: &[Row<'_>], at: usize) -> bool {
    match kept.piece(at, child_count(rows, at)) {
        Some(piece) => {
            piece.span.end > piece.span.start && ends_with_semicolon(source, piece.span.end)
        }
        None => true,
    }
}

//! Lists of the source: their items, and the children beside a place.

use js_tokens::Token;
use piece_plan::{SourceTree, grouping, place_at, place_count};
use std::alloc::AllocError;
use tree_core::{Span, Tree};
use tree_forms::{ALONE, form, is_mirror};
use type_defs::Kind;

/// The slot of the kind that is a list, if one is.
pub fn list_slot(kind: Kind) -> Option<usize> {
    match kind {
        Kind::ArrayExpression
        | Kind::ObjectExpression
        | Kind::ArrayPattern
        | Kind::ObjectPattern
        | Kind::SequenceExpression
        | Kind::VariableDeclaration
        | Kind::ArrowFunctionExpression
        | Kind::ImportDeclaration
        | Kind::ClassBody
        | Kind::Program
        | Kind::BlockStatement
        | Kind::StaticBlock => Some(0),
        Kind::FunctionExpression
        | Kind::FunctionDeclaration
        | Kind::CallExpression
        | Kind::NewExpression
        | Kind::ExportNamedDeclaration
        | Kind::SwitchStatement
        | Kind::SwitchCase => Some(1),
        _ => None,
    }
}

/// Whether the kind's list is one of lines.
pub fn is_line_list(kind: Kind) -> bool {
    matches!(
        kind,
        Kind::ClassBody
            | Kind::Program
            | Kind::BlockStatement
            | Kind::SwitchStatement
            | Kind::SwitchCase
            | Kind::StaticBlock
    )
}

/// Whether a child in the slot of the owner is an item of its list.
pub fn is_list_item(owner: Kind, slot: usize, child: Kind) -> bool {
    match list_slot(owner) {
        Some(list) => {
            slot == list
                && (!matches!(owner, Kind::ImportDeclaration)
                    || matches!(child, Kind::ImportSpecifier))
        }
        None => false,
    }
}

// Whether the slot holds a name that is spelled for another one.
fn is_mirror_slot(node: &Tree, slot: usize) -> bool {
    match form(node, ALONE) {
        Some(variant) => is_mirror(variant, slot),
        None => false,
    }
}

// The source node at the place, where one is spelled there.
fn spelled_at(source: &SourceTree<'_>, node: &Tree, ordinal: usize) -> Option<usize> {
    let (slot, place) = place_at(node, ordinal)?;
    let child = match &place.node {
        Some(child) => source.source_of(child)?,
        None => return None,
    };
    if is_mirror_slot(node, slot) {
        return None;
    }
    Some(child)
}

/// The child before the place of this number.
pub fn previous_spelled(source: &SourceTree<'_>, owner: usize, ordinal: usize) -> Option<usize> {
    let node = source.node(owner)?.node;
    for behind in 0..ordinal {
        let at = ordinal - 1 - behind;
        if let Some(child) = spelled_at(source, node, at) {
            return Some(child);
        }
    }
    None
}

/// The child at the place of this number or behind it.
pub fn next_spelled(source: &SourceTree<'_>, owner: usize, ordinal: usize) -> Option<usize> {
    let node = source.node(owner)?.node;
    for at in ordinal..place_count(node) {
        if let Some(child) = spelled_at(source, node, at) {
            return Some(child);
        }
    }
    None
}

/// The owner of the list in which the node of this number is an item.
pub fn position(source: &SourceTree<'_>, number: usize) -> Option<usize> {
    if number == 0 {
        return None;
    }
    let node = source.node(number)?;
    let owner = source.node(node.parent)?;
    if !is_list_item(owner.node.kind, node.slot, node.node.kind) {
        return None;
    }
    Some(node.parent)
}

fn item_of(source: &SourceTree<'_>, owner: usize, child: Option<usize>) -> Option<usize> {
    let child = child?;
    if position(source, child)? == owner {
        return Some(child);
    }
    None
}

/// The item behind this one.
pub fn next_item(source: &SourceTree<'_>, item: usize) -> Option<usize> {
    let node = source.node(item)?;
    let next = next_spelled(source, node.parent, node.ordinal.saturating_add(1));
    item_of(source, node.parent, next)
}

/// The item before this one.
pub fn previous_item(source: &SourceTree<'_>, item: usize) -> Option<usize> {
    let node = source.node(item)?;
    let previous = previous_spelled(source, node.parent, node.ordinal);
    item_of(source, node.parent, previous)
}

// The number of the first place of the slot, and that behind its last one.
fn places_of(node: &Tree, slot: usize) -> (usize, usize) {
    let mut start = 0usize;
    let slots = node.slots.as_slice();
    for at in 0..slots.len() {
        let width = piece_plan::width(&slots[at]);
        let end = start.saturating_add(width);
        if at == slot {
            return (start, end);
        }
        start = end;
    }
    (start, start)
}

/// The first item of the node's list.
pub fn first_item(source: &SourceTree<'_>, owner: usize) -> Option<usize> {
    let node = source.node(owner)?.node;
    let (start, end) = places_of(node, list_slot(node.kind)?);
    for ordinal in start..end {
        let found = item_of(source, owner, spelled_at(source, node, ordinal));
        if found.is_some() {
            return found;
        }
    }
    None
}

/// The last item of the node's list.
pub fn last_item(source: &SourceTree<'_>, owner: usize) -> Option<usize> {
    let node = source.node(owner)?.node;
    let (start, end) = places_of(node, list_slot(node.kind)?);
    for behind in 0..end.saturating_sub(start) {
        let ordinal = end.saturating_sub(behind).saturating_sub(1);
        let found = item_of(source, owner, spelled_at(source, node, ordinal));
        if found.is_some() {
            return found;
        }
    }
    None
}

/// The item of the owner's list in which the node of this number lies.
pub fn holder(source: &SourceTree<'_>, owner: usize, number: usize) -> Option<usize> {
    let mut here = number;
    for _level in 0..source.nodes.len() {
        let node = source.node(here)?;
        if node.parent == owner && here != owner {
            return item_of(source, owner, Some(here));
        }
        if here == 0 {
            return None;
        }
        here = node.parent;
    }
    None
}

/// The span of the node with its grouping parentheses.
pub fn outer_span(
    found: &mut Vec<Token>,
    source: &SourceTree<'_>,
    number: usize,
) -> Result<Span, AllocError> {
    grouping(found, source, number)
}

//! What lies bare inside a span of the source: the level of its expression, what it begins with, and
//! whether it holds an `in` that no brackets hold.

use crate::source::SourceTree;
use crate::tokens::parens;
use generic_printer::Row;
use js_forms::{CALL, Form, MEMBER, PRIMARY, Spelling, spelled_level};
use js_tokens::Token;
use paren_rules::Start;
use std::alloc::{AllocError, Global};
use tree_core::{Slot, Tree};
use tree_forms::{ALONE, Variant, child, form, is_expression};
use type_defs::Kind;

// The number of the source's child in the slot.
fn child_number(source: &SourceTree<'_>, node: &Tree, slot: usize) -> Option<usize> {
    source.source_of(child(node, slot)?)
}

fn has_arguments(node: &Tree) -> bool {
    match node.slots.get(1) {
        Some(Slot::List(places)) => !places.is_empty(),
        _ => false,
    }
}

/// Whether the `new` of this number is spelled without arguments.
pub fn is_bare_new(
    alloc: Global,
    source: &SourceTree<'_>,
    number: usize,
) -> Result<bool, AllocError> {
    let Some(new) = source.node(number) else {
        return Ok(false);
    };
    if !matches!(new.node.kind, Kind::NewExpression) || has_arguments(new.node) {
        return Ok(false);
    }
    let Some(callee) = child_number(source, new.node, 0) else {
        return Ok(false);
    };
    let mut found = Vec::new(alloc);
    let pairs = parens(&mut found, source, callee)?;
    ends_behind(source, number, callee, pairs, &mut found)
}

// Whether no token but so many closing parentheses stands behind the child.
fn ends_behind(
    source: &SourceTree<'_>,
    number: usize,
    child: usize,
    pairs: usize,
    found: &mut Vec<Token>,
) -> Result<bool, AllocError> {
    let behind = tree_core::Span {
        start: source.span(child).end,
        end: source.span(number).end,
    };
    crate::tokens::tokens_in(found, source.text, behind)?;
    Ok(found.len() == pairs)
}

// The node whose level tells that of the links above it, or none where these are members of
// something bound more tightly.
fn below_links(
    found: &mut Vec<Token>,
    source: &SourceTree<'_>,
    number: usize,
) -> Result<Option<usize>, AllocError> {
    let mut here = number;
    for _turn in 0..source.nodes.len() {
        let Some(node) = source.node(here) else {
            return Ok(None);
        };
        if !goes_by_first(form(node.node, ALONE)) {
            return Ok(Some(here));
        }
        let Some(first) = child_number(source, node.node, 0) else {
            return Ok(None);
        };
        if parens(found, source, first)? > 0 {
            return Ok(None);
        }
        here = first;
    }
    Ok(None)
}

fn goes_by_first(variant: Option<Variant>) -> bool {
    match variant {
        Some(variant) => matches!(variant.form, Form::Dot(_) | Form::Index(_) | Form::Tagged),
        None => false,
    }
}

// The level of a node that is no member and no tagged template.
fn own_level(
    alloc: Global,
    source: &SourceTree<'_>,
    number: usize,
    node: &Tree,
) -> Result<u8, AllocError> {
    let Some(variant) = form(node, ALONE) else {
        return Ok(PRIMARY);
    };
    let spelling = if is_bare_new(alloc, source, number)? {
        Spelling::WithoutArguments
    } else {
        variant.spelling
    };
    Ok(spelled_level(variant.form, spelling))
}

/// The level of the source's expression of this number, as it is spelled.
pub fn source_level(
    alloc: Global,
    source: &SourceTree<'_>,
    number: usize,
) -> Result<u8, AllocError> {
    let Some(node) = source.node(number) else {
        return Ok(PRIMARY);
    };
    if !goes_by_first(form(node.node, ALONE)) {
        return own_level(alloc, source, number, node.node);
    }
    let mut found = Vec::new(alloc);
    let Some(first) = below_links(&mut found, source, number)? else {
        return Ok(MEMBER);
    };
    let Some(below) = source.node(first) else {
        return Ok(MEMBER);
    };
    if is_expression(below.node.kind) && own_level(alloc, source, first, below.node)? == CALL {
        return Ok(CALL);
    }
    Ok(MEMBER)
}

fn is_object_pattern(node: Option<&Tree>) -> bool {
    match node {
        Some(node) => matches!(node.kind, Kind::ObjectPattern),
        None => false,
    }
}

fn begins_with_brace(node: &Tree) -> bool {
    match node.kind {
        Kind::ObjectExpression => true,
        Kind::AssignmentExpression => is_object_pattern(child(node, 0)),
        _ => false,
    }
}

fn starts_badly(start: Start, node: &Tree) -> bool {
    let function = matches!(node.kind, Kind::FunctionExpression | Kind::ClassExpression);
    match start {
        Start::Inside => false,
        Start::Statement => function || begins_with_brace(node),
        Start::Default => function,
        Start::ArrowBody => begins_with_brace(node),
    }
}

// The first child, where the node begins with it, bare.
fn bare_first(source: &SourceTree<'_>, number: usize, node: &Tree) -> Option<usize> {
    let first = child_number(source, node, 0)?;
    if first == number || source.span(first).start != source.span(number).start {
        return None;
    }
    Some(first)
}

// Whether the bare beginning of the span is what may not begin there.
fn begins_badly(source: &SourceTree<'_>, number: usize, start: Start) -> bool {
    let mut here = number;
    for _turn in 0..source.nodes.len() {
        let Some(node) = source.node(here) else {
            return false;
        };
        if starts_badly(start, node.node) {
            return true;
        }
        let Some(first) = bare_first(source, here, node.node) else {
            return false;
        };
        here = first;
    }
    false
}

fn is_in(node: &Tree) -> bool {
    matches!(node.kind, Kind::BinaryExpression) && node.scalars.is_text_at(0, "in")
}

// Whether no brackets of the node hold its child in the slot.
fn lies_open(kind: Kind, slot: usize) -> bool {
    match kind {
        Kind::BinaryExpression
        | Kind::LogicalExpression
        | Kind::SequenceExpression
        | Kind::UnaryExpression
        | Kind::AwaitExpression
        | Kind::YieldExpression
        | Kind::SpreadElement
        | Kind::VariableDeclaration => true,
        Kind::ConditionalExpression => slot != 1,
        Kind::AssignmentExpression
        | Kind::ArrowFunctionExpression
        | Kind::VariableDeclarator
        | Kind::AssignmentPattern => slot == 1,
        _ => false,
    }
}

// The children that lie open in the node, to be looked at.
fn push_open(
    waiting: &mut Vec<usize>,
    found: &mut Vec<Token>,
    source: &SourceTree<'_>,
    node: &Tree,
) -> Result<(), AllocError> {
    let slots = node.slots.as_slice();
    for slot in 0..slots.len() {
        if lies_open(node.kind, slot) {
            push_bare(waiting, found, source, &slots[slot])?;
        }
    }
    Ok(())
}

fn push_one(
    waiting: &mut Vec<usize>,
    found: &mut Vec<Token>,
    source: &SourceTree<'_>,
    child: Option<&Tree>,
) -> Result<(), AllocError> {
    let Some(child) = child else {
        return Ok(());
    };
    if matches!(child.kind, Kind::BlockStatement) {
        return Ok(());
    }
    if let Some(number) = source.source_of(child) {
        if parens(found, source, number)? == 0 {
            waiting.push(number)?;
        }
    }
    Ok(())
}

fn node_of(place: &tree_core::Place) -> Option<&Tree> {
    match &place.node {
        Some(node) => Some(node),
        None => None,
    }
}

fn push_bare(
    waiting: &mut Vec<usize>,
    found: &mut Vec<Token>,
    source: &SourceTree<'_>,
    slot: &Slot,
) -> Result<(), AllocError> {
    match slot {
        Slot::Single(place) => push_one(waiting, found, source, node_of(place)),
        Slot::List(places) => {
            for place in places.as_slice() {
                push_one(waiting, found, source, node_of(place))?;
            }
            Ok(())
        }
    }
}

/// Whether the span of the node holds an `in` that no brackets hold.
pub fn has_bare_in(
    alloc: Global,
    source: &SourceTree<'_>,
    number: usize,
) -> Result<bool, AllocError> {
    let mut waiting = Vec::new(alloc);
    let mut found = Vec::new(alloc);
    waiting.push(number)?;
    for _turn in 0..source.nodes.len() {
        let Some(here) = waiting.pop() else {
            return Ok(false);
        };
        if let Some(node) = source.node(here) {
            if is_in(node.node) {
                return Ok(true);
            }
            push_open(&mut waiting, &mut found, source, node.node)?;
        }
    }
    Ok(false)
}

/// Whether the row's node, kept and bare, may not stand there for what it begins with or holds.
pub fn needs_parens(
    alloc: Global,
    source: &SourceTree<'_>,
    row: Row<'_>,
    start: Start,
) -> Result<bool, AllocError> {
    let Some(number) = source.source_of(row.node) else {
        return Ok(false);
    };
    if begins_badly(source, number, start) {
        return Ok(true);
    }
    if !row.context.no_in || !is_expression(row.node.kind) {
        return Ok(false);
    }
    has_bare_in(alloc, source, number)
}

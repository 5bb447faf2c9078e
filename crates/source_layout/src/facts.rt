//! Facts of a whole source: by how much it indents, which blanks open its lines, and whether it is
//! written without semicolons.

use crate::atoms::{GapName, gap_of};
use crate::lists::{first_item, list_slot, previous_spelled};
use crate::styles::{begins_at, style_of};
use piece_plan::{SourceTree, offset};
use std::alloc::{AllocError, Global};
use tree_core::{Span, Tree};
use type_defs::Kind;

/// By how much a list is indented, and the blanks of an item that show it.
#[derive(Clone, Copy, Debug, PartialEq, Eq)]
pub struct Unit {
    pub width: u64,
    pub front: Span,
}

/// What is known of the whole source.
#[derive(Clone, Copy, Debug, PartialEq, Eq)]
pub struct FileFacts {
    pub unit: Option<Unit>,
    /// The first blanks, not empty, that open the line of an item of a line list.
    pub pattern: Option<Span>,
    pub no_semicolons: bool,
    /// The first quote of the source, of a string or a directive.
    pub quote: Option<u8>,
}

fn is_blank(byte: u8) -> bool {
    byte == b' ' || byte == b'\t'
}

// Whether a line end ends right before the offset.
fn follows_line_end(text: &[u8], at: usize) -> bool {
    if at == 0 || at > text.len() {
        return at == 0;
    }
    let last = text[at - 1];
    if last == b'\n' || last == b'\r' {
        return true;
    }
    at > 2 && (last == 0xA8 || last == 0xA9) && text[at - 2] == 0x80 && text[at - 3] == 0xE2
}

// Where the blanks begin that end at the offset.
fn blanks_before(text: &[u8], at: u32) -> usize {
    let at = (at as usize).min(text.len());
    for behind in 0..at {
        let here = at - behind;
        if here == 0 || here > text.len() || !is_blank(text[here - 1]) {
            return here;
        }
    }
    0
}

/// Whether only blanks stand on the line before the offset, and U+FEFF at the text's start.
pub fn stands_first(text: &[u8], at: u32) -> bool {
    let start = blanks_before(text, at);
    if start == 0 || follows_line_end(text, start) {
        return true;
    }
    start == 3
        && match text {
            [0xEF, 0xBB, 0xBF, ..] => true,
            _ => false,
        }
}

/// The blanks of the line that stand before the offset, where nothing else does.
pub fn line_front(text: &[u8], at: u32) -> Span {
    let start = blanks_before(text, at);
    let mut end = at as usize;
    for here in (at as usize)..text.len() {
        if !is_blank(text[here]) {
            return Span {
                start: offset(start),
                end: offset(here),
            };
        }
        end = here.saturating_add(1);
    }
    Span {
        start: offset(start),
        end: offset(end),
    }
}

/// The width of the blanks, a tab going to the next multiple of `tab`.
pub fn width_of(text: &[u8], blanks: Span, tab: u8) -> u64 {
    let tab = u64::from(tab.max(1));
    let mut width = 0u64;
    for at in (blanks.start as usize)..(blanks.end as usize).min(text.len()) {
        width = if text[at] == b'\t' {
            (width / tab).saturating_add(1).saturating_mul(tab)
        } else {
            width.saturating_add(1)
        };
    }
    width
}

fn shows_unit(kind: Kind) -> bool {
    matches!(
        kind,
        Kind::ObjectExpression
            | Kind::ClassBody
            | Kind::BlockStatement
            | Kind::SwitchStatement
            | Kind::StaticBlock
    )
}

/// The unit that the list of the node shows, if it shows one.
pub fn unit_of(
    alloc: Global,
    source: &SourceTree<'_>,
    owner: usize,
    tab: u8,
) -> Result<Option<Unit>, AllocError> {
    let Some(node) = source.node(owner) else {
        return Ok(None);
    };
    let text = source.text.bytes();
    let close = source.span(owner).end.saturating_sub(1);
    if !shows_unit(node.node.kind) || !stands_first(text, close) {
        return Ok(None);
    }
    let Some(item) = first_item(source, owner) else {
        return Ok(None);
    };
    let ordinal = match source.node(item) {
        Some(item) => item.ordinal,
        None => 0,
    };
    let gap = gap_of(
        alloc,
        source,
        GapName {
            owner,
            left: previous_spelled(source, owner, ordinal),
            right: Some(item),
        },
    )?;
    let mut found = Vec::new(alloc);
    let Some(at) = begins_at(&mut found, source, &gap, item)? else {
        return Ok(None);
    };
    let front = line_front(text, at);
    let inner = width_of(text, front, tab);
    let outer = width_of(text, line_front(text, close), tab);
    if inner > outer {
        return Ok(Some(Unit {
            width: inner - outer,
            front,
        }));
    }
    Ok(None)
}

fn first_unit(alloc: Global, source: &SourceTree<'_>, tab: u8) -> Result<Option<Unit>, AllocError> {
    for number in 0..source.nodes.len() {
        if shows_unit(source.nodes[number].node.kind) {
            let unit = unit_of(alloc, source, number, tab)?;
            if unit.is_some() {
                return Ok(unit);
            }
        }
    }
    Ok(None)
}

fn is_line_list(kind: Kind) -> bool {
    crate::lists::is_line_list(kind) && list_slot(kind).is_some()
}

fn first_pattern(alloc: Global, source: &SourceTree<'_>) -> Result<Option<Span>, AllocError> {
    for number in 0..source.nodes.len() {
        if is_line_list(source.nodes[number].node.kind) {
            if let Some(front) = style_of(alloc, source, number)?.inner_front {
                if front.end > front.start {
                    return Ok(Some(front));
                }
            }
        }
    }
    Ok(None)
}

// Whether the statement's `;` tells how the source is written.
fn tells_semicolons(source: &SourceTree<'_>, number: usize, node: &Tree) -> bool {
    match node.kind {
        Kind::Directive
        | Kind::ExpressionStatement
        | Kind::DebuggerStatement
        | Kind::ReturnStatement
        | Kind::BreakStatement
        | Kind::ContinueStatement
        | Kind::ThrowStatement
        | Kind::ImportDeclaration
        | Kind::ExportAllDeclaration => true,
        Kind::VariableDeclaration => is_declared_in_list(source, number),
        _ => false,
    }
}

fn is_declared_in_list(source: &SourceTree<'_>, number: usize) -> bool {
    let Some(node) = source.node(number) else {
        return false;
    };
    match source.node(node.parent) {
        Some(parent) => {
            let kind = parent.node.kind;
            (crate::lists::is_line_list(kind) && list_slot(kind) == Some(node.slot))
                || matches!(kind, Kind::ExportNamedDeclaration)
        }
        None => false,
    }
}

fn has_semicolon(source: &SourceTree<'_>, number: usize) -> bool {
    let text = source.text.bytes();
    let end = source.span(number).end;
    let at = end as usize;
    at > 0 && at <= text.len() && text[at - 1] == b';' && !stands_first(text, end.saturating_sub(1))
}

fn lacks_semicolons(source: &SourceTree<'_>) -> bool {
    let (mut lacking, mut having) = (0usize, 0usize);
    for number in 0..source.nodes.len() {
        if tells_semicolons(source, number, source.nodes[number].node) {
            if has_semicolon(source, number) {
                having = having.saturating_add(1);
            } else {
                lacking = lacking.saturating_add(1);
            }
        }
    }
    lacking >= 3 && having.saturating_mul(10) <= lacking
}

/// The quote in which the source's string or directive of this number stands.
pub fn quote_at(source: &SourceTree<'_>, number: usize) -> Option<u8> {
    let node = source.node(number)?.node;
    let quoted = match node.kind {
        Kind::Directive => true,
        Kind::Literal => node.scalars.is_text_at(0, "string"),
        _ => false,
    };
    if !quoted {
        return None;
    }
    let at = source.span(number).start as usize;
    let text = source.text.bytes();
    if at < text.len() {
        return Some(text[at]);
    }
    None
}

fn first_quote(source: &SourceTree<'_>) -> Option<u8> {
    for number in 0..source.nodes.len() {
        let quote = quote_at(source, number);
        if quote.is_some() {
            return quote;
        }
    }
    None
}

/// The facts of the source, with tabs of this width.
pub fn facts_of(alloc: Global, source: &SourceTree<'_>, tab: u8) -> Result<FileFacts, AllocError> {
    Ok(FileFacts {
        unit: first_unit(alloc, source, tab)?,
        pattern: first_pattern(alloc, source)?,
        no_semicolons: lacks_semicolons(source),
        quote: first_quote(source),
    })
}

//! The tokens of the source between the children of a node, and the grouping parentheses round a child.

use crate::nodes::{SourceNode, place_at, place_count, width};
use crate::source::SourceTree;
use cm_text::Source;
use js_lexer::next;
use js_tokens::{Goal, Punctuator, Token, TokenKind};
use std::alloc::AllocError;
use tree_core::{Span, Tree};
use tree_forms::is_expression;
use type_defs::Kind;

// The first token at or behind the offset, where it ends before `end`.
fn token_at(text: &Source, at: u32, end: u32) -> Option<Token> {
    if at >= end || at as usize > text.bytes().len() {
        return None;
    }
    match next(text, at, Goal::Div) {
        Ok(token) => {
            if token.end > end || token.kind == TokenKind::End {
                return None;
            }
            Some(token)
        }
        Err(_) => None,
    }
}

/// Adds the tokens of the span, in which no literal stands.
pub fn tokens_in(found: &mut Vec<Token>, text: &Source, span: Span) -> Result<(), AllocError> {
    found.clear();
    let mut at = span.start;
    for _turn in 0..text.bytes().len() {
        let Some(token) = token_at(text, at, span.end) else {
            return Ok(());
        };
        if token.end <= at {
            return Ok(());
        }
        found.push(token)?;
        at = token.end;
    }
    Ok(())
}

fn is_mark(kind: TokenKind, mark: Punctuator) -> bool {
    kind == TokenKind::Punctuator(mark)
}

// How many opening parentheses end the tokens.
fn openers(tokens: &[Token]) -> usize {
    for behind in 0..tokens.len() {
        let at = tokens.len() - 1 - behind;
        if !is_mark(tokens[at].kind, Punctuator::OpenParen) {
            return behind;
        }
    }
    tokens.len()
}

// How many closing parentheses the tokens begin with.
fn closers(tokens: &[Token]) -> usize {
    for at in 0..tokens.len() {
        if !is_mark(tokens[at].kind, Punctuator::CloseParen) {
            return at;
        }
    }
    tokens.len()
}

// Whether the form has a `(` right before a child in the slot, the first one there.
fn opens_before(owner: Kind, slot: usize) -> bool {
    match owner {
        Kind::CallExpression | Kind::NewExpression => slot == 1,
        Kind::DoWhileStatement => slot == 1,
        Kind::ImportExpression
        | Kind::IfStatement
        | Kind::WhileStatement
        | Kind::SwitchStatement
        | Kind::WithStatement
        | Kind::ForStatement
        | Kind::ForInStatement
        | Kind::ForOfStatement => slot == 0,
        _ => false,
    }
}

// Whether the form has a `)` right behind a child in the slot, the last one there.
fn closes_behind(owner: Kind, slot: usize) -> bool {
    match owner {
        Kind::CallExpression | Kind::NewExpression => slot == 1,
        Kind::DoWhileStatement => slot == 1,
        Kind::ImportExpression
        | Kind::IfStatement
        | Kind::WhileStatement
        | Kind::SwitchStatement
        | Kind::WithStatement => slot == 0,
        Kind::ForInStatement | Kind::ForOfStatement => slot == 1,
        Kind::ForStatement => slot == 2,
        _ => false,
    }
}

// The end of the last child before the place of this number, or the start of the node.
fn end_before(source: &SourceTree<'_>, node: &Tree, whole: Span, ordinal: usize) -> u32 {
    for behind in 0..ordinal {
        let at = ordinal - 1 - behind;
        if let Some((_, place)) = place_at(node, at) {
            if let Some(child) = &place.node {
                if let Some(number) = source.source_of(child) {
                    return source.span(number).end.min(whole.end);
                }
            }
        }
    }
    whole.start
}

// The start of the first child behind the place of this number, or the end of the node.
fn start_behind(source: &SourceTree<'_>, node: &Tree, whole: Span, ordinal: usize) -> u32 {
    for at in ordinal.saturating_add(1)..place_count(node) {
        if let Some((_, place)) = place_at(node, at) {
            if let Some(child) = &place.node {
                if let Some(number) = source.source_of(child) {
                    return source.span(number).start.max(whole.start);
                }
            }
        }
    }
    whole.end
}

// Whether children in the slot stand in parentheses of the form's own, and are no expressions there.
fn is_parameter(owner: Kind, slot: usize) -> bool {
    match owner {
        Kind::ArrowFunctionExpression | Kind::CatchClause => slot == 0,
        Kind::FunctionExpression | Kind::FunctionDeclaration => slot == 1,
        _ => false,
    }
}

fn is_first(parent: &Tree, child: SourceNode<'_>) -> bool {
    if child.ordinal == 0 {
        return true;
    }
    match place_at(parent, child.ordinal - 1) {
        Some((slot, _)) => slot != child.slot,
        None => true,
    }
}

fn is_last(parent: &Tree, child: SourceNode<'_>) -> bool {
    match place_at(parent, child.ordinal.saturating_add(1)) {
        Some((slot, _)) => slot != child.slot,
        None => true,
    }
}

fn is_comma_at(tokens: &[Token], at: usize) -> bool {
    match tokens.get(at) {
        Some(token) => is_mark(token.kind, Punctuator::Comma),
        None => false,
    }
}

// The number of the place with which the search before the child begins, and of that with which the
// search behind it does. The characters of a template stand between its expressions.
fn neighbours(parent: &Tree, child: SourceNode<'_>) -> (usize, usize) {
    if matches!(parent.kind, Kind::TemplateLiteral) && child.slot == 1 {
        let characters = match parent.slots.get(0) {
            Some(slot) => width(slot),
            None => 0,
        };
        let at = child.ordinal.saturating_sub(characters);
        return (at.saturating_add(1), at);
    }
    (child.ordinal, child.ordinal)
}

// The opening parentheses before the child that are not the form's own.
fn opened(
    found: &mut Vec<Token>,
    source: &SourceTree<'_>,
    number: usize,
    child: SourceNode<'_>,
    parent: SourceNode<'_>,
) -> Result<usize, AllocError> {
    let whole = source.span(child.parent);
    let before = Span {
        start: end_before(source, parent.node, whole, neighbours(parent.node, child).0),
        end: source.span(number).start,
    };
    tokens_in(found, source.text, before)?;
    let own = opens_before(parent.node.kind, child.slot) && is_first(parent.node, child);
    Ok(openers(found.as_slice()).saturating_sub(usize::from(own)))
}

// The closing parentheses behind the child that are not the form's own.
fn closed(
    found: &mut Vec<Token>,
    source: &SourceTree<'_>,
    number: usize,
    child: SourceNode<'_>,
    parent: SourceNode<'_>,
) -> Result<usize, AllocError> {
    let whole = source.span(child.parent);
    let behind = Span {
        start: source.span(number).end,
        end: start_behind(source, parent.node, whole, neighbours(parent.node, child).1),
    };
    tokens_in(found, source.text, behind)?;
    let count = closers(found.as_slice());
    let own = closes_behind(parent.node.kind, child.slot)
        && is_last(parent.node, child)
        && !is_comma_at(found.as_slice(), count);
    Ok(count.saturating_sub(usize::from(own)))
}

/// How many pairs of grouping parentheses stand round the node of this number.
pub fn parens(
    found: &mut Vec<Token>,
    source: &SourceTree<'_>,
    number: usize,
) -> Result<usize, AllocError> {
    let Some(child) = source.node(number) else {
        return Ok(0);
    };
    let Some(parent) = source.node(child.parent) else {
        return Ok(0);
    };
    if number == 0
        || !is_expression(child.node.kind)
        || is_parameter(parent.node.kind, child.slot)
    {
        return Ok(0);
    }
    let open = opened(found, source, number, child, parent)?;
    if open == 0 {
        return Ok(0);
    }
    Ok(open.min(closed(found, source, number, child, parent)?))
}

fn start_of(tokens: &[Token], behind: usize, start: u32) -> u32 {
    match tokens.get(tokens.len().saturating_sub(behind)) {
        Some(token) => token.start,
        None => start,
    }
}

fn end_of(tokens: &[Token], count: usize, end: u32) -> u32 {
    match tokens.get(count.saturating_sub(1)) {
        Some(token) => token.end,
        None => end,
    }
}

/// The span of the node of this number with its grouping parentheses.
pub fn grouping(
    found: &mut Vec<Token>,
    source: &SourceTree<'_>,
    number: usize,
) -> Result<Span, AllocError> {
    let span = source.span(number);
    let pairs = parens(found, source, number)?;
    let Some(child) = source.node(number) else {
        return Ok(span);
    };
    let Some(parent) = source.node(child.parent) else {
        return Ok(span);
    };
    if pairs == 0 {
        return Ok(span);
    }
    let _opened = opened(found, source, number, child, parent)?;
    let start = start_of(found.as_slice(), pairs, span.start);
    let _closed = closed(found, source, number, child, parent)?;
    Ok(Span {
        start,
        end: end_of(found.as_slice(), pairs, span.end),
    })
}

//! Attaches the comments of a source. A comment belongs to the innermost node around it, and there to
//! the gap between two children in which it stands, or to the one before the first or behind the
//! last.
//!
//! In a gap the comments up to the last that begins on the line of the child before them, with the
//! next token on a later line, go after that child. The others go before the child behind them. Where
//! no child is behind, they go after the one before, and in a node without children inside.

use crate::attached::{Attached, Side};
use crate::children::{child_at, place_count};
use cm_text::Source;
use js_lexer::{has_line_end, next};
use js_tokens::Goal;
use std::alloc::AllocError;
use tree_core::{Span, Tree};

/// The source with the spans of its nodes, by the numbers that they had when they were read, and
/// of its comments.
#[derive(Clone, Copy)]
pub struct Spanned<'a> {
    pub source: &'a Source,
    pub spans: &'a [Span],
    pub comments: &'a [Span],
}

const NOWHERE: Span = Span { start: 0, end: 0 };

impl<'a> Spanned<'a> {
    /// The span of the node with this number.
    pub fn span_of(&self, node: Option<u32>) -> Span {
        let Some(number) = node else {
            return NOWHERE;
        };
        match self.spans.get(number as usize) {
            Some(span) => *span,
            None => NOWHERE,
        }
    }

    // The first of the comments from one up to another that begins at the offset or behind it.
    fn first_from(&self, from: usize, to: usize, at: u32) -> usize {
        for number in from..to.min(self.comments.len()) {
            if self.comments[number].start >= at {
                return number;
            }
        }
        to
    }

    // Whether a line end stands between the offsets.
    fn breaks_between(&self, from: u32, to: u32) -> bool {
        let text = self.source.bytes();
        let to = (to as usize).min(text.len());
        let from = (from as usize).min(to);
        has_line_end(&text[from..to])
    }

    // Whether the token behind the comment stands on a later line than the comment begins on.
    fn is_last_on_line(&self, comment: Span) -> bool {
        let len = self.source.bytes().len() as u32;
        match next(self.source, comment.start.min(len), Goal::Div) {
            Ok(token) => token.broken_before,
            Err(_) => false,
        }
    }

    // Of the comments of a gap behind the node, the first that does not go after it.
    fn first_behind(&self, node: Option<u32>, from: usize, to: usize) -> usize {
        let mut at = self.span_of(node).end;
        let mut last = None;
        for number in from..to.min(self.comments.len()) {
            let comment = self.comments[number];
            if self.breaks_between(at, comment.start) {
                break;
            }
            at = comment.start;
            last = Some((comment, number));
        }
        match last {
            Some((comment, number)) if self.is_last_on_line(comment) => number.saturating_add(1),
            _ => from,
        }
    }

    // Attaches the comments of the gap between two children.
    fn attach_gap(
        &self,
        attached: &mut Attached,
        before: Option<u32>,
        after: Option<u32>,
        from: usize,
        to: usize,
    ) -> Result<(), AllocError> {
        if from >= to {
            return Ok(());
        }
        let mut first = from;
        if before.is_some() {
            first = self.first_behind(before, from, to);
            attached.add(before, Side::Trail, from, first)?;
        }
        attached.add(after, Side::Lead, first, to)
    }

    // Attaches the comments behind the last child, or in a node without children.
    fn attach_rest(
        &self,
        attached: &mut Attached,
        node: Option<u32>,
        last: Option<u32>,
        from: usize,
        to: usize,
    ) -> Result<(), AllocError> {
        if last.is_some() {
            return attached.add(last, Side::Trail, from, to);
        }
        attached.add(node, Side::Inner, from, to)
    }
}

/// Attaches the comments from one up to another, which stand in the node. Only nodes with comments in
/// them are looked into.
#[cycle(attaching)]
#[inline(never)]
pub fn attach(
    spanned: Spanned<'_>,
    attached: &mut Attached,
    depth: u32,
    tree: &Tree,
    from: usize,
    to: usize,
) -> Result<(), AllocError> {
    if depth == 0 {
        return attached.add(tree.from, Side::Inner, from, to);
    }
    let mut at = from;
    let mut last = None;
    for turn in 0..place_count(tree) {
        if at >= to {
            return Ok(());
        }
        if let Some(child) = child_at(tree, turn) {
            let span = spanned.span_of(child.from);
            let start = spanned.first_from(at, to, span.start);
            spanned.attach_gap(attached, last, child.from, at, start)?;
            let end = spanned.first_from(start, to, span.end);
            if start < end {
                attach(spanned, attached, depth - 1, child, start, end)?;
            }
            at = end;
            last = child.from;
        }
    }
    spanned.attach_rest(attached, tree.from, last, at, to)
}

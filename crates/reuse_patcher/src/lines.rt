//! The lines of a source: where they begin, the blanks that open them, and which may be shifted.

use crate::fronts::{BlankFront, front_of};
use cm_text::Source;
use piece_plan::SourceTree;
use std::alloc::{AllocError, Global};
use tree_core::Span;
use type_defs::Kind;

/// A line of the source.
#[derive(Clone, Copy, Debug, PartialEq, Eq)]
pub struct Line {
    pub start: usize,
    pub front: BlankFront,
    /// Whether it begins outside of templates, strings and comments and holds more than blanks.
    pub moves: bool,
}

/// The lines of a source in order.
#[derive(Drop)]
pub struct Lines {
    pub all: Vec<Line>,
}

/// How many bytes the line end takes that begins there, 0 where none does.
pub fn line_end_len(text: &[u8], at: usize) -> usize {
    if at >= text.len() {
        return 0;
    }
    match &text[at..] {
        [b'\r', b'\n', ..] => 2,
        [b'\n', ..] | [b'\r', ..] => 1,
        [0xE2, 0x80, last, ..] => if *last == 0xA8 || *last == 0xA9 { 3 } else { 0 },
        _ => 0,
    }
}

// Whether the line that begins there has more than blanks.
fn holds_text(text: &[u8], front: BlankFront, start: usize) -> bool {
    let at = start.saturating_add(front.len);
    at < text.len() && line_end_len(text, at) == 0
}

fn push_line(lines: &mut Vec<Line>, text: &[u8], start: usize, tab: u8) -> Result<(), AllocError> {
    let front = front_of(text, start, tab);
    lines.push(Line {
        start,
        front,
        moves: holds_text(text, front, start),
    })?;
    Ok(())
}

impl Lines {
    /// The number of the line on which the offset stands.
    pub fn at(&self, offset: u32) -> usize {
        let offset = offset as usize;
        let (mut low, mut high) = (0usize, self.all.len());
        for _turn in 0..64 {
            if low.saturating_add(1) >= high {
                return low;
            }
            let middle = low.saturating_add((high - low) / 2);
            if self.starts_after(middle, offset) {
                high = middle;
            } else {
                low = middle;
            }
        }
        low
    }

    fn starts_after(&self, line: usize, offset: usize) -> bool {
        match self.all.get(line) {
            Some(line) => line.start > offset,
            None => true,
        }
    }

    /// The line of this number.
    pub fn line(&self, number: usize) -> Option<Line> {
        match self.all.get(number) {
            Some(line) => Some(*line),
            None => None,
        }
    }

    /// The blanks that open the line of the offset.
    pub fn front(&self, offset: u32) -> BlankFront {
        match self.line(self.at(offset)) {
            Some(line) => line.front,
            None => BlankFront::none(),
        }
    }

    // The lines that begin inside the span stay where they are.
    fn hold(&mut self, span: Span) {
        let first = self.at(span.start).saturating_add(1);
        for at in first..self.all.len() {
            if self.all[at].start >= span.end as usize {
                return;
            }
            self.all[at].moves = false;
        }
    }
}

fn is_held(kind: Kind, is_string: bool) -> bool {
    match kind {
        Kind::TemplateLiteral | Kind::Directive => true,
        Kind::Literal => is_string,
        _ => false,
    }
}

fn hold_nodes(lines: &mut Lines, source: &SourceTree<'_>) {
    for number in 0..source.nodes.len() {
        let node = source.nodes[number].node;
        if is_held(node.kind, node.scalars.is_text_at(0, "string")) {
            lines.hold(source.span(number));
        }
    }
}

fn hold_comments(lines: &mut Lines, source: &SourceTree<'_>) {
    for span in source.comments {
        lines.hold(*span);
    }
}

// Where the lines of the text begin.
fn all_lines(alloc: Global, text: &Source, tab: u8) -> Result<Vec<Line>, AllocError> {
    let bytes = text.bytes();
    let mut lines = Vec::new(alloc);
    push_line(&mut lines, bytes, 0, tab)?;
    for at in 0..bytes.len() {
        let len = line_end_len(bytes, at);
        let inside = at > 0 && bytes[at] == b'\n' && bytes[at - 1] == b'\r';
        if len > 0 && !inside {
            push_line(&mut lines, bytes, at.saturating_add(len), tab)?;
        }
    }
    Ok(lines)
}

/// The lines of the source, with tabs of this width.
pub fn lines_of(alloc: Global, source: &SourceTree<'_>, tab: u8) -> Result<Lines, AllocError> {
    let mut lines = Lines {
        all: all_lines(alloc, source.text, tab)?,
    };
    hold_nodes(&mut lines, source);
    hold_comments(&mut lines, source);
    Ok(lines)
}

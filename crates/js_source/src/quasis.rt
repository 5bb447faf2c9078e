//! The spans of nodes that the reader gives wider or narrower than they are.

use js_parser::Quasi;
use tree_core::{Span, Spans};

// The span without the marks around it: a backquote or a brace before it, and behind it a
// backquote or `${`.
fn without_marks(span: Span, last: bool) -> Span {
    let behind = if last { 1 } else { 2 };
    let end = span.end.saturating_sub(behind);
    Span {
        start: span.start.saturating_add(1).min(end),
        end,
    }
}

/// The spans by number, where those of the characters of templates have no marks around them.
pub fn narrowed(mut spans: Spans, quasis: &[Quasi]) -> Spans {
    for quasi in quasis {
        let at = quasi.number as usize;
        if at < spans.len() {
            let span = spans.as_slice()[at];
            spans.set(at, without_marks(span, quasi.last));
        }
    }
    spans
}

/// The spans by number, where that of the program is the whole text.
pub fn widened(mut spans: Spans, program: Option<u32>, len: u32) -> Spans {
    if let Some(number) = program {
        let at = number as usize;
        if at < spans.len() {
            spans.set(at, Span { start: 0, end: len });
        }
    }
    spans
}

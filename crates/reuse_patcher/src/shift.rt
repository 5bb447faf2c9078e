//! Spans of the source, with the fronts of their lines shifted.

use crate::fronts::{Shift, push_moved};
use crate::lines::{Line, Lines};
use generic_printer::Sink;
use piece_plan::offset;
use std::alloc::AllocError;
use tree_core::Span;

// A span whose lines are shifted.
#[derive(Clone, Copy)]
struct Shifted<'a> {
    text: &'a [u8],
    lines: &'a Lines,
    span: Span,
    shift: Shift,
}

fn span(start: usize, end: usize) -> Span {
    Span {
        start: offset(start),
        end: offset(end),
    }
}

// Copies what stands before the line, and writes its front; where the copy goes on.
fn shift_line(
    sink: &mut Sink,
    shifted: Shifted<'_>,
    line: Line,
    from: usize,
) -> Result<usize, AllocError> {
    sink.copy(shifted.text, span(from, line.start))?;
    let width = shifted.shift.moved(line.front.width);
    let layout = sink.layout;
    push_moved(&mut sink.out, &layout, line.front, width)?;
    let behind = line.start.saturating_add(line.front.len);
    Ok(behind.min(shifted.span.end as usize))
}

fn copy_shifted(sink: &mut Sink, shifted: Shifted<'_>) -> Result<(), AllocError> {
    let (start, end) = (shifted.span.start as usize, shifted.span.end as usize);
    let first = shifted.lines.at(shifted.span.start).saturating_add(1);
    let mut from = start;
    for number in first..shifted.lines.all.len() {
        let line = shifted.lines.all[number];
        if line.start > end {
            return sink.copy(shifted.text, span(from, end));
        }
        if line.moves && line.start > start {
            from = shift_line(sink, shifted, line, from)?;
        }
    }
    sink.copy(shifted.text, span(from, end))
}

fn bytes_of(text: &[u8], span: Span) -> &[u8] {
    let (start, end) = (span.start as usize, span.end as usize);
    if start > end || end > text.len() {
        return &[];
    }
    &text[start..end]
}

/// Writes the span of the source, its lines but for the first shifted. What is raw, as the characters
/// of a template, joins nothing.
pub fn write_shifted(
    sink: &mut Sink,
    text: &[u8],
    lines: &Lines,
    span: Span,
    shift: Shift,
    raw: bool,
) -> Result<(), AllocError> {
    if span.start >= span.end {
        return Ok(());
    }
    let from = sink.meet(bytes_of(text, span))?;
    if shift.is_none() {
        sink.copy(text, span)?;
    } else {
        copy_shifted(
            sink,
            Shifted {
                text,
                lines,
                span,
                shift,
            },
        )?;
    }
    if raw {
        sink.raw(from);
        return Ok(());
    }
    sink.copied(from)
}

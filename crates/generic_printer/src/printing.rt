//! The walk over the rows of a tree.

use crate::comments::{Note, add, add_before, add_behind};
use crate::facts::{gather, settle};
use crate::gaps::{Gap, lay, own_front};
use crate::kept::{Nothing, Pieces};
use crate::parts::{Part, Token, parts_of};
use crate::rows::{Row, row_at, rows_of};
use crate::sink::Sink;
use crate::things::{Thing, Things, write_things};
use crate::words::write_token;
use cm_text::{Layout, LineEnd, Quote};
use js_forms::{Context, Place};
use js_tokens::Punctuator;
use std::alloc::{AllocError, Global};
use tree_core::Tree;

/// A node whose text is being written: the parts of it that are left, from `at` up to `end` of all
/// parts, the child that was written last, and the number of the next piece.
#[derive(Clone, Copy)]
struct Frame {
    here: usize,
    start: usize,
    at: usize,
    end: usize,
    left: usize,
    gap: usize,
}

// The number of the next child's part, or of the end of the frame's parts.
fn next_child(parts: &[Part], at: usize, end: usize) -> usize {
    for here in at..end.min(parts.len()) {
        if matches!(parts[here], Part::Child(_)) {
            return here;
        }
    }
    end.min(parts.len())
}

fn child_in(parts: &[Part], at: usize, end: usize) -> usize {
    if at >= end {
        return 0;
    }
    match parts.get(at) {
        Some(Part::Child(row)) => *row,
        _ => 0,
    }
}

// The comments of a piece behind its left child: not those that parentheses hold, nor those that
// fall to the parent.
fn behind_notes<'a>(
    found: &mut Vec<Note<'a>>,
    rows: &[Row<'a>],
    row: Row<'a>,
    left: usize,
    right: usize,
) -> Result<(), AllocError> {
    found.clear();
    if left == 0 || (right == 0 && row.falls) {
        return Ok(());
    }
    if row_at(rows, left)?.holds_behind {
        return Ok(());
    }
    add_behind(found, rows, left)?;
    if right == 0 {
        add(found, row.node.notes.inner(), true)?;
    }
    Ok(())
}

// The comments of a piece before its right child; of a node without children those inside.
fn before_notes<'a>(
    found: &mut Vec<Note<'a>>,
    rows: &[Row<'a>],
    row: Row<'a>,
    left: usize,
    right: usize,
) -> Result<(), AllocError> {
    found.clear();
    if row.first == 0 {
        return add(found, row.node.notes.inner(), true);
    }
    if right == 0 || (left == 0 && row.rises) || row_at(rows, right)?.holds_before {
        return Ok(());
    }
    add_before(found, rows, right)
}

// Lists that are used again for each piece.
#[derive(Drop)]
struct Notes<'a> {
    behind: Vec<Note<'a>>,
    before: Vec<Note<'a>>,
    things: Things<'a>,
}

fn write_mark(sink: &mut Sink, node: &Tree, mark: Punctuator) -> Result<(), AllocError> {
    write_token(sink, node, Token::Punctuator(mark))
}

// The opening parenthesis of a row that has some, and the comments that they hold before it.
fn open<'a>(
    sink: &mut Sink,
    notes: &mut Notes<'a>,
    rows: &[Row<'a>],
    at: usize,
) -> Result<(), AllocError> {
    let row = row_at(rows, at)?;
    write_mark(sink, row.node, Punctuator::OpenParen)?;
    if row.holds_before {
        notes.before.clear();
        add_before(&mut notes.before, rows, at)?;
        let parent = row_at(rows, row.parent)?;
        notes.things.clear();
        let front = own_front(rows, parent);
        notes.things.before(notes.before.as_slice(), front)?;
        notes.things.put(Thing::Right)?;
        write_things(sink, row.node, &notes.things)?;
    }
    Ok(())
}

// The closing parenthesis, behind the comments that they hold behind the row.
fn close<'a>(
    sink: &mut Sink,
    notes: &mut Notes<'a>,
    rows: &[Row<'a>],
    at: usize,
) -> Result<(), AllocError> {
    let row = row_at(rows, at)?;
    if row.holds_behind {
        notes.behind.clear();
        add_behind(&mut notes.behind, rows, at)?;
        let parent = row_at(rows, row.parent)?;
        if parent.last == at {
            add(&mut notes.behind, parent.node.notes.inner(), true)?;
        }
        notes.things.clear();
        let front = own_front(rows, parent);
        notes.things.behind(notes.behind.as_slice(), front)?;
        write_things(sink, row.node, &notes.things)?;
    }
    write_mark(sink, row.node, Punctuator::CloseParen)
}

// The parentheses that are made for the row.
fn is_enclosed<P: Pieces>(pieces: &P, rows: &[Row<'_>], at: usize) -> Result<bool, AllocError> {
    Ok(at != 0 && row_at(rows, at)?.grouped && !pieces.keeps_parens(at))
}

// Notes that the row's text lacks its `;`, where it does.
fn end_open<P: Pieces>(
    pieces: &P,
    sink: &mut Sink,
    rows: &[Row<'_>],
    at: usize,
) -> Result<(), AllocError> {
    if let Some(end) = pieces.open_end(rows, at)? {
        sink.lacks(end);
    }
    Ok(())
}

// Begins the text of the row, or writes it where it is kept; whether there is more to write.
fn begin<'a, P: Pieces>(
    pieces: &P,
    sink: &mut Sink,
    parts: &mut Vec<Part>,
    frames: &mut Vec<Frame>,
    rows: &mut Vec<Row<'a>>,
    at: usize,
) -> Result<bool, AllocError> {
    let front = sink.front()?;
    if at < rows.len() {
        rows[at].front = front;
    }
    let row = row_at(rows.as_slice(), at)?;
    if let Some(span) = pieces.node(row) {
        pieces.write(rows.as_slice(), at, span, sink)?;
        end_open(pieces, sink, rows.as_slice(), at)?;
        return Ok(false);
    }
    let start = parts.len();
    parts_of(parts, &sink.layout, rows.as_slice(), row)?;
    frames.push(Frame {
        here: at,
        start,
        at: start,
        end: parts.len(),
        left: 0,
        gap: 0,
    })?;
    Ok(true)
}

// Writes the next piece of the frame.
fn write_piece<'a, P: Pieces>(
    pieces: &P,
    sink: &mut Sink,
    notes: &mut Notes<'a>,
    parts: &[Part],
    rows: &[Row<'a>],
    frame: Frame,
    behind: usize,
) -> Result<(), AllocError> {
    let right = child_in(parts, behind, frame.end);
    if let Some(span) = pieces.piece(frame.here, frame.gap) {
        pieces.write(rows, frame.here, span, sink)?;
        if right == 0 {
            end_open(pieces, sink, rows, frame.here)?;
        }
        return Ok(());
    }
    let row = row_at(rows, frame.here)?;
    behind_notes(&mut notes.behind, rows, row, frame.left, right)?;
    before_notes(&mut notes.before, rows, row, frame.left, right)?;
    if frame.at > behind || behind > parts.len() {
        return Err(AllocError);
    }
    let gap = Gap {
        rows,
        here: frame.here,
        parts: &parts[frame.at..behind],
        left: frame.left,
        right,
        behind: notes.behind.as_slice(),
        before: notes.before.as_slice(),
    };
    notes.things.clear();
    if !pieces.lay(gap, &mut notes.things, sink)? {
        lay(&mut notes.things, gap, sink.layout.tab_width)?;
    }
    if row.first == 0 && sink.layout.quote.is_none() {
        sink.single = pieces.quote(row) == Quote::Single;
    }
    write_things(sink, row.node, &notes.things)?;
    if notes.things.open {
        sink.lacks(pieces.made_end(rows, frame.here)?);
    }
    Ok(())
}

fn set_begins(rows: &mut Vec<Row<'_>>, at: usize, begins: bool) {
    if at < rows.len() {
        rows[at].begins = begins;
    }
}

// Writes a child with its parentheses, or begins it.
fn write_child<'a, P: Pieces>(
    pieces: &P,
    sink: &mut Sink,
    notes: &mut Notes<'a>,
    parts: &mut Vec<Part>,
    frames: &mut Vec<Frame>,
    rows: &mut Vec<Row<'a>>,
    child: usize,
) -> Result<(), AllocError> {
    let enclosed = is_enclosed(pieces, rows.as_slice(), child)?;
    if enclosed {
        open(sink, notes, rows.as_slice(), child)?;
    }
    let goes_on = begin(pieces, sink, parts, frames, rows, child)?;
    if enclosed && !goes_on {
        close(sink, notes, rows.as_slice(), child)?;
    }
    Ok(())
}

// Goes on with the frame: its next piece, and the child behind that.
fn step<'a, P: Pieces>(
    pieces: &P,
    sink: &mut Sink,
    notes: &mut Notes<'a>,
    parts: &mut Vec<Part>,
    frames: &mut Vec<Frame>,
    rows: &mut Vec<Row<'a>>,
    frame: Frame,
) -> Result<(), AllocError> {
    let here = frame.here;
    let behind = next_child(parts.as_slice(), frame.at, frame.end);
    let child = child_in(parts.as_slice(), behind, frame.end);
    let before = sink.line();
    write_piece(
        pieces,
        sink,
        notes,
        parts.as_slice(),
        rows.as_slice(),
        frame,
        behind,
    )?;
    if child == 0 {
        parts.truncate(frame.start);
        if is_enclosed(pieces, rows.as_slice(), here)? {
            close(sink, notes, rows.as_slice(), here)?;
        }
        return Ok(());
    }
    let line = sink.line();
    set_begins(rows, child, line.1 || line.0 != before.0);
    frames.push(Frame {
        at: behind.saturating_add(1),
        left: child,
        gap: frame.gap.saturating_add(1),
        ..frame
    })?;
    write_child(pieces, sink, notes, parts, frames, rows, child)
}

/// Writes the text of the rows, which are settled; `pieces` tells what is kept.
pub fn write_rows<'a, P: Pieces>(
    alloc: Global,
    pieces: &P,
    rows: &mut Vec<Row<'a>>,
    sink: &mut Sink,
) -> Result<(), AllocError> {
    let mut parts = Vec::new(alloc);
    let mut frames = Vec::new(alloc);
    let mut notes = Notes {
        behind: Vec::new(alloc),
        before: Vec::new(alloc),
        things: Things::new(alloc),
    };
    if pieces.has_mark() {
        sink.out.extend_from_slice(b"\xEF\xBB\xBF")?;
    }
    begin(pieces, sink, &mut parts, &mut frames, rows, 0)?;
    for _turn in 0..usize::MAX {
        let Some(frame) = frames.pop() else {
            return Ok(());
        };
        step(
            pieces,
            sink,
            &mut notes,
            &mut parts,
            &mut frames,
            rows,
            frame,
        )?;
    }
    Err(AllocError)
}

/// Adds the made text of the tree, which stands at the place in the context, on a line that begins
/// with this indentation.
pub fn print(
    alloc: Global,
    tree: &Tree,
    place: Place,
    context: Context,
    indent: u64,
    end: LineEnd,
    layout: Layout,
    out: &mut Vec<u8>,
) -> Result<(), AllocError> {
    let mut rows = rows_of(alloc, &Nothing, tree, place)?;
    gather(&mut rows)?;
    settle(&Nothing, &mut rows, context)?;
    let mut sink = Sink::new(alloc, layout, end, indent);
    write_rows(alloc, &Nothing, &mut rows, &mut sink)?;
    out.extend_from_slice(sink.out.as_slice())?;
    Ok(())
}

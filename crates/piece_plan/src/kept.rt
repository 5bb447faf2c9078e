//! Which pieces between the children of a changed node are kept.

use crate::bodies::{is_exported_otherwise, is_new_block};
use crate::gap_comments::{final_comments, same_notes, source_comments};
use crate::marks::same_scalars;
use crate::neighbours::{Sides, sides_of};
use crate::source::SourceTree;
use crate::tokens::{parens, tokens_in};
use crate::words::{Piece, Words, are_allowed};
use cm_text::Layout;
use generic_printer::{Note, Part, Row, parts_of};
use std::alloc::{AllocError, Global};
use tree_core::{Comment, Span, Tree};
use type_defs::Kind;

/// A piece that is kept: its span, which begins and ends at children, and how many of these.
#[derive(Clone, Copy, Debug, PartialEq, Eq)]
pub struct KeptPiece {
    pub span: Span,
    /// The source nodes of the places beside it, where there are some.
    pub left: Option<usize>,
    pub right: Option<usize>,
}

/// What is kept of the pieces of each row, and which rows keep their grouping parentheses.
#[derive(Drop)]
pub struct Kept {
    /// Of each row, where its pieces begin in the list.
    pub starts: Vec<usize>,
    pub pieces: Vec<Option<KeptPiece>>,
    pub parens: Vec<bool>,
    /// The rows of `new` whose kept pieces leave out the arguments.
    pub bare: Vec<bool>,
}

impl Kept {
    /// The kept piece of the row before its child of this number.
    pub fn piece(&self, row: usize, gap: usize) -> Option<KeptPiece> {
        let start = *self.starts.get(row)?;
        let end = match self.starts.get(row.saturating_add(1)) {
            Some(end) => *end,
            None => self.pieces.len(),
        };
        let at = start.saturating_add(gap);
        if at >= end {
            return None;
        }
        match self.pieces.get(at) {
            Some(piece) => *piece,
            None => None,
        }
    }

    /// Drops the pieces beside the items of the lists of these rows.
    pub fn drop_broken(&mut self, rows: &[Row<'_>], broken: &[bool]) {
        for at in 0..rows.len() {
            if truth_at(broken, at) {
                self.drop_beside_items(rows, at);
            }
        }
    }

    // Drops the pieces beside the items of the row's list.
    fn drop_beside_items(&mut self, rows: &[Row<'_>], at: usize) {
        let Some(start) = self.starts.get(at) else {
            return;
        };
        let mut piece = *start;
        let mut child = match rows.get(at) {
            Some(row) => row.first,
            None => 0,
        };
        for _turn in 0..rows.len() {
            let Some(row) = row_in(rows, child) else {
                return;
            };
            if row.listed && self.piece_count(at) > 0 {
                self.drop_piece(piece);
                self.drop_piece(piece.saturating_add(1));
            }
            piece = piece.saturating_add(1);
            child = row.next;
        }
    }

    // How many pieces of the row are planned.
    fn piece_count(&self, at: usize) -> usize {
        let end = match self.starts.get(at.saturating_add(1)) {
            Some(end) => *end,
            None => self.pieces.len(),
        };
        match self.starts.get(at) {
            Some(start) => end.saturating_sub(*start),
            None => 0,
        }
    }

    fn drop_piece(&mut self, at: usize) {
        if at < self.pieces.len() {
            self.pieces[at] = None;
        }
    }

    fn is_kept(&self, at: usize) -> bool {
        match self.pieces.get(at) {
            Some(piece) => piece.is_some(),
            None => false,
        }
    }
}

/// The truth of this number, false where there is none.
pub fn truth_at(truths: &[bool], at: usize) -> bool {
    match truths.get(at) {
        Some(truth) => *truth,
        None => false,
    }
}

// What planning a row reads and writes.
#[derive(Clone, Copy)]
struct Planning<'p, 'a, 's> {
    source: &'p SourceTree<'s>,
    rows: &'p [Row<'a>],
    layout: &'p Layout,
}

// Room that is used again for each piece.
#[derive(Drop)]
struct Room<'a, 's> {
    parts: Vec<Part>,
    children: Vec<usize>,
    notes: Vec<Note<'a>>,
    others: Vec<&'s Comment>,
    words: Words<'s>,
}

fn is_method_value(node: &Tree) -> bool {
    match node.kind {
        Kind::MethodDefinition => true,
        Kind::Property => {
            node.scalars.is_truth_at(1, true)
                || node.scalars.is_text_at(0, "get")
                || node.scalars.is_text_at(0, "set")
        }
        _ => false,
    }
}

// Whether of two methods both are async or none is, and both are generators or none is.
fn same_flow(one: &Tree, other: &Tree) -> bool {
    match (tree_forms::child(one, 1), tree_forms::child(other, 1)) {
        (Some(one), Some(other)) => {
            one.kind.is(other.kind) && same_scalars(&one.scalars, &other.scalars)
        }
        _ => false,
    }
}

// Whether the pieces of the node may be those of its source node.
fn is_same_form(node: &Tree, source: &Tree) -> bool {
    node.kind.is(source.kind)
        && same_scalars(&node.scalars, &source.scalars)
        && (!is_method_value(node) || same_flow(node, source))
}

fn row_in<'a>(rows: &[Row<'a>], at: usize) -> Option<Row<'a>> {
    if at == 0 {
        return None;
    }
    match rows.get(at) {
        Some(row) => Some(*row),
        None => None,
    }
}

// The span of the piece: from the end of the child before it to the start of that behind it.
fn span_of(source: &SourceTree<'_>, owner: usize, sides: Sides) -> Span {
    let whole = source.span(owner);
    let start = match sides.left {
        Some(left) => source.span(left).end,
        None => whole.start,
    };
    let end = match sides.right {
        Some(right) => source.span(right).start,
        None => whole.end,
    };
    Span {
        start,
        end: end.max(start),
    }
}

// The words of the source in the span, without the grouping parentheses of the children beside it.
fn find_words(
    words: &mut Words<'_>,
    source: &SourceTree<'_>,
    span: Span,
    sides: Sides,
) -> Result<(), AllocError> {
    let behind = match sides.left {
        Some(left) => parens(&mut words.found, source, left)?,
        None => 0,
    };
    let before = match sides.right {
        Some(right) => parens(&mut words.found, source, right)?,
        None => 0,
    };
    tokens_in(&mut words.found, source.text, span)?;
    let count = words.found.len();
    words.found.truncate(count.saturating_sub(before));
    for _pair in 0..behind {
        if words.found.len() > 0 {
            let _close = words.found.remove(0);
        }
    }
    Ok(())
}

// The piece of a node between these children, where it is kept.
fn piece_between<'a, 's>(
    plan: &Planning<'_, 'a, 's>,
    room: &mut Room<'a, 's>,
    row: Row<'a>,
    number: usize,
    parts: (usize, usize),
    left: usize,
    right: usize,
) -> Result<Option<KeptPiece>, AllocError> {
    let Some(owner) = plan.source.node(number) else {
        return Ok(None);
    };
    let (before, behind) = (row_in(plan.rows, left), row_in(plan.rows, right));
    let Some(sides) = sides_of(plan.source, number, row, before, behind) else {
        return Ok(None);
    };
    source_comments(&mut room.others, plan.source, owner, sides)?;
    final_comments(&mut room.notes, plan.rows, row, left, right)?;
    if !same_notes(room.notes.as_slice(), room.others.as_slice())
        || is_exported_otherwise(row.node, owner.node, right)
        || is_new_block(plan.source, row.node, before, sides.left)
        || is_new_block(plan.source, row.node, behind, sides.right)
    {
        return Ok(None);
    }
    let span = span_of(plan.source, number, sides);
    find_words(&mut room.words, plan.source, span, sides)?;
    let piece = Piece {
        row,
        left: before,
        right: behind,
        parts: part_range(room.parts.as_slice(), parts.0, parts.1),
        first: left == 0,
    };
    if !are_allowed(piece, &mut room.words)? {
        return Ok(None);
    }
    Ok(Some(KeptPiece {
        span,
        left: sides.left,
        right: sides.right,
    }))
}

fn part_range(parts: &[Part], from: usize, to: usize) -> &[Part] {
    if from > to || to > parts.len() {
        return &[];
    }
    &parts[from..to]
}

// The number of the part that is the next child, or of the end.
fn next_child(parts: &[Part], from: usize) -> usize {
    for at in from..parts.len() {
        if matches!(parts[at], Part::Child(_)) {
            return at;
        }
    }
    parts.len()
}

fn child_at(parts: &[Part], at: usize) -> usize {
    match parts.get(at) {
        Some(Part::Child(row)) => *row,
        _ => 0,
    }
}

// The kept pieces of a row with a source node of its form.
fn plan_row<'a, 's>(
    plan: &Planning<'_, 'a, 's>,
    room: &mut Room<'a, 's>,
    kept: &mut Kept,
    row: Row<'a>,
    number: usize,
) -> Result<(), AllocError> {
    room.parts.clear();
    parts_of(&mut room.parts, plan.layout, plan.rows, row)?;
    let mut from = 0;
    let mut left = 0;
    for _turn in 0..room.parts.len().saturating_add(1) {
        let to = next_child(room.parts.as_slice(), from);
        let right = child_at(room.parts.as_slice(), to);
        let piece = piece_between(plan, room, row, number, (from, to), left, right)?;
        kept.pieces.push(piece)?;
        if right == 0 {
            return Ok(());
        }
        from = to.saturating_add(1);
        left = right;
    }
    Ok(())
}

// Whether both pieces beside the child are kept or none: the child stands in grouping parentheses
// in the source, or is the one parameter of an arrow, a name.
fn are_tied(
    room: &mut Room<'_, '_>,
    source: &SourceTree<'_>,
    row: Row<'_>,
    child: Row<'_>,
    there: Option<usize>,
) -> Result<bool, AllocError> {
    if matches!(row.node.kind, Kind::ArrowFunctionExpression)
        && child.slot == 0
        && matches!(child.node.kind, Kind::Identifier)
        && child.next != 0
    {
        return Ok(true);
    }
    match there {
        Some(number) => Ok(parens(&mut room.words.found, source, number)? > 0),
        None => Ok(false),
    }
}

// The source node of the place of the child between two pieces, by what is kept of them.
fn there_between(kept: &Kept, at: usize) -> Option<usize> {
    if let Some(Some(piece)) = kept.pieces.get(at) {
        return piece.right;
    }
    if let Some(Some(piece)) = kept.pieces.get(at.saturating_add(1)) {
        return piece.left;
    }
    None
}

// Ties the two pieces beside the child; whether one of them is dropped for that.
fn tie<'a, 's>(
    plan: &Planning<'_, 'a, 's>,
    room: &mut Room<'a, 's>,
    kept: &mut Kept,
    row: Row<'a>,
    child: usize,
    at: usize,
) -> Result<bool, AllocError> {
    let behind = at.saturating_add(1);
    let (one, other) = (kept.is_kept(at), kept.is_kept(behind));
    let there = there_between(kept, at);
    let Some(found) = row_in(plan.rows, child) else {
        return Ok(false);
    };
    if !(one || other) || !are_tied(room, plan.source, row, found, there)? {
        return Ok(false);
    }
    let grouped = match there {
        Some(number) => parens(&mut room.words.found, plan.source, number)? > 0,
        None => false,
    };
    if one && other && (!grouped || found.groups) {
        if grouped && child < kept.parens.len() {
            kept.parens[child] = true;
        }
        return Ok(false);
    }
    kept.drop_piece(at);
    kept.drop_piece(behind);
    if child < kept.parens.len() {
        kept.parens[child] = false;
    }
    Ok(true)
}

// The rows of the children.
fn children_of(found: &mut Vec<usize>, rows: &[Row<'_>], first: usize) -> Result<(), AllocError> {
    found.clear();
    let mut child = first;
    for _turn in 0..rows.len() {
        let Some(row) = row_in(rows, child) else {
            return Ok(());
        };
        found.push(child)?;
        child = row.next;
    }
    Ok(())
}

fn number_at(numbers: &[usize], at: usize) -> usize {
    match numbers.get(at) {
        Some(number) => *number,
        None => 0,
    }
}

// Ties the pieces beside each child of the row. Where one is dropped the child before is looked at
// again.
fn tie_all<'a, 's>(
    plan: &Planning<'_, 'a, 's>,
    room: &mut Room<'a, 's>,
    kept: &mut Kept,
    row: Row<'a>,
    start: usize,
) -> Result<(), AllocError> {
    children_of(&mut room.children, plan.rows, row.first)?;
    let mut at = 0;
    for _turn in 0..usize::MAX {
        if at >= room.children.len() {
            return Ok(());
        }
        let child = number_at(room.children.as_slice(), at);
        let piece = start.saturating_add(at);
        if tie(plan, room, kept, row, child, piece)? {
            at = at.saturating_sub(1);
        } else {
            at = at.saturating_add(1);
        }
    }
    Ok(())
}

fn plan_at<'a, 's>(
    plan: &Planning<'_, 'a, 's>,
    room: &mut Room<'a, 's>,
    kept: &mut Kept,
    at: usize,
    row: Row<'a>,
) -> Result<(), AllocError> {
    let start = kept.pieces.len();
    if row.kept {
        return Ok(());
    }
    let Some(number) = plan.source.source_of(row.node) else {
        return Ok(());
    };
    match plan.source.node(number) {
        Some(source) => {
            if !is_same_form(row.node, source.node) {
                return Ok(());
            }
        }
        None => return Ok(()),
    }
    plan_row(plan, room, kept, row, number)?;
    tie_all(plan, room, kept, row, start)?;
    let bare = is_bare_new(kept, row);
    if at < kept.bare.len() {
        kept.bare[at] = bare;
    }
    Ok(())
}

// Whether the last kept piece of a `new` is empty, so that its arguments are left out.
fn is_bare_new(kept: &Kept, row: Row<'_>) -> bool {
    if !matches!(row.node.kind, Kind::NewExpression) {
        return false;
    }
    let count = kept.pieces.len();
    if count == 0 {
        return false;
    }
    match kept.pieces.get(count - 1) {
        Some(Some(piece)) => piece.span.start == piece.span.end && row.first == row.last,
        _ => false,
    }
}

/// What is kept of the pieces of the rows, which are gathered.
pub fn plan<'a, 's>(
    alloc: Global,
    source: &SourceTree<'s>,
    rows: &[Row<'a>],
    layout: &Layout,
) -> Result<Kept, AllocError> {
    let mut kept = Kept {
        starts: Vec::with_capacity(alloc, rows.len())?,
        pieces: Vec::new(alloc),
        parens: Vec::with_capacity(alloc, rows.len())?,
        bare: Vec::with_capacity(alloc, rows.len())?,
    };
    for _row in rows {
        kept.parens.push(false)?;
        kept.bare.push(false)?;
    }
    let plan = Planning {
        source,
        rows,
        layout,
    };
    let mut room = Room {
        parts: Vec::new(alloc),
        children: Vec::new(alloc),
        notes: Vec::new(alloc),
        others: Vec::new(alloc),
        words: Words {
            text: source.text.bytes(),
            found: Vec::new(alloc),
            made: Vec::new(alloc),
            bytes: Vec::new(alloc),
        },
    };
    for at in 0..rows.len() {
        kept.starts.push(kept.pieces.len())?;
        plan_at(&plan, &mut room, &mut kept, at, rows[at])?;
    }
    Ok(kept)
}

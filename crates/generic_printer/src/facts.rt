//! What is known of each row once all rows are there: levels, parentheses, where comments belong,
//! which lists are loose.

use crate::comments::any_breaks;
use crate::kept::Pieces;
use crate::rows::{Row, begins_with_child, ends_with_child, owner_form, row_at, row_form};
use js_forms::{
    CALL, Category, Context, Flow, Form, Link, MEMBER, PRIMARY, Scope, Spelling, spelled_level,
};
use paren_rules::{Spot, Start, binds_too_loosely, may_group, needs_parens};
use std::alloc::AllocError;
use tree_forms::{is_expression, links};
use type_defs::Kind;

fn link_in(form: Option<Form>) -> Option<Link> {
    match form {
        Some(Form::Dot(link)) | Some(Form::Index(link)) | Some(Form::Call(link)) => Some(link),
        _ => None,
    }
}

// Whether the row is a link with an optional link at or below it.
fn is_optional(row: Row<'_>, first: Option<Row<'_>>) -> bool {
    if row.kept {
        return links(row.node) > 0;
    }
    match link_in(row_form(row)) {
        Some(Link::Optional) => true,
        Some(Link::Plain) => match first {
            Some(first) => first.optional,
            None => false,
        },
        None => false,
    }
}

fn level_of<P: Pieces>(pieces: &P, row: Row<'_>, at: usize, first: Option<Row<'_>>) -> u8 {
    if row.kept {
        return pieces.level(row);
    }
    let Some(variant) = row.variant else {
        return PRIMARY;
    };
    if !matches!(variant.form, Form::Dot(_) | Form::Index(_) | Form::Tagged) {
        let spelling = if pieces.lacks_arguments(at) {
            Spelling::WithoutArguments
        } else {
            variant.spelling
        };
        return spelled_level(variant.form, spelling);
    }
    match first {
        Some(first) => if first.level == CALL && !first.grouped && is_expression(first.node.kind) {
            CALL
        } else {
            MEMBER
        },
        None => MEMBER,
    }
}

fn child_row<'a>(rows: &[Row<'a>], at: usize) -> Option<Row<'a>> {
    if at == 0 {
        return None;
    }
    match rows.get(at) {
        Some(row) => Some(*row),
        None => None,
    }
}

// Whether comments before the operand that end a line want parentheses.
fn holds_operand(form: Option<Form>) -> bool {
    matches!(
        form,
        Some(Form::Return) | Some(Form::Throw) | Some(Form::YieldValue) | Some(Form::YieldStar)
    )
}

fn is_postfix(form: Option<Form>) -> bool {
    matches!(form, Some(Form::Postfix(_)))
}

// The first child, with what it holds.
fn hold_first(row: Row<'_>, rows: &mut Vec<Row<'_>>) {
    let at = row.first;
    if at == 0 || at >= rows.len() {
        return;
    }
    let child = rows[at];
    let bare = row.opens_bare && child.noted_before;
    if child.groups && (bare || (holds_operand(row_form(row)) && child.breaks_before)) {
        rows[at].holds_before = true;
        rows[at].grouped = true;
    }
}

// The last child, with what it holds.
fn hold_last(row: Row<'_>, rows: &mut Vec<Row<'_>>) {
    let at = row.last;
    if at == 0 || at >= rows.len() {
        return;
    }
    let child = rows[at];
    let inner = row.node.notes.inner();
    let bare = row.ends_bare && (child.noted_behind || !inner.is_empty());
    let breaks = child.breaks_behind || any_breaks(inner);
    if child.groups && (bare || (is_postfix(row_form(row)) && breaks)) {
        rows[at].holds_behind = true;
        rows[at].grouped = true;
    }
}

// What the children tell: whether a comment in one of the gaps ends a line, whether a child is
// tall, and whether there is an item of a list in lines.
#[derive(Clone, Copy)]
struct Below {
    breaks: bool,
    tall: bool,
    lined: bool,
}

fn told_below(rows: &[Row<'_>], row: Row<'_>) -> Below {
    let mut found = Below {
        breaks: !row.falls && any_breaks(row.node.notes.inner()),
        tall: false,
        lined: false,
    };
    let mut at = row.first;
    for _turn in 0..rows.len() {
        let Some(child) = child_row(rows, at) else {
            return found;
        };
        if child.breaks_before && !(row.rises && at == row.first) {
            found.breaks = true;
        }
        if child.breaks_behind && !(row.falls && at == row.last) {
            found.breaks = true;
        }
        found.tall = found.tall || child.tall;
        found.lined = found.lined || child.lined;
        at = child.next;
    }
    found
}

fn with_notes<'a>(row: Row<'a>, first: Option<Row<'a>>, last: Option<Row<'a>>) -> Row<'a> {
    let mut row = row;
    let notes = &row.node.notes;
    let inner = notes.inner();
    row.noted_before = !notes.lead().is_empty();
    row.breaks_before = any_breaks(notes.lead());
    row.noted_behind = !notes.trail().is_empty();
    row.breaks_behind = any_breaks(notes.trail());
    if let Some(first) = first {
        row.rises = row.opens_bare && !first.groups;
        row.noted_before = row.noted_before || (row.rises && first.noted_before);
        row.breaks_before = row.breaks_before || (row.rises && first.breaks_before);
    }
    if let Some(last) = last {
        row.falls = row.ends_bare && !last.groups;
        let noted = last.noted_behind || !inner.is_empty();
        let breaks = last.breaks_behind || any_breaks(inner);
        row.noted_behind = row.noted_behind || (row.falls && noted);
        row.breaks_behind = row.breaks_behind || (row.falls && breaks);
    }
    row
}

// Where the comments beside the children of the row belong, and whether it may stand in parentheses,
// once its children are gathered.
fn gather_row(rows: &mut Vec<Row<'_>>, at: usize) -> Result<(), AllocError> {
    let mut row = row_at(rows.as_slice(), at)?;
    row.opens_bare = begins_with_child(row);
    row.ends_bare = ends_with_child(rows.as_slice(), row);
    let first = child_row(rows.as_slice(), row.first);
    let last = child_row(rows.as_slice(), row.last);
    let mut row = with_notes(row, first, last);
    row.optional = is_optional(row, first);
    row.groups = may_group(row.place, row.node, row.optional);
    if at < rows.len() {
        rows[at] = row;
    }
    Ok(())
}

/// Where the comments of each row belong, and which rows may stand in parentheses.
pub fn gather(rows: &mut Vec<Row<'_>>) -> Result<(), AllocError> {
    let count = rows.len();
    for behind in 0..count {
        gather_row(rows, count - 1 - behind)?;
    }
    Ok(())
}

// What the row is once its children are settled.
fn settle_row<P: Pieces>(pieces: &P, rows: &mut Vec<Row<'_>>, at: usize) -> Result<(), AllocError> {
    let mut row = row_at(rows.as_slice(), at)?;
    hold_first(row, rows);
    hold_last(row, rows);
    let first = child_row(rows.as_slice(), row.first);
    row.level = level_of(pieces, row, at, first);
    let below = told_below(rows.as_slice(), row);
    row.tall = match pieces.is_tall(row) {
        Some(tall) => tall,
        None => below.breaks || below.tall || below.lined,
    };
    row.loose = matches!(row.node.kind, Kind::ObjectExpression)
        && row.first != 0
        && (below.breaks || below.tall);
    let owner = owner_form(rows.as_slice(), row, at);
    let loose = binds_too_loosely(owner, row.place, row.node, row.level);
    row.grouped = row.groups && (loose || pieces.keeps_parens(at));
    if at < rows.len() {
        rows[at] = row;
    }
    Ok(())
}

fn flow_of(form: Option<Form>) -> Flow {
    match form {
        Some(form) => form.flow(),
        None => Flow::Plain,
    }
}

// How the surroundings change on the way to the child.
fn scope_to(child: Row<'_>) -> Scope {
    match (child.place.category, child.node.kind) {
        (Category::ArrowBody, Kind::BlockStatement) => Scope::Body,
        _ => child.place.scope,
    }
}

fn context_of(parent: Row<'_>, child: Row<'_>) -> Context {
    let outer = if parent.grouped {
        parent.context.free()
    } else {
        parent.context
    };
    let inner = outer.within(scope_to(child), flow_of(row_form(parent)));
    inner.with_directives(inner.directives && child.opening)
}

fn start_of(parent: Row<'_>, child: Row<'_>, at: usize) -> Start {
    match row_form(parent) {
        Some(Form::ExpressionStatement) => return Start::Statement,
        Some(Form::ExportDefault) => return Start::Default,
        Some(Form::Arrow(_)) => {
            if matches!(child.place.category, Category::ArrowBody) {
                return Start::ArrowBody;
            }
        }
        _ => {}
    }
    if at == parent.first && !parent.grouped && parent.opens_bare {
        return parent.start;
    }
    Start::Inside
}

// Whether the row has to stand in parentheses for what surrounds it.
fn is_wrong_bare<P: Pieces>(pieces: &P, rows: &[Row<'_>], row: Row<'_>, at: usize) -> bool {
    let spot = Spot {
        owner: owner_form(rows, row, at),
        place: row.place,
        context: row.context,
        start: row.start,
    };
    (row.groups && needs_parens(spot, row.node, row.level))
        || (row.kept && pieces.needs_parens(row, row.start))
}

// Puts the row in parentheses, or the nearest expression around it that may stand in some.
fn enclose(rows: &mut Vec<Row<'_>>, at: usize) {
    let mut here = at;
    for _turn in 0..rows.len() {
        if here >= rows.len() || rows[here].grouped || rows[here].parent >= here {
            return;
        }
        if rows[here].groups {
            rows[here].grouped = true;
            return;
        }
        here = rows[here].parent;
    }
}

// What surrounds the row, once that is settled of its parent.
fn surround<P: Pieces>(pieces: &P, rows: &mut Vec<Row<'_>>, at: usize) -> Result<(), AllocError> {
    let mut row = row_at(rows.as_slice(), at)?;
    if at != 0 {
        let parent = row_at(rows.as_slice(), row.parent)?;
        row.context = context_of(parent, row);
        row.start = start_of(parent, row, at);
    }
    if at < rows.len() {
        rows[at] = row;
    }
    if !row.grouped && is_wrong_bare(pieces, rows.as_slice(), row, at) {
        enclose(rows, at);
    }
    Ok(())
}

/// Settles the rows, which are gathered, of a tree that stands in this context.
pub fn settle<P: Pieces>(
    pieces: &P,
    rows: &mut Vec<Row<'_>>,
    context: Context,
) -> Result<(), AllocError> {
    let count = rows.len();
    for behind in 0..count {
        settle_row(pieces, rows, count - 1 - behind)?;
    }
    if count > 0 && rows.len() > 0 {
        rows[0].context = context;
    }
    for at in 0..count {
        surround(pieces, rows, at)?;
    }
    Ok(())
}

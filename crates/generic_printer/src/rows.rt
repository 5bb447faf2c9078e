//! The nodes of a tree in the order of its text, one row each. A name that is spelled for another
//! one has no row.

use crate::fronts::Front;
use crate::kept::Pieces;
use js_forms::{Category, Context, Form, PRIMARY, Place};
use paren_rules::Start;
use std::alloc::{AllocError, Global};
use tree_core::{Place as TreePlace, PlaceName, Slot, Tree};
use tree_forms::{ALONE, Variant, begins_bare, ends_bare, form, is_mirror, slot_at};
use type_defs::Kind;

/// A node, where it stands, and what is known of its text.
#[derive(Clone, Copy)]
pub struct Row<'a> {
    pub node: &'a Tree,
    /// The node's number in preorder.
    pub index: usize,
    /// The number of its place among those of the parent, and the name of that place.
    pub ordinal: usize,
    pub name: Option<PlaceName>,
    /// Whether it stands there as it does in the source, with all below it, which has no rows.
    pub kept: bool,
    pub variant: Option<Variant>,
    pub place: Place,
    pub context: Context,
    pub start: Start,
    /// The row of the parent, its own for the first row.
    pub parent: usize,
    pub slot: usize,
    /// Whether it is an item of a list, and of one whose items stand in lines.
    pub listed: bool,
    pub lined: bool,
    /// Whether only directives stand before it in its list.
    pub opening: bool,
    /// The rows of the first and the last child, and of the next child of the parent; 0 for none.
    pub first: usize,
    pub last: usize,
    pub next: usize,
    /// The row on whose line it is indented.
    pub base: usize,
    /// The front of the line on which it begins.
    pub front: Front,
    /// Whether its form has no word before its first child, or behind its last.
    pub opens_bare: bool,
    pub ends_bare: bool,
    pub level: u8,
    /// Whether it is a link of a chain with an optional link at or below it.
    pub optional: bool,
    /// Whether it may stand in parentheses, and does.
    pub groups: bool,
    pub grouped: bool,
    /// Whether the comments before its first child, or behind its last, belong to its parent.
    pub rises: bool,
    pub falls: bool,
    /// Whether comments stand before it or behind it, and some that end a line.
    pub noted_before: bool,
    pub noted_behind: bool,
    pub breaks_before: bool,
    pub breaks_behind: bool,
    /// Whether its parentheses hold the comments before it, or those behind it.
    pub holds_before: bool,
    pub holds_behind: bool,
    /// Whether a line ends in the piece before it.
    pub begins: bool,
    /// Whether it is an arrow whose parameters stand in parentheses in the source.
    pub parenthesized: bool,
    /// Whether its text has more than one line, and whether its list is one of lines for that.
    pub tall: bool,
    pub loose: bool,
}

/// A node that waits for its row.
#[derive(Clone, Copy)]
struct Pending<'a> {
    node: &'a Tree,
    index: usize,
    ordinal: usize,
    name: Option<PlaceName>,
    place: Place,
    parent: usize,
    slot: usize,
    listed: bool,
    lined: bool,
    opening: bool,
}

/// The row of this number.
pub fn row_at<'a>(rows: &[Row<'a>], at: usize) -> Result<Row<'a>, AllocError> {
    match rows.get(at) {
        Some(row) => Ok(*row),
        None => Err(AllocError),
    }
}

fn form_of(variant: Option<Variant>) -> Option<Form> {
    match variant {
        Some(variant) => Some(variant.form),
        None => None,
    }
}

fn place_in(variant: Option<Variant>, slot: usize) -> Place {
    match variant {
        Some(variant) => match slot_at(variant, slot) {
            Some(place) => place,
            None => ALONE,
        },
        None => ALONE,
    }
}

// Whether the items of the node's lists stand in lines of their own.
fn is_lined(kind: Kind) -> bool {
    matches!(
        kind,
        Kind::ClassBody
            | Kind::Program
            | Kind::BlockStatement
            | Kind::SwitchStatement
            | Kind::SwitchCase
            | Kind::StaticBlock
    )
}

// Whether a place of the node's lists is one of an item: no part of a template, and of an import
// the names in braces alone.
fn is_item(owner: Kind, child: &Tree) -> bool {
    match owner {
        Kind::TemplateLiteral => false,
        Kind::ImportDeclaration => matches!(child.kind, Kind::ImportSpecifier),
        _ => true,
    }
}

fn is_method(owner: Option<Form>) -> bool {
    matches!(
        owner,
        Some(Form::Method(_, _, _, _)) | Some(Form::PropertyMethod(_, _, _))
    )
}

// Whether a block in the slot is the body of such a node.
fn is_body(owner: Option<Form>, category: Category) -> bool {
    match owner {
        Some(Form::Try) | Some(Form::Catch) => true,
        _ => matches!(
            category,
            Category::Statement | Category::FunctionBody | Category::ArrowBody
        ),
    }
}

// Whether the child is indented as its owner is.
fn hangs(owner: Option<Form>, place: Place, slot: usize, child: &Tree) -> bool {
    match child.kind {
        Kind::ClassBody | Kind::CatchClause => true,
        Kind::FunctionExpression => slot == 1 && is_method(owner),
        Kind::BlockStatement => is_body(owner, place.category),
        _ => false,
    }
}

// The row on whose line the node is indented: its own, but for a node that hangs on its parent.
fn base_of(rows: &[Row<'_>], pending: Pending<'_>) -> usize {
    match rows.get(pending.parent) {
        Some(parent) => {
            let owner = form_of(parent.variant);
            if hangs(owner, pending.place, pending.slot, pending.node) {
                return parent.base;
            }
            rows.len()
        }
        None => rows.len(),
    }
}

// The row of a node, as far as its parent tells.
fn new_row<'a>(pending: Pending<'a>, base: usize) -> Row<'a> {
    Row {
        node: pending.node,
        index: pending.index,
        ordinal: pending.ordinal,
        name: pending.name,
        kept: false,
        variant: form(pending.node, pending.place),
        place: pending.place,
        context: Context::outermost(),
        start: Start::Inside,
        parent: pending.parent,
        slot: pending.slot,
        listed: pending.listed,
        lined: pending.lined,
        opening: pending.opening,
        first: 0,
        last: 0,
        next: 0,
        base,
        front: Front::none(),
        opens_bare: false,
        ends_bare: false,
        level: PRIMARY,
        optional: false,
        groups: false,
        grouped: false,
        rises: false,
        falls: false,
        noted_before: false,
        noted_behind: false,
        breaks_before: false,
        breaks_behind: false,
        holds_before: false,
        holds_behind: false,
        begins: false,
        parenthesized: false,
        tall: false,
        loose: false,
    }
}

fn set_first(rows: &mut Vec<Row<'_>>, at: usize, first: usize) {
    if at < rows.len() {
        rows[at].first = first;
    }
}

fn set_next(rows: &mut Vec<Row<'_>>, at: usize, next: usize) {
    if at < rows.len() {
        rows[at].next = next;
    }
}

fn set_last(rows: &mut Vec<Row<'_>>, at: usize, last: usize) {
    if at < rows.len() {
        rows[at].last = last;
    }
}

// Links the row, the last of all, to its parent and to the child before it.
fn link(rows: &mut Vec<Row<'_>>, parent: usize, here: usize) -> Result<(), AllocError> {
    if here == 0 {
        return Ok(());
    }
    let before = row_at(rows.as_slice(), parent)?.last;
    set_last(rows, parent, here);
    if before == 0 {
        set_first(rows, parent, here);
    } else {
        set_next(rows, before, here);
    }
    Ok(())
}

// Where the next child stands: its number in preorder, and that of its place.
#[derive(Clone, Copy)]
struct Cursor {
    index: usize,
    ordinal: usize,
}

// The place is passed over.
fn past<P: Pieces>(pieces: &P, cursor: &mut Cursor, place: &TreePlace) {
    cursor.ordinal = cursor.ordinal.saturating_add(1);
    if place.node.is_some() {
        cursor.index = cursor.index.saturating_add(pieces.size(cursor.index));
    }
}

fn push_place<'a, P: Pieces>(
    pieces: &P,
    waiting: &mut Vec<Pending<'a>>,
    sample: Pending<'a>,
    owner: Kind,
    cursor: &mut Cursor,
    place: &'a TreePlace,
) -> Result<(), AllocError> {
    if let Some(node) = &place.node {
        let listed = sample.listed && is_item(owner, node);
        waiting.push(Pending {
            node,
            index: cursor.index,
            ordinal: cursor.ordinal,
            name: place.name,
            listed,
            lined: listed && sample.lined,
            ..sample
        })?;
    }
    past(pieces, cursor, place);
    Ok(())
}

// How many directives the list begins with.
fn opening_count(places: &[TreePlace]) -> usize {
    for at in 0..places.len() {
        match &places[at].node {
            Some(node) => {
                if !matches!(node.kind, Kind::Directive) {
                    return at;
                }
            }
            None => return at,
        }
    }
    places.len()
}

fn push_places<'a, P: Pieces>(
    pieces: &P,
    waiting: &mut Vec<Pending<'a>>,
    sample: Pending<'a>,
    owner: Kind,
    cursor: &mut Cursor,
    places: &'a [TreePlace],
) -> Result<(), AllocError> {
    let opening = opening_count(places);
    for at in 0..places.len() {
        let sample = Pending {
            opening: at <= opening,
            ..sample
        };
        push_place(pieces, waiting, sample, owner, cursor, &places[at])?;
    }
    Ok(())
}

fn push_slot<'a, P: Pieces>(
    pieces: &P,
    waiting: &mut Vec<Pending<'a>>,
    sample: Pending<'a>,
    owner: Kind,
    cursor: &mut Cursor,
    slot: &'a Slot,
) -> Result<(), AllocError> {
    match slot {
        Slot::Single(place) => push_place(pieces, waiting, sample, owner, cursor, place),
        Slot::List(places) => {
            let sample = Pending {
                listed: true,
                lined: is_lined(owner),
                ..sample
            };
            push_places(pieces, waiting, sample, owner, cursor, places.as_slice())
        }
    }
}

// The places of a slot whose children have no row.
fn pass_slot<P: Pieces>(pieces: &P, cursor: &mut Cursor, slot: &Slot) {
    match slot {
        Slot::Single(place) => past(pieces, cursor, place),
        Slot::List(places) => {
            for place in places.as_slice() {
                past(pieces, cursor, place);
            }
        }
    }
}

fn sample<'a>(row: Row<'a>, here: usize, slot: usize) -> Pending<'a> {
    Pending {
        node: row.node,
        index: 0,
        ordinal: 0,
        name: None,
        place: place_in(row.variant, slot),
        parent: here,
        slot,
        listed: false,
        lined: false,
        opening: true,
    }
}

fn stands_nowhere(variant: Option<Variant>, slot: usize) -> bool {
    match variant {
        Some(variant) => is_mirror(variant, slot),
        None => false,
    }
}

// The children of the row, in the order of the slots.
fn push_children<'a, P: Pieces>(
    pieces: &P,
    waiting: &mut Vec<Pending<'a>>,
    row: Row<'a>,
    here: usize,
) -> Result<(), AllocError> {
    let mut cursor = Cursor {
        index: row.index.saturating_add(1),
        ordinal: 0,
    };
    let slots = row.node.slots.as_slice();
    for at in 0..slots.len() {
        if stands_nowhere(row.variant, at) {
            pass_slot(pieces, &mut cursor, &slots[at]);
        } else {
            let sample = sample(row, here, at);
            push_slot(
                pieces,
                waiting,
                sample,
                row.node.kind,
                &mut cursor,
                &slots[at],
            )?;
        }
    }
    Ok(())
}

// Moves the characters of a template, which wait before its expressions, between these.
fn interleave(
    waiting: &mut Vec<Pending<'_>>,
    from: usize,
    alloc: Global,
) -> Result<(), AllocError> {
    let mut held = Vec::new(alloc);
    for at in from..waiting.len() {
        held.push(waiting[at])?;
    }
    waiting.truncate(from);
    let characters = count_in_slot(held.as_slice(), 0);
    let count = held.len();
    for at in 0..count {
        if at < characters {
            waiting.push(held[at])?;
        }
        let hole = characters.saturating_add(at);
        if hole < count {
            waiting.push(held[hole])?;
        }
    }
    Ok(())
}

fn count_in_slot(pending: &[Pending<'_>], slot: usize) -> usize {
    for at in 0..pending.len() {
        if pending[at].slot != slot {
            return at;
        }
    }
    pending.len()
}

// Turns round what waits from there on, so that the first is taken first.
fn turn_round(waiting: &mut Vec<Pending<'_>>, from: usize) {
    if from > waiting.len() {
        return;
    }
    let count = waiting.len() - from;
    for turn in 0..count / 2 {
        let low = from.saturating_add(turn);
        let high = waiting.len().saturating_sub(turn).saturating_sub(1);
        if low < waiting.len() && high < waiting.len() {
            let one = waiting[low];
            waiting[low] = waiting[high];
            waiting[high] = one;
        }
    }
}

// The children of the row, the last first.
fn push_reversed<'a, P: Pieces>(
    alloc: Global,
    pieces: &P,
    waiting: &mut Vec<Pending<'a>>,
    row: Row<'a>,
    here: usize,
) -> Result<(), AllocError> {
    let from = waiting.len();
    push_children(pieces, waiting, row, here)?;
    if matches!(row.node.kind, Kind::TemplateLiteral) {
        interleave(waiting, from, alloc)?;
    }
    turn_round(waiting, from);
    Ok(())
}

/// The rows of the tree at the place.
pub fn rows_of<'a, P: Pieces>(
    alloc: Global,
    pieces: &P,
    tree: &'a Tree,
    place: Place,
) -> Result<Vec<Row<'a>>, AllocError> {
    let mut rows = Vec::new(alloc);
    let mut waiting = Vec::new(alloc);
    waiting.push(Pending {
        node: tree,
        index: 0,
        ordinal: 0,
        name: None,
        place,
        parent: 0,
        slot: 0,
        listed: false,
        lined: false,
        opening: true,
    })?;
    for _turn in 0..usize::MAX {
        let Some(pending) = waiting.pop() else {
            return Ok(rows);
        };
        let here = rows.len();
        let row = new_row(pending, base_of(rows.as_slice(), pending));
        let kept = pieces.keeps(rows.as_slice(), row);
        let parenthesized = !kept && pieces.has_parens(row);
        rows.push(Row {
            kept,
            parenthesized,
            ..row
        })?;
        link(&mut rows, pending.parent, here)?;
        if !kept {
            push_reversed(alloc, pieces, &mut waiting, row, here)?;
        }
    }
    Err(AllocError)
}

/// Whether the row's form has no word before its first child.
pub fn begins_with_child(row: Row<'_>) -> bool {
    match row.variant {
        Some(variant) => row.first != 0 && begins_bare(variant),
        None => false,
    }
}

/// Whether the row's form has no word behind its last child.
pub fn ends_with_child(rows: &[Row<'_>], row: Row<'_>) -> bool {
    if row.last == 0 {
        return false;
    }
    match (row.variant, rows.get(row.last)) {
        (Some(variant), Some(last)) => ends_bare(variant, last.slot),
        _ => false,
    }
}

/// The form of the parent.
pub fn owner_form(rows: &[Row<'_>], row: Row<'_>, at: usize) -> Option<Form> {
    if row.parent == at {
        return None;
    }
    match rows.get(row.parent) {
        Some(parent) => form_of(parent.variant),
        None => None,
    }
}

/// The form of the row.
pub fn row_form(row: Row<'_>) -> Option<Form> {
    form_of(row.variant)
}

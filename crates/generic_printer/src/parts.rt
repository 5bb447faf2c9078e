//! The parts of a node's made text: words, blanks and children in order, by the pieces of its form.

use crate::rows::{Row, row_form};
use cm_text::Layout;
use js_forms::{
    Blank, Choice, Form, Lexeme, MetaWord, Piece, Test, first_row, pieces, plain, second_row,
};
use js_tokens::{Punctuator, Word};
use std::alloc::AllocError;
use tree_core::{Place, Slot, Tree};
use type_defs::Kind;

/// A token that the form spells.
#[derive(Clone, Copy, Debug, PartialEq, Eq)]
pub enum Token {
    Punctuator(Punctuator),
    Word(Word),
    Meta(MetaWord),
    /// A text of scalars.
    Text(Lexeme),
    /// The first line of a program.
    Interpreter,
    /// The characters of a template between its expressions.
    Characters,
    /// The backquote with which a template begins, and that with which it ends.
    OpenTemplate,
    CloseTemplate,
    /// What stands before and behind an expression of a template.
    OpenHole,
    CloseHole,
    /// The comma behind the last item of a list.
    LastComma,
    /// The `;` of a statement or a field, which may be missing.
    Semicolon,
}

/// A part of a made text.
#[derive(Clone, Copy, Debug, PartialEq, Eq)]
pub enum Part {
    Token(Token),
    Space,
    /// A line end with the front of the node's list.
    Items,
    /// A line end with the node's own front.
    Line,
    /// The child with this row.
    Child(usize),
}

// Where the interpretation of a form stands.
#[derive(Clone, Copy)]
struct State {
    slot: usize,
    // How many items of the list in hand are spelled.
    taken: usize,
    // The row of the next child, 0 for none.
    child: usize,
    // Whether the list that was spelled last has items.
    listed: Option<bool>,
}

fn list_at(node: &Tree, slot: usize) -> &[Place] {
    match node.slots.get(slot) {
        Some(Slot::List(places)) => places.as_slice(),
        _ => &[],
    }
}

// Whether a node stands in the first place of the slot.
fn is_filled(node: &Tree, slot: usize) -> bool {
    match node.slots.get(slot) {
        Some(Slot::Single(place)) => place.node.is_some(),
        Some(Slot::List(places)) => !places.is_empty(),
        None => false,
    }
}

fn next_slot(state: &mut State) {
    state.slot = state.slot.saturating_add(1);
    state.taken = 0;
}

fn add_token(parts: &mut Vec<Part>, token: Token) -> Result<(), AllocError> {
    parts.push(Part::Token(token))?;
    Ok(())
}

// The next child, if there is one.
fn add_child(parts: &mut Vec<Part>, rows: &[Row<'_>], state: &mut State) -> Result<(), AllocError> {
    if state.child == 0 {
        return Ok(());
    }
    parts.push(Part::Child(state.child))?;
    state.child = match rows.get(state.child) {
        Some(row) => row.next,
        None => 0,
    };
    Ok(())
}

// The one child of the slot.
fn single(
    parts: &mut Vec<Part>,
    rows: &[Row<'_>],
    row: Row<'_>,
    state: &mut State,
) -> Result<(), AllocError> {
    if is_filled(row.node, state.slot) {
        add_child(parts, rows, state)?;
    }
    next_slot(state);
    Ok(())
}

// An item of the list that follows.
fn into(
    parts: &mut Vec<Part>,
    rows: &[Row<'_>],
    row: Row<'_>,
    state: &mut State,
) -> Result<(), AllocError> {
    if state.taken < list_at(row.node, state.slot).len() {
        add_child(parts, rows, state)?;
        state.taken = state.taken.saturating_add(1);
    }
    Ok(())
}

// Whether the kind's list may have a comma behind its last item by the layout.
fn takes_comma(kind: Kind) -> bool {
    matches!(
        kind,
        Kind::ArrayExpression | Kind::ObjectExpression | Kind::ArrayPattern | Kind::ObjectPattern
    )
}

fn last_comma(
    parts: &mut Vec<Part>,
    layout: &Layout,
    row: Row<'_>,
    places: &[Place],
) -> Result<(), AllocError> {
    if places.is_empty() {
        return Ok(());
    }
    match &places[places.len() - 1].node {
        None => add_token(parts, Token::Punctuator(Punctuator::Comma)),
        Some(node) => {
            if layout.trailing_comma
                && takes_comma(row.node.kind)
                && !matches!(node.kind, Kind::RestElement)
            {
                return add_token(parts, Token::LastComma);
            }
            Ok(())
        }
    }
}

// A list with commas.
fn commas(
    parts: &mut Vec<Part>,
    layout: &Layout,
    rows: &[Row<'_>],
    row: Row<'_>,
    state: &mut State,
) -> Result<(), AllocError> {
    let places = list_at(row.node, state.slot);
    let first = state.taken;
    for at in first..places.len() {
        if at > first {
            add_token(parts, Token::Punctuator(Punctuator::Comma))?;
            parts.push(Part::Space)?;
        }
        if places[at].node.is_some() {
            add_child(parts, rows, state)?;
        }
    }
    last_comma(parts, layout, row, places)?;
    state.listed = Some(first < places.len());
    next_slot(state);
    Ok(())
}

// A list in lines.
fn items(
    parts: &mut Vec<Part>,
    rows: &[Row<'_>],
    row: Row<'_>,
    state: &mut State,
) -> Result<(), AllocError> {
    let places = list_at(row.node, state.slot);
    for at in 0..places.len() {
        if at > 0 {
            parts.push(Part::Items)?;
        }
        if places[at].node.is_some() {
            add_child(parts, rows, state)?;
        }
    }
    state.listed = Some(!places.is_empty());
    next_slot(state);
    Ok(())
}

fn template(
    parts: &mut Vec<Part>,
    rows: &[Row<'_>],
    row: Row<'_>,
    state: &mut State,
) -> Result<(), AllocError> {
    let characters = list_at(row.node, 0).len();
    let holes = list_at(row.node, 1).len();
    add_token(parts, Token::OpenTemplate)?;
    for at in 0..characters.max(holes) {
        if at < characters {
            add_child(parts, rows, state)?;
        }
        if at < holes {
            add_token(parts, Token::OpenHole)?;
            add_child(parts, rows, state)?;
            add_token(parts, Token::CloseHole)?;
        }
    }
    add_token(parts, Token::CloseTemplate)?;
    next_slot(state);
    next_slot(state);
    Ok(())
}

// Whether the list beside the blank has items.
fn beside_items(row: Row<'_>, state: &State) -> bool {
    match state.listed {
        Some(listed) => listed,
        None => state.taken < list_at(row.node, state.slot).len(),
    }
}

fn add_blank(
    parts: &mut Vec<Part>,
    layout: &Layout,
    row: Row<'_>,
    state: &State,
    blank: Blank,
) -> Result<(), AllocError> {
    match blank {
        Blank::Space => parts.push(Part::Space)?,
        Blank::Inside => {
            if beside_items(row, state) && !layout.tight_braces {
                parts.push(Part::Space)?;
            }
        }
        Blank::Items => {
            if beside_items(row, state) {
                parts.push(Part::Items)?;
            }
        }
        Blank::Line => {
            if beside_items(row, state) {
                parts.push(Part::Line)?;
            }
        }
    }
    Ok(())
}

fn add_test(parts: &mut Vec<Part>, test: Test) -> Result<(), AllocError> {
    match test {
        Test::Punctuator(mark) => add_token(parts, Token::Punctuator(mark)),
        Test::Word(word) => add_token(parts, Token::Word(word)),
        Test::Spelled(word) => add_token(parts, Token::Meta(word)),
        _ => Ok(()),
    }
}

// Whether the one parameter of the arrow is a name without comments, which needs no parentheses.
fn is_bare_parameter(rows: &[Row<'_>], layout: &Layout, row: Row<'_>) -> bool {
    if layout.arrow_parens || row.parenthesized || list_at(row.node, 0).len() != 1 {
        return false;
    }
    match rows.get(row.first) {
        Some(first) => {
            matches!(first.node.kind, Kind::Identifier)
                && first.node.notes.lead().is_empty()
                && first.node.notes.trail().is_empty()
        }
        None => false,
    }
}

fn is_block_next(rows: &[Row<'_>], state: &State) -> bool {
    match rows.get(state.child) {
        Some(body) => matches!(body.node.kind, Kind::BlockStatement),
        None => false,
    }
}

// Whether made text has the first row of the choice.
fn is_first(
    rows: &[Row<'_>],
    layout: &Layout,
    row: Row<'_>,
    state: &State,
    choice: Choice,
) -> bool {
    match choice {
        Choice::ArrowParameters => !is_bare_parameter(rows, layout, row),
        Choice::ArrowBody => !is_block_next(rows, state),
        Choice::LastComma | Choice::Semicolon => true,
        _ => is_filled(row.node, state.slot),
    }
}

fn is_function(form: Form) -> bool {
    matches!(form, Form::Function(_) | Form::FunctionDeclaration(_))
}

// A piece that is no choice.
fn plain_piece(
    parts: &mut Vec<Part>,
    layout: &Layout,
    rows: &[Row<'_>],
    row: Row<'_>,
    state: &mut State,
    piece: Piece,
) -> Result<(), AllocError> {
    match piece {
        Piece::Interpreter => add_token(parts, Token::Interpreter),
        Piece::Blank(one) => add_blank(parts, layout, row, state, one),
        Piece::Token(one) => add_test(parts, one),
        Piece::Text(lexeme) => add_token(parts, Token::Text(lexeme)),
        Piece::Child(_) | Piece::First(_) => single(parts, rows, row, state),
        Piece::Hole | Piece::NoList(_) => {
            next_slot(state);
            Ok(())
        }
        Piece::Into(_) => into(parts, rows, row, state),
        Piece::Row(_, _) => items(parts, rows, row, state),
        Piece::Commas(_, _, _) => commas(parts, layout, rows, row, state),
        Piece::Twins(_, _) => {
            add_child(parts, rows, state)?;
            next_slot(state);
            next_slot(state);
            Ok(())
        }
        Piece::End(_, _) => add_token(parts, Token::Semicolon),
        Piece::Template(_) => template(parts, rows, row, state),
        Piece::Nothing | Piece::Scalar(_) | Piece::Ahead(_) | Piece::Choice(_) | Piece::Own(_) =>
            Ok(()),
    }
}

// A choice between two rows of pieces.
fn chosen(
    parts: &mut Vec<Part>,
    layout: &Layout,
    rows: &[Row<'_>],
    row: Row<'_>,
    state: &mut State,
    form: Form,
    choice: Choice,
) -> Result<(), AllocError> {
    let first = is_first(rows, layout, row, state, choice);
    if !first && matches!(choice, Choice::Name) && is_function(form) {
        parts.push(Part::Space)?;
    }
    if matches!(choice, Choice::Semicolon) {
        return add_token(parts, Token::Semicolon);
    }
    let pieces = if first {
        first_row(choice)
    } else {
        second_row(choice)
    };
    for piece in pieces {
        plain_piece(parts, layout, rows, row, state, plain(form, *piece))?;
    }
    Ok(())
}

/// Adds the parts of the row's made text.
pub fn parts_of(
    parts: &mut Vec<Part>,
    layout: &Layout,
    rows: &[Row<'_>],
    row: Row<'_>,
) -> Result<(), AllocError> {
    let Some(variant) = row.variant else {
        return Ok(());
    };
    if matches!(variant.form, Form::TemplateElement) {
        return add_token(parts, Token::Characters);
    }
    let mut state = State {
        slot: 0,
        taken: 0,
        child: row.first,
        listed: None,
    };
    for piece in pieces(variant.form, variant.spelling) {
        match plain(variant.form, *piece) {
            Piece::Choice(choice) => {
                chosen(parts, layout, rows, row, &mut state, variant.form, choice)?;
            }
            piece => plain_piece(parts, layout, rows, row, &mut state, piece)?,
        }
    }
    Ok(())
}

/// Whether the row is a static async method, of which comments before the key stand behind
/// `static`.
pub fn is_static_async(row: Row<'_>) -> bool {
    match row_form(row) {
        Some(Form::Method(_, standing, flow, _)) => {
            js_forms::is_static(standing) && flow.is_async()
        }
        _ => false,
    }
}

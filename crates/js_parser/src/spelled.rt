//! Which pieces of a spelling are left behind a first child, and which row of a choice comes next.

use crate::tokens::passes;
use js_forms::{Choice, Own, Piece, first_row, second_row};
use js_lexer::Cursor;

// Whether it is the piece with which the first child ends, or the key of a member.
fn ends_first(piece: Piece) -> bool {
    match piece {
        Piece::First(_) | Piece::Child(_) | Piece::Into(_) | Piece::Own(Own::KeyClose) => true,
        Piece::Choice(choice) => matches!(choice, Choice::ForInit | Choice::ArrowParameters),
        _ => false,
    }
}

/// The pieces behind the first child, behind the key of a member, or behind an arrow's parameters.
pub fn behind_first(pieces: &'static [Piece]) -> &'static [Piece] {
    for at in 0..pieces.len() {
        if ends_first(pieces[at]) {
            return &pieces[at + 1..];
        }
    }
    &[]
}

// Whether the row comes next, as its first test of a token tells.
fn comes(cursor: &Cursor<'_>, row: &[Piece]) -> bool {
    for piece in row {
        match piece {
            Piece::Token(test) | Piece::Ahead(test) => return passes(cursor, *test),
            Piece::Blank(_) => {}
            _ => return true,
        }
    }
    true
}

/// The row of the choice that comes next.
pub fn chosen(cursor: &Cursor<'_>, choice: Choice) -> &'static [Piece] {
    let first = first_row(choice);
    if comes(cursor, first) {
        return first;
    }
    second_row(choice)
}

//! The made pieces between the children of a node: which comments, words and blanks they hold.

use crate::comments::{Note, any_note_breaks};
use crate::fronts::Front;
use crate::parts::{Part, Token, is_static_async};
use crate::rows::{Row, row_at};
use crate::things::{Blanks, Fronts, Thing, Things};
use js_tokens::Punctuator;
use std::alloc::AllocError;
use type_defs::Kind;

/// A piece that is to be made: its row, its parts, the children beside it (0 for none), and its
/// comments.
#[derive(Clone, Copy)]
pub struct Gap<'g, 'a> {
    pub rows: &'g [Row<'a>],
    pub here: usize,
    pub parts: &'g [Part],
    pub left: usize,
    pub right: usize,
    pub behind: &'g [Note<'a>],
    pub before: &'g [Note<'a>],
}

/// The front of the row's own lines.
pub fn own_front(rows: &[Row<'_>], row: Row<'_>) -> Front {
    if matches!(row.node.kind, Kind::Program) {
        return Front::none();
    }
    match rows.get(row.base) {
        Some(base) => base.front,
        None => Front::none(),
    }
}

/// The front of the lines of the row's list.
pub fn list_front(rows: &[Row<'_>], row: Row<'_>, unit: u8) -> Front {
    if matches!(row.node.kind, Kind::Program) {
        return Front::none();
    }
    let own = own_front(rows, row);
    Front::made(own.width.saturating_add(u64::from(unit)), own.tabs)
}

// A child beside the piece, as far as the piece goes by it.
#[derive(Clone, Copy)]
struct Side {
    there: bool,
    listed: bool,
    lined: bool,
    slot: usize,
}

const NO_SIDE: Side = Side {
    there: false,
    listed: false,
    lined: false,
    slot: 0,
};

fn side_of(rows: &[Row<'_>], at: usize) -> Side {
    if at == 0 {
        return NO_SIDE;
    }
    match rows.get(at) {
        Some(row) => Side {
            there: true,
            listed: row.listed,
            lined: row.lined,
            slot: row.slot,
        },
        None => NO_SIDE,
    }
}

// The number of the last token.
fn last_token(parts: &[Part]) -> usize {
    let mut last = 0;
    for at in 0..parts.len() {
        if matches!(parts[at], Part::Token(_)) {
            last = at;
        }
    }
    last
}

// A program without items: its comments have a space between them.
fn lay_program<'a>(
    things: &mut Things<'a>,
    gap: Gap<'_, 'a>,
    fronts: Fronts,
) -> Result<(), AllocError> {
    things.parts(gap.parts, fronts)?;
    for note in gap.before {
        things.put(Thing::Note(*note, fronts.own))?;
        things.blanks(Blanks::Space);
    }
    things.blanks(Blanks::None);
    Ok(())
}

// The piece of a node without children: comments stand before its last word.
fn lay_childless<'a>(
    things: &mut Things<'a>,
    gap: Gap<'_, 'a>,
    row: Row<'a>,
    fronts: Fronts,
) -> Result<(), AllocError> {
    if matches!(row.node.kind, Kind::Program) {
        return lay_program(things, gap, fronts);
    }
    if gap.before.is_empty() {
        return things.parts(gap.parts, fronts);
    }
    let last = last_token(gap.parts).min(gap.parts.len());
    things.parts(&gap.parts[..last], fronts)?;
    for note in gap.before {
        things.put(Thing::Note(*note, fronts.own))?;
    }
    things.parts(&gap.parts[last..], fronts)
}

// A piece of a template: comments stand within the braces.
fn lay_template<'a>(
    things: &mut Things<'a>,
    gap: Gap<'_, 'a>,
    fronts: Fronts,
) -> Result<(), AllocError> {
    let left = side_of(gap.rows, gap.left);
    if left.there && left.slot == 0 {
        things.parts(gap.parts, fronts)?;
        things.before(gap.behind, fronts.own)?;
        return things.before(gap.before, fronts.own);
    }
    things.behind(gap.behind, fronts.own)?;
    things.behind(gap.before, fronts.own)?;
    things.parts(gap.parts, fronts)
}

fn comma_count(parts: &[Part]) -> usize {
    let mut count = 0usize;
    for part in parts {
        if *part == Part::Token(Token::Punctuator(Punctuator::Comma)) {
            count = count.saturating_add(1);
        }
    }
    count
}

// Comments behind the left child, and a comma among them where there is one.
fn lay_left<'a>(
    things: &mut Things<'a>,
    gap: Gap<'_, 'a>,
    fronts: Fronts,
    comma: Option<Token>,
) -> Result<(), AllocError> {
    let early = any_note_breaks(gap.behind);
    if let Some(comma) = comma {
        if early {
            things.token(comma)?;
        }
    }
    let left = side_of(gap.rows, gap.left);
    for note in gap.behind {
        things.blanks(if note.inner && left.lined {
            Blanks::Lines(1, fronts.list)
        } else {
            Blanks::Space
        });
        things.put(Thing::Note(*note, fronts.behind))?;
    }
    if let Some(comma) = comma {
        if !early {
            things.token(comma)?;
        }
    }
    Ok(())
}

// Comments before the right child, each in a line of its own before an item of a list in lines.
fn lay_right<'a>(
    things: &mut Things<'a>,
    gap: Gap<'_, 'a>,
    fronts: Fronts,
) -> Result<(), AllocError> {
    let right = side_of(gap.rows, gap.right);
    for note in gap.before {
        things.put(Thing::Note(*note, fronts.behind))?;
        things.blanks(if right.lined || !note.comment.block {
            Blanks::Lines(1, fronts.behind)
        } else {
            Blanks::Space
        });
    }
    Ok(())
}

// The piece between two items of a list.
fn lay_between<'a>(
    things: &mut Things<'a>,
    gap: Gap<'_, 'a>,
    row: Row<'a>,
    fronts: Fronts,
) -> Result<(), AllocError> {
    let left = side_of(gap.rows, gap.left);
    let comma = if left.lined {
        None
    } else {
        Some(Token::Punctuator(Punctuator::Comma))
    };
    lay_left(things, gap, fronts, comma)?;
    things.blanks(if left.lined || row.loose {
        let count = if matches!(row.node.kind, Kind::ClassBody) {
            2
        } else {
            1
        };
        Blanks::Lines(count, fronts.list)
    } else {
        Blanks::Space
    });
    lay_right(things, gap, fronts)
}

// The words of a piece and the blanks between them; those at the ends of a loose list are lines.
fn lay_words<'a>(
    things: &mut Things<'a>,
    fronts: Fronts,
    loose_left: bool,
    loose_right: bool,
    parts: &[Part],
) -> Result<(), AllocError> {
    let mut first = true;
    for part in parts {
        if matches!(*part, Part::Token(_)) {
            if loose_left && first {
                things.blanks(Blanks::Lines(1, fronts.own));
            }
            first = false;
        }
        things.part(*part, fronts)?;
    }
    if loose_right {
        things.blanks(Blanks::Lines(1, fronts.list));
    }
    Ok(())
}

// A piece at an end of a list, or beside single children alone.
fn lay_edge<'a>(
    things: &mut Things<'a>,
    gap: Gap<'_, 'a>,
    row: Row<'a>,
    fronts: Fronts,
) -> Result<(), AllocError> {
    let left = side_of(gap.rows, gap.left);
    let right = side_of(gap.rows, gap.right);
    let (loose_left, loose_right) = (row.loose && left.listed, row.loose && right.listed);
    if !gap.parts.is_empty() && gap.parts[0] == Part::Token(Token::LastComma) {
        lay_left(things, gap, fronts, Some(Token::LastComma))?;
        lay_words(things, fronts, loose_left, loose_right, &gap.parts[1..])?;
    } else {
        lay_left(things, gap, fronts, None)?;
        lay_words(things, fronts, loose_left, loose_right, gap.parts)?;
    }
    lay_right(things, gap, fronts)
}

// The first piece of a static async method: comments stand behind `static`.
fn lay_static<'a>(
    things: &mut Things<'a>,
    gap: Gap<'_, 'a>,
    fronts: Fronts,
) -> Result<(), AllocError> {
    let cut = gap.parts.len().min(2);
    things.parts(&gap.parts[..cut], fronts)?;
    things.before(gap.before, fronts.own)?;
    things.parts(&gap.parts[cut..], fronts)
}

// The piece between two items with holes between them.
fn lay_holes<'a>(
    things: &mut Things<'a>,
    gap: Gap<'_, 'a>,
    fronts: Fronts,
) -> Result<(), AllocError> {
    things.behind(gap.behind, fronts.own)?;
    things.parts(gap.parts, fronts)?;
    things.before(gap.before, fronts.own)
}

fn fronts_of(gap: Gap<'_, '_>, row: Row<'_>, unit: u8) -> Fronts {
    let own = own_front(gap.rows, row);
    let list = list_front(gap.rows, row, unit);
    let behind = if side_of(gap.rows, gap.right).listed {
        list
    } else {
        own
    };
    Fronts { own, list, behind }
}

fn lay_piece<'a>(
    things: &mut Things<'a>,
    gap: Gap<'_, 'a>,
    row: Row<'a>,
    fronts: Fronts,
) -> Result<(), AllocError> {
    if row.first == 0 {
        return lay_childless(things, gap, row, fronts);
    }
    if matches!(row.node.kind, Kind::TemplateLiteral) {
        return lay_template(things, gap, fronts);
    }
    if gap.left == 0 && !gap.before.is_empty() && is_static_async(row) {
        return lay_static(things, gap, fronts);
    }
    let left = side_of(gap.rows, gap.left);
    let right = side_of(gap.rows, gap.right);
    if left.listed && right.listed && left.slot == right.slot {
        if !left.lined && comma_count(gap.parts) != 1 {
            return lay_holes(things, gap, fronts);
        }
        return lay_between(things, gap, row, fronts);
    }
    lay_edge(things, gap, row, fronts)
}

/// The things of a made piece, the child or the end behind it the last of them.
pub fn lay<'a>(things: &mut Things<'a>, gap: Gap<'_, 'a>, unit: u8) -> Result<(), AllocError> {
    things.clear();
    let row = row_at(gap.rows, gap.here)?;
    lay_piece(things, gap, row, fronts_of(gap, row, unit))?;
    things.put(Thing::Right)
}

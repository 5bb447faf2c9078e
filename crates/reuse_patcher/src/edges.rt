//! The pieces at the ends of lists and beside single children: which run of the source stands before
//! a word or behind the last one.

use crate::fronts::Shift;
use crate::laying::{Gaps, Item, Laying, What};
use crate::models::{Model, child_row};
use crate::parts::list_ends;
use generic_printer::{Row, Token};
use js_tokens::{Punctuator, TokenKind};
use source_layout::{Run, begins_at, is_line_broken, last_item};
use std::alloc::AllocError;
use tree_core::Span;
use type_defs::Kind;

/// A piece that is no piece between two items of a list.
#[derive(Clone, Copy)]
pub struct Edge<'a> {
    pub at: usize,
    pub row: Row<'a>,
    pub left: usize,
    pub right: usize,
    /// Whether the child on that side is an item of the list.
    pub left_listed: bool,
    pub right_listed: bool,
    /// The gaps of the source that begin and end at the same parts.
    pub behind: Option<usize>,
    pub before: Option<usize>,
    /// The first and the last word among the things, and the first thing behind the words.
    pub first_word: Option<usize>,
    pub last_word: Option<usize>,
    pub lead: usize,
    /// Whether the body on that side is a block now and was none.
    pub new_left: bool,
    pub new_right: bool,
    pub commas: bool,
    pub shift: Shift,
}

/// A run of the source, how far its lines are shifted, and whether it closes a list.
#[derive(Clone, Copy, Debug, PartialEq, Eq)]
pub struct Found {
    pub run: Run,
    pub shift: Shift,
    pub closes: bool,
}

pub fn is_bracket(mark: Punctuator) -> bool {
    matches!(
        mark,
        Punctuator::OpenBrace
            | Punctuator::CloseBrace
            | Punctuator::OpenBracket
            | Punctuator::CloseBracket
            | Punctuator::OpenParen
            | Punctuator::CloseParen
    )
}

/// The bracket that the thing is, if it is one.
pub fn bracket_of(item: Option<&Item<'_>>) -> Option<Punctuator> {
    match item {
        Some(item) => match item.what {
            What::Word(Token::Punctuator(mark)) => {
                if is_bracket(mark) {
                    return Some(mark);
                }
                None
            }
            _ => None,
        },
        None => None,
    }
}

fn source_bracket(kind: Option<TokenKind>) -> Option<Punctuator> {
    match kind {
        Some(TokenKind::Punctuator(mark)) => {
            if is_bracket(mark) {
                return Some(mark);
            }
            None
        }
        _ => None,
    }
}

// Whether a run beside a bracket of the source may stand beside this one: the same, or one that ends
// a line.
fn fits(text: &[u8], there: Option<TokenKind>, here: Option<Punctuator>, run: Run) -> bool {
    match (source_bracket(there), here) {
        (Some(there), Some(here)) => there == here || is_line_broken(text, run),
        _ => false,
    }
}

fn run_at(gaps: &Gaps<'_>, number: usize, at: usize) -> Run {
    match gaps.get(Some(number)) {
        Some(gap) => gap.run(at),
        None => Span { start: 0, end: 0 },
    }
}

fn found_run(
    gaps: &Gaps<'_>,
    number: usize,
    at: usize,
    shift: Shift,
    closes: bool,
) -> Option<Found> {
    Some(Found {
        run: run_at(gaps, number, at),
        shift,
        closes,
    })
}

// The first word of the gap, a trailing comma aside.
fn first_own_word(gaps: &Gaps<'_>, number: usize, edge: Edge<'_>) -> Option<usize> {
    let gap = gaps.get(Some(number))?;
    let first = gap.first_word(0)?;
    if edge.commas && gap.is_comma(first) {
        return gap.first_word(first.saturating_add(1));
    }
    Some(first)
}

// The end of a list: the run nearest to the word, back to the gap's start or its trailing comma.
fn end_of_list(text: &[u8], gaps: &Gaps<'_>, edge: Edge<'_>, y: Item<'_>) -> Option<Found> {
    let number = y.gap?;
    let at = y.rank.checked_sub(1)?;
    if first_own_word(gaps, number, edge)? != at {
        return None;
    }
    let low = match gaps.get(Some(number))?.last_word(at) {
        Some(comma) => comma.saturating_add(1),
        None => 0,
    };
    found_run(
        gaps,
        number,
        gaps.nearest(text, number, at, low),
        edge.shift,
        true,
    )
}

fn is_last_word(gaps: &Gaps<'_>, number: usize, rank: usize) -> bool {
    match gaps.get(Some(number)) {
        Some(gap) => gap.first_word(rank).is_none(),
        None => false,
    }
}

// The beginning of a list: the run nearest to its last word before it.
fn start_of_list(
    text: &[u8],
    gaps: &Gaps<'_>,
    edge: Edge<'_>,
    x: Item<'_>,
    y: Item<'_>,
) -> Option<Found> {
    let number = x.gap?;
    let high = if y.gap == x.gap {
        y.rank.saturating_sub(1)
    } else {
        gaps.get(x.gap)?.atoms.len()
    };
    found_run(
        gaps,
        number,
        gaps.nearest(text, number, x.rank, high),
        edge.shift,
        false,
    )
}

// The run between two things of one gap, between which no word stands.
fn between(
    text: &[u8],
    gaps: &Gaps<'_>,
    edge: Edge<'_>,
    x: Item<'_>,
    y: Item<'_>,
    over: bool,
) -> Option<Found> {
    let number = x.gap?;
    let high = y.rank.saturating_sub(1);
    let at = if over {
        gaps.nearest(text, number, x.rank, high)
    } else {
        gaps.most(text, number, x.rank, high)
    };
    found_run(gaps, number, at, edge.shift, false)
}

fn in_one_gap(gaps: &Gaps<'_>, x: Item<'_>, y: Item<'_>) -> bool {
    match x.gap {
        Some(number) => y.gap == x.gap && !gaps.has_word_between(number, x.rank, y.rank),
        None => false,
    }
}

// The end of the list after which an adopting list is written.
fn end_of_model<'s>(
    laying: Laying<'_, '_, 's>,
    gaps: &mut Gaps<'s>,
    edge: Edge<'_>,
    model: Model,
    y: Item<'_>,
) -> Result<Option<Found>, AllocError> {
    let Some(name) = list_ends(laying.reuse.source, model.owner).1 else {
        return Ok(None);
    };
    let number = gaps.number(laying, name)?;
    let Some(gap) = gaps.get(Some(number)) else {
        return Ok(None);
    };
    let mut word = gap.first_word(0);
    if let Some(first) = word {
        if gap.is_comma(first) {
            word = gap.first_word(first.saturating_add(1));
        }
    }
    let Some(at) = word else {
        return Ok(None);
    };
    if !fits(
        laying.text(),
        gap.word_at(at),
        bracket_of(Some(&y)),
        gap.run(at),
    ) {
        return Ok(None);
    }
    let shift = laying.list_shift(edge.at, edge.row, model.owner);
    Ok(found_run(gaps, number, at, shift, true))
}

// The beginning of the model's list.
fn start_of_model<'s>(
    laying: Laying<'_, '_, 's>,
    gaps: &mut Gaps<'s>,
    edge: Edge<'_>,
    model: Model,
    x: Item<'_>,
) -> Result<Option<Found>, AllocError> {
    let Some(name) = list_ends(laying.reuse.source, model.owner).0 else {
        return Ok(None);
    };
    let number = gaps.number(laying, name)?;
    let Some(gap) = gaps.get(Some(number)) else {
        return Ok(None);
    };
    let count = gap.atoms.len();
    let Some(word) = gap.last_word(count) else {
        return Ok(None);
    };
    let kind = gap.word_at(word);
    let at = gaps.nearest(laying.text(), number, word.saturating_add(1), count);
    if !fits(
        laying.text(),
        kind,
        bracket_of(Some(&x)),
        run_at(gaps, number, at),
    ) {
        return Ok(None);
    }
    let shift = laying.list_shift(edge.at, edge.row, model.owner);
    Ok(found_run(gaps, number, at, shift, false))
}

// What a crossing goes by: its two things, whether the first is the last word and the second the
// first one, and whether that stands behind the words.
#[derive(Clone, Copy)]
pub struct Crossing<'a> {
    pub x: Item<'a>,
    pub y: Item<'a>,
    pub from_last: bool,
    pub to_first: bool,
    pub over: bool,
}

fn is_made_alone(laying: Laying<'_, '_, '_>, edge: Edge<'_>, cross: Crossing<'_>) -> bool {
    let broken = piece_plan::truth_at(laying.models.broken.as_slice(), edge.at);
    (cross.to_first && edge.left_listed && broken)
        || (cross.over && edge.right_listed && broken)
        || (cross.to_first && edge.new_left)
        || (cross.over && edge.new_right)
}

// The run at the beginning of a list, where its last word stands for that of the source.
fn opens_list(gaps: &Gaps<'_>, edge: Edge<'_>, cross: Crossing<'_>) -> bool {
    cross.over
        && edge.right_listed
        && cross.from_last
        && cross.x.gap.is_some()
        && cross.x.gap == edge.before
        && match cross.x.gap {
            Some(number) => is_last_word(gaps, number, cross.x.rank),
            None => false,
        }
}

/// The run of the source for the crossing, if one is found.
pub fn run_for<'s>(
    laying: Laying<'_, '_, 's>,
    gaps: &mut Gaps<'s>,
    edge: Edge<'_>,
    cross: Crossing<'_>,
) -> Result<Option<Found>, AllocError> {
    let text = laying.text();
    if is_made_alone(laying, edge, cross) {
        return Ok(None);
    }
    if cross.to_first && edge.left_listed && cross.y.gap.is_some() {
        return Ok(end_of_list(text, gaps, edge, cross.y));
    }
    if opens_list(gaps, edge, cross) {
        return Ok(start_of_list(text, gaps, edge, cross.x, cross.y));
    }
    if cross.over && edge.right_listed && matches!(edge.row.node.kind, Kind::Program) {
        return Ok(match edge.before {
            Some(number) => found_run(gaps, number, 0, edge.shift, false),
            None => None,
        });
    }
    if in_one_gap(gaps, cross.x, cross.y) {
        return Ok(between(text, gaps, edge, cross.x, cross.y, cross.over));
    }
    by_model(laying, gaps, edge, cross)
}

fn by_model<'s>(
    laying: Laying<'_, '_, 's>,
    gaps: &mut Gaps<'s>,
    edge: Edge<'_>,
    cross: Crossing<'_>,
) -> Result<Option<Found>, AllocError> {
    let Some(model) = laying.models.model(edge.at) else {
        return Ok(None);
    };
    if cross.to_first && edge.left_listed && !model.own {
        return end_of_model(laying, gaps, edge, model, cross.y);
    }
    if cross.over && edge.right_listed && cross.from_last {
        return start_of_model(laying, gaps, edge, model, cross.x);
    }
    Ok(None)
}

/// Whether the list's last item begins a line, where the model's does.
pub fn ends_as_model<'s>(
    laying: Laying<'_, '_, 's>,
    gaps: &mut Gaps<'s>,
    edge: Edge<'_>,
    model: Model,
) -> Result<bool, AllocError> {
    let source = laying.reuse.source;
    let Some(item) = last_item(source, model.owner) else {
        return Ok(true);
    };
    let Some(name) = crate::laying::item_gap(laying, item, crate::laying::Hand::Before) else {
        return Ok(true);
    };
    let number = gaps.number(laying, name)?;
    let mut found = Vec::new(laying.alloc);
    if let Some(gap) = gaps.get(Some(number)) {
        if begins_at(&mut found, source, gap, item)?.is_none() {
            return Ok(true);
        }
    }
    match child_row(laying.rows, edge.left) {
        Some(left) => Ok(left.begins),
        None => Ok(true),
    }
}

/// The blanks before the model's first item, where they end no line.
pub fn opening_blanks<'s>(
    laying: Laying<'_, '_, 's>,
    gaps: &mut Gaps<'s>,
    model: Model,
) -> Result<Option<Run>, AllocError> {
    let Some(name) = list_ends(laying.reuse.source, model.owner).0 else {
        return Ok(None);
    };
    let number = gaps.number(laying, name)?;
    match gaps.get(Some(number)) {
        Some(gap) => {
            let run = gap.run(gap.atoms.len());
            if is_line_broken(laying.text(), run) {
                return Ok(None);
            }
            Ok(Some(run))
        }
        None => Ok(None),
    }
}

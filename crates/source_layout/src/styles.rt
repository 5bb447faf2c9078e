//! How a list of the source is written: in lines or not, with which indentation, with commas first or
//! last, with blank lines between its items.

use crate::atoms::{GapName, Run, SourceGap, gap_of, is_line_broken, line_count};
use crate::facts::{line_front, stands_first};
use crate::lists::{
    first_item, is_line_list, next_item, next_spelled, outer_span, previous_spelled,
};
use js_tokens::Token;
use piece_plan::SourceTree;
use std::alloc::{AllocError, Global};
use tree_core::Span;
use type_defs::Kind;

/// How a list is written.
#[derive(Clone, Copy, Debug, PartialEq, Eq)]
pub struct Style {
    /// How many items it has, and whether its items stand in lines.
    pub count: usize,
    pub lines: bool,
    /// Where the blanks stand that open the line of an item, and those of an item that is not the
    /// first.
    pub front: Option<Span>,
    pub inner_front: Option<Span>,
    /// The gap between two items after which others are written.
    pub pattern: Option<GapName>,
    pub commas_first: bool,
    pub trailing_comma: bool,
    /// The least number of line ends between two items.
    pub least: usize,
}

/// The run of a gap between two items that parts their lines.
#[derive(Clone, Copy, Debug, PartialEq, Eq)]
pub struct MainRun {
    /// The run before the comma, where that is the last but one thing; and the run behind all that
    /// belongs to the left item.
    pub before: Run,
    pub behind: Run,
    pub lines: usize,
    /// Whether it follows a line comment.
    pub follows_line_comment: bool,
}

// The last atom that is a word or belongs to the left item.
fn last_left(gap: &SourceGap<'_>) -> Option<usize> {
    for behind in 0..gap.atoms.len() {
        let at = gap.atoms.len() - 1 - behind;
        let atom = gap.atoms[at];
        if atom.word.is_some() || atom.after {
            return Some(at);
        }
    }
    None
}

fn is_line_comment(gap: &SourceGap<'_>, at: usize) -> bool {
    match gap.atoms.get(at) {
        Some(atom) => {
            if atom.word.is_some() {
                return false;
            }
            match gap.comments.get(atom.comment) {
                Some(comment) => !comment.block,
                None => false,
            }
        }
        None => false,
    }
}

fn empty_at(at: u32) -> Run {
    Span { start: at, end: at }
}

/// The main run of the gap.
pub fn main_run(text: &[u8], gap: &SourceGap<'_>) -> MainRun {
    let last = last_left(gap);
    let behind = match last {
        Some(last) => gap.run(last.saturating_add(1)),
        None => gap.run(0),
    };
    let before = match last {
        Some(last) => {
            if gap.is_comma(last) && gap.word_count() == 1 {
                gap.run(last)
            } else {
                empty_at(gap.span.start)
            }
        }
        None => empty_at(gap.span.start),
    };
    MainRun {
        before,
        behind,
        lines: line_count(text, behind).saturating_add(line_count(text, before)),
        follows_line_comment: match last {
            Some(last) => is_line_comment(gap, last),
            None => false,
        },
    }
}

// The offset behind the last line end of the gap, at which a line begins.
fn line_in(text: &[u8], gap: &SourceGap<'_>) -> Option<u32> {
    let count = gap.atoms.len();
    for behind in 0..count.saturating_add(1) {
        let run = gap.run(count.saturating_sub(behind));
        if is_line_broken(text, run) {
            return Some(run.end);
        }
    }
    None
}

/// The offset of what begins the line on which the item begins, if it begins one.
pub fn begins_at(
    found: &mut Vec<Token>,
    source: &SourceTree<'_>,
    gap: &SourceGap<'_>,
    item: usize,
) -> Result<Option<u32>, AllocError> {
    let text = source.text.bytes();
    let line = line_in(text, gap);
    if line.is_some() {
        return Ok(line);
    }
    let at = outer_span(found, source, item)?.start;
    if stands_first(text, at) {
        return Ok(Some(at));
    }
    Ok(None)
}

// The gap before the item.
fn left_gap<'s>(
    alloc: Global,
    source: &SourceTree<'s>,
    owner: usize,
    item: usize,
) -> Result<SourceGap<'s>, AllocError> {
    let ordinal = match source.node(item) {
        Some(node) => node.ordinal,
        None => 0,
    };
    gap_of(
        alloc,
        source,
        GapName {
            owner,
            left: previous_spelled(source, owner, ordinal),
            right: Some(item),
        },
    )
}

// What is known of a list from its items so far.
#[derive(Clone, Copy)]
struct Seen {
    count: usize,
    first: Option<u32>,
    inner: Option<u32>,
    // How many items, but for the first, begin a line.
    broken: usize,
    least: usize,
    pattern: Option<GapName>,
    commas_first: bool,
}

fn is_pattern(gap: &SourceGap<'_>, lined: bool) -> bool {
    gap.word_count() == if lined { 0 } else { 1 }
}

// One more item, which is not the first.
fn see_inner(seen: Seen, text: &[u8], gap: &SourceGap<'_>, lined: bool, at: Option<u32>) -> Seen {
    let main = main_run(text, gap);
    let mut seen = seen;
    seen.least = seen.least.min(main.lines);
    if seen.pattern.is_none() && is_pattern(gap, lined) {
        seen.pattern = Some(gap.name);
        seen.commas_first = !lined && is_line_broken(text, main.before);
    }
    if at.is_some() {
        seen.broken = seen.broken.saturating_add(1);
        if seen.inner.is_none() {
            seen.inner = at;
        }
    }
    seen
}

fn see_items(
    alloc: Global,
    source: &SourceTree<'_>,
    owner: usize,
    lined: bool,
) -> Result<Seen, AllocError> {
    let mut seen = Seen {
        count: 0,
        first: None,
        inner: None,
        broken: 0,
        least: usize::MAX,
        pattern: None,
        commas_first: false,
    };
    let mut found = Vec::new(alloc);
    let mut item = first_item(source, owner);
    for _turn in 0..source.nodes.len() {
        let Some(here) = item else {
            return Ok(seen);
        };
        let gap = left_gap(alloc, source, owner, here)?;
        let at = begins_at(&mut found, source, &gap, here)?;
        if seen.count == 0 {
            seen.first = at;
        } else {
            seen = see_inner(seen, source.text.bytes(), &gap, lined, at);
        }
        seen.count = seen.count.saturating_add(1);
        item = next_item(source, here);
    }
    Ok(seen)
}

fn are_lines(kind: Kind, seen: Seen) -> bool {
    if matches!(kind, Kind::Program) {
        return seen.count < 2 || seen.broken > 0;
    }
    if is_line_list(kind) {
        return seen.first.is_some() || seen.broken > 0;
    }
    if seen.count == 1 {
        return seen.first.is_some();
    }
    seen.broken.saturating_add(1) == seen.count
}

// The gap behind the last item begins with a comma that is not its only word.
fn has_trailing_comma(
    alloc: Global,
    source: &SourceTree<'_>,
    owner: usize,
) -> Result<bool, AllocError> {
    let Some(last) = crate::lists::last_item(source, owner) else {
        return Ok(false);
    };
    let ordinal = match source.node(last) {
        Some(node) => node.ordinal,
        None => 0,
    };
    let gap = gap_of(
        alloc,
        source,
        GapName {
            owner,
            left: Some(last),
            right: next_spelled(source, owner, ordinal.saturating_add(1)),
        },
    )?;
    match gap.first_word(0) {
        Some(first) => Ok(gap.is_comma(first) && gap.word_count() > 1),
        None => Ok(false),
    }
}

fn least_of(kind: Kind, lines: bool, seen: Seen) -> usize {
    let few = if matches!(kind, Kind::ClassBody) {
        1
    } else {
        2
    };
    if lines && seen.count > few && seen.least >= 2 {
        return 2;
    }
    1
}

fn front_at(text: &[u8], at: Option<u32>) -> Option<Span> {
    Some(line_front(text, at?))
}

/// The style of the owner's list.
pub fn style_of(alloc: Global, source: &SourceTree<'_>, owner: usize) -> Result<Style, AllocError> {
    let kind = match source.node(owner) {
        Some(node) => node.node.kind,
        None => Kind::EmptyStatement,
    };
    let lined = is_line_list(kind);
    let seen = see_items(alloc, source, owner, lined)?;
    let lines = are_lines(kind, seen);
    let text = source.text.bytes();
    let first = match seen.inner {
        Some(at) => Some(at),
        None => seen.first,
    };
    Ok(Style {
        count: seen.count,
        lines,
        front: front_at(text, first),
        inner_front: front_at(text, seen.inner),
        pattern: seen.pattern,
        commas_first: seen.commas_first,
        trailing_comma: !lined && has_trailing_comma(alloc, source, owner)?,
        least: least_of(kind, lines, seen),
    })
}

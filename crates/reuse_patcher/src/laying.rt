//! Made pieces laid out after the source: what each word and comment of a piece stands for there, and
//! which blanks come with it.

use crate::fronts::Shift;
use crate::models::{Models, child_row};
use crate::writing::Reuse;
use cm_text::{Layout, LineEnd};
use generic_printer::{Note, Row, Token};
use piece_plan::same_comment;
use source_layout::{
    GapName, SourceGap, gap_of, is_line_list, line_count, next_spelled, outer_span, position,
    previous_spelled,
};
use std::alloc::{AllocError, Global};
use tree_core::Comment;

/// What a made piece is laid out with: the source and what is kept of it, the models of lists, the
/// rows, and the text that is written so far.
#[derive(Clone, Copy)]
pub struct Laying<'l, 'a, 's> {
    pub alloc: Global,
    pub reuse: &'l Reuse<'l, 's>,
    pub models: &'l Models,
    pub rows: &'l [Row<'a>],
    pub out: &'l [u8],
    pub layout: Layout,
    pub end: LineEnd,
}

/// A thing of a piece.
#[derive(Clone, Copy)]
pub enum What<'a> {
    /// The left child, or the start of the node.
    Left,
    Note(Note<'a>),
    Word(Token),
    /// The comma of a list, or one behind its last item.
    Comma(Token),
    /// The right child, or the end of the node.
    Right,
}

/// A thing and what it stands for in the source: the number of a gap, its rank there (0 before all
/// atoms, that of an atom counted from 1), where that stands, and by how much the lines are shifted.
#[derive(Clone, Copy)]
pub struct Item<'a> {
    pub what: What<'a>,
    pub gap: Option<usize>,
    pub rank: usize,
    pub at: Option<u32>,
    pub shift: Shift,
}

/// A side of a piece in the source: its gap, where what is beside it begins, and the shift.
#[derive(Clone, Copy)]
pub struct Side {
    pub gap: Option<usize>,
    pub at: Option<u32>,
    pub shift: Shift,
}

/// On which side of an item a gap is.
#[derive(Clone, Copy, Debug, PartialEq, Eq)]
pub enum Hand {
    Before,
    Behind,
}

pub const NO_SHIFT: Shift = Shift { more: 0, less: 0 };

impl<'a> Item<'a> {
    /// A thing that stands for nothing in the source.
    pub fn new(what: What<'a>) -> Item<'a> {
        Item {
            what,
            gap: None,
            rank: 0,
            at: None,
            shift: NO_SHIFT,
        }
    }

    /// Whether it is a comment that stands for none of the source.
    pub fn is_new(self) -> bool {
        match self.what {
            What::Note(_) => self.gap.is_none(),
            _ => false,
        }
    }
}

impl Side {
    pub fn none() -> Side {
        Side {
            gap: None,
            at: None,
            shift: NO_SHIFT,
        }
    }
}

/// The gaps of the source by which a piece goes, each once.
#[derive(Drop)]
pub struct Gaps<'s> {
    pub all: Vec<SourceGap<'s>>,
}

impl<'s> Gaps<'s> {
    /// The number of the gap of this name.
    pub fn number(
        &mut self,
        laying: Laying<'_, '_, 's>,
        name: GapName,
    ) -> Result<usize, AllocError> {
        for at in 0..self.all.len() {
            if self.all[at].name == name {
                return Ok(at);
            }
        }
        let gap = gap_of(laying.alloc, laying.reuse.source, name)?;
        self.all.push(gap)?;
        Ok(self.all.len().saturating_sub(1))
    }

    pub fn get(&self, number: Option<usize>) -> Option<&SourceGap<'s>> {
        self.all.get(number?)
    }

    /// Whether a word stands between the ranks.
    pub fn has_word_between(&self, number: usize, low: usize, high: usize) -> bool {
        let Some(gap) = self.all.get(number) else {
            return false;
        };
        for rank in low.saturating_add(1)..high {
            if gap.word_at(rank.saturating_sub(1)).is_some() {
                return true;
            }
        }
        false
    }

    /// The first of the runs, from the low one to the high one, with the most line ends.
    pub fn most(&self, text: &[u8], number: usize, low: usize, high: usize) -> usize {
        let Some(gap) = self.all.get(number) else {
            return low;
        };
        let mut best = low;
        for at in low.saturating_add(1)..high.saturating_add(1) {
            if gap.lines(text, at) > gap.lines(text, best) {
                best = at;
            }
        }
        best
    }

    /// The first run that ends a line, of those from one to the other; the one where none does.
    pub fn nearest(&self, text: &[u8], number: usize, one: usize, other: usize) -> usize {
        let Some(gap) = self.all.get(number) else {
            return one;
        };
        let count = one
            .max(other)
            .saturating_sub(one.min(other))
            .saturating_add(1);
        for step in 0..count {
            let at = if one < other {
                one.saturating_add(step)
            } else {
                one.saturating_sub(step)
            };
            if line_count(text, gap.run(at)) > 0 {
                return at;
            }
        }
        one
    }
}

/// The gap beside the item of the source.
pub fn item_gap(laying: Laying<'_, '_, '_>, item: usize, hand: Hand) -> Option<GapName> {
    let node = laying.reuse.source.node(item)?;
    let source = laying.reuse.source;
    Some(match hand {
        Hand::Before => GapName {
            owner: node.parent,
            left: previous_spelled(source, node.parent, node.ordinal),
            right: Some(item),
        },
        Hand::Behind => GapName {
            owner: node.parent,
            left: Some(item),
            right: next_spelled(source, node.parent, node.ordinal.saturating_add(1)),
        },
    })
}

impl<'l, 'a, 's> Laying<'l, 'a, 's> {
    fn outer_start(&self, number: usize) -> Result<u32, AllocError> {
        let mut found = Vec::new(self.alloc);
        Ok(outer_span(&mut found, self.reuse.source, number)?.start)
    }

    // The item of a list of the same sort for which the child stands: its own, or its seat.
    fn item_for(&self, row: Row<'a>, child: usize) -> Option<usize> {
        let found = child_row(self.rows, child)?;
        if let Some(number) = self.reuse.source.source_of(found.node) {
            if let Some(owner) = position(self.reuse.source, number) {
                let there = self.reuse.source.node(owner)?;
                if is_line_list(there.node.kind) == is_line_list(row.node.kind) {
                    return Some(number);
                }
            }
        }
        self.models.seat(child)
    }

    // The side of a list item in the source.
    pub fn own_side(
        &self,
        gaps: &mut Gaps<'s>,
        at: usize,
        row: Row<'a>,
        child: usize,
        hand: Hand,
    ) -> Result<Side, AllocError> {
        if let Some(item) = self.item_for(row, child) {
            let owner = match self.reuse.source.node(item) {
                Some(node) => node.parent,
                None => 0,
            };
            let shift = self.list_shift(at, row, owner);
            return self.side_of(gaps, item, hand, shift);
        }
        let Some(found) = child_row(self.rows, child) else {
            return Ok(Side::none());
        };
        match self.reuse.source.source_of(found.node) {
            Some(number) => {
                if number == 0 {
                    return Ok(Side::none());
                }
                let start = self.outer_start(number)?;
                let front = self.reuse.lines.front(start).width;
                let shift = Shift::between(front, self.list_front(at, row));
                self.side_of(gaps, number, hand, shift)
            }
            None => Ok(Side::none()),
        }
    }

    fn side_of(
        &self,
        gaps: &mut Gaps<'s>,
        item: usize,
        hand: Hand,
        shift: Shift,
    ) -> Result<Side, AllocError> {
        let Some(name) = item_gap(*self, item, hand) else {
            return Ok(Side::none());
        };
        Ok(Side {
            gap: Some(gaps.number(*self, name)?),
            at: Some(self.outer_start(item)?),
            shift,
        })
    }
}

// Whether the atom is a comment of this side with this text.
fn is_same(gap: &SourceGap<'_>, at: usize, after: bool, comment: &Comment) -> bool {
    let Some(atom) = gap.atoms.get(at) else {
        return false;
    };
    if atom.word.is_some() || atom.after != after {
        return false;
    }
    match gap.comments.get(atom.comment) {
        Some(other) => same_comment(comment, other),
        None => false,
    }
}

// The comments of this side of the gap, by the numbers of their atoms.
fn side_comments(
    alloc: Global,
    gap: &SourceGap<'_>,
    after: bool,
) -> Result<Vec<usize>, AllocError> {
    let mut found = Vec::new(alloc);
    for at in 0..gap.atoms.len() {
        let atom = gap.atoms[at];
        if atom.word.is_none() && atom.after == after {
            found.push(at)?;
        }
    }
    Ok(found)
}

fn paired<'a>(gap: &SourceGap<'_>, note: Note<'a>, side: Side, at: usize) -> Item<'a> {
    Item {
        what: What::Note(note),
        gap: side.gap,
        rank: at.saturating_add(1),
        at: match gap.atoms.get(at) {
            Some(atom) => Some(atom.span.start),
            None => None,
        },
        shift: side.shift,
    }
}

fn number_at(numbers: &[usize], at: usize) -> usize {
    match numbers.get(at) {
        Some(number) => *number,
        None => usize::MAX,
    }
}

// How many of the comments agree with those of the source from the start on.
fn common_start(gap: &SourceGap<'_>, notes: &[Note<'_>], there: &[usize], after: bool) -> usize {
    for at in 0..notes.len().min(there.len()) {
        if !is_same(gap, number_at(there, at), after, notes[at].comment) {
            return at;
        }
    }
    notes.len().min(there.len())
}

// How many agree at the end, of those behind the common start.
fn common_end(
    gap: &SourceGap<'_>,
    notes: &[Note<'_>],
    there: &[usize],
    after: bool,
    start: usize,
) -> usize {
    let most = notes.len().min(there.len()).saturating_sub(start);
    for behind in 0..most {
        let at = notes.len().saturating_sub(behind).saturating_sub(1);
        let other = there.len().saturating_sub(behind).saturating_sub(1);
        if at >= notes.len() || !is_same(gap, number_at(there, other), after, notes[at].comment) {
            return behind;
        }
    }
    most
}

/// The comments of one side of a piece, each with the comment of the source for which it stands.
pub fn matched<'a>(
    alloc: Global,
    gaps: &Gaps<'_>,
    items: &mut Vec<Item<'a>>,
    notes: &[Note<'a>],
    side: Side,
    after: bool,
) -> Result<(), AllocError> {
    let Some(gap) = gaps.get(side.gap) else {
        for note in notes {
            items.push(Item::new(What::Note(*note)))?;
        }
        return Ok(());
    };
    let there = side_comments(alloc, gap, after)?;
    let start = common_start(gap, notes, there.as_slice(), after);
    let end = common_end(gap, notes, there.as_slice(), after, start);
    for at in 0..notes.len() {
        let behind = notes.len() - 1 - at;
        let item = if at < start {
            paired(gap, notes[at], side, number_at(there.as_slice(), at))
        } else if behind < end {
            let other = there.len().saturating_sub(behind).saturating_sub(1);
            paired(gap, notes[at], side, number_at(there.as_slice(), other))
        } else {
            Item::new(What::Note(notes[at]))
        };
        items.push(item)?;
    }
    Ok(())
}

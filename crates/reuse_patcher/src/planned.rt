//! A made piece whose things are known.

use crate::edges::Edge;
use crate::inner::Parting;
use crate::laying::{Gaps, Item, Side, What};
use generic_printer::{Part, Row, Token};
use tree_core::Span;

/// What the piece is: between two items of a list, or at another place.
#[derive(Clone, Copy)]
pub enum Sort<'a> {
    Inner(Parting),
    Edge(Edge<'a>),
}

/// A piece whose things are known.
#[derive(Drop)]
pub struct Planned<'a, 's> {
    pub at: usize,
    pub row: Row<'a>,
    pub left_listed: bool,
    pub right_listed: bool,
    pub lined: bool,
    pub sort: Sort<'a>,
    pub items: Vec<Item<'a>>,
    // The last comment before the words, and the first thing behind them.
    pub tail: usize,
    pub lead: usize,
    pub gaps: Gaps<'s>,
    pub parts: Vec<Part>,
    pub right_side: Side,
}

/// How many words the parts have, but for a comma that the layout asks for.
pub fn count_tokens(parts: &[Part]) -> usize {
    let mut count = 0usize;
    for part in parts {
        if let Part::Token(token) = *part {
            if token != Token::LastComma {
                count = count.saturating_add(1);
            }
        }
    }
    count
}

impl<'a, 's> Planned<'a, 's> {
    pub fn last(&self) -> usize {
        self.items.len().saturating_sub(1)
    }

    pub fn item(&self, at: usize) -> Item<'a> {
        match self.items.get(at) {
            Some(item) => *item,
            None => Item::new(What::Right),
        }
    }

    // The last thing before the one in hand that is no new comment.
    pub fn old_before(&self, at: usize) -> usize {
        for behind in 0..at {
            let here = at - 1 - behind;
            if here == 0 || !self.item(here).is_new() {
                return here;
            }
        }
        0
    }

    // The first thing from the one in hand on that is no new comment.
    pub fn old_from(&self, at: usize) -> usize {
        for here in at..self.items.len() {
            if !self.item(here).is_new() {
                return here;
            }
        }
        self.last()
    }

    // Whether the atom of this rank is a comment of the source for which none stands here.
    pub fn is_gone(&self, gap: Option<usize>, rank: usize) -> bool {
        let Some(number) = gap else {
            return false;
        };
        let Some(there) = self.gaps.get(Some(number)) else {
            return false;
        };
        let Some(at) = rank.checked_sub(1) else {
            return false;
        };
        match there.atoms.get(at) {
            Some(atom) => atom.word.is_none() && !self.is_matched(number, rank),
            None => false,
        }
    }

    pub fn is_matched(&self, gap: usize, rank: usize) -> bool {
        for item in self.items.as_slice() {
            if let What::Note(_) = item.what {
                if item.gap == Some(gap) && item.rank == rank {
                    return true;
                }
            }
        }
        false
    }

    pub fn is_after(&self, gap: Option<usize>, rank: usize) -> bool {
        match (self.gaps.get(gap), rank.checked_sub(1)) {
            (Some(gap), Some(at)) => match gap.atoms.get(at) {
                Some(atom) => atom.after,
                None => false,
            },
            _ => false,
        }
    }

    pub fn run(&self, gap: Option<usize>, at: usize) -> Span {
        match self.gaps.get(gap) {
            Some(gap) => gap.run(at),
            None => Span { start: 0, end: 0 },
        }
    }
}

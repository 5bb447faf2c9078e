//! The blanks before the things of a made piece.

use crate::fronts::Shift;
use crate::inner::Parting;
use crate::laying::{Item, Laying, NO_SHIFT, What};
use crate::planned::{Planned, Sort};
use source_layout::{is_line_broken, line_count, line_front};
use std::alloc::AllocError;
use tree_core::Span;

/// A space.
pub fn put_space(bytes: &mut Vec<u8>) -> Result<(), AllocError> {
    bytes.push(b' ')?;
    Ok(())
}

impl<'l, 'a, 's> Laying<'l, 'a, 's> {
    // The front of a made line of the piece.
    pub fn push_front(
        &self,
        bytes: &mut Vec<u8>,
        planned: &Planned<'a, 's>,
    ) -> Result<(), AllocError> {
        let side = planned.right_side;
        let (follows, listed) = match planned.sort {
            Sort::Inner(parting) => (parting.seated, true),
            Sort::Edge(edge) => (!edge.new_right, edge.right_listed),
        };
        if follows && self.push_front_of(bytes, side.at, side.shift)? {
            return Ok(());
        }
        if listed {
            return self.push_list(bytes, planned.at, planned.row);
        }
        self.push_own(bytes, planned.row)
    }

    // The run of the source before the thing, with the front of that.
    pub fn push_fit(
        &self,
        bytes: &mut Vec<u8>,
        run: Span,
        shift: Shift,
        y: Item<'a>,
    ) -> Result<(), AllocError> {
        self.push_run(bytes, run, shift, y.at, y.shift)
    }

    // The blanks before a comment that stands before all words.
    pub fn push_after(
        &self,
        bytes: &mut Vec<u8>,
        planned: &Planned<'a, 's>,
        x: Item<'a>,
        y: Item<'a>,
    ) -> Result<(), AllocError> {
        let same = x.gap.is_some() && (y.gap == x.gap || y.gap.is_none());
        if let Some(number) = y.gap {
            let at = y.rank.saturating_sub(1);
            if same && !planned.gaps.has_word_between(number, x.rank, y.rank) {
                let most = planned.gaps.most(self.text(), number, x.rank, at);
                return self.push_fit(bytes, planned.run(y.gap, most), y.shift, y);
            }
            return self.push_fit(bytes, planned.run(y.gap, at), y.shift, y);
        }
        let next = x.rank.saturating_add(1);
        if same && planned.is_gone(x.gap, next) && planned.is_after(x.gap, next) {
            return self.push_run(bytes, planned.run(x.gap, x.rank), x.shift, None, NO_SHIFT);
        }
        if planned.left_listed && planned.lined && is_inner(y) {
            self.push_lines(bytes, 1)?;
            return self.push_list(bytes, planned.at, planned.row);
        }
        put_space(bytes)
    }

    // The blanks behind a new comment before the right child.
    pub fn push_break(
        &self,
        bytes: &mut Vec<u8>,
        planned: &Planned<'a, 's>,
        one: Item<'a>,
    ) -> Result<(), AllocError> {
        if (planned.lined && planned.right_listed) || is_line_comment(one) {
            self.push_lines(bytes, 1)?;
            return self.push_front(bytes, planned);
        }
        put_space(bytes)
    }

    // The blanks before a comment behind all words, or before the right child.
    pub fn push_before(
        &self,
        bytes: &mut Vec<u8>,
        planned: &mut Planned<'a, 's>,
        at: usize,
        x_at: usize,
    ) -> Result<(), AllocError> {
        let (x, y) = (planned.item(x_at), planned.item(at));
        let one = planned.item(at.saturating_sub(1));
        if one.is_new() && at > planned.lead {
            let before = y.rank.saturating_sub(1);
            if planned.is_gone(y.gap, before) && !planned.is_after(y.gap, before) {
                return self.push_fit(bytes, planned.run(y.gap, before), y.shift, y);
            }
            return self.push_break(bytes, planned, one);
        }
        let next = planned.old_from(at);
        let z = planned.item(next);
        let same = x.gap.is_some() && x.gap == z.gap;
        if next > at && same && planned.is_gone(x.gap, x.rank.saturating_add(1)) {
            return self.push_run(bytes, planned.run(x.gap, x.rank), x.shift, None, NO_SHIFT);
        }
        if x_at >= planned.lead && same {
            return self.push_within(bytes, planned, x, z);
        }
        self.push_crossing(bytes, planned, x_at, next)
    }

    // The blanks between two things behind all words that stand in one gap.
    pub fn push_within(
        &self,
        bytes: &mut Vec<u8>,
        planned: &Planned<'a, 's>,
        x: Item<'a>,
        z: Item<'a>,
    ) -> Result<(), AllocError> {
        let Some(number) = x.gap else {
            return put_space(bytes);
        };
        if planned.gaps.has_word_between(number, x.rank, z.rank) {
            return put_space(bytes);
        }
        let high = z.rank.saturating_sub(1);
        let most = planned.gaps.most(self.text(), number, x.rank, high);
        self.push_fit(bytes, planned.run(x.gap, most), x.shift, z)
    }

    // The blanks before the thing of this number.
    pub fn push_blanks(
        &self,
        bytes: &mut Vec<u8>,
        planned: &mut Planned<'a, 's>,
        at: usize,
    ) -> Result<(), AllocError> {
        let y = planned.item(at);
        let x_at = planned.old_before(at);
        let is_note = match y.what {
            What::Note(_) => true,
            _ => false,
        };
        if is_note && at <= planned.tail {
            return self.push_after(bytes, planned, planned.item(x_at), y);
        }
        if at >= planned.lead {
            return self.push_before(bytes, planned, at, x_at);
        }
        self.push_crossing(bytes, planned, x_at, at)
    }

    pub fn push_crossing(
        &self,
        bytes: &mut Vec<u8>,
        planned: &mut Planned<'a, 's>,
        x_at: usize,
        y_at: usize,
    ) -> Result<(), AllocError> {
        match planned.sort {
            Sort::Inner(parting) => self.push_parting(bytes, planned, parting, y_at),
            Sort::Edge(edge) => self.push_edge(bytes, planned, edge, x_at, y_at),
        }
    }

    // The blanks before the comma between two items.
    pub fn push_to_comma(
        &self,
        bytes: &mut Vec<u8>,
        planned: &Planned<'a, 's>,
        parting: Parting,
        y_at: usize,
    ) -> Result<(), AllocError> {
        if y_at < planned.tail {
            return Ok(());
        }
        if let Some(main) = parting.main {
            return self.push_run(bytes, main.before, parting.shift, None, NO_SHIFT);
        }
        if parting.commas_first {
            self.push_lines(bytes, parting.lines)?;
            return self.push_front(bytes, planned);
        }
        match parting.flat {
            Some(flat) => {
                if parting.broken {
                    return Ok(());
                }
                self.push_run(bytes, flat.before, NO_SHIFT, None, NO_SHIFT)
            }
            None => Ok(()),
        }
    }

    // The blanks between two items, or to the comma between them.
    pub fn push_parting(
        &self,
        bytes: &mut Vec<u8>,
        planned: &Planned<'a, 's>,
        parting: Parting,
        y_at: usize,
    ) -> Result<(), AllocError> {
        let y = planned.item(y_at);
        if let What::Comma(_) = y.what {
            return self.push_to_comma(bytes, planned, parting, y_at);
        }
        if parting.main.is_some() {
            return self.push_main(bytes, planned, parting, y);
        }
        if parting.broken && !parting.commas_first {
            self.push_lines(bytes, parting.lines)?;
            if parting.seated && self.push_front_of(bytes, y.at, y.shift)? {
                return Ok(());
            }
            return self.push_front(bytes, planned);
        }
        self.push_flat(bytes, parting)
    }

    // The blanks behind the comma of items on one line, or of commas that stand first.
    pub fn push_flat(&self, bytes: &mut Vec<u8>, parting: Parting) -> Result<(), AllocError> {
        let run = if parting.commas_first {
            match parting.pattern {
                Some(pattern) => Some(pattern.behind),
                None => None,
            }
        } else {
            match parting.flat {
                Some(flat) => Some(flat.behind),
                None => None,
            }
        };
        match run {
            Some(run) => {
                if is_line_broken(self.text(), run) {
                    return put_space(bytes);
                }
                self.push_run(bytes, run, NO_SHIFT, None, NO_SHIFT)
            }
            None => put_space(bytes),
        }
    }

    // The chosen run; where comments before the item are gone, the run before the item has more lines.
    pub fn push_main(
        &self,
        bytes: &mut Vec<u8>,
        planned: &Planned<'a, 's>,
        parting: Parting,
        y: Item<'a>,
    ) -> Result<(), AllocError> {
        let Some(main) = parting.main else {
            return Ok(());
        };
        let mut run = main.behind;
        let before = y.rank.saturating_sub(1);
        if before > 0 && self.follows_comment(planned, y.gap, before) {
            let own = planned.run(y.gap, before);
            if line_count(self.text(), own) > main.lines {
                run = own;
            }
        }
        let mut front = Vec::new(self.alloc);
        if self.push_front_of(&mut front, y.at, y.shift)? || planned.right_side.gap.is_some() {
            return self.push_run(bytes, run, parting.shift, y.at, y.shift);
        }
        self.push_run_with(bytes, planned, run, parting.shift)
    }

    // Whether the atom of this rank is a comment before the child behind it.
    pub fn follows_comment(
        &self,
        planned: &Planned<'a, 's>,
        gap: Option<usize>,
        rank: usize,
    ) -> bool {
        match (planned.gaps.get(gap), rank.checked_sub(1)) {
            (Some(gap), Some(at)) => match gap.atoms.get(at) {
                Some(atom) => atom.word.is_none() && !atom.after,
                None => false,
            },
            _ => false,
        }
    }

    // A run of the source whose last line gets the front of the list's items.
    pub fn push_run_with(
        &self,
        bytes: &mut Vec<u8>,
        planned: &Planned<'a, 's>,
        run: Span,
        shift: Shift,
    ) -> Result<(), AllocError> {
        if !is_line_broken(self.text(), run) {
            return self.push_run(bytes, run, shift, None, NO_SHIFT);
        }
        let line = line_front(self.text(), run.end).start.max(run.start);
        let lines = Span {
            start: run.start,
            end: line,
        };
        self.push_run(bytes, lines, NO_SHIFT, None, NO_SHIFT)?;
        self.push_list(bytes, planned.at, planned.row)
    }
}

fn is_inner(item: Item<'_>) -> bool {
    match item.what {
        What::Note(note) => note.inner,
        _ => false,
    }
}

fn is_line_comment(item: Item<'_>) -> bool {
    match item.what {
        What::Note(note) => !note.comment.block,
        _ => false,
    }
}

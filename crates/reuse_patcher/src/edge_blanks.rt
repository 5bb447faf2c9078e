//! The blanks at the ends of lists and beside single children.

use crate::blanks::put_space;
use crate::edges::{Crossing, Edge, bracket_of, ends_as_model, opening_blanks, run_for};
use crate::laying::{Hand, Laying, NO_SHIFT, Side, What, item_gap};
use crate::links::run_of_link;
use crate::models::child_row;
use crate::planned::{Planned, count_tokens};
use generic_printer::{Part, Row, Token};
use source_layout::is_line_broken;
use std::alloc::AllocError;
use tree_core::Span;
use type_defs::Kind;

impl<'l, 'a, 's> Laying<'l, 'a, 's> {
    // Whether one made object stands for all items of a list of lines: it hugs the brackets.
    pub fn hugs(&self, edge: Edge<'a>, child: usize) -> bool {
        let (Some(row), Some(style)) = (
            child_row(self.rows, child),
            self.models.model_style(edge.at),
        ) else {
            return false;
        };
        style.count > 1
            && style.lines
            && row.listed
            && self.reuse.source.source_of(row.node).is_none()
            && matches!(row.node.kind, Kind::ObjectExpression)
            && self.is_alone(edge.row, row)
            && self.models.loose(child).is_some()
    }

    // Whether no other item is in the list of the child.
    pub fn is_alone(&self, owner: Row<'a>, child: Row<'a>) -> bool {
        let mut count = 0usize;
        let mut at = owner.first;
        for _turn in 0..self.rows.len() {
            let Some(row) = child_row(self.rows, at) else {
                return count == 1;
            };
            if row.listed && row.slot == child.slot {
                count = count.saturating_add(1);
                if count > 1 {
                    return false;
                }
            }
            at = row.next;
        }
        count == 1
    }

    // The end of the node: nothing, or in a program what the source has there.
    pub fn push_end(
        &self,
        bytes: &mut Vec<u8>,
        planned: &Planned<'a, 's>,
        edge: Edge<'a>,
    ) -> Result<(), AllocError> {
        if !matches!(edge.row.node.kind, Kind::Program) {
            return Ok(());
        }
        if let Some(gap) = planned.gaps.get(edge.behind) {
            let run = gap.run(gap.atoms.len());
            return self.push_run(bytes, run, edge.shift, None, NO_SHIFT);
        }
        if self.reuse.ends_line() {
            return self.push_lines(bytes, 1);
        }
        Ok(())
    }

    // The blanks between words, and between these and what is beside them.
    pub fn push_edge(
        &self,
        bytes: &mut Vec<u8>,
        planned: &mut Planned<'a, 's>,
        edge: Edge<'a>,
        x_at: usize,
        y_at: usize,
    ) -> Result<(), AllocError> {
        let cross = Crossing {
            x: planned.item(x_at),
            y: planned.item(y_at),
            from_last: edge.last_word == Some(x_at),
            to_first: edge.first_word == Some(y_at),
            over: y_at >= edge.lead,
        };
        if let What::Comma(_) = cross.y.what {
            return Ok(());
        }
        if cross.over && edge.right == 0 {
            return self.push_end(bytes, planned, edge);
        }
        let opens = cross.over && cross.from_last && bracket_of(Some(&cross.x)).is_some();
        let closes = cross.to_first && bracket_of(Some(&cross.y)).is_some();
        if (opens && self.hugs(edge, edge.right)) || (closes && self.hugs(edge, edge.left)) {
            return Ok(());
        }
        self.push_found(bytes, planned, edge, cross, y_at)
    }

    pub fn push_found(
        &self,
        bytes: &mut Vec<u8>,
        planned: &mut Planned<'a, 's>,
        edge: Edge<'a>,
        cross: Crossing<'a>,
        y_at: usize,
    ) -> Result<(), AllocError> {
        let found = run_for(*self, &mut planned.gaps, edge, cross)?;
        let loose = self.models.loose(edge.at).is_some();
        let Some(found) = found else {
            if self.push_hanging(bytes, planned, edge, cross)?
                || self.push_link(bytes, planned, edge, cross)?
            {
                return Ok(());
            }
            if loose && cross.over && cross.from_last && edge.right_listed {
                self.push_lines(bytes, 1)?;
                return self.push_list(bytes, planned.at, planned.row);
            }
            if loose && cross.to_first && edge.left_listed {
                self.push_lines(bytes, 1)?;
                return self.push_own(bytes, planned.row);
            }
            return self.push_made_blanks(bytes, planned, cross.over, y_at);
        };
        if found.closes && self.closes_on_line(planned, edge, cross, found.run)? {
            return self.push_opening(bytes, planned, edge);
        }
        self.push_run(bytes, found.run, found.shift, cross.y.at, cross.y.shift)
    }

    // Whether the list's end is to stand on the line of its last item, which begins no line though the
    // model's does.
    pub fn closes_on_line(
        &self,
        planned: &mut Planned<'a, 's>,
        edge: Edge<'a>,
        cross: Crossing<'a>,
        run: Span,
    ) -> Result<bool, AllocError> {
        let Some(model) = self.models.model(edge.at) else {
            return Ok(false);
        };
        if bracket_of(Some(&cross.y)).is_none() || !is_line_broken(self.text(), run) {
            return Ok(false);
        }
        Ok(!ends_as_model(*self, &mut planned.gaps, edge, model)?)
    }

    pub fn push_opening(
        &self,
        bytes: &mut Vec<u8>,
        planned: &mut Planned<'a, 's>,
        edge: Edge<'a>,
    ) -> Result<(), AllocError> {
        let Some(model) = self.models.model(edge.at) else {
            return Ok(());
        };
        match opening_blanks(*self, &mut planned.gaps, model)? {
            Some(run) => self.push_run(bytes, run, NO_SHIFT, None, NO_SHIFT),
            None => Ok(()),
        }
    }

    // The run before a block that hangs here and hung in the source, where it ends a line; whether it
    // does.
    pub fn push_hanging(
        &self,
        bytes: &mut Vec<u8>,
        planned: &mut Planned<'a, 's>,
        edge: Edge<'a>,
        cross: Crossing<'a>,
    ) -> Result<bool, AllocError> {
        let Some(right) = child_row(self.rows, edge.right) else {
            return Ok(false);
        };
        let Some(number) = self.reuse.source.source_of(right.node) else {
            return Ok(false);
        };
        let is_end = match cross.y.what {
            What::Right => true,
            _ => false,
        };
        if !is_end
            || !cross.from_last
            || edge.new_right
            || !matches!(right.node.kind, Kind::BlockStatement)
            || right.base == edge.right
            || self.reuse.base_of(number) == number
        {
            return Ok(false);
        }
        let side = self.hanging_side(planned, edge, number)?;
        let Some(gap) = planned.gaps.get(side.gap) else {
            return Ok(false);
        };
        let run = gap.run(gap.atoms.len());
        if !is_line_broken(self.text(), run) {
            return Ok(false);
        }
        self.push_run(bytes, run, side.shift, side.at, side.shift)?;
        Ok(true)
    }

    // The run beside the word of a new link of a chain; whether there is one.
    pub fn push_link(
        &self,
        bytes: &mut Vec<u8>,
        planned: &mut Planned<'a, 's>,
        edge: Edge<'a>,
        cross: Crossing<'a>,
    ) -> Result<bool, AllocError> {
        if !cross.to_first && !cross.from_last {
            return Ok(false);
        }
        match run_of_link(*self, &mut planned.gaps, edge, cross.to_first)? {
            Some(found) => {
                self.push_run(bytes, found.run, found.shift, None, NO_SHIFT)?;
                Ok(true)
            }
            None => Ok(false),
        }
    }

    // The gap before the source's block, and how far its lines are shifted.
    pub fn hanging_side(
        &self,
        planned: &mut Planned<'a, 's>,
        edge: Edge<'a>,
        number: usize,
    ) -> Result<Side, AllocError> {
        let Some(name) = item_gap(*self, number, Hand::Before) else {
            return Ok(Side::none());
        };
        Ok(Side {
            gap: Some(planned.gaps.number(*self, name)?),
            at: Some(self.reuse.source.span(number).start),
            shift: self.shift_from(edge.row, number),
        })
    }

    // The blanks of made text before the thing.
    pub fn push_made_blanks(
        &self,
        bytes: &mut Vec<u8>,
        planned: &Planned<'a, 's>,
        over: bool,
        y_at: usize,
    ) -> Result<(), AllocError> {
        let mut words = 0usize;
        for at in 0..y_at {
            if let What::Word(_) = planned.item(at).what {
                words = words.saturating_add(1);
            }
        }
        let mut seen = 0usize;
        for part in planned.parts.as_slice() {
            match *part {
                Part::Token(Token::LastComma) => {}
                Part::Token(_) => seen = seen.saturating_add(1),
                part => {
                    if seen == words && (over || seen < count_tokens(planned.parts.as_slice())) {
                        self.push_part(bytes, planned, part)?;
                    }
                }
            }
        }
        Ok(())
    }

    pub fn push_part(
        &self,
        bytes: &mut Vec<u8>,
        planned: &Planned<'a, 's>,
        part: Part,
    ) -> Result<(), AllocError> {
        match part {
            Part::Space => put_space(bytes),
            Part::Items => {
                self.push_lines(bytes, 1)?;
                self.push_list(bytes, planned.at, planned.row)
            }
            Part::Line => {
                self.push_lines(bytes, 1)?;
                self.push_own(bytes, planned.row)
            }
            _ => Ok(()),
        }
    }
}

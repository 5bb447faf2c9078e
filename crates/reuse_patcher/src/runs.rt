//! Runs of blanks, written byte by byte: those of the source with their last line shifted, line ends,
//! and the fronts of made lines.

use crate::fronts::{BlankFront, Shift};
use crate::laying::Laying;
use cm_text::LineEnd;
use generic_printer::Row;
use source_layout::{Run, Style, is_line_broken, line_front, stands_first, width_of};
use std::alloc::AllocError;
use tree_core::Span;
use type_defs::Kind;

/// The bytes of a line end.
pub fn line_end_bytes(end: LineEnd) -> &'static [u8] {
    match end {
        LineEnd::Lf => b"\n",
        LineEnd::CrLf => b"\r\n",
        LineEnd::Cr => b"\r",
        LineEnd::Ls => b"\xE2\x80\xA8",
        LineEnd::Ps => b"\xE2\x80\xA9",
    }
}

fn push_many(out: &mut Vec<u8>, byte: u8, count: u64) -> Result<(), AllocError> {
    for _turn in 0..count {
        out.push(byte)?;
    }
    Ok(())
}

fn slice(text: &[u8], span: Span) -> &[u8] {
    let (start, end) = (span.start as usize, span.end as usize);
    if start > end || end > text.len() {
        return &[];
    }
    &text[start..end]
}

// Whether the blanks are tabs alone, and not none.
fn are_tabs(blanks: &[u8]) -> bool {
    for byte in blanks {
        if *byte != b'\t' {
            return false;
        }
    }
    !blanks.is_empty()
}

impl<'l, 'a, 's> Laying<'l, 'a, 's> {
    /// The source's text.
    pub fn text(&self) -> &'s [u8] {
        self.reuse.source.text.bytes()
    }

    // The front of the row on whose line the row is indented.
    fn base_width(&self, row: Row<'_>) -> u64 {
        match self.rows.get(row.base) {
            Some(base) => base.front.width,
            None => 0,
        }
    }

    // The bytes that open the line on which the row is indented.
    fn own_bytes(&self, row: Row<'_>) -> &'l [u8] {
        if matches!(row.node.kind, Kind::Program) {
            return &[];
        }
        let Some(base) = self.rows.get(row.base) else {
            return &[];
        };
        let end = base.front.start.saturating_add(base.front.len);
        if base.front.start > end || end > self.out.len() {
            return &[];
        }
        &self.out[base.front.start..end]
    }

    /// The row's own indentation.
    pub fn push_own(&self, bytes: &mut Vec<u8>, row: Row<'_>) -> Result<(), AllocError> {
        if matches!(row.node.kind, Kind::Program) {
            return Ok(());
        }
        if self.layout.use_tabs {
            return self.push_tabs(bytes, self.base_width(row));
        }
        bytes.extend_from_slice(self.own_bytes(row))?;
        Ok(())
    }

    fn push_tabs(&self, bytes: &mut Vec<u8>, width: u64) -> Result<(), AllocError> {
        let tab = u64::from(self.layout.tab_width.max(1));
        push_many(bytes, b'\t', width / tab)?;
        push_many(bytes, b' ', width % tab)
    }

    // A front of the width after the pattern: in tabs where that is of tabs and they reach it. An
    // empty pattern counts as that of the file.
    fn push_like(&self, bytes: &mut Vec<u8>, width: u64, pattern: &[u8]) -> Result<(), AllocError> {
        let tab = u64::from(self.layout.tab_width.max(1));
        let tabs = if pattern.is_empty() {
            match self.models.facts.pattern {
                Some(front) => are_tabs(slice(self.text(), front)),
                None => false,
            }
        } else {
            are_tabs(pattern)
        };
        if tabs && width % tab == 0 {
            return push_many(bytes, b'\t', width / tab);
        }
        push_many(bytes, b' ', width)
    }

    // A front of the width, written as these blanks of the source are, or else as the row's own.
    fn push_made(
        &self,
        bytes: &mut Vec<u8>,
        row: Row<'_>,
        width: u64,
        like: Option<Span>,
    ) -> Result<(), AllocError> {
        if self.layout.use_tabs {
            return self.push_tabs(bytes, width);
        }
        let Some(like) = like else {
            return self.push_like(bytes, width, self.own_bytes(row));
        };
        let blanks = slice(self.text(), like);
        if width_of(self.text(), like, self.layout.tab_width) == width {
            bytes.extend_from_slice(blanks)?;
            return Ok(());
        }
        self.push_like(bytes, width, blanks)
    }

    // The width of the front of the source line on which the node's base begins.
    fn source_base(&self, number: usize) -> u64 {
        let base = self.reuse.base_of(number);
        self.reuse
            .lines
            .front(self.reuse.source.span(base).start)
            .width
    }

    /// How far the lines of the source's node are shifted, beside a piece of the row.
    pub fn shift_from(&self, row: Row<'_>, number: usize) -> Shift {
        Shift::between(self.source_base(number), self.base_width(row))
    }

    fn front_width(&self, style: Style) -> Option<u64> {
        Some(width_of(self.text(), style.front?, self.layout.tab_width))
    }

    /// The width of the front of the items of the row's list.
    pub fn list_front(&self, at: usize, row: Row<'_>) -> u64 {
        if let Some(model) = self.models.model(at) {
            if let Some(style) = self.models.style(model.owner) {
                if let Some(front) = self.front_width(style) {
                    if model.own {
                        return self.reuse.shift(self.rows, at).moved(front);
                    }
                    let base = self.base_width(row).saturating_add(front);
                    return base.saturating_sub(self.source_base(model.owner));
                }
            }
        }
        if matches!(row.node.kind, Kind::Program) {
            return 0;
        }
        self.base_width(row).saturating_add(self.unit_width(at))
    }

    fn unit_width(&self, at: usize) -> u64 {
        match self.models.unit(at) {
            Some(unit) => unit.width,
            None => u64::from(self.layout.tab_width),
        }
    }

    /// The front of the items of the row's list.
    pub fn push_list(
        &self,
        bytes: &mut Vec<u8>,
        at: usize,
        row: Row<'_>,
    ) -> Result<(), AllocError> {
        let width = self.list_front(at, row);
        let like = match self.models.model_style(at) {
            Some(style) => style.inner_front,
            None => self.unit_front(at, row),
        };
        self.push_made(bytes, row, width, like)
    }

    // The blanks that show the unit, where the row's own indentation is empty.
    fn unit_front(&self, at: usize, row: Row<'_>) -> Option<Span> {
        if !self.own_bytes(row).is_empty() {
            return None;
        }
        Some(self.models.unit(at)?.front)
    }

    /// How far the lines of the source beside an item of this list of the source are shifted, for
    /// the list of the row.
    pub fn list_shift(&self, at: usize, row: Row<'_>, owner: usize) -> Shift {
        if let Some(model) = self.models.model(at) {
            if model.own && model.owner == owner {
                return self.reuse.shift(self.rows, at);
            }
        }
        if let Some(style) = self.models.style(owner) {
            if let Some(front) = self.front_width(style) {
                return Shift::between(front, self.list_front(at, row));
            }
        }
        Shift::between(0, 0)
    }

    // Blanks that open a line of the source, shifted.
    fn push_shifted(
        &self,
        bytes: &mut Vec<u8>,
        blanks: Span,
        shift: Shift,
    ) -> Result<(), AllocError> {
        let old = slice(self.text(), blanks);
        if shift.is_none() {
            bytes.extend_from_slice(old)?;
            return Ok(());
        }
        let width = shift.moved(width_of(self.text(), blanks, self.layout.tab_width));
        if self.layout.use_tabs {
            return self.push_tabs(bytes, width);
        }
        self.push_like(bytes, width, old)
    }

    /// The front of the source line on which something stands first at the offset, shifted; whether
    /// it does.
    pub fn push_front_of(
        &self,
        bytes: &mut Vec<u8>,
        at: Option<u32>,
        shift: Shift,
    ) -> Result<bool, AllocError> {
        let Some(at) = at else {
            return Ok(false);
        };
        if !stands_first(self.text(), at) {
            return Ok(false);
        }
        let blanks = Span {
            start: line_front(self.text(), at).start,
            end: at,
        };
        self.push_shifted(bytes, blanks, shift)?;
        Ok(true)
    }

    /// A run of the source. Where it ends a line, its last line gets the front of what stands at the
    /// offset, which comes next, where that stands first on its line; else its own, shifted.
    pub fn push_run(
        &self,
        bytes: &mut Vec<u8>,
        run: Run,
        shift: Shift,
        next: Option<u32>,
        next_shift: Shift,
    ) -> Result<(), AllocError> {
        let text = self.text();
        if !is_line_broken(text, run) {
            bytes.extend_from_slice(slice(text, run))?;
            return Ok(());
        }
        let line = line_front(text, run.end);
        let front = Span {
            start: line.start.max(run.start),
            end: run.end,
        };
        let lines = Span {
            start: run.start,
            end: front.start,
        };
        bytes.extend_from_slice(slice(text, lines))?;
        if !self.push_front_of(bytes, next, next_shift)? {
            self.push_shifted(bytes, front, shift)?;
        }
        Ok(())
    }

    /// So many line ends.
    pub fn push_lines(&self, bytes: &mut Vec<u8>, count: usize) -> Result<(), AllocError> {
        for _line in 0..count {
            bytes.extend_from_slice(line_end_bytes(self.end))?;
        }
        Ok(())
    }
}

/// The front that the blanks make.
pub fn front_of_bytes(blanks: &[u8], tab: u8) -> BlankFront {
    crate::fronts::front_of(blanks, 0, tab)
}

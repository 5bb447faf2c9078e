//! Where text is written: spaces between tokens that would join, `;` where one is missing, ends of
//! lines behind comments, and the front of the line in hand.

use crate::fronts::{
    Front, begins_with_line_end, end_bytes, first_line_end, front_at, last_line, push_front,
};
use crate::joints::{Last, joins, last_token, wants_semicolon};
use asi_rules::EndLevels;
use cm_text::{Layout, LineEnd, Quote};
use js_tokens::Goal;
use std::alloc::{AllocError, Global};
use tree_core::Span;

/// How a statement or a field ends that lacks its `;`.
#[derive(Clone, Copy, Debug, PartialEq, Eq)]
pub struct OpenEnd {
    pub ends: EndLevels,
    /// Whether the `;` may always be missing, as behind a `do` loop.
    pub always: bool,
}

// An end without `;`, and where it stands in the text.
#[derive(Clone, Copy)]
struct Ended {
    at: usize,
    end: OpenEnd,
}

/// A span of the source that stands in the text.
#[derive(Clone, Copy, Debug, PartialEq, Eq)]
pub struct Slice {
    /// Where it begins in the text.
    pub at: usize,
    pub span: Span,
}

/// A text that is being written.
#[derive(Drop)]
pub struct Sink {
    /// What was written.
    pub out: Vec<u8>,
    /// What of it is the source's, in order.
    pub slices: Vec<Slice>,
    /// How made text is laid out, and its line ends.
    pub layout: Layout,
    pub end: LineEnd,
    /// Whether the next string stands in single quotes.
    pub single: bool,
    // Where the line in hand begins.
    line: usize,
    // Its front, once that is known.
    front: Option<Front>,
    last: Option<Last>,
    // A line comment ends the text: the front of the line behind it.
    open: Option<Front>,
    // A `;` is missing, and what follows is not known yet.
    ended: Option<Ended>,
}

impl Sink {
    /// A text that goes on in a line of this indentation.
    pub fn new(alloc: Global, layout: Layout, end: LineEnd, indent: u64) -> Sink {
        Sink {
            out: Vec::new(alloc),
            slices: Vec::new(alloc),
            layout,
            end,
            single: layout.quote == Some(Quote::Single),
            line: 0,
            front: Some(Front::made(indent, layout.use_tabs && indent > 0)),
            last: None,
            open: None,
            ended: None,
        }
    }

    // Ends the line, and writes the front of the next.
    fn break_line(&mut self, front: Front) -> Result<(), AllocError> {
        self.out.extend_from_slice(end_bytes(self.end))?;
        self.line = self.out.len();
        push_front(&mut self.out, &self.layout, front)?;
        self.front = None;
        self.last = None;
        Ok(())
    }

    /// Ends the line of a line comment that ends the text.
    pub fn close(&mut self) -> Result<(), AllocError> {
        if let Some(front) = self.open {
            self.open = None;
            self.break_line(front)?;
        }
        Ok(())
    }

    /// The front of the line in hand, on which the next text begins.
    pub fn front(&mut self) -> Result<Front, AllocError> {
        self.close()?;
        if let Some(front) = self.front {
            return Ok(front);
        }
        let front = front_at(self.out.as_slice(), self.line, self.layout.tab_width);
        self.front = Some(front);
        Ok(front)
    }

    /// Where the line in hand begins, and whether a line comment is to end it.
    pub fn line(&self) -> (usize, bool) {
        (self.line, self.open.is_some())
    }

    /// A space, where no line comment is to be ended.
    pub fn space(&mut self) -> Result<(), AllocError> {
        if self.open.is_none() {
            self.out.push(b' ')?;
            self.last = None;
        }
        Ok(())
    }

    /// So many line ends, and a front behind them.
    pub fn lines(&mut self, count: usize, front: Front) -> Result<(), AllocError> {
        self.open = None;
        for _more in 1..count {
            self.out.extend_from_slice(end_bytes(self.end))?;
        }
        self.break_line(front)
    }

    /// Blanks, told byte by byte. Behind a line comment they begin with the end of its line.
    pub fn blanks(&mut self, bytes: &[u8]) -> Result<(), AllocError> {
        let mut from = 0;
        if self.open.is_some() {
            let Some(end) = first_line_end(bytes) else {
                return Ok(());
            };
            from = end;
        }
        if from >= bytes.len() {
            return Ok(());
        }
        self.open = None;
        self.last = None;
        let start = self.out.len();
        self.out.extend_from_slice(&bytes[from..])?;
        self.follow(start);
        Ok(())
    }

    /// Where the next text begins, once a line comment before it has ended its line.
    pub fn begin(&mut self) -> Result<usize, AllocError> {
        self.close()?;
        Ok(self.out.len())
    }

    // The byte at the offset, and all that stands behind, moves up by one.
    fn insert(&mut self, at: usize, byte: u8) -> Result<(), AllocError> {
        if at > self.out.len() {
            return Ok(());
        }
        self.out.insert(at, byte)?;
        if self.line > at {
            self.line = self.line.saturating_add(1);
        }
        move_slices(&mut self.slices, at);
        Ok(())
    }

    // A space before the text that begins there, where it would join the last token; where the text
    // then begins.
    fn part(&mut self, from: usize) -> Result<usize, AllocError> {
        let Some(last) = self.last else {
            return Ok(from);
        };
        if last.end != from || from > self.out.len() {
            return Ok(from);
        }
        if joins(self.out.as_slice(), last, from) {
            self.insert(from, b' ')?;
            return Ok(from.saturating_add(1));
        }
        Ok(from)
    }

    // A missing `;`, where the text behind it is known and wants one.
    fn settle(&mut self) -> Result<bool, AllocError> {
        let Some(ended) = self.ended else {
            return Ok(false);
        };
        let Some(wanted) = wants_semicolon(self.out.as_slice(), ended.at, ended.end) else {
            return Ok(false);
        };
        self.ended = None;
        if wanted {
            self.insert(ended.at, b';')?;
        }
        Ok(wanted)
    }

    /// A token that began there is whole.
    pub fn token(&mut self, from: usize, goal: Goal) -> Result<(), AllocError> {
        let start = if self.settle()? {
            from.saturating_add(1)
        } else {
            self.part(from)?
        };
        let end = self.out.len();
        self.last = Some(Last { start, end, goal });
        Ok(())
    }

    /// A text that began there is whole: a comment, or the opening of a template.
    pub fn other(&mut self, from: usize) -> Result<(), AllocError> {
        let start = if self.settle()? {
            from.saturating_add(1)
        } else {
            self.part(from)?
        };
        self.last = None;
        self.follow(start);
        Ok(())
    }

    /// A text of one line or more lines that began there, and joins nothing, is whole.
    pub fn raw(&mut self, from: usize) {
        self.last = None;
        self.follow(from);
    }

    /// The lines of a text that was written from there on.
    pub fn follow(&mut self, from: usize) {
        if let Some(line) = last_line(self.out.as_slice(), from) {
            self.line = line;
            self.front = None;
        }
    }

    /// A line comment ends the text; the next line has this front.
    pub fn open(&mut self, front: Front) {
        self.open = Some(front);
    }

    /// A `;` is missing where the text ends.
    pub fn lacks(&mut self, end: OpenEnd) {
        self.ended = Some(Ended {
            at: self.out.len(),
            end,
        });
    }

    /// Bytes that are to be copied follow: where they begin.
    pub fn meet(&mut self, bytes: &[u8]) -> Result<usize, AllocError> {
        if self.open.is_some() && begins_with_line_end(bytes) {
            self.open = None;
        }
        self.begin()
    }

    /// Copies the span of the source.
    pub fn copy(&mut self, source: &[u8], span: Span) -> Result<(), AllocError> {
        let (start, end) = (span.start as usize, span.end as usize);
        if start >= end || end > source.len() {
            return Ok(());
        }
        self.slices.push(Slice {
            at: self.out.len(),
            span,
        })?;
        self.out.extend_from_slice(&source[start..end])?;
        Ok(())
    }

    /// The copied bytes that began there are whole.
    pub fn copied(&mut self, from: usize) -> Result<(), AllocError> {
        let start = if self.settle()? {
            from.saturating_add(1)
        } else {
            self.part(from)?
        };
        self.follow(start);
        self.last = last_token(self.out.as_slice(), start);
        Ok(())
    }
}

// The slices that begin at the offset or behind it begin one byte later.
fn move_slices(slices: &mut Vec<Slice>, at: usize) {
    let count = slices.len();
    for behind in 0..count {
        let here = count - 1 - behind;
        if here < slices.len() {
            if slices[here].at < at {
                return;
            }
            slices[here].at = slices[here].at.saturating_add(1);
        }
    }
}

//! What stands for a node, or for a piece between its children: made text, or a span of a source.

use crate::gaps::Gap;
use crate::rows::Row;
use crate::sink::{OpenEnd, Sink};
use crate::things::Things;
use cm_text::Quote;
use paren_rules::Start;
use std::alloc::AllocError;
use tree_core::Span;

/// What a walk keeps of a source.
pub trait Pieces {
    /// How many nodes the one of this number in preorder holds, itself among them.
    fn size(&self, index: usize) -> usize;

    /// Whether the node of the new row is kept with all below it; the rows are those above it and
    /// before it.
    fn keeps(&self, rows: &[Row<'_>], row: Row<'_>) -> bool;

    /// Whether the row is an arrow whose parameters stand in parentheses in the source.
    fn has_parens(&self, row: Row<'_>) -> bool;

    /// The marks in which the row's string stands, where the layout asks for none.
    fn quote(&self, row: Row<'_>) -> Quote;

    /// The span that stands for the node of the row with all below it.
    fn node(&self, row: Row<'_>) -> Option<Span>;

    /// The level of the row's node as its span spells it.
    fn level(&self, row: Row<'_>) -> u8;

    /// Whether the row's node, bare, holds what may not begin there, or an `in` that may not stand
    /// there.
    fn needs_parens(&self, row: Row<'_>, start: Start) -> bool;

    /// Whether the text of the row's source node has a line end; none where it comes from no source.
    fn is_tall(&self, row: Row<'_>) -> Option<bool>;

    /// The span that stands for the piece before the child of this number, or behind the last.
    fn piece(&self, row: usize, gap: usize) -> Option<Span>;

    /// Whether the kept pieces of a `new` leave out its arguments.
    fn lacks_arguments(&self, row: usize) -> bool;

    /// Whether the parentheses round the node of the row stand in the kept pieces beside it.
    fn keeps_parens(&self, row: usize) -> bool;

    /// Writes the span, which belongs to the row.
    fn write(
        &self,
        rows: &[Row<'_>],
        row: usize,
        span: Span,
        sink: &mut Sink,
    ) -> Result<(), AllocError>;

    /// How the statement or field ends that lacks its `;` at the end of the row's text.
    fn open_end(&self, rows: &[Row<'_>], row: usize) -> Result<Option<OpenEnd>, AllocError>;

    /// How the row ends, whose last piece is made without its `;`.
    fn made_end(&self, rows: &[Row<'_>], row: usize) -> Result<OpenEnd, AllocError>;

    /// Whether the text begins with U+FEFF.
    fn has_mark(&self) -> bool;

    /// Lays out the things of a made piece as the source does, behind the text that is written so
    /// far; whether it does.
    fn lay<'a>(
        &self,
        gap: Gap<'_, 'a>,
        things: &mut Things<'a>,
        sink: &mut Sink,
    ) -> Result<bool, AllocError>;
}

/// Made text alone.
#[derive(Clone, Copy, Debug, PartialEq, Eq)]
pub struct Nothing;

impl Pieces for Nothing {
    fn size(&self, _index: usize) -> usize {
        1
    }

    fn keeps(&self, _rows: &[Row<'_>], _row: Row<'_>) -> bool {
        false
    }

    fn has_parens(&self, _row: Row<'_>) -> bool {
        false
    }

    fn quote(&self, _row: Row<'_>) -> Quote {
        Quote::Double
    }

    fn node(&self, _row: Row<'_>) -> Option<Span> {
        None
    }

    fn level(&self, _row: Row<'_>) -> u8 {
        0
    }

    fn needs_parens(&self, _row: Row<'_>, _start: Start) -> bool {
        false
    }

    fn is_tall(&self, _row: Row<'_>) -> Option<bool> {
        None
    }

    fn piece(&self, _row: usize, _gap: usize) -> Option<Span> {
        None
    }

    fn lacks_arguments(&self, _row: usize) -> bool {
        false
    }

    fn keeps_parens(&self, _row: usize) -> bool {
        false
    }

    fn write(
        &self,
        _rows: &[Row<'_>],
        _row: usize,
        _span: Span,
        _sink: &mut Sink,
    ) -> Result<(), AllocError> {
        Ok(())
    }

    fn open_end(&self, _rows: &[Row<'_>], _row: usize) -> Result<Option<OpenEnd>, AllocError> {
        Ok(None)
    }

    fn made_end(&self, _rows: &[Row<'_>], _row: usize) -> Result<OpenEnd, AllocError> {
        Err(AllocError)
    }

    fn has_mark(&self) -> bool {
        false
    }

    fn lay<'a>(
        &self,
        _gap: Gap<'_, 'a>,
        _things: &mut Things<'a>,
        _sink: &mut Sink,
    ) -> Result<bool, AllocError> {
        Ok(false)
    }
}

//! What a walk over a changed tree keeps, as the printer asks for it.

use crate::fronts::Shift;
use crate::laying::Laying;
use crate::lines::Lines;
use crate::models::Models;
use crate::shift::write_shifted;
use cm_text::Quote;
use generic_printer::{Gap, OpenEnd, Pieces, Row, Sink, Things};
use js_tokens::{Punctuator, TokenKind};
use paren_rules::Start;
use piece_plan::{
    Kept, Marks, SourceTree, made_end, needs_parens, open_end, place_at, source_level,
    still_spells, tokens_in, truth_at,
};
use source_layout::{next_spelled, quote_at};
use std::alloc::{AllocError, Global};
use tree_core::{Span, Tree};
use type_defs::Kind;

/// A source and what is kept of it.
#[derive(Clone, Copy)]
pub struct Reuse<'r, 's> {
    pub alloc: Global,
    pub source: &'r SourceTree<'s>,
    pub marks: &'r Marks,
    pub lines: &'r Lines,
    /// What is kept of pieces, once that is planned.
    pub kept: &'r Kept,
    /// Of each node of the source, that on whose line it is indented.
    pub bases: &'r [usize],
    /// How lists are laid out, once that is known.
    pub models: Option<&'r Models>,
}

fn base_at(bases: &[usize], number: usize) -> usize {
    match bases.get(number) {
        Some(base) => *base,
        None => number,
    }
}

// The front of the line on which the row's base begins.
fn own_width(rows: &[Row<'_>], row: Row<'_>) -> u64 {
    match rows.get(row.base) {
        Some(base) => base.front.width,
        None => 0,
    }
}

impl<'r, 's> Reuse<'r, 's> {
    /// The node on whose line the source's node is indented.
    pub fn base_of(&self, number: usize) -> usize {
        base_at(self.bases, number)
    }

    /// How far the lines of the row's source are shifted.
    pub fn shift(&self, rows: &[Row<'_>], at: usize) -> Shift {
        let Some(row) = rows.get(at) else {
            return Shift::between(0, 0);
        };
        let row = *row;
        if matches!(row.node.kind, Kind::Program) {
            return Shift::between(0, 0);
        }
        let Some(number) = self.source.source_of(row.node) else {
            return Shift::between(0, 0);
        };
        let base = base_at(self.bases, number);
        let front = self.lines.front(self.source.span(base).start);
        Shift::between(front.width, own_width(rows, row))
    }

    fn stands_as_before(&self, rows: &[Row<'_>], row: Row<'_>, number: usize) -> bool {
        match still_spells(self.alloc, self.source, number, rows, row) {
            Ok(spells) => spells,
            Err(_) => false,
        }
    }
}

// Whether the row's text is the characters of a template.
fn is_characters(rows: &[Row<'_>], at: usize) -> bool {
    match rows.get(at) {
        Some(row) => matches!(row.node.kind, Kind::TemplateElement),
        None => false,
    }
}

fn is_first_made(kept: &Kept, row: usize) -> bool {
    kept.piece(row, 0).is_none()
}

impl<'r, 's> Pieces for Reuse<'r, 's> {
    fn size(&self, index: usize) -> usize {
        self.marks.size(index)
    }

    fn keeps(&self, rows: &[Row<'_>], row: Row<'_>) -> bool {
        if !self.marks.is_same(row.index) {
            return false;
        }
        match self.source.source_of(row.node) {
            Some(number) => self.stands_as_before(rows, row, number),
            None => false,
        }
    }

    fn has_parens(&self, row: Row<'_>) -> bool {
        match self.opens_parameters(row) {
            Ok(opens) => opens,
            Err(_) => false,
        }
    }

    fn quote(&self, row: Row<'_>) -> Quote {
        if self.quote_byte(row) == Some(b'\'') {
            return Quote::Single;
        }
        Quote::Double
    }

    fn node(&self, row: Row<'_>) -> Option<Span> {
        if !row.kept {
            return None;
        }
        Some(self.source.span(self.source.source_of(row.node)?))
    }

    fn level(&self, row: Row<'_>) -> u8 {
        let Some(number) = self.source.source_of(row.node) else {
            return 0;
        };
        match source_level(self.alloc, self.source, number) {
            Ok(level) => level,
            Err(_) => 0,
        }
    }

    fn needs_parens(&self, row: Row<'_>, start: Start) -> bool {
        match needs_parens(self.alloc, self.source, row, start) {
            Ok(needs) => needs,
            Err(_) => true,
        }
    }

    fn is_tall(&self, row: Row<'_>) -> Option<bool> {
        let span = self.source.span(self.source.source_of(row.node)?);
        Some(self.lines.at(span.start) != self.lines.at(span.end))
    }

    fn piece(&self, row: usize, gap: usize) -> Option<Span> {
        Some(self.kept.piece(row, gap)?.span)
    }

    fn lacks_arguments(&self, row: usize) -> bool {
        truth_at(self.kept.bare.as_slice(), row)
    }

    fn keeps_parens(&self, row: usize) -> bool {
        truth_at(self.kept.parens.as_slice(), row)
    }

    fn write(
        &self,
        rows: &[Row<'_>],
        row: usize,
        span: Span,
        sink: &mut Sink,
    ) -> Result<(), AllocError> {
        let shift = self.shift(rows, row);
        let raw = is_characters(rows, row);
        let text = self.source.text.bytes();
        write_shifted(sink, text, self.lines, span, shift, raw)
    }

    fn open_end(&self, rows: &[Row<'_>], row: usize) -> Result<Option<OpenEnd>, AllocError> {
        open_end(self.alloc, self.source, self.kept, rows, row)
    }

    fn made_end(&self, rows: &[Row<'_>], row: usize) -> Result<OpenEnd, AllocError> {
        match rows.get(row) {
            Some(found) => made_end(self.alloc, self.source, rows, *found),
            None => Err(AllocError),
        }
    }

    fn has_mark(&self) -> bool {
        match self.source.text.bytes() {
            [0xEF, 0xBB, 0xBF, ..] => is_first_made(self.kept, 0),
            _ => false,
        }
    }

    fn lay<'a>(
        &self,
        gap: Gap<'_, 'a>,
        things: &mut Things<'a>,
        sink: &mut Sink,
    ) -> Result<bool, AllocError> {
        let Some(models) = self.models else {
            return Ok(false);
        };
        let laying = Laying {
            alloc: self.alloc,
            reuse: self,
            models,
            rows: gap.rows,
            out: sink.out.as_slice(),
            layout: sink.layout,
            end: sink.end,
        };
        laying.lay(gap, things)
    }
}

impl<'r, 's> Reuse<'r, 's> {
    /// Whether the source ends with a line end.
    pub fn ends_line(&self) -> bool {
        let text = self.source.text.bytes();
        let count = text.len();
        if count == 0 {
            return false;
        }
        let last = text[count - 1];
        if last == b'\n' || last == b'\r' {
            return true;
        }
        count > 2
            && (last == 0xA8 || last == 0xA9)
            && text[count - 2] == 0x80
            && text[count - 3] == 0xE2
    }
}

impl<'r, 's> Reuse<'r, 's> {
    // Whether the parameters of the row's source, an arrow, stand in parentheses.
    fn opens_parameters(&self, row: Row<'_>) -> Result<bool, AllocError> {
        let Some(number) = self.source.source_of(row.node) else {
            return Ok(false);
        };
        let Some(there) = self.source.node(number) else {
            return Ok(false);
        };
        if !matches!(row.node.kind, Kind::ArrowFunctionExpression)
            || !matches!(there.node.kind, Kind::ArrowFunctionExpression)
        {
            return Ok(false);
        }
        let Some(first) = next_spelled(self.source, number, 0) else {
            return Ok(false);
        };
        let before = Span {
            start: self.source.span(number).start,
            end: self.source.span(first).start,
        };
        let mut found = Vec::new(self.alloc);
        tokens_in(&mut found, self.source.text, before)?;
        for token in found.as_slice() {
            if token.kind == TokenKind::Punctuator(Punctuator::OpenParen) {
                return Ok(true);
            }
        }
        Ok(false)
    }

    // The quote of the row's source node, of the source's string in its place, or of its first string.
    fn quote_byte(&self, row: Row<'_>) -> Option<u8> {
        if let Some(number) = self.source.source_of(row.node) {
            let quote = quote_at(self.source, number);
            if quote.is_some() {
                return quote;
            }
        }
        let there = self.quote_there(row);
        if there.is_some() {
            return there;
        }
        self.models?.facts.quote
    }

    fn quote_there(&self, row: Row<'_>) -> Option<u8> {
        let name = row.name?;
        let owner = self.source.node(name.node as usize)?;
        let (_, place) = place_at(owner.node, name.child as usize)?;
        match &place.node {
            Some(node) => quote_at(self.source, self.source.source_of(node)?),
            None => None,
        }
    }
}

// Whether the source's node hangs on the node above it: is indented as that is.
fn hangs(owner: &Tree, slot: usize, node: &Tree) -> bool {
    match node.kind {
        Kind::ClassBody | Kind::CatchClause => true,
        Kind::FunctionExpression => slot == 1 && holds_method(owner),
        Kind::BlockStatement => matches!(
            owner.kind,
            Kind::WithStatement
                | Kind::LabeledStatement
                | Kind::IfStatement
                | Kind::WhileStatement
                | Kind::DoWhileStatement
                | Kind::ForStatement
                | Kind::ForInStatement
                | Kind::ForOfStatement
                | Kind::FunctionExpression
                | Kind::FunctionDeclaration
                | Kind::ArrowFunctionExpression
                | Kind::TryStatement
                | Kind::CatchClause
        ),
        _ => false,
    }
}

fn holds_method(owner: &Tree) -> bool {
    match owner.kind {
        Kind::MethodDefinition => true,
        Kind::Property => {
            owner.scalars.is_truth_at(1, true)
                || owner.scalars.is_text_at(0, "get")
                || owner.scalars.is_text_at(0, "set")
        }
        _ => false,
    }
}

/// Of each node of the source, the number of that on whose line it is indented.
pub fn bases_of(alloc: Global, source: &SourceTree<'_>) -> Result<Vec<usize>, AllocError> {
    let mut bases = Vec::with_capacity(alloc, source.nodes.len())?;
    for number in 0..source.nodes.len() {
        let node = source.nodes[number];
        let base = match source.node(node.parent) {
            Some(parent) => {
                if number != 0 && hangs(parent.node, node.slot, node.node) {
                    base_at(bases.as_slice(), node.parent)
                } else {
                    number
                }
            }
            None => number,
        };
        bases.push(base)?;
    }
    Ok(bases)
}

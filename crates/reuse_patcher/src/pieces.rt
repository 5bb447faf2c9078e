//! Made pieces as the source would have them: their comments and words in order, each with the blanks
//! that it has there.

use crate::edges::{Edge, is_bracket};
use crate::fronts::Shift;
use crate::inner::{comma_rank, part_items};
use crate::laying::{Gaps, Hand, Item, Laying, Side, What, matched};
use crate::models::child_row;
use crate::parts::{role_gaps, there};
use crate::planned::{Planned, Sort, count_tokens};
use crate::runs::front_of_bytes;
use crate::words::{Matching, pair_words, words_of};
use generic_printer::{Blanks, Front, Gap, Note, Part, Row, Thing, Things, Token, is_static_async};
use js_tokens::Punctuator;
use piece_plan::is_new_block;
use source_layout::is_line_list;
use std::alloc::AllocError;
use type_defs::Kind;

fn is_listed(rows: &[Row<'_>], at: usize) -> bool {
    match child_row(rows, at) {
        Some(row) => row.listed,
        None => false,
    }
}

fn slot_of(rows: &[Row<'_>], at: usize) -> usize {
    match child_row(rows, at) {
        Some(row) => row.slot,
        None => usize::MAX,
    }
}

// Whether the piece is one that is always made as without a source.
fn is_plain(gap: Gap<'_, '_>, row: Row<'_>) -> bool {
    row.first == 0
        || matches!(row.node.kind, Kind::TemplateLiteral)
        || (gap.left == 0 && !gap.before.is_empty() && is_static_async(row))
}

impl<'l, 'a, 's> Laying<'l, 'a, 's> {
    // Writes the things with their blanks.
    fn put_all(
        &self,
        things: &mut Things<'a>,
        planned: &mut Planned<'a, 's>,
    ) -> Result<(), AllocError> {
        let mut front = Vec::new(self.alloc);
        self.push_front(&mut front, planned)?;
        let blanks = front_of_bytes(front.as_slice(), self.layout.tab_width);
        let front = Front::made(blanks.width, blanks.tabs);
        let mut run = Vec::new(self.alloc);
        for at in 1..planned.items.len() {
            run.clear();
            self.push_blanks(&mut run, planned, at)?;
            let start = things.bytes.len();
            things.bytes.extend_from_slice(run.as_slice())?;
            let end = things.bytes.len();
            things.blanks(Blanks::Bytes(start, end));
            things.put(match planned.item(at).what {
                What::Note(note) => Thing::Note(note, front),
                What::Word(token) | What::Comma(token) => Thing::Token(token),
                What::Left | What::Right => Thing::Right,
            })?;
        }
        Ok(())
    }

    // The piece between two items.
    fn plan_inner(
        &self,
        gap: Gap<'_, 'a>,
        row: Row<'a>,
        lined: bool,
    ) -> Result<Planned<'a, 's>, AllocError> {
        let mut gaps = Gaps {
            all: Vec::new(self.alloc),
        };
        let left = self.own_side(&mut gaps, gap.here, row, gap.left, Hand::Behind)?;
        let right = self.own_side(&mut gaps, gap.here, row, gap.right, Hand::Before)?;
        let ends = ends_in_line_comment(gap.behind);
        let parting = part_items(*self, &mut gaps, gap.here, row, gap.left, gap.right, ends)?;
        let mut items = Vec::new(self.alloc);
        matched(self.alloc, &gaps, &mut items, gap.behind, left, true)?;
        if !lined {
            let at = comma_rank(*self, &gaps, items.as_slice(), left).min(items.len());
            let comma = Token::Punctuator(Punctuator::Comma);
            items.insert(at, Item::new(What::Comma(comma)))?;
        }
        items.insert(0, left_item(left))?;
        let lead = items.len();
        matched(self.alloc, &gaps, &mut items, gap.before, right, false)?;
        items.push(right_item(&gaps, right))?;
        Ok(Planned {
            at: gap.here,
            row,
            left_listed: true,
            right_listed: true,
            lined,
            sort: Sort::Inner(parting),
            items,
            tail: lead.saturating_sub(1),
            lead,
            gaps,
            parts: Vec::new(self.alloc),
            right_side: right,
        })
    }

    /// Lays out the made piece; whether it is one that goes by the source.
    pub fn lay(&self, gap: Gap<'_, 'a>, things: &mut Things<'a>) -> Result<bool, AllocError> {
        let Some(found) = self.rows.get(gap.here) else {
            return Ok(false);
        };
        let row = *found;
        if is_plain(gap, row) {
            return Ok(false);
        }
        let left_listed = is_listed(self.rows, gap.left);
        let right_listed = is_listed(self.rows, gap.right);
        let inner = left_listed
            && right_listed
            && slot_of(self.rows, gap.left) == slot_of(self.rows, gap.right);
        let lined = is_line_list(row.node.kind);
        if inner && count_tokens(gap.parts) != usize::from(!lined) {
            return Ok(false);
        }
        let mut planned = if inner {
            self.plan_inner(gap, row, lined)?
        } else {
            self.plan_edge(gap, things, row, lined)?
        };
        self.put_all(things, &mut planned)?;
        Ok(true)
    }
}

fn ends_in_line_comment(notes: &[Note<'_>]) -> bool {
    match notes.len().checked_sub(1) {
        Some(last) => match notes.get(last) {
            Some(note) => !note.comment.block,
            None => false,
        },
        None => false,
    }
}

fn left_item<'a>(side: Side) -> Item<'a> {
    Item {
        what: What::Left,
        gap: side.gap,
        rank: 0,
        at: None,
        shift: side.shift,
    }
}

fn right_item<'a>(gaps: &Gaps<'_>, side: Side) -> Item<'a> {
    Item {
        what: What::Right,
        gap: side.gap,
        rank: match gaps.get(side.gap) {
            Some(gap) => gap.atoms.len().saturating_add(1),
            None => 0,
        },
        at: side.at,
        shift: side.shift,
    }
}

// The side of a single child or of an end of the node.
fn single_side(gaps: &Gaps<'_>, gap: Option<usize>, shift: Shift) -> Side {
    Side {
        gap,
        at: match gaps.get(gap) {
            Some(gap) => Some(gap.span.end),
            None => None,
        },
        shift,
    }
}

fn first_token(parts: &[Part]) -> Option<Token> {
    for part in parts {
        if let Part::Token(token) = *part {
            if token != Token::LastComma {
                return Some(token);
            }
        }
    }
    None
}

fn has_last_comma(parts: &[Part]) -> bool {
    for part in parts {
        if *part == Part::Token(Token::LastComma) {
            return true;
        }
    }
    false
}

fn begins_with_bracket(parts: &[Part]) -> bool {
    match first_token(parts) {
        Some(Token::Punctuator(mark)) => is_bracket(mark),
        _ => false,
    }
}

// Whether a comma may stand behind the last item of the list.
fn takes_comma(kind: Kind) -> bool {
    matches!(
        kind,
        Kind::ArrayExpression
            | Kind::ObjectExpression
            | Kind::ArrayPattern
            | Kind::ObjectPattern
            | Kind::FunctionExpression
            | Kind::FunctionDeclaration
            | Kind::ArrowFunctionExpression
            | Kind::CallExpression
            | Kind::NewExpression
            | Kind::ImportDeclaration
            | Kind::ExportNamedDeclaration
    )
}

impl<'l, 'a, 's> Laying<'l, 'a, 's> {
    // Whether a comma stands behind the last item.
    fn has_trailing_comma(&self, gap: Gap<'_, 'a>, row: Row<'a>, left_listed: bool) -> bool {
        let Some(left) = child_row(self.rows, gap.left) else {
            return false;
        };
        if !left_listed
            || is_line_list(row.node.kind)
            || !begins_with_bracket(gap.parts)
            || matches!(left.node.kind, Kind::RestElement)
            || !takes_comma(row.node.kind)
        {
            return false;
        }
        match self.models.model_style(gap.here) {
            Some(style) => style.trailing_comma && !self.hugs_alone(gap, row),
            None => match self.models.loose(gap.here) {
                Some(loose) => loose.trailing_comma,
                None => has_last_comma(gap.parts),
            },
        }
    }

    fn hugs_alone(&self, gap: Gap<'_, 'a>, row: Row<'a>) -> bool {
        let Some(left) = child_row(self.rows, gap.left) else {
            return false;
        };
        match self.models.model_style(gap.here) {
            Some(style) => {
                style.lines
                    && style.count > 1
                    && self.reuse.source.source_of(left.node).is_none()
                    && matches!(left.node.kind, Kind::ObjectExpression)
                    && self.is_alone(row, left)
                    && self.models.loose(gap.left).is_some()
            }
            None => false,
        }
    }

    fn is_new_body(&self, row: Row<'a>, child: usize) -> bool {
        let Some(found) = child_row(self.rows, child) else {
            return false;
        };
        let place = there(self.reuse.source, row, found);
        is_new_block(self.reuse.source, row.node, Some(found), place)
    }

    // The numbers of the gaps that begin and end at the same parts as the piece.
    fn roles(
        &self,
        gaps: &mut Gaps<'s>,
        gap: Gap<'_, 'a>,
        row: Row<'a>,
    ) -> Result<(Option<usize>, Option<usize>), AllocError> {
        let (behind, before) = role_gaps(*self, row, gap.left, gap.right);
        let behind = match behind {
            Some(name) => Some(gaps.number(*self, name)?),
            None => None,
        };
        let before = match before {
            Some(name) => Some(gaps.number(*self, name)?),
            None => None,
        };
        Ok((behind, before))
    }

    // The sides of the piece in the source.
    fn sides(
        &self,
        gaps: &mut Gaps<'s>,
        gap: Gap<'_, 'a>,
        edge: Edge<'a>,
    ) -> Result<(Side, Side), AllocError> {
        let left = if edge.left_listed {
            self.own_side(gaps, gap.here, edge.row, gap.left, Hand::Behind)?
        } else {
            Side {
                at: None,
                ..single_side(gaps, edge.behind, edge.shift)
            }
        };
        let right = if edge.right_listed {
            self.own_side(gaps, gap.here, edge.row, gap.right, Hand::Before)?
        } else {
            single_side(gaps, edge.before, edge.shift)
        };
        Ok((left, right))
    }

    // A piece at an end of a list, or beside single children.
    fn plan_edge(
        &self,
        gap: Gap<'_, 'a>,
        things: &mut Things<'a>,
        row: Row<'a>,
        lined: bool,
    ) -> Result<Planned<'a, 's>, AllocError> {
        let mut gaps = Gaps {
            all: Vec::new(self.alloc),
        };
        let (behind, before) = self.roles(&mut gaps, gap, row)?;
        let mut edge = Edge {
            at: gap.here,
            row,
            left: gap.left,
            right: gap.right,
            left_listed: is_listed(self.rows, gap.left),
            right_listed: is_listed(self.rows, gap.right),
            behind,
            before,
            first_word: None,
            last_word: None,
            lead: 0,
            new_left: self.is_new_body(row, gap.left),
            new_right: self.is_new_body(row, gap.right),
            commas: is_listed(self.rows, gap.left) && !lined,
            shift: self.reuse.shift(self.rows, gap.here),
        };
        let (left, right) = self.sides(&mut gaps, gap, edge)?;
        let mut matching = Matching {
            words: words_of(self.alloc, gap.parts)?,
            behind: Vec::new(self.alloc),
            before: Vec::new(self.alloc),
            omits: false,
        };
        matched(
            self.alloc,
            &gaps,
            &mut matching.behind,
            gap.behind,
            left,
            true,
        )?;
        matched(
            self.alloc,
            &gaps,
            &mut matching.before,
            gap.before,
            right,
            false,
        )?;
        pair_words(*self, &gaps, gap, edge, &mut matching)?;
        things.open = matching.omits;
        let comma = self.has_trailing_comma(gap, row, edge.left_listed);
        let items = self.arrange(&gaps, &mut edge, &matching, left, right, comma)?;
        Ok(self.planned(gap, gaps, edge, lined, items, right)?)
    }

    fn planned(
        &self,
        gap: Gap<'_, 'a>,
        gaps: Gaps<'s>,
        edge: Edge<'a>,
        lined: bool,
        items: (Vec<Item<'a>>, usize),
        right: Side,
    ) -> Result<Planned<'a, 's>, AllocError> {
        let mut parts = Vec::new(self.alloc);
        parts.extend_from_slice(gap.parts)?;
        Ok(Planned {
            at: gap.here,
            row: edge.row,
            left_listed: edge.left_listed,
            right_listed: edge.right_listed,
            lined,
            sort: Sort::Edge(edge),
            items: items.0,
            tail: items.1,
            lead: edge.lead,
            gaps,
            parts,
            right_side: right,
        })
    }

    // The things in order, with the last comment before the words; the edge learns which are the
    // first and the last word, and what comes behind.
    fn arrange(
        &self,
        gaps: &Gaps<'s>,
        edge: &mut Edge<'a>,
        matching: &Matching<'a>,
        left: Side,
        right: Side,
        comma: bool,
    ) -> Result<(Vec<Item<'a>>, usize), AllocError> {
        let mut items = Vec::new(self.alloc);
        matching.push_before_words(*self, gaps, *edge, left, &mut items)?;
        if comma {
            let at = comma_rank(*self, gaps, items.as_slice(), left).min(items.len());
            items.insert(at, Item::new(What::Comma(Token::LastComma)))?;
        }
        items.insert(0, left_item(left))?;
        let tail = items.len().saturating_sub(1);
        matching.push_words(*self, gaps, edge, left, right, &mut items)?;
        edge.lead = items.len();
        matching.push_behind_words(*self, gaps, *edge, right, &mut items)?;
        items.push(right_item(gaps, right))?;
        Ok((items, tail))
    }
}

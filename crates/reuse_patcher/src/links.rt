//! Links of a chain that are new: they are written as the nearest link of the source below them, where
//! that breaks its line.

use crate::edges::{Edge, Found};
use crate::fronts::Shift;
use crate::laying::{Gaps, Hand, Laying, item_gap};
use crate::models::child_row;
use generic_printer::Row;
use piece_plan::parens;
use source_layout::{GapName, is_line_broken, next_spelled};
use std::alloc::AllocError;
use tree_core::{Scalar, Tree};
use tree_forms::child;
use type_defs::Kind;

fn is_operation(kind: Kind) -> bool {
    matches!(kind, Kind::BinaryExpression | Kind::LogicalExpression)
}

// Whether the node is a member by name.
fn is_named_member(node: &Tree) -> bool {
    matches!(node.kind, Kind::MemberExpression) && !node.scalars.is_truth_at(0, true)
}

fn is_link(node: &Tree) -> bool {
    is_named_member(node) || is_operation(node.kind)
}

fn same_operator(one: &Tree, other: &Tree) -> bool {
    match (one.scalars.get(0), other.scalars.get(0)) {
        (Some(Scalar::Text(one)), Some(Scalar::Text(other))) => one.get() == other.get(),
        _ => false,
    }
}

// Whether the source's node is a link like the new one, when its first child is the same.
fn is_alike(new: &Tree, there: &Tree) -> bool {
    if is_operation(new.kind) {
        return is_operation(there.kind);
    }
    is_named_member(there) && there.scalars.is_truth_at(1, true) == new.scalars.is_truth_at(1, true)
}

// Whether the source's node is a link of the same chain as the new one.
fn is_same_link(new: &Tree, there: &Tree) -> bool {
    if is_operation(new.kind) {
        return new.kind.is(there.kind) && same_operator(new, there);
    }
    is_named_member(there)
}

// The gap, where it holds one word and breaks its line.
fn broken_gap<'s>(
    laying: Laying<'_, '_, 's>,
    gaps: &mut Gaps<'s>,
    name: Option<GapName>,
) -> Result<Option<usize>, AllocError> {
    let Some(name) = name else {
        return Ok(None);
    };
    let number = gaps.number(laying, name)?;
    match gaps.get(Some(number)) {
        Some(gap) => {
            if gap.atoms.len() == 1
                && gap.comments.is_empty()
                && is_line_broken(laying.text(), gap.span)
            {
                return Ok(Some(number));
            }
            Ok(None)
        }
        None => Ok(None),
    }
}

// The gap behind the first child, where that was the first child of such a link in the source.
fn gap_of_child<'s>(
    laying: Laying<'_, '_, 's>,
    gaps: &mut Gaps<'s>,
    new: &Tree,
    first: Row<'_>,
) -> Result<Option<usize>, AllocError> {
    let source = laying.reuse.source;
    let Some(number) = source.source_of(first.node) else {
        return Ok(None);
    };
    let (Some(node), false) = (source.node(number), first.grouped || number == 0) else {
        return Ok(None);
    };
    let Some(parent) = source.node(node.parent) else {
        return Ok(None);
    };
    let mut found = Vec::new(laying.alloc);
    if node.slot != 0 || !is_alike(new, parent.node) || parens(&mut found, source, number)? > 0 {
        return Ok(None);
    }
    broken_gap(laying, gaps, item_gap(laying, number, Hand::Behind))
}

// Whether the way down to the nearest link goes through the row.
fn leads_on(laying: Laying<'_, '_, '_>, new: &Tree, row: Row<'_>) -> bool {
    let made = laying.reuse.source.source_of(row.node).is_none();
    if row.grouped || row.kept {
        return false;
    }
    if is_operation(new.kind) {
        return made && new.kind.is(row.node.kind) && same_operator(new, row.node);
    }
    match row.node.kind {
        Kind::CallExpression => true,
        Kind::MemberExpression => made,
        _ => false,
    }
}

// The row at which the way down ends.
fn row_below(laying: Laying<'_, '_, '_>, new: &Tree, first: usize) -> usize {
    let mut at = first;
    for _turn in 0..laying.rows.len() {
        match child_row(laying.rows, at) {
            Some(row) => {
                if !leads_on(laying, new, row) || row.first == 0 {
                    return at;
                }
                at = row.first;
            }
            None => return at,
        }
    }
    at
}

// The node of the source at which the way down ends, through the calls of a kept node.
fn node_below(
    laying: Laying<'_, '_, '_>,
    new: &Tree,
    row: Row<'_>,
) -> Result<Option<usize>, AllocError> {
    let source = laying.reuse.source;
    let mut found = Vec::new(laying.alloc);
    let Some(mut here) = source.source_of(row.node) else {
        return Ok(None);
    };
    for _turn in 0..source.nodes.len() {
        let Some(node) = source.node(here) else {
            return Ok(None);
        };
        if is_operation(new.kind) || !matches!(node.node.kind, Kind::CallExpression) || !row.kept {
            return Ok(Some(here));
        }
        let Some(callee) = child(node.node, 0) else {
            return Ok(None);
        };
        let Some(next) = source.source_of(callee) else {
            return Ok(None);
        };
        if parens(&mut found, source, next)? > 0 {
            return Ok(None);
        }
        here = next;
    }
    Ok(None)
}

// The gap behind the first child of the source's node of this number.
fn gap_inside(laying: Laying<'_, '_, '_>, number: usize) -> Option<GapName> {
    let source = laying.reuse.source;
    let left = next_spelled(source, number, 0)?;
    let ordinal = source.node(left)?.ordinal;
    Some(GapName {
        owner: number,
        left: Some(left),
        right: next_spelled(source, number, ordinal.saturating_add(1)),
    })
}

// The gap of the nearest link below, and the row by which its lines are shifted.
fn nearest_link<'s>(
    laying: Laying<'_, '_, 's>,
    gaps: &mut Gaps<'s>,
    new: &Tree,
    first: usize,
) -> Result<Option<(usize, usize)>, AllocError> {
    if let Some(row) = child_row(laying.rows, first) {
        if let Some(number) = gap_of_child(laying, gaps, new, row)? {
            return Ok(Some((number, first)));
        }
    }
    let below = row_below(laying, new, first);
    let Some(row) = child_row(laying.rows, below) else {
        return Ok(None);
    };
    if row.grouped {
        return Ok(None);
    }
    let Some(number) = node_below(laying, new, row)? else {
        return Ok(None);
    };
    let Some(there) = laying.reuse.source.node(number) else {
        return Ok(None);
    };
    if !is_same_link(new, there.node) || (!row.kept && !is_same_link(new, row.node)) {
        return Ok(None);
    }
    match broken_gap(laying, gaps, gap_inside(laying, number))? {
        Some(gap) => Ok(Some((gap, below))),
        None => Ok(None),
    }
}

/// The run before the word of a new link, or behind it, after the nearest link of the source.
pub fn run_of_link<'s>(
    laying: Laying<'_, '_, 's>,
    gaps: &mut Gaps<'s>,
    edge: Edge<'_>,
    before_word: bool,
) -> Result<Option<Found>, AllocError> {
    if edge.behind.is_some()
        || edge.before.is_some()
        || edge.left == 0
        || edge.left != edge.row.first
        || edge.right == 0
        || !is_link(edge.row.node)
    {
        return Ok(None);
    }
    let Some((gap, row)) = nearest_link(laying, gaps, edge.row.node, edge.left)? else {
        return Ok(None);
    };
    let shift: Shift = laying.reuse.shift(laying.rows, row);
    Ok(match gaps.get(Some(gap)) {
        Some(gap) => Some(Found {
            run: gap.run(usize::from(!before_word)),
            shift,
            closes: false,
        }),
        None => None,
    })
}

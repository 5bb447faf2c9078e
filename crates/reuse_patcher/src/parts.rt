//! The parts of a node at which its pieces begin and end: its list, or a single slot.

use crate::laying::Laying;
use crate::models::child_row;
use generic_printer::Row;
use piece_plan::{SourceTree, place_at, place_count};
use source_layout::{GapName, first_item, last_item, next_spelled, previous_spelled};
use tree_core::Tree;
use type_defs::Kind;

/// A part: the slot, and of an import's specifiers their kind.
#[derive(Clone, Copy, Debug, PartialEq, Eq)]
pub struct Part {
    slot: usize,
    specifier: Option<Kind>,
}

fn part_of(owner: &Tree, slot: usize, child: Kind) -> Part {
    Part {
        slot,
        specifier: if matches!(owner.kind, Kind::ImportDeclaration) && slot == 0 {
            Some(child)
        } else {
            None
        },
    }
}

/// The part of the row in its parent.
pub fn part_of_row(owner: &Tree, row: Row<'_>) -> Part {
    part_of(owner, row.slot, row.node.kind)
}

// Whether the source's child plays the part.
fn plays(source: &SourceTree<'_>, owner: &Tree, child: usize, part: Part) -> bool {
    match source.node(child) {
        Some(node) => part_of(owner, node.slot, node.node.kind) == part,
        None => false,
    }
}

// The first child of the node that plays the part.
fn first_in(source: &SourceTree<'_>, owner: usize, part: Part) -> Option<usize> {
    let node = source.node(owner)?.node;
    let mut ordinal = 0;
    for _turn in 0..place_count(node) {
        let child = next_spelled(source, owner, ordinal)?;
        if plays(source, node, child, part) {
            return Some(child);
        }
        ordinal = source.node(child)?.ordinal.saturating_add(1);
    }
    None
}

// The last child of the node that plays the part.
fn last_in(source: &SourceTree<'_>, owner: usize, part: Part) -> Option<usize> {
    let node = source.node(owner)?.node;
    let mut ordinal = place_count(node);
    for _turn in 0..place_count(node) {
        let child = previous_spelled(source, owner, ordinal)?;
        if plays(source, node, child, part) {
            return Some(child);
        }
        ordinal = source.node(child)?.ordinal;
    }
    None
}

// The gap of the source node that begins behind the part, or at its start.
fn gap_behind(source: &SourceTree<'_>, owner: usize, part: Option<Part>) -> Option<GapName> {
    let Some(part) = part else {
        return Some(GapName {
            owner,
            left: None,
            right: next_spelled(source, owner, 0),
        });
    };
    let left = last_in(source, owner, part)?;
    let ordinal = source.node(left)?.ordinal;
    Some(GapName {
        owner,
        left: Some(left),
        right: next_spelled(source, owner, ordinal.saturating_add(1)),
    })
}

// The gap of the source node that ends before the part, or at its end.
fn gap_before(source: &SourceTree<'_>, owner: usize, part: Option<Part>) -> Option<GapName> {
    let node = source.node(owner)?.node;
    let Some(part) = part else {
        return Some(GapName {
            owner,
            left: previous_spelled(source, owner, place_count(node)),
            right: None,
        });
    };
    let right = first_in(source, owner, part)?;
    let ordinal = source.node(right)?.ordinal;
    Some(GapName {
        owner,
        left: previous_spelled(source, owner, ordinal),
        right: Some(right),
    })
}

/// The gaps of the row's source node that begin and end at the same parts as the piece between these
/// children, where there are such.
pub fn role_gaps(
    laying: Laying<'_, '_, '_>,
    row: Row<'_>,
    left: usize,
    right: usize,
) -> (Option<GapName>, Option<GapName>) {
    let source = laying.reuse.source;
    let Some(number) = source.source_of(row.node) else {
        return (None, None);
    };
    let behind = match child_row(laying.rows, left) {
        Some(child) => Some(part_of_row(row.node, child)),
        None => None,
    };
    let before = match child_row(laying.rows, right) {
        Some(child) => Some(part_of_row(row.node, child)),
        None => None,
    };
    (
        gap_behind(source, number, behind),
        gap_before(source, number, before),
    )
}

/// The gap before the first item of the list, and that behind its last one.
pub fn list_ends(source: &SourceTree<'_>, owner: usize) -> (Option<GapName>, Option<GapName>) {
    let first = match first_item(source, owner) {
        Some(first) => first,
        None => return (None, None),
    };
    let last = match last_item(source, owner) {
        Some(last) => last,
        None => return (None, None),
    };
    (
        before_item(source, owner, first),
        behind_item(source, owner, last),
    )
}

fn before_item(source: &SourceTree<'_>, owner: usize, item: usize) -> Option<GapName> {
    let ordinal = source.node(item)?.ordinal;
    Some(GapName {
        owner,
        left: previous_spelled(source, owner, ordinal),
        right: Some(item),
    })
}

fn behind_item(source: &SourceTree<'_>, owner: usize, item: usize) -> Option<GapName> {
    let ordinal = source.node(item)?.ordinal;
    Some(GapName {
        owner,
        left: Some(item),
        right: next_spelled(source, owner, ordinal.saturating_add(1)),
    })
}

/// The source's node at the place of the child's name, where the row comes from that node.
pub fn there(source: &SourceTree<'_>, row: Row<'_>, child: Row<'_>) -> Option<usize> {
    let number = source.source_of(row.node)?;
    let name = child.name?;
    if name.node as usize != number {
        return None;
    }
    let (_, place) = place_at(source.node(number)?.node, name.child as usize)?;
    match &place.node {
        Some(node) => source.source_of(node),
        None => None,
    }
}

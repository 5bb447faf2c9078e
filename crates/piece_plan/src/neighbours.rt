//! The source's piece between the places at which two children stand now.

use crate::nodes::{place_at, place_count, width};
use crate::source::SourceTree;
use generic_printer::Row;
use tree_core::{Place, PlaceName, Tree};
use tree_forms::{ALONE, form, is_mirror};
use type_defs::Kind;

/// The source nodes beside a piece, none at an end of its node.
#[derive(Clone, Copy, Debug, PartialEq, Eq)]
pub struct Sides {
    pub left: Option<usize>,
    pub right: Option<usize>,
}

// The number that the name has for a place of the node.
fn ordinal_of(name: Option<PlaceName>, node: usize) -> Option<usize> {
    let name = name?;
    if name.node as usize == node {
        return Some(name.child as usize);
    }
    None
}

// Whether the slot holds a name that is spelled for another one.
fn is_mirror_slot(node: &Tree, slot: usize) -> bool {
    match form(node, ALONE) {
        Some(variant) => is_mirror(variant, slot),
        None => false,
    }
}

// The source node at the place of this number, where one stands there that is spelled.
fn spelled_at(source: &SourceTree<'_>, node: &Tree, ordinal: usize) -> Option<usize> {
    let (slot, place) = place_at(node, ordinal)?;
    if is_mirror_slot(node, slot) {
        return None;
    }
    match &place.node {
        Some(child) => source.source_of(child),
        None => None,
    }
}

fn is_empty(place: &Place) -> bool {
    place.node.is_none()
}

// Whether the place between the children is the source's one of this number, and both spell nothing.
fn is_quiet(
    row: Row<'_>,
    number: usize,
    there: &Tree,
    ordinal: usize,
    source_ordinal: usize,
) -> bool {
    let (Some((slot, place)), Some((other_slot, other))) = (
        place_at(row.node, ordinal),
        place_at(there, source_ordinal),
    ) else {
        return false;
    };
    if ordinal_of(place.name, number) != Some(source_ordinal) {
        return false;
    }
    let mirror = is_mirror_slot(row.node, slot);
    if mirror != is_mirror_slot(there, other_slot) {
        return false;
    }
    mirror || (is_empty(place) && is_empty(other))
}

// Whether so many places, from these on, are the source's in a row, and spell nothing.
fn are_quiet(
    row: Row<'_>,
    number: usize,
    there: &Tree,
    from: usize,
    source_from: usize,
    count: usize,
) -> bool {
    for at in 0..count {
        let ordinal = from.saturating_add(at);
        let source_ordinal = source_from.saturating_add(at);
        if !is_quiet(row, number, there, ordinal, source_ordinal) {
            return false;
        }
    }
    true
}

// Where a piece begins or ends among the places: behind the last of them, or at one.
#[derive(Clone, Copy)]
struct Bound {
    here: usize,
    there: usize,
    node: Option<usize>,
}

// The place behind which the piece begins, counted from 1; 0 is the node's start.
fn begins(
    source: &SourceTree<'_>,
    number: usize,
    there: &Tree,
    left: Option<Row<'_>>,
) -> Option<Bound> {
    let Some(left) = left else {
        return Some(Bound {
            here: 0,
            there: 0,
            node: None,
        });
    };
    let ordinal = ordinal_of(left.name, number)?;
    let node = spelled_at(source, there, ordinal)?;
    Some(Bound {
        here: left.ordinal.saturating_add(1),
        there: ordinal.saturating_add(1),
        node: Some(node),
    })
}

// The place before which the piece ends.
fn ends(
    source: &SourceTree<'_>,
    number: usize,
    row: Row<'_>,
    there: &Tree,
    right: Option<Row<'_>>,
) -> Option<Bound> {
    let Some(right) = right else {
        return Some(Bound {
            here: place_count(row.node),
            there: place_count(there),
            node: None,
        });
    };
    let ordinal = ordinal_of(right.name, number)?;
    let node = spelled_at(source, there, ordinal)?;
    Some(Bound {
        here: right.ordinal,
        there: ordinal,
        node: Some(node),
    })
}

/// The source nodes beside the piece between the children, where the places from one side to the
/// other are those of the source node of this number, in a row.
pub fn sides_of(
    source: &SourceTree<'_>,
    number: usize,
    row: Row<'_>,
    left: Option<Row<'_>>,
    right: Option<Row<'_>>,
) -> Option<Sides> {
    let there = source.node(number)?.node;
    let begin = begins(source, number, there, left)?;
    let end = ends(source, number, row, there, right)?;
    let sides = Sides {
        left: begin.node,
        right: end.node,
    };
    if matches!(row.node.kind, Kind::TemplateLiteral) {
        return if are_neighbours(there, begin, end) {
            Some(sides)
        } else {
            None
        };
    }
    if end.here < begin.here || end.there < begin.there {
        return None;
    }
    let count = end.here - begin.here;
    if end.there - begin.there != count
        || !are_quiet(row, number, there, begin.here, begin.there, count)
    {
        return None;
    }
    Some(sides)
}

// How many characters the template has.
fn characters(node: &Tree) -> usize {
    match node.slots.get(0) {
        Some(slot) => width(slot),
        None => 0,
    }
}

// The rank of the place in the text of a template, in which characters and expressions take turns.
fn rank(characters: usize, ordinal: usize) -> usize {
    if ordinal < characters {
        return ordinal.saturating_mul(2);
    }
    (ordinal - characters).saturating_mul(2).saturating_add(1)
}

// Whether the places with these numbers, counted as bounds, are neighbours in the text of a template.
fn are_neighbours(there: &Tree, begin: Bound, end: Bound) -> bool {
    let count = characters(there);
    let next = match begin.node {
        Some(_) => rank(count, begin.there.saturating_sub(1)).saturating_add(1),
        None => 0,
    };
    let here = match end.node {
        Some(_) => rank(count, end.there),
        None => count.saturating_mul(2).saturating_sub(1),
    };
    next == here
}

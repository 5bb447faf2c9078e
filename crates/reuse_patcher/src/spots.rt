//! Where the nodes of the changed tree come from in the source's lists.

use generic_printer::Row;
use piece_plan::SourceTree;
use source_layout::position;
use std::alloc::{AllocError, Global};

/// An item of a source list: the list's node, and the item.
#[derive(Clone, Copy, Debug, PartialEq, Eq)]
pub struct Spot {
    pub owner: usize,
    pub item: usize,
}

/// The origin of the row: the first source node in it.
pub fn origin_at(origins: &[Option<usize>], at: usize) -> Option<usize> {
    match origins.get(at) {
        Some(origin) => *origin,
        None => None,
    }
}

// The origin of the first child that has one.
fn first_origin(rows: &[Row<'_>], origins: &[Option<usize>], row: Row<'_>) -> Option<usize> {
    let mut at = row.first;
    for _turn in 0..rows.len() {
        if at == 0 {
            return None;
        }
        let origin = origin_at(origins, at);
        if origin.is_some() {
            return origin;
        }
        at = match rows.get(at) {
            Some(child) => child.next,
            None => 0,
        };
    }
    None
}

/// The origins of the rows.
pub fn origins_of(
    alloc: Global,
    source: &SourceTree<'_>,
    rows: &[Row<'_>],
) -> Result<Vec<Option<usize>>, AllocError> {
    let mut origins: Vec<Option<usize>> = Vec::from_elem(alloc, None, rows.len())?;
    for behind in 0..rows.len() {
        let at = rows.len() - 1 - behind;
        let mut origin = source.source_of(rows[at].node);
        if origin.is_none() {
            origin = first_origin(rows, origins.as_slice(), rows[at]);
        }
        if at < origins.len() {
            origins[at] = origin;
        }
    }
    Ok(origins)
}

// The first item of a list from the node of this number upwards.
fn item_above(source: &SourceTree<'_>, number: usize) -> Option<Spot> {
    let mut here = number;
    for _level in 0..source.nodes.len() {
        if let Some(owner) = position(source, here) {
            return Some(Spot { owner, item: here });
        }
        if here == 0 {
            return None;
        }
        here = source.node(here)?.parent;
    }
    None
}

/// The spot of the row: its source node's, or that of what holds its origin.
pub fn spot_of(source: &SourceTree<'_>, row: Row<'_>, origin: Option<usize>) -> Option<Spot> {
    match source.source_of(row.node) {
        Some(number) => {
            let owner = position(source, number)?;
            Some(Spot {
                owner,
                item: number,
            })
        }
        None => item_above(source, origin?),
    }
}

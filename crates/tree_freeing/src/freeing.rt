//! Frees a tree piece by piece.
//!
//! The allocator of the C library sets small freed blocks aside, and gathers them when a block of 1 kB
//! or more is wanted or one of 64 kB is freed. The blocks of a large tree that is freed at once are
//! gathered at its end, when most have left the processor's caches, which takes longer than to free
//! them. So behind each piece of some kilobytes of the source a block is asked for.

use sqlite_items::Items;
use std::alloc::{AllocError, Global};
use tree_core::{Parsed, Place, Slot, Span, Tree};

/// The most bytes of the source whose nodes are freed at once.
const PIECE: u32 = 4096;

/// The bytes of a block for which the allocator gathers what was freed.
const GATHERS: usize = 2048;

/// The trees that are left.
type Left = Items<Box<Tree>>;

// How many bytes of the source the tree is.
fn len_of(spans: &[Span], tree: &Tree) -> u32 {
    match tree.from {
        Some(number) => match spans.get(number as usize) {
            Some(span) => span.end.saturating_sub(span.start),
            None => 0,
        },
        None => 0,
    }
}

fn leave_place(place: Place, left: &mut Left) -> Result<(), AllocError> {
    match place.node {
        Some(tree) => left.push(tree),
        None => Ok(()),
    }
}

fn leave_places(places: Items<Place>, left: &mut Left) -> Result<(), AllocError> {
    let mut places = places;
    for _turn in 0..places.len() {
        if let Some(place) = places.pop() {
            leave_place(place, left)?;
        }
    }
    Ok(())
}

fn leave_slot(slot: Slot, left: &mut Left) -> Result<(), AllocError> {
    match slot {
        Slot::Single(place) => leave_place(place, left),
        Slot::List(places) => leave_places(places, left),
    }
}

// Frees the node alone. Of the trees below it the first is the last that is left.
fn leave_children(tree: Tree, left: &mut Left) -> Result<(), AllocError> {
    let mut slots = tree.slots;
    for _turn in 0..slots.len() {
        if let Some(slot) = slots.pop() {
            leave_slot(slot, left)?;
        }
    }
    Ok(())
}

fn gather(alloc: Global) -> Result<(), AllocError> {
    let block: Vec<u8> = Vec::with_capacity(alloc, GATHERS)?;
    drop(block);
    Ok(())
}

fn free_pieces(alloc: Global, spans: &[Span], tree: Tree) -> Result<(), AllocError> {
    let mut left = Items::new(alloc);
    left.push(tree.boxed(alloc)?)?;
    let mut freed = 0u32;
    for _turn in 0..=spans.len() {
        let Some(tree) = left.pop() else {
            return Ok(());
        };
        let len = len_of(spans, &tree);
        if len > PIECE {
            leave_children(Box::into_inner(tree), &mut left)?;
        } else {
            drop(tree);
            freed = freed.saturating_add(len);
        }
        if freed >= PIECE {
            gather(alloc)?;
            freed = 0;
        }
    }
    Ok(())
}

/// Frees a tree with these spans of a source, from which it comes. Where memory is out, the rest goes
/// at once.
pub fn free_tree(alloc: Global, spans: &[Span], tree: Tree) {
    let _ = free_pieces(alloc, spans, tree);
}

/// Frees a tree that was read, and its spans. Where memory is out, the rest goes at once.
pub fn free_parsed(alloc: Global, parsed: Parsed) {
    let Parsed {
        spans,
        comments,
        tree,
    } = parsed;
    drop(comments);
    free_tree(alloc, spans.as_slice(), tree);
}

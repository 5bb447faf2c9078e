//! Comments at gaps.

use comment_places::seats;
use sqlite_items::Items;
use std::alloc::{AllocError, Global};
use tree_core::{Comment, Comments, Notes, Place, Scalars, Slot, Tree, Units};
use type_defs::Kind;

fn note(alloc: Global) -> Result<Comments, AllocError> {
    let mut notes = Items::new(alloc);
    notes.push(Comment {
        block: true,
        text: Units::new(Vec::new(alloc)),
    })?;
    Ok(notes)
}

// `this`, with a comment before it.
fn this(alloc: Global) -> Result<Slot, AllocError> {
    let mut tree = Tree::new(Kind::ThisExpression, Scalars::new(), Items::new(alloc));
    tree.notes = Notes::new(alloc, note(alloc)?, Items::new(alloc), Items::new(alloc))?;
    Ok(Slot::single(Place::filled(alloc, tree)?))
}

#[test]
fn first_gap(rt: HostRuntime) -> Result<(), AllocError> {
    let alloc = rt.alloc();
    let mut slots = Items::new(alloc);
    slots.push(this(alloc)?)?;
    let pattern = Tree::new(Kind::ArrayPattern, Scalars::new(), slots);
    let found = seats(alloc, &pattern)?;
    match found.get(0) {
        Some(seat) => assert!(rt; seat.gap == 0 && seat.address.steps().is_empty()),
        None => assert!(rt; false),
    }
    Ok(())
}

//! Copies of trees.

ghost use Rattle.std.specs.Prelude.{◌≡◌, IfOk};
ghost use Rattle.tree_core.specs.View.{syntax, slot_view, place_view};

use crate::comment::{Comment, Comments, Notes};
use crate::scalars::{Scalar, Scalars};
use crate::tree::{Place, Slot, Tree};
use sqlite_items::Items;
use std::alloc::{AllocError, Global};

/// An equal tree, with the same numbers and place names.
#[cycle(copy)]
pub fn copy(alloc: Global, tree: &Tree) -> Result<Tree, AllocError>
    ensures { IfOk result (λ t. syntax t ≡ syntax tree.now) }
{
    let mut slots = Items::new(alloc);
    for slot in tree.slots.as_slice() {
        slots.push(copy_slot(alloc, slot)?)?;
    }
    Ok(Tree {
        kind: tree.kind,
        scalars: copy_scalars(alloc, &tree.scalars)?,
        slots,
        notes: copy_notes(alloc, &tree.notes)?,
        from: tree.from,
    })
}

#[cycle(copy)]
fn copy_slot(alloc: Global, slot: &Slot) -> Result<Slot, AllocError>
    ensures { IfOk result (λ s. slot_view s ≡ slot_view slot.now) }
{
    match slot {
        Slot::Single(place) => Ok(Slot::Single(copy_place(alloc, place)?)),
        Slot::List(places) => {
            let mut copied = Items::new(alloc);
            for place in places.as_slice() {
                copied.push(copy_place(alloc, place)?)?;
            }
            Ok(Slot::List(copied))
        }
    }
}

#[cycle(copy)]
fn copy_place(alloc: Global, place: &Place) -> Result<Place, AllocError>
    ensures { IfOk result (λ p. place_view p ≡ place_view place.now) }
{
    let node = match &place.node {
        None => None,
        Some(node) => Some(Box::new(alloc, copy(alloc, node)?)?),
    };
    Ok(Place {
        name: place.name,
        node,
    })
}

fn copy_notes(alloc: Global, notes: &Notes) -> Result<Notes, AllocError>
    ensures { IfOk result (λ copied. copied ≡ notes.now) }
{
    Notes::new(
        alloc,
        copy_comments(alloc, notes.lead())?,
        copy_comments(alloc, notes.trail())?,
        copy_comments(alloc, notes.inner())?,
    )
}

/// An equal list of comments.
pub fn copy_comments(alloc: Global, comments: &[Comment]) -> Result<Comments, AllocError>
    ensures { IfOk result (λ copied. copied ≡ comments.now) }
{
    let mut copied = Items::new(alloc);
    for comment in comments {
        copied.push(Comment {
            block: comment.block,
            text: comment.text.copied(alloc)?,
        })?;
    }
    Ok(copied)
}

#[tactic(auto, using(std::proofs::lemmas::Option::gets))]
fn copy_scalars(alloc: Global, scalars: &Scalars) -> Result<Scalars, AllocError>
    ensures { IfOk result (λ copied. copied ≡ scalars.now) }
{
    let mut copied = Scalars::new();
    for at in 0..scalars.len() {
        match scalars.get(at) {
            None => return Ok(copied),
            Some(scalar) => copied = copied.with(alloc, copy_scalar(alloc, scalar)?)?,
        }
    }
    Ok(copied)
}

/// An equal scalar.
pub fn copy_scalar(alloc: Global, scalar: &Scalar) -> Result<Scalar, AllocError>
    ensures { IfOk result (λ copied. copied ≡ scalar.now) }
{
    match scalar {
        Scalar::Text(text) => Ok(Scalar::Text(text.copied(alloc)?)),
        Scalar::Truth(truth) => Ok(Scalar::Truth(*truth)),
        Scalar::Null => Ok(Scalar::Null),
    }
}

//! The stretches of the source that give way to the new name.

ghost use Rattle.std.specs.Prelude.{◌≡◌, ◌++◌, [], ◌∷◌, IfOk, OnOk};
ghost use Rattle.tree_core.specs.View.{syntax, slot_view, place_view, places_of};
ghost use Rattle.source_rename.specs.Edits.{stretch, in_slot, place_edits};
ghost use Rattle.source_rename.specs.Edits as spec;

use crate::names::is_named;
use crate::places::{Seat, Spelling, first_seat, spelling_at};
use cm_text::Source;
use js_tokens::Word;
use sqlite_items::at;
use std::alloc::{AllocError, Global};
use tree_core::{Place, Slot, Span, Tree};

/// A stretch of the source, and what is written in its place.
#[derive(Clone, Copy, Debug, PartialEq, Eq)]
pub struct Edit {
    pub span: Span,
    pub spelling: Spelling,
}

/// What is renamed: the source, the stretches of its nodes by their numbers, and the old name.
/// `word` is the word of the grammar that the new name is.
#[derive(Drop)]
pub struct Search<'a> {
    pub source: &'a Source,
    pub spans: &'a [Span],
    pub old: &'a [u8],
    pub word: Word,
}

/// The edits of the identifiers that have the old name, in preorder.
pub fn edits(alloc: Global, search: &Search<'_>, tree: &Tree) -> Result<Vec<Edit>, AllocError>
    ensures { IfOk result (λ found. found.items ≡ spec.edits search.now.source.now search.now.spans.now search.now.old.now search.now.word Seat.Free (syntax tree.now)) }
{
    let mut found = Vec::new(alloc);
    add_tree(&mut found, search, tree, Seat::Free)?;
    Ok(found)
}

#[cycle(edits)]
#[inline(never)]
fn add_tree(
    found: &mut Vec<Edit>,
    search: &Search<'_>,
    tree: &Tree,
    seat: Seat,
) -> Result<(), AllocError>
    ensures { OnOk result (found.new.items ≡ found.old.items ++ spec.edits search.now.source.now search.now.spans.now search.now.old.now search.now.word seat (syntax tree.now)) }
{
    if is_named(tree, search.old) {
        add_stretch(found, search, tree.from, seat)?;
    }
    let mut below = first_seat(search.word, tree);
    for slot in tree.slots.as_slice() {
        add_slot(found, search, slot, below)?;
        below = Seat::Free;
    }
    Ok(())
}

#[cycle(edits)]
#[inline(never)]
fn add_slot(
    found: &mut Vec<Edit>,
    search: &Search<'_>,
    slot: &Slot,
    seat: Seat,
) -> Result<(), AllocError>
    ensures { OnOk result (found.new.items ≡ found.old.items ++ place_edits search.now.source.now search.now.spans.now search.now.old.now search.now.word (in_slot (slot_view slot.now).0 seat) (slot_view slot.now).1) }
{
    match slot {
        Slot::Single(place) => add_place(found, search, place, seat),
        Slot::List(places) => {
            for place in places.as_slice() {
                add_place(found, search, place, Seat::Free)?;
            }
            Ok(())
        }
    }
}

#[cycle(edits)]
#[inline(never)]
fn add_place(
    found: &mut Vec<Edit>,
    search: &Search<'_>,
    place: &Place,
    seat: Seat,
) -> Result<(), AllocError>
    ensures { OnOk result (found.new.items ≡ found.old.items ++ place_edits search.now.source.now search.now.spans.now search.now.old.now search.now.word seat (places_of (place_view place.now ∷ []))) }
{
    match &place.node {
        None => Ok(()),
        Some(node) => add_tree(found, search, node, seat),
    }
}

#[inline(never)]
fn add_stretch(
    found: &mut Vec<Edit>,
    search: &Search<'_>,
    number: Option<u32>,
    seat: Seat,
) -> Result<(), AllocError>
    ensures { OnOk result (found.new.items ≡ found.old.items ++ stretch search.now.source.now search.now.spans.now seat number) }
{
    let Some(number) = number else {
        return Ok(());
    };
    match at(search.spans, number as usize) {
        None => Ok(()),
        Some(span) => {
            let span = *span;
            let spelling = spelling_at(search.source, span, seat);
            Ok(found.push(Edit { span, spelling })?)
        }
    }
}

//! Methods that a rename would make their class's constructor, or no longer.

ghost use Rattle.std.specs.Prelude.{◌≡◌, [], ◌∷◌, map, slice_get, IfOk};
ghost use Rattle.tree_core.specs.View.{syntax, slot_view, place_view, slots_of, places_of};
ghost use Rattle.source_rename.specs.Methods.{steps_of, bad_places, key_named};
ghost use Rattle.source_rename.specs.Methods as spec;

use crate::names::{is_named, is_text};
use sqlite_items::at;
use std::alloc::{AllocError, Global};
use tree_core::{Place, Scalar, Slot, Tree};
use type_defs::Kind;

/// The names of a rename.
#[derive(Drop)]
pub struct Names<'a> {
    pub old: &'a [u8],
    pub new: &'a [u8],
}

/// The steps from the tree down to the first method, in preorder, whose kind is not the one of its
/// new key (ESTree, MethodDefinition): it is to be `constructor` exactly where that is the key of a
/// method that is neither static nor an accessor.
#[cycle(bad_method)]
#[inline(never)]
pub fn bad_method(
    alloc: Global,
    names: &Names<'_>,
    tree: &Tree,
) -> Result<Option<Vec<u32>>, AllocError>
    ensures { IfOk result (λ found. steps_of found ≡ spec.bad_method names.now.old.now names.now.new.now (syntax tree.now)) }
{
    if is_bad(names, tree) {
        return Ok(Some(Vec::new(alloc)));
    }
    let mut number = 0u32;
    for slot in tree.slots.as_slice() {
        match bad_in_slot(alloc, names, slot, number)? {
            Some(steps) => return Ok(Some(steps)),
            None => number = behind(slot, number),
        }
    }
    Ok(None)
}

#[cycle(bad_method)]
#[inline(never)]
fn bad_in_slot(
    alloc: Global,
    names: &Names<'_>,
    slot: &Slot,
    number: u32,
) -> Result<Option<Vec<u32>>, AllocError>
    ensures { IfOk result (λ found. steps_of found ≡ bad_places names.now.old.now names.now.new.now number (slot_view slot.now).1) }
{
    match slot {
        Slot::Single(place) => bad_in_place(alloc, names, place, number),
        Slot::List(places) => {
            let mut here = number;
            for place in places.as_slice() {
                match bad_in_place(alloc, names, place, here)? {
                    Some(steps) => return Ok(Some(steps)),
                    None => here = here.saturating_add(1),
                }
            }
            Ok(None)
        }
    }
}

#[cycle(bad_method)]
#[inline(never)]
fn bad_in_place(
    alloc: Global,
    names: &Names<'_>,
    place: &Place,
    number: u32,
) -> Result<Option<Vec<u32>>, AllocError>
    ensures { IfOk result (λ found. steps_of found ≡ bad_places names.now.old.now names.now.new.now number (places_of (place_view place.now ∷ []))) }
{
    match &place.node {
        None => Ok(None),
        Some(node) => match bad_method(alloc, names, node)? {
            None => Ok(None),
            Some(mut steps) => {
                steps.insert(0, number)?;
                Ok(Some(steps))
            }
        },
    }
}

// The number of the first place behind the slot, whose first has this one.
fn behind(slot: &Slot, number: u32) -> u32
    ensures { result ≡ spec.behind number (slot_view slot.now).1 }
{
    match slot {
        Slot::Single(_) => number.saturating_add(1),
        Slot::List(places) => {
            let mut here = number;
            for _place in places.as_slice() {
                here = here.saturating_add(1);
            }
            here
        }
    }
}

// Whether the tree is a method whose kind and new key do not agree.
fn is_bad(names: &Names<'_>, tree: &Tree) -> bool
    ensures { result ≡ spec.is_bad names.now.old.now names.now.new.now (syntax tree.now) }
{
    matches!(tree.kind, Kind::MethodDefinition)
        && is_wrong(wrong_kind(names.new), tree)
        && has_named_key(names.old, tree.slots.as_slice())
}

// The kind that a method of an instance may not have, whose key is this name.
fn wrong_kind(new: &[u8]) -> &'static [u8]
    ensures { result.now ≡ spec.wrong_kind new.now }
{
    if new == b"constructor".as_slice() {
        b"method".as_slice()
    } else {
        b"constructor".as_slice()
    }
}

// Whether a method has this kind, and its key is neither static nor computed.
fn is_wrong(kind: &[u8], method: &Tree) -> bool
    ensures { result ≡ spec.is_wrong kind.now method.now.scalars }
{
    let scalars = &method.scalars;
    scalars.len() == 3
        && is_text_at(method, 0, kind)
        && is_false_at(method, 1)
        && is_false_at(method, 2)
}

fn is_text_at(method: &Tree, at: usize, text: &[u8]) -> bool
    ensures { result ≡ spec.is_text_at text.now (slice_get method.now.scalars at) }
{
    match method.scalars.get(at) {
        Some(scalar) => is_text(scalar, text),
        None => false,
    }
}

fn is_false_at(method: &Tree, at: usize) -> bool
    ensures { result ≡ spec.is_false_at (slice_get method.now.scalars at) }
{
    match method.scalars.get(at) {
        Some(Scalar::Truth(truth)) => !*truth,
        _ => false,
    }
}

// Whether the first slot holds an identifier of the name.
fn has_named_key(name: &[u8], slots: &[Slot]) -> bool
    ensures { result ≡ key_named name.now (slots_of (map slot_view slots.now)) }
{
    match at(slots, 0) {
        Some(slot) => holds_named(name, slot),
        None => false,
    }
}

fn holds_named(name: &[u8], slot: &Slot) -> bool
    ensures { result ≡ spec.holds_named name.now (slot_view slot.now) }
{
    match slot {
        Slot::Single(place) => match &place.node {
            Some(node) => is_named(node, name),
            None => false,
        },
        Slot::List(_) => false,
    }
}

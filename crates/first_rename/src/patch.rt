//! The text of a renamed tree: slices of the source, and the new name.

ghost use Rattle.std.specs.Prelude.{◌≡◌, ◌++◌, [], ◌∷◌, IfOk, OnOk};
ghost use Rattle.tree_core.specs.View.{syntax, slot_view, place_view, places_of};
ghost use Rattle.first_grammar.specs.Spells.{At, Whole, Reads};
ghost use Rattle.first_rename.specs.Names.{IsPlainName, renamed, count_of};
ghost use Rattle.first_rename.specs.Edits.{stretch, place_edits, Ordered, patched, Keeps};
ghost use Rattle.first_rename.specs.Edits as spec;

use crate::names::is_named;
use sqlite_items::at;
use std::alloc::{AllocError, Global};
use tree_core::{Parsed, Place, Slot, Span, Tree};

/// The stretches of the identifiers that have the name, from left to right. `spans` has the
/// stretches of the tree's nodes by their numbers.
pub fn edits(
    alloc: Global,
    tree: &Tree,
    spans: &[Span],
    name: &[u8],
) -> Result<Vec<Span>, AllocError>
    ensures { IfOk result (λ found. found.items ≡ spec.edits name.now spans.now (syntax tree.now)) }
{
    let mut found = Vec::new(alloc);
    add_tree(&mut found, tree, spans, name)?;
    Ok(found)
}

#[cycle(edits)]
fn add_tree(
    found: &mut Vec<Span>,
    tree: &Tree,
    spans: &[Span],
    name: &[u8],
) -> Result<(), AllocError>
    ensures { OnOk result (found.new.items ≡ found.old.items ++ spec.edits name.now spans.now (syntax tree.now)) }
{
    if is_named(tree, name) {
        add_stretch(found, tree.from, spans)?;
    }
    for slot in tree.slots.as_slice() {
        add_slot(found, slot, spans, name)?;
    }
    Ok(())
}

#[cycle(edits)]
fn add_slot(
    found: &mut Vec<Span>,
    slot: &Slot,
    spans: &[Span],
    name: &[u8],
) -> Result<(), AllocError>
    ensures { OnOk result (found.new.items ≡ found.old.items ++ place_edits name.now spans.now (slot_view slot.now).1) }
{
    match slot {
        Slot::Single(place) => add_place(found, place, spans, name),
        Slot::List(places) => {
            for place in places.as_slice() {
                add_place(found, place, spans, name)?;
            }
            Ok(())
        }
    }
}

#[cycle(edits)]
fn add_place(
    found: &mut Vec<Span>,
    place: &Place,
    spans: &[Span],
    name: &[u8],
) -> Result<(), AllocError>
    ensures { OnOk result (found.new.items ≡ found.old.items ++ place_edits name.now spans.now (places_of (place_view place.now ∷ []))) }
{
    match &place.node {
        None => Ok(()),
        Some(node) => add_tree(found, node, spans, name),
    }
}

fn add_stretch(found: &mut Vec<Span>, number: Option<u32>, spans: &[Span]) -> Result<(), AllocError>
    ensures { OnOk result (found.new.items ≡ found.old.items ++ stretch spans.now number) }
{
    let Some(number) = number else {
        return Ok(());
    };
    match at(spans, number as usize) {
        None => Ok(()),
        Some(span) => Ok(found.push(*span)?),
    }
}

/// The source's text with the identifiers named `old` named `new`: what stands between them is
/// taken from the source by its stretches, and nothing is found by comparing texts.
pub fn rename(
    alloc: Global,
    source: &[u8],
    parsed: &Parsed,
    old: &[u8],
    new: &[u8],
) -> Result<Vec<u8>, AllocError>
    requires spelled { Whole (At parsed.now.spans) source.now (syntax parsed.now.tree) }
    requires plain { IsPlainName new.now }

    // It is the source, with `new` in the place of each identifier named `old`.
    ensures text { IfOk result (λ out. out.items ≡ patched source.now new.now 0 (spec.edits old.now parsed.now.spans (syntax parsed.now.tree))) }

    // It reads as the renamed tree.
    ensures reads { IfOk result (λ out. Reads out.items (renamed old.now new.now (syntax parsed.now.tree))) }

    // Each node that the source spells as it is keeps its bytes, the largest ones with all between.
    ensures keeps { IfOk result (λ out. Whole (Keeps source.now parsed.now.spans out.items) out.items (renamed old.now new.now (syntax parsed.now.tree))) }

    ensures none_named { count_of old.now (syntax parsed.now.tree) ≡ 0 → IfOk result (λ out. out.items ≡ source.now) }
    ensures same_name { old.now ≡ new.now → IfOk result (λ out. out.items ≡ source.now) }
{
    let stretches = edits(alloc, &parsed.tree, parsed.spans.as_slice(), old)?;
    let out = patch(alloc, source, new, &stretches)?;
    Ok(out)
}

// The text with `new` in the place of each stretch.
fn patch(
    alloc: Global,
    source: &[u8],
    new: &[u8],
    stretches: &[Span],
) -> Result<Vec<u8>, AllocError>
    requires { Ordered source.now 0 stretches.now }
    ensures { IfOk result (λ out. out.items ≡ patched source.now new.now 0 stretches.now) }
{
    let mut out = Vec::new(alloc);
    let mut at = 0;
    for stretch in stretches {
        out.extend_from_slice(&source[at..stretch.start as usize])?;
        out.extend_from_slice(new)?;
        at = stretch.end as usize;
    }
    out.extend_from_slice(&source[at..])?;
    Ok(out)
}

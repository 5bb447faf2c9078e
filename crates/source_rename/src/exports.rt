//! Exports without a source, behind which the new name `from` would be read as the word of one.

ghost use Rattle.std.specs.Prelude.{◌≡◌, ◌++◌, [], ◌∷◌, map, slice_get, IfOk, OnOk};
ghost use Rattle.tree_core.specs.View.{syntax, slot_view, place_view, slots_of, places_of};
ghost use Rattle.source_rename.specs.Exports as spec;

use crate::edits::{Edit, Search};
use crate::places::{Spelling, start_behind};
use sqlite_items::at;
use std::alloc::{AllocError, Global};
use tree_core::{Place, Slot, Span, Tree};
use type_defs::Kind;

/// The end of an export that has no `;`, and where the token behind it begins.
#[derive(Clone, Copy, Debug)]
struct OpenEnd {
    end: u32,
    next: u32,
}

fn is_empty(slot: &Slot) -> bool
    ensures { result ≡ spec.is_empty (slot_view slot.now) }
{
    match slot {
        Slot::Single(place) => match &place.node {
            Some(_) => false,
            None => true,
        },
        Slot::List(_) => false,
    }
}

// Whether an export has neither a declaration nor a source.
#[tactic(auto, using(crate::proofs::Firsts::lacks_of, crate::proofs::Firsts::lacks_first, crate::proofs::Firsts::lacks_third))]
fn lacks_both(slots: &[Slot]) -> bool
    ensures { result ≡ spec.lacks_both (slots_of (map slot_view slots.now)) }
{
    match at(slots, 0) {
        Some(declaration) => match at(slots, 2) {
            Some(source) => is_empty(declaration) && is_empty(source),
            None => false,
        },
        None => false,
    }
}

fn span_of(search: &Search<'_>, number: Option<u32>) -> Option<Span>
    ensures { result ≡ spec.span_of search.now.spans.now number }
{
    match number {
        Some(number) => at(search.spans, number as usize).copied(),
        None => None,
    }
}

// Whether the byte before the offset is a `;`.
fn has_semicolon(bytes: &[u8], end: u32) -> bool
    ensures { result ≡ spec.has_semicolon bytes.now end }
{
    let end = end as usize;
    0 < end && end <= bytes.len() && bytes[end - 1] == b';'
}

// The end of the tree, where it is an export that has no `;`.
fn open_end(search: &Search<'_>, tree: &Tree) -> Option<OpenEnd>
    ensures { result ≡ spec.open_end search.now.source.now search.now.spans.now (syntax tree.now) }
{
    let exports_names = matches!(tree.kind, Kind::ExportNamedDeclaration);
    if !(exports_names && lacks_both(tree.slots.as_slice())) {
        return None;
    }
    match span_of(search, tree.from) {
        Some(span) => open_at(search, span.end),
        None => None,
    }
}

fn open_at(search: &Search<'_>, end: u32) -> Option<OpenEnd>
    ensures { result ≡ spec.open_behind search.now.source.now end }
{
    if has_semicolon(search.source.bytes(), end) {
        return None;
    }
    match start_behind(search.source, end) {
        Some(next) => Some(OpenEnd { end, next }),
        None => None,
    }
}

fn add_open_end(
    found: &mut Vec<OpenEnd>,
    search: &Search<'_>,
    item: &Place,
) -> Result<(), AllocError>
    ensures { OnOk result (found.new.items ≡ found.old.items ++ spec.open_ends search.now.source.now search.now.spans.now (places_of (place_view item.now ∷ []))) }
{
    let Some(node) = &item.node else {
        return Ok(());
    };
    match open_end(search, node) {
        Some(open) => Ok(found.push(open)?),
        None => Ok(()),
    }
}

fn open_ends(
    alloc: Global,
    search: &Search<'_>,
    items: &[Place],
) -> Result<Vec<OpenEnd>, AllocError>
    ensures { IfOk result (λ ends. ends.items ≡ spec.open_ends search.now.source.now search.now.spans.now (places_of (map place_view items.now))) }
{
    let mut found = Vec::new(alloc);
    for item in items {
        add_open_end(&mut found, search, item)?;
    }
    Ok(found)
}

// The ends from the first on whose next token is not before the offset.
fn left_of(ends: &[OpenEnd], start: u32) -> &[OpenEnd]
    ensures { result.now ≡ spec.left_of start ends.now }
{
    for number in 0..ends.len() {
        if start <= ends[number].next {
            return &ends[number..];
        }
    }
    &ends[ends.len()..]
}

// Adds the `;` of the end whose next token begins at the offset.
fn add_end(all: &mut Vec<Edit>, left: &[OpenEnd], start: u32) -> Result<(), AllocError>
    ensures { OnOk result (all.new.items ≡ all.old.items ++ spec.end_before start (slice_get left.now 0)) }
{
    let Some(open) = at(left, 0) else {
        return Ok(());
    };
    if open.next == start {
        let (start, end) = (open.end, open.end);
        all.push(Edit {
            span: Span { start, end },
            spelling: Spelling::End,
        })?;
    }
    Ok(())
}

fn with_ends(alloc: Global, ends: &[OpenEnd], edits: &[Edit]) -> Result<Vec<Edit>, AllocError>
    ensures { IfOk result (λ all. all.items ≡ spec.ended ends.now edits.now) }
{
    let mut all = Vec::new(alloc);
    let mut left = ends;
    for edit in edits {
        left = left_of(left, edit.span.start);
        add_end(&mut all, left, edit.span.start)?;
        all.push(*edit)?;
    }
    Ok(all)
}

fn end_in_slot(
    alloc: Global,
    search: &Search<'_>,
    slot: &Slot,
    edits: &[Edit],
) -> Result<Vec<Edit>, AllocError>
    ensures { IfOk result (λ all. all.items ≡ spec.ended_row search.now.source.now search.now.spans.now (slot_view slot.now) edits.now) }
{
    match slot {
        Slot::List(items) => {
            let ends = open_ends(alloc, search, items.as_slice())?;
            with_ends(alloc, &ends, edits)
        }
        Slot::Single(_) => Ok(Vec::from_slice(alloc, edits)?),
    }
}

/// The edits, with a `;` at the end of each export in the first slot that the name behind it would
/// join.
#[tactic(auto, using(crate::proofs::Firsts::ended_first, crate::proofs::Firsts::ended_none))]
pub fn end_exports(
    alloc: Global,
    search: &Search<'_>,
    slots: &[Slot],
    edits: &[Edit],
) -> Result<Vec<Edit>, AllocError>
    ensures { IfOk result (λ all. all.items ≡ spec.ended_slots search.now.source.now search.now.spans.now (slots_of (map slot_view slots.now)) edits.now) }
{
    match at(slots, 0) {
        Some(slot) => end_in_slot(alloc, search, slot, edits),
        None => Ok(Vec::from_slice(alloc, edits)?),
    }
}

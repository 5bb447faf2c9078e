//! Numbers the nodes of a tree in preorder, names its places, and gives its nodes their comments.
//!
//! The reader gives no tree that is higher than its limit, and none with a node that lacks a field of
//! its kind or has one too many, or with a leaf that the source does not spell. Here such a tree would
//! be refused at the start of the node, as one with too many nodes or places would.

ghost use Rattle.std.specs.Prelude.{◌≡◌, ◌+◌, ◌<◌, ◌≤◌, [], ◌∷◌, ◌++◌, length, map, IfErr, IfOk};
ghost use Rattle.js_lexer.specs.Cursors.{SpanFits, SpansFit};
ghost use Rattle.js_parser.specs.Refusals.{RefusedWithin};
ghost use Rattle.js_source.specs.Leaves.{LeavesSpelled, PlacesSpelled, SlotsSpelled};
ghost use Rattle.js_source.specs.Nested.{Grows, Lies, Nested, PlacesNested, SlotsNested, whole};
ghost use Rattle.js_source.specs.Shaped.{HasPlaces, InShape, PlacesInShape, SlotsInShape};
ghost use Rattle.js_source.specs.Sizes.{all_places, place_count, slots_places};
ghost use Rattle.tree_core.specs.Height.{height, places_height, slots_height};
ghost use Rattle.tree_core.specs.Numbers.{count, numbered, numbered_places, numbered_slots, places_count, places_length, slots_count};
ghost use Rattle.tree_core.specs.View.{place_view, places_of, slot_view, slots_of, syntax};

use crate::attached::{Attached, notes_of};
use crate::comment_places::Spanned;
use crate::shape::has_fields;
use crate::work_stack::WorkStack;
use js_lexer::{Refusal, SyntaxFault, SyntaxKind};
use leaf_spellings::is_spelled;
use sqlite_items::Items;
use std::alloc::Global;
use tree_core::{Place, PlaceName, Slot, Span, Spans, Tree};

/// The most nodes that are numbered.
const MAX_NODES: usize = 4_194_304;

/// The most places, the one of the tree itself counted.
const MAX_PLACES: u32 = 67_108_864;

/// What is given of the source.
#[derive(Clone, Copy)]
pub struct Given<'a> {
    pub alloc: Global,
    pub spanned: Spanned<'a>,
    pub attached: &'a Attached,
}

/// What is numbered so far: the spans of the nodes by number, and how many places.
#[derive(Drop)]
pub struct Numbering {
    len: u32,
    spans: Spans,
    places: u32,
    ghost fit: { SpansFit len spans },
    ghost few: { length spans ≤ 4194304 },
    ghost bounded: { places < 67108864 },
}

/// A node whose children are numbered.
#[derive(Clone, Copy)]
struct Parent {
    number: u32,
    span: Span,
}

// The part of the span that lies within the outer one. The reader gives none that does not.
fn within(span: Span, outer: Span) -> Span
    requires { outer.start ≤ outer.end }
    ensures { Lies outer result }
{
    let start = span.start.max(outer.start).min(outer.end);
    Span {
        start,
        end: span.end.min(outer.end).max(start),
    }
}

// The refusal at the start of the span.
fn refusal_at(span: Span, kind: SyntaxKind) -> Refusal
    requires { span.start ≤ span.end }
    ensures { RefusedWithin span.end result }
{
    Refusal::Syntax(SyntaxFault {
        at: span.start,
        kind,
    })
}

// The child behind this one of the parent.
fn next_child(parent: Parent, child: u32) -> Result<u32, Refusal>
    requires { parent.span.start ≤ parent.span.end }
    ensures next { IfOk result (λ next. next ≡ child + 1) }
    ensures refused { IfErr result (RefusedWithin parent.span.end) }
{
    if child == u32::MAX {
        return Err(refusal_at(parent.span, SyntaxKind::Unexpected));
    }
    Ok(child + 1)
}

impl Numbering {
    // The next number, for a node with this span.
    fn give(&mut self, span: Span) -> Result<u32, Refusal>
        requires { SpanFits self.old.len span }
        ensures number { IfOk result (λ number. number ≡ length self.old.spans) }
        ensures spans { IfOk result (λ _. self.new.spans ≡ self.old.spans ++ span ∷ []) }
        ensures places { self.new.places ≡ self.old.places }
        ensures len { self.new.len ≡ self.old.len }
        ensures refused { IfErr result (RefusedWithin span.end) }
    {
        let number = self.spans.len();
        if number >= MAX_NODES {
            return Err(refusal_at(span, SyntaxKind::Unexpected));
        }
        self.spans.push(span)?;
        Ok(number as u32)
    }

    // Counts one more place of the parent.
    fn count_place(&mut self, parent: Parent) -> Result<(), Refusal>
        requires { parent.span.start ≤ parent.span.end }
        ensures one { IfOk result (λ _. self.new.places ≡ self.old.places + 1) }
        ensures spans { self.new.spans ≡ self.old.spans }
        ensures len { self.new.len ≡ self.old.len }
        ensures refused { IfErr result (RefusedWithin parent.span.end) }
    {
        if self.places >= MAX_PLACES - 1 {
            return Err(refusal_at(parent.span, SyntaxKind::Unexpected));
        }
        self.places += 1;
        Ok(())
    }
}

// The node with all below it, with no more than `depth` levels.
#[cycle(numbering)]
#[inline(never)]
fn number_node(
    given: &Given<'_>,
    numbers: &mut Numbering,
    pending: &mut WorkStack,
    depth: u32,
    outer: Span,
    tree: &mut Tree,
) -> Result<(), Refusal>
    requires outer { SpanFits numbers.old.len outer }
    requires whole { numbers.old.len ≡ length given.now.spanned.source.now }
    ensures numbers { IfOk result (λ _. syntax tree.new ≡ numbered (length numbers.old.spans) (syntax tree.new)) }
    ensures nodes { IfOk result (λ _. length numbers.new.spans ≡ length numbers.old.spans + count (syntax tree.new)) }
    ensures grows { IfOk result (λ _. Grows numbers.old.spans numbers.new.spans) }
    ensures nested { IfOk result (λ _. Nested numbers.new.spans outer (syntax tree.new)) }
    ensures places { IfOk result (λ _. numbers.new.places ≡ numbers.old.places + place_count (syntax tree.new)) }
    ensures low { IfOk result (λ _. height (syntax tree.new) ≤ depth) }
    ensures shaped { IfOk result (λ _. InShape (syntax tree.new)) }
    ensures leaves { IfOk result (λ _. LeavesSpelled given.now.spanned.source.now numbers.new.spans (syntax tree.new)) }
    ensures len { numbers.new.len ≡ numbers.old.len }
    ensures refused { IfErr result (RefusedWithin outer.end) }
{
    let from = tree.from;
    let span = within(given.spanned.span_of(from), outer);
    if depth == 0 {
        return Err(refusal_at(span, SyntaxKind::Nesting));
    }
    let number = numbers.give(span)?;
    let parent = Parent { number, span };
    tree.notes = notes_of(given.alloc, given.spanned, given.attached, from)?;
    tree.from = Some(parent.number);
    number_slots(given, numbers, pending, depth - 1, parent, &mut tree.slots)?;
    if !has_fields(tree) || !is_spelled(given.alloc, given.spanned.source, span, tree)? {
        return Err(refusal_at(span, SyntaxKind::Unexpected));
    }
    Ok(())
}

// The slots of the parent.
#[cycle(numbering)]
#[inline(never)]
fn number_slots(
    given: &Given<'_>,
    numbers: &mut Numbering,
    pending: &mut WorkStack,
    depth: u32,
    parent: Parent,
    slots: &mut Items<Slot>,
) -> Result<(), Refusal>
    requires outer { SpanFits numbers.old.len parent.span }
    requires whole { numbers.old.len ≡ length given.now.spanned.source.now }
    ensures numbers { IfOk result (λ _. slots_of (map slot_view slots.new) ≡ numbered_slots parent.number 0 (length numbers.old.spans) (slots_of (map slot_view slots.new))) }
    ensures nodes { IfOk result (λ _. length numbers.new.spans ≡ length numbers.old.spans + slots_count (slots_of (map slot_view slots.new))) }
    ensures grows { IfOk result (λ _. Grows numbers.old.spans numbers.new.spans) }
    ensures nested { IfOk result (λ _. SlotsNested numbers.new.spans parent.span (slots_of (map slot_view slots.new))) }
    ensures places { IfOk result (λ _. numbers.new.places ≡ numbers.old.places + slots_places (slots_of (map slot_view slots.new))) }
    ensures low { IfOk result (λ _. slots_height (slots_of (map slot_view slots.new)) ≤ depth) }
    ensures shaped { IfOk result (λ _. SlotsInShape (slots_of (map slot_view slots.new))) }
    ensures leaves { IfOk result (λ _. SlotsSpelled given.now.spanned.source.now numbers.new.spans (slots_of (map slot_view slots.new))) }
    ensures len { numbers.new.len ≡ numbers.old.len }
    ensures refused { IfErr result (RefusedWithin parent.span.end) }
{
    let count = slots.len();
    pending.take_slots(slots)?;
    let mut child = 0;
    for _turn in 0..count {
        let Some(slot) = pending.next_slot() else {
            return Ok(());
        };
        let mut slot = slot;
        child = number_slot(given, numbers, pending, depth, parent, child, &mut slot)?;
        slots.push(slot)?;
    }
    Ok(())
}

// A slot whose first place is this child of the parent, and the number of the next child.
#[cycle(numbering)]
fn number_slot(
    given: &Given<'_>,
    numbers: &mut Numbering,
    pending: &mut WorkStack,
    depth: u32,
    parent: Parent,
    child: u32,
    slot: &mut Slot,
) -> Result<u32, Refusal>
    requires outer { SpanFits numbers.old.len parent.span }
    requires whole { numbers.old.len ≡ length given.now.spanned.source.now }
    ensures child { IfOk result (λ next. next ≡ child + places_length (slot_view slot.new).1) }
    ensures numbers { IfOk result (λ _. (slot_view slot.new).1 ≡ numbered_places parent.number child (length numbers.old.spans) (slot_view slot.new).1) }
    ensures nodes { IfOk result (λ _. length numbers.new.spans ≡ length numbers.old.spans + places_count (slot_view slot.new).1) }
    ensures grows { IfOk result (λ _. Grows numbers.old.spans numbers.new.spans) }
    ensures nested { IfOk result (λ _. PlacesNested numbers.new.spans parent.span (slot_view slot.new).1) }
    ensures places { IfOk result (λ _. numbers.new.places ≡ numbers.old.places + all_places (slot_view slot.new).1) }
    ensures low { IfOk result (λ _. places_height (slot_view slot.new).1 ≤ depth) }
    ensures single { IfOk result (λ _. HasPlaces (slot_view slot.new).0 (slot_view slot.new).1) }
    ensures shaped { IfOk result (λ _. PlacesInShape (slot_view slot.new).1) }
    ensures leaves { IfOk result (λ _. PlacesSpelled given.now.spanned.source.now numbers.new.spans (slot_view slot.new).1) }
    ensures len { numbers.new.len ≡ numbers.old.len }
    ensures refused { IfErr result (RefusedWithin parent.span.end) }
{
    match slot {
        Slot::Single(place) => {
            number_place(given, numbers, pending, depth, parent, child, place)?;
            next_child(parent, child)
        }
        Slot::List(places) => {
            number_places(given, numbers, pending, depth, parent, child, places)
        }
    }
}

// The places of a list, of which the first is this child, and the number of the next child.
#[cycle(numbering)]
#[inline(never)]
fn number_places(
    given: &Given<'_>,
    numbers: &mut Numbering,
    pending: &mut WorkStack,
    depth: u32,
    parent: Parent,
    first: u32,
    places: &mut Items<Place>,
) -> Result<u32, Refusal>
    requires outer { SpanFits numbers.old.len parent.span }
    requires whole { numbers.old.len ≡ length given.now.spanned.source.now }
    ensures child { IfOk result (λ next. next ≡ first + places_length (places_of (map place_view places.new))) }
    ensures numbers { IfOk result (λ _. places_of (map place_view places.new) ≡ numbered_places parent.number first (length numbers.old.spans) (places_of (map place_view places.new))) }
    ensures nodes { IfOk result (λ _. length numbers.new.spans ≡ length numbers.old.spans + places_count (places_of (map place_view places.new))) }
    ensures grows { IfOk result (λ _. Grows numbers.old.spans numbers.new.spans) }
    ensures nested { IfOk result (λ _. PlacesNested numbers.new.spans parent.span (places_of (map place_view places.new))) }
    ensures places { IfOk result (λ _. numbers.new.places ≡ numbers.old.places + all_places (places_of (map place_view places.new))) }
    ensures low { IfOk result (λ _. places_height (places_of (map place_view places.new)) ≤ depth) }
    ensures shaped { IfOk result (λ _. PlacesInShape (places_of (map place_view places.new))) }
    ensures leaves { IfOk result (λ _. PlacesSpelled given.now.spanned.source.now numbers.new.spans (places_of (map place_view places.new))) }
    ensures len { numbers.new.len ≡ numbers.old.len }
    ensures refused { IfErr result (RefusedWithin parent.span.end) }
{
    let count = places.len();
    pending.take_places(places)?;
    let mut child = first;
    for _turn in 0..count {
        let Some(place) = pending.next_place() else {
            return Ok(child);
        };
        let mut place = place;
        number_place(given, numbers, pending, depth, parent, child, &mut place)?;
        places.push(place)?;
        child = next_child(parent, child)?;
    }
    Ok(child)
}

// The place, which is this child of the parent, with what stands there.
#[cycle(numbering)]
fn number_place(
    given: &Given<'_>,
    numbers: &mut Numbering,
    pending: &mut WorkStack,
    depth: u32,
    parent: Parent,
    child: u32,
    place: &mut Place,
) -> Result<(), Refusal>
    requires outer { SpanFits numbers.old.len parent.span }
    requires whole { numbers.old.len ≡ length given.now.spanned.source.now }
    ensures numbers { IfOk result (λ _. places_of (place_view place.new ∷ []) ≡ numbered_places parent.number child (length numbers.old.spans) (places_of (place_view place.new ∷ []))) }
    ensures nodes { IfOk result (λ _. length numbers.new.spans ≡ length numbers.old.spans + places_count (places_of (place_view place.new ∷ []))) }
    ensures grows { IfOk result (λ _. Grows numbers.old.spans numbers.new.spans) }
    ensures nested { IfOk result (λ _. PlacesNested numbers.new.spans parent.span (places_of (place_view place.new ∷ []))) }
    ensures places { IfOk result (λ _. numbers.new.places ≡ numbers.old.places + all_places (places_of (place_view place.new ∷ []))) }
    ensures low { IfOk result (λ _. places_height (places_of (place_view place.new ∷ [])) ≤ depth) }
    ensures shaped { IfOk result (λ _. PlacesInShape (places_of (place_view place.new ∷ []))) }
    ensures leaves { IfOk result (λ _. PlacesSpelled given.now.spanned.source.now numbers.new.spans (places_of (place_view place.new ∷ []))) }
    ensures len { numbers.new.len ≡ numbers.old.len }
    ensures refused { IfErr result (RefusedWithin parent.span.end) }
{
    numbers.count_place(parent)?;
    place.name = Some(PlaceName {
        node: parent.number,
        child,
    });
    match &mut place.node {
        None => Ok(()),
        Some(tree) => number_node(given, numbers, pending, depth, parent.span, tree),
    }
}

/// The tree with its nodes numbered, and their spans by their new numbers.
pub fn number(given: &Given<'_>, tree: Tree, levels: u32) -> Result<(Tree, Spans), Refusal>
    ensures fit { IfOk result (λ r. SpansFit (length given.now.spanned.source.now) r.1) }
    ensures numbers { IfOk result (λ r. syntax r.0 ≡ numbered 0 (syntax r.0)) }
    ensures nested { IfOk result (λ r. Nested r.1 (whole (length given.now.spanned.source.now)) (syntax r.0)) }
    ensures nodes { IfOk result (λ r. length r.1 ≡ count (syntax r.0)) }
    ensures few { IfOk result (λ r. count (syntax r.0) ≤ 4194304) }
    ensures places { IfOk result (λ r. 1 + place_count (syntax r.0) ≤ 67108864) }
    ensures low { IfOk result (λ r. height (syntax r.0) ≤ levels) }
    ensures shaped { IfOk result (λ r. InShape (syntax r.0)) }
    ensures leaves { IfOk result (λ r. LeavesSpelled given.now.spanned.source.now r.1 (syntax r.0)) }
    ensures refused { IfErr result (RefusedWithin (length given.now.spanned.source.now)) }
{
    let len = given.spanned.source.bytes().len() as u32;
    let mut numbers = Numbering {
        len,
        spans: Items::new(given.alloc),
        places: 0,
    };
    let mut pending = WorkStack::new(given.alloc);
    let mut tree = tree;
    let outer = Span { start: 0, end: len };
    number_node(given, &mut numbers, &mut pending, levels, outer, &mut tree)?;
    Ok((tree, numbers.spans))
}

//! Numbers a tree that is read. While it is read, its nodes are numbered as they end; here they get
//! their numbers in preorder, and its places their names.

ghost use Rattle.std.specs.Prelude.{◌≡◌, ◌+◌, [], ◌∷◌, ◌++◌, Some, length, map, reverse, IfOk};
ghost use Rattle.tree_core.specs.View.{syntax, slot_view, place_view, slots_of, places_of};
ghost use Rattle.first_grammar.specs.Numbers as spec;
ghost use Rattle.first_grammar.specs.Shelled.{shelled};

use sqlite_items::Items;
use std::alloc::{AllocError, Global};
use tree_core::{Notes, Place, PlaceName, Scalars, Slot, Span, Spans, Tree};
use type_defs::Kind;

/// The most nodes that are numbered.
const MOST_NODES: usize = 4_194_304;

const NOWHERE: Span = Span { start: 0, end: 0 };

/// The stretch of the node with this number.
fn span_of(spans: &[Span], from: Option<u32>) -> Span
    ensures { result ≡ spec.span_of spans.now from }
{
    let Some(number) = from else {
        return NOWHERE;
    };
    match spans.get(number as usize) {
        None => NOWHERE,
        Some(span) => *span,
    }
}

/// The next number; the stretch is put behind those of the numbers before it.
fn next_number(numbered: &mut Spans, span: Span) -> Result<u32, AllocError>
    ensures number { IfOk result (λ n. n ≡ length numbered.old) }
    ensures spans { IfOk result (λ _. numbered.new ≡ numbered.old ++ span ∷ []) }
{
    let number = numbered.len();
    if number >= MOST_NODES {
        return Err(AllocError);
    }
    numbered.push(span)?;
    Ok(number as u32)
}

fn next_child(child: u32) -> Result<u32, AllocError>
    ensures { IfOk result (λ n. n ≡ child + 1) }
{
    if child == u32::MAX {
        return Err(AllocError);
    }
    Ok(child + 1)
}

/// The items in the other order.
fn reversed<T: Drop>(alloc: Global, mut items: Items<T>) -> Result<Items<T>, AllocError>
    ensures { IfOk result (λ all. reverse all ≡ items) }
{
    let mut all = Items::new(alloc);
    while let Some(item) = items.pop() {
        all.push(item)?;
    }
    Ok(all)
}

/// What a node has besides its slots and its number.
#[derive(Drop)]
pub struct Shell {
    pub kind: Kind,
    pub scalars: Scalars,
    pub notes: Notes,
}

/// A node's shell, its slots and its number. A function of its own, so that no copy of a node lies
/// on the stack of the recursion.
#[inline(never)]
fn opened(tree: Box<Tree>) -> (Shell, Items<Slot>, Option<u32>)
    ensures { syntax tree.value ≡ shelled result.0 (slots_of (map slot_view result.1)) result.2 }
{
    let Tree {
        kind,
        scalars,
        slots,
        notes,
        from,
    } = Box::into_inner(tree);
    let shell = Shell {
        kind,
        scalars,
        notes,
    };
    (shell, slots, from)
}

/// The node of the shell with these slots and this number.
#[inline(never)]
fn closed(
    alloc: Global,
    shell: Shell,
    slots: Items<Slot>,
    node: u32,
) -> Result<Box<Tree>, AllocError>
    ensures { IfOk result (λ t. syntax t.value ≡ shelled shell (slots_of (map slot_view slots)) (Some node)) }
{
    let Shell {
        kind,
        scalars,
        notes,
    } = shell;
    let tree = Tree {
        kind,
        scalars,
        slots,
        notes,
        from: Some(node),
    };
    Ok(Box::new(alloc, tree)?)
}

/// The tree with its nodes numbered from the next number on. `spans` are their stretches by the
/// numbers that they had.
pub fn number(
    alloc: Global,
    spans: &[Span],
    numbered: &mut Spans,
    tree: Tree,
) -> Result<Tree, AllocError>
    ensures tree { IfOk result (λ t. syntax t ≡ spec.numbered (length numbered.old) (syntax tree)) }
    ensures spans { IfOk result (λ _. numbered.new ≡ numbered.old ++ spec.spans_of spans.now (syntax tree)) }
{
    let tree = number_node(alloc, spans, numbered, Box::new(alloc, tree)?)?;
    Ok(Box::into_inner(tree))
}

/// The node, with all below it.
#[cycle(numbering)]
fn number_node(
    alloc: Global,
    spans: &[Span],
    numbered: &mut Spans,
    tree: Box<Tree>,
) -> Result<Box<Tree>, AllocError>
    ensures tree { IfOk result (λ t. syntax t.value ≡ spec.numbered (length numbered.old) (syntax tree.value)) }
    ensures spans { IfOk result (λ _. numbered.new ≡ numbered.old ++ spec.spans_of spans.now (syntax tree.value)) }
{
    let (shell, slots, from) = opened(tree);
    let node = next_number(numbered, span_of(spans, from))?;
    let slots = number_slots(alloc, spans, numbered, node, slots)?;
    closed(alloc, shell, slots, node)
}

/// The slots of the node.
#[cycle(numbering)]
fn number_slots(
    alloc: Global,
    spans: &[Span],
    numbered: &mut Spans,
    node: u32,
    slots: Items<Slot>,
) -> Result<Items<Slot>, AllocError>
    ensures slots { IfOk result (λ all. slots_of (map slot_view all) ≡ spec.numbered_slots node 0 (length numbered.old) (slots_of (map slot_view slots))) }
    ensures spans { IfOk result (λ _. numbered.new ≡ numbered.old ++ spec.slots_spans spans.now (slots_of (map slot_view slots))) }
{
    let mut waiting = reversed(alloc, slots)?;
    let mut done = Items::new(alloc);
    let mut child = 0;
    while let Some(slot) = waiting.pop() {
        let (slot, next) = number_slot(alloc, spans, numbered, node, child, slot)?;
        done.push(slot)?;
        child = next;
    }
    Ok(done)
}

/// A slot whose first place is this child, and the number of the next child.
#[cycle(numbering)]
fn number_slot(
    alloc: Global,
    spans: &[Span],
    numbered: &mut Spans,
    node: u32,
    child: u32,
    slot: Slot,
) -> Result<(Slot, u32), AllocError>
    ensures slot { IfOk result (λ r. slot_view r.0 ≡ ((slot_view slot).0, spec.numbered_places node child (length numbered.old) (slot_view slot).1)) }
    ensures child { IfOk result (λ r. r.1 ≡ child + spec.places_length (slot_view slot).1) }
    ensures spans { IfOk result (λ _. numbered.new ≡ numbered.old ++ spec.places_spans spans.now (slot_view slot).1) }
{
    match slot {
        Slot::Single(place) => {
            let name = PlaceName { node, child };
            let place = number_place(alloc, spans, numbered, name, place)?;
            Ok((Slot::Single(place), next_child(child)?))
        }
        Slot::List(places) => {
            let (places, next) = number_places(alloc, spans, numbered, node, child, places)?;
            Ok((Slot::List(places), next))
        }
    }
}

/// The places of a list, of which the first is this child, and the number of the next child.
#[cycle(numbering)]
fn number_places(
    alloc: Global,
    spans: &[Span],
    numbered: &mut Spans,
    node: u32,
    child: u32,
    places: Items<Place>,
) -> Result<(Items<Place>, u32), AllocError>
    ensures places { IfOk result (λ r. places_of (map place_view r.0) ≡ spec.numbered_places node child (length numbered.old) (places_of (map place_view places))) }
    ensures child { IfOk result (λ r. r.1 ≡ child + spec.places_length (places_of (map place_view places))) }
    ensures spans { IfOk result (λ _. numbered.new ≡ numbered.old ++ spec.places_spans spans.now (places_of (map place_view places))) }
{
    let mut waiting = reversed(alloc, places)?;
    let mut done = Items::new(alloc);
    let mut child = child;
    while let Some(place) = waiting.pop() {
        let name = PlaceName { node, child };
        let place = number_place(alloc, spans, numbered, name, place)?;
        done.push(place)?;
        child = next_child(child)?;
    }
    Ok((done, child))
}

/// The place under this name, with what stands there.
#[cycle(numbering)]
fn number_place(
    alloc: Global,
    spans: &[Span],
    numbered: &mut Spans,
    name: PlaceName,
    place: Place,
) -> Result<Place, AllocError>
    ensures place { IfOk result (λ p. place_view p ≡ spec.numbered_spot (Some name) (length numbered.old) (place_view place)) }
    ensures spans { IfOk result (λ _. numbered.new ≡ numbered.old ++ spec.spot_spans spans.now (place_view place)) }
{
    let node = match place.node {
        None => None,
        Some(node) => Some(number_node(alloc, spans, numbered, node)?),
    };
    Ok(Place {
        name: Some(name),
        node,
    })
}

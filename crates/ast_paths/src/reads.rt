//! The place of the owner, and a place of a node by the name of its slot.

ghost use Rattle.std.specs.Prelude.{◌≡◌, ◌<◌, ◌↔◌, ℕ, Some, None, Err, length, IfOk, IfSome, IfNone, IsTrue, OnErr};
ghost use Rattle.node_arena.specs.Forest.{node_at};
ghost use Rattle.ast_paths.specs.Paths.{IsKid, IsSlotNamed, LacksAt, LacksSlot, kid_of, nth_from, parent_at};

use crate::fault::PathFault;
use node_arena::{Arena, NodeId, PlaceId};
use type_defs::{FieldDef, Kind, is_list, slots};

/// The place where the owner of a place stands.
pub fn parent(arena: &Arena, place: PlaceId) -> Option<PlaceId>
    requires at { place < length arena.now.forest.places }
    ensures place { result ≡ parent_at arena.now.forest place }
    ensures within { IfSome result (λ p. p < length arena.now.forest.places) }
{
    match arena.owner(place) {
        None => None,
        Some(owner) => arena.place_of(owner),
    }
}

/// Whether the slot has this name.
fn is_called(slot: &FieldDef, name: &str) -> bool
    ensures { IsTrue result ↔ slot.now.0.now ≡ name.now }
{
    slot.0 == name
}

/// The number of the kind's slot of this name.
fn slot_named(kind: Kind, name: &str) -> Option<u8>
    ensures found { IfSome result (λ s. IsSlotNamed kind s name.now) }
    ensures missing { IfNone result (LacksSlot kind name.now) }
{
    let slots = slots(kind);
    for slot in 0..slots.len() {
        if is_called(&slots[slot], name) {
            return Some(slot as u8);
        }
    }
    None
}

/// The place that is so many places after the first of a list.
#[tactic(auto, using(crate::proofs::Walks::nth_first, crate::proofs::Walks::nth_more, crate::proofs::Walks::nth_gone))]
fn nth(arena: &Arena, first: Option<PlaceId>, index: u32) -> Option<PlaceId>
    requires first { IfSome first (λ p. p < length arena.now.forest.places) }
    ensures place { result ≡ nth_from arena.now.forest first index }
    ensures within { IfSome result (λ p. p < length arena.now.forest.places) }
{
    let mut at = first;
    for _turn in 0..index {
        let Some(place) = at else {
            return None;
        };
        at = arena.next(place);
    }
    at
}

/// The place of a slot of a node; of a list, the place that is so many places after its first.
fn kid(arena: &Arena, node: NodeId, slot: u8, index: u32) -> Option<PlaceId>
    requires at { node < length arena.now.forest.nodes }
    ensures place { result ≡ kid_of arena.now.forest node slot index }
    ensures within { IfSome result (λ p. p < length arena.now.forest.places) }
{
    let first = arena.slot_first(node, slot);
    if is_list(arena.kind(node), slot) {
        return nth(arena, first, index);
    }
    first
}

/// The place of the slot of this name of the node that stands in a place; of a list, the place that
/// is so many places after its first. There is none where no node stands there or the list is not
/// longer than the index.
#[tactic(auto, using(crate::proofs::Walks::kid_found))]
pub fn get(
    arena: &Arena,
    place: PlaceId,
    field: &str,
    index: u32,
) -> Result<Option<PlaceId>, PathFault>
    requires at { place < length arena.now.forest.places }
    ensures none { node_at arena.now.forest place ≡ None → IfOk result (λ o. o ≡ None) }
    ensures found { IfOk result (λ o. (j : ℕ) → node_at arena.now.forest place ≡ Some j → IsKid arena.now.forest j field.now index o) }
    ensures within { IfOk result (λ o. IfSome o (λ p. p < length arena.now.forest.places)) }
    ensures lacks { OnErr result (LacksAt arena.now.forest (node_at arena.now.forest place) field.now) }
    ensures refused { OnErr result (result ≡ Err PathFault.NoField) }
{
    let Some(node) = arena.node_at(place) else {
        return Ok(None);
    };
    let Some(slot) = slot_named(arena.kind(node), field) else {
        return Err(PathFault::NoField);
    };
    Ok(kid(arena, node, slot, index))
}

//! How deep a tree is.

ghost use Rattle.std.specs.Prelude.{◌≡◌, ◌-◌, ◌^◌, [], ◌∷◌, min};
ghost use Rattle.tree_core.specs.Height.{height, places_height};
ghost use Rattle.tree_core.specs.View.{syntax, slot_view, place_view, places_of};

use crate::tree::{Place, Slot, Tree};

/// The greatest depth of a node, the first node having depth 1; `u32::MAX` where it would be
/// greater.
#[cycle(height)]
pub fn height(tree: &Tree) -> u32
    ensures { result ≡ min (height (syntax tree.now)) (2 ^ 32 - 1) }
{
    let mut below = 0u32;
    for slot in tree.slots.as_slice() {
        below = below.max(slot_height(slot));
    }
    below.saturating_add(1)
}

// The height of the highest tree in the slot.
#[cycle(height)]
fn slot_height(slot: &Slot) -> u32
    ensures { result ≡ min (places_height (slot_view slot.now).1) (2 ^ 32 - 1) }
{
    match slot {
        Slot::Single(place) => place_height(place),
        Slot::List(places) => {
            let mut below = 0u32;
            for place in places.as_slice() {
                below = below.max(place_height(place));
            }
            below
        }
    }
}

#[cycle(height)]
fn place_height(place: &Place) -> u32
    ensures { result ≡ min (places_height (places_of (place_view place.now ∷ []))) (2 ^ 32 - 1) }
{
    match &place.node {
        None => 0,
        Some(node) => height(node),
    }
}

//! Whether two trees have the same nodes.

ghost use Rattle.std.specs.Prelude.{◌≡◌, ◌↔◌, IsTrue, [], ◌∷◌, map};
ghost use Rattle.text_guard.specs.Plain.{plain, plain_slots, plain_places};
ghost use Rattle.tree_core.specs.View.{syntax, slot_view, place_view, slots_of, places_of};

use crate::scalars::same_scalars;
use tree_core::{Place, Slot, Tree};

/// Whether the trees have the same kinds, scalars and slots. Comments, numbers of nodes and names of
/// places are not compared. It goes no deeper than the lower tree.
#[cycle(nodes)]
pub fn same_nodes(a: &Tree, b: &Tree) -> bool
    ensures { IsTrue result ↔ (plain (syntax a.now) ≡ plain (syntax b.now)) }
{
    if !a.kind.is(b.kind) || !same_scalars(&a.scalars, &b.scalars) {
        return false;
    }
    same_slots(a.slots.as_slice(), b.slots.as_slice())
}

#[cycle(nodes)]
fn same_slots(a: &[Slot], b: &[Slot]) -> bool
    ensures { IsTrue result ↔ (plain_slots (slots_of (map slot_view a.now)) ≡ plain_slots (slots_of (map slot_view b.now))) }
{
    if a.len() != b.len() {
        return false;
    }
    for at in 0..a.len() {
        if !same_slot(&a[at], &b[at]) {
            return false;
        }
    }
    true
}

#[cycle(nodes)]
fn same_slot(a: &Slot, b: &Slot) -> bool
    ensures { IsTrue result ↔ (((slot_view a.now).0 ≡ (slot_view b.now).0) × (plain_places (slot_view a.now).1 ≡ plain_places (slot_view b.now).1)) }
{
    match (a, b) {
        (Slot::Single(a), Slot::Single(b)) => same_place(a, b),
        (Slot::List(a), Slot::List(b)) => same_list(a.as_slice(), b.as_slice()),
        _ => false,
    }
}

#[cycle(nodes)]
fn same_list(a: &[Place], b: &[Place]) -> bool
    ensures { IsTrue result ↔ (plain_places (places_of (map place_view a.now)) ≡ plain_places (places_of (map place_view b.now))) }
{
    if a.len() != b.len() {
        return false;
    }
    for at in 0..a.len() {
        if !same_place(&a[at], &b[at]) {
            return false;
        }
    }
    true
}

#[cycle(nodes)]
fn same_place(a: &Place, b: &Place) -> bool
    ensures { IsTrue result ↔ (plain_places (places_of (place_view a.now ∷ [])) ≡ plain_places (places_of (place_view b.now ∷ []))) }
{
    match (&a.node, &b.node) {
        (None, None) => true,
        (Some(a), Some(b)) => same_nodes(a, b),
        _ => false,
    }
}

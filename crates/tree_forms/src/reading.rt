//! What a node has: its scalars, and what stands in its slots.

ghost use Rattle.std.specs.Prelude.{◌≡◌, [], ◌∷◌, map};
ghost use Rattle.std.specs.Option.{option_copied, option_map};
ghost use Rattle.tree_core.specs.View.{syntax, slot_view, place_view, slots_of, places_of};
ghost use Rattle.tree_forms.specs.Choice as choice;
ghost use Rattle.tree_forms.specs.Reading as spec;
ghost use Rattle.spelling_rules.specs.Shapes.{first_place};

use sqlite_items::at;
use tree_core::{Place, Slot, Tree};
use type_defs::Kind;

/// What stands in the first place of the slot of this number.
pub fn child(tree: &Tree, slot: usize) -> Option<&Tree>
    ensures { option_map syntax (option_copied result) ≡ spec.child slot (syntax tree.now) }
{
    in_slots(tree.slots.as_slice(), slot)
}

fn in_slots(slots: &[Slot], number: usize) -> Option<&Tree>
    ensures { option_map syntax (option_copied result) ≡ spec.child_in number (slots_of (map slot_view slots.now)) }
{
    match at(slots, number) {
        Some(slot) => in_slot(slot),
        None => None,
    }
}

fn in_slot(slot: &Slot) -> Option<&Tree>
    ensures { option_map syntax (option_copied result) ≡ first_place (slot_view slot.now).1 }
{
    match slot {
        Slot::Single(place) => in_single(place),
        Slot::List(places) => in_places(places.as_slice()),
    }
}

fn in_places(places: &[Place]) -> Option<&Tree>
    ensures { option_map syntax (option_copied result) ≡ first_place (places_of (map place_view places.now)) }
{
    match at(places, 0) {
        Some(place) => in_place(place),
        None => None,
    }
}

#[tactic(auto, using(crate::proofs::InSlots::first_spot))]
fn in_single(place: &Place) -> Option<&Tree>
    ensures { option_map syntax (option_copied result) ≡ first_place (places_of (place_view place.now ∷ [])) }
{
    in_place(place)
}

fn in_place(place: &Place) -> Option<&Tree>
    ensures { option_map syntax (option_copied result) ≡ (place_view place.now).1 }
{
    match &place.node {
        None => None,
        Some(node) => Some(node),
    }
}

/// What stands in the second place of the slot of this number.
pub fn second_child(tree: &Tree, slot: usize) -> Option<&Tree>
    ensures { option_map syntax (option_copied result) ≡ spec.second_child slot (syntax tree.now) }
{
    second_in_slots(tree.slots.as_slice(), slot)
}

fn second_in_slots(slots: &[Slot], number: usize) -> Option<&Tree>
    ensures { option_map syntax (option_copied result) ≡ spec.second_in number (slots_of (map slot_view slots.now)) }
{
    match at(slots, number) {
        Some(slot) => second_in_slot(slot),
        None => None,
    }
}

#[tactic(auto, using(crate::proofs::InSlots::second_alone))]
fn second_in_slot(slot: &Slot) -> Option<&Tree>
    ensures { option_map syntax (option_copied result) ≡ spec.second_place (slot_view slot.now).1 }
{
    match slot {
        Slot::Single(_) => None,
        Slot::List(places) => second_in_places(places.as_slice()),
    }
}

fn second_in_places(places: &[Place]) -> Option<&Tree>
    ensures { option_map syntax (option_copied result) ≡ spec.second_place (places_of (map place_view places.now)) }
{
    match at(places, 1) {
        Some(place) => in_place(place),
        None => None,
    }
}

/// Whether the node declares a function or a class.
pub fn is_function_or_class(tree: &Tree) -> bool
    ensures { result ≡ choice.is_function_or_class (syntax tree.now) }
{
    matches!(
        tree.kind,
        Kind::FunctionDeclaration | Kind::ClassDeclaration
    )
}

/// Whether the node is a pattern in brackets or braces.
pub fn is_pattern(tree: &Tree) -> bool
    ensures { result ≡ choice.is_pattern (syntax tree.now) }
{
    matches!(tree.kind, Kind::ArrayPattern | Kind::ObjectPattern)
}

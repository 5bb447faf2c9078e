//! Chains: how many links of one go down to the lowest that is optional. Only links are walked, so
//! that a walk over a tree that goes by links takes time by its nodes.

ghost use Rattle.std.specs.Prelude.{◌≡◌, [], ◌∷◌, false, Some, None, map};
ghost use Rattle.tree_core.specs.View.{syntax, slot_view, place_view, slots_of, places_of};
ghost use Rattle.tree_forms.specs.Choice as choice;
ghost use Rattle.tree_forms.specs.Edges as spec;
ghost use Rattle.tree_forms.specs.Reading as reading;

use crate::choosing::form;
use crate::edges::{ALONE, link_of, links_with};
use js_forms::Category;
use tree_core::{Place, Slot, Tree};

// Whether the tree is a link, so that its first child may go on with the chain.
fn goes_on(tree: &Tree) -> bool
    ensures { result ≡ false → spec.link_of (choice.form Category.Expression (syntax tree.now)) ≡ None }
{
    match link_of(form(tree, ALONE)) {
        Some(_) => true,
        None => false,
    }
}

/// The number of links of the tree's left end.
#[cycle(chains)]
pub fn links(tree: &Tree) -> u32
    ensures { result ≡ (spec.left_end (syntax tree.now)).links }
{
    if !goes_on(tree) {
        return 0;
    }
    let below = first_links(tree.slots.as_slice());
    links_with(link_of(form(tree, ALONE)), below)
}

#[cycle(chains)]
fn first_links(slots: &[Slot]) -> u32
    ensures { result ≡ spec.below_links (spec.first_edge (slots_of (map slot_view slots.now))) }
{
    if slots.is_empty() {
        return 0;
    }
    slot_links(&slots[0])
}

#[cycle(chains)]
fn slot_links(slot: &Slot) -> u32
    ensures { result ≡ spec.below_links (spec.places_edge (slot_view slot.now).1) }
{
    match slot {
        Slot::Single(place) => place_links(place),
        Slot::List(places) => places_links(places.as_slice()),
    }
}

#[cycle(chains)]
fn places_links(places: &[Place]) -> u32
    ensures { result ≡ spec.below_links (spec.places_edge (places_of (map place_view places.now))) }
{
    if places.is_empty() {
        return 0;
    }
    place_links(&places[0])
}

#[cycle(chains)]
fn place_links(place: &Place) -> u32
    ensures { result ≡ spec.below_links (spec.places_edge (places_of (place_view place.now ∷ []))) }
{
    match &place.node {
        None => 0,
        Some(node) => links(node),
    }
}

/// The number of links of the first child, of a node with so many: told by these where it goes on a
/// chain, and walked otherwise.
pub fn links_below(tree: &Tree, links_here: u32, first: &Tree) -> u32
    requires here { links_here ≡ (spec.left_end (syntax tree.now)).links }
    requires first { reading.child 0 (syntax tree.now) ≡ Some (syntax first.now) }
    ensures { result ≡ (spec.left_end (syntax first.now)).links }
{
    if links_here < u32::MAX {
        if let Some(_) = link_of(form(tree, ALONE)) {
            return links_here.saturating_sub(1);
        }
    }
    links(first)
}

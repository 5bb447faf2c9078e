//! Where a node stands in a tree.

ghost use Rattle.std.specs.Prelude.{◌≡◌, map};
ghost use Rattle.std.specs.Option.{option_copied, option_map};
ghost use Rattle.tree_core.specs.Address.{child_at, node_at};
ghost use Rattle.tree_core.specs.View.{syntax, slot_view, place_view, places_of};

use crate::tree::{Place, Slot, Tree};
use sqlite_items::Items;
use std::marker::Model;
use std::slice;

/// Steps in order.
pub type Steps32 = Items<u32>;

/// The steps that lead from a tree's first node down to a node. Each is the number of a child,
/// counted from 0 over the places of all slots, empty ones too.
#[derive(Debug, Drop)]
pub struct Address {
    steps: Steps32,
}

impl Model for Address {
    ghost use Rattle.std.specs.Prelude.{List, ℕ};

    ghost Value = { List ℕ };

    ghost view = { λ a. a.steps };
}

impl Address {
    pub fn new(steps: Steps32) -> Address
        ensures { result ≡ steps }
    {
        Address { steps }
    }

    pub fn steps(&self) -> &[u32]
        ensures { result.now ≡ self.now }
    {
        self.steps.as_slice()
    }
}

/// The node at the address; `None` where no node stands there.
pub fn at<'a>(tree: &'a Tree, address: &Address) -> Option<&'a Tree>
    ensures { option_map syntax (option_copied result) ≡ node_at address.now (syntax tree.now) }
{
    let mut node = tree;
    for step in address.steps() {
        match child(node, *step as usize) {
            None => return None,
            Some(below) => node = below,
        }
    }
    Some(node)
}

#[tactic(auto, using(crate::proofs::Children::child_here, crate::proofs::Children::child_behind, crate::proofs::Children::child_past))]
fn child(tree: &Tree, number: usize) -> Option<&Tree>
    ensures { option_map syntax (option_copied result) ≡ child_at number (syntax tree.now) }
{
    let mut left = number;
    for slot in tree.slots.as_slice() {
        let places = places(slot);
        if left < places.len() {
            return standing(&places[left]);
        }
        left -= places.len();
    }
    None
}

fn places(slot: &Slot) -> &[Place]
    ensures { places_of (map place_view result.now) ≡ (slot_view slot.now).1 }
{
    match slot {
        Slot::Single(place) => slice::from_ref(place),
        Slot::List(places) => places.as_slice(),
    }
}

fn standing(place: &Place) -> Option<&Tree>
    ensures { option_map syntax (option_copied result) ≡ (place_view place.now).1 }
{
    match &place.node {
        None => None,
        Some(node) => Some(node),
    }
}

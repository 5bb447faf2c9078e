//! A cursor over the places of a node, in the order of its slots.

ghost use Rattle.std.specs.Prelude.{◌≡◌, map};
ghost use Rattle.tree_core.specs.View.{syntax, slot_view, place_view, slots_of, places_of};
ghost use Rattle.tree_check.specs.Parts as spec;

use sqlite_items::at;
use std::slice;
use tree_core::{Place, Slot, Tree};

/// What a step of a cursor comes to.
#[derive(Clone, Copy)]
pub enum Step<'a> {
    /// A child.
    Child(&'a Tree),
    /// An empty place, or the end of a slot.
    Passed,
    /// The end of the last slot.
    Done,
}

/// A place between two places of a node.
#[derive(Clone, Copy)]
pub struct Cursor<'a> {
    pub node: &'a Tree,
    /// The number of the slot.
    pub slot: usize,
    /// How many places of the slot are passed.
    pub passed: usize,
    /// How many places of the node are passed.
    pub places: u32,
}

/// The places of a slot.
pub fn places(slot: &Slot) -> &[Place]
    ensures { places_of (map place_view result.now) ≡ (slot_view slot.now).1 }
{
    match slot {
        Slot::Single(place) => slice::from_ref(place),
        Slot::List(places) => places.as_slice(),
    }
}

/// The places of the node's slot of this number, none where it has no such slot.
pub fn places_at(node: &Tree, slot: usize) -> &[Place]
    ensures { places_of (map place_view result.now) ≡ spec.places_at slot (syntax node.now) }
{
    places_in(node.slots.as_slice(), slot)
}

#[tactic(auto, using(crate::proofs::Lists::places_there, crate::proofs::Lists::places_past))]
fn places_in(slots: &[Slot], number: usize) -> &[Place]
    ensures { places_of (map place_view result.now) ≡ spec.places_in number (slots_of (map slot_view slots.now)) }
{
    match at(slots, number) {
        Some(slot) => places(slot),
        None => &[],
    }
}

impl<'a> Cursor<'a> {
    /// Before the node's first place.
    pub fn new(node: &'a Tree) -> Cursor<'a> {
        Cursor {
            node,
            slot: 0,
            passed: 0,
            places: 0,
        }
    }

    /// The number of the place that was passed last, among the node's.
    pub fn number(&self) -> u32 {
        self.places.saturating_sub(1)
    }

    /// The number of the place that was passed last, among those of its slot.
    pub fn index(&self) -> usize {
        self.passed.saturating_sub(1)
    }

    /// Passes a place, or goes on to the next slot.
    pub fn step(&mut self) -> Step<'a> {
        let node = self.node;
        match at(node.slots.as_slice(), self.slot) {
            None => Step::Done,
            Some(slot) => self.step_in(places(slot)),
        }
    }

    fn step_in(&mut self, places: &'a [Place]) -> Step<'a> {
        match at(places, self.passed) {
            None => {
                self.slot = self.slot.saturating_add(1);
                self.passed = 0;
                Step::Passed
            }
            Some(place) => {
                self.passed = self.passed.saturating_add(1);
                self.places = self.places.saturating_add(1);
                child_in(place)
            }
        }
    }
}

fn child_in(place: &Place) -> Step<'_> {
    match &place.node {
        None => Step::Passed,
        Some(node) => Step::Child(node),
    }
}

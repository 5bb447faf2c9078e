//! Slots and places that wait until those before them are done. All nodes share the two stacks, so
//! that no node takes memory for its own.

ghost use Rattle.std.specs.Prelude.{◌≡◌, [], IfOk};

use sqlite_items::Items;
use std::alloc::{AllocError, Global};
use tree_core::{Place, Slot};

// Moves the items onto the others, the last first.
fn moved<T: Drop>(from: &mut Items<T>, onto: &mut Items<T>) -> Result<(), AllocError>
    ensures { IfOk result (λ _. from.new ≡ []) }
{
    while let Some(item) = from.pop() {
        onto.push(item)?;
    }
    Ok(())
}

#[derive(Drop)]
pub struct WorkStack {
    slots: Items<Slot>,
    places: Items<Place>,
}

impl WorkStack {
    pub fn new(alloc: Global) -> WorkStack {
        WorkStack {
            slots: Items::new(alloc),
            places: Items::new(alloc),
        }
    }

    /// Takes the slots, of which the first comes first, and leaves none.
    pub fn take_slots(&mut self, slots: &mut Items<Slot>) -> Result<(), AllocError>
        ensures { IfOk result (λ _. slots.new ≡ []) }
    {
        moved(slots, &mut self.slots)
    }

    /// Takes the places, of which the first comes first, and leaves none.
    pub fn take_places(&mut self, places: &mut Items<Place>) -> Result<(), AllocError>
        ensures { IfOk result (λ _. places.new ≡ []) }
    {
        moved(places, &mut self.places)
    }

    pub fn next_slot(&mut self) -> Option<Slot> {
        self.slots.pop()
    }

    pub fn next_place(&mut self) -> Option<Place> {
        self.places.pop()
    }
}

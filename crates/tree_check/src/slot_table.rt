//! What the slots of forms take, kept for the form that each kind had last: most nodes of a kind
//! have one form, and the table of forms is gone through once for them all.

use js_forms::Place;
use std::alloc::{AllocError, Global};
use tree_forms::{Variant, is_mirror, slot_at};
use type_defs::Kind;

// How many kinds there are, and how many slots a kind has at most.
const KINDS: usize = 73;

const MAX_SLOTS: usize = 8;

/// What a slot takes, and whether it holds a name that is spelled for another one.
#[derive(Clone, Copy)]
pub struct Taken {
    pub place: Option<Place>,
    pub is_mirror: bool,
}

/// What the slot of this number takes, of a form in its spelling.
pub fn taken_by(variant: Variant, number: usize) -> Taken {
    Taken {
        place: slot_at(variant, number),
        is_mirror: is_mirror(variant, number),
    }
}

fn index_of(kind: Kind, number: usize) -> usize {
    (kind as usize)
        .saturating_mul(MAX_SLOTS)
        .saturating_add(number)
}

// A form, and of how many of its slots it is kept what they take.
#[derive(Clone, Copy)]
struct Known {
    variant: Variant,
    count: usize,
}

/// The forms that the kinds had last, and what the slots of each take.
#[derive(Drop)]
pub struct SlotTable {
    known: Vec<Option<Known>>,
    slots: Vec<Taken>,
}

impl SlotTable {
    /// No form at all.
    pub fn new(alloc: Global) -> Result<SlotTable, AllocError> {
        let nothing = Taken {
            place: None,
            is_mirror: false,
        };
        Ok(SlotTable {
            known: Vec::from_elem(alloc, None, KINDS)?,
            slots: Vec::from_elem(alloc, nothing, KINDS * MAX_SLOTS)?,
        })
    }

    // Of how many slots of the kind it is kept what they take in this form.
    fn count(&self, kind: Kind, variant: Variant) -> usize {
        match self.known.get(kind as usize) {
            Some(Some(known)) => {
                if known.variant == variant {
                    return known.count;
                }
                0
            }
            _ => 0,
        }
    }

    fn put(&mut self, kind: Kind, number: usize, taken: Taken) {
        let at = index_of(kind, number);
        if at < self.slots.len() {
            self.slots[at] = taken;
        }
    }

    /// Keeps what so many slots of a node of the kind take, which has this form.
    pub fn learn(&mut self, kind: Kind, variant: Variant, count: usize) {
        let count = count.min(MAX_SLOTS);
        if count <= self.count(kind, variant) {
            return;
        }
        for number in 0..count {
            self.put(kind, number, taken_by(variant, number));
        }
        let at = kind as usize;
        if at < self.known.len() {
            self.known[at] = Some(Known { variant, count });
        }
    }

    /// What the slot takes of a node of the kind, which has this form.
    pub fn at(&self, kind: Kind, variant: Variant, number: usize) -> Taken {
        if number >= self.count(kind, variant) {
            return taken_by(variant, number);
        }
        match self.slots.get(index_of(kind, number)) {
            Some(found) => *found,
            None => taken_by(variant, number),
        }
    }
}

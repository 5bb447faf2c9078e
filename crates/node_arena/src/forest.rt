//! The forest over the table of links. Numbers stand for nodes, slots and places here.

ghost use Rattle.std.specs.Prelude.{◌≡◌, ◌<◌, ◌≤◌, ◌+◌, ◌-◌, ◌*◌, ◌^◌, Some, None, true, length, max, IfOk, IsOk, OnOk, OnErr, IfSome};
ghost use Rattle.node_arena.specs.Forest.{IsLawful, IsListSlot, Joins, MayGo, clear_of, front_forest, insert_after_of, insert_before_of, insert_first_of, linked_of, list_at, make_of, node_at, put_of, start_forest, unlink_of};
ghost use Rattle.node_arena.specs.Fronts.{HasFewSlots, MayGoBefore};
ghost use Rattle.node_arena.specs.Reads.{base_at, first_at, index_at, kind_at, next_at, owner_at, place_at, prev_at, state_at};
ghost use Rattle.type_defs.specs.Fields.{is_list_at};

use crate::chains::{detach, empty, insert, seat};
use crate::links::Links;
use crate::state::PlaceState;
use crate::steps::Steps;
use std::alloc::{AllocError, Global};
use std::marker::Model;
use std::sync::ledger::Ledger;
use type_defs::Kind;

/// Nodes with slots, slots with lists of places, and places with nodes.
#[derive(Drop)]
pub struct LinkedForest {
    links: Links,
}

impl Model for LinkedForest {
    ghost use Rattle.node_arena.specs.Forest.{Linked, linked_of, forest_of, IsTable};

    ghost Value = { Linked };

    ghost view = { λ a. linked_of (forest_of a.links.rows) a.links.spare };

    ghost invariant = { λ a. IsTable a.links.rows };
}

impl LinkedForest {
    /// The root place alone.
    #[tactic(auto, using(crate::proofs::Starts::start_table_is, crate::proofs::Starts::start_shows))]
    pub fn new(alloc: Global) -> Result<LinkedForest, AllocError>
        ensures { IfOk result (λ a. a ≡ linked_of start_forest 0) }
    {
        let links = Links::new(alloc)?;
        Ok(LinkedForest { links })
    }

    /// Takes the node out of a place; it is told, and is a root.
    pub fn clear<L: Ledger>(&mut self, place: u32, steps: &mut Steps<L>) -> Option<u32>
        requires at { place < length self.old.forest.places }
        ensures node { result ≡ node_at self.old.forest place }
        ensures after { self.new ≡ linked_of (clear_of self.old.forest place) self.old.spare }
        ensures steps { steps.new ≤ steps.old + 2 }
    {
        empty(&mut self.links, place, steps)
    }

    /// Puts a root into a place that it does not hold. What stood there is a root.
    pub fn put<L: Ledger>(&mut self, place: u32, node: u32, steps: &mut Steps<L>)
        requires at { place < length self.old.forest.places }
        requires may { MayGo self.old.forest place node }
        ensures after { self.new ≡ linked_of (put_of self.old.forest place node) self.old.spare }
        ensures steps { steps.new ≤ steps.old + 4 }
    {
        let _gone = empty(&mut self.links, place, steps);
        seat(&mut self.links, place, node, steps);
    }

    /// A new node of a kind, a root: its lists are empty, and each other slot has one place, empty.
    pub fn make(&mut self, kind: Kind) -> u32
        requires spare { 0 < self.old.spare }
        requires nodes { length self.old.forest.nodes < 2 ^ 22 }
        requires places { length (make_of self.old.forest kind).places ≤ 2 ^ 26 }
        ensures number { result ≡ length self.old.forest.nodes }
        ensures after { self.new ≡ linked_of (make_of self.old.forest kind) (self.old.spare - 1) }
        ensures apart { MayGoBefore self.new.forest (length self.old.forest.places) result }
    {
        self.links.make(kind)
    }

    /// The list that a place is in.
    #[tactic(auto, using(crate::proofs::Methods::at_row, crate::proofs::Methods::owner_row, crate::proofs::Methods::list_none, crate::proofs::Methods::list_yes, crate::proofs::Methods::list_no))]
    pub fn list_at(&self, place: u32) -> Option<u32>
        requires at { place < length self.now.forest.places }
        ensures { result ≡ list_at self.now.forest place }
    {
        let row = self.links.place(place);
        match row.owner {
            None => None,
            Some(slot) => {
                if self.links.slot(slot).list {
                    Some(slot)
                } else {
                    None
                }
            }
        }
    }

    /// A new first place of a list, with a root or without.
    pub fn insert_first<L: Ledger>(
        &mut self,
        slot: u32,
        node: Option<u32>,
        steps: &mut Steps<L>,
    ) -> u32
        requires list { IsListSlot self.old.forest slot }
        requires joins { Joins self.old.forest slot node }
        requires spare { 0 < self.old.spare }
        requires few { length self.old.forest.places < 2 ^ 26 }
        ensures number { result ≡ length self.old.forest.places }
        ensures after { self.new ≡ linked_of (insert_first_of self.old.forest slot node) (self.old.spare - 1) }
        ensures steps { steps.new ≤ steps.old + 4 }
    {
        let row = self.links.slot(slot);
        insert(&mut self.links, slot, None, row.first, node, steps)
    }

    /// A new place after a place of a list, with a root or without.
    pub fn insert_after<L: Ledger>(
        &mut self,
        slot: u32,
        place: u32,
        node: Option<u32>,
        steps: &mut Steps<L>,
    ) -> u32
        requires at { place < length self.old.forest.places }
        requires list { list_at self.old.forest place ≡ Some slot }
        requires joins { Joins self.old.forest slot node }
        requires spare { 0 < self.old.spare }
        requires few { length self.old.forest.places < 2 ^ 26 }
        ensures number { result ≡ length self.old.forest.places }
        ensures after { self.new ≡ linked_of (insert_after_of self.old.forest place node) (self.old.spare - 1) }
        ensures steps { steps.new ≤ steps.old + 4 }
    {
        let row = self.links.place(place);
        insert(&mut self.links, slot, Some(place), row.next, node, steps)
    }

    /// A new place before a place of a list, with a root or without.
    pub fn insert_before<L: Ledger>(
        &mut self,
        slot: u32,
        place: u32,
        node: Option<u32>,
        steps: &mut Steps<L>,
    ) -> u32
        requires at { place < length self.old.forest.places }
        requires list { list_at self.old.forest place ≡ Some slot }
        requires joins { Joins self.old.forest slot node }
        requires spare { 0 < self.old.spare }
        requires few { length self.old.forest.places < 2 ^ 26 }
        ensures number { result ≡ length self.old.forest.places }
        ensures after { self.new ≡ linked_of (insert_before_of self.old.forest place node) (self.old.spare - 1) }
        ensures steps { steps.new ≤ steps.old + 4 }
    {
        let row = self.links.place(place);
        insert(&mut self.links, slot, row.prev, Some(place), node, steps)
    }

    /// Takes a place out of its list. It holds nothing then, and its node is a root.
    pub fn unlink<L: Ledger>(&mut self, slot: u32, place: u32, steps: &mut Steps<L>) -> Option<u32>
        requires at { place < length self.old.forest.places }
        requires list { list_at self.old.forest place ≡ Some slot }
        ensures node { result ≡ node_at self.old.forest place }
        ensures after { self.new ≡ linked_of (unlink_of self.old.forest place) self.old.spare }
        ensures steps { steps.new ≤ steps.old + 7 }
    {
        let gone = empty(&mut self.links, place, steps);
        detach(&mut self.links, slot, place, steps);
        gone
    }

    /// Takes memory for so many new nodes or places.
    pub fn reserve(&mut self, n: u32) -> Result<(), AllocError>
        ensures ok { OnOk result (self.new ≡ linked_of self.old.forest (max self.old.spare n)) }
        ensures succeeds { n ≤ self.old.spare → IsOk result }
        ensures err { OnErr result (self.new ≡ self.old) }
    {
        self.links.reserve(n)
    }

    /// For how many new nodes or places there is memory.
    pub fn spare(&self) -> u32
        ensures { result ≡ self.now.spare }
    {
        self.links.spare()
    }

    pub fn nodes(&self) -> usize
        ensures count { result ≡ length self.now.forest.nodes }
        ensures few { result ≤ 2 ^ 22 }
    {
        self.links.nodes()
    }

    pub fn places(&self) -> usize
        ensures count { result ≡ length self.now.forest.places }
        ensures few { result ≤ 2 ^ 26 }
        ensures root { 0 < result }
    {
        self.links.places()
    }

    pub fn slots(&self) -> usize
        ensures count { result ≡ length self.now.forest.slots }
        ensures few { result ≤ 4 * length self.now.forest.nodes }
    {
        self.links.slots()
    }

    /// Takes away all but the first nodes, slots and places, which hold none of the others.
    pub fn cut(&mut self, nodes: usize, slots: usize, places: usize, spare: u32)
        requires lawful { IsLawful (front_forest nodes slots places self.old.forest) }
        requires few { HasFewSlots (front_forest nodes slots places self.old.forest) }
        requires spare { spare ≤ self.old.spare }
        ensures after { self.new ≡ linked_of (front_forest nodes slots places self.old.forest) spare }
        ensures spare { self.new.spare ≡ spare }
    {
        self.links.cut(nodes, slots, places, spare);
    }

    /// The laws of the forest, for proofs.
    pub fn laws(&self)
        ensures { IsLawful self.now.forest }
    {
        let _links = &self.links;
    }

    #[tactic(auto, using(crate::proofs::Told::node_row, crate::proofs::Told::kind_told))]
    pub fn kind(&self, node: u32) -> Kind
        requires at { node < length self.now.forest.nodes }
        ensures { result ≡ kind_at self.now.forest node }
    {
        self.links.node(node).kind
    }

    #[tactic(auto, using(crate::proofs::Told::node_row, crate::proofs::Told::place_told))]
    pub fn place_of(&self, node: u32) -> Option<u32>
        requires at { node < length self.now.forest.nodes }
        ensures place { result ≡ place_at self.now.forest node }
        ensures within { IfSome result (λ p. p < length self.now.forest.places) }
    {
        self.links.node(node).at
    }

    #[tactic(auto, using(crate::proofs::Methods::at_row, crate::proofs::Told::node_read))]
    pub fn node_at(&self, place: u32) -> Option<u32>
        requires at { place < length self.now.forest.places }
        ensures node { result ≡ node_at self.now.forest place }
        ensures within { IfSome result (λ j. j < length self.now.forest.nodes) }
    {
        self.links.place(place).node
    }

    /// The node that has the place.
    #[tactic(auto, using(crate::proofs::Methods::at_row, crate::proofs::Methods::owner_row, crate::proofs::Told::owner_none, crate::proofs::Told::owner_some, crate::proofs::Told::owner_within))]
    pub fn owner(&self, place: u32) -> Option<u32>
        requires at { place < length self.now.forest.places }
        ensures node { result ≡ owner_at self.now.forest place }
        ensures within { IfSome result (λ j. j < length self.now.forest.nodes) }
    {
        let row = self.links.place(place);
        match row.owner {
            None => None,
            Some(slot) => Some(self.links.slot(slot).node),
        }
    }

    /// The number of the place's slot among those of its node.
    #[tactic(auto, using(crate::proofs::Methods::at_row, crate::proofs::Methods::owner_row, crate::proofs::Told::index_none, crate::proofs::Told::index_some))]
    pub fn slot_of(&self, place: u32) -> Option<u8>
        requires at { place < length self.now.forest.places }
        ensures { result ≡ index_at self.now.forest place }
    {
        let row = self.links.place(place);
        match row.owner {
            None => None,
            Some(slot) => Some(self.links.slot(slot).index),
        }
    }

    /// The next place of the slot.
    #[tactic(auto, using(crate::proofs::Methods::at_row, crate::proofs::Told::next_none, crate::proofs::Told::next_some))]
    pub fn next(&self, place: u32) -> Option<u32>
        requires at { place < length self.now.forest.places }
        ensures place { result ≡ next_at self.now.forest place }
        ensures within { IfSome result (λ p. p < length self.now.forest.places) }
    {
        let row = self.links.place(place);
        match row.owner {
            None => None,
            Some(_) => row.next,
        }
    }

    /// The place before it in the slot.
    #[tactic(auto, using(crate::proofs::Methods::at_row, crate::proofs::Told::prev_none, crate::proofs::Told::prev_some))]
    pub fn prev(&self, place: u32) -> Option<u32>
        requires at { place < length self.now.forest.places }
        ensures place { result ≡ prev_at self.now.forest place }
        ensures within { IfSome result (λ p. p < length self.now.forest.places) }
    {
        let row = self.links.place(place);
        match row.owner {
            None => None,
            Some(_) => row.prev,
        }
    }

    /// Where a place is.
    #[tactic(auto, using(crate::proofs::Methods::at_row, crate::proofs::Methods::owner_row, crate::proofs::Told::state_none, crate::proofs::Told::state_some))]
    pub fn state(&self, place: u32) -> PlaceState
        requires at { place < length self.now.forest.places }
        ensures { result ≡ state_at self.now.forest place }
    {
        let row = self.links.place(place);
        match row.owner {
            None => {
                if place == 0 {
                    PlaceState::Root
                } else {
                    PlaceState::Out
                }
            }
            Some(slot) => {
                if self.links.slot(slot).list {
                    PlaceState::Listed
                } else {
                    PlaceState::Single
                }
            }
        }
    }

    /// The first place of a node's slot.
    #[tactic(auto, using(crate::proofs::Told::node_row, crate::proofs::Told::first_past, crate::proofs::Told::first_other))]
    pub fn slot_first(&self, node: u32, slot: u8) -> Option<u32>
        requires at { node < length self.now.forest.nodes }
        ensures place { result ≡ first_at self.now.forest node slot }
        ensures within { IfSome result (λ p. p < length self.now.forest.places) }
    {
        let row = self.links.node(node);
        let number = row.base as usize + slot as usize;
        if number >= self.links.slots() {
            return None;
        }
        // The slots of a node are neighbours, so behind its last one stands another node's.
        let found = self.links.slot(number as u32);
        if found.node != node {
            return None;
        }
        found.first
    }

    /// The number of a list slot of a node.
    #[tactic(auto, using(crate::proofs::Told::node_row, crate::proofs::Told::base_told))]
    pub fn list_slot(&self, node: u32, slot: u8) -> u32
        requires at { node < length self.now.forest.nodes }
        requires list { is_list_at (kind_at self.now.forest node) slot ≡ true }
        ensures number { result ≡ base_at self.now.forest node + slot }
        ensures list { IsListSlot self.now.forest result }
    {
        self.links.node(node).base + slot as u32
    }
}

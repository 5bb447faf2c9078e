//! Copies of nodes with all that they hold, as new rows behind the others. After a refusal the rows
//! that were made are taken away again.

ghost use Rattle.std.specs.Prelude.{◌≡◌, ◌≢◌, ◌+◌, ◌<◌, ◌≤◌, true, None, Some, Err, All, length, IfOk, IfSome, OnOk, OnErr};
ghost use Rattle.type_defs.specs.Fields.{is_list_at};
ghost use Rattle.node_arena.specs.Forest.{IsRoot};
ghost use Rattle.node_arena.specs.Fronts.{Grows, IsCopied, IsFront, IsGrown, IsLastIn, IsLonger, IsNewRoot, IsRootBehind, MayGoBefore, front};
ghost use Rattle.node_arena.specs.Reads.{base_at, kind_at};
ghost use Rattle.node_arena.specs.Store.{copied_in, reserved};

use crate::arena::{Arena, MAX_NODES, MAX_PLACES, singles};
use crate::ids::{NodeId, PlaceId};
use crate::preorder::MAX_SLOTS;
use crate::state::ArenaFault;
use crate::steps::Steps;
use sqlite_items::Items;
use std::marker::Brand;
use std::sync::ledger::{Blank, Ledger};
use type_defs::{is_list, scalar_count};

/// New roots, in order.
pub type Copies = Items<NodeId>;

/// How many rows of each sort there were, and for how many more there was memory.
#[derive(Clone, Copy)]
pub struct Mark {
    pub nodes: usize,
    pub slots: usize,
    pub scalars: usize,
    pub places: usize,
    pub spare: u32,
}

impl Arena {
    #[tactic(auto, using(crate::proofs::Behind::front_all, crate::proofs::Behind::front_is))]
    fn mark(&self) -> Mark
        ensures front { front result self.now ≡ self.now }
        ensures whole { IsFront result self.now }
        ensures spare { result.spare ≡ self.now.spare }
    {
        self.forest.laws();
        Mark {
            nodes: self.forest.nodes(),
            slots: self.forest.slots(),
            scalars: self.payload.scalars(),
            places: self.forest.places(),
            spare: self.forest.spare(),
        }
    }

    /// Takes away all rows behind a mark.
    #[tactic(auto, using(crate::proofs::Behind::store_front))]
    fn back_to(&mut self, mark: Mark)
        requires front { IsFront mark (front mark self.old) }
        requires spare { mark.spare ≤ self.old.spare }
        ensures { self.new ≡ front mark self.old }
    {
        self.forest
            .cut(mark.nodes, mark.slots, mark.places, mark.spare);
        self.payload.cut(mark.nodes, mark.scalars, mark.places);
    }

    /// A copy of a node without what it holds, a root. The memory that the mark tells is left.
    #[tactic(auto, using(crate::proofs::Stores::places_made, crate::proofs::Stores::store_copied, crate::proofs::Stores::scalars_within, crate::proofs::Stores::few_scalars))]
    fn copy_row(&mut self, node: NodeId, mark: Mark) -> Result<NodeId, ArenaFault>
        requires at { node < length self.old.forest.nodes }
        requires spare { mark.spare ≤ self.old.spare }
        ensures number { IfOk result (λ j. j ≡ length self.old.forest.nodes) }
        ensures ok { OnOk result (self.new ≡ copied_in self.old node) }
        ensures err { OnErr result (self.new ≡ self.old) }
        ensures apart { IfOk result (λ j. MayGoBefore self.new.forest (length self.old.forest.places) j) }
        ensures spare { mark.spare ≤ self.new.spare }
    {
        let kind = self.forest.kind(node.number());
        let places = singles(kind);
        if self.forest.nodes() >= MAX_NODES {
            return Err(ArenaFault::Full);
        }
        if self.forest.places() + places > MAX_PLACES {
            return Err(ArenaFault::Full);
        }
        if self.forest.spare() <= mark.spare {
            return Err(ArenaFault::NoMemory);
        }
        match self
            .payload
            .copy_node(node.number(), scalar_count(kind), places)
        {
            Ok(()) => {}
            Err(_) => return Err(ArenaFault::NoMemory),
        }
        let copy = self.forest.make(kind);
        Ok(NodeId::numbered(copy))
    }

    /// Gives a new place the name of another.
    #[tactic(auto, using(crate::proofs::Behind::front_name))]
    fn copy_name(&mut self, from: PlaceId, to: PlaceId, mark: Mark)
        requires from { from < length self.old.forest.places }
        requires to { to < length self.old.forest.places }
        ensures forest { self.new.forest ≡ self.old.forest }
        ensures front { front mark self.new ≡ front mark self.old }
        ensures spare { self.new.spare ≡ self.old.spare }
    {
        if to.number() as usize >= mark.places {
            if let Some(name) = self.name_of(from) {
                self.set_name(to, name);
            }
        }
    }

    /// A new place at the end of a new node's list.
    #[tactic(auto, using(crate::proofs::Behind::front_first, crate::proofs::Behind::front_after, crate::proofs::Behind::longer_first, crate::proofs::Behind::longer_after))]
    fn push_place<L: Ledger>(
        &mut self,
        copy: NodeId,
        slot: u8,
        last: Option<PlaceId>,
        mark: Mark,
        steps: &mut Steps<L>,
    ) -> Result<PlaceId, ArenaFault>
        requires copy { copy < length self.old.forest.nodes }
        requires list { is_list_at (kind_at self.old.forest copy) slot ≡ true }
        requires new { mark.slots ≤ base_at self.old.forest copy }
        requires last { IsLastIn self.old.forest (base_at self.old.forest copy + slot) last }
        requires front { IsFront mark (front mark self.old) }
        requires spare { mark.spare ≤ self.old.spare }
        ensures ok { IfOk result (λ p. IsLonger self.old.forest self.new.forest (base_at self.old.forest copy + slot) p) }
        ensures front { front mark self.new ≡ front mark self.old }
        ensures spare { mark.spare ≤ self.new.spare }
    {
        if self.spare() <= mark.spare {
            return Err(ArenaFault::NoMemory);
        }
        let _list = self.forest.list_slot(copy.number(), slot);
        let Some(last) = last else {
            return self.insert_first(copy, slot, None, steps);
        };
        self.insert_after(last, None, steps)
    }

    /// Gives a new node's list as many places as a list of another has, from its first on, with
    /// their names.
    #[tactic(auto, using(crate::proofs::Behind::front_kept))]
    fn copy_list<L: Ledger>(
        &mut self,
        first: Option<PlaceId>,
        copy: NodeId,
        slot: u8,
        mark: Mark,
        steps: &mut Steps<L>,
    ) -> Result<(), ArenaFault>
        requires first { IfSome first (λ p. p < length self.old.forest.places) }
        requires copy { copy < length self.old.forest.nodes }
        requires list { is_list_at (kind_at self.old.forest copy) slot ≡ true }
        requires new { mark.slots ≤ base_at self.old.forest copy }
        requires front { IsFront mark (front mark self.old) }
        requires spare { mark.spare ≤ self.old.spare }
        ensures nodes { OnOk result (self.new.forest.nodes ≡ self.old.forest.nodes) }
        ensures places { OnOk result (length self.old.forest.places ≤ length self.new.forest.places) }
        ensures front { front mark self.new ≡ front mark self.old }
        ensures spare { mark.spare ≤ self.new.spare }
    {
        let mut from = first;
        let mut last = None;
        for _turn in 0..self.places() {
            let Some(place) = from else {
                return Ok(());
            };
            let new = self.push_place(copy, slot, last, mark, steps)?;
            self.copy_name(place, new, mark);
            last = Some(new);
            from = self.next(place);
        }
        Ok(())
    }

    /// Gives a new node as many places as another has, with their names.
    #[tactic(auto, using(crate::proofs::Behind::front_kept))]
    fn copy_places<L: Ledger>(
        &mut self,
        node: NodeId,
        copy: NodeId,
        mark: Mark,
        steps: &mut Steps<L>,
    ) -> Result<(), ArenaFault>
        requires node { node < length self.old.forest.nodes }
        requires copy { copy < length self.old.forest.nodes }
        requires new { mark.slots ≤ base_at self.old.forest copy }
        requires front { IsFront mark (front mark self.old) }
        requires spare { mark.spare ≤ self.old.spare }
        ensures nodes { OnOk result (self.new.forest.nodes ≡ self.old.forest.nodes) }
        ensures places { OnOk result (length self.old.forest.places ≤ length self.new.forest.places) }
        ensures front { front mark self.new ≡ front mark self.old }
        ensures spare { mark.spare ≤ self.new.spare }
    {
        for slot in 0..MAX_SLOTS {
            self.copy_slot(node, copy, slot, mark, steps)?;
        }
        Ok(())
    }

    /// Gives a slot of a new node as many places as the slot of another has, with their names.
    #[tactic(auto, using(crate::proofs::Behind::front_kept))]
    fn copy_slot<L: Ledger>(
        &mut self,
        node: NodeId,
        copy: NodeId,
        slot: u8,
        mark: Mark,
        steps: &mut Steps<L>,
    ) -> Result<(), ArenaFault>
        requires node { node < length self.old.forest.nodes }
        requires copy { copy < length self.old.forest.nodes }
        requires new { mark.slots ≤ base_at self.old.forest copy }
        requires front { IsFront mark (front mark self.old) }
        requires spare { mark.spare ≤ self.old.spare }
        ensures nodes { OnOk result (self.new.forest.nodes ≡ self.old.forest.nodes) }
        ensures places { OnOk result (length self.old.forest.places ≤ length self.new.forest.places) }
        ensures front { front mark self.new ≡ front mark self.old }
        ensures spare { mark.spare ≤ self.new.spare }
    {
        let first = self.slot_first(node, slot);
        if is_list(self.kind(copy), slot) {
            return self.copy_list(first, copy, slot, mark, steps);
        }
        let Some(from) = first else {
            return Ok(());
        };
        let Some(to) = self.slot_first(copy, slot) else {
            return Ok(());
        };
        self.copy_name(from, to, mark);
        Ok(())
    }

    /// A copy of a node without what it holds, put into a new place if one is given.
    #[tactic(auto, using(crate::proofs::Behind::front_row, crate::proofs::Behind::front_put, crate::proofs::Roots::copied_row, crate::proofs::Roots::copied_put, crate::proofs::Roots::base_row, crate::proofs::Roots::base_put, crate::proofs::Roots::root_new))]
    fn copy_row_into<L: Ledger>(
        &mut self,
        node: NodeId,
        to: Option<PlaceId>,
        mark: Mark,
        steps: &mut Steps<L>,
    ) -> Result<NodeId, ArenaFault>
        requires node { node < length self.old.forest.nodes }
        requires to { IfSome to (λ p. p < length self.old.forest.places) }
        requires front { IsFront mark (front mark self.old) }
        requires spare { mark.spare ≤ self.old.spare }
        ensures ok { IfOk result (λ j. IsCopied self.old self.new j) }
        ensures base { IfOk result (λ j. mark.slots ≤ base_at self.new.forest j) }
        ensures root { to ≡ None → IfOk result (λ j. IsRoot self.new.forest j) }
        ensures front { front mark self.new ≡ front mark self.old }
        ensures spare { mark.spare ≤ self.new.spare }
    {
        let copy = self.copy_row(node, mark)?;
        let Some(to) = to else {
            return Ok(copy);
        };
        // The walk gives new places alone, each before a node comes into it.
        if (to.number() as usize) < mark.places {
            return Err(ArenaFault::NoMemory);
        }
        match self.node_at(to) {
            None => {}
            Some(_) => return Err(ArenaFault::NoMemory),
        }
        self.put(to, copy, steps);
        Ok(copy)
    }

    /// A copy of a node with its places, which are empty, put into a new place if one is given.
    #[tactic(auto, using(crate::proofs::Behind::front_kept, crate::proofs::Roots::copied_places, crate::proofs::Roots::root_same))]
    fn copy_into<L: Ledger>(
        &mut self,
        node: NodeId,
        to: Option<PlaceId>,
        mark: Mark,
        steps: &mut Steps<L>,
    ) -> Result<NodeId, ArenaFault>
        requires node { node < length self.old.forest.nodes }
        requires to { IfSome to (λ p. p < length self.old.forest.places) }
        requires front { IsFront mark (front mark self.old) }
        requires spare { mark.spare ≤ self.old.spare }
        ensures ok { IfOk result (λ j. IsCopied self.old self.new j) }
        ensures root { to ≡ None → IfOk result (λ j. IsRoot self.new.forest j) }
        ensures front { front mark self.new ≡ front mark self.old }
        ensures spare { mark.spare ≤ self.new.spare }
    {
        let copy = self.copy_row_into(node, to, mark, steps)?;
        self.copy_places(node, copy, mark, steps)?;
        Ok(copy)
    }

    /// A copy of what stands in a place comes into a new one.
    #[tactic(auto, using(crate::proofs::Copying::grown_copy, crate::proofs::Copying::grown_same))]
    fn copy_child<L: Ledger>(
        &mut self,
        place: PlaceId,
        new: PlaceId,
        mark: Mark,
        steps: &mut Steps<L>,
    ) -> Result<(), ArenaFault>
        requires place { place < length self.old.forest.places }
        requires new { new < length self.old.forest.places }
        requires front { IsFront mark (front mark self.old) }
        requires spare { mark.spare ≤ self.old.spare }
        ensures grown { OnOk result (IsGrown self.old self.new) }
        ensures front { front mark self.new ≡ front mark self.old }
        ensures spare { mark.spare ≤ self.new.spare }
    {
        let Some(child) = self.node_at(place) else {
            return Ok(());
        };
        match self.copy_into(child, Some(new), mark, steps) {
            Ok(_) => Ok(()),
            Err(fault) => Err(fault),
        }
    }

    /// A copy of a node with all that it holds, as new rows.
    #[tactic(auto, using(crate::proofs::Behind::front_kept, crate::proofs::Copying::copied_grown, crate::proofs::Copying::root_grown))]
    fn copy_below<L: Ledger>(
        &mut self,
        node: NodeId,
        mark: Mark,
        steps: &mut Steps<L>,
    ) -> Result<NodeId, ArenaFault>
        requires node { node < length self.old.forest.nodes }
        requires front { IsFront mark (front mark self.old) }
        requires spare { mark.spare ≤ self.old.spare }
        ensures ok { IfOk result (λ j. IsCopied self.old self.new j) }
        ensures root { IfOk result (λ j. IsRoot self.new.forest j) }
        ensures front { front mark self.new ≡ front mark self.old }
        ensures spare { mark.spare ≤ self.new.spare }
    {
        let copy = self.copy_into(node, None, mark, steps)?;
        let mut from = self.first_place(node, 0);
        let mut to = self.first_place(copy, 0);
        for _turn in 0..self.places() {
            let Some(place) = from else {
                return Ok(copy);
            };
            let Some(new) = to else {
                return Ok(copy);
            };
            self.copy_child(place, new, mark, steps)?;
            from = self.place_below(place, node);
            to = self.place_below(new, copy);
        }
        Ok(copy)
    }

    /// Copies of nodes with all that they hold, in order.
    #[tactic(auto, using(crate::proofs::Behind::front_kept, crate::proofs::Roots::roots_pushed))]
    fn copy_each<L: Ledger>(
        &mut self,
        nodes: &[NodeId],
        mark: Mark,
        blank: Blank,
    ) -> Result<Copies, ArenaFault>
        requires name { blank.name ≡ L.name }
        requires parts { blank.parts ≡ L.parts }
        requires some { 0 < blank.parts }
        requires nodes { All (λ j. j < length self.old.forest.nodes) nodes.now }
        requires front { IsFront mark (front mark self.old) }
        requires spare { mark.spare ≤ self.old.spare }
        ensures front { front mark self.new ≡ front mark self.old }
        ensures spare { mark.spare ≤ self.new.spare }
        ensures roots { IfOk result (λ copies. All (λ j. IsRootBehind mark self.new.forest j) copies) }
        ensures count { IfOk result (λ copies. length copies ≡ length nodes.now) }
    {
        let mut steps = Steps::<L>::new(blank);
        let mut copies = Items::new(self.payload.alloc());
        for at in 0..nodes.len() {
            let node = nodes[at];
            let copy = self.copy_below(node, mark, &mut steps)?;
            match copies.push(copy) {
                Ok(()) => {}
                Err(_) => return Err(ArenaFault::NoMemory),
            }
        }
        Ok(copies)
    }

    /// For how many new nodes and places in lists copies of these nodes take memory.
    fn room_for(&self, nodes: &[NodeId]) -> Result<u32, ArenaFault>
        requires nodes { All (λ j. j < length self.now.forest.nodes) nodes.now }
        ensures { OnErr result (result ≡ Err ArenaFault.Full) }
    {
        let mut most_nodes = self.forest.nodes();
        let mut most_places = self.forest.places();
        let mut room = 0;
        for at in 0..nodes.len() {
            let node = nodes[at];
            let size = self.size(node);
            most_nodes += size.nodes as usize;
            most_places += size.places as usize;
            if most_nodes > MAX_NODES || most_places > MAX_PLACES {
                return Err(ArenaFault::Full);
            }
            room += size.nodes + size.listed;
        }
        Ok(room)
    }

    /// Takes memory for copies of these nodes beside what is promised.
    #[tactic(auto, using(crate::proofs::Copying::reserved_so))]
    fn reserve_for(&mut self, nodes: &[NodeId]) -> Result<(), ArenaFault>
        requires nodes { All (λ j. j < length self.old.forest.nodes) nodes.now }
        ensures ok { OnOk result (self.new ≡ reserved self.old self.new.spare) }
        ensures spare { self.old.spare ≤ self.new.spare }
        ensures err { OnErr result (self.new ≡ self.old) }
        ensures listed { result ≢ Err ArenaFault.NotInList }
    {
        let room = self.room_for(nodes)?;
        let spare = self.spare();
        self.reserve(spare.saturating_add(room))
    }

    /// Copies of nodes with all that they hold, as new roots in order, all or none. Their numbers
    /// follow those that were there, in preorder; places of a node follow each other, single ones
    /// first. A copy keeps the numbers of the source and the names of places.
    #[tactic(auto, using(crate::proofs::Behind::front_kept, crate::proofs::Behind::front_reserved, crate::proofs::Behind::grows_front, crate::proofs::Behind::all_new_roots))]
    pub fn copy_all(&mut self, nodes: &[NodeId]) -> Result<Copies, ArenaFault>
        requires nodes { All (λ j. j < length self.old.forest.nodes) nodes.now }
        ensures ok { OnOk result (Grows self.old self.new) }
        ensures roots { IfOk result (λ copies. All (λ j. IsNewRoot self.new.forest (length self.old.forest.nodes) (length self.old.forest.places) j) copies) }
        ensures count { IfOk result (λ copies. length copies ≡ length nodes.now) }
        ensures err { OnErr result (self.new ≡ self.old) }
        ensures listed { result ≢ Err ArenaFault.NotInList }
        ensures spare { self.old.spare ≤ self.new.spare }
    {
        let mark = self.mark();
        self.reserve_for(nodes)?;
        match self.copy_each::<Brand>(nodes, mark, Blank::new(1)) {
            Ok(copies) => {
                self.forest.laws();
                Ok(copies)
            }
            Err(_) => {
                self.back_to(mark);
                Err(ArenaFault::NoMemory)
            }
        }
    }

    /// A copy of one node, with a count of its own.
    fn copy_one<L: Ledger>(
        &mut self,
        node: NodeId,
        mark: Mark,
        blank: Blank,
    ) -> Result<NodeId, ArenaFault>
        requires name { blank.name ≡ L.name }
        requires parts { blank.parts ≡ L.parts }
        requires some { 0 < blank.parts }
        requires node { node < length self.old.forest.nodes }
        requires front { IsFront mark (front mark self.old) }
        requires spare { mark.spare ≤ self.old.spare }
        ensures front { front mark self.new ≡ front mark self.old }
        ensures spare { mark.spare ≤ self.new.spare }
        ensures ok { IfOk result (λ j. IsCopied self.old self.new j) }
        ensures root { IfOk result (λ j. IsRoot self.new.forest j) }
    {
        let mut steps = Steps::<L>::new(blank);
        self.copy_below(node, mark, &mut steps)
    }

    /// A copy of a node with all that it holds, as a new root. The numbers of its nodes and places
    /// are those of `copy_all`.
    #[tactic(auto, using(crate::proofs::Behind::front_kept, crate::proofs::Behind::front_reserved, crate::proofs::Behind::grows_front, crate::proofs::Behind::new_roots))]
    pub fn copy(&mut self, node: NodeId) -> Result<NodeId, ArenaFault>
        requires at { node < length self.old.forest.nodes }
        ensures number { IfOk result (λ j. j ≡ length self.old.forest.nodes) }
        ensures ok { OnOk result (Grows self.old self.new) }
        ensures root { IfOk result (λ j. IsNewRoot self.new.forest (length self.old.forest.nodes) (length self.old.forest.places) j) }
        ensures err { OnErr result (self.new ≡ self.old) }
        ensures listed { result ≢ Err ArenaFault.NotInList }
        ensures spare { self.old.spare ≤ self.new.spare }
    {
        let mark = self.mark();
        self.reserve_for(&[node])?;
        match self.copy_one::<Brand>(node, mark, Blank::new(1)) {
            Ok(copy) => {
                self.forest.laws();
                Ok(copy)
            }
            Err(_) => {
                self.back_to(mark);
                Err(ArenaFault::NoMemory)
            }
        }
    }
}

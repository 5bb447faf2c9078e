//! The arena: a forest of nodes and places, with what they say.

ghost use Rattle.std.specs.Prelude.{◌≡◌, ◌≢◌, ◌<◌, ◌≤◌, ◌+◌, ◌^◌, ◌↔◌, Some, None, Err, length, max, count_by, map, not, slice_get, true, IfOk, IfSome, IsErr, OnOk, OnErr};
ghost use Rattle.tree_core.specs.declared.scalars.Scalar.{Scalar as scalar};
ghost use Rattle.type_defs.specs.Fields.{is_list_at, lists_at, scalar_count as scalars_of};
ghost use Rattle.node_arena.specs.Lists.{is_list};
ghost use Rattle.node_arena.specs.Forest.{Joins, JoinsAt, MayGo, clear_of, insert_after_of, insert_before_of, insert_first_of, linked_of, list_at, node_at, put_of, unlink_of};
ghost use Rattle.node_arena.specs.Fronts.{MayGoBefore};
ghost use Rattle.node_arena.specs.Payload.{said_of};
ghost use Rattle.node_arena.specs.Reads.{base_at, first_at, index_at, kind_at, next_at, owner_at, place_at, prev_at, state_at};
ghost use Rattle.node_arena.specs.Store.{IsFullFor, changed, from_at, inner_at, lead_at, make_in, name_at, placed, reserved, scalar_at, single_count, start_store, trail_at, with_comments, with_name, with_scalar, with_source};

use crate::forest::LinkedForest;
use crate::ids::{NodeId, PlaceId, node_id, node_number, place_id};
use crate::payload::Payload;
use crate::state::{ArenaFault, PlaceState};
use crate::steps::Steps;
use std::alloc::Global;
use std::marker::Model;
use std::sync::ledger::Ledger;
use tree_core::{Comments, PlaceName, Scalar};
use type_defs::{FieldDef, Kind, scalar_count, slots};

/// The most nodes of an arena.
pub const MAX_NODES: usize = 4194304;

/// The most places of an arena.
pub const MAX_PLACES: usize = 67108864;

/// Nodes and places by index. A node has slots with places, and stands in at most one place; no
/// node is held by itself. Ids are numbers from 0 in the order in which nodes and places are made.
#[derive(Drop)]
pub struct Arena {
    pub(crate) forest: LinkedForest,
    pub(crate) payload: Payload,
}

impl Model for Arena {
    ghost use Rattle.node_arena.specs.Store.{Store, store_of, IsStore};

    ghost Value = { Store };

    ghost view = { λ a. store_of a.forest a.payload };

    ghost invariant = { λ a. IsStore a.forest a.payload };
}

fn count_singles(fields: &[FieldDef]) -> usize
    ensures { result ≡ count_by not (map is_list fields.now) }
{
    fields.iter().filter(|field| !field.1.list).count()
}

/// How many places a new node of the kind has.
pub(crate) fn singles(kind: Kind) -> usize
    ensures count { result ≡ single_count kind }
    ensures few { result ≤ 4 }
{
    count_singles(slots(kind))
}

/// Takes memory for so many new nodes or places.
fn room(forest: &mut LinkedForest, payload: &mut Payload, n: u32) -> Result<(), ArenaFault>
    requires { forest.old.spare ≤ payload.old.spare }
    ensures ok { OnOk result (forest.new ≡ linked_of forest.old.forest (max forest.old.spare n)) }
    ensures err { OnErr result (forest.new ≡ forest.old) }
    ensures said { payload.new ≡ said_of payload.old.facts payload.old.scalars payload.old.names payload.new.spare }
    ensures spare { forest.new.spare ≤ payload.new.spare }
    ensures memory { OnErr result (result ≡ Err ArenaFault.NoMemory) }
    ensures succeeds { OnErr result (forest.old.spare < n) }
{
    match payload.reserve(n) {
        Ok(()) => {}
        Err(_) => return Err(ArenaFault::NoMemory),
    }
    match forest.reserve(n) {
        Ok(()) => Ok(()),
        Err(_) => Err(ArenaFault::NoMemory),
    }
}

impl Arena {
    /// The empty root place alone.
    pub fn new(alloc: Global) -> Result<Arena, ArenaFault>
        ensures ok { IfOk result (λ a. a ≡ start_store) }
        ensures err { OnErr result (result ≡ Err ArenaFault.NoMemory) }
    {
        let forest = match LinkedForest::new(alloc) {
            Ok(forest) => forest,
            Err(_) => return Err(ArenaFault::NoMemory),
        };
        let payload = match Payload::new(alloc) {
            Ok(payload) => payload,
            Err(_) => return Err(ArenaFault::NoMemory),
        };
        Ok(Arena { forest, payload })
    }

    /// Takes memory for `n` calls of `make` or the inserts, together.
    pub fn reserve(&mut self, n: u32) -> Result<(), ArenaFault>
        ensures ok { OnOk result (self.new ≡ reserved self.old (max self.old.spare n)) }
        ensures err { OnErr result (self.new ≡ self.old) }
        ensures memory { OnErr result (result ≡ Err ArenaFault.NoMemory) }
        ensures succeeds { OnErr result (self.old.spare < n) }
    {
        room(&mut self.forest, &mut self.payload, n)
    }

    /// A new node of a kind, a root: its lists are empty, its other places too, its scalars null.
    /// It may go into each place that was there before.
    #[tactic(auto, using(crate::proofs::Stores::places_made))]
    pub fn make(&mut self, kind: Kind) -> Result<NodeId, ArenaFault>
        ensures number { IfOk result (λ j. j ≡ length self.old.forest.nodes) }
        ensures ok { OnOk result (self.new ≡ make_in self.old kind) }
        ensures err { OnErr result (self.new ≡ self.old) }
        ensures full { result ≡ Err ArenaFault.Full ↔ IsFullFor self.old kind }
        ensures list { result ≢ Err ArenaFault.NotInList }
        ensures memory { result ≡ Err ArenaFault.NoMemory → self.old.spare ≡ 0 }
        ensures apart { IfOk result (λ j. MayGoBefore self.new.forest (length self.old.forest.places) j) }
    {
        let places = singles(kind);
        if self.forest.nodes() >= MAX_NODES {
            return Err(ArenaFault::Full);
        }
        if self.forest.places() + places > MAX_PLACES {
            return Err(ArenaFault::Full);
        }
        match room(&mut self.forest, &mut self.payload, 1) {
            Ok(()) => {}
            Err(_) => return Err(ArenaFault::NoMemory),
        }
        let node = self.forest.make(kind);
        self.payload.make(scalar_count(kind), places);
        Ok(NodeId::numbered(node))
    }

    /// Puts a root into a place that it does not hold. What stood there is a root.
    pub fn put<L: Ledger>(&mut self, place: PlaceId, node: NodeId, steps: &mut Steps<L>)
        requires at { place < length self.old.forest.places }
        requires may { MayGo self.old.forest place node }
        ensures after { self.new ≡ changed self.old (put_of self.old.forest place node) }
        ensures steps { steps.new ≤ steps.old + 4 }
    {
        self.forest.put(place.number(), node.number(), steps);
    }

    /// Takes the node out of a place; it is told, and is a root.
    pub fn clear<L: Ledger>(&mut self, place: PlaceId, steps: &mut Steps<L>) -> Option<NodeId>
        requires at { place < length self.old.forest.places }
        ensures node { result ≡ node_at self.old.forest place }
        ensures after { self.new ≡ changed self.old (clear_of self.old.forest place) }
        ensures steps { steps.new ≤ steps.old + 2 }
    {
        node_id(self.forest.clear(place.number(), steps))
    }

    /// A new first place of a list slot of a node, with a root or without.
    pub fn insert_first<L: Ledger>(
        &mut self,
        owner: NodeId,
        slot: u8,
        node: Option<NodeId>,
        steps: &mut Steps<L>,
    ) -> Result<PlaceId, ArenaFault>
        requires at { owner < length self.old.forest.nodes }
        requires list { is_list_at (kind_at self.old.forest owner) slot ≡ true }
        requires joins { Joins self.old.forest (base_at self.old.forest owner + slot) node }
        ensures number { IfOk result (λ p. p ≡ length self.old.forest.places) }
        ensures ok { OnOk result (self.new ≡ placed self.old (insert_first_of self.old.forest (base_at self.old.forest owner + slot) node)) }
        ensures err { OnErr result (self.new ≡ self.old) }
        ensures listed { result ≢ Err ArenaFault.NotInList }
        ensures full { result ≡ Err ArenaFault.Full ↔ 2 ^ 26 ≤ length self.old.forest.places }
        ensures memory { result ≡ Err ArenaFault.NoMemory → self.old.spare ≡ 0 }
        ensures steps { steps.new ≤ steps.old + 4 }
    {
        if self.forest.places() >= MAX_PLACES {
            return Err(ArenaFault::Full);
        }
        let list = self.forest.list_slot(owner.number(), slot);
        match room(&mut self.forest, &mut self.payload, 1) {
            Ok(()) => {}
            Err(_) => return Err(ArenaFault::NoMemory),
        }
        let new = self.forest.insert_first(list, node_number(node), steps);
        self.payload.push_place();
        Ok(PlaceId::numbered(new))
    }

    /// A new place before a place of a list, with a root or without.
    pub fn insert_before<L: Ledger>(
        &mut self,
        place: PlaceId,
        node: Option<NodeId>,
        steps: &mut Steps<L>,
    ) -> Result<PlaceId, ArenaFault>
        requires at { place < length self.old.forest.places }
        requires joins { JoinsAt self.old.forest (list_at self.old.forest place) node }
        ensures number { IfOk result (λ p. p ≡ length self.old.forest.places) }
        ensures ok { OnOk result (self.new ≡ placed self.old (insert_before_of self.old.forest place node)) }
        ensures err { OnErr result (self.new ≡ self.old) }
        ensures listed { result ≡ Err ArenaFault.NotInList ↔ list_at self.old.forest place ≡ None }
        ensures full { result ≡ Err ArenaFault.Full ↔ (list_at self.old.forest place ≢ None) × (2 ^ 26 ≤ length self.old.forest.places) }
        ensures memory { result ≡ Err ArenaFault.NoMemory → self.old.spare ≡ 0 }
        ensures steps { steps.new ≤ steps.old + 4 }
    {
        let Some(list) = self.forest.list_at(place.number()) else {
            return Err(ArenaFault::NotInList);
        };
        if self.forest.places() >= MAX_PLACES {
            return Err(ArenaFault::Full);
        }
        match room(&mut self.forest, &mut self.payload, 1) {
            Ok(()) => {}
            Err(_) => return Err(ArenaFault::NoMemory),
        }
        let new = self
            .forest
            .insert_before(list, place.number(), node_number(node), steps);
        self.payload.push_place();
        Ok(PlaceId::numbered(new))
    }

    /// A new place after a place of a list, with a root or without.
    pub fn insert_after<L: Ledger>(
        &mut self,
        place: PlaceId,
        node: Option<NodeId>,
        steps: &mut Steps<L>,
    ) -> Result<PlaceId, ArenaFault>
        requires at { place < length self.old.forest.places }
        requires joins { JoinsAt self.old.forest (list_at self.old.forest place) node }
        ensures number { IfOk result (λ p. p ≡ length self.old.forest.places) }
        ensures ok { OnOk result (self.new ≡ placed self.old (insert_after_of self.old.forest place node)) }
        ensures err { OnErr result (self.new ≡ self.old) }
        ensures listed { result ≡ Err ArenaFault.NotInList ↔ list_at self.old.forest place ≡ None }
        ensures full { result ≡ Err ArenaFault.Full ↔ (list_at self.old.forest place ≢ None) × (2 ^ 26 ≤ length self.old.forest.places) }
        ensures memory { result ≡ Err ArenaFault.NoMemory → self.old.spare ≡ 0 }
        ensures steps { steps.new ≤ steps.old + 4 }
    {
        let Some(list) = self.forest.list_at(place.number()) else {
            return Err(ArenaFault::NotInList);
        };
        if self.forest.places() >= MAX_PLACES {
            return Err(ArenaFault::Full);
        }
        match room(&mut self.forest, &mut self.payload, 1) {
            Ok(()) => {}
            Err(_) => return Err(ArenaFault::NoMemory),
        }
        let new = self
            .forest
            .insert_after(list, place.number(), node_number(node), steps);
        self.payload.push_place();
        Ok(PlaceId::numbered(new))
    }

    /// Takes a place out of its list. It holds nothing then, and its node, which is told, is a root.
    pub fn unlink<L: Ledger>(
        &mut self,
        place: PlaceId,
        steps: &mut Steps<L>,
    ) -> Result<Option<NodeId>, ArenaFault>
        requires at { place < length self.old.forest.places }
        ensures node { IfOk result (λ o. o ≡ node_at self.old.forest place) }
        ensures ok { OnOk result (self.new ≡ changed self.old (unlink_of self.old.forest place)) }
        ensures err { OnErr result (self.new ≡ self.old) }
        ensures listed { result ≡ Err ArenaFault.NotInList ↔ list_at self.old.forest place ≡ None }
        ensures refused { OnErr result (result ≡ Err ArenaFault.NotInList) }
        ensures steps { steps.new ≤ steps.old + 7 }
    {
        let Some(list) = self.forest.list_at(place.number()) else {
            return Err(ArenaFault::NotInList);
        };
        Ok(node_id(self.forest.unlink(list, place.number(), steps)))
    }
    /// The root place, which is always there.
    pub fn root(&self) -> PlaceId
        ensures number { result ≡ 0 }
        ensures within { result < length self.now.forest.places }
    {
        let _places = self.forest.places();
        PlaceId::numbered(0)
    }

    /// How many nodes were made.
    pub fn nodes(&self) -> u32
        ensures count { result ≡ length self.now.forest.nodes }
        ensures few { result ≤ 2 ^ 22 }
    {
        self.forest.nodes() as u32
    }

    /// How many places were made.
    pub fn places(&self) -> u32
        ensures count { result ≡ length self.now.forest.places }
        ensures few { result ≤ 2 ^ 26 }
    {
        self.forest.places() as u32
    }

    /// For how many calls of `make` or the inserts there is memory.
    pub fn spare(&self) -> u32
        ensures { result ≡ self.now.spare }
    {
        self.forest.spare()
    }

    /// The node that stands in a place.
    pub fn node_at(&self, place: PlaceId) -> Option<NodeId>
        requires at { place < length self.now.forest.places }
        ensures node { result ≡ node_at self.now.forest place }
        ensures within { IfSome result (λ j. j < length self.now.forest.nodes) }
    {
        node_id(self.forest.node_at(place.number()))
    }

    /// The place where a node stands.
    pub fn place_of(&self, node: NodeId) -> Option<PlaceId>
        requires at { node < length self.now.forest.nodes }
        ensures place { result ≡ place_at self.now.forest node }
        ensures within { IfSome result (λ p. p < length self.now.forest.places) }
    {
        place_id(self.forest.place_of(node.number()))
    }

    /// The node that has a place.
    pub fn owner(&self, place: PlaceId) -> Option<NodeId>
        requires at { place < length self.now.forest.places }
        ensures node { result ≡ owner_at self.now.forest place }
        ensures within { IfSome result (λ j. j < length self.now.forest.nodes) }
    {
        node_id(self.forest.owner(place.number()))
    }

    /// The first place of a node's slot, if the node has the slot and the slot a place.
    pub fn slot_first(&self, node: NodeId, slot: u8) -> Option<PlaceId>
        requires at { node < length self.now.forest.nodes }
        ensures place { result ≡ first_at self.now.forest node slot }
        ensures within { IfSome result (λ p. p < length self.now.forest.places) }
    {
        place_id(self.forest.slot_first(node.number(), slot))
    }

    /// The next place of the list.
    pub fn next(&self, place: PlaceId) -> Option<PlaceId>
        requires at { place < length self.now.forest.places }
        ensures place { result ≡ next_at self.now.forest place }
        ensures within { IfSome result (λ p. p < length self.now.forest.places) }
    {
        place_id(self.forest.next(place.number()))
    }

    /// The place before it in the list.
    pub fn prev(&self, place: PlaceId) -> Option<PlaceId>
        requires at { place < length self.now.forest.places }
        ensures place { result ≡ prev_at self.now.forest place }
        ensures within { IfSome result (λ p. p < length self.now.forest.places) }
    {
        place_id(self.forest.prev(place.number()))
    }

    /// Where a place is.
    pub fn state(&self, place: PlaceId) -> PlaceState
        requires at { place < length self.now.forest.places }
        ensures { result ≡ state_at self.now.forest place }
    {
        self.forest.state(place.number())
    }

    /// The number of the place's slot among those of its node. A place that is root or out has none.
    pub fn slot_of(&self, place: PlaceId) -> Option<u8>
        requires at { place < length self.now.forest.places }
        ensures { result ≡ index_at self.now.forest place }
    {
        self.forest.slot_of(place.number())
    }

    /// The kind of a node.
    pub fn kind(&self, node: NodeId) -> Kind
        requires at { node < length self.now.forest.nodes }
        ensures { result ≡ kind_at self.now.forest node }
    {
        self.forest.kind(node.number())
    }

    /// A scalar of a node, by its number among the node's.
    pub fn scalar(&self, node: NodeId, index: u8) -> &Scalar
        requires at { node < length self.now.forest.nodes }
        requires index { index < scalars_of (kind_at self.now.forest node) }
        ensures { slice_get self.now.scalars (scalar_at self.now node index) ≡ Some result.now }
    {
        let _few = self.forest.nodes();
        self.payload.scalar(node.number(), index)
    }

    /// The comments before a node.
    pub fn lead(&self, node: NodeId) -> &Comments
        requires at { node < length self.now.forest.nodes }
        ensures { result.now ≡ lead_at self.now node }
    {
        self.payload.lead(node.number())
    }

    /// The comments after a node.
    pub fn trail(&self, node: NodeId) -> &Comments
        requires at { node < length self.now.forest.nodes }
        ensures { result.now ≡ trail_at self.now node }
    {
        self.payload.trail(node.number())
    }

    /// The comments inside a node that stand beside no child.
    pub fn inner(&self, node: NodeId) -> &Comments
        requires at { node < length self.now.forest.nodes }
        ensures { result.now ≡ inner_at self.now node }
    {
        self.payload.inner(node.number())
    }

    /// The number of the source's node that a node is or comes from.
    pub fn from_of(&self, node: NodeId) -> Option<u32>
        requires at { node < length self.now.forest.nodes }
        ensures { result ≡ from_at self.now node }
    {
        self.payload.from_of(node.number())
    }

    /// The name that a place of the source has.
    pub fn name_of(&self, place: PlaceId) -> Option<PlaceName>
        requires at { place < length self.now.forest.places }
        ensures { result ≡ name_at self.now place }
    {
        self.payload.name_of(place.number())
    }

    /// Another value of a node's scalar.
    pub fn set_scalar(&mut self, node: NodeId, index: u8, value: Scalar)
        requires at { node < length self.old.forest.nodes }
        requires index { index < scalars_of (kind_at self.old.forest node) }
        ensures { self.new ≡ with_scalar self.old node index value }
    {
        let _few = self.forest.nodes();
        self.payload.set_scalar(node.number(), index, value);
    }

    /// Other comments of a node.
    pub fn set_comments(&mut self, node: NodeId, lead: Comments, trail: Comments, inner: Comments)
        requires at { node < length self.old.forest.nodes }
        ensures { self.new ≡ with_comments self.old node lead trail inner }
    {
        self.payload.set_comments(node.number(), lead, trail, inner);
    }

    /// Gives a node the number of the source's node that it is.
    pub fn set_source(&mut self, node: NodeId, from: u32)
        requires at { node < length self.old.forest.nodes }
        ensures { self.new ≡ with_source self.old node from }
    {
        self.payload.set_source(node.number(), from);
    }

    /// Gives a place its name.
    pub fn set_name(&mut self, place: PlaceId, name: PlaceName)
        requires at { place < length self.old.forest.places }
        ensures { self.new ≡ with_name self.old place name }
    {
        self.payload.set_name(place.number(), name);
    }
}

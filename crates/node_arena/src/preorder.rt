//! Walks over what a node holds, and up from a place. They follow links and take no memory.

ghost use Rattle.std.specs.Prelude.{◌≡◌, ◌+◌, ◌<◌, ◌≤◌, ◌↔◌, None, false, length, IfSome, IsTrue};
ghost use Rattle.node_arena.specs.Climbs.{climbs};
ghost use Rattle.node_arena.specs.Forest.{Holds, IsRoot, MayGo};
ghost use Rattle.node_arena.specs.Reads.{place_at};

use crate::arena::Arena;
use crate::ids::{NodeId, PlaceId};
use crate::state::PlaceState;

/// The most slots of a node.
pub(crate) const MAX_SLOTS: u8 = 4;

/// How much a node is with all that it holds: its nodes, its places, and those of them in lists.
#[derive(Clone, Copy, Debug, PartialEq, Eq)]
pub struct Size {
    pub nodes: u32,
    pub places: u32,
    pub listed: u32,
}

impl Arena {
    /// The first place of a node in its slots from this one on.
    pub fn first_place(&self, node: NodeId, slot: u8) -> Option<PlaceId>
        requires at { node < length self.now.forest.nodes }
        ensures within { IfSome result (λ p. p < length self.now.forest.places) }
    {
        for index in slot..MAX_SLOTS {
            if let Some(first) = self.slot_first(node, index) {
                return Some(first);
            }
        }
        None
    }

    /// The place after a place among all places of its node.
    pub fn next_place(&self, place: PlaceId) -> Option<PlaceId>
        requires at { place < length self.now.forest.places }
        ensures within { IfSome result (λ p. p < length self.now.forest.places) }
    {
        if let Some(next) = self.next(place) {
            return Some(next);
        }
        let Some(owner) = self.owner(place) else {
            return None;
        };
        let Some(slot) = self.slot_of(place) else {
            return None;
        };
        self.first_place(owner, slot.saturating_add(1))
    }

    /// The place in preorder behind a place and all that its node holds, below the node `top`.
    pub fn place_after(&self, place: PlaceId, top: NodeId) -> Option<PlaceId>
        requires at { place < length self.now.forest.places }
        ensures within { IfSome result (λ p. p < length self.now.forest.places) }
    {
        let mut at = place;
        for _turn in 0..self.nodes() {
            if let Some(next) = self.next_place(at) {
                return Some(next);
            }
            let Some(owner) = self.owner(at) else {
                return None;
            };
            if owner.number() == top.number() {
                return None;
            }
            let Some(above) = self.place_of(owner) else {
                return None;
            };
            at = above;
        }
        None
    }

    /// The place in preorder behind a place, below the node `top`. All places below a node are met
    /// from `first_place` on, in linear time.
    pub fn place_below(&self, place: PlaceId, top: NodeId) -> Option<PlaceId>
        requires at { place < length self.now.forest.places }
        ensures within { IfSome result (λ p. p < length self.now.forest.places) }
    {
        if let Some(node) = self.node_at(place) {
            if let Some(first) = self.first_place(node, 0) {
                return Some(first);
            }
        }
        self.place_after(place, top)
    }

    /// How many nodes and places a node has with all that it holds.
    pub fn size(&self, node: NodeId) -> Size
        requires at { node < length self.now.forest.nodes }
        ensures nodes { result.nodes ≤ 1 + length self.now.forest.places }
        ensures places { result.places ≤ length self.now.forest.places }
        ensures listed { result.listed ≤ result.places }
    {
        let mut size = Size {
            nodes: 1,
            places: 0,
            listed: 0,
        };
        let mut at = self.first_place(node, 0);
        for _turn in 0..self.places() {
            let Some(place) = at else {
                return size;
            };
            size.places += 1;
            if self.node_at(place).is_some() {
                size.nodes += 1;
            }
            if let PlaceState::Listed = self.state(place) {
                size.listed += 1;
            }
            at = self.place_below(place, node);
        }
        size
    }

    /// Whether a node holds a place, at any depth.
    #[tactic(auto, using(crate::proofs::Climbing::climb_end, crate::proofs::Climbing::climb_none, crate::proofs::Climbing::climb_met, crate::proofs::Climbing::climb_top, crate::proofs::Climbing::climb_up, crate::proofs::Climbing::climbs_past))]
    pub fn holds(&self, node: NodeId, place: PlaceId) -> bool
        requires at { place < length self.now.forest.places }
        ensures climbs { result ≡ climbs (length self.now.forest.nodes) self.now.forest node place }
        ensures apart { result ≡ false → Holds self.now.forest node place → ⊥ }
    {
        self.forest.laws();
        let mut at = place;
        for _turn in 0..self.nodes() {
            let Some(owner) = self.owner(at) else {
                return false;
            };
            if owner.number() == node.number() {
                return true;
            }
            let Some(above) = self.place_of(owner) else {
                return false;
            };
            at = above;
        }
        true
    }

    /// Whether a node is a root: it stands in no place.
    #[tactic(auto, using(crate::proofs::Climbing::root_told))]
    pub fn is_root(&self, node: NodeId) -> bool
        requires at { node < length self.now.forest.nodes }
        ensures exact { IsTrue result ↔ place_at self.now.forest node ≡ None }
        ensures root { IsTrue result → IsRoot self.now.forest node }
    {
        self.place_of(node).is_none()
    }

    /// Whether a node may go into a place: it is a root and does not hold the place.
    #[tactic(auto, using(crate::proofs::Climbing::may_go_told))]
    pub fn may_go(&self, node: NodeId, place: PlaceId) -> bool
        requires node { node < length self.now.forest.nodes }
        requires place { place < length self.now.forest.places }
        ensures { IsTrue result → MayGo self.now.forest place node }
    {
        self.forest.laws();
        if !self.is_root(node) {
            return false;
        }
        !self.holds(node, place)
    }
}

//! Trees.

ghost use Rattle.std.specs.Prelude.{◌≡◌, [], ◌∷◌, ◌++◌, map, Some, None, false, true, IfOk, OnOk};
ghost use Rattle.tree_core.specs.Syntax.{node, no_slots};
ghost use Rattle.tree_core.specs.View.{syntax, slot_view, place_view, places_of, slots_of};

use crate::comment::Notes;
use crate::scalars::Scalars;
use sqlite_items::Items;
use std::alloc::{AllocError, Global};
use type_defs::Kind;

/// The name of a place of the source: its node's number, and its number among that node's places.
#[derive(Clone, Copy, Debug, PartialEq, Eq)]
pub struct PlaceName {
    pub node: u32,
    pub child: u32,
}

/// A node with all below it, after ESTree.
#[cycle(tree)]
#[derive(Drop)]
pub struct Tree {
    pub kind: Kind,
    pub scalars: Scalars,
    /// In the order of the kind's fields.
    pub slots: Items<Slot>,
    pub notes: Notes,
    /// The number of the node of the source that it is or comes from.
    pub from: Option<u32>,
}

/// A slot: one place, or a list of places.
#[cycle(tree)]
#[derive(Drop)]
pub enum Slot {
    Single(Place),
    List(Items<Place>),
}

/// A place, empty or with a node.
#[cycle(tree)]
#[derive(Drop)]
pub struct Place {
    pub name: Option<PlaceName>,
    pub node: Option<Box<Tree>>,
}

impl Place {
    /// A place without a name where the node stands.
    pub fn filled(alloc: Global, node: Tree) -> Result<Place, AllocError>
        ensures { IfOk result (λ p. place_view p ≡ (None, Some (syntax node))) }
    {
        Ok(Place {
            name: None,
            node: Some(Box::new(alloc, node)?),
        })
    }
}

impl Slot {
    /// A slot of this one place.
    pub fn single(place: Place) -> Slot
        ensures { slot_view result ≡ (false, places_of (place_view place ∷ [])) }
    {
        Slot::Single(place)
    }

    /// A slot of a list of places.
    pub fn list(places: Items<Place>) -> Slot
        ensures { slot_view result ≡ (true, places_of (map place_view places)) }
    {
        Slot::List(places)
    }
}

impl Tree {
    /// A node without comments and without a number.
    pub fn new(kind: Kind, scalars: Scalars, slots: Items<Slot>) -> Tree
        ensures { syntax result ≡ node kind scalars (slots_of (map slot_view slots)) (record { lead = []; trail = []; inner = [] }) None }
    {
        Tree {
            kind,
            scalars,
            slots,
            notes: Notes::none(),
            from: None,
        }
    }

    /// The node in a box.
    pub fn boxed(self, alloc: Global) -> Result<Box<Tree>, AllocError>
        ensures { IfOk result (λ b. b.value ≡ self) }
    {
        Ok(Box::new(alloc, self)?)
    }
}

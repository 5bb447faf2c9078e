//! Scopes, and what they declare.

use node_arena::{NodeId, PlaceId};
use sqlite_items::Items;
use tree_core::Units;

/// Places in order.
pub type Paths = Items<PlaceId>;

/// A scope: that of a node, or the one that a named function or class expression has for its own
/// name alone.
#[derive(Clone, Copy, Debug, PartialEq, Eq)]
pub struct Scope {
    pub owner: NodeId,
    /// Whether it is the one for the owner's own name.
    pub name: bool,
}

/// A name with the places that declare it, in the order of the source.
#[derive(Debug, Drop)]
pub struct Binding {
    pub name: Units,
    pub places: Paths,
}

/// Bindings in the order of the first declaration of each name.
pub type Bindings = Items<Binding>;

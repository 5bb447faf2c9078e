//! A walk by links over the places below a node, and how many nodes stand there.
//!
//! A walk is a fixed state and takes no memory, so a caller may stop between any two places, to
//! take a unit of fuel for each, and go on later. The step up from a place is `ast_paths::parent`.

ghost use Rattle.std.specs.Prelude.{◌≡◌, ◌<◌, ◌≤◌, length, IfSome};
ghost use Rattle.collections.specs.Walks.{WalksIn};

use node_arena::{Arena, NodeId, PlaceId};

/// A walk over the places strictly below a node, in preorder by the slots of the table of kinds.
/// While it is under way nothing below the node may be changed.
#[derive(Clone, Copy, Debug)]
pub struct Below {
    top: NodeId,
    next: Option<PlaceId>,
}

impl Below {
    /// A walk that begins at the first place of the node.
    pub fn new(arena: &Arena, node: NodeId) -> Below
        requires at { node < length arena.now.forest.nodes }
        ensures known { WalksIn arena.now.forest result }
    {
        Below {
            top: node,
            next: arena.first_place(node, 0),
        }
    }

    /// The next place, filled or empty; none at the end. All steps of a walk together take time in
    /// proportion to the places.
    pub fn step(&mut self, arena: &Arena) -> Option<PlaceId>
        requires known { WalksIn arena.now.forest self.old }
        ensures known { WalksIn arena.now.forest self.new }
        ensures place { result ≡ self.old.next }
        ensures within { IfSome result (λ p. p < length arena.now.forest.places) }
    {
        let Some(place) = self.next else {
            return None;
        };
        self.next = arena.place_below(place, self.top);
        Some(place)
    }
}

/// How many nodes stand strictly below a node: what a look at all of them visits. It takes no
/// memory.
pub fn count_below(arena: &Arena, node: NodeId) -> u32
    requires { node < length arena.now.forest.nodes }
    ensures { result ≤ length arena.now.forest.places }
{
    arena.size(node).nodes.saturating_sub(1)
}

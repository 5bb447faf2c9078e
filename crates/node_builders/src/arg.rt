//! Arguments of builders, and why one is refused.

ghost use Rattle.std.specs.Prelude.{◌≡◌};

use node_arena::NodeId;
use sqlite_items::Items;
use tree_core::Units;

/// An argument of a builder.
#[derive(Debug, Drop)]
pub enum BuildArg {
    /// It is left out.
    Absent,
    Node(NodeId),
    /// Nodes of a list, and its holes.
    Nodes(Items<Option<NodeId>>),
    Text(Units),
    Whole(i64),
    Truth(bool),
    Null,
}

/// Why a node is not built.
#[derive(Clone, Copy, Debug, PartialEq, Eq)]
pub enum BuildFault {
    /// The first argument that its field does not take, by the field's number.
    BuilderType { field: u8 },
    /// An argument that may not be left out is missing.
    TooFew,
    /// There are more arguments than the builder has.
    TooMany,
    /// The nodes or the places of the arena would pass their limit.
    Full,
    NoMemory,
}

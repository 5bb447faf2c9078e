//! Values.

use crate::ids::{CollectionId, FunctionId, ListId, ObjectId, TextId};
use node_arena::{NodeId, PlaceId};
use scope_lookup::Scope;
use type_defs::{Kind, NodeType};

/// A value of a script. Texts, lists, objects, script functions and collections are in the heap;
/// nodes, places and scopes are of the arena.
#[derive(Clone, Copy, Debug, PartialEq, Eq)]
pub enum Value {
    Undefined,
    Null,
    Truth(bool),
    /// A whole number of at most 53 bits and a sign.
    Whole(i64),
    Text(TextId),
    List(ListId),
    Object(ObjectId),
    Function(FunctionId),
    Native(Native),
    /// A kind of nodes or a group of kinds.
    Type(NodeType),
    Node(NodeId),
    /// The list in a slot of a node.
    NodeList(NodeId, u8),
    Path(PlaceId),
    Collection(CollectionId),
    Scope(Scope),
    /// What `toSource` gave: the print of that number, from 1.
    Printed(u32),
}

/// A function that a script finds made.
#[derive(Clone, Copy, Debug, PartialEq, Eq)]
pub enum Native {
    /// `api.jscodeshift` and `api.j`.
    Jscodeshift,
    /// The builder of a kind, as `j.identifier`.
    Builder(Kind),
    /// `j.match`.
    Match,
    /// `j.commentLine`.
    CommentLine,
    /// `j.commentBlock`.
    CommentBlock,
}

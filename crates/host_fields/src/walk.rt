//! Methods with a function that are under way: what they go over, how far they came, and what they
//! answer.

use crate::method::ItemsMethod;
use indexmap::IndexSet;
use node_arena::PlaceId;
use script_values::{CollectionId, ListLoop, Value};
use type_defs::NodeType;

/// Where the nodes of a change at a path go.
#[derive(Clone, Copy, Debug, PartialEq, Eq)]
pub enum Change {
    Replace,
    Before,
    After,
}

/// What a walk does with what its function answers.
#[derive(Clone, Copy, Debug, PartialEq, Eq)]
pub enum Task {
    /// A method of a list or a node list.
    Items(ItemsMethod),
    /// Those of a collection.
    FilterPaths,
    EachPath,
    MapPaths,
    SomePath,
    EveryPath,
    ChangePaths(Change),
    /// Nodes of the type below the paths that the function takes.
    Find(NodeType),
    /// The nearest ancestors of the type that the function takes.
    Closest(NodeType),
    /// `j.match`.
    Match,
}

/// What a walk goes over, as it was when the walk began.
#[derive(Drop)]
pub enum Over {
    List(ListLoop),
    Items(Vec<Value>),
    Paths(CollectionId),
    Places(Vec<PlaceId>),
    One(Value),
}

/// A method with a function that is under way. `next` is the number of the item whose turn it is,
/// `place` the place to which a climb came, and `value` the value so far, or the item that was found.
/// `made` are the items of the list that is answered, `paths` those of the collection, and `seen` the
/// places among them. `decided` tells that no further call of the function matters.
#[derive(Drop)]
pub struct Walk {
    pub task: Task,
    pub on: Value,
    pub function: Value,
    pub over: Over,
    pub next: usize,
    pub length: usize,
    pub place: Option<PlaceId>,
    pub value: Value,
    pub made: Vec<Value>,
    pub seen: IndexSet<u32>,
    pub paths: Vec<PlaceId>,
    pub decided: bool,
}

//! Patterns of nodes, as filter objects give them.

use sqlite_items::Items;
use tree_core::Units;

/// What a value is to be.
#[cycle(pattern)]
#[derive(Drop)]
pub enum Pattern {
    /// Anything.
    Any,
    /// This text.
    Text(Units),
    /// This whole number.
    Whole(i64),
    Truth(bool),
    /// An absent part, a hole, or a scalar that is null.
    Null,
    /// A node whose fields are these.
    Fields(Items<FieldPattern>),
    /// A list that begins with these items.
    Items(Items<Pattern>),
}

/// What a field of a node is to be.
#[cycle(pattern)]
#[derive(Drop)]
pub struct FieldPattern {
    pub name: Units,
    pub pattern: Pattern,
}

//! The table of kinds: names, fields, groups and builders.
//!
//! Everything that goes by a node's kind interprets this table: readers, the arena, the builders,
//! the tree check and the printers. Kinds and their fields are those of ESTree, with a directive
//! and a property of a pattern as kinds of their own.
#![tactic(auto)]

mod builders;
mod field_defs;
mod field_table;
mod groups;
mod kind;
mod kind_table;

pub use builders::{BuilderArg, builder};
pub use field_defs::{FieldDef, FieldShape, fields, is_list, scalar_count, slot_count, slots};
pub use groups::{Group, NodeType, is_a, type_of};
pub use kind::{Kind, kind_of};

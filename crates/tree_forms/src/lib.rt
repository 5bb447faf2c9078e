//! The form of a tree, what its slots take, and the level of an expression.
#![tactic(auto)]

mod chains;
mod choosing;
mod edges;
mod fronts;
mod reading;
mod slots;
mod spellings;
mod variant;

pub use chains::{links, links_below};
pub use choosing::form;
pub use edges::{ALONE, Edge, is_expression, left_end, level, takes_groups};
pub use reading::child;
pub use slots::{begins_bare, ends_bare, is_mirror, slot, slot_at, spells_at_most};
pub use variant::Variant;

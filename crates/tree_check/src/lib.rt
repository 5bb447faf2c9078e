//! The check of a tree: whether some text spells it, and if none does, the first node that breaks a
//! rule.
//!
//! Each rule is a test of one node: of its kind, its scalars and what stands in its slots, and of
//! its position, which tells what its place takes and what surrounds it. What a slot takes is told
//! by the table of forms. The walk over the tree takes time by its nodes and places, and keeps a
//! frame for each level.
#![tactic(auto)]

mod branches;
mod categories;
mod chains;
mod characters;
mod comments;
mod contexts;
mod cursor;
mod declarations;
mod directives;
mod fault;
mod imports;
mod judging;
mod kinds;
mod literals;
mod methods;
mod missing;
mod names;
mod position;
mod rule;
mod scalars;
mod shorthands;
mod slot_table;
mod templates;
mod walk;

pub use fault::CheckFault;
pub use names::is_identifier_name;
pub use rule::{MAX_DEPTH, Rule};
pub use walk::check;

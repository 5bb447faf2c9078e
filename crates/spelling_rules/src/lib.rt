//! What a text spells: the relation between texts and trees, and which forms a place takes.
//!
//! The relation stands in `specs/Spells.antt`. It interprets the pieces of each form, which are
//! those of the table of `js_forms`.
#![tactic(auto)]

mod places;

pub use places::{is_declaration, is_statement, same_flow, takes};

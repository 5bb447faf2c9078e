//! Renames the identifiers of one name in a text of the first grammar.
//!
//! It stands behind the reader of that grammar: of a text, its tree and the stretches of the
//! tree's nodes it makes the renamed text, whose other bytes are slices of the source.
#![tactic(auto)]

mod names;
mod patch;

pub use names::{count, is_plain_name};
pub use patch::{edits, rename};

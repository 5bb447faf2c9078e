//! Renames the identifiers of one name in a source of the whole language.
//!
//! It stands behind the reader: of a source, its tree and the stretches of the tree's nodes it makes
//! the renamed text, whose other bytes are slices of the source. Where the new name alone would be
//! read as something else, it stands in parentheses or before a `;`.
#![tactic(auto)]

mod edits;
mod exports;
mod fault;
mod methods;
mod names;
mod patch;
mod places;
mod renaming;

pub use fault::RenameError;
pub use first_rename::is_plain_name;
pub use renaming::rename;

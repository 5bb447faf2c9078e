//! The guard before a new text: it is read again, and what is read must be the tree that it was made
//! of, with the same comments at the same places.
#![tactic(auto)]

mod guard;
mod nodes;
mod places;
mod scalars;

pub use guard::reads_back;

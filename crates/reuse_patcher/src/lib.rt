//! The text of a changed tree over its source: unmodified nodes and the pieces between others are
//! copied and shifted with the lines on which they stand, all else is made.
//!
//! One walk writes the text from its start to its end. A text that changes nothing is the source.
#![tactic(auto)]

mod blanks;
mod edge_blanks;
mod edges;
mod fronts;
mod inner;
mod laying;
mod lines;
mod links;
mod loose;
mod models;
mod parts;
mod patched;
mod patching;
mod pieces;
mod planned;
mod runs;
mod shift;
mod spots;
mod words;
mod writing;

pub use generic_printer::Slice;
pub use lines::{Line, Lines};
pub use patched::Patch;
pub use patching::patch;

//! Whether a node without slots is what a source spells at a stretch.
//!
//! It stands behind the reader of trees, which gives each node a stretch: here the token at the
//! start of the stretch is read once more, and compared with the node.
#![tactic(auto)]

mod leaf;
mod literals;
mod names;
mod same;
mod scalars;
mod statements;
mod template;
mod words;

pub use leaf::is_spelled;

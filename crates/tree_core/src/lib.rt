//! Uniform syntax trees, seen by contracts as plain data: kinds, scalars, slots of places, comments.
//!
//! This is the lowest crate of the tree's side: readers make trees, the arena loads and unloads
//! them, the patcher walks them. What holds of every kind stands here; what a kind has stands in
//! the table of kinds.
#![tactic(auto)]

mod address;
mod comment;
mod copying;
mod depth;
mod lists;
mod sameness;
mod scalars;
mod span;
mod tree;
mod units;

pub use address::{Address, Steps32, at};
pub use comment::{Comment, Comments, Notes};
pub use copying::{copy, copy_comments, copy_scalar};
pub use depth::height;
pub use lists::{Bytes, Name, Names, Numbers, Truths};
pub use sameness::same;
pub use scalars::{Scalar, Scalars};
pub use span::{CommentSpans, Parsed, Span, Spans};
pub use tree::{Place, PlaceName, Slot, Tree};
pub use units::{Units, are_bytes};

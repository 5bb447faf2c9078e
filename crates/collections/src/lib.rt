//! Collections: lists of places that are found, filtered and changed in order.
//!
//! What a script finds is told in preorder by the slots of the table of kinds, and each place
//! once. A pattern is what a filter object asks of a node. The changes go through the paths in
//! their order, each by the neighbours of its place.
#![tactic(auto)]

mod ancestors;
mod changing;
mod distinct;
mod fault;
mod field_values;
mod finding;
mod list;
mod matching;
mod pattern;
mod preorder;
mod walks;

pub use ancestors::closest;
pub use changing::{insert_after, insert_before, remove, replace_with};
pub use fault::ListFault;
pub use field_values::{Read, read_field};
pub use finding::{filter, find};
pub use list::{MAX_ITEMS, Paths, at};
pub use matching::{Trial, matches, reached, try_pattern};
pub use pattern::{FieldPattern, Pattern};
pub use walks::{Below, count_below};

//! Where a text needs grouping parentheses round an expression, and a space between two tokens.
#![tactic(auto)]

mod grouping;
mod spaces;

pub use grouping::{Spot, Start, binds_too_loosely, may_group, needs_parens};
pub use spaces::needs_space;

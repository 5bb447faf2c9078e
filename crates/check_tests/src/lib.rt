//! Tests of the check of trees, over trees that are told as texts and over sources.
#![tactic(auto)]

mod answers;
#[cfg(test)]
mod tables;
#[cfg(test)]
mod tests;
mod told;

pub use answers::{answer, answer_told};
pub use told::tree_of;

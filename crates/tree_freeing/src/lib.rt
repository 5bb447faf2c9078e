//! Frees trees piece by piece.
#![tactic(auto)]

mod freeing;

pub use freeing::{free_parsed, free_tree};

//! Paths: the places of an arena as a script goes over them and changes them.
//!
//! A node that goes into a place comes from somewhere: it is settled first, so that the place where
//! it stood holds a copy and nothing is lost. A change tests its refusals and takes all its memory
//! before it changes anything, so a refusal leaves the arena as it was.
#![tactic(auto)]

mod changes;
mod fault;
mod plan;
mod pruning;
mod reads;
mod settling;

pub use changes::{insert_after, insert_before, replace};
pub use fault::PathFault;
pub use pruning::prune;
pub use reads::{get, parent};
pub use settling::{Room, settle, settle_all};

//! The machine that runs a prepared script over one file, with fuel, an exact limit on nested
//! evaluations, and no use of the stack for them.
//!
//! It has what is evaluated now, a stack of frames that wait for it, and a stack of values. A
//! method of the host that takes a function is a frame too, whose state the host keeps.
#![tactic(auto)]

mod binds;
mod blocks;
mod calls;
mod fields;
mod frames;
mod leaf;
mod literals;
mod loops;
mod machine;
mod members;
mod methods;
mod names;
mod operations;
mod operators;
mod running;
mod stack;

pub use machine::MAX_NESTING;
pub use running::{Outcome, Ran, ScriptFault, prepare, run};

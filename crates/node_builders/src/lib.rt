//! Builders of nodes: a node of a kind from the arguments of its builder.
//!
//! The table of kinds tells which arguments a builder has and which fields they fill; what each
//! field takes stands here. Arguments are refused before anything is changed.
#![tactic(auto)]

mod arg;
mod args;
mod building;
mod field_table;
mod needed;
mod takes;
mod values;

pub use arg::{BuildArg, BuildFault};
pub use building::build;
pub use field_table::field_takes;
pub use needed::needs;
pub use takes::Takes;

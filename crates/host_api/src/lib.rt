//! What a script calls on the host: methods, builders, `j` itself, and the walks of methods that
//! take a function.
//!
//! A call takes its further units of fuel as it goes; its own unit is taken by the caller. A method
//! that takes a function begins a walk: `step` tells the next call of the function, and `accept`
//! takes its answer.
#![tactic(auto)]

mod answers;
mod arguments;
mod below;
mod calls;
mod changes;
mod collections;
mod filters;
mod finding;
mod list_methods;
mod matching;
mod natives;
mod path_changes;
mod paths;
mod scopes;
mod steps;
mod walks;

pub use answers::accept;
pub use calls::{Called, Callee, Step, call, call_native, method, method_at_key};
pub use filters::MAX_FILTER_LEVELS;
pub use steps::step;

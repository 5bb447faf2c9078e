//! Trees into the arena, and nodes of the arena back into trees.
//!
//! The parser's tree is loaded once for each file, a script changes the arena, and what stands at the
//! root place then is unloaded for the check and the printers. Both calls take linear time.
#![tactic(auto)]

mod fault;
mod loading;
mod places;
mod saying;
mod unloading;

pub use fault::UnloadFault;
pub use loading::load;
pub use unloading::{MAX_DEPTH, unload};

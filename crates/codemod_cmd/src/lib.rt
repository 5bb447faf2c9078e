//! The top call: what one run of the command reads, answers and writes.
//!
//! It stands between the outside (a store of files and a sink of output) and the engine: words name
//! a script and files, one row a file goes out, and a status tells how the run ended.
#![tactic(auto)]

mod answering;
mod codemod;
mod engine;
mod file_row;
mod folder;
mod job;
mod patching;
mod reading;
mod renaming;
mod run_ending;
mod running;
mod sampling;
mod script;
mod scripts;
mod session;
mod sight;
mod status;
mod stop;
mod transform;
mod walking;
mod writing;

pub use running::run;
pub use status::Status;

//! The outside of the product: stores of named bytes and sinks of bytes, which count their own
//! failures.
//!
//! A run reads and writes files through a `Store` and prints through a `Sink`, so that what it does
//! can be said of the contents before and after. Stores and sinks in memory tell their contents;
//! real files and real output tell none and are trusted.
#![tactic(auto)]

mod faults;
mod files;
mod folders;
mod lists;
mod memory_sink;
mod memory_store;
mod output;
mod sink;
mod store;
mod stored;

pub use files::FileStore;
pub use lists::{Calls, Files, StoredFile, UnnamedCount, UnnamedList};
pub use memory_sink::{MemorySink, SteadySink};
pub use memory_store::{MemoryStore, SteadyStore};
pub use output::OutSink;
pub use sink::{NoMemory, Sink, WriteAnswer};
pub use store::{Entry, EntryList, ListAnswer, Listing, ReadAnswer, Store};

//! Values of scripts, and the heap that holds what they name: texts, lists, objects, functions,
//! collections of paths, and environments of names.
//!
//! A value is a small copy; what it names is in the heap under a number that the heap gave. A
//! contract sees the heap as lists: texts as their code units, lists as their items, objects as
//! their entries in the order of insertion.
#![tactic(auto)]

mod budget;
mod environments;
mod fault;
mod fuel;
mod heap;
mod ids;
mod lists;
mod objects;
mod records;
mod texts;
mod value;

pub use budget::MAX_HEAP_BYTES;
pub use fault::{Fault, Stop};
pub use fuel::take;
pub use heap::{Heap, Spelling};
pub use ids::{CollectionId, EnvironmentId, FunctionId, ListId, ObjectId, TextId, Word};
pub use lists::{ListLoop, MAX_LIST_ITEMS};
pub use texts::MAX_TEXT_UNITS;
pub use value::{Native, Value};

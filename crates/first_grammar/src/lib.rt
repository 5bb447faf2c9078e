//! The first grammar: programs of expression statements over names, members, calls and assignments.
//!
//! It stands between the source and the tree, and reads bytes by one table of forms. What it reads
//! is proved to be spelled by the text, and what it refuses is proved not to be.
#![tactic(auto)]

pub mod cursor;
pub mod error;
pub mod growing;
pub mod measured;
pub mod number;
pub mod parser;
pub mod reader;
pub mod table;
pub mod words;

pub use error::ReadError;
pub use parser::parse;

//! The next lexical element of a source text, and a cursor over its tokens.
//!
//! The place in the syntactic grammar decides in which goal a token is read, so there is no list of
//! tokens: readers ask for one after another. A broken element is a fault with the offset where it
//! begins.
#![tactic(auto)]

mod blanks;
mod cursor;
mod element;
mod fault;
mod marks;
mod numbers;
mod parts;
mod quoted;
mod scanning;

pub use blanks::has_line_end;
pub use cursor::Cursor;
pub use fault::{LexFault, LexFaultKind, Refusal, SyntaxFault, SyntaxKind};
pub use parts::breaks_line;
pub use scanning::{next, rescan, scan};

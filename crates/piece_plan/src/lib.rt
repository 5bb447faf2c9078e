//! What a changed tree keeps of its source: which nodes stand there as they did, and which pieces
//! between the children of the others.
//!
//! A node's source is found by its number, a place's by its name; nothing is searched for. A node is
//! unmodified where its tree and comments are those of its source and the source's text still spells
//! it at its place.
#![tactic(auto)]

mod bodies;
mod ends;
mod gap_comments;
mod inside;
mod kept;
mod marks;
mod neighbours;
mod nodes;
mod source;
mod spelled;
mod tokens;
mod words;

pub use bodies::is_new_block;
pub use ends::{made_end, open_end};
pub use inside::{needs_parens, source_level};
pub use kept::{Kept, KeptPiece, plan, truth_at};
pub use marks::{Marks, marks_of, same_comment, same_scalars};
pub use nodes::{SourceNode, offset, place_at, place_count, span_at, width};
pub use source::SourceTree;
pub use spelled::still_spells;
pub use tokens::{grouping, parens, tokens_in};

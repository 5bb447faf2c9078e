//! Texts of trees. One walk goes through a tree and writes, for each node, the pieces between its
//! children: the words of its form, with blanks, and the comments that belong there. A piece, or a
//! node with all below it, may also be kept from a source.
#![tactic(auto)]

mod characters;
mod comments;
mod facts;
mod fronts;
mod gaps;
mod joints;
mod kept;
mod parts;
mod printing;
mod rows;
mod sink;
mod things;
mod words;

pub use comments::{Note, add_before, add_behind, is_breaking};
pub use facts::{gather, settle};
pub use fronts::{Front, first_line_end};
pub use gaps::Gap;
pub use kept::{Nothing, Pieces};
pub use parts::{Part, Token, is_static_async, parts_of};
pub use printing::{print, write_rows};
pub use rows::{Row, rows_of};
pub use sink::{OpenEnd, Sink, Slice};
pub use things::{Blanks, Laid, Thing, Things};
pub use words::spell;

//! Sources as whole trees: the first line that names an interpreter, the program, its comments, and
//! the numbers of its nodes and names of its places.
//!
//! The reader below gives a tree whose nodes have numbers as they were read. Here each comment is
//! attached to a node, and then one walk numbers the nodes in preorder, names the places, gives the
//! nodes their comments, and sees that each node has the fields of its kind and that the source spells
//! each leaf, a node without slots, at its span.
#![tactic(auto)]

mod attached;
mod children;
mod comment_places;
mod front;
mod lines;
mod numbering;
mod quasis;
mod shape;
mod whole;
mod work_stack;

pub use js_lexer::Refusal;
pub use whole::parse;

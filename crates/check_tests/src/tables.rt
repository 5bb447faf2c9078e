//! Trees, and what the check says of them.

mod notes;
mod parts;
mod shapes;
mod texts;

pub use notes::COMMENTS;
pub use parts::{BRANCHES, CHAINS, CONTEXTS, DECLARATIONS, METHODS};
pub use shapes::{SCALARS, SHAPE};
pub use texts::{DIRECTIVES, NAMES, SHORTHANDS, TEXTS};

/// A tree told as a text, and `ok` or the address of the first bad node and the rule that it
/// breaks.
pub type Row = (&'static str, &'static str);

//! What functions and collections were made with.

use crate::ids::CollectionId;
use scope_lookup::Paths;

/// A function that a script made: the number of its node in the script, and the environment
/// around it.
#[derive(Clone, Copy, Debug, PartialEq, Eq)]
pub(crate) struct Closure {
    pub(crate) node: u32,
    pub(crate) block: u32,
}

/// Paths in order, and the collection that they come from.
#[derive(Drop)]
pub(crate) struct Collection {
    pub(crate) paths: Paths,
    pub(crate) from: Option<CollectionId>,
}

//! Why a tree is not unloaded.

use std::alloc::AllocError;
use tree_core::Address;

/// Why a tree is not unloaded.
#[derive(Debug, Drop)]
pub enum UnloadFault {
    /// A node stands deeper than `MAX_DEPTH`, the first node having depth 1: the first in preorder.
    Deep { address: Address },
    /// The place is empty.
    Empty,
    NoMemory,
}

impl From<AllocError> for UnloadFault {
    ghost use Rattle.std.specs.Prelude.{◌≡◌};
    ghost use Rattle.arena_trees.specs.declared.fault.UnloadFault.TheVariants.{NoMemory};

    ghost from_gives = { λ _ f. f ≡ NoMemory };

    fn from(_: AllocError) -> UnloadFault {
        UnloadFault::NoMemory
    }
}

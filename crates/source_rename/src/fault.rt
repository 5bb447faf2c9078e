//! Why a source is not renamed.

use std::alloc::AllocError;
use tree_core::Address;

/// Why there is no new text.
#[derive(Debug, Drop)]
pub enum RenameError {
    /// More than 1,000,000 identifiers have the old name.
    ListLong,
    /// The method at this address, the first in preorder, would begin or cease to be its class's
    /// constructor.
    BadMethod(Address),
    /// Memory ran out.
    NoMemory,
}

impl From<AllocError> for RenameError {
    ghost use Rattle.std.specs.Prelude.{◌≡◌};
    ghost use Rattle.source_rename.specs.declared.fault.RenameError.TheVariants.{NoMemory};

    ghost from_gives = { λ _ error. error ≡ NoMemory };

    fn from(_: AllocError) -> RenameError {
        RenameError::NoMemory
    }
}

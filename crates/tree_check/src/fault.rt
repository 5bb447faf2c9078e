//! Why a tree does not pass.

use crate::rule::Rule;
use std::alloc::AllocError;
use tree_core::Address;

/// Why a tree does not pass the check.
#[derive(Debug, Drop)]
pub enum CheckFault {
    /// The node at the address is the first in preorder that breaks a rule; this is the first that
    /// it breaks.
    BadNode { address: Address, rule: Rule },
    NoMemory,
}

impl From<AllocError> for CheckFault {
    ghost use Rattle.std.specs.Prelude.{◌≡◌};
    ghost use Rattle.tree_check.specs.declared.fault.CheckFault.TheVariants.{NoMemory};

    ghost from_gives = { λ _ fault. fault ≡ NoMemory };

    fn from(_: AllocError) -> CheckFault {
        CheckFault::NoMemory
    }
}

//! Why a string has no value.

use std::alloc::AllocError;

/// Why a string has no value.
#[derive(Clone, Copy, Debug, PartialEq, Eq)]
pub enum CookFault {
    /// The escape whose backslash stands at `at` is not valid, and none before it is.
    BadEscape { at: u32 },
    NoMemory,
}

impl From<AllocError> for CookFault {
    ghost use Rattle.std.specs.Prelude.{◌≡◌};
    ghost use Rattle.js_tokens.specs.declared.fault.CookFault.TheVariants.{NoMemory};

    ghost from_gives = { λ _ fault. fault ≡ NoMemory };

    fn from(_: AllocError) -> CookFault {
        CookFault::NoMemory
    }
}

/// Where reading stops: at the offset of an escape that is not valid, or for lack of memory.
#[derive(Clone, Copy, Debug, PartialEq, Eq)]
pub enum Stop {
    BadEscape(usize),
    NoMemory,
}

impl From<AllocError> for Stop {
    ghost use Rattle.std.specs.Prelude.{◌≡◌};
    ghost use Rattle.js_tokens.specs.declared.fault.Stop.TheVariants.{NoMemory};

    ghost from_gives = { λ _ stop. stop ≡ NoMemory };

    fn from(_: AllocError) -> Stop {
        Stop::NoMemory
    }
}

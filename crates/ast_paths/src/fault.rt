//! Why a change or a look-up by paths is refused.

ghost use Rattle.std.specs.Prelude.{◌≡◌};
ghost use Rattle.ast_paths.specs.Paths.{fault_of};

use node_arena::ArenaFault;

/// Why it is refused. The arena is then as it was.
#[derive(Clone, Copy, Debug, PartialEq, Eq)]
pub enum PathFault {
    /// The nodes or the places would pass their limit.
    Full,
    /// The place is out of its list, or the change wants a list and the place is in none.
    NotInList,
    /// The node in the place has no slot of this name.
    NoField,
    NoMemory,
}

/// The same cause, told of a path.
pub(crate) fn path_fault(fault: ArenaFault) -> PathFault
    ensures { result ≡ fault_of fault }
{
    match fault {
        ArenaFault::Full => PathFault::Full,
        ArenaFault::NotInList => PathFault::NotInList,
        ArenaFault::NoMemory => PathFault::NoMemory,
    }
}

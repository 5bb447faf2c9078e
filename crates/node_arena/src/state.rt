//! Where places are, and why a change is refused.

/// Where a place is.
#[derive(Clone, Copy, Debug, PartialEq, Eq)]
pub enum PlaceState {
    /// The root place, which no node has.
    Root,
    /// The one place of a slot that is no list.
    Single,
    /// In a list.
    Listed,
    /// Taken out of its list.
    Out,
}

/// Why a change is refused. The arena is then as it was.
#[derive(Clone, Copy, Debug, PartialEq, Eq)]
pub enum ArenaFault {
    /// The nodes or the places would pass their limit.
    Full,
    /// The place is in no list.
    NotInList,
    NoMemory,
}

//! The memory that a heap may take.

ghost use Rattle.std.specs.Prelude.{◌≡◌, [], ◌∷◌, ◌++◌, Err, IfOk, OnOk, OnErr};
ghost use Rattle.std.specs.Vec.{vec_len};

use crate::fault::Stop;

/// The most bytes that a heap takes. A vector that grows is moved, so for a moment a run may hold
/// half as many more.
pub const MAX_HEAP_BYTES: u64 = 4_294_967_296;

/// How many bytes a heap may still take.
#[derive(Debug, Drop)]
pub(crate) struct Budget {
    left: u64,
}

impl Budget {
    pub(crate) fn new() -> Budget {
        Budget {
            left: MAX_HEAP_BYTES,
        }
    }

    /// Counts bytes that are about to be taken.
    pub(crate) fn charge(&mut self, bytes: u64) -> Result<(), Stop>
        ensures { OnErr result (result ≡ Err Stop.NoMemory) }
    {
        if self.left < bytes {
            return Err(Stop::NoMemory);
        }
        self.left -= bytes;
        Ok(())
    }

    /// Counts bytes that were given back.
    pub(crate) fn give_back(&mut self, bytes: u64) {
        self.left = self.left.saturating_add(bytes).min(MAX_HEAP_BYTES);
    }

    /// Counts what a vector grows by where it has no room for `more` elements of `size` bytes.
    #[inline(always)]
    pub(crate) fn grow<T: Drop>(
        &mut self,
        list: &Vec<T>,
        more: usize,
        size: u64,
    ) -> Result<(), Stop>
        ensures { OnErr result (result ≡ Err Stop.NoMemory) }
    {
        if more <= list.capacity().saturating_sub(list.len()) {
            return Ok(());
        }
        let places = list.capacity().max(more).max(8);
        self.charge(size.saturating_mul(places as u64))
    }
}

/// Adds an element of `size` bytes at the end, and gives its number.
#[inline(always)]
pub(crate) fn add<T: Drop>(
    budget: &mut Budget,
    list: &mut Vec<T>,
    element: T,
    size: u64,
) -> Result<u32, Stop>
    ensures number { IfOk result (λ number. number ≡ vec_len list.old) }
    ensures ok { OnOk result (list.new.items ≡ list.old.items ++ element ∷ []) }
    ensures err { OnErr result (list.new.items ≡ list.old.items) }
    ensures memory { OnErr result (result ≡ Err Stop.NoMemory) }
{
    budget.grow(list, 1, size)?;
    let Ok(number) = u32::try_from(list.len()) else {
        return Err(Stop::NoMemory);
    };
    match list.push(element) {
        Ok(()) => Ok(number),
        Err(_) => Err(Stop::NoMemory),
    }
}

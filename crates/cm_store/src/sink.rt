//! Sinks of bytes.

ghost use Rattle.std.specs.Prelude.{◌≡◌, ℕ, ◌+◌, ◌<◌, ◌≤◌, List, Option, length, OnOk, IsErrOf};
ghost use Rattle.std.specs.Io.KnownBytes.{Appends};
ghost use Rattle.cm_store.specs.Faults.{Rose};
ghost use Rattle.cm_store.specs.Writing.{AppendsFront};

/// Why bytes were not written.
#[derive(Clone, Copy, Debug, PartialEq, Eq)]
pub enum WriteAnswer {
    /// The store or the sink failed, and counted it.
    Failed,
    /// There was not enough memory.
    NoMemory,
}

/// There was not enough memory.
#[derive(Clone, Copy, Debug, PartialEq, Eq)]
pub struct NoMemory;

/// A place that takes bytes.
///
/// A sink counts its failures, and the count never falls. It has 64 bits: at its end it stays.
pub trait Sink {
    /// The bytes taken, where the sink tells them.
    ghost taken_bytes: { Self → Option (List ℕ) };

    /// How many bytes the sink takes with the memory that it has.
    ghost spare: { Self → ℕ };

    /// How often the sink has failed.
    ghost fault_count: { Self → ℕ };

    /// How often the sink has failed.
    fn faults(&self) -> u64
        ensures { result ≡ fault_count self.now };

    /// Takes memory for `more` bytes and no byte.
    fn reserve(&mut self, more: u64) -> Result<(), NoMemory>
        ensures spare { OnOk result (more ≤ spare self.new) }
        ensures no_less { spare self.old ≤ spare self.new }
        ensures kept { taken_bytes self.new ≡ taken_bytes self.old }
        ensures same_count { fault_count self.new ≡ fault_count self.old };

    /// Takes the bytes: after `Failed` a front of them, after `NoMemory` none.
    fn write(&mut self, bytes: &[u8]) -> Result<(), WriteAnswer>
        ensures all { OnOk result (Appends (taken_bytes self.old) (taken_bytes self.new) bytes.now) }
        ensures spare { spare self.old ≤ spare self.new + length bytes.now }
        ensures front { IsErrOf result WriteAnswer.Failed → AppendsFront (taken_bytes self.old) (taken_bytes self.new) bytes.now }
        ensures none { IsErrOf result WriteAnswer.NoMemory → taken_bytes self.new ≡ taken_bytes self.old }
        ensures memory { IsErrOf result WriteAnswer.NoMemory → spare self.old < length bytes.now }
        ensures later { fault_count self.old ≤ fault_count self.new }
        ensures failed { IsErrOf result WriteAnswer.Failed → Rose (fault_count self.old) (fault_count self.new) };
}

//! Sinks in memory.

ghost use Rattle.std.specs.Prelude.{◌≡◌, [], Some};

use crate::faults::Failures;
use crate::lists::Calls;
use crate::sink::{NoMemory, Sink, WriteAnswer};
use std::alloc::Global;
use std::marker::Model;

/// A sink in memory that never fails.
#[derive(Debug, Drop)]
pub struct SteadySink {
    bytes: Vec<u8>,
}

impl Model for SteadySink {
    ghost use Rattle.std.specs.Prelude.{◌-◌, vec_capacity, vec_len};
    ghost use Rattle.cm_store.specs.States.{SinkState};

    ghost Value = { SinkState };

    ghost view = { λ s. record { taken = s.bytes.items; spare = vec_capacity s.bytes - vec_len s.bytes } };
}

impl SteadySink {
    /// A sink that has taken nothing.
    pub fn new(alloc: Global) -> SteadySink
        ensures { result.taken ≡ [] }
    {
        SteadySink {
            bytes: Vec::new(alloc),
        }
    }

    /// The bytes taken.
    pub fn taken(&self) -> &[u8]
        ensures { result.now ≡ self.now.taken }
    {
        &self.bytes
    }
}

impl Sink for SteadySink {
    ghost taken_bytes = { λ s. Some s.taken };

    ghost spare = { λ s. s.spare };

    ghost fault_count = { λ s. 0 };

    fn faults(&self) -> u64 {
        0
    }

    fn reserve(&mut self, more: u64) -> Result<(), NoMemory> {
        match self.bytes.try_reserve(more as usize) {
            Ok(()) => Ok(()),
            Err(_) => Err(NoMemory),
        }
    }

    fn write(&mut self, bytes: &[u8]) -> Result<(), WriteAnswer> {
        match self.bytes.extend_from_slice(bytes) {
            Ok(()) => Ok(()),
            Err(_) => Err(WriteAnswer::NoMemory),
        }
    }
}

/// A sink in memory that fails at listed calls, counted from 0 over all its writes. Where it fails
/// it takes nothing.
#[derive(Debug, Drop)]
pub struct MemorySink {
    sink: SteadySink,
    failures: Failures,
}

impl Model for MemorySink {
    ghost use Rattle.cm_store.specs.States.{FailingSinkState};

    ghost Value = { FailingSinkState };

    ghost view = { λ s. record { sink = s.sink; faults = s.failures.faults } };
}

impl MemorySink {
    /// A sink that has taken nothing.
    pub fn new(alloc: Global, fail: Calls) -> MemorySink
        ensures taken { result.sink.taken ≡ [] }
        ensures faults { result.faults ≡ 0 }
    {
        MemorySink {
            sink: SteadySink::new(alloc),
            failures: Failures::new(fail),
        }
    }

    /// The bytes taken.
    pub fn taken(&self) -> &[u8]
        ensures { result.now ≡ self.now.sink.taken }
    {
        self.sink.taken()
    }
}

impl Sink for MemorySink {
    ghost taken_bytes = { λ s. Some s.sink.taken };

    ghost spare = { λ s. s.sink.spare };

    ghost fault_count = { λ s. s.faults };

    fn faults(&self) -> u64 {
        self.failures.faults
    }

    fn reserve(&mut self, more: u64) -> Result<(), NoMemory> {
        self.sink.reserve(more)
    }

    fn write(&mut self, bytes: &[u8]) -> Result<(), WriteAnswer> {
        if self.failures.next_fails() {
            return Err(WriteAnswer::Failed);
        }
        self.sink.write(bytes)
    }
}

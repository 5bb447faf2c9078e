//! A sink over a writer, such as standard output.

ghost use Rattle.std.specs.Prelude.{None, ◌-◌, ◌^◌};

use crate::sink::{NoMemory, Sink, WriteAnswer};
use std::io::Write;

/// A sink over a writer. It does not tell what it took, and takes no memory.
#[derive(Drop)]
pub struct OutSink<W: Write> {
    out: W,
    faults: u64,
}

impl<W: Write> OutSink<W> {
    /// The sink over `out`.
    pub fn new(out: W) -> OutSink<W> {
        OutSink { out, faults: 0 }
    }
}

impl<W: Write> Sink for OutSink<W> {
    ghost taken_bytes = { λ s. None };

    ghost spare = { λ s. 2 ^ 64 - 1 };

    ghost fault_count = { λ s. s.faults };

    fn faults(&self) -> u64 {
        self.faults
    }

    fn reserve(&mut self, _more: u64) -> Result<(), NoMemory> {
        Ok(())
    }

    fn write(&mut self, bytes: &[u8]) -> Result<(), WriteAnswer> {
        if self.out.write_all(bytes).is_ok() && self.out.flush().is_ok() {
            return Ok(());
        }
        self.faults = self.faults.saturating_add(1);
        Err(WriteAnswer::Failed)
    }
}

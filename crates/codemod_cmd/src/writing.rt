//! Writes lines to the sink.

ghost use Rattle.std.specs.Prelude.{◌≡◌, ◌≤◌, length, OnOk, OnErr, IsErrOf};
ghost use Rattle.std.specs.Io.KnownBytes.{Appends};
ghost use Rattle.cm_store.specs.Faults.{Rose};
ghost use Rattle.cm_store.specs.Writing.{AppendsFront};

use crate::stop::Stop;
use cm_store::{Sink, WriteAnswer};

// The output failed, and counted it.
#[derive(Clone, Copy, Debug, PartialEq, Eq)]
pub struct Fault;

/// Writes a text for which the sink has memory.
pub fn write<O: Sink>(out: &mut O, text: &[u8]) -> Result<(), Fault>
    requires { length text.now ≤ O.spare out.old }
    ensures all { OnOk result (Appends (O.taken_bytes out.old) (O.taken_bytes out.new) text.now) }
    ensures front { OnErr result (AppendsFront (O.taken_bytes out.old) (O.taken_bytes out.new) text.now) }
    ensures later { O.fault_count out.old ≤ O.fault_count out.new }
    ensures fault { OnErr result (Rose (O.fault_count out.old) (O.fault_count out.new)) }
{
    match out.write(text) {
        Ok(()) => Ok(()),
        Err(WriteAnswer::Failed) => Err(Fault),
        Err(WriteAnswer::NoMemory) => Err(Fault),
    }
}

/// Writes the text, with memory taken for it before.
pub fn say<O: Sink>(out: &mut O, text: &[u8]) -> Result<(), Stop>
    ensures all { OnOk result (Appends (O.taken_bytes out.old) (O.taken_bytes out.new) text.now) }
    ensures front { OnErr result (AppendsFront (O.taken_bytes out.old) (O.taken_bytes out.new) text.now) }
    ensures later { O.fault_count out.old ≤ O.fault_count out.new }
    ensures fault { IsErrOf result Stop.OutputFault → Rose (O.fault_count out.old) (O.fault_count out.new) }
{
    if out.reserve(text.len() as u64).is_err() {
        return Err(Stop::NoMemory);
    }
    match out.write(text) {
        Ok(()) => Ok(()),
        Err(WriteAnswer::Failed) => Err(Stop::OutputFault),
        Err(WriteAnswer::NoMemory) => Err(Stop::NoMemory),
    }
}

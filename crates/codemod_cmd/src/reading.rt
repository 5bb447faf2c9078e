//! Reads a name from the store.

ghost use Rattle.std.specs.Prelude.{◌≡◌, ◌≤◌};
ghost use Rattle.codemod_cmd.specs.Rows.{Loads};

use cm_store::{ReadAnswer, Store};
use cm_text::MAX_LENGTH;
use run_report::RowError;
use std::alloc::Global;

/// Why there are no bytes.
#[derive(Debug, Drop)]
pub enum Unread {
    /// The name has none that may be read.
    Refused(RowError),
    /// There was not enough memory.
    NoMemory,
}

/// The bytes of the name.
pub fn load<S: Store>(alloc: Global, store: &mut S, name: &str) -> Result<Vec<u8>, Unread>
    ensures loads { Loads (S.contents store.old) (S.fault_count store.old) (S.fault_count store.new) name.now result }
    ensures kept { S.contents store.new ≡ S.contents store.old }
    ensures later { S.fault_count store.old ≤ S.fault_count store.new }
{
    match store.read(alloc, name, MAX_LENGTH as u64) {
        Ok(bytes) => Ok(bytes),
        Err(ReadAnswer::Missing) => Err(Unread::Refused(RowError::Missing)),
        Err(ReadAnswer::TooLong) => Err(Unread::Refused(RowError::TooLong)),
        Err(ReadAnswer::Failed) => Err(Unread::Refused(RowError::ReadFault)),
        Err(ReadAnswer::NoMemory) => Err(Unread::NoMemory),
    }
}

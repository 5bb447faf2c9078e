//! What stands under a name: a file, a folder, or nothing that a run can go on with.

ghost use Rattle.std.specs.Prelude.{◌≡◌, ◌≤◌, IfOk};
ghost use Rattle.codemod_cmd.specs.Folders.{place};
ghost use Rattle.codemod_cmd.specs.Rows.{Rises};
ghost use Rattle.codemod_cmd.specs.Sights.{IsSight, sight_faults};

use crate::folder::Pending;
use cm_store::{EntryList, ListAnswer, Listing, Store};
use run_report::RowError;
use std::alloc::{AllocError, Global};

/// What stands under a name.
#[derive(Debug, Drop)]
pub enum Sight {
    File,
    /// `unnamed` counts the entries with names that are not UTF-8.
    Folder { entries: EntryList, unnamed: u64 },
    Refused(RowError),
}

/// Folders are listed so many levels below the named ones, and no further.
const LAST_LEVEL: u32 = 64;

/// What stands under the name, so many levels below a named one.
pub fn look<S: Store>(
    alloc: Global,
    store: &mut S,
    level: u32,
    pending: &Pending,
) -> Result<Sight, AllocError>
    ensures sight { IfOk result (IsSight (S.contents store.old) (place level pending.now)) }
    ensures rises { IfOk result (λ sight. Rises (sight_faults sight) (S.fault_count store.old) (S.fault_count store.new)) }
    ensures kept { S.contents store.new ≡ S.contents store.old }
    ensures later { S.fault_count store.old ≤ S.fault_count store.new }
{
    if !pending.listed {
        return Ok(Sight::File);
    }
    if level > LAST_LEVEL {
        return Ok(Sight::Refused(RowError::FolderDeep));
    }
    match store.list(alloc, pending.name.get()) {
        Ok(Listing::File) => Ok(Sight::File),
        Ok(Listing::Folder { entries, unnamed }) => Ok(Sight::Folder { entries, unnamed }),
        Err(ListAnswer::Missing) => Ok(Sight::Refused(RowError::Missing)),
        Err(ListAnswer::Failed) => Ok(Sight::Refused(RowError::ListFault)),
        Err(ListAnswer::NoMemory) => Err(AllocError),
    }
}

//! Stores of named bytes.

ghost use Rattle.std.specs.Prelude.{◌≡◌, ◌⊎◌, ◌≤◌, ℕ, Option, IfSome, OnOk, IsErrOf};
ghost use Rattle.std.specs.FinMap.{get};
ghost use Rattle.cm_store.specs.Contents.{Contents, replaced};
ghost use Rattle.cm_store.specs.Faults.{Rose};
ghost use Rattle.cm_store.specs.Listing.{Lists};
ghost use Rattle.cm_store.specs.Reading.{Answers};

use crate::sink::WriteAnswer;
use sqlite_items::Items;
use std::alloc::Global;
use tree_core::Name;

/// Why a name was not read.
#[derive(Clone, Copy, Debug, PartialEq, Eq)]
pub enum ReadAnswer {
    /// The store has no file of the name.
    Missing,
    /// The file has more bytes than asked for.
    TooLong,
    /// The store failed, and counted it.
    Failed,
    /// There was not enough memory.
    NoMemory,
}

/// Why a name was not listed.
#[derive(Clone, Copy, Debug, PartialEq, Eq)]
pub enum ListAnswer {
    /// The store has neither a file nor a folder of the name.
    Missing,
    /// The store failed, and counted it.
    Failed,
    /// There was not enough memory.
    NoMemory,
}

/// What stands in a folder: its name there, and whether it is a folder itself.
#[derive(Debug, Drop)]
pub struct Entry {
    pub name: Name,
    pub folder: bool,
}

/// Entries in the order of their bytes.
pub type EntryList = Items<Entry>;

/// What stands under a name.
#[derive(Debug, Drop)]
pub enum Listing {
    File,
    /// `unnamed` counts the entries with names that are not UTF-8, which `entries` leaves out.
    Folder { entries: EntryList, unnamed: u64 },
}

/// Named bytes that may be read, listed and replaced.
///
/// A name may have slashes. Where some stored name goes on behind `folder/`, there is a folder of
/// that name, unless a file has it.
///
/// A store counts its failures, and the count never falls. It has 64 bits: at its end it stays.
pub trait Store {
    /// What the store holds, where it tells it.
    ghost contents: { Self → Option Contents };

    /// How often the store has failed.
    ghost fault_count: { Self → ℕ };

    /// How often the store has failed.
    fn faults(&self) -> u64
        ensures { result ≡ fault_count self.now };

    /// The bytes of the name, where there are at most `most`.
    fn read(&mut self, alloc: Global, name: &str, most: u64) -> Result<Vec<u8>, ReadAnswer>
        ensures answer { IfSome (contents self.old) (λ c. Answers (get c.files name.now) most result) }
        ensures kept { contents self.new ≡ contents self.old }
        ensures later { fault_count self.old ≤ fault_count self.new }
        ensures failed { IsErrOf result ReadAnswer.Failed → Rose (fault_count self.old) (fault_count self.new) };

    /// Whether the name is a file's or a folder's, and what stands in the folder.
    fn list(&mut self, alloc: Global, name: &str) -> Result<Listing, ListAnswer>
        ensures answer { IfSome (contents self.old) (λ c. Lists c name.now result) }
        ensures kept { contents self.new ≡ contents self.old }
        ensures later { fault_count self.old ≤ fault_count self.new }
        ensures failed { IsErrOf result ListAnswer.Failed → Rose (fault_count self.old) (fault_count self.new) };

    /// Lets the name hold the bytes. After `Failed` it holds these or what it held before.
    fn replace(&mut self, alloc: Global, name: &str, bytes: &[u8]) -> Result<(), WriteAnswer>
        ensures done { OnOk result (contents self.new ≡ replaced (contents self.old) name.now bytes.now) }
        ensures either { IsErrOf result WriteAnswer.Failed → (contents self.new ≡ contents self.old) ⊎ (contents self.new ≡ replaced (contents self.old) name.now bytes.now) }
        ensures kept { IsErrOf result WriteAnswer.NoMemory → contents self.new ≡ contents self.old }
        ensures later { fault_count self.old ≤ fault_count self.new }
        ensures failed { IsErrOf result WriteAnswer.Failed → Rose (fault_count self.old) (fault_count self.new) };
}

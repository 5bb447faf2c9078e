//! Stores in memory.

ghost use Rattle.std.specs.Prelude.{◌≡◌, Some};
ghost use Rattle.cm_store.specs.Files.{contents_of};

use crate::faults::Failures;
use crate::folders::list_name;
use crate::lists::{Calls, Files, UnnamedList};
use crate::sink::WriteAnswer;
use crate::store::{ListAnswer, Listing, ReadAnswer, Store};
use crate::stored::{read_file, replace_file};
use std::alloc::Global;
use std::marker::Model;

/// A store in memory that fails at listed calls, counted from 0 over all its calls but `faults`. Where
/// it fails it stays as it was.
#[derive(Debug, Drop)]
pub struct MemoryStore {
    files: Files,
    unnamed: UnnamedList,
    failures: Failures,
}

impl Model for MemoryStore {
    ghost use Rattle.cm_store.specs.States.{StoreState, state_code};
    ghost use Rattle.cm_store.specs.Files.{contents_of};

    ghost Value = { StoreState };

    ghost coded = { state_code };

    ghost view = { λ s. record { contents = contents_of s.files s.unnamed; faults = s.failures.faults } };
}

impl MemoryStore {
    /// The store of these files. In each of the first two lists the first of a name counts.
    pub fn new(files: Files, unnamed: UnnamedList, fail: Calls) -> MemoryStore
        ensures contents { result.contents ≡ contents_of files unnamed }
        ensures faults { result.faults ≡ 0 }
    {
        MemoryStore {
            files,
            unnamed,
            failures: Failures::new(fail),
        }
    }
}

impl Store for MemoryStore {
    ghost contents = { λ s. Some s.contents };

    ghost fault_count = { λ s. s.faults };

    fn faults(&self) -> u64 {
        self.failures.faults
    }

    fn read(&mut self, alloc: Global, name: &str, most: u64) -> Result<Vec<u8>, ReadAnswer> {
        if self.failures.next_fails() {
            return Err(ReadAnswer::Failed);
        }
        read_file(alloc, self.files.as_slice(), name, most)
    }

    fn list(&mut self, alloc: Global, name: &str) -> Result<Listing, ListAnswer> {
        if self.failures.next_fails() {
            return Err(ListAnswer::Failed);
        }
        list_name(alloc, self.files.as_slice(), self.unnamed.as_slice(), name)
    }

    fn replace(&mut self, alloc: Global, name: &str, bytes: &[u8]) -> Result<(), WriteAnswer> {
        if self.failures.next_fails() {
            return Err(WriteAnswer::Failed);
        }
        match replace_file(alloc, &mut self.files, name, bytes) {
            Ok(()) => Ok(()),
            Err(_) => Err(WriteAnswer::NoMemory),
        }
    }
}

/// A store in memory that never fails.
#[derive(Debug, Drop)]
pub struct SteadyStore {
    files: Files,
    unnamed: UnnamedList,
}

impl Model for SteadyStore {
    ghost use Rattle.cm_store.specs.Contents.{Contents, contents_code};
    ghost use Rattle.cm_store.specs.Files.{contents_of};

    ghost Value = { Contents };

    ghost coded = { contents_code };

    ghost view = { λ s. contents_of s.files s.unnamed };
}

impl SteadyStore {
    /// The store of these files. In each list the first of a name counts.
    pub fn new(files: Files, unnamed: UnnamedList) -> SteadyStore
        ensures { result ≡ contents_of files unnamed }
    {
        SteadyStore { files, unnamed }
    }
}

impl Store for SteadyStore {
    ghost contents = { λ s. Some s };

    ghost fault_count = { λ s. 0 };

    fn faults(&self) -> u64 {
        0
    }

    fn read(&mut self, alloc: Global, name: &str, most: u64) -> Result<Vec<u8>, ReadAnswer> {
        read_file(alloc, self.files.as_slice(), name, most)
    }

    fn list(&mut self, alloc: Global, name: &str) -> Result<Listing, ListAnswer> {
        list_name(alloc, self.files.as_slice(), self.unnamed.as_slice(), name)
    }

    fn replace(&mut self, alloc: Global, name: &str, bytes: &[u8]) -> Result<(), WriteAnswer> {
        match replace_file(alloc, &mut self.files, name, bytes) {
            Ok(()) => Ok(()),
            Err(_) => Err(WriteAnswer::NoMemory),
        }
    }
}

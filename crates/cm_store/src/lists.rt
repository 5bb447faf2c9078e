//! What stores and sinks in memory are made of.

ghost use Rattle.std.specs.Prelude.{◌≡◌, IfOk};

use sqlite_items::Items;
use std::alloc::{AllocError, Global};
use tree_core::{Bytes, Name};

/// The bytes under a name.
#[derive(Debug, Drop)]
pub struct StoredFile {
    pub name: Name,
    pub bytes: Bytes,
}

impl StoredFile {
    /// A copy of the bytes under a copy of the name.
    pub fn new(alloc: Global, name: &str, bytes: &[u8]) -> Result<StoredFile, AllocError>
        ensures name { IfOk result (λ f. f.name ≡ name.now) }
        ensures bytes { IfOk result (λ f. f.bytes ≡ bytes.now) }
    {
        let name = Name::new(String::from_str(alloc, name)?);
        let bytes = Bytes::new(bytes.to_vec(alloc)?);
        Ok(StoredFile { name, bytes })
    }
}

/// Files in order. Of several files of one name the first counts.
pub type Files = Items<StoredFile>;

/// How many entries of the folder have a name that is not UTF-8.
#[derive(Debug, Drop)]
pub struct UnnamedCount {
    pub name: Name,
    pub count: u64,
}

/// Counts in order. Of several counts of one name the first counts.
pub type UnnamedList = Items<UnnamedCount>;

/// Numbers of calls, from 0.
pub type Calls = Items<u64>;

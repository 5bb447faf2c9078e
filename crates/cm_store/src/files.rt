//! A store over real files. This is the trusted edge: no clause says what a file system holds.

ghost use Rattle.std.specs.Prelude.{◌≡◌, ◌≤◌, None, IsTrue};
ghost use Rattle.cm_store.specs.Faults.{Rose};

use crate::sink::WriteAnswer;
use crate::store::{Entry, EntryList, ListAnswer, Listing, ReadAnswer, Store};
use sqlite_items::Items;
use std::alloc::{AllocError, Global};
use std::fs::{self, DirEntry, File, Metadata, OpenFile, Permissions};
use std::io::{self, ErrorKind, Read, Write};
use std::rt::Files;
use tree_core::Name;

/// The files of a file system, under their paths. It does not tell what it holds.
///
/// Links are not followed: a link that a name leads to is missing, and in a folder it is passed
/// over, as is all that is neither a file nor a folder. A file that takes a link's place between
/// two system calls is not noticed, since `std` cannot open a file without following links.
#[derive(Drop)]
pub struct FileStore<'a, R: Files> {
    files: &'a R,
    faults: u64,
}

// What a path leads to.
#[derive(Drop)]
enum Found {
    File(Permissions),
    Folder,
    Other,
    Nothing,
}

// Nothing has the name: it is not there, or a part before its end is no folder.
fn is_missing(error: &io::Error) -> bool {
    error.kind() == ErrorKind::NotFound || error.kind() == ErrorKind::NotADirectory
}

fn sort_of(metadata: &Metadata) -> Found {
    if metadata.is_file() {
        return Found::File(metadata.permissions());
    }
    if metadata.is_dir() {
        return Found::Folder;
    }
    Found::Other
}

fn look_up<R: Files>(files: &R, name: &str) -> io::Result<Found> {
    match fs::symlink_metadata(files, name) {
        Ok(metadata) => Ok(sort_of(&metadata)),
        Err(error) if is_missing(&error) => Ok(Found::Nothing),
        Err(error) => Err(error),
    }
}

// The bytes of the file, or one more than `most` of them where it has more than that.
fn read_file<R: Files>(alloc: Global, files: &R, name: &str, most: u64) -> io::Result<Vec<u8>> {
    let file = fs::open(files, name)?;
    let mut bytes = Vec::new(alloc);
    file.take(most.saturating_add(1)).read_to_end(&mut bytes)?;
    Ok(bytes)
}

// The entry, unless it is a link or went away.
fn entry_of<'a, R: Files>(
    alloc: Global,
    entry: &DirEntry<(&'a R, Global), Global>,
) -> io::Result<Option<Entry>> {
    let folder = match entry.metadata() {
        Ok(metadata) => match sort_of(&metadata) {
            Found::File(_) => false,
            Found::Folder => true,
            Found::Other | Found::Nothing => return Ok(None),
        },
        Err(error) if is_missing(&error) => return Ok(None),
        Err(error) => return Err(error),
    };
    let name = Name::new(String::from_str(alloc, entry.file_name())?);
    Ok(Some(Entry { name, folder }))
}

// The entries of the folder and how many have no name.
fn read_folder<R: Files>(alloc: Global, files: &R, name: &str) -> io::Result<(EntryList, u64)> {
    let mut entries: Vec<Entry> = Vec::new(alloc);
    let mut unnamed = 0u64;
    for found in fs::read_dir(&(files, alloc), name)? {
        match found {
            Ok(found) => {
                if let Some(entry) = entry_of(alloc, &found)? {
                    entries.push(entry)?;
                }
            }
            // What `read_dir` gives for a name that is not UTF-8.
            Err(error) if error.kind() == ErrorKind::InvalidFilename => {
                unnamed = unnamed.saturating_add(1);
            }
            Err(error) => return Err(error),
        }
    }
    entries.sort_unstable_by(|a, b| a.name.get().cmp(b.name.get()));
    Ok((Items::from_vec(entries), unnamed))
}

// A path that ends in a slash would lead through a link.
fn without_slashes(name: &str) -> &str {
    let bare = name.trim_end_matches('/');
    if bare.is_empty() { name } else { bare }
}

// The name of the file that is written beside the named one.
fn name_beside(alloc: Global, name: &str) -> Result<String, AllocError> {
    let mut beside = String::from_str(alloc, name)?;
    beside.push_str(".codemod-new")?;
    Ok(beside)
}

// Fills a file that was just made, which is to have these permissions.
fn fill<F: Write + OpenFile>(
    file: &mut F,
    bytes: &[u8],
    permissions: Option<Permissions>,
) -> io::Result<()> {
    file.write_all(bytes)?;
    if let Some(permissions) = permissions {
        file.set_permissions(permissions)?;
    }
    file.sync_all()
}

// Writes the bytes to a new file and gives that the name. Where this fails, the new file goes.
fn write_beside<R: Files>(
    files: &R,
    beside: &str,
    name: &str,
    bytes: &[u8],
    permissions: Option<Permissions>,
) -> io::Result<()> {
    let mut file = File::create_new(files, beside)?;
    let written = match fill(&mut file, bytes, permissions) {
        Ok(()) => fs::rename(files, beside, name),
        Err(error) => Err(error),
    };
    if written.is_err() {
        let _ = fs::remove_file(files, beside);
    }
    written
}

impl<'a, R: Files> FileStore<'a, R> {
    /// The store of the files that `files` reaches.
    pub fn new(files: &'a R) -> FileStore<'a, R> {
        FileStore { files, faults: 0 }
    }

    // Counts the error, unless it is want of memory.
    fn counts(&mut self, error: &io::Error) -> bool
        ensures later { self.old.faults ≤ self.new.faults }
        ensures counted { IsTrue result → Rose self.old.faults self.new.faults }
    {
        if error.kind() == ErrorKind::OutOfMemory {
            return false;
        }
        self.faults = self.faults.saturating_add(1);
        true
    }

    fn refuse_read(&mut self, error: &io::Error) -> ReadAnswer
        ensures later { self.old.faults ≤ self.new.faults }
        ensures failed { result ≡ ReadAnswer.Failed → Rose self.old.faults self.new.faults }
    {
        if self.counts(error) {
            return ReadAnswer::Failed;
        }
        ReadAnswer::NoMemory
    }

    fn refuse_list(&mut self, error: &io::Error) -> ListAnswer
        ensures later { self.old.faults ≤ self.new.faults }
        ensures failed { result ≡ ListAnswer.Failed → Rose self.old.faults self.new.faults }
    {
        if self.counts(error) {
            return ListAnswer::Failed;
        }
        ListAnswer::NoMemory
    }

    fn refuse_write(&mut self) -> WriteAnswer
        ensures later { self.old.faults ≤ self.new.faults }
        ensures rose { Rose self.old.faults self.new.faults }
    {
        self.faults = self.faults.saturating_add(1);
        WriteAnswer::Failed
    }
}

impl<'a, R: Files> Store for FileStore<'a, R> {
    ghost contents = { λ s. None };

    ghost fault_count = { λ s. s.faults };

    fn faults(&self) -> u64 {
        self.faults
    }

    fn read(&mut self, alloc: Global, name: &str, most: u64) -> Result<Vec<u8>, ReadAnswer> {
        match look_up(self.files, name) {
            Ok(Found::File(_)) => {}
            Ok(_) => return Err(ReadAnswer::Missing),
            Err(error) => return Err(self.refuse_read(&error)),
        }
        match read_file(alloc, self.files, name, most) {
            Ok(bytes) if bytes.len() as u64 > most => Err(ReadAnswer::TooLong),
            Ok(bytes) => Ok(bytes),
            Err(error) => Err(self.refuse_read(&error)),
        }
    }

    fn list(&mut self, alloc: Global, name: &str) -> Result<Listing, ListAnswer> {
        match look_up(self.files, without_slashes(name)) {
            Ok(Found::Folder) => {}
            Ok(Found::File(_)) => return Ok(Listing::File),
            Ok(_) => return Err(ListAnswer::Missing),
            Err(error) => return Err(self.refuse_list(&error)),
        }
        match read_folder(alloc, self.files, name) {
            Ok((entries, unnamed)) => Ok(Listing::Folder { entries, unnamed }),
            Err(error) => Err(self.refuse_list(&error)),
        }
    }

    // The new file has the old one's permissions. Its owner is whoever runs the program.
    fn replace(&mut self, alloc: Global, name: &str, bytes: &[u8]) -> Result<(), WriteAnswer> {
        let permissions = match look_up(self.files, name) {
            Ok(Found::File(permissions)) => Some(permissions),
            Ok(Found::Nothing) => None,
            Ok(_) => return Err(self.refuse_write()),
            Err(_) => return Err(self.refuse_write()),
        };
        let Ok(beside) = name_beside(alloc, name) else {
            return Err(WriteAnswer::NoMemory);
        };
        match write_beside(self.files, &beside, name, bytes, permissions) {
            Ok(()) => Ok(()),
            Err(_) => Err(self.refuse_write()),
        }
    }
}

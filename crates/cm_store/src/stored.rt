//! Lists of stored files as maps from names to bytes.

ghost use Rattle.std.specs.Prelude.{◌≡◌, is_none, ◌≢◌, Err, OnOk, OnErr};
ghost use Rattle.std.specs.List.{list_any, position};
ghost use Rattle.std.specs.Str.{bytes_eq};
ghost use Rattle.std.specs.FinMap.{get, insert};
ghost use Rattle.cm_store.specs.Files.{files_of};
ghost use Rattle.cm_store.specs.Reading.{Answers};

use crate::lists::{Files, StoredFile};
use crate::store::ReadAnswer;
use std::alloc::{AllocError, Global};

/// Where the first file of the name stands.
pub fn place_of(files: &[StoredFile], name: &str) -> Option<usize>
    ensures { result ≡ position (λ f. bytes_eq name.now f.name) files.now }
{
    files.iter().position(|file| name == file.name.get())
}

// Whether some file has the name.
fn has_name(files: &[StoredFile], name: &str) -> bool
    ensures { result ≡ list_any (λ f. bytes_eq name.now f.name) files.now }
{
    files.iter().any(|file| name == file.name.get())
}

/// Whether no file has the name.
pub fn is_missing(files: &[StoredFile], name: &str) -> bool
    ensures { result ≡ is_none (get (files_of files.now) name.now) }
{
    !has_name(files, name)
}

/// A read of these files, which never fails.
pub fn read_file(
    alloc: Global,
    files: &[StoredFile],
    name: &str,
    most: u64,
) -> Result<Vec<u8>, ReadAnswer>
    ensures answer { Answers (get (files_of files.now) name.now) most result }
    ensures steady { result ≢ Err ReadAnswer.Failed }
{
    let Some(place) = place_of(files, name) else {
        return Err(ReadAnswer::Missing);
    };
    let bytes = files[place].bytes.get();
    if bytes.len() as u64 > most {
        return Err(ReadAnswer::TooLong);
    }
    match bytes.to_vec(alloc) {
        Ok(copy) => Ok(copy),
        Err(_) => Err(ReadAnswer::NoMemory),
    }
}

/// Puts the bytes in place of those of the name's first file, or a file of the name at the end.
pub fn replace_file(
    alloc: Global,
    files: &mut Files,
    name: &str,
    bytes: &[u8],
) -> Result<(), AllocError>
    ensures done { OnOk result (files_of files.new ≡ insert (files_of files.old) name.now bytes.now) }
    ensures kept { OnErr result (files.new ≡ files.old) }
{
    let file = StoredFile::new(alloc, name, bytes)?;
    let Some(place) = place_of(files.as_slice(), name) else {
        files.push(file)?;
        return Ok(());
    };
    files.set(place, file);
    Ok(())
}

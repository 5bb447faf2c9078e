//! The names in a folder that a run comes to.

ghost use Rattle.std.specs.Prelude.{◌≡◌, ◌++◌, ◌∷◌, [], IfOk, OnOk, if◌then◌else◌, map, string_bytes, nat_eq};
ghost use Rattle.std.specs.List.{filter, list_any};
ghost use Rattle.cm_store.specs.Listing.{front_of};
ghost use Rattle.codemod_cmd.specs.Folders as spec;

use cm_store::{Entry, EntryList};
use std::alloc::{AllocError, Global};
use tree_core::{Name, Names};

/// A name whose rows are still to come.
#[derive(Debug, Drop)]
pub struct Pending {
    pub name: Name,
    /// It may be a folder's.
    pub listed: bool,
}

// Whether the name ends in a dot and the extension.
fn has_extension(name: &[u8], extension: &[u8]) -> bool
    ensures { result ≡ spec.has_extension name.now extension.now }
{
    if name.len() <= extension.len() {
        return false;
    }
    let dot = name.len() - extension.len() - 1;
    name[dot] == b'.' && name.ends_with(extension)
}

fn has_any_extension(name: &str, extensions: &[Name]) -> bool
    ensures { result ≡ list_any (spec.has_extension name.now) extensions.now }
{
    extensions.iter().any(|extension| has_extension(name.as_bytes(), extension.get().as_bytes()))
}

// Whether the entry is not passed over.
fn is_taken(extensions: &Names, entry: &Entry) -> bool
    ensures { result ≡ spec.is_taken extensions.now entry.now }
{
    let name = entry.name.get();
    !name.as_bytes().starts_with(b".")
        && name != "node_modules"
        && (entry.folder || has_any_extension(name, extensions.as_slice()))
}

// The entry under its whole name.
fn inner(alloc: Global, folder: &str, entry: &Entry) -> Result<Pending, AllocError>
    ensures { IfOk result (λ p. p ≡ spec.inner folder.now entry.now) }
{
    let mut name = String::from_str(alloc, folder)?;
    if !folder.as_bytes().ends_with(b"/") {
        name.push_str("/")?;
    }
    name.push_str(entry.name.get())?;
    let name = Name::new(name);
    let listed = entry.folder;
    Ok(Pending { name, listed })
}

// Adds the entry unless it is passed over.
fn add(
    alloc: Global,
    extensions: &Names,
    folder: &str,
    entry: &Entry,
    names: &mut Vec<Pending>,
) -> Result<(), AllocError>
    ensures { OnOk result (names.new.items ≡ names.old.items ++ (if spec.is_taken extensions.now entry.now then spec.inner folder.now entry.now ∷ [] else [])) }
{
    if !is_taken(extensions, entry) {
        return Ok(());
    }
    names.push(inner(alloc, folder, entry)?)?;
    Ok(())
}

/// The names in the folder that are not passed over, in the order of the entries.
pub fn inside(
    alloc: Global,
    extensions: &Names,
    folder: &str,
    entries: &EntryList,
) -> Result<Vec<Pending>, AllocError>
    ensures { IfOk result (λ v. v.items ≡ spec.inside extensions.now folder.now entries.now) }
{
    let mut names = Vec::new(alloc);
    for entry in entries.as_slice() {
        add(alloc, extensions, folder, entry, &mut names)?;
    }
    Ok(names)
}

// A name that may be a folder's.
fn copied(alloc: Global, name: &Name) -> Result<Pending, AllocError>
    ensures { IfOk result (λ p. p ≡ spec.word name.now) }
{
    let name = Name::new(String::from_str(alloc, name.get())?);
    let listed = true;
    Ok(Pending { name, listed })
}

/// The names that the words give, each of which may be a folder's.
pub fn named(alloc: Global, names: &Names) -> Result<Vec<Pending>, AllocError>
    ensures { IfOk result (λ v. v.items ≡ spec.named names.now) }
{
    let mut all = Vec::new(alloc);
    for name in names.as_slice() {
        all.push(copied(alloc, name)?)?;
    }
    Ok(all)
}

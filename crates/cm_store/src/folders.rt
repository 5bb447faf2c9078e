//! What stands in a folder of a list of stored files.

ghost use Rattle.std.specs.Prelude.{◌≡◌, ◌≢◌, ◌↔◌, ℕ, ◌++◌, ◌||◌, IsTrue, List, length, drop, map, All, Err, None, Some, OnOk, IfOk, if◌then◌else◌, unwrap_or, is_none, string_bytes};
ghost use Rattle.std.specs.Option.{option_map, option_copied};
ghost use Rattle.std.specs.List.{list_any, find};
ghost use Rattle.std.specs.Str.{bytes_eq};
ghost use Rattle.std.specs.List.Sorted.{IsStrictlySortedBy};
ghost use Rattle.std.specs.Ordering.{nat_cmp};
ghost use Rattle.std.specs.Cmp.Lexicographic.{slice_cmp};
ghost use Rattle.std.specs.FinMap.{get};
ghost use Rattle.std.specs.BTreeSet.{contains_text};
ghost use Rattle.cm_store.specs.Below.{is_below, has_part};
ghost use Rattle.cm_store.specs.Files.{files_of, counts_of, contents_of};
ghost use Rattle.cm_store.specs.Listing.{Lists, HasEntries, IsFolder, front_of, part_of};

use crate::lists::{StoredFile, UnnamedCount};
use crate::store::{Entry, EntryList, ListAnswer, Listing};
use crate::stored::is_missing;
use sqlite_items::Items;
use std::alloc::{AllocError, Global};
use std::collections::BTreeSet;
use tree_core::Name;

// What the names of all that stands in the folder begin with.
fn front(alloc: Global, name: &str) -> Result<String, AllocError>
    ensures { IfOk result (λ s. string_bytes s ≡ front_of name.now) }
{
    let mut front = String::from_str(alloc, name)?;
    if !name.as_bytes().ends_with(b"/") {
        front.push_str("/")?;
    }
    Ok(front)
}

// What follows the front in the name.
fn behind<'a>(name: &'a str, front: &str) -> Option<&'a str>
    ensures { option_map (λ r. r.now) result ≡ (if is_below front.now name.now then Some (drop (length front.now) name.now) else None) }
{
    name.strip_prefix(front)
}

// The part of the rest of a name before its first slash.
fn first_part(rest: &str) -> &str
    ensures { result.now ≡ part_of rest.now }
{
    match rest.split_once('/') {
        Some((part, _)) => part,
        None => rest,
    }
}

// Adds the part that the name goes on with behind the front, where it has one.
fn add_part(
    alloc: Global,
    parts: &mut BTreeSet<String>,
    name: &str,
    front: &str,
) -> Result<(), AllocError>
    ensures { OnOk result ((q : List ℕ) → contains_text parts.new q ≡ (contains_text parts.old q || has_part front.now q name.now)) }
{
    let Some(rest) = behind(name, front) else {
        return Ok(());
    };
    let part = first_part(rest);
    if part.is_empty() {
        return Ok(());
    }
    let part = String::from_str(alloc, part)?;
    match parts.insert(part) {
        Ok(_) => {}
        Err(_) => return Err(AllocError),
    }
    Ok(())
}

// The parts that the names go on with behind the front.
fn parts_below(
    alloc: Global,
    files: &[StoredFile],
    front: &str,
) -> Result<BTreeSet<String>, AllocError>
    ensures { IfOk result (λ s. (q : List ℕ) → contains_text s q ≡ list_any (λ f. has_part front.now q f.name) files.now) }
{
    let mut parts = BTreeSet::new(alloc);
    for file in files {
        add_part(alloc, &mut parts, file.name.get(), front)?;
    }
    Ok(parts)
}

// Whether the name of front and part is no file's.
fn is_no_file(
    alloc: Global,
    files: &[StoredFile],
    front: &str,
    part: &str,
) -> Result<bool, AllocError>
    ensures { IfOk result (λ b. b ≡ is_none (get (files_of files.now) (front.now ++ part.now))) }
{
    let mut name = String::from_str(alloc, front)?;
    name.push_str(part)?;
    Ok(is_missing(files, &name))
}

// The entry of the part.
fn entry_of(
    alloc: Global,
    files: &[StoredFile],
    front: &str,
    part: String,
) -> Result<Entry, AllocError>
    ensures name { IfOk result (λ e. e.name ≡ string_bytes part) }
    ensures folder { IfOk result (λ e. IsTrue e.folder ↔ (get (files_of files.now) (front.now ++ e.name) ≡ None)) }
{
    let folder = is_no_file(alloc, files, front, &part)?;
    let name = Name::new(part);
    Ok(Entry { name, folder })
}

// The entries of these parts.
fn entries_of(
    alloc: Global,
    files: &[StoredFile],
    front: &str,
    parts: BTreeSet<String>,
) -> Result<EntryList, AllocError>
    ensures names { IfOk result (λ es. map (λ e. e.name) es ≡ map (λ s. string_bytes s) parts.keys) }
    ensures order { IfOk result (λ es. IsStrictlySortedBy (slice_cmp nat_cmp) (map (λ e. e.name) es)) }
    ensures folders { IfOk result (λ es. All (λ e. IsTrue e.folder ↔ (get (files_of files.now) (front.now ++ e.name) ≡ None)) es) }
{
    let mut entries = Items::new(alloc);
    for part in parts {
        entries.push(entry_of(alloc, files, front, part)?)?;
    }
    Ok(entries)
}

// All that stands behind the front.
fn entries_below(alloc: Global, files: &[StoredFile], front: &str) -> Result<EntryList, AllocError>
    ensures { IfOk result (HasEntries (files_of files.now) front.now) }
{
    let parts = parts_below(alloc, files, front)?;
    let entries = entries_of(alloc, files, front, parts)?;
    Ok(entries)
}

// Whether some name begins with the front.
fn has_below(files: &[StoredFile], front: &str) -> bool
    ensures { result ≡ list_any (λ f. is_below front.now f.name) files.now }
{
    files.iter().any(|file| file.name.get().as_bytes().starts_with(front.as_bytes()))
}

// The first count of the name.
fn find_count<'a>(counts: &'a [UnnamedCount], name: &str) -> Option<&'a UnnamedCount>
    ensures { option_copied result ≡ find (λ c. bytes_eq name.now c.name) counts.now }
{
    counts.iter().find(|count| name == count.name.get())
}

// The first count of the name, or 0.
fn count_of(counts: &[UnnamedCount], name: &str) -> u64
    ensures { result ≡ unwrap_or (get (counts_of counts.now) name.now) 0 }
{
    match find_count(counts, name) {
        Some(count) => count.count,
        None => 0,
    }
}

/// The answer to a listing of the name, which never fails.
pub fn list_name(
    alloc: Global,
    files: &[StoredFile],
    counts: &[UnnamedCount],
    name: &str,
) -> Result<Listing, ListAnswer>
    ensures answer { Lists (contents_of files.now counts.now) name.now result }
    ensures steady { result ≢ Err ListAnswer.Failed }
{
    if !is_missing(files, name) {
        return Ok(Listing::File);
    }
    let Ok(front) = front(alloc, name) else {
        return Err(ListAnswer::NoMemory);
    };
    if !has_below(files, &front) {
        return Err(ListAnswer::Missing);
    }
    let Ok(entries) = entries_below(alloc, files, &front) else {
        return Err(ListAnswer::NoMemory);
    };
    let unnamed = count_of(counts, name);
    Ok(Listing::Folder { entries, unnamed })
}

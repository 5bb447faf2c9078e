//! What callers learn from the traits alone, and runs in memory that fail at each call in turn.

ghost use Rattle.std.specs.Prelude.{◌≡◌, ◌≢◌, ◌++◌, Err, IsErrOf, OnOk};
ghost use Rattle.std.specs.Io.KnownBytes.{Appends};
ghost use Rattle.cm_store.specs.Faults.{Rose};

use cm_store::{
    Calls, FileStore, Files, Listing, MemorySink, MemoryStore, ReadAnswer, Sink, SteadyStore,
    Store, StoredFile, UnnamedCount, UnnamedList, WriteAnswer,
};
use sqlite_items::Items;
use std::alloc::{AllocError, Global};
use std::os::unix::fs::{PermissionsExt, symlink};
use std::test::Fail;
use std::{env, fs, process};
use tree_core::Name;

// A cause in one of several calls is a cause in all of them.
fn read_both<S: Store>(
    alloc: Global,
    store: &mut S,
    first: &str,
    second: &str,
) -> Result<(), ReadAnswer>
    ensures kept { S.contents store.new ≡ S.contents store.old }
    ensures failed { IsErrOf result ReadAnswer.Failed → Rose (S.fault_count store.old) (S.fault_count store.new) }
{
    match store.read(alloc, first, 10) {
        Ok(_) => {}
        Err(answer) => return Err(answer),
    }
    match store.read(alloc, second, 10) {
        Ok(_) => Ok(()),
        Err(answer) => Err(answer),
    }
}

// The same of two writes, which take both texts.
fn write_both<O: Sink>(sink: &mut O, first: &[u8], second: &[u8]) -> Result<(), WriteAnswer>
    ensures all { OnOk result (Appends (O.taken_bytes sink.old) (O.taken_bytes sink.new) (first.now ++ second.now)) }
    ensures failed { IsErrOf result WriteAnswer.Failed → Rose (O.fault_count sink.old) (O.fault_count sink.new) }
{
    sink.write(first)?;
    sink.write(second)
}

// A steady store never fails: its count stays 0.
fn read_steadily(alloc: Global, store: &mut SteadyStore) -> Result<Vec<u8>, ReadAnswer>
    ensures { result ≢ Err ReadAnswer.Failed }
{
    store.read(alloc, "a.js", 10)
}

fn files(alloc: Global) -> Result<Files, AllocError> {
    let mut files = Items::new(alloc);
    files.push(StoredFile::new(alloc, "a.js", b"let a;")?)?;
    files.push(StoredFile::new(alloc, "b.js", b"")?)?;
    files.push(StoredFile::new(alloc, "a.js", b"second")?)?;
    Ok(files)
}

// Each read by name, greatest length and answer.
const READS: [(&str, u64, Result<&[u8], ReadAnswer>); 5] = [
    ("a.js", 6, Ok(b"let a;")),
    ("a.js", 5, Err(ReadAnswer::TooLong)),
    ("b.js", 0, Ok(b"")),
    ("c.js", 9, Err(ReadAnswer::Missing)),
    ("a.j", 9, Err(ReadAnswer::Missing)),
];

#[test]
fn reads_fail_where_listed(rt: HostRuntime) -> Result<(), Fail> {
    let alloc = rt.alloc();
    for failing in 0..6u64 {
        let fail: Calls = Items::from_slice(alloc, &[failing])?;
        let unnamed: UnnamedList = Items::new(alloc);
        let mut store = MemoryStore::new(files(alloc)?, unnamed, fail);
        for (call, (name, most, wanted)) in READS.iter().enumerate() {
            let wanted = if call as u64 == failing {
                Err(ReadAnswer::Failed)
            } else {
                *wanted
            };
            let read = store.read(alloc, name, *most);
            let answer = match &read {
                Ok(bytes) => Ok(bytes.as_slice()),
                Err(answer) => Err(*answer),
            };
            assert!(rt;
                answer == wanted,
                "call {call} of {name}, failing at {failing}"
            );
            let _ = store.faults();
        }
        assert_eq!(rt; store.faults(), if failing < 5 { 1 } else { 0 });
    }
    Ok(())
}

#[test]
fn writes_fail_where_listed(rt: HostRuntime) -> Result<(), Fail> {
    let alloc = rt.alloc();
    let taken: [&[u8]; 4] = [b"twothree", b"onethree", b"onetwo", b"onetwothree"];
    for (failing, wanted) in taken.iter().enumerate() {
        let fail: Calls = Items::from_slice(alloc, &[failing as u64])?;
        let mut sink = MemorySink::new(alloc, fail);
        for (call, text) in ["one", "two", "three"].iter().enumerate() {
            assert!(rt; sink.reserve(100).is_ok());
            let answer = sink.write(text.as_bytes());
            assert_eq!(rt; answer.is_err(), call == failing);
        }
        assert!(rt; sink.taken() == *wanted, "failing at {failing}");
        assert_eq!(rt; sink.faults(), if failing < 3 { 1 } else { 0 });
    }
    let mut sink = MemorySink::new(alloc, Items::new(alloc));
    assert_eq!(rt; write_both(&mut sink, b"one", b"two"), Ok(()));
    assert_eq!(rt; sink.taken(), b"onetwo".as_slice());
    Ok(())
}

#[test]
fn answers_reach_the_caller(rt: HostRuntime) -> Result<(), Fail> {
    let alloc = rt.alloc();
    let fail: Calls = Items::from_slice(alloc, &[1])?;
    let mut store = MemoryStore::new(files(alloc)?, Items::new(alloc), fail);
    assert_eq!(rt;
        read_both(alloc, &mut store, "a.js", "b.js"),
        Err(ReadAnswer::Failed)
    );
    assert_eq!(rt;
        read_both(alloc, &mut store, "a.js", "c.js"),
        Err(ReadAnswer::Missing)
    );
    assert_eq!(rt; read_both(alloc, &mut store, "a.js", "b.js"), Ok(()));
    let mut steady = SteadyStore::new(files(alloc)?, Items::new(alloc));
    assert!(rt; read_steadily(alloc, &mut steady).is_ok());
    Ok(())
}

// What a listing answers, in one line: `file`, or the entries, folders with a slash, and the
// number of the unnamed.
fn listed<S: Store>(alloc: Global, store: &mut S, name: &str) -> Result<String, AllocError> {
    let (entries, unnamed) = match store.list(alloc, name) {
        Ok(Listing::File) => return String::from_str(alloc, "file"),
        Ok(Listing::Folder { entries, unnamed }) => (entries, unnamed),
        Err(answer) => return format!(in alloc; "{answer:?}"),
    };
    let mut line = String::new(alloc);
    for entry in entries.as_slice() {
        line.push_str(entry.name.get())?;
        line.push_str(if entry.folder { "/ " } else { " " })?;
    }
    let count = format!(in alloc; "{unnamed}")?;
    line.push_str(&count)?;
    Ok(line)
}

fn holds<S: Store>(alloc: Global, store: &mut S, name: &str, wanted: &[u8]) -> bool {
    match store.read(alloc, name, 9) {
        Ok(bytes) => bytes.as_slice() == wanted,
        Err(_) => false,
    }
}

// A store of empty files of these names, and three unnamed entries in `d`.
fn store_of_names(alloc: Global, names: &[&str]) -> Result<SteadyStore, AllocError> {
    let mut files = Items::new(alloc);
    for name in names.iter().copied() {
        files.push(StoredFile::new(alloc, name, b"")?)?;
    }
    let mut unnamed = Items::new(alloc);
    let name = Name::new(String::from_str(alloc, "d")?);
    unnamed.push(UnnamedCount { name, count: 3 })?;
    Ok(SteadyStore::new(files, unnamed))
}

#[test]
fn lists_by_the_stored_names(rt: HostRuntime) -> Result<(), Fail> {
    let alloc = rt.alloc();
    let names = [
        "d/n", "d/b/e.js", "d/b/c.js", "d/a.js", "d/Z.js", "d//x", "d/n/m", "e/",
    ];
    let mut store = store_of_names(alloc, &names)?;
    let cases = [
        ("d", "Z.js a.js b/ n 3"),
        ("d/", "Z.js a.js b/ n 0"),
        ("d//", "x 0"),
        ("d/b", "c.js e.js 0"),
        ("d/n", "file"),
        ("e", "0"),
        ("e/", "file"),
        ("d/a", "Missing"),
        ("", "Missing"),
    ];
    for (name, wanted) in cases {
        let line = listed(alloc, &mut store, name)?;
        assert_eq!(rt; line.as_str(), wanted, "{name}");
    }
    Ok(())
}

#[test]
fn replaces_what_a_name_holds(rt: HostRuntime) -> Result<(), Fail> {
    let alloc = rt.alloc();
    let fail: Calls = Items::from_slice(alloc, &[0, 2])?;
    let mut store = MemoryStore::new(files(alloc)?, Items::new(alloc), fail);
    assert_eq!(rt;
        store.replace(alloc, "a.js", b"lost"),
        Err(WriteAnswer::Failed)
    );
    assert!(rt; holds(alloc, &mut store, "a.js", b"let a;"));
    assert_eq!(rt; listed(alloc, &mut store, "a.js")?.as_str(), "Failed");
    store.replace(alloc, "a.js", b"new")?;
    store.replace(alloc, "c/d.js", b"more")?;
    assert!(rt; holds(alloc, &mut store, "a.js", b"new"));
    assert!(rt; holds(alloc, &mut store, "b.js", b""));
    assert!(rt; holds(alloc, &mut store, "c/d.js", b"more"));
    assert_eq!(rt; store.faults(), 2);
    Ok(())
}

// An empty folder for the test of this name.
fn scratch_folder(rt: &HostRuntime, test: &str) -> Result<String, Fail> {
    let name = format!(in rt.alloc(); "cm_store-{test}-{}", process::id(rt.process()))?;
    let path = env::temp_dir(rt)?.join(rt.alloc(), name.as_str())?;
    let folder = String::from_str(rt.alloc(), path.as_path().as_str())?;
    fs::create_dir(rt, folder.as_str())?;
    Ok(folder)
}

fn below(alloc: Global, folder: &str, part: &str) -> Result<String, AllocError> {
    format!(in alloc; "{folder}/{part}")
}

#[test]
fn replaces_real_files(rt: HostRuntime) -> Result<(), Fail> {
    let alloc = rt.alloc();
    let folder = scratch_folder(&rt, "replace")?;
    let old = below(alloc, &folder, "old.js")?;
    let new = below(alloc, &folder, "new.js")?;
    fs::write(&rt, old.as_str(), "let a;")?;
    fs::set_permissions(&rt, old.as_str(), fs::Permissions::from_mode(0o640))?;

    let mut store = FileStore::new(&rt);
    assert_eq!(rt; store.replace(alloc, &old, b"let b;"), Ok(()));
    assert_eq!(rt; store.replace(alloc, &new, b"let c;"), Ok(()));
    assert!(rt; holds(alloc, &mut store, &old, b"let b;"));
    assert!(rt; holds(alloc, &mut store, &new, b"let c;"));
    assert_eq!(rt;
        listed(alloc, &mut store, &folder)?.as_str(),
        "new.js old.js 0"
    );
    assert_eq!(rt; store.faults(), 0);
    let mode = fs::metadata(&rt, old.as_str())?.permissions().mode();
    assert_eq!(rt; mode & 0o777, 0o640);
    fs::remove_dir_all(&rt, folder.as_str())?;
    Ok(())
}

#[test]
fn follows_no_link(rt: HostRuntime) -> Result<(), Fail> {
    let alloc = rt.alloc();
    let folder = scratch_folder(&rt, "link")?;
    let file = below(alloc, &folder, "a.js")?;
    let inner = below(alloc, &folder, "inner")?;
    let link = below(alloc, &folder, "link.js")?;
    fs::write(&rt, file.as_str(), "let a;")?;
    fs::create_dir(&rt, inner.as_str())?;
    symlink(&rt, file.as_str(), link.as_str())?;

    let mut store = FileStore::new(&rt);
    assert_eq!(rt;
        listed(alloc, &mut store, &folder)?.as_str(),
        "a.js inner/ 0"
    );
    assert_eq!(rt; listed(alloc, &mut store, &link)?.as_str(), "Missing");
    assert!(rt; matches!(store.read(alloc, &link, 9), Err(ReadAnswer::Missing)));
    assert!(rt; matches!(store.read(alloc, &inner, 9), Err(ReadAnswer::Missing)));
    assert!(rt; matches!(store.read(alloc, &file, 5), Err(ReadAnswer::TooLong)));
    assert_eq!(rt; store.faults(), 0);
    assert_eq!(rt;
        store.replace(alloc, &link, b"let b;"),
        Err(WriteAnswer::Failed)
    );
    assert_eq!(rt; store.faults(), 1);
    assert!(rt; holds(alloc, &mut store, &file, b"let a;"));
    fs::remove_dir_all(&rt, folder.as_str())?;
    Ok(())
}

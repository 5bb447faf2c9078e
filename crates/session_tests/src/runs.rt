//! Runs over files in memory.

use crate::changes::{CHANGES, DEEPENING};
use crate::layouts::LAYOUTS;
use crate::tables::{LIMITS, NO_TEXTS, RENAMED, ROWS, RUNS, SCRIPT, SCRIPT_RUNS, SOURCE};
use cm_store::{
    Calls, Files, MemorySink, MemoryStore, Store, StoredFile, UnnamedCount, UnnamedList,
};
use codemod_cmd::{Status, run};
use sqlite_items::Items;
use std::alloc::{AllocError, Global};
use std::test::Fail;
use tree_core::Name;

fn calls(alloc: Global, fail: Option<u64>) -> Result<Calls, AllocError> {
    let mut calls: Calls = Items::new(alloc);
    if let Some(call) = fail {
        calls.push(call)?;
    }
    Ok(calls)
}

// The script, where there is one, and the files, each of which holds the source. One call may fail.
fn store_of(
    alloc: Global,
    script: Option<&str>,
    names: &[&str],
    source: &[u8],
    fail: Option<u64>,
) -> Result<MemoryStore, AllocError> {
    let script = match script {
        Some(script) => Some(script.as_bytes()),
        None => None,
    };
    store_of_bytes(alloc, script, names, source, fail)
}

fn store_of_bytes(
    alloc: Global,
    script: Option<&[u8]>,
    names: &[&str],
    source: &[u8],
    fail: Option<u64>,
) -> Result<MemoryStore, AllocError> {
    let mut files: Files = Items::new(alloc);
    if let Some(script) = script {
        files.push(StoredFile::new(alloc, "s.js", script)?)?;
    }
    for name in names {
        files.push(StoredFile::new(alloc, name, source)?)?;
    }
    let mut unnamed: UnnamedList = Items::new(alloc);
    let name = Name::new("odd".to_string(alloc)?);
    unnamed.push(UnnamedCount { name, count: 1 })?;
    Ok(MemoryStore::new(files, unnamed, calls(alloc, fail)?))
}

fn words_of(alloc: Global, words: &str) -> Result<Vec<String>, AllocError> {
    let mut all = Vec::new(alloc);
    for word in words.split(' ') {
        all.push(word.to_string(alloc)?)?;
    }
    Ok(all)
}

// How the words end over this store, and what is written to an output of which one call may fail.
fn outcome(
    alloc: Global,
    words: &str,
    store: &mut MemoryStore,
    fail: Option<u64>,
) -> Result<(Status, Vec<u8>), AllocError> {
    let words = words_of(alloc, words)?;
    let mut out = MemorySink::new(alloc, calls(alloc, fail)?);
    let status = run(alloc, &words, store, &mut out);
    Ok((status, out.taken().to_vec(alloc)?))
}

// Whether the name holds these bytes.
fn holds(alloc: Global, store: &mut MemoryStore, name: &str, bytes: &[u8]) -> bool {
    match store.read(alloc, name, 100) {
        Ok(held) => held.as_slice() == bytes,
        Err(_) => false,
    }
}

// A run over files that hold the source, and what comes of it.
#[derive(Clone, Copy)]
struct Run<'a> {
    words: &'a str,
    script: Option<&'a str>,
    names: &'a [&'a str],
    source: &'a [u8],
    ends: Status,
    wanted: &'a str,
}

// What the file holds in the end: those of rows `ok` are replaced unless the run is dry, and no
// others.
fn left(alloc: Global, run: &Run<'_>, name: &str) -> Result<&'static [u8], AllocError> {
    let line = format!(in alloc; "ok {name}\n")?;
    if !run.words.contains("-d") && run.wanted.contains(line.as_str()) {
        return Ok(RENAMED);
    }
    Ok(b"")
}

// Whether the run comes out so, where one call of the store may fail.
fn comes_out(alloc: Global, run: &Run<'_>, fail: Option<u64>) -> Result<bool, AllocError> {
    let mut store = store_of(alloc, run.script, run.names, run.source, fail)?;
    let (status, written) = outcome(alloc, run.words, &mut store, None)?;
    if status != run.ends || written.as_slice() != run.wanted.as_bytes() {
        return Ok(false);
    }
    for name in run.names.iter() {
        let new = left(alloc, run, name)?;
        let bytes = if new.is_empty() { run.source } else { new };
        if !holds(alloc, &mut store, name, bytes) {
            return Ok(false);
        }
    }
    Ok(true)
}

// The lines of the counts behind one row.
fn with_counts(alloc: Global, row: &str) -> Result<String, AllocError> {
    let errors = u8::from(row.starts_with("error"));
    let unmodified = u8::from(row.starts_with("unmodified"));
    let skipped = u8::from(row.starts_with("skipped"));
    let ok = u8::from(row.starts_with("ok"));
    format!(in alloc; "{row}errors {errors}\nunmodified {unmodified}\nskipped {skipped}\nok {ok}\n")
}

// Whether a dry run over one file with this source writes so.
fn dry_run_writes<'a>(
    alloc: Global,
    script: &'a str,
    source: &'a [u8],
    wanted: &'a str,
) -> Result<bool, AllocError> {
    let run = Run {
        words: "-t s.js -d -p a.js",
        script: Some(script),
        names: &["a.js"],
        source,
        ends: Status::Done,
        wanted,
    };
    comes_out(alloc, &run, None)
}

#[test]
fn rows(rt: HostRuntime) -> Result<(), Fail> {
    let alloc = rt.alloc();
    for (script, source, row) in ROWS.iter() {
        let wanted = with_counts(alloc, row)?;
        assert!(rt;
            dry_run_writes(alloc, script, source, wanted.as_str())?,
            "for {row}"
        );
    }
    Ok(())
}

#[test]
fn changes(rt: HostRuntime) -> Result<(), Fail> {
    let alloc = rt.alloc();
    for (script, source, row) in CHANGES.iter() {
        let wanted = with_counts(alloc, row)?;
        assert!(rt;
            dry_run_writes(alloc, script, source, wanted.as_str())?,
            "for {row}"
        );
    }
    Ok(())
}

#[test]
fn layouts(rt: HostRuntime) -> Result<(), Fail> {
    let alloc = rt.alloc();
    for (change, source, text) in LAYOUTS.iter() {
        let script = format!(in alloc;
            "module.exports = (file, {{ j }}) => {{ const root = j(file.source);\n{change}\nreturn root.toSource(); }};\n"
        )?;
        let count = text.len();
        let row = format!(in alloc; "ok a.js\ntext {count}\n{text}\n")?;
        let wanted = with_counts(alloc, row.as_str())?;
        assert!(rt;
            dry_run_writes(alloc, script.as_str(), source.as_bytes(), wanted.as_str())?,
            "for {text}"
        );
    }
    Ok(())
}

#[test]
fn runs(rt: HostRuntime) -> Result<(), Fail> {
    let alloc = rt.alloc();
    for (words, script, names, ends, wanted) in RUNS.iter() {
        let run = Run {
            words,
            script: *script,
            names,
            source: SOURCE,
            ends: *ends,
            wanted,
        };
        assert!(rt; comes_out(alloc, &run, None)?, "for {words}");
    }
    Ok(())
}

#[test]
fn script_runs(rt: HostRuntime) -> Result<(), Fail> {
    let alloc = rt.alloc();
    for (words, script, ends, wanted) in SCRIPT_RUNS.iter() {
        let run = Run {
            words,
            script: Some(script),
            names: &["a.js", "c.js"],
            source: SOURCE,
            ends: *ends,
            wanted,
        };
        assert!(rt; comes_out(alloc, &run, None)?, "for {wanted}");
    }
    Ok(())
}

// What is written where the script holds these bytes.
fn refusal(
    alloc: Global,
    front: &[u8],
    piece: u8,
    times: u32,
) -> Result<(Status, Vec<u8>), AllocError> {
    let mut script = front.to_vec(alloc)?;
    for _time in 0..times {
        script.push(piece)?;
    }
    let mut store = store_of_bytes(alloc, Some(script.as_slice()), &["a.js"], SOURCE, None)?;
    outcome(alloc, "-t s.js a.js", &mut store, None)
}

#[test]
fn scripts_that_are_no_texts(rt: HostRuntime) -> Result<(), Fail> {
    let alloc = rt.alloc();
    for (front, piece, times, wanted) in NO_TEXTS.iter() {
        let (status, written) = refusal(alloc, front, *piece, *times)?;
        assert!(rt; status == Status::NoScript, "for {wanted}");
        assert!(rt; written.as_slice() == wanted.as_bytes(), "for {wanted}");
    }
    Ok(())
}

const NAMES: [&str; 3] = ["a.js", "b.js", "c.js"];

const REASONS: [&str; 3] = ["list fault", "read fault", "write fault"];

// What is written where the store's call fails: the script's read is call 0, and each file is
// listed, read and replaced.
fn written_at(alloc: Global, call: u64) -> Result<String, AllocError> {
    let mut text = String::new(alloc);
    for (file, name) in NAMES.iter().enumerate() {
        let mut row = format!(in alloc; "ok {name}\n")?;
        for (step, reason) in REASONS.iter().enumerate() {
            if call == 1 + 3 * file as u64 + step as u64 {
                row = format!(in alloc; "error {name}: {reason}\n")?;
            }
        }
        text.push_str(row.as_str())?;
    }
    text.push_str("errors 1\nunmodified 0\nskipped 0\nok 2\n")?;
    Ok(text)
}

// Whether the run comes out so where one call of the store fails.
fn comes_out_at<'a>(
    alloc: Global,
    call: u64,
    names: &'a [&'a str],
    ends: Status,
    wanted: &'a str,
) -> Result<bool, AllocError> {
    let run = Run {
        words: "-t s.js --fail-on-error a.js b.js c.js",
        script: Some(SCRIPT),
        names,
        source: SOURCE,
        ends,
        wanted,
    };
    comes_out(alloc, &run, Some(call))
}

#[test]
fn each_call_of_the_store_fails(rt: HostRuntime) -> Result<(), Fail> {
    let alloc = rt.alloc();
    let line = "script s.js: read fault\n";
    assert!(rt; comes_out_at(alloc, 0, &NAMES, Status::NoScript, line)?);
    for call in 1..10u64 {
        let wanted = written_at(alloc, call)?;
        let wanted = wanted.as_str();
        assert!(rt;
            comes_out_at(alloc, call, &NAMES, Status::HadErrors, wanted)?,
            "{call}"
        );
    }
    // A file that is missing is listed and not read.
    let names = ["b.js", "c.js"];
    let wanted =
        "error a.js: missing\nerror b.js: write fault\nok c.js\nerrors 2\nunmodified 0\nskipped 0\nok 1\n";
    assert!(rt; comes_out_at(alloc, 4, &names, Status::HadErrors, wanted)?);
    Ok(())
}

// What is written before each call of the output.
const TAKEN: [&str; 4] = [
    "",
    "ok a.js\n",
    "ok a.js\nok b.js\n",
    "ok a.js\nok b.js\nok c.js\n",
];

// Whether the run stops where the output's call fails. The file in hand is replaced, and no later.
fn stops_at(alloc: Global, call: usize, wanted: &str) -> Result<bool, AllocError> {
    let mut store = store_of(alloc, Some(SCRIPT), &NAMES, SOURCE, None)?;
    let words = "-t s.js a.js b.js c.js";
    let (status, written) = outcome(alloc, words, &mut store, Some(call as u64))?;
    if status != Status::OutputFault || written.as_slice() != wanted.as_bytes() {
        return Ok(false);
    }
    for (file, name) in NAMES.iter().enumerate() {
        let bytes = if file <= call { RENAMED } else { SOURCE };
        if !holds(alloc, &mut store, name, bytes) {
            return Ok(false);
        }
    }
    Ok(true)
}

#[test]
fn each_call_of_the_output_fails(rt: HostRuntime) -> Result<(), Fail> {
    let alloc = rt.alloc();
    for (call, wanted) in TAKEN.iter().enumerate() {
        assert!(rt; stops_at(alloc, call, wanted)?, "at {call}");
    }
    Ok(())
}

// The front, the piece again and again, and the back.
fn repeated(
    alloc: Global,
    front: &str,
    piece: &str,
    times: u32,
    back: &str,
) -> Result<String, AllocError> {
    let mut all = front.to_string(alloc)?;
    for _ in 0..times {
        all.push_str(piece)?;
    }
    all.push_str(back)?;
    Ok(all)
}

#[test]
fn folders_are_listed_64_levels_down(rt: HostRuntime) -> Result<(), Fail> {
    let alloc = rt.alloc();
    let last = repeated(alloc, "d", "/d", 64, "/a.js")?;
    let below = repeated(alloc, "d", "/d", 65, "/a.js")?;
    let deep = repeated(alloc, "d", "/d", 65, "")?;
    let wanted = format!(in alloc;
        "ok {last}\nerror {deep}: folder too deep\nerrors 1\nunmodified 0\nskipped 0\nok 1\n"
    )?;
    let run = Run {
        words: "-t s.js -d d",
        script: Some(SCRIPT),
        names: &[below.as_str(), last.as_str()],
        source: SOURCE,
        ends: Status::Done,
        wanted: wanted.as_str(),
    };
    assert!(rt; comes_out(alloc, &run, None)?);
    Ok(())
}

// Calls as arguments of calls: with the program, the statement and the name, three nodes more.
fn nested(alloc: Global, calls: u32) -> Result<String, AllocError> {
    let closing = repeated(alloc, "a", ")", calls, ";")?;
    repeated(alloc, "", "f(", calls, closing.as_str())
}

// Whether what a dry run over the source writes begins so.
fn begins(alloc: Global, script: &str, source: &str, line: &str) -> Result<bool, AllocError> {
    let mut store = store_of(alloc, Some(script), &["a.js"], source.as_bytes(), None)?;
    let (status, written) = outcome(alloc, "-t s.js -d -p a.js", &mut store, None)?;
    Ok(status == Status::Done && written.starts_with(line.as_bytes()))
}

#[test]
fn limits(rt: HostRuntime) -> Result<(), Fail> {
    let alloc = rt.alloc();
    let source = nested(alloc, 997)?;
    assert!(rt; begins(alloc, SCRIPT, source.as_str(), "ok a.js\ntext 2993\n")?);
    let source = nested(alloc, 998)?;
    assert!(rt;
        begins(
            alloc,
            SCRIPT,
            source.as_str(),
            "error a.js: syntax Nesting at 1996\n"
        )?
    );
    assert!(rt; begins(alloc, DEEPENING, "a;", "error a.js: bad node /0/0/0/0")?);
    let closing = repeated(alloc, "a", ")", 1_001, "")?;
    let source = repeated(alloc, "", "(", 1_001, closing.as_str())?;
    assert!(rt;
        begins(
            alloc,
            SCRIPT,
            source.as_str(),
            "error a.js: syntax Nesting at "
        )?
    );
    for (front, piece, times, back, line) in LIMITS.iter() {
        let source = repeated(alloc, front, piece, *times, back)?;
        assert!(rt; begins(alloc, SCRIPT, source.as_str(), line)?, "for {line}");
    }
    Ok(())
}

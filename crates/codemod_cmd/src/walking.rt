//! Goes over names: a file gives one row, a folder those of what stands in it.

ghost use Rattle.std.specs.Prelude.{◌≡◌, ◌≤◌, ◌<◌, ◌+◌, ◌∷◌, [], IfOk, OnOk, OnErr, IsErrOf};
ghost use Rattle.std.specs.Io.KnownBytes.{Appends};
ghost use Rattle.cm_store.specs.Faults.{Rose};
ghost use Rattle.cm_store.specs.Writing.{AppendsFront};
ghost use Rattle.run_report.specs.Counting.{counted};
ghost use Rattle.run_report.specs.Texts.{row_line};
ghost use Rattle.codemod_cmd.specs.Folders.{place, places, last_level, unnamed_rows, inside as names_inside};
ghost use Rattle.codemod_cmd.specs.Rows.{shown_all, counted_all};
ghost use Rattle.codemod_cmd.specs.Session.{outside, FileTells, FileBreaks, Tells, Breaks};

use crate::engine::Engine;
use crate::file_row::one_file;
use crate::folder::{Pending, inside};
use crate::job::Job;
use crate::sight::{Sight, look};
use crate::stop::Stop;
use crate::writing::say;
use cm_store::{EntryList, Sink, Store};
use run_report::{Counts, RowAnswer, RowError, row_text};
use std::alloc::Global;

// Writes and counts the row of a name that has no file.
fn refuse<O: Sink>(
    alloc: Global,
    out: &mut O,
    counts: &mut Counts,
    name: &str,
    error: RowError,
) -> Result<(), Stop>
    ensures counts { OnOk result (counts.new ≡ counted counts.old (RowAnswer.Error error)) }
    ensures all { OnOk result (Appends (O.taken_bytes out.old) (O.taken_bytes out.new) (row_line name.now (RowAnswer.Error error))) }
    ensures front { OnErr result (AppendsFront (O.taken_bytes out.old) (O.taken_bytes out.new) (row_line name.now (RowAnswer.Error error))) }
    ensures later { O.fault_count out.old ≤ O.fault_count out.new }
    ensures fault { IsErrOf result Stop.OutputFault → Rose (O.fault_count out.old) (O.fault_count out.new) }
{
    let answer = RowAnswer::Error(error);
    let line = row_text(alloc, name, &answer)?;
    say(out, &line)?;
    counts.add(&answer);
    Ok(())
}

// What stands in a folder. Entries without a name in UTF-8 have a row before it.
fn open_folder<E: Engine, O: Sink>(
    alloc: Global,
    job: &Job<E>,
    out: &mut O,
    counts: &mut Counts,
    name: &str,
    entries: &EntryList,
    unnamed: u64,
) -> Result<Vec<Pending>, Stop>
    ensures names { IfOk result (λ v. v.items ≡ names_inside job.now.command.now.extensions name.now entries.now) }
    ensures counts { OnOk result (counts.new ≡ counted_all counts.old (unnamed_rows name.now unnamed)) }
    ensures all { OnOk result (Appends (O.taken_bytes out.old) (O.taken_bytes out.new) (shown_all job.now.command.now.print (unnamed_rows name.now unnamed))) }
    ensures front { OnErr result (AppendsFront (O.taken_bytes out.old) (O.taken_bytes out.new) (shown_all job.now.command.now.print (unnamed_rows name.now unnamed))) }
    ensures later { O.fault_count out.old ≤ O.fault_count out.new }
    ensures fault { IsErrOf result Stop.OutputFault → Rose (O.fault_count out.old) (O.fault_count out.new) }
{
    let names = inside(alloc, &job.command.extensions, name, entries)?;
    if unnamed == 0 {
        return Ok(names);
    }
    refuse(
        alloc,
        out,
        counts,
        name,
        RowError::Unnamed { count: unnamed },
    )?;
    Ok(names)
}

// Writes and counts the row of a file.
fn file<E: Engine, S: Store, O: Sink>(
    alloc: Global,
    job: &Job<E>,
    store: &mut S,
    out: &mut O,
    counts: &mut Counts,
    name: &str,
) -> Result<(), Stop>
    ensures tells { OnOk result (FileTells (E.says job.now.engine.now) job.now.command.now name.now counts.old counts.new
        (outside (S.contents store.old) (S.fault_count store.old) (O.taken_bytes out.old))
        (outside (S.contents store.new) (S.fault_count store.new) (O.taken_bytes out.new))) }
    ensures breaks { OnErr result (FileBreaks (E.says job.now.engine.now) job.now.command.now name.now
        (outside (S.contents store.old) (S.fault_count store.old) (O.taken_bytes out.old))
        (outside (S.contents store.new) (S.fault_count store.new) (O.taken_bytes out.new))) }
    ensures later { O.fault_count out.old ≤ O.fault_count out.new }
    ensures fault { IsErrOf result Stop.OutputFault → Rose (O.fault_count out.old) (O.fault_count out.new) }
{
    match one_file(alloc, job, store, out, name) {
        Ok(answer) => {
            counts.add(&answer);
            Ok(())
        }
        Err(Stop::NoMemory) => Err(Stop::NoMemory),
        Err(Stop::OutputFault) => Err(Stop::OutputFault),
    }
}

// The rows of the name itself. The names in a folder are still to come.
fn visit<E: Engine, S: Store, O: Sink>(
    alloc: Global,
    job: &Job<E>,
    store: &mut S,
    out: &mut O,
    counts: &mut Counts,
    level: u32,
    pending: &Pending,
) -> Result<Vec<Pending>, Stop>
    ensures tells { IfOk result (λ inner. Tells (E.says job.now.engine.now) job.now.command.now (place level pending.now ∷ []) (places (level + 1) inner.items) counts.old counts.new
        (outside (S.contents store.old) (S.fault_count store.old) (O.taken_bytes out.old))
        (outside (S.contents store.new) (S.fault_count store.new) (O.taken_bytes out.new))) }
    ensures breaks { OnErr result (Breaks (E.says job.now.engine.now) job.now.command.now (place level pending.now ∷ [])
        (outside (S.contents store.old) (S.fault_count store.old) (O.taken_bytes out.old))
        (outside (S.contents store.new) (S.fault_count store.new) (O.taken_bytes out.new))) }
    ensures last { IfOk result (λ inner. last_level < level → inner.items ≡ []) }
    ensures later { O.fault_count out.old ≤ O.fault_count out.new }
    ensures fault { IsErrOf result Stop.OutputFault → Rose (O.fault_count out.old) (O.fault_count out.new) }
{
    let name = pending.name.get();
    let Ok(sight) = look(alloc, store, level, pending) else {
        return Err(Stop::NoMemory);
    };
    match sight {
        Sight::File => {
            file(alloc, job, store, out, counts, name)?;
            Ok(Vec::new(alloc))
        }
        Sight::Folder { entries, unnamed } => {
            open_folder(alloc, job, out, counts, name, &entries, unnamed)
        }
        Sight::Refused(error) => {
            refuse(alloc, out, counts, name, error)?;
            Ok(Vec::new(alloc))
        }
    }
}

/// The rows of the names, in order, which stand so many levels below named ones.
pub fn walk<E: Engine, S: Store, O: Sink>(
    alloc: Global,
    job: &Job<E>,
    store: &mut S,
    out: &mut O,
    counts: &mut Counts,
    level: u32,
    names: &[Pending],
) -> Result<(), Stop>
    requires { last_level + 1 < level → names.now ≡ [] }
    ensures tells { OnOk result (Tells (E.says job.now.engine.now) job.now.command.now (places level names.now) [] counts.old counts.new
        (outside (S.contents store.old) (S.fault_count store.old) (O.taken_bytes out.old))
        (outside (S.contents store.new) (S.fault_count store.new) (O.taken_bytes out.new))) }
    ensures breaks { OnErr result (Breaks (E.says job.now.engine.now) job.now.command.now (places level names.now)
        (outside (S.contents store.old) (S.fault_count store.old) (O.taken_bytes out.old))
        (outside (S.contents store.new) (S.fault_count store.new) (O.taken_bytes out.new))) }
    ensures later { O.fault_count out.old ≤ O.fault_count out.new }
    ensures fault { IsErrOf result Stop.OutputFault → Rose (O.fault_count out.old) (O.fault_count out.new) }
{
    for pending in names {
        let inner = match visit(alloc, job, store, out, counts, level, pending) {
            Ok(inner) => inner,
            Err(stop) => return Err(stop),
        };
        match walk(alloc, job, store, out, counts, level + 1, &inner) {
            Ok(()) => {}
            Err(stop) => return Err(stop),
        }
    }
    Ok(())
}

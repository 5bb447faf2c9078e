//! A script run over all that the words name.

ghost use Rattle.std.specs.Prelude.{◌≡◌, ◌≤◌, IfOk, OnErr, IsErrOf, if◌then◌else◌, ◌&&◌, nat_lt};
ghost use Rattle.cm_store.specs.Faults.{Rose};
ghost use Rattle.codemod_cmd.specs.Session.{outside, Completes, Halts};

use crate::engine::Engine;
use crate::folder::named;
use crate::job::Job;
use crate::status::Status;
use crate::stop::Stop;
use crate::walking::walk;
use crate::writing::say;
use cm_store::{Sink, Store};
use run_report::{Counts, summary};
use std::alloc::Global;

// How a run ends with these counts.
fn status(fail_on_error: bool, counts: &Counts) -> Status
    ensures { result ≡ (if fail_on_error && nat_lt 0 counts.now.errors then Status.HadErrors else Status.Done) }
{
    if fail_on_error && counts.errors > 0 {
        Status::HadErrors
    } else {
        Status::Done
    }
}

/// Runs the script over the files and folders that the words name, and writes the summary.
pub fn run_job<E: Engine, S: Store, O: Sink>(
    alloc: Global,
    job: &Job<E>,
    store: &mut S,
    out: &mut O,
) -> Result<Status, Stop>
    ensures completes { IfOk result (Completes (E.says job.now.engine.now) job.now.command.now
        (outside (S.contents store.old) (S.fault_count store.old) (O.taken_bytes out.old))
        (outside (S.contents store.new) (S.fault_count store.new) (O.taken_bytes out.new))) }
    ensures halts { OnErr result (Halts (E.says job.now.engine.now) job.now.command.now
        (outside (S.contents store.old) (S.fault_count store.old) (O.taken_bytes out.old))
        (outside (S.contents store.new) (S.fault_count store.new) (O.taken_bytes out.new))) }
    ensures later { O.fault_count out.old ≤ O.fault_count out.new }
    ensures fault { IsErrOf result Stop.OutputFault → Rose (O.fault_count out.old) (O.fault_count out.new) }
{
    let Ok(names) = named(alloc, &job.command.files) else {
        return Err(Stop::NoMemory);
    };
    let mut counts = Counts::new();
    match walk(alloc, job, store, out, &mut counts, 0, &names) {
        Ok(()) => {}
        Err(stop) => return Err(stop),
    }
    let Ok(text) = summary(alloc, &counts) else {
        return Err(Stop::NoMemory);
    };
    match say(out, &text) {
        Ok(()) => Ok(status(job.command.fail_on_error, &counts)),
        Err(stop) => Err(stop),
    }
}

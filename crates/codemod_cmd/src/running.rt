//! The run of the command.

ghost use Rattle.std.specs.Prelude.{◌≡◌, ◌≤◌, ℕ, true, None, Some, IfOk, OnErr, IsErrOf};
ghost use Rattle.std.specs.Io.KnownBytes.{Appends};
ghost use Rattle.cm_store.specs.Faults.{Rose};
ghost use Rattle.cm_store.specs.Writing.{AppendsFront};
ghost use Rattle.command_words.specs.declared.invocation.Invocation.{Invocation};
ghost use Rattle.run_report.specs.Texts.{script_line};
ghost use Rattle.codemod_cmd.specs.Session.{outside, asked, usage_line, Finishes, Stops, Ends, EndsBy, LacksScript};

use crate::job::Job;
use crate::reading::Unread;
use crate::sampling::sample_lines;
use crate::scripts::{prepared, read_script};
use crate::session::run_job;
use crate::status::Status;
use crate::stop::Stop;
use crate::transform::Transform;
use crate::writing::say;
use cm_store::{Sink, Store};
use command_words::{Invocation, Request, USAGE, read_words};
use run_report::{RowError, script_text};
use std::alloc::Global;

#[tactic(auto, unfolding(crate::specs::Session::usage_line))]
// The bytes that are written where the words are not those of the command.
fn usage() -> &'static [u8]
    ensures { result.now ≡ usage_line }
{
    USAGE.as_bytes()
}

// Writes why the script is not run.
fn refuse_script<O: Sink>(
    alloc: Global,
    out: &mut O,
    name: &str,
    error: &RowError,
) -> Result<Status, Stop>
    ensures all { IfOk result (λ status. (status ≡ Status.NoScript) × Appends (O.taken_bytes out.old) (O.taken_bytes out.new) (script_line name.now error.now)) }
    ensures front { OnErr result (AppendsFront (O.taken_bytes out.old) (O.taken_bytes out.new) (script_line name.now error.now)) }
    ensures later { O.fault_count out.old ≤ O.fault_count out.new }
    ensures fault { IsErrOf result Stop.OutputFault → Rose (O.fault_count out.old) (O.fault_count out.new) }
{
    let line = script_text(alloc, name, error)?;
    say(out, &line)?;
    Ok(Status::NoScript)
}

// Runs the script over the files, or tells why that is not done.
fn run_command<S: Store, O: Sink>(
    alloc: Global,
    command: &Invocation,
    store: &mut S,
    out: &mut O,
) -> Result<Status, Stop>
    ensures finishes { IfOk result (Finishes (Some (Request.Run command.now))
        (outside (S.contents store.old) (S.fault_count store.old) (O.taken_bytes out.old))
        (outside (S.contents store.new) (S.fault_count store.new) (O.taken_bytes out.new))) }
    ensures stops { OnErr result (Stops (Some (Request.Run command.now))
        (outside (S.contents store.old) (S.fault_count store.old) (O.taken_bytes out.old))
        (outside (S.contents store.new) (S.fault_count store.new) (O.taken_bytes out.new))) }
    ensures fault { IsErrOf result Stop.OutputFault → Rose (O.fault_count out.old) (O.fault_count out.new) }
{
    let name = command.script.get();
    let source = match read_script(alloc, store, name) {
        Ok(source) => source,
        Err(Unread::Refused(error)) => return refuse_script(alloc, out, name, &error),
        Err(Unread::NoMemory) => return Err(Stop::NoMemory),
    };
    if let Some(engine) = Transform::from_script(source.bytes()) {
        let engine = &engine;
        return run_job(alloc, &Job { engine, command }, store, out);
    }
    let codemod = match prepared(alloc, &source, command.fuel, command.layout) {
        Ok(codemod) => codemod,
        Err(Unread::Refused(error)) => return refuse_script(alloc, out, name, &error),
        Err(Unread::NoMemory) => return Err(Stop::NoMemory),
    };
    let engine = &codemod;
    run_job(alloc, &Job { engine, command }, store, out)
}

// Runs the words to their end, or tells why that is not reached.
fn run_words<S: Store, O: Sink>(
    alloc: Global,
    words: &[String],
    store: &mut S,
    out: &mut O,
) -> Result<Status, Stop>
    ensures finishes { IfOk result (Finishes (asked words.now)
        (outside (S.contents store.old) (S.fault_count store.old) (O.taken_bytes out.old))
        (outside (S.contents store.new) (S.fault_count store.new) (O.taken_bytes out.new))) }
    ensures stops { OnErr result (Stops (asked words.now)
        (outside (S.contents store.old) (S.fault_count store.old) (O.taken_bytes out.old))
        (outside (S.contents store.new) (S.fault_count store.new) (O.taken_bytes out.new))) }
    ensures fault { IsErrOf result Stop.OutputFault → Rose (O.fault_count out.old) (O.fault_count out.new) }
{
    let Some(request) = read_words(alloc, words)? else {
        say(out, usage())?;
        return Ok(Status::Usage);
    };
    match request {
        Request::Run(command) => run_command(alloc, &command, store, out),
        Request::Sample { count } => {
            let lines = sample_lines(alloc, count)?;
            say(out, &lines)?;
            Ok(Status::Done)
        }
    }
}

/// Runs the command that the words are over the files of the store, and writes its rows.
pub fn run<S: Store, O: Sink>(alloc: Global, words: &[String], store: &mut S, out: &mut O) -> Status
    ensures ends { Ends (asked words.now)
        (outside (S.contents store.old) (S.fault_count store.old) (O.taken_bytes out.old))
        (outside (S.contents store.new) (S.fault_count store.new) (O.taken_bytes out.new)) result }
    ensures usage { asked words.now ≡ None → EndsBy Status.Usage result }
    ensures no_script { (command : Invocation) → asked words.now ≡ Some (Request.Run command) → LacksScript (S.contents store.old) command.script → EndsBy Status.NoScript result }
    ensures dry { (command : Invocation) → asked words.now ≡ Some (Request.Run command) → command.dry ≡ true → S.contents store.new ≡ S.contents store.old }
    ensures sample { (count : ℕ) → asked words.now ≡ Some (Request.Sample count) → S.contents store.new ≡ S.contents store.old }
    ensures fault { result ≡ Status.OutputFault → Rose (O.fault_count out.old) (O.fault_count out.new) }
{
    match run_words(alloc, words, store, out) {
        Ok(status) => status,
        Err(Stop::NoMemory) => Status::NoMemory,
        Err(Stop::OutputFault) => Status::OutputFault,
    }
}

//! The row of one file: it is read, replaced where it has a new text, and told.

ghost use Rattle.std.specs.Prelude.{◌≡◌, ◌≤◌, false, length, IfOk, OnOk, OnErr, IsErrOf, MatchOption};
ghost use Rattle.cm_store.specs.Faults.{Rose};
ghost use Rattle.run_report.specs.Texts.{row_line};
ghost use Rattle.codemod_cmd.specs.Rows.{IsRow, answer_of, leaves, row_faults, Rises, shown};
ghost use Rattle.codemod_cmd.specs.FileRows.{row_of, IsUnwritten, HasText, HasNoText};
ghost use Rattle.codemod_cmd.specs.Session.{outside, RowEnds};

use crate::engine::{Engine, Outcome};
use crate::job::Job;
use crate::reading::{Unread, load};
use crate::stop::Stop;
use crate::writing::write;
use cm_store::{Sink, Store, WriteAnswer};
use run_report::{RowAnswer, RowError, error_row, push_printed, row_text};
use std::alloc::{AllocError, Global};

/// What comes of a file before it is replaced.
#[derive(Debug, Drop)]
pub enum FileRow {
    /// The script answers for its bytes.
    Answered(Outcome),
    /// It has no bytes that may be read.
    Refused(RowError),
}

impl FileRow {
    fn into_answer(self) -> RowAnswer
        ensures { result ≡ answer_of (row_of self) }
    {
        match self {
            FileRow::Answered(outcome) => outcome.answer,
            FileRow::Refused(error) => RowAnswer::Error(error),
        }
    }

    fn line(&self, alloc: Global, name: &str) -> Result<Vec<u8>, AllocError>
        ensures { IfOk result (λ v. v.items ≡ row_line name.now (answer_of (row_of self.now))) }
    {
        match self {
            FileRow::Answered(outcome) => row_text(alloc, name, &outcome.answer),
            FileRow::Refused(error) => error_row(alloc, name, error),
        }
    }

    // The text that the file is to have.
    fn new_text(&self) -> Option<&[u8]>
        ensures { MatchOption result (HasNoText (row_of self.now)) (λ text. HasText (row_of self.now) text.now) }
    {
        match self {
            FileRow::Answered(
                Outcome {
                    answer: RowAnswer::Ok,
                    text,
                },
            ) => Some(text),
            _ => None,
        }
    }
}

// Reads the file and runs the script over it.
fn row_of_file<E: Engine, S: Store>(
    alloc: Global,
    job: &Job<E>,
    store: &mut S,
    name: &str,
) -> Result<FileRow, AllocError>
    ensures row { IfOk result (λ row. IsRow (E.says job.now.engine.now) job.now.command.now.dry (S.contents store.old) name.now (row_of row)) }
    ensures kept { S.contents store.new ≡ S.contents store.old }
    ensures later { S.fault_count store.old ≤ S.fault_count store.new }
    ensures rises { IfOk result (λ row. Rises (row_faults (row_of row)) (S.fault_count store.old) (S.fault_count store.new)) }
{
    match load(alloc, store, name) {
        Ok(bytes) => Ok(FileRow::Answered(job.engine.answer(alloc, name, bytes)?)),
        Err(Unread::Refused(error)) => Ok(FileRow::Refused(error)),
        Err(Unread::NoMemory) => Err(AllocError),
    }
}

// The line of the row, and the text behind it where there is a new one and it is to be printed.
fn lines(alloc: Global, print: bool, name: &str, row: &FileRow) -> Result<Vec<u8>, AllocError>
    ensures { IfOk result (λ v. v.items ≡ shown print name.now (row_of row.now)) }
{
    let mut lines = row.line(alloc, name)?;
    if !print {
        return Ok(lines);
    }
    if let Some(text) = row.new_text() {
        push_printed(alloc, text, &mut lines)?;
    }
    Ok(lines)
}

// The texts of which one is to be written.
#[derive(Debug, Drop)]
pub struct Texts {
    /// That of the row.
    pub row: Vec<u8>,
    /// That of a row whose new text cannot be written.
    pub fault: Vec<u8>,
}

// Takes all memory that the row needs, that of the sink for the longer text.
fn prepare<O: Sink>(
    alloc: Global,
    out: &mut O,
    print: bool,
    name: &str,
    row: &FileRow,
) -> Result<Texts, Stop>
    ensures row { IfOk result (λ t. t.row.items ≡ shown print name.now (row_of row.now)) }
    ensures fault { IfOk result (λ t. t.fault.items ≡ row_line name.now (RowAnswer.Error RowError.WriteFault)) }
    ensures room { IfOk result (λ t. length t.row.items ≤ O.spare out.new) }
    ensures fault_room { IfOk result (λ t. length t.fault.items ≤ O.spare out.new) }
    ensures memory { OnErr result (result ≡ Err Stop.NoMemory) }
    ensures kept { O.taken_bytes out.new ≡ O.taken_bytes out.old }
    ensures same_count { O.fault_count out.new ≡ O.fault_count out.old }
{
    let row = lines(alloc, print, name, row)?;
    let fault = error_row(alloc, name, &RowError::WriteFault)?;
    let most = row.len().max(fault.len());
    match out.reserve(most as u64) {
        Ok(()) => Ok(Texts { row, fault }),
        Err(_) => Err(Stop::NoMemory),
    }
}

// Lets the file have the new text, where there is one and the run is not dry.
fn keep_text<S: Store>(
    alloc: Global,
    dry: bool,
    store: &mut S,
    name: &str,
    row: &FileRow,
) -> Result<(), WriteAnswer>
    ensures done { OnOk result (S.contents store.new ≡ leaves dry (S.contents store.old) name.now (row_of row.now)) }
    ensures failed { IsErrOf result WriteAnswer.Failed → IsUnwritten dry (S.contents store.old) (S.contents store.new) name.now (row_of row.now) }
    ensures memory { IsErrOf result WriteAnswer.NoMemory → S.contents store.new ≡ S.contents store.old }
    ensures later { S.fault_count store.old ≤ S.fault_count store.new }
    ensures rose { IsErrOf result WriteAnswer.Failed → Rose (S.fault_count store.old) (S.fault_count store.new) }
{
    if dry {
        return Ok(());
    }
    match row.new_text() {
        Some(text) => store.replace(alloc, name, text),
        None => Ok(()),
    }
}

/// The row of one file. The file is replaced once where it has a new text and the run is not dry.
///
/// All memory is taken before that: want of it leaves the file and the output as they were.
pub fn one_file<E: Engine, S: Store, O: Sink>(
    alloc: Global,
    job: &Job<E>,
    store: &mut S,
    out: &mut O,
    name: &str,
) -> Result<RowAnswer, Stop>
    ensures ends { RowEnds (E.says job.now.engine.now) job.now.command.now.dry job.now.command.now.print name.now
        (outside (S.contents store.old) (S.fault_count store.old) (O.taken_bytes out.old))
        (outside (S.contents store.new) (S.fault_count store.new) (O.taken_bytes out.new)) result }
    ensures later { O.fault_count out.old ≤ O.fault_count out.new }
    ensures fault { IsErrOf result Stop.OutputFault → Rose (O.fault_count out.old) (O.fault_count out.new) }
{
    let Ok(row) = row_of_file(alloc, job, store, name) else {
        return Err(Stop::NoMemory);
    };
    let Ok(texts) = prepare(alloc, out, job.command.print, name, &row) else {
        return Err(Stop::NoMemory);
    };
    match keep_text(alloc, job.command.dry, store, name, &row) {
        Ok(()) => match write(out, &texts.row) {
            Ok(()) => Ok(row.into_answer()),
            Err(_) => Err(Stop::OutputFault),
        },
        Err(WriteAnswer::Failed) => match write(out, &texts.fault) {
            Ok(()) => Ok(RowAnswer::Error(RowError::WriteFault)),
            Err(_) => Err(Stop::OutputFault),
        },
        Err(WriteAnswer::NoMemory) => Err(Stop::NoMemory),
    }
}

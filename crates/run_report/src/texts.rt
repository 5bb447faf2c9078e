//! The texts of rows, of scripts that are not run, of new texts, of counts and of samples.

ghost use Rattle.std.specs.Prelude.{◌≡◌, ◌++◌, [], IfOk, OnOk, length};
ghost use Rattle.run_report.specs.Texts as spec;

use crate::answer::{RowAnswer, RowError};
use crate::counts::Counts;
use crate::errors::error_text;
use std::alloc::{AllocError, Global};

#[tactic(auto, unfolding(crate::specs::Texts::line))]
// A word, a file's name and what is said of it, as one line.
fn line(alloc: Global, word: &str, name: &str, rest: &[u8]) -> Result<Vec<u8>, AllocError>
    ensures { IfOk result (λ v. v.items ≡ spec.line word.now name.now rest.now) }
{
    let mut text = word.as_bytes().to_vec(alloc)?;
    text.extend_from_slice(name.as_bytes())?;
    text.extend_from_slice(rest)?;
    text.push(b'\n')?;
    Ok(text)
}

#[tactic(auto, unfolding(crate::specs::Texts::reason))]
// What is said of a file that has no answer.
fn reason(alloc: Global, error: &RowError) -> Result<Vec<u8>, AllocError>
    ensures { IfOk result (λ v. v.items ≡ spec.reason error.now) }
{
    let why = error_text(alloc, error)?;
    let mut text = b": ".to_vec(alloc)?;
    text.extend_from_slice(&why)?;
    Ok(text)
}

#[tactic(auto, unfolding(crate::specs::Texts::row_line))]
/// The line of a row that is an error.
pub fn error_row(alloc: Global, name: &str, error: &RowError) -> Result<Vec<u8>, AllocError>
    ensures { IfOk result (λ v. v.items ≡ spec.row_line name.now (RowAnswer.Error error.now)) }
{
    let why = reason(alloc, error)?;
    line(alloc, "error ", name, &why)
}

#[tactic(auto, unfolding(crate::specs::Texts::row_line))]
/// The line of a row.
pub fn row_text(alloc: Global, name: &str, answer: &RowAnswer) -> Result<Vec<u8>, AllocError>
    ensures { IfOk result (λ v. v.items ≡ spec.row_line name.now answer.now) }
{
    match answer {
        RowAnswer::Ok => line(alloc, "ok ", name, b""),
        RowAnswer::Unmodified => line(alloc, "unmodified ", name, b""),
        RowAnswer::Skipped => line(alloc, "skipped ", name, b""),
        RowAnswer::Error(error) => error_row(alloc, name, error),
    }
}

#[tactic(auto, unfolding(crate::specs::Texts::script_line))]
/// The line of a script that is not run.
pub fn script_text(alloc: Global, name: &str, error: &RowError) -> Result<Vec<u8>, AllocError>
    ensures { IfOk result (λ v. v.items ≡ spec.script_line name.now error.now) }
{
    let why = reason(alloc, error)?;
    line(alloc, "script ", name, &why)
}

#[tactic(auto, unfolding(crate::specs::Texts::printed))]
/// Appends a text with its length before it.
pub fn push_printed(alloc: Global, text: &[u8], out: &mut Vec<u8>) -> Result<(), AllocError>
    ensures { OnOk result (out.new.items ≡ out.old.items ++ spec.printed text.now) }
{
    let digits = text.len().to_string(alloc)?;
    out.extend_from_slice(b"text ")?;
    out.extend_from_slice(digits.as_bytes())?;
    out.push(b'\n')?;
    out.extend_from_slice(text)?;
    out.push(b'\n')?;
    Ok(())
}

#[tactic(auto, unfolding(crate::specs::Texts::count_line))]
// Appends the line of one count.
fn push_count(alloc: Global, word: &str, count: u64, out: &mut Vec<u8>) -> Result<(), AllocError>
    ensures { OnOk result (out.new.items ≡ out.old.items ++ spec.count_line word.now count) }
{
    let digits = count.to_string(alloc)?;
    out.extend_from_slice(word.as_bytes())?;
    out.extend_from_slice(digits.as_bytes())?;
    out.push(b'\n')?;
    Ok(())
}

#[tactic(auto, unfolding(crate::specs::Texts::summary_lines))]
/// The lines of the counts.
pub fn summary(alloc: Global, counts: &Counts) -> Result<Vec<u8>, AllocError>
    ensures { IfOk result (λ v. v.items ≡ spec.summary_lines counts.now) }
{
    let mut text = Vec::new(alloc);
    push_count(alloc, "errors ", counts.errors, &mut text)?;
    push_count(alloc, "unmodified ", counts.unmodified, &mut text)?;
    push_count(alloc, "skipped ", counts.skipped, &mut text)?;
    push_count(alloc, "ok ", counts.ok, &mut text)?;
    Ok(text)
}

#[tactic(auto, unfolding(crate::specs::Texts::sample_end))]
// Appends what came of the sample: the length of the text that the script made, or its row.
fn push_end(
    alloc: Global,
    answer: &RowAnswer,
    text: &[u8],
    out: &mut Vec<u8>,
) -> Result<(), AllocError>
    ensures { OnOk result (out.new.items ≡ out.old.items ++ spec.sample_end answer.now text.now) }
{
    match answer {
        RowAnswer::Ok | RowAnswer::Unmodified => {
            push_count(alloc, "written ", text.len() as u64, out)
        }
        _ => {
            let row = row_text(alloc, "sample", answer)?;
            out.extend_from_slice(&row)
        }
    }
}

#[tactic(auto, unfolding(crate::specs::Texts::sample_lines))]
/// The lines of a sample of `count` functions, of the bytes that were read, and what the script
/// made of them.
pub fn sample_text(
    alloc: Global,
    count: u32,
    read: usize,
    answer: &RowAnswer,
    text: &[u8],
) -> Result<Vec<u8>, AllocError>
    ensures { IfOk result (λ v. v.items ≡ spec.sample_lines count read answer.now text.now) }
{
    let mut lines = Vec::new(alloc);
    push_count(alloc, "sample ", u64::from(count), &mut lines)?;
    push_count(alloc, "read ", read as u64, &mut lines)?;
    push_end(alloc, answer, text, &mut lines)?;
    Ok(lines)
}

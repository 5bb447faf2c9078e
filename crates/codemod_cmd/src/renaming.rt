//! What a renaming makes of a source.

ghost use Rattle.std.specs.Prelude.{◌≡◌, IfOk};
ghost use Rattle.tree_core.specs.View.{syntax};
ghost use Rattle.codemod_cmd.specs.Script.{renames};
ghost use Rattle.text_guard.specs.Readings.{IsParsed};
ghost use Rattle.codemod_cmd.specs.FileAnswer.{FileAnswer, IsSource, IsTreeOf, IsOther};
ghost use Rattle.codemod_cmd.specs.Readings.{IsTold};

use crate::engine::Outcome;
use crate::script::Renaming;
use cm_text::Source;
use run_report::{RowAnswer, RowError};
use script_values::Fault;
use source_rename::RenameError;
use std::alloc::{AllocError, Global};
use tree_check::Rule;
use tree_core::Parsed;

/// The most items of a list in a script.
const MAX_ITEMS: u64 = 1_000_000;

/// Where a renaming script asks for the list of the identifiers.
const FIND_AT: u32 = 32;

// The script's list of identifiers would have more items than it may.
fn list_long(alloc: Global) -> Outcome
    ensures { result.answer ≡ RowAnswer.Error (RowError.Script 32 Fault.ListLong) }
{
    let at = FIND_AT;
    let kind = Fault::ListLong;
    Outcome::error(alloc, RowError::Script { at, kind })
}

// The row of a new text.
fn told(source: &[u8], text: Vec<u8>) -> Outcome
    ensures text { result.text.items ≡ text.items }
    ensures answer { IsTold source.now text.items result.answer }
{
    let answer = if text.as_slice() == source {
        RowAnswer::Unmodified
    } else {
        RowAnswer::Ok
    };
    Outcome { answer, text }
}

/// What comes of a source that is a tree of the first grammar.
pub fn renamed(
    alloc: Global,
    source: &[u8],
    parsed: &Parsed,
    names: &Renaming,
) -> Result<Outcome, AllocError>
    requires source { IsSource source.now }
    requires tree { IsTreeOf source.now parsed.now.spans (syntax parsed.now.tree) }
    ensures { IfOk result (λ o. FileAnswer (renames names.now.old.now names.now.new.now) source.now o.answer o.text.items) }
{
    if first_rename::count(&parsed.tree, names.old) > MAX_ITEMS {
        return Ok(list_long(alloc));
    }
    let text = first_rename::rename(alloc, source, parsed, names.old, names.new)?;
    Ok(told(source, text))
}

/// What comes of another source.
pub fn rewritten(
    alloc: Global,
    source: &Source,
    parsed: &Parsed,
    names: &Renaming,
) -> Result<Outcome, AllocError>
    requires source { IsSource source.now }
    requires other { IsOther source.now }
    requires parsed { IsParsed source.now parsed.now }
    ensures { IfOk result (λ o. FileAnswer (renames names.now.old.now names.now.new.now) source.now o.answer o.text.items) }
{
    match source_rename::rename(alloc, source, parsed, names.old, names.new) {
        Ok(text) => Ok(told(source.bytes(), text)),
        Err(RenameError::ListLong) => Ok(list_long(alloc)),
        Err(RenameError::BadMethod(address)) => {
            let rule = Rule::Method;
            Ok(Outcome::error(alloc, RowError::BadNode { address, rule }))
        }
        Err(RenameError::NoMemory) => Err(AllocError),
    }
}

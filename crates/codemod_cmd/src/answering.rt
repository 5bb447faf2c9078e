//! What a script makes of the bytes of a file: they are read by the reader of the first grammar,
//! which carries the whole claim, and else by that of the whole language.

ghost use Rattle.std.specs.Prelude.{◌≡◌, IfOk};
ghost use Rattle.tree_core.specs.View.{syntax};
ghost use Rattle.codemod_cmd.specs.Changes.{change_of};
ghost use Rattle.codemod_cmd.specs.FileAnswer.{FileAnswer, IsSource, IsTreeOf, IsOther};
ghost use Rattle.codemod_cmd.specs.Readings.{IsReading};

use crate::engine::{Engine, Outcome};
use crate::renaming::{renamed, rewritten};
use crate::transform::Transform;
use cm_text::{Source, TextFault};
use first_grammar::ReadError;
use js_lexer::{Refusal, SyntaxKind};
use run_report::{RowAnswer, RowError};
use std::alloc::{AllocError, Global};
use tree_core::Parsed;
use tree_freeing::free_parsed;

/// What the reader of the first grammar makes of a source.
#[derive(Drop)]
pub enum Reading {
    First(Parsed),
    /// It is no tree of that grammar.
    Other,
    /// It nests too deep, which is found at this offset.
    Deep { at: u32 },
}

fn read_first(alloc: Global, source: &[u8]) -> Result<Reading, AllocError>
    requires { IsSource source.now }
    ensures { IfOk result (IsReading source.now) }
{
    match first_grammar::parse(alloc, source) {
        Ok(parsed) => Ok(Reading::First(parsed)),
        Err(ReadError::Unexpected(_)) => Ok(Reading::Other),
        Err(ReadError::Nesting(at)) => Ok(Reading::Deep { at }),
        Err(ReadError::NoMemory) => Err(AllocError),
    }
}

// What comes of a source that has no tree.
pub(crate) fn refused(alloc: Global, at: u32, kind: SyntaxKind) -> Outcome
    ensures { result.answer ≡ RowAnswer.Error (RowError.Syntax at kind) }
{
    Outcome::error(alloc, RowError::Syntax { at, kind })
}

// What comes of a source that is printed as it is.
pub(crate) fn printed(source: Source) -> Outcome
    ensures answer { result.answer ≡ RowAnswer.Unmodified }
    ensures text { result.text.items ≡ source }
{
    Outcome {
        answer: RowAnswer::Unmodified,
        text: source.into_bytes(),
    }
}

// What comes of a source that is a tree of the first grammar.
fn of_first(
    alloc: Global,
    source: Source,
    parsed: &Parsed,
    change: &Transform,
) -> Result<Outcome, AllocError>
    requires source { IsSource source }
    requires tree { IsTreeOf source parsed.now.spans (syntax parsed.now.tree) }
    ensures { IfOk result (λ o. FileAnswer (change_of change.now) source o.answer o.text.items) }
{
    match change {
        Transform::Print => Ok(printed(source)),
        Transform::Rename(names) => renamed(alloc, source.bytes(), parsed, names),
    }
}

// What comes of another source.
#[tactic(auto, using(crate::proofs::Refusals::other_refused))]
fn of_other(alloc: Global, source: Source, change: &Transform) -> Result<Outcome, AllocError>
    requires source { IsSource source }
    requires other { IsOther source }
    ensures { IfOk result (λ o. FileAnswer (change_of change.now) source o.answer o.text.items) }
{
    let parsed = match js_source::parse(alloc, &source) {
        Ok(parsed) => parsed,
        Err(Refusal::Syntax(fault)) => return Ok(refused(alloc, fault.at, fault.kind)),
        Err(Refusal::NoMemory) => return Err(AllocError),
    };
    match change {
        Transform::Print => {
            free_parsed(alloc, parsed);
            Ok(printed(source))
        }
        Transform::Rename(names) => {
            let outcome = rewritten(alloc, &source, &parsed, names)?;
            free_parsed(alloc, parsed);
            Ok(outcome)
        }
    }
}

// What comes of a source.
fn of_source(alloc: Global, source: Source, change: &Transform) -> Result<Outcome, AllocError>
    ensures { IfOk result (λ o. FileAnswer (change_of change.now) source o.answer o.text.items) }
{
    let reading = read_first(alloc, source.bytes())?;
    match reading {
        Reading::First(parsed) => of_first(alloc, source, &parsed, change),
        Reading::Other => of_other(alloc, source, change),
        Reading::Deep { at } => Ok(refused(alloc, at, SyntaxKind::Nesting)),
    }
}

impl<'a> Engine for Transform<'a> {
    ghost says = { λ transform. FileAnswer (change_of transform) };

    fn answer(&self, alloc: Global, _name: &str, bytes: Vec<u8>) -> Result<Outcome, AllocError> {
        match Source::new(bytes) {
            Ok(source) => of_source(alloc, source, self),
            Err(TextFault::TooLong { .. }) => Ok(Outcome::error(alloc, RowError::TooLong)),
            Err(TextFault::NotUtf8 { at }) => Ok(Outcome::error(alloc, RowError::NotUtf8 { at })),
        }
    }
}

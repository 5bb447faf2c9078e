//! What a script other than the two forms comes to over the bytes of a file.

ghost use Rattle.std.specs.Prelude.{◌≡◌, IfOk};
ghost use Rattle.text_guard.specs.Readings.{IsParsed};
ghost use Rattle.codemod_cmd.specs.FileAnswer.{IsSource};
ghost use Rattle.codemod_cmd.specs.RunAnswer.{RunAnswer};
ghost use Rattle.codemod_cmd.specs.RunEndings.{RunEnds};

use crate::answering::{printed, refused};
use crate::engine::{Engine, Outcome};
use crate::patching::patched;
use crate::run_ending::{RunEnding, ending_of};
use arena_trees::load;
use cm_text::{Layout, Source, TextFault};
use host_fields::Host;
use js_lexer::Refusal;
use js_tokens::units;
use node_arena::Arena;
use run_report::{RowAnswer, RowError};
use script_code::Code;
use script_eval::run;
use script_values::Heap;
use std::alloc::{AllocError, Global};
use tree_core::{Parsed, Units};
use tree_freeing::{free_parsed, free_tree};

/// A script that was checked and prepared, the fuel that it has for each file, and the layout of the
/// text that is made of what it changes.
#[derive(Drop)]
pub struct Codemod {
    pub code: Code,
    pub fuel: u64,
    pub layout: Layout,
}

fn is_ascii(bytes: &[u8]) -> bool {
    for byte in bytes {
        if *byte > 0x7F {
            return false;
        }
    }
    true
}

// The code units of a source's text. Most sources have one for each byte.
fn text_units(alloc: Global, bytes: &[u8]) -> Result<Units, AllocError> {
    if !is_ascii(bytes) {
        return units(alloc, bytes, false);
    }
    let mut text = Vec::with_capacity(alloc, bytes.len())?;
    for byte in bytes {
        text.push(u16::from(*byte))?;
    }
    Ok(Units::new(text))
}

// The host of a run over the source: its tree in the forest, its text and the words of the script in
// the heap. A source has fewer nodes than a forest may have, so a refusal is want of memory.
fn host_of(
    alloc: Global,
    code: &Code,
    source: &Source,
    parsed: &Parsed,
) -> Result<Host, AllocError> {
    let Ok(mut arena) = Arena::new(alloc) else {
        return Err(AllocError);
    };
    let Ok(root) = load(alloc, &mut arena, parsed) else {
        return Err(AllocError);
    };
    let Ok(mut heap) = Heap::new(alloc, code.words.as_slice()) else {
        return Err(AllocError);
    };
    let text = text_units(alloc, source.bytes())?;
    match heap.text(text.get()) {
        Ok(text) => Ok(Host::new(alloc, arena, root, heap, text)),
        Err(_) => Err(AllocError),
    }
}

// Runs the script over the tree of the source: how it ended.
fn run_over(
    alloc: Global,
    codemod: &Codemod,
    name: &str,
    source: &Source,
    parsed: &Parsed,
) -> Result<RunEnding, AllocError>
    requires { IsParsed source.now parsed.now }
    ensures { IfOk result (RunEnds codemod.now.fuel source.now) }
{
    let mut host = host_of(alloc, &codemod.code, source, parsed)?;
    let ran = run(&codemod.code, &mut host, name, codemod.fuel)?;
    ending_of(alloc, &ran, host.prints, &host.arena)
}

// The row and the text by how the run ended.
fn told(
    alloc: Global,
    codemod: &Codemod,
    source: Source,
    parsed: &Parsed,
    ending: RunEnding,
) -> Result<Outcome, AllocError>
    requires source { IsSource source }
    requires ends { RunEnds codemod.now.fuel source ending }
    ensures { IfOk result (λ o. RunAnswer codemod.now.fuel source o.answer o.text.items) }
{
    match ending {
        RunEnding::Unchanged => Ok(printed(source)),
        RunEnding::Changed(tree) => {
            let outcome = patched(alloc, codemod.layout, source, parsed, &tree)?;
            free_tree(alloc, parsed.spans.as_slice(), tree);
            Ok(outcome)
        }
        RunEnding::Nothing => Ok(Outcome {
            answer: RowAnswer::Skipped,
            text: Vec::new(alloc),
        }),
        RunEnding::Refused(error) => Ok(Outcome::error(alloc, error)),
    }
}

// What comes of a source.
fn over_source(
    alloc: Global,
    codemod: &Codemod,
    name: &str,
    source: Source,
) -> Result<Outcome, AllocError>
    requires { IsSource source }
    ensures { IfOk result (λ o. RunAnswer codemod.now.fuel source o.answer o.text.items) }
{
    let parsed = match js_source::parse(alloc, &source) {
        Ok(parsed) => parsed,
        Err(Refusal::Syntax(fault)) => return Ok(refused(alloc, fault.at, fault.kind)),
        Err(Refusal::NoMemory) => return Err(AllocError),
    };
    let ending = run_over(alloc, codemod, name, &source, &parsed)?;
    let outcome = told(alloc, codemod, source, &parsed, ending)?;
    free_parsed(alloc, parsed);
    Ok(outcome)
}

impl Engine for Codemod {
    ghost says = { λ codemod. RunAnswer codemod.fuel };

    fn answer(&self, alloc: Global, name: &str, bytes: Vec<u8>) -> Result<Outcome, AllocError> {
        match Source::new(bytes) {
            Ok(source) => over_source(alloc, self, name, source),
            Err(TextFault::TooLong { .. }) => Ok(Outcome::error(alloc, RowError::TooLong)),
            Err(TextFault::NotUtf8 { at }) => Ok(Outcome::error(alloc, RowError::NotUtf8 { at })),
        }
    }
}

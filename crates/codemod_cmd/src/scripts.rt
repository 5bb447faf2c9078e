//! The script that the words name: it is read, and, where it is of neither form, checked and prepared.

ghost use Rattle.std.specs.Prelude.{◌≡◌, ◌≤◌, IfOk};
ghost use Rattle.codemod_cmd.specs.Session.{Sourced, RefusedScript};

use crate::codemod::Codemod;
use crate::reading::{Unread, load};
use cm_store::Store;
use cm_text::{Layout, Source, TextFault};
use host_fields::known_names;
use js_lexer::Refusal;
use run_report::RowError;
use script_check::{Script, ScriptError, check};
use script_code::{Code, prepare};
use std::alloc::{AllocError, Global};

/// The script of this name, as a source.
pub fn read_script<S: Store>(alloc: Global, store: &mut S, name: &str) -> Result<Source, Unread>
    ensures sourced { Sourced (S.contents store.old) (S.fault_count store.old) (S.fault_count store.new) name.now result }
    ensures kept { S.contents store.new ≡ S.contents store.old }
    ensures later { S.fault_count store.old ≤ S.fault_count store.new }
{
    let bytes = match load(alloc, store, name) {
        Ok(bytes) => bytes,
        Err(unread) => return Err(unread),
    };
    match Source::new(bytes) {
        Ok(source) => Ok(source),
        Err(TextFault::TooLong { .. }) => Err(Unread::Refused(RowError::TooLong)),
        Err(TextFault::NotUtf8 { at }) => Err(Unread::Refused(RowError::NotUtf8 { at })),
    }
}

/// The codemod of a source that is a script of neither form, with so much fuel for each file, and
/// with the layout of made text.
pub fn prepared(
    alloc: Global,
    source: &Source,
    fuel: u64,
    layout: Layout,
) -> Result<Codemod, Unread>
    ensures fuel { IfOk result (λ codemod. codemod.fuel ≡ fuel) }
    ensures refused { RefusedScript source.now result }
{
    let parsed = match js_source::parse(alloc, source) {
        Ok(parsed) => parsed,
        Err(Refusal::Syntax(fault)) => {
            return Err(Unread::Refused(RowError::Syntax {
                at: fault.at,
                kind: fault.kind,
            }));
        }
        Err(Refusal::NoMemory) => return Err(Unread::NoMemory),
    };
    let script = match check(alloc, parsed) {
        Ok(script) => script,
        Err(ScriptError::Form(form)) => {
            return Err(Unread::Refused(RowError::Form {
                at: form.at,
                kind: form.kind,
            }));
        }
        Err(ScriptError::NoMemory) => return Err(Unread::NoMemory),
    };
    match code_of(alloc, &script) {
        Ok(code) => Ok(Codemod { code, fuel, layout }),
        Err(_) => Err(Unread::NoMemory),
    }
}

// The script prepared, with the names that the host knows as its first words.
fn code_of(alloc: Global, script: &Script) -> Result<Code, AllocError> {
    let known = known_names(alloc)?;
    prepare(alloc, &known, script)
}

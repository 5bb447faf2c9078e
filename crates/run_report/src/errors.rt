//! The texts of errors.

ghost use Rattle.std.specs.Prelude.{◌≡◌, ◌++◌, IfOk, OnOk};
ghost use Rattle.std.specs.Fmt.{decimal};
ghost use Rattle.std.specs.List.{flat_map};
ghost use Rattle.run_report.specs.Errors as spec;

use crate::answer::RowError;
use js_lexer::{LexFaultKind, SyntaxKind};
use std::alloc::{AllocError, Global};
use tree_check::Rule;
use tree_core::Address;

#[tactic(auto, unfolding(crate::specs::Errors::lex_name))]
fn lex_name(kind: LexFaultKind) -> &'static str
    ensures { result.now ≡ spec.lex_name kind }
{
    match kind {
        LexFaultKind::OpenString => "OpenString",
        LexFaultKind::OpenTemplate => "OpenTemplate",
        LexFaultKind::OpenComment => "OpenComment",
        LexFaultKind::OpenRegex => "OpenRegex",
        LexFaultKind::BadEscape => "BadEscape",
        LexFaultKind::BadNumber => "BadNumber",
        LexFaultKind::BadChar => "BadChar",
    }
}

#[tactic(auto, unfolding(crate::specs::Errors::syntax_name))]
fn syntax_name(kind: SyntaxKind) -> &'static str
    ensures { result.now ≡ spec.syntax_name kind }
{
    match kind {
        SyntaxKind::Lex(kind) => lex_name(kind),
        SyntaxKind::Unexpected => "Unexpected",
        SyntaxKind::Nesting => "Nesting",
    }
}

// The bytes of a text without an offset.
fn plain(alloc: Global, text: &str) -> Result<Vec<u8>, AllocError>
    ensures { IfOk result (λ v. v.items ≡ text.now) }
{
    text.as_bytes().to_vec(alloc)
}

#[tactic(auto, unfolding(crate::specs::Errors::placed))]
// What has this name at an offset.
fn placed(alloc: Global, what: &str, name: &str, at: u32) -> Result<Vec<u8>, AllocError>
    ensures { IfOk result (λ v. v.items ≡ spec.placed what.now name.now at) }
{
    let digits = at.to_string(alloc)?;
    let mut text = plain(alloc, what)?;
    text.extend_from_slice(name.as_bytes())?;
    text.extend_from_slice(b" at ")?;
    text.extend_from_slice(digits.as_bytes())?;
    Ok(text)
}

// A number behind a text.
fn counted(alloc: Global, what: &str, count: u64) -> Result<Vec<u8>, AllocError>
    ensures { IfOk result (λ v. v.items ≡ what.now ++ decimal count) }
{
    let digits = count.to_string(alloc)?;
    let mut text = plain(alloc, what)?;
    text.extend_from_slice(digits.as_bytes())?;
    Ok(text)
}

#[tactic(auto, unfolding(crate::specs::Errors::step_text))]
// Appends one step of an address.
fn push_step(alloc: Global, step: u32, text: &mut Vec<u8>) -> Result<(), AllocError>
    ensures { OnOk result (text.new.items ≡ text.old.items ++ spec.step_text step) }
{
    let digits = step.to_string(alloc)?;
    text.push(b'/')?;
    text.extend_from_slice(digits.as_bytes())?;
    Ok(())
}

// The steps of an address.
fn steps_text(alloc: Global, steps: &[u32]) -> Result<Vec<u8>, AllocError>
    ensures { IfOk result (λ v. v.items ≡ flat_map spec.step_text steps.now) }
{
    let mut text = Vec::new(alloc);
    for step in steps {
        push_step(alloc, *step, &mut text)?;
    }
    Ok(text)
}

#[tactic(auto, unfolding(crate::specs::Errors::address_text))]
fn address_text(alloc: Global, address: &Address) -> Result<Vec<u8>, AllocError>
    ensures { IfOk result (λ v. v.items ≡ spec.address_text address.now) }
{
    let steps = address.steps();
    if steps.is_empty() {
        return plain(alloc, "/");
    }
    steps_text(alloc, steps)
}

#[tactic(auto, unfolding(crate::specs::Errors::broken))]
// A rule that a node breaks.
fn broken(alloc: Global, address: &Address, rule: Rule) -> Result<Vec<u8>, AllocError>
    ensures { IfOk result (λ v. v.items ≡ spec.broken address.now rule) }
{
    let place = address_text(alloc, address)?;
    let mut text = plain(alloc, "bad node ")?;
    text.extend_from_slice(&place)?;
    text.push(b' ')?;
    text.extend_from_slice(rule.name().as_bytes())?;
    Ok(text)
}

#[tactic(auto, unfolding(crate::specs::Errors::error_text))]
/// What is said of a file, a folder or a script that has no answer.
pub(crate) fn error_text(alloc: Global, error: &RowError) -> Result<Vec<u8>, AllocError>
    ensures { IfOk result (λ v. v.items ≡ spec.error_text error.now) }
{
    match error {
        RowError::Missing => plain(alloc, "missing"),
        RowError::ReadFault => plain(alloc, "read fault"),
        RowError::ListFault => plain(alloc, "list fault"),
        RowError::WriteFault => plain(alloc, "write fault"),
        RowError::Unnamed { count } => counted(alloc, "unnamed entries ", *count),
        RowError::FolderDeep => plain(alloc, "folder too deep"),
        RowError::TooLong => plain(alloc, "longer than 2097152 bytes"),
        RowError::NotUtf8 { at } => placed(alloc, "not ", "UTF-8", *at),
        RowError::Syntax { at, kind } => placed(alloc, "syntax ", syntax_name(*kind), *at),
        RowError::Script { at, kind } => placed(alloc, "script ", kind.name(), *at),
        RowError::Spent => plain(alloc, "fuel spent"),
        RowError::BadNode { address, rule } => broken(alloc, address, *rule),
        RowError::NotReadBack => plain(alloc, "text does not read back"),
        RowError::Form { at, kind } => placed(alloc, "form ", kind.name(), *at),
    }
}

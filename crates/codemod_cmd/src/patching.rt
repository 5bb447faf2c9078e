//! The text of a changed tree, behind the guard.

ghost use Rattle.std.specs.Prelude.{◌≡◌, IfOk};
ghost use Rattle.tree_core.specs.View.{syntax};
ghost use Rattle.codemod_cmd.specs.RunEndings.{IsGuarded, IsPatched};

use crate::answering::printed;
use crate::engine::Outcome;
use cm_text::{Layout, Source};
use reuse_patcher::patch;
use run_report::{RowAnswer, RowError};
use std::alloc::{AllocError, Global};
use text_guard::reads_back;
use tree_core::{Parsed, Tree};

// The row of a new text, which must read back as the tree.
fn guarded(alloc: Global, text: Source, tree: &Tree) -> Result<Outcome, AllocError>
    ensures { IfOk result (λ o. IsGuarded text (syntax tree.now) o.answer o.text.items) }
{
    if !reads_back(alloc, &text, tree)? {
        return Ok(Outcome::error(alloc, RowError::NotReadBack));
    }
    Ok(Outcome {
        answer: RowAnswer::Ok,
        text: text.into_bytes(),
    })
}

/// What comes of a tree that a script made of the source's and that passed the check. A text that is
/// longer than a source may be is not read again, and has the row of one that does not read back.
pub fn patched(
    alloc: Global,
    layout: Layout,
    source: Source,
    parsed: &Parsed,
    tree: &Tree,
) -> Result<Outcome, AllocError>
    ensures { IfOk result (λ o. IsPatched source (syntax tree.now) o.answer o.text.items) }
{
    let text = patch(alloc, &source, parsed, tree, layout)?.into_text();
    if text.as_slice() == source.bytes() {
        return Ok(printed(source));
    }
    match Source::new(text) {
        Ok(text) => guarded(alloc, text, tree),
        Err(_) => Ok(Outcome::error(alloc, RowError::NotReadBack)),
    }
}

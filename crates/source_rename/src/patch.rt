//! The text of edits: slices of the source, and the new name.

ghost use Rattle.std.specs.Prelude.{◌≡◌, ◌≤◌, ◌++◌, IsTrue, length, IfOk, OnOk};
ghost use Rattle.source_rename.specs.Edits.{spelled, patched};
ghost use Rattle.source_rename.specs.Edits as spec;

use crate::edits::Edit;
use crate::places::Spelling;
use std::alloc::{AllocError, Global};
use tree_core::Span;

/// The source with the edits made. One that begins before the end of the one before, as the twin of
/// a name that is spelled once for two nodes, is passed over.
pub fn patch(
    alloc: Global,
    source: &[u8],
    new: &[u8],
    edits: &[Edit],
) -> Result<Vec<u8>, AllocError>
    ensures { IfOk result (λ out. out.items ≡ patched source.now new.now 0 edits.now) }
{
    let mut out = Vec::new(alloc);
    let mut at = 0;
    for edit in edits {
        if lies_in(edit.span, at, source.len()) {
            out.extend_from_slice(&source[at..edit.span.start as usize])?;
            spell(&mut out, new, edit.spelling)?;
            at = edit.span.end as usize;
        }
    }
    out.extend_from_slice(&source[at..])?;
    Ok(out)
}

// Whether the stretch lies behind the offset, in a text of this length.
fn lies_in(span: Span, at: usize, len: usize) -> bool
    ensures value { result ≡ spec.lies_in at len span }
    ensures behind { IsTrue result → at ≤ span.start }
    ensures order { IsTrue result → span.start ≤ span.end }
    ensures within { IsTrue result → span.end ≤ len }
{
    let start = span.start as usize;
    let end = span.end as usize;
    at <= start && start <= end && end <= len
}

fn spell(out: &mut Vec<u8>, new: &[u8], spelling: Spelling) -> Result<(), AllocError>
    ensures { OnOk result (out.new.items ≡ out.old.items ++ spelled new.now spelling) }
{
    match spelling {
        Spelling::Name => out.extend_from_slice(new)?,
        Spelling::Grouped => {
            out.push(b'(')?;
            out.extend_from_slice(new)?;
            out.push(b')')?;
        }
        Spelling::Ended => {
            out.extend_from_slice(new)?;
            out.push(b';')?;
        }
        Spelling::End => out.push(b';')?,
    }
    Ok(())
}

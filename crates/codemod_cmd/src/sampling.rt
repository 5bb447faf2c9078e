//! Sample mode: a renaming over a source that is made, with no file and no script.

ghost use Rattle.std.specs.Prelude.{IfOk};
ghost use Rattle.codemod_cmd.specs.Session.{IsSample};

use crate::engine::Engine;
use crate::script::Renaming;
use crate::transform::Transform;
use run_report::sample_text;
use sample_gen::sample;
use std::alloc::{AllocError, Global};

const OLD: &[u8] = b"a";

const NEW: &[u8] = b"b";

/// What is written of the sample of so many functions.
pub fn sample_lines(alloc: Global, count: u32) -> Result<Vec<u8>, AllocError>
    ensures { IfOk result (λ v. IsSample count v.items) }
{
    let source = sample(alloc, count)?;
    let read = source.len();
    let transform = Transform::Rename(Renaming { old: OLD, new: NEW });
    let outcome = transform.answer(alloc, "", source)?;
    sample_text(alloc, count, read, &outcome.answer, &outcome.text)
}

//! Characters of templates (ECMA-262, clause 12.9.6).

ghost use Rattle.std.specs.Prelude.{◌≡◌, ◌≤◌, length, true, IfOk};
ghost use Rattle.type_defs.specs.declared.kind.Kind.TheVariants as kind;
ghost use Rattle.leaf_spellings.specs.Leaves.{Leaf};

use crate::same::spells_written;
use crate::scalars::one_text;
use cm_text::Source;
use std::alloc::{AllocError, Global};
use tree_core::{Scalars, Span};

/// Whether the stretch, without marks, is these characters. It may be empty.
#[tactic(auto, using(crate::proofs::TemplateLeaves::some_characters))]
pub fn is_characters(
    alloc: Global,
    source: &Source,
    span: Span,
    scalars: &Scalars,
) -> Result<bool, AllocError>
    requires ordered { span.start ≤ span.end }
    requires within { span.end ≤ length source.now }
    ensures { IfOk result (λ held. held ≡ true → Leaf source.now span.start span.end kind.TemplateElement scalars.now) }
{
    let bytes = &source.bytes()[span.start as usize..span.end as usize];
    match one_text(scalars) {
        Some(text) => spells_written(alloc, bytes, true, text),
        None => Ok(false),
    }
}

//! Whole sources.

ghost use Rattle.std.specs.Prelude.{◌≡◌, ◌+◌, ◌≤◌, length, IfErr, IfOk};
ghost use Rattle.tree_core.specs.Height.{height};
ghost use Rattle.tree_core.specs.Numbers.{count, numbered};
ghost use Rattle.tree_core.specs.View.{syntax};
ghost use Rattle.js_lexer.specs.Cursors.{SpansFit};
ghost use Rattle.js_parser.specs.Refusals.{RefusedWithin};
ghost use Rattle.js_source.specs.Leaves.{LeavesSpelled};
ghost use Rattle.js_source.specs.Nested.{Nested, whole};
ghost use Rattle.js_source.specs.Shaped.{InShape};
ghost use Rattle.js_source.specs.Sizes.{place_count};

use crate::attached::Attached;
use crate::comment_places::{Spanned, attach};
use crate::front::front_of;
use crate::numbering::{Given, number};
use crate::quasis::{narrowed, widened};
use cm_text::Source;
use js_lexer::Refusal;
use js_parser::{MAX_LEVELS, Read, program};
use std::alloc::{AllocError, Global};
use tree_core::{Parsed, Spans, Tree};

// The comments of the source with their nodes.
fn attached(alloc: Global, spanned: Spanned<'_>, tree: &Tree) -> Result<Attached, AllocError> {
    let count = spanned.comments.len();
    let mut attached = Attached::new(alloc, spanned.spans.len(), count)?;
    if count > 0 {
        attach(spanned, &mut attached, MAX_LEVELS, tree, 0, count)?;
    }
    Ok(attached)
}

// The tree with its numbers, place names and comments, and the spans of its nodes by number.
fn numbered_tree(alloc: Global, spanned: Spanned<'_>, tree: Tree) -> Result<(Tree, Spans), Refusal>
    ensures refused { IfErr result (RefusedWithin (length spanned.entry.source.now)) }
    ensures fit { IfOk result (λ r. SpansFit (length spanned.entry.source.now) r.1) }
    ensures nodes { IfOk result (λ r. length r.1 ≡ count (syntax r.0)) }
    ensures few { IfOk result (λ r. count (syntax r.0) ≤ 4194304) }
    ensures places { IfOk result (λ r. 1 + place_count (syntax r.0) ≤ 67108864) }
    ensures low { IfOk result (λ r. height (syntax r.0) ≤ 1000) }
    ensures shaped { IfOk result (λ r. InShape (syntax r.0)) }
    ensures leaves { IfOk result (λ r. LeavesSpelled spanned.entry.source.now r.1 (syntax r.0)) }
    ensures numbers { IfOk result (λ r. syntax r.0 ≡ numbered 0 (syntax r.0)) }
    ensures nested { IfOk result (λ r. Nested r.1 (whole (length spanned.entry.source.now)) (syntax r.0)) }
{
    let attached = attached(alloc, spanned, &tree)?;
    let given = Given {
        alloc,
        spanned,
        attached: &attached,
    };
    number(&given, tree, MAX_LEVELS)
}

/// The tree that the text spells, with its comments and the spans of its nodes and comments.
///
/// Nodes are numbered in preorder from 0, the places of a node in the order of its slots. The
/// span of the program is the whole text, that of a template's characters has no marks in it. A
/// first line that begins with `#!`, perhaps behind U+FEFF, is the program's interpreter (ECMA-262,
/// 14th edition, clause 12.5). A refusal names the byte offset of a token or of a node's
/// start, or is for want of memory.
pub fn parse(alloc: Global, source: &Source) -> Result<Parsed, Refusal>
    ensures refused { IfErr result (RefusedWithin (length source.now)) }
    ensures spans { IfOk result (λ parsed. length parsed.spans ≡ count (syntax parsed.tree)) }
    ensures within { IfOk result (λ parsed. SpansFit (length source.now) parsed.spans) }
    ensures comments { IfOk result (λ parsed. SpansFit (length source.now) parsed.comments) }
    ensures numbers { IfOk result (λ parsed. syntax parsed.tree ≡ numbered 0 (syntax parsed.tree)) }
    ensures nested { IfOk result (λ parsed. Nested parsed.spans (whole (length source.now)) (syntax parsed.tree)) }
    ensures nodes { IfOk result (λ parsed. count (syntax parsed.tree) ≤ 4194304) }
    ensures places { IfOk result (λ parsed. 1 + place_count (syntax parsed.tree) ≤ 67108864) }
    ensures low { IfOk result (λ parsed. height (syntax parsed.tree) ≤ 1000) }
    ensures shaped { IfOk result (λ parsed. InShape (syntax parsed.tree)) }
    ensures leaves { IfOk result (λ parsed. LeavesSpelled source.now parsed.spans (syntax parsed.tree)) }
{
    let text = source.bytes();
    let front = front_of(alloc, text)?;
    let read = program(alloc, source, front.from, front.interpreter)?;
    let Read {
        tree,
        cursor,
        quasis,
    } = read;
    let count = cursor.comments().len();
    let (spans, comments) = cursor.into_spans();
    let spans = widened(
        narrowed(spans, quasis.as_slice()),
        tree.from,
        text.len() as u32,
    );
    let spanned = Spanned {
        source,
        spans: spans.as_slice(),
        comments: comments.as_slice(),
    };
    let (tree, spans) = numbered_tree(alloc, spanned, tree)?;
    Ok(Parsed {
        tree,
        spans,
        comments,
    })
}

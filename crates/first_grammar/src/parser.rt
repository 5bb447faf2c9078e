//! Parses a whole text.

ghost use Rattle.std.specs.Prelude.{◌≡◌, ◌≤◌, [], length, IfOk, IfErr};
ghost use Rattle.tree_core.specs.Height.{height};
ghost use Rattle.tree_core.specs.Syntax.{Syntax};
ghost use Rattle.tree_core.specs.View.{syntax};
ghost use Rattle.first_grammar.specs.Numbers.{count, numbered};
ghost use Rattle.first_grammar.specs.Parse as spec;
ghost use Rattle.first_grammar.specs.Spells.{At, Whole, Reads};
ghost use Rattle.first_grammar.specs.Whole.{Answers};

use crate::cursor::Cursor;
use crate::error::ReadError;
use crate::number::number;
use crate::reader::program;
use sqlite_items::Items;
use std::alloc::Global;
use tree_core::{Parsed, Spans, Tree};

/// The tree of the text, and the stretches of its nodes by their numbers, in the order in which
/// the nodes end.
fn read(alloc: Global, source: &[u8]) -> Result<(Tree, Spans), ReadError>
    requires short { length source.now ≤ 2097152 }
    ensures { spec.Is (spec.raw source.now) result }
{
    let mut cursor = Cursor::new(alloc, source);
    let grown = program(alloc, &mut cursor)?;
    Ok((grown.tree, cursor.into_spans()))
}

/// The tree that the text spells, with its nodes numbered in preorder and its places named, and
/// where its nodes stand. The text has at most 2,097,152 bytes.
pub fn parse(alloc: Global, source: &[u8]) -> Result<Parsed, ReadError>
    requires short { length source.now ≤ 2097152 }
    ensures spelled { IfOk result (λ p. Whole (At p.spans) source.now (syntax p.tree)) }
    ensures reads { IfOk result (λ p. Reads source.now (syntax p.tree)) }
    ensures numbered { IfOk result (λ p. syntax p.tree ≡ numbered 0 (syntax p.tree)) }
    ensures spans { IfOk result (λ p. length p.spans ≡ count (syntax p.tree)) }
    ensures nesting { IfOk result (λ p. height (syntax p.tree) ≤ 1000) }
    ensures comments { IfOk result (λ p. p.comments ≡ []) }
    ensures refused { IfErr result (λ e. spec.Refused source.now e) }
    ensures alone { (t : Syntax) → Reads source.now t → Answers (λ p. syntax p.tree) result t }
{
    let (tree, old) = read(alloc, source)?;
    let mut spans = Items::new(alloc);
    let tree = number(alloc, old.as_slice(), &mut spans, tree)?;
    Ok(Parsed {
        tree,
        spans,
        comments: Items::new(alloc),
    })
}

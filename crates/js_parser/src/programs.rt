//! Whole programs.

ghost use Rattle.std.specs.Prelude.{◌≡◌, ◌≤◌, length, true, IfErr, IfOk};
ghost use Rattle.js_lexer.specs.Cursors.{is_done};
ghost use Rattle.js_parser.specs.Refusals.{MalformedAt, RefusedMalformed, RefusedWithin};

use crate::grammar::{Grammar, node};
use crate::nodes::Parts;
use crate::reader::{Quasi, Reader};
use cm_text::Source;
use js_forms::{Context, Form, first_pieces};
use js_lexer::{Cursor, Refusal, SyntaxFault, SyntaxKind, next};
use js_tokens::Goal;
use sqlite_items::Items;
use std::alloc::Global;
use tree_core::{Scalar, Tree};

/// How deep nodes and grouping parentheses nest at most.
pub const MAX_LEVELS: u32 = 1000;

/// A tree that was read, and the cursor that has the spans of its nodes by their numbers.
#[derive(Drop)]
pub struct Read<'a> {
    pub tree: Tree,
    pub cursor: Cursor<'a>,
    /// The characters of templates. Their spans have the template's punctuators in them.
    pub quasis: Items<Quasi>,
}

// The tree of the text from the offset on.
fn read_from(
    alloc: Global,
    source: &Source,
    from: u32,
    interpreter: Scalar,
) -> Result<Read<'_>, Refusal> {
    let from = from.min(source.bytes().len() as u32);
    let mut reader = Reader::new(alloc, Cursor::new(alloc, source, from));
    let grammar = Grammar {
        alloc,
        depth: MAX_LEVELS - 1,
        node,
    };
    let form = Form::Program;
    let mut read = Parts::new(alloc, form)?;
    read.push_scalar(alloc, interpreter)?;
    let context = Context::outermost();
    grammar.pieces(&mut reader, first_pieces(form), form, context, &mut read)?;
    if !reader.cursor.is_done() {
        return Err(reader.cursor.refuse());
    }
    let whole = grammar.finish(&mut reader, form, from, read)?;
    Ok(Read {
        tree: Box::into_inner(whole.tree),
        cursor: reader.cursor,
        quasis: reader.quasis,
    })
}

// The kind of a refusal at the offset: a malformed token only where the lexer finds one there.
fn kind_at(source: &Source, at: u32, kind: SyntaxKind) -> SyntaxKind
    requires { at ≤ length source.now }
    ensures { MalformedAt source.now at result }
{
    match kind {
        SyntaxKind::Lex(_) => match next(source, at, Goal::RegExpOrTemplateTail) {
            Err(fault) => {
                if fault.at == at {
                    return SyntaxKind::Lex(fault.kind);
                }
                SyntaxKind::Unexpected
            }
            Ok(_) => SyntaxKind::Unexpected,
        },
        SyntaxKind::Unexpected => SyntaxKind::Unexpected,
        SyntaxKind::Nesting => SyntaxKind::Nesting,
    }
}

// The refusal, at a place within the text and of the kind that it has there.
fn stated(source: &Source, refusal: Refusal) -> Refusal
    ensures within { RefusedWithin (length source.now) result }
    ensures malformed { RefusedMalformed source.now result }
{
    match refusal {
        Refusal::NoMemory => Refusal::NoMemory,
        Refusal::Syntax(SyntaxFault { at, kind }) => {
            let at = at.min(source.bytes().len() as u32);
            let kind = kind_at(source, at, kind);
            Refusal::Syntax(SyntaxFault { at, kind })
        }
    }
}

/// The tree of the text from the offset on, with the first line's text as its interpreter.
///
/// That the cursor is one over this text and at its end, and that the lexer finds a malformed token
/// where the cursor met one, hold by the way it is read. No clause of the rules carries that up to
/// here, so it is looked at once more. How high the tree is, is looked at where it is numbered, since
/// that walk goes over the whole tree anyhow.
pub fn program(
    alloc: Global,
    source: &Source,
    from: u32,
    interpreter: Scalar,
) -> Result<Read<'_>, Refusal>
    ensures refused { IfErr result (RefusedWithin (length source.now)) }
    ensures malformed { IfErr result (RefusedMalformed source.now) }
    ensures text { IfOk result (λ read. length read.cursor.text ≡ length source.now) }
    ensures whole { IfOk result (λ read. is_done read.cursor ≡ true) }
{
    let at = source.bytes().len() as u32;
    match read_from(alloc, source, from, interpreter) {
        Err(refusal) => Err(stated(source, refusal)),
        Ok(read) => {
            let fits = read.cursor.source().bytes().len() == source.bytes().len();
            if !fits || !read.cursor.is_done() {
                let kind = SyntaxKind::Unexpected;
                return Err(Refusal::Syntax(SyntaxFault { at, kind }));
            }
            Ok(read)
        }
    }
}

//! Statements without slots, and the ends of statements (ECMA-262, clauses 12.10, 14.4, 14.16 and
//! 11.2.1).

ghost use Rattle.std.specs.Prelude.{◌≡◌, ◌≤◌, length, true, false, IfOk};
ghost use Rattle.js_forms.specs.declared.form.Form.{Form};
ghost use Rattle.spelling_rules.specs.Spells as spec;
ghost use Rattle.type_defs.specs.declared.kind.Kind.TheVariants as kind;
ghost use Rattle.leaf_spellings.specs.Begun.{Begins, EndsStatement};
ghost use Rattle.leaf_spellings.specs.Leaves.{Leaf};

use crate::same::spells_written;
use crate::scalars::one_text;
use asi_rules::{EndLevels, Ending, may_end, would_join};
use cm_text::Source;
use js_forms::PRIMARY;
use js_lexer::next;
use js_tokens::{Goal, Punctuator, Token, TokenKind, Word};
use std::alloc::{AllocError, Global};
use tree_core::{Scalars, Span};

// Whether the `;` of a statement may be missing before the token, where this is the greatest level
// of the statement's ends. What may end it on its line may end it behind a line end too.
fn may_miss(token: Token, most: u8) -> bool
    ensures { result ≡ spec.may_miss Ending.Statement false most token }
{
    let ends = EndLevels {
        least: most,
        most,
        clause: false,
        word: Ending::Statement,
    };
    let joins = would_join(ends, token.kind);
    !token.kind.is_punctuator(Punctuator::Semicolon)
        && (may_end(false, token.kind) || (token.broken_before && !joins))
}

// Whether the end of a statement goes from the offset up to the end: a `;`, or nothing where that
// may be missing.
#[tactic(auto, using(crate::proofs::StatementLeaves::a_semicolon, crate::proofs::StatementLeaves::a_missing_one))]
fn is_statement_end(source: &Source, at: u32, most: u8, end: u32) -> bool
    requires { at ≤ length source.now }
    ensures { result ≡ true → (form : Form) → EndsStatement source.now form most at end }
{
    let Ok(token) = next(source, at, Goal::Div) else {
        return false;
    };
    if token.kind.is_punctuator(Punctuator::Semicolon) {
        return token.end == end;
    }
    at == end && may_miss(token, most)
}

/// Whether the stretch is a statement that is a `;` alone.
#[tactic(auto, using(crate::proofs::StatementLeaves::an_empty_one))]
pub fn is_empty(source: &Source, span: Span, token: Token, scalars: &Scalars) -> bool
    requires { Begins source.now span token }
    ensures { result ≡ true → Leaf source.now span.start span.end kind.EmptyStatement scalars.now }
{
    if scalars.len() != 0 || token.end != span.end {
        return false;
    }
    token.kind.is_punctuator(Punctuator::Semicolon)
}

/// Whether the stretch is `debugger` with its end.
#[tactic(auto, using(crate::proofs::StatementLeaves::a_debugger))]
pub fn is_debugger(source: &Source, span: Span, token: Token, scalars: &Scalars) -> bool
    requires { Begins source.now span token }
    ensures { result ≡ true → Leaf source.now span.start span.end kind.DebuggerStatement scalars.now }
{
    if scalars.len() != 0 || !token.kind.is_word(Word::Debugger) {
        return false;
    }
    is_statement_end(source, token.end, 0, span.end)
}

/// Whether the stretch is a string whose text between the quotes is this directive, with its end.
#[tactic(auto, using(crate::proofs::StatementLeaves::a_directive))]
pub fn is_directive(
    alloc: Global,
    source: &Source,
    span: Span,
    token: Token,
    scalars: &Scalars,
) -> Result<bool, AllocError>
    requires { Begins source.now span token }
    ensures { IfOk result (λ held. held ≡ true → Leaf source.now span.start span.end kind.Directive scalars.now) }
{
    if token.end - token.start < 2 || !is_statement_end(source, token.end, PRIMARY, span.end) {
        return Ok(false);
    }
    let inside = &source.bytes()[token.start as usize + 1..token.end as usize - 1];
    match (token.kind, one_text(scalars)) {
        (TokenKind::Quoted, Some(text)) => spells_written(alloc, inside, false, text),
        _ => Ok(false),
    }
}

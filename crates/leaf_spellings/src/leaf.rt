//! Whether a leaf is spelled, by its kind.

ghost use Rattle.std.specs.Prelude.{◌≡◌, ◌≤◌, length, true, IfOk, IfSome};
ghost use Rattle.tree_core.specs.View.{syntax};
ghost use Rattle.leaf_spellings.specs.Begun.{Begins};
ghost use Rattle.leaf_spellings.specs.Leaves.{Leaf, LeafSpelled};

use crate::literals::is_literal;
use crate::names::{is_name, is_private_name};
use crate::statements::{is_debugger, is_directive, is_empty};
use crate::template::is_characters;
use crate::words::{is_meta_property, is_super, is_this};
use cm_text::Source;
use js_lexer::next;
use js_tokens::{Goal, Token};
use std::alloc::{AllocError, Global};
use tree_core::{Scalars, Span, Tree};
use type_defs::Kind;

// The token that begins where the stretch does, if the stretch is not empty.
fn token_at(source: &Source, span: Span) -> Option<Token>
    requires ordered { span.start ≤ span.end }
    requires within { span.end ≤ length source.now }
    ensures { IfSome result (λ token. Begins source.now span token) }
{
    if span.start >= span.end {
        return None;
    }
    match next(source, span.start, Goal::Div) {
        Ok(token) if token.start == span.start => Some(token),
        _ => None,
    }
}

// Whether the stretch, which begins with the token, is a node of the kind with these scalars.
fn is_leaf(
    alloc: Global,
    source: &Source,
    span: Span,
    token: Token,
    kind: Kind,
    scalars: &Scalars,
) -> Result<bool, AllocError>
    requires { Begins source.now span token }
    ensures { IfOk result (λ held. held ≡ true → Leaf source.now span.start span.end kind scalars.now) }
{
    match kind {
        Kind::Identifier => is_name(alloc, source, span, token, scalars),
        Kind::PrivateIdentifier => is_private_name(alloc, source, span, token, scalars),
        Kind::Literal => is_literal(alloc, source, span, token, scalars),
        Kind::ThisExpression => Ok(is_this(source, span, token, scalars)),
        Kind::Super => Ok(is_super(source, span, token, scalars)),
        Kind::MetaProperty => Ok(is_meta_property(source, span, token, scalars)),
        Kind::EmptyStatement => Ok(is_empty(source, span, token, scalars)),
        Kind::DebuggerStatement => Ok(is_debugger(source, span, token, scalars)),
        Kind::Directive => is_directive(alloc, source, span, token, scalars),
        _ => Ok(false),
    }
}

/// Whether the node is what the source spells at the stretch, if it has no slots. The stretch of a
/// template's characters has no marks in it.
pub fn is_spelled(
    alloc: Global,
    source: &Source,
    span: Span,
    tree: &Tree,
) -> Result<bool, AllocError>
    requires ordered { span.start ≤ span.end }
    requires within { span.end ≤ length source.now }
    ensures { IfOk result (λ held. held ≡ true → LeafSpelled source.now span (syntax tree.now)) }
{
    if !tree.slots.is_empty() {
        return Ok(true);
    }
    if matches!(tree.kind, Kind::TemplateElement) {
        return is_characters(alloc, source, span, &tree.scalars);
    }
    match token_at(source, span) {
        Some(token) => is_leaf(alloc, source, span, token, tree.kind, &tree.scalars),
        None => Ok(false),
    }
}

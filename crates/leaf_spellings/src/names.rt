//! Names: identifiers, and those that are private (ECMA-262, clause 12.7).

ghost use Rattle.std.specs.Prelude.{◌≡◌, true, IfOk};
ghost use Rattle.type_defs.specs.declared.kind.Kind.TheVariants as kind;
ghost use Rattle.leaf_spellings.specs.Begun.{Begins};
ghost use Rattle.leaf_spellings.specs.Leaves.{Leaf};

use crate::same::spells_name;
use crate::scalars::one_text;
use cm_text::Source;
use js_tokens::{Token, TokenKind};
use std::alloc::{AllocError, Global};
use tree_core::{Scalars, Span};

/// Whether the stretch is the name of an identifier, which may be a reserved word where it is a
/// key.
#[tactic(auto, using(crate::proofs::NameLeaves::a_name))]
pub fn is_name(
    alloc: Global,
    source: &Source,
    span: Span,
    token: Token,
    scalars: &Scalars,
) -> Result<bool, AllocError>
    requires { Begins source.now span token }
    ensures { IfOk result (λ held. held ≡ true → Leaf source.now span.start span.end kind.Identifier scalars.now) }
{
    if token.end != span.end {
        return Ok(false);
    }
    match (token.kind, one_text(scalars)) {
        (TokenKind::Name(_), Some(text)) => spells_name(alloc, source, token, text),
        _ => Ok(false),
    }
}

/// Whether the stretch is `#` and this private name.
#[tactic(auto, using(crate::proofs::NameLeaves::a_private_name))]
pub fn is_private_name(
    alloc: Global,
    source: &Source,
    span: Span,
    token: Token,
    scalars: &Scalars,
) -> Result<bool, AllocError>
    requires { Begins source.now span token }
    ensures { IfOk result (λ held. held ≡ true → Leaf source.now span.start span.end kind.PrivateIdentifier scalars.now) }
{
    if token.end != span.end {
        return Ok(false);
    }
    let name = Token {
        start: token.start + 1,
        ..token
    };
    match (token.kind, one_text(scalars)) {
        (TokenKind::Private, Some(text)) => spells_name(alloc, source, name, text),
        _ => Ok(false),
    }
}

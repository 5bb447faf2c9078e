//! Literals (ECMA-262, clauses 12.9 and 13.2.3). A literal's scalars are its sort, its value and
//! its flags.

ghost use Rattle.std.specs.Prelude.{◌≡◌, ◌≤◌, ◌<◌, ◌-◌, ◌∷◌, [], ℕ, length, slice_index, true, Some, IfOk};
ghost use Rattle.tree_core.specs.declared.scalars.Scalar.TheVariants as scalar;
ghost use Rattle.spelling_rules.specs.Tokens.{regex_texts};
ghost use Rattle.type_defs.specs.declared.kind.Kind.TheVariants as kind;
ghost use Rattle.leaf_spellings.specs.Begun.{Begins};
ghost use Rattle.leaf_spellings.specs.Leaves.{Leaf};

use crate::same::{spells_string, spells_written};
use crate::scalars::value_of;
use cm_text::Source;
use js_forms::Sort;
use js_lexer::next;
use js_tokens::{Goal, Token, TokenKind, Word};
use std::alloc::{AllocError, Global};
use tree_core::{Scalar, Scalars, Span};

// Whether the stretch is a string with this value.
#[tactic(auto, using(crate::proofs::LiteralLeaves::a_string))]
fn is_string(
    alloc: Global,
    source: &Source,
    span: Span,
    token: Token,
    scalars: &Scalars,
) -> Result<bool, AllocError>
    requires begins { Begins source.now span token }
    requires sort { token.kind ≡ TokenKind.Quoted }
    ensures { IfOk result (λ held. held ≡ true → Leaf source.now span.start span.end kind.Literal scalars.now) }
{
    if token.end != span.end || token.end - token.start < 2 {
        return Ok(false);
    }
    let inside = &source.bytes()[token.start as usize + 1..token.end as usize - 1];
    match value_of(scalars, Sort::Quoted) {
        Some((Scalar::Text(value), Scalar::Null)) => spells_string(alloc, inside, value.get()),
        _ => Ok(false),
    }
}

// Whether the stretch is a number that is written so.
#[tactic(auto, using(crate::proofs::LiteralLeaves::a_number))]
fn is_number(
    alloc: Global,
    source: &Source,
    span: Span,
    token: Token,
    scalars: &Scalars,
) -> Result<bool, AllocError>
    requires begins { Begins source.now span token }
    requires sort { token.kind ≡ TokenKind.Number }
    ensures { IfOk result (λ held. held ≡ true → Leaf source.now span.start span.end kind.Literal scalars.now) }
{
    if token.end != span.end {
        return Ok(false);
    }
    let bytes = &source.bytes()[token.start as usize..token.end as usize];
    match value_of(scalars, Sort::Number) {
        Some((Scalar::Text(value), Scalar::Null)) => {
            spells_written(alloc, bytes, false, value.get())
        }
        _ => Ok(false),
    }
}

// Whether the stretch is a big integer that is written so.
#[tactic(auto, using(crate::proofs::LiteralLeaves::a_big_int))]
fn is_big_int(
    alloc: Global,
    source: &Source,
    span: Span,
    token: Token,
    scalars: &Scalars,
) -> Result<bool, AllocError>
    requires begins { Begins source.now span token }
    requires sort { token.kind ≡ TokenKind.BigInt }
    ensures { IfOk result (λ held. held ≡ true → Leaf source.now span.start span.end kind.Literal scalars.now) }
{
    if token.end != span.end {
        return Ok(false);
    }
    let bytes = &source.bytes()[token.start as usize..token.end as usize];
    match value_of(scalars, Sort::BigInt) {
        Some((Scalar::Text(value), Scalar::Null)) => {
            spells_written(alloc, bytes, false, value.get())
        }
        _ => Ok(false),
    }
}

// Whether the stretch is `null`, `true` or `false`.
#[tactic(auto, using(crate::proofs::LiteralLeaves::a_null, crate::proofs::LiteralLeaves::a_true, crate::proofs::LiteralLeaves::a_false))]
fn is_word_literal(source: &Source, span: Span, token: Token, scalars: &Scalars) -> bool
    requires { Begins source.now span token }
    ensures { result ≡ true → Leaf source.now span.start span.end kind.Literal scalars.now }
{
    if token.end != span.end {
        return false;
    }
    if token.kind.is_word(Word::Null) {
        return match value_of(scalars, Sort::Null) {
            Some((Scalar::Null, Scalar::Null)) => true,
            _ => false,
        };
    }
    if token.kind.is_word(Word::True) {
        return match value_of(scalars, Sort::True) {
            Some((Scalar::Truth(truth), Scalar::Null)) => *truth,
            _ => false,
        };
    }
    token.kind.is_word(Word::False)
        && match value_of(scalars, Sort::False) {
            Some((Scalar::Truth(truth), Scalar::Null)) => !*truth,
            _ => false,
        }
}

// Where the flags of a regular expression begin: behind its last `/`, at 0 where there is none.
fn flags_at(text: &[u8]) -> usize
    ensures within { result ≤ length text.now }
    ensures behind { 0 < result → slice_index text.now (result - 1) ≡ 0x2F }
    ensures last { (k : ℕ) → result ≤ k → k < length text.now → slice_index text.now k ≡ 0x2F → ⊥ }
{
    let mut at = 0;
    for (i, byte) in text.iter().enumerate() {
        if *byte == b'/' {
            at = i + 1;
        }
    }
    at
}

// Whether the text is a regular expression of this pattern with these flags.
#[tactic(auto, using(crate::proofs::LiteralLeaves::a_pattern))]
fn spells_regex(
    alloc: Global,
    text: &[u8],
    pattern: &[u16],
    flags: &[u16],
) -> Result<bool, AllocError>
    ensures { IfOk result (λ held. held ≡ true → regex_texts text.now ≡ Some (scalar.Text pattern.now ∷ scalar.Text flags.now ∷ [])) }
{
    let at = flags_at(text);
    if at < 2 {
        return Ok(false);
    }
    Ok(
        spells_written(alloc, &text[1..at - 1], false, pattern)?
            && spells_written(alloc, &text[at..], false, flags)?,
    )
}

// Whether the stretch is a regular expression, for which it is read again in a goal of its own.
#[tactic(auto, using(crate::proofs::LiteralLeaves::a_regex))]
fn is_regex(
    alloc: Global,
    source: &Source,
    span: Span,
    first: Token,
    scalars: &Scalars,
) -> Result<bool, AllocError>
    requires { Begins source.now span first }
    ensures { IfOk result (λ held. held ≡ true → Leaf source.now span.start span.end kind.Literal scalars.now) }
{
    let Ok(token) = next(source, span.start, Goal::RegExp) else {
        return Ok(false);
    };
    if token.end != span.end {
        return Ok(false);
    }
    let text = &source.bytes()[token.start as usize..token.end as usize];
    match (token.kind, value_of(scalars, Sort::Regex)) {
        (TokenKind::Regex, Some((Scalar::Text(pattern), Scalar::Text(flags)))) => {
            spells_regex(alloc, text, pattern.get(), flags.get())
        }
        _ => Ok(false),
    }
}

/// Whether the stretch is a literal with these scalars.
pub fn is_literal(
    alloc: Global,
    source: &Source,
    span: Span,
    token: Token,
    scalars: &Scalars,
) -> Result<bool, AllocError>
    requires { Begins source.now span token }
    ensures { IfOk result (λ held. held ≡ true → Leaf source.now span.start span.end kind.Literal scalars.now) }
{
    match token.kind {
        TokenKind::Quoted => is_string(alloc, source, span, token, scalars),
        TokenKind::Number => is_number(alloc, source, span, token, scalars),
        TokenKind::BigInt => is_big_int(alloc, source, span, token, scalars),
        TokenKind::Name(_) => Ok(is_word_literal(source, span, token, scalars)),
        TokenKind::Punctuator(_) => is_regex(alloc, source, span, token, scalars),
        _ => Ok(false),
    }
}

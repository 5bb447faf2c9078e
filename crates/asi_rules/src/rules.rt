//! The two rules, and the ends by which the second goes.

ghost use Rattle.std.specs.Prelude.{◌≡◌};
ghost use Rattle.asi_rules.specs.Semicolons as spec;

use js_tokens::{Punctuator, TemplatePart, TokenKind, Word};

/// What ends without a `;`.
#[derive(Clone, Copy, Debug, PartialEq, Eq)]
pub enum Ending {
    Statement,
    /// A field of a class with a value.
    FieldValue,
    /// A field without one.
    Field,
    /// A field without one, whose key is the plain name `get` or `set`.
    AccessorName,
    /// A field without one that is not static, whose key is the plain name `static`.
    StaticName,
}

/// The ends of a statement or of a field's value: its last expression, and what ends with it.
#[derive(Clone, Copy, Debug, PartialEq, Eq)]
pub struct EndLevels {
    /// The least level of an end, 0 where there is none.
    pub least: u8,
    /// The greatest, 0 where there is none.
    pub most: u8,
    /// Whether it is an export clause without source.
    pub clause: bool,
    pub word: Ending,
}

/// Whether a `;` may be missing before the next token, if what is before does not go on with it;
/// `broken` says that a line end stands between.
pub fn may_end(broken: bool, next: TokenKind) -> bool
    ensures { result ≡ spec.may_end broken next }
{
    broken || closes(next)
}

// Whether no line end is wanted before the token.
fn closes(next: TokenKind) -> bool
    ensures { result ≡ spec.closes next }
{
    match next {
        TokenKind::End => true,
        TokenKind::Punctuator(mark) => match mark {
            Punctuator::CloseBrace => true,
            _ => false,
        },
        _ => false,
    }
}

/// Whether a statement or a field with these ends goes on with the next token, which the goal Div
/// reads and which begins a statement or a member of a class.
pub fn would_join(ends: EndLevels, next: TokenKind) -> bool
    ensures { result ≡ spec.would_join ends next }
{
    match ends.word {
        Ending::Statement => statement_joins(ends, next),
        Ending::FieldValue => value_joins(ends.most, next),
        Ending::Field => field_joins(next),
        Ending::AccessorName => field_joins(next) || begins_key(next),
        Ending::StaticName => !is_close_brace(next),
    }
}

fn statement_joins(ends: EndLevels, next: TokenKind) -> bool
    ensures { result ≡ spec.statement_joins ends next }
{
    match next {
        TokenKind::Punctuator(mark) => match mark {
            Punctuator::OpenParen | Punctuator::OpenBracket => ends.most >= 16,
            Punctuator::Plus | Punctuator::Minus => ends.most >= 11,
            Punctuator::Slash | Punctuator::SlashAssign => ends.most >= 12,
            _ => false,
        },
        TokenKind::Template(part) => match part {
            TemplatePart::Whole | TemplatePart::Head => ends.most >= 16,
            TemplatePart::Middle | TemplatePart::Tail => false,
        },
        TokenKind::Name(word) => match word {
            Word::From => ends.clause,
            _ => false,
        },
        _ => false,
    }
}

// The same of a field with a value, by the greatest level of its ends.
fn value_joins(most: u8, next: TokenKind) -> bool
    ensures { result ≡ spec.value_joins most next }
{
    match next {
        TokenKind::Punctuator(mark) => match mark {
            Punctuator::OpenBracket => most >= 16,
            Punctuator::Star => most >= 12,
            _ => false,
        },
        TokenKind::Name(word) => match word {
            Word::In | Word::Instanceof => most >= 9,
            _ => false,
        },
        _ => false,
    }
}

// The same of a field without a value.
fn field_joins(next: TokenKind) -> bool
    ensures { result ≡ spec.field_joins next }
{
    match next {
        TokenKind::Punctuator(mark) => match mark {
            Punctuator::OpenParen | Punctuator::Assign => true,
            _ => false,
        },
        _ => false,
    }
}

// Whether a key begins with the token.
fn begins_key(next: TokenKind) -> bool
    ensures { result ≡ spec.begins_key next }
{
    match next {
        TokenKind::Name(_)
        | TokenKind::Quoted
        | TokenKind::Number
        | TokenKind::BigInt
        | TokenKind::Private => true,
        TokenKind::Punctuator(mark) => match mark {
            Punctuator::OpenBracket => true,
            _ => false,
        },
        _ => false,
    }
}

fn is_close_brace(next: TokenKind) -> bool
    ensures { result ≡ spec.is_close_brace next }
{
    match next {
        TokenKind::Punctuator(mark) => match mark {
            Punctuator::CloseBrace => true,
            _ => false,
        },
        _ => false,
    }
}

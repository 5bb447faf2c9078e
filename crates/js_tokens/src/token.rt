//! Tokens.

ghost use Rattle.js_tokens.specs.Tokens.{is_punctuator, is_word};
ghost use Rattle.std.specs.Prelude.{◌≡◌};

use crate::punctuator::Punctuator;
use crate::word::Word;

/// What the lexical grammar reads next (ECMA-262, clause 12): the place in the syntactic grammar
/// decides.
#[derive(Clone, Copy, Debug, PartialEq, Eq)]
pub enum Goal {
    /// `/` begins a division punctuator.
    Div,
    /// `/` begins a regular expression.
    RegExp,
    /// `}` goes on with a template, and `/` begins a division punctuator.
    TemplateTail,
    /// `}` goes on with a template, and `/` begins a regular expression.
    RegExpOrTemplateTail,
}

/// Which part of a template a token is.
#[derive(Clone, Copy, Debug, PartialEq, Eq)]
pub enum TemplatePart {
    /// From a backquote to a backquote.
    Whole,
    /// From a backquote to `${`.
    Head,
    /// From `}` to `${`.
    Middle,
    /// From `}` to a backquote.
    Tail,
}

/// The sorts of token.
#[derive(Clone, Copy, Debug, PartialEq, Eq)]
pub enum TokenKind {
    /// The end of the text.
    End,
    /// An identifier name.
    Name(Word),
    Punctuator(Punctuator),
    Number,
    BigInt,
    /// A string.
    Quoted,
    /// A regular expression.
    Regex,
    Template(TemplatePart),
    /// `#` and an identifier name.
    Private,
}

impl TokenKind {
    /// Whether the token is this punctuator.
    pub fn is_punctuator(self, punctuator: Punctuator) -> bool
        ensures { result ≡ is_punctuator self punctuator }
    {
        match self {
            TokenKind::Punctuator(found) => found.number() == punctuator.number(),
            TokenKind::End
            | TokenKind::Name(_)
            | TokenKind::Number
            | TokenKind::BigInt
            | TokenKind::Quoted
            | TokenKind::Regex
            | TokenKind::Template(_)
            | TokenKind::Private => false,
        }
    }

    /// Whether the token is this word, spelled without an escape.
    pub fn is_word(self, word: Word) -> bool
        ensures { result ≡ is_word self word }
    {
        match self {
            TokenKind::Name(found) => found.number() == word.number(),
            TokenKind::End
            | TokenKind::Punctuator(_)
            | TokenKind::Number
            | TokenKind::BigInt
            | TokenKind::Quoted
            | TokenKind::Regex
            | TokenKind::Template(_)
            | TokenKind::Private => false,
        }
    }
}

/// A token from the byte `start` up to the byte `end`. `broken_before` says that a line end stands
/// between it and the token before.
#[derive(Clone, Copy, Debug, PartialEq, Eq)]
pub struct Token {
    pub kind: TokenKind,
    pub start: u32,
    pub end: u32,
    pub broken_before: bool,
}

//! Why a text is refused.

ghost use Rattle.js_lexer.specs.Faults.{lex_number, syntax_number};
ghost use Rattle.std.specs.Prelude.{◌≡◌};

use std::alloc::AllocError;

/// What is wrong with a lexical element.
#[derive(Clone, Copy, Debug, PartialEq, Eq)]
pub enum LexFaultKind {
    /// A string that ends neither on its line nor in the text.
    OpenString,
    OpenTemplate,
    OpenComment,
    /// A regular expression that does not end on its line.
    OpenRegex,
    /// A backslash that begins no escape.
    BadEscape,
    /// A number with a letter or a digit right behind it.
    BadNumber,
    /// A character that begins no element.
    BadChar,
}

impl LexFaultKind {
    /// 1 to 7, in the order of the variants.
    pub fn number(self) -> u8
        ensures { result ≡ lex_number self }
    {
        match self {
            LexFaultKind::OpenString => 1,
            LexFaultKind::OpenTemplate => 2,
            LexFaultKind::OpenComment => 3,
            LexFaultKind::OpenRegex => 4,
            LexFaultKind::BadEscape => 5,
            LexFaultKind::BadNumber => 6,
            LexFaultKind::BadChar => 7,
        }
    }
}

/// A broken lexical element, which begins at the byte `at`.
#[derive(Clone, Copy, Debug, PartialEq, Eq)]
pub struct LexFault {
    pub at: u32,
    pub kind: LexFaultKind,
}

/// Why a text is no program.
#[derive(Clone, Copy, Debug, PartialEq, Eq)]
pub enum SyntaxKind {
    /// A lexical element is broken.
    Lex(LexFaultKind),
    /// No program goes on with this token.
    Unexpected,
    /// The text nests too deep.
    Nesting,
}

impl SyntaxKind {
    /// 1, 2 and 4, in the order of the variants.
    pub fn number(self) -> u8
        ensures { result ≡ syntax_number self }
    {
        match self {
            SyntaxKind::Lex(_) => 1,
            SyntaxKind::Unexpected => 2,
            SyntaxKind::Nesting => 4,
        }
    }
}

/// Where a text stops being a program, a byte offset, and why.
#[derive(Clone, Copy, Debug, PartialEq, Eq)]
pub struct SyntaxFault {
    pub at: u32,
    pub kind: SyntaxKind,
}

/// Why a reader gives no tree.
#[derive(Clone, Copy, Debug, PartialEq, Eq)]
pub enum Refusal {
    Syntax(SyntaxFault),
    NoMemory,
}

impl From<AllocError> for Refusal {
    ghost use Rattle.std.specs.Prelude.{◌≡◌};
    ghost use Rattle.js_lexer.specs.declared.fault.Refusal.TheVariants.{NoMemory};

    ghost from_gives = { λ _ refusal. refusal ≡ NoMemory };

    fn from(_: AllocError) -> Refusal {
        Refusal::NoMemory
    }
}

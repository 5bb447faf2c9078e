//! The words that the grammar knows by name.

ghost use Rattle.js_tokens.specs.Words.{words, word_spellings, reservations, are_in_order, word_spelling, word_number, reserved, words_on, first_spelled, word_of};
ghost use Rattle.std.specs.Prelude.{◌≡◌, IsTrue, length, map, bytes_eq};

use crate::readable::Text;
use tree_core::are_bytes;

/// A word of the grammar: the reserved words of ECMA-262, clause 12.7.2, with `let`, and then those
/// that have a meaning at some places alone.
#[derive(Clone, Copy, Debug, PartialEq, Eq)]
pub enum Word {
    /// Any other name, and each name spelled with an escape.
    Plain,
    Await,
    Break,
    Case,
    Catch,
    Class,
    Const,
    Continue,
    Debugger,
    Default,
    Delete,
    Do,
    Else,
    Enum,
    Export,
    Extends,
    False,
    Finally,
    For,
    Function,
    If,
    Import,
    In,
    Instanceof,
    New,
    Null,
    Return,
    Super,
    Switch,
    This,
    Throw,
    True,
    Try,
    Typeof,
    Var,
    Void,
    While,
    With,
    Yield,
    Let,
    Async,
    From,
    Of,
    Get,
    Set,
    Static,
}

/// A row for each word, in the order of the enum: its text, empty for `Plain`, and whether it is no
/// identifier. `let` counts as one of these.
pub const WORDS: &[(Word, &str, bool)] = &[
    (Word::Plain, "", false),
    (Word::Await, "await", true),
    (Word::Break, "break", true),
    (Word::Case, "case", true),
    (Word::Catch, "catch", true),
    (Word::Class, "class", true),
    (Word::Const, "const", true),
    (Word::Continue, "continue", true),
    (Word::Debugger, "debugger", true),
    (Word::Default, "default", true),
    (Word::Delete, "delete", true),
    (Word::Do, "do", true),
    (Word::Else, "else", true),
    (Word::Enum, "enum", true),
    (Word::Export, "export", true),
    (Word::Extends, "extends", true),
    (Word::False, "false", true),
    (Word::Finally, "finally", true),
    (Word::For, "for", true),
    (Word::Function, "function", true),
    (Word::If, "if", true),
    (Word::Import, "import", true),
    (Word::In, "in", true),
    (Word::Instanceof, "instanceof", true),
    (Word::New, "new", true),
    (Word::Null, "null", true),
    (Word::Return, "return", true),
    (Word::Super, "super", true),
    (Word::Switch, "switch", true),
    (Word::This, "this", true),
    (Word::Throw, "throw", true),
    (Word::True, "true", true),
    (Word::Try, "try", true),
    (Word::Typeof, "typeof", true),
    (Word::Var, "var", true),
    (Word::Void, "void", true),
    (Word::While, "while", true),
    (Word::With, "with", true),
    (Word::Yield, "yield", true),
    (Word::Let, "let", true),
    (Word::Async, "async", false),
    (Word::From, "from", false),
    (Word::Of, "of", false),
    (Word::Get, "get", false),
    (Word::Set, "set", false),
    (Word::Static, "static", false),
];

#[tactic(auto, unfolding(crate::specs::Words::words, crate::specs::Words::word_spellings, crate::specs::Words::reservations, type_defs::specs::Rows::in_order))]
fn word_rows() -> &'static [(Word, &'static str, bool)]
    ensures count { length result.now ≡ 46 }
    ensures order { IsTrue (are_in_order words) }
    ensures words { map (λ row. row.0) result.now ≡ words }
    ensures spellings { map (λ row. row.1.now) result.now ≡ word_spellings }
    ensures reserved { map (λ row. row.2) result.now ≡ reservations }
{
    WORDS
}

impl Word {
    /// The word's text, empty for `Plain`.
    pub fn spelling(self) -> &'static str
        ensures { result.now ≡ word_spelling self }
    {
        word_rows()[self as usize].1
    }

    /// The word's place in the enum, 0 for `Plain`.
    pub fn number(self) -> u8
        ensures { result ≡ word_number self }
    {
        self as u8
    }

    /// Whether the word is no identifier. `let` counts as one of these.
    pub fn is_reserved(self) -> bool
        ensures { result ≡ reserved self }
    {
        word_rows()[self as usize].2
    }

    /// The word that the bytes of a name spell, `Plain` where they spell none.
    #[tactic(auto, using(crate::proofs::WordLemmas::words_on_enough))]
    pub fn of<T: Text>(name: T) -> Word
        ensures { result ≡ word_of (T.bytes name) }
    {
        first_spelled(words_on(name.byte(0)), name)
    }

    /// The word that the code units of a name spell, `Plain` where they spell none.
    pub fn of_units(name: &[u16]) -> Word
        ensures { result ≡ word_of name.now }
    {
        first_row(word_rows(), name)
    }
}

// The words that begin with the byte.
#[tactic(auto, unfolding(crate::specs::Words::words, crate::specs::Words::word_spellings, crate::specs::Words::words_on))]
fn words_on(first: u8) -> &'static [Word]
    ensures { result.now ≡ words_on first }
{
    match first {
        b'a' => &[Word::Await, Word::Async],
        b'b' => &[Word::Break],
        b'c' => &[
            Word::Case,
            Word::Catch,
            Word::Class,
            Word::Const,
            Word::Continue,
        ],
        b'd' => &[Word::Debugger, Word::Default, Word::Delete, Word::Do],
        b'e' => &[Word::Else, Word::Enum, Word::Export, Word::Extends],
        b'f' => &[
            Word::False,
            Word::Finally,
            Word::For,
            Word::Function,
            Word::From,
        ],
        b'g' => &[Word::Get],
        b'i' => &[Word::If, Word::Import, Word::In, Word::Instanceof],
        b'l' => &[Word::Let],
        b'n' => &[Word::New, Word::Null],
        b'o' => &[Word::Of],
        b'r' => &[Word::Return],
        b's' => &[Word::Super, Word::Switch, Word::Set, Word::Static],
        b't' => &[Word::This, Word::Throw, Word::True, Word::Try, Word::Typeof],
        b'v' => &[Word::Var, Word::Void],
        b'w' => &[Word::While, Word::With],
        b'y' => &[Word::Yield],
        _ => &[],
    }
}

fn first_spelled<T: Text>(words: &[Word], name: T) -> Word
    ensures { result ≡ first_spelled words.now (T.bytes name) }
{
    for word in words {
        if name.is(word.spelling().as_bytes()) {
            return *word;
        }
    }
    Word::Plain
}

fn first_row(rows: &[(Word, &str, bool)], name: &[u16]) -> Word
    ensures { result ≡ first_spelled (map (λ row. row.0) rows.now) name.now }
{
    for row in rows {
        if is_spelled(row.0, name) {
            return row.0;
        }
    }
    Word::Plain
}

#[tactic(auto, using(crate::proofs::WordLemmas::turned))]
fn is_spelled(word: Word, name: &[u16]) -> bool
    ensures { result ≡ bytes_eq (word_spelling word) name.now }
{
    are_bytes(name, word.spelling().as_bytes())
}

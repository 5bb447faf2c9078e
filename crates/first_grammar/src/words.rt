//! Blanks, names and the other tokens in bytes (ECMA-262, clause 12, in ASCII alone).

ghost use Rattle.std.specs.Prelude.{◌≡◌, ◌≤◌, length};
ghost use Rattle.std.specs.List.{list_any};
ghost use Rattle.std.specs.Str.{bytes_eq};
ghost use Rattle.first_grammar.specs.Words as spec;

use crate::table::Word;

/// The reserved words of ECMA-262, clause 12.7.2, with `let` and `await`.
pub const RESERVED: [&str; 39] = [
    "await",
    "break",
    "case",
    "catch",
    "class",
    "const",
    "continue",
    "debugger",
    "default",
    "delete",
    "do",
    "else",
    "enum",
    "export",
    "extends",
    "false",
    "finally",
    "for",
    "function",
    "if",
    "import",
    "in",
    "instanceof",
    "let",
    "new",
    "null",
    "return",
    "super",
    "switch",
    "this",
    "throw",
    "true",
    "try",
    "typeof",
    "var",
    "void",
    "while",
    "with",
    "yield",
];

pub fn is_blank(byte: u8) -> bool
    ensures { result ≡ spec.is_blank byte }
{
    byte == b' ' || byte == b'\n'
}

/// Whether a name may begin with the byte.
pub fn is_start(byte: u8) -> bool
    ensures { result ≡ spec.is_start byte }
{
    (b'a' <= byte && byte <= b'z') || (b'A' <= byte && byte <= b'Z') || byte == b'$' || byte == b'_'
}

/// Whether a name may go on with the byte.
pub fn is_part(byte: u8) -> bool
    ensures { result ≡ spec.is_part byte }
{
    is_start(byte) || (b'0' <= byte && byte <= b'9')
}

fn stands_in(words: &[&str], name: &[u8]) -> bool
    ensures { result ≡ list_any (λ word. bytes_eq word.now name.now) words.now }
{
    words.iter().any(|word| word.as_bytes() == name)
}

/// Whether the name is a reserved word.
#[tactic(auto, unfolding(crate::specs::Words::is_reserved))]
pub fn is_reserved(name: &[u8]) -> bool
    ensures { result ≡ spec.is_reserved name.now }
{
    stands_in(&RESERVED, name)
}

/// The token of one byte that the byte is.
pub fn mark_of(byte: u8) -> Word
    ensures { result ≡ spec.mark_of byte }
{
    match byte {
        b'(' => Word::OpenParen,
        b')' => Word::CloseParen,
        b',' => Word::Comma,
        b'.' => Word::Dot,
        b';' => Word::Semicolon,
        b'=' => Word::Assign,
        _ => Word::Other,
    }
}

/// Where the blanks from `from` on end.
pub fn blanks_end(bytes: &[u8], from: usize) -> usize
    requires { from ≤ length bytes.now }
    ensures value { result ≡ spec.blanks_end bytes.now from }
    ensures order { from ≤ result }
    ensures within { result ≤ length bytes.now }
{
    for at in from..bytes.len() {
        if !is_blank(bytes[at]) {
            return at;
        }
    }
    bytes.len()
}

/// Where the name ends whose bytes from `from` on are read.
pub fn name_end(bytes: &[u8], from: usize) -> usize
    requires { from ≤ length bytes.now }
    ensures value { result ≡ spec.name_end bytes.now from }
    ensures order { from ≤ result }
    ensures within { result ≤ length bytes.now }
{
    for at in from..bytes.len() {
        if !is_part(bytes[at]) {
            return at;
        }
    }
    bytes.len()
}

//! The pieces of forms that are tokens, and those whose text is a scalar.

ghost use Rattle.std.specs.Prelude.{◌≡◌, ◌≢◌, ◌-◌, ◌<◌, ◌≤◌, ℕ, length, slice_index, slice_range};

use crate::expected::Expected;
use crate::grammar::Grammar;
use crate::lookahead::{begins_default_declaration, ends_statement, is_name};
use crate::nodes::{Parts, ReadNode};
use crate::reader::Reader;
use cm_text::MAX_LENGTH;
use js_forms::{Lexeme, Test};
use js_lexer::{Cursor, Refusal};
use js_tokens::{Punctuator, TokenKind, Word, cook_string, is_reserved, name_of, units};
use std::alloc::Global;
use tree_core::{Scalar, Units};

pub fn expect_punctuator(cursor: &mut Cursor<'_>, mark: Punctuator) -> Result<(), Refusal> {
    if cursor.eat_mark(mark) {
        return Ok(());
    }
    Err(cursor.refuse())
}

pub fn expect_word(cursor: &mut Cursor<'_>, word: Word) -> Result<(), Refusal> {
    if cursor.eat_word(word) {
        return Ok(());
    }
    Err(cursor.refuse())
}

// Whether the next token is this name, spelled without an escape.
fn sees_spelled(cursor: &Cursor<'_>, spelling: &str) -> bool {
    match cursor.kind() {
        TokenKind::Name(_) => cursor.text() == spelling.as_bytes(),
        _ => false,
    }
}

// Whether the statement goes on with the next token.
fn goes_on(cursor: &Cursor<'_>) -> bool {
    !cursor.sees_mark(Punctuator::Semicolon) && !ends_statement(cursor)
}

/// Whether the next token passes the test. Where an expression statement and where a field's name
/// begin is told before their forms are chosen.
pub fn passes(cursor: &Cursor<'_>, test: Test) -> bool {
    match test {
        Test::Punctuator(mark) => cursor.sees_mark(mark),
        Test::NotPunctuator(mark) => !cursor.sees_mark(mark),
        Test::Word(word) => cursor.sees_word(word),
        Test::NotWord(word) => !cursor.sees_word(word),
        Test::OneOf(one, other) => cursor.sees_word(one) || cursor.sees_word(other),
        Test::Spelled(word) => sees_spelled(cursor, word.spelling()),
        Test::NotSpelled(word) => !sees_spelled(cursor, word.spelling()),
        Test::FreeName => is_name(cursor.kind()),
        Test::SameLine => !cursor.line_end_before(),
        Test::GoesOn => goes_on(cursor),
        Test::End => matches!(cursor.kind(), TokenKind::End),
        Test::NoDeclaration => !begins_default_declaration(cursor),
        Test::Pattern => {
            cursor.sees_mark(Punctuator::OpenBracket) || cursor.sees_mark(Punctuator::OpenBrace)
        }
        Test::Expression | Test::FieldName(_) => true,
        Test::Never => false,
    }
}

/// That the next token passes the test.
pub fn expect_ahead(cursor: &mut Cursor<'_>, test: Test) -> Result<(), Refusal> {
    if passes(cursor, test) {
        return Ok(());
    }
    Err(cursor.refuse())
}

/// That the next token passes the test; then passes the token. Behind the end of the text comes
/// nothing.
pub fn expect(cursor: &mut Cursor<'_>, test: Test) -> Result<(), Refusal> {
    expect_ahead(cursor, test)?;
    match test {
        Test::End => {}
        _ => cursor.take(),
    }
    Ok(())
}

/// Passes the end of a statement: a semicolon, or where it may be missing.
pub fn end_statement(cursor: &mut Cursor<'_>) -> Result<(), Refusal> {
    if cursor.eat_mark(Punctuator::Semicolon) || ends_statement(cursor) {
        return Ok(());
    }
    Err(cursor.refuse())
}

/// The text between the first and the last character.
pub fn inside(text: &[u8]) -> &[u8]
    ensures { 2 ≤ length text.now → result.now ≡ slice_range text.now 1 (length text.now - 1) }
{
    if text.len() < 2 {
        return text;
    }
    &text[1..text.len() - 1]
}

// Where the flags of a regular expression begin: behind its last `/`.
fn flags_at(text: &[u8]) -> usize
    ensures within { result ≤ length text.now }
    ensures behind { result < length text.now → slice_index text.now (result - 1) ≡ 0x2F }
    ensures last { (k : ℕ) → result ≤ k → k < length text.now → slice_index text.now k ≢ 0x2F }
{
    let mut at = text.len();
    for (i, byte) in text.iter().enumerate() {
        if *byte == b'/' {
            at = i + 1;
        }
    }
    at
}

// The pattern and the flags.
fn regex(alloc: Global, text: &[u8]) -> Result<(Units, Units), Refusal> {
    let at = flags_at(text);
    if at < 2 || at > text.len() {
        return Ok((units(alloc, text, false)?, units(alloc, b"", false)?));
    }
    let pattern = units(alloc, &text[1..at - 1], false)?;
    let flags = units(alloc, &text[at..], false)?;
    Ok((pattern, flags))
}

// The next token's name, its escapes read; then passes it.
fn name(alloc: Global, cursor: &mut Cursor<'_>) -> Result<Units, Refusal> {
    let token = cursor.token();
    match token.kind {
        TokenKind::Name(_) => {
            let name = name_of(alloc, cursor.source(), token)?;
            cursor.take();
            Ok(name)
        }
        _ => Err(cursor.refuse()),
    }
}

// Whether this name is a reserved word. The token tells it, unless an escape stands there: that has
// more bytes than it spells code units.
fn spells_reserved(word: Word, name: &Units, spelling: &[u8]) -> bool {
    word.is_reserved() || name.get().len() < spelling.len() && is_reserved(name)
}

// The same, of a name that is no reserved word.
fn free_name(alloc: Global, cursor: &mut Cursor<'_>) -> Result<Units, Refusal> {
    let token = cursor.token();
    match token.kind {
        TokenKind::Name(word) => {
            let name = name_of(alloc, cursor.source(), token)?;
            if spells_reserved(word, &name, cursor.text()) {
                return Err(cursor.refuse());
            }
            cursor.take();
            Ok(name)
        }
        _ => Err(cursor.refuse()),
    }
}

// The name behind `#`.
fn private_name(alloc: Global, cursor: &mut Cursor<'_>) -> Result<Units, Refusal> {
    let mut token = cursor.token();
    match token.kind {
        TokenKind::Private => {
            if token.start < token.end {
                token.start += 1;
            }
            let name = name_of(alloc, cursor.source(), token)?;
            cursor.take();
            Ok(name)
        }
        _ => Err(cursor.refuse()),
    }
}

fn quoted(alloc: Global, cursor: &mut Cursor<'_>) -> Result<Units, Refusal> {
    let raw = inside(cursor.text());
    if raw.len() > MAX_LENGTH {
        return Err(cursor.refuse());
    }
    match cook_string(alloc, raw) {
        Ok(value) => Ok(value),
        Err(js_tokens::CookFault::NoMemory) => Err(Refusal::NoMemory),
        Err(js_tokens::CookFault::BadEscape { at: _ }) => Err(cursor.refuse()),
    }
}

impl<F: Fn(Global, &mut Reader<'_>, u32, Expected) -> Result<ReadNode, Refusal>> Grammar<F> {
    /// Adds the token's text to the scalars, and passes the token.
    pub fn text(
        &self,
        reader: &mut Reader<'_>,
        lexeme: Lexeme,
        read: &mut Parts,
    ) -> Result<(), Refusal> {
        let alloc = self.alloc;
        let cursor = &mut reader.cursor;
        match lexeme {
            Lexeme::FreeName => Ok(read.push_text(alloc, free_name(alloc, cursor)?)?),
            Lexeme::AnyName => Ok(read.push_text(alloc, name(alloc, cursor)?)?),
            Lexeme::PrivateName => Ok(read.push_text(alloc, private_name(alloc, cursor)?)?),
            Lexeme::Quoted | Lexeme::Number | Lexeme::BigInt | Lexeme::Regex | Lexeme::Directive =>
                self.literal(reader, lexeme, read),
        }
    }

    // What a literal spells: its value or its spelling, and its flags.
    fn literal(
        &self,
        reader: &mut Reader<'_>,
        lexeme: Lexeme,
        read: &mut Parts,
    ) -> Result<(), Refusal> {
        let alloc = self.alloc;
        let cursor = &mut reader.cursor;
        match lexeme {
            Lexeme::Quoted => {
                let value = quoted(alloc, cursor)?;
                read.push_text(alloc, value)?;
                read.push_scalar(alloc, Scalar::Null)?;
            }
            Lexeme::Regex => {
                let (pattern, flags) = regex(alloc, cursor.text())?;
                read.push_text(alloc, pattern)?;
                read.push_text(alloc, flags)?;
            }
            Lexeme::Directive => {
                let raw = units(alloc, inside(cursor.text()), false)?;
                read.push_text(alloc, raw)?;
            }
            _ => {
                let raw = units(alloc, cursor.text(), false)?;
                read.push_text(alloc, raw)?;
                read.push_scalar(alloc, Scalar::Null)?;
            }
        }
        cursor.take();
        Ok(())
    }
}

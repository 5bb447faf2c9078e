//! What longer elements are made of, and where a row of it ends. Each function is given the bytes
//! from there to the end of the text.

ghost use Rattle.std.specs.Prelude.{◌≡◌, ◌+◌, ◌^◌, ◌<◌, ◌≤◌, length, IsTrue};
ghost use Rattle.js_lexer.specs.Parts as spec;

use js_tokens::{
    Piece, Text, character, continues_name, hex_digit, is_ascii_part, is_ascii_start, starts_name,
    string_escape, unicode_escape,
};

/// What stands in a row.
#[derive(Clone, Copy, Debug, PartialEq, Eq)]
pub enum Part {
    /// A character or an escape with which a name may go on.
    OfName,
    /// A digit of this radix, or `_` and such a digit.
    Digit(u32),
    /// A digit of this radix.
    BareDigit(u32),
    /// A character or an escape of a string in these quotes.
    OfString(u8),
    OfTemplate,
    /// A character or an escape of a class in a regular expression.
    OfClass,
    OfLineComment,
    OfBlockComment,
}

/// Whether the byte stands at the offset.
pub fn has_byte<T: Text>(rest: T, at: usize, byte: u8) -> bool
    ensures value { result ≡ spec.has_byte (T.bytes rest) at byte }
    ensures within { IsTrue result → at < length (T.bytes rest) }
    ensures short { length (T.bytes rest) + 1 < 2 ^ 64 }
{
    at < rest.len() && rest.byte(at) == byte
}

/// Whether the bytes begin with a line end (ECMA-262, clause 12.3).
#[tactic(auto, unfolding(crate::specs::Parts::breaks_line))]
pub fn breaks_line<T: Text>(rest: T) -> bool
    ensures { result ≡ spec.breaks_line (T.bytes rest) }
{
    let first = rest.byte(0);
    if first == b'\n' || first == b'\r' {
        return true;
    }
    let third = rest.byte(2);
    first == 0xE2 && rest.byte(1) == 0x80 && (third == 0xA8 || third == 0xA9)
}

/// Whether the byte is a digit of the radix.
#[tactic(auto, unfolding(crate::specs::Parts::is_digit))]
pub fn is_digit(radix: u32, byte: u8) -> bool
    ensures { result ≡ spec.is_digit radix byte }
{
    match hex_digit(byte) {
        Some(digit) => digit < radix,
        None => false,
    }
}

// The character or escape of a name (clause 12.7).
fn name_piece<T: Text>(rest: T) -> Option<Piece>
    ensures { result ≡ spec.name_piece (T.bytes rest) }
{
    if rest.byte(0) == b'\\' {
        return unicode_escape(rest);
    }
    Some(character(rest))
}

// As `name_start_len`, with the whole of Unicode in sight.
#[tactic(auto, unfolding(crate::specs::Parts::name_start_len))]
fn any_start_len<T: Text>(rest: T) -> usize
    ensures { result ≡ spec.name_start_len (T.bytes rest) }
{
    let Some(piece) = name_piece(rest) else {
        return 0;
    };
    let Some(code) = piece.code else {
        return 0;
    };
    if starts_name(code) { piece.len } else { 0 }
}

/// The length of the character or escape with which a name begins, 0 where none does.
#[tactic(auto, using(crate::proofs::Names::ascii_start_len))]
pub fn name_start_len<T: Text>(rest: T) -> usize
    ensures { result ≡ spec.name_start_len (T.bytes rest) }
{
    let first = rest.byte(0);
    if first >= 0x80 || first == b'\\' {
        return any_start_len(rest);
    }
    if is_ascii_start(first) { 1 } else { 0 }
}

// As `name_part_len`, with the whole of Unicode in sight.
#[tactic(auto, unfolding(crate::specs::Parts::name_part_len))]
fn any_part_len<T: Text>(rest: T) -> usize
    ensures { result ≡ spec.name_part_len (T.bytes rest) }
{
    let Some(piece) = name_piece(rest) else {
        return 0;
    };
    let Some(code) = piece.code else {
        return 0;
    };
    if continues_name(code) { piece.len } else { 0 }
}

#[tactic(auto, using(crate::proofs::Names::ascii_part_len))]
#[inline(always)]
fn name_part_len<T: Text>(rest: T) -> usize
    ensures { result ≡ spec.name_part_len (T.bytes rest) }
{
    let first = rest.byte(0);
    if first >= 0x80 || first == b'\\' {
        return any_part_len(rest);
    }
    if is_ascii_part(first) { 1 } else { 0 }
}

#[tactic(auto, unfolding(crate::specs::Parts::digit_len))]
fn digit_len<T: Text>(radix: u32, rest: T) -> usize
    ensures { result ≡ spec.digit_len radix (T.bytes rest) }
{
    if is_digit(radix, rest.byte(0)) {
        return 1;
    }
    if rest.byte(0) == b'_' && is_digit(radix, rest.byte(1)) {
        return 2;
    }
    0
}

// What ends a string, or an escape that spells nothing, is no part of it (clause 12.9.4).
#[tactic(auto, unfolding(crate::specs::Parts::string_part_len))]
fn string_part_len<T: Text>(quote: u8, rest: T) -> usize
    ensures { result ≡ spec.string_part_len quote (T.bytes rest) }
{
    let byte = rest.byte(0);
    if byte == quote || byte == b'\n' || byte == b'\r' {
        return 0;
    }
    if byte != b'\\' {
        return 1;
    }
    match string_escape(rest) {
        Some(escape) => escape.len,
        None => 0,
    }
}

// Every character may follow a backslash, since a tagged template takes any escape (clause 12.9.6).
#[tactic(auto, unfolding(crate::specs::Parts::template_part_len))]
fn template_part_len<T: Text>(rest: T) -> usize
    ensures { result ≡ spec.template_part_len (T.bytes rest) }
{
    let byte = rest.byte(0);
    if byte == b'`' || (byte == b'$' && rest.byte(1) == b'{') {
        return 0;
    }
    if byte == b'\\' { 2 } else { 1 }
}

/// The length of a character or escape of a regular expression, 0 at the end of its line (clause
/// 12.9.5).
#[tactic(auto, unfolding(crate::specs::Parts::regex_char_len))]
pub fn regex_char_len<T: Text>(rest: T) -> usize
    requires { 0 < length (T.bytes rest) }
    ensures { result ≡ spec.regex_char_len (T.bytes rest) }
{
    if breaks_line(rest) {
        return 0;
    }
    if rest.byte(0) != b'\\' {
        return 1;
    }
    if breaks_line(rest.after(1)) { 0 } else { 2 }
}

#[tactic(auto, unfolding(crate::specs::Parts::class_part_len))]
fn class_part_len<T: Text>(rest: T) -> usize
    requires { 0 < length (T.bytes rest) }
    ensures { result ≡ spec.class_part_len (T.bytes rest) }
{
    if rest.byte(0) == b']' {
        return 0;
    }
    regex_char_len(rest)
}

fn bare_digit_len<T: Text>(radix: u32, rest: T) -> usize
    ensures { result ≡ spec.bare_digit_len radix (T.bytes rest) }
{
    if is_digit(radix, rest.byte(0)) { 1 } else { 0 }
}

fn line_comment_part_len<T: Text>(rest: T) -> usize
    ensures { result ≡ spec.line_comment_part_len (T.bytes rest) }
{
    if breaks_line(rest) { 0 } else { 1 }
}

fn block_comment_part_len<T: Text>(rest: T) -> usize
    ensures { result ≡ spec.block_comment_part_len (T.bytes rest) }
{
    if rest.byte(0) == b'*' && rest.byte(1) == b'/' {
        return 0;
    }
    1
}

/// The length of the part with which the bytes begin, 0 where they begin with none.
#[inline(always)]
#[tactic(auto, unfolding(crate::specs::Parts::part_len))]
pub fn part_len<T: Text>(part: Part, rest: T) -> usize
    requires { 0 < length (T.bytes rest) }
    ensures { result ≡ spec.part_len part (T.bytes rest) }
{
    match part {
        Part::OfName => name_part_len(rest),
        Part::Digit(radix) => digit_len(radix, rest),
        Part::BareDigit(radix) => bare_digit_len(radix, rest),
        Part::OfString(quote) => string_part_len(quote, rest),
        Part::OfTemplate => template_part_len(rest),
        Part::OfClass => class_part_len(rest),
        Part::OfLineComment => line_comment_part_len(rest),
        Part::OfBlockComment => block_comment_part_len(rest),
    }
}

/// Where the row of parts ends that begins at `from`.
#[inline(always)]
#[tactic(auto, using(crate::proofs::Rows::walking_rows))]
pub fn run<T: Text>(part: Part, rest: T, from: usize) -> usize
    ensures value { result ≡ spec.run part from (T.bytes rest) }
    ensures within { result ≤ length (T.bytes rest) }
    ensures short { result + 1 < 2 ^ 64 }
{
    let mut skip = from;
    for at in 0..rest.len() {
        if skip > 0 {
            skip -= 1;
            continue;
        }
        let len = part_len(part, rest.after(at));
        if len == 0 {
            return at;
        }
        skip = len - 1;
    }
    rest.len()
}

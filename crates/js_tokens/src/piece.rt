//! What one character or escape spells (ECMA-262, clauses 12.9.4 and 12.9.6). Each function is given
//! the text from there to its end.

ghost use Rattle.std.specs.Prelude.{◌≡◌, ◌<◌, ◌≤◌, ◌^◌, length, slice_index, IfSome};
ghost use Rattle.js_tokens.specs.Characters.{char_len, first_char};
ghost use Rattle.js_tokens.specs.Pieces.{IsWhole, character, line_feed, is_between, hex_digit, hex_escape, four_digits, braced_digits, unicode_escape, continuation_len, control, single_escape, letter_escape, is_octal, octal_escape, null_escape, string_escape, template_escape};

use crate::code_point::{char_len, first_char};
use crate::readable::Text;

/// A code point, which may be a lone surrogate, or nothing; and how many bytes spell it.
#[derive(Clone, Copy, Debug, PartialEq, Eq)]
pub struct Piece {
    pub code: Option<u32>,
    pub len: usize,
}

fn coded(code: u32, len: usize) -> Piece
    ensures { result ≡ record { code = Some code; len = len } }
{
    Piece {
        code: Some(code),
        len,
    }
}

/// A character as it stands.
pub fn character<T: Text>(text: T) -> Piece
    ensures value { result ≡ character (T.bytes text) }
    ensures whole { IsWhole result }
{
    coded(first_char(text), char_len(text.byte(0)))
}

/// CR LF or CR, read as LF.
pub fn line_feed<T: Text>(text: T) -> Piece
    ensures value { result ≡ line_feed (T.bytes text) }
    ensures whole { IsWhole result }
{
    if text.byte(1) == b'\n' {
        coded(0x0A, 2)
    } else {
        coded(0x0A, 1)
    }
}

/// The value of a hex digit.
pub fn hex_digit(byte: u8) -> Option<u32>
    ensures value { result ≡ hex_digit byte }
    ensures small { IfSome result (λ digit. digit < 16) }
{
    match byte {
        b'0'..=b'9' => Some(u32::from(byte - b'0')),
        b'a'..=b'f' => Some(u32::from(byte - b'a') + 10),
        b'A'..=b'F' => Some(u32::from(byte - b'A') + 10),
        _ => None,
    }
}

// `\x` and two hex digits.
#[tactic(auto, unfolding(crate::specs::Pieces::hex_escape))]
fn hex_escape<T: Text>(text: T) -> Option<Piece>
    ensures value { result ≡ hex_escape (T.bytes text) }
    ensures whole { IfSome result IsWhole }
{
    let high = hex_digit(text.byte(2))?;
    let low = hex_digit(text.byte(3))?;
    Some(coded(high * 16 + low, 4))
}

// `\u` and four hex digits.
#[tactic(auto, unfolding(crate::specs::Pieces::four_digits))]
fn four_digits<T: Text>(text: T) -> Option<Piece>
    ensures value { result ≡ four_digits (T.bytes text) }
    ensures whole { IfSome result IsWhole }
{
    let first = hex_digit(text.byte(2))?;
    let second = hex_digit(text.byte(3))?;
    let third = hex_digit(text.byte(4))?;
    let fourth = hex_digit(text.byte(5))?;
    Some(coded(((first * 16 + second) * 16 + third) * 16 + fourth, 6))
}

// `\u{`, hex digits of a code point, and `}`.
#[tactic(auto, unfolding(crate::specs::Pieces::braced_digits))]
fn braced_digits<T: Text>(text: T) -> Option<Piece>
    ensures value { result ≡ braced_digits (T.bytes text) }
    ensures whole { IfSome result IsWhole }
{
    let mut value = 0;
    for at in 3..text.len() {
        let byte = text.byte(at);
        if byte == b'}' {
            if at == 3 {
                return None;
            }
            return Some(coded(value, at + 1));
        }
        value = value * 16 + hex_digit(byte)?;
        if value > 0x10_FFFF {
            return None;
        }
    }
    None
}

/// An escape with `\u`.
#[tactic(auto, unfolding(crate::specs::Pieces::unicode_escape))]
pub fn unicode_escape<T: Text>(text: T) -> Option<Piece>
    ensures value { result ≡ unicode_escape (T.bytes text) }
    ensures whole { IfSome result IsWhole }
{
    if text.byte(1) != b'u' {
        return None;
    }
    if text.byte(2) == b'{' {
        return braced_digits(text);
    }
    four_digits(text)
}

// The bytes of a backslash and a line end, 0 where no line end follows it.
#[tactic(auto, unfolding(crate::specs::Pieces::continuation_len))]
fn continuation_len<T: Text>(text: T) -> usize
    ensures { result ≡ continuation_len (T.bytes text) }
{
    let byte = text.byte(1);
    if byte == b'\n' {
        return 2;
    }
    if byte == b'\r' {
        return if text.byte(2) == b'\n' { 3 } else { 2 };
    }
    let third = text.byte(3);
    if byte == 0xE2 && text.byte(2) == 0x80 && (third == 0xA8 || third == 0xA9) {
        return 4;
    }
    0
}

fn control(byte: u8) -> Option<u32>
    ensures value { result ≡ control byte }
    ensures small { IfSome result (λ code. code < 16) }
{
    match byte {
        b'b' => Some(0x08),
        b't' => Some(0x09),
        b'n' => Some(0x0A),
        b'v' => Some(0x0B),
        b'f' => Some(0x0C),
        b'r' => Some(0x0D),
        _ => None,
    }
}

// A backslash and one character, which stands for itself where no other meaning is given.
#[tactic(auto, unfolding(crate::specs::Pieces::single_escape))]
fn single_escape<T: Text>(text: T) -> Piece
    requires { 1 ≤ length (T.bytes text) }
    ensures value { result ≡ single_escape (T.bytes text) }
    ensures whole { IsWhole result }
{
    let byte = text.byte(1);
    let code = control(byte).unwrap_or(first_char(text.after(1)));
    coded(code, 1 + char_len(byte))
}

// An escape without digits behind the backslash.
#[tactic(auto, unfolding(crate::specs::Pieces::letter_escape))]
fn letter_escape<T: Text>(text: T) -> Option<Piece>
    requires { 1 ≤ length (T.bytes text) }
    ensures value { result ≡ letter_escape (T.bytes text) }
    ensures whole { IfSome result IsWhole }
{
    let byte = text.byte(1);
    if byte == b'x' {
        return hex_escape(text);
    }
    if byte == b'u' {
        return unicode_escape(text);
    }
    let len = continuation_len(text);
    if len > 0 {
        return Some(Piece { code: None, len });
    }
    Some(single_escape(text))
}

fn is_digit(byte: u8) -> bool
    ensures { result ≡ is_between 0x30 0x39 byte }
{
    byte >= b'0' && byte <= b'9'
}

fn is_octal(byte: u8) -> bool
    ensures { result ≡ is_octal byte }
{
    byte >= b'0' && byte <= b'7'
}

// `\` and one to three octal digits, three only where the first is at most 3.
#[tactic(auto, unfolding(crate::specs::Pieces::octal_escape))]
fn octal_escape<T: Text>(text: T) -> Option<Piece>
    ensures value { result ≡ octal_escape (T.bytes text) }
    ensures whole { IfSome result IsWhole }
{
    let first = text.byte(1);
    if !is_octal(first) {
        return None;
    }
    let second = text.byte(2);
    let code = u32::from(first - b'0');
    if !is_octal(second) {
        return Some(coded(code, 2));
    }
    let third = text.byte(3);
    let code = code * 8 + u32::from(second - b'0');
    if first > b'3' || !is_octal(third) {
        return Some(coded(code, 3));
    }
    Some(coded(code * 8 + u32::from(third - b'0'), 4))
}

// `\0` with no digit behind it.
#[tactic(auto, unfolding(crate::specs::Pieces::null_escape))]
fn null_escape<T: Text>(text: T) -> Option<Piece>
    ensures value { result ≡ null_escape (T.bytes text) }
    ensures whole { IfSome result IsWhole }
{
    if text.byte(1) == b'0' && !is_digit(text.byte(2)) {
        return Some(coded(0, 2));
    }
    None
}

/// An escape of a string, which may have octal digits.
#[tactic(auto, unfolding(crate::specs::Pieces::string_escape))]
pub fn string_escape<T: Text>(text: T) -> Option<Piece>
    ensures value { result ≡ string_escape (T.bytes text) }
    ensures whole { IfSome result IsWhole }
{
    if text.len() < 2 {
        return None;
    }
    if is_digit(text.byte(1)) {
        return octal_escape(text);
    }
    letter_escape(text)
}

/// An escape of a template, which may not.
#[tactic(auto, unfolding(crate::specs::Pieces::template_escape))]
pub fn template_escape<T: Text>(text: T) -> Option<Piece>
    ensures value { result ≡ template_escape (T.bytes text) }
    ensures whole { IfSome result IsWhole }
{
    if text.len() < 2 {
        return None;
    }
    if is_digit(text.byte(1)) {
        return null_escape(text);
    }
    letter_escape(text)
}

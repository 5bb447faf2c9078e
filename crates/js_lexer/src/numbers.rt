//! Number literals (ECMA-262, clause 12.9.3). Each function is given the bytes from the number's start
//! to the end of the text.

ghost use Rattle.std.specs.Prelude.{◌≡◌, ◌<◌, ◌≤◌, length, IfOk};
ghost use Rattle.js_lexer.specs.Numbers as spec;

use crate::element::Element;
use crate::fault::LexFaultKind;
use crate::parts::{Part, has_byte, is_digit, name_start_len, run};
use js_tokens::{Text, TokenKind};

// The radix that the letter behind a leading 0 tells, 0 where it tells none.
fn prefix_radix(letter: u8) -> u32
    ensures { result ≡ spec.prefix_radix letter }
{
    match letter {
        b'x' | b'X' => 16,
        b'o' | b'O' => 8,
        b'b' | b'B' => 2,
        _ => 0,
    }
}

fn number_of(len: usize) -> Element
    ensures { result ≡ spec.number_of len }
{
    Element {
        kind: TokenKind::Number,
        len,
    }
}

// The whole number whose digits end there: one of any size where an `n` follows.
fn whole_number<T: Text>(rest: T, len: usize) -> Element
    requires { len ≤ length (T.bytes rest) }
    ensures value { result ≡ spec.whole_number (T.bytes rest) len }
    ensures within { result.len ≤ length (T.bytes rest) }
{
    if has_byte(rest, len, b'n') {
        return Element {
            kind: TokenKind::BigInt,
            len: len + 1,
        };
    }
    number_of(len)
}

// Where the fraction ends that may begin there.
#[tactic(auto, unfolding(crate::specs::Numbers::fraction_end))]
fn fraction_end<T: Text>(rest: T, at: usize) -> usize
    requires { at ≤ length (T.bytes rest) }
    ensures value { result ≡ spec.fraction_end (T.bytes rest) at }
    ensures within { result ≤ length (T.bytes rest) }
{
    if !has_byte(rest, at, b'.') {
        return at;
    }
    if is_digit(10, rest.byte(at + 1)) {
        return run(Part::Digit(10), rest, at + 1);
    }
    at + 1
}

// Behind the sign that may stand there.
fn sign_end<T: Text>(rest: T, at: usize) -> usize
    requires { at ≤ length (T.bytes rest) }
    ensures value { result ≡ spec.sign_end (T.bytes rest) at }
{
    if has_byte(rest, at, b'+') || has_byte(rest, at, b'-') {
        return at + 1;
    }
    at
}

// Where the exponent ends that may begin there.
#[tactic(auto, unfolding(crate::specs::Numbers::exponent_end))]
fn exponent_end<T: Text>(rest: T, at: usize) -> usize
    requires { at ≤ length (T.bytes rest) }
    ensures value { result ≡ spec.exponent_end (T.bytes rest) at }
    ensures within { result ≤ length (T.bytes rest) }
{
    if !has_byte(rest, at, b'e') && !has_byte(rest, at, b'E') {
        return at;
    }
    let digits = sign_end(rest, at + 1);
    if is_digit(10, rest.byte(digits)) {
        return run(Part::Digit(10), rest, digits);
    }
    at
}

fn decimal_end<T: Text>(rest: T, whole: usize) -> usize
    requires { whole ≤ length (T.bytes rest) }
    ensures value { result ≡ spec.decimal_end (T.bytes rest) whole }
    ensures within { result ≤ length (T.bytes rest) }
{
    exponent_end(rest, fraction_end(rest, whole))
}

// A 0 and more digits: octal if all of them are, and then without a fraction.
#[tactic(auto, unfolding(crate::specs::Numbers::legacy_number))]
fn legacy_number<T: Text>(rest: T) -> Element
    ensures value { result ≡ spec.legacy_number (T.bytes rest) }
    ensures within { result.len ≤ length (T.bytes rest) }
{
    let whole = run(Part::BareDigit(10), rest, 0);
    if run(Part::BareDigit(8), rest, 0) == whole {
        return number_of(whole);
    }
    number_of(decimal_end(rest, whole))
}

// Where the digits end of a number without more than one leading 0.
#[tactic(auto, unfolding(crate::specs::Numbers::whole_len))]
fn whole_len<T: Text>(rest: T) -> usize
    ensures value { result ≡ spec.whole_len (T.bytes rest) }
    ensures within { result ≤ length (T.bytes rest) }
{
    if has_byte(rest, 0, b'0') {
        return 1;
    }
    run(Part::Digit(10), rest, 0)
}

// Digits without a leading 0, the 0 alone, or none before a fraction.
#[tactic(auto, unfolding(crate::specs::Numbers::decimal_number))]
fn decimal_number<T: Text>(rest: T) -> Element
    ensures value { result ≡ spec.decimal_number (T.bytes rest) }
    ensures within { result.len ≤ length (T.bytes rest) }
{
    let whole = whole_len(rest);
    if has_byte(rest, whole, b'n') {
        return whole_number(rest, whole);
    }
    number_of(decimal_end(rest, whole))
}

// The longest number, whatever follows.
#[tactic(auto, unfolding(crate::specs::Numbers::numeral))]
fn numeral<T: Text>(rest: T) -> Element
    ensures value { result ≡ spec.numeral (T.bytes rest) }
    ensures within { result.len ≤ length (T.bytes rest) }
{
    if !has_byte(rest, 0, b'0') {
        return decimal_number(rest);
    }
    let radix = prefix_radix(rest.byte(1));
    if is_digit(radix, rest.byte(2)) {
        return whole_number(rest, run(Part::Digit(radix), rest, 2));
    }
    if is_digit(10, rest.byte(1)) {
        return legacy_number(rest);
    }
    decimal_number(rest)
}

/// The number with which the bytes begin.
#[tactic(auto, unfolding(crate::specs::Numbers::number))]
pub fn number<T: Text>(rest: T) -> Result<Element, LexFaultKind>
    ensures value { result ≡ spec.number (T.bytes rest) }
    ensures within { IfOk result (λ number. number.len ≤ length (T.bytes rest)) }
{
    let found = numeral(rest);
    let behind = rest.after(found.len);
    if is_digit(10, behind.byte(0)) || name_start_len(behind) > 0 {
        return Err(LexFaultKind::BadNumber);
    }
    Ok(found)
}

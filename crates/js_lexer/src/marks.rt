//! Punctuators (ECMA-262, clause 12.8): the longest that stands there. Each function is given the
//! bytes from the punctuator's start to the end of the text.

ghost use Rattle.std.specs.Prelude.{◌≡◌, ◌<◌, ◌≤◌, length, IfSome};
ghost use Rattle.js_lexer.specs.Marks as spec;

use crate::element::Element;
use crate::parts::{has_byte, is_digit};
use js_tokens::{Punctuator, Text, TokenKind};

/// The punctuator, of so many bytes.
pub fn mark(punctuator: Punctuator, len: usize) -> Element
    ensures { result ≡ spec.mark punctuator len }
{
    Element {
        kind: TokenKind::Punctuator(punctuator),
        len,
    }
}

/// A character that stands alone, or before `=`.
pub fn with_equal<T: Text>(rest: T, alone: Punctuator, equal: Punctuator) -> Element
    requires { 0 < length (T.bytes rest) }
    ensures value { result ≡ spec.with_equal (T.bytes rest) alone equal }
    ensures within { result.len ≤ length (T.bytes rest) }
{
    if has_byte(rest, 1, b'=') {
        return mark(equal, 2);
    }
    mark(alone, 1)
}

// A character that stands twice, twice before `=`, or else once as `once` says.
fn doubled<T: Text>(rest: T, once: Element, twice: Punctuator, twice_equal: Punctuator) -> Element
    requires some { 0 < length (T.bytes rest) }
    requires once_within { once.len ≤ length (T.bytes rest) }
    ensures value { result ≡ spec.doubled (T.bytes rest) once twice twice_equal }
    ensures within { result.len ≤ length (T.bytes rest) }
{
    if !has_byte(rest, 1, rest.byte(0)) {
        return once;
    }
    if has_byte(rest, 2, b'=') {
        return mark(twice_equal, 3);
    }
    mark(twice, 2)
}

// `+`, `++` or `+=`, and so for `-`.
fn stepping<T: Text>(rest: T, alone: Punctuator, equal: Punctuator, twice: Punctuator) -> Element
    requires { 0 < length (T.bytes rest) }
    ensures value { result ≡ spec.stepping (T.bytes rest) alone equal twice }
    ensures within { result.len ≤ length (T.bytes rest) }
{
    if has_byte(rest, 1, rest.byte(0)) {
        return mark(twice, 2);
    }
    with_equal(rest, alone, equal)
}

#[tactic(auto, unfolding(crate::specs::Marks::dots))]
fn dots<T: Text>(rest: T) -> Element
    requires { 0 < length (T.bytes rest) }
    ensures value { result ≡ spec.dots (T.bytes rest) }
    ensures within { result.len ≤ length (T.bytes rest) }
{
    if has_byte(rest, 1, b'.') && has_byte(rest, 2, b'.') {
        return mark(Punctuator::Ellipsis, 3);
    }
    mark(Punctuator::Dot, 1)
}

#[tactic(auto, unfolding(crate::specs::Marks::greater))]
fn greater<T: Text>(rest: T) -> Element
    requires { 0 < length (T.bytes rest) }
    ensures value { result ≡ spec.greater (T.bytes rest) }
    ensures within { result.len ≤ length (T.bytes rest) }
{
    if has_byte(rest, 1, b'>') && has_byte(rest, 2, b'>') {
        if has_byte(rest, 3, b'=') {
            return mark(Punctuator::ShiftRightUnsignedAssign, 4);
        }
        return mark(Punctuator::ShiftRightUnsigned, 3);
    }
    let once = with_equal(rest, Punctuator::Greater, Punctuator::GreaterEqual);
    doubled(
        rest,
        once,
        Punctuator::ShiftRight,
        Punctuator::ShiftRightAssign,
    )
}

#[tactic(auto, unfolding(crate::specs::Marks::equals))]
fn equals<T: Text>(rest: T) -> Element
    requires { 0 < length (T.bytes rest) }
    ensures value { result ≡ spec.equals (T.bytes rest) }
    ensures within { result.len ≤ length (T.bytes rest) }
{
    if has_byte(rest, 1, b'>') {
        return mark(Punctuator::Arrow, 2);
    }
    let once = mark(Punctuator::Assign, 1);
    doubled(rest, once, Punctuator::Equal, Punctuator::StrictEqual)
}

#[tactic(auto, unfolding(crate::specs::Marks::bang))]
fn bang<T: Text>(rest: T) -> Element
    requires { 0 < length (T.bytes rest) }
    ensures value { result ≡ spec.bang (T.bytes rest) }
    ensures within { result.len ≤ length (T.bytes rest) }
{
    if has_byte(rest, 1, b'=') && has_byte(rest, 2, b'=') {
        return mark(Punctuator::StrictNotEqual, 3);
    }
    with_equal(rest, Punctuator::Bang, Punctuator::NotEqual)
}

// `?.` is none before a digit, as in `a?.5:b`.
#[tactic(auto, unfolding(crate::specs::Marks::question))]
fn question<T: Text>(rest: T) -> Element
    requires { 0 < length (T.bytes rest) }
    ensures value { result ≡ spec.question (T.bytes rest) }
    ensures within { result.len ≤ length (T.bytes rest) }
{
    if has_byte(rest, 1, b'.') && !is_digit(10, rest.byte(2)) {
        return mark(Punctuator::OptionalDot, 2);
    }
    let once = mark(Punctuator::Question, 1);
    doubled(rest, once, Punctuator::Nullish, Punctuator::NullishAssign)
}

// What is a punctuator of one byte and begins no other.
fn lone(byte: u8) -> Option<Punctuator>
    ensures { result ≡ spec.lone byte }
{
    match byte {
        b'{' => Some(Punctuator::OpenBrace),
        b'}' => Some(Punctuator::CloseBrace),
        b'(' => Some(Punctuator::OpenParen),
        b')' => Some(Punctuator::CloseParen),
        b'[' => Some(Punctuator::OpenBracket),
        b']' => Some(Punctuator::CloseBracket),
        b';' => Some(Punctuator::Semicolon),
        b',' => Some(Punctuator::Comma),
        b':' => Some(Punctuator::Colon),
        b'~' => Some(Punctuator::Tilde),
        _ => None,
    }
}

// The operators that may stand twice, and twice before `=`.
#[tactic(auto, unfolding(crate::specs::Marks::doubling))]
fn doubling<T: Text>(rest: T) -> Option<Element>
    requires { 0 < length (T.bytes rest) }
    ensures value { result ≡ spec.doubling (T.bytes rest) }
    ensures within { IfSome result (λ element. element.len ≤ length (T.bytes rest)) }
{
    match rest.byte(0) {
        b'<' => {
            let once = with_equal(rest, Punctuator::Less, Punctuator::LessEqual);
            Some(doubled(
                rest,
                once,
                Punctuator::ShiftLeft,
                Punctuator::ShiftLeftAssign,
            ))
        }
        b'*' => {
            let once = with_equal(rest, Punctuator::Star, Punctuator::StarAssign);
            Some(doubled(rest, once, Punctuator::StarStar, Punctuator::StarStarAssign))
        }
        b'&' => {
            let once = with_equal(rest, Punctuator::Ampersand, Punctuator::AmpersandAssign);
            Some(doubled(rest, once, Punctuator::AndAnd, Punctuator::AndAssign))
        }
        b'|' => {
            let once = with_equal(rest, Punctuator::Bar, Punctuator::BarAssign);
            Some(doubled(rest, once, Punctuator::OrOr, Punctuator::OrAssign))
        }
        _ => None,
    }
}

#[tactic(auto, unfolding(crate::specs::Marks::operator))]
fn operator<T: Text>(rest: T) -> Option<Element>
    requires { 0 < length (T.bytes rest) }
    ensures value { result ≡ spec.operator (T.bytes rest) }
    ensures within { IfSome result (λ element. element.len ≤ length (T.bytes rest)) }
{
    match rest.byte(0) {
        b'.' => Some(dots(rest)),
        b'=' => Some(equals(rest)),
        b'!' => Some(bang(rest)),
        b'>' => Some(greater(rest)),
        b'?' => Some(question(rest)),
        b'+' => Some(stepping(
            rest,
            Punctuator::Plus,
            Punctuator::PlusAssign,
            Punctuator::PlusPlus,
        )),
        b'-' => Some(stepping(
            rest,
            Punctuator::Minus,
            Punctuator::MinusAssign,
            Punctuator::MinusMinus,
        )),
        b'%' => Some(with_equal(rest, Punctuator::Percent, Punctuator::PercentAssign)),
        b'^' => Some(with_equal(rest, Punctuator::Caret, Punctuator::CaretAssign)),
        b'/' => Some(with_equal(rest, Punctuator::Slash, Punctuator::SlashAssign)),
        _ => doubling(rest),
    }
}

/// The punctuator with which the bytes begin.
#[tactic(auto, unfolding(crate::specs::Marks::punctuator))]
pub fn punctuator<T: Text>(rest: T) -> Option<Element>
    requires { 0 < length (T.bytes rest) }
    ensures value { result ≡ spec.punctuator (T.bytes rest) }
    ensures within { IfSome result (λ element. element.len ≤ length (T.bytes rest)) }
{
    match lone(rest.byte(0)) {
        Some(alone) => Some(mark(alone, 1)),
        None => operator(rest),
    }
}

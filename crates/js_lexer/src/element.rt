//! The longest lexical element (ECMA-262, clause 12), once blanks and comments are passed. Each
//! function is given the bytes from the element's start to the end of the text.

ghost use Rattle.std.specs.Prelude.{◌≡◌, ◌+◌, ◌^◌, ◌<◌, ◌≤◌, length, IfOk};
ghost use Rattle.js_lexer.specs.Elements as spec;

use crate::fault::LexFaultKind;
use crate::marks::{mark, punctuator, with_equal};
use crate::numbers::number;
use crate::parts::{Part, has_byte, is_digit, name_start_len, run};
use crate::quoted::{regex, string, template};
use js_tokens::{Goal, Punctuator, Text, TokenKind, Word};

/// A lexical element of so many bytes.
#[derive(Clone, Copy, Debug, PartialEq, Eq)]
pub struct Element {
    pub kind: TokenKind,
    pub len: usize,
}

fn continues_template(goal: Goal) -> bool
    ensures { result ≡ spec.continues_template goal }
{
    match goal {
        Goal::Div | Goal::RegExp => false,
        Goal::TemplateTail | Goal::RegExpOrTemplateTail => true,
    }
}

fn begins_regex(goal: Goal) -> bool
    ensures { result ≡ spec.begins_regex goal }
{
    match goal {
        Goal::Div | Goal::TemplateTail => false,
        Goal::RegExp | Goal::RegExpOrTemplateTail => true,
    }
}

// The length of the name with which the bytes begin, 0 where none does.
#[tactic(auto, unfolding(crate::specs::Elements::name_len))]
fn name_len<T: Text>(rest: T) -> usize
    ensures value { result ≡ spec.name_len (T.bytes rest) }
    ensures within { result ≤ length (T.bytes rest) }
    ensures short { result + 1 < 2 ^ 64 }
{
    let first = name_start_len(rest);
    if first == 0 {
        return 0;
    }
    run(Part::OfName, rest, first)
}

fn name<T: Text>(rest: T, len: usize) -> Element
    requires { len ≤ length (T.bytes rest) }
    ensures { result ≡ spec.name (T.bytes rest) len }
{
    Element {
        kind: TokenKind::Name(Word::of(rest.before(len))),
        len,
    }
}

// What begins with `}`.
#[tactic(auto, unfolding(crate::specs::Elements::brace))]
fn brace<T: Text>(rest: T, goal: Goal) -> Result<Element, LexFaultKind>
    requires { 0 < length (T.bytes rest) }
    ensures value { result ≡ spec.brace (T.bytes rest) goal }
    ensures within { IfOk result (λ element. element.len ≤ length (T.bytes rest)) }
{
    if continues_template(goal) {
        return template(rest);
    }
    Ok(mark(Punctuator::CloseBrace, 1))
}

// What begins with `/`. A comment that is closed is passed already.
#[tactic(auto, unfolding(crate::specs::Elements::slash))]
fn slash<T: Text>(rest: T, goal: Goal) -> Result<Element, LexFaultKind>
    requires { 0 < length (T.bytes rest) }
    ensures value { result ≡ spec.slash (T.bytes rest) goal }
    ensures within { IfOk result (λ element. element.len ≤ length (T.bytes rest)) }
{
    if has_byte(rest, 1, b'*') {
        return Err(LexFaultKind::OpenComment);
    }
    if begins_regex(goal) {
        return regex(rest);
    }
    Ok(with_equal(rest, Punctuator::Slash, Punctuator::SlashAssign))
}

// What begins with `#`.
#[tactic(auto, unfolding(crate::specs::Elements::private_name))]
fn private_name<T: Text>(rest: T) -> Result<Element, LexFaultKind>
    requires { 0 < length (T.bytes rest) }
    ensures value { result ≡ spec.private_name (T.bytes rest) }
    ensures within { IfOk result (λ element. element.len ≤ length (T.bytes rest)) }
{
    let len = name_len(rest.after(1));
    if len > 0 {
        return Ok(Element {
            kind: TokenKind::Private,
            len: 1 + len,
        });
    }
    if has_byte(rest, 1, b'\\') {
        return Err(LexFaultKind::BadEscape);
    }
    Err(LexFaultKind::BadChar)
}

// A digit, or a dot and a digit.
#[tactic(auto, unfolding(crate::specs::Elements::begins_number))]
fn begins_number<T: Text>(rest: T) -> bool
    ensures { result ≡ spec.begins_number (T.bytes rest) }
{
    if rest.byte(0) == b'.' {
        return is_digit(10, rest.byte(1));
    }
    is_digit(10, rest.byte(0))
}

// What begins with none of these.
#[tactic(auto, unfolding(crate::specs::Elements::other))]
fn other<T: Text>(rest: T) -> Result<Element, LexFaultKind>
    requires { 0 < length (T.bytes rest) }
    ensures value { result ≡ spec.other (T.bytes rest) }
    ensures within { IfOk result (λ element. element.len ≤ length (T.bytes rest)) }
{
    if begins_number(rest) {
        return number(rest);
    }
    match punctuator(rest) {
        Some(found) => Ok(found),
        None => Err(LexFaultKind::BadChar),
    }
}

// What is no name.
#[tactic(auto, unfolding(crate::specs::Elements::symbol))]
fn symbol<T: Text>(rest: T, goal: Goal) -> Result<Element, LexFaultKind>
    requires { 0 < length (T.bytes rest) }
    ensures value { result ≡ spec.symbol (T.bytes rest) goal }
    ensures within { IfOk result (λ element. element.len ≤ length (T.bytes rest)) }
{
    match rest.byte(0) {
        b'"' | b'\'' => string(rest),
        b'`' => template(rest),
        b'}' => brace(rest, goal),
        b'/' => slash(rest, goal),
        b'#' => private_name(rest),
        b'\\' => Err(LexFaultKind::BadEscape),
        _ => other(rest),
    }
}

/// The longest element with which the bytes begin in the goal: at their end the element `End`, or
/// what is wrong with it.
#[tactic(auto, unfolding(crate::specs::Elements::longest))]
pub fn longest<T: Text>(rest: T, goal: Goal) -> Result<Element, LexFaultKind>
    ensures value { result ≡ spec.longest (T.bytes rest) goal }
    ensures within { IfOk result (λ element. element.len ≤ length (T.bytes rest)) }
{
    if rest.len() == 0 {
        return Ok(Element {
            kind: TokenKind::End,
            len: 0,
        });
    }
    let len = name_len(rest);
    if len > 0 {
        return Ok(name(rest, len));
    }
    symbol(rest, goal)
}

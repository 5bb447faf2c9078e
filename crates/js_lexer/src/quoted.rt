//! Elements between two ends: strings, templates and regular expressions (ECMA-262, clauses 12.9.4
//! to 12.9.6). Each function is given the bytes from the element's start to the end of the text.

ghost use Rattle.std.specs.Prelude.{◌≡◌, ◌<◌, ◌≤◌, length, IfOk};
ghost use Rattle.js_lexer.specs.Quoted as spec;

use crate::element::Element;
use crate::fault::LexFaultKind;
use crate::parts::{Part, has_byte, regex_char_len, run};
use js_tokens::{TemplatePart, Text, TokenKind};

/// The string with which the bytes begin, which begin with a quote.
#[tactic(auto, unfolding(crate::specs::Quoted::string))]
pub fn string<T: Text>(rest: T) -> Result<Element, LexFaultKind>
    ensures value { result ≡ spec.string (T.bytes rest) }
    ensures within { IfOk result (λ element. element.len ≤ length (T.bytes rest)) }
{
    let quote = rest.byte(0);
    let inside = run(Part::OfString(quote), rest, 1);
    if has_byte(rest, inside, quote) {
        return Ok(Element {
            kind: TokenKind::Quoted,
            len: inside + 1,
        });
    }
    if has_byte(rest, inside, b'\\') {
        return Err(LexFaultKind::BadEscape);
    }
    Err(LexFaultKind::OpenString)
}

// Which part of a template it is that begins and ends so.
fn template_part(begins: bool, ends: bool) -> TemplatePart
    ensures { result ≡ spec.template_part begins ends }
{
    if begins {
        return if ends {
            TemplatePart::Whole
        } else {
            TemplatePart::Head
        };
    }
    if ends {
        TemplatePart::Tail
    } else {
        TemplatePart::Middle
    }
}

/// The part of a template with which the bytes begin, which begin with a backquote or `}`.
#[tactic(auto, unfolding(crate::specs::Quoted::template))]
pub fn template<T: Text>(rest: T) -> Result<Element, LexFaultKind>
    ensures value { result ≡ spec.template (T.bytes rest) }
    ensures within { IfOk result (λ element. element.len ≤ length (T.bytes rest)) }
{
    let begins = rest.byte(0) == b'`';
    let inside = run(Part::OfTemplate, rest, 1);
    if has_byte(rest, inside, b'`') {
        return Ok(Element {
            kind: TokenKind::Template(template_part(begins, true)),
            len: inside + 1,
        });
    }
    if has_byte(rest, inside + 1, b'{') {
        return Ok(Element {
            kind: TokenKind::Template(template_part(begins, false)),
            len: inside + 2,
        });
    }
    Err(LexFaultKind::OpenTemplate)
}

// The class with which the bytes begin, brackets included, 0 where it is open.
#[tactic(auto, unfolding(crate::specs::Quoted::class_len))]
fn class_len<T: Text>(rest: T) -> usize
    ensures { result ≡ spec.class_len (T.bytes rest) }
{
    let inside = run(Part::OfClass, rest, 1);
    if has_byte(rest, inside, b']') {
        return inside + 1;
    }
    0
}

// A `/` in a class does not end the expression.
#[tactic(auto, unfolding(crate::specs::Quoted::regex_part_len))]
fn regex_part_len<T: Text>(rest: T) -> usize
    requires { 0 < length (T.bytes rest) }
    ensures { result ≡ spec.regex_part_len (T.bytes rest) }
{
    let first = rest.byte(0);
    if first == b'/' {
        return 0;
    }
    if first == b'[' {
        return class_len(rest);
    }
    regex_char_len(rest)
}

// Where the body ends.
#[tactic(auto, using(crate::proofs::Rows::walking_rows))]
fn regex_body_end<T: Text>(rest: T) -> usize
    ensures value { result ≡ spec.regex_body_end (T.bytes rest) }
    ensures within { result ≤ length (T.bytes rest) }
{
    let mut skip = 1;
    for at in 0..rest.len() {
        if skip > 0 {
            skip -= 1;
            continue;
        }
        let len = regex_part_len(rest.after(at));
        if len == 0 {
            return at;
        }
        skip = len - 1;
    }
    rest.len()
}

/// The regular expression with which the bytes begin, which begin with `/` and not with `//` or
/// `/*`. Its flags are what a name may go on with.
#[tactic(auto, unfolding(crate::specs::Quoted::regex))]
pub fn regex<T: Text>(rest: T) -> Result<Element, LexFaultKind>
    ensures value { result ≡ spec.regex (T.bytes rest) }
    ensures within { IfOk result (λ element. element.len ≤ length (T.bytes rest)) }
{
    let body = regex_body_end(rest);
    if !has_byte(rest, body, b'/') {
        return Err(LexFaultKind::OpenRegex);
    }
    Ok(Element {
        kind: TokenKind::Regex,
        len: run(Part::OfName, rest, body + 1),
    })
}

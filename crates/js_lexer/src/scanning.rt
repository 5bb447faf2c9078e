//! The next token of a text.

ghost use Rattle.std.specs.Prelude.{◌≡◌, ◌+◌, ◌<◌, ◌≤◌, ◌++◌, length, drop, IfOk, IfErr};
ghost use Rattle.js_lexer.specs.Blanks.{gap_len};
ghost use Rattle.js_lexer.specs.Scan as spec;
ghost use Rattle.js_lexer.specs.Scan.{LiesIn};

use crate::blanks::{gap_len, has_line_end};
use crate::element::{Element, longest};
use crate::fault::LexFault;
use cm_text::Source;
use js_tokens::{Goal, Joined, Text, Token};

/// Where the blanks and comments behind an offset end, and whether a line end stands in them.
#[derive(Clone, Copy)]
pub struct Gap {
    pub end: u32,
    pub broken: bool,
}

/// The blanks and comments from the offset on, which end there.
pub fn gap_to<T: Text>(text: T, at: u32, end: usize) -> Gap
    requires short { length (T.bytes text) ≤ 2097152 }
    requires within { at ≤ length (T.bytes text) }
    requires end { end ≡ at + gap_len (drop at (T.bytes text)) }
    requires ends { end ≤ length (T.bytes text) }
    ensures value { result ≡ spec.gap_at (T.bytes text) at }
    ensures order { at ≤ result.end }
    ensures ends { result.end ≤ length (T.bytes text) }
{
    let blanks = text.after(at as usize).before(end - at as usize);
    Gap {
        end: end as u32,
        broken: has_line_end(blanks),
    }
}

/// The blanks and comments from the offset on.
pub fn gap_at<T: Text>(text: T, at: u32) -> Gap
    requires short { length (T.bytes text) ≤ 2097152 }
    requires within { at ≤ length (T.bytes text) }
    ensures value { result ≡ spec.gap_at (T.bytes text) at }
    ensures order { at ≤ result.end }
    ensures ends { result.end ≤ length (T.bytes text) }
{
    let len = gap_len(text.after(at as usize));
    gap_to(text, at, at as usize + len)
}

fn token(start: u32, found: Element, broken_before: bool) -> Token
    requires { start + found.len ≤ 2097152 }
    ensures { result ≡ spec.token start found broken_before }
{
    Token {
        kind: found.kind,
        start,
        end: start + found.len as u32,
        broken_before,
    }
}

/// The token that begins at the end of the gap.
#[tactic(auto, unfolding(crate::specs::Scan::token_at))]
pub fn token_at<T: Text>(text: T, gap: Gap, goal: Goal) -> Result<Token, LexFault>
    requires short { length (T.bytes text) ≤ 2097152 }
    requires within { gap.end ≤ length (T.bytes text) }
    ensures value { result ≡ spec.token_at (T.bytes text) gap goal }
    ensures lies { IfOk result (LiesIn gap.end (length (T.bytes text))) }
    ensures blamed { IfErr result (λ fault. fault.at ≡ gap.end) }
{
    match longest(text.after(gap.end as usize), goal) {
        Ok(found) => Ok(token(gap.end, found, gap.broken)),
        Err(kind) => Err(LexFault { at: gap.end, kind }),
    }
}

/// The first token at or behind the offset, once blanks and comments are passed (ECMA-262, clause
/// 12). At the end it is one of the kind `End`. The offset is to be where a character begins.
///
/// The error is a broken element, at its first byte: a string, template, comment or regular
/// expression that does not end, a bad escape or number, or a character that begins no element.
#[tactic(auto, unfolding(crate::specs::Scan::scan))]
pub fn next(source: &Source, at: u32, goal: Goal) -> Result<Token, LexFault>
    requires { at ≤ length source.now }
    ensures value { result ≡ spec.scan source.now at goal }
    ensures lies { IfOk result (LiesIn at (length source.now)) }
{
    let text = source.bytes();
    token_at(text, gap_at(text, at), goal)
}

/// As `next` at 0, on the text that the two pieces make together, without a copy of it. That text is
/// to be UTF-8. The pieces may part it anywhere, inside of a character too.
#[tactic(auto, unfolding(crate::specs::Scan::scan))]
pub fn scan(front: &[u8], rest: &[u8], goal: Goal) -> Result<Token, LexFault>
    requires short { length front.now + length rest.now ≤ 2097152 }
    ensures value { result ≡ spec.scan (front.now ++ rest.now) 0 goal }
    ensures lies { IfOk result (LiesIn 0 (length front.now + length rest.now)) }
{
    let text = Joined::new(front, rest);
    token_at(text, gap_at(text, 0), goal)
}

/// The token that begins where this one does, in another goal.
pub fn rescan(source: &Source, token: Token, goal: Goal) -> Result<Token, LexFault>
    requires { token.start ≤ length source.now }
    ensures value { result ≡ spec.rescan source.now token goal }
    ensures lies { IfOk result (LiesIn token.start (length source.now)) }
{
    let gap = Gap {
        end: token.start,
        broken: token.broken_before,
    };
    token_at(source.bytes(), gap, goal)
}

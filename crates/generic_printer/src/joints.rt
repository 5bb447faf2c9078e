//! What may have to stand between neighbours: a space between tokens that would be another, a `;` that
//! is missing (ECMA-262, clauses 12 and 12.10).

use crate::sink::OpenEnd;
use asi_rules::{may_end, would_join};
use js_lexer::scan;
use js_tokens::{Goal, Punctuator, TemplatePart, Token, TokenKind};
use paren_rules::needs_space;

// So many bytes behind a token tell whether it goes on with them.
const BEHIND: usize = 16;

// A longer token is parted from the next by a space in any case.
const MAX_TOKEN: usize = 2_097_000;

/// The token at the end of a text: where it stands, and the goal in which it is read.
#[derive(Clone, Copy, Debug, PartialEq, Eq)]
pub struct Last {
    pub start: usize,
    pub end: usize,
    pub goal: Goal,
}

/// Whether the token would join the text that begins behind it.
pub fn joins(text: &[u8], last: Last, from: usize) -> bool {
    if from > text.len() || last.start > from {
        return false;
    }
    let token = &text[last.start..from];
    let behind = &text[from..];
    if token.len() > MAX_TOKEN {
        return true;
    }
    needs_space(token, &behind[..behind.len().min(BEHIND)], last.goal)
}

// Whether the byte may stand in a name or a number.
fn is_of_word(byte: u8) -> bool {
    byte.is_ascii_alphanumeric() || byte == b'_' || byte == b'$' || byte == b'\\' || byte >= 0x80
}

// Whether the byte may stand in an operator of several, or in a number.
fn is_of_operator(byte: u8) -> bool {
    matches!(
        byte,
        b'+' | b'-'
            | b'*'
            | b'/'
            | b'%'
            | b'&'
            | b'|'
            | b'^'
            | b'!'
            | b'~'
            | b'<'
            | b'>'
            | b'='
            | b'?'
            | b'.'
            | b'#'
    )
}

fn is_joinable(byte: u8) -> bool {
    is_of_word(byte) || is_of_operator(byte)
}

// Where the bytes begin that may be one token with the last byte.
fn run_start(text: &[u8], from: usize) -> usize {
    let count = text.len().saturating_sub(from).min(MAX_TOKEN);
    for behind in 0..count {
        let at = text.len().saturating_sub(behind);
        if at == 0 || at > text.len() || !is_joinable(text[at - 1]) {
            return at;
        }
    }
    text.len().saturating_sub(count)
}

// The token that begins there, with its place in the text.
fn token_from(text: &[u8], at: usize) -> Option<Token> {
    if at > text.len() {
        return None;
    }
    let rest = &text[at..];
    match scan(&rest[..rest.len().min(MAX_TOKEN)], &[], Goal::Div) {
        Ok(token) => Some(token),
        Err(_) => None,
    }
}

fn ends_comment(text: &[u8]) -> bool {
    text.len() > 1 && text[text.len() - 1] == b'/' && text[text.len() - 2] == b'*'
}

/// The token that ends the text, of what was written from there on, where it may join the next.
pub fn last_token(text: &[u8], from: usize) -> Option<Last> {
    if ends_comment(text) {
        return None;
    }
    let mut at = run_start(text, from);
    for _turn in 0..text.len() {
        let token = token_from(text, at)?;
        let end = at.saturating_add(token.end as usize);
        if end >= text.len() {
            return found(text, at, token);
        }
        if token.end == 0 {
            return None;
        }
        at = end;
    }
    None
}

fn found(text: &[u8], at: usize, token: Token) -> Option<Last> {
    match token.kind {
        TokenKind::End => None,
        _ => Some(Last {
            start: at.saturating_add(token.start as usize),
            end: text.len(),
            goal: Goal::Div,
        }),
    }
}

// The kind of the first token behind the offset, and whether a line ends before it; none where the
// text ends before a token.
fn next_token(text: &[u8], at: usize) -> Option<Token> {
    let token = token_from(text, at)?;
    match token.kind {
        TokenKind::End => None,
        _ => Some(token),
    }
}

// The first byte behind the offset that is no blank.
fn first_byte(text: &[u8], at: usize) -> Option<u8> {
    for here in at..text.len() {
        let byte = text[here];
        if byte != b' ' && byte != b'\t' && byte != b'\n' && byte != b'\r' {
            return Some(byte);
        }
    }
    None
}

fn is_semicolon(kind: TokenKind) -> bool {
    matches!(kind, TokenKind::Punctuator(Punctuator::Semicolon))
}

fn wants(end: OpenEnd, broken: bool, next: TokenKind) -> bool {
    if is_semicolon(next) {
        return true;
    }
    !end.always && !(may_end(broken, next) && !would_join(end.ends, next))
}

/// Whether a `;` has to stand at the offset, where an end lacks one; none where no token follows yet.
pub fn wants_semicolon(text: &[u8], at: usize, end: OpenEnd) -> Option<bool> {
    match next_token(text, at) {
        Some(token) => Some(wants(end, token.broken_before, token.kind)),
        None => match first_byte(text, at)? {
            b'`' => Some(wants(end, true, TokenKind::Template(TemplatePart::Head))),
            _ => None,
        },
    }
}

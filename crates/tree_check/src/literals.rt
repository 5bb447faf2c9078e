//! The texts of literals and of interpreter lines.

use crate::characters::{has_line_end, has_lone_surrogate, text_of};
use crate::scalars::text_at;
use js_forms::{Form, Sort};
use js_lexer::scan;
use js_tokens::{Goal, TokenKind};
use std::alloc::{AllocError, Global};
use tree_core::{Scalars, Tree};

/// The most bytes that are scanned, as many as a source has at most.
const MAX_SCANNED: usize = 2_097_152;

fn same_sort(one: TokenKind, other: TokenKind) -> bool {
    match (one, other) {
        (TokenKind::Number, TokenKind::Number) => true,
        (TokenKind::BigInt, TokenKind::BigInt) => true,
        (TokenKind::Regex, TokenKind::Regex) => true,
        (TokenKind::Quoted, TokenKind::Quoted) => true,
        _ => false,
    }
}

/// Whether the text is one token of the sort, with nothing beside it. A text that is longer than
/// every source is refused as want of memory.
pub fn scans_as(text: &[u8], sort: TokenKind) -> Result<bool, AllocError> {
    if text.len() > MAX_SCANNED {
        return Err(AllocError);
    }
    match scan(&[], text, Goal::RegExp) {
        Ok(token) => Ok(
            token.start == 0 && token.end as usize == text.len() && same_sort(token.kind, sort),
        ),
        Err(_) => Ok(false),
    }
}

fn is_number(alloc: Global, scalars: &Scalars, sort: TokenKind) -> Result<bool, AllocError> {
    let Some(value) = text_at(scalars, 1) else {
        return Ok(false);
    };
    match text_of(alloc, value.get())? {
        Some(text) => scans_as(text.as_bytes(), sort),
        None => Ok(false),
    }
}

fn has_slash(units: &[u16]) -> bool {
    for unit in units {
        if *unit == 0x2F {
            return true;
        }
    }
    false
}

// The spelling of a regular expression, `None` where a surrogate is no half of a pair.
fn regex_text(alloc: Global, pattern: &[u16], flags: &[u16]) -> Result<Option<String>, AllocError> {
    let Some(pattern) = text_of(alloc, pattern)? else {
        return Ok(None);
    };
    let Some(flags) = text_of(alloc, flags)? else {
        return Ok(None);
    };
    let mut text = String::new(alloc);
    text.push('/')?;
    text.push_str(pattern.as_str())?;
    text.push('/')?;
    text.push_str(flags.as_str())?;
    Ok(Some(text))
}

// The last `/` ends the pattern, since none is in the flags.
fn is_regex(alloc: Global, scalars: &Scalars) -> Result<bool, AllocError> {
    let Some(pattern) = text_at(scalars, 1) else {
        return Ok(false);
    };
    let Some(flags) = text_at(scalars, 2) else {
        return Ok(false);
    };
    if has_slash(flags.get()) {
        return Ok(false);
    }
    match regex_text(alloc, pattern.get(), flags.get())? {
        Some(text) => scans_as(text.as_bytes(), TokenKind::Regex),
        None => Ok(false),
    }
}

fn is_literal(alloc: Global, sort: Sort, scalars: &Scalars) -> Result<bool, AllocError> {
    match sort {
        Sort::Number => is_number(alloc, scalars, TokenKind::Number),
        Sort::BigInt => is_number(alloc, scalars, TokenKind::BigInt),
        Sort::Regex => is_regex(alloc, scalars),
        Sort::Quoted | Sort::True | Sort::False | Sort::Null => Ok(true),
    }
}

fn is_interpreter(scalars: &Scalars) -> bool {
    match text_at(scalars, 0) {
        Some(line) => !has_line_end(line.get()) && !has_lone_surrogate(line.get()),
        None => true,
    }
}

/// Whether the text of the literal, or of the program's interpreter line, scans as such. Any text is
/// the value of some string.
pub fn has_literal_text(alloc: Global, node: &Tree, form: Form) -> Result<bool, AllocError> {
    match form {
        Form::Literal(sort) => is_literal(alloc, sort, &node.scalars),
        Form::Program => Ok(is_interpreter(&node.scalars)),
        _ => Ok(true),
    }
}

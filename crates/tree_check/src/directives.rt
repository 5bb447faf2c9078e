//! Directives (ECMA-262, clause 11.2.1).

use crate::characters::text_of;
use crate::literals::scans_as;
use crate::position::{Parent, Position};
use crate::scalars::text_at;
use js_forms::Form;
use js_tokens::TokenKind;
use std::alloc::{AllocError, Global};
use tree_core::Tree;

// Whether the code units stand between these quotes in some string.
fn stands_between(alloc: Global, quote: char, units: &[u16]) -> Result<bool, AllocError> {
    let Some(inside) = text_of(alloc, units)? else {
        return Ok(false);
    };
    let mut text = String::new(alloc);
    text.push(quote)?;
    text.push_str(inside.as_str())?;
    text.push(quote)?;
    scans_as(text.as_bytes(), TokenKind::Quoted)
}

fn has_text(alloc: Global, node: &Tree) -> Result<bool, AllocError> {
    match text_at(&node.scalars, 0) {
        Some(raw) => Ok(
            stands_between(alloc, '"', raw.get())? || stands_between(alloc, '\'', raw.get())?,
        ),
        None => Ok(false),
    }
}

fn has_directives_before(parent: &Parent<'_>) -> bool {
    parent.index < parent.fronts.directives
}

// Whether the list takes directives, and all before this one are some.
fn stands_first(position: &Position<'_>) -> bool {
    match &position.parent {
        Some(parent) => position.context.directives && has_directives_before(parent),
        None => true,
    }
}

/// Whether the node, if it is a directive, may stand there, and its text between quotes.
pub fn is_directive_in_place(
    alloc: Global,
    node: &Tree,
    form: Form,
    position: &Position<'_>,
) -> Result<bool, AllocError> {
    if !matches!(form, Form::Directive) {
        return Ok(true);
    }
    if !stands_first(position) {
        return Ok(false);
    }
    has_text(alloc, node)
}

//! The characters of templates (ECMA-262, clause 12.9.6).

use crate::characters::{has_lone_surrogate, text_of, unit_at};
use crate::position::Position;
use crate::scalars::text_at;
use js_forms::{Form, Spelling};
use js_tokens::cook_template;
use std::alloc::{AllocError, Global};
use tree_core::Tree;

const BACKSLASH: u16 = 0x5C;

fn begins_hole(units: &[u16], at: usize) -> bool {
    match sqlite_items::at(units, at.saturating_add(1)) {
        Some(next) => unit_at(units, at) == 0x24 && *next == 0x7B,
        None => false,
    }
}

// Whether the characters would end here, or are none: a backquote, `${` or CR.
fn ends_at(units: &[u16], at: usize) -> bool {
    let unit = unit_at(units, at);
    unit == 0x60 || unit == 0x0D || begins_hole(units, at)
}

/// Whether a template may have these characters between its marks: no CR, no backquote or `${`
/// without a backslash before it, and no backslash at the end.
fn are_characters(units: &[u16]) -> bool {
    let mut escaped = false;
    for at in 0..units.len() {
        if escaped {
            if units[at] == 0x0D {
                return false;
            }
            escaped = false;
            continue;
        }
        if ends_at(units, at) {
            return false;
        }
        escaped = units[at] == BACKSLASH;
    }
    !escaped
}

// Whether the template stands behind a tag, so that its escapes may be any.
fn is_tagged(position: &Position<'_>) -> bool {
    match &position.parent {
        Some(parent) => matches!(parent.variant.spelling, Spelling::Tagged),
        None => false,
    }
}

fn has_good_escapes(alloc: Global, units: &[u16]) -> Result<bool, AllocError> {
    match text_of(alloc, units)? {
        Some(text) => Ok(cook_template(alloc, text.as_bytes())?.is_some()),
        None => Ok(false),
    }
}

fn has_characters(alloc: Global, units: &[u16], tagged: bool) -> Result<bool, AllocError> {
    if !are_characters(units) || has_lone_surrogate(units) {
        return Ok(false);
    }
    if tagged {
        return Ok(true);
    }
    has_good_escapes(alloc, units)
}

/// Whether the text of the node, if it is characters of a template, may stand there.
pub fn has_template_text(
    alloc: Global,
    node: &Tree,
    form: Form,
    position: &Position<'_>,
) -> Result<bool, AllocError> {
    if !matches!(form, Form::TemplateElement) {
        return Ok(true);
    }
    match text_at(&node.scalars, 0) {
        Some(raw) => has_characters(alloc, raw.get(), is_tagged(position)),
        None => Ok(false),
    }
}

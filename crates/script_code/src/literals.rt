//! Literals, keys that are literals, and the texts of templates.

use crate::code::Form;
use crate::nodes::{text, truth, unchecked};
use crate::state::State;
use js_tokens::cook_template;
use script_values::Word;
use std::alloc::{AllocError, Global};
use tree_core::Tree;

/// The largest number of a script, 2 to the 53 less 1.
const MAX_NUMBER: i64 = 9_007_199_254_740_991;

/// The value of a literal (ECMA-262, 14th edition, clause 13.2.3).
pub fn literal(state: &mut State<'_>, tree: &Tree) -> Result<Form, AllocError> {
    let sort = text(tree, "sort")?;
    if sort.is(b"number") {
        return number(text(tree, "value")?.get());
    }
    if sort.is(b"string") {
        let units = text(tree, "value")?;
        return Ok(Form::Text(state.word(units.get())?));
    }
    if sort.is(b"boolean") {
        return Ok(Form::Truth(truth(tree, "value")));
    }
    if sort.is(b"null") {
        return Ok(Form::Null);
    }
    Err(unchecked())
}

// The value of a digit.
fn digit(unit: u16) -> Result<i64, AllocError> {
    if unit < 48 || unit > 57 {
        return Err(unchecked());
    }
    Ok(i64::from(unit - 48))
}

// The number of these decimal digits; one above the range is a fault when it is evaluated.
fn number(digits: &[u16]) -> Result<Form, AllocError> {
    let mut value = 0i64;
    for unit in digits {
        let digit = digit(*unit)?;
        value = value.saturating_mul(10).saturating_add(digit);
    }
    if value > MAX_NUMBER {
        return Ok(Form::TooLarge);
    }
    Ok(Form::Whole(value))
}

// The second unit of a pair of surrogates, where the first unit begins one.
fn pair(unit: u16, next: Option<&u16>) -> Option<u16> {
    let second = *next?;
    if unit < 0xd800 || unit > 0xdbff || second < 0xdc00 || second > 0xdfff {
        return None;
    }
    Some(second)
}

// The code point of a pair of surrogates.
fn joined(first: u16, second: u16) -> u32 {
    let high = u32::from(first % 1024);
    let low = u32::from(second % 1024);
    0x10000 + high * 1024 + low
}

// Writes the character of the code point.
fn write(bytes: &mut String, code: u32) -> Result<(), AllocError> {
    match char::from_u32(code) {
        Some(character) => Ok(bytes.push(character)?),
        None => Err(unchecked()),
    }
}

// The bytes of the units; no source has a surrogate alone.
fn bytes_of(alloc: Global, units: &[u16]) -> Result<String, AllocError> {
    let mut bytes = String::new(alloc);
    let mut skipped = false;
    for at in 0..units.len() {
        if skipped {
            skipped = false;
            continue;
        }
        let unit = units[at];
        match pair(unit, units.get(at + 1)) {
            Some(second) => {
                write(&mut bytes, joined(unit, second))?;
                skipped = true;
            }
            None => write(&mut bytes, u32::from(unit))?,
        }
    }
    Ok(bytes)
}

/// The word of a TemplateElement, its escapes read (clause 12.9.6).
pub fn cooked(state: &mut State<'_>, tree: &Tree) -> Result<Word, AllocError> {
    let raw = bytes_of(state.alloc, text(tree, "raw")?.get())?;
    match cook_template(state.alloc, raw.as_bytes())? {
        Some(units) => state.word(units.get()),
        None => Err(unchecked()),
    }
}

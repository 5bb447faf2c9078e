//! Comparing code units with the text that bytes spell, which is made only where it must be.

ghost use Rattle.std.specs.Prelude.{◌≡◌, ◌≤◌, ◌<◌, ◌^◌, length, slice_range, true, Ok, IfOk};
ghost use Rattle.js_tokens.specs.Texts.{code_units, name_units, string_value};
ghost use Rattle.leaf_spellings.specs.Plain.{SpellsPlainly};

use cm_text::Source;
use js_tokens::{CookFault, Token, cook_string, name_of, units};
use std::alloc::{AllocError, Global};
use tree_core::Units;

// Whether the bytes are in ASCII without escapes and line ends, and as numbers the code units.
#[tactic(auto, using(crate::proofs::PlainTexts::plain_texts))]
fn is_plain(bytes: &[u8], units: &[u16]) -> bool
    ensures { result ≡ true → SpellsPlainly bytes.now units.now }
{
    if bytes.len() != units.len() {
        return false;
    }
    for at in 0..bytes.len() {
        let byte = bytes[at];
        if byte >= 0x80 || byte == b'\\' || byte == b'\r' || u16::from(byte) != units[at] {
            return false;
        }
    }
    true
}

/// Whether the code units are the same.
#[tactic(auto, using(std::proofs::lemmas::Grind::same_number_lists))]
pub fn same_units(one: &[u16], other: &[u16]) -> bool
    ensures { result ≡ true → one.now ≡ other.now }
{
    if one.len() != other.len() {
        return false;
    }
    for at in 0..one.len() {
        if one[at] != other[at] {
            return false;
        }
    }
    true
}

/// Whether the name that the token spells is this text.
pub fn spells_name(
    alloc: Global,
    source: &Source,
    token: Token,
    text: &[u16],
) -> Result<bool, AllocError>
    requires ordered { token.start ≤ token.end }
    requires within { token.end ≤ length source.now }
    ensures { IfOk result (λ held. held ≡ true → text.now ≡ name_units (slice_range source.now token.start token.end)) }
{
    let bytes = &source.bytes()[token.start as usize..token.end as usize];
    if is_plain(bytes, text) {
        return Ok(true);
    }
    let name = name_of(alloc, source, token)?;
    Ok(same_units(name.get(), text))
}

/// Whether the code units are those of the text.
#[tactic(auto, using(crate::proofs::SameTexts::same_bytes))]
pub fn same_text(units: &Units, text: &str) -> bool
    ensures { result ≡ true → units.now ≡ text.now }
{
    units.is(text.as_bytes())
}

/// Whether the bytes, as they stand or as characters of a template, are this text.
#[tactic(auto, using(crate::proofs::PlainTexts::plain_written))]
pub fn spells_written(
    alloc: Global,
    bytes: &[u8],
    template: bool,
    text: &[u16],
) -> Result<bool, AllocError>
    ensures { IfOk result (λ held. held ≡ true → text.now ≡ code_units template bytes.now) }
{
    if is_plain(bytes, text) {
        return Ok(true);
    }
    let written = units(alloc, bytes, template)?;
    Ok(same_units(written.get(), text))
}

/// Whether the bytes between the quotes of a string have this value.
pub fn spells_string(alloc: Global, bytes: &[u8], text: &[u16]) -> Result<bool, AllocError>
    requires { length bytes.now < 2 ^ 32 }
    ensures { IfOk result (λ held. held ≡ true → string_value bytes.now ≡ Ok text.now) }
{
    if is_plain(bytes, text) {
        return Ok(true);
    }
    match cook_string(alloc, bytes) {
        Ok(value) => Ok(same_units(value.get(), text)),
        Err(CookFault::BadEscape { .. }) => Ok(false),
        Err(CookFault::NoMemory) => Err(AllocError),
    }
}

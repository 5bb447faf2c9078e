//! Characters of texts of UTF-16 code units.

ghost use Rattle.std.specs.Prelude.{◌≡◌, nat_le, slice_index};
ghost use Rattle.std.specs.List.{list_any};
ghost use Rattle.js_lexer.specs.Blanks.{is_line_end};
ghost use Rattle.tree_check.specs.Texts as spec;

use std::alloc::{AllocError, Global};

fn is_high(unit: u16) -> bool
    ensures { result ≡ spec.is_high unit }
{
    unit >= 0xD800 && unit < 0xDC00
}

fn is_low(unit: u16) -> bool
    ensures { result ≡ spec.is_low unit }
{
    unit >= 0xDC00 && unit < 0xE000
}

/// The code unit of this number, 0 past the end.
pub fn unit_at(units: &[u16], at: usize) -> u16
    ensures { result ≡ slice_index units.now at }
{
    if at < units.len() { units[at] } else { 0 }
}

/// The code point that begins at the place. A lone surrogate stands for itself.
pub fn code_at(units: &[u16], at: usize) -> u32 {
    let unit = unit_at(units, at);
    let next = unit_at(units, at.saturating_add(1));
    if is_high(unit) && is_low(next) {
        let high = u32::from(unit) % 0x400;
        let low = u32::from(next) % 0x400;
        return 0x1_0000 + high * 0x400 + low;
    }
    u32::from(unit)
}

/// Whether the code point takes two code units.
pub fn is_pair(code: u32) -> bool
    ensures { result ≡ nat_le 0x10000 code }
{
    code >= 0x1_0000
}

/// Whether the code unit ends a line (ECMA-262, clause 12.3).
pub fn is_line_end(unit: u16) -> bool
    ensures { result ≡ is_line_end unit }
{
    match unit {
        0x0A | 0x0D | 0x2028 | 0x2029 => true,
        _ => false,
    }
}

/// Whether a line end is among the code units.
pub fn has_line_end(units: &[u16]) -> bool
    ensures { result ≡ list_any is_line_end units.now }
{
    for unit in units {
        if is_line_end(*unit) {
            return true;
        }
    }
    false
}

/// Whether a surrogate stands there that is no half of a pair.
pub fn has_lone_surrogate(units: &[u16]) -> bool {
    let mut second = false;
    for at in 0..units.len() {
        if second {
            second = false;
            continue;
        }
        let code = code_at(units, at);
        if code >= 0xD800 && code < 0xE000 {
            return true;
        }
        second = is_pair(code);
    }
    false
}

/// The text of these code units; `None` where a surrogate is no half of a pair.
pub fn text_of(alloc: Global, units: &[u16]) -> Result<Option<String>, AllocError> {
    match String::from_utf16(alloc, units)? {
        Ok(text) => Ok(Some(text)),
        Err(_) => Ok(None),
    }
}

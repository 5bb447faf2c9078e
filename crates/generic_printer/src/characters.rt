//! Texts in UTF-8, and as strings.

use std::alloc::AllocError;

// The byte that holds the lowest six bits.
fn push_tail(out: &mut Vec<u8>, code: u32) -> Result<(), AllocError> {
    out.push((0x80 + code % 64) as u8)?;
    Ok(())
}

/// Writes the code point in UTF-8.
pub fn push_code(out: &mut Vec<u8>, code: u32) -> Result<(), AllocError> {
    if code < 0x80 {
        out.push((code % 0x80) as u8)?;
        return Ok(());
    }
    if code < 0x800 {
        out.push((0xC0 + code / 64 % 32) as u8)?;
        return push_tail(out, code);
    }
    if code < 0x1_0000 {
        out.push((0xE0 + code / 0x1000 % 16) as u8)?;
    } else {
        out.push((0xF0 + code / 0x4_0000 % 8) as u8)?;
        push_tail(out, code / 0x1000)?;
    }
    push_tail(out, code / 64)?;
    push_tail(out, code)
}

// Whether the code unit is the first of two.
fn is_high(unit: u16) -> bool {
    unit >= 0xD800 && unit < 0xDC00
}

fn is_low(unit: u16) -> bool {
    unit >= 0xDC00 && unit < 0xE000
}

// The code unit of this number, 0 past the end.
fn unit_at(units: &[u16], at: usize) -> u16 {
    if at < units.len() { units[at] } else { 0 }
}

// The character at the place: its code, how many code units it takes, and whether it is a
// surrogate alone.
fn character_at(units: &[u16], at: usize) -> (u32, usize, bool) {
    let first = unit_at(units, at);
    let second = unit_at(units, at.saturating_add(1));
    if is_high(first) && is_low(second) {
        let code = 0x1_0000 + u32::from(first) % 0x400 * 0x400 + u32::from(second) % 0x400;
        return (code, 2, false);
    }
    (u32::from(first), 1, is_high(first) || is_low(first))
}

/// Writes the text in UTF-8; a surrogate alone, which no text of a source has, as U+FFFD.
pub fn push_units(out: &mut Vec<u8>, units: &[u16]) -> Result<(), AllocError> {
    let mut at = 0;
    for _turn in 0..units.len() {
        if at >= units.len() {
            return Ok(());
        }
        let (code, taken, alone) = character_at(units, at);
        push_code(out, if alone { 0xFFFD } else { code })?;
        at = at.saturating_add(taken);
    }
    Ok(())
}

fn hex_byte(code: u32) -> u8 {
    let digit = code % 16;
    if digit < 10 {
        return (48 + digit) as u8;
    }
    (87 + digit) as u8
}

// Writes a backslash, the letter, and so many hexadecimal digits of the code.
fn push_escape(out: &mut Vec<u8>, letter: u8, code: u32, digits: u32) -> Result<(), AllocError> {
    out.push(b'\\')?;
    out.push(letter)?;
    if digits == 4 {
        out.push(hex_byte(code / 0x1000))?;
        out.push(hex_byte(code / 0x100))?;
    }
    if digits >= 2 {
        out.push(hex_byte(code / 0x10))?;
        out.push(hex_byte(code))?;
    }
    Ok(())
}

// Writes a character of a string (ECMA-262, clause 12.9.4).
fn push_quoted(out: &mut Vec<u8>, quote: u8, code: u32, alone: bool) -> Result<(), AllocError> {
    if alone {
        return push_escape(out, b'u', code, 4);
    }
    if code == u32::from(quote) {
        return push_escape(out, quote, code, 0);
    }
    match code {
        0x5C => push_escape(out, b'\\', code, 0),
        0x0A => push_escape(out, b'n', code, 0),
        0x0D => push_escape(out, b'r', code, 0),
        0x2028 | 0x2029 => push_escape(out, b'u', code, 4),
        0..0x20 => push_escape(out, b'x', code, 2),
        _ => push_code(out, code),
    }
}

/// Writes a string of this value between these quotes.
pub fn push_string(out: &mut Vec<u8>, quote: u8, units: &[u16]) -> Result<(), AllocError> {
    out.push(quote)?;
    let mut at = 0;
    for _turn in 0..units.len() {
        if at < units.len() {
            let (code, taken, alone) = character_at(units, at);
            push_quoted(out, quote, code, alone)?;
            at = at.saturating_add(taken);
        }
    }
    out.push(quote)?;
    Ok(())
}

// Whether the inside of a string has the quote without a backslash before it.
fn has_bare(units: &[u16], quote: u8) -> bool {
    let mut escaped = false;
    for unit in units {
        if !escaped && *unit == u16::from(quote) {
            return true;
        }
        escaped = !escaped && *unit == 0x5C;
    }
    false
}

/// Writes a directive of this text, in the quotes if its text can stand there, else in the others.
pub fn push_directive(out: &mut Vec<u8>, single: bool, units: &[u16]) -> Result<(), AllocError> {
    let (wanted, other) = if single { (b'\'', b'"') } else { (b'"', b'\'') };
    let quote = if has_bare(units, wanted) {
        other
    } else {
        wanted
    };
    out.push(quote)?;
    push_units(out, units)?;
    out.push(quote)?;
    Ok(())
}

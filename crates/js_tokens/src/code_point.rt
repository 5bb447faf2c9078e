//! Characters in UTF-8, and which of them make names (ECMA-262, clause 12.7).

ghost use Rattle.std.specs.Prelude.{◌≡◌, ◌<◌, ◌≤◌, ◌^◌, ◌&&◌, nat_lt, slice_index};
ghost use Rattle.js_tokens.specs.Characters.{low_six, char_len, first_char, starts_name, continues_name};

use crate::readable::Text;

/// The byte at the offset, 0 past the end.
pub fn byte_at(bytes: &[u8], at: usize) -> u8
    ensures { result ≡ slice_index bytes.now at }
{
    if at < bytes.len() { bytes[at] } else { 0 }
}

fn low_six<T: Text>(text: T, at: usize) -> u32
    ensures value { result ≡ low_six (T.bytes text) at }
    ensures small { result < 0x40 }
{
    u32::from(text.byte(at)) % 0x40
}

/// How many bytes a character takes that begins with this byte.
pub fn char_len(lead: u8) -> usize
    ensures value { result ≡ char_len lead }
    ensures some { 0 < result }
    ensures few { result ≤ 4 }
{
    match lead {
        0..0x80 => 1,
        0x80..0xE0 => 2,
        0xE0..0xF0 => 3,
        _ => 4,
    }
}

/// The code point of the character that the text begins with.
#[tactic(auto, unfolding(crate::specs::Characters::first_char))]
pub fn first_char<T: Text>(text: T) -> u32
    ensures value { result ≡ first_char (T.bytes text) }
    ensures small { result < 2 ^ 21 }
{
    let lead = u32::from(text.byte(0));
    if lead < 0x80 {
        return lead;
    }
    let second = low_six(text, 1);
    if lead < 0xE0 {
        return lead % 0x20 * 0x40 + second;
    }
    let third = low_six(text, 2);
    if lead < 0xF0 {
        return (lead % 0x10 * 0x40 + second) * 0x40 + third;
    }
    let fourth = low_six(text, 3);
    ((lead % 0x08 * 0x40 + second) * 0x40 + third) * 0x40 + fourth
}

/// Whether a name may begin with the code point.
#[tactic(auto, unfolding(crate::specs::Characters::starts_name))]
pub fn starts_name(code: u32) -> bool
    ensures { result ≡ starts_name code }
{
    if code == 0x24 || code == 0x5F {
        return true;
    }
    match char::from_u32(code) {
        Some(c) => unicode_ident::is_xid_start(c),
        None => false,
    }
}

/// Whether a name may go on with the code point.
#[tactic(auto, unfolding(crate::specs::Characters::continues_name))]
pub fn continues_name(code: u32) -> bool
    ensures { result ≡ continues_name code }
{
    if code == 0x24 || code == 0x200C || code == 0x200D {
        return true;
    }
    match char::from_u32(code) {
        Some(c) => unicode_ident::is_xid_continue(c),
        None => false,
    }
}

/// Whether the byte is an ASCII character with which a name may begin.
#[tactic(auto, using(crate::proofs::NameLemmas::ascii_start))]
pub fn is_ascii_start(byte: u8) -> bool
    ensures { result ≡ (nat_lt byte 0x80 && starts_name byte) }
{
    if byte >= 0x80 {
        return false;
    }
    (byte == b'$') | (byte == b'_') | byte.is_ascii_alphabetic()
}

/// Whether the byte is an ASCII character with which a name may go on.
#[tactic(auto, using(crate::proofs::NameLemmas::ascii_part))]
pub fn is_ascii_part(byte: u8) -> bool
    ensures { result ≡ (nat_lt byte 0x80 && continues_name byte) }
{
    if byte >= 0x80 {
        return false;
    }
    (byte == b'$') | byte.is_ascii_alphanumeric() | (byte == b'_')
}

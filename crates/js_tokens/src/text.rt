//! Reading texts piece by piece.

ghost use Rattle.std.specs.Prelude.{◌≡◌, ℕ, ◌<◌, ◌++◌, length, IfOk, IfSome, OnOk};
ghost use Rattle.std.specs.Char.Escape.{encode_utf16};
ghost use Rattle.js_tokens.specs.Pieces.{IsWhole};
ghost use Rattle.js_tokens.specs.Texts.{piece_units, plain_piece, cooked_piece, plain_units, cooked_units};

use crate::code_point::byte_at;
use crate::fault::Stop;
use crate::piece::{Piece, character, line_feed, string_escape, template_escape, unicode_escape};
use std::alloc::{AllocError, Global};
use tree_core::Units;

/// What a text is that has no escapes which may be wrong.
#[derive(Clone, Copy)]
pub enum Spelled {
    AsWritten,
    InTemplate,
    InName,
}

/// Whose escapes a text has.
#[derive(Clone, Copy)]
pub enum Cooked {
    OfString,
    OfTemplate,
}

fn plain_piece(how: Spelled, bytes: &[u8]) -> Piece
    ensures value { result ≡ plain_piece how bytes.now }
    ensures whole { IsWhole result }
{
    let byte = byte_at(bytes, 0);
    match how {
        Spelled::AsWritten => character(bytes),
        Spelled::InTemplate => {
            if byte == b'\r' {
                return line_feed(bytes);
            }
            character(bytes)
        }
        Spelled::InName => {
            if byte == b'\\' {
                if let Some(escaped) = unicode_escape(bytes) {
                    return escaped;
                }
            }
            character(bytes)
        }
    }
}

fn cooked_piece(how: Cooked, bytes: &[u8]) -> Option<Piece>
    ensures value { result ≡ cooked_piece how bytes.now }
    ensures whole { IfSome result IsWhole }
{
    let byte = byte_at(bytes, 0);
    match how {
        Cooked::OfString => {
            if byte == b'\\' {
                return string_escape(bytes);
            }
            Some(character(bytes))
        }
        Cooked::OfTemplate => {
            if byte == b'\\' {
                return template_escape(bytes);
            }
            Some(plain_piece(Spelled::InTemplate, bytes))
        }
    }
}

fn push_piece(alloc: Global, units: &mut Units, piece: Piece) -> Result<(), AllocError>
    requires { IsWhole piece }
    ensures { OnOk result (units.new ≡ units.old ++ piece_units piece) }
{
    let Some(code) = piece.code else {
        return Ok(());
    };
    if code < 0x1_0000 {
        units.push(alloc, code as u16)?;
        return Ok(());
    }
    let high = 0xD800 + (code - 0x1_0000) / 0x400;
    let low = 0xDC00 + (code - 0x1_0000) % 0x400;
    units.push(alloc, high as u16)?;
    units.push(alloc, low as u16)?;
    Ok(())
}

/// The code units of the text.
pub fn plain_units(alloc: Global, how: Spelled, raw: &[u8]) -> Result<Units, AllocError>
    ensures { IfOk result (λ units. units ≡ plain_units how 0 raw.now) }
{
    let mut units = Units::with_room(alloc, raw.len())?;
    let mut at = 0;
    while at < raw.len() {
        let piece = plain_piece(how, &raw[at..]);
        push_piece(alloc, &mut units, piece)?;
        at += piece.len.min(raw.len() - at);
    }
    Ok(units)
}

/// The code units of the text, or where the first escape stands that is not valid.
pub fn cooked_units(alloc: Global, how: Cooked, raw: &[u8]) -> Result<Units, Stop>
    ensures value { IfOk result (λ units. cooked_units how 0 0 raw.now ≡ Ok units) }
    ensures bad_escape { (at : ℕ) → result ≡ Err (Stop.BadEscape at) → cooked_units how 0 0 raw.now ≡ Err at }
    ensures within { (at : ℕ) → result ≡ Err (Stop.BadEscape at) → at < length raw.now }
{
    let mut units = Units::empty();
    let mut at = 0;
    while at < raw.len() {
        let Some(piece) = cooked_piece(how, &raw[at..]) else {
            return Err(Stop::BadEscape(at));
        };
        push_piece(alloc, &mut units, piece)?;
        at += piece.len.min(raw.len() - at);
    }
    Ok(units)
}

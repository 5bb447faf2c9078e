//! What names, strings and templates spell, for the crates above.

ghost use Rattle.std.specs.Prelude.{◌≡◌, ℕ, ◌<◌, ◌≤◌, ◌^◌, length, slice_range, IfOk, Ok, Err};
ghost use Rattle.std.specs.Result.{result_ok};
ghost use Rattle.js_tokens.specs.Texts.{code_units, name_units, string_value, template_value};
ghost use Rattle.js_tokens.specs.Words.{reserved, word_of};

use crate::fault::{CookFault, Stop};
use crate::text::{Cooked, Spelled, cooked_units, plain_units};
use crate::token::Token;
use crate::word::Word;
use cm_text::Source;
use std::alloc::{AllocError, Global};
use tree_core::Units;

/// The code units of a text as it stands, or with `template` of a template's raw text, where CR LF
/// and CR read as LF.
pub fn units(alloc: Global, raw: &[u8], template: bool) -> Result<Units, AllocError>
    ensures { IfOk result (λ units. units ≡ code_units template raw.now) }
{
    let how = if template {
        Spelled::InTemplate
    } else {
        Spelled::AsWritten
    };
    plain_units(alloc, how, raw)
}

/// The value of a string, from the text between its quotes (ECMA-262, clause 12.9.4).
pub fn cook_string(alloc: Global, raw: &[u8]) -> Result<Units, CookFault>
    requires { length raw.now < 2 ^ 32 }
    ensures value { IfOk result (λ units. string_value raw.now ≡ Ok units) }
    ensures bad_escape { (at : ℕ) → result ≡ Err (CookFault.BadEscape at) → string_value raw.now ≡ Err at }
{
    match cooked_units(alloc, Cooked::OfString, raw) {
        Ok(units) => Ok(units),
        Err(Stop::BadEscape(at)) => Err(CookFault::BadEscape { at: at as u32 }),
        Err(Stop::NoMemory) => Err(CookFault::NoMemory),
    }
}

/// The cooked value of one part of a template, from the text between its ends (ECMA-262, clause
/// 12.9.6): `None` exactly where an escape is not valid.
pub fn cook_template(alloc: Global, raw: &[u8]) -> Result<Option<Units>, AllocError>
    ensures { IfOk result (λ units. units ≡ result_ok (template_value raw.now)) }
{
    match cooked_units(alloc, Cooked::OfTemplate, raw) {
        Ok(units) => Ok(Some(units)),
        Err(Stop::BadEscape(_)) => Ok(None),
        Err(Stop::NoMemory) => Err(AllocError),
    }
}

/// The name that a token of the kind `Name` spells, its escapes read.
pub fn name_of(alloc: Global, source: &Source, token: Token) -> Result<Units, AllocError>
    requires ordered { token.start ≤ token.end }
    requires within { token.end ≤ length source.now }
    ensures { IfOk result (λ name. name ≡ name_units (slice_range source.now token.start token.end)) }
{
    let bytes = source.bytes();
    plain_units(
        alloc,
        Spelled::InName,
        &bytes[token.start as usize..token.end as usize],
    )
}

/// Whether the name is a reserved word, `let` among them.
pub fn is_reserved(name: &Units) -> bool
    ensures { result ≡ reserved (word_of name.now) }
{
    Word::of_units(name.get()).is_reserved()
}

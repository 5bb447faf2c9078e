//! What stands before the first token of a source: a byte order mark, and a line that names an
//! interpreter (ECMA-262, 14th edition, clause 12.5).

ghost use Rattle.std.specs.Prelude.{◌≤◌};

use crate::lines::line_len;
use js_tokens::{byte_at, units};
use std::alloc::{AllocError, Global};
use tree_core::Scalar;

/// Where the program begins, and the text behind `#!` on the first line.
#[derive(Drop)]
pub struct Front {
    pub from: u32,
    pub interpreter: Scalar,
}

// The length of U+FEFF, if the text begins with it.
fn mark_len(text: &[u8]) -> usize
    ensures { result ≤ 3 }
{
    if byte_at(text, 0) == 0xEF && byte_at(text, 1) == 0xBB && byte_at(text, 2) == 0xBF {
        return 3;
    }
    0
}

fn begins_interpreter(text: &[u8], at: usize) -> bool {
    byte_at(text, at) == b'#' && byte_at(text, at.saturating_add(1)) == b'!'
}

/// The front of the text. Without `#!` the program begins with the text: there U+FEFF is a blank.
pub fn front_of(alloc: Global, text: &[u8]) -> Result<Front, AllocError> {
    let hash = mark_len(text);
    if !begins_interpreter(text, hash) {
        return Ok(Front {
            from: 0,
            interpreter: Scalar::Null,
        });
    }
    let start = (hash + 2).min(text.len());
    let end = start + line_len(&text[start..]);
    Ok(Front {
        from: end.min(u32::MAX as usize) as u32,
        interpreter: Scalar::Text(units(alloc, &text[start..end], false)?),
    })
}

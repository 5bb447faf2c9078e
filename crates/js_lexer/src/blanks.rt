//! White space, line ends and comments (ECMA-262, clauses 12.2 to 12.4). Each function is given the
//! bytes from there to the end of the text.

ghost use Rattle.std.specs.Prelude.{◌≡◌, ◌<◌, ◌≤◌, length};
ghost use Rattle.js_lexer.specs.Blanks as spec;

use crate::parts::{Part, breaks_line, has_byte, run};
use js_tokens::{Text, char_len, first_char};

fn is_white_space(code: u32) -> bool
    ensures { result ≡ spec.is_white_space code }
{
    match code {
        0x09
        | 0x0B
        | 0x0C
        | 0x20
        | 0xA0
        | 0x1680
        | 0x2000..=0x200A
        | 0x202F
        | 0x205F
        | 0x3000
        | 0xFEFF => true,
        _ => false,
    }
}

fn is_line_end(code: u32) -> bool
    ensures { result ≡ spec.is_line_end code }
{
    match code {
        0x0A | 0x0D | 0x2028 | 0x2029 => true,
        _ => false,
    }
}

/// The length of the comment with which the bytes begin, 0 where none does. An open comment is none.
#[tactic(auto, unfolding(crate::specs::Blanks::comment_len))]
pub fn comment_len<T: Text>(rest: T) -> usize
    ensures value { result ≡ spec.comment_len (T.bytes rest) }
    ensures within { result ≤ length (T.bytes rest) }
{
    if !has_byte(rest, 0, b'/') {
        return 0;
    }
    if has_byte(rest, 1, b'/') {
        return run(Part::OfLineComment, rest, 2);
    }
    if !has_byte(rest, 1, b'*') {
        return 0;
    }
    let inside = run(Part::OfBlockComment, rest, 2);
    if has_byte(rest, inside + 1, b'/') {
        return inside + 2;
    }
    0
}

/// The length of the white space character, line end or comment with which the bytes begin, 0 where
/// none does.
#[tactic(auto, unfolding(crate::specs::Blanks::blank_len))]
#[inline(always)]
pub fn blank_len<T: Text>(rest: T) -> usize
    ensures { result ≡ spec.blank_len (T.bytes rest) }
{
    let code = first_char(rest);
    if is_white_space(code) || is_line_end(code) {
        return char_len(rest.byte(0));
    }
    comment_len(rest)
}

/// The length of all blanks and comments with which the bytes begin.
#[tactic(auto, using(crate::proofs::Rows::walking_rows))]
pub fn gap_len<T: Text>(rest: T) -> usize
    ensures value { result ≡ spec.gap_len (T.bytes rest) }
    ensures within { result ≤ length (T.bytes rest) }
{
    let mut skip = 0;
    for at in 0..rest.len() {
        if skip > 0 {
            skip -= 1;
            continue;
        }
        let len = blank_len(rest.after(at));
        if len == 0 {
            return at;
        }
        skip = len - 1;
    }
    rest.len()
}

/// Whether a line end stands in the bytes.
#[tactic(auto, unfolding(crate::specs::Blanks::has_line_end))]
pub fn has_line_end<T: Text>(blanks: T) -> bool
    ensures { result ≡ spec.has_line_end (T.bytes blanks) }
{
    for at in 0..blanks.len() {
        if breaks_line(blanks.after(at)) {
            return true;
        }
    }
    false
}

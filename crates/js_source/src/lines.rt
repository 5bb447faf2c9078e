//! Lines of a text.

ghost use Rattle.std.specs.Prelude.{◌≤◌, length};

use js_lexer::breaks_line;

/// How many bytes stand before the first line end, all where there is none.
pub fn line_len(bytes: &[u8]) -> usize
    ensures { result ≤ length bytes.now }
{
    for at in 0..bytes.len() {
        if breaks_line(&bytes[at..]) {
            return at;
        }
    }
    bytes.len()
}

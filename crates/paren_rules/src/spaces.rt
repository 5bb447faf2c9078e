//! Spaces between tokens.

ghost use Rattle.std.specs.Prelude.{◌≡◌, ◌+◌, ◌≤◌, length};
ghost use Rattle.paren_rules.specs.Spaces as spec;

use js_lexer::scan;
use js_tokens::Goal;

/// Whether the bytes of a token, read in its goal with the next bytes behind them, are not that
/// token.
pub fn needs_space(last: &[u8], next: &[u8], goal: Goal) -> bool
    requires { length last.now + length next.now ≤ 2097152 }
    ensures { result ≡ spec.needs_space last.now next.now goal }
{
    match scan(last, next, goal) {
        Ok(token) => !(token.start == 0 && token.end as usize == last.len()),
        Err(_) => true,
    }
}

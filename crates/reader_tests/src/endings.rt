//! Missing semicolons: what would join the token behind.

use asi_rules::{EndLevels, Ending, may_end, would_join};
use js_tokens::{Punctuator, TokenKind, Word};

#[test]
fn joins(rt: HostRuntime) {
    let name = EndLevels {
        least: 19,
        most: 19,
        clause: false,
        word: Ending::Statement,
    };
    let update = EndLevels {
        least: 15,
        most: 15,
        clause: false,
        word: Ending::Statement,
    };
    let paren = TokenKind::Punctuator(Punctuator::OpenParen);
    let minus = TokenKind::Punctuator(Punctuator::Minus);
    let increment = TokenKind::Punctuator(Punctuator::PlusPlus);
    let cases = [
        (name, paren, true),
        (name, minus, true),
        (name, increment, false),
        (name, TokenKind::Name(Word::From), false),
        (update, paren, false),
        (update, minus, true),
    ];
    for (ends, next, joins) in cases {
        assert!(rt; would_join(ends, next) == joins);
    }
    assert!(rt; may_end(true, paren));
    assert!(rt; !may_end(false, paren));
}

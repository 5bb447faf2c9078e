//! Worked rows of the lexical grammar.

use cm_text::Source;
use js_lexer::{Cursor, LexFault, LexFaultKind, Refusal, SyntaxKind, next, scan};
use js_tokens::{Goal, Punctuator, TemplatePart, Token, TokenKind, Word};
use std::alloc::{AllocError, Global};
use std::test::Fail;

fn source_of(alloc: Global, text: &str) -> Result<Option<Source>, AllocError> {
    let mut bytes = Vec::new(alloc);
    bytes.extend_from_slice(text.as_bytes())?;
    Ok(Source::new(bytes).ok())
}

// What comes next in the text, `None` where the offset is outside it.
fn next_in(
    alloc: Global,
    text: &str,
    goal: Goal,
    at: u32,
) -> Result<Option<Result<Token, LexFault>>, AllocError> {
    match source_of(alloc, text)? {
        Some(source) if at as usize <= source.bytes().len() => Ok(Some(next(&source, at, goal))),
        _ => Ok(None),
    }
}

#[test]
fn reads_tokens(rt: HostRuntime) -> Result<(), Fail> {
    use Goal::{Div, RegExp, RegExpOrTemplateTail, TemplateTail};
    use Punctuator as p;
    use TemplatePart as part;
    use TokenKind as kind;
    // a text, a goal and an offset; the token's kind, start and end
    let cases = [
        ("a/b/c", Div, 1, kind::Punctuator(p::Slash), 1, 2),
        ("a/b/c", RegExp, 1, kind::Regex, 1, 5),
        ("?.5", Div, 0, kind::Punctuator(p::Question), 0, 1),
        ("?.a", Div, 0, kind::Punctuator(p::OptionalDot), 0, 2),
        ("}x`", TemplateTail, 0, kind::Template(part::Tail), 0, 3),
        ("}x`", Div, 0, kind::Punctuator(p::CloseBrace), 0, 1),
        (
            "}${",
            RegExpOrTemplateTail,
            0,
            kind::Template(part::Middle),
            0,
            3,
        ),
        ("`a\\`${", Div, 0, kind::Template(part::Head), 0, 6),
        (" /*\u{2028}*/ // b\r\n", Div, 0, kind::End, 15, 15),
        (
            "\u{FEFF}\u{3000}while",
            Div,
            0,
            kind::Name(Word::While),
            6,
            11,
        ),
        ("\\u{61}s\u{200D}", Div, 0, kind::Name(Word::Plain), 0, 10),
        ("1_000.5e-7.x", Div, 0, kind::Number, 0, 10),
        ("017.x", Div, 0, kind::Number, 0, 3),
        ("089.5", Div, 0, kind::Number, 0, 5),
        ("0xFf_f0n", Div, 0, kind::BigInt, 0, 8),
        ("'\\\r\n\u{2029}'", Div, 0, kind::Quoted, 0, 8),
        ("/[/]\\//\\u{67}i", RegExp, 0, kind::Regex, 0, 14),
        ("#a.b", Div, 0, kind::Private, 0, 2),
        (
            ">>>==",
            Div,
            0,
            kind::Punctuator(p::ShiftRightUnsignedAssign),
            0,
            4,
        ),
        ("??=", Div, 0, kind::Punctuator(p::NullishAssign), 0, 3),
    ];
    for (text, goal, at, kind, start, end) in cases {
        match next_in(rt.alloc(), text, goal, at)? {
            Some(Ok(token)) => {
                assert!(rt; token.kind == kind, "{text}");
                assert_eq!(rt; token.start, start, "{text}");
                assert_eq!(rt; token.end, end, "{text}");
            }
            _ => assert!(rt; false, "{text}"),
        }
    }
    Ok(())
}

#[test]
fn reads_two_pieces(rt: HostRuntime) -> Result<(), Fail> {
    use Goal::{Div, RegExp, TemplateTail};
    use Punctuator as p;
    use TemplatePart as part;
    use TokenKind as kind;
    // a text and a goal; the token's kind, start and end, wherever the text is parted
    let cases = [
        ("instanceof ", Div, kind::Name(Word::Instanceof), 0, 10),
        ("\\u{61}b", Div, kind::Name(Word::Plain), 0, 7),
        ("\u{3042}c", Div, kind::Name(Word::Plain), 0, 4),
        ("1_0.5e-7", Div, kind::Number, 0, 8),
        ("0xFfn", Div, kind::BigInt, 0, 5),
        ("'\\x41\\\r\n'", Div, kind::Quoted, 0, 9),
        ("`a${", Div, kind::Template(part::Head), 0, 4),
        ("}b`", TemplateTail, kind::Template(part::Tail), 0, 3),
        ("/[/]/g", RegExp, kind::Regex, 0, 6),
        ("/*\u{2028}*/\r\nif", Div, kind::Name(Word::If), 9, 11),
        ("?.5", Div, kind::Punctuator(p::Question), 0, 1),
        ("?.a", Div, kind::Punctuator(p::OptionalDot), 0, 2),
        ("\u{FEFF}//\r", Div, kind::End, 6, 6),
    ];
    for (text, goal, kind, start, end) in cases {
        let bytes = text.as_bytes();
        assert!(rt; bytes.len() < 100);
        for at in 0..=bytes.len() {
            match scan(&bytes[..at], &bytes[at..], goal) {
                Ok(token) => {
                    assert!(rt; token.kind == kind, "{text} {at}");
                    assert_eq!(rt; token.start, start, "{text} {at}");
                    assert_eq!(rt; token.end, end, "{text} {at}");
                }
                Err(_) => assert!(rt; false, "{text} {at}"),
            }
        }
    }
    let open = scan(b" 'a", b"\n'", Div);
    assert!(rt;
        matches!(open, Err(fault) if fault.at == 1 && fault.kind == LexFaultKind::OpenString)
    );
    Ok(())
}

#[test]
fn tells_broken_elements(rt: HostRuntime) -> Result<(), Fail> {
    use Goal::{Div, RegExp, TemplateTail};
    use LexFaultKind as fault;
    // a text, a goal and an offset; the fault and where it lies
    let cases = [
        ("3in x", RegExp, 0, fault::BadNumber, 0),
        ("\"a\n", RegExp, 0, fault::OpenString, 0),
        ("x /* y", Div, 1, fault::OpenComment, 2),
        (" @", Div, 0, fault::BadChar, 1),
        ("}a", TemplateTail, 0, fault::OpenTemplate, 0),
        ("/[/\n]/", RegExp, 0, fault::OpenRegex, 0),
        ("'\\8\n", Div, 0, fault::BadEscape, 0),
        ("#\\x", Div, 0, fault::BadEscape, 0),
        ("# a", Div, 0, fault::BadChar, 0),
        ("0_1", Div, 0, fault::BadNumber, 0),
        ("0b12", Div, 0, fault::BadNumber, 0),
        ("1__0", Div, 0, fault::BadNumber, 0),
    ];
    for (text, goal, at, kind, start) in cases {
        match next_in(rt.alloc(), text, goal, at)? {
            Some(Err(LexFault { at, kind: found })) => {
                assert_eq!(rt; found.number(), kind.number(), "{text}");
                assert_eq!(rt; at, start, "{text}");
            }
            _ => assert!(rt; false, "{text}"),
        }
    }
    Ok(())
}

#[test]
fn moves_over_tokens(rt: HostRuntime) -> Result<(), Fail> {
    let text = "a /* b */\n= /re/g // c\n `x${y}z` \"d";
    let Some(source) = source_of(rt.alloc(), text)? else {
        assert!(rt; false, "no text");
        return Ok(());
    };
    let mut cursor = Cursor::new(rt.alloc(), &source, 0);
    assert!(rt; cursor.text() == "a".as_bytes() && !cursor.line_end_before());
    cursor.take();
    assert!(rt; cursor.line_end_before() && cursor.last_end() == 1);
    assert!(rt; !cursor.eat_word(Word::Of) && cursor.eat_mark(Punctuator::Assign));
    cursor.rescan(Goal::RegExp);
    assert!(rt; cursor.text() == "/re/g".as_bytes());
    cursor.take();
    assert!(rt; cursor.text() == "`x${".as_bytes() && cursor.line_end_before());
    cursor.take();
    cursor.take();
    match cursor.numbered(28) {
        Ok(number) => assert!(rt; number == 0 && cursor.span(number).end == 29),
        Err(_) => assert!(rt; false, "no number"),
    }
    cursor.rescan(Goal::TemplateTail);
    assert!(rt; cursor.text() == "}z`".as_bytes() && !cursor.is_done());
    cursor.take();
    assert!(rt; cursor.kind() == TokenKind::End && !cursor.is_done());
    let Refusal::Syntax(fault) = cursor.refuse() else {
        assert!(rt; false, "no fault");
        return Ok(());
    };
    assert!(rt; fault.at == 33 && fault.kind == SyntaxKind::Lex(LexFaultKind::OpenString));
    assert!(rt; cursor.refuse_at(0) == Refusal::Syntax(fault));
    let comments = cursor.comments().as_slice();
    assert!(rt; comments.len() == 2 && comments[1].start == 18 && comments[1].end == 22);
    Ok(())
}

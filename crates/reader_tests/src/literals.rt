//! Values of strings and templates, and words.

use cm_text::Source;
use js_tokens::{
    CookFault, PUNCTUATORS, Token, TokenKind, WORDS, Word, cook_string, cook_template, is_reserved,
    name_of, units,
};
use std::test::Fail;

#[test]
fn cooks_strings(rt: HostRuntime) -> Result<(), Fail> {
    let cases: [(&str, &[u16]); 6] = [
        (
            "a\\n\\x41\\u0042\\u{01F600}",
            &[97, 10, 65, 66, 0xD83D, 0xDE00],
        ),
        ("\\\r\nb\\\u{2028}c\\\n", &[98, 99]),
        ("\\101\\08\\477", &[65, 0, 56, 39, 55]),
        ("\u{E9}\u{1F600}\\q\\\"", &[0xE9, 0xD83D, 0xDE00, 113, 34]),
        ("\\uD83D\\v", &[0xD83D, 11]),
        ("\\\u{20AC}\r", &[0x20AC, 13]),
    ];
    for (raw, want) in cases {
        assert!(rt; raw.len() < 100);
        let value = cook_string(rt.alloc(), raw.as_bytes());
        assert!(rt; matches!(&value, Ok(units) if units.get() == want), "{raw}");
    }
    let faults = [
        ("ab\\8", 2),
        ("\\", 0),
        ("\\t\\xg1", 2),
        ("a\\u{110000}", 1),
        ("\\u{}", 0),
        ("\\u{1", 0),
        ("\\u123", 0),
    ];
    for (raw, place) in faults {
        assert!(rt; raw.len() < 100);
        let value = cook_string(rt.alloc(), raw.as_bytes());
        assert!(rt;
            matches!(value, Err(CookFault::BadEscape { at }) if at == place),
            "{raw}"
        );
    }
    Ok(())
}

#[test]
fn cooks_templates(rt: HostRuntime) -> Result<(), Fail> {
    let cases: [(&str, Option<&[u16]>, &[u16]); 4] = [
        (
            "a\r\nb\rc",
            Some(&[97, 10, 98, 10, 99]),
            &[97, 10, 98, 10, 99],
        ),
        (
            "\\0\\\r\n\\u{41}",
            Some(&[0, 65]),
            &[92, 48, 92, 10, 92, 117, 123, 52, 49, 125],
        ),
        ("\\00", None, &[92, 48, 48]),
        ("\\1", None, &[92, 49]),
    ];
    for (raw, want, spelled) in cases {
        let value = cook_template(rt.alloc(), raw.as_bytes())?;
        match (&value, want) {
            (Some(units), Some(wanted)) => assert!(rt; units.get() == wanted, "{raw}"),
            (None, None) => {}
            _ => assert!(rt; false, "{raw}"),
        }
        let text = units(rt.alloc(), raw.as_bytes(), true)?;
        assert!(rt; text.get() == spelled, "{raw}");
    }
    let text = units(rt.alloc(), b"\r\n", false)?;
    assert!(rt; text.get() == [13, 10].as_slice());
    Ok(())
}

#[test]
fn knows_words(rt: HostRuntime) -> Result<(), Fail> {
    for (word, spelling, reserved) in WORDS {
        assert!(rt; Word::of(spelling.as_bytes()) == *word, "{spelling}");
        let name = units(rt.alloc(), spelling.as_bytes(), false)?;
        assert_eq!(rt; is_reserved(&name), *reserved, "{spelling}");
    }
    let mut bytes = Vec::new(rt.alloc());
    bytes.extend_from_slice(b"(l\\u0065\\u{74})")?;
    let Ok(source) = Source::new(bytes) else {
        return Ok(());
    };
    let token = Token {
        kind: TokenKind::Name(Word::Plain),
        start: 1,
        end: 14,
        broken_before: false,
    };
    assert!(rt; source.bytes().len() == 15);
    let name = name_of(rt.alloc(), &source, token)?;
    assert!(rt; is_reserved(&name));
    Ok(())
}

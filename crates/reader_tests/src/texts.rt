//! Lines of sources, and bytes that are no text.

use cm_text::{LineEnd, MAX_LENGTH, Source, TextFault};
use std::alloc::{AllocError, Global};
use std::test::Fail;

fn source_of(alloc: Global, text: &str) -> Result<Result<Source, TextFault>, AllocError> {
    let mut bytes = Vec::new(alloc);
    bytes.extend_from_slice(text.as_bytes())?;
    Ok(Source::new(bytes))
}

#[test]
fn tells_lines(rt: HostRuntime) -> Result<(), Fail> {
    // a text, an offset, the line ends before it, the front of its line, the first line end
    let cases = [
        ("", 0, 0, 0, LineEnd::Lf),
        ("a\r\n\t b", 2, 0, 0, LineEnd::CrLf),
        ("a\r\n\t b", 3, 1, 5, LineEnd::CrLf),
        ("a\r \t b\n", 6, 1, 5, LineEnd::Cr),
        ("\n\r\n\r\r    ", 5, 4, 4, LineEnd::Lf),
        ("a\u{2028} b\u{2029}", 5, 1, 1, LineEnd::Ls),
        ("\u{2029}\t\tb", 2, 0, 0, LineEnd::Ps),
        ("\u{2029}\t\tb", 3, 1, 8, LineEnd::Ps),
    ];
    for (text, at, lines, front, end) in cases {
        match source_of(rt.alloc(), text)? {
            Ok(source) => {
                assert!(rt; at as usize <= source.bytes().len());
                assert_eq!(rt; source.line_of(at), lines, "{text} at {at}");
                assert_eq!(rt; source.blank_front(at, 4), front, "{text} at {at}");
                assert_eq!(rt; source.line_end(), end, "{text}");
            }
            Err(_) => assert!(rt; false, "{text}"),
        }
    }
    Ok(())
}

#[test]
fn refuses_what_is_no_text(rt: HostRuntime) -> Result<(), Fail> {
    let bytes = vec![in rt.alloc(); b'a', b'b', b'c', 0xFF]?;
    assert!(rt; matches!(Source::new(bytes), Err(TextFault::NotUtf8 { at: 3 })));
    let bytes = vec![in rt.alloc(); 0xC3, 0xA9, 0xE2, 0x80]?;
    assert!(rt; matches!(Source::new(bytes), Err(TextFault::NotUtf8 { at: 2 })));
    let bytes = vec![in rt.alloc(); b'a'; MAX_LENGTH]?;
    assert!(rt; Source::new(bytes).is_ok());
    let bytes = vec![in rt.alloc(); 0xFF; MAX_LENGTH + 1]?;
    assert!(rt;
        matches!(
            Source::new(bytes),
            Err(TextFault::TooLong { len: 2_097_153 })
        )
    );
    Ok(())
}

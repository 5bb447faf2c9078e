//! Sources of the first grammar that are read or refused, with the stretches and levels of their nodes.

ghost use Rattle.std.specs.Prelude.{◌≤◌, length};

use first_grammar::{ReadError, parse};
use std::alloc::{AllocError, Global};
use std::test::Fail;
use tree_core::Span;

fn nodes(alloc: Global, source: &[u8]) -> Result<usize, ReadError>
    requires { length source.now ≤ 2097152 }
{
    let parsed = parse(alloc, source)?;
    Ok(parsed.spans.len())
}

// `start`, then `count` times `link`, then `end`.
fn repeated(
    alloc: Global,
    start: &str,
    link: &str,
    count: usize,
    end: &str,
) -> Result<Vec<u8>, AllocError> {
    let mut text = Vec::new(alloc);
    text.extend_from_slice(start.as_bytes())?;
    for _ in 0..count {
        text.extend_from_slice(link.as_bytes())?;
    }
    text.extend_from_slice(end.as_bytes())?;
    Ok(text)
}

#[test]
fn reads_or_refuses(rt: HostRuntime) -> Result<(), Fail> {
    let alloc = rt.alloc();
    let cases: [(&str, Result<usize, ReadError>); 12] = [
        ("", Ok(1)),
        (" \n ", Ok(1)),
        ("foo(a, b);", Ok(6)),
        ("a.a = f(a);", Ok(9)),
        ("a = b = c; d;", Ok(9)),
        ("a.if;", Ok(5)),
        ("f(;", Err(ReadError::Unexpected(2))),
        ("f(a,);", Err(ReadError::Unexpected(4))),
        ("if(a);", Err(ReadError::Unexpected(0))),
        ("f() = a;", Err(ReadError::Unexpected(4))),
        ("a", Err(ReadError::Unexpected(1))),
        ("a; 1;", Err(ReadError::Unexpected(3))),
    ];
    for (text, want) in cases {
        assert!(rt; text.len() < 100);
        assert_eq!(rt; nodes(alloc, text.as_bytes()), want, "at {text:?}");
    }
    Ok(())
}

#[test]
fn numbers_in_preorder(rt: HostRuntime) -> Result<(), Fail> {
    let parsed = parse(rt.alloc(), b" f(a.b) ;")?;
    let stretches = [(0, 9), (1, 9), (1, 7), (1, 2), (3, 6), (3, 4), (5, 6)];
    assert_eq!(rt; parsed.spans.len(), stretches.len());
    for (number, (start, end)) in stretches.into_iter().enumerate() {
        let span = Some(&Span { start, end });
        assert_eq!(rt; parsed.spans.get(number), span, "at {number}");
    }
    assert_eq!(rt; parsed.tree.from, Some(0));
    Ok(())
}

// Each link of a chain is one level more over the program, the statement and the last name.
#[test]
fn nests_to_the_limit(rt: HostRuntime) -> Result<(), Fail> {
    let alloc = rt.alloc();
    let cases = [
        (997, Ok(1997), Ok(1997)),
        (
            998,
            Err(ReadError::Nesting(1997)),
            Err(ReadError::Nesting(1996)),
        ),
        (
            300_000,
            Err(ReadError::Nesting(1997)),
            Err(ReadError::Nesting(1996)),
        ),
    ];
    for (count, members, calls) in cases {
        let chain = repeated(alloc, "a", ".b", count, ";")?;
        assert!(rt; chain.len() < 2_000_000);
        assert_eq!(rt; nodes(alloc, &chain), members, "{count} members");
        let mut nested = repeated(alloc, "", "f(", count, "a")?;
        let closing = repeated(alloc, "", ")", count, ";")?;
        nested.extend_from_slice(&closing)?;
        assert!(rt; nested.len() < 2_000_000);
        assert_eq!(rt; nodes(alloc, &nested), calls, "{count} calls");
    }
    Ok(())
}

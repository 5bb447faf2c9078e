//! Sources with the spans of their nodes in preorder, and with the comments beside a node.

use cm_text::Source;
use js_lexer::Refusal;
use js_source::parse;
use sqlite_items::Items;
use std::alloc::{AllocError, Global};
use std::test::Fail;
use tree_core::{Address, Parsed, Scalar, Span, Tree, at};

fn parsed(alloc: Global, text: &str) -> Result<Option<Parsed>, AllocError> {
    let mut bytes = Vec::new(alloc);
    bytes.extend_from_slice(text.as_bytes())?;
    let Ok(source) = Source::new(bytes) else {
        return Ok(None);
    };
    match parse(alloc, &source) {
        Ok(parsed) => Ok(Some(parsed)),
        Err(Refusal::NoMemory) => Err(AllocError),
        Err(Refusal::Syntax(_)) => Ok(None),
    }
}

// The spans, as `0-3 1-2 `.
fn spelled_spans(alloc: Global, spans: &[Span]) -> Result<String, AllocError> {
    let mut all = String::new(alloc);
    for span in spans {
        let (start, end) = (span.start, span.end);
        let one = format!(in alloc; "{start}-{end} ")?;
        all.push_str(one.as_str())?;
    }
    Ok(all)
}

// How long the text of the interpreter is.
fn interpreter_len(tree: &Tree) -> Option<usize> {
    match tree.scalars.get(0) {
        Some(Scalar::Text(text)) => Some(text.get().len()),
        _ => None,
    }
}

#[test]
fn numbers_in_preorder(rt: HostRuntime) -> Result<(), Fail> {
    let alloc = rt.alloc();
    // a text, the length of its interpreter, and the spans
    let cases = [
        ("", None, "0-0 "),
        ("a * b;\nc", None, "0-8 0-6 0-5 0-1 4-5 7-8 7-8 "),
        ("\u{FEFF}#!x\r\na", Some(1), "0-9 8-9 8-9 "),
        ("#!x", Some(1), "0-3 "),
        ("`a${b}`", None, "0-7 0-7 0-7 1-2 6-6 4-5 "),
        ("({a}) // b", None, "0-10 0-5 1-4 2-3 2-3 2-3 "),
        ("[, a, ,]", None, "0-8 0-8 0-8 3-4 "),
    ];
    for (text, interpreter, want) in cases {
        match parsed(alloc, text)? {
            Some(found) => {
                let spans = spelled_spans(alloc, found.spans.as_slice())?;
                assert_eq!(rt; spans.as_str(), want, "{text}");
                assert_eq!(rt; interpreter_len(&found.tree), interpreter, "{text}");
            }
            None => assert!(rt; false, "{text}"),
        }
    }
    Ok(())
}

#[test]
fn numbers_deep_trees(rt: HostRuntime) -> Result<(), Fail> {
    let mut text = String::new(rt.alloc());
    for bracket in ["[", "]"] {
        for _turn in 0..998 {
            text.push_str(bracket)?;
        }
    }
    match parsed(rt.alloc(), text.as_str())? {
        Some(found) => assert!(rt; found.spans.len() == 1000),
        None => assert!(rt; false),
    }
    Ok(())
}

// How many comments stand before, after and inside the node at the address.
fn notes(
    alloc: Global,
    text: &str,
    steps: &[u32],
) -> Result<Option<(usize, usize, usize)>, AllocError> {
    let address = Address::new(Items::from_slice(alloc, steps)?);
    let Some(found) = parsed(alloc, text)? else {
        return Ok(None);
    };
    match at(&found.tree, &address) {
        Some(node) => Ok(Some((
            node.notes.lead().len(),
            node.notes.trail().len(),
            node.notes.inner().len(),
        ))),
        None => Ok(None),
    }
}

#[test]
fn attaches_comments(rt: HostRuntime) -> Result<(), Fail> {
    let call = "// a\nf(/* b */ x, // c\ny); // d\n";
    let template = "`a${/* a */ b}c${d /* b */}`";
    let branch = "if (a) /* a */ b; else c // b\n/* c */\n// d\nd";
    // a text, an address, the comments before, after and inside
    let cases: [(&str, &[u32], usize, usize, usize); 25] = [
        (call, &[0], 1, 1, 0),
        (call, &[0, 0, 1], 1, 1, 0),
        (call, &[0, 0, 2], 0, 0, 0),
        ("f(/* a */)", &[0, 0, 0], 0, 1, 0),
        ("a = [/* a */]", &[0, 0, 1], 0, 0, 1),
        ("// a", &[], 0, 0, 1),
        (template, &[0, 0, 3], 1, 0, 0),
        (template, &[0, 0, 2], 1, 0, 0),
        (branch, &[0, 1], 1, 0, 0),
        (branch, &[0], 0, 1, 0),
        (branch, &[1], 2, 0, 0),
        ("({/* a */ b})", &[0, 0, 0, 1], 0, 0, 0),
        ("({/* a */ b})", &[0, 0, 0], 1, 0, 0),
        ("f(a /* x */, // y\nb)", &[0, 0, 1], 0, 2, 0),
        ("a; /* b */ // c\nd", &[0], 0, 2, 0),
        ("return /* n */;", &[0], 0, 0, 1),
        ("{ /* a */ }", &[0], 0, 0, 1),
        ("function f(/* a */) {}", &[0, 1], 1, 0, 0),
        ("(/* a */ b /* c */)", &[0, 0], 1, 1, 0),
        ("[/* a */, b]", &[0, 0, 1], 1, 0, 0),
        ("a\n// b\n", &[0], 0, 1, 0),
        ("export { a /* b */ };", &[0, 1], 0, 1, 0),
        ("export { a /* b */ };", &[0, 1, 1], 0, 0, 0),
        ("import { a /* b */ as c } from \"m\";", &[0, 0, 1], 1, 0, 0),
        ("#!x\n// a\nb", &[0], 1, 0, 0),
    ];
    for (text, steps, lead, trail, inner) in cases {
        let found = notes(rt.alloc(), text, steps)?;
        assert_eq!(rt; found, Some((lead, trail, inner)), "{text}");
    }
    Ok(())
}

//! Whole renames, from the source to the new text.

use first_grammar::parse;
use first_rename::{count, is_plain_name, rename};
use std::test::Fail;

/// A source, the old name, the new one, how many identifiers have the old one, and the new text.
const RENAMES: [(&str, &str, &str, u64, &str); 6] = [
    ("foo(a, b);", "a", "b", 1, "foo(b, b);"),
    ("a.a = f(a);", "a", "b", 3, "b.b = f(b);"),
    (
        "  ab .a=\n a ;a;",
        "a",
        "longer",
        3,
        "  ab .longer=\n longer ;longer;",
    ),
    ("f(a).if = f;", "f", "$", 2, "$(a).if = $;"),
    ("x = y;", "z", "w", 0, "x = y;"),
    (" \n", "a", "b", 0, " \n"),
];

#[test]
fn renames(rt: HostRuntime) -> Result<(), Fail> {
    let alloc = rt.alloc();
    for (source, old, new, named, wanted) in RENAMES.iter() {
        let (source, old, new) = (source.as_bytes(), old.as_bytes(), new.as_bytes());
        assert!(rt; source.len() <= 2_097_152);
        assert!(rt; is_plain_name(new));
        let parsed = parse(alloc, source);
        assert!(rt; parsed.is_ok());
        if let Ok(parsed) = &parsed {
            assert_eq!(rt; count(&parsed.tree, old), *named);
            let out = rename(alloc, source, parsed, old, new)?;
            assert!(rt; out.as_slice() == wanted.as_bytes(), "for {wanted}");
        }
    }
    Ok(())
}

//! Texts that need a space between them.

use js_tokens::Goal;
use paren_rules::needs_space;

#[test]
fn joins(rt: HostRuntime) {
    let cases = [
        ("-", "-x", true),
        ("-", "x", false),
        ("in", "x", true),
        ("a", "(", false),
        ("1", ".a", true),
        ("/", "/b/", true),
        ("/", "* c */", true),
        ("?", ".5", false),
        ("a", "\\u0062", true),
        ("1", "in", true),
    ];
    for (last, next, wanted) in cases {
        assert!(rt; last.len() + next.len() < 100);
        let found = needs_space(last.as_bytes(), next.as_bytes(), Goal::Div);
        assert!(rt; found == wanted, "{last} {next}");
    }
    assert!(rt; needs_space(b"/a/", b"g", Goal::RegExp));
    assert!(rt; !needs_space(b"/a/", b".b", Goal::RegExp));
}

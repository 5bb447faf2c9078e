//! A table of edits: what a script does to the tree of a source is told by another source, which has
//! the same tree.

use crate::tests::{host_of, parsed_of};
use arena_trees::unload;
use node_arena::Arena;
use script_check::{Script, check};
use script_eval::{Outcome, prepare, run};
use std::alloc::Global;
use tree_core::same;

// What a script does between `root` and its answer, the source, and a source of the tree that is left.
const EDITS: &[(&str, &str, &str)] = &[
    ("", "", ""),
    (
        "root.find(j.Identifier, { name: \"a\" }).replaceWith(j.identifier(\"b\"));",
        "foo(a, b);",
        "foo(b, b);",
    ),
    (
        "root.find(j.Identifier, { name: \"a\" }).replaceWith(j.identifier(\"b\"));",
        "f({ a });",
        "f({ b });",
    ),
    (
        "root.find(j.Identifier, { name: \"a\" }).replaceWith(j.identifier(\"b\"));",
        "import x from \"m\";\nexport { a as c };",
        "import x from \"m\";\nexport { b as c };",
    ),
    // A node that stands in a place leaves a copy there.
    (
        concat!(
            "const sum = root.find(j.BinaryExpression, { operator: \"+\" }).get().node; ",
            "root.find(j.Identifier, { name: \"b\" }).replaceWith(sum);"
        ),
        "x = a * b;\ny = c + d;",
        "x = a * (c + d);\ny = c + d;",
    ),
    (
        concat!(
            "const f = j.arrowFunctionExpression([], j.identifier(\"f\")); root.get(\"body\", ",
            "0).insertAfter(j.expressionStatement(j.callExpression(f, [])));"
        ),
        "a = b\nc()",
        "a = b;\n(() => f)();\nc()",
    ),
    (
        "root.find(j.Literal).replaceWith(j.identifier(\"y\"));",
        "return\"x\"",
        "return y",
    ),
    (
        concat!(
            "const call = root.find(j.ExpressionStatement).get().node; ",
            "root.find(j.FunctionDeclaration).replaceWith(call);"
        ),
        "function f() {\n    if (p) {\n        g(`a\n  b`,\n            c);\n    }\n}\n",
        "g(`a\n  b`,\n    c);\n",
    ),
    (
        concat!(
            "root.find(j.CallExpression, { callee: { object: { name: \"console\" }, ",
            "property: { name: \"log\" } } }).replaceWith(p => ",
            "j.callExpression(j.identifier(\"w\"), [p.node]));"
        ),
        "console.log(console.log(x));",
        "w(console.log(w(console.log(x))));",
    ),
    (
        "root.find(j.Identifier, { name: \"b\" }).remove();",
        "[a, /* one */ b, // two\nc];",
        "[a, c];",
    ),
    (
        concat!(
            "const x = root.find(j.Identifier, { name: \"x\" }).get().node; ",
            "root.find(j.CallExpression).replaceWith(j.memberExpression(x, ",
            "j.identifier(\"y\")));"
        ),
        "f(\n// c\nx);",
        "(// c\nx).y;",
    ),
    (
        concat!(
            "const x = root.find(j.Identifier, { name: \"x\" }).get().node; x.name = \"z\"; ",
            "x.name = \"x\";"
        ),
        "x = a+b;",
        "x = a+b;",
    ),
    (
        "root.find(j.ExpressionStatement).insertAfter(p => p.node);",
        "x = a+b;",
        "x = a+b;\nx = a+b;",
    ),
    (
        concat!(
            "root.find(j.Identifier, { name: \"a\" }).filter(p => ",
            "p.scope.lookup(\"a\").isGlobal).replaceWith(j.identifier(\"b\"));"
        ),
        "const a = 1;\nfunction f(a) { return a; }\na;",
        "const b = 1;\nfunction f(a) { return a; }\nb;",
    ),
    (
        "root.get(\"body\", 0).node.comments = [j.commentLine(\" x\", true, false)];",
        "a;",
        "// x\na;",
    ),
    // `b` goes to the place of `a`, and its copy stays in an assignment.
    (
        concat!(
            "const b = root.find(j.Identifier, { name: \"b\" }).get().node; ",
            "root.find(j.Identifier, { name: \"a\" }).replaceWith(b); if ",
            "(root.find(j.Identifier).at(-1).closest(j.AssignmentExpression).size() !== 1) ",
            "throw \"no\";"
        ),
        "a = b;",
        "b = b;",
    ),
    (
        "root.find(j.CallExpression).at(0).remove();",
        "f();g();",
        "g();",
    ),
];

const FUEL: u64 = 10_000;

// The script that does so.
fn script_of(alloc: Global, edit: &str) -> Option<Script> {
    let text = format!(in alloc;
        "module.exports = (file, {{ j }}) => {{ const root = j(file.source); {edit} return root.toSource(); }};"
    );
    check(alloc, parsed_of(alloc, text.ok()?.as_str())?).ok()
}

// Whether the tree that the arena holds is that of the text.
fn is_tree_of(alloc: Global, arena: &Arena, text: &str) -> Option<bool> {
    let wanted = parsed_of(alloc, text)?;
    let left = unload(alloc, arena, arena.root()).ok()?;
    Some(same(&left, &wanted.tree))
}

// Whether the script prints, and leaves the tree of the other source.
fn leaves(alloc: Global, edit: &str, source: &str, wanted: &str) -> Option<bool> {
    let code = prepare(alloc, &script_of(alloc, edit)?).ok()?;
    let mut host = host_of(alloc, &code, source)?;
    let ran = run(&code, &mut host, "a.js", FUEL).ok()?;
    if ran.outcome != Outcome::Printed {
        return Some(false);
    }
    is_tree_of(alloc, &host.arena, wanted)
}

#[test]
fn edits(rt: HostRuntime) {
    for (edit, source, wanted) in EDITS {
        let told = leaves(rt.alloc(), edit, source, wanted);
        assert!(rt; told == Some(true), "{source} and not {wanted}");
    }
}

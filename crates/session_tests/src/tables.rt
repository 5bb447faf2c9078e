//! The cases of the runs: what goes in, and what comes out.

use crate::changes::{INSERTING, NAMING};
use codemod_cmd::Status;

pub const SCRIPT: &str =
    "module.exports = (file, api) => api.jscodeshift(file.source).find(api.jscodeshift.Identifier, { name: \"a\" }).replaceWith(api.jscodeshift.identifier(\"b\")).toSource();";

pub const PRINTING: &str =
    "module.exports = (file, api) => api.jscodeshift(file.source).toSource();\n";

// It renames `c` to `d`.
pub const RENAMING_C: &str =
    "module.exports = (file, api) => api.jscodeshift(file.source).find(api.jscodeshift.Identifier, { name: \"c\" }).replaceWith(api.jscodeshift.identifier(\"d\")).toSource();";

// It renames `a` to `async`.
pub const TO_ASYNC: &str =
    "module.exports = (file, api) => api.jscodeshift(file.source).find(api.jscodeshift.Identifier, { name: \"a\" }).replaceWith(api.jscodeshift.identifier(\"async\")).toSource();";

// It prints, and is spelled otherwise than the script that only prints.
const ANY_PRINTING: &str =
    "export default function (file, { j }) {\n  const root = j(file.source);\n  return root.toSource();\n}\n";

// Its statements take 1,000 units of fuel.
const COUNTING: &str = "module.exports = () => { let i = 0; while (i < 141) { i += 1; } ;; };";

// It puts `b` in the place of each name.
const CHANGING: &str =
    "module.exports = (file, { j }) => j(file.source).find(j.Identifier).replaceWith(j.identifier(\"b\")).toSource();";

pub const SOURCE: &[u8] = b"foo(a, b);";

pub const RENAMED: &[u8] = b"foo(b, b);";

pub const USAGE: &str =
    "usage: codemod -t SCRIPT [-d] [-p] [--fuel N] [--extensions LIST] [--fail-on-error] [--tab-width N] [--use-tabs] [--quote Q] [--trailing-comma] [--no-curly-spacing] [--arrow-parens] FILE...\n";

// Scripts, sources, and the rows of dry runs over one file.
pub const ROWS: [(&str, &[u8], &str); 45] = [
    (SCRIPT, SOURCE, "ok a.js\ntext 10\nfoo(b, b);\n"),
    (SCRIPT, b"a.a = f(a);", "ok a.js\ntext 11\nb.b = f(b);\n"),
    (SCRIPT, b"f(;", "error a.js: syntax Unexpected at 2\n"),
    (SCRIPT, b"", "unmodified a.js\n"),
    (SCRIPT, b"abc\xFF", "error a.js: not UTF-8 at 3\n"),
    (
        SCRIPT,
        b"let \xC3\xA9 = async a => ({ a })",
        "ok a.js\ntext 27\nlet é = async b => ({ b })\n",
    ),
    (SCRIPT, b"let q = `x`", "unmodified a.js\n"),
    (
        "module.exports = (file, api) => api.jscodeshift(file.source).find(api.jscodeshift.Identifier, { name: \"a\" }).replaceWith(api.jscodeshift.identifier(\"constructor\")).toSource();",
        b"class A { a() {} }",
        "error a.js: bad node /0/2/0 Method\n",
    ),
    (SCRIPT, b"x = \"a", "error a.js: syntax OpenString at 4\n"),
    (SCRIPT, b"x = `a", "error a.js: syntax OpenTemplate at 4\n"),
    (PRINTING, b"a /* b", "error a.js: syntax OpenComment at 2\n"),
    (PRINTING, b"a = /b", "error a.js: syntax OpenRegex at 4\n"),
    (PRINTING, b"\"\\8\"", "error a.js: syntax BadEscape at 0\n"),
    (PRINTING, b"3in x", "error a.js: syntax BadNumber at 0\n"),
    (PRINTING, b"a = #", "error a.js: syntax BadChar at 4\n"),
    (
        PRINTING,
        b"x = 1__0;",
        "error a.js: syntax BadNumber at 4\n",
    ),
    (
        PRINTING,
        b"x = #y in z;",
        "error a.js: syntax Unexpected at 4\n",
    ),
    (
        PRINTING,
        b"a ?? b || c",
        "error a.js: syntax Unexpected at 7\n",
    ),
    (PRINTING, SOURCE, "unmodified a.js\n"),
    (PRINTING, b"", "unmodified a.js\n"),
    (
        PRINTING,
        b"\xEF\xBB\xBF#!/usr/bin/env node\r\n\ta\r\n\tb()",
        "unmodified a.js\n",
    ),
    (
        PRINTING,
        b"class A { #x; has(o) { return #x in o; } }",
        "unmodified a.js\n",
    ),
    (SCRIPT, b"a ||= 1_000;", "ok a.js\ntext 12\nb ||= 1_000;\n"),
    (SCRIPT, b"await a;", "ok a.js\ntext 8\nawait b;\n"),
    (SCRIPT, b"f({ a });", "ok a.js\ntext 9\nf({ b });\n"),
    (
        SCRIPT,
        b"import x from \"m\";\nexport { a as c };",
        "ok a.js\ntext 37\nimport x from \"m\";\nexport { b as c };\n",
    ),
    (
        SCRIPT,
        b"export { a };",
        "ok a.js\ntext 13\nexport { b };\n",
    ),
    (
        SCRIPT,
        b"import { a } from \"m\";",
        "ok a.js\ntext 22\nimport { b } from \"m\";\n",
    ),
    (RENAMING_C, b"(a?.b).c", "ok a.js\ntext 8\n(a?.b).d\n"),
    (RENAMING_C, b"a?.b.c", "ok a.js\ntext 6\na?.b.d\n"),
    (
        TO_ASYNC,
        b"for (a of x);",
        "ok a.js\ntext 19\nfor ((async) of x);\n",
    ),
    (ANY_PRINTING, b"", "unmodified a.js\n"),
    (
        ANY_PRINTING,
        b"\xEF\xBB\xBF#!/usr/bin/env node\r\n\ta\r\n\tb()",
        "unmodified a.js\n",
    ),
    (
        ANY_PRINTING,
        b"a ?? b || c",
        "error a.js: syntax Unexpected at 7\n",
    ),
    (
        ANY_PRINTING,
        b"x = `a",
        "error a.js: syntax OpenTemplate at 4\n",
    ),
    (ANY_PRINTING, b"abc\xFF", "error a.js: not UTF-8 at 3\n"),
    (CHANGING, b"a;", "ok a.js\ntext 2\nb;\n"),
    (CHANGING, b"1;", "unmodified a.js\n"),
    (
        "module.exports = (f, api) => { api.j.literal(-1); };",
        b"a;",
        "error a.js: script BuilderType at 31\n",
    ),
    (
        "module.exports = (f, api) => { api.j.unaryExpression(\"-\", api.j.literal(1)); };",
        b"a;",
        "skipped a.js\n",
    ),
    (
        "module.exports = () => { throw \"no\"; };",
        b"a;",
        "error a.js: script Thrown at 25\n",
    ),
    (
        "module.exports = (f) => f.source + \"\";",
        b"a;",
        "unmodified a.js\n",
    ),
    (
        "module.exports = (f) => f.source + f.path;",
        b"a;",
        "error a.js: script BadReturn at 17\n",
    ),
    (
        "module.exports = (f) => f.path === \"a.js\" ? null : f.source;",
        b"a;",
        "skipped a.js\n",
    ),
    (
        "const f = {};\nmodule.exports = f;",
        b"a;",
        "error a.js: script NotCallable at 31\n",
    ),
];

// Words, a script, the files, the status and what is written.
pub const RUNS: [(&str, Option<&str>, &[&str], Status, &str); 14] = [
    (
        "-t s.js a.js",
        Some(SCRIPT),
        &["a.js"],
        Status::Done,
        "ok a.js\nerrors 0\nunmodified 0\nskipped 0\nok 1\n",
    ),
    (
        "-t s.js -p a.js c.js",
        Some(SCRIPT),
        &["a.js"],
        Status::Done,
        "ok a.js\ntext 10\nfoo(b, b);\nerror c.js: missing\nerrors 1\nunmodified 0\nskipped 0\nok 1\n",
    ),
    (
        "-t s.js src",
        Some(SCRIPT),
        &[
            "src/a.js",
            "src/b.txt",
            "src/node_modules/c.js",
            "srcs/a.js",
        ],
        Status::Done,
        "ok src/a.js\nerrors 0\nunmodified 0\nskipped 0\nok 1\n",
    ),
    (
        "-t s.js --extensions js,ts src/ b.txt",
        Some(SCRIPT),
        &[
            "b.txt",
            "src/b/.d.js",
            "src/b/d.ts",
            "src/b.x/js",
            "src/b.js",
            "src/.b/a.js",
            "src/a.tsx",
        ],
        Status::Done,
        "ok src/b/d.ts\nok src/b.js\nok b.txt\nerrors 0\nunmodified 0\nskipped 0\nok 3\n",
    ),
    (
        "-t s.js odd",
        Some(SCRIPT),
        &["odd/a.js"],
        Status::Done,
        "error odd: unnamed entries 1\nok odd/a.js\nerrors 1\nunmodified 0\nskipped 0\nok 1\n",
    ),
    (
        "-t s.js --fail-on-error c.js",
        Some(SCRIPT),
        &["a.js"],
        Status::HadErrors,
        "error c.js: missing\nerrors 1\nunmodified 0\nskipped 0\nok 0\n",
    ),
    (
        "-t s.js a.js",
        Some("var x;"),
        &["a.js"],
        Status::NoScript,
        "script s.js: form Subset at 0\n",
    ),
    (
        "-t s.js a.js",
        None,
        &["a.js"],
        Status::NoScript,
        "script s.js: missing\n",
    ),
    ("-d a.js", Some(SCRIPT), &["a.js"], Status::Usage, USAGE),
    ("-t s.js", Some(SCRIPT), &["a.js"], Status::Usage, USAGE),
    (
        "-t s.js --fuel 0 a.js",
        Some(SCRIPT),
        &["a.js"],
        Status::Usage,
        USAGE,
    ),
    ("--sample 0", None, &["a.js"], Status::Usage, USAGE),
    ("--sample 3 x", None, &["a.js"], Status::Usage, USAGE),
    (
        "--sample 3",
        None,
        &["a.js"],
        Status::Done,
        "sample 3\nread 132\nwritten 132\n",
    ),
];

// Words, a script of neither form, the status and what is written: the files are `a.js` and `c.js`.
pub const SCRIPT_RUNS: [(&str, &str, Status, &str); 12] = [
    (
        "-t s.js --fuel 1000 a.js c.js",
        COUNTING,
        Status::Done,
        "skipped a.js\nskipped c.js\nerrors 0\nunmodified 0\nskipped 2\nok 0\n",
    ),
    (
        "-t s.js --fuel 999 --fail-on-error a.js",
        COUNTING,
        Status::HadErrors,
        "error a.js: fuel spent\nerrors 1\nunmodified 0\nskipped 0\nok 0\n",
    ),
    (
        "-t s.js --fuel 1000 a.js",
        "module.exports = () => { while (true) {} };",
        Status::Done,
        "error a.js: fuel spent\nerrors 1\nunmodified 0\nskipped 0\nok 0\n",
    ),
    (
        "-t s.js -p a.js",
        NAMING,
        Status::Done,
        "ok a.js\ntext 10\nfoo(b, b);\nerrors 0\nunmodified 0\nskipped 0\nok 1\n",
    ),
    (
        "-t s.js -d -p --quote single a.js",
        INSERTING,
        Status::Done,
        "ok a.js\ntext 18\nfoo(a, b);\nf('x');\nerrors 0\nunmodified 0\nskipped 0\nok 1\n",
    ),
    (
        "-t s.js -d a.js",
        ANY_PRINTING,
        Status::Done,
        "unmodified a.js\nerrors 0\nunmodified 1\nskipped 0\nok 0\n",
    ),
    (
        "-t s.js a.js",
        "module.exports = ;",
        Status::NoScript,
        "script s.js: syntax Unexpected at 17\n",
    ),
    (
        "-t s.js a.js",
        "module.exports = () => { return this; };",
        Status::NoScript,
        "script s.js: form Subset at 32\n",
    ),
    (
        "-t s.js a.js",
        "module.exports = () => y;",
        Status::NoScript,
        "script s.js: form NoName at 23\n",
    ),
    (
        "-t s.js a.js",
        "let x; let x; module.exports = x;",
        Status::NoScript,
        "script s.js: form Twice at 11\n",
    ),
    (
        "-t s.js a.js",
        "let x;",
        Status::NoScript,
        "script s.js: form NoExport at 6\n",
    ),
    (
        "-t s.js a.js",
        "const x = 1; module.exports = () => { x = 2; };",
        Status::NoScript,
        "script s.js: form ConstWrite at 38\n",
    ),
];

// Scripts that are no text of a source: a front, a piece so many times, and what is written.
pub const NO_TEXTS: [(&[u8], u8, u32, &str); 3] = [
    (b"abc\xFF", b' ', 9, "script s.js: not UTF-8 at 3\n"),
    (
        b"",
        b' ',
        2_097_152,
        "script s.js: form NoExport at 2097152\n",
    ),
    (
        b"",
        b' ',
        2_097_153,
        "script s.js: longer than 2097152 bytes\n",
    ),
];

// What stands at a limit and beyond it: a front, a piece so many times, a back, and the row's front.
pub const LIMITS: [(&str, &str, u32, &str, &str); 7] = [
    ("a", ".a", 997, ";", "ok a.js\ntext 1996\n"),
    ("a", ".a", 998, ";", "error a.js: syntax Nesting at "),
    ("let a", ".a", 1, "", "error a.js: syntax Unexpected at 5\n"),
    ("", " ", 2_097_152, "", "unmodified a.js\n"),
    (
        "",
        " ",
        2_097_153,
        "",
        "error a.js: longer than 2097152 bytes\n",
    ),
    ("", "a;", 1_000_000, "", "ok a.js\ntext 2000000\n"),
    (
        "",
        "a;",
        1_000_001,
        "",
        "error a.js: script ListLong at 32\n",
    ),
];

//! Scripts that change a tree: what goes in, and the rows that come out.

// It names each identifier `a` `b`.
pub const NAMING: &str =
    "module.exports = (file, { j }) => { const root = j(file.source); root.find(j.Identifier, { name: 'a' }).forEach(p => { p.node.name = 'b'; }); return root.toSource(); };";

// It puts a statement behind the first one.
pub const INSERTING: &str =
    "module.exports = (file, { j }) => { const root = j(file.source); root.find(j.ExpressionStatement).at(0).insertAfter(() => j.expressionStatement(j.callExpression(j.identifier('f'), [j.literal('x')]))); return root.toSource(); };";

const REMOVING: &str =
    "module.exports = (file, { j }) => { const root = j(file.source); root.find(j.DebuggerStatement).remove(); return root.toSource(); };";

// It names each identifier as a reserved word.
const MISNAMING: &str =
    "module.exports = (file, { j }) => { const root = j(file.source); root.find(j.Identifier).forEach(p => { p.node.name = 'if'; }); return root.toSource(); };";

const EMPTYING: &str =
    "module.exports = (file, { j }) => { const root = j(file.source); root.get().prune(); return root.toSource(); };";

// It renames each identifier, and gives it its name back.
const UNDOING: &str =
    "module.exports = (file, { j }) => { const root = j(file.source); root.find(j.Identifier).forEach(p => { const name = p.node.name; p.node.name = 'z'; p.node.name = name; }); return root.toSource(); };";

// It puts a sum in the place of each identifier `a`.
const ADDING: &str =
    "module.exports = (file, { j }) => { const root = j(file.source); root.find(j.Identifier, { name: 'a' }).replaceWith(() => j.binaryExpression('+', j.identifier('b'), j.identifier('c'))); return root.toSource(); };";

// It puts the second argument of each call before the first.
const EXCHANGING: &str =
    "module.exports = (file, { j }) => { const root = j(file.source); root.find(j.CallExpression).forEach(p => { const all = p.node.arguments; p.node.arguments = [all[1], all[0]]; }); return root.toSource(); };";

const COMMENTING: &str =
    "module.exports = (file, { j }) => { const root = j(file.source); root.find(j.ExpressionStatement).forEach(p => { p.node.comments = [j.commentLine(' new', true, false)]; }); return root.toSource(); };";

// It puts 1,001 nodes below each other in the place of each identifier `a`.
pub const DEEPENING: &str =
    "module.exports = (file, { j }) => { const root = j(file.source); let e = j.identifier('b'); let i = 0; while (i < 1000) { e = j.memberExpression(e, j.identifier('c')); i += 1; } root.find(j.Identifier, { name: 'a' }).replaceWith(e); return root.toSource(); };";

// Scripts, sources, and the rows of dry runs over one file.
pub const CHANGES: [(&str, &[u8], &str); 23] = [
    (
        NAMING,
        b"foo(a, 1 +  2);",
        "ok a.js\ntext 15\nfoo(b, 1 +  2);\n",
    ),
    (
        NAMING,
        b"// one\nf(a); /* two */\n\n  g( a.a );\n",
        "ok a.js\ntext 36\n// one\nf(b); /* two */\n\n  g( b.b );\n\n",
    ),
    (NAMING, b"x = { a };", "ok a.js\ntext 10\nx = { b };\n"),
    (NAMING, b"c;", "unmodified a.js\n"),
    // An export of a declaration ends as that does.
    (
        NAMING,
        b"export function a() {}\n;c",
        "ok a.js\ntext 25\nexport function b() {}\n;c\n",
    ),
    (
        NAMING,
        b"export class a {} a",
        "ok a.js\ntext 19\nexport class b {} b\n",
    ),
    (
        NAMING,
        b"`${a}\n a`;\r\n\tif (a) { a }\r\n",
        "ok a.js\ntext 27\n`${b}\n a`;\r\n\tif (b) { b }\r\n\n",
    ),
    (
        INSERTING,
        b"a;\nb;\n",
        "ok a.js\ntext 14\na;\nf(\"x\");\nb;\n\n",
    ),
    (
        INSERTING,
        b"{\n  a;\n}\n",
        "ok a.js\ntext 19\n{\n  a;\n  f(\"x\");\n}\n\n",
    ),
    (
        REMOVING,
        b"a;\ndebugger;\nb;\n",
        "ok a.js\ntext 6\na;\nb;\n\n",
    ),
    (
        REMOVING,
        b"debugger;\n// kept\nb;\n",
        "ok a.js\ntext 11\n// kept\nb;\n\n",
    ),
    (REMOVING, b"debugger;", "ok a.js\ntext 0\n\n"),
    (REMOVING, b"a;", "unmodified a.js\n"),
    (MISNAMING, b"a;", "error a.js: bad node /0/0 Name\n"),
    (MISNAMING, b"f(1, a);", "error a.js: bad node /0/0/0 Name\n"),
    (EMPTYING, b"a;", "error a.js: bad node / Missing\n"),
    (UNDOING, b"x = a+b;", "unmodified a.js\n"),
    (
        ADDING,
        b"x = a * c;",
        "ok a.js\ntext 16\nx = (b + c) * c;\n",
    ),
    (ADDING, b"f(a);", "ok a.js\ntext 9\nf(b + c);\n"),
    (ADDING, b"b ?? a", "ok a.js\ntext 10\nb ?? b + c\n"),
    (
        EXCHANGING,
        b"f(a , /* c */ b);",
        "ok a.js\ntext 16\nf(/* c */ b, a);\n",
    ),
    (COMMENTING, b"a;\n", "ok a.js\ntext 10\n// new\na;\n\n"),
    (COMMENTING, b"", "unmodified a.js\n"),
];

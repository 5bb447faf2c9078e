//! How changed text is laid out: what a script does, a source, and its text afterwards.

// The scripts stand in a function over the file, with `j` and `root`.
pub const LAYOUTS: [(&str, &str, &str); 40] = [
    // block of a hanging head
    (
        "root.find(j.CallExpression, { callee: { name: \"b\" } }).closest(j.ExpressionStatement).insertBefore(j.expressionStatement(j.callExpression(j.identifier(\"n\"), [])));",
        "if (a) {\n  x();\n} else if (foo &&\n           bar) {\n  b();\n}\n",
        "if (a) {\n  x();\n} else if (foo &&\n           bar) {\n  n();\n  b();\n}\n",
    ),
    // head joined body stays
    (
        "const f = root.find(j.FunctionDeclaration).nodes()[0]; f.params = f.params.slice(0, 1);",
        "function foo(a,\n             b) {\n  if (a) {\n    b();\n  }\n}\n",
        "function foo(a) {\n  if (a) {\n    b();\n  }\n}\n",
    ),
    // unit of the list around
    (
        "root.find(j.ExpressionStatement).insertAfter(j.ifStatement(j.identifier(\"x\"), j.blockStatement([j.expressionStatement(j.callExpression(j.identifier(\"n\"), []))]), j.blockStatement([j.expressionStatement(j.callExpression(j.identifier(\"m\"), []))])));",
        "function f() {\n  a();\n}\n",
        "function f() {\n  a();\n  if (x) {\n    n();\n  } else {\n    m();\n  }\n}\n",
    ),
    // tabs
    (
        "root.find(j.CallExpression, { callee: { name: \"b\" } }).closest(j.ExpressionStatement).insertBefore(j.ifStatement(j.identifier(\"x\"), j.blockStatement([j.expressionStatement(j.callExpression(j.identifier(\"n\"), []))])));",
        "function f() {\n\ta();\n\tb();\n}\n",
        "function f() {\n\ta();\n\tif (x) {\n\t\tn();\n\t}\n\tb();\n}\n",
    ),
    // crlf
    (
        "root.find(j.Property).at(0).insertAfter(j.property(\"init\", j.identifier(\"n\"), j.literal(3)));",
        "f({\r\n  a: 1, // one\r\n\r\n  b: 2\r\n});\r\n",
        "f({\r\n  a: 1, // one\r\n  n: 3,\r\n\r\n  b: 2\r\n});\r\n",
    ),
    // import after the last
    (
        "root.find(j.ImportDeclaration).at(-1).insertAfter(j.importDeclaration([j.importDefaultSpecifier(j.identifier(\"c\"))], j.literal(\"c\")));",
        "import a from 'a';\nimport b from 'b';\n\nrun(a, b);\n",
        "import a from 'a';\nimport b from 'b';\nimport c from 'c';\n\nrun(a, b);\n",
    ),
    // import before the first
    (
        "root.find(j.ImportDeclaration).at(0).insertBefore(j.importDeclaration([j.importDefaultSpecifier(j.identifier(\"c\"))], j.literal(\"c\")));",
        "// license\n\n// about a\nimport a from 'a';\n\nrun(a);\n",
        "import c from 'c';\n// license\n\n// about a\nimport a from 'a';\n\nrun(a);\n",
    ),
    // statement removed blank before
    (
        "root.find(j.CallExpression, { callee: { name: \"b\" } }).closest(j.ExpressionStatement).remove();",
        "a();\n\n// about b\nb(); // b\nc();\n",
        "a();\n\nc();\n",
    ),
    // one line block
    (
        "root.find(j.ReturnStatement).insertBefore(j.expressionStatement(j.callExpression(j.identifier(\"log\"), [])));",
        "if (err) { return cb(err) }\n",
        "if (err) { log(); return cb(err) }\n",
    ),
    // body unwrapped
    (
        "root.find(j.IfStatement).replaceWith(p => p.node.consequent.body.slice(0));",
        "a();\n\nif (ON) {\n  // do b\n  b();\n\n  c({\n    x: 1\n  }); // see\n}\nd();\n",
        "a();\n\n// do b\nb();\n\nc({\n  x: 1\n}); // see\nd();\n",
    ),
    // method after the last
    (
        "root.find(j.MethodDefinition).at(-1).insertAfter(j.methodDefinition(\"method\", j.identifier(\"m\"), j.functionExpression(null, [], j.blockStatement([j.returnStatement(j.literal(2))]))));",
        "class A {\n  a() {\n    return 1;\n  }\n\n  b() {}\n}\n",
        "class A {\n  a() {\n    return 1;\n  }\n\n  b() {}\n\n  m() {\n    return 2;\n  }\n}\n",
    ),
    // switch
    (
        "root.find(j.SwitchCase).forEach(p => { p.node.consequent.unshift(j.expressionStatement(j.callExpression(j.identifier(\"d\"), []))); }); root.find(j.SwitchCase).at(-1).insertAfter(j.switchCase(null, [j.breakStatement()]));",
        "switch (a) {\n  case 1: // one\n    b();\n    break;\n\n  case 2: return c;\n\n  case 3:\n}\n",
        "switch (a) {\n  case 1: // one\n    d();\n    b();\n    break;\n\n  case 2: d(); return c;\n\n  case 3:\n    d();\n\n  default:\n    break;\n}\n",
    ),
    // property after a trailing comma
    (
        "root.find(j.ObjectExpression).nodes()[0].properties.push(j.property(\"init\", j.identifier(\"c\"), j.literal(3)));",
        "f({\n  a: 1,\n  b: 2,\n});\n",
        "f({\n  a: 1,\n  b: 2,\n  c: 3,\n});\n",
    ),
    // property after a line comment
    (
        "root.find(j.ObjectExpression).nodes()[0].properties.push(j.property(\"init\", j.identifier(\"c\"), j.literal(3)));",
        "f({\n  a: 1, // one\n  b: 2 // two\n});\n",
        "f({\n  a: 1, // one\n  b: 2, // two\n  c: 3\n});\n",
    ),
    // last property removed
    (
        "root.find(j.Property, { key: { name: \"b\" } }).remove();",
        "f({\n  a: 1, // one\n\n  // about b\n  b: 2 // two\n});\n",
        "f({\n  a: 1 // one\n});\n",
    ),
    // properties reversed
    (
        "root.find(j.ObjectExpression).forEach(p => { p.node.properties = p.node.properties.slice(0).reverse(); });",
        "f({\n  // about a\n  a: 1,\n  b: 2, // two\n\n  c() {\n    d();\n  }\n});\n",
        "f({\n  c() {\n    d();\n  },\n  b: 2, // two\n  // about a\n  a: 1\n});\n",
    ),
    // call made anew
    (
        "root.find(j.NewExpression).replaceWith(p => j.callExpression(p.node.callee, p.node.arguments));",
        "throw new Error(\n  'long text'\n);\n",
        "throw Error(\n  'long text'\n);\n",
    ),
    // specifiers
    (
        "root.find(j.ImportDeclaration).forEach(p => { p.node.specifiers.push(j.importSpecifier(j.identifier(\"z\"), j.identifier(\"z\"))); });",
        "import {a, b} from 'm'\nimport {\n  c,\n  d,\n} from 'n'\nimport e from 'o'\n",
        "import {a, b, z} from 'm'\nimport {\n  c,\n  d,\n  z,\n} from 'n'\nimport e, { z } from 'o'\n",
    ),
    // arguments filled
    (
        "root.find(j.Literal, { value: 3 }).remove();",
        "x = [1, 2, 3,\n     4, 5, 6];\n",
        "x = [1, 2,\n     4, 5, 6];\n",
    ),
    // comma first
    (
        "root.find(j.Property, { key: { name: \"b\" } }).insertAfter(j.property(\"init\", j.identifier(\"d\"), j.literal(4)));",
        "x = { a: 1\n    , b: 2 // two\n    , c: 3\n    };\n",
        "x = { a: 1\n    , b: 2 // two\n    , d: 4\n    , c: 3\n    };\n",
    ),
    // declarators
    (
        "root.find(j.VariableDeclaration).forEach(p => { p.node.kind = \"let\"; });",
        "var a = 1, // one\n    b = {\n      c: 1\n    }\nfoo()\n",
        "let a = 1, // one\n    b = {\n      c: 1\n    }\nfoo()\n",
    ),
    // declarations split
    (
        "root.find(j.VariableDeclaration).replaceWith(p => { const made = p.node.declarations.map(d => j.variableDeclaration(\"var\", [d])); made[0].comments = p.node.comments; return made; });",
        "/** Doc. */\nvar a = 1,\n    b = {\n      c: 1\n    };\n\nfoo();\n",
        "/** Doc. */\nvar a = 1;\nvar b = {\n  c: 1\n};\n\nfoo();\n",
    ),
    // hole
    (
        "root.find(j.ArrayExpression).forEach(p => { p.node.elements.push(j.identifier(\"c\")); });",
        "x = [\n  a,\n  , b,\n];\n",
        "x = [\n  a,\n  , b,\n  c,\n];\n",
    ),
    // parameters
    (
        "root.find(j.ArrowFunctionExpression).forEach(p => { p.node.params = p.node.params.slice(0, 1); }); root.find(j.FunctionDeclaration).forEach(p => { p.node.params.push(j.identifier(\"n\")); });",
        "const f = (a, b) => a;\nfunction g () {}\nfunction h ( a ) {}\n",
        "const f = (a) => a;\nfunction g (n) {}\nfunction h ( a, n ) {}\n",
    ),
    // comment added
    (
        "const f = root.find(j.FunctionDeclaration).nodes(); f[0].comments = f[0].comments.concat([j.commentBlock(\"* doc \", true, false)]); f[1].comments = [j.commentLine(\" new\", true, false)]; f[2].comments = null;",
        "// license\n\nfunction f() {}\n\n// old\n\nfunction g() {}\n\n// gone\nfunction h() {}\n",
        "// license\n\n/** doc */\nfunction f() {}\n\n// new\n\nfunction g() {}\n\nfunction h() {}\n",
    ),
    // operator
    (
        "root.find(j.BinaryExpression).forEach(p => { p.node.operator = \"===\"; });",
        "if (a==b && c ==\n    d) {\n  e();\n}\n",
        "if (a===b && c ===\n    d) {\n  e();\n}\n",
    ),
    // links
    (
        "root.find(j.AssignmentExpression).forEach(p => { p.node.right = j.callExpression(j.memberExpression(p.node.right, j.identifier(\"catch\")), [j.identifier(\"f\")]); }); root.find(j.IfStatement).forEach(p => { p.node.test = j.logicalExpression(\"&&\", p.node.test, j.identifier(\"g\")); });",
        "x = p\n  .then(a)\n  .then(b);\nif (c &&\n    d) e();\n",
        "x = p\n  .then(a)\n  .then(b)\n  .catch(f);\nif (c &&\n    d &&\n    g) e();\n",
    ),
    // quotes
    (
        "root.find(j.ImportDeclaration).forEach(p => { p.node.source.value = \"./c\"; }); root.find(j.CallExpression).forEach(p => { p.node.arguments[0] = j.literal(\"./d\"); p.node.arguments.push(j.literal(\"e\")); });",
        "import a from './a';\nconst b = require(\"./b\");\n",
        "import a from './c';\nconst b = require(\"./d\", 'e');\n",
    ),
    // made object of lines
    (
        "root.find(j.CallExpression, { callee: { name: \"serve\" } }).forEach(p => { const a = p.node.arguments.slice(0); p.node.arguments = [j.objectExpression([j.property(\"init\", j.identifier(\"port\"), a[0]), j.property(\"init\", j.identifier(\"ready\"), a[1])])]; });",
        "serve(8080, function () {\n  log('up');\n});\n",
        "serve({\n  port: 8080,\n  ready: function () {\n    log('up');\n  }\n});\n",
    ),
    // made object hugged
    (
        "root.find(j.CallExpression, { callee: { name: \"serve\" } }).forEach(p => { const a = p.node.arguments.slice(0); p.node.arguments = [j.objectExpression([j.property(\"init\", j.identifier(\"port\"), a[0]), j.property(\"init\", j.identifier(\"host\"), a[1])])]; });",
        "const o = {\n  a: 1,\n};\nserve(\n  8080,\n  { log: o, name: 'localhost' },\n);\n",
        "const o = {\n  a: 1,\n};\nserve({\n  port: 8080,\n  host: { log: o, name: 'localhost' },\n});\n",
    ),
    // link over a call
    (
        "root.find(j.CallExpression, { callee: { property: { name: \"done\" } } }).replaceWith(p => j.callExpression(j.memberExpression(p.node.callee.object, j.identifier(\"then\")), p.node.arguments));",
        "get('a')\n  .done(function (x) {\n    f(x);\n  })\n  .last();\n",
        "get('a')\n  .then(function (x) {\n    f(x);\n  })\n  .last();\n",
    ),
    // export default wrapped
    (
        "root.find(j.ExportDefaultDeclaration).forEach(p => { const c = p.node.declaration; p.insertBefore(j.classDeclaration(c.id, c.body, c.superClass)); p.node.declaration = j.callExpression(j.identifier(\"wrap\"), [j.identifier(\"List\")]); });",
        "import { wrap } from 'w';\n\n// The list.\nexport default class List {}\n",
        "import { wrap } from 'w';\n\nclass List {}\n\n// The list.\nexport default wrap(List);\n",
    ),
    // tabs at the margin
    (
        "root.find(j.ReturnStatement).insertBefore(j.expressionStatement(j.callExpression(j.identifier(\"n\"), [])));",
        "function g() {\n\ta();\n\tb();\n}\nfunction f() {\n\treturn c;\n}\nif (x) y = function () { return 1; };\n",
        "function g() {\n\ta();\n\tb();\n}\nfunction f() {\n\tn();\n\treturn c;\n}\nif (x) y = function () { n(); return 1; };\n",
    ),
    // items made of neighbours
    (
        "root.find(j.FunctionDeclaration).replaceWith(p => j.exportNamedDeclaration(p.node, []));",
        "function a() {\n  x();\n}\n\nfunction b() {\n  y();\n}\nfunction c() {}\n",
        "export function a() {\n  x();\n}\n\nexport function b() {\n  y();\n}\nexport function c() {}\n",
    ),
    // one line block broken
    (
        "root.find(j.ReturnStatement).insertBefore(j.ifStatement(j.identifier(\"p\"), j.blockStatement([j.expressionStatement(j.callExpression(j.identifier(\"n\"), []))])));",
        "const o = {\n  f() { return 1; },\n};\n",
        "const o = {\n  f() {\n    if (p) {\n      n();\n    }\n    return 1;\n  },\n};\n",
    ),
    // brace on its own line
    (
        "root.find(j.FunctionExpression).replaceWith(p => j.arrowFunctionExpression(p.node.params, p.node.body));",
        "on('x', function (a, b)\n{\n  c(a);\n});\n",
        "on('x', (a, b) =>\n{\n  c(a);\n});\n",
    ),
    // lone comment of a block
    (
        "root.find(j.IfStatement).forEach(p => { p.node.consequent.body.push(j.expressionStatement(j.callExpression(j.identifier(\"n\"), []))); });",
        "if (a) {\n  // nothing\n}\nelse {\n  b();\n}\n",
        "if (a) {\n  n();\n  // nothing\n}\nelse {\n  b();\n}\n",
    ),
    // unwrapped on one line
    (
        "root.find(j.IfStatement).replaceWith(p => p.node.consequent.body.slice(0));",
        "a();\nif (ON) { b(); c(); }\nd();\n",
        "a();\nb();\nc();\nd();\n",
    ),
    // first item moved down
    (
        "root.find(j.ClassBody).forEach(p => { p.node.body.unshift(j.methodDefinition(\"method\", j.identifier(\"n\"), j.functionExpression(null, [], j.blockStatement([])))); });",
        "class A {\n  a() {}\n\n  b() {}\n\n  c() {}\n}\n",
        "class A {\n  n() {}\n\n  a() {}\n\n  b() {}\n\n  c() {}\n}\n",
    ),
    // file without semicolons
    (
        "root.find(j.ReturnStatement).insertBefore(j.expressionStatement(j.callExpression(j.identifier(\"n\"), []))); root.find(j.FunctionDeclaration).insertAfter(j.variableDeclaration(\"const\", [j.variableDeclarator(j.identifier(\"z\"), j.arrayExpression([]))]));",
        "const a = b\n\nfunction f(x) {\n  g(x)\n  return x\n}\n\nh(a)\n",
        "const a = b\n\nfunction f(x) {\n  g(x)\n  n()\n  return x\n}\nconst z = []\n\nh(a)\n",
    ),
];

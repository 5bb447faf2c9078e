//! Sources with the texts that are made of their trees, each read again as the same tree.

use cm_text::{Layout, LineEnd, Quote, Source};
use generic_printer::print;
use js_forms::{Category, Context, Place, SEQUENCE, Scope};
use js_source::parse;
use std::alloc::Global;
use tree_core::{Parsed, Tree, same};

// What is shown, a source, and its made text.
type Row = (&'static str, &'static str, &'static str);

// Texts in the usual layout.
const USUAL: &[Row] = &[
    ("empty", "", ""),
    (
        "interpreter",
        "#!/usr/bin/env node\n// a\nb",
        "#!/usr/bin/env node\n// a\nb;",
    ),
    (
        "joins",
        concat!(
            "- -x; + +x; - --x; a - -b; a+ ++b; typeof typeof a; a in b; !(!a); a / /b/; 1 .a;",
            " 1.5.a; a ? .5 : 1"
        ),
        concat!(
            "- -x;\n+ +x;\n- --x;\na - -b;\na + ++b;\ntypeof typeof a;\na in b;\n!!a;\n",
            "a / /b/;\n1 .a;\n1.5.a;\na ? .5 : 1;"
        ),
    ),
    (
        "operators",
        concat!(
            "a+b*c;(a+b)*c;a-(b-c);a**b**c;(a**b)**c;(-a)**b;a<b in c;void(a,b);!(a&&b);",
            "(a??b)||c;a||(b??c);a&&b||c"
        ),
        concat!(
            "a + b * c;\n(a + b) * c;\na - (b - c);\na ** b ** c;\n(a ** b) ** c;\n(-a) ** b;\n",
            "a < b in c;\nvoid (a, b);\n!(a && b);\n(a ?? b) || c;\na || (b ?? c);\n",
            "a && b || c;"
        ),
    ),
    (
        "assignments",
        concat!(
            "a=b=c,d+=e;a&&=b||=c??=d;(a?b:c)?d:e;a?b:c?d:e;a=(b,c);({a}=b);[a,b=1,...c]=d;",
            "[a.b,{c:d.e,...f}]=(g,h)"
        ),
        concat!(
            "a = b = c, d += e;\na &&= b ||= c ??= d;\n(a ? b : c) ? d : e;\n",
            "a ? b : c ? d : e;\na = (b, c);\n({ a } = b);\n[a, b = 1, ...c] = d;\n",
            "[a.b, { c: d.e, ...f }] = (g, h);"
        ),
    ),
    (
        "updates",
        "++a;--b.c;d++;(e)--;delete a[b];typeof-a;await a;(await a)();-(await a)",
        concat!(
            "++a;\n--b.c;\nd++;\ne--;\ndelete a[b];\ntypeof -a;\nawait a;\n(await a)();\n",
            "-await a;"
        ),
    ),
    (
        "chains",
        concat!(
            "a?.b.c(d)[e];(a?.b).c;a?.[b]?.(c);(a?.b)();new(a())(b);new(a.b().c);new a.b;",
            "new new a()();new(a?.b)"
        ),
        concat!(
            "a?.b.c(d)[e];\n(a?.b).c;\na?.[b]?.(c);\n(a?.b)();\nnew (a())(b);\n",
            "new (a.b().c)();\nnew a.b();\nnew new a()();\nnew (a?.b)();"
        ),
    ),
    (
        "calls",
        concat!(
            "a(b,(c,d),...e);(()=>f)();(function(){})();(async()=>{})();import('a').b;",
            "import.meta.c;new.target;super.a;super[b](c)"
        ),
        concat!(
            "a(b, (c, d), ...e);\n(() => f)();\n(function () {})();\n(async () => {})();\n",
            "import(\"a\").b;\nimport.meta.c;\nnew.target;\nsuper.a;\nsuper[b](c);"
        ),
    ),
    (
        "objects",
        concat!(
            "({a,b:1,'c':2,3:4,[d]:e,...f});",
            "({g(){},get h(){return 1},set i(j){},async k(){},*l(){},async*m(){}})"
        ),
        concat!(
            "({ a, b: 1, \"c\": 2, 3: 4, [d]: e, ...f });\n({\n    g() {},\n    get h() {\n",
            "        return 1;\n    },\n    set i(j) {},\n    async k() {},\n    *l() {},\n",
            "    async *m() {}\n});"
        ),
    ),
    (
        "arrays",
        "[,a,,b,];[,];[...a,];[[],[b]];f([],{})",
        "[, a, , b];\n[,];\n[...a];\n[[], [b]];\nf([], {});",
    ),
    (
        "templates",
        "`a${b}c${`d${e}`}\n`;f`\\u`;`${a,b}`;a.b`c`;new(a`b`);(a,b)`c`",
        "`a${b}c${`d${e}`}\n`;\nf`\\u`;\n`${a, b}`;\na.b`c`;\nnew a`b`();\n(a, b)`c`;",
    ),
    (
        "strings",
        concat!(
            "'use strict';\"a'b\";'c\"d';e='f\"g\\'h\\n\\u2028\\x01\\ud800';({'i':'j'});('k');",
            "'l'.m"
        ),
        concat!(
            "\"use strict\";\n\"a'b\";\n'c\"d';\ne = \"f\\\"g'h\\n\\u2028\\x01\\ud800\";\n",
            "({ \"i\": \"j\" });\n\"k\";\n\"l\".m;"
        ),
    ),
    (
        "arrows",
        concat!(
            "x=>x;(x)=>({});(x,y)=>{};([x])=>x;(x=1)=>x;(...x)=>x;async x=>x;",
            "async(x,y)=>await x;a=>b=>c;(a=>b)?c:d;a=>(b,c);a=>({b}={}),c"
        ),
        concat!(
            "x => x;\nx => ({});\n(x, y) => {};\n([x]) => x;\n(x = 1) => x;\n(...x) => x;\n",
            "async x => x;\nasync (x, y) => await x;\na => b => c;\n(a => b) ? c : d;\n",
            "a => (b, c);\na => ({ b } = {}), c;"
        ),
    ),
    (
        "comments_in_arrows",
        concat!(
            "(/* a */)=>/* b */x;(/* c */)=>{/* d */};async(/* e */)=>x;async/* f */x=>x;",
            "x/* g */=>x;(x/* h */,)=>{y};(/* i */x,/* j */y/* k */)=>z/* l */"
        ),
        concat!(
            "() => /* a */ /* b */ x;\n() => /* c */ {/* d */};\nasync () => /* e */ x;\n",
            "async (/* f */ x) => x;\nx => /* g */ x;\nx => /* h */ {\n    y;\n};\n",
            "(/* i */ x, /* j */ y) => /* k */ z; /* l */"
        ),
    ),
    (
        "comments_in_arrow_calls",
        concat!(
            "a((/* b */)=>/* c */d,/* e */)(f=>// g\nh);(/* i\n */)=>(// j\n{});",
            "k=>/* l */(m,n)/* o */"
        ),
        concat!(
            "a(() => /* b */ /* c */ d /* e */)((f // g\n) => h);\n() => /* i\n */ // j\n",
            "({});\nk => /* l */ (m, n); /* o */"
        ),
    ),
    (
        "functions",
        concat!(
            "function a(b,c=1,{d},[e],...f){}function*g(){yield;yield a;yield*b;",
            "c=yield}async function h(){await i}async function*j(){}(function k(){});",
            "l=function*(){}"
        ),
        concat!(
            "function a(b, c = 1, { d }, [e], ...f) {}\nfunction* g() {\n    yield;\n",
            "    yield a;\n    yield* b;\n    c = yield;\n}\nasync function h() {\n",
            "    await i;\n}\nasync function* j() {}\n(function k() {});\nl = function* () {};"
        ),
    ),
    (
        "classes",
        concat!(
            "class A{}class B extends a.b{}(class{});c=class D extends(e,f){};",
            "class G extends(h=>i){}"
        ),
        concat!(
            "class A {}\nclass B extends a.b {}\n(class {});\nc = class D extends (e, f) {};\n",
            "class G extends (h => i) {}"
        ),
    ),
    (
        "members",
        concat!(
            "class A{b;static c=1;",
            "d(){e}static f(){}get g(){return 1}set h(i){}async j(){}*k(){}static async*l(){}",
            "constructor(){}[m](){}'n'=(o,p);1(){}}"
        ),
        concat!(
            "class A {\n    b;\n\n    static c = 1;\n\n    d() {\n        e;\n    }\n\n",
            "    static f() {}\n\n    get g() {\n        return 1;\n    }\n\n    set h(i) {}\n",
            "\n    async j() {}\n\n    *k() {}\n\n    static async *l() {}\n\n",
            "    constructor() {}\n\n    [m]() {}\n\n    \"n\" = (o, p);\n\n    1() {}\n}"
        ),
    ),
    (
        "private_members",
        concat!(
            "class A{#b=1;#c(){return #b in this&&this.#b}static #d;get #e(){return 1}static{a;",
            "var f}static{}}"
        ),
        concat!(
            "class A {\n    #b = 1;\n\n    #c() {\n        return #b in this && this.#b;\n",
            "    }\n\n    static #d;\n\n    get #e() {\n        return 1;\n    }\n\n",
            "    static {\n        a;\n        var f;\n    }\n\n    static {}\n}"
        ),
    ),
    (
        "fields",
        "class A{get;set;static;async;static static;get\n*b(){}'c';in}",
        concat!(
            "class A {\n    get;\n\n    set;\n\n    static;\n\n    async;\n\n",
            "    static static;\n\n    get;\n\n    *b() {}\n\n    \"c\";\n\n    in;\n}"
        ),
    ),
    (
        "conditions",
        "if(a)b;else if(c){d}else{e}if(a)if(b)c;else d;if(a){if(b)c}else d;if(a);else;",
        concat!(
            "if (a) b; else if (c) {\n    d;\n} else {\n    e;\n}\nif (a) if (b) c; else d;\n",
            "if (a) {\n    if (b) c;\n} else d;\nif (a) ; else ;"
        ),
    ),
    (
        "loops",
        concat!(
            "for(;;);for(a=1;b;c)d;for(var a=1,b;;)c;for(let[a]=b;;){c}while(a)b;do{c}while(d);",
            "do e;while(f);while(a){}"
        ),
        concat!(
            "for (; ; ) ;\nfor (a = 1; b; c) d;\nfor (var a = 1, b; ; ) c;\nfor (let [a] = b; ;",
            " ) {\n    c;\n}\nwhile (a) b;\ndo {\n    c;\n} while (d);\ndo e; while (f);\n",
            "while (a) {}"
        ),
    ),
    (
        "loops_over",
        concat!(
            "for(a in b)c;for(var d of e){}for([a]of(b,c))d;for(a.b in c,d)e;",
            "for(({a}).b in c)d;for((async)of a)b;for(async in a)b;for await(c of d)e"
        ),
        concat!(
            "for (a in b) c;\nfor (var d of e) {}\nfor ([a] of (b, c)) d;\n",
            "for (a.b in c, d) e;\nfor ({ a }.b in c) d;\nfor ((async) of a) b;\n",
            "for (async in a) b;\nfor await (c of d) e;"
        ),
    ),
    (
        "in_in_heads",
        concat!(
            "for(var a=(b in c);;)d;for(var a=[b in c];;)d;for(var a=b?c in d:(e in f);;)g;",
            "for(a=()=>{b in c};;)d;for((a in b);;)c"
        ),
        concat!(
            "for (var a = (b in c); ; ) d;\nfor (var a = [b in c]; ; ) d;\n",
            "for (var a = b ? c in d : (e in f); ; ) g;\nfor (a = () => {\n    b in c;\n}; ;",
            " ) d;\nfor ((a in b); ; ) c;"
        ),
    ),
    (
        "statements",
        concat!(
            "a:for(;;){break a;continue a;break}with(b)c;debugger;throw d;{}{e;",
            "f}let g,h=1,[i]=j;const{k,l:m=1,...n}=o;if(p)var q"
        ),
        concat!(
            "a: for (; ; ) {\n    break a;\n    continue a;\n    break;\n}\nwith (b) c;\n",
            "debugger;\nthrow d;\n{}\n{\n    e;\n    f;\n}\nlet g, h = 1, [i] = j;\n",
            "const { k, l: m = 1, ...n } = o;\nif (p) var q;"
        ),
    ),
    (
        "switches",
        "switch(a){case b:c;d;case(e,f):default:g}switch(h){}switch(i){case j:{k}}",
        concat!(
            "switch (a) {\n    case b:\n        c;\n        d;\n    case e, f:\n    default:\n",
            "        g;\n}\nswitch (h) {}\nswitch (i) {\n    case j:\n        {\n",
            "            k;\n        }\n}"
        ),
    ),
    (
        "tries",
        "try{}catch{}try{a}catch(b){}finally{c}try{}finally{}try{}catch({d}){}",
        concat!(
            "try {} catch {}\ntry {\n    a;\n} catch (b) {} finally {\n    c;\n}\n",
            "try {} finally {}\ntry {} catch ({ d }) {}"
        ),
    ),
    (
        "starts",
        concat!(
            "(function(){})(),({a}={}),a;({}).a;(class{}).b;({a}=b);[a]=b;`a`;",
            "(function(){}).call(a)"
        ),
        concat!(
            "(function () {})(), { a } = {}, a;\n({}).a;\n(class {}).b;\n({ a } = b);\n",
            "[a] = b;\n`a`;\n(function () {}).call(a);"
        ),
    ),
    (
        "imports",
        concat!(
            "import'a';import b from'c';import*as d from'e';",
            "import{f,g as h,default as i}from'j';import k,{l}from'm';import n,*as o from'p';",
            "import{}from'q'"
        ),
        concat!(
            "import \"a\";\nimport b from \"c\";\nimport * as d from \"e\";\n",
            "import { f, g as h, default as i } from \"j\";\nimport k, { l } from \"m\";\n",
            "import n, * as o from \"p\";\nimport \"q\";"
        ),
    ),
    (
        "exports",
        concat!(
            "export{};export{a,b as c,d as default};export{e as if}from'f';export*from'g';",
            "export*as h from'i';export var j=1;export function k(){}export class L{}"
        ),
        concat!(
            "export {};\nexport { a, b as c, d as default };\nexport { e as if } from \"f\";\n",
            "export * from \"g\";\nexport * as h from \"i\";\nexport var j = 1;\n",
            "export function k() {}\nexport class L {}"
        ),
    ),
    (
        "defaults",
        concat!(
            "export default(class{});",
            "export default function(){}export default class{}export default(a,b);",
            "export default(function(){}).c;export default async()=>{}"
        ),
        concat!(
            "export default (class {});\nexport default function () {}\n",
            "export default class {}\nexport default (a, b);\n",
            "export default (function () {}).c;\nexport default async () => {};"
        ),
    ),
    (
        "loose_objects",
        concat!(
            "a={b(){c},d:[e,]};f({// g\nh,i},{j:function(){k},l:{m(){}}});({/* n */});",
            "({o:p=>{q}})"
        ),
        concat!(
            "a = {\n    b() {\n        c;\n    },\n    d: [e]\n};\nf({\n    // g\n    h,\n",
            "    i\n}, {\n    j: function () {\n        k;\n    },\n    l: { m() {} }\n});\n",
            "({/* n */});\n({\n    o: p => {\n        q;\n    }\n});"
        ),
    ),
    (
        "comments_beside_statements",
        "/* a */b/* c */;// d\n// e\nf;/* g */\n{/* h */}{i// j\n}// k",
        "/* a */\nb /* c */; // d\n// e\nf; /* g */\n{/* h */}\n{\n    i; // j\n} // k",
    ),
    (
        "comments_beside_words",
        concat!(
            "if(a)/* b */{/* c */d;/* e */}else/* f */g// h\nreturn// i\n;",
            "x=/* j */y/* k */+/* l */z/* m */"
        ),
        concat!(
            "if (a) /* b */ {\n    /* c */\n    d; /* e */\n} else /* f */ g; // h\n",
            "return// i\n;\nx = /* j */ y + /* k */ /* l */ z; /* m */"
        ),
    ),
    (
        "comments_in_lists",
        concat!(
            "f(/* a */b,// c\nd/* e */);[/* f */];[g/* h */,/* i */,j];f(/* k */);",
            "function l(/* m */){}([n// o\n,p]);import{/* q */r/* s */}from't'"
        ),
        concat!(
            "f(/* a */ b, // c\n    d /* e */);\n[/* f */];\n[g, , /* h */ /* i */ j];\n",
            "f /* k */();\nfunction l() /* m */ {}\n[n, // o\n    p];\n",
            "import { /* q */ r } from /* s */ \"t\";"
        ),
    ),
    (
        "comments_in_parentheses",
        concat!(
            "throw(/* a\n */b);x=(// c\ny);z\n/* w */++u;(/* d */e).f;/* g */({}).h;",
            "(i/* j */)();function*k(){yield/* l\n */m}"
        ),
        concat!(
            "throw (/* a\n */ b);\nx // c\n= y;\nz;\n/* w */\n++u;\n(/* d */ e).f;\n/* g */\n",
            "({}).h;\ni /* j */();\nfunction* k() {\n    yield; /* l\n */\n    m;\n}"
        ),
    ),
    (
        "comments_in_members",
        concat!(
            "class A{/* a */b;/* c */d(){}// e\n",
            "static/* f */async g(){}static/* h */i(){}get/* j */k(){}}"
        ),
        concat!(
            "class A {\n    /* a */\n    b;\n\n    /* c */\n    d() {} // e\n\n",
            "    static /* f */ async g() {}\n\n    static /* h */ i() {}\n\n",
            "    get /* j */ k() {}\n}"
        ),
    ),
    (
        "comments_in_templates",
        "`a${/* b */c/* d */}e`;`f${g// h\n}`",
        "`a${/* b */ c /* d */}e`;\n`f${g // h\n}`;",
    ),
    (
        "comments_in_modules",
        concat!(
            "import/* a */b/* c */from/* d */'e';export{/* f */g/* h */as i};",
            "switch(a){/* j */case b:/* k */c;/* l */default:/* m */}"
        ),
        concat!(
            "import /* a */ b from /* c */ /* d */ \"e\";\nexport { /* f */ g as /* h */ i };\n",
            "switch (a) {\n    /* j */\n    case b:\n        /* k */\n        c;\n    /* l */\n",
            "    default: /* m */\n}"
        ),
    ),
];

// Texts in a layout that differs in each choice.
const OTHER: &[Row] = &[
    (
        "loose_objects",
        concat!(
            "a={b(){c},d:[e,]};f({// g\nh,i},{j:function(){k},l:{m(){}}});({/* n */});",
            "({o:p=>{q}})"
        ),
        concat!(
            "a = {\n\tb() {\n\t\tc;\n\t},\n\td: [e,],\n};\nf({\n\t// g\n\th,\n\ti,\n}, {\n",
            "\tj: function () {\n\t\tk;\n\t},\n\tl: {m() {},},\n});\n({/* n */});\n({\n",
            "\to: (p) => {\n\t\tq;\n\t},\n});"
        ),
    ),
    (
        "arrows",
        concat!(
            "x=>x;(x)=>({});(x,y)=>{};([x])=>x;(x=1)=>x;(...x)=>x;async x=>x;",
            "async(x,y)=>await x;a=>b=>c;(a=>b)?c:d;a=>(b,c);a=>({b}={}),c"
        ),
        concat!(
            "(x) => x;\n(x) => ({});\n(x, y) => {};\n([x,]) => x;\n(x = 1) => x;\n",
            "(...x) => x;\nasync (x) => x;\nasync (x, y) => await x;\n(a) => (b) => c;\n",
            "((a) => b) ? c : d;\n(a) => (b, c);\n(a) => ({b,} = {}), c;"
        ),
    ),
    (
        "strings",
        concat!(
            "'use strict';\"a'b\";'c\"d';e='f\"g\\'h\\n\\u2028\\x01\\ud800';({'i':'j'});('k');",
            "'l'.m"
        ),
        concat!(
            "'use strict';\n\"a'b\";\n'c\"d';\ne = 'f\"g\\'h\\n\\u2028\\x01\\ud800';\n",
            "({'i': 'j',});\n'k';\n'l'.m;"
        ),
    ),
    (
        "imports",
        concat!(
            "import'a';import b from'c';import*as d from'e';",
            "import{f,g as h,default as i}from'j';import k,{l}from'm';import n,*as o from'p';",
            "import{}from'q'"
        ),
        concat!(
            "import 'a';\nimport b from 'c';\nimport * as d from 'e';\n",
            "import {f, g as h, default as i} from 'j';\nimport k, {l} from 'm';\n",
            "import n, * as o from 'p';\nimport 'q';"
        ),
    ),
    (
        "comments_in_lists",
        concat!(
            "f(/* a */b,// c\nd/* e */);[/* f */];[g/* h */,/* i */,j];f(/* k */);",
            "function l(/* m */){}([n// o\n,p]);import{/* q */r/* s */}from't'"
        ),
        concat!(
            "f(/* a */ b, // c\n\td /* e */);\n[/* f */];\n[g, , /* h */ /* i */ j,];\n",
            "f /* k */();\nfunction l() /* m */ {}\n[n, // o\n\tp,];\n",
            "import {/* q */ r} from /* s */ 't';"
        ),
    ),
];

const PROGRAM: Place = Place {
    category: Category::Expression,
    least: SEQUENCE,
    scope: Scope::Same,
};

// A layout that differs from the usual one in each choice.
const OTHER_LAYOUT: Layout = Layout {
    tab_width: 2,
    use_tabs: true,
    quote: Some(Quote::Single),
    trailing_comma: true,
    tight_braces: true,
    arrow_parens: true,
};

fn parsed_of(alloc: Global, text: &[u8]) -> Option<Parsed> {
    let mut bytes = Vec::new(alloc);
    bytes.extend_from_slice(text).ok()?;
    let source = Source::new(bytes).ok()?;
    parse(alloc, &source).ok()
}

fn made_of(alloc: Global, tree: &Tree, layout: Layout) -> Option<Vec<u8>> {
    let mut out = Vec::new(alloc);
    print(
        alloc,
        tree,
        PROGRAM,
        Context::outermost(),
        0,
        LineEnd::Lf,
        layout,
        &mut out,
    )
    .ok()?;
    Some(out)
}

// Whether the made text is the one that is wanted, and reads back as the same tree.
fn is_made(alloc: Global, row: &Row, layout: Layout) -> Option<bool> {
    let parsed = parsed_of(alloc, row.1.as_bytes())?;
    let made = made_of(alloc, &parsed.tree, layout)?;
    let again = parsed_of(alloc, made.as_slice())?;
    Some(made.as_slice() == row.2.as_bytes() && same(&parsed.tree, &again.tree))
}

// Tells which rows are made otherwise.
fn try_rows(rt: &HostRuntime, rows: &[Row], layout: Layout) -> bool {
    let mut all = true;
    for row in rows {
        if is_made(rt.alloc(), row, layout) != Some(true) {
            let _told = println!(rt; "{}", row.0);
            all = false;
        }
    }
    all
}

#[test]
fn makes_texts(rt: HostRuntime) {
    assert!(rt; try_rows(&rt, USUAL, Layout::usual()));
    assert!(rt; try_rows(&rt, OTHER, OTHER_LAYOUT));
}

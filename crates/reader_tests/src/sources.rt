//! Sources that are read, and sources that are refused at a place.

use cm_text::Source;
use js_lexer::Refusal;
use js_parser::program;
use std::alloc::Global;
use std::test::Fail;
use tree_core::Scalar;

// Where the text is refused; `None` where it is read.
fn refused(alloc: Global, text: &str) -> Result<Option<u32>, Fail> {
    let mut bytes = Vec::new(alloc);
    bytes.extend_from_slice(text.as_bytes())?;
    let Ok(source) = Source::new(bytes) else {
        return Ok(Some(9999));
    };
    match program(alloc, &source, 0, Scalar::Null) {
        Ok(_) => Ok(None),
        Err(Refusal::Syntax(fault)) => Ok(Some(fault.at)),
        Err(Refusal::NoMemory) => Ok(Some(8888)),
    }
}

#[test]
fn reads_programs(rt: HostRuntime) -> Result<(), Fail> {
    let cases: [&str; 73] = [
        "",
        "a;",
        "a\n++b",
        "a\n(b)",
        "do ; while (a) b",
        "function f() { return\nx }",
        "a\n/=b/c",
        "x = a * b;\ny = c + d;",
        "({a = 1}) => 0",
        "({a = 1} = b);",
        "[a, b = 1, ...c] = d;",
        "[a.b, {c: d.e, ...f[0]}] = g;",
        "({...(a)} = b); [(a), (b.c)] = d;",
        "() => {}; (a) => a; (a, b = 1, {c}, ...[d]) => 0; (a, ) => 1",
        "async () => { await a; }; async a => await a; async (a, ...b) => 1; async(a, ...b, c)",
        "async\n(a)",
        "(a, b), (c);",
        "new a; new a.b; new a.b(c).d; new new a()(); new (a())(); new a`b`; new.target",
        "a?.b.c?.[d]?.(e)(f); (a?.b).c; a?.5:1",
        "super.a; super[b](c); super(d)",
        "import.meta.a; import(\"a\").b",
        "`a${b}c${`d${e}`}`; f`\\u`;",
        "/a[/]b/g.test(c); a = /=/; b / c / d",
        "a ?? b ?? c; (a ?? b) || c; a || b && c; a ** b ** c; (-a) ** b",
        "a ? b : c ? d : e; a = b = c, d += e; a &&= b ||= c ??= d",
        "typeof void delete a.b; !a; -b; +c; ~d; ++e; --f.g; h++; i.j--",
        "a instanceof b in c < d",
        "({a, b: 1, 'c': 2, 3: 4, [d]: e, f() {}, get g() { return 1 }, set h(i) {}, async j() {}, *k() {}, async *l() {}, ...m})",
        "({get: 1, set: 2, async: 3, static: 4, get() {}, set() {}, async() {}, await: 5, if: 6})",
        "[, a, , b, ]; [,]; f(a, ...b, ); ({a, })",
        "'use strict'\n\"b\";\nfunction f() { 'c'; 'd' + e }",
        "('a'); 'b'",
        "'a'\n.length",
        "if (a) b; else c; if (a) if (b) c; else d",
        "for (;;) ; for (a = 1; b; c) d; for (var a = 1, b; ; ) c; for (let [a] = b; ; ) c",
        "for (a in b) c; for (var a in b) c; for (const {a} of b) c; for ([a] of b) c; for (a.b of c) d; for (({a}).b in c) d",
        "for await (const a of b) c; await d; (async function () { for await (a of b) ; })",
        "for (var a = (b in c); ; ) d; for (var a = [b in c]; ; ) d; for (var a = b ? c in d : e; ; ) f",
        "while (a) b\ndo { c } while (d); with (e) f; debugger; throw g",
        "a: for (;;) { break a; continue a; break\na } async: b; get: c",
        "switch (a) { case b: c; d; case e: default: f; case g: }",
        "try {} catch {} try {} catch (a) {} finally {} try {} finally {} try {} catch ({b}) {}",
        "var a, b = 1, [c] = d, {e, f: g = 1, ...h} = i; let j; const k = 1",
        "if (a) var b; else var c",
        "function f(a, b = 1, {c}, [d], ...e) {} function* g() { yield; yield a; yield* b; c = yield } async function h() {} async function* i() {}",
        "(function () {}); (function f() {}); (async function () {}); a = function* () {}",
        "class A {} class B extends A.c {} (class {}); (class D extends f() {})",
        "class A { a; b = 1; static c; static d = 2; e() {} static f() {} get g() { return 1 } set h(a) {} async i() {} *j() {} async *k() {} static async *l() {} constructor() {} [m]() {} [n] = 1; 'o'; 1() {} ; }",
        "class A { #a = 1; #b() { return #a in this && this.#a; } static #c; get #d() { return 1 } }",
        "class A { static { a; var b; } static() {} static = 1; get; set; async; get\n*a() {} }",
        "class A { a = 1\n  b() {}\n  c\n  d = () => {}\n  *e() {} }",
        "import 'a'; import b from 'c'; import * as d from 'e'; import {f, g as h, default as i} from 'j'; import k, {l} from 'm'; import n, * as o from 'p'; import {} from 'q'",
        "export {}; export {a, b as c, d as default}; export {if, a as while} from 'e'; export * from 'f'; export * as g from 'h'",
        "export default function () {} export default class {} export default a + b; export default async function () {}",
        "export var a = 1; export let b; export const c = 1; export function d() {} export class E {} export async function f() {}",
        "export {a}\nfrom 'b'",
        "export default (function () {})\n(a)",
        "export default function () {}\n(a)",
        "let async; async = 1; of = 2; from = 3; get = set; static = as",
        "a = b\nc\nd()",
        "var a = function () {}\nvar b",
        "a => b => c; a => ({}); a => {}\n[b]",
        "x = a => { b }\n/c/g",
        "for (a of (b, c)) d; for ((async) of a) b; for (async in a) b",
        "for await (async of a) b; for await (async\nof of) b; for (async of => a; ; ) b; for (\\u0061sync of a) b",
        "function* f() { yield *\n a; yield\n/b/ }",
        "({set a(b, ) {}}); [...a, ]; ({...a, })",
        "a<!--b; a-->b; 017 + 089",
        "let a; let a; break; continue; return",
        "class A { static { return; } [await a] = 1; } class B extends (await c) {}",
        "class A { get\n a() {} static\n b; c\n in\n instanceof\n d = 1\n in e }",
        "a\n++\nb; async\nfunction f() {}\nasync\nc => d",
        "import a from 'b'\nexport {a}\nc",
    ];
    for text in cases {
        let found = refused(rt.alloc(), text)?;
        assert_eq!(rt; found, None, "{text}");
    }
    Ok(())
}

#[test]
fn refuses_at_the_place(rt: HostRuntime) -> Result<(), Fail> {
    let cases: [(&str, u32); 101] = [
        ("a ?? b || c", 7),
        ("a || b ?? c", 7),
        ("a && b ?? c", 7),
        ("a ?? b && c", 7),
        ("-a ** b", 3),
        ("({a = 1})", 9),
        ("({a = 1}) + b", 10),
        ("[{a = 1}].b", 9),
        ("f({a = 1})", 9),
        ("for (var a = 1 in b);", 15),
        ("x = a b;", 6),
        ("if (a) b else c", 9),
        ("return = 1;", 7),
        ("(a + b) = c;", 8),
        ("const a;", 7),
        ("{ a: 1, b: 2 }", 9),
        ("while (a) }", 10),
        ("a = {get b(c) {}};", 11),
        ("a = {set b() {}};", 11),
        ("a = {set b(...c) {}};", 11),
        ("import a, b from \"m\";", 10),
        ("x = (1, );", 8),
        ("x = #y in z;", 4),
        ("a?.b`c`", 4),
        ("a?.b = c", 5),
        ("a?.b++", 4),
        ("new a?.b", 5),
        ("new import(a)", 4),
        ("super", 5),
        ("({a}) = b", 6),
        ("[(a = 1)] = b", 10),
        ("[(a)] => b", 6),
        ("((a)) => b", 6),
        ("(a.b) => c", 6),
        ("(...a, b) => c", 5),
        ("[...a, ] = b", 9),
        ("({get a() {}} = b)", 14),
        ("a\n=> b", 2),
        ("async (a)\n=> b", 10),
        ("() + 1", 3),
        ("(a, ...b)", 9),
        ("async a b", 8),
        ("function f() { await a }", 15),
        ("function f() { yield a }", 15),
        ("async function f(a = await b) {}", 21),
        ("async function f() { (a = await b) => c }", 35),
        ("function* f(a = yield) {}", 16),
        ("switch (a) { default: default: }", 22),
        ("let a = 1, {b};", 14),
        ("if (a) let b", 7),
        ("if (a) function b() {}", 7),
        ("a: class B {}", 3),
        ("try {}", 6),
        ("throw\na", 6),
        ("for (a of b, c) d", 11),
        ("for (async of a) b", 14),
        ("for (async\nof a) b", 11),
        ("for await (async a of b) c", 19),
        ("function* f() { yield\n* a }", 22),
        ("for await (a in b) c", 13),
        ("`\\u`", 0),
        ("export {if}", 11),
        ("{ import a from 'b' }", 9),
        ("class A { #constructor() {} }", 22),
        ("v\\u0061r a", 0),
        ("[a] += b", 4),
        ("++(a + b)", 9),
        ("for (var a, b of c) ;", 14),
        ("for (let a = 1 of b) ;", 15),
        ("for (const a; ; ) ;", 12),
        ("let [...a, b] = c", 9),
        ("let {...[a]} = b", 8),
        ("({...[a]} = b)", 10),
        ("({...a, b} = c)", 11),
        ("function f(...a, ) {}", 15),
        ("a?.b\n`c`", 5),
        ("function f() { for await (a of b) ; }", 19),
        ("class A { static { await a } }", 19),
        ("class A { a = await b }", 14),
        ("class A { static { yield a } }", 19),
        ("a.#b", 2),
        ("class A { a = 1\n*b() {} }", 21),
        ("({async\na() {}})", 8),
        ("`a${b}\\u`", 5),
        ("new.t\\u0061rget", 4),
        ("import.met\\u0061", 7),
        ("import {a \\u0061s b} from 'c'", 10),
        ("import {if} from 'a'", 10),
        ("let = 1", 4),
        ("var await", 4),
        ("yield = 1", 0),
        ("a: function b() {}", 3),
        ("if (a) class B {}", 7),
        ("while (a) const b = 1", 10),
        ("switch (a) { b; }", 13),
        ("<!-- a", 0),
        ("export {a as 'b'}", 13),
        ("export default var a", 15),
        ("a = <b/>", 4),
        ("let a: b", 5),
        ("#!/usr", 0),
    ];
    for (text, want) in cases {
        let found = refused(rt.alloc(), text)?;
        assert_eq!(rt; found, Some(want), "{text}");
    }
    Ok(())
}

// The text with so many of one text before it and of another behind.
fn nested(
    alloc: Global,
    before: &str,
    text: &str,
    behind: &str,
    count: usize,
) -> Result<String, Fail> {
    let mut all = String::new(alloc);
    for _turn in 0..count {
        all.push_str(before)?;
    }
    all.push_str(text)?;
    for _turn in 0..count {
        all.push_str(behind)?;
    }
    Ok(all)
}

#[test]
fn bounds_the_nesting(rt: HostRuntime) -> Result<(), Fail> {
    let cases: [(&str, &str, &str, usize, bool); 9] = [
        ("(", "a", ")", 997, true),
        ("(", "a", ")", 1001, false),
        ("[", "a", "]", 997, true),
        ("{", ";", "}", 998, true),
        ("{", ";", "}", 999, false),
        ("a => ", "a", "", 997, true),
        ("f(", "a", ")", 997, true),
        ("", "a", ".b", 2000, false),
        ("if (a) ; else ", ";", "", 998, true),
    ];
    for (before, text, behind, count, reads) in cases {
        let text = nested(rt.alloc(), before, text, behind, count)?;
        let found = refused(rt.alloc(), text.as_str())?;
        assert_eq!(rt; found.is_none(), reads, "{before}");
    }
    Ok(())
}

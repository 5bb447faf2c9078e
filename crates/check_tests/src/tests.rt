//! Trees of sources, tables of trees that are told, and large trees.

use crate::answers::{answer, answer_told};
use crate::tables::{
    BRANCHES, CHAINS, COMMENTS, CONTEXTS, DECLARATIONS, DIRECTIVES, METHODS, NAMES, Row, SCALARS,
    SHAPE, SHORTHANDS, TEXTS,
};
use cm_text::Source;
use js_source::parse;
use sqlite_items::Items;
use std::alloc::{AllocError, Global};
use tree_core::{Place, Scalar, Scalars, Slot, Tree, Units};
use type_defs::Kind;

// What the check says of the tree of a source.
fn answer_read(alloc: Global, text: &str) -> Option<String> {
    let mut bytes = Vec::new(alloc);
    bytes.extend_from_slice(text.as_bytes()).ok()?;
    let source = Source::new(bytes).ok()?;
    let parsed = parse(alloc, &source).ok()?;
    answer(alloc, &parsed.tree).ok()
}

#[test]
fn sources_pass(rt: HostRuntime) {
    let alloc = rt.alloc();
    let rows = [
        "",
        "#!/bin/x\n/* a */",
        "class A extends B { #p = 1; static q; 'constructor'; constructor(a, b = 1) { super(a); \
         super.x; super[y](); } get z() { return this.#p } set z(v) {} static async w() {} \
         async *[k]() {} static { var q; } static get constructor() {} *g() { yield; yield* a; } \
         [c] = d; #q() { return #p in this } }",
        "a?.b.c(d)?.[e]; (a?.b).c; a?.b.c?.(f).g; new x.y(z); new x; import('a'); import.meta;",
        "if (a) if (b) c; else d; else if (e) f; if (a) while (b) for (;;) if (c) d; else e; \
         else l: m",
        "switch (a) { case 1: b; case 2: default: c; case 3: } try { a } catch { b } finally { c }",
        "for (var i = 0, j; i < j; i++); for (const a in b); for (let [x] of y); for (z of w); \
         for ([q, ...s] of t); for ({ u = 1, v: w } in x); for (;;); for await (x of y) z;",
        "var { a, b: c, d = 1, e: f = 2, [g]: h, ...i } = j, [k, , l = 3, [m], ...n] = o; \
         ({ p, q: r.s, t: u = 1, ...v } = w); [x, y.z, a = 1, , ...b.c] = d; const e = f;",
        "`a${b}c${d}`; x`\\u${y}z`; `\\x41\\n`; ``; /a[/]b/gi; 1; 1_0n; 0x1F; 'x'; true; null;",
        "({ a, b: c, [d]: e, get f() { return 1 }, set g(h) {}, async i() {}, *j() {}, 'm': 1, \
         2: 3, ...n, if: 4 }); x = { async /* a */ b() {}, async *// c\n d() {} };",
        "import 'a';\nimport b from 'b'; import * as c from 'c'; import d, { e, f as g } from 'd'; \
         import i, * as j from 'e'; export { k as if }; export { c as d } from 'x'; \
         export * from 'z'; export * as ns from 'w'; export default class {}",
        "'use strict'; \"b\"; c; function f() { 'use strict'; 'd'; return 1 } 'x';",
        "(a, b = 1, { c }, ...d) => a; async (x) => { await x; }; y => \
         (function* () { yield a; });",
        "l: for (;;) { break /* m */ l; continue l; break; } do a; while (b) with (c) d; \
         debugger; ;",
        "class A { async /* n */ b() {} static async /* p\n */ c() {} }",
    ];
    for row in rows {
        let said = answer_read(alloc, row).expect(&rt, "a tree");
        assert!(rt; said.as_str() == "ok", "{row}");
    }
}

// The number of the first row of whose tree the check says something else.
fn wrong_row(alloc: Global, rows: &[Row]) -> Option<usize> {
    for number in 0..rows.len() {
        let (tree, wanted) = rows[number];
        match answer_told(alloc, tree) {
            Some(said) => {
                if said.as_str() != wanted {
                    return Some(number);
                }
            }
            None => return Some(number),
        }
    }
    None
}

#[test]
fn shapes_are_judged(rt: HostRuntime) {
    assert_eq!(rt; wrong_row(rt.alloc(), SHAPE), None);
}

#[test]
fn scalars_are_judged(rt: HostRuntime) {
    assert_eq!(rt; wrong_row(rt.alloc(), SCALARS), None);
}

#[test]
fn names_are_judged(rt: HostRuntime) {
    assert_eq!(rt; wrong_row(rt.alloc(), NAMES), None);
}

#[test]
fn texts_are_judged(rt: HostRuntime) {
    assert_eq!(rt; wrong_row(rt.alloc(), TEXTS), None);
}

#[test]
fn directives_are_judged(rt: HostRuntime) {
    assert_eq!(rt; wrong_row(rt.alloc(), DIRECTIVES), None);
}

#[test]
fn shorthands_are_judged(rt: HostRuntime) {
    assert_eq!(rt; wrong_row(rt.alloc(), SHORTHANDS), None);
}

#[test]
fn declarations_are_judged(rt: HostRuntime) {
    assert_eq!(rt; wrong_row(rt.alloc(), DECLARATIONS), None);
}

#[test]
fn methods_are_judged(rt: HostRuntime) {
    assert_eq!(rt; wrong_row(rt.alloc(), METHODS), None);
}

#[test]
fn chains_are_judged(rt: HostRuntime) {
    assert_eq!(rt; wrong_row(rt.alloc(), CHAINS), None);
}

#[test]
fn contexts_are_judged(rt: HostRuntime) {
    assert_eq!(rt; wrong_row(rt.alloc(), CONTEXTS), None);
}

#[test]
fn branches_are_judged(rt: HostRuntime) {
    assert_eq!(rt; wrong_row(rt.alloc(), BRANCHES), None);
}

#[test]
fn comments_are_judged(rt: HostRuntime) {
    assert_eq!(rt; wrong_row(rt.alloc(), COMMENTS), None);
}

fn name(alloc: Global) -> Result<Tree, AllocError> {
    let text = Units::of_bytes(alloc, b"a")?;
    Ok(Tree::new(
        Kind::Identifier,
        Scalars::one(Scalar::Text(text)),
        Items::new(alloc),
    ))
}

// A node of one single slot.
fn over(alloc: Global, kind: Kind, scalars: Scalars, child: Tree) -> Result<Tree, AllocError> {
    let mut slots = Items::new(alloc);
    slots.push(Slot::single(Place::filled(alloc, child)?))?;
    Ok(Tree::new(kind, scalars, slots))
}

// A program of the one expression.
fn program(alloc: Global, expression: Tree) -> Result<Tree, AllocError> {
    let statement = over(alloc, Kind::ExpressionStatement, Scalars::new(), expression)?;
    let mut items = Items::new(alloc);
    items.push(Place::filled(alloc, statement)?)?;
    let mut slots = Items::new(alloc);
    slots.push(Slot::list(items))?;
    Ok(Tree::new(Kind::Program, Scalars::one(Scalar::Null), slots))
}

// A name under so many operators.
fn nest(alloc: Global, count: u32) -> Result<Tree, AllocError> {
    let mut tree = name(alloc)?;
    for _turn in 0..count {
        let operator = Scalars::one(Scalar::Text(Units::of_bytes(alloc, b"!")?));
        tree = over(alloc, Kind::UnaryExpression, operator, tree)?;
    }
    program(alloc, tree)
}

#[test]
fn depth_is_limited(rt: HostRuntime) -> Result<(), AllocError> {
    let alloc = rt.alloc();
    let said = answer(alloc, &nest(alloc, 997)?)?;
    assert!(rt; said.as_str() == "ok");
    let said = answer(alloc, &nest(alloc, 998)?)?;
    assert_eq!(rt; said.len(), 2 * 1_000 + " Depth".len());
    assert!(rt; said.as_str().ends_with("/0 Depth"));
    Ok(())
}

// An array of so many names.
fn row(alloc: Global, count: u32) -> Result<Tree, AllocError> {
    let mut items = Items::new(alloc);
    for _turn in 0..count {
        items.push(Place::filled(alloc, name(alloc)?)?)?;
    }
    let mut slots = Items::new(alloc);
    slots.push(Slot::list(items))?;
    program(
        alloc,
        Tree::new(Kind::ArrayExpression, Scalars::new(), slots),
    )
}

#[test]
fn long_lists_pass(rt: HostRuntime) -> Result<(), AllocError> {
    let said = answer(rt.alloc(), &row(rt.alloc(), 20_000)?)?;
    assert!(rt; said.as_str() == "ok");
    Ok(())
}

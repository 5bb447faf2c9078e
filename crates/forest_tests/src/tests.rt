//! Sources as trees in the arena, asked and changed at addresses.

ghost use Rattle.std.specs.Prelude.{◌<◌, length, IfSome};

use arena_trees::load;
use ast_paths::{replace, settle};
use cm_text::Source;
use js_source::parse;
use node_arena::{Arena, NodeId, PlaceId};
use scope_lookup::{Scope, bindings, resolve};
use std::alloc::Global;
use type_defs::Kind;

// The tree of a text in an arena.
fn loaded(alloc: Global, text: &str) -> Option<Arena> {
    let mut bytes = Vec::new(alloc);
    bytes.extend_from_slice(text.as_bytes()).ok()?;
    let source = Source::new(bytes).ok()?;
    let parsed = parse(alloc, &source).ok()?;
    let mut arena = Arena::new(alloc).ok()?;
    load(alloc, &mut arena, &parsed).ok()?;
    Some(arena)
}

// The place of this number over all places of a node.
fn child(arena: &Arena, node: NodeId, number: u32) -> Option<PlaceId>
    requires { node < length arena.now.forest.nodes }
    ensures { IfSome result (λ p. p < length arena.now.forest.places) }
{
    let mut left = number;
    for slot in 0..4 {
        let mut at = arena.slot_first(node, slot);
        for _turn in 0..arena.places() {
            let Some(place) = at else {
                break;
            };
            if place.number() >= arena.places() {
                return None;
            }
            if left == 0 {
                return Some(place);
            }
            left -= 1;
            at = arena.next(place);
        }
    }
    None
}

// The place at an address, one digit for each level.
fn place_by(arena: &Arena, address: &str) -> Option<PlaceId>
    ensures { IfSome result (λ p. p < length arena.now.forest.places) }
{
    let mut place = arena.root();
    for digit in address.bytes() {
        if digit < b'0' || digit > b'9' {
            continue;
        }
        if place.number() >= arena.places() {
            return None;
        }
        place = child(arena, arena.node_at(place)?, u32::from(digit - b'0'))?;
    }
    if place.number() >= arena.places() {
        return None;
    }
    Some(place)
}

fn node_by(arena: &Arena, address: &str) -> Option<NodeId>
    ensures { IfSome result (λ j. j < length arena.now.forest.nodes) }
{
    arena.node_at(place_by(arena, address)?)
}

// The number of the node at an address, and which node of the source it comes from.
fn told(arena: &Arena, address: &str) -> Option<(u32, u32)> {
    let node = node_by(arena, address)?;
    Some((node.number(), arena.from_of(node)?))
}

// Settles the node at one address for the place at another; its number.
fn settled(arena: &mut Arena, from: &str, to: &str) -> Option<u32> {
    let node = node_by(arena, from)?;
    let place = place_by(arena, to)?;
    Some(settle(arena, node, place).ok()?.number())
}

// A sum moves into the place of an operand, and leaves a copy with new numbers.
#[test]
fn a_moved_node_leaves_a_copy(rt: HostRuntime) {
    let alloc = rt.alloc();
    let mut arena = loaded(alloc, "x = a * b;\ny = c + d;").expect(&rt, "a tree");
    assert_eq!(rt; arena.nodes(), 13);
    let operand = node_by(&arena, "/0/0/1/1").expect(&rt, "an operand");
    let sum = node_by(&arena, "/1/0/1").expect(&rt, "a sum");
    let place = place_by(&arena, "/0/0/1/1").expect(&rt, "its place");
    assert_eq!(rt; (operand.number(), sum.number()), (6, 10));
    assert!(rt; settled(&mut arena, "/1/0/1", "/0/0/1/1") == Some(10));
    assert!(rt; place.number() < arena.places());
    replace(alloc, &mut arena, place, &[sum]).expect(&rt, "the sum goes in");
    assert!(rt; operand.number() < arena.nodes());
    assert!(rt; arena.is_root(operand));
    let rows = [
        ("/0/0/1/1", 10, 10),
        ("/0/0/1/1/0", 11, 11),
        ("/1/0/1", 13, 10),
        ("/1/0/1/0", 14, 11),
        ("/1/0/1/1", 15, 12),
    ];
    for (address, number, from) in rows {
        assert!(rt; told(&arena, address) == Some((number, from)), "{address}");
    }
}

// Where the name at an address is declared first.
fn resolved(alloc: Global, arena: &Arena, address: &str) -> Option<Option<PlaceId>> {
    resolve(alloc, arena, place_by(arena, address)?).ok()
}

#[test]
fn names_resolve(rt: HostRuntime) {
    let alloc = rt.alloc();
    let nested = "var a; { let a; a; } a;";
    let foreign = "({ a }); export { b };";
    let keys = "var k; ({ k: k, [k]: 1 }); o.k;";
    let imports = "import d, { x as y } from 'm'; y; d; x;";
    let parts = "var { p: q = 1, ...r } = o; q; r;";
    let cases = "switch (0) { case 1: let s; s; } s;";
    // a text, the address of a name, and the one where it is declared
    let rows = [
        (nested, "/1/1/0", "/1/0/0/0"),
        (nested, "/2/0", "/0/0/0"),
        (nested, "/0/0/0", "/0/0/0"),
        (foreign, "/0/0/0/0", ""),
        (foreign, "/0/0/0/1", ""),
        (foreign, "/1/1/0", ""),
        ("function f(a) { a; } f;", "/0/2/0/0", "/0/1"),
        ("function f(a) { a; } f;", "/1/0", "/0/0"),
        ("(a) => a;", "/0/0/1", "/0/0/0"),
        ("(function g() { g; });", "/0/0/1/0/0", "/0/0/0"),
        ("(function g() {}); g;", "/1/0", ""),
        ("try {} catch (e) { e; }", "/0/1/1/0/0", "/0/1/0"),
        ("class C {} C;", "/1/0", "/0/0"),
        ("class C { static { var v; } } v;", "/1/0", ""),
        ("(class B { m() { B; } });", "/0/0/2/0/1/1/0/0", "/0/0/0"),
        ("var A; (class A extends A {});", "/1/0/1", "/0/0/0"),
        (imports, "/1/0", "/0/1/1"),
        (imports, "/2/0", "/0/0/0"),
        (imports, "/3/0", ""),
        ("import * as n from 'm'; n;", "/1/0", "/0/0/0"),
        ("a: for (;;) break a; var a;", "/0/0", ""),
        ("a: for (;;) break a; var a;", "/0/1/3/0", ""),
        (keys, "/1/0/0/0", ""),
        (keys, "/1/0/0/1", "/0/0/0"),
        (keys, "/1/0/1/0", "/0/0/0"),
        (keys, "/2/0/1", ""),
        (parts, "/1/0", "/0/0/0/0/1/0"),
        (parts, "/2/0", "/0/0/0/1/0"),
        ("for (let i = 0;;) i; i;", "/0/3/0", "/0/0/0/0"),
        ("for (let i = 0;;) i; i;", "/1/0", ""),
        ("for (var [i] of a) ; i;", "/1/0", "/0/0/0/0/0"),
        (cases, "/0/1/2/0", "/0/1/1/0/0"),
        (cases, "/1/0", ""),
        ("export { e }; var e;", "/0/1/0", "/1/0/0"),
        ("export { e } from 'm'; var e;", "/0/1/0", ""),
    ];
    for (text, address, wanted) in rows {
        let arena = loaded(alloc, text).expect(&rt, "a tree");
        let mut place = None;
        if !wanted.is_empty() {
            place = place_by(&arena, wanted);
        }
        assert!(rt;
            resolved(alloc, &arena, address) == Some(place),
            "{text} {address}"
        );
    }
}

// The only name that the program declares: how long it is, and whether this address alone declares
// it.
fn only_binding(alloc: Global, arena: &Arena, address: &str) -> Option<(usize, bool)> {
    let owner = arena.node_at(arena.root())?;
    let names = bindings(alloc, arena, &Scope { owner, name: false }).ok()?;
    let binding = names.get(0)?;
    let place = place_by(arena, address)?;
    let alone = names.len() == 1 && binding.places.as_slice() == [place].as_slice();
    Some((binding.name.get().len(), alone))
}

#[test]
fn a_program_declares_its_names(rt: HostRuntime) {
    let alloc = rt.alloc();
    let arena = loaded(alloc, "var a; { let a; a; } a;").expect(&rt, "a tree");
    assert!(rt; only_binding(alloc, &arena, "/0/0/0") == Some((1, true)));
}

// The kind of the node at an address.
fn kind_by(arena: &Arena, address: &str) -> Option<Kind> {
    let node = node_by(arena, address)?;
    Some(arena.kind(node))
}

// Which kinds the trees of sources have at an address, and where statements end: no node stands at
// the address of a statement that is none of its own.
#[test]
fn sources_have_these_trees(rt: HostRuntime) {
    let alloc = rt.alloc();
    let rows: [(&str, &str, Option<Kind>); 22] = [
        (
            "({a = 1}) => 0",
            "/0/0",
            Some(Kind::ArrowFunctionExpression),
        ),
        ("({a = 1}) => 0", "/0/0/0", Some(Kind::ObjectPattern)),
        ("(a?.b).c", "/0/0", Some(Kind::MemberExpression)),
        ("a?.b.c", "/0/0", Some(Kind::ChainExpression)),
        ("a\n++b", "/1/0", Some(Kind::UpdateExpression)),
        ("a\n++\nb", "/0/0", Some(Kind::Identifier)),
        ("a\n(b)", "/1", None),
        ("a\n[b]", "/1", None),
        ("a\n+ b", "/1", None),
        ("a => {}\n[b]", "/1", Some(Kind::ExpressionStatement)),
        ("var a\n(b)", "/1", Some(Kind::ExpressionStatement)),
        ("do ; while (a) b", "/1", Some(Kind::ExpressionStatement)),
        ("do a; while (b); ;", "/1", Some(Kind::EmptyStatement)),
        ("return\nx", "/1", Some(Kind::ExpressionStatement)),
        ("a\n/=b/c", "/0/0", Some(Kind::AssignmentExpression)),
        ("a\n/=b/c", "/1", None),
        ("export {a}\nfrom 'b'", "/1", None),
        ("export {a}\nb", "/1", Some(Kind::ExpressionStatement)),
        ("'a'\n'b'", "/1", Some(Kind::Directive)),
        ("'a'\n+ 'b'", "/0", Some(Kind::ExpressionStatement)),
        ("('a')", "/0", Some(Kind::ExpressionStatement)),
        ("async\nfunction f() {}", "/0/0", Some(Kind::Identifier)),
    ];
    for (text, address, kind) in rows {
        let arena = loaded(alloc, text).expect(&rt, "a tree");
        assert!(rt; kind_by(&arena, address) == kind, "{text}");
    }
}

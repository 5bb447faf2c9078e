//! Whole changes at paths.

use ast_paths::{get, parent, prune, replace};
use node_arena::Arena;
use type_defs::Kind;

#[test]
fn moved_name_leaves_a_copy(rt: HostRuntime) {
    let alloc = rt.alloc();
    let mut arena = Arena::new(alloc).expect(&rt, "an arena");
    let statement = arena
        .make(Kind::ExpressionStatement)
        .expect(&rt, "a statement");
    let sum = arena.make(Kind::BinaryExpression).expect(&rt, "a sum");
    let name = arena.make(Kind::Identifier).expect(&rt, "a name");
    let root = arena.root();
    replace(alloc, &mut arena, root, &[statement]).expect(&rt, "the statement goes in");
    let place = get(&arena, root, "expression", 0)
        .expect(&rt, "a slot")
        .expect(&rt, "a place");
    replace(alloc, &mut arena, place, &[sum]).expect(&rt, "the sum goes in");
    let left = get(&arena, place, "left", 0)
        .expect(&rt, "a slot")
        .expect(&rt, "a place");
    let right = get(&arena, place, "right", 0)
        .expect(&rt, "a slot")
        .expect(&rt, "a place");
    replace(alloc, &mut arena, left, &[name]).expect(&rt, "the name goes in");
    replace(alloc, &mut arena, right, &[name]).expect(&rt, "the name moves");
    assert!(rt; arena.node_at(right) == Some(name));
    assert!(rt; arena.node_at(left).is_some());
    assert!(rt; arena.node_at(left) != Some(name));
    assert!(rt; parent(&arena, left) == Some(place));
    prune(&mut arena, place).expect(&rt, "the sum goes");
    let root = arena.root();
    assert!(rt; arena.node_at(root).is_none());
}

//! A statement that goes into an arena and comes back.

use arena_trees::{load, unload};
use node_arena::Arena;
use sqlite_items::Items;
use std::alloc::{AllocError, Global};
use tree_core::{Parsed, Place, Scalar, Scalars, Slot, Tree, Units, same};
use type_defs::Kind;

// The statement `a;`, with a number and a name.
fn sample(alloc: Global) -> Result<Parsed, AllocError> {
    let text = Units::new(vec![in alloc; 97]?);
    let name = Scalars::one(Scalar::Text(text));
    let name = Tree::new(Kind::Identifier, name, Items::new(alloc));
    let mut slots = Items::new(alloc);
    slots.push(Slot::single(Place::filled(alloc, name)?))?;
    let statement = Kind::ExpressionStatement;
    Ok(Parsed {
        tree: Tree::new(statement, Scalars::new(), slots),
        spans: Items::new(alloc),
        comments: Items::new(alloc),
    })
}

// Whether the tree comes back from an arena, in which it has two nodes and two places.
fn comes_back(alloc: Global) -> bool {
    let Ok(parsed) = sample(alloc) else {
        return false;
    };
    let Ok(mut arena) = Arena::new(alloc) else {
        return false;
    };
    let Ok(root) = load(alloc, &mut arena, &parsed) else {
        return false;
    };
    match unload(alloc, &arena, root) {
        Ok(tree) => same(&tree, &parsed.tree) && arena.nodes() == 2 && arena.places() == 2,
        Err(_) => false,
    }
}

#[test]
fn a_statement_comes_back(rt: HostRuntime) {
    assert!(rt; comes_back(rt.alloc()));
}

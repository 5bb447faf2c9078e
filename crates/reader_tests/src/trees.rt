//! Small trees: their places by address, their height, and copies.

use sqlite_items::Items;
use std::alloc::{AllocError, Global};
use std::test::Fail;
use tree_core::{Address, Place, Scalar, Scalars, Slot, Tree, Units, at, copy, height, same};
use type_defs::Kind;

// A place with a node whose only scalar is a text of one code unit.
fn leaf(alloc: Global, kind: Kind) -> Result<Place, AllocError> {
    let text = Units::new(vec![in alloc; 97]?);
    let scalars = Scalars::one(Scalar::Text(text));
    Place::filled(alloc, Tree::new(kind, scalars, Items::new(alloc)))
}

// A place with a spread element over `super`.
fn branch(alloc: Global) -> Result<Place, AllocError> {
    let mut slots = Items::new(alloc);
    slots.push(Slot::single(leaf(alloc, Kind::Super)?))?;
    Place::filled(alloc, Tree::new(Kind::SpreadElement, Scalars::new(), slots))
}

fn list(alloc: Global) -> Result<Slot, AllocError> {
    let mut places = Items::new(alloc);
    places.push(leaf(alloc, Kind::Literal)?)?;
    places.push(Place {
        name: None,
        node: None,
    })?;
    places.push(branch(alloc)?)?;
    Ok(Slot::list(places))
}

// A call: a place with an identifier, and a list of three places, with a literal, with nothing, and
// with a spread element over `super`.
fn sample(alloc: Global) -> Result<Tree, AllocError> {
    let mut slots = Items::new(alloc);
    slots.push(Slot::single(leaf(alloc, Kind::Identifier)?))?;
    slots.push(list(alloc)?)?;
    Ok(Tree::new(Kind::CallExpression, Scalars::new(), slots))
}

#[test]
fn walks_a_small_tree(rt: HostRuntime) -> Result<(), Fail> {
    let alloc = rt.alloc();
    let tree = sample(alloc)?;
    let cases: [(&[u32], Option<Kind>); 8] = [
        (&[], Some(Kind::CallExpression)),
        (&[0], Some(Kind::Identifier)),
        (&[1], Some(Kind::Literal)),
        (&[2], None),
        (&[3], Some(Kind::SpreadElement)),
        (&[3, 0], Some(Kind::Super)),
        (&[3, 0, 0], None),
        (&[4], None),
    ];
    for (steps, want) in cases {
        let address = Address::new(Items::from_slice(alloc, steps)?);
        let found = at(&tree, &address).map(|node| node.kind);
        assert_eq!(rt; found, want, "at {steps:?}");
    }
    assert_eq!(rt; height(&tree), 3);
    Ok(())
}

#[test]
fn compares_a_copy(rt: HostRuntime) -> Result<(), Fail> {
    let alloc = rt.alloc();
    let tree = sample(alloc)?;
    let mut other = copy(alloc, &tree)?;
    assert!(rt; same(&tree, &other));
    other.from = Some(7);
    assert!(rt; same(&tree, &other), "another number");
    other.kind = Kind::NewExpression;
    assert!(rt; !same(&tree, &other), "another kind");
    Ok(())
}

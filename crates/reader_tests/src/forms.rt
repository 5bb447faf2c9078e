//! Tables of forms, slots and levels.

use js_forms::{Category, Form, Link, MEMBER, Place, SEQUENCE, Scope, Spelling};
use sqlite_items::Items;
use std::alloc::{AllocError, Global};
use tree_core::{Scalar, Scalars, Slot, Tree};
use tree_forms::{Variant, form, level, slot};
use type_defs::Kind;

const BINDING: Place = Place {
    category: Category::Binding,
    least: SEQUENCE,
    scope: Scope::Same,
};

fn over(alloc: Global, kind: Kind, scalars: Scalars) -> Result<Tree, AllocError> {
    let child = Tree::new(Kind::ThisExpression, Scalars::new(), Items::new(alloc));
    let mut slots = Items::new(alloc);
    slots.push(Slot::single(tree_core::Place::filled(alloc, child)?))?;
    Ok(Tree::new(kind, scalars, slots))
}

#[test]
fn table(rt: HostRuntime) -> Result<(), AllocError> {
    let alloc = rt.alloc();
    let truths = Scalars::one(Scalar::Truth(false)).with(alloc, Scalar::Truth(true))?;
    let member = over(alloc, Kind::MemberExpression, truths)?;
    let dot = Variant {
        form: Form::Dot(Link::Optional),
        spelling: Spelling::Usual,
    };
    assert!(rt; form(&member, BINDING) == Some(dot));
    assert!(rt; level(&member) == MEMBER);
    let pattern = over(alloc, Kind::ArrayPattern, Scalars::new())?;
    let binding = Variant {
        form: Form::ArrayPattern,
        spelling: Spelling::Declares,
    };
    assert!(rt; form(&pattern, BINDING) == Some(binding));
    assert!(rt; slot(binding, 1) == None);
    Ok(())
}

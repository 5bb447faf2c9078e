//! Scopes of nodes without places.

use node_arena::{Arena, ArenaFault};
use scope_lookup::{
    Scope, bindings, declares, is_global, is_scope, lookup, outer, resolve, scope_of,
};
use std::alloc::Global;
use std::test::Fail;
use tree_core::Units;
use type_defs::Kind;

// Whether a new node of the kind has a scope.
fn has_scope(alloc: Global, kind: Kind) -> Result<bool, ArenaFault> {
    let mut arena = Arena::new(alloc)?;
    let node = arena.make(kind)?;
    Ok(is_scope(&arena, node))
}

#[test]
fn tells_the_nodes_that_have_scopes(rt: HostRuntime) -> Result<(), Fail> {
    let cases = [
        (Kind::Program, true),
        (Kind::BlockStatement, true),
        (Kind::CatchClause, true),
        (Kind::ClassExpression, false),
        (Kind::StaticBlock, true),
        (Kind::WhileStatement, false),
    ];
    for (kind, wanted) in cases {
        assert!(rt; has_scope(rt.alloc(), kind)? == wanted, "{kind:?}");
    }
    Ok(())
}

#[test]
fn an_empty_program_declares_nothing(rt: HostRuntime) -> Result<(), Fail> {
    let mut arena = Arena::new(rt.alloc())?;
    let owner = arena.make(Kind::Program)?;
    let scope = Scope { owner, name: false };
    let name = Units::new(vec![in rt.alloc(); 97]?);
    assert!(rt; bindings(rt.alloc(), &arena, &scope)?.is_empty());
    assert!(rt; lookup(rt.alloc(), &arena, &scope, &name)?.is_none());
    assert!(rt; !declares(rt.alloc(), &arena, &scope, &name)?);
    assert!(rt; is_global(&arena, &scope));
    assert!(rt; outer(&arena, &scope).is_none());
    assert!(rt; scope_of(&arena, arena.root()).is_none());
    assert!(rt; resolve(rt.alloc(), &arena, arena.root())?.is_none());
    Ok(())
}

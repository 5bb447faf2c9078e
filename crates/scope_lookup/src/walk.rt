//! The places that declare names in a scope, in the order of the source.

ghost use Rattle.std.specs.Prelude.{◌≡◌, ◌<◌, ◌++◌, ◌∷◌, length, All, IfOk, IfSome, OnOk};
ghost use Rattle.node_arena.specs.Reads.{first_at};
ghost use Rattle.scope_lookup.specs.Scopings.{scoping_below as scoping_below_of, own_scoping as own_scoping_of};
ghost use Rattle.scope_lookup.specs.Walk.{below, declaring, does_bind, kept_list, listed, met, own_places, rest, rests};

use crate::node_roles::name_at;
use crate::scope::Scope;
use crate::scoping::{Scoping, own_scoping, scoping_below};
use node_arena::{Arena, NodeId, PlaceId};
use std::alloc::{AllocError, Global};

/// A pending rest of a list: its first place, how many more at most come behind it, the depth to
/// which what stands in them is followed, and which declarations there are the scope's.
#[derive(Clone, Copy)]
pub struct Pending {
    pub at: PlaceId,
    pub more: u32,
    pub depth: u32,
    pub scoping: Scoping,
}

/// Pushes so many places of a list.
#[tactic(auto, using(crate::proofs::WorkStack::push_zero, crate::proofs::WorkStack::push_none, crate::proofs::WorkStack::push_some))]
fn push_rest(
    arena: &Arena,
    stack: &mut Vec<Pending>,
    at: Option<PlaceId>,
    count: u32,
    depth: u32,
    scoping: Scoping,
) -> Result<(), AllocError>
    requires within { IfSome at (λ p. p < length arena.now.forest.places) }
    requires known { All (λ w. w.at < length arena.now.forest.places) stack.old.items }
    ensures known { All (λ w. w.at < length arena.now.forest.places) stack.new.items }
    ensures waits { OnOk result (rests arena.now stack.new.items ≡ listed count arena.now depth scoping at ++ rests arena.now stack.old.items) }
{
    if count == 0 {
        return Ok(());
    }
    let Some(at) = at else {
        return Ok(());
    };
    let more = count - 1;
    stack.push(Pending {
        at,
        more,
        depth,
        scoping,
    })?;
    Ok(())
}

/// Pushes a list, if something of it is the scope's.
#[tactic(auto, using(crate::proofs::WorkStack::list_nothing, crate::proofs::WorkStack::list_some))]
fn push_list(
    arena: &Arena,
    stack: &mut Vec<Pending>,
    at: Option<PlaceId>,
    depth: u32,
    scoping: Scoping,
) -> Result<(), AllocError>
    requires within { IfSome at (λ p. p < length arena.now.forest.places) }
    requires known { All (λ w. w.at < length arena.now.forest.places) stack.old.items }
    ensures known { All (λ w. w.at < length arena.now.forest.places) stack.new.items }
    ensures waits { OnOk result (rests arena.now stack.new.items ≡ kept_list arena.now depth scoping at ++ rests arena.now stack.old.items) }
{
    if scoping.is_nothing() {
        return Ok(());
    }
    push_rest(arena, stack, at, arena.places(), depth, scoping)
}

/// Pushes a slot of the scope's owner.
fn push_own_slot(
    arena: &Arena,
    stack: &mut Vec<Pending>,
    scope: &Scope,
    slot: u8,
) -> Result<(), AllocError>
    requires within { scope.now.owner < length arena.now.forest.nodes }
    requires known { All (λ w. w.at < length arena.now.forest.places) stack.old.items }
    ensures known { All (λ w. w.at < length arena.now.forest.places) stack.new.items }
    ensures waits { OnOk result (rests arena.now stack.new.items ≡ kept_list arena.now (length arena.now.forest.nodes) (own_scoping_of arena.now.forest scope.now slot) (first_at arena.now.forest scope.now.owner slot) ++ rests arena.now stack.old.items) }
{
    let first = arena.slot_first(scope.owner, slot);
    let scoping = own_scoping(arena, scope, slot);
    push_list(arena, stack, first, arena.nodes(), scoping)
}

/// Pushes the slots of the scope's owner, the first of them on top.
#[tactic(auto, using(crate::proofs::WorkStack::own_push))]
fn push_own(arena: &Arena, stack: &mut Vec<Pending>, scope: &Scope) -> Result<(), AllocError>
    requires within { scope.now.owner < length arena.now.forest.nodes }
    requires known { All (λ w. w.at < length arena.now.forest.places) stack.old.items }
    ensures known { All (λ w. w.at < length arena.now.forest.places) stack.new.items }
    ensures waits { OnOk result (rests arena.now stack.new.items ≡ own_places arena.now scope.now ++ rests arena.now stack.old.items) }
{
    push_own_slot(arena, stack, scope, 3)?;
    push_own_slot(arena, stack, scope, 2)?;
    push_own_slot(arena, stack, scope, 1)?;
    push_own_slot(arena, stack, scope, 0)?;
    Ok(())
}

/// Pushes a slot of a node below the owner.
#[tactic(auto, using(crate::proofs::WorkStack::list_absent))]
fn push_slot(
    arena: &Arena,
    stack: &mut Vec<Pending>,
    node: NodeId,
    slot: u8,
    depth: u32,
    scoping: Scoping,
) -> Result<(), AllocError>
    requires within { node < length arena.now.forest.nodes }
    requires known { All (λ w. w.at < length arena.now.forest.places) stack.old.items }
    ensures known { All (λ w. w.at < length arena.now.forest.places) stack.new.items }
    ensures waits { OnOk result (rests arena.now stack.new.items ≡ kept_list arena.now depth (scoping_below_of arena.now node slot scoping) (first_at arena.now.forest node slot) ++ rests arena.now stack.old.items) }
{
    let first = arena.slot_first(node, slot);
    let Some(_) = first else {
        return Ok(());
    };
    let scoping = scoping_below(arena, node, slot, scoping);
    push_list(arena, stack, first, depth, scoping)
}

/// Pushes the slots of a node below the owner, the first of them on top.
#[tactic(auto, using(crate::proofs::WorkStack::slots_zero, crate::proofs::WorkStack::slots_push))]
fn push_slots(
    arena: &Arena,
    stack: &mut Vec<Pending>,
    node: NodeId,
    depth: u32,
    scoping: Scoping,
) -> Result<(), AllocError>
    requires within { node < length arena.now.forest.nodes }
    requires known { All (λ w. w.at < length arena.now.forest.places) stack.old.items }
    ensures known { All (λ w. w.at < length arena.now.forest.places) stack.new.items }
    ensures waits { OnOk result (rests arena.now stack.new.items ≡ below depth arena.now scoping node ++ rests arena.now stack.old.items) }
{
    if depth == 0 {
        return Ok(());
    }
    let lower = depth - 1;
    push_slot(arena, stack, node, 3, lower, scoping)?;
    push_slot(arena, stack, node, 2, lower, scoping)?;
    push_slot(arena, stack, node, 1, lower, scoping)?;
    push_slot(arena, stack, node, 0, lower, scoping)?;
    Ok(())
}

/// Pushes the rest of a list behind its first place, and on top of it what is below that place.
#[tactic(auto, using(crate::proofs::WorkStack::step_none, crate::proofs::WorkStack::step_some))]
fn step(arena: &Arena, pending: &Pending, stack: &mut Vec<Pending>) -> Result<(), AllocError>
    requires within { pending.now.at < length arena.now.forest.places }
    requires known { All (λ w. w.at < length arena.now.forest.places) stack.old.items }
    ensures known { All (λ w. w.at < length arena.now.forest.places) stack.new.items }
    ensures waits { OnOk result (rest arena.now pending.now ++ rests arena.now stack.old.items ≡ met arena.now pending.now.scoping pending.now.at ∷ rests arena.now stack.new.items) }
{
    let next = arena.next(pending.at);
    push_rest(
        arena,
        stack,
        next,
        pending.more,
        pending.depth,
        pending.scoping,
    )?;
    match arena.node_at(pending.at) {
        None => Ok(()),
        Some(node) => push_slots(arena, stack, node, pending.depth, pending.scoping),
    }
}

/// Whether an Identifier in the place declares its name in the scope.
fn does_bind(arena: &Arena, scoping: Scoping, place: PlaceId) -> bool
    requires { place < length arena.now.forest.places }
    ensures { result ≡ does_bind arena.now scoping place }
{
    scoping.binds && name_at(arena, place).is_some()
}

/// The places whose Identifiers declare their names in the scope; none of what is no scope.
#[tactic(auto, using(crate::proofs::WorkStack::told_start, crate::proofs::WorkStack::told_end, crate::proofs::WorkStack::told_kept, crate::proofs::WorkStack::told_passed, crate::proofs::WorkStack::shorter))]
pub fn declared(alloc: Global, arena: &Arena, scope: &Scope) -> Result<Vec<PlaceId>, AllocError>
    requires { scope.now.owner < length arena.now.forest.nodes }
    ensures found { IfOk result (λ v. v.items ≡ declaring arena.now scope.now) }
    ensures within { IfOk result (λ v. All (λ p. p < length arena.now.forest.places) v.items) }
{
    let mut found = Vec::new(alloc);
    let mut stack = Vec::new(alloc);
    push_own(arena, &mut stack, scope)?;
    while let Some(pending) = stack.pop() {
        step(arena, &pending, &mut stack)?;
        if does_bind(arena, pending.scoping, pending.at) {
            found.push(pending.at)?;
        }
    }
    Ok(found)
}

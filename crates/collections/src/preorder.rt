//! The places below a node in preorder, by an explicit stack of lists.

ghost use Rattle.std.specs.Prelude.{◌≡◌, ◌<◌, ◌++◌, ◌∷◌, [], length, filter, All, Some, IfOk, IfSome, OnOk};
ghost use Rattle.collections.specs.Below.{below, is_of, listed, rest, rests};

use node_arena::{Arena, NodeId, PlaceId};
use std::alloc::{AllocError, Global};
use type_defs::{NodeType, is_a};

/// A pending rest of a list: its first place, how many more at most come behind it, and the depth
/// to which what stands in them is followed.
#[derive(Clone, Copy)]
pub struct Pending {
    pub at: PlaceId,
    pub more: u32,
    pub depth: u32,
}

/// Pushes so many places of a list.
#[tactic(auto, using(crate::proofs::WorkStack::push_none, crate::proofs::WorkStack::push_zero, crate::proofs::WorkStack::push_some))]
fn push_list(
    arena: &Arena,
    stack: &mut Vec<Pending>,
    at: Option<PlaceId>,
    count: u32,
    depth: u32,
) -> Result<(), AllocError>
    requires within { IfSome at (λ p. p < length arena.now.forest.places) }
    requires known { All (λ w. w.at < length arena.now.forest.places) stack.old.items }
    ensures known { All (λ w. w.at < length arena.now.forest.places) stack.new.items }
    ensures waits { OnOk result (rests arena.now.forest stack.new.items ≡ listed count arena.now.forest depth at ++ rests arena.now.forest stack.old.items) }
{
    if count == 0 {
        return Ok(());
    }
    let Some(at) = at else {
        return Ok(());
    };
    let more = count - 1;
    stack.push(Pending { at, more, depth })?;
    Ok(())
}

/// Pushes the slots of a node, the first of them on top.
#[tactic(auto, using(crate::proofs::WorkStack::slots_zero, crate::proofs::WorkStack::slots_push))]
fn push_slots(
    arena: &Arena,
    stack: &mut Vec<Pending>,
    node: NodeId,
    depth: u32,
) -> Result<(), AllocError>
    requires within { node < length arena.now.forest.nodes }
    requires known { All (λ w. w.at < length arena.now.forest.places) stack.old.items }
    ensures known { All (λ w. w.at < length arena.now.forest.places) stack.new.items }
    ensures waits { OnOk result (rests arena.now.forest stack.new.items ≡ below depth arena.now.forest node ++ rests arena.now.forest stack.old.items) }
{
    if depth == 0 {
        return Ok(());
    }
    let lower = depth - 1;
    let most = arena.places();
    push_list(arena, stack, arena.slot_first(node, 3), most, lower)?;
    push_list(arena, stack, arena.slot_first(node, 2), most, lower)?;
    push_list(arena, stack, arena.slot_first(node, 1), most, lower)?;
    push_list(arena, stack, arena.slot_first(node, 0), most, lower)?;
    Ok(())
}

/// Pushes the rest of a list behind its first place, and on top of it what is below that place.
#[tactic(auto, using(crate::proofs::WorkStack::step_none, crate::proofs::WorkStack::step_some))]
fn step(arena: &Arena, pending: &Pending, stack: &mut Vec<Pending>) -> Result<(), AllocError>
    requires within { pending.now.at < length arena.now.forest.places }
    requires known { All (λ w. w.at < length arena.now.forest.places) stack.old.items }
    ensures known { All (λ w. w.at < length arena.now.forest.places) stack.new.items }
    ensures waits { OnOk result (rest arena.now.forest pending.now ++ rests arena.now.forest stack.old.items ≡ pending.now.at ∷ rests arena.now.forest stack.new.items) }
{
    let next = arena.next(pending.at);
    push_list(arena, stack, next, pending.more, pending.depth)?;
    match arena.node_at(pending.at) {
        None => Ok(()),
        Some(node) => push_slots(arena, stack, node, pending.depth),
    }
}

/// Whether a node of the type stands in the place.
pub fn is_of(arena: &Arena, place: PlaceId, of: NodeType) -> bool
    requires { place < length arena.now.forest.places }
    ensures { result ≡ is_of arena.now.forest of place }
{
    match arena.node_at(place) {
        None => false,
        Some(node) => is_a(arena.kind(node), of),
    }
}

/// The places strictly below a node where nodes of the type stand, in preorder.
#[tactic(auto, using(crate::proofs::WorkStack::told_start, crate::proofs::WorkStack::told_end, crate::proofs::WorkStack::told_kept, crate::proofs::WorkStack::told_passed, crate::proofs::WorkStack::shorter))]
pub fn below_of(
    alloc: Global,
    arena: &Arena,
    node: NodeId,
    of: NodeType,
) -> Result<Vec<PlaceId>, AllocError>
    requires { node < length arena.now.forest.nodes }
    ensures found { IfOk result (λ v. v.items ≡ filter (is_of arena.now.forest of) (below (length arena.now.forest.nodes) arena.now.forest node)) }
    ensures within { IfOk result (λ v. All (λ p. p < length arena.now.forest.places) v.items) }
{
    let mut found = Vec::new(alloc);
    let mut stack = Vec::new(alloc);
    push_slots(arena, &mut stack, node, arena.nodes())?;
    while let Some(pending) = stack.pop() {
        step(arena, &pending, &mut stack)?;
        if is_of(arena, pending.at, of) {
            found.push(pending.at)?;
        }
    }
    Ok(found)
}

//! A tree into the arena.

ghost use Rattle.std.specs.Prelude.{◌≡◌, ◌<◌, ◌≤◌, length, IfOk, IfSome, OnErr};

use crate::places::{MAX_SLOTS, make_at, make_places};
use crate::saying::say;
use node_arena::{Arena, ArenaFault, NodeId, PlaceId};
use std::alloc::Global;
use tree_core::{Parsed, Place, Slot, Tree};

/// Loads a tree that was read: its first node stands in the root place, which is answered. What the
/// arena held is gone. Nodes are numbered in preorder, and places node by node, for each node its
/// single places first. After a refusal the arena is as it was.
pub fn load(alloc: Global, arena: &mut Arena, parsed: &Parsed) -> Result<PlaceId, ArenaFault>
    ensures root { IfOk result (λ p. p ≡ 0) }
    ensures within { IfOk result (λ p. p < length arena.new.forest.places) }
    ensures err { OnErr result (arena.new ≡ arena.old) }
{
    let mut loaded = Arena::new(alloc)?;
    let root = loaded.root();
    load_node(alloc, &mut loaded, &parsed.tree, root)?;
    *arena = loaded;
    Ok(root)
}

/// The tree's first node comes into a place, and all below it into its places.
#[cycle(load)]
fn load_node(
    alloc: Global,
    arena: &mut Arena,
    tree: &Tree,
    place: PlaceId,
) -> Result<(), ArenaFault>
    requires at { place < length arena.old.forest.places }
    ensures nodes { length arena.old.forest.nodes ≤ length arena.new.forest.nodes }
    ensures places { length arena.old.forest.places ≤ length arena.new.forest.places }
{
    let node = make_at(arena, tree.kind, place)?;
    match say(alloc, arena, node, tree) {
        Ok(()) => {}
        Err(_) => return Err(ArenaFault::NoMemory),
    }
    make_places(arena, node, tree.slots.as_slice())?;
    load_slots(alloc, arena, tree.slots.as_slice(), node)
}

/// What stands in these slots comes into the slots of a node.
#[cycle(load)]
fn load_slots(
    alloc: Global,
    arena: &mut Arena,
    slots: &[Slot],
    node: NodeId,
) -> Result<(), ArenaFault>
    requires at { node < length arena.old.forest.nodes }
    ensures nodes { length arena.old.forest.nodes ≤ length arena.new.forest.nodes }
    ensures places { length arena.old.forest.places ≤ length arena.new.forest.places }
{
    for index in 0..slots.len() {
        if index < MAX_SLOTS {
            let first = arena.slot_first(node, index as u8);
            load_slot(alloc, arena, &slots[index], first)?;
        }
    }
    Ok(())
}

/// What stands in the slot's places comes into places of the arena, from the first on.
#[cycle(load)]
fn load_slot(
    alloc: Global,
    arena: &mut Arena,
    slot: &Slot,
    first: Option<PlaceId>,
) -> Result<(), ArenaFault>
    requires at { IfSome first (λ p. p < length arena.old.forest.places) }
    ensures nodes { length arena.old.forest.nodes ≤ length arena.new.forest.nodes }
    ensures places { length arena.old.forest.places ≤ length arena.new.forest.places }
{
    match slot {
        Slot::Single(place) => {
            let Some(at) = first else {
                return Ok(());
            };
            load_place(alloc, arena, place, at)
        }
        Slot::List(places) => {
            let mut at = first;
            for place in places.as_slice() {
                let Some(here) = at else {
                    return Ok(());
                };
                load_place(alloc, arena, place, here)?;
                at = arena.next(here);
            }
            Ok(())
        }
    }
}

/// What stands in a place comes into a place of the arena.
#[cycle(load)]
fn load_place(
    alloc: Global,
    arena: &mut Arena,
    place: &Place,
    at: PlaceId,
) -> Result<(), ArenaFault>
    requires at { at < length arena.old.forest.places }
    ensures nodes { length arena.old.forest.nodes ≤ length arena.new.forest.nodes }
    ensures places { length arena.old.forest.places ≤ length arena.new.forest.places }
{
    match &place.node {
        None => Ok(()),
        Some(tree) => load_node(alloc, arena, tree, at),
    }
}

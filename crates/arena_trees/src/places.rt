//! New nodes with their places, as a tree has them.

ghost use Rattle.std.specs.Prelude.{◌≡◌, ◌<◌, ◌≤◌, true, length, IfOk, IfSome};
ghost use Rattle.type_defs.specs.Fields.{is_list_at};
ghost use Rattle.node_arena.specs.Reads.{kind_at};

use node_arena::{Arena, ArenaFault, NodeId, PlaceId, Steps};
use std::marker::Brand;
use std::sync::ledger::{Blank, Ledger};
use tree_core::{Place, Slot};
use type_defs::{Kind, is_list};

/// The most slots of a node.
pub const MAX_SLOTS: usize = 4;

/// A new node of a kind in a place.
pub fn make_at(arena: &mut Arena, kind: Kind, place: PlaceId) -> Result<NodeId, ArenaFault>
    requires at { place < length arena.old.forest.places }
    ensures within { IfOk result (λ j. j < length arena.new.forest.nodes) }
    ensures nodes { length arena.old.forest.nodes ≤ length arena.new.forest.nodes }
    ensures places { length arena.old.forest.places ≤ length arena.new.forest.places }
{
    make_counted::<Brand>(arena, kind, place, Blank::new(1))
}

#[tactic(auto, using(crate::proofs::Growing::put_nodes, crate::proofs::Growing::put_places, crate::proofs::Growing::make_nodes, crate::proofs::Growing::make_places))]
fn make_counted<L: Ledger>(
    arena: &mut Arena,
    kind: Kind,
    place: PlaceId,
    blank: Blank,
) -> Result<NodeId, ArenaFault>
    requires name { blank.name ≡ L.name }
    requires parts { blank.parts ≡ L.parts }
    requires some { 0 < blank.parts }
    requires at { place < length arena.old.forest.places }
    ensures within { IfOk result (λ j. j < length arena.new.forest.nodes) }
    ensures nodes { length arena.old.forest.nodes ≤ length arena.new.forest.nodes }
    ensures places { length arena.old.forest.places ≤ length arena.new.forest.places }
{
    let mut steps = Steps::<L>::new(blank);
    let node = arena.make(kind)?;
    arena.put(place, node, &mut steps);
    Ok(node)
}

/// Gives a new node's lists as many places as the slots have, and names to all its places.
pub fn make_places(arena: &mut Arena, node: NodeId, slots: &[Slot]) -> Result<(), ArenaFault>
    requires at { node < length arena.old.forest.nodes }
    ensures nodes { length arena.old.forest.nodes ≤ length arena.new.forest.nodes }
    ensures places { length arena.old.forest.places ≤ length arena.new.forest.places }
{
    for index in 0..slots.len() {
        if index < MAX_SLOTS {
            make_slot(arena, node, index as u8, &slots[index])?;
        }
    }
    Ok(())
}

/// Gives a new node's slot as many places as another has, with their names.
fn make_slot(arena: &mut Arena, node: NodeId, index: u8, slot: &Slot) -> Result<(), ArenaFault>
    requires at { node < length arena.old.forest.nodes }
    ensures nodes { length arena.old.forest.nodes ≤ length arena.new.forest.nodes }
    ensures places { length arena.old.forest.places ≤ length arena.new.forest.places }
{
    match slot {
        Slot::Single(place) => {
            if let Some(at) = arena.slot_first(node, index) {
                name_place(arena, at, place);
            }
            Ok(())
        }
        Slot::List(places) => {
            if !is_list(arena.kind(node), index) {
                return Ok(());
            }
            make_list::<Brand>(arena, node, index, places.as_slice(), Blank::new(1))
        }
    }
}

/// Gives a place the name of another.
fn name_place(arena: &mut Arena, at: PlaceId, place: &Place)
    requires at { at < length arena.old.forest.places }
    ensures forest { arena.new.forest ≡ arena.old.forest }
{
    if let Some(name) = place.name {
        arena.set_name(at, name);
    }
}

/// Gives a new node's empty list these places, empty, with their names.
fn make_list<L: Ledger>(
    arena: &mut Arena,
    node: NodeId,
    slot: u8,
    places: &[Place],
    blank: Blank,
) -> Result<(), ArenaFault>
    requires name { blank.name ≡ L.name }
    requires parts { blank.parts ≡ L.parts }
    requires some { 0 < blank.parts }
    requires at { node < length arena.old.forest.nodes }
    requires list { is_list_at (kind_at arena.old.forest node) slot ≡ true }
    ensures nodes { arena.new.forest.nodes ≡ arena.old.forest.nodes }
    ensures places { length arena.old.forest.places ≤ length arena.new.forest.places }
{
    let mut steps = Steps::<L>::new(blank);
    let mut last = None;
    for place in places {
        let new = push_place(arena, node, slot, last, &mut steps)?;
        name_place(arena, new, place);
        last = Some(new);
    }
    Ok(())
}

/// A new empty place of a list, after its last.
#[tactic(auto, using(crate::proofs::Growing::first_places, crate::proofs::Growing::after_nodes, crate::proofs::Growing::after_places))]
fn push_place<L: Ledger>(
    arena: &mut Arena,
    node: NodeId,
    slot: u8,
    last: Option<PlaceId>,
    steps: &mut Steps<L>,
) -> Result<PlaceId, ArenaFault>
    requires at { node < length arena.old.forest.nodes }
    requires list { is_list_at (kind_at arena.old.forest node) slot ≡ true }
    requires last { IfSome last (λ p. p < length arena.old.forest.places) }
    ensures within { IfOk result (λ p. p < length arena.new.forest.places) }
    ensures nodes { arena.new.forest.nodes ≡ arena.old.forest.nodes }
    ensures places { length arena.old.forest.places ≤ length arena.new.forest.places }
{
    let Some(last) = last else {
        return arena.insert_first(node, slot, None, steps);
    };
    arena.insert_after(last, None, steps)
}

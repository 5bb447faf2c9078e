//! Places of node lists that are made, filled, emptied and taken out. What goes in was settled.

ghost use Rattle.std.specs.Prelude.{◌≡◌, ◌<◌, ◌≤◌, length, IfOk, IfSome};
ghost use Rattle.ast_paths.specs.Paths.{KeepsIds};

use node_arena::{Arena, ArenaFault, NodeId, PlaceId, Steps};
use script_values::{Fault, Stop};
use std::marker::Brand;
use std::sync::ledger::{Blank, Ledger};
use type_defs::is_list;

/// The stop of a change that the arena refuses.
pub fn arena_stop(fault: ArenaFault) -> Stop {
    match fault {
        ArenaFault::Full => Stop::Fault(Fault::NodesFull),
        ArenaFault::NotInList => Stop::Fault(Fault::NotInList),
        ArenaFault::NoMemory => Stop::NoMemory,
    }
}

/// A root into a place, where it may go there.
#[tactic(auto, using(ast_paths::proofs::Sizes::nodes_put, ast_paths::proofs::Sizes::places_put, ast_paths::proofs::Filled::ids_kept))]
fn put_child<L: Ledger>(arena: &mut Arena, place: PlaceId, child: NodeId, steps: &mut Steps<L>)
    requires at { place < length arena.old.forest.places }
    ensures ids { KeepsIds arena.old.forest arena.new.forest }
{
    if child.number() < arena.nodes() && arena.may_go(child, place) {
        arena.put(place, child, steps);
    }
}

/// A new empty place of a list: behind a place of it, or the first.
#[tactic(auto, using(ast_paths::proofs::Joining::joins_none, ast_paths::proofs::Joining::nodes_after, ast_paths::proofs::Joining::places_after, ast_paths::proofs::Joining::nodes_first, ast_paths::proofs::Joining::places_first, ast_paths::proofs::Filled::ids_kept))]
fn new_place<L: Ledger>(
    arena: &mut Arena,
    owner: NodeId,
    slot: u8,
    behind: Option<PlaceId>,
    steps: &mut Steps<L>,
) -> Result<PlaceId, ArenaFault>
    requires owner { owner < length arena.old.forest.nodes }
    requires behind { IfSome behind (λ p. p < length arena.old.forest.places) }
    ensures within { IfOk result (λ p. p < length arena.new.forest.places) }
    ensures ids { KeepsIds arena.old.forest arena.new.forest }
{
    if let Some(behind) = behind {
        return match arena.insert_after(behind, None, steps) {
            Ok(new) => Ok(new),
            Err(fault) => Err(fault),
        };
    }
    if !is_list(arena.kind(owner), slot) {
        return Err(ArenaFault::NotInList);
    }
    match arena.insert_first(owner, slot, None, steps) {
        Ok(new) => Ok(new),
        Err(fault) => Err(fault),
    }
}

#[tactic(auto, using(ast_paths::proofs::Filled::ids_kept))]
fn insert_counting<L: Ledger>(
    arena: &mut Arena,
    owner: NodeId,
    slot: u8,
    behind: Option<PlaceId>,
    child: Option<NodeId>,
    blank: Blank,
) -> Result<PlaceId, ArenaFault>
    requires name { blank.name ≡ L.name }
    requires parts { blank.parts ≡ L.parts }
    requires some { 0 < blank.parts }
    requires owner { owner < length arena.old.forest.nodes }
    requires behind { IfSome behind (λ p. p < length arena.old.forest.places) }
    ensures within { IfOk result (λ p. p < length arena.new.forest.places) }
    ensures ids { KeepsIds arena.old.forest arena.new.forest }
{
    let mut steps = Steps::<L>::new(blank);
    let place = new_place(arena, owner, slot, behind, &mut steps)?;
    if let Some(child) = child {
        put_child(arena, place, child, &mut steps);
    }
    Ok(place)
}

/// A new place of a node list, behind a place of it or as the first, with a root or without.
pub fn insert_place(
    arena: &mut Arena,
    owner: NodeId,
    slot: u8,
    behind: Option<PlaceId>,
    child: Option<NodeId>,
) -> Result<PlaceId, Stop>
    requires owner { owner < length arena.old.forest.nodes }
    requires behind { IfSome behind (λ p. p < length arena.old.forest.places) }
    ensures within { IfOk result (λ p. p < length arena.new.forest.places) }
    ensures ids { KeepsIds arena.old.forest arena.new.forest }
{
    match insert_counting::<Brand>(arena, owner, slot, behind, child, Blank::new(1)) {
        Ok(place) => Ok(place),
        Err(fault) => Err(arena_stop(fault)),
    }
}

#[tactic(auto, using(ast_paths::proofs::Sizes::nodes_cleared, ast_paths::proofs::Sizes::places_cleared, ast_paths::proofs::Filled::ids_kept))]
fn clear_counting<L: Ledger>(arena: &mut Arena, place: PlaceId, blank: Blank)
    requires name { blank.name ≡ L.name }
    requires parts { blank.parts ≡ L.parts }
    requires some { 0 < blank.parts }
    requires at { place < length arena.old.forest.places }
    ensures ids { KeepsIds arena.old.forest arena.new.forest }
{
    let mut steps = Steps::<L>::new(blank);
    let _gone = arena.clear(place, &mut steps);
}

/// Empties a place; what stood there is a root.
pub fn clear_place(arena: &mut Arena, place: PlaceId)
    requires at { place < length arena.old.forest.places }
    ensures ids { KeepsIds arena.old.forest arena.new.forest }
{
    clear_counting::<Brand>(arena, place, Blank::new(1));
}

#[tactic(auto, using(ast_paths::proofs::Sizes::nodes_unlinked, ast_paths::proofs::Sizes::places_unlinked, ast_paths::proofs::Filled::ids_kept))]
fn unlink_counting<L: Ledger>(
    arena: &mut Arena,
    place: PlaceId,
    blank: Blank,
) -> Result<(), ArenaFault>
    requires name { blank.name ≡ L.name }
    requires parts { blank.parts ≡ L.parts }
    requires some { 0 < blank.parts }
    requires at { place < length arena.old.forest.places }
    ensures ids { KeepsIds arena.old.forest arena.new.forest }
{
    let mut steps = Steps::<L>::new(blank);
    match arena.unlink(place, &mut steps) {
        Ok(_) => Ok(()),
        Err(fault) => Err(fault),
    }
}

/// Takes a place out of its list; what stood there is a root.
pub fn unlink_place(arena: &mut Arena, place: PlaceId) -> Result<(), Stop>
    requires at { place < length arena.old.forest.places }
    ensures ids { KeepsIds arena.old.forest arena.new.forest }
{
    match unlink_counting::<Brand>(arena, place, Blank::new(1)) {
        Ok(()) => Ok(()),
        Err(fault) => Err(arena_stop(fault)),
    }
}

//! Nodes into new places of a node list, settled with regard to the list's owner.

ghost use Rattle.std.specs.Prelude.{◌≡◌, ◌≤◌, length, true, OnOk, ◌+◌};

use crate::arguments::Item;
use crate::door::{known_node, known_place};
use crate::host::{Host, push};
use crate::list_changes::{arena_stop, insert_place};
use crate::lists::{ListMemo, forget_list, list_length, list_place, remember_place};
use crate::weights::{Aim, Weight, holds_aim, test_room, weigh};
use indexmap::IndexSet;
use node_arena::{Arena, NodeId, PlaceId};
use script_values::{Stop, take};

// A root that may go into a new place of a list of the owner: the node itself, which leaves a copy
// where it stood, or a copy where it holds the owner.
fn settle_for(arena: &mut Arena, owner: NodeId, node: NodeId) -> Result<NodeId, Stop>
    ensures nodes { length arena.old.forest.nodes ≤ length arena.new.forest.nodes }
    ensures places { length arena.old.forest.places ≤ length arena.new.forest.places }
{
    let owner = known_node(arena, owner)?;
    let node = known_node(arena, node)?;
    if holds_aim(arena, node, &Aim::Owner(owner))? {
        return copy_of(arena, node);
    }
    let root = arena.root();
    let judge = match arena.place_of(owner) {
        Some(place) => place,
        None => root,
    };
    match ast_paths::settle(arena, node, judge) {
        Ok(root) => Ok(root),
        Err(fault) => Err(arena_stop(fault)),
    }
}

fn copy_of(arena: &mut Arena, node: NodeId) -> Result<NodeId, Stop>
    ensures nodes { length arena.old.forest.nodes ≤ length arena.new.forest.nodes }
    ensures places { length arena.old.forest.places ≤ length arena.new.forest.places }
{
    let node = known_node(arena, node)?;
    match arena.copy(node) {
        Ok(copy) => Ok(copy),
        Err(fault) => Err(arena_stop(fault)),
    }
}

fn settle_item(arena: &mut Arena, owner: NodeId, item: Item) -> Result<Item, Stop>
    ensures nodes { length arena.old.forest.nodes ≤ length arena.new.forest.nodes }
    ensures places { length arena.old.forest.places ≤ length arena.new.forest.places }
{
    match item {
        None => Ok(None),
        Some(node) => Ok(Some(settle_for(arena, owner, node)?)),
    }
}

// What a new place with this item makes.
fn weigh_item(host: &Host, owner: NodeId, item: &Item) -> Result<Weight, Stop> {
    let aim = Aim::Owner(owner);
    let weight = match *item {
        None => weigh(host.alloc, &host.arena, &[], &aim)?,
        Some(node) => weigh(host.alloc, &host.arena, &[node], &aim)?,
    };
    Ok(Weight {
        nodes: weight.nodes,
        places: weight.places.saturating_add(1),
    })
}

/// A new place of a list, behind a place of it or as the first, with what is to stand there, settled.
/// NodesFull is tested first. The caller's list is forgotten.
pub fn insert_item(
    host: &mut Host,
    owner: NodeId,
    slot: u8,
    behind: Option<PlaceId>,
    item: Item,
) -> Result<PlaceId, Stop>
    ensures nodes { length host.old.arena.forest.nodes ≤ length host.new.arena.forest.nodes }
    ensures places { length host.old.arena.forest.places ≤ length host.new.arena.forest.places }
    ensures changed { OnOk result (host.new.changed ≡ true) }
{
    let weight = weigh_item(host, owner, &item)?;
    test_room(&host.arena, weight)?;
    let root = settle_item(&mut host.arena, owner, item)?;
    let place = insert_root(&mut host.arena, owner, slot, behind, root)?;
    forget_list(&mut host.known.lists, owner, slot);
    host.changed = true;
    Ok(place)
}

fn insert_root(
    arena: &mut Arena,
    owner: NodeId,
    slot: u8,
    behind: Option<PlaceId>,
    root: Item,
) -> Result<PlaceId, Stop>
    ensures nodes { length arena.old.forest.nodes ≤ length arena.new.forest.nodes }
    ensures places { length arena.old.forest.places ≤ length arena.new.forest.places }
{
    let owner = known_node(arena, owner)?;
    let behind = match behind {
        None => None,
        Some(place) => Some(known_place(arena, place)?),
    };
    insert_place(arena, owner, slot, behind, root)
}

// The nodes among items.
fn named_nodes(host: &Host, items: &[Item]) -> Result<Vec<NodeId>, Stop> {
    let mut nodes = Vec::new(host.alloc);
    for item in items.iter().copied() {
        if let Some(node) = item {
            push(&mut nodes, node)?;
        }
    }
    Ok(nodes)
}

// The roots that go in for the items, all settled before the first goes in. A node that is named
// again gives a copy.
fn settle_items(host: &mut Host, owner: NodeId, items: &[Item]) -> Result<Vec<Item>, Stop>
    ensures nodes { length host.old.arena.forest.nodes ≤ length host.new.arena.forest.nodes }
    ensures places { length host.old.arena.forest.places ≤ length host.new.arena.forest.places }
{
    let mut roots = Vec::new(host.alloc);
    let mut seen: IndexSet<u32> = IndexSet::new(host.alloc);
    for item in items.iter().copied() {
        let root = match item {
            None => None,
            Some(node) => {
                let (_, new) = seen.insert_full(node.number())?;
                if new {
                    Some(settle_for(&mut host.arena, owner, node)?)
                } else {
                    Some(copy_of(&mut host.arena, node)?)
                }
            }
        };
        push(&mut roots, root)?;
    }
    Ok(roots)
}

/// Which end of a list grows.
#[derive(Clone, Copy, Debug, PartialEq, Eq)]
pub enum End {
    Front,
    Back,
}

// The last place of a list, which is as long as told.
fn last_place(
    host: &mut Host,
    owner: NodeId,
    slot: u8,
    length: u32,
) -> Result<Option<PlaceId>, Stop>
    ensures forest { host.new.arena ≡ host.old.arena }
{
    if length == 0 {
        return Ok(None);
    }
    list_place(&host.arena, &mut host.known.lists, owner, slot, length - 1)
}

// The roots into new places, one behind the other; the last of these places.
fn insert_roots(
    host: &mut Host,
    owner: NodeId,
    slot: u8,
    behind: Option<PlaceId>,
    roots: &[Item],
) -> Result<Option<PlaceId>, Stop>
    ensures nodes { length host.old.arena.forest.nodes ≤ length host.new.arena.forest.nodes }
    ensures places { length host.old.arena.forest.places ≤ length host.new.arena.forest.places }
{
    let mut last = behind;
    for root in roots.iter().copied() {
        last = Some(insert_root(&mut host.arena, owner, slot, last, root)?);
        host.changed = true;
    }
    Ok(last)
}

/// Adds items to a node list, at its front or its back, and tells its new length. NodesFull is
/// tested, then a unit is taken for each item and each node that is copied, and then all go in.
pub fn add_items(
    host: &mut Host,
    owner: NodeId,
    slot: u8,
    items: &[Item],
    end: End,
    fuel: &mut u64,
) -> Result<u32, Stop>
    ensures fuel { fuel.new ≤ fuel.old }
    ensures nodes { length host.old.arena.forest.nodes ≤ length host.new.arena.forest.nodes }
    ensures places { length host.old.arena.forest.places ≤ length host.new.arena.forest.places }
    ensures fewer { OnOk result (fuel.new + length items.now ≤ fuel.old) }
{
    let nodes = named_nodes(host, items)?;
    let weight = weigh(host.alloc, &host.arena, &nodes, &Aim::Owner(owner))?;
    let count = items.len() as u64;
    let places = weight.places.saturating_add(count);
    test_room(
        &host.arena,
        Weight {
            nodes: weight.nodes,
            places,
        },
    )?;
    take(fuel, weight.nodes.saturating_add(count))?;
    let before = list_length(&host.arena, &mut host.known.lists, owner, slot)?;
    let length = before.saturating_add(u32::try_from(count).unwrap_or(u32::MAX));
    let behind = match end {
        End::Front => None,
        End::Back => last_place(host, owner, slot, before)?,
    };
    let roots = settle_items(host, owner, items)?;
    let last = insert_roots(host, owner, slot, behind, &roots)?;
    let made = length.saturating_sub(before);
    let end_index = match end {
        End::Front => made.saturating_sub(1),
        End::Back => length.saturating_sub(1),
    };
    remember_end(host, owner, slot, last, end_index, length)?;
    Ok(length)
}

/// Remembers a place that was made, with its index and the list's new length.
pub fn remember_end(
    host: &mut Host,
    owner: NodeId,
    slot: u8,
    made: Option<PlaceId>,
    index: u32,
    length: u32,
) -> Result<(), Stop>
    ensures forest { host.new.arena ≡ host.old.arena }
{
    let Some(place) = made else {
        return Ok(());
    };
    let memo = ListMemo {
        index,
        place,
        length: Some(length),
    };
    remember_place(&mut host.known.lists, owner, slot, memo)
}

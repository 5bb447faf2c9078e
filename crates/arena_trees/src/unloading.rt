//! A node of the arena back into a tree.

ghost use Rattle.std.specs.Prelude.{◌≡◌, ◌≢◌, ◌<◌, ◌≤◌, ◌↔◌, [], ◌∷◌, None, Err, length, map, IfOk, IfSome};
ghost use Rattle.node_arena.specs.Forest.{node_at};
ghost use Rattle.tree_core.specs.Height.{height, places_height};
ghost use Rattle.tree_core.specs.View.{place_view, places_of, slot_view, syntax};

use crate::fault::UnloadFault;
use crate::saying::scalars_of;
use node_arena::{Arena, NodeId, PlaceId};
use sqlite_items::Items;
use std::alloc::{AllocError, Global};
use tree_core::{Address, Notes, Place, Slot, Steps32, Tree, copy_comments};
use type_defs::{is_list, slot_count};

/// The greatest depth of a node that is unloaded, the first node having depth 1.
pub const MAX_DEPTH: u32 = 1000;

/// The node in a place with all that it holds, with its numbers and the names of its places.
pub fn unload(alloc: Global, arena: &Arena, root: PlaceId) -> Result<Tree, UnloadFault>
    requires at { root < length arena.now.forest.places }
    ensures height { IfOk result (λ t. height (syntax t) ≤ 1000) }
    ensures empty { result ≡ Err UnloadFault.Empty ↔ node_at arena.now.forest root ≡ None }
{
    let Some(node) = arena.node_at(root) else {
        return Err(UnloadFault::Empty);
    };
    let mut path = Items::new(alloc);
    unload_node(alloc, arena, node, MAX_DEPTH, &mut path)
}

/// The node that the path leads to, where it is no higher than so many levels.
#[tactic(auto, using(crate::proofs::Heights::slots_more))]
#[cycle(unload)]
fn unload_node(
    alloc: Global,
    arena: &Arena,
    node: NodeId,
    levels: u32,
    path: &mut Steps32,
) -> Result<Tree, UnloadFault>
    requires at { node < length arena.now.forest.nodes }
    ensures height { IfOk result (λ t. height (syntax t) ≤ levels) }
    ensures filled { result ≢ Err UnloadFault.Empty }
{
    if levels == 0 {
        return Err(UnloadFault::Deep {
            address: Address::new(Items::from_slice(alloc, path.as_slice())?),
        });
    }
    let mut child = 0;
    let count = slot_count(arena.kind(node));
    let mut slots = Items::from_vec(Vec::with_capacity(alloc, count)?);
    for index in 0..count {
        let slot = unload_slot(
            alloc,
            arena,
            node,
            index as u8,
            levels - 1,
            path,
            &mut child,
        )?;
        slots.push(slot)?;
    }
    Ok(Tree {
        kind: arena.kind(node),
        scalars: scalars_of(alloc, arena, node)?,
        slots,
        notes: notes_of(alloc, arena, node)?,
        from: arena.from_of(node),
    })
}

/// The comments of a node. Most nodes have none.
fn notes_of(alloc: Global, arena: &Arena, node: NodeId) -> Result<Notes, AllocError>
    requires at { node < length arena.now.forest.nodes }
{
    let (lead, trail, inner) = (arena.lead(node), arena.trail(node), arena.inner(node));
    if lead.is_empty() && trail.is_empty() && inner.is_empty() {
        return Ok(Notes::none());
    }
    Notes::new(
        alloc,
        copy_comments(alloc, lead.as_slice())?,
        copy_comments(alloc, trail.as_slice())?,
        copy_comments(alloc, inner.as_slice())?,
    )
}

/// The slot of this number of a node. The children before it are counted.
#[cycle(unload)]
fn unload_slot(
    alloc: Global,
    arena: &Arena,
    node: NodeId,
    slot: u8,
    levels: u32,
    path: &mut Steps32,
    child: &mut u32,
) -> Result<Slot, UnloadFault>
    requires at { node < length arena.now.forest.nodes }
    ensures height { IfOk result (λ s. places_height (slot_view s).1 ≤ levels) }
    ensures filled { result ≢ Err UnloadFault.Empty }
{
    let first = arena.slot_first(node, slot);
    if is_list(arena.kind(node), slot) {
        let places = unload_list(alloc, arena, first, levels, path, child)?;
        return Ok(Slot::List(places));
    }
    let Some(first) = first else {
        return Ok(Slot::Single(Place {
            name: None,
            node: None,
        }));
    };
    let place = unload_place(alloc, arena, first, levels, path, *child)?;
    *child = child.saturating_add(1);
    Ok(Slot::Single(place))
}

/// How many places a list has from the first on.
fn list_length(arena: &Arena, first: Option<PlaceId>) -> usize
    requires at { IfSome first (λ p. p < length arena.now.forest.places) }
{
    let mut at = first;
    for turn in 0..arena.places() {
        let Some(here) = at else {
            return turn as usize;
        };
        at = arena.next(here);
    }
    0
}

/// The places of a list from the first on.
#[tactic(auto, using(crate::proofs::Heights::places_more))]
#[cycle(unload)]
fn unload_list(
    alloc: Global,
    arena: &Arena,
    first: Option<PlaceId>,
    levels: u32,
    path: &mut Steps32,
    child: &mut u32,
) -> Result<Items<Place>, UnloadFault>
    requires at { IfSome first (λ p. p < length arena.now.forest.places) }
    ensures height { IfOk result (λ ps. places_height (places_of (map place_view ps)) ≤ levels) }
    ensures filled { result ≢ Err UnloadFault.Empty }
{
    let mut places = Items::from_vec(Vec::with_capacity(alloc, list_length(arena, first))?);
    let mut at = first;
    for _turn in 0..arena.places() {
        let Some(here) = at else {
            return Ok(places);
        };
        places.push(unload_place(alloc, arena, here, levels, path, *child)?)?;
        *child = child.saturating_add(1);
        at = arena.next(here);
    }
    Ok(places)
}

/// A place, which is the child of this number.
#[cycle(unload)]
fn unload_place(
    alloc: Global,
    arena: &Arena,
    place: PlaceId,
    levels: u32,
    path: &mut Steps32,
    child: u32,
) -> Result<Place, UnloadFault>
    requires at { place < length arena.now.forest.places }
    ensures height { IfOk result (λ p. places_height (places_of (place_view p ∷ [])) ≤ levels) }
    ensures filled { result ≢ Err UnloadFault.Empty }
{
    let name = arena.name_of(place);
    let Some(node) = arena.node_at(place) else {
        return Ok(Place { name, node: None });
    };
    path.push(child)?;
    let tree = unload_node(alloc, arena, node, levels, path)?;
    let _child = path.pop();
    Ok(Place {
        name,
        node: Some(tree.boxed(alloc)?),
    })
}

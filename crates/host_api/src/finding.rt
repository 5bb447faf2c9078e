//! `find`, `closest` and `closestScope` without a function.

ghost use Rattle.std.specs.Prelude.{◌≤◌, ◌≡◌};

use crate::below::Below;
use crate::collections::{new_collection, path_at, path_count};
use crate::filters::Filter;
use crate::matching::fits_object;
use host_fields::{Host, kind_at, known_node, known_place, push};
use indexmap::IndexSet;
use node_arena::{Arena, NodeId, PlaceId};
use scope_lookup::is_scope;
use script_values::{CollectionId, Fault, MAX_LIST_ITEMS, Stop, Value, take};
use std::alloc::Global;
use type_defs::{NodeType, is_a};

/// Paths without doubles, in the order in which they were found.
#[derive(Drop)]
pub struct Found {
    pub seen: IndexSet<u32>,
    pub paths: Vec<PlaceId>,
}

impl Found {
    pub fn new(alloc: Global) -> Found {
        Found {
            seen: IndexSet::new(alloc),
            paths: Vec::new(alloc),
        }
    }

    /// One more path, if it is not there.
    pub fn add(&mut self, place: PlaceId) -> Result<(), Stop> {
        let (_, new) = self.seen.insert_full(place.number())?;
        if new {
            push(&mut self.paths, place)?;
        }
        Ok(())
    }
}

/// The collection of what was found; ListLong where that is too much.
pub fn found_collection(
    host: &mut Host,
    paths: Vec<PlaceId>,
    on: CollectionId,
) -> Result<Value, Stop>
    ensures forest { host.new.arena ≡ host.old.arena }
{
    if paths.len() > MAX_LIST_ITEMS {
        return Err(Stop::Fault(Fault::ListLong));
    }
    new_collection(host, paths, Some(on))
}

/// Whether a node passes a filter that is no function.
pub fn passes(host: &mut Host, node: NodeId, filter: Filter, fuel: &mut u64) -> Result<bool, Stop>
    ensures fuel { fuel.new ≤ fuel.old }
    ensures forest { host.new.arena ≡ host.old.arena }
{
    match filter {
        Filter::Any => Ok(true),
        Filter::Fields(object) => fits_object(host, node, object, fuel),
        Filter::Function(_) => Ok(false),
    }
}

/// Nodes of a type that pass a filter.
#[derive(Clone, Copy, Debug)]
pub struct Wanted {
    pub named: NodeType,
    pub filter: Filter,
}

// A node that is visited: whether it is of the type and passes.
fn is_found(host: &mut Host, node: NodeId, wanted: &Wanted, fuel: &mut u64) -> Result<bool, Stop>
    ensures fuel { fuel.new ≤ fuel.old }
    ensures forest { host.new.arena ≡ host.old.arena }
{
    take(fuel, 1)?;
    if !is_a(kind_at(&host.arena, node)?, wanted.named) {
        return Ok(false);
    }
    passes(host, node, wanted.filter, fuel)
}

// What is found below one path.
fn find_below(
    host: &mut Host,
    path: PlaceId,
    wanted: &Wanted,
    found: &mut Found,
    fuel: &mut u64,
) -> Result<(), Stop>
    ensures fuel { fuel.new ≤ fuel.old }
    ensures forest { host.new.arena ≡ host.old.arena }
{
    let mut below = Below::new(host.alloc, &host.arena, path)?;
    for _turn in 0..host.arena.places() {
        let Some((place, node)) = below.next(&host.arena)? else {
            return Ok(());
        };
        let Some(node) = node else {
            continue;
        };
        if is_found(host, node, wanted, fuel)? {
            found.add(place)?;
        }
    }
    Ok(())
}

/// `find(type, filter)`
pub fn find(
    host: &mut Host,
    on: CollectionId,
    wanted: &Wanted,
    fuel: &mut u64,
) -> Result<Value, Stop>
    ensures fuel { fuel.new ≤ fuel.old }
    ensures forest { host.new.arena ≡ host.old.arena }
{
    let mut found = Found::new(host.alloc);
    for number in 0..path_count(host, on)? {
        let path = path_at(host, on, number)?;
        find_below(host, path, wanted, &mut found, fuel)?;
    }
    found_collection(host, found.paths, on)
}

/// The next ancestor that stands in a place, with that place.
pub fn ancestor(arena: &Arena, place: PlaceId) -> Result<Option<(PlaceId, NodeId)>, Stop> {
    let place = known_place(arena, place)?;
    let Some(owner) = arena.owner(place) else {
        return Ok(None);
    };
    match arena.place_of(owner) {
        None => Ok(None),
        Some(above) => Ok(Some((above, owner))),
    }
}

/// What ancestors are sought.
#[derive(Clone, Copy, Debug)]
pub enum Sought {
    Nodes(Wanted),
    Scopes,
}

// An ancestor that is visited: whether it is sought.
fn is_sought(host: &mut Host, node: NodeId, sought: &Sought, fuel: &mut u64) -> Result<bool, Stop>
    ensures fuel { fuel.new ≤ fuel.old }
    ensures forest { host.new.arena ≡ host.old.arena }
{
    match sought {
        Sought::Nodes(wanted) => is_found(host, node, wanted, fuel),
        Sought::Scopes => {
            take(fuel, 1)?;
            let node = known_node(&host.arena, node)?;
            Ok(is_scope(&host.arena, node))
        }
    }
}

// The nearest ancestor of a path that is sought.
fn climb(
    host: &mut Host,
    path: PlaceId,
    sought: &Sought,
    fuel: &mut u64,
) -> Result<Option<PlaceId>, Stop>
    ensures fuel { fuel.new ≤ fuel.old }
    ensures forest { host.new.arena ≡ host.old.arena }
{
    let mut at = path;
    for _turn in 0..host.arena.nodes() {
        let Some((above, owner)) = ancestor(&host.arena, at)? else {
            return Ok(None);
        };
        if is_sought(host, owner, sought, fuel)? {
            return Ok(Some(above));
        }
        at = above;
    }
    Ok(None)
}

/// `closest(type, filter)` and `closestScope()`
pub fn closest(
    host: &mut Host,
    on: CollectionId,
    sought: &Sought,
    fuel: &mut u64,
) -> Result<Value, Stop>
    ensures fuel { fuel.new ≤ fuel.old }
    ensures forest { host.new.arena ≡ host.old.arena }
{
    let mut found = Found::new(host.alloc);
    for number in 0..path_count(host, on)? {
        let path = path_at(host, on, number)?;
        if let Some(above) = climb(host, path, sought, fuel)? {
            found.add(above)?;
        }
    }
    found_collection(host, found.paths, on)
}

//! How many nodes a builder makes or copies.

ghost use Rattle.std.specs.Prelude.{◌≡◌, ◌≢◌, ◌<◌, ◌≤◌, ◌↔◌, Err, true, length, drop};
ghost use Rattle.std.specs.List.{list_any};
ghost use Rattle.type_defs.specs.Builders.{args_of};

use crate::arg::{BuildArg, BuildFault};
use crate::args::{check_args, count_items, item_at};
use crate::values::is_twice;
use indexmap::IndexSet;
use node_arena::{Arena, MAX_NODES, MAX_PLACES, NodeId};
use std::alloc::Global;
use type_defs::{FieldDef, Kind, slots};

/// Whether a node of the arguments stands among those before it.
fn is_named(args: &[BuildArg], number: usize, node: NodeId) -> bool {
    for before in 0..number {
        if item_at(args, before) == Some(node) {
            return true;
        }
    }
    false
}

/// The numbers of the nodes that were named. Where there is no memory for one, the set is given up
/// and the arguments are searched.
#[derive(Drop)]
struct Named {
    seen: IndexSet<u32>,
    complete: bool,
}

impl Named {
    /// Whether the node of this number among those of the arguments stands among those before it;
    /// it does for the nodes that are asked for from then on.
    fn add(&mut self, args: &[BuildArg], number: usize, node: NodeId) -> bool {
        if self.complete {
            if let Ok((_, new)) = self.seen.insert_full(node.number()) {
                return !new;
            }
            self.complete = false;
        }
        is_named(args, number, node)
    }
}

/// Nodes and places that are made.
#[derive(Clone, Copy, Debug)]
struct Made {
    nodes: usize,
    places: usize,
}

/// The same and a copy of a node.
fn with_copy(arena: &Arena, made: Made, node: NodeId) -> Made {
    if node.number() >= arena.nodes() {
        return made;
    }
    let size = arena.size(node);
    Made {
        nodes: made.nodes.saturating_add(size.nodes as usize),
        places: made.places.saturating_add(size.places as usize),
    }
}

/// Whether a copy is made of a node of the arguments, which is named before or not.
fn is_copied(arena: &Arena, node: NodeId, named: bool) -> bool {
    if node.number() >= arena.nodes() {
        return false;
    }
    named || !arena.is_root(node)
}

/// What is made for the nodes of the arguments.
fn copies_of(alloc: Global, arena: &Arena, args: &[BuildArg], first: Made) -> Made {
    let mut made = first;
    let mut named = Named {
        seen: IndexSet::new(alloc),
        complete: true,
    };
    for number in 0..count_items(args) {
        let Some(node) = item_at(args, number) else {
            continue;
        };
        let again = named.add(args, number, node);
        if is_copied(arena, node, again) {
            made = with_copy(arena, made, node);
        }
    }
    made
}

fn is_single(slot: &FieldDef) -> bool {
    !slot.1.list
}

/// How many places a node of the kind has in slots that are no lists.
fn singles(kind: Kind) -> usize {
    slots(kind).iter().filter(|slot| is_single(slot)).count()
}

/// How many places the arguments fill in lists.
fn listed(args: &[BuildArg]) -> usize {
    let mut count: usize = 0;
    for arg in args {
        if let BuildArg::Nodes(items) = arg {
            count = count.saturating_add(items.len());
        }
    }
    count
}

/// How many places the node itself has with these arguments.
pub(crate) fn own_places(kind: Kind, args: &[BuildArg]) -> usize {
    singles(kind).saturating_add(listed(args))
}

/// How many nodes `build` makes or copies with these arguments, or why it refuses them. It never
/// answers that there is no memory; with some it takes time in proportion to the arguments and to
/// what is copied.
pub fn needs(alloc: Global, arena: &Arena, kind: Kind, args: &[BuildArg]) -> Result<u32, BuildFault>
    ensures many { result ≡ Err BuildFault.TooMany ↔ length (args_of kind) < length args.now }
    ensures few { result ≡ Err BuildFault.TooFew ↔ (length args.now ≤ length (args_of kind)) × (list_any (λ a. a.needed) (drop (length args.now) (args_of kind)) ≡ true) }
    ensures memory { result ≢ Err BuildFault.NoMemory }
{
    check_args(arena, kind, args)?;
    let own = Made {
        nodes: 1,
        places: own_places(kind, args),
    };
    let mut made = copies_of(alloc, arena, args, own);
    if is_twice(kind, args) {
        if let Some(node) = item_at(args, 0) {
            made = with_copy(arena, made, node);
        }
    }
    let nodes = made.nodes.saturating_add(arena.nodes() as usize);
    let places = made.places.saturating_add(arena.places() as usize);
    if nodes > MAX_NODES || places > MAX_PLACES {
        return Err(BuildFault::Full);
    }
    Ok(made.nodes as u32)
}

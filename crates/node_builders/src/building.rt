//! Building a node.

ghost use Rattle.std.specs.Prelude.{◌≡◌, ◌≢◌, ◌<◌, ◌≤◌, ◌↔◌, Err, true, length, drop, IfOk, IfSome};
ghost use Rattle.std.specs.List.{list_any};
ghost use Rattle.type_defs.specs.Builders.{args_of};
ghost use Rattle.ast_paths.specs.Paths.{KeepsFilled, KeepsIds};

use crate::arg::{BuildArg, BuildFault};
use crate::args::{check_args, count_items, item_at};
use crate::needed::own_places;
use crate::values::{is_specifier, is_twice, same_names, scalars_for};
use ast_paths::{Room, settle_all};
use node_arena::{Arena, ArenaFault, MAX_PLACES, NodeId, PlaceId, Steps};
use std::alloc::{AllocError, Global};
use std::marker::Brand;
use std::sync::ledger::{Blank, Ledger};
use tree_core::Scalar;
use type_defs::{Kind, builder, is_list, scalar_count};

/// The nodes of the arguments, in order; the one name of a specifier twice where the second is left
/// out.
fn given_nodes(alloc: Global, kind: Kind, args: &[BuildArg]) -> Result<Vec<NodeId>, AllocError> {
    let mut nodes = Vec::new(alloc);
    for number in 0..count_items(args) {
        if let Some(node) = item_at(args, number) {
            nodes.push(node)?;
        }
    }
    if is_twice(kind, args) && nodes.len() == 1 {
        let node = nodes[0];
        nodes.push(node)?;
    }
    Ok(nodes)
}

/// Gives a node its scalars.
fn set_scalars(arena: &mut Arena, node: NodeId, scalars: Vec<Scalar>)
    requires node { node < length arena.old.forest.nodes }
    ensures { arena.new.forest ≡ arena.old.forest }
{
    let count = scalar_count(arena.kind(node));
    let mut left = scalars;
    for _turn in 0..count {
        let Some(value) = left.pop() else {
            return;
        };
        let index = left.len();
        if index >= count {
            return;
        }
        arena.set_scalar(node, index as u8, value);
    }
}

/// A root into a place of the new node.
#[tactic(auto, using(ast_paths::proofs::Sizes::nodes_put, ast_paths::proofs::Sizes::places_put, ast_paths::proofs::Filled::put_filled))]
fn put_child<L: Ledger>(arena: &mut Arena, place: PlaceId, child: NodeId, steps: &mut Steps<L>)
    requires at { place < length arena.old.forest.places }
    ensures nodes { length arena.new.forest.nodes ≡ length arena.old.forest.nodes }
    ensures places { length arena.new.forest.places ≡ length arena.old.forest.places }
    ensures filled { KeepsFilled arena.old.forest arena.new.forest }
{
    if child.number() < arena.nodes() && arena.may_go(child, place) {
        arena.put(place, child, steps);
    }
}

/// A root into the one place of a slot of the new node.
fn fill_single<L: Ledger>(
    arena: &mut Arena,
    node: NodeId,
    slot: u8,
    child: NodeId,
    steps: &mut Steps<L>,
)
    requires node { node < length arena.old.forest.nodes }
    ensures nodes { length arena.new.forest.nodes ≡ length arena.old.forest.nodes }
    ensures places { length arena.new.forest.places ≡ length arena.old.forest.places }
    ensures filled { KeepsFilled arena.old.forest arena.new.forest }
{
    if let Some(place) = arena.slot_first(node, slot) {
        put_child(arena, place, child, steps);
    }
}

/// A new empty place at the end of a list of the new node.
#[tactic(auto, using(ast_paths::proofs::Filled::after_filled, ast_paths::proofs::Filled::first_filled, ast_paths::proofs::Joining::joins_none, ast_paths::proofs::Joining::nodes_after, ast_paths::proofs::Joining::places_after, ast_paths::proofs::Joining::nodes_first, ast_paths::proofs::Joining::places_first))]
fn push_place<L: Ledger>(
    arena: &mut Arena,
    node: NodeId,
    slot: u8,
    last: Option<PlaceId>,
    steps: &mut Steps<L>,
) -> Result<PlaceId, ArenaFault>
    requires node { node < length arena.old.forest.nodes }
    requires last { IfSome last (λ p. p < length arena.old.forest.places) }
    ensures within { IfOk result (λ p. p < length arena.new.forest.places) }
    ensures nodes { length arena.new.forest.nodes ≡ length arena.old.forest.nodes }
    ensures places { length arena.old.forest.places ≤ length arena.new.forest.places }
    ensures filled { KeepsFilled arena.old.forest arena.new.forest }
{
    if let Some(last) = last {
        return match arena.insert_after(last, None, steps) {
            Ok(new) => Ok(new),
            Err(fault) => Err(fault),
        };
    }
    if !is_list(arena.kind(node), slot) {
        return Err(ArenaFault::NotInList);
    }
    match arena.insert_first(node, slot, None, steps) {
        Ok(new) => Ok(new),
        Err(fault) => Err(fault),
    }
}

/// A new place at the end of a list of the new node, with a root or without.
fn push_child<L: Ledger>(
    arena: &mut Arena,
    node: NodeId,
    slot: u8,
    last: Option<PlaceId>,
    child: Option<NodeId>,
    steps: &mut Steps<L>,
) -> Result<PlaceId, ArenaFault>
    requires node { node < length arena.old.forest.nodes }
    requires last { IfSome last (λ p. p < length arena.old.forest.places) }
    ensures within { IfOk result (λ p. p < length arena.new.forest.places) }
    ensures nodes { length arena.new.forest.nodes ≡ length arena.old.forest.nodes }
    ensures places { length arena.old.forest.places ≤ length arena.new.forest.places }
    ensures filled { KeepsFilled arena.old.forest arena.new.forest }
{
    let place = push_place(arena, node, slot, last, steps)?;
    let Some(child) = child else {
        return Ok(place);
    };
    put_child(arena, place, child, steps);
    Ok(place)
}

/// The root of this number, for a place that is no hole.
fn root_for(item: Option<NodeId>, roots: &[NodeId], number: usize) -> Option<NodeId> {
    if item.is_none() || number >= roots.len() {
        return None;
    }
    Some(roots[number])
}

/// The roots from this number on into new places of a list of the new node, with its holes.
fn fill_list<L: Ledger>(
    arena: &mut Arena,
    node: NodeId,
    slot: u8,
    items: &[Option<NodeId>],
    roots: &[NodeId],
    from: usize,
    steps: &mut Steps<L>,
)
    requires node { node < length arena.old.forest.nodes }
    ensures nodes { length arena.new.forest.nodes ≡ length arena.old.forest.nodes }
    ensures places { length arena.old.forest.places ≤ length arena.new.forest.places }
    ensures filled { KeepsFilled arena.old.forest arena.new.forest }
{
    let mut last = None;
    let mut next = from;
    for at in 0..items.len() {
        let child = root_for(items[at], roots, next);
        let Ok(place) = push_child(arena, node, slot, last, child, steps) else {
            return;
        };
        last = Some(place);
        next = next.saturating_add(usize::from(items[at].is_some()));
    }
}

/// How many nodes an argument names.
fn named(arg: &BuildArg) -> usize {
    match arg {
        BuildArg::Node(_) => 1,
        BuildArg::Nodes(items) => items
            .as_slice()
            .iter()
            .filter(|item| item.is_some())
            .count(),
        _ => 0,
    }
}

/// The slot that an argument fills; none where it fills a scalar.
fn slot_for(kind: Kind, at: usize) -> Option<u8> {
    let wanted = builder(kind);
    if at >= wanted.len() {
        return None;
    }
    wanted[at].field.checked_sub(scalar_count(kind) as u8)
}

/// The roots from this number on into the places that an argument fills, where it fills a slot.
fn fill_one<L: Ledger>(
    arena: &mut Arena,
    node: NodeId,
    slot: Option<u8>,
    arg: &BuildArg,
    roots: &[NodeId],
    from: usize,
    steps: &mut Steps<L>,
)
    requires node { node < length arena.old.forest.nodes }
    ensures nodes { length arena.new.forest.nodes ≡ length arena.old.forest.nodes }
    ensures places { length arena.old.forest.places ≤ length arena.new.forest.places }
    ensures filled { KeepsFilled arena.old.forest arena.new.forest }
{
    let Some(slot) = slot else {
        return;
    };
    match arg {
        BuildArg::Node(_) => {
            if from >= roots.len() {
                return;
            }
            fill_single(arena, node, slot, roots[from], steps);
        }
        BuildArg::Nodes(items) => {
            fill_list(arena, node, slot, items.as_slice(), roots, from, steps);
        }
        _ => {}
    }
}

/// The roots into the new node's places, argument by argument.
fn fill<L: Ledger>(
    arena: &mut Arena,
    node: NodeId,
    args: &[BuildArg],
    roots: &[NodeId],
    steps: &mut Steps<L>,
)
    requires node { node < length arena.old.forest.nodes }
    ensures nodes { length arena.new.forest.nodes ≡ length arena.old.forest.nodes }
    ensures places { length arena.old.forest.places ≤ length arena.new.forest.places }
    ensures filled { KeepsFilled arena.old.forest arena.new.forest }
{
    let kind = arena.kind(node);
    let mut next: usize = 0;
    for at in 0..args.len() {
        let slot = slot_for(kind, at);
        fill_one(arena, node, slot, &args[at], roots, next, steps);
        next = next.saturating_add(named(&args[at]));
    }
}

/// Says of a specifier that one name spells both where they are the same.
fn set_shorthand(arena: &mut Arena, node: NodeId, shorthand: bool)
    requires node { node < length arena.old.forest.nodes }
    ensures { arena.new.forest ≡ arena.old.forest }
{
    if shorthand && scalar_count(arena.kind(node)) > 0 {
        arena.set_scalar(node, 0, Scalar::Truth(true));
    }
}

/// The copy of a specifier's one name into the place of the other.
fn fill_second<L: Ledger>(
    arena: &mut Arena,
    node: NodeId,
    roots: &[NodeId],
    twice: bool,
    steps: &mut Steps<L>,
)
    requires node { node < length arena.old.forest.nodes }
    ensures nodes { length arena.new.forest.nodes ≡ length arena.old.forest.nodes }
    ensures places { length arena.new.forest.places ≡ length arena.old.forest.places }
    ensures filled { KeepsFilled arena.old.forest arena.new.forest }
{
    if !twice || roots.len() < 2 {
        return;
    }
    fill_single(arena, node, 1, roots[1], steps);
}

fn build_fault(fault: ArenaFault) -> BuildFault
    ensures many { result ≢ BuildFault.TooMany }
    ensures few { result ≢ BuildFault.TooFew }
{
    match fault {
        ArenaFault::NoMemory => BuildFault::NoMemory,
        ArenaFault::Full | ArenaFault::NotInList => BuildFault::Full,
    }
}

/// Makes the node of the arguments, which the builder takes.
#[tactic(auto, using(ast_paths::proofs::Filled::made_filled, ast_paths::proofs::Joining::nodes_made, ast_paths::proofs::Joining::places_made, ast_paths::proofs::Joining::kind_made, ast_paths::proofs::Filled::ids_kept))]
fn build_node<L: Ledger>(
    alloc: Global,
    arena: &mut Arena,
    kind: Kind,
    args: &[BuildArg],
    blank: Blank,
) -> Result<NodeId, BuildFault>
    requires name { blank.name ≡ L.name }
    requires parts { blank.parts ≡ L.parts }
    requires some { 0 < blank.parts }
    ensures ids { KeepsIds arena.old.forest arena.new.forest }
    ensures filled { KeepsFilled arena.old.forest arena.new.forest }
    ensures within { IfOk result (λ j. j < length arena.new.forest.nodes) }
    ensures many { result ≢ Err BuildFault.TooMany }
    ensures few { result ≢ Err BuildFault.TooFew }
{
    let Ok(nodes) = given_nodes(alloc, kind, args) else {
        return Err(BuildFault::NoMemory);
    };
    let Ok(scalars) = scalars_for(alloc, kind, args) else {
        return Err(BuildFault::NoMemory);
    };
    let shorthand = is_specifier(kind) && nodes.len() == 2 && same_names(arena, nodes[0], nodes[1]);
    let room = Room {
        nodes: 1,
        places: own_places(kind, args).min(MAX_PLACES) as u32,
    };
    let mut steps = Steps::<L>::new(blank);
    let root = arena.root();
    let roots = match settle_all(alloc, arena, root, &nodes, room, &mut steps) {
        Ok(roots) => roots,
        Err(fault) => return Err(build_fault(fault)),
    };
    let node = match arena.make(kind) {
        Ok(node) => node,
        Err(fault) => return Err(build_fault(fault)),
    };
    set_scalars(arena, node, scalars);
    set_shorthand(arena, node, shorthand);
    fill(arena, node, args, &roots, &mut steps);
    fill_second(arena, node, &roots, is_twice(kind, args), &mut steps);
    Ok(node)
}

/// A new root of the kind from the arguments of its builder. Nodes go in settled, in order of the
/// arguments; a node that they name again gives a copy. Scalars that no argument says are false or
/// null. All memory is taken first; the arguments are refused before anything is changed.
#[tactic(auto, using(ast_paths::proofs::Filled::ids_kept))]
pub fn build(
    alloc: Global,
    arena: &mut Arena,
    kind: Kind,
    args: &[BuildArg],
) -> Result<NodeId, BuildFault>
    ensures ids { KeepsIds arena.old.forest arena.new.forest }
    ensures filled { KeepsFilled arena.old.forest arena.new.forest }
    ensures within { IfOk result (λ j. j < length arena.new.forest.nodes) }
    ensures many { result ≡ Err BuildFault.TooMany ↔ length (args_of kind) < length args.now }
    ensures few { result ≡ Err BuildFault.TooFew ↔ (length args.now ≤ length (args_of kind)) × (list_any (λ a. a.needed) (drop (length args.now) (args_of kind)) ≡ true) }
{
    check_args(arena, kind, args)?;
    build_node::<Brand>(alloc, arena, kind, args, Blank::new(1))
}

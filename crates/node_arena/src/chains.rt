//! Changes of the table of links, each by writes of single entries.

ghost use Rattle.std.specs.Prelude.{◌≡◌, ◌<◌, ◌≤◌, ◌+◌, ◌-◌, ◌^◌, length, slice_get};
ghost use Rattle.node_arena.specs.Rows.{HasEnds, HasLeft, HasNodeRow, HasRight, detached_rows, emptied_rows, inserted_rows, left_written, linked_rows, node_in, right_written, seated_rows, table_of};

use crate::links::{Link, Links};
use crate::steps::Steps;
use std::sync::ledger::Ledger;

/// Writes what comes after a place, or first in a slot.
fn write_left<L: Ledger>(
    links: &mut Links,
    slot: u32,
    prev: Option<u32>,
    to: Option<u32>,
    steps: &mut Steps<L>,
)
    requires end { HasLeft links.old.rows slot prev }
    ensures after { links.new ≡ table_of (left_written links.old.rows slot prev to) links.old.spare }
    ensures step { steps.new ≡ steps.old + 1 }
{
    match prev {
        Some(prev) => links.write(Link::Next(prev, to), steps),
        None => links.write(Link::First(slot, to), steps),
    }
}

/// Writes what comes before a place.
fn write_right<L: Ledger>(
    links: &mut Links,
    next: Option<u32>,
    to: Option<u32>,
    steps: &mut Steps<L>,
)
    requires end { HasRight links.old.rows next }
    ensures after { links.new ≡ table_of (right_written links.old.rows next to) links.old.spare }
    ensures step { steps.new ≤ steps.old + 1 }
{
    if let Some(next) = next {
        links.write(Link::Prev(next, to), steps);
    }
}

/// A new place between two neighbours in a slot.
#[tactic(auto, using(crate::proofs::Edits::left_pushed, crate::proofs::Edits::right_pushed))]
fn link<L: Ledger>(
    links: &mut Links,
    slot: u32,
    prev: Option<u32>,
    next: Option<u32>,
    steps: &mut Steps<L>,
) -> u32
    requires left { HasLeft links.old.rows slot prev }
    requires right { HasRight links.old.rows next }
    requires spare { 0 < links.old.spare }
    requires few { length links.old.rows.places < 2 ^ 32 }
    ensures number { result ≡ length links.old.rows.places }
    ensures after { links.new ≡ table_of (linked_rows links.old.rows slot prev next) (links.old.spare - 1) }
    ensures steps { steps.new ≤ steps.old + 2 }
{
    let new = links.push_place(slot, prev, next);
    write_left(links, slot, prev, Some(new), steps);
    write_right(links, next, Some(new), steps);
    new
}

/// Takes a place out of its slot.
#[tactic(auto, using(crate::proofs::Edits::right_left, crate::proofs::Edits::places_left, crate::proofs::Edits::places_right, crate::proofs::Edits::places_written))]
pub fn detach<L: Ledger>(links: &mut Links, slot: u32, place: u32, steps: &mut Steps<L>)
    requires at { place < length links.old.rows.places }
    requires ends { HasEnds links.old.rows slot place }
    ensures after { links.new ≡ table_of (detached_rows links.old.rows slot place) links.old.spare }
    ensures steps { steps.new ≤ steps.old + 5 }
{
    let row = links.place(place);
    write_left(links, slot, row.prev, row.next, steps);
    write_right(links, row.next, row.prev, steps);
    links.write(Link::Owner(place, None), steps);
    links.write(Link::Next(place, None), steps);
    links.write(Link::Prev(place, None), steps);
}

/// Takes the node out of a place; it is told.
pub fn empty<L: Ledger>(links: &mut Links, place: u32, steps: &mut Steps<L>) -> Option<u32>
    requires at { place < length links.old.rows.places }
    requires node { HasNodeRow links.old.rows (node_in (slice_get links.old.rows.places place)) }
    ensures node { result ≡ node_in (slice_get links.old.rows.places place) }
    ensures after { links.new ≡ table_of (emptied_rows links.old.rows place) links.old.spare }
    ensures steps { steps.new ≤ steps.old + 2 }
{
    let row = links.place(place);
    if let Some(node) = row.node {
        links.write(Link::At(node, None), steps);
        links.write(Link::Node(place, None), steps);
    }
    row.node
}

/// Stands a node in a place.
#[tactic(auto, using(crate::proofs::Edits::places_written))]
pub fn seat<L: Ledger>(links: &mut Links, place: u32, node: u32, steps: &mut Steps<L>)
    requires at { place < length links.old.rows.places }
    requires node { node < length links.old.rows.nodes }
    ensures after { links.new ≡ table_of (seated_rows links.old.rows place node) links.old.spare }
    ensures steps { steps.new ≤ steps.old + 2 }
{
    links.write(Link::Node(place, Some(node)), steps);
    links.write(Link::At(node, Some(place)), steps);
}

/// A new place between two neighbours in a slot, with a node or without.
#[tactic(auto, using(crate::proofs::Edits::places_linked, crate::proofs::Edits::nodes_linked))]
pub fn insert<L: Ledger>(
    links: &mut Links,
    slot: u32,
    prev: Option<u32>,
    next: Option<u32>,
    node: Option<u32>,
    steps: &mut Steps<L>,
) -> u32
    requires left { HasLeft links.old.rows slot prev }
    requires right { HasRight links.old.rows next }
    requires node { HasNodeRow links.old.rows node }
    requires spare { 0 < links.old.spare }
    requires few { length links.old.rows.places < 2 ^ 32 }
    ensures number { result ≡ length links.old.rows.places }
    ensures after { links.new ≡ table_of (inserted_rows links.old.rows slot prev next node) (links.old.spare - 1) }
    ensures steps { steps.new ≤ steps.old + 4 }
{
    let new = link(links, slot, prev, next, steps);
    if let Some(node) = node {
        seat(links, new, node, steps);
    }
    new
}

//! The table of links: rows of nodes, slots and places, and the one call that writes an entry of a
//! row that exists.

ghost use Rattle.std.specs.Prelude.{◌≡◌, ◌<◌, ◌≤◌, ◌+◌, ◌-◌, ◌*◌, ◌^◌, ◌++◌, ◌∷◌, [], ℕ, Some, length, map, max, slice_get, take, vec_len, vec_capacity, IfOk, IsOk, OnOk, OnErr};
ghost use Rattle.node_arena.specs.Rows.{Rows, Table, HasRow, empty_row, front_rows, made_rows, place_row, place_rows, slot_row, slot_rows, start_table, table_of, with_place, written};
ghost use Rattle.node_arena.specs.Lists.{is_list};

use crate::steps::Steps;
use std::alloc::{AllocError, Global};
use std::marker::Model;
use std::sync::ledger::Ledger;
use type_defs::{FieldDef, Kind, slots};

/// A node: its kind, the place where it stands, and the number of the first of its slots, which are
/// neighbours in the table.
#[derive(Clone, Copy)]
pub struct Node {
    pub kind: Kind,
    pub at: Option<u32>,
    pub base: u32,
}

/// A slot: its node, its number among the node's slots, whether it is a list, and its first place.
#[derive(Clone, Copy)]
pub struct SlotRow {
    pub node: u32,
    pub index: u8,
    pub list: bool,
    pub first: Option<u32>,
}

/// A place: its slot, the node that stands in it, and its neighbours in the slot.
#[derive(Clone, Copy)]
pub struct PlaceRow {
    pub owner: Option<u32>,
    pub node: Option<u32>,
    pub next: Option<u32>,
    pub prev: Option<u32>,
}

/// An entry of a row, with what is to stand there.
#[derive(Clone, Copy)]
pub enum Link {
    At(u32, Option<u32>),
    First(u32, Option<u32>),
    Owner(u32, Option<u32>),
    Node(u32, Option<u32>),
    Next(u32, Option<u32>),
    Prev(u32, Option<u32>),
}

/// The rows, and for how many calls of `make` or `push_place` there is memory.
#[derive(Drop)]
pub struct Links {
    nodes: Vec<Node>,
    slots: Vec<SlotRow>,
    places: Vec<PlaceRow>,
    spare: u32,
}

impl Model for Links {
    ghost use Rattle.node_arena.specs.Rows.{Table};

    ghost Value = { Table };

    ghost use Rattle.std.specs.Prelude.{◌≤◌, ◌+◌, ◌*◌, vec_len, vec_capacity};
    ghost use Rattle.node_arena.specs.Rows.{HasRoom};

    ghost view = { λ t. record { rows = record { nodes = t.nodes.items; slots = t.slots.items; places = t.places.items }; spare = t.spare } };

    ghost invariant = { λ t. HasRoom (vec_len t.nodes) (vec_capacity t.nodes) (vec_len t.slots) (vec_capacity t.slots) (vec_len t.places) (vec_capacity t.places) t.spare };
}

/// One more item where there is room for it.
pub fn keep<T: Drop>(items: &mut Vec<T>, item: T)
    requires { vec_len items.old < vec_capacity items.old }
    ensures items { items.new.items ≡ items.old.items ++ item ∷ [] }
    ensures len { vec_len items.new ≡ vec_len items.old + 1 }
    ensures capacity { vec_capacity items.old ≤ vec_capacity items.new }
{
    match items.push(item) {
        Ok(()) => {}
        Err(_) => {}
    }
}

// A place of the slot, with no node and no neighbours.
fn empty_place(owner: Option<u32>) -> PlaceRow
    ensures { result ≡ empty_row owner }
{
    PlaceRow {
        owner,
        node: None,
        next: None,
        prev: None,
    }
}

/// A new slot of a node: an empty list, or one place, empty.
fn push_slot(slots: &mut Vec<SlotRow>, places: &mut Vec<PlaceRow>, node: u32, index: u8, list: bool)
    requires slots { vec_len slots.old < vec_capacity slots.old }
    requires places { vec_len places.old < vec_capacity places.old }
    requires few_slots { vec_len slots.old < 2 ^ 32 }
    requires few_places { vec_len places.old < 2 ^ 32 }
    ensures slots { slots.new.items ≡ slots.old.items ++ slot_row node (vec_len places.old) index list ∷ [] }
    ensures places { places.new.items ≡ places.old.items ++ place_row (vec_len slots.old) list }
    ensures slot_len { vec_len slots.new ≡ vec_len slots.old + 1 }
    ensures place_len { vec_len places.new ≤ vec_len places.old + 1 }
    ensures slot_capacity { vec_capacity slots.old ≤ vec_capacity slots.new }
    ensures place_capacity { vec_capacity places.old ≤ vec_capacity places.new }
{
    if list {
        keep(
            slots,
            SlotRow {
                node,
                index,
                list: true,
                first: None,
            },
        );
        return;
    }
    let owner = slots.len() as u32;
    let first = places.len() as u32;
    keep(places, empty_place(Some(owner)));
    keep(
        slots,
        SlotRow {
            node,
            index,
            list: false,
            first: Some(first),
        },
    );
}

/// The slots of a new node.
fn push_slots(slots: &mut Vec<SlotRow>, places: &mut Vec<PlaceRow>, node: u32, fields: &[FieldDef])
    requires few { length fields.now ≤ 4 }
    requires slots { vec_len slots.old + 4 ≤ vec_capacity slots.old }
    requires places { vec_len places.old + 4 ≤ vec_capacity places.old }
    requires few_slots { vec_len slots.old < 2 ^ 31 }
    requires few_places { vec_len places.old < 2 ^ 31 }
    ensures slots { slots.new.items ≡ slots.old.items ++ slot_rows node (vec_len places.old) 0 (map is_list fields.now) }
    ensures places { places.new.items ≡ places.old.items ++ place_rows (vec_len slots.old) (map is_list fields.now) }
    ensures slot_len { vec_len slots.new ≡ vec_len slots.old + length fields.now }
    ensures place_len { vec_len places.new ≤ vec_len places.old + length fields.now }
    ensures slot_capacity { vec_capacity slots.old ≤ vec_capacity slots.new }
    ensures place_capacity { vec_capacity places.old ≤ vec_capacity places.new }
{
    for index in 0..fields.len() {
        push_slot(slots, places, node, index as u8, fields[index].1.list);
    }
}

impl Links {
    /// The root place alone.
    pub fn new(alloc: Global) -> Result<Links, AllocError>
        ensures { IfOk result (λ t. t ≡ start_table) }
    {
        let mut places = Vec::new(alloc);
        places.push(empty_place(None))?;
        Ok(Links {
            nodes: Vec::new(alloc),
            slots: Vec::new(alloc),
            places,
            spare: 0,
        })
    }

    pub fn nodes(&self) -> usize
        ensures { result ≡ length self.now.rows.nodes }
    {
        self.nodes.len()
    }

    pub fn places(&self) -> usize
        ensures { result ≡ length self.now.rows.places }
    {
        self.places.len()
    }

    pub fn slots(&self) -> usize
        ensures { result ≡ length self.now.rows.slots }
    {
        self.slots.len()
    }

    /// Takes away all but the first rows of each sort.
    pub fn cut(&mut self, nodes: usize, slots: usize, places: usize, spare: u32)
        requires { spare ≤ self.old.spare }
        ensures { self.new ≡ table_of (front_rows nodes slots places self.old.rows) spare }
    {
        self.nodes.truncate(nodes);
        self.slots.truncate(slots);
        self.places.truncate(places);
        self.spare = spare;
    }

    /// For how many calls of `make` or `push_place` there is memory.
    pub fn spare(&self) -> u32
        ensures { result ≡ self.now.spare }
    {
        self.spare
    }

    pub fn node(&self, node: u32) -> Node
        requires { node < length self.now.rows.nodes }
        ensures { slice_get self.now.rows.nodes node ≡ Some result }
    {
        self.nodes[node as usize]
    }

    pub fn slot(&self, slot: u32) -> SlotRow
        requires { slot < length self.now.rows.slots }
        ensures { slice_get self.now.rows.slots slot ≡ Some result }
    {
        self.slots[slot as usize]
    }

    pub fn place(&self, place: u32) -> PlaceRow
        requires { place < length self.now.rows.places }
        ensures { slice_get self.now.rows.places place ≡ Some result }
    {
        self.places[place as usize]
    }

    /// Takes memory for `n` calls of `make` or `push_place`.
    pub fn reserve(&mut self, n: u32) -> Result<(), AllocError>
        ensures ok { OnOk result (self.new ≡ table_of self.old.rows (max self.old.spare n)) }
        ensures succeeds { n ≤ self.old.spare → IsOk result }
        ensures err { OnErr result (self.new ≡ self.old) }
    {
        if n <= self.spare {
            return Ok(());
        }
        let more = n as usize;
        self.nodes.reserve(more)?;
        self.slots.reserve(4 * more)?;
        self.places.reserve(4 * more)?;
        self.spare = n;
        Ok(())
    }

    /// A new node of a kind, a root: its list slots are empty, and each other slot has one place,
    /// empty.
    pub fn make(&mut self, kind: Kind) -> u32
        requires spare { 0 < self.old.spare }
        requires few_nodes { length self.old.rows.nodes < 2 ^ 31 }
        requires few_slots { length self.old.rows.slots < 2 ^ 31 }
        requires few_places { length self.old.rows.places < 2 ^ 31 }
        ensures number { result ≡ length self.old.rows.nodes }
        ensures after { self.new ≡ record { rows = made_rows self.old.rows kind; spare = self.old.spare - 1 } }
    {
        let node = self.nodes.len() as u32;
        let base = self.slots.len() as u32;
        push_slots(&mut self.slots, &mut self.places, node, slots(kind));
        keep(
            &mut self.nodes,
            Node {
                kind,
                at: None,
                base,
            },
        );
        self.spare -= 1;
        node
    }

    /// A new place, empty, between two neighbours of a slot.
    pub fn push_place(&mut self, slot: u32, prev: Option<u32>, next: Option<u32>) -> u32
        requires spare { 0 < self.old.spare }
        requires few { length self.old.rows.places < 2 ^ 32 }
        ensures number { result ≡ length self.old.rows.places }
        ensures after { self.new ≡ record { rows = with_place self.old.rows slot prev next; spare = self.old.spare - 1 } }
    {
        let place = self.places.len() as u32;
        keep(
            &mut self.places,
            PlaceRow {
                owner: Some(slot),
                node: None,
                next,
                prev,
            },
        );
        self.spare -= 1;
        place
    }

    /// Writes one entry of a row that exists, and counts one step.
    pub fn write<L: Ledger>(&mut self, link: Link, steps: &mut Steps<L>)
        requires row { HasRow self.old.rows link }
        ensures after { self.new ≡ record self.old { rows = written self.old.rows link } }
        ensures step { steps.new ≡ steps.old + 1 }
    {
        match link {
            Link::At(node, to) => {
                let row = &mut self.nodes[node as usize];
                row.at = to;
            }
            Link::First(slot, to) => {
                let row = &mut self.slots[slot as usize];
                row.first = to;
            }
            Link::Owner(place, to) => {
                let row = &mut self.places[place as usize];
                row.owner = to;
            }
            Link::Node(place, to) => {
                let row = &mut self.places[place as usize];
                row.node = to;
            }
            Link::Next(place, to) => {
                let row = &mut self.places[place as usize];
                row.next = to;
            }
            Link::Prev(place, to) => {
                let row = &mut self.places[place as usize];
                row.prev = to;
            }
        }
        steps.tick();
    }
}

//! What nodes say and how places are named, in rows beside the links.

ghost use Rattle.std.specs.Prelude.{◌≡◌, ◌<◌, ◌≤◌, ◌+◌, ◌-◌, ◌*◌, ◌^◌, ◌++◌, ℕ, Some, None, length, replicate, slice_get, slice_set, slice_range, take, max, vec_len, vec_capacity, IfOk, IsOk, OnOk, OnErr};
ghost use Rattle.tree_core.specs.declared.scalars.Scalar.TheVariants.{Null};
ghost use Rattle.node_arena.specs.Rows.{edit};
ghost use Rattle.node_arena.specs.Payload.{HasPayloadRoom, said_of, start_said, with_node, with_copy, with_place, first_in, scalar_number, lead_in, trail_in, inner_in, from_in, name_in, commented, coming_from};

use crate::cloning::copy_scalars;
use crate::links::keep;
use sqlite_items::Items;
use std::alloc::{AllocError, Global};
use std::marker::Model;
use tree_core::{Comments, PlaceName, Scalar, copy_comments};

/// What a node says: where its scalars begin, its comments, and the number of the source's node
/// that it comes from.
#[derive(Drop)]
pub struct Facts {
    pub first_scalar: u32,
    pub lead: Comments,
    pub trail: Comments,
    pub inner: Comments,
    pub from: Option<u32>,
}

/// The facts of the nodes, their scalars one after another, the names of the places, and for how
/// many new nodes or places there is memory.
#[derive(Drop)]
pub struct Payload {
    alloc: Global,
    facts: Vec<Facts>,
    scalars: Vec<Scalar>,
    names: Vec<Option<PlaceName>>,
    spare: u32,
}

impl Model for Payload {
    ghost use Rattle.node_arena.specs.Payload.{Said};

    ghost Value = { Said };

    ghost use Rattle.std.specs.Prelude.{vec_len, vec_capacity};
    ghost use Rattle.node_arena.specs.Payload.{HasPayloadRoom, said_of};

    ghost view = { λ p. said_of p.facts.items p.scalars.items p.names.items p.spare };

    ghost invariant = { λ p. HasPayloadRoom (vec_len p.facts) (vec_capacity p.facts) (vec_len p.scalars) (vec_capacity p.scalars) (vec_len p.names) (vec_capacity p.names) p.spare };
}

/// So many scalars that are null.
#[tactic(auto, using(crate::proofs::Repeats::repeat_more))]
fn keep_nulls(scalars: &mut Vec<Scalar>, count: usize)
    requires { vec_len scalars.old + count ≤ vec_capacity scalars.old }
    ensures items { scalars.new.items ≡ scalars.old.items ++ replicate count Null }
    ensures len { vec_len scalars.new ≡ vec_len scalars.old + count }
    ensures capacity { vec_capacity scalars.old ≤ vec_capacity scalars.new }
{
    for _turn in 0..count {
        keep(scalars, Scalar::Null);
    }
}

/// So many places without a name.
#[tactic(auto, using(crate::proofs::Repeats::repeat_more))]
fn keep_unnamed(names: &mut Vec<Option<PlaceName>>, count: usize)
    requires { vec_len names.old + count ≤ vec_capacity names.old }
    ensures items { names.new.items ≡ names.old.items ++ replicate count None }
    ensures len { vec_len names.new ≡ vec_len names.old + count }
    ensures capacity { vec_capacity names.old ≤ vec_capacity names.new }
{
    for _turn in 0..count {
        keep(names, None);
    }
}

impl Payload {
    /// Of the root place alone.
    pub fn new(alloc: Global) -> Result<Payload, AllocError>
        ensures { IfOk result (λ p. p ≡ start_said) }
    {
        let mut names = Vec::new(alloc);
        names.push(None)?;
        Ok(Payload {
            alloc,
            facts: Vec::new(alloc),
            scalars: Vec::new(alloc),
            names,
            spare: 0,
        })
    }

    pub fn spare(&self) -> u32
        ensures { result ≡ self.now.spare }
    {
        self.spare
    }

    /// Takes memory for `n` new nodes or places.
    pub fn reserve(&mut self, n: u32) -> Result<(), AllocError>
        ensures ok { OnOk result (self.new ≡ said_of self.old.facts self.old.scalars self.old.names (max self.old.spare n)) }
        ensures succeeds { n ≤ self.old.spare → IsOk result }
        ensures err { OnErr result (self.new ≡ self.old) }
    {
        if n <= self.spare {
            return Ok(());
        }
        let more = n as usize;
        self.facts.reserve(more)?;
        self.scalars.reserve(4 * more)?;
        self.names.reserve(4 * more)?;
        self.spare = n;
        Ok(())
    }

    /// A new node with so many scalars, all null, and so many places, that says nothing yet.
    pub fn make(&mut self, scalars: usize, places: usize)
        requires spare { 0 < self.old.spare }
        requires few_scalars { scalars ≤ 4 }
        requires few_places { places ≤ 4 }
        requires few { length self.old.scalars < 2 ^ 32 }
        ensures { self.new ≡ with_node self.old scalars places }
    {
        let first_scalar = self.scalars.len() as u32;
        keep(
            &mut self.facts,
            Facts {
                first_scalar,
                lead: Items::new(self.alloc),
                trail: Items::new(self.alloc),
                inner: Items::new(self.alloc),
                from: None,
            },
        );
        keep_nulls(&mut self.scalars, scalars);
        keep_unnamed(&mut self.names, places);
        self.spare -= 1;
    }

    /// A new node that says what another says, with so many places that have no names.
    pub fn copy_node(&mut self, node: u32, scalars: usize, places: usize) -> Result<(), AllocError>
        requires at { node < length self.old.facts }
        requires spare { 0 < self.old.spare }
        requires few_scalars { scalars ≤ 4 }
        requires few_places { places ≤ 4 }
        requires few { length self.old.scalars < 2 ^ 32 }
        requires scalars { first_in (slice_get self.old.facts node) + scalars ≤ length self.old.scalars }
        ensures ok { OnOk result (self.new ≡ with_copy self.old node scalars places) }
        ensures err { OnErr result (self.new ≡ self.old) }
    {
        let facts = &self.facts[node as usize];
        let first = facts.first_scalar as usize;
        let from = facts.from;
        let lead = copy_comments(self.alloc, facts.lead.as_slice())?;
        let trail = copy_comments(self.alloc, facts.trail.as_slice())?;
        let inner = copy_comments(self.alloc, facts.inner.as_slice())?;
        let mut copied = copy_scalars(self.alloc, &self.scalars[first..first + scalars])?;
        let first_scalar = self.scalars.len() as u32;
        self.scalars.append(&mut copied)?;
        keep(
            &mut self.facts,
            Facts {
                first_scalar,
                lead,
                trail,
                inner,
                from,
            },
        );
        keep_unnamed(&mut self.names, places);
        self.spare -= 1;
        Ok(())
    }

    /// Takes away all but the first rows of each sort.
    pub fn cut(&mut self, nodes: usize, scalars: usize, places: usize)
        ensures { self.new ≡ said_of (take nodes self.old.facts) (take scalars self.old.scalars) (take places self.old.names) self.old.spare }
    {
        self.facts.truncate(nodes);
        self.scalars.truncate(scalars);
        self.names.truncate(places);
    }

    /// How many scalars there are.
    pub fn scalars(&self) -> usize
        ensures { result ≡ length self.now.scalars }
    {
        self.scalars.len()
    }

    pub fn alloc(&self) -> Global {
        self.alloc
    }

    /// A new place without a name.
    pub fn push_place(&mut self)
        requires spare { 0 < self.old.spare }
        ensures { self.new ≡ with_place self.old }
    {
        keep(&mut self.names, None);
        self.spare -= 1;
    }

    pub fn scalar(&self, node: u32, index: u8) -> &Scalar
        requires at { node < length self.now.facts }
        requires scalar { scalar_number self.now.facts node index < length self.now.scalars }
        requires few { length self.now.scalars < 2 ^ 32 }
        ensures { slice_get self.now.scalars (scalar_number self.now.facts node index) ≡ Some result.now }
    {
        let facts = &self.facts[node as usize];
        &self.scalars[(facts.first_scalar + index as u32) as usize]
    }

    pub fn lead(&self, node: u32) -> &Comments
        requires { node < length self.now.facts }
        ensures { result.now ≡ lead_in (slice_get self.now.facts node) }
    {
        &self.facts[node as usize].lead
    }

    pub fn trail(&self, node: u32) -> &Comments
        requires { node < length self.now.facts }
        ensures { result.now ≡ trail_in (slice_get self.now.facts node) }
    {
        &self.facts[node as usize].trail
    }

    pub fn inner(&self, node: u32) -> &Comments
        requires { node < length self.now.facts }
        ensures { result.now ≡ inner_in (slice_get self.now.facts node) }
    {
        &self.facts[node as usize].inner
    }

    pub fn from_of(&self, node: u32) -> Option<u32>
        requires { node < length self.now.facts }
        ensures { result ≡ from_in (slice_get self.now.facts node) }
    {
        self.facts[node as usize].from
    }

    pub fn name_of(&self, place: u32) -> Option<PlaceName>
        requires { place < length self.now.names }
        ensures { result ≡ name_in (slice_get self.now.names place) }
    {
        self.names[place as usize]
    }

    pub fn set_scalar(&mut self, node: u32, index: u8, value: Scalar)
        requires at { node < length self.old.facts }
        requires scalar { scalar_number self.old.facts node index < length self.old.scalars }
        requires few { length self.old.scalars < 2 ^ 32 }
        ensures { self.new ≡ record self.old { scalars = slice_set self.old.scalars (scalar_number self.old.facts node index) value } }
    {
        let first = self.facts[node as usize].first_scalar;
        self.scalars[(first + index as u32) as usize] = value;
    }

    pub fn set_comments(&mut self, node: u32, lead: Comments, trail: Comments, inner: Comments)
        requires { node < length self.old.facts }
        ensures { self.new ≡ record self.old { facts = edit self.old.facts node (commented lead trail inner) } }
    {
        let facts = &mut self.facts[node as usize];
        facts.lead = lead;
        facts.trail = trail;
        facts.inner = inner;
    }

    pub fn set_source(&mut self, node: u32, from: u32)
        requires { node < length self.old.facts }
        ensures { self.new ≡ record self.old { facts = edit self.old.facts node (coming_from from) } }
    {
        let facts = &mut self.facts[node as usize];
        facts.from = Some(from);
    }

    pub fn set_name(&mut self, place: u32, name: PlaceName)
        requires { place < length self.old.names }
        ensures { self.new ≡ record self.old { names = slice_set self.old.names place (Some name) } }
    {
        self.names[place as usize] = Some(name);
    }
}

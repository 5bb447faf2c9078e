//! The numbers of nodes and places, which contracts see as numbers.

ghost use Rattle.std.specs.Prelude.{◌≡◌, Some, None};

use std::marker::Model;

/// The number of a node, from 0 in the order in which nodes are made.
#[derive(Clone, Copy, Debug, PartialEq, Eq)]
pub struct NodeId {
    number: u32,
}

impl Model for NodeId {
    ghost use Rattle.std.specs.Prelude.{ℕ};

    ghost Value = { ℕ };

    ghost view = { λ n. n.number };

    ghost inverse = { λ n. record { number = n } };
}

impl NodeId {
    pub(crate) fn numbered(number: u32) -> NodeId
        ensures { result ≡ number }
    {
        NodeId { number }
    }

    pub fn number(self) -> u32
        ensures { result ≡ self }
    {
        self.number
    }
}

/// The number of a place. The root place has the number 0.
#[derive(Clone, Copy, Debug, PartialEq, Eq)]
pub struct PlaceId {
    number: u32,
}

impl Model for PlaceId {
    ghost use Rattle.std.specs.Prelude.{ℕ};

    ghost Value = { ℕ };

    ghost view = { λ p. p.number };

    ghost inverse = { λ n. record { number = n } };
}

impl PlaceId {
    pub(crate) fn numbered(number: u32) -> PlaceId
        ensures { result ≡ number }
    {
        PlaceId { number }
    }

    pub fn number(self) -> u32
        ensures { result ≡ self }
    {
        self.number
    }
}

pub(crate) fn node_id(number: Option<u32>) -> Option<NodeId>
    ensures { result ≡ number }
{
    match number {
        None => None,
        Some(number) => Some(NodeId::numbered(number)),
    }
}

pub(crate) fn place_id(number: Option<u32>) -> Option<PlaceId>
    ensures { result ≡ number }
{
    match number {
        None => None,
        Some(number) => Some(PlaceId::numbered(number)),
    }
}

pub(crate) fn node_number(node: Option<NodeId>) -> Option<u32>
    ensures { result ≡ node }
{
    match node {
        None => None,
        Some(node) => Some(node.number()),
    }
}

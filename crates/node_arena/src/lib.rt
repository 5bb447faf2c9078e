//! Nodes and places by index: the forest that a script changes.
//!
//! The links are a table of rows. What a node says and how a place is named stand beside it. A
//! contract sees the table as a forest: nodes with slots, slots with lists of places, and places
//! with nodes. Every change is an equation on it.
#![tactic(auto)]

mod arena;
mod chains;
mod cloning;
mod copies;
mod forest;
mod ids;
mod links;
mod payload;
mod preorder;
mod state;
mod steps;

pub use arena::{Arena, MAX_NODES, MAX_PLACES};
pub use copies::Copies;
pub use ids::{NodeId, PlaceId};
pub use preorder::Size;
pub use state::{ArenaFault, PlaceState};
pub use steps::Steps;

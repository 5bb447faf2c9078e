//! Scopes and the names that they declare, over an arena.
//!
//! A table says of each kind which of its slots hold names, and which scope its nodes have. One
//! walk below a scope's owner interprets it, and carries down which declarations are the scope's;
//! one climb from a place finds the scope around it. The rules are those of ECMA-262, clause 8.2
//! (Scope Analysis), on ESTree's kinds.
#![tactic(auto)]

mod climbing;
mod grouping;
mod node_roles;
mod resolving;
mod role;
mod scope;
mod scoping;
mod walk;

pub use climbing::{is_global, is_scope, outer, scope_of};
pub use grouping::bindings;
pub use resolving::{declares, lookup, resolve};
pub use scope::{Binding, Bindings, Paths, Scope};

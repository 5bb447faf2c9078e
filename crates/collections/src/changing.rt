//! Changes at paths, in the order of the paths.

ghost use Rattle.std.specs.Prelude.{◌≡◌, ◌≢◌, ◌<◌, length, All, IfErr, OnOk};
ghost use Rattle.ast_paths.specs.Paths.{KeepsFilled, KeepsIds};
ghost use Rattle.collections.specs.Changes.{Inserted, IsOut, IsUnlisted, Made, Removed, Replaced, Stopped, TakesNone};

use crate::list::Paths;
use ast_paths::PathFault;
use node_arena::{Arena, NodeId};
use std::alloc::Global;

/// Replaces what stands at each path by the nodes, which are settled at each again; without nodes
/// it is pruned. A refusal leaves what the changes at the paths before the one in hand made.
pub fn replace_with(
    alloc: Global,
    arena: &mut Arena,
    paths: &Paths,
    nodes: &[NodeId],
) -> Result<(), PathFault>
    requires { All (λ p. p < length arena.old.forest.places) paths.now }
    ensures ids { KeepsIds arena.old.forest arena.new.forest }
    ensures filled { 0 < length nodes.now → KeepsFilled arena.old.forest arena.new.forest }
    ensures made { OnOk result (Made (Replaced (length nodes.now)) arena.old paths.now arena.new) }
    ensures stopped { IfErr result (λ e. Stopped (Replaced (length nodes.now)) (TakesNone (length nodes.now)) arena.old paths.now e arena.new) }
{
    let list = paths.as_slice();
    for at in 0..list.len() {
        match ast_paths::replace(alloc, arena, list[at], nodes) {
            Ok(()) => {}
            Err(fault) => return Err(fault),
        }
    }
    Ok(())
}

/// Puts the nodes, settled at each path again, into new places before each path. A refusal leaves
/// what the changes at the paths before the one in hand made.
pub fn insert_before(
    alloc: Global,
    arena: &mut Arena,
    paths: &Paths,
    nodes: &[NodeId],
) -> Result<(), PathFault>
    requires { All (λ p. p < length arena.old.forest.places) paths.now }
    ensures ids { KeepsIds arena.old.forest arena.new.forest }
    ensures filled { KeepsFilled arena.old.forest arena.new.forest }
    ensures made { OnOk result (Made Inserted arena.old paths.now arena.new) }
    ensures stopped { IfErr result (λ e. Stopped Inserted IsUnlisted arena.old paths.now e arena.new) }
{
    let list = paths.as_slice();
    for at in 0..list.len() {
        match ast_paths::insert_before(alloc, arena, list[at], nodes) {
            Ok(()) => {}
            Err(fault) => return Err(fault),
        }
    }
    Ok(())
}

/// Puts the nodes, settled at each path again, into new places after each path. A refusal leaves
/// what the changes at the paths before the one in hand made.
pub fn insert_after(
    alloc: Global,
    arena: &mut Arena,
    paths: &Paths,
    nodes: &[NodeId],
) -> Result<(), PathFault>
    requires { All (λ p. p < length arena.old.forest.places) paths.now }
    ensures ids { KeepsIds arena.old.forest arena.new.forest }
    ensures filled { KeepsFilled arena.old.forest arena.new.forest }
    ensures made { OnOk result (Made Inserted arena.old paths.now arena.new) }
    ensures stopped { IfErr result (λ e. Stopped Inserted IsUnlisted arena.old paths.now e arena.new) }
{
    let list = paths.as_slice();
    for at in 0..list.len() {
        match ast_paths::insert_after(alloc, arena, list[at], nodes) {
            Ok(()) => {}
            Err(fault) => return Err(fault),
        }
    }
    Ok(())
}

/// Takes what stands at each path away, with its owner where that is nothing without it. A refusal
/// leaves what the changes at the paths before the one in hand made. It takes no memory.
pub fn remove(arena: &mut Arena, paths: &Paths) -> Result<(), PathFault>
    requires { All (λ p. p < length arena.old.forest.places) paths.now }
    ensures ids { KeepsIds arena.old.forest arena.new.forest }
    ensures made { OnOk result (Made Removed arena.old paths.now arena.new) }
    ensures stopped { IfErr result (λ e. Stopped Removed IsOut arena.old paths.now e arena.new) }
    ensures refused { IfErr result (λ e. e ≡ PathFault.NotInList) }
{
    let list = paths.as_slice();
    for at in 0..list.len() {
        match ast_paths::prune(arena, list[at]) {
            Ok(()) => {}
            Err(fault) => return Err(fault),
        }
    }
    Ok(())
}

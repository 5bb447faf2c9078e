//! What a node says: scalars, comments and its number.

ghost use Rattle.std.specs.Prelude.{◌≡◌, ◌<◌, length};

use node_arena::{Arena, NodeId};
use std::alloc::{AllocError, Global};
use tree_core::{Notes, Scalars, Tree, copy_comments, copy_scalar};
use type_defs::scalar_count;

/// Lets a new node say what the tree's first node says.
pub fn say(alloc: Global, arena: &mut Arena, node: NodeId, tree: &Tree) -> Result<(), AllocError>
    requires at { node < length arena.old.forest.nodes }
    ensures forest { arena.new.forest ≡ arena.old.forest }
{
    if let Some(from) = tree.from {
        arena.set_source(node, from);
    }
    say_notes(alloc, arena, node, &tree.notes)?;
    say_scalars(alloc, arena, node, &tree.scalars)
}

/// Gives a new node its comments. Most nodes have none, as the new node has.
fn say_notes(
    alloc: Global,
    arena: &mut Arena,
    node: NodeId,
    notes: &Notes,
) -> Result<(), AllocError>
    requires at { node < length arena.old.forest.nodes }
    ensures forest { arena.new.forest ≡ arena.old.forest }
{
    if notes.lead().is_empty() && notes.trail().is_empty() && notes.inner().is_empty() {
        return Ok(());
    }
    let lead = copy_comments(alloc, notes.lead())?;
    let trail = copy_comments(alloc, notes.trail())?;
    let inner = copy_comments(alloc, notes.inner())?;
    arena.set_comments(node, lead, trail, inner);
    Ok(())
}

fn say_scalars(
    alloc: Global,
    arena: &mut Arena,
    node: NodeId,
    scalars: &Scalars,
) -> Result<(), AllocError>
    requires at { node < length arena.old.forest.nodes }
    ensures forest { arena.new.forest ≡ arena.old.forest }
{
    for index in 0..scalar_count(arena.kind(node)) {
        if let Some(scalar) = scalars.get(index) {
            let copied = copy_scalar(alloc, scalar)?;
            arena.set_scalar(node, index as u8, copied);
        }
    }
    Ok(())
}

/// The scalars of a node.
pub fn scalars_of(alloc: Global, arena: &Arena, node: NodeId) -> Result<Scalars, AllocError>
    requires at { node < length arena.now.forest.nodes }
{
    let mut scalars = Scalars::new();
    for index in 0..scalar_count(arena.kind(node)) {
        let copied = copy_scalar(alloc, arena.scalar(node, index as u8))?;
        scalars = scalars.with(alloc, copied)?;
    }
    Ok(scalars)
}

//! What is found below paths, and which paths are kept.

ghost use Rattle.std.specs.Prelude.{◌≡◌, ◌<◌, ◌≤◌, length, filter, true, All, IfOk, Err};
ghost use Rattle.collections.specs.Found.{Picks, found_below, below_path};
ghost use Rattle.collections.specs.Matches.{fits_place};

use crate::distinct::add_all;
use crate::fault::ListFault;
use crate::list::{MAX_ITEMS, Paths};
use crate::matching::{is_any, matches};
use crate::pattern::Pattern;
use crate::preorder::below_of;
use indexmap::IndexSet;
use node_arena::{Arena, PlaceId};
use sqlite_items::Items;
use std::alloc::{AllocError, Global};
use type_defs::NodeType;

/// The places strictly below a place where nodes of the type stand, in preorder.
fn below_path(
    alloc: Global,
    arena: &Arena,
    path: PlaceId,
    of: NodeType,
) -> Result<Vec<PlaceId>, AllocError>
    requires { path < length arena.now.forest.places }
    ensures found { IfOk result (λ v. v.items ≡ below_path arena.now.forest of path) }
    ensures within { IfOk result (λ v. All (λ p. p < length arena.now.forest.places) v.items) }
{
    match arena.node_at(path) {
        None => Ok(Vec::new(alloc)),
        Some(node) => below_of(alloc, arena, node, of),
    }
}

#[tactic(auto, using(crate::proofs::Inserted::found_one, crate::proofs::Inserted::all_added))]
/// The places below all paths where nodes of the type stand, each once.
fn below_paths(
    alloc: Global,
    arena: &Arena,
    paths: &[PlaceId],
    of: NodeType,
) -> Result<Vec<PlaceId>, AllocError>
    requires { All (λ p. p < length arena.now.forest.places) paths.now }
    ensures found { IfOk result (λ v. v.items ≡ found_below arena.now.forest of paths.now) }
    ensures within { IfOk result (λ v. All (λ p. p < length arena.now.forest.places) v.items) }
{
    let mut seen = IndexSet::new(alloc);
    let mut kept = Vec::new(alloc);
    for path in paths.iter().copied() {
        let below = below_path(alloc, arena, path, of)?;
        add_all(&mut seen, &mut kept, &below)?;
    }
    Ok(kept)
}

/// Whether the place is kept: a place without a node only where anything is.
fn fits(arena: &Arena, path: PlaceId, pattern: &Pattern) -> bool
    requires { path < length arena.now.forest.places }
    ensures within { path < length arena.now.forest.places }
    ensures any { pattern.now ≡ Pattern.Any → result ≡ true }
    ensures place { result ≡ fits_place arena.now pattern.now path }
{
    match arena.node_at(path) {
        None => is_any(pattern),
        Some(node) => matches(arena, node, pattern),
    }
}

/// The places that match, in their order.
#[tactic(auto, using(crate::proofs::Picked::picks_none))]
fn kept(
    alloc: Global,
    arena: &Arena,
    paths: &[PlaceId],
    pattern: &Pattern,
) -> Result<Paths, AllocError>
    requires { All (λ p. p < length arena.now.forest.places) paths.now }
    ensures within { IfOk result (λ v. All (λ p. p < length arena.now.forest.places) v) }
    ensures picks { IfOk result (λ v. Picks v paths.now) }
    ensures any { pattern.now ≡ Pattern.Any → IfOk result (λ v. v ≡ paths.now) }
    ensures kept { IfOk result (λ v. v ≡ filter (fits_place arena.now pattern.now) paths.now) }
{
    let mut kept = Items::new(alloc);
    for path in paths.iter().copied() {
        if fits(arena, path, pattern) {
            kept.push(path)?;
        }
    }
    Ok(kept)
}

/// The places strictly below the paths where matching nodes of the type stand: in preorder
/// below each path, a place that was found before left out.
pub fn find(
    alloc: Global,
    arena: &Arena,
    paths: &Paths,
    of: NodeType,
    pattern: &Pattern,
) -> Result<Paths, ListFault>
    requires { All (λ p. p < length arena.now.forest.places) paths.now }
    ensures within { IfOk result (λ v. All (λ p. p < length arena.now.forest.places) v) }
    ensures picks { IfOk result (λ v. Picks v (found_below arena.now.forest of paths.now)) }
    ensures any { pattern.now ≡ Pattern.Any → IfOk result (λ v. v ≡ found_below arena.now.forest of paths.now) }
    ensures found { IfOk result (λ v. v ≡ filter (fits_place arena.now pattern.now) (found_below arena.now.forest of paths.now)) }
    ensures few { IfOk result (λ v. length v ≤ 1000000) }
    ensures long { result ≡ Err ListFault.ListLong → 1000000 < length (filter (fits_place arena.now pattern.now) (found_below arena.now.forest of paths.now)) }
{
    let below = below_paths(alloc, arena, paths.as_slice(), of)?;
    let found = kept(alloc, arena, &below, pattern)?;
    if found.len() > MAX_ITEMS {
        return Err(ListFault::ListLong);
    }
    Ok(found)
}

/// The paths whose nodes match, in their order. A path without a node is kept only by `Any`.
pub fn filter(
    alloc: Global,
    arena: &Arena,
    paths: &Paths,
    pattern: &Pattern,
) -> Result<Paths, AllocError>
    requires { All (λ p. p < length arena.now.forest.places) paths.now }
    ensures within { IfOk result (λ v. All (λ p. p < length arena.now.forest.places) v) }
    ensures picks { IfOk result (λ v. Picks v paths.now) }
    ensures any { pattern.now ≡ Pattern.Any → IfOk result (λ v. v ≡ paths.now) }
    ensures kept { IfOk result (λ v. v ≡ filter (fits_place arena.now pattern.now) paths.now) }
{
    kept(alloc, arena, paths.as_slice(), pattern)
}

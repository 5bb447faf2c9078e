//! What stands above paths.

ghost use Rattle.std.specs.Prelude.{◌≡◌, ◌<◌, ◌≤◌, length, All, Err, IfOk, IfSome};
ghost use Rattle.collections.specs.Above.{nearest, nearest_all};
ghost use Rattle.collections.specs.Matches.{fits_type};
ghost use Rattle.collections.specs.Found.{alone};

use crate::distinct::add_all;
use crate::fault::ListFault;
use crate::list::{MAX_ITEMS, Paths};
use crate::matching::matches;
use crate::pattern::Pattern;
use crate::preorder::is_of;
use ast_paths::parent;
use indexmap::IndexSet;
use node_arena::{Arena, PlaceId};
use sqlite_items::Items;
use std::alloc::{AllocError, Global};
use type_defs::NodeType;

/// Whether a matching node of the type stands in the place.
fn fits(arena: &Arena, place: PlaceId, of: NodeType, pattern: &Pattern) -> bool
    requires { place < length arena.now.forest.places }
    ensures { result ≡ fits_type arena.now pattern.now of place }
{
    match arena.node_at(place) {
        None => false,
        Some(node) => matches(arena, node, pattern) && is_of(arena, place, of),
    }
}

/// The nearest place above a path where a matching node of the type stands.
#[tactic(auto, using(crate::proofs::Climbs::climb_none, crate::proofs::Climbs::climb_top, crate::proofs::Climbs::climb_here, crate::proofs::Climbs::climb_on))]
fn nearest(arena: &Arena, path: PlaceId, of: NodeType, pattern: &Pattern) -> Option<PlaceId>
    requires { path < length arena.now.forest.places }
    ensures within { IfSome result (λ p. p < length arena.now.forest.places) }
    ensures found { result ≡ nearest arena.now.forest (fits_type arena.now pattern.now of) path }
{
    let mut at = path;
    for _turn in 0..arena.nodes() {
        let Some(above) = parent(arena, at) else {
            return None;
        };
        if fits(arena, above, of, pattern) {
            return Some(above);
        }
        at = above;
    }
    None
}

/// That place alone, or no place.
#[tactic(auto, using(crate::proofs::Climbs::alone_none, crate::proofs::Climbs::alone_some))]
fn nearest_path(
    alloc: Global,
    arena: &Arena,
    path: PlaceId,
    of: NodeType,
    pattern: &Pattern,
) -> Result<Vec<PlaceId>, AllocError>
    requires { path < length arena.now.forest.places }
    ensures found { IfOk result (λ v. v.items ≡ alone (nearest arena.now.forest (fits_type arena.now pattern.now of) path)) }
    ensures within { IfOk result (λ v. All (λ p. p < length arena.now.forest.places) v.items) }
{
    let mut found = Vec::new(alloc);
    let Some(above) = nearest(arena, path, of, pattern) else {
        return Ok(found);
    };
    found.push(above)?;
    Ok(found)
}

/// Those of all paths, each once.
fn nearest_paths(
    alloc: Global,
    arena: &Arena,
    paths: &[PlaceId],
    of: NodeType,
    pattern: &Pattern,
) -> Result<Vec<PlaceId>, AllocError>
    requires { All (λ p. p < length arena.now.forest.places) paths.now }
    ensures found { IfOk result (λ v. v.items ≡ nearest_all arena.now.forest (fits_type arena.now pattern.now of) paths.now) }
    ensures within { IfOk result (λ v. All (λ p. p < length arena.now.forest.places) v.items) }
{
    let mut seen = IndexSet::new(alloc);
    let mut kept = Vec::new(alloc);
    for path in paths.iter().copied() {
        let above = nearest_path(alloc, arena, path, of, pattern)?;
        add_all(&mut seen, &mut kept, &above)?;
    }
    Ok(kept)
}

/// For each path the place of the nearest matching ancestor of the type; a place that was
/// found before is left out. A detached root is no ancestor.
pub fn closest(
    alloc: Global,
    arena: &Arena,
    paths: &Paths,
    of: NodeType,
    pattern: &Pattern,
) -> Result<Paths, ListFault>
    requires { All (λ p. p < length arena.now.forest.places) paths.now }
    ensures within { IfOk result (λ v. All (λ p. p < length arena.now.forest.places) v) }
    ensures found { IfOk result (λ v. v ≡ nearest_all arena.now.forest (fits_type arena.now pattern.now of) paths.now) }
    ensures few { IfOk result (λ v. length v ≤ 1000000) }
    ensures long { result ≡ Err ListFault.ListLong → 1000000 < length (nearest_all arena.now.forest (fits_type arena.now pattern.now of) paths.now) }
{
    let found = nearest_paths(alloc, arena, paths.as_slice(), of, pattern)?;
    if found.len() > MAX_ITEMS {
        return Err(ListFault::ListLong);
    }
    Ok(Items::from_vec(found))
}

//! Whether a node matches a pattern, and how many nodes are visited to tell it.

ghost use Rattle.std.specs.Prelude.{◌≡◌, ◌<◌, ◌+◌, ◌-◌, ◌^◌, length, map, min, true, Some};
ghost use Rattle.node_arena.specs.Store.{Store};
ghost use Rattle.collections.specs.Values.{ReadIn};
ghost use Rattle.collections.specs.Reads.{seen, list, object, undefined};
ghost use Rattle.collections.specs.Matches.{is_text, is_whole, is_truth, is_null, has_places, fit_object, fields_told, below_told, items_told, list_told, tried, field_tried, matches_at, visits_at};

use crate::field_values::{Read, item, read_field, spells};
use crate::pattern::{FieldPattern, Pattern};
use node_arena::{Arena, NodeId, PlaceId};

/// Whether what was tried fits, and how many nodes were visited to tell it.
#[derive(Clone, Copy, Debug, PartialEq, Eq)]
pub struct Trial {
    pub fits: bool,
    /// `u64::MAX` where there are more.
    pub visits: u64,
}

/// A trial that asked no node.
fn told(fits: bool) -> Trial
    ensures fits { result.fits ≡ fits }
    ensures visits { result.visits ≡ 0 }
{
    Trial { fits, visits: 0 }
}

fn is_text(arena: &Arena, value: &Read<'_>, text: &[u16]) -> bool
    requires { ReadIn arena.now.forest value.now }
    ensures { result ≡ is_text text.now (seen value.now) }
{
    let _made = arena.nodes();
    match value {
        Read::Text(units) => text == *units,
        Read::Named(kind) => spells(text, kind.name()),
        _ => false,
    }
}

fn is_whole(arena: &Arena, value: &Read<'_>, number: i64) -> bool
    requires { ReadIn arena.now.forest value.now }
    ensures { result ≡ is_whole number (seen value.now) }
{
    let _made = arena.nodes();
    match value {
        Read::Whole(whole) => *whole == number,
        _ => false,
    }
}

fn is_truth(arena: &Arena, value: &Read<'_>, truth: bool) -> bool
    requires { ReadIn arena.now.forest value.now }
    ensures { result ≡ is_truth truth (seen value.now) }
{
    let _made = arena.nodes();
    match value {
        Read::Truth(own) => *own == truth,
        _ => false,
    }
}

fn is_null(arena: &Arena, value: &Read<'_>) -> bool
    requires { ReadIn arena.now.forest value.now }
    ensures { result ≡ is_null (seen value.now) }
{
    let _made = arena.nodes();
    match value {
        Read::Null => true,
        _ => false,
    }
}

/// Whether the list from a place on has so many places.
#[tactic(auto, using(crate::proofs::Trials::long_none, crate::proofs::Trials::long_some, crate::proofs::Trials::long_end))]
fn is_long(arena: &Arena, first: PlaceId, count: usize) -> bool
    requires { first < length arena.now.forest.places }
    ensures { result ≡ has_places arena.now.forest count (Some first) }
{
    let mut at = Some(first);
    for _item in 0..count {
        let Some(place) = at else {
            return false;
        };
        at = arena.next(place);
    }
    true
}

/// Whether anything fits the pattern.
pub fn is_any(pattern: &Pattern) -> bool
    ensures any { pattern.now ≡ Pattern.Any → result ≡ true }
    ensures object { (A : Store) → result ≡ (tried pattern.now A object).fits }
    ensures undefined { (A : Store) → result ≡ (tried pattern.now A undefined).fits }
{
    match pattern {
        Pattern::Any => true,
        _ => false,
    }
}

/// Whether each pattern is `Any`, which alone fits a comment.
fn are_any(patterns: &[Pattern]) -> bool
    ensures { (A : Store) → result ≡ fit_object (map tried patterns.now) A }
{
    for pattern in patterns {
        if !is_any(pattern) {
            return false;
        }
    }
    true
}

#[cycle(matching)]
fn try_fields(arena: &Arena, node: NodeId, fields: &[FieldPattern]) -> Trial
    requires { node < length arena.now.forest.nodes }
    ensures fits { result.fits ≡ (fields_told (map field_tried fields.now) arena.now node).fits }
    ensures visits { result.visits ≡ min (fields_told (map field_tried fields.now) arena.now node).visits (2 ^ 64 - 1) }
{
    let mut visits = 0u64;
    for field in fields {
        let value = read_field(arena, node, field.name.get());
        let trial = try_value(arena, &value, &field.pattern);
        visits = visits.saturating_add(trial.visits);
        if !trial.fits {
            return Trial {
                fits: false,
                visits,
            };
        }
    }
    Trial { fits: true, visits }
}

#[cycle(matching)]
fn try_items(arena: &Arena, first: PlaceId, patterns: &[Pattern]) -> Trial
    requires { first < length arena.now.forest.places }
    ensures fits { result.fits ≡ (list_told (map tried patterns.now) arena.now (list (Some first))).fits }
    ensures visits { result.visits ≡ min (list_told (map tried patterns.now) arena.now (list (Some first))).visits (2 ^ 64 - 1) }
{
    if !is_long(arena, first, patterns.len()) {
        return told(false);
    }
    let mut visits = 0u64;
    let mut at = Some(first);
    for pattern in patterns {
        let Some(place) = at else {
            return Trial {
                fits: false,
                visits,
            };
        };
        let value = item(arena, place);
        let trial = try_value(arena, &value, pattern);
        visits = visits.saturating_add(trial.visits);
        if !trial.fits {
            return Trial {
                fits: false,
                visits,
            };
        }
        at = arena.next(place);
    }
    Trial { fits: true, visits }
}

/// A node that is asked for its fields is visited.
#[cycle(matching)]
fn try_below(arena: &Arena, value: &Read<'_>, fields: &[FieldPattern]) -> Trial
    requires { ReadIn arena.now.forest value.now }
    ensures fits { result.fits ≡ (below_told (map field_tried fields.now) arena.now (seen value.now)).fits }
    ensures visits { result.visits ≡ min (below_told (map field_tried fields.now) arena.now (seen value.now)).visits (2 ^ 64 - 1) }
{
    match value {
        Read::Node(node) => {
            let trial = try_fields(arena, *node, fields);
            Trial {
                fits: trial.fits,
                visits: trial.visits.saturating_add(1),
            }
        }
        _ => told(false),
    }
}

#[cycle(matching)]
fn try_list(arena: &Arena, value: &Read<'_>, patterns: &[Pattern]) -> Trial
    requires { ReadIn arena.now.forest value.now }
    ensures fits { result.fits ≡ (list_told (map tried patterns.now) arena.now (seen value.now)).fits }
    ensures visits { result.visits ≡ min (list_told (map tried patterns.now) arena.now (seen value.now)).visits (2 ^ 64 - 1) }
{
    match value {
        Read::Empty => told(patterns.is_empty()),
        Read::List(first) => try_items(arena, *first, patterns),
        Read::Comments(count) => told(patterns.len() <= *count && are_any(patterns)),
        _ => told(false),
    }
}

#[cycle(matching)]
fn try_value(arena: &Arena, value: &Read<'_>, pattern: &Pattern) -> Trial
    requires { ReadIn arena.now.forest value.now }
    ensures fits { result.fits ≡ (tried pattern.now arena.now (seen value.now)).fits }
    ensures visits { result.visits ≡ min (tried pattern.now arena.now (seen value.now)).visits (2 ^ 64 - 1) }
{
    match pattern {
        Pattern::Any => told(true),
        Pattern::Text(text) => told(is_text(arena, value, text.get())),
        Pattern::Whole(number) => told(is_whole(arena, value, *number)),
        Pattern::Truth(truth) => told(is_truth(arena, value, *truth)),
        Pattern::Null => told(is_null(arena, value)),
        Pattern::Fields(fields) => try_below(arena, value, fields.as_slice()),
        Pattern::Items(patterns) => try_list(arena, value, patterns.as_slice()),
    }
}

/// What `matches` and `reached` tell, by one walk. It takes no memory.
pub fn try_pattern(arena: &Arena, node: NodeId, pattern: &Pattern) -> Trial
    requires { node < length arena.now.forest.nodes }
    ensures any { pattern.now ≡ Pattern.Any → result.fits ≡ true }
    ensures fits { result.fits ≡ matches_at arena.now node pattern.now }
    ensures visits { result.visits ≡ min (visits_at arena.now node pattern.now) (2 ^ 64 - 1) }
{
    match pattern {
        Pattern::Any => told(true),
        Pattern::Fields(fields) => try_fields(arena, node, fields.as_slice()),
        _ => told(false),
    }
}

/// Whether a node matches: each field of the pattern, read on the node, is what the pattern says.
/// Texts, numbers, truths and null match by equality, objects match nodes, and lists match item by
/// item a list that is at least as long. It takes no memory.
pub fn matches(arena: &Arena, node: NodeId, pattern: &Pattern) -> bool
    requires { node < length arena.now.forest.nodes }
    ensures any { pattern.now ≡ Pattern.Any → result ≡ true }
    ensures fits { result ≡ matches_at arena.now node pattern.now }
{
    try_pattern(arena, node, pattern).fits
}

/// How many nodes below this one are visited to tell whether it matches: one each time that an
/// object of the pattern is tried on one, up to the first that does not fit; `u64::MAX` where
/// there are more. It takes no memory.
pub fn reached(arena: &Arena, node: NodeId, pattern: &Pattern) -> u64
    requires { node < length arena.now.forest.nodes }
    ensures { result ≡ min (visits_at arena.now node pattern.now) (2 ^ 64 - 1) }
{
    try_pattern(arena, node, pattern).visits
}

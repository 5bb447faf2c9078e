//! What a field of a node reads as: the fields of its kind, `type`, `comments`, and the reading
//! views of literals, arrows and template elements, after ESTree.

ghost use Rattle.std.specs.Prelude.{◌≡◌, ◌<◌, ◌≤◌, ◌+◌, length, map, take, codes, pos, Some, IfSome, IfNone};
ghost use Rattle.std.specs.Str.{bytes_eq};
ghost use Rattle.std.specs.Option.{is_some};
ghost use Rattle.type_defs.specs.Fields.{fields_of, row_of, slots_at, scalar_count as scalars_of};
ghost use Rattle.node_arena.specs.Reads.{kind_at};
ghost use Rattle.collections.specs.Values.{ReadIn};
ghost use Rattle.collections.specs.Reads.{seen, place_read, slot_read, scalar_read, named, own_read, spelled, safe_read, digits_read, undefined, whole, is_digit, number_read, bigint_read, is_sort, literal_read, is_expression, comments_read, kind_read, field_read};

use node_arena::{Arena, NodeId, PlaceId};
use tree_core::Scalar;
use type_defs::{FieldDef, Kind, fields, is_list, scalar_count, slots};

/// The greatest whole number that a script reads: Number.MAX_SAFE_INTEGER of ECMA-262.
const MAX_WHOLE: u64 = 9007199254740991;

/// What a field of a node reads as.
#[derive(Clone, Copy, Debug)]
pub enum Read<'a> {
    /// The node has no such field.
    Undefined,
    /// A text in code units.
    Text(&'a [u16]),
    /// The name of a kind.
    Named(Kind),
    Whole(i64),
    Truth(bool),
    Null,
    /// An object that is no node.
    Object,
    Node(NodeId),
    /// A list without places.
    Empty,
    /// A list with its first place.
    List(PlaceId),
    /// So many comments.
    Comments(usize),
}

/// Whether the code units are, as numbers, the bytes of the word.
pub fn spells(units: &[u16], word: &str) -> bool
    ensures { result ≡ bytes_eq units.now word.now }
{
    let bytes = word.as_bytes();
    if units.len() != bytes.len() {
        return false;
    }
    for at in 0..units.len() {
        if units[at] != u16::from(bytes[at]) {
            return false;
        }
    }
    true
}

/// What stands in a place reads as.
pub fn item(arena: &Arena, place: PlaceId) -> Read<'_>
    requires { place < length arena.now.forest.places }
    ensures within { ReadIn arena.now.forest result }
    ensures reads { seen result ≡ place_read arena.now.forest place }
{
    match arena.node_at(place) {
        None => Read::Null,
        Some(node) => Read::Node(node),
    }
}

fn scalar(arena: &Arena, node: NodeId, index: u8) -> Read<'_>
    requires at { node < length arena.now.forest.nodes }
    requires index { index < scalars_of (kind_at arena.now.forest node) }
    ensures within { ReadIn arena.now.forest result }
    ensures reads { seen result ≡ scalar_read arena.now node index }
{
    match arena.scalar(node, index) {
        Scalar::Text(text) => Read::Text(text.get()),
        Scalar::Truth(truth) => Read::Truth(*truth),
        Scalar::Null => Read::Null,
    }
}

fn slot(arena: &Arena, node: NodeId, slot: u8) -> Read<'_>
    requires { node < length arena.now.forest.nodes }
    ensures within { ReadIn arena.now.forest result }
    ensures reads { seen result ≡ slot_read arena.now.forest node slot }
{
    let first = arena.slot_first(node, slot);
    let list = is_list(arena.kind(node), slot);
    let Some(place) = first else {
        if list {
            return Read::Empty;
        }
        return Read::Null;
    };
    if list {
        return Read::List(place);
    }
    item(arena, place)
}

fn field_name(field: &FieldDef) -> &'static str
    ensures { result.now ≡ (row_of field.now).name }
{
    field.0
}

/// The number of the first of the fields that has the name.
fn named(fields: &[FieldDef], name: &[u16]) -> Option<u8>
    requires { length fields.now ≤ 4 }
    ensures first { result ≡ named 0 name.now (map row_of fields.now) }
    ensures within { IfSome result (λ i. i < length fields.now) }
{
    for index in 0..fields.len() {
        if spells(name, field_name(&fields[index])) {
            return Some(index as u8);
        }
    }
    None
}

/// The number of the kind's scalar of this name.
fn scalar_named(kind: Kind, name: &[u16]) -> Option<u8>
    ensures first { result ≡ named 0 name.now (take (scalars_of kind) (fields_of kind)) }
    ensures within { IfSome result (λ i. i < scalars_of kind) }
{
    named(scalars(kind), name)
}

/// The scalars of the kind, which come before its slots.
fn scalars(kind: Kind) -> &'static [FieldDef]
    ensures fields { map row_of result.now ≡ take (scalars_of kind) (fields_of kind) }
    ensures few { length result.now ≤ 4 }
    ensures count { length result.now ≤ scalars_of kind }
{
    let fields = fields(kind);
    let count = scalar_count(kind);
    if count > fields.len() {
        return fields;
    }
    &fields[..count]
}

/// A field of the table of kinds.
fn field<'a>(arena: &'a Arena, node: NodeId, name: &[u16]) -> Read<'a>
    requires { node < length arena.now.forest.nodes }
    ensures within { ReadIn arena.now.forest result }
    ensures reads { seen result ≡ own_read arena.now node name.now (kind_at arena.now.forest node) }
{
    let kind = arena.kind(node);
    if let Some(index) = scalar_named(kind, name) {
        return scalar(arena, node, index);
    }
    match named(slots(kind), name) {
        None => Read::Undefined,
        Some(index) => slot(arena, node, index),
    }
}

/// The number of a decimal digit.
fn digit(unit: u16) -> Option<u64>
    ensures few { IfSome result (λ d. d < 10) }
    ensures value { IfSome result (λ d. d + 48 ≡ unit) }
    ensures digit { is_some result ≡ is_digit unit }
{
    if unit < 48 || unit > 57 {
        return None;
    }
    Some(u64::from(unit - 48))
}

/// The number that decimal digits spell, within the range of a script.
fn spelled(units: &[u16]) -> Option<u64>
    ensures some { IfSome result (λ n. spelled 0 units.now ≡ Some n) }
    ensures few { IfSome result (λ n. n ≤ 9007199254740991) }
    ensures none { IfNone result (safe_read (spelled 0 units.now) ≡ undefined) }
{
    let mut value = 0u64;
    for unit in units {
        let Some(digit) = digit(*unit) else {
            return None;
        };
        let more = value * 10 + digit;
        if more > MAX_WHOLE {
            return None;
        }
        value = more;
    }
    Some(value)
}

/// The number that decimal digits without a leading zero spell, within the range of a script.
fn whole(units: &[u16]) -> Option<i64>
    ensures some { IfSome result (λ n. digits_read units.now ≡ whole n) }
    ensures none { IfNone result (digits_read units.now ≡ undefined) }
{
    if units.is_empty() || (units[0] == 48 && units.len() > 1) {
        return None;
    }
    match spelled(units) {
        None => None,
        Some(value) => Some(value as i64),
    }
}

/// The raw text of a number, read as a number of a script.
fn number(arena: &Arena, node: NodeId, index: u8) -> Read<'_>
    requires at { node < length arena.now.forest.nodes }
    requires index { index < scalars_of (kind_at arena.now.forest node) }
    ensures within { ReadIn arena.now.forest result }
    ensures reads { seen result ≡ number_read (scalar_read arena.now node index) }
{
    let Scalar::Text(raw) = arena.scalar(node, index) else {
        return Read::Undefined;
    };
    match whole(raw.get()) {
        None => Read::Undefined,
        Some(value) => Read::Whole(value),
    }
}

/// The raw text of a BigInt without its `n`.
fn bigint(arena: &Arena, node: NodeId, index: u8) -> Read<'_>
    requires at { node < length arena.now.forest.nodes }
    requires index { index < scalars_of (kind_at arena.now.forest node) }
    ensures within { ReadIn arena.now.forest result }
    ensures reads { seen result ≡ bigint_read (scalar_read arena.now node index) }
{
    let Scalar::Text(raw) = arena.scalar(node, index) else {
        return Read::Undefined;
    };
    let units = raw.get();
    if units.is_empty() {
        return Read::Undefined;
    }
    Read::Text(&units[..units.len() - 1])
}

/// Whether the sort of a literal is this word.
fn is_sort(arena: &Arena, node: NodeId, word: &str) -> bool
    requires at { node < length arena.now.forest.nodes }
    requires sort { 0 < scalars_of (kind_at arena.now.forest node) }
    ensures { result ≡ is_sort arena.now node word.now }
{
    match arena.scalar(node, 0) {
        Scalar::Text(text) => spells(text.get(), word),
        _ => false,
    }
}

/// A field of a literal: its value as a number, and the views that only some sorts have.
fn literal<'a>(arena: &'a Arena, node: NodeId, name: &[u16]) -> Read<'a>
    requires at { node < length arena.now.forest.nodes }
    requires raw { 1 < scalars_of (kind_at arena.now.forest node) }
    ensures within { ReadIn arena.now.forest result }
    ensures reads { seen result ≡ literal_read arena.now node name.now (kind_at arena.now.forest node) }
{
    if is_sort(arena, node, "number") && spells(name, "value") {
        return number(arena, node, 1);
    }
    if is_sort(arena, node, "number") && spells(name, "raw") {
        return scalar(arena, node, 1);
    }
    if is_sort(arena, node, "bigint") && spells(name, "bigint") {
        return bigint(arena, node, 1);
    }
    if is_sort(arena, node, "regexp") && spells(name, "regex") {
        return Read::Object;
    }
    field(arena, node, name)
}

/// Whether the body of an arrow is an expression.
fn has_expression(arena: &Arena, arrow: NodeId) -> bool
    requires { arrow < length arena.now.forest.nodes }
    ensures { result ≡ is_expression arena.now.forest (slot_read arena.now.forest arrow 1) }
{
    match slot(arena, arrow, 1) {
        Read::Node(body) => arena.kind(body) != Kind::BlockStatement,
        _ => false,
    }
}

/// The comments of a node: null where it has none.
fn comments(arena: &Arena, node: NodeId) -> Read<'_>
    requires { node < length arena.now.forest.nodes }
    ensures within { ReadIn arena.now.forest result }
    ensures reads { seen result ≡ comments_read arena.now node }
{
    let outside = arena
        .lead(node)
        .len()
        .saturating_add(arena.trail(node).len());
    let count = outside.saturating_add(arena.inner(node).len());
    if count == 0 {
        return Read::Null;
    }
    Read::Comments(count)
}

/// A field of a node that is neither its kind nor its comments.
#[tactic(auto, using(crate::proofs::Literals::has_raw))]
fn kind_field<'a>(arena: &'a Arena, node: NodeId, name: &[u16]) -> Read<'a>
    requires { node < length arena.now.forest.nodes }
    ensures within { ReadIn arena.now.forest result }
    ensures reads { seen result ≡ kind_read arena.now node name.now (kind_at arena.now.forest node) }
{
    let kind = arena.kind(node);
    if kind == Kind::Literal {
        return literal(arena, node, name);
    }
    if kind == Kind::ArrowFunctionExpression && spells(name, "expression") {
        return Read::Truth(has_expression(arena, node));
    }
    if kind == Kind::TemplateElement && spells(name, "value") {
        return Read::Object;
    }
    field(arena, node, name)
}

/// What a field of a node reads as.
pub fn read_field<'a>(arena: &'a Arena, node: NodeId, name: &[u16]) -> Read<'a>
    requires { node < length arena.now.forest.nodes }
    ensures within { ReadIn arena.now.forest result }
    ensures reads { seen result ≡ field_read arena.now node name.now }
{
    if spells(name, "comments") {
        return comments(arena, node);
    }
    if spells(name, "type") {
        return Read::Named(arena.kind(node));
    }
    kind_field(arena, node, name)
}

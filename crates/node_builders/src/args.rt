//! Whether arguments are those that a builder takes, and the nodes among them.

ghost use Rattle.std.specs.Prelude.{◌≡◌, ◌≢◌, ◌<◌, ◌≤◌, ◌↔◌, Err, true, length, drop};
ghost use Rattle.std.specs.List.{list_any};
ghost use Rattle.type_defs.specs.Builders.{args_of};

use crate::arg::{BuildArg, BuildFault};
use crate::field_table::field_takes;
use crate::takes::Takes;
use node_arena::{Arena, NodeId};
use type_defs::{BuilderArg, FieldDef, FieldShape, Kind, builder, fields};

/// Whether the field takes the node, which is one of the arena.
fn takes_node(arena: &Arena, takes: Takes, node: NodeId) -> bool {
    node.number() < arena.nodes() && takes.accepts(arena.kind(node))
}

/// Whether the field takes what stands in a place of a list.
fn takes_item(arena: &Arena, takes: Takes, item: Option<NodeId>) -> bool {
    match item {
        None => takes.has_holes(),
        Some(node) => takes_node(arena, takes, node),
    }
}

/// Whether a field that is a list takes these.
fn takes_list(arena: &Arena, takes: Takes, items: &[Option<NodeId>]) -> bool {
    for at in 0..items.len() {
        if !takes_item(arena, takes, items[at]) {
            return false;
        }
    }
    true
}

/// Whether a scalar of the kind of value takes the argument.
fn takes_value(takes: Takes, value: &BuildArg) -> bool {
    match value {
        BuildArg::Text(_) => matches!(takes, Takes::Text | Takes::MaybeText | Takes::Value),
        BuildArg::Whole(number) => *number >= 0 && takes == Takes::Value,
        BuildArg::Truth(_) => matches!(takes, Takes::Truth | Takes::Value),
        BuildArg::Null => matches!(takes, Takes::MaybeText | Takes::Value),
        BuildArg::Absent | BuildArg::Node(_) | BuildArg::Nodes(_) => false,
    }
}

fn shape(field: &FieldDef) -> FieldShape {
    field.1
}

/// Whether the field of an argument takes it.
fn fits(arena: &Arena, kind: Kind, arg: BuilderArg, value: &BuildArg) -> bool {
    let fields = fields(kind);
    let all = field_takes(kind);
    let at = arg.field as usize;
    if at >= fields.len() || at >= all.len() {
        return false;
    }
    let takes = all[at];
    let FieldShape { slot, list, needed } = shape(&fields[at]);
    if !slot {
        if let BuildArg::Absent = value {
            return !arg.needed;
        }
        return takes_value(takes, value);
    }
    match value {
        BuildArg::Absent => !arg.needed || (!list && !needed),
        BuildArg::Null => !list && !needed,
        BuildArg::Node(node) => !list && takes_node(arena, takes, *node),
        BuildArg::Nodes(items) => list && takes_list(arena, takes, items.as_slice()),
        BuildArg::Text(_) | BuildArg::Whole(_) | BuildArg::Truth(_) => false,
    }
}

/// Whether one of these arguments may not be left out.
fn has_needed(wanted: &[BuilderArg]) -> bool
    ensures { result ≡ list_any (λ a. a.needed) wanted.now }
{
    wanted.iter().any(|arg| arg.needed)
}

/// Whether a builder wants more arguments than so many.
fn lacks(wanted: &[BuilderArg], count: usize) -> bool
    requires { count ≤ length wanted.now }
    ensures { result ≡ list_any (λ a. a.needed) (drop count wanted.now) }
{
    has_needed(&wanted[count..])
}

/// Refuses arguments that the builder of the kind does not take.
pub(crate) fn check_args(arena: &Arena, kind: Kind, args: &[BuildArg]) -> Result<(), BuildFault>
    ensures many { result ≡ Err BuildFault.TooMany ↔ length (args_of kind) < length args.now }
    ensures few { result ≡ Err BuildFault.TooFew ↔ (length args.now ≤ length (args_of kind)) × (list_any (λ a. a.needed) (drop (length args.now) (args_of kind)) ≡ true) }
    ensures full { result ≢ Err BuildFault.Full }
    ensures memory { result ≢ Err BuildFault.NoMemory }
{
    let wanted = builder(kind);
    if args.len() > wanted.len() {
        return Err(BuildFault::TooMany);
    }
    if lacks(wanted, args.len()) {
        return Err(BuildFault::TooFew);
    }
    for at in 0..args.len() {
        if !fits(arena, kind, wanted[at], &args[at]) {
            return Err(BuildFault::BuilderType {
                field: wanted[at].field,
            });
        }
    }
    Ok(())
}

/// How many places the arguments fill or leave empty.
pub(crate) fn count_items(args: &[BuildArg]) -> usize {
    let mut count: usize = 0;
    for arg in args {
        count = count.saturating_add(length_of(arg));
    }
    count
}

fn length_of(arg: &BuildArg) -> usize {
    match arg {
        BuildArg::Node(_) => 1,
        BuildArg::Nodes(items) => items.len(),
        _ => 0,
    }
}

/// The node of this number among all nodes and holes of an argument.
fn item_of(arg: &BuildArg, at: usize) -> Option<NodeId> {
    match arg {
        BuildArg::Node(node) => Some(*node),
        BuildArg::Nodes(items) => match items.get(at) {
            Some(item) => *item,
            None => None,
        },
        _ => None,
    }
}

/// The node of this number among all nodes and holes of the arguments.
pub(crate) fn item_at(args: &[BuildArg], number: usize) -> Option<NodeId> {
    let mut left = number;
    for arg in args {
        let length = length_of(arg);
        if left < length {
            return item_of(arg, left);
        }
        left -= length;
    }
    None
}

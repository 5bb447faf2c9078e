//! The scalars of a built node.

use crate::arg::BuildArg;
use crate::field_table::field_takes;
use crate::takes::Takes;
use node_arena::{Arena, NodeId};
use std::alloc::{AllocError, Global};
use tree_core::{Scalar, Units};
use type_defs::{Kind, builder, scalar_count};

/// Whether a specifier takes its one name twice: the second is left out, and then a copy.
pub(crate) fn is_twice(kind: Kind, args: &[BuildArg]) -> bool {
    if !is_specifier(kind) || args.is_empty() {
        return false;
    }
    args.len() == 1 || matches!(&args[1], BuildArg::Absent)
}

/// Whether nodes of the kind spell two names by one where these are the same.
pub(crate) fn is_specifier(kind: Kind) -> bool {
    matches!(kind, Kind::ImportSpecifier | Kind::ExportSpecifier)
}

/// Whether two nodes are names, and the same.
pub(crate) fn same_names(arena: &Arena, first: NodeId, second: NodeId) -> bool {
    let Some(a) = name_of(arena, first) else {
        return false;
    };
    let Some(b) = name_of(arena, second) else {
        return false;
    };
    a == b
}

/// The text of a node that is a name.
fn name_of(arena: &Arena, node: NodeId) -> Option<&[u16]> {
    if node.number() >= arena.nodes() {
        return None;
    }
    let kind = arena.kind(node);
    if kind != Kind::Identifier || scalar_count(kind) == 0 {
        return None;
    }
    match arena.scalar(node, 0) {
        Scalar::Text(text) => Some(text.get()),
        Scalar::Truth(_) | Scalar::Null => None,
    }
}

/// The decimal digits of a number.
fn digits(alloc: Global, number: u64) -> Result<Units, AllocError> {
    let text = number.to_string(alloc)?;
    Units::of_bytes(alloc, text.as_bytes())
}

/// The scalar that an argument says; null where it says none.
fn scalar_of(alloc: Global, value: &BuildArg) -> Result<Scalar, AllocError> {
    match value {
        BuildArg::Text(text) => Ok(Scalar::Text(text.copied(alloc)?)),
        BuildArg::Whole(number) => Ok(Scalar::Text(digits(alloc, number.unsigned_abs())?)),
        BuildArg::Truth(truth) => Ok(Scalar::Truth(*truth)),
        BuildArg::Absent | BuildArg::Node(_) | BuildArg::Nodes(_) | BuildArg::Null => {
            Ok(Scalar::Null)
        }
    }
}

/// The sort of the literal whose value an argument says.
fn sort_of(value: &BuildArg) -> &'static str {
    match value {
        BuildArg::Text(_) => "string",
        BuildArg::Whole(_) => "number",
        BuildArg::Truth(_) => "boolean",
        _ => "null",
    }
}

/// The number of the argument for a field.
fn argument_for(kind: Kind, field: u8) -> Option<usize> {
    builder(kind).iter().position(|arg| arg.field == field)
}

/// A scalar that no argument says: false, or null.
fn usual(takes: Takes) -> Scalar {
    match takes {
        Takes::Truth => Scalar::Truth(false),
        _ => Scalar::Null,
    }
}

/// A scalar by its field and the arguments.
fn scalar_for(
    alloc: Global,
    kind: Kind,
    args: &[BuildArg],
    field: u8,
    takes: Takes,
) -> Result<Scalar, AllocError> {
    if takes == Takes::Sort && !args.is_empty() {
        return Ok(Scalar::Text(Units::of_bytes(alloc, sort_of(&args[0]).as_bytes())?));
    }
    let Some(at) = argument_for(kind, field) else {
        return Ok(usual(takes));
    };
    if at >= args.len() || matches!(&args[at], BuildArg::Absent) {
        return Ok(usual(takes));
    }
    scalar_of(alloc, &args[at])
}

/// The scalars of a node of the kind, in the order of its fields.
pub(crate) fn scalars_for(
    alloc: Global,
    kind: Kind,
    args: &[BuildArg],
) -> Result<Vec<Scalar>, AllocError> {
    let all = field_takes(kind);
    let count = scalar_count(kind).min(all.len());
    let mut scalars = Vec::new(alloc);
    for field in 0..count {
        scalars.push(scalar_for(alloc, kind, args, field as u8, all[field])?)?;
    }
    Ok(scalars)
}

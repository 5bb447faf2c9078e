//! Scalars of nodes as values. The last text that was read of a node is remembered.

ghost use Rattle.std.specs.Prelude.{◌≡◌};

use crate::door::{has_node, scalar_of};
use crate::host::{Host, KnownScalar, push};
use node_arena::{Arena, NodeId};
use script_values::{Heap, Stop, TextId, Value};
use tree_core::Scalar;

// The text that was read last, where it was of this scalar.
fn remembered(known: &[Option<KnownScalar>], node: NodeId, index: u8) -> Option<TextId> {
    let row = node.number() as usize;
    if row >= known.len() {
        return None;
    }
    match known[row] {
        Some(last) => {
            if last.index == index {
                return Some(last.text);
            }
            None
        }
        None => None,
    }
}

fn remember(
    known: &mut Vec<Option<KnownScalar>>,
    node: NodeId,
    last: Option<KnownScalar>,
) -> Result<(), Stop> {
    let row = node.number() as usize;
    for _row in known.len()..row + 1 {
        push(known, None)?;
    }
    if row < known.len() {
        known[row] = last;
    }
    Ok(())
}

/// Forgets the text that was read of a node, which has another one now.
pub fn forget_text(known: &mut Vec<Option<KnownScalar>>, node: NodeId) {
    let row = node.number() as usize;
    if row < known.len() {
        known[row] = None;
    }
}

// The scalar as a value; a text is written into the heap.
fn fresh_value(arena: &Arena, heap: &mut Heap, node: NodeId, index: u8) -> Result<Value, Stop> {
    match scalar_of(arena, node, index)? {
        Scalar::Text(text) => Ok(Value::Text(heap.text(text.get())?)),
        Scalar::Truth(truth) => Ok(Value::Truth(*truth)),
        Scalar::Null => Ok(Value::Null),
    }
}

/// A scalar of a node.
pub fn scalar_value(host: &mut Host, node: NodeId, index: u8) -> Result<Value, Stop>
    ensures forest { host.new.arena ≡ host.old.arena }
{
    if let Some(text) = remembered(&host.known.scalars, node, index) {
        return Ok(Value::Text(text));
    }
    let value = fresh_value(&host.arena, &mut host.heap, node, index)?;
    if let Value::Text(text) = value {
        let last = Some(KnownScalar { index, text });
        remember(&mut host.known.scalars, node, last)?;
    }
    Ok(value)
}

/// Whether the scalar of a node is this word.
pub fn is_scalar(arena: &Arena, node: NodeId, index: u8, word: &str) -> bool {
    match scalar_of(arena, node, index) {
        Ok(Scalar::Text(text)) => text.is(word.as_bytes()),
        Ok(Scalar::Truth(_)) | Ok(Scalar::Null) | Err(_) => false,
    }
}

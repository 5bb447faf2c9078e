//! `split` (ECMA-262, 14th edition, clause 22.1.3.23).

ghost use Rattle.std.specs.Prelude.{◌≤◌};

use crate::searching::Pattern;
use crate::text_methods::{part, take_text, text_argument};
use script_values::{Fault, Heap, ListId, MAX_LIST_ITEMS, Stop, TextId, Value, take};
use std::alloc::AllocError;

// Where the pieces of a text end that a separator parts, but for the last one. An empty separator
// parts all units.
fn find_ends(text: &[u16], by: &Pattern, ends: &mut Vec<usize>) -> Result<(), AllocError> {
    let mut from: usize = 0;
    for _piece in 0..text.len() {
        let start = if by.len() == 0 {
            from.saturating_add(1)
        } else {
            from
        };
        match by.find(text, start) {
            Some(end) => {
                if end >= text.len() && by.len() == 0 {
                    return Ok(());
                }
                ends.push(end)?;
                from = end.saturating_add(by.len());
            }
            None => return Ok(()),
        }
    }
    Ok(())
}

/// `split(x)`. It takes a unit for each code unit of the text and of `x`, and for each item of the
/// answer.
pub fn split(
    heap: &mut Heap,
    fuel: &mut u64,
    text: TextId,
    arguments: &[Value],
) -> Result<Value, Stop>
    ensures { fuel.new ≤ fuel.old }
{
    let by = text_argument(arguments, 0)?;
    take_text(heap, fuel, text)?;
    take_text(heap, fuel, by)?;
    heap.flatten(text)?;
    heap.flatten(by)?;
    if heap.length(text)? == 0 && heap.length(by)? == 0 {
        return Ok(Value::List(heap.list(&[])?));
    }
    let pattern = Pattern::new(heap.alloc(), heap.units(by)?)?;
    let mut ends = Vec::new(heap.alloc());
    find_ends(heap.units(text)?, &pattern, &mut ends)?;
    let count = ends.len().saturating_add(1);
    take(fuel, count as u64)?;
    if count > MAX_LIST_ITEMS {
        return Err(Stop::Fault(Fault::ListLong));
    }
    Ok(Value::List(pieces(heap, text, &ends, pattern.len())?))
}

fn pieces(heap: &mut Heap, text: TextId, ends: &[usize], gap: usize) -> Result<ListId, Stop> {
    let list = heap.list(&[])?;
    let mut from: usize = 0;
    for end in ends {
        let piece = part(heap, text, from, *end)?;
        heap.push(list, piece)?;
        from = end.saturating_add(gap);
    }
    let last = part(heap, text, from, heap.length(text)? as usize)?;
    heap.push(list, last)?;
    Ok(list)
}

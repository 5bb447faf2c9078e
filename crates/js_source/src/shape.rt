//! Whether a node has the fields of its kind, by the table of kinds.

ghost use Rattle.std.specs.Prelude.{◌≡◌, true, map};
ghost use Rattle.js_source.specs.Shaped.{HasFields, lists_of};
ghost use Rattle.tree_core.specs.View.{slot_view, slots_of};
ghost use Rattle.type_defs.specs.Fields.{row_of};

use tree_core::{Slot, Tree};
use type_defs::{FieldDef, scalar_count, slots};

fn is_list(slot: &Slot) -> bool
    ensures { result ≡ (slot_view slot.now).0 }
{
    match slot {
        Slot::Single(_) => false,
        Slot::List(_) => true,
    }
}

// Whether there are as many slots as fields, of which the same ones are lists.
fn are_lists_alike(fields: &[FieldDef], slots: &[Slot]) -> bool
    ensures { result ≡ true → lists_of (slots_of (map slot_view slots.now)) ≡ map (λ f. f.list) (map row_of fields.now) }
{
    if fields.len() != slots.len() {
        return false;
    }
    for at in 0..fields.len() {
        if fields[at].1.list != is_list(&slots[at]) {
            return false;
        }
    }
    true
}

/// Whether the node has the fields of its kind. No node below it is looked at.
pub fn has_fields(tree: &Tree) -> bool
    ensures { result ≡ true → HasFields tree.now.kind tree.now.scalars (slots_of (map slot_view tree.now.slots)) }
{
    if tree.scalars.len() != scalar_count(tree.kind) {
        return false;
    }
    are_lists_alike(slots(tree.kind), tree.slots.as_slice())
}

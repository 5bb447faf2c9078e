//! What the nodes of each kind have: scalars and slots.

ghost use Rattle.std.specs.Prelude.{◌≡◌, ◌≤◌, length, map, count_by};
ghost use Rattle.type_defs.specs.Fields.{is_scalar, row_of, fields_of, scalar_count, slots_at, is_list_at};

use crate::field_table::field_rows;
use crate::kind::Kind;

/// What a field is. A scalar that is not needed may be null, and a single place that is not needed
/// may be empty; a list is never needed.
#[derive(Clone, Copy, Debug, PartialEq, Eq)]
pub struct FieldShape {
    pub slot: bool,
    pub list: bool,
    pub needed: bool,
}

/// A field of a kind: its name, and what it is.
pub type FieldDef = (&'static str, FieldShape);

/// The fields of the kind, numbered from 0.
#[tactic(auto, unfolding(crate::specs::Fields::fields_of))]
pub fn fields(kind: Kind) -> &'static [FieldDef]
    ensures { map row_of result.now ≡ fields_of kind }
{
    field_rows()[kind as usize].1
}

/// How many scalars a node of the kind has.
pub fn scalar_count(kind: Kind) -> usize
    ensures count { result ≡ scalar_count kind }
    ensures few { result ≤ 4 }
{
    count_scalars(fields(kind))
}

fn count_scalars(fields: &[FieldDef]) -> usize
    ensures { result ≡ count_by is_scalar (map row_of fields.now) }
{
    fields.iter().filter(|field| !field.1.slot).count()
}

/// The slots of the kind, numbered from 0.
pub fn slots(kind: Kind) -> &'static [FieldDef]
    ensures slots { map row_of result.now ≡ slots_at kind }
    ensures few { length result.now ≤ 4 }
{
    &fields(kind)[scalar_count(kind)..]
}

/// How many slots a node of the kind has.
pub fn slot_count(kind: Kind) -> usize
    ensures count { result ≡ length (slots_at kind) }
    ensures few { result ≤ 4 }
{
    slots(kind).len()
}

/// Whether the slot is a list of places; `false` where the kind has no such slot.
pub fn is_list(kind: Kind, slot: u8) -> bool
    ensures { result ≡ is_list_at kind slot }
{
    match slots(kind).get(slot as usize) {
        Some(field) => field.1.list,
        None => false,
    }
}

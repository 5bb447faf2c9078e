//! The scalars of a leaf.

ghost use Rattle.std.specs.Prelude.{◌≡◌, [], ◌∷◌, true, IfSome};
ghost use Rattle.js_forms.specs.Fixed as spec;
ghost use Rattle.tree_core.specs.declared.scalars.Scalar.TheVariants as scalar;

use crate::same::same_text;
use js_forms::{Sort, sort_name};
use tree_core::{Scalar, Scalars};

/// The text of scalars that are one text alone.
#[tactic(auto, using(crate::proofs::ShortLists::one_alone))]
pub fn one_text(scalars: &Scalars) -> Option<&[u16]>
    ensures { IfSome result (λ text. scalars.now ≡ scalar.Text text.now ∷ []) }
{
    if scalars.len() != 1 {
        return None;
    }
    match scalars.get(0) {
        Some(Scalar::Text(units)) => Some(units.get()),
        _ => None,
    }
}

/// Whether the scalars are this text alone.
#[tactic(auto, using(crate::proofs::ShortLists::one_alone))]
pub fn is_one_text(scalars: &Scalars, text: &str) -> bool
    ensures { result ≡ true → scalars.now ≡ scalar.Text text.now ∷ [] }
{
    if scalars.len() != 1 {
        return false;
    }
    match scalars.get(0) {
        Some(Scalar::Text(units)) => same_text(units, text),
        _ => false,
    }
}

/// The value and the flags of a literal of this sort.
#[tactic(auto, using(crate::proofs::ShortLists::three_of))]
pub fn value_of(scalars: &Scalars, sort: Sort) -> Option<(&Scalar, &Scalar)>
    ensures { IfSome result (λ held. scalars.now ≡ scalar.Text (spec.sort_name sort) ∷ held.0.now ∷ held.1.now ∷ []) }
{
    if scalars.len() != 3 {
        return None;
    }
    match (scalars.get(0), scalars.get(1), scalars.get(2)) {
        (Some(Scalar::Text(name)), Some(value), Some(flags)) => {
            if same_text(name, sort_name(sort)) {
                return Some((value, flags));
            }
            None
        }
        _ => None,
    }
}

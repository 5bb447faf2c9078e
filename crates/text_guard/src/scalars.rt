//! Whether two nodes have the same scalars.

ghost use Rattle.std.specs.Prelude.{◌≡◌, ◌↔◌, IsTrue};

use tree_core::{Scalar, Scalars};

/// Whether the scalars are the same, in the same order.
pub fn same_scalars(a: &Scalars, b: &Scalars) -> bool
    ensures { IsTrue result ↔ (a.now ≡ b.now) }
{
    if a.len() != b.len() {
        return false;
    }
    for at in 0..a.len() {
        match (a.get(at), b.get(at)) {
            (Some(a), Some(b)) => {
                if !same_scalar(a, b) {
                    return false;
                }
            }
            _ => return false,
        }
    }
    true
}

fn same_scalar(a: &Scalar, b: &Scalar) -> bool
    ensures { IsTrue result ↔ (a.now ≡ b.now) }
{
    match (a, b) {
        (Scalar::Text(a), Scalar::Text(b)) => a.get() == b.get(),
        (Scalar::Truth(a), Scalar::Truth(b)) => *a == *b,
        (Scalar::Null, Scalar::Null) => true,
        _ => false,
    }
}

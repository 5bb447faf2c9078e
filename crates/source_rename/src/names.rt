//! Identifiers and texts of a name.

ghost use Rattle.std.specs.Prelude.{◌≡◌};
ghost use Rattle.first_rename.specs.Names as spec;

use tree_core::{Scalar, Tree};
use type_defs::Kind;

/// Whether the tree is an identifier of the name (ESTree, Identifier).
pub fn is_named(tree: &Tree, name: &[u8]) -> bool
    ensures { result ≡ spec.is_named name.now tree.now.kind tree.now.scalars }
{
    if !matches!(tree.kind, Kind::Identifier) || tree.scalars.len() != 1 {
        return false;
    }
    match tree.scalars.get(0) {
        Some(scalar) => is_text(scalar, name),
        None => false,
    }
}

/// Whether the scalar is this text.
pub fn is_text(scalar: &Scalar, text: &[u8]) -> bool
    ensures { result ≡ spec.is_text text.now scalar.now }
{
    match scalar {
        Scalar::Text(units) => units.is(text),
        _ => false,
    }
}

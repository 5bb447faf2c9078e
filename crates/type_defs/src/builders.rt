//! What the builder of each kind takes.

ghost use Rattle.std.specs.Prelude.{◌≡◌};
ghost use Rattle.type_defs.specs.Builders.{args_of};

use crate::kind::Kind;
use crate::kind_table::kind_rows;

/// An argument of a builder: the number of its field, and whether it may not be left out.
#[derive(Clone, Copy, Debug, PartialEq, Eq)]
pub struct BuilderArg {
    pub field: u8,
    pub needed: bool,
}

/// The arguments of the kind's builder, in order.
pub fn builder(kind: Kind) -> &'static [BuilderArg]
    ensures { result.now ≡ args_of kind }
{
    kind_rows()[kind as usize].2
}

//! Copies of what a node says.

ghost use Rattle.std.specs.Prelude.{◌≡◌, IfOk};

use std::alloc::{AllocError, Global};
use tree_core::{Scalar, copy_scalar};

pub fn copy_scalars(alloc: Global, scalars: &[Scalar]) -> Result<Vec<Scalar>, AllocError>
    ensures { IfOk result (λ copied. copied.items ≡ scalars.now) }
{
    let mut copied = Vec::new(alloc);
    for scalar in scalars {
        copied.push(copy_scalar(alloc, scalar)?)?;
    }
    Ok(copied)
}

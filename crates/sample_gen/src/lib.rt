//! The source that sample mode runs a script over: so many functions of one form.
//!
//! It stands beside the sources that a store holds, and makes one without a file.
#![tactic(auto)]

ghost use Rattle.std.specs.Prelude.{◌≡◌, ◌++◌, IfOk, OnOk};
ghost use Rattle.sample_gen.specs.Sample.{function_text, sample};

use std::alloc::{AllocError, Global};

// Appends the function of one number.
#[tactic(auto, unfolding(crate::specs::Sample::function_text))]
fn push_function(alloc: Global, number: u32, all: &mut Vec<u8>) -> Result<(), AllocError>
    ensures { OnOk result (all.new.items ≡ all.old.items ++ function_text number) }
{
    let digits = number.to_string(alloc)?;
    all.extend_from_slice(b"function f")?;
    all.extend_from_slice(digits.as_bytes())?;
    all.extend_from_slice(b"(a, b) {\n    return a + b * ")?;
    all.extend_from_slice(digits.as_bytes())?;
    all.extend_from_slice(b";\n}\n")?;
    Ok(())
}

#[tactic(auto, unfolding(crate::specs::Sample::sample))]
/// The source of `count` functions, numbered from 0.
pub fn sample(alloc: Global, count: u32) -> Result<Vec<u8>, AllocError>
    ensures { IfOk result (λ all. all.items ≡ sample count) }
{
    let mut all = Vec::new(alloc);
    for number in 0..count {
        push_function(alloc, number, &mut all)?;
    }
    Ok(all)
}

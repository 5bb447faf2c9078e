//! The source of sample mode.

use sample_gen::sample;
use std::test::Fail;

#[test]
fn three_functions(rt: HostRuntime) -> Result<(), Fail> {
    let text = sample(rt.alloc(), 3)?;
    assert!(rt; text.len() == 132);
    assert!(rt; text.starts_with(b"function f0(a, b) {\n    return a + b * 0;\n}\n"));
    Ok(())
}

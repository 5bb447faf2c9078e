//! Rows of the table of forms.

use js_forms::{Flow, Form, Link, first_pieces, level, scalars};
use std::alloc::AllocError;

#[test]
fn table(rt: HostRuntime) -> Result<(), AllocError> {
    assert!(rt; first_pieces(Form::If).len() == 8);
    assert!(rt; level(Form::Dot(Link::Plain)) == 18);
    assert!(rt; scalars(rt.alloc(), Form::Function(Flow::Async))?.len() == 2);
    Ok(())
}

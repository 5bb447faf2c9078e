//! Names (ECMA-262, clause 12.7).

use crate::characters::{code_at, is_pair};
use crate::scalars::text_at;
use js_forms::Form;
use js_tokens::{continues_name, is_reserved, starts_name};
use tree_core::{Tree, Units};

fn is_name_part(code: u32, first: bool) -> bool {
    if first {
        return starts_name(code);
    }
    continues_name(code)
}

/// Whether the code units are those of an identifier name, its escapes read.
pub fn is_identifier_name(name: &[u16]) -> bool {
    let mut second = false;
    for at in 0..name.len() {
        if second {
            second = false;
            continue;
        }
        let code = code_at(name, at);
        if !is_name_part(code, at == 0) {
            return false;
        }
        second = is_pair(code);
    }
    !name.is_empty()
}

fn is_any_name(text: Option<&Units>) -> bool {
    match text {
        Some(name) => is_identifier_name(name.get()),
        None => false,
    }
}

fn is_free_name(text: Option<&Units>) -> bool {
    match text {
        Some(name) => is_identifier_name(name.get()) && !is_reserved(name),
        None => false,
    }
}

/// Whether the name of the node, if it has one, may stand in this form.
pub fn has_name(node: &Tree, form: Form) -> bool {
    match form {
        Form::Name => is_free_name(text_at(&node.scalars, 0)),
        Form::AnyName | Form::PrivateName => is_any_name(text_at(&node.scalars, 0)),
        _ => true,
    }
}

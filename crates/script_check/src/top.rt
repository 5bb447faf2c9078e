//! The items of the top level.

use crate::form::{FormKind, ScriptError};
use crate::patterns::declaration;
use crate::shapes::{TopLevel, top_level};
use crate::statements::function_declaration;
use crate::walk::{Role, Walk};
use tree_core::Tree;
use type_defs::Kind;

/// Visits an item of the top level.
pub fn top_item<'a>(walk: &mut Walk<'a>, item: &'a Tree) -> Result<(), ScriptError> {
    match top_level(item) {
        None => walk.refuse(item, FormKind::Subset),
        Some(TopLevel::Directive) | Some(TopLevel::Parser) => Ok(()),
        Some(TopLevel::Function) => function_declaration(walk, item),
        Some(TopLevel::Declaration) => declaration(walk, item),
        Some(TopLevel::ModuleExports(value)) | Some(TopLevel::ExportDefault(value)) => {
            export(walk, item, value)
        }
    }
}

// Visits what is exported: a second export breaks a rule itself.
fn export<'a>(walk: &mut Walk<'a>, item: &'a Tree, value: &'a Tree) -> Result<(), ScriptError> {
    if walk.exported {
        return walk.refuse(item, FormKind::Twice);
    }
    walk.exported = true;
    if value.kind == Kind::FunctionDeclaration {
        return function_declaration(walk, value);
    }
    walk.visit(Role::Expression, Some(value))
}

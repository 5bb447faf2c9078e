//! The statements of a script (ECMA-262, clause 14, as far as scripts have them).

use crate::declared::{declare_item, declare_items, declare_parameters};
use crate::fields::{child, is_text, node_in, places, text, truth};
use crate::form::{FormKind, ScriptError};
use crate::patterns::declaration;
use crate::walk::{Role, Task, Walk};
use tree_core::Tree;
use type_defs::Kind;

/// Visits a statement.
pub fn statement<'a>(walk: &mut Walk<'a>, tree: &'a Tree) -> Result<(), ScriptError> {
    match tree.kind {
        Kind::VariableDeclaration => declaration(walk, tree),
        Kind::FunctionDeclaration => function_declaration(walk, tree),
        Kind::BlockStatement => block(walk, tree),
        Kind::ExpressionStatement | Kind::ReturnStatement | Kind::ThrowStatement => {
            walk.visit(Role::Expression, child(tree, 0))
        }
        Kind::IfStatement => {
            walk.visit(Role::Statement, child(tree, 2))?;
            walk.visit(Role::Statement, child(tree, 1))?;
            walk.visit(Role::Expression, child(tree, 0))
        }
        Kind::WhileStatement => {
            walk.visit(Role::LoopBody, child(tree, 1))?;
            walk.visit(Role::Expression, child(tree, 0))
        }
        Kind::ForStatement => for_statement(walk, tree),
        Kind::ForOfStatement => for_of_statement(walk, tree),
        Kind::BreakStatement | Kind::ContinueStatement => jump(walk, tree),
        Kind::EmptyStatement | Kind::Directive => Ok(()),
        _ => walk.refuse(tree, FormKind::Subset),
    }
}

// A `break` or `continue` has no label and stands in a loop of its function.
fn jump(walk: &mut Walk<'_>, tree: &Tree) -> Result<(), ScriptError> {
    if child(tree, 0).is_some() || walk.loops == 0 {
        return walk.refuse(tree, FormKind::Subset);
    }
    Ok(())
}

fn block<'a>(walk: &mut Walk<'a>, tree: &'a Tree) -> Result<(), ScriptError> {
    let items = places(tree, 0);
    walk.names.enter()?;
    declare_items(&mut walk.names, items)?;
    walk.push(Task::Leave)?;
    walk.visit_all(Role::Statement, items)
}

// The names of a declaration in the head belong to a block around the whole loop.
fn for_statement<'a>(walk: &mut Walk<'a>, tree: &'a Tree) -> Result<(), ScriptError> {
    let init = child(tree, 0);
    let mut role = Role::Expression;
    if let Some(init) = init {
        if init.kind == Kind::VariableDeclaration {
            role = Role::Statement;
            walk.names.enter()?;
            declare_item(&mut walk.names, init)?;
            walk.push(Task::Leave)?;
        }
    }
    walk.visit(Role::LoopBody, child(tree, 3))?;
    walk.visit(Role::Expression, child(tree, 2))?;
    walk.visit(Role::Expression, child(tree, 1))?;
    walk.visit(role, init)
}

fn for_of_statement<'a>(walk: &mut Walk<'a>, tree: &'a Tree) -> Result<(), ScriptError> {
    let Some(left) = child(tree, 0) else {
        return walk.refuse(tree, FormKind::Subset);
    };
    let declares = left.kind == Kind::VariableDeclaration && !is_text(left, 0, "var");
    if truth(tree, 0) || !declares {
        return walk.refuse(tree, FormKind::Subset);
    }
    walk.names.enter()?;
    declare_item(&mut walk.names, left)?;
    walk.push(Task::Leave)?;
    walk.visit(Role::LoopBody, child(tree, 2))?;
    walk.visit(Role::Expression, child(tree, 1))?;
    walk.visit_all(Role::Declarator, places(left, 0))
}

/// Visits a function declaration, which is neither async nor a generator. Its name is declared in the
/// block that holds it.
pub fn function_declaration<'a>(walk: &mut Walk<'a>, tree: &'a Tree) -> Result<(), ScriptError> {
    if truth(tree, 0) || truth(tree, 1) {
        return walk.refuse(tree, FormKind::Subset);
    }
    if let Some(id) = child(tree, 0) {
        if !walk.names.pass(text(id, 0)) {
            return walk.refuse(id, FormKind::Twice);
        }
    }
    function_parts(walk, tree, 1)
}

/// Visits the parameters of a function, in the slot of this number, and its body in the one after it.
/// Both declare their names in one block.
pub fn function_parts<'a>(
    walk: &mut Walk<'a>,
    tree: &'a Tree,
    slot: usize,
) -> Result<(), ScriptError> {
    let parameters = places(tree, slot);
    let Some(body) = child(tree, slot.saturating_add(1)) else {
        return walk.refuse(tree, FormKind::Subset);
    };
    let loops = walk.loops;
    walk.push(Task::EndFunction(loops))?;
    walk.push(Task::Leave)?;
    walk.loops = 0;
    walk.names.enter()?;
    declare_parameters(&mut walk.names, parameters)?;
    if body.kind == Kind::BlockStatement {
        let items = places(body, 0);
        declare_items(&mut walk.names, items)?;
        walk.visit_all(Role::Statement, items)?;
    } else {
        walk.visit(Role::Expression, Some(body))?;
    }
    walk.visit_all(Role::Parameter, parameters)
}

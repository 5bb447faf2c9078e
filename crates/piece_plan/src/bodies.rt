//! Pieces that are not kept, as what stands beside them is of another sort than in the source: bodies
//! that became blocks, and declarations that are exported by default.

use crate::source::SourceTree;
use generic_printer::Row;
use tree_core::Tree;
use type_defs::Kind;

fn is_declared(node: &Tree) -> bool {
    match tree_forms::child(node, 0) {
        Some(child) => matches!(
            child.kind,
            Kind::FunctionDeclaration | Kind::ClassDeclaration
        ),
        None => false,
    }
}

/// Whether the last piece of an `export default` is spelled otherwise: of a declaration without `;`.
pub fn is_exported_otherwise(node: &Tree, source: &Tree, right: usize) -> bool {
    right == 0
        && matches!(node.kind, Kind::ExportDefaultDeclaration)
        && is_declared(node) != is_declared(source)
}

// Whether the slot is that of a body.
fn is_body_slot(owner: Kind, slot: usize) -> bool {
    match owner {
        Kind::WithStatement
        | Kind::LabeledStatement
        | Kind::WhileStatement
        | Kind::ArrowFunctionExpression => slot == 1,
        Kind::DoWhileStatement => slot == 0,
        Kind::ForStatement => slot == 3,
        Kind::ForInStatement | Kind::ForOfStatement => slot == 2,
        Kind::IfStatement => slot == 1 || slot == 2,
        _ => false,
    }
}

/// Whether the child is a block now, as a body, where the source has none at its place.
pub fn is_new_block(
    source: &SourceTree<'_>,
    owner: &Tree,
    child: Option<Row<'_>>,
    there: Option<usize>,
) -> bool {
    let Some(child) = child else {
        return false;
    };
    if !is_body_slot(owner.kind, child.slot) || !matches!(child.node.kind, Kind::BlockStatement) {
        return false;
    }
    match there {
        Some(number) => match source.node(number) {
            Some(node) => !matches!(node.node.kind, Kind::BlockStatement),
            None => false,
        },
        None => false,
    }
}

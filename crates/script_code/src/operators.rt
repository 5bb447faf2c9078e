//! The operators of the subset by their punctuators.

use crate::code::{LogicalOperator, Operator, UnaryOperator};
use crate::nodes::{text, unchecked};
use std::alloc::AllocError;
use tree_core::Tree;

const BINARY: [(&[u8], Operator); 12] = [
    (b"+", Operator::Add),
    (b"-", Operator::Subtract),
    (b"*", Operator::Multiply),
    (b"%", Operator::Remainder),
    (b"===", Operator::Same),
    (b"!==", Operator::NotSame),
    (b"==", Operator::Equal),
    (b"!=", Operator::NotEqual),
    (b"<", Operator::Less),
    (b"<=", Operator::LessOrEqual),
    (b">", Operator::Greater),
    (b">=", Operator::GreaterOrEqual),
];

const LOGICAL: [(&[u8], LogicalOperator); 3] = [
    (b"&&", LogicalOperator::And),
    (b"||", LogicalOperator::Or),
    (b"??", LogicalOperator::Coalesce),
];

const UNARY: [(&[u8], UnaryOperator); 3] = [
    (b"!", UnaryOperator::Not),
    (b"-", UnaryOperator::Minus),
    (b"typeof", UnaryOperator::TypeOf),
];

/// The operators of assignments; the plain one has none.
const ASSIGNMENT: [(&[u8], Option<Operator>); 3] = [
    (b"=", None),
    (b"+=", Some(Operator::Add)),
    (b"-=", Some(Operator::Subtract)),
];

// The row whose text is the node's operator.
fn named<T: Copy>(tree: &Tree, table: &[(&[u8], T)]) -> Result<T, AllocError> {
    let operator = text(tree, "operator")?;
    for row in table {
        if operator.is(row.0) {
            return Ok(row.1);
        }
    }
    Err(unchecked())
}

pub fn binary(tree: &Tree) -> Result<Operator, AllocError> {
    named(tree, &BINARY)
}

pub fn logical(tree: &Tree) -> Result<LogicalOperator, AllocError> {
    named(tree, &LOGICAL)
}

pub fn unary(tree: &Tree) -> Result<UnaryOperator, AllocError> {
    named(tree, &UNARY)
}

pub fn assignment(tree: &Tree) -> Result<Option<Operator>, AllocError> {
    named(tree, &ASSIGNMENT)
}

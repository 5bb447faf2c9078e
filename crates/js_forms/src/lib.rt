//! The table of forms: how each kind of node is spelled. Readers, printers and checks interpret it.
//!
//! A form is a kind with what its spelling needs to be told: the operator, how a function runs, whether
//! a key is computed. Its pieces are few sorts of tokens and children. Which form comes is chosen by
//! looking ahead, and is no part of the table.
#![tactic(auto)]

mod category;
mod context;
mod fixed;
mod form;
mod levels;
mod operator;
mod own;
mod piece;
mod table;

pub use category::Category;
pub use context::{Context, Scope};
pub use fixed::{
    access_name, is_computed, is_method, is_optional, is_static, property_kind, scalars, sort_name,
    variable_name,
};
pub use form::{Access, Flow, Form, Key, Link, Sort, Standing, Variable};
pub use levels::{
    ADDITIVE, ASSIGNMENT, BIT_AND, BIT_OR, BIT_XOR, CALL, CHAIN, COALESCE, CONDITIONAL, EQUALITY,
    EXPONENT, LOGICAL_AND, Left, MEMBER, MULTIPLICATIVE, PRIMARY, RELATIONAL, SEQUENCE, SHIFT,
    UNARY, UPDATE, first_child, level, right, right_level, spelled_level,
};
pub use operator::{
    Infix, Operator, OperatorRow, Prefix, Role, assigning, binary, has_role, logical, operators,
    unary,
};
pub use own::{access_of, key_of, link_of, plain, sort_of, standing_of, variable_of};
pub use piece::{Blank, Choice, Fixed, Lexeme, MetaWord, Own, Piece, Place, Spelling, Test};
pub use table::{Row, Spelled, first_pieces, first_row, pieces, second_row, spellings};

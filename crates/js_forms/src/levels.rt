//! Levels: how tightly an expression binds. A place that wants a higher level takes it in
//! parentheses alone.

ghost use Rattle.std.specs.Prelude.{◌≡◌};
ghost use Rattle.js_forms.specs.Levels as spec;

use crate::form::{Form, Link};
use crate::operator::{Infix, Operator};
use crate::piece::Spelling;
use crate::table::table_level;

/// Expressions with commas (ECMA-262, clause 13.16).
pub const SEQUENCE: u8 = 0;

/// Assignments, arrows and `yield` (13.15).
pub const ASSIGNMENT: u8 = 1;

/// `?` and `:` (13.14).
pub const CONDITIONAL: u8 = 2;

/// `||` and `??` (13.13).
pub const COALESCE: u8 = 3;

/// `&&` (13.13).
pub const LOGICAL_AND: u8 = 4;

/// `|`, `^` and `&` (13.12).
pub const BIT_OR: u8 = 5;

pub const BIT_XOR: u8 = 6;

pub const BIT_AND: u8 = 7;

/// `==` and the like (13.11).
pub const EQUALITY: u8 = 8;

/// `<` and the like, `in`, `instanceof` (13.10).
pub const RELATIONAL: u8 = 9;

/// Shifts (13.9).
pub const SHIFT: u8 = 10;

/// Sums (13.8).
pub const ADDITIVE: u8 = 11;

/// Products and quotients (13.7).
pub const MULTIPLICATIVE: u8 = 12;

/// `**` (13.6).
pub const EXPONENT: u8 = 13;

/// Operators before one operand, and `await` (13.5).
pub const UNARY: u8 = 14;

/// `++` and `--` (13.4).
pub const UPDATE: u8 = 15;

/// Optional chains, and `new` without arguments (13.3.9, 13.3.5).
pub const CHAIN: u8 = 16;

/// Calls (13.3.6), and members of them.
pub const CALL: u8 = 17;

/// Other members, and `new` with arguments (13.3).
pub const MEMBER: u8 = 18;

/// All else (13.2).
pub const PRIMARY: u8 = 19;

/// What the first child of a form is.
#[derive(Clone, Copy, Debug, PartialEq, Eq)]
pub enum Left {
    /// An expression of at least this level.
    Level(u8),
    /// An expression of at least this level, or one with `??` bare.
    Coalescing(u8),
    /// An expression of at least this level, but none with `??` bare.
    Other(u8),
    /// An expression of level 17 or more, or `super`.
    Object,
    /// What may be assigned to.
    Simple,
}

/// The level of an expression in this form. A member, a tagged template or a `new` has this one or
/// another, as its first child or its arguments say.
pub fn level(form: Form) -> u8
    ensures { result ≡ spec.level form }
{
    match infix_operator(form) {
        Some(operator) => infix_level(operator.infix()),
        None => table_level(form),
    }
}

// The operator between two operands of an expression.
fn infix_operator(form: Form) -> Option<Operator>
    ensures { result ≡ spec.infix_operator form }
{
    match form {
        Form::Logical(operator) | Form::Binary(operator) => Some(operator),
        _ => None,
    }
}

fn infix_level(between: Infix) -> u8
    ensures { result ≡ spec.infix_level between }
{
    match between {
        Infix::Binary(level, _, _) | Infix::Logical(level, _, _) => level,
        Infix::None | Infix::Assignment => PRIMARY,
    }
}

fn lacks_arguments(spelling: Spelling) -> bool
    ensures { result ≡ spec.lacks_arguments spelling }
{
    matches!(spelling, Spelling::WithoutArguments)
}

/// The level of an expression in this spelling of the form.
pub fn spelled_level(form: Form, spelling: Spelling) -> u8
    ensures { result ≡ spec.spelled_level form spelling }
{
    if lacks_arguments(spelling) {
        return CHAIN;
    }
    level(form)
}

/// The least level of the right operand of a form with this operator.
pub fn right_level(operator: Option<Operator>) -> u8
    ensures { result ≡ spec.right_level operator }
{
    match operator {
        Some(operator) => right(operator),
        None => ASSIGNMENT,
    }
}

fn first_operand(between: Infix) -> Left
    ensures { result ≡ spec.first_operand between }
{
    match between {
        Infix::Binary(_, left, _) | Infix::Logical(_, left, _) => left,
        Infix::None | Infix::Assignment => Left::Simple,
    }
}

/// What the first child is, of a form that begins with an expression.
pub fn first_child(form: Form) -> Left
    ensures { result ≡ spec.first_child form }
{
    match form {
        Form::Logical(operator) | Form::Binary(operator) => first_operand(operator.infix()),
        Form::Conditional => Left::Level(COALESCE),
        Form::Tagged => Left::Level(CALL),
        Form::Dot(link) | Form::Index(link) | Form::Call(link) => match link {
            Link::Plain => Left::Object,
            Link::Optional => Left::Level(CALL),
        },
        _ => Left::Simple,
    }
}

/// The least level of the right operand.
pub fn right(operator: Operator) -> u8
    ensures { result ≡ spec.right operator }
{
    match operator.infix() {
        Infix::Binary(_, _, least) | Infix::Logical(_, _, least) => least,
        Infix::None | Infix::Assignment => ASSIGNMENT,
    }
}

//! Operators on values, and the methods of texts and lists that call no function.
//!
//! A method has its one unit of fuel taken by the caller. It tests its arguments, then takes the
//! units for what it reads and gives, then tests the limits, and then answers as ECMA-262 says.
#![tactic(auto)]

mod arguments;
mod list_methods;
mod methods;
mod operators;
mod searching;
mod slicing;
mod spelling;
mod splitting;
mod text_methods;

pub use methods::{ListMethod, TextMethod, call_list_method, call_text_method};
pub use operators::{
    MAX_NUMBER, add, compare, decrement, equal, increment, is_true, multiply, negate, remainder,
    same, subtract, type_of,
};
pub use spelling::spelled;

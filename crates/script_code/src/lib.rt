//! A script prepared for the machine that runs it, once for a script and before its first file.
//!
//! The prepared script is plain data over the checked tree. A name is a slot of the running call,
//! or a cell of an environment where a function inside takes it. A key is a word, a literal is a
//! value, a pattern is a flat list of steps, and each evaluation knows how many others of its
//! function are around it. What the check of scripts refuses is answered as want of memory: it
//! can't come about.
#![tactic(auto)]

mod calls;
mod code;
mod declared;
mod expressions;
mod functions;
mod literals;
mod loops;
mod maker;
mod members;
mod nodes;
mod objects;
mod operators;
mod patterns;
mod scopes;
mod state;
mod statements;
mod top_level;
mod words;

pub use code::{
    Access, Bind, Block, Body, Call, Choice, Code, Compound, Conditional, Entry, Exports,
    Expression, Field, Fields, First, Form, Function, Hoisted, Items, Key, Logical,
    LogicalOperator, Lookup, Loop, MethodCall, NamedCall, Operator, Over, Pair, Part, Place, Round,
    Statement, Step, Template, Unary, UnaryOperator, Update, Write, Written,
};
pub use top_level::prepare;

//! Which programs are scripts: the subset of JavaScript that a codemod is written in.
//!
//! A script is read as any source is. Here its tree is walked once in preorder, along a stack of tasks,
//! beside a table of the names that the open blocks declare. The first node that breaks a rule is
//! answered; a script without such a node is given back as one.
#![tactic(auto)]

mod declared;
mod expressions;
mod fields;
mod form;
mod names;
mod patterns;
mod shapes;
mod statements;
mod subset;
mod top;
mod walk;

pub use fields::{child, is_text, node_in, places, text, truth};
pub use form::{FormKind, ScriptError, ScriptForm};
pub use shapes::{GlobalCall, TopLevel, global_call, top_level};
pub use walk::{Script, check};

//! What the check says of a tree, as a text.

use crate::told::tree_of;
use std::alloc::{AllocError, Global};
use tree_check::{CheckFault, Rule, check};
use tree_core::{Address, Tree};

fn bad_node(alloc: Global, address: &Address, rule: Rule) -> Result<String, AllocError> {
    let mut text = String::new(alloc);
    if address.steps().is_empty() {
        text.push('/')?;
    }
    for step in address.steps() {
        let digits = step.to_string(alloc)?;
        text.push('/')?;
        text.push_str(digits.as_str())?;
    }
    text.push(' ')?;
    text.push_str(rule.name())?;
    Ok(text)
}

/// `ok`, or the address of the node and the name of the rule.
pub fn answer(alloc: Global, tree: &Tree) -> Result<String, AllocError> {
    match check(alloc, tree) {
        Ok(()) => "ok".to_string(alloc),
        Err(CheckFault::BadNode { address, rule }) => bad_node(alloc, &address, rule),
        Err(CheckFault::NoMemory) => Err(AllocError),
    }
}

/// The same of a tree that is told as a text; `None` where the text tells none.
pub fn answer_told(alloc: Global, text: &str) -> Option<String> {
    let tree = tree_of(alloc, text)?;
    answer(alloc, &tree).ok()
}

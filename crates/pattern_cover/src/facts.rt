//! What is remembered of expressions that may be patterns.

use sqlite_items::Items;
use std::alloc::{AllocError, Global};
use tree_core::Tree;

/// What a tree does not tell of an expression: its nodes that stand in grouping parentheses, and the
/// spreads with a comma behind them, by their numbers in rising order.
#[derive(Drop)]
pub struct CoverFacts {
    grouped: Items<u32>,
    commas: Items<u32>,
}

// Whether the number is among these, which rise.
fn is_among(numbers: &[u32], number: u32) -> bool {
    let mut from = 0;
    let mut to = numbers.len();
    for _turn in 0..64 {
        if from >= to || to > numbers.len() {
            return false;
        }
        let middle = from + (to - from) / 2;
        let found = numbers[middle];
        if found == number {
            return true;
        }
        if found < number {
            from = middle + 1;
        } else {
            to = middle;
        }
    }
    false
}

fn is_listed(numbers: &Items<u32>, tree: &Tree) -> bool {
    match tree.from {
        Some(number) => is_among(numbers.as_slice(), number),
        None => false,
    }
}

impl CoverFacts {
    /// Of no node.
    pub fn new(alloc: Global) -> CoverFacts {
        CoverFacts {
            grouped: Items::new(alloc),
            commas: Items::new(alloc),
        }
    }

    /// Whether the node stands in grouping parentheses.
    pub fn is_grouped(&self, tree: &Tree) -> bool {
        is_listed(&self.grouped, tree)
    }

    /// Whether a comma follows the spread.
    pub fn has_comma(&self, tree: &Tree) -> bool {
        is_listed(&self.commas, tree)
    }

    /// Keeps that the node stands in grouping parentheses. Its number is not below those of the nodes
    /// before it.
    pub fn add_grouped(&mut self, tree: &Tree) -> Result<(), AllocError> {
        if let Some(number) = tree.from {
            self.grouped.push(number)?;
        }
        Ok(())
    }

    /// Keeps that a comma follows the spread. Its number is not below those of the spreads before it.
    pub fn add_comma(&mut self, tree: &Tree) -> Result<(), AllocError> {
        if let Some(number) = tree.from {
            self.commas.push(number)?;
        }
        Ok(())
    }
}

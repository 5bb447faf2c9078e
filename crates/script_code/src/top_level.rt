//! The top level of a script, and the two walks over it.

use crate::code::{Block, Code, Exports, Statement, Step};
use crate::declared::{MAX_LEVELS, declare_statements};
use crate::maker::{Maker, prepare_node};
use crate::nodes::{filled, needed, places, unchecked};
use crate::scopes::Scopes;
use crate::state::State;
use crate::words::Words;
use script_check::{Script, TopLevel, top_level};
use std::alloc::{AllocError, Global};
use tree_core::{Place, Tree, Units};

// The statement that exports an expression by `module.exports =`, whose right side alone is
// evaluated.
fn exports(state: &mut State<'_>, statement: &Tree, value: &Tree) -> Result<Statement, AllocError> {
    let maker = Maker {
        levels: MAX_LEVELS,
        below: prepare_node,
    };
    let at = state.start(needed(statement, "expression")?)?;
    state.depth = 2;
    let value = maker.expression(state, value)?;
    state.depth = 0;
    let exports = Exports {
        at,
        depth: 2,
        value,
    };
    let step = Step::Exports(Box::new(state.alloc, exports)?);
    Ok(Statement { depth: 1, step })
}

// An item of the top level. A line that sets a parser gives none: it has no effect and costs
// nothing.
fn item(state: &mut State<'_>, tree: &Tree) -> Result<Option<Statement>, AllocError> {
    let maker = Maker {
        levels: MAX_LEVELS,
        below: prepare_node,
    };
    match top_level(tree) {
        Some(TopLevel::Parser) => Ok(None),
        Some(TopLevel::ModuleExports(value)) => Ok(Some(exports(state, tree, value)?)),
        Some(_) => Ok(Some(maker.statement(state, tree)?)),
        None => Err(unchecked()),
    }
}

// The statements of the top level.
fn items(state: &mut State<'_>, list: &[Place]) -> Result<Vec<Statement>, AllocError> {
    let mut all = Vec::new(state.alloc);
    for place in list {
        if let Some(statement) = item(state, filled(place)?)? {
            all.push(statement)?;
        }
    }
    Ok(all)
}

// The top level.
fn top(state: &mut State<'_>, list: &[Place]) -> Result<Block, AllocError> {
    let maker = Maker {
        levels: MAX_LEVELS,
        below: prepare_node,
    };
    let mark = state.scopes.enter();
    declare_statements(state, list)?;
    let cells = state.scopes.settle(mark);
    let hoisted = maker.hoisted(state, list)?;
    let body = items(state, list)?;
    state.scopes.leave(mark);
    Ok(Block {
        cells,
        hoisted,
        body,
    })
}

// Where the exported expression or function starts; 0 where there is none.
fn exported_at(state: &State<'_>, list: &[Place]) -> Result<u32, AllocError> {
    let mut at = 0;
    for place in list {
        match top_level(filled(place)?) {
            Some(TopLevel::ModuleExports(value)) => at = state.start(value)?,
            Some(TopLevel::ExportDefault(value)) => at = state.start(value)?,
            _ => {}
        }
    }
    Ok(at)
}

/// Prepares a checked script. Its words are those of `known`, in their order, and then its own.
pub fn prepare(alloc: Global, known: &[Units], script: &Script) -> Result<Code, AllocError> {
    let parsed = &script.parsed;
    let mut words = Words::new(alloc);
    for name in known {
        words.of(name.get())?;
    }
    let mut state = State {
        alloc,
        spans: parsed.spans.as_slice(),
        scopes: Scopes::new(alloc),
        words,
        functions: Vec::new(alloc),
        steps: Vec::new(alloc),
        exported: 0,
        hints: 0,
        depth: 0,
    };
    let list = places(&parsed.tree, "body")?;
    let _noted = top(&mut state, list)?;
    state.scopes.restart();
    state.functions = Vec::new(alloc);
    state.hints = 0;
    let main = top(&mut state, list)?;
    let exported_at = exported_at(&state, list)?;
    Ok(Code {
        words: state.words.into_texts()?,
        functions: state.functions,
        hints: state.hints,
        main,
        exported_at,
    })
}

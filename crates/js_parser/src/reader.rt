//! The state of reading: the cursor, and what is remembered of expressions that may be patterns.

use js_lexer::Cursor;
use pattern_cover::CoverFacts;
use sqlite_items::Items;
use std::alloc::Global;

/// The characters of a template up to a hole or to its end: the node's number, and whether the
/// template ends behind them.
#[derive(Clone, Copy, Debug)]
pub struct Quasi {
    pub number: u32,
    pub last: bool,
}

#[derive(Drop)]
pub struct Reader<'a> {
    pub cursor: Cursor<'a>,
    pub facts: CoverFacts,
    pub quasis: Items<Quasi>,
}

impl<'a> Reader<'a> {
    pub fn new(alloc: Global, cursor: Cursor<'a>) -> Reader<'a> {
        Reader {
            cursor,
            facts: CoverFacts::new(alloc),
            quasis: Items::new(alloc),
        }
    }
}

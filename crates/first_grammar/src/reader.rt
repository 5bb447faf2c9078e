//! Reads trees by the table of forms: a form's parts in order, and from a first child on by levels.
//!
//! The rules take the reader of nested trees as a function value, so that each is proved alone, and
//! only `node` is a recursion.

ghost use Rattle.std.specs.Prelude.{[], ◌≡◌};
ghost use Rattle.first_grammar.specs.Growing.{grown_view, kinded_view, children_view, parts_view};
ghost use Rattle.first_grammar.specs.Input as input;
ghost use Rattle.first_grammar.specs.Input.{Gives};
ghost use Rattle.first_grammar.specs.Nests.{Nests};
ghost use Rattle.first_grammar.specs.Reading as spec;

use crate::cursor::Cursor;
use crate::error::ReadError;
use crate::measured::{Children, Grown, Parts};
use crate::table::{
    Category, Kind, Part, Word, begun_by, belongs, is_whole, led_by, left, level, tail,
};
use std::alloc::Global;

/// How deep trees may nest while they are read.
const MAX_NESTING: u32 = 1000;

#[derive(Clone, Copy)]
pub struct Grammar<F> {
    pub alloc: Global,
    /// How deep trees may still nest.
    pub depth: u32,
    pub node: F,
}

impl<F: Fn(Global, &mut Cursor<'_>, u32, Category, u8) -> Result<Grown, ReadError>> Grammar<F> {
    fn node(
        &self,
        cursor: &mut Cursor<'_>,
        category: Category,
        least: u8,
    ) -> Result<Grown, ReadError>
        requires { Nests self.now.depth (F.pre self.now.node) (F.post self.now.node) }
        ensures { Gives grown_view (spec.node self.now.depth category least cursor.old) result cursor.new }
    {
        (self.node)(self.alloc, cursor, self.depth, category, least)
    }

    /// One tree or more, with commas between them.
    fn listed_from(
        &self,
        cursor: &mut Cursor<'_>,
        category: Category,
        least: u8,
    ) -> Result<Children, ReadError>
        requires { Nests self.now.depth (F.pre self.now.node) (F.post self.now.node) }
        ensures { Gives children_view (spec.listed_from (spec.node self.now.depth) category least (input.turns cursor.old) [] cursor.old) result cursor.new }
    {
        let mut found = Children::new(self.alloc);
        for _turn in 0..cursor.turns() {
            let tree = self.node(cursor, category, least)?;
            found = found.with(self.alloc, tree)?;
            if !cursor.eat(Word::Comma) {
                return Ok(found);
            }
        }
        Err(cursor.refuse())
    }

    #[tactic(auto, unfolding(crate::specs::Reading::listed))]
    fn listed(
        &self,
        cursor: &mut Cursor<'_>,
        category: Category,
        least: u8,
        close: Word,
    ) -> Result<Children, ReadError>
        requires { Nests self.now.depth (F.pre self.now.node) (F.post self.now.node) }
        ensures { Gives children_view (spec.listed (spec.node self.now.depth) category least close cursor.old) result cursor.new }
    {
        if cursor.sees(close) {
            return Ok(Children::new(self.alloc));
        }
        self.listed_from(cursor, category, least)
    }

    /// Trees in a row, up to this token.
    fn in_row(
        &self,
        cursor: &mut Cursor<'_>,
        category: Category,
        close: Word,
    ) -> Result<Children, ReadError>
        requires { Nests self.now.depth (F.pre self.now.node) (F.post self.now.node) }
        ensures { Gives children_view (spec.in_row (spec.node self.now.depth) category close cursor.old) result cursor.new }
    {
        let mut found = Children::new(self.alloc);
        for _turn in 0..cursor.turns() {
            if cursor.sees(close) {
                return Ok(found);
            }
            let tree = self.node(cursor, category, 1)?;
            found = found.with(self.alloc, tree)?;
        }
        Ok(found)
    }

    #[tactic(auto, unfolding(crate::specs::Reading::part))]
    fn part(&self, cursor: &mut Cursor<'_>, part: Part, read: Parts) -> Result<Parts, ReadError>
        requires { Nests self.now.depth (F.pre self.now.node) (F.post self.now.node) }
        ensures { Gives parts_view (spec.part (spec.node self.now.depth) part (parts_view read) cursor.old) result cursor.new }
    {
        let alloc = self.alloc;
        match part {
            Part::Token(word) => {
                cursor.expect(word)?;
                Ok(read)
            }
            Part::Name => {
                let name = cursor.name(alloc)?;
                Ok(read.with_text(alloc, name)?)
            }
            Part::AnyName => {
                let name = cursor.any_name(alloc)?;
                Ok(read.with_text(alloc, name)?)
            }
            Part::Child(category, least) => {
                let tree = self.node(cursor, category, least)?;
                Ok(read.with_child(alloc, tree)?)
            }
            Part::List(category, least, close) => {
                let children = self.listed(cursor, category, least, close)?;
                Ok(read.with_list(children)?)
            }
            Part::Body(category, close) => {
                let children = self.in_row(cursor, category, close)?;
                Ok(read.with_list(children)?)
            }
        }
    }

    fn parts(
        &self,
        cursor: &mut Cursor<'_>,
        parts: &[Part],
        mut read: Parts,
    ) -> Result<Parts, ReadError>
        requires { Nests self.now.depth (F.pre self.now.node) (F.post self.now.node) }
        ensures { Gives parts_view (spec.parts (spec.node self.now.depth) parts.now (parts_view read) cursor.old) result cursor.new }
    {
        for part in parts {
            read = self.part(cursor, *part, read)?;
        }
        Ok(read)
    }

    /// A node that begins at the offset, of which this much is read.
    #[tactic(auto, unfolding(crate::specs::Reading::filled))]
    fn filled(
        &self,
        cursor: &mut Cursor<'_>,
        kind: Kind,
        start: u32,
        read: Parts,
    ) -> Result<Grown, ReadError>
        requires { Nests self.now.depth (F.pre self.now.node) (F.post self.now.node) }
        ensures { Gives grown_view (spec.filled self.now.depth (spec.node self.now.depth) kind start (parts_view read) cursor.old) result cursor.new }
    {
        let whole = self.parts(cursor, tail(kind), read)?;
        if whole.levels > self.depth as usize {
            return Err(cursor.too_deep());
        }
        let from = cursor.numbered(start)?;
        Ok(whole.into_node(self.alloc, kind, from)?)
    }

    /// A tree whose form begins with a token, and its kind.
    #[tactic(auto, unfolding(crate::specs::Reading::first))]
    fn first(
        &self,
        cursor: &mut Cursor<'_>,
        category: Category,
        least: u8,
    ) -> Result<(Grown, Kind), ReadError>
        requires { Nests self.now.depth (F.pre self.now.node) (F.post self.now.node) }
        ensures { Gives kinded_view (spec.first self.now.depth (spec.node self.now.depth) category least cursor.old) result cursor.new }
    {
        match begun_by(category, cursor.word()) {
            Some(kind) if belongs(kind, category) && least <= level(kind) => {
                let start = start_of(kind, cursor.at(), cursor.opening());
                settle(cursor, kind);
                let tree = self.filled(cursor, kind, start, Parts::new(self.alloc))?;
                Ok((tree, kind))
            }
            _ => Err(cursor.refuse()),
        }
    }

    /// Goes on from the first tree, which begins at the offset, as long as a form takes it.
    fn climbed(
        &self,
        cursor: &mut Cursor<'_>,
        category: Category,
        least: u8,
        start: u32,
        first: (Grown, Kind),
    ) -> Result<Grown, ReadError>
        requires { Nests self.now.depth (F.pre self.now.node) (F.post self.now.node) }
        ensures { Gives grown_view (spec.climbed self.now.depth (spec.node self.now.depth) category least start (kinded_view first) cursor.old) result cursor.new }
    {
        let (mut tree, mut kind) = first;
        for _turn in 0..cursor.turns() {
            let Some(longer) = choose(category, least, kind, cursor.word()) else {
                return Ok(tree);
            };
            cursor.take();
            let read = Parts::new(self.alloc).with_child(self.alloc, tree)?;
            tree = self.filled(cursor, longer, start, read)?;
            kind = longer;
        }
        Ok(tree)
    }

    #[tactic(auto, unfolding(crate::specs::Reading::whole))]
    fn whole(
        &self,
        cursor: &mut Cursor<'_>,
        category: Category,
        least: u8,
    ) -> Result<Grown, ReadError>
        requires { Nests self.now.depth (F.pre self.now.node) (F.post self.now.node) }
        ensures { Gives grown_view (spec.whole self.now.depth (spec.node self.now.depth) category least cursor.old) result cursor.new }
    {
        let at = cursor.at();
        let opening = cursor.opening();
        let first = self.first(cursor, category, least)?;
        let start = start_of(first.1, at, opening);
        self.climbed(cursor, category, least, start, first)
    }
}

/// Where a node of the kind begins that comes next.
fn start_of(kind: Kind, at: u32, opening: u32) -> u32
    ensures { result ≡ input.start_of kind at opening }
{
    if is_whole(kind) { at } else { opening }
}

/// Passes the blanks before a node of the kind.
fn settle(cursor: &mut Cursor<'_>, kind: Kind)
    ensures { cursor.new ≡ input.settled kind cursor.old }
{
    if !is_whole(kind) {
        cursor.settle();
    }
}

/// The kind that goes on with this token from a tree of kind `first`, at a place of this category
/// and level.
#[tactic(auto, unfolding(crate::specs::Reading::choose))]
fn choose(category: Category, least: u8, first: Kind, word: Word) -> Option<Kind>
    ensures { result ≡ spec.choose category least first word }
{
    let kind = led_by(word)?;
    let (wanted, needed) = left(kind);
    let fits = belongs(kind, category) && least <= level(kind);
    if fits && belongs(first, wanted) && needed <= level(first) {
        return Some(kind);
    }
    None
}

/// A tree at a place of this category and level, with trees nested no deeper than `depth`.
fn node(
    alloc: Global,
    cursor: &mut Cursor<'_>,
    depth: u32,
    category: Category,
    least: u8,
) -> Result<Grown, ReadError>
    ensures { Gives grown_view (spec.node depth category least cursor.old) result cursor.new }
{
    if depth == 0 {
        return Err(cursor.too_deep());
    }
    let depth = depth - 1;
    Grammar { alloc, depth, node }.whole(cursor, category, least)
}

/// The tree of a whole text.
#[tactic(auto, unfolding(crate::specs::Reading::program))]
pub fn program(alloc: Global, cursor: &mut Cursor<'_>) -> Result<Grown, ReadError>
    ensures { Gives grown_view (spec.program cursor.old) result cursor.new }
{
    node(alloc, cursor, MAX_NESTING, Category::Program, 1)
}

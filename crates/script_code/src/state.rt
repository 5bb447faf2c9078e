//! What is prepared so far.

use crate::code::{Bind, Entry, Function, Key, Place};
use crate::nodes::{text, unchecked};
use crate::scopes::Scopes;
use crate::words::Words;
use script_values::Word;
use std::alloc::{AllocError, Global};
use std::mem;
use tree_core::{Span, Tree};

/// The functions and words of the script, and where the walk over it stands. `steps` are those of
/// the declaration in hand, `exported` is the function declaration that is exported, and `depth`
/// is how many evaluations of the function in hand are around the walk.
#[derive(Drop)]
pub struct State<'s> {
    pub alloc: Global,
    pub spans: &'s [Span],
    pub scopes: Scopes,
    pub words: Words,
    pub functions: Vec<Function>,
    pub steps: Vec<Bind>,
    pub exported: u32,
    pub hints: u32,
    pub depth: u32,
}

impl State<'_> {
    /// The offset where the node starts.
    pub fn start(&self, tree: &Tree) -> Result<u32, AllocError> {
        let Some(number) = tree.from else {
            return Err(unchecked());
        };
        match self.spans.get(number as usize) {
            Some(span) => Ok(span.start),
            None => Err(unchecked()),
        }
    }

    /// The word of the units.
    pub fn word(&mut self, units: &[u16]) -> Result<Word, AllocError> {
        Ok(Word::numbered(self.words.of(units)?))
    }

    /// A place for a hint of its own.
    pub fn hint(&mut self) -> u32 {
        let hint = self.hints;
        self.hints = hint.saturating_add(1);
        hint
    }

    /// The key that is a text.
    pub fn key(&mut self, units: &[u16]) -> Result<Key, AllocError> {
        let word = self.word(units)?;
        Ok(Key::Word(word, self.hint()))
    }

    // The number of the Identifier's name.
    fn name(&mut self, identifier: &Tree) -> Result<u32, AllocError> {
        self.words.of(text(identifier, "name")?.get())
    }

    /// Declares the Identifier's name.
    pub fn declare(&mut self, identifier: &Tree) -> Result<(), AllocError> {
        let name = self.name(identifier)?;
        self.scopes.declare(name)
    }

    /// Where the Identifier's name stands; none where no scope declares it.
    pub fn find(&mut self, identifier: &Tree) -> Result<Option<Place>, AllocError> {
        let name = self.name(identifier)?;
        Ok(self.scopes.find(name))
    }

    /// The declaration of the Identifier's name has run.
    pub fn begin(&mut self, identifier: &Tree) -> Result<Entry, AllocError> {
        let name = self.name(identifier)?;
        match self.scopes.begin(name) {
            Some(entry) => Ok(entry),
            None => Err(unchecked()),
        }
    }

    /// The declaration of the Identifier's name has run, in the slot or in its cell.
    pub fn begin_in(&mut self, identifier: &Tree, slot: u32) -> Result<Entry, AllocError> {
        let name = self.name(identifier)?;
        match self.scopes.begin_in(name, slot) {
            Some(entry) => Ok(entry),
            None => Err(unchecked()),
        }
    }

    /// Sets the steps of an outer declaration aside.
    pub fn set_steps_aside(&mut self) -> Vec<Bind> {
        mem::replace(&mut self.steps, Vec::new(self.alloc))
    }

    /// The steps of the declaration in hand; the outer ones are in hand again.
    pub fn finish_steps(&mut self, outer: Vec<Bind>) -> Vec<Bind> {
        mem::replace(&mut self.steps, outer)
    }

    /// One more step of the declaration in hand.
    pub fn step(&mut self, step: Bind) -> Result<(), AllocError> {
        Ok(self.steps.push(step)?)
    }

    /// The number of a function.
    pub fn function(&mut self, function: Function) -> Result<u32, AllocError> {
        let Ok(number) = u32::try_from(self.functions.len()) else {
            return Err(AllocError);
        };
        self.functions.push(function)?;
        Ok(number)
    }
}

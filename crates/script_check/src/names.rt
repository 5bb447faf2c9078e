//! The names that the open blocks of a script declare.

ghost use Rattle.std.specs.Prelude.{◌≡◌};
ghost use Rattle.script_check.specs.Writes.{may_write};

use crate::form::ScriptError;
use indexmap::IndexSet;
use std::alloc::Global;

/// How a name is declared.
#[derive(Clone, Copy, Debug, PartialEq, Eq)]
pub enum Class {
    /// By `let`, or as a parameter.
    Let,
    Const,
    Function,
}

impl Class {
    /// Whether a script may write a name that is declared so (for constants ECMA-262, clause 9.1.1.1.5,
    /// SetMutableBinding).
    #[tactic(auto, unfolding(crate::specs::Writes::may_write))]
    pub fn may_write(self) -> bool
        ensures { result ≡ may_write self }
    {
        match self {
            Class::Let => true,
            Class::Const => false,
            Class::Function => false,
        }
    }
}

// A name of an open block: the declaration of the same name in the blocks around it, and whether the
// walk has passed its Identifier.
#[derive(Clone, Copy)]
struct Declaration {
    name: usize,
    outer: Option<usize>,
    class: Class,
    passed: bool,
}

/// The declarations of the open blocks, the innermost last, found by the name.
#[derive(Drop)]
pub struct Names {
    alloc: Global,
    spelled: IndexSet<Vec<u16>>,
    innermost: Vec<Option<usize>>,
    declarations: Vec<Declaration>,
    starts: Vec<usize>,
}

impl Names {
    pub fn new(alloc: Global) -> Names {
        Names {
            alloc,
            spelled: IndexSet::new(alloc),
            innermost: Vec::new(alloc),
            declarations: Vec::new(alloc),
            starts: Vec::new(alloc),
        }
    }

    /// Opens a block.
    pub fn enter(&mut self) -> Result<(), ScriptError> {
        let start = self.declarations.len();
        match self.starts.push(start) {
            Ok(()) => Ok(()),
            Err(_) => Err(ScriptError::NoMemory),
        }
    }

    /// Closes the innermost block: its names are those of the blocks around it again.
    pub fn leave(&mut self) {
        let start = self.starts.pop().unwrap_or(0);
        leave_from(&mut self.declarations, &mut self.innermost, start);
    }

    // The number of the name, which is given to it where it is new.
    fn number(&mut self, name: &[u16]) -> Result<usize, ScriptError> {
        if let Some(number) = self.spelled.get_index_of(name) {
            return Ok(number);
        }
        let number = self.spelled.len();
        let mut key: Vec<u16> = Vec::new(self.alloc);
        if key.extend_from_slice(name).is_err() {
            return Err(ScriptError::NoMemory);
        }
        if self.spelled.insert(key).is_err() || self.innermost.push(None).is_err() {
            return Err(ScriptError::NoMemory);
        }
        Ok(number)
    }

    fn innermost(&self, number: usize) -> Option<usize> {
        if number < self.innermost.len() {
            self.innermost[number]
        } else {
            None
        }
    }

    /// Declares the name in the innermost block, if that does not declare it yet.
    pub fn declare(&mut self, name: &[u16], class: Class) -> Result<(), ScriptError> {
        let number = self.number(name)?;
        let outer = self.innermost(number);
        let start = self.starts.last().copied().unwrap_or(0);
        if let Some(at) = outer {
            if at >= start {
                return Ok(());
            }
        }
        let at = self.declarations.len();
        let declaration = Declaration {
            name: number,
            outer,
            class,
            passed: false,
        };
        if self.declarations.push(declaration).is_err() {
            return Err(ScriptError::NoMemory);
        }
        if number < self.innermost.len() {
            self.innermost[number] = Some(at);
        }
        Ok(())
    }

    fn found(&self, name: &[u16]) -> Option<usize> {
        let number = self.spelled.get_index_of(name)?;
        let at = self.innermost(number)?;
        if at < self.declarations.len() {
            Some(at)
        } else {
            None
        }
    }

    /// How the innermost open block that declares the name declares it.
    pub fn class_of(&self, name: &[u16]) -> Option<Class> {
        let at = self.found(name)?;
        if at < self.declarations.len() {
            Some(self.declarations[at].class)
        } else {
            None
        }
    }

    /// Passes the Identifier that declares the name: whether it is the first that does so in its block.
    pub fn pass(&mut self, name: &[u16]) -> bool {
        let Some(at) = self.found(name) else {
            return false;
        };
        if at >= self.declarations.len() {
            return false;
        }
        let first = !self.declarations[at].passed;
        self.declarations[at].passed = true;
        first
    }
}

// Takes the declarations from `start` on away.
fn leave_from(declarations: &mut Vec<Declaration>, innermost: &mut [Option<usize>], start: usize) {
    for _declaration in start..declarations.len() {
        if let Some(declaration) = declarations.pop() {
            if declaration.name < innermost.len() {
                innermost[declaration.name] = declaration.outer;
            }
        }
    }
}

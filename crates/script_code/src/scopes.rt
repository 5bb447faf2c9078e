//! Scopes and what they declare. A script is walked twice in the same order: the first walk notes
//! which names a function inside takes, and the second gives each name its place.
//!
//! A captured name is a cell of its scope's environment. Any other is a slot of the running call,
//! which it gets when its declaration is reached: so the slots of a call begin in their order.

use crate::code::{Entry, Place};
use std::alloc::{AllocError, Global};

// A declaration: the function and the environment that it stands in, its slot or cell, and the
// declaration of the same name that it hides, as one more than its number.
#[derive(Clone, Copy)]
struct Declared {
    name: u32,
    hidden: u32,
    function: u32,
    environment: u32,
    slot: u32,
    is_captured: bool,
    is_ready: bool,
}

/// What a scope puts back at its end.
#[derive(Clone, Copy)]
pub struct Mark {
    open: usize,
    environment: u32,
    slot: u32,
    cells: u32,
}

/// What a function puts back at its end.
#[derive(Clone, Copy)]
pub struct Outer {
    function: u32,
    slot: u32,
}

/// The declarations in the order of the walk, and those that are open where the walk is.
#[derive(Drop)]
pub struct Scopes {
    declared: Vec<Declared>,
    next: usize,
    open: Vec<usize>,
    // For each name one more than the number of its innermost open declaration, or 0.
    innermost: Vec<u32>,
    function: u32,
    functions: u32,
    environment: u32,
    slot: u32,
    cells: u32,
}

// Where the environment stands, seen from one inside it.
fn outwards(inner: u32, outer: u32) -> u32 {
    inner.saturating_sub(outer)
}

impl Scopes {
    pub fn new(alloc: Global) -> Scopes {
        Scopes {
            declared: Vec::new(alloc),
            next: 0,
            open: Vec::new(alloc),
            innermost: Vec::new(alloc),
            function: 0,
            functions: 0,
            environment: 0,
            slot: 0,
            cells: 0,
        }
    }

    /// Begins the second walk.
    pub fn restart(&mut self) {
        self.next = 0;
        self.open.clear();
        self.innermost.clear();
        self.function = 0;
        self.functions = 0;
        self.environment = 0;
        self.slot = 0;
        self.cells = 0;
    }

    /// Begins a scope. Its names are to be declared next, and then `settle` is called.
    pub fn enter(&mut self) -> Mark {
        let mark = Mark {
            open: self.open.len(),
            environment: self.environment,
            slot: self.slot,
            cells: self.cells,
        };
        self.cells = 0;
        self.environment = self.environment.saturating_add(1);
        mark
    }

    // Makes this the innermost declaration of the name, and tells which it hides.
    fn hide(&mut self, name: u32, number: usize) -> Result<u32, AllocError> {
        let Ok(link) = u32::try_from(number.saturating_add(1)) else {
            return Err(AllocError);
        };
        let place = name as usize;
        for _name in self.innermost.len()..place.saturating_add(1) {
            self.innermost.push(0)?;
        }
        if place >= self.innermost.len() {
            return Err(AllocError);
        }
        let hidden = self.innermost[place];
        self.innermost[place] = link;
        Ok(hidden)
    }

    /// Declares a name in the innermost scope. A captured one gets a cell.
    pub fn declare(&mut self, name: u32) -> Result<(), AllocError> {
        let number = self.next;
        let is_captured = number < self.declared.len() && self.declared[number].is_captured;
        let row = Declared {
            name,
            hidden: self.hide(name, number)?,
            function: self.function,
            environment: self.environment,
            slot: self.cells,
            is_captured,
            is_ready: false,
        };
        if number < self.declared.len() {
            self.declared[number] = row;
        } else {
            self.declared.push(row)?;
        }
        self.open.push(number)?;
        self.next = number.saturating_add(1);
        if is_captured {
            self.cells = self.cells.saturating_add(1);
        }
        Ok(())
    }

    /// All names of the scope are declared: how many cells its environment has. A scope without
    /// cells has no environment.
    pub fn settle(&mut self, mark: Mark) -> u32 {
        if self.cells == 0 {
            self.environment = mark.environment;
        }
        self.cells
    }

    // Takes back the last declaration that is open.
    fn close(&mut self) {
        let Some(number) = self.open.pop() else {
            return;
        };
        if number >= self.declared.len() {
            return;
        }
        let row = self.declared[number];
        let place = row.name as usize;
        if place < self.innermost.len() {
            self.innermost[place] = row.hidden;
        }
    }

    /// Ends a scope.
    pub fn leave(&mut self, mark: Mark) {
        for _name in mark.open..self.open.len() {
            self.close();
        }
        self.environment = mark.environment;
        self.slot = mark.slot;
        self.cells = mark.cells;
    }

    /// Begins a function, whose first slots are its parameters.
    pub fn enter_function(&mut self, parameters: u32) -> Outer {
        let outer = Outer {
            function: self.function,
            slot: self.slot,
        };
        self.functions = self.functions.saturating_add(1);
        self.function = self.functions;
        self.slot = parameters;
        outer
    }

    /// Ends a function.
    pub fn leave_function(&mut self, outer: Outer) {
        self.function = outer.function;
        self.slot = outer.slot;
    }

    /// So many slots without a name: the number of the first.
    pub fn slots(&mut self, count: u32) -> u32 {
        let first = self.slot;
        self.slot = first.saturating_add(count);
        first
    }

    // The number of the innermost declaration of a name.
    fn number(&self, name: u32) -> Option<usize> {
        let place = name as usize;
        if place >= self.innermost.len() || self.innermost[place] == 0 {
            return None;
        }
        let number = (self.innermost[place] - 1) as usize;
        if number < self.declared.len() {
            return Some(number);
        }
        None
    }

    /// Where the name stands that is read or written here. None where no scope declares it.
    pub fn find(&mut self, name: u32) -> Option<Place> {
        let number = self.number(name)?;
        if number >= self.declared.len() {
            return None;
        }
        let (function, environment) = (self.function, self.environment);
        let row = &mut self.declared[number];
        if row.function != function {
            row.is_captured = true;
        }
        if row.is_captured {
            return Some(Place::Cell(outwards(environment, row.environment), row.slot));
        }
        if row.is_ready {
            return Some(Place::Local(row.slot));
        }
        Some(Place::Early)
    }

    /// The declaration of a name has run, in a slot of its own or in its cell.
    pub fn begin(&mut self, name: u32) -> Option<Entry> {
        let slot = self.slot;
        let entry = self.begin_in(name, slot)?;
        if let Entry::Local(_) = entry {
            self.slot = slot.saturating_add(1);
        }
        Some(entry)
    }

    /// The declaration of a name has run, in this slot or in its cell.
    pub fn begin_in(&mut self, name: u32, slot: u32) -> Option<Entry> {
        let number = self.number(name)?;
        if number >= self.declared.len() {
            return None;
        }
        let row = &mut self.declared[number];
        row.is_ready = true;
        if row.is_captured {
            return Some(Entry::Cell(row.slot));
        }
        row.slot = slot;
        Some(Entry::Local(slot))
    }
}

//! The walk over a program: a stack of tasks that visits each node once, in preorder.

ghost use Rattle.std.specs.Prelude.{◌≡◌, IfOk};

use crate::declared::declare_items;
use crate::expressions::{element, expression, property};
use crate::fields::{node_in, places};
use crate::form::{FormKind, ScriptError, ScriptForm};
use crate::names::Names;
use crate::patterns::{declarator, parameter, pattern, pattern_property};
use crate::statements::statement;
use crate::top::top_item;
use std::alloc::Global;
use tree_core::{Parsed, Place, Span, Tree};

/// A program that is a script.
#[derive(Drop)]
pub struct Script {
    pub parsed: Parsed,
}

/// As what a node is visited.
#[derive(Clone, Copy)]
pub enum Role {
    Top,
    Statement,
    LoopBody,
    Expression,
    /// An item of a list or an argument: an expression or a spread.
    Element,
    /// A property of an object or a spread.
    Property,
    Declarator,
    Parameter,
    Pattern,
    PatternProperty,
}

/// What is to be done next.
#[derive(Clone, Copy)]
pub enum Task<'a> {
    Visit(Role, &'a Tree),
    /// Closes the innermost block.
    Leave,
    EndLoop,
    /// Ends a function; so many loops are open around it.
    EndFunction(u32),
}

/// The walk: the names of the open blocks, how many loops of the function are open, whether an export
/// was passed, and what is to be done, the next last.
#[derive(Drop)]
pub struct Walk<'a> {
    pub alloc: Global,
    spans: &'a [Span],
    pub names: Names,
    pub loops: u32,
    pub exported: bool,
    tasks: Vec<Task<'a>>,
}

impl<'a> Walk<'a> {
    /// Does this next, before what was to be done.
    pub fn push(&mut self, task: Task<'a>) -> Result<(), ScriptError> {
        match self.tasks.push(task) {
            Ok(()) => Ok(()),
            Err(_) => Err(ScriptError::NoMemory),
        }
    }

    /// Visits the node next, if there is one.
    pub fn visit(&mut self, role: Role, node: Option<&'a Tree>) -> Result<(), ScriptError> {
        match node {
            Some(node) => self.push(Task::Visit(role, node)),
            None => Ok(()),
        }
    }

    /// Visits the nodes of these places next, in their order.
    pub fn visit_all(&mut self, role: Role, places: &'a [Place]) -> Result<(), ScriptError> {
        for behind in 0..places.len() {
            let place = &places[places.len() - 1 - behind];
            self.visit(role, node_in(place))?;
        }
        Ok(())
    }

    /// The refusal for a rule that the node breaks.
    pub fn refuse(&self, node: &Tree, kind: FormKind) -> Result<(), ScriptError> {
        let number = node.from.unwrap_or(0) as usize;
        let at = if number < self.spans.len() {
            self.spans[number].start
        } else {
            0
        };
        Err(ScriptError::Form(ScriptForm { at, kind }))
    }

    fn do_task(&mut self, task: Task<'a>) -> Result<(), ScriptError> {
        match task {
            Task::Visit(role, node) => self.visited(role, node),
            Task::Leave => {
                self.names.leave();
                Ok(())
            }
            Task::EndLoop => {
                self.loops = self.loops.saturating_sub(1);
                Ok(())
            }
            Task::EndFunction(loops) => {
                self.loops = loops;
                Ok(())
            }
        }
    }

    fn visited(&mut self, role: Role, node: &'a Tree) -> Result<(), ScriptError> {
        match role {
            Role::Top => top_item(self, node),
            Role::Statement => statement(self, node),
            Role::LoopBody => {
                self.loops = self.loops.saturating_add(1);
                self.push(Task::EndLoop)?;
                statement(self, node)
            }
            Role::Expression => expression(self, node),
            Role::Element => element(self, node),
            Role::Property => property(self, node),
            Role::Declarator => declarator(self, node),
            Role::Parameter => parameter(self, node),
            Role::Pattern => pattern(self, node),
            Role::PatternProperty => pattern_property(self, node),
        }
    }

    // Each node is visited in two roles at most, and opens at most a block, a loop and a function: the
    // turns are enough for all tasks.
    fn run(&mut self) -> Result<(), ScriptError> {
        let turns = (self.spans.len() as u64)
            .saturating_add(8)
            .saturating_mul(8);
        for _turn in 0..turns {
            let Some(task) = self.tasks.pop() else {
                return Ok(());
            };
            self.do_task(task)?;
        }
        Err(ScriptError::NoMemory)
    }
}

// Where the text of the program ends.
fn end_of(parsed: &Parsed) -> u32 {
    match parsed.spans.get(0) {
        Some(span) => span.end,
        None => 0,
    }
}

fn walked(alloc: Global, parsed: &Parsed) -> Result<(), ScriptError> {
    let mut walk = Walk {
        alloc,
        spans: parsed.spans.as_slice(),
        names: Names::new(alloc),
        loops: 0,
        exported: false,
        tasks: Vec::new(alloc),
    };
    let items = places(&parsed.tree, 0);
    walk.names.enter()?;
    declare_items(&mut walk.names, items)?;
    walk.visit_all(Role::Top, items)?;
    walk.run()?;
    if walk.exported {
        return Ok(());
    }
    Err(ScriptError::Form(ScriptForm {
        at: end_of(parsed),
        kind: FormKind::NoExport,
    }))
}

/// The program as a script. A refusal names the first node, in preorder, that breaks a rule, by its
/// start, and the rule; of a program without an export it names the end of the text.
///
/// The program is what `parse` answers: numbered in preorder, each node with its stretch.
pub fn check(alloc: Global, parsed: Parsed) -> Result<Script, ScriptError>
    ensures kept { IfOk result (λ script. script.parsed ≡ parsed) }
{
    walked(alloc, &parsed)?;
    Ok(Script { parsed })
}

//! Statements (ECMA-262, 14th edition, clause 14).

ghost use Rattle.script_code.specs.Callable.{Callable};

use crate::code::{Bind, Block, Choice, Entry, Statement, Step};
use crate::declared::{declare_statements, function_of};
use crate::maker::{Maker, Prepared, Role};
use crate::nodes::{child, filled, needed, places, unchecked};
use crate::state::State;
use std::alloc::AllocError;
use tree_core::{Place, Tree};
use type_defs::Kind;

impl<F: Fn(&mut State<'_>, u32, &Tree, Role) -> Result<Prepared, AllocError>> Maker<F> {
    /// What a statement is.
    pub fn step(&self, state: &mut State<'_>, tree: &Tree) -> Result<Step, AllocError>
        requires { Callable self.now.levels (F.pre self.now.below) }
    {
        match tree.kind {
            Kind::VariableDeclaration => self.declaration(state, tree),
            Kind::FunctionDeclaration | Kind::EmptyStatement | Kind::Directive => Ok(Step::Empty),
            Kind::ExpressionStatement => {
                let value = self.boxed(state, needed(tree, "expression")?)?;
                Ok(Step::Evaluate(value))
            }
            Kind::BlockStatement => {
                let block = self.block(state, places(tree, "body")?)?;
                Ok(Step::Block(Box::new(state.alloc, block)?))
            }
            Kind::IfStatement => self.choice(state, tree),
            Kind::WhileStatement => self.while_loop(state, tree),
            Kind::ForStatement => self.for_loop(state, tree),
            Kind::ForOfStatement => self.for_of(state, tree),
            Kind::ReturnStatement => self.returned(state, tree),
            Kind::BreakStatement => Ok(Step::Break),
            Kind::ContinueStatement => Ok(Step::Continue),
            Kind::ThrowStatement => self.throw(state, tree),
            Kind::ExportDefaultDeclaration => self.exported(state, tree),
            _ => Err(unchecked()),
        }
    }

    /// A statement in a box.
    pub fn boxed_statement(
        &self,
        state: &mut State<'_>,
        tree: &Tree,
    ) -> Result<Box<Statement>, AllocError>
        requires { Callable self.now.levels (F.pre self.now.below) }
    {
        let statement = self.statement(state, tree)?;
        Ok(Box::new(state.alloc, statement)?)
    }

    /// The statements of a list.
    pub fn statements(
        &self,
        state: &mut State<'_>,
        list: &[Place],
    ) -> Result<Vec<Statement>, AllocError>
        requires { Callable self.now.levels (F.pre self.now.below) }
    {
        let mut all = Vec::new(state.alloc);
        for place in list {
            all.push(self.statement(state, filled(place)?)?)?;
        }
        Ok(all)
    }

    fn block(&self, state: &mut State<'_>, list: &[Place]) -> Result<Block, AllocError>
        requires { Callable self.now.levels (F.pre self.now.below) }
    {
        let mark = state.scopes.enter();
        declare_statements(state, list)?;
        let cells = state.scopes.settle(mark);
        let hoisted = self.hoisted(state, list)?;
        let body = self.statements(state, list)?;
        state.scopes.leave(mark);
        Ok(Block {
            cells,
            hoisted,
            body,
        })
    }

    // A declaration of one name with a value is a step of its own.
    fn declaration(&self, state: &mut State<'_>, tree: &Tree) -> Result<Step, AllocError>
        requires { Callable self.now.levels (F.pre self.now.below) }
    {
        let declarators = places(tree, "declarations")?;
        if let [only] = declarators {
            let only = filled(only)?;
            let target = needed(only, "id")?;
            if target.kind == Kind::Identifier {
                if let Some(init) = child(only, "init") {
                    let value = self.boxed(state, init)?;
                    return Ok(match state.begin(target)? {
                        Entry::Local(slot) => Step::BeginLocal(slot, value),
                        Entry::Cell(cell) => Step::BeginCell(cell, value),
                    });
                }
            }
        }
        let outer = state.set_steps_aside();
        for place in declarators {
            self.declarator(state, filled(place)?)?;
        }
        Ok(Step::Bind(state.finish_steps(outer)))
    }

    fn declarator(&self, state: &mut State<'_>, tree: &Tree) -> Result<(), AllocError>
        requires { Callable self.now.levels (F.pre self.now.below) }
    {
        match child(tree, "init") {
            Some(init) => {
                let value = self.boxed(state, init)?;
                state.step(Bind::Evaluate(value))?;
            }
            None => state.step(Bind::Undefined)?,
        }
        self.pattern(state, needed(tree, "id")?)
    }

    fn choice(&self, state: &mut State<'_>, tree: &Tree) -> Result<Step, AllocError>
        requires { Callable self.now.levels (F.pre self.now.below) }
    {
        let test = self.expression(state, needed(tree, "test")?)?;
        let yes = self.boxed_statement(state, needed(tree, "consequent")?)?;
        let no = match child(tree, "alternate") {
            Some(alternate) => Some(self.boxed_statement(state, alternate)?),
            None => None,
        };
        Ok(Step::If(Box::new(state.alloc, Choice { test, yes, no })?))
    }

    fn returned(&self, state: &mut State<'_>, tree: &Tree) -> Result<Step, AllocError>
        requires { Callable self.now.levels (F.pre self.now.below) }
    {
        match child(tree, "argument") {
            Some(argument) => Ok(Step::Return(self.boxed(state, argument)?)),
            None => Ok(Step::ReturnUndefined),
        }
    }

    fn throw(&self, state: &mut State<'_>, tree: &Tree) -> Result<Step, AllocError>
        requires { Callable self.now.levels (F.pre self.now.below) }
    {
        let at = state.start(tree)?;
        let value = self.boxed(state, needed(tree, "argument")?)?;
        Ok(Step::Throw(at, value))
    }

    // The function that is exported was prepared with those that the top level binds.
    fn exported(&self, state: &mut State<'_>, tree: &Tree) -> Result<Step, AllocError>
        requires { Callable self.now.levels (F.pre self.now.below) }
    {
        if function_of(tree).is_some() {
            return Ok(Step::ExportFunction(state.exported));
        }
        let value = self.boxed(state, needed(tree, "declaration")?)?;
        Ok(Step::Export(value))
    }
}

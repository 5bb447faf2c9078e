//! Loops (ECMA-262, 14th edition, clause 14.7).

ghost use Rattle.script_code.specs.Callable.{Callable};

use crate::code::{Bind, Expression, First, Loop, Over, Round, Step};
use crate::declared::declare_declaration;
use crate::maker::{Maker, Prepared, Role};
use crate::nodes::{child, filled, needed, places, unchecked};
use crate::state::State;
use std::alloc::AllocError;
use tree_core::Tree;
use type_defs::Kind;

impl<F: Fn(&mut State<'_>, u32, &Tree, Role) -> Result<Prepared, AllocError>> Maker<F> {
    pub fn while_loop(&self, state: &mut State<'_>, tree: &Tree) -> Result<Step, AllocError>
        requires { Callable self.now.levels (F.pre self.now.below) }
    {
        let test = self.expression(state, needed(tree, "test")?)?;
        let body = self.boxed_statement(state, needed(tree, "body")?)?;
        Ok(Step::While(Box::new(state.alloc, Round { test, body })?))
    }

    /// A `for` statement with semicolons. The names of its head are in a scope around it.
    pub fn for_loop(&self, state: &mut State<'_>, tree: &Tree) -> Result<Step, AllocError>
        requires { Callable self.now.levels (F.pre self.now.below) }
    {
        let mark = state.scopes.enter();
        let init = child(tree, "init");
        if let Some(init) = init {
            if init.kind == Kind::VariableDeclaration {
                declare_declaration(state, init)?;
            }
        }
        let cells = state.scopes.settle(mark);
        let first = self.first(state, init)?;
        let test = self.maybe(state, child(tree, "test"))?;
        let update = self.maybe(state, child(tree, "update"))?;
        let body = self.boxed_statement(state, needed(tree, "body")?)?;
        state.scopes.leave(mark);
        let made = Loop {
            cells,
            first,
            test,
            update,
            body,
        };
        Ok(Step::For(Box::new(state.alloc, made)?))
    }

    fn first(&self, state: &mut State<'_>, init: Option<&Tree>) -> Result<First, AllocError>
        requires { Callable self.now.levels (F.pre self.now.below) }
    {
        let Some(init) = init else {
            return Ok(First::Nothing);
        };
        if init.kind == Kind::VariableDeclaration {
            return Ok(First::Declaration(self.boxed_statement(state, init)?));
        }
        Ok(First::Expression(self.boxed(state, init)?))
    }

    fn maybe(
        &self,
        state: &mut State<'_>,
        tree: Option<&Tree>,
    ) -> Result<Option<Box<Expression>>, AllocError>
        requires { Callable self.now.levels (F.pre self.now.below) }
    {
        match tree {
            Some(tree) => Ok(Some(self.boxed(state, tree)?)),
            None => Ok(None),
        }
    }

    /// A `for of` statement. The names of its head are early while its list is evaluated.
    pub fn for_of(&self, state: &mut State<'_>, tree: &Tree) -> Result<Step, AllocError>
        requires { Callable self.now.levels (F.pre self.now.below) }
    {
        let head = needed(tree, "left")?;
        let mark = state.scopes.enter();
        declare_declaration(state, head)?;
        let cells = state.scopes.settle(mark);
        let list = self.boxed(state, needed(tree, "right")?)?;
        let steps = self.head_steps(state, head)?;
        let body = self.boxed_statement(state, needed(tree, "body")?)?;
        state.scopes.leave(mark);
        let over = Over {
            cells,
            list,
            steps,
            body,
        };
        Ok(Step::ForOf(Box::new(state.alloc, over)?))
    }

    // The steps that bind an item to the one declarator of the head.
    fn head_steps(&self, state: &mut State<'_>, head: &Tree) -> Result<Vec<Bind>, AllocError>
        requires { Callable self.now.levels (F.pre self.now.below) }
    {
        let Some(declarator) = places(head, "declarations")?.first() else {
            return Err(unchecked());
        };
        let outer = state.set_steps_aside();
        self.pattern(state, needed(filled(declarator)?, "id")?)?;
        Ok(state.finish_steps(outer))
    }
}

//! Functions: their parameters, bodies, and the declarations that a block binds when it starts.

ghost use Rattle.script_code.specs.Callable.{Callable};

use crate::code::{Bind, Body, Form, Function, Hoisted};
use crate::declared::{MAX_LEVELS, declare_pattern, declare_statements, function_of};
use crate::maker::{Maker, Prepared, Role};
use crate::nodes::{child, filled, needed, places};
use crate::state::State;
use std::alloc::AllocError;
use tree_core::{Place, Tree};
use type_defs::Kind;

impl<F: Fn(&mut State<'_>, u32, &Tree, Role) -> Result<Prepared, AllocError>> Maker<F> {
    /// A function expression. Its own name stands in a scope around it (ECMA-262, 14th edition,
    /// clause 15.2.5).
    pub fn function_expression(
        &self,
        state: &mut State<'_>,
        tree: &Tree,
    ) -> Result<Form, AllocError>
        requires { Callable self.now.levels (F.pre self.now.below) }
    {
        let Some(id) = child(tree, "id") else {
            return Ok(Form::Function(self.function(state, tree)?));
        };
        let mark = state.scopes.enter();
        state.declare(id)?;
        let cells = state.scopes.settle(mark);
        let number = self.function(state, tree)?;
        state.scopes.leave(mark);
        if cells == 0 {
            return Ok(Form::Function(number));
        }
        Ok(Form::NamedFunction(number))
    }

    /// The number of a function. Its parameters and the names of its body are in one scope.
    pub fn function(&self, state: &mut State<'_>, tree: &Tree) -> Result<u32, AllocError>
        requires { Callable self.now.levels (F.pre self.now.below) }
    {
        let params = places(tree, "params")?;
        let body = needed(tree, "body")?;
        let Ok(parameters) = u32::try_from(params.len()) else {
            return Err(AllocError);
        };
        let has_rest = ends_in_rest(params);
        let outer = state.scopes.enter_function(parameters);
        let depth = state.depth;
        state.depth = 0;
        let mark = state.scopes.enter();
        declare_function(state, params, body)?;
        let cells = state.scopes.settle(mark);
        let steps = self.entry(state, params)?;
        let body = self.body(state, body)?;
        state.scopes.leave(mark);
        state.depth = depth;
        state.scopes.leave_function(outer);
        state.function(Function {
            parameters,
            has_rest,
            cells,
            steps,
            body,
        })
    }

    // The steps that bind the parameters, whose values stand in the first slots.
    fn entry(&self, state: &mut State<'_>, params: &[Place]) -> Result<Vec<Bind>, AllocError>
        requires { Callable self.now.levels (F.pre self.now.below) }
    {
        let outer = state.set_steps_aside();
        let mut slot = 0u32;
        for place in params {
            let param = filled(place)?;
            if param.kind == Kind::RestElement {
                state.step(Bind::Rest(slot))?;
                self.bind_slot(state, needed(param, "argument")?, slot)?;
            } else {
                self.bind_slot(state, param, slot)?;
            }
            slot = slot.saturating_add(1);
        }
        Ok(state.finish_steps(outer))
    }

    fn body(&self, state: &mut State<'_>, tree: &Tree) -> Result<Body, AllocError>
        requires { Callable self.now.levels (F.pre self.now.below) }
    {
        if tree.kind != Kind::BlockStatement {
            return Ok(Body::Expression(self.boxed(state, tree)?));
        }
        let list = places(tree, "body")?;
        state.depth = 1;
        let hoisted = self.hoisted(state, list)?;
        let body = self.statements(state, list)?;
        Ok(Body::Block(hoisted, body))
    }

    /// The functions that a block binds when it starts (clause 14.2.3).
    pub fn hoisted(&self, state: &mut State<'_>, list: &[Place]) -> Result<Vec<Hoisted>, AllocError>
        requires { Callable self.now.levels (F.pre self.now.below) }
    {
        let mut all = Vec::new(state.alloc);
        for place in list {
            let statement = filled(place)?;
            if let Some(declaration) = function_of(statement) {
                let function = self.declared(state, declaration)?;
                if statement.kind == Kind::ExportDefaultDeclaration {
                    state.exported = function;
                }
                if let Some(id) = child(declaration, "id") {
                    let place = state.begin(id)?;
                    all.push(Hoisted { function, place })?;
                }
            }
        }
        Ok(all)
    }
}

// Whether the last parameter takes the rest of the arguments.
fn ends_in_rest(params: &[Place]) -> bool {
    match params.last() {
        Some(place) => match filled(place) {
            Ok(param) => param.kind == Kind::RestElement,
            Err(_) => false,
        },
        None => false,
    }
}

// Declares the parameters of a function and the names of its body.
fn declare_function(
    state: &mut State<'_>,
    params: &[Place],
    body: &Tree,
) -> Result<(), AllocError> {
    for place in params {
        declare_pattern(state, MAX_LEVELS, filled(place)?)?;
    }
    if body.kind == Kind::BlockStatement {
        declare_statements(state, places(body, "body")?)?;
    }
    Ok(())
}

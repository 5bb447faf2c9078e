//! Calls of functions, of methods, and by global names.

ghost use Rattle.script_code.specs.Callable.{Callable};

use crate::code::{Call, Form, MethodCall, NamedCall, Part};
use crate::maker::{Maker, Prepared, Role};
use crate::nodes::{filled, needed, places, truth};
use crate::state::State;
use script_check::{GlobalCall, global_call};
use std::alloc::AllocError;
use tree_core::{Place, Tree};
use type_defs::Kind;

impl<F: Fn(&mut State<'_>, u32, &Tree, Role) -> Result<Prepared, AllocError>> Maker<F> {
    /// The items of an array or the arguments of a call.
    pub fn parts(&self, state: &mut State<'_>, places: &[Place]) -> Result<Vec<Part>, AllocError>
        requires { Callable self.now.levels (F.pre self.now.below) }
    {
        let mut parts = Vec::new(state.alloc);
        for place in places {
            let tree = filled(place)?;
            let is_spread = tree.kind == Kind::SpreadElement;
            let part = if is_spread {
                needed(tree, "argument")?
            } else {
                tree
            };
            let value = self.expression(state, part)?;
            parts.push(Part { is_spread, value })?;
        }
        Ok(parts)
    }

    /// A call.
    pub fn call(&self, state: &mut State<'_>, tree: &Tree) -> Result<Form, AllocError>
        requires { Callable self.now.levels (F.pre self.now.below) }
    {
        let callee = needed(tree, "callee")?;
        if let Some((name, base)) = global_call(tree) {
            if state.find(base)?.is_none() {
                return self.global(state, tree, name, base);
            }
        }
        if callee.kind == Kind::MemberExpression {
            return self.method_call(state, tree, callee);
        }
        let at = state.start(tree)?;
        let depth = state.depth;
        let is_optional = truth(tree, "optional");
        let callee = self.expression(state, callee)?;
        let arguments = self.parts(state, places(tree, "arguments")?)?;
        let call = Call {
            at,
            depth,
            is_optional,
            callee,
            arguments,
        };
        Ok(Form::Call(Box::new(state.alloc, call)?))
    }

    // The member of a method that is called is no evaluation.
    fn method_call(
        &self,
        state: &mut State<'_>,
        tree: &Tree,
        member: &Tree,
    ) -> Result<Form, AllocError>
        requires { Callable self.now.levels (F.pre self.now.below) }
    {
        let at = state.start(tree)?;
        let depth = state.depth;
        let is_optional = truth(member, "optional");
        let is_optional_call = truth(tree, "optional");
        let object = self.expression(state, needed(member, "object")?)?;
        let key = self.member_key(state, member)?;
        let arguments = self.parts(state, places(tree, "arguments")?)?;
        let call = MethodCall {
            at,
            depth,
            is_optional,
            is_optional_call,
            object,
            key,
            arguments,
        };
        Ok(Form::Method(Box::new(state.alloc, call)?))
    }

    // The name is an expression too.
    fn global(
        &self,
        state: &mut State<'_>,
        tree: &Tree,
        name: GlobalCall,
        base: &Tree,
    ) -> Result<Form, AllocError>
        requires { Callable self.now.levels (F.pre self.now.below) }
    {
        let at = state.start(tree)?;
        let name_at = state.start(base)?;
        let depth = state.depth;
        let arguments = self.parts(state, places(tree, "arguments")?)?;
        let call = NamedCall {
            at,
            name_at,
            depth,
            name,
            arguments,
        };
        Ok(Form::Global(Box::new(state.alloc, call)?))
    }
}

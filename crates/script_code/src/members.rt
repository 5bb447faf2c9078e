//! Members that are read and written.

ghost use Rattle.script_code.specs.Callable.{Callable};

use crate::code::{Access, Form, Key, Lookup, Write, Written};
use crate::expressions::update;
use crate::maker::{Maker, Prepared, Role};
use crate::nodes::{needed, text, truth};
use crate::operators::assignment;
use crate::state::State;
use std::alloc::AllocError;
use tree_core::Tree;

impl<F: Fn(&mut State<'_>, u32, &Tree, Role) -> Result<Prepared, AllocError>> Maker<F> {
    /// A member that is read.
    pub fn member(&self, state: &mut State<'_>, tree: &Tree) -> Result<Form, AllocError>
        requires { Callable self.now.levels (F.pre self.now.below) }
    {
        let at = state.start(tree)?;
        let is_optional = truth(tree, "optional");
        let object = self.expression(state, needed(tree, "object")?)?;
        let property = needed(tree, "property")?;
        if truth(tree, "computed") {
            let key = self.boxed(state, property)?;
            let lookup = Lookup {
                at,
                is_optional,
                object,
                key,
            };
            return Ok(Form::At(Box::new(state.alloc, lookup)?));
        }
        let word = state.word(text(property, "name")?.get())?;
        let hint = state.hint();
        let access = Access {
            at,
            word,
            hint,
            is_optional,
            object,
        };
        Ok(Form::Get(Box::new(state.alloc, access)?))
    }

    /// The key of a member.
    pub fn member_key(&self, state: &mut State<'_>, tree: &Tree) -> Result<Key, AllocError>
        requires { Callable self.now.levels (F.pre self.now.below) }
    {
        let property = needed(tree, "property")?;
        if truth(tree, "computed") {
            return Ok(Key::Computed(self.boxed(state, property)?));
        }
        state.key(text(property, "name")?.get())
    }

    // A write to the member, before what is written is known. The member is an evaluation.
    fn target(&self, state: &mut State<'_>, tree: &Tree, member: &Tree) -> Result<Write, AllocError>
        requires { Callable self.now.levels (F.pre self.now.below) }
    {
        let at = state.start(tree)?;
        let target_at = state.start(member)?;
        let outer = state.depth;
        let target_depth = outer.saturating_add(1);
        state.depth = target_depth;
        let object = self.expression(state, needed(member, "object")?)?;
        let key = self.member_key(state, member)?;
        state.depth = outer;
        Ok(Write {
            at,
            target_at,
            target_depth,
            object,
            key,
            written: Written::Update(update(tree)),
        })
    }

    /// An assignment to a member.
    pub fn written(
        &self,
        state: &mut State<'_>,
        tree: &Tree,
        member: &Tree,
    ) -> Result<Form, AllocError>
        requires { Callable self.now.levels (F.pre self.now.below) }
    {
        let mut write = self.target(state, tree, member)?;
        let operator = assignment(tree)?;
        let value = self.boxed(state, needed(tree, "right")?)?;
        write.written = match operator {
            Some(operator) => Written::Compound(operator, value),
            None => Written::Value(value),
        };
        Ok(Form::Write(Box::new(state.alloc, write)?))
    }

    /// `++` or `--` of a member.
    pub fn stepped(
        &self,
        state: &mut State<'_>,
        tree: &Tree,
        member: &Tree,
    ) -> Result<Form, AllocError>
        requires { Callable self.now.levels (F.pre self.now.below) }
    {
        let write = self.target(state, tree, member)?;
        Ok(Form::Write(Box::new(state.alloc, write)?))
    }
}

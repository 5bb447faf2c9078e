//! Array and object literals.

ghost use Rattle.script_code.specs.Callable.{Callable};

use crate::code::{Field, Fields, Form, Items, Key};
use crate::maker::{Maker, Prepared, Role};
use crate::nodes::{filled, needed, places, text, truth, unchecked};
use crate::state::State;
use std::alloc::AllocError;
use tree_core::Tree;
use type_defs::Kind;

impl<F: Fn(&mut State<'_>, u32, &Tree, Role) -> Result<Prepared, AllocError>> Maker<F> {
    /// An array literal.
    pub fn array(&self, state: &mut State<'_>, tree: &Tree) -> Result<Form, AllocError>
        requires { Callable self.now.levels (F.pre self.now.below) }
    {
        let at = state.start(tree)?;
        let parts = self.parts(state, places(tree, "elements")?)?;
        Ok(Form::List(Box::new(state.alloc, Items { at, parts })?))
    }

    /// An object literal.
    pub fn object(&self, state: &mut State<'_>, tree: &Tree) -> Result<Form, AllocError>
        requires { Callable self.now.levels (F.pre self.now.below) }
    {
        let at = state.start(tree)?;
        let mut fields = Vec::new(state.alloc);
        for place in places(tree, "properties")? {
            fields.push(self.field(state, filled(place)?)?)?;
        }
        Ok(Form::Object(Box::new(state.alloc, Fields { at, fields })?))
    }

    fn field(&self, state: &mut State<'_>, tree: &Tree) -> Result<Field, AllocError>
        requires { Callable self.now.levels (F.pre self.now.below) }
    {
        if tree.kind == Kind::SpreadElement {
            let value = self.expression(state, needed(tree, "argument")?)?;
            return Ok(Field {
                key: Key::Spread,
                value,
            });
        }
        let name = needed(tree, "key")?;
        let key = if truth(tree, "computed") {
            Key::Computed(self.boxed(state, name)?)
        } else {
            plain_key(state, name)?
        };
        let value = self.expression(state, needed(tree, "value")?)?;
        Ok(Field { key, value })
    }
}

/// A key that is a name or a string.
pub fn plain_key(state: &mut State<'_>, tree: &Tree) -> Result<Key, AllocError> {
    match tree.kind {
        Kind::Identifier => state.key(text(tree, "name")?.get()),
        Kind::Literal => state.key(text(tree, "value")?.get()),
        _ => Err(unchecked()),
    }
}

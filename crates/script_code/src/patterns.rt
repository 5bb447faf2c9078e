//! Patterns, as steps that bind the value in hand (ECMA-262, 14th edition, clauses 8.6.2 and
//! 14.3.3).

ghost use Rattle.script_code.specs.Callable.{Callable};

use crate::code::{Bind, Entry, Key};
use crate::maker::{Maker, Prepared, Role};
use crate::nodes::{filled, needed, node, places, unchecked};
use crate::objects::plain_key;
use crate::state::State;
use std::alloc::AllocError;
use tree_core::Tree;
use type_defs::Kind;

impl<F: Fn(&mut State<'_>, u32, &Tree, Role) -> Result<Prepared, AllocError>> Maker<F> {
    /// Adds the steps of a pattern. A default is evaluated before its name begins.
    pub fn bind(&self, state: &mut State<'_>, tree: &Tree) -> Result<(), AllocError>
        requires { Callable self.now.levels (F.pre self.now.below) }
    {
        match tree.kind {
            Kind::Identifier => {
                let entry = state.begin(tree)?;
                state.step(begun(entry))
            }
            Kind::AssignmentPattern => {
                let default = self.boxed(state, needed(tree, "right")?)?;
                state.step(Bind::Default(default))?;
                self.pattern(state, needed(tree, "left")?)
            }
            Kind::ObjectPattern => self.bind_fields(state, tree),
            Kind::ArrayPattern => self.bind_items(state, tree),
            _ => Err(unchecked()),
        }
    }

    // The object stays in a slot without a name while its fields are read.
    fn bind_fields(&self, state: &mut State<'_>, tree: &Tree) -> Result<(), AllocError>
        requires { Callable self.now.levels (F.pre self.now.below) }
    {
        let properties = places(tree, "properties")?;
        if properties.is_empty() {
            return Ok(());
        }
        let slot = state.scopes.slots(1);
        state.step(Bind::Begin(slot))?;
        for place in properties {
            let property = filled(place)?;
            let Key::Word(word, hint) = plain_key(state, needed(property, "key")?)? else {
                return Err(unchecked());
            };
            state.step(Bind::Field(slot, word, hint))?;
            self.pattern(state, needed(property, "value")?)?;
        }
        Ok(())
    }

    // The items are read at once, each into a slot, which is that of the name that it is bound to.
    fn bind_items(&self, state: &mut State<'_>, tree: &Tree) -> Result<(), AllocError>
        requires { Callable self.now.levels (F.pre self.now.below) }
    {
        let elements = places(tree, "elements")?;
        let Ok(count) = u32::try_from(elements.len()) else {
            return Err(AllocError);
        };
        let first = state.scopes.slots(count);
        state.step(Bind::Items(first, count))?;
        let mut slot = first;
        for place in elements {
            if let Some(element) = node(place) {
                self.bind_slot(state, element, slot)?;
            }
            slot = slot.saturating_add(1);
        }
        Ok(())
    }

    /// Binds a pattern to the value of a slot that has begun; a name takes the slot itself.
    pub fn bind_slot(&self, state: &mut State<'_>, tree: &Tree, slot: u32) -> Result<(), AllocError>
        requires { Callable self.now.levels (F.pre self.now.below) }
    {
        if tree.kind == Kind::Identifier {
            return match state.begin_in(tree, slot)? {
                Entry::Local(_) => Ok(()),
                Entry::Cell(cell) => {
                    state.step(Bind::Take(slot))?;
                    state.step(Bind::BeginCell(cell))
                }
            };
        }
        state.step(Bind::Take(slot))?;
        if tree.kind != Kind::AssignmentPattern {
            return self.pattern(state, tree);
        }
        let target = needed(tree, "left")?;
        if target.kind != Kind::Identifier {
            return self.pattern(state, tree);
        }
        let default = self.boxed(state, needed(tree, "right")?)?;
        state.step(Bind::Default(default))?;
        match state.begin_in(target, slot)? {
            Entry::Local(slot) => state.step(Bind::Store(slot)),
            Entry::Cell(cell) => state.step(Bind::BeginCell(cell)),
        }
    }
}

// The step that begins a name.
fn begun(entry: Entry) -> Bind {
    match entry {
        Entry::Local(slot) => Bind::Begin(slot),
        Entry::Cell(cell) => Bind::BeginCell(cell),
    }
}

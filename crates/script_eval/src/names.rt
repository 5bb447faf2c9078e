//! Names that are set, begun and updated.

ghost use Rattle.std.specs.Prelude.{◌≡◌, ◌+◌, ◌≤◌, IfOk};
ghost use Rattle.script_eval.specs.Weight.{weight_of, work};

use crate::frames::{Flow, Frame, Turn};
use crate::machine::Machine;
use crate::operators::{apply, updated};
use crate::stack::{begin_slot, keep, push, set_slot, slot_value, taken};
use host_fields::Host;
use script_code::{Compound, Expression, Place, Statement, Update};
use script_values::{Fault, Stop, Value};

impl<'a> Machine<'a> {
    /// A frame waits for an expression.
    #[inline(always)]
    pub fn wait_for(&mut self, frame: Frame<'a>, e: &'a Expression) -> Result<Turn<'a>, Stop>
        ensures fuel { self.new.fuel ≡ self.old.fuel }
        ensures falls { IfOk result (λ t. work self.new + weight_of t ≤ work self.old + 2) }
    {
        push(&mut self.frames, frame)?;
        Ok(Turn::Expression(e))
    }

    /// A frame waits for a statement.
    #[inline(always)]
    pub fn execute(&mut self, frame: Frame<'a>, s: &'a Statement) -> Result<Turn<'a>, Stop>
        ensures fuel { self.new.fuel ≡ self.old.fuel }
        ensures falls { IfOk result (λ t. work self.new + weight_of t ≤ work self.old + 2) }
    {
        push(&mut self.frames, frame)?;
        Ok(Turn::Statement(s))
    }

    /// Sets a slot.
    #[inline(always)]
    pub fn set_local(&mut self, slot: u32, value: Value) -> Result<Turn<'a>, Stop>
        ensures fuel { self.new.fuel ≡ self.old.fuel }
        ensures falls { IfOk result (λ t. work self.new + weight_of t ≤ work self.old + 2) }
    {
        let given = value;
        set_slot(&mut self.values, self.base, slot, value)?;
        Ok(Turn::Given(given))
    }

    /// Sets a cell, whose declaration may not have run: then this has no effect.
    #[inline(always)]
    pub fn set_cell(
        &mut self,
        host: &mut Host,
        outwards: u32,
        cell: u32,
        value: Value,
    ) -> Result<Turn<'a>, Stop>
        ensures fuel { self.new.fuel ≡ self.old.fuel }
        ensures falls { IfOk result (λ t. work self.new + weight_of t ≤ work self.old + 2) }
    {
        let given = value;
        host.heap.assign(self.environment, outwards, cell, value)?;
        Ok(Turn::Given(given))
    }

    /// A slot begins, by a declaration.
    #[inline(always)]
    pub fn begin_local(&mut self, slot: u32, value: Value) -> Result<Turn<'a>, Stop>
        ensures fuel { self.new.fuel ≡ self.old.fuel }
        ensures falls { IfOk result (λ t. work self.new + weight_of t ≤ work self.old + 2) }
    {
        begin_slot(&mut self.values, self.base, slot, value)?;
        Ok(Turn::Ended(Flow::Next))
    }

    /// A cell of the innermost environment begins, by a declaration.
    #[inline(always)]
    pub fn begin_cell(&mut self, host: &mut Host, cell: u32, value: Value) -> Result<Turn<'a>, Stop>
        ensures fuel { self.new.fuel ≡ self.old.fuel }
        ensures falls { IfOk result (λ t. work self.new + weight_of t ≤ work self.old + 2) }
    {
        host.heap.declare(self.environment, 0, cell, value)?;
        Ok(Turn::Ended(Flow::Next))
    }

    // What a name holds.
    #[inline(always)]
    fn held(&self, host: &Host, place: Place) -> Result<Value, Stop> {
        match place {
            Place::Local(slot) => slot_value(&self.values, self.base, slot),
            Place::Cell(outwards, cell) => host.heap.cell(self.environment, outwards, cell),
            Place::Early => Err(Stop::Fault(Fault::EarlyName)),
        }
    }

    // Sets a name that holds a value.
    #[inline(always)]
    fn hold(&mut self, host: &mut Host, place: Place, value: Value) -> Result<(), Stop>
        ensures fuel { self.new.fuel ≡ self.old.fuel }
        ensures frames { self.new.frames ≡ self.old.frames }
    {
        match place {
            Place::Local(slot) => set_slot(&mut self.values, self.base, slot, value),
            Place::Cell(outwards, cell) => {
                host.heap.assign(self.environment, outwards, cell, value)
            }
            Place::Early => Err(Stop::Fault(Fault::EarlyName)),
        }
    }

    /// `++` or `--` of a name.
    #[inline(always)]
    pub fn update(
        &mut self,
        host: &mut Host,
        place: Place,
        update: Update,
    ) -> Result<Turn<'a>, Stop>
        ensures fuel { self.new.fuel ≡ self.old.fuel }
        ensures falls { IfOk result (λ t. work self.new + weight_of t ≤ work self.old + 2) }
    {
        let old = self.held(host, place)?;
        let before = old;
        let new = updated(old, update)?;
        let after = new;
        self.hold(host, place, new)?;
        if update.prefix {
            Ok(Turn::Given(after))
        } else {
            Ok(Turn::Given(before))
        }
    }

    /// An operator before `=`: the name is read before the value is evaluated.
    pub fn compound(&mut self, host: &mut Host, node: &'a Compound) -> Result<Turn<'a>, Stop>
        ensures fuel { self.new.fuel ≡ self.old.fuel }
        ensures falls { IfOk result (λ t. work self.new + weight_of t ≤ work self.old + 2) }
    {
        let old = self.held(host, node.place)?;
        keep(&mut self.values, old)?;
        self.wait_for(Frame::Compound(node), &node.value)
    }

    /// The value of a compound assignment is there.
    pub fn compound_value(
        &mut self,
        host: &mut Host,
        node: &'a Compound,
        value: Value,
    ) -> Result<Turn<'a>, Stop>
        ensures fuel { self.new.fuel ≡ self.old.fuel }
        ensures falls { IfOk result (λ t. work self.new + weight_of t ≤ work self.old + 2) }
    {
        self.at = node.at;
        let old = taken(&mut self.values)?;
        let new = apply(&mut host.heap, node.operator, old, value)?;
        let given = new;
        self.hold(host, node.place, new)?;
        Ok(Turn::Given(given))
    }
}

//! Members that are read and written.

ghost use Rattle.std.specs.Prelude.{◌≡◌, ◌+◌, ◌≤◌, IfOk};
ghost use Rattle.script_eval.specs.Weight.{weight_of, work};

use crate::fields::{read, read_at, write, write_at};
use crate::frames::{Flow, Frame, Turn};
use crate::leaf::leaf;
use crate::machine::{Machine, is_nothing};
use crate::operators::{apply, updated};
use crate::stack::{DEEP, UNKNOWN, keep, seen, taken};
use host_fields::Host;
use script_code::{Access, Key, Lookup, Update, Write, Written};
use script_values::{Stop, Value, take};

impl<'a> Machine<'a> {
    /// A member that is read.
    #[inline(always)]
    pub fn get(&mut self, host: &mut Host, node: &'a Access) -> Result<Turn<'a>, Stop>
        ensures fuel { self.new.fuel ≤ self.old.fuel }
        ensures falls { IfOk result (λ t. work self.new + weight_of t ≤ work self.old + 2) }
    {
        match leaf(
            &mut self.fuel,
            &mut self.at,
            &host.heap,
            &self.values,
            self.base,
            self.environment,
            self.room,
            &node.object,
        )? {
            Some(object) => self.get_of(host, node, object),
            None => self.wait_for(Frame::GetOf(node), &node.object),
        }
    }

    /// The object of a member is there.
    #[inline(always)]
    pub fn get_of(
        &mut self,
        host: &mut Host,
        node: &'a Access,
        object: Value,
    ) -> Result<Turn<'a>, Stop>
        ensures fuel { self.new.fuel ≡ self.old.fuel }
        ensures falls { IfOk result (λ t. work self.new + weight_of t ≤ work self.old + 2) }
    {
        self.at = node.at;
        if node.is_optional && is_nothing(&object) {
            return Ok(Turn::Ended(Flow::Absent));
        }
        Ok(Turn::Given(read(host, &mut self.hints, object, node.word, node.hint)?))
    }

    /// A computed member that is read.
    #[inline(always)]
    pub fn lookup(&mut self, host: &mut Host, node: &'a Lookup) -> Result<Turn<'a>, Stop>
        ensures fuel { self.new.fuel ≤ self.old.fuel }
        ensures falls { IfOk result (λ t. work self.new + weight_of t ≤ work self.old + 2) }
    {
        match leaf(
            &mut self.fuel,
            &mut self.at,
            &host.heap,
            &self.values,
            self.base,
            self.environment,
            self.room,
            &node.object,
        )? {
            Some(object) => self.lookup_of(host, node, object),
            None => self.wait_for(Frame::AtOf(node), &node.object),
        }
    }

    /// The object of a computed member is there.
    #[inline(always)]
    pub fn lookup_of(
        &mut self,
        host: &mut Host,
        node: &'a Lookup,
        object: Value,
    ) -> Result<Turn<'a>, Stop>
        ensures fuel { self.new.fuel ≤ self.old.fuel }
        ensures falls { IfOk result (λ t. work self.new + weight_of t ≤ work self.old + 2) }
    {
        if node.is_optional && is_nothing(&object) {
            return Ok(Turn::Ended(Flow::Absent));
        }
        match leaf(
            &mut self.fuel,
            &mut self.at,
            &host.heap,
            &self.values,
            self.base,
            self.environment,
            self.room,
            &node.key,
        )? {
            Some(key) => {
                self.at = node.at;
                Ok(Turn::Given(read_at(host, object, key)?))
            }
            None => {
                keep(&mut self.values, object)?;
                self.wait_for(Frame::AtKey(node), &node.key)
            }
        }
    }

    /// The key of a computed member is there, and the object on the values.
    pub fn lookup_at(
        &mut self,
        host: &mut Host,
        node: &'a Lookup,
        key: Value,
    ) -> Result<Turn<'a>, Stop>
        ensures fuel { self.new.fuel ≡ self.old.fuel }
        ensures falls { IfOk result (λ t. work self.new + weight_of t ≤ work self.old + 2) }
    {
        self.at = node.at;
        let object = taken(&mut self.values)?;
        Ok(Turn::Given(read_at(host, object, key)?))
    }

    /// A write to a member. The member is an evaluation of its own.
    #[inline(always)]
    pub fn write(&mut self, host: &mut Host, node: &'a Write) -> Result<Turn<'a>, Stop>
        ensures fuel { self.new.fuel ≤ self.old.fuel }
        ensures falls { IfOk result (λ t. work self.new + weight_of t ≤ work self.old + 2) }
    {
        take(&mut self.fuel, 1)?;
        if node.target_depth > self.room {
            self.at = node.target_at;
            return Err(DEEP);
        }
        match leaf(
            &mut self.fuel,
            &mut self.at,
            &host.heap,
            &self.values,
            self.base,
            self.environment,
            self.room,
            &node.object,
        )? {
            Some(object) => self.write_of(host, node, object),
            None => self.wait_for(Frame::WriteOf(node), &node.object),
        }
    }

    /// The object of a member that is written is there.
    #[inline(always)]
    pub fn write_of(
        &mut self,
        host: &mut Host,
        node: &'a Write,
        object: Value,
    ) -> Result<Turn<'a>, Stop>
        ensures fuel { self.new.fuel ≡ self.old.fuel }
        ensures falls { IfOk result (λ t. work self.new + weight_of t ≤ work self.old + 2) }
    {
        keep(&mut self.values, object)?;
        match &node.key {
            Key::Word(..) => self.write_to(host, node),
            Key::Computed(key) => self.wait_for(Frame::WriteKey(node), key),
            Key::Spread => Err(UNKNOWN),
        }
    }

    /// The key of a member that is written is there.
    pub fn write_key(
        &mut self,
        host: &mut Host,
        node: &'a Write,
        key: Value,
    ) -> Result<Turn<'a>, Stop>
        ensures fuel { self.new.fuel ≡ self.old.fuel }
        ensures falls { IfOk result (λ t. work self.new + weight_of t ≤ work self.old + 2) }
    {
        keep(&mut self.values, key)?;
        self.write_to(host, node)
    }

    // The object and the key are on the values: what is written comes next. An operator and an
    // update read the member before.
    #[inline(always)]
    fn write_to(&mut self, host: &mut Host, node: &'a Write) -> Result<Turn<'a>, Stop>
        ensures fuel { self.new.fuel ≡ self.old.fuel }
        ensures falls { IfOk result (λ t. work self.new + weight_of t ≤ work self.old + 2) }
    {
        match &node.written {
            Written::Value(value) => self.wait_for(Frame::WriteValue(node), value),
            Written::Compound(_, value) => {
                let old = self.old_value(host, node)?;
                keep(&mut self.values, old)?;
                self.wait_for(Frame::WriteValue(node), value)
            }
            Written::Update(update) => self.update_member(host, node, *update),
        }
    }

    // What the member on the values holds.
    fn old_value(&mut self, host: &mut Host, node: &'a Write) -> Result<Value, Stop>
        ensures fuel { self.new.fuel ≡ self.old.fuel }
        ensures frames { self.new.frames ≡ self.old.frames }
    {
        self.at = node.target_at;
        match &node.key {
            Key::Word(word, hint) => {
                let object = seen(&self.values, 0)?;
                read(host, &mut self.hints, object, *word, *hint)
            }
            _ => {
                let object = seen(&self.values, 1)?;
                let key = seen(&self.values, 0)?;
                read_at(host, object, key)
            }
        }
    }

    // Writes to the member on the values, and takes it from there.
    #[inline(always)]
    fn set_member(&mut self, host: &mut Host, node: &'a Write, to: Value) -> Result<(), Stop>
        ensures fuel { self.new.fuel ≡ self.old.fuel }
        ensures frames { self.new.frames ≡ self.old.frames }
    {
        self.at = node.at;
        match &node.key {
            Key::Word(word, hint) => {
                let object = taken(&mut self.values)?;
                write(host, &mut self.hints, object, *word, *hint, to)
            }
            _ => {
                let key = taken(&mut self.values)?;
                let object = taken(&mut self.values)?;
                write_at(host, object, key, to)
            }
        }
    }

    // `++` or `--` of a member.
    fn update_member(
        &mut self,
        host: &mut Host,
        node: &'a Write,
        update: Update,
    ) -> Result<Turn<'a>, Stop>
        ensures fuel { self.new.fuel ≡ self.old.fuel }
        ensures falls { IfOk result (λ t. work self.new + weight_of t ≤ work self.old + 2) }
    {
        let old = self.old_value(host, node)?;
        self.at = node.at;
        let before = old;
        let new = updated(old, update)?;
        let after = new;
        self.set_member(host, node, new)?;
        if update.prefix {
            Ok(Turn::Given(after))
        } else {
            Ok(Turn::Given(before))
        }
    }

    /// The value that is written to a member is there.
    #[inline(always)]
    pub fn written(
        &mut self,
        host: &mut Host,
        node: &'a Write,
        value: Value,
    ) -> Result<Turn<'a>, Stop>
        ensures fuel { self.new.fuel ≡ self.old.fuel }
        ensures falls { IfOk result (λ t. work self.new + weight_of t ≤ work self.old + 2) }
    {
        self.at = node.at;
        let new = match &node.written {
            Written::Compound(operator, _) => {
                let old = taken(&mut self.values)?;
                apply(&mut host.heap, *operator, old, value)?
            }
            _ => value,
        };
        let given = new;
        self.set_member(host, node, new)?;
        Ok(Turn::Given(given))
    }
}

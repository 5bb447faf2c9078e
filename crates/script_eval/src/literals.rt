//! Array and object literals, and functions that are made.

ghost use Rattle.std.specs.Prelude.{◌≡◌, ◌+◌, ◌≤◌, IfOk};
ghost use Rattle.script_eval.specs.Weight.{weight_of, work};

use crate::fields::set_object_field;
use crate::frames::{Frame, Turn};
use crate::leaf::{leaf, leaves};
use crate::machine::Machine;
use crate::stack::{BAD_OPERAND, UNKNOWN, keep, seen, spread, taken};
use host_fields::{Host, key_word};
use script_code::{Field, Fields, Items, Key, Part};
use script_values::{EnvironmentId, Heap, ObjectId, Stop, Value};

// The object that is the last value.
#[inline(always)]
fn last_object(values: &[Value]) -> Result<ObjectId, Stop> {
    match seen(values, 0)? {
        Value::Object(object) => Ok(object),
        _ => Err(UNKNOWN),
    }
}

// Sets the keys of the object that is the last value, from the field `from` on, as long as the keys
// are words and their values leaves: the first field that is not so.
fn set_leaves(
    fuel: &mut u64,
    at: &mut u32,
    heap: &mut Heap,
    hints: &mut [u32],
    values: &[Value],
    base: usize,
    environment: EnvironmentId,
    room: u32,
    fields: &[Field],
    from: usize,
) -> Result<usize, Stop>
    ensures { fuel.new ≤ fuel.old }
{
    let object = last_object(values)?;
    for i in from..fields.len() {
        let Key::Word(word, hint) = &fields[i].key else {
            return Ok(i);
        };
        match leaf(
            fuel,
            at,
            heap,
            values,
            base,
            environment,
            room,
            &fields[i].value,
        )? {
            Some(value) => set_object_field(heap, hints, object, *word, *hint, value)?,
            None => return Ok(i),
        }
    }
    Ok(fields.len())
}

// Sets the keys of another object in an object.
fn set_all(heap: &mut Heap, object: ObjectId, other: ObjectId) -> Result<(), Stop> {
    for index in 0..heap.object_length(other)? {
        if let Some((word, value)) = heap.entry(other, index)? {
            heap.set_field(object, word, value)?;
        }
    }
    Ok(())
}

// Sets the keys of a value that is spread in an object.
fn spread_object(heap: &mut Heap, object: ObjectId, from: Value) -> Result<(), Stop> {
    match from {
        Value::Object(other) => set_all(heap, object, other),
        Value::Undefined | Value::Null => Ok(()),
        _ => Err(BAD_OPERAND),
    }
}

impl<'a> Machine<'a> {
    /// Begins an array literal.
    pub fn items(&mut self, host: &mut Host, node: &'a Items, from: usize) -> Result<Turn<'a>, Stop>
        ensures fuel { self.new.fuel ≤ self.old.fuel }
        ensures falls { IfOk result (λ t. work self.new + weight_of t ≤ work self.old + 2) }
    {
        let first = self.values.len();
        self.more_items(host, node, from, first)
    }

    // Goes on with an array literal, whose values begin at `first`.
    fn more_items(
        &mut self,
        host: &mut Host,
        node: &'a Items,
        from: usize,
        first: usize,
    ) -> Result<Turn<'a>, Stop>
        ensures fuel { self.new.fuel ≤ self.old.fuel }
        ensures falls { IfOk result (λ t. work self.new + weight_of t ≤ work self.old + 2) }
    {
        let parts: &'a [Part] = &node.parts;
        let next = leaves(
            &mut self.fuel,
            &mut self.at,
            &host.heap,
            &mut self.values,
            self.base,
            self.environment,
            self.room,
            parts,
            from,
        )?;
        if next < parts.len() {
            return self.wait_for(Frame::Items(node, next + 1, first), &parts[next].value);
        }
        self.at = node.at;
        if first > self.values.len() {
            return Err(UNKNOWN);
        }
        let list = host.heap.list(&self.values[first..])?;
        self.values.truncate(first);
        Ok(Turn::Given(Value::List(list)))
    }

    // Keeps a part, or the items of one that is spread.
    #[inline(always)]
    pub fn keep_part(
        &mut self,
        host: &mut Host,
        parts: &'a [Part],
        next: usize,
        at: u32,
        value: Value,
    ) -> Result<(), Stop>
        ensures fuel { self.new.fuel ≡ self.old.fuel }
        ensures frames { self.new.frames ≡ self.old.frames }
    {
        let number = next.saturating_sub(1);
        if number >= parts.len() || !parts[number].is_spread {
            return keep(&mut self.values, value);
        }
        self.at = at;
        spread(host, &mut self.values, value)
    }

    /// An item of an array literal is there.
    pub fn item(
        &mut self,
        host: &mut Host,
        node: &'a Items,
        next: usize,
        first: usize,
        value: Value,
    ) -> Result<Turn<'a>, Stop>
        ensures fuel { self.new.fuel ≤ self.old.fuel }
        ensures falls { IfOk result (λ t. work self.new + weight_of t ≤ work self.old + 2) }
    {
        self.keep_part(host, &node.parts, next, node.at, value)?;
        self.more_items(host, node, next, first)
    }

    /// Begins an object literal: the object is on the values until it is whole.
    pub fn object(&mut self, host: &mut Host, node: &'a Fields) -> Result<Turn<'a>, Stop>
        ensures fuel { self.new.fuel ≤ self.old.fuel }
        ensures falls { IfOk result (λ t. work self.new + weight_of t ≤ work self.old + 2) }
    {
        let object = host.heap.object()?;
        keep(&mut self.values, Value::Object(object))?;
        self.fields(host, node, 0)
    }

    // Goes on with an object literal.
    fn fields(&mut self, host: &mut Host, node: &'a Fields, from: usize) -> Result<Turn<'a>, Stop>
        ensures fuel { self.new.fuel ≤ self.old.fuel }
        ensures falls { IfOk result (λ t. work self.new + weight_of t ≤ work self.old + 2) }
    {
        let fields: &'a [Field] = &node.fields;
        let next = set_leaves(
            &mut self.fuel,
            &mut self.at,
            &mut host.heap,
            &mut self.hints,
            &self.values,
            self.base,
            self.environment,
            self.room,
            fields,
            from,
        )?;
        if next >= fields.len() {
            return Ok(Turn::Given(taken(&mut self.values)?));
        }
        let field: &'a Field = &fields[next];
        match &field.key {
            Key::Computed(key) => self.wait_for(Frame::FieldKey(node, next), key),
            Key::Word(..) | Key::Spread => self.wait_for(Frame::Field(node, next), &field.value),
        }
    }

    /// A computed key of an object literal is there.
    pub fn field_key(
        &mut self,
        node: &'a Fields,
        number: usize,
        key: Value,
    ) -> Result<Turn<'a>, Stop>
        ensures fuel { self.new.fuel ≡ self.old.fuel }
        ensures falls { IfOk result (λ t. work self.new + weight_of t ≤ work self.old + 2) }
    {
        self.at = node.at;
        if !matches!(key, Value::Text(_) | Value::Whole(_)) {
            return Err(BAD_OPERAND);
        }
        let fields: &'a [Field] = &node.fields;
        if number >= fields.len() {
            return Err(UNKNOWN);
        }
        keep(&mut self.values, key)?;
        self.wait_for(Frame::Field(node, number), &fields[number].value)
    }

    // Sets a field of the object that is the last value, perhaps below a computed key.
    fn set_literal_field(
        &mut self,
        host: &mut Host,
        field: &'a Field,
        value: Value,
    ) -> Result<(), Stop>
        ensures fuel { self.new.fuel ≡ self.old.fuel }
        ensures frames { self.new.frames ≡ self.old.frames }
    {
        match &field.key {
            Key::Word(word, hint) => {
                let object = last_object(&self.values)?;
                set_object_field(&mut host.heap, &mut self.hints, object, *word, *hint, value)
            }
            Key::Computed(_) => {
                let key = taken(&mut self.values)?;
                let word = key_word(host, key)?;
                let object = last_object(&self.values)?;
                host.heap.set_field(object, word, value)
            }
            Key::Spread => {
                let object = last_object(&self.values)?;
                spread_object(&mut host.heap, object, value)
            }
        }
    }

    /// The value of a field of an object literal is there.
    pub fn field(
        &mut self,
        host: &mut Host,
        node: &'a Fields,
        number: usize,
        value: Value,
    ) -> Result<Turn<'a>, Stop>
        ensures fuel { self.new.fuel ≤ self.old.fuel }
        ensures falls { IfOk result (λ t. work self.new + weight_of t ≤ work self.old + 2) }
    {
        self.at = node.at;
        if number >= node.fields.len() {
            return Err(UNKNOWN);
        }
        self.set_literal_field(host, &node.fields[number], value)?;
        self.fields(host, node, number + 1)
    }

    /// A function that is made here.
    pub fn function(&mut self, host: &mut Host, number: u32) -> Result<Turn<'a>, Stop>
        ensures fuel { self.new.fuel ≡ self.old.fuel }
        ensures falls { IfOk result (λ t. work self.new + weight_of t ≤ work self.old + 2) }
    {
        let function = host.heap.function(number, self.environment)?;
        Ok(Turn::Given(Value::Function(function)))
    }

    /// A function expression that takes its own name, which is the one cell of an environment.
    pub fn named_function(&mut self, host: &mut Host, number: u32) -> Result<Turn<'a>, Stop>
        ensures fuel { self.new.fuel ≡ self.old.fuel }
        ensures falls { IfOk result (λ t. work self.new + weight_of t ≤ work self.old + 2) }
    {
        let own = host.heap.environment(self.environment, 1)?;
        let value = Value::Function(host.heap.function(number, own)?);
        host.heap.declare(own, 0, 0, value)?;
        Ok(Turn::Given(value))
    }
}

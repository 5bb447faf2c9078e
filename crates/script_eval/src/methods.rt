//! Calls of methods, and by global names.

ghost use Rattle.std.specs.Prelude.{◌≡◌, ◌+◌, ◌≤◌, IfOk};
ghost use Rattle.script_eval.specs.Weight.{weight_of, work};

use crate::fields::{object_field, read, read_at};
use crate::frames::{Flow, Frame, Turn};
use crate::leaf::{leaf, leaves};
use crate::machine::{Machine, is_nothing};
use crate::stack::{BAD_OPERAND, DEEP, NO_FIELD, UNKNOWN, keep, taken};
use host_api::{Callee, call, method, method_at_key};
use host_fields::Host;
use script_check::GlobalCall;
use script_code::{Key, MethodCall, NamedCall, Part};
use script_values::{Fault, Heap, Stop, Value, take};
use std::alloc::Global;
use value_methods::spelled;

const NO_METHOD: Stop = Stop::Fault(Fault::NoMethod);

// A field of an object is a method of it where it is a function.
#[inline(always)]
fn callable(value: Value) -> Option<Callee> {
    match value {
        Value::Function(_) | Value::Native(_) => Some(Callee::Value(value)),
        _ => None,
    }
}

// What a method call calls, with the key where it is computed.
#[inline(always)]
fn sought(
    host: &mut Host,
    hints: &mut [u32],
    this: Value,
    key: &Key,
    computed: Value,
) -> Result<Option<Callee>, Stop> {
    match key {
        Key::Word(word, hint) => match this {
            Value::Object(object) => {
                Ok(callable(object_field(&host.heap, hints, object, *word, *hint)?))
            }
            _ => method(host, this, *word),
        },
        Key::Computed(_) | Key::Spread => method_at_key(host, this, computed),
    }
}

// The value below the object of a method, which is its key where that is computed.
#[inline(always)]
fn key_below(values: &[Value], first: usize) -> Value {
    if first >= 2 && first - 2 < values.len() {
        values[first - 2]
    } else {
        Value::Undefined
    }
}

// Whether an optional call of a method ends its chain: the value has neither such a method nor
// something else under the key.
fn is_absent(
    host: &mut Host,
    hints: &mut [u32],
    this: Value,
    key: &Key,
    computed: Value,
) -> Result<bool, Stop> {
    if sought(host, hints, this, key, computed)?.is_some() {
        return Ok(false);
    }
    let field = match key {
        Key::Word(word, hint) => read(host, hints, this, *word, *hint)?,
        Key::Computed(_) | Key::Spread => read_at(host, this, computed)?,
    };
    Ok(is_nothing(&field))
}

// The keys of an object as a list of texts.
fn keys(alloc: Global, heap: &mut Heap, value: Value) -> Result<Value, Stop> {
    let Value::Object(object) = value else {
        return Err(BAD_OPERAND);
    };
    let mut keys = Vec::new(alloc);
    for index in 0..heap.object_length(object)? {
        if let Some(word) = heap.key(object, index)? {
            keep(&mut keys, Value::Text(heap.word_text(word)?))?;
        }
    }
    Ok(Value::List(heap.list(&keys)?))
}

// What a global function answers.
fn global_answer(host: &mut Host, name: GlobalCall, argument: Value) -> Result<Value, Stop> {
    match name {
        GlobalCall::ObjectKeys => keys(host.alloc, &mut host.heap, argument),
        GlobalCall::ArrayIsArray => Ok(Value::Truth(matches!(
            argument,
            Value::List(_) | Value::NodeList(..)
        ))),
        GlobalCall::String => Ok(Value::Text(spelled(&mut host.heap, argument)?)),
    }
}

impl<'a> Machine<'a> {
    /// A call of a method.
    #[inline(always)]
    pub fn method(&mut self, host: &mut Host, node: &'a MethodCall) -> Result<Turn<'a>, Stop>
        ensures fuel { self.new.fuel ≤ self.old.fuel }
        ensures falls { IfOk result (λ t. work self.new + weight_of t ≤ work self.old + 2) }
    {
        match leaf(
            &mut self.fuel,
            &mut self.at,
            &host.heap,
            &self.values,
            self.base,
            self.environment,
            self.room,
            &node.object,
        )? {
            Some(object) => self.method_of(host, node, object),
            None => self.wait_for(Frame::MethodOf(node), &node.object),
        }
    }

    /// The object of a method is there.
    #[inline(always)]
    pub fn method_of(
        &mut self,
        host: &mut Host,
        node: &'a MethodCall,
        object: Value,
    ) -> Result<Turn<'a>, Stop>
        ensures fuel { self.new.fuel ≤ self.old.fuel }
        ensures falls { IfOk result (λ t. work self.new + weight_of t ≤ work self.old + 2) }
    {
        self.at = node.at;
        if node.is_optional && is_nothing(&object) {
            return Ok(Turn::Ended(Flow::Absent));
        }
        if let Key::Computed(key) = &node.key {
            keep(&mut self.values, object)?;
            return self.wait_for(Frame::MethodKey(node), key);
        }
        self.method_on(host, node, object, Value::Undefined)
    }

    /// The key of a method is there, and the object on the values. Both stay there below the
    /// arguments, the key first.
    pub fn method_key(
        &mut self,
        host: &mut Host,
        node: &'a MethodCall,
        key: Value,
    ) -> Result<Turn<'a>, Stop>
        ensures fuel { self.new.fuel ≤ self.old.fuel }
        ensures falls { IfOk result (λ t. work self.new + weight_of t ≤ work self.old + 2) }
    {
        self.at = node.at;
        let object = taken(&mut self.values)?;
        if is_nothing(&object) {
            return Err(NO_FIELD);
        }
        if !matches!(key, Value::Text(_) | Value::Whole(_)) {
            return Err(BAD_OPERAND);
        }
        keep(&mut self.values, key)?;
        self.method_on(host, node, object, key)
    }

    // The object and the key are tested: the arguments come next.
    #[inline(always)]
    fn method_on(
        &mut self,
        host: &mut Host,
        node: &'a MethodCall,
        object: Value,
        key: Value,
    ) -> Result<Turn<'a>, Stop>
        ensures fuel { self.new.fuel ≤ self.old.fuel }
        ensures falls { IfOk result (λ t. work self.new + weight_of t ≤ work self.old + 2) }
    {
        if is_nothing(&object) {
            return Err(NO_FIELD);
        }
        if node.is_optional_call {
            let sought = object;
            if is_absent(host, &mut self.hints, sought, &node.key, key)? {
                return self.absent(node);
            }
        }
        keep(&mut self.values, object)?;
        let first = self.values.len();
        self.method_arguments(host, node, 0, first)
    }

    // An optional call ends its chain; a computed key is taken from the values.
    fn absent(&mut self, node: &'a MethodCall) -> Result<Turn<'a>, Stop>
        ensures fuel { self.new.fuel ≡ self.old.fuel }
        ensures falls { IfOk result (λ t. work self.new + weight_of t ≤ work self.old + 2) }
    {
        if let Key::Computed(_) = &node.key {
            let _key = taken(&mut self.values)?;
        }
        Ok(Turn::Ended(Flow::Absent))
    }

    // Goes on with the arguments, which are on the values from `first` on, over the object.
    #[inline(always)]
    fn method_arguments(
        &mut self,
        host: &mut Host,
        node: &'a MethodCall,
        from: usize,
        first: usize,
    ) -> Result<Turn<'a>, Stop>
        ensures fuel { self.new.fuel ≤ self.old.fuel }
        ensures falls { IfOk result (λ t. work self.new + weight_of t ≤ work self.old + 2) }
    {
        let parts: &'a [Part] = &node.arguments;
        let next = leaves(
            &mut self.fuel,
            &mut self.at,
            &host.heap,
            &mut self.values,
            self.base,
            self.environment,
            self.room,
            parts,
            from,
        )?;
        if next < parts.len() {
            let frame = Frame::MethodArguments(node, next + 1, first);
            return self.wait_for(frame, &parts[next].value);
        }
        self.call_method(host, node, first)
    }

    /// An argument of a method is there.
    pub fn method_argument(
        &mut self,
        host: &mut Host,
        node: &'a MethodCall,
        next: usize,
        first: usize,
        value: Value,
    ) -> Result<Turn<'a>, Stop>
        ensures fuel { self.new.fuel ≤ self.old.fuel }
        ensures falls { IfOk result (λ t. work self.new + weight_of t ≤ work self.old + 2) }
    {
        self.keep_part(host, &node.arguments, next, node.at, value)?;
        self.method_arguments(host, node, next, first)
    }

    // Calls the method with the values from `first` on, over the object and perhaps its key. The
    // unit is taken before the method is sought.
    #[inline(always)]
    fn call_method(
        &mut self,
        host: &mut Host,
        node: &'a MethodCall,
        first: usize,
    ) -> Result<Turn<'a>, Stop>
        ensures fuel { self.new.fuel ≤ self.old.fuel }
        ensures falls { IfOk result (λ t. work self.new + weight_of t ≤ work self.old + 2) }
    {
        self.at = node.at;
        take(&mut self.fuel, 1)?;
        if first == 0 || first > self.values.len() {
            return Err(UNKNOWN);
        }
        let this = self.values[first - 1];
        let key = key_below(&self.values, first);
        let Some(callee) = sought(host, &mut self.hints, this, &node.key, key)? else {
            return Err(NO_METHOD);
        };
        self.call_found(host, node, callee, first)
    }

    // The method is found, and its unit taken.
    #[inline(always)]
    fn call_found(
        &mut self,
        host: &mut Host,
        node: &'a MethodCall,
        callee: Callee,
        above: usize,
    ) -> Result<Turn<'a>, Stop>
        ensures fuel { self.new.fuel ≤ self.old.fuel }
        ensures falls { IfOk result (λ t. work self.new + weight_of t ≤ work self.old + 4) }
    {
        if node.depth >= self.room {
            return Err(DEEP);
        }
        let first = self.without_key(node, above);
        if first == 0 || first > self.values.len() {
            return Err(UNKNOWN);
        }
        match callee {
            Callee::Method(method) => {
                let this = self.values[first - 1];
                let called = call(host, this, method, &self.values[first..], &mut self.fuel)?;
                self.values.truncate(first - 1);
                self.called(called, node.at, node.depth + 1)
            }
            Callee::Value(callee) => { self.enter_value(host, callee, first, node.at, node.depth) }
        }
    }

    // Takes a computed key from below the object: where the arguments begin then.
    #[inline(always)]
    fn without_key(&mut self, node: &'a MethodCall, first: usize) -> usize
        ensures fuel { self.new.fuel ≡ self.old.fuel }
        ensures frames { self.new.frames ≡ self.old.frames }
    {
        if let Key::Word(..) = &node.key {
            return first;
        }
        if first < 2 || first - 2 >= self.values.len() {
            return first;
        }
        let _key = self.values.remove(first - 2);
        first - 1
    }

    /// A call by a global name, which is an expression too.
    pub fn global(&mut self, host: &mut Host, node: &'a NamedCall) -> Result<Turn<'a>, Stop>
        ensures fuel { self.new.fuel ≤ self.old.fuel }
        ensures falls { IfOk result (λ t. work self.new + weight_of t ≤ work self.old + 2) }
    {
        take(&mut self.fuel, 1)?;
        if node.depth >= self.room {
            self.at = node.name_at;
            return Err(DEEP);
        }
        let first = self.values.len();
        self.global_arguments(host, node, 0, first)
    }

    // Goes on with the arguments, which are on the values from `first` on.
    fn global_arguments(
        &mut self,
        host: &mut Host,
        node: &'a NamedCall,
        from: usize,
        first: usize,
    ) -> Result<Turn<'a>, Stop>
        ensures fuel { self.new.fuel ≤ self.old.fuel }
        ensures falls { IfOk result (λ t. work self.new + weight_of t ≤ work self.old + 2) }
    {
        let parts: &'a [Part] = &node.arguments;
        let next = leaves(
            &mut self.fuel,
            &mut self.at,
            &host.heap,
            &mut self.values,
            self.base,
            self.environment,
            self.room,
            parts,
            from,
        )?;
        if next < parts.len() {
            let frame = Frame::GlobalArguments(node, next + 1, first);
            return self.wait_for(frame, &parts[next].value);
        }
        self.at = node.at;
        take(&mut self.fuel, 1)?;
        let argument = if first < self.values.len() {
            self.values[first]
        } else {
            Value::Undefined
        };
        self.values.truncate(first);
        Ok(Turn::Given(global_answer(host, node.name, argument)?))
    }

    /// An argument of a call by a global name is there.
    pub fn global_argument(
        &mut self,
        host: &mut Host,
        node: &'a NamedCall,
        next: usize,
        first: usize,
        value: Value,
    ) -> Result<Turn<'a>, Stop>
        ensures fuel { self.new.fuel ≤ self.old.fuel }
        ensures falls { IfOk result (λ t. work self.new + weight_of t ≤ work self.old + 2) }
    {
        self.keep_part(host, &node.arguments, next, node.at, value)?;
        self.global_arguments(host, node, next, first)
    }
}

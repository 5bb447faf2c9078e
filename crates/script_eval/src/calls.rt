//! Calls of functions, and the walks of methods that take a function.

ghost use Rattle.std.specs.Prelude.{◌≡◌, ◌+◌, ◌<◌, ◌≤◌, IfOk};
ghost use Rattle.script_eval.specs.Weight.{weight_of, work};

use crate::binds::{Bound, bind, hoist};
use crate::frames::{Caller, Flow, Frame, Turn};
use crate::leaf::{leaf, leaves};
use crate::machine::{Machine, functions_made, is_nothing};
use crate::stack::{DEEP, UNKNOWN, fit, keep, push};
use host_api::{Called, Step, accept, call_native, step};
use host_fields::Host;
use script_code::{Bind, Body, Call, Function, Hoisted, Part, Statement};
use script_values::{Fault, FunctionId, Native, Stop, Value, take};

// That a call's environment was made when so many functions were there: none was.
const NO_ENVIRONMENT: u32 = u32::MAX;

const NOT_CALLABLE: Stop = Stop::Fault(Fault::NotCallable);

// Puts the first values on the values.
fn keep_all(values: &mut Vec<Value>, more: &[Value], count: usize) -> Result<(), Stop> {
    for index in 0..count.min(more.len()) {
        if index < more.len() {
            keep(values, more[index])?;
        }
    }
    Ok(())
}

#[inline(always)]
fn keep_caller(callers: &mut Vec<Caller>, caller: Caller) -> Result<(), Stop> {
    match callers.push(caller) {
        Ok(()) => Ok(()),
        Err(_) => Err(Stop::NoMemory),
    }
}

impl<'a> Machine<'a> {
    /// A call.
    #[inline(always)]
    pub fn call(&mut self, host: &mut Host, node: &'a Call) -> Result<Turn<'a>, Stop>
        ensures fuel { self.new.fuel ≤ self.old.fuel }
        ensures falls { IfOk result (λ t. work self.new + weight_of t ≤ work self.old + 2) }
    {
        match leaf(
            &mut self.fuel,
            &mut self.at,
            &host.heap,
            &self.values,
            self.base,
            self.environment,
            self.room,
            &node.callee,
        )? {
            Some(callee) => self.callee(host, node, callee),
            None => self.wait_for(Frame::Callee(node), &node.callee),
        }
    }

    /// The callee of a call is there.
    #[inline(always)]
    pub fn callee(
        &mut self,
        host: &mut Host,
        node: &'a Call,
        callee: Value,
    ) -> Result<Turn<'a>, Stop>
        ensures fuel { self.new.fuel ≤ self.old.fuel }
        ensures falls { IfOk result (λ t. work self.new + weight_of t ≤ work self.old + 2) }
    {
        if node.is_optional && is_nothing(&callee) {
            return Ok(Turn::Ended(Flow::Absent));
        }
        keep(&mut self.values, callee)?;
        let first = self.values.len();
        self.arguments(host, node, 0, first)
    }

    // Goes on with the arguments, which are on the values from `first` on, over the callee.
    #[inline(always)]
    fn arguments(
        &mut self,
        host: &mut Host,
        node: &'a Call,
        from: usize,
        first: usize,
    ) -> Result<Turn<'a>, Stop>
        ensures fuel { self.new.fuel ≤ self.old.fuel }
        ensures falls { IfOk result (λ t. work self.new + weight_of t ≤ work self.old + 2) }
    {
        let parts: &'a [Part] = &node.arguments;
        let next = leaves(
            &mut self.fuel,
            &mut self.at,
            &host.heap,
            &mut self.values,
            self.base,
            self.environment,
            self.room,
            parts,
            from,
        )?;
        if next < parts.len() {
            return self.wait_for(Frame::Arguments(node, next + 1, first), &parts[next].value);
        }
        self.at = node.at;
        if first == 0 || first > self.values.len() {
            return Err(UNKNOWN);
        }
        let callee = self.values[first - 1];
        self.call_value(host, callee, first, node.at, node.depth)
    }

    /// An argument of a call is there.
    pub fn argument(
        &mut self,
        host: &mut Host,
        node: &'a Call,
        next: usize,
        first: usize,
        value: Value,
    ) -> Result<Turn<'a>, Stop>
        ensures fuel { self.new.fuel ≤ self.old.fuel }
        ensures falls { IfOk result (λ t. work self.new + weight_of t ≤ work self.old + 2) }
    {
        self.keep_part(host, &node.arguments, next, node.at, value)?;
        self.arguments(host, node, next, first)
    }

    /// Calls a value with the values from `first` on, over one that is dropped at the end. The
    /// call is an evaluation inside `depth` of the running function.
    pub fn call_value(
        &mut self,
        host: &mut Host,
        callee: Value,
        first: usize,
        at: u32,
        depth: u32,
    ) -> Result<Turn<'a>, Stop>
        ensures fuel { self.new.fuel ≤ self.old.fuel }
        ensures falls { IfOk result (λ t. work self.new + weight_of t < work self.old) }
    {
        match callee {
            Value::Function(function) => {
                take(&mut self.fuel, 1)?;
                self.enter(host, function, first, at, depth)
            }
            Value::Native(native) => {
                take(&mut self.fuel, 1)?;
                self.call_native(host, native, first, at, depth)
            }
            _ => Err(NOT_CALLABLE),
        }
    }

    /// Begins a call of a value that is a function, whose unit is taken.
    #[inline(always)]
    pub fn enter_value(
        &mut self,
        host: &mut Host,
        callee: Value,
        first: usize,
        at: u32,
        depth: u32,
    ) -> Result<Turn<'a>, Stop>
        ensures fuel { self.new.fuel ≤ self.old.fuel }
        ensures falls { IfOk result (λ t. work self.new + weight_of t ≤ work self.old + 4) }
    {
        match callee {
            Value::Function(function) => self.enter(host, function, first, at, depth),
            Value::Native(native) => self.call_native(host, native, first, at, depth),
            _ => Err(UNKNOWN),
        }
    }

    /// Begins a call of a script function, whose unit is taken.
    #[inline(always)]
    pub fn enter(
        &mut self,
        host: &mut Host,
        callee: FunctionId,
        first: usize,
        at: u32,
        depth: u32,
    ) -> Result<Turn<'a>, Stop>
        ensures fuel { self.new.fuel ≤ self.old.fuel }
        ensures falls { IfOk result (λ t. work self.new + weight_of t ≤ work self.old + 4) }
    {
        if depth >= self.room {
            return Err(DEEP);
        }
        let (number, environment) = host.heap.function_of(callee)?;
        let functions: &'a [Function] = &self.code.functions;
        if number as usize >= functions.len() {
            return Err(UNKNOWN);
        }
        let function: &'a Function = &functions[number as usize];
        let mut caller = Caller {
            environment: self.environment,
            at: self.call_at,
            room: self.room,
            base: self.base,
            functions: NO_ENVIRONMENT,
        };
        self.at = at;
        self.call_at = at;
        self.room -= depth + 1;
        self.base = first;
        self.environment = environment;
        fit(
            &mut host.heap,
            &mut self.values,
            first,
            function.parameters,
            function.has_rest,
        )?;
        if function.cells != 0 {
            caller.functions = functions_made(host);
            self.environment = host.heap.environment(environment, function.cells)?;
        }
        keep_caller(&mut self.callers, caller)?;
        push(&mut self.frames, Frame::Body)?;
        self.entered(host, function)
    }

    // Goes on with a call whose frame is there: the parameters are bound, and then the body runs.
    #[inline(always)]
    fn entered(&mut self, host: &mut Host, function: &'a Function) -> Result<Turn<'a>, Stop>
        ensures fuel { self.new.fuel ≤ self.old.fuel }
        ensures falls { IfOk result (λ t. work self.new + weight_of t ≤ work self.old + 2) }
    {
        if function.steps.is_empty() {
            return self.body(host, function);
        }
        self.entry(host, function, &function.steps, 0, Value::Undefined)
    }

    /// Goes on with the steps of a function's entry.
    pub fn entry(
        &mut self,
        host: &mut Host,
        function: &'a Function,
        steps: &'a [Bind],
        from: usize,
        value: Value,
    ) -> Result<Turn<'a>, Stop>
        ensures fuel { self.new.fuel ≤ self.old.fuel }
        ensures falls { IfOk result (λ t. work self.new + weight_of t ≤ work self.old + 2) }
    {
        self.at = self.call_at;
        let around = self.around();
        match bind(
            host,
            &mut self.hints,
            &mut self.values,
            around,
            steps,
            from,
            value,
        )? {
            Bound::Done => self.body(host, function),
            Bound::Evaluate(expression, next) => {
                if next > steps.len() {
                    return Err(UNKNOWN);
                }
                self.wait_for(Frame::Entry(function, &steps[next..]), expression)
            }
        }
    }

    // Runs the body of a function. A block is an evaluation of its own.
    #[inline(always)]
    fn body(&mut self, host: &mut Host, function: &'a Function) -> Result<Turn<'a>, Stop>
        ensures fuel { self.new.fuel ≤ self.old.fuel }
        ensures falls { IfOk result (λ t. work self.new + weight_of t ≤ work self.old + 2) }
    {
        match &function.body {
            Body::Expression(expression) => Ok(Turn::Expression(expression)),
            Body::Block(hoisted, body) => {
                take(&mut self.fuel, 1)?;
                if self.room == 0 {
                    self.at = self.call_at;
                    return Err(DEEP);
                }
                self.block_of(host, hoisted, body)
            }
        }
    }

    /// Begins the statements of a block whose environment is there.
    #[inline(always)]
    pub fn block_of(
        &mut self,
        host: &mut Host,
        hoisted: &'a [Hoisted],
        body: &'a [Statement],
    ) -> Result<Turn<'a>, Stop>
        ensures fuel { self.new.fuel ≡ self.old.fuel }
        ensures falls { IfOk result (λ t. work self.new + weight_of t ≤ work self.old + 2) }
    {
        if !hoisted.is_empty() {
            let around = self.around();
            hoist(&mut host.heap, &mut self.values, around, hoisted)?;
        }
        self.in_order(body)
    }

    /// A call has an answer.
    #[inline(always)]
    pub fn returned(&mut self, host: &mut Host, answer: Value) -> Result<Turn<'a>, Stop>
        ensures fuel { self.new.fuel ≡ self.old.fuel }
        ensures falls { IfOk result (λ t. work self.new + weight_of t ≤ work self.old + 2) }
    {
        let Some(caller) = self.callers.pop() else {
            return Err(UNKNOWN);
        };
        if caller.functions != NO_ENVIRONMENT {
            host.heap
                .end_environment(self.environment, caller.functions as usize);
        }
        self.values.truncate(self.base.saturating_sub(1));
        self.base = caller.base;
        self.environment = caller.environment;
        self.at = self.call_at;
        self.call_at = caller.at;
        self.room = caller.room;
        Ok(Turn::Given(answer))
    }

    /// Calls a native function, whose unit is taken.
    pub fn call_native(
        &mut self,
        host: &mut Host,
        native: Native,
        first: usize,
        at: u32,
        depth: u32,
    ) -> Result<Turn<'a>, Stop>
        ensures fuel { self.new.fuel ≤ self.old.fuel }
        ensures falls { IfOk result (λ t. work self.new + weight_of t ≤ work self.old + 4) }
    {
        self.at = at;
        if self.room <= depth {
            return Err(DEEP);
        }
        if first == 0 || first > self.values.len() {
            return Err(UNKNOWN);
        }
        let called = call_native(host, native, &self.values[first..], &mut self.fuel)?;
        self.values.truncate(first - 1);
        self.called(called, at, depth + 1)
    }

    /// The host has answered a call, or has begun a walk, whose first step is a turn of its own.
    #[inline(always)]
    pub fn called(&mut self, called: Called, at: u32, depth: u32) -> Result<Turn<'a>, Stop>
        ensures fuel { self.new.fuel ≡ self.old.fuel }
        ensures falls { IfOk result (λ t. work self.new + weight_of t ≤ work self.old + 3) }
    {
        match called {
            Called::Value(value) => Ok(Turn::Given(value)),
            Called::Walk => {
                push(&mut self.frames, Frame::Step(at, depth))?;
                Ok(Turn::Given(Value::Undefined))
            }
        }
    }

    /// Goes on with the last walk of the host.
    pub fn walk(&mut self, host: &mut Host, at: u32, depth: u32) -> Result<Turn<'a>, Stop>
        ensures fuel { self.new.fuel ≤ self.old.fuel }
        ensures falls { IfOk result (λ t. work self.new + weight_of t ≤ work self.old + 2) }
    {
        self.at = at;
        match step(host, &mut self.fuel)? {
            Step::Done(value) => Ok(Turn::Given(value)),
            Step::Call {
                function,
                arguments,
                count,
            } => {
                let callee = function;
                keep(&mut self.values, function)?;
                let first = self.values.len();
                keep_all(&mut self.values, &arguments, count)?;
                push(&mut self.frames, Frame::Walk(at, depth))?;
                self.call_value(host, callee, first, at, depth)
            }
        }
    }

    /// The function of a walk has answered.
    pub fn accepted(
        &mut self,
        host: &mut Host,
        at: u32,
        depth: u32,
        answer: Value,
    ) -> Result<Turn<'a>, Stop>
        ensures fuel { self.new.fuel ≤ self.old.fuel }
        ensures falls { IfOk result (λ t. work self.new + weight_of t ≤ work self.old + 2) }
    {
        self.at = at;
        accept(host, answer, &mut self.fuel)?;
        self.walk(host, at, depth)
    }
}

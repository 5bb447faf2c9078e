//! The machine: what is evaluated now, a stack of frames that wait for it, and a stack of values.
//!
//! Each construct is a method that begins it, and one for each value that it waits for. A method
//! answers the next turn. What is left to do after a part is a frame.

ghost use Rattle.std.specs.Prelude.{◌+◌, ◌<◌, ◌≤◌, IfOk, OnOk};
ghost use Rattle.script_eval.specs.Weight.{weight_of, work};

use crate::binds::Around;
use crate::frames::{Caller, Flow, Frame, Turn};
use crate::leaf::leaf;
use crate::stack::{DEEP, UNKNOWN};
use host_fields::Host;
use script_code::{Code, Expression, Form, Statement, Step};
use script_values::{EnvironmentId, Fault, Stop, Value, take};

/// The most evaluations that are nested.
pub const MAX_NESTING: u32 = 100_000;

/// A run of a script. `base` is where the slots of the running call begin, `room` how many
/// evaluations more may be nested inside it, and `call_at` the offset of the call. `callers` are
/// those of the calls that run, and `at` is the offset of the innermost expression where a fault
/// may come.
#[derive(Drop)]
pub struct Machine<'a> {
    pub code: &'a Code,
    pub fuel: u64,
    pub frames: Vec<Frame<'a>>,
    pub callers: Vec<Caller>,
    pub values: Vec<Value>,
    pub hints: Vec<u32>,
    pub base: usize,
    pub environment: EnvironmentId,
    pub at: u32,
    pub call_at: u32,
    pub room: u32,
    pub exported: Value,
}

/// Whether a value is undefined or null.
#[inline(always)]
pub fn is_nothing(value: &Value) -> bool {
    matches!(*value, Value::Undefined | Value::Null)
}

/// How many functions were made, as a frame keeps it. A heap has fewer than the greatest number.
#[inline(always)]
pub fn functions_made(host: &Host) -> u32 {
    u32::try_from(host.heap.functions_made()).unwrap_or(u32::MAX)
}

impl<'a> Machine<'a> {
    /// Where the names of the running call stand.
    #[inline(always)]
    pub fn around(&self) -> Around {
        Around {
            base: self.base,
            environment: self.environment,
        }
    }

    // Begins an expression.
    #[inline(always)]
    fn begin(&mut self, host: &mut Host, e: &'a Expression) -> Result<Turn<'a>, Stop>
        ensures fuel { self.new.fuel ≤ self.old.fuel }
        ensures nested { OnOk result (e.now.depth ≤ self.old.room) }
        ensures falls { IfOk result (λ t. work self.new + weight_of t < work self.old) }
    {
        if let Some(value) = leaf(
            &mut self.fuel,
            &mut self.at,
            &host.heap,
            &self.values,
            self.base,
            self.environment,
            self.room,
            e,
        )? {
            return Ok(Turn::Given(value));
        }
        take(&mut self.fuel, 1)?;
        self.at = e.at;
        if e.depth > self.room {
            return Err(DEEP);
        }
        match &e.form {
            Form::Binary(node) => self.binary(host, node),
            Form::Get(node) => self.get(host, node),
            Form::SetLocal(slot, value) => self.wait_for(Frame::SetLocal(*slot), value),
            Form::SetCell(up, cell, value) => self.wait_for(Frame::SetCell(*up, *cell), value),
            Form::SetEarly(value) => self.wait_for(Frame::SetEarly, value),
            Form::Update(place, update) => self.update(host, *place, *update),
            Form::Call(node) => self.call(host, node),
            Form::Method(node) => self.method(host, node),
            Form::At(node) => self.lookup(host, node),
            Form::Write(node) => self.write(host, node),
            Form::Logical(node) => self.wait_for(Frame::Logical(node), &node.left),
            Form::Unary(node) => self.wait_for(Frame::Unary(node), &node.operand),
            Form::Conditional(node) => self.wait_for(Frame::Conditional(node), &node.test),
            Form::Compound(node) => self.compound(host, node),
            Form::Template(node) => self.template(host, node, 0),
            Form::List(node) => self.items(host, node, 0),
            Form::Object(node) => self.object(host, node),
            Form::Function(number) => self.function(host, *number),
            Form::NamedFunction(number) => self.named_function(host, *number),
            Form::Global(node) => self.global(host, node),
            Form::Chain(chain) => self.wait_for(Frame::Chain, chain),
            Form::TooLarge => Err(Stop::Fault(Fault::Overflow)),
            Form::Early => Err(Stop::Fault(Fault::EarlyName)),
            Form::Local(_) | Form::Cell(..) | Form::Whole(_) | Form::Text(_) => Err(UNKNOWN),
            Form::Undefined | Form::Truth(_) | Form::Null => Err(UNKNOWN),
        }
    }

    // Begins a statement.
    #[inline(always)]
    fn start(&mut self, host: &mut Host, s: &'a Statement) -> Result<Turn<'a>, Stop>
        ensures fuel { self.new.fuel ≤ self.old.fuel }
        ensures nested { OnOk result (s.now.depth ≤ self.old.room) }
        ensures falls { IfOk result (λ t. work self.new + weight_of t < work self.old) }
    {
        take(&mut self.fuel, 1)?;
        if s.depth > self.room {
            return Err(self.statement_deep(s));
        }
        match &s.step {
            Step::Evaluate(value) => self.wait_for(Frame::Drop, value),
            Step::BeginLocal(slot, value) => self.wait_for(Frame::BeginLocal(*slot), value),
            Step::BeginCell(cell, value) => self.wait_for(Frame::BeginCell(*cell), value),
            Step::If(node) => self.wait_for(Frame::Test(node), &node.test),
            Step::While(node) => self.wait_for(Frame::Again(node), &node.test),
            Step::Return(value) => self.wait_for(Frame::Return, value),
            Step::ReturnUndefined => Ok(Turn::Ended(Flow::Return(Value::Undefined))),
            Step::Block(node) => self.block(host, node),
            Step::For(node) => self.for_loop(host, node),
            Step::ForOf(node) => self.for_of(host, node),
            Step::Bind(steps) => self.steps(host, steps, 0, Value::Undefined),
            Step::Break => Ok(Turn::Ended(Flow::Break)),
            Step::Continue => Ok(Turn::Ended(Flow::Continue)),
            Step::Empty => Ok(Turn::Ended(Flow::Next)),
            Step::Throw(at, value) => self.wait_for(Frame::Throw(*at), value),
            Step::Export(value) => self.wait_for(Frame::Export, value),
            Step::Exports(node) => self.exports(node),
            Step::ExportFunction(number) => self.export_function(host, *number, s.depth),
        }
    }

    // A frame gets the value that it waited for.
    #[inline(always)]
    fn resume(&mut self, host: &mut Host, frame: Frame<'a>, value: Value) -> Result<Turn<'a>, Stop>
        ensures fuel { self.new.fuel ≤ self.old.fuel }
        ensures falls { IfOk result (λ t. work self.new + weight_of t ≤ work self.old + 2) }
    {
        match frame {
            Frame::Apply(node) => self.apply_right(host, node, value),
            Frame::Right(node) => self.right(host, node, value),
            Frame::SetLocal(slot) => self.set_local(slot, value),
            Frame::SetCell(up, cell) => self.set_cell(host, up, cell, value),
            Frame::Drop => Ok(Turn::Ended(Flow::Next)),
            Frame::Test(node) => self.chosen(host, node, value),
            Frame::Again(node) => self.again(host, node, value),
            Frame::BeginLocal(slot) => self.begin_local(slot, value),
            Frame::BeginCell(cell) => self.begin_cell(host, cell, value),
            Frame::Return => Ok(Turn::Ended(Flow::Return(value))),
            Frame::Body => self.returned(host, value),
            Frame::SetEarly => Ok(Turn::Given(value)),
            Frame::Steps(steps) => self.steps(host, steps, 0, value),
            Frame::Head(step, going, node) => self.head(host, node, going, step as usize, value),
            Frame::List(node, functions) => self.over(host, node, functions, value),
            Frame::Throw(at) => self.throw(at),
            Frame::Export => self.export(value),
            Frame::ForFirst(node, functions) => self.for_test(host, node, functions, true),
            Frame::ForTest(node, functions) => self.for_tested(host, node, functions, value),
            Frame::ForUpdate(node, functions) => self.for_test(host, node, functions, false),
            Frame::Rest(_) | Frame::Leave(_) | Frame::While(_) => Err(UNKNOWN),
            Frame::For(..) | Frame::ForOf(..) => Err(UNKNOWN),
            _ => self.resume_part(host, frame, value),
        }
    }

    // A frame of an expression with parts gets the value that it waited for.
    #[inline(always)]
    fn resume_part(
        &mut self,
        host: &mut Host,
        frame: Frame<'a>,
        value: Value,
    ) -> Result<Turn<'a>, Stop>
        ensures fuel { self.new.fuel ≤ self.old.fuel }
        ensures falls { IfOk result (λ t. work self.new + weight_of t ≤ work self.old + 2) }
    {
        match frame {
            Frame::GetOf(node) => self.get_of(host, node, value),
            Frame::AtOf(node) => self.lookup_of(host, node, value),
            Frame::AtKey(node) => self.lookup_at(host, node, value),
            Frame::WriteOf(node) => self.write_of(host, node, value),
            Frame::WriteKey(node) => self.write_key(host, node, value),
            Frame::WriteValue(node) => self.written(host, node, value),
            Frame::Callee(node) => self.callee(host, node, value),
            Frame::Arguments(node, next, first) => self.argument(host, node, next, first, value),
            Frame::MethodOf(node) => self.method_of(host, node, value),
            Frame::MethodKey(node) => self.method_key(host, node, value),
            Frame::MethodArguments(node, next, first) => {
                self.method_argument(host, node, next, first, value)
            }
            Frame::GlobalArguments(node, next, first) => {
                self.global_argument(host, node, next, first, value)
            }
            Frame::Step(at, depth) => self.walk(host, at, depth),
            Frame::Walk(at, depth) => self.accepted(host, at, depth, value),
            Frame::Compound(node) => self.compound_value(host, node, value),
            Frame::Unary(node) => self.unary(host, node, value),
            Frame::Logical(node) => self.logical(host, node, value),
            Frame::Conditional(node) => self.conditional(host, node, value),
            Frame::Template(node, next) => self.template_part(host, node, next, value),
            Frame::Items(node, next, first) => self.item(host, node, next, first, value),
            Frame::FieldKey(node, next) => self.field_key(node, next, value),
            Frame::Field(node, next) => self.field(host, node, next, value),
            Frame::Entry(function, steps) => self.entry(host, function, steps, 0, value),
            Frame::Chain => Ok(Turn::Given(value)),
            _ => Err(UNKNOWN),
        }
    }

    // A frame gets the end of the statement that it waited for, or of a chain.
    #[inline(always)]
    fn after(&mut self, host: &mut Host, frame: Frame<'a>, flow: Flow) -> Result<Turn<'a>, Stop>
        ensures fuel { self.new.fuel ≤ self.old.fuel }
        ensures falls { IfOk result (λ t. work self.new + weight_of t ≤ work self.old + 2) }
    {
        match frame {
            Frame::Rest(rest) => match flow {
                Flow::Next => self.in_order(rest),
                _ => Ok(Turn::Ended(flow)),
            },
            Frame::While(node) => self.while_ended(node, flow),
            Frame::ForOf(node, going) => self.for_of_ended(host, node, going, flow),
            Frame::For(node, functions) => self.for_ended(host, node, functions, flow),
            Frame::ForFirst(node, functions) => self.for_test(host, node, functions, true),
            Frame::Leave(functions) => self.left(host, functions, flow),
            Frame::Body => match flow {
                Flow::Return(value) => self.returned(host, value),
                _ => self.returned(host, Value::Undefined),
            },
            Frame::Chain => Ok(Turn::Given(Value::Undefined)),
            Frame::GetOf(_) | Frame::AtOf(_) | Frame::Callee(_) | Frame::MethodOf(_) => {
                Ok(Turn::Ended(flow))
            }
            _ => Err(UNKNOWN),
        }
    }

    /// Turns until no frame waits, from the start of a call of the function, or of the top level
    /// where the value is none: the value that was given last, or undefined behind a statement.
    pub fn turns(&mut self, host: &mut Host, called: Value) -> Result<Value, Stop>
        ensures { self.new.fuel ≤ self.old.fuel }
    {
        let mut turn = match self.first_turn(host, called) {
            Ok(first) => first,
            Err(stop) => return Err(stop),
        };
        loop {
            match turn {
                Turn::Expression(e) => match self.begin(host, e) {
                    Ok(next) => turn = next,
                    Err(stop) => return Err(stop),
                },
                Turn::Statement(s) => match self.start(host, s) {
                    Ok(next) => turn = next,
                    Err(stop) => return Err(stop),
                },
                Turn::Given(value) => match self.frames.pop() {
                    Some(frame) => match self.resume(host, frame, value) {
                        Ok(next) => turn = next,
                        Err(stop) => return Err(stop),
                    },
                    None => return Ok(value),
                },
                Turn::Ended(flow) => match self.frames.pop() {
                    Some(frame) => match self.after(host, frame, flow) {
                        Ok(next) => turn = next,
                        Err(stop) => return Err(stop),
                    },
                    None => return Ok(Value::Undefined),
                },
            }
        }
    }
}

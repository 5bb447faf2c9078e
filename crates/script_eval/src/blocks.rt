//! Blocks, declarations, choices, and what is exported.

ghost use Rattle.std.specs.Prelude.{◌≡◌, ◌+◌, ◌≤◌, IfOk};
ghost use Rattle.script_eval.specs.Weight.{weight_of, work};

use crate::binds::{Bound, bind};
use crate::frames::{Flow, Frame, Turn};
use crate::machine::Machine;
use crate::stack::{DEEP, UNKNOWN, push};
use host_fields::Host;
use script_code::{Bind, Block, Choice, Exports, Statement, Step};
use script_values::{Fault, Stop, Value, take};
use value_methods::is_true;

impl<'a> Machine<'a> {
    /// The statements of a list, one after another.
    #[inline(always)]
    pub fn in_order(&mut self, body: &'a [Statement]) -> Result<Turn<'a>, Stop>
        ensures fuel { self.new.fuel ≡ self.old.fuel }
        ensures falls { IfOk result (λ t. work self.new + weight_of t ≤ work self.old + 2) }
    {
        match body.split_first() {
            Some((first, rest)) => {
                if !rest.is_empty() {
                    push(&mut self.frames, Frame::Rest(rest))?;
                }
                Ok(Turn::Statement(first))
            }
            None => Ok(Turn::Ended(Flow::Next)),
        }
    }

    /// A block, with an environment where it has cells.
    #[inline(always)]
    pub fn block(&mut self, host: &mut Host, node: &'a Block) -> Result<Turn<'a>, Stop>
        ensures fuel { self.new.fuel ≡ self.old.fuel }
        ensures falls { IfOk result (λ t. work self.new + weight_of t ≤ work self.old + 4) }
    {
        if node.cells != 0 {
            let functions = host.heap.functions_made();
            let environment = host.heap.environment(self.environment, node.cells)?;
            push(&mut self.frames, Frame::Leave(functions))?;
            self.environment = environment;
        }
        self.block_of(host, &node.hoisted, &node.body)
    }

    /// A block with an environment has ended.
    #[inline(always)]
    pub fn left(&mut self, host: &mut Host, functions: usize, flow: Flow) -> Result<Turn<'a>, Stop>
        ensures fuel { self.new.fuel ≡ self.old.fuel }
        ensures falls { IfOk result (λ t. work self.new + weight_of t ≤ work self.old + 2) }
    {
        let ended = self.environment;
        self.environment = host.heap.around(ended)?;
        host.heap.end_environment(ended, functions);
        Ok(Turn::Ended(flow))
    }

    /// Goes on with the steps of a declaration. A fault in one lies at the call around it.
    pub fn steps(
        &mut self,
        host: &mut Host,
        steps: &'a [Bind],
        from: usize,
        value: Value,
    ) -> Result<Turn<'a>, Stop>
        ensures fuel { self.new.fuel ≡ self.old.fuel }
        ensures falls { IfOk result (λ t. work self.new + weight_of t ≤ work self.old + 2) }
    {
        self.at = self.call_at;
        let around = self.around();
        match bind(
            host,
            &mut self.hints,
            &mut self.values,
            around,
            steps,
            from,
            value,
        )? {
            Bound::Done => Ok(Turn::Ended(Flow::Next)),
            Bound::Evaluate(expression, next) => {
                if next > steps.len() {
                    return Err(UNKNOWN);
                }
                self.wait_for(Frame::Steps(&steps[next..]), expression)
            }
        }
    }

    /// The test of an `if` statement is there.
    #[inline(always)]
    pub fn chosen(
        &mut self,
        host: &mut Host,
        node: &'a Choice,
        test: Value,
    ) -> Result<Turn<'a>, Stop>
        ensures fuel { self.new.fuel ≡ self.old.fuel }
        ensures falls { IfOk result (λ t. work self.new + weight_of t ≤ work self.old + 2) }
    {
        if is_true(&host.heap, test)? {
            return Ok(Turn::Statement(&node.yes));
        }
        match &node.no {
            Some(no) => Ok(Turn::Statement(no)),
            None => Ok(Turn::Ended(Flow::Next)),
        }
    }

    /// The value of a `throw` is there.
    pub fn throw(&mut self, at: u32) -> Result<Turn<'a>, Stop>
        ensures fuel { self.new.fuel ≡ self.old.fuel }
        ensures falls { IfOk result (λ t. work self.new + weight_of t ≤ work self.old + 2) }
    {
        self.at = at;
        Err(Stop::Fault(Fault::Thrown))
    }

    /// A statement is nested too deep. Only a `throw` has an offset of its own.
    #[inline(never)]
    pub fn statement_deep(&mut self, s: &'a Statement) -> Stop
        ensures fuel { self.new.fuel ≡ self.old.fuel }
        ensures frames { self.new.frames ≡ self.old.frames }
    {
        self.at = match &s.step {
            Step::Throw(at, _) => *at,
            _ => self.call_at,
        };
        DEEP
    }

    /// The assignment of `module.exports`, an expression inside its statement.
    pub fn exports(&mut self, node: &'a Exports) -> Result<Turn<'a>, Stop>
        ensures fuel { self.new.fuel ≤ self.old.fuel }
        ensures falls { IfOk result (λ t. work self.new + weight_of t ≤ work self.old + 2) }
    {
        take(&mut self.fuel, 1)?;
        self.at = node.at;
        if node.depth > self.room {
            return Err(DEEP);
        }
        self.wait_for(Frame::Export, &node.value)
    }

    /// The exported function is made, by a declaration inside its statement.
    pub fn export_function(
        &mut self,
        host: &mut Host,
        number: u32,
        depth: u32,
    ) -> Result<Turn<'a>, Stop>
        ensures fuel { self.new.fuel ≤ self.old.fuel }
        ensures falls { IfOk result (λ t. work self.new + weight_of t ≤ work self.old + 2) }
    {
        take(&mut self.fuel, 1)?;
        if depth >= self.room {
            self.at = self.call_at;
            return Err(DEEP);
        }
        let function = host.heap.function(number, self.environment)?;
        self.export(Value::Function(function))
    }

    /// The exported value is there.
    pub fn export(&mut self, value: Value) -> Result<Turn<'a>, Stop>
        ensures fuel { self.new.fuel ≡ self.old.fuel }
        ensures falls { IfOk result (λ t. work self.new + weight_of t ≤ work self.old + 2) }
    {
        self.exported = value;
        Ok(Turn::Ended(Flow::Next))
    }
}

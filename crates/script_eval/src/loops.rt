//! Loops. A turn of a loop whose names functions take has an environment of its own.

ghost use Rattle.std.specs.Prelude.{◌≡◌, ◌+◌, ◌≤◌, IfOk};
ghost use Rattle.script_eval.specs.Weight.{weight_of, work};

use crate::binds::{Bound, bind};
use crate::frames::{Flow, Frame, Going, Turn};
use crate::machine::{Machine, functions_made};
use crate::stack::{BAD_OPERAND, UNKNOWN};
use host_fields::{Host, items_of};
use script_code::{Bind, First, Loop, Over, Round};
use script_values::{ListId, Stop, Value};
use value_methods::is_true;

// The list that a value is, or a new one of the items of a node list.
fn list_of(host: &mut Host, value: Value) -> Result<ListId, Stop> {
    if let Value::List(list) = value {
        return Ok(list);
    }
    match items_of(host, value)? {
        Some(items) => host.heap.list(&items),
        None => Err(BAD_OPERAND),
    }
}

impl<'a> Machine<'a> {
    /// The test of a `while` statement is there.
    #[inline(always)]
    pub fn again(&mut self, host: &mut Host, node: &'a Round, test: Value) -> Result<Turn<'a>, Stop>
        ensures fuel { self.new.fuel ≡ self.old.fuel }
        ensures falls { IfOk result (λ t. work self.new + weight_of t ≤ work self.old + 2) }
    {
        if is_true(&host.heap, test)? {
            self.execute(Frame::While(node), &node.body)
        } else {
            Ok(Turn::Ended(Flow::Next))
        }
    }

    /// The body of a `while` statement has ended.
    #[inline(always)]
    pub fn while_ended(&mut self, node: &'a Round, flow: Flow) -> Result<Turn<'a>, Stop>
        ensures fuel { self.new.fuel ≡ self.old.fuel }
        ensures falls { IfOk result (λ t. work self.new + weight_of t ≤ work self.old + 2) }
    {
        match flow {
            Flow::Next | Flow::Continue => self.wait_for(Frame::Again(node), &node.test),
            Flow::Break => Ok(Turn::Ended(Flow::Next)),
            Flow::Return(_) | Flow::Absent => Ok(Turn::Ended(flow)),
        }
    }

    /// A `for` statement with semicolons.
    pub fn for_loop(&mut self, host: &mut Host, node: &'a Loop) -> Result<Turn<'a>, Stop>
        ensures fuel { self.new.fuel ≡ self.old.fuel }
        ensures falls { IfOk result (λ t. work self.new + weight_of t ≤ work self.old + 2) }
    {
        let functions = host.heap.functions_made();
        if node.cells != 0 {
            self.environment = host.heap.environment(self.environment, node.cells)?;
        }
        match &node.first {
            First::Nothing => self.for_tests(node, functions),
            First::Declaration(statement) => {
                self.execute(Frame::ForFirst(node, functions), statement)
            }
            First::Expression(expression) => {
                self.wait_for(Frame::ForFirst(node, functions), expression)
            }
        }
    }

    // A turn whose names a function took begins with an environment that no function has.
    #[inline(always)]
    fn fresh(&mut self, host: &mut Host, node: &'a Loop, functions: usize) -> Result<usize, Stop>
        ensures fuel { self.new.fuel ≡ self.old.fuel }
        ensures frames { self.new.frames ≡ self.old.frames }
    {
        let made = host.heap.functions_made();
        if node.cells != 0 && made != functions {
            self.environment = host.heap.environment_again(self.environment, node.cells)?;
        }
        Ok(made)
    }

    // Tests whether a turn comes.
    #[inline(always)]
    fn for_tests(&mut self, node: &'a Loop, functions: usize) -> Result<Turn<'a>, Stop>
        ensures fuel { self.new.fuel ≡ self.old.fuel }
        ensures falls { IfOk result (λ t. work self.new + weight_of t ≤ work self.old + 2) }
    {
        match &node.test {
            Some(test) => self.wait_for(Frame::ForTest(node, functions), test),
            None => self.execute(Frame::For(node, functions), &node.body),
        }
    }

    /// The test comes: behind what a loop does first its names are copied, behind the update they
    /// were.
    #[inline(always)]
    pub fn for_test(
        &mut self,
        host: &mut Host,
        node: &'a Loop,
        functions: usize,
        is_first: bool,
    ) -> Result<Turn<'a>, Stop>
        ensures fuel { self.new.fuel ≡ self.old.fuel }
        ensures falls { IfOk result (λ t. work self.new + weight_of t ≤ work self.old + 2) }
    {
        if is_first {
            let functions = self.fresh(host, node, functions)?;
            return self.for_tests(node, functions);
        }
        self.for_tests(node, functions)
    }

    /// The test of a `for` statement is there.
    #[inline(always)]
    pub fn for_tested(
        &mut self,
        host: &mut Host,
        node: &'a Loop,
        functions: usize,
        test: Value,
    ) -> Result<Turn<'a>, Stop>
        ensures fuel { self.new.fuel ≡ self.old.fuel }
        ensures falls { IfOk result (λ t. work self.new + weight_of t ≤ work self.old + 2) }
    {
        if is_true(&host.heap, test)? {
            self.execute(Frame::For(node, functions), &node.body)
        } else {
            self.for_left(host, node, functions, Flow::Next)
        }
    }

    // The loop ends, and with it the environment of its names.
    #[inline(always)]
    fn for_left(
        &mut self,
        host: &mut Host,
        node: &'a Loop,
        functions: usize,
        flow: Flow,
    ) -> Result<Turn<'a>, Stop>
        ensures fuel { self.new.fuel ≡ self.old.fuel }
        ensures falls { IfOk result (λ t. work self.new + weight_of t ≤ work self.old + 2) }
    {
        if node.cells != 0 {
            let environment = self.environment;
            self.environment = host.heap.around(environment)?;
            host.heap.end_environment(environment, functions);
        }
        Ok(Turn::Ended(flow))
    }

    /// The body of a `for` statement has ended.
    #[inline(always)]
    pub fn for_ended(
        &mut self,
        host: &mut Host,
        node: &'a Loop,
        functions: usize,
        flow: Flow,
    ) -> Result<Turn<'a>, Stop>
        ensures fuel { self.new.fuel ≡ self.old.fuel }
        ensures falls { IfOk result (λ t. work self.new + weight_of t ≤ work self.old + 2) }
    {
        match flow {
            Flow::Next | Flow::Continue => {
                let functions = self.fresh(host, node, functions)?;
                match &node.update {
                    Some(update) => self.wait_for(Frame::ForUpdate(node, functions), update),
                    None => self.for_tests(node, functions),
                }
            }
            Flow::Break => self.for_left(host, node, functions, Flow::Next),
            Flow::Return(_) | Flow::Absent => self.for_left(host, node, functions, flow),
        }
    }

    /// A `for of` statement. Its names are early while its list is evaluated.
    pub fn for_of(&mut self, host: &mut Host, node: &'a Over) -> Result<Turn<'a>, Stop>
        ensures fuel { self.new.fuel ≡ self.old.fuel }
        ensures falls { IfOk result (λ t. work self.new + weight_of t ≤ work self.old + 2) }
    {
        let functions = host.heap.functions_made();
        if node.cells != 0 {
            self.environment = host.heap.environment(self.environment, node.cells)?;
        }
        self.wait_for(Frame::List(node, functions), &node.list)
    }

    /// The list of a `for of` statement is there.
    pub fn over(
        &mut self,
        host: &mut Host,
        node: &'a Over,
        functions: usize,
        value: Value,
    ) -> Result<Turn<'a>, Stop>
        ensures fuel { self.new.fuel ≡ self.old.fuel }
        ensures falls { IfOk result (λ t. work self.new + weight_of t ≤ work self.old + 2) }
    {
        if node.cells != 0 {
            let environment = self.environment;
            self.environment = host.heap.around(environment)?;
            host.heap.end_environment(environment, functions);
        }
        self.at = self.call_at;
        let list = list_of(host, value)?;
        let turns = host.heap.begin_loop(list)?;
        self.going(
            host,
            node,
            Going {
                turns,
                next: 0,
                functions: 0,
            },
        )
    }

    // The next item of a `for of` statement is bound.
    #[inline(always)]
    fn going(&mut self, host: &mut Host, node: &'a Over, going: Going) -> Result<Turn<'a>, Stop>
        ensures fuel { self.new.fuel ≡ self.old.fuel }
        ensures falls { IfOk result (λ t. work self.new + weight_of t ≤ work self.old + 2) }
    {
        if going.next >= going.turns.length() {
            host.heap.end_loop(going.turns);
            return Ok(Turn::Ended(Flow::Next));
        }
        let item = host.heap.loop_item(going.turns, going.next)?;
        let mut later = going;
        later.next = going.next.saturating_add(1);
        if node.cells != 0 {
            later.functions = functions_made(host);
            self.environment = host.heap.environment(self.environment, node.cells)?;
        }
        self.head(host, node, later, 0, item)
    }

    /// Goes on with the steps of the head, and then with the body.
    #[inline(always)]
    pub fn head(
        &mut self,
        host: &mut Host,
        node: &'a Over,
        going: Going,
        from: usize,
        value: Value,
    ) -> Result<Turn<'a>, Stop>
        ensures fuel { self.new.fuel ≡ self.old.fuel }
        ensures falls { IfOk result (λ t. work self.new + weight_of t ≤ work self.old + 2) }
    {
        self.at = self.call_at;
        let around = self.around();
        let steps: &'a [Bind] = &node.steps;
        match bind(
            host,
            &mut self.hints,
            &mut self.values,
            around,
            steps,
            from,
            value,
        )? {
            Bound::Done => self.execute(Frame::ForOf(node, going), &node.body),
            Bound::Evaluate(expression, next) => {
                let Ok(step) = u32::try_from(next) else {
                    return Err(UNKNOWN);
                };
                self.wait_for(Frame::Head(step, going, node), expression)
            }
        }
    }

    /// The body of a `for of` statement has ended.
    #[inline(always)]
    pub fn for_of_ended(
        &mut self,
        host: &mut Host,
        node: &'a Over,
        going: Going,
        flow: Flow,
    ) -> Result<Turn<'a>, Stop>
        ensures fuel { self.new.fuel ≡ self.old.fuel }
        ensures falls { IfOk result (λ t. work self.new + weight_of t ≤ work self.old + 2) }
    {
        if node.cells != 0 {
            let environment = self.environment;
            self.environment = host.heap.around(environment)?;
            host.heap
                .end_environment(environment, going.functions as usize);
        }
        match flow {
            Flow::Next | Flow::Continue => self.going(host, node, going),
            Flow::Break => {
                host.heap.end_loop(going.turns);
                Ok(Turn::Ended(Flow::Next))
            }
            Flow::Return(_) | Flow::Absent => {
                host.heap.end_loop(going.turns);
                Ok(Turn::Ended(flow))
            }
        }
    }
}

//! What the machine does next, and what waits for it.

use script_code::{
    Access, Bind, Call, Choice, Compound, Conditional, Expression, Fields, Function, Items,
    Logical, Lookup, Loop, MethodCall, NamedCall, Over, Pair, Round, Statement, Template, Unary,
    Write,
};
use script_values::{EnvironmentId, ListLoop, Value};

/// How a statement ended, or that a link of an optional chain has no value to go on with.
#[derive(Clone, Copy)]
pub enum Flow {
    Next,
    Break,
    Continue,
    Return(Value),
    Absent,
}

/// What the next turn of the machine does: it begins an expression or a statement, or hands what
/// one gave to the last frame.
#[derive(Clone, Copy)]
pub enum Turn<'a> {
    Expression(&'a Expression),
    Statement(&'a Statement),
    Given(Value),
    Ended(Flow),
}

/// A loop over a list on its way: the item that is next, and how many functions were made when the
/// turn's environment began.
#[derive(Clone, Copy)]
pub struct Going {
    pub turns: ListLoop,
    pub next: u32,
    pub functions: u32,
}

/// What a call puts back at its end, and how many functions were made when its environment began.
#[derive(Clone, Copy)]
pub struct Caller {
    pub environment: EnvironmentId,
    pub at: u32,
    pub room: u32,
    pub functions: u32,
    pub base: usize,
}

/// What waits: first what waits for a value, then what waits for the end of a statement.
#[derive(Clone, Copy)]
pub enum Frame<'a> {
    SetLocal(u32),
    SetCell(u32, u32),
    SetEarly,
    Compound(&'a Compound),
    Unary(&'a Unary),
    Right(&'a Pair),
    Apply(&'a Pair),
    Logical(&'a Logical),
    Conditional(&'a Conditional),
    Template(&'a Template, usize),
    Items(&'a Items, usize, usize),
    FieldKey(&'a Fields, usize),
    Field(&'a Fields, usize),
    GetOf(&'a Access),
    AtOf(&'a Lookup),
    AtKey(&'a Lookup),
    WriteOf(&'a Write),
    WriteKey(&'a Write),
    WriteValue(&'a Write),
    Callee(&'a Call),
    Arguments(&'a Call, usize, usize),
    MethodOf(&'a MethodCall),
    MethodKey(&'a MethodCall),
    MethodArguments(&'a MethodCall, usize, usize),
    GlobalArguments(&'a NamedCall, usize, usize),
    Chain,
    /// A walk of the host that goes on, with the offset and the depth of the call that began it:
    /// the first step is to come, or the function was called and is to answer.
    Step(u32, u32),
    Walk(u32, u32),
    Drop,
    BeginLocal(u32),
    BeginCell(u32),
    Steps(&'a [Bind]),
    Entry(&'a Function, &'a [Bind]),
    Test(&'a Choice),
    Again(&'a Round),
    ForFirst(&'a Loop, usize),
    ForTest(&'a Loop, usize),
    ForUpdate(&'a Loop, usize),
    List(&'a Over, usize),
    /// The steps of a loop's head, from this one on.
    Head(u32, Going, &'a Over),
    Return,
    Throw(u32),
    Export,
    /// The last of the machine's callers is put back.
    Body,
    Rest(&'a [Statement]),
    /// A block's environment ends, before which so many functions were made.
    Leave(usize),
    While(&'a Round),
    For(&'a Loop, usize),
    ForOf(&'a Over, Going),
}

//! The prepared script: functions of statements and expressions, each of which holds what the
//! machine's frames need.

use script_check::GlobalCall;
use script_values::Word;
use tree_core::Units;

/// Where a name stands: a slot of the running call, or a cell of the environment that stands so
/// many outwards. `Early` is a name that is met before its declaration runs, and so has no value.
#[derive(Clone, Copy, Debug, PartialEq, Eq)]
pub enum Place {
    Local(u32),
    Cell(u32, u32),
    Early,
}

/// An operator of two operands (ECMA-262, 14th edition, clauses 13.7 to 13.11).
#[derive(Clone, Copy, Debug, PartialEq, Eq)]
pub enum Operator {
    Add,
    Subtract,
    Multiply,
    Remainder,
    Same,
    NotSame,
    Equal,
    NotEqual,
    Less,
    LessOrEqual,
    Greater,
    GreaterOrEqual,
}

/// An operator of one operand (clause 13.5).
#[derive(Clone, Copy, Debug, PartialEq, Eq)]
pub enum UnaryOperator {
    Not,
    Minus,
    TypeOf,
}

/// An operator whose right operand may stay as it is (clause 13.13).
#[derive(Clone, Copy, Debug, PartialEq, Eq)]
pub enum LogicalOperator {
    And,
    Or,
    Coalesce,
}

/// `++` or `--`, before its operand or behind it (clause 13.4).
#[derive(Clone, Copy, Debug, PartialEq, Eq)]
pub struct Update {
    pub up: bool,
    pub prefix: bool,
}

/// An expression: its offset in the script, and how many evaluations of its function are around it,
/// it counted.
#[cycle(expressions)]
#[derive(Drop)]
pub struct Expression {
    pub at: u32,
    pub depth: u32,
    pub form: Form,
}

/// What an expression is. `TooLarge` is a number above the range.
#[cycle(expressions)]
#[derive(Drop)]
pub enum Form {
    Undefined,
    Null,
    Truth(bool),
    Whole(i64),
    Text(Word),
    TooLarge,
    Local(u32),
    Cell(u32, u32),
    Early,
    SetLocal(u32, Box<Expression>),
    SetCell(u32, u32, Box<Expression>),
    SetEarly(Box<Expression>),
    Compound(Box<Compound>),
    Update(Place, Update),
    Unary(Box<Unary>),
    Binary(Box<Pair>),
    Logical(Box<Logical>),
    Conditional(Box<Conditional>),
    Template(Box<Template>),
    List(Box<Items>),
    Object(Box<Fields>),
    Function(u32),
    /// A function expression that takes its own name: it is the one cell of an environment.
    NamedFunction(u32),
    Get(Box<Access>),
    At(Box<Lookup>),
    Write(Box<Write>),
    Call(Box<Call>),
    Method(Box<MethodCall>),
    Global(Box<NamedCall>),
    Chain(Box<Expression>),
}

/// A name and an operator before `=`.
#[cycle(expressions)]
#[derive(Drop)]
pub struct Compound {
    pub at: u32,
    pub place: Place,
    pub operator: Operator,
    pub value: Expression,
}

#[cycle(expressions)]
#[derive(Drop)]
pub struct Unary {
    pub at: u32,
    pub operator: UnaryOperator,
    pub operand: Expression,
}

#[cycle(expressions)]
#[derive(Drop)]
pub struct Pair {
    pub operator: Operator,
    pub at: u32,
    pub left: Expression,
    pub right: Expression,
}

#[cycle(expressions)]
#[derive(Drop)]
pub struct Logical {
    pub operator: LogicalOperator,
    pub left: Expression,
    pub right: Box<Expression>,
}

#[cycle(expressions)]
#[derive(Drop)]
pub struct Conditional {
    pub test: Expression,
    pub yes: Box<Expression>,
    pub no: Box<Expression>,
}

/// A template: the word of its text before the first expression, and each expression with the word
/// of the text behind it.
#[cycle(expressions)]
#[derive(Drop)]
pub struct Template {
    pub at: u32,
    pub first: Word,
    pub words: Vec<Word>,
    pub parts: Vec<Expression>,
}

/// An item or an argument, or all those of a list that is spread.
#[cycle(expressions)]
#[derive(Drop)]
pub struct Part {
    pub is_spread: bool,
    pub value: Expression,
}

#[cycle(expressions)]
#[derive(Drop)]
pub struct Items {
    pub at: u32,
    pub parts: Vec<Part>,
}

/// What a field of an object literal is named by, or that an object is spread. `hint` is the number
/// of a place where the machine remembers where a key was found.
#[cycle(expressions)]
#[derive(Drop)]
pub enum Key {
    Word(Word, u32),
    Computed(Box<Expression>),
    Spread,
}

#[cycle(expressions)]
#[derive(Drop)]
pub struct Field {
    pub key: Key,
    pub value: Expression,
}

#[cycle(expressions)]
#[derive(Drop)]
pub struct Fields {
    pub at: u32,
    pub fields: Vec<Field>,
}

/// A read of a field. An optional one ends the chain where the object is undefined or null.
#[cycle(expressions)]
#[derive(Drop)]
pub struct Access {
    pub at: u32,
    pub word: Word,
    pub hint: u32,
    pub is_optional: bool,
    pub object: Expression,
}

/// A read at a computed key.
#[cycle(expressions)]
#[derive(Drop)]
pub struct Lookup {
    pub at: u32,
    pub is_optional: bool,
    pub object: Expression,
    pub key: Box<Expression>,
}

/// What is written to a field.
#[cycle(expressions)]
#[derive(Drop)]
pub enum Written {
    Value(Box<Expression>),
    Compound(Operator, Box<Expression>),
    Update(Update),
}

/// A write to a field. The field is an evaluation of its own, inside the write, around its object.
#[cycle(expressions)]
#[derive(Drop)]
pub struct Write {
    pub at: u32,
    pub target_at: u32,
    pub target_depth: u32,
    pub object: Expression,
    pub key: Key,
    pub written: Written,
}

#[cycle(expressions)]
#[derive(Drop)]
pub struct Call {
    pub at: u32,
    pub depth: u32,
    pub is_optional: bool,
    pub callee: Expression,
    pub arguments: Vec<Part>,
}

/// A call of a method. `is_optional` is said of the field, `is_optional_call` of the call.
#[cycle(expressions)]
#[derive(Drop)]
pub struct MethodCall {
    pub at: u32,
    pub depth: u32,
    pub is_optional: bool,
    pub is_optional_call: bool,
    pub object: Expression,
    pub key: Key,
    pub arguments: Vec<Part>,
}

/// A call by a global name, which is an evaluation of its own.
#[cycle(expressions)]
#[derive(Drop)]
pub struct NamedCall {
    pub at: u32,
    pub name_at: u32,
    pub depth: u32,
    pub name: GlobalCall,
    pub arguments: Vec<Part>,
}

/// One step of a declaration or of a function's entry. A step takes and leaves a value in hand.
#[derive(Drop)]
pub enum Bind {
    /// In hand comes the value of the expression.
    Evaluate(Box<Expression>),
    /// In hand comes undefined.
    Undefined,
    /// In hand comes the value of the slot.
    Take(u32),
    /// The slot begins with the value in hand.
    Begin(u32),
    /// The value in hand goes into a slot that has begun.
    Store(u32),
    /// The cell of the environment begins with the value in hand.
    BeginCell(u32),
    /// In hand comes the field of the value in the slot.
    Field(u32, Word, u32),
    /// So many slots, from this one on, begin with the first items of the list in hand.
    Items(u32, u32),
    /// Where undefined is in hand, the expression's value comes in its place.
    Default(Box<Expression>),
    /// The slot of a rest parameter holds a list, or the arguments were too many for one.
    Rest(u32),
}

/// A function that a block binds when it starts.
#[derive(Clone, Copy, Debug)]
pub struct Hoisted {
    pub function: u32,
    pub place: Entry,
}

/// Where a name begins.
#[derive(Clone, Copy, Debug, PartialEq, Eq)]
pub enum Entry {
    Local(u32),
    Cell(u32),
}

/// A statement, and how many evaluations of its function are around it, it counted.
#[cycle(statements)]
#[derive(Drop)]
pub struct Statement {
    pub depth: u32,
    pub step: Step,
}

/// What a statement is.
#[cycle(statements)]
#[derive(Drop)]
pub enum Step {
    Empty,
    Evaluate(Box<Expression>),
    BeginLocal(u32, Box<Expression>),
    BeginCell(u32, Box<Expression>),
    Bind(Vec<Bind>),
    Block(Box<Block>),
    If(Box<Choice>),
    While(Box<Round>),
    For(Box<Loop>),
    ForOf(Box<Over>),
    Return(Box<Expression>),
    ReturnUndefined,
    /// The offset is the statement's.
    Throw(u32, Box<Expression>),
    Break,
    Continue,
    /// `export default` of an expression.
    Export(Box<Expression>),
    /// `module.exports =`, which is an evaluation inside the statement.
    Exports(Box<Exports>),
    /// `export default` of a function declaration, which is a statement inside this one.
    ExportFunction(u32),
}

/// The value that is exported, and the offset and the depth of its assignment.
#[derive(Drop)]
pub struct Exports {
    pub at: u32,
    pub depth: u32,
    pub value: Expression,
}

/// A block: how many cells its environment has, or 0 where it has none, and the functions that it
/// binds when it starts.
#[cycle(statements)]
#[derive(Drop)]
pub struct Block {
    pub cells: u32,
    pub hoisted: Vec<Hoisted>,
    pub body: Vec<Statement>,
}

#[cycle(statements)]
#[derive(Drop)]
pub struct Choice {
    pub test: Expression,
    pub yes: Box<Statement>,
    pub no: Option<Box<Statement>>,
}

#[cycle(statements)]
#[derive(Drop)]
pub struct Round {
    pub test: Expression,
    pub body: Box<Statement>,
}

/// The head and body of a `for` statement with semicolons. Where names of the head are captured,
/// `cells` is how many, and each turn has an environment of its own (ECMA-262, clause 14.7.4).
#[cycle(statements)]
#[derive(Drop)]
pub struct Loop {
    pub cells: u32,
    pub first: First,
    pub test: Option<Box<Expression>>,
    pub update: Option<Box<Expression>>,
    pub body: Box<Statement>,
}

/// What a `for` statement does first.
#[cycle(statements)]
#[derive(Drop)]
pub enum First {
    Nothing,
    Declaration(Box<Statement>),
    Expression(Box<Expression>),
}

/// The head and body of a `for of` statement. `cells` is as in `Loop`; the steps bind an item.
#[cycle(statements)]
#[derive(Drop)]
pub struct Over {
    pub cells: u32,
    pub list: Box<Expression>,
    pub steps: Vec<Bind>,
    pub body: Box<Statement>,
}

/// What a call of a function runs: a block, with the depth of that block, or an expression.
#[derive(Drop)]
pub enum Body {
    Block(Vec<Hoisted>, Vec<Statement>),
    Expression(Box<Expression>),
}

/// A function: how many parameters it has, which are its first slots, whether the last of them
/// takes the rest of the arguments, how many cells its environment has, and the steps that bind
/// them.
#[derive(Drop)]
pub struct Function {
    pub parameters: u32,
    pub has_rest: bool,
    pub cells: u32,
    pub steps: Vec<Bind>,
    pub body: Body,
}

/// A prepared script. `main` is its top level, and `exported_at` where the exported expression or
/// function starts. `words` are to be the first words of a heap, in this order.
#[derive(Drop)]
pub struct Code {
    pub words: Vec<Units>,
    pub functions: Vec<Function>,
    pub hints: u32,
    pub main: Block,
    pub exported_at: u32,
}
